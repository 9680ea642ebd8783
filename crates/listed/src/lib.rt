// The listing of what came in, in lent tables and a lent buffer: all of the listing program but for moving bytes.
//
// Mirrors nothing of the Rust's. docs/FORMAT.md, L1 to L4. Definitions: specs/Lists.antt.
// `axml::read_listed` reads and `listing_text::listing_into` prints; the limit, the cap and the rooms are those of crate `records`.
#![tactic(auto)]

ghost use Rattle.listed.specs.Lists.{ReadsToList, Lists};

use axml::Listed;
use errors::Refusal;
use records::{LISTED_CAP, LISTED_FILE, LISTED_NOTES};
use tables::zero_all;
use walk::NO_NOTE;

// The reading that is listed: more bytes than the limit are refused unread.
fn read_to_list(file: &[u8], nodes: &mut [u32], attributes: &mut [u32]) -> Listed
    ensures { ReadsToList file.now nodes.old attributes.old result.answer
        nodes.new attributes.new result.notes }
{
    let too_long = LISTED_FILE < file.len();
    if too_long {
        zero_all(nodes);
        zero_all(attributes);
        return Listed {
            answer: Err(Refusal::TooLargeError),
            notes: [NO_NOTE; LISTED_NOTES],
        };
    }
    axml::read_listed(file, nodes, attributes)
}

// The listing of `file`, with the reading that it lists in the two tables: more bytes than the limit are refused with 2, unread. Every length
// of every table and buffer will do; where a record has no place that is listed (8, 9), and where the text has none the answer is 11.
// Ruled out: the listing of a part of the file, and a word or a byte that stays as it was.
pub fn list_into(
    file: &[u8],
    nodes: &mut [u32],
    attributes: &mut [u32],
    out: &mut [u8],
) -> Result<usize, Refusal>
    ensures { Lists file.now nodes.old attributes.old out.old result
        nodes.new attributes.new out.new }
{
    let read = read_to_list(file, nodes, attributes);
    listing_text::listing_into(
        LISTED_CAP,
        errors::read_numbers(read.answer),
        nodes,
        attributes,
        read.notes,
        out,
    )
}
