// A listing read back into tables that C lends: crate listing_back, with the answer as a struct of numbers. Definitions: specs/Relisting.antt.
ghost use Rattle.std.specs.Prelude.{◌≡◌};
ghost use Rattle.c_api.specs.Relisting.{RelistsWords, relisted_of};

use errors::{Numbers, read_numbers};
use listing_back::read_listing;

// The numbers of what a listing says, and its cap: 0 says that notes are unknown.
#[repr(C)]
#[derive(Clone, Copy)]
pub struct AxmlRelisted {
    pub refusal: u32,
    pub value: u64,
    pub starts: u32,
    pub nodes: u32,
    pub attributes: u32,
    pub notes: u32,
    pub cap: u32,
}

fn relisted_of(n: Numbers, cap: u32) -> AxmlRelisted
    ensures { result ≡ relisted_of n cap }
{
    AxmlRelisted {
        refusal: n.refusal,
        value: n.value,
        starts: n.starts,
        nodes: n.nodes,
        attributes: n.attributes,
        notes: n.notes,
        cap: cap,
    }
}

// Reads a listing into the three tables, notes three words to a place: the answer that was listed, or 24 to 26 with the line that is wrong, 8 to 10
// where a record has no place, and then all words are 0. Ruled out: a listed refusal told as one of the reader's own, and words that stay as they were.
#[unsafe(no_mangle)]
pub extern "C" fn axml_read_listing(
    text: &[u8],
    nodes: &mut [u32],
    attributes: &mut [u32],
    notes: &mut [u32],
) -> AxmlRelisted
    ensures { RelistsWords text.now nodes.old attributes.old notes.old result
        nodes.new attributes.new notes.new }
{
    let read = read_listing(text, nodes, attributes, notes);
    let answer = read.answer;
    let cap = read.cap;
    relisted_of(read_numbers(answer), cap)
}
