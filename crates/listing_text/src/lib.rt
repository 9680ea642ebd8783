// The text of a listing, into a lent buffer.
//
// No file of the Rust prints a listing. The lines and their order: docs/FORMAT.md, L1 to L4.
// Definitions: specs/Listing.antt (lines and their text), specs/Keys.antt, specs/Printed.antt (the answer and the buffer).
// One pass: each `put` takes the place reached so far, writes what lies within the buffer, and answers the place behind its text (crate `digits`),
// so that the last place is the length of the whole text whether it fits or not.
#![tactic(auto)]

mod fields;

ghost use Rattle.std.specs.Prelude.{◌≡◌, ◌+◌, ◌*◌, ◌≤◌, ◌<◌, length, get_or};
ghost use Rattle.listing_text.specs.Listing.{line_text, lines_text, head_lines, node_line, attribute_line, note_line};
ghost use Rattle.listing_text.specs.Listing.{node_lines, attribute_lines, note_lines, listing_text};
ghost use Rattle.digits.specs.Written.{Wrote};
ghost use Rattle.records.specs.Words.{node_width, attribute_width};
ghost use Rattle.records.specs.Limits.{listed_notes};
ghost use Rattle.listing_text.specs.Printed.{Printed};

use anomaly::Note;
use digits::zero;
use errors::{Numbers, Refusal};
use fields::{put_field, put_three};
use records::{
    ATTRIBUTE_DATA, ATTRIBUTE_NAME, ATTRIBUTE_NAMESPACE, ATTRIBUTE_OWNER, ATTRIBUTE_PREFIX,
    ATTRIBUTE_TYPE, ATTRIBUTE_WORDS, LISTED_ATTRIBUTES, LISTED_NODES, LISTED_NOTES, NODE_COUNT,
    NODE_FIRST, NODE_FIXED, NODE_LINE, NODE_NAME, NODE_PARENT, NODE_WORDS,
};

// How many bytes the seven lines of every answer take at most, how many the line of a record, and so how many the listing of full tables:
// specs/Size.antt.
const HEAD_BYTES: usize = 195;

const LINE_BYTES: usize = 188;

pub const LISTED_BYTES: usize = HEAD_BYTES
    + LINE_BYTES * (LISTED_NODES + LISTED_ATTRIBUTES + LISTED_NOTES);

// The seven lines of every answer, from the front of the buffer on.
fn put_head(out: &mut [u8], cap: u32, n: Numbers) -> usize
    ensures { Wrote 224 0 (lines_text (head_lines cap n)) out.old result out.new }
{
    let a = put_three(
        out,
        0,
        b"refusal",
        n.refusal as u64,
        b"value",
        n.value,
        b"cap",
        cap as u64,
        10,
        10,
    );
    let b = put_three(
        out,
        a,
        b"starts",
        n.starts as u64,
        b"nodes",
        n.nodes as u64,
        b"attributes",
        n.attributes as u64,
        10,
        10,
    );
    put_field(out, b, b"notes", n.notes as u64, 10)
}

// A word of the record at the front, by its place (crate `records`).
fn word(words: &[u32], place: usize) -> u64
    requires { place < length words.now }
    ensures { result ≡ get_or words.now place 0 }
{
    u64::from(words[place])
}

// The line of the node with the number k, whose words are at the front.
fn put_node(out: &mut [u8], p: usize, k: u32, nodes: &[u32]) -> usize
    requires { (p < 1152921504606846976) × (node_width ≤ length nodes.now) }
    ensures { Wrote 224 p (line_text (node_line k nodes.now)) out.old result out.new }
{
    let name = word(nodes, NODE_NAME);
    let fixed = word(nodes, NODE_FIXED);
    let parent = word(nodes, NODE_PARENT);
    let first = word(nodes, NODE_FIRST);
    let count = word(nodes, NODE_COUNT);
    let line = word(nodes, NODE_LINE);
    let a = put_three(
        out, p, b"node", k as u64, b"name", name, b"fixed", fixed, 32, 32,
    );
    let b = put_three(
        out, a, b"parent", parent, b"first", first, b"count", count, 32, 32,
    );
    put_field(out, b, b"line", line, 10)
}

// The line of the attribute with the number k, whose words are at the front.
fn put_attribute(out: &mut [u8], p: usize, k: u32, attributes: &[u32]) -> usize
    requires { (p < 1152921504606846976) × (attribute_width ≤ length attributes.now) }
    ensures { Wrote 224 p (line_text (attribute_line k attributes.now)) out.old result out.new }
{
    let owner = word(attributes, ATTRIBUTE_OWNER);
    let prefix = word(attributes, ATTRIBUTE_PREFIX);
    let name = word(attributes, ATTRIBUTE_NAME);
    let kind = word(attributes, ATTRIBUTE_TYPE);
    let data = word(attributes, ATTRIBUTE_DATA);
    let ns = word(attributes, ATTRIBUTE_NAMESPACE);
    let a = put_three(
        out,
        p,
        b"attribute",
        k as u64,
        b"owner",
        owner,
        b"prefix",
        prefix,
        32,
        32,
    );
    let b = put_three(out, a, b"name", name, b"type", kind, b"data", data, 32, 32);
    put_field(out, b, b"ns", ns, 10)
}

// The line of the note with the number k.
fn put_note(out: &mut [u8], p: usize, k: u32, o: Note) -> usize
    requires { p < 1152921504606846976 }
    ensures { Wrote 128 p (line_text (note_line k o)) out.old result out.new }
{
    let a = put_three(
        out,
        p,
        b"note",
        k as u64,
        b"kind",
        o.kind as u64,
        b"a",
        o.a as u64,
        32,
        32,
    );
    put_field(out, a, b"b", o.b as u64, 10)
}

// The lines of the first `count` nodes; a node that the table does not hold whole has none.
fn put_nodes(out: &mut [u8], p: usize, count: u32, nodes: &[u32]) -> usize
    requires { p < 100000000000000 }
    ensures { Wrote (224 * count) p (lines_text (node_lines 0 count nodes.now)) out.old result out.new }
{
    let mut at = p;
    let mut rest = nodes;
    for k in 0..count {
        if rest.len() < NODE_WORDS {
            return at;
        }
        at = put_node(out, at, k, rest);
        rest = &rest[NODE_WORDS..];
    }
    at
}

// The lines of the first `count` attributes; an attribute that the table does not hold whole has none.
fn put_attributes(out: &mut [u8], p: usize, count: u32, attributes: &[u32]) -> usize
    requires { p < 100000000000000 }
    ensures { Wrote (224 * count) p (lines_text (attribute_lines 0 count attributes.now)) out.old result out.new }
{
    let mut at = p;
    let mut rest = attributes;
    for k in 0..count {
        if rest.len() < ATTRIBUTE_WORDS {
            return at;
        }
        at = put_attribute(out, at, k, rest);
        rest = &rest[ATTRIBUTE_WORDS..];
    }
    at
}

// The lines of the first `count` notes, as many of them as a listing has room for.
fn put_notes(out: &mut [u8], p: usize, count: u32, notes: [Note; LISTED_NOTES]) -> usize
    requires { p < 100000000000000 }
    ensures { Wrote (128 * listed_notes) p (lines_text (note_lines 0 count notes)) out.old result out.new }
{
    let mut at = p;
    for k in 0..count {
        let i = k as usize;
        if LISTED_NOTES <= i {
            return at;
        }
        at = put_note(out, at, k, notes[i]);
    }
    at
}

// The whole listing from the front of the buffer on.
fn put_listing(
    out: &mut [u8],
    cap: u32,
    n: Numbers,
    nodes: &[u32],
    attributes: &[u32],
    notes: [Note; LISTED_NOTES],
) -> usize
    ensures { Wrote (224 + (224 * n.nodes + (224 * n.attributes + 128 * listed_notes))) 0
        (listing_text cap n nodes.now attributes.now notes)
        out.old result out.new }
{
    let a = put_head(out, cap, n);
    let b = put_nodes(out, a, n.nodes, nodes);
    let c = put_attributes(out, b, n.attributes, attributes);
    put_notes(out, c, n.notes, notes)
}

// The listing of an answer: its text at the front of the buffer, zeros behind it, and the length of the text; zeros all over and
// refusal 11 with the bytes needed where the buffer is shorter. `n`, the tables and the notes are what a reading returned, or anything else.
// Ruled out: a number printed with a leading zero, and refusal 11 for a text that fills the buffer.
pub fn listing_into(
    cap: u32,
    n: Numbers,
    nodes: &[u32],
    attributes: &[u32],
    notes: [Note; LISTED_NOTES],
    out: &mut [u8],
) -> Result<usize, Refusal>
    ensures { Printed (listing_text cap n nodes.now attributes.now notes) out.old result out.new }
{
    let end = put_listing(out, cap, n, nodes, attributes, notes);
    if out.len() < end {
        zero(out);
        return Err(Refusal::TextShort(end));
    }
    zero(&mut out[end..]);
    Ok(end)
}
