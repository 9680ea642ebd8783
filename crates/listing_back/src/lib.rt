// A listing read back into the three tables that it was printed from.
//
// No file of the Rust reads a listing. docs/FORMAT.md, L7 to L9. Definitions: specs/Back.antt, specs/Due.antt, specs/Forms.antt.
// One pass over the bytes: a line is held against the form that is due, byte by byte, and a number is taken behind each `=` (taking.rt). Only a
// line that is not the one due is looked at again, to tell its fault (stepping.rt).
#![tactic(auto)]

mod answering;
mod opening;
mod stepping;
mod taking;

ghost use Rattle.std.specs.Prelude.{◌≡◌, true, ◌++◌, ◌*◌, ◌-◌, ◌≤◌, length, take, replicate};
ghost use Rattle.errors.specs.Refusal.{numbers_of};
ghost use Rattle.listing_back.specs.Back.{Relists, fault_numbers};
ghost use Rattle.listing_back.specs.Inner.Whole.{ReadsHead, ReadsAll, TestedHeading, heading_numbers, is_own};

use answering::{listed_answer, own_refusal};
use errors::{ReadCounts, Refusal};
use opening::{Heading, read_head, spot_of};
use records::{ATTRIBUTE_WORDS, NODE_WORDS, NOTE_WORDS, attribute_place, node_place};
use stepping::{Spot, read_end, read_records};
use tables::{zero_all, zero_from};

// What a listing says: the answer that was listed, or why the text is none; and its cap, where 0 says that notes are unknown.
#[derive(Clone, Copy)]
pub struct Relisted {
    pub answer: Result<ReadCounts, Refusal>,
    pub cap: u32,
}

// The records of all three tables, and the end.
fn read_tables(
    text: &[u8],
    h: Heading,
    nodes: &mut [u32],
    attributes: &mut [u32],
    notes: &mut [u32],
) -> Spot
    requires { ReadsHead text.now h }
    ensures { ReadsAll text.now h nodes.old attributes.old notes.old result
        nodes.new attributes.new notes.new }
{
    let a = read_records(text, spot_of(h), 8, 7, nodes, NODE_WORDS, h.nodes, 8);
    let second = 8 + h.nodes as usize;
    let b = read_records(
        text,
        a,
        second,
        8,
        attributes,
        ATTRIBUTE_WORDS,
        h.attributes,
        9,
    );
    let third = second + h.attributes as usize;
    let c = read_records(text, b, third, 9, notes, NOTE_WORDS, h.notes, 10);
    read_end(text, c, third + h.notes as usize)
}

fn refused(number: u32, value: usize) -> Relisted
    requires { is_own number ≡ true }
    ensures { (numbers_of result.answer ≡ fault_numbers number value) × (result.cap ≡ 0) }
{
    Relisted {
        answer: Err(own_refusal(number, value)),
        cap: 0,
    }
}

fn accepted(h: Heading) -> Relisted
    requires { TestedHeading h }
    ensures { (numbers_of result.answer ≡ heading_numbers h) × (result.cap ≡ h.cap) }
{
    Relisted {
        answer: listed_answer(h),
        cap: h.cap,
    }
}

// Zeros behind the records of one table; zeros all over where there is a fault.
fn settle(words: &mut [u32], fault: u32, used: usize)
    requires { fault ≡ 0 → used ≤ length words.old }
    ensures { ((fault ≡ 0 → ⊥) → words.new ≡ replicate (length words.old) 0)
        × (fault ≡ 0 → words.new ≡ take used words.old ++ replicate (length words.old - used) 0) }
{
    if fault != 0 {
        zero_all(words);
        return;
    }
    zero_from(words, used);
}

// The answer that a listing says, and its records in the three tables, zeros behind them; or why the text is none, and zeros all over. Notes are
// words, three to a place. Every text of every length gets an answer. Ruled out: a leading zero taken, a missing last newline taken, and a count
// beside a refusal taken.
pub fn read_listing(
    text: &[u8],
    nodes: &mut [u32],
    attributes: &mut [u32],
    notes: &mut [u32],
) -> Relisted
    ensures { Relists text.now nodes.old attributes.old notes.old result
        nodes.new attributes.new notes.new }
{
    let h = read_head(text);
    let end = read_tables(text, h, nodes, attributes, notes);
    let fault = end.fault;
    settle(nodes, fault, node_place(h.nodes));
    settle(attributes, fault, attribute_place(h.attributes));
    settle(notes, fault, NOTE_WORDS * (h.notes as usize));
    if fault != 0 {
        return refused(fault, end.value);
    }
    accepted(h)
}
