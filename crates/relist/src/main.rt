// Reads a listing on standard input and prints it again: docs/FORMAT.md, L10.
//
// What is written is printed from the records that were read, by the printer of the listing program (`listing_text::listing_into`), and `judge` says
// that it is the text of what was read, which is the text that came in. A text that is no listing is told by the number of its refusal and its
// value, in a line of its own, `fault=24 value=9`. More bytes than any listing has are told as `fault=0`. A read or a write that fails ends the
// program with an error.
#![tactic(auto)]

ghost use Rattle.std.specs.Prelude.{◌≡◌, ◌+◌, ◌*◌, ◌≤◌, length, drop, get_or, OnOk};
ghost use Rattle.records.specs.Words.{note_width};
ghost use Rattle.records.specs.Limits.{listed_notes};
ghost use Rattle.listing_text.specs.Size.{listed_bytes};
ghost use Rattle.listing_back.specs.Inner.Whole.{is_own};
ghost use Rattle.relist.specs.Inner.Judged.{note_in, notes_from, Judges, RelistsOut, RelistsAll};

use anomaly::Note;
use errors::read_numbers;
use listing_back::read_listing;
use listing_text::{LISTED_BYTES, listing_into};
use records::{
    ATTRIBUTE_WORDS, LISTED_ATTRIBUTES, LISTED_NODES, LISTED_NOTES, NODE_WORDS, NOTE_A, NOTE_B,
    NOTE_KIND, NOTE_WORDS,
};
use std::io;
use std::io::{Read, Write};
use stored::read_in;

// A refusal of the reader's own: its number and its value.
#[derive(Clone, Copy)]
pub struct Fault {
    pub number: u32,
    pub value: u64,
}

#[tactic(auto, using(crate::proofs::Judging::owns))]
fn is_own(n: u32) -> bool
    ensures { result ≡ is_own n }
{
    matches!(n, 8..=10 | 24..=26)
}

// ---- printed from the records

fn word_at(words: &[u32], i: usize) -> u32
    ensures { result ≡ get_or words.now i 0 }
{
    words.get(i).copied().unwrap_or(0)
}

// The note whose words begin at i.
fn note_at(words: &[u32], i: usize) -> Note
    requires { i ≤ note_width * listed_notes }
    ensures { result ≡ note_in (drop i words.now) }
{
    let kind = word_at(words, i + NOTE_KIND);
    let a = word_at(words, i + NOTE_A);
    let b = word_at(words, i + NOTE_B);
    Note { kind, a, b }
}

// The notes of words, as the printer takes them.
fn notes_of(words: &[u32]) -> [Note; LISTED_NOTES]
    ensures { result ≡ notes_from listed_notes words.now }
{
    let mut notes = [Note {
        kind: 0,
        a: 0,
        b: 0,
    }; LISTED_NOTES];
    for i in 0..LISTED_NOTES {
        notes[i] = note_at(words, NOTE_WORDS * i);
    }
    notes
}

// How long the listing is; what it says is printed from its records, and is the text that came in. Or why the text is none.
// Ruled out: a listing of a refusal taken for a fault, a fault taken for a listing, and records printed that are not those of the text.
fn judge(
    text: &[u8],
    nodes: &mut [u32],
    attributes: &mut [u32],
    notes: &mut [u32],
    out: &mut [u8],
) -> Result<usize, Fault>
    requires { (length notes.old ≡ note_width * listed_notes) × (length text.now ≤ length out.old) }
    ensures { Judges text.now (length nodes.old) (length attributes.old) (length notes.old) result out.new }
{
    let read = read_listing(text, nodes, attributes, notes);
    let n = read_numbers(read.answer);
    if is_own(n.refusal) {
        return Err(Fault {
            number: n.refusal,
            value: n.value,
        });
    }
    let printed = listing_into(read.cap, n, nodes, attributes, notes_of(notes), out);
    // never 0: the text is as long as the one that came in
    Ok(printed.unwrap_or(0))
}

// ---- what comes in and goes out

fn write_fault<W: Write>(writer: &mut W, fault: Fault) -> io::Result<()> {
    writeln!(writer, "fault={} value={}", fault.number, fault.value)
}

// What is written of a listing is that listing. Ruled out: a listing that is not written whole.
fn relist<W: Write>(
    writer: &mut W,
    text: &[u8],
    nodes: &mut [u32],
    attributes: &mut [u32],
    notes: &mut [u32],
    out: &mut [u8],
) -> io::Result<()>
    requires { (length notes.old ≡ note_width * listed_notes) × (length text.now ≤ length out.old) }
    ensures { OnOk result (RelistsOut text.now (length nodes.old) (length attributes.old) (length notes.old) (W.contents writer.old) (W.contents writer.new)) }
{
    match judge(text, nodes, attributes, notes, out) {
        Ok(printed) => writer.write_all(&out[..printed]),
        Err(fault) => write_fault(writer, fault),
    }
}

// Reads, judges and writes: of known bytes that are a listing, that listing. The room has a byte more than any listing, and the buffer as many.
// Ruled out: a part of what the reader had taken for the whole.
fn run<R: Read, W: Write>(
    reader: &mut R,
    writer: &mut W,
    text: &mut [u8],
    nodes: &mut [u32],
    attributes: &mut [u32],
    notes: &mut [u32],
    out: &mut [u8],
) -> io::Result<()>
    requires { (length notes.old ≡ note_width * listed_notes) × (length text.old ≡ listed_bytes + 1) × (listed_bytes + 1 ≤ length out.old) }
    ensures { OnOk result (RelistsAll (R.remaining reader.old) (length text.old) (length nodes.old) (length attributes.old) (length notes.old)
        (W.contents writer.old) (W.contents writer.new)) }
{
    let n = read_in(reader, text)?;
    if text.len() <= n {
        let longer = Fault {
            number: 0,
            value: 0,
        };
        return write_fault(writer, longer);
    }
    relist(writer, &text[..n], nodes, attributes, notes, out)
}

fn main(rt: HostRuntime) -> io::Result<()> {
    let from = &mut rt.stdin();
    let to = &mut rt.stdout();
    let mut text = [0u8; LISTED_BYTES + 1];
    let mut nodes = [0u32; NODE_WORDS * LISTED_NODES];
    let mut attributes = [0u32; ATTRIBUTE_WORDS * LISTED_ATTRIBUTES];
    let mut notes = [0u32; NOTE_WORDS * LISTED_NOTES];
    let mut out = [0u8; LISTED_BYTES + 1];
    run(
        from,
        to,
        &mut text,
        &mut nodes,
        &mut attributes,
        &mut notes,
        &mut out,
    )
}
