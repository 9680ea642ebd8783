// What is amiss in a file that is read all the same, and how many notes of each kind are kept.
//
// Mirrors anomaly.rs (apk-info 13770539b8): `ResAnomaly`, its thirteen kinds of AXML, `kind_index`, `Anomalies::push`; the fourteenth kind, a damaged
// name of an element, is ours.
// Definitions: specs/Note.antt, specs/Kept.antt.
// Differs from the Rust: names are string indices; the cap is an argument; the notes go to a lent table, so `Notes` holds how many there are.
#![tactic(auto)]

ghost use Rattle.std.specs.Prelude.{◌≡◌, ◌<◌, get_or};
ghost use Rattle.anomaly.specs.Note.{made, note_of, kinds, kind_index};
ghost use Rattle.anomaly.specs.Kept.{is_due, no_notes, stored_in};

use common::StringIndex;

// A note as it is lent and printed: the number of its kind, and two numbers that the kind explains.
#[repr(C)]
#[derive(Clone, Copy, Debug, PartialEq, Eq)]
pub struct Note {
    pub kind: u32,
    pub a: u32,
    pub b: u32,
}

// What was amiss, with the numbers that a note tells of it.
#[derive(Clone, Copy, Debug, PartialEq, Eq)]
pub enum ResAnomaly {
    StringPoolGarbageChunk(u32, u32), // a chunk of another type where the pool was expected: its type, and how many bytes were skipped
    StringCountMismatch(u32, u32), // the declared number of strings, and how many offsets there are
    StringOffsetsOutOfBounds(u32), // how many offsets point past the string data
    NonXmlChunk(u32), // the type of the first chunk of a stretch that is not XML
    XmlNodeHeaderSize(u32), // the header size, not 16, of the first chunk of a stretch
    UnknownChunk(u32), // the type of an XML chunk that the walk does not know
    AttributeStartShifted(u32), // where attributes start, above 20
    AttributeSizeMismatch(u32), // the size of an attribute, above 20
    ElementTrailingBytes(u32), // how many bytes are left over at the end of a start
    InvalidElementName(StringIndex, u32), // the index of an element's name, and 1 if it has a text, else 0
    InvalidAttributeName(StringIndex), // the index of an attribute's name
    TruncatedXml, // the tree ends inside a node
    UnclosedElements(u32), // how deep the end of the walk is
    DamagedElementName(StringIndex, u32), // the index of an element's name, and the state of its text: 1, 2 or 3
}

// How many kinds there are.
pub const KINDS: usize = 14;

// The place of a kind in the counts, in the order of the Rust's declaration, ours behind them.
// Ruled out: one place for two kinds, and a place past the last.
#[tactic(auto, unfolding(crate::specs::Note::kind_index))]
pub fn kind_index(x: ResAnomaly) -> usize
    ensures { result ≡ kind_index x }
{
    match x {
        ResAnomaly::StringPoolGarbageChunk(_, _) => 0,
        ResAnomaly::StringCountMismatch(_, _) => 1,
        ResAnomaly::StringOffsetsOutOfBounds(_) => 2,
        ResAnomaly::NonXmlChunk(_) => 3,
        ResAnomaly::XmlNodeHeaderSize(_) => 4,
        ResAnomaly::UnknownChunk(_) => 5,
        ResAnomaly::AttributeStartShifted(_) => 6,
        ResAnomaly::AttributeSizeMismatch(_) => 7,
        ResAnomaly::ElementTrailingBytes(_) => 8,
        ResAnomaly::InvalidElementName(_, _) => 9,
        ResAnomaly::InvalidAttributeName(_) => 10,
        ResAnomaly::TruncatedXml => 11,
        ResAnomaly::UnclosedElements(_) => 12,
        ResAnomaly::DamagedElementName(_, _) => 13,
    }
}

// The note of these three numbers.
fn made(kind: u32, a: u32, b: u32) -> Note
    ensures { result ≡ made kind a b }
{
    Note { kind, a, b }
}

impl From<ResAnomaly> for Note {
    ghost from_gives = { λ x note. note ≡ note_of x };

    #[tactic(auto, unfolding(crate::specs::Note::note_of))]
    fn from(x: ResAnomaly) -> Note {
        match x {
            ResAnomaly::StringPoolGarbageChunk(chunk_type, skipped) => made(0, chunk_type, skipped),
            ResAnomaly::StringCountMismatch(declared, actual) => made(1, declared, actual),
            ResAnomaly::StringOffsetsOutOfBounds(count) => made(2, count, 0),
            ResAnomaly::NonXmlChunk(chunk_type) => made(3, chunk_type, 0),
            ResAnomaly::XmlNodeHeaderSize(header_size) => made(4, header_size, 0),
            ResAnomaly::UnknownChunk(chunk_type) => made(5, chunk_type, 0),
            ResAnomaly::AttributeStartShifted(attribute_start) => made(6, attribute_start, 0),
            ResAnomaly::AttributeSizeMismatch(attribute_size) => made(7, attribute_size, 0),
            ResAnomaly::ElementTrailingBytes(len) => made(8, len, 0),
            ResAnomaly::InvalidElementName(name, has_text) => made(9, name.0, has_text),
            ResAnomaly::InvalidAttributeName(name) => made(10, name.0, 0),
            ResAnomaly::TruncatedXml => made(11, 0, 0),
            ResAnomaly::UnclosedElements(count) => made(12, count, 0),
            ResAnomaly::DamagedElementName(name, state) => made(32, name.0, state),
        }
    }
}

// What is printed of an anomaly. Ruled out: a and b in each other's place, and a number left over where a kind has none.
pub fn note_of(x: ResAnomaly) -> Note
    ensures { result ≡ note_of x }
{
    Note::from(x)
}

// The note state: how many notes of each kind are kept, and how many in all, which is the place of the next in the table.
#[derive(Clone, Copy, Debug, PartialEq, Eq)]
pub struct Notes {
    pub counts: [u32; KINDS],
    pub used: usize,
}

impl Notes {
    // Before the first note.
    pub fn new() -> Notes
        ensures { result ≡ no_notes }
    {
        Notes {
            counts: [0u32; KINDS],
            used: 0,
        }
    }

    // Whether one more note of the kind with this place is kept: a note past its cap is not due.
    // Ruled out: no for the first of a kind because another kind is at its cap, and yes with cap 0.
    pub fn is_due(self, cap: u32, kind: usize) -> bool
        requires { kind < kinds }
        ensures { result ≡ is_due cap self.counts kind }
    {
        self.counts[kind] < cap
    }

    // The state with one more note of the kind with this place.
    // Ruled out: another kind's count moved, and the number of notes left as it was.
    pub fn stored(self, kind: usize) -> Notes
        requires { (kind < kinds) × (get_or self.counts kind 0 < 4294967295) × (self.used < 18446744073709551615) }
        ensures { result ≡ stored_in self kind }
    {
        let mut counts = self.counts;
        counts[kind] += 1;
        Notes {
            counts,
            used: self.used + 1,
        }
    }
}
