// Every public name of the library, in one place, and the two functions that touch a lent table of notes: `read` and `read_listed`.
//
// Mirrors axml.rs (apk-info 13770539b8), `AXML::new`. Definitions: walk/specs/Reading.antt.
#![tactic(auto)]

ghost use Rattle.std.specs.Prelude.{[], replicate};
ghost use Rattle.records.specs.Limits.{listed_cap, listed_notes};
ghost use Rattle.records.specs.Words.{merged};
ghost use Rattle.system_types.specs.Names.{lends};
ghost use Rattle.walk.specs.Reading.{Reads, zero_note};

pub use anomaly::Note;
pub use common::{ResourceId, StringIndex, complex_to_float};
pub use errors::{
    FirstNumbers, FirstValue, ManyNumbers, Numbers, PairNumbers, ReadCounts, Refusal, TextNumbers,
    TextState, TextWritten, TextsWritten, ValueNumbers, ValueWritten, first_numbers, many_numbers,
    pair_numbers, read_numbers, text_numbers, value_numbers,
};
pub use first_value::first_value;
pub use first_values::first_values;
pub use head::{content, text};
pub use main_activities::{MainNumbers, main_activities, main_numbers};
pub use many_texts::{texts, value_texts};
use records::{LISTED_CAP, LISTED_NOTES, MERGED};
pub use round_up::{
    AddNumbers, Added, RoundUp, add_numbers, add_reading, empty_round_up, files_read, kinds_in,
    notes_of, refused_by,
};
pub use value_text::{Attribute, value_text};
use walk::NO_NOTE;
pub use xml::is_valid_name;

// Reads `file` into the three tables, and answers the counts or the refusal. `names` and `area` are the lent system names, `cap` is how many
// notes of a kind are kept, `mode` how namespaces are told (W22: 1 is the Rust's way, 2 tells them apart); every length of every table will
// do, and a record without a place is refused by number.
// Ruled out: a success that leaves a word behind its records as it was, and a refusal that keeps a node.
pub fn read(
    file: &[u8],
    names: &[u32],
    area: &[u8],
    nodes: &mut [u32],
    attributes: &mut [u32],
    notes: &mut [Note],
    cap: u32,
    mode: u32,
) -> Result<ReadCounts, Refusal>
    ensures { Reads file.now (lends names.now area.now) nodes.old attributes.old
        notes.old cap mode result nodes.new attributes.new notes.new }
{
    let mut st = walk::begin(notes.len(), cap, mode);
    loop {
        st = walk::advance(file, names, area, nodes, attributes, st);
        if st.done {
            return walk::answer_of(st);
        }
        notes[st.slot] = st.note;
    }
}

// The answer of a reading, and its notes by value.
#[derive(Clone, Copy)]
pub struct Listed {
    pub answer: Result<ReadCounts, Refusal>,
    pub notes: [Note; LISTED_NOTES],
}

// The same with no system names, the cap of a listing and the first mode, with places for all notes that it keeps, which come back by value.
// Ruled out: notes of another cap, and a note past the count that is not zero.
pub fn read_listed(file: &[u8], nodes: &mut [u32], attributes: &mut [u32]) -> Listed
    ensures { Reads file.now (lends [] []) nodes.old attributes.old (replicate listed_notes zero_note) listed_cap merged
        result.answer nodes.new attributes.new result.notes }
{
    let mut notes = [NO_NOTE; LISTED_NOTES];
    let answer = read(
        file,
        &[],
        &[],
        nodes,
        attributes,
        &mut notes,
        LISTED_CAP,
        MERGED,
    );
    Listed { answer, notes }
}
