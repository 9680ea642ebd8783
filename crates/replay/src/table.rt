// Tables of words: filled before a question, held to what is stored behind it.
ghost use Rattle.std.specs.Prelude.{◌*◌, ◌≤◌};
ghost use Rattle.records.specs.Limits.{listed_notes};
ghost use Rattle.records.specs.Words.{note_width};

use axml::Note;
use records::{LISTED_NOTES, NOTE_A, NOTE_B, NOTE_KIND, NOTE_WORDS};
use stored::word;

// What a table holds before a question: no word of it is 0, nor any that is stored.
pub(crate) fn soil(table: &mut [u32]) {
    table.fill(2863311530);
}

// Whether a table begins with the words of `want`, all of them, and the rest of it is 0.
pub(crate) fn holds(table: &[u32], want: &[u8]) -> bool {
    for (i, held) in table.iter().enumerate() {
        if *held != word(want, i) {
            return false;
        }
    }
    want.len() % 4 == 0 && want.len() / 4 <= table.len()
}

// The same of the words of a note, from word i on.
fn is_note(note: Note, want: &[u8], i: usize) -> bool
    requires { i ≤ note_width * listed_notes }
{
    note.kind == word(want, i + NOTE_KIND)
        && note.a == word(want, i + NOTE_A)
        && note.b == word(want, i + NOTE_B)
}

// The same of notes by value.
pub(crate) fn notes_hold(notes: [Note; LISTED_NOTES], want: &[u8]) -> bool {
    for (i, note) in notes.iter().enumerate() {
        if !is_note(*note, want, NOTE_WORDS * i) {
            return false;
        }
    }
    // 104 notes, by which the stored rows have been judged from the first: the program tells what it told.
    want.len() % 4 == 0 && want.len() <= 1248
}
