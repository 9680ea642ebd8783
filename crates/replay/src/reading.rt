// A stored reading: it is asked for again, and the answer and every word of the three lent tables are held to what is stored.
use crate::count;
use crate::table::{holds, notes_hold, soil};
use axml::{Note, Numbers, read_listed, read_numbers};
use c_api::{AxmlAnswer, axml_read};
use records::{LISTED_NOTES, NOTE_WORDS};
use stored::{part, tally, word};

// ---- an answer

// Whether the numbers of an answer are those of the row.
fn tells(row: &[u8], n: Numbers) -> bool {
    n.refusal == word(row, 6)
        && n.value == u64::from(word(row, 7))
        && n.starts == word(row, 8)
        && n.nodes == word(row, 9)
        && n.attributes == word(row, 10)
        && n.notes == word(row, 11)
}

// Whether numbers, nodes and attributes are the row's: every word of the two tables.
fn is_right(data: &[u8], row: &[u8], n: Numbers, nodes: &[u32], attributes: &[u32]) -> bool {
    tells(row, n) && holds(nodes, part(data, row, 14)) && holds(attributes, part(data, row, 16))
}

// And the notes, as words.
fn is_right_whole(
    data: &[u8],
    row: &[u8],
    n: Numbers,
    nodes: &[u32],
    attributes: &[u32],
    notes: &[u32],
) -> bool {
    is_right(data, row, n, nodes, attributes) && holds(notes, part(data, row, 18))
}

// And the notes, by value.
fn is_right_listed(
    data: &[u8],
    row: &[u8],
    n: Numbers,
    nodes: &[u32],
    attributes: &[u32],
    notes: [Note; LISTED_NOTES],
) -> bool {
    is_right(data, row, n, nodes, attributes) && notes_hold(notes, part(data, row, 18))
}

// ---- a reading

// The numbers of an answer of the C interface.
fn numbers_of(a: AxmlAnswer) -> Numbers {
    Numbers {
        refusal: a.refusal,
        value: a.value,
        starts: a.starts,
        nodes: a.nodes,
        attributes: a.attributes,
        notes: a.notes,
    }
}

fn read_by_words(
    file: &[u8],
    names: &[u32],
    area: &[u8],
    nodes: &mut [u32],
    attributes: &mut [u32],
    notes: &mut [u32],
    cap: u32,
    mode: u32,
) -> Numbers {
    numbers_of(axml_read(file, names, area, nodes, attributes, notes, cap, mode))
}

// What the tables hold before a reading.
fn soil_all(nodes: &mut [u32], attributes: &mut [u32], notes: &mut [u32]) {
    soil(nodes);
    soil(attributes);
    soil(notes);
}

// Whether the reading of the row's file into the whole of the tables is the row's. Notes are lent as words, three each.
fn is_read(
    data: &[u8],
    row: &[u8],
    names: &[u32],
    area: &[u8],
    nodes: &mut [u32],
    attributes: &mut [u32],
    notes: &mut [u32],
) -> bool {
    soil_all(nodes, attributes, notes);
    let file = part(data, row, 12);
    let n = read_by_words(
        file,
        names,
        area,
        nodes,
        attributes,
        notes,
        word(row, 1),
        word(row, 20),
    );
    is_right_whole(data, row, n, nodes, attributes, notes)
}

// The same with as many words of each table as the row says, and up to two behind the last note; room that a table does not have is not right.
fn is_read_in(
    data: &[u8],
    row: &[u8],
    names: &[u32],
    area: &[u8],
    nodes: &mut [u32],
    attributes: &mut [u32],
    notes: &mut [u32],
) -> bool {
    let n = word(row, 2) as usize;
    let a = word(row, 3) as usize;
    let places = word(row, 4) as usize;
    let m = NOTE_WORDS * places + places % NOTE_WORDS;
    if nodes.len() < n || attributes.len() < a || notes.len() < m {
        return false;
    }
    is_read(
        data,
        row,
        names,
        area,
        &mut nodes[0..n],
        &mut attributes[0..a],
        &mut notes[0..m],
    )
}

// Whether `read_listed`, which lends `read` places for all notes of a listing, answers so.
fn is_listed(data: &[u8], row: &[u8], nodes: &mut [u32], attributes: &mut [u32]) -> bool {
    soil(nodes);
    soil(attributes);
    let l = read_listed(part(data, row, 12), nodes, attributes);
    let answer = l.answer;
    let notes = l.notes;
    is_right_listed(data, row, read_numbers(answer), nodes, attributes, notes)
}

// The same with as many words of the two tables as the row says.
fn is_listed_in(data: &[u8], row: &[u8], nodes: &mut [u32], attributes: &mut [u32]) -> bool {
    let n = word(row, 2) as usize;
    let a = word(row, 3) as usize;
    if nodes.len() < n || attributes.len() < a {
        return false;
    }
    is_listed(data, row, &mut nodes[0..n], &mut attributes[0..a])
}

// Its row: cap, node words, attribute words, note places, whether `read_listed` answers the same; refusal, value, starts, nodes, attributes,
// notes; the places of the file and of the records of nodes, attributes and notes; the mode.
pub(crate) fn judge_reading(
    data: &[u8],
    row: &[u8],
    names: &[u32],
    area: &[u8],
    nodes: &mut [u32],
    attributes: &mut [u32],
    notes: &mut [u32],
    counts: &mut [u32],
) {
    let right = is_read_in(data, row, names, area, nodes, attributes, notes);
    tally(counts, count::READINGS, right);
    count::tally_refusal(counts, 0, word(row, 6), right);
    if word(row, 5) != 0 {
        let listed = is_listed_in(data, row, nodes, attributes);
        tally(counts, count::LISTED, listed);
    }
}
