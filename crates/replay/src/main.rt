// Replays stored answers of whole readings, first values, valid names and complex values: data/cases, made by oracle/cases.py (`pack-replay`).
//
// A reading is asked of `c_api::axml_read`, with the stored names, cap and rooms: it takes the notes as words, where `axml::read` takes records.
// `axml::read` itself runs under `axml::read_listed`, wherever its names, cap and places answer the same.
// A reading is right where its numbers and every word of the three lent tables are. What is printed is how many answers are right, and how
// many were asked for.
#![tactic(auto)]

mod count;
mod question;
mod reading;
mod table;

ghost use Rattle.std.specs.Prelude.{◌≡◌, length};

use question::{judge_complex, judge_first, judge_name};
use reading::judge_reading;
use std::{fs, io};
use stored::{bump, load, part, read_in, word};

// ---- the walk through the data

// One case: 84 bytes, of which the first word is its kind. A kind that is none of the four counts nowhere.
fn judge(
    data: &[u8],
    row: &[u8],
    names: &[u32],
    area: &[u8],
    nodes: &mut [u32],
    attributes: &mut [u32],
    notes: &mut [u32],
    counts: &mut [u32],
) {
    match word(row, 0) {
        2 => judge_reading(data, row, names, area, nodes, attributes, notes, counts),
        4 => judge_first(data, row, names, area, nodes, attributes, counts),
        5 => judge_name(data, row, counts),
        6 => judge_complex(row, counts),
        _ => {}
    }
}

// The cases of one set of names.
fn replay_rows(
    data: &[u8],
    rows: &[u8],
    names: &[u32],
    area: &[u8],
    nodes: &mut [u32],
    attributes: &mut [u32],
    notes: &mut [u32],
    counts: &mut [u32],
) {
    for row in rows.chunks_exact(84) {
        judge(data, row, names, area, nodes, attributes, notes, counts);
    }
}

// One set of names: the parts of the data where its words, its area and its cases are.
fn replay_set(
    data: &[u8],
    set: &[u8],
    names: &mut [u32],
    nodes: &mut [u32],
    attributes: &mut [u32],
    notes: &mut [u32],
    counts: &mut [u32],
) {
    let words = part(data, set, 0);
    let area = part(data, set, 2);
    let rows = part(data, set, 4);
    let n = load(words, names);
    replay_rows(
        data,
        rows,
        &names[0..n],
        area,
        nodes,
        attributes,
        notes,
        counts,
    );
}

// All sets, 24 bytes each.
fn replay_sets(
    data: &[u8],
    sets: &[u8],
    names: &mut [u32],
    nodes: &mut [u32],
    attributes: &mut [u32],
    notes: &mut [u32],
    counts: &mut [u32],
) {
    for set in sets.chunks_exact(24) {
        replay_set(data, set, names, nodes, attributes, notes, counts);
        bump(counts, count::SETS);
    }
}

// The whole data, which begins with the place of the list of sets. The tables are longer than any case asks for.
fn replay(data: &[u8], counts: &mut [u32]) {
    if data.len() < 8 {
        return;
    }
    let sets = part(data, data, 0);
    let mut names = [0u32; 8400];
    let mut nodes = [0u32; 512];
    let mut attributes = [0u32; 512];
    let mut notes = [0u32; 512];
    replay_sets(
        data,
        sets,
        &mut names,
        &mut nodes,
        &mut attributes,
        &mut notes,
        counts,
    );
}

// Room for the data, which is shorter: of a longer file the end would be missing, and with it the list of sets.
fn space() -> [u8; 1048576]
    ensures { 1048576 ≡ length result }
{
    [0; 1048576]
}

// Replays the data and prints the counts.
fn report(rt: &impl Print, data: &[u8]) -> io::Result<()> {
    let mut counts = [0u32; 267];
    replay(data, &mut counts);
    count::print_counts(rt, &counts)
}

fn main(rt: HostRuntime) -> io::Result<()> {
    let mut file = fs::open(&rt, "cases")?;
    let mut data = space();
    let n = read_in(&mut file, &mut data)?;
    report(&rt, &data[..n])
}
