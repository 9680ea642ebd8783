// Replays stored answers of the text question and of the content question: data/questions, made by oracle/cases.py (`pack`).
//
// Each text is asked for with the room that is stored, in a buffer that is just right, and in one that is a byte short. A text is
// right where its length, its state, its bytes and the zeros behind it are, a refusal where its number, its value and a buffer of zeros are.
// What is printed is how many answers are right, and how many were asked for: of each refusal, of the texts, and so on.
#![tactic(auto)]

mod count;
mod judge;

ghost use Rattle.std.specs.Prelude.{◌≡◌, length};

use judge::judge;
use std::{fs, io};
use stored::{bump, load, part, read_in};

// ---- the walk through the data

// The questions of one set of names, 44 bytes each.
fn replay_rows<'a>(
    data: &'a [u8],
    files: &[u8],
    rows: &[u8],
    names: &[u32],
    area: &'a [u8],
    out: &mut [u8],
    counts: &mut [u32],
) {
    for row in rows.chunks_exact(44) {
        judge(data, files, row, names, area, out, counts);
    }
}

// One set of names: the parts of the data where its words, its area and its questions are.
fn replay_set(
    data: &[u8],
    files: &[u8],
    set: &[u8],
    names: &mut [u32],
    out: &mut [u8],
    counts: &mut [u32],
) {
    let words = part(data, set, 0);
    let area = part(data, set, 2);
    let rows = part(data, set, 4);
    let n = load(words, names);
    replay_rows(data, files, rows, &names[0..n], area, out, counts);
}

// All sets, 24 bytes each.
fn replay_sets(
    data: &[u8],
    files: &[u8],
    sets: &[u8],
    names: &mut [u32],
    out: &mut [u8],
    counts: &mut [u32],
) {
    for set in sets.chunks_exact(24) {
        replay_set(data, files, set, names, out, counts);
        bump(counts, count::SETS);
    }
}

// The whole data, which begins with the places of the list of sets and of the list of files.
fn replay(data: &[u8], counts: &mut [u32]) {
    if data.len() < 16 {
        return;
    }
    let sets = part(data, data, 0);
    let files = part(data, data, 2);
    let mut names = [0u32; 8400];
    let mut out = [0u8; 4096];
    replay_sets(data, files, sets, &mut names, &mut out, counts);
}

// Room for the data, which is shorter: of a longer file the end would be missing, and with it right answers.
fn space() -> [u8; 1572864]
    ensures { 1572864 ≡ length result }
{
    [0; 1572864]
}

// Replays the data and prints the counts.
fn report(rt: &impl Print, data: &[u8]) -> io::Result<()> {
    let mut counts = [0u32; 134];
    replay(data, &mut counts);
    count::print_counts(rt, &counts)
}

fn main(rt: HostRuntime) -> io::Result<()> {
    let mut file = fs::open(&rt, "questions")?;
    let mut data = space();
    let n = read_in(&mut file, &mut data)?;
    report(&rt, &data[..n])
}
