// What was asked for and what was right, in one table of numbers: two for each group, then the files and the sets of names.
use std::io;
use stored::{bump, count_at, put_group};

// Groups 1 to 63 are the refusals with that number.
pub const TEXTS: usize = 0;

pub const BUFFERS: usize = 64;

pub const CONTENTS: usize = 65;

// The places of two numbers that stand alone.
pub const FILES: usize = 132;

pub const SETS: usize = 133;

// A file is new where its number is how many there were: they are numbered in the order in which they are asked about.
pub(crate) fn new_file(counts: &mut [u32], number: u32) {
    if count_at(counts, FILES) == number {
        bump(counts, FILES);
    }
}

// ---- the report

fn print_group(rt: &impl Print, label: &str, counts: &[u32], group: usize) -> io::Result<()> {
    let mut line = [0u8; 25];
    let n = put_group(&mut line, counts, group);
    rt.print(label)?;
    rt.write_all(&line[..n])
}

pub(crate) fn print_counts(rt: &impl Print, counts: &[u32]) -> io::Result<()> {
    let files = count_at(counts, FILES);
    let sets = count_at(counts, SETS);
    println!(rt; "files {files}, sets of names {sets}")?;
    print_group(rt, "texts ", counts, TEXTS)?;
    print_group(rt, "buffers just right and one short ", counts, BUFFERS)?;
    print_group(rt, "contents ", counts, CONTENTS)?;
    print_group(rt, "refusal 1, too small: ", counts, 1)?;
    print_group(rt, "refusal 3, header size: ", counts, 3)?;
    print_group(rt, "refusal 7, system names: ", counts, 7)?;
    print_group(rt, "refusal 11, text short: ", counts, 11)?;
    print_group(rt, "refusal 12, no text: ", counts, 12)?;
    print_group(rt, "refusal 41, skipped garbage: ", counts, 41)?;
    print_group(
        rt,
        "refusal 42, the pool's headers and numbers: ",
        counts,
        42,
    )?;
    print_group(rt, "refusal 43, offsets: ", counts, 43)?;
    print_group(rt, "refusal 44, styles: ", counts, 44)?;
    print_group(rt, "refusal 45, string data: ", counts, 45)?;
    print_group(rt, "refusal 51, the map's header: ", counts, 51)?;
    print_group(rt, "refusal 52, ids: ", counts, 52)
}
