// What was asked for and what was right, in one table of numbers: two for each group, and the sets of names.
use std::io;
use stored::{count_at, put_group, tally};

// Groups 0 to 63 are the readings with that refusal, 64 to 127 the first values; 0 and 64 are those that are not refused.
pub const FIRST: usize = 64;

pub const READINGS: usize = 128;

pub const LISTED: usize = 129;

pub const FIRSTS: usize = 130;

pub const NAMES: usize = 131;

pub const COMPLEX: usize = 132;

// The place of a number that stands alone.
pub const SETS: usize = 266;

// The same of the group of a refusal, among those from `groups` on. A number that no refusal has belongs to none.
pub(crate) fn tally_refusal(counts: &mut [u32], groups: usize, refusal: u32, right: bool) {
    if groups <= FIRST && refusal < 64 {
        tally(counts, groups + refusal as usize, right);
    }
}

// ---- the report

fn print_group(rt: &impl Print, label: &str, counts: &[u32], group: usize) -> io::Result<()> {
    let mut line = [0u8; 25];
    let n = put_group(&mut line, counts, group);
    rt.print(label)?;
    rt.write_all(&line[..n])
}

fn print_readings(rt: &impl Print, counts: &[u32]) -> io::Result<()> {
    print_group(rt, "readings ", counts, READINGS)?;
    print_group(rt, "  done ", counts, 0)?;
    print_group(rt, "  refusal 1, too small: ", counts, 1)?;
    print_group(rt, "  refusal 3, header size: ", counts, 3)?;
    print_group(rt, "  refusal 6, no root: ", counts, 6)?;
    print_group(rt, "  refusal 7, system names: ", counts, 7)?;
    print_group(rt, "  refusal 8, nodes full: ", counts, 8)?;
    print_group(rt, "  refusal 9, attributes full: ", counts, 9)?;
    print_group(rt, "  refusal 10, notes full: ", counts, 10)?;
    print_group(rt, "  refusal 16, mode: ", counts, 16)?;
    print_group(rt, "  refusal 27, a cap of 0: ", counts, 27)?;
    print_group(rt, "  refusal 41, skipped garbage: ", counts, 41)?;
    print_group(
        rt,
        "  refusal 42, the pool's headers and numbers: ",
        counts,
        42,
    )?;
    print_group(rt, "  refusal 43, offsets: ", counts, 43)?;
    print_group(rt, "  refusal 44, styles: ", counts, 44)?;
    print_group(rt, "  refusal 45, string data: ", counts, 45)?;
    print_group(rt, "  refusal 51, the map's header: ", counts, 51)?;
    print_group(rt, "  refusal 52, ids: ", counts, 52)?;
    print_group(rt, "readings listed ", counts, LISTED)
}

fn print_firsts(rt: &impl Print, counts: &[u32]) -> io::Result<()> {
    print_group(rt, "first values ", counts, FIRSTS)?;
    print_group(rt, "  found ", counts, FIRST)?;
    print_group(rt, "  refusal 1, too small: ", counts, FIRST + 1)?;
    print_group(rt, "  refusal 3, header size: ", counts, FIRST + 3)?;
    print_group(rt, "  refusal 7, system names: ", counts, FIRST + 7)?;
    print_group(rt, "  refusal 12, nothing found: ", counts, FIRST + 12)?;
    print_group(rt, "  refusal 13, tables: ", counts, FIRST + 13)?;
    print_group(
        rt,
        "  refusal 42, the pool's headers and numbers: ",
        counts,
        FIRST + 42,
    )?;
    print_group(rt, "  refusal 51, the map's header: ", counts, FIRST + 51)
}

pub(crate) fn print_counts(rt: &impl Print, counts: &[u32]) -> io::Result<()> {
    let sets = count_at(counts, SETS);
    println!(rt; "sets of names {sets}")?;
    print_readings(rt, counts)?;
    print_firsts(rt, counts)?;
    print_group(rt, "names ", counts, NAMES)?;
    print_group(rt, "complex values ", counts, COMPLEX)
}
