// What programs share: the bytes of an input (listing, relist, replay, text_cases); and of those with stored cases (replay, text_cases) words and
// parts of the data, how many answers were right, and the text of that.
//
// Mirrors nothing of the Rust. The data are made by oracle/cases.py; every number in them is a word of 4 bytes. Definitions: specs/Inner/Data.antt.
#![tactic(auto)]

ghost use Rattle.std.specs.Prelude.{◌≡◌, ◌<◌, length, take, slice_index, IfOk};
ghost use Rattle.std.specs.Io.{ReadsAtMost};
ghost use Rattle.std.specs.Io.KnownBytes.{Consumes, IsAtEnd};
ghost use Rattle.digits.specs.Written.{Wrote};
ghost use Rattle.stored.specs.Inner.Data.{word_at, part_in, room_for, loaded, bumped, tallied, group_text, Leads};

use digits::{put_byte, put_bytes, put_word};
use field::u32_at;
use std::io;
use std::io::Read;

// ---- the data

// Reads until the room is full or the input ends; how many bytes came, at the front of the room.
// Ruled out: an end that is told before there is one, and bytes that came and are not among those told.
pub fn read_in<R: Read>(reader: &mut R, room: &mut [u8]) -> io::Result<usize>
    ensures bound { ReadsAtMost result room.new }
    ensures bytes { IfOk result (λ n. Consumes (R.remaining reader.old) (R.remaining reader.new) (take n room.new)) }
    ensures end { IfOk result (λ n. n < length room.new → IsAtEnd (R.remaining reader.new)) }
{
    let mut n: usize = 0;
    // No `for`: the next place depends on how many bytes a read gives.
    while n < room.len() {
        let more = reader.read(&mut room[n..])?;
        if more == 0 {
            return Ok(n);
        }
        n += more;
    }
    Ok(n)
}

// Word i of a part; 0 behind its last whole word.
// Ruled out: the word that begins at byte i, and the bytes behind the last whole word read as one.
#[tactic(auto, unfolding(crate::specs::Inner::Data::word_at))]
pub fn word(s: &[u8], i: usize) -> u32
    ensures { result ≡ word_at s.now i }
{
    if s.len() / 4 <= i {
        return 0;
    }
    u32_at(s, 4 * i)
}

// A part of the data: where it begins, and how many bytes it has, are words i and i + 1 of `s`. Nothing where it does not lie inside.
// Ruled out: as much of a part that passes the end as is there, and nothing for one that ends with the data.
#[tactic(auto, using(crate::proofs::Laws::word_at_behind), unfolding(crate::specs::Inner::Data::part_in))]
pub fn part<'a>(data: &'a [u8], s: &[u8], i: usize) -> &'a [u8]
    ensures { result.now ≡ part_in «data».now s.now i }
{
    if s.len() / 4 <= i {
        return &[];
    }
    let from = word(s, i) as usize;
    let to = from + word(s, i + 1) as usize;
    data.get(from..to).unwrap_or(&[])
}

// The words of a part, at the front of `table`; how many there are, or as many as have room.
// Ruled out: the last word left out, and a place behind the words changed.
pub fn load(words: &[u8], table: &mut [u32]) -> usize
    ensures count { result ≡ room_for words.now table.new }
    ensures table { table.new ≡ loaded words.now table.old }
{
    let n = table.len().min(words.len() / 4);
    for (i, place) in table[..n].iter_mut().enumerate() {
        *place = word(words, i);
    }
    n
}

// ---- what was asked for and what was right, in one table of numbers: two for each group, and others that stand alone

// The number at a place; 0 outside the table.
// Ruled out: the number of a neighbour, and the last number for every place outside.
pub fn count_at(counts: &[u32], place: usize) -> u32
    ensures { result ≡ slice_index counts.now place }
{
    counts.get(place).copied().unwrap_or(0)
}

// One more at a place. A place outside the table is nowhere, and 4294967295 goes to 0.
// Ruled out: another place changed, and 4294967295 left as it is.
#[tactic(auto, using(crate::proofs::Laws::bumped_outside), unfolding(crate::specs::Inner::Data::bumped))]
pub fn bump(counts: &mut [u32], place: usize)
    ensures { counts.new ≡ bumped counts.old place }
{
    // A test, since nothing is known of a slice's elements after its `get_mut`.
    if place < counts.len() {
        counts[place] = counts[place].wrapping_add(1);
    }
}

// One more answer of a group, and one more right one where it is.
// Ruled out: a wrong answer that is not counted among those asked for, and one counted as right.
#[tactic(auto, using(crate::proofs::Laws::tallied_outside), unfolding(crate::specs::Inner::Data::tallied))]
pub fn tally(counts: &mut [u32], group: usize, right: bool)
    ensures { counts.new ≡ tallied counts.old group right }
{
    if group < counts.len() {
        bump(counts, 2 * group + 1);
        if right {
            bump(counts, 2 * group);
        }
    }
}

// ---- the report

// The text of a group at the front of a buffer; behind its end nothing is written.
fn put_text(out: &mut [u8], counts: &[u32], group: usize) -> usize
    ensures { Wrote 25 0 (group_text counts.now group) out.old result out.new }
{
    if counts.len() <= group {
        return 0;
    }
    let right = count_at(counts, 2 * group);
    let asked = count_at(counts, 2 * group + 1);
    let a = put_word(out, 0, right);
    let b = put_bytes(out, a, b" of ");
    let c = put_word(out, b, asked);
    put_byte(out, c, b'\n')
}

// How many answers of a group are right, and of how many: `3 of 4` and a line feed, at the front of a buffer that takes any two numbers. Answers
// how many bytes they are.
// Ruled out: the two numbers the other way round, and a text without its line feed.
pub fn put_group(out: &mut [u8; 25], counts: &[u32], group: usize) -> usize
    ensures { Leads (group_text counts.now group) out.old result out.new }
{
    put_text(out, counts, group)
}
