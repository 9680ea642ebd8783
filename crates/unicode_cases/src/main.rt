// Runs the proved functions of utf and xml over published examples, and over vectors whose answers are python's (tools/unicode_vectors.py).
//
// For each text: its length and bytes as UTF-8 against the answer, its state and how many characters were replaced, whether it is a name, and
// whether it is the same as the text before it.
// A group of texts is one line with counts; every count of wrong answers is 0 in the file `stdout`, to which the run is held.
#![tactic(auto)]

mod published;

ghost use Rattle.std.specs.Prelude.{◌≡◌, ◌≤◌, ◌<◌, length};
ghost use Rattle.unicode_cases.specs.Inner.Lies.{Lies};

use field::u16_at;
use std::rt::Files;
use std::{fs, io};
use stored::read_in;
use utf::{replaced_of, same_text, state_of, text_into, text_len};
use xml::valid_name;

#[derive(Clone, Copy)]
pub struct Tally {
    pub texts: u64,
    pub wrong_texts: u64,
    pub wrong_states: u64,
    pub wrong_names: u64,
    pub wrong_pairs: u64,
}

// Which of the four answers on a text are right.
#[derive(Clone, Copy)]
pub struct Verdict {
    pub text: bool,
    pub state: bool,
    pub name: bool,
    pub pair: bool,
}

fn none() -> Tally {
    Tally {
        texts: 0,
        wrong_texts: 0,
        wrong_states: 0,
        wrong_names: 0,
        wrong_pairs: 0,
    }
}

fn counted(n: u64, more: bool) -> u64 {
    n.saturating_add(u64::from(more))
}

fn with(t: Tally, v: Verdict) -> Tally {
    Tally {
        texts: counted(t.texts, true),
        wrong_texts: counted(t.wrong_texts, !v.text),
        wrong_states: counted(t.wrong_states, !v.state),
        wrong_names: counted(t.wrong_names, !v.name),
        wrong_pairs: counted(t.wrong_pairs, !v.pair),
    }
}

// Whether the text of s is `want`, by its length and by its bytes.
fn text_right(utf16: bool, s: &[u8], want: &[u8]) -> bool {
    let mut out = [0u8; 4096];
    let n = text_len(utf16, s);
    if 4096 < n {
        return false;
    }
    let m = text_into(utf16, s, &mut out);
    m == n && &out[..n] == want
}

// Whether the text of s has this state, with so many U+FFFD put in.
fn state_right(utf16: bool, s: &[u8], state: u8, replaced: usize) -> bool {
    state_of(utf16, s) == u32::from(state) && replaced_of(utf16, s) == replaced
}

// ---- the vectors

// A record of a file: its marks, and where its bytes and their text lie.
#[derive(Clone, Copy)]
pub struct Record {
    pub whole: bool,
    pub utf16: bool,
    pub name: bool,
    pub same: bool,
    pub state: u8,
    pub replaced: usize,
    pub start: usize,
    pub middle: usize,
    pub end: usize,
}

// The record at a place. One that is cut stands for all that is left, and counts as wrong.
fn record_at(file: &[u8], at: usize) -> Record
    requires { at < length file.now }
    ensures { Lies (length file.now) result.start result.middle result.end × (at < result.end) }
{
    let size = file.len();
    let left = size - at;
    if left < 7 {
        return cut(size);
    }
    let n = u16_at(file, at) as usize;
    let m = u16_at(file, at + 2) as usize;
    let replaced = u16_at(file, at + 4) as usize;
    let marks = file[at + 6];
    if left - 7 < n + m {
        return cut(size);
    }
    Record {
        whole: true,
        utf16: marks % 2 == 1,
        name: marks / 2 % 2 == 1,
        same: marks / 4 % 2 == 1,
        state: marks / 8,
        replaced,
        start: at + 7,
        middle: at + 7 + n,
        end: at + 7 + n + m,
    }
}

fn cut(size: usize) -> Record
    ensures { (result.start ≡ size) × (result.middle ≡ size) × (result.end ≡ size) }
{
    Record {
        whole: false,
        utf16: false,
        name: false,
        same: false,
        state: 0,
        replaced: 0,
        start: size,
        middle: size,
        end: size,
    }
}

// The text of a record, against its answers and against the text before it, which lies from `from` to `to`.
fn judge(file: &[u8], r: Record, utf16: bool, from: usize, to: usize) -> Verdict
    requires { Lies (length file.now) r.start r.middle r.end × (from ≤ to) × (to ≤ length file.now) }
{
    let s = &file[r.start..r.middle];
    let text = text_right(r.utf16, s, &file[r.middle..r.end]);
    let state = state_right(r.utf16, s, r.state, r.replaced);
    let name = valid_name(r.utf16, s);
    let pair = same_text(utf16, &file[from..to], r.utf16, s);
    Verdict {
        text: text && r.whole,
        state,
        name: name == r.name,
        pair: pair == r.same,
    }
}

// All records of a file, each beside the one before it; before the first stands the empty text.
fn walk(file: &[u8]) -> Tally {
    let mut tally = none();
    let mut utf16 = false;
    let mut from = 0;
    let mut to = 0;
    let mut at = 0;
    // No `for`: where the next record begins is known only from this one, and nothing yields them as an iterator.
    while at < file.len() {
        let r = record_at(file, at);
        let v = judge(file, r, utf16, from, to);
        tally = with(tally, v);
        utf16 = r.utf16;
        from = r.start;
        to = r.middle;
        at = r.end;
    }
    tally
}

// ---- the report

fn report(rt: &impl Print, label: &str, t: Tally) -> io::Result<()> {
    println!(rt;
        "{label}: {} texts; wrong: {} texts, {} states, {} names, {} comparisons",
        t.texts, t.wrong_texts, t.wrong_states, t.wrong_names, t.wrong_pairs
    )
}

// The vectors of one file, which has at most 262,144 bytes.
fn vectors<R: Files + Print>(rt: &R, path: &str, label: &str) -> io::Result<()> {
    let mut file = fs::open(rt, path)?;
    let mut space = [0u8; 262144];
    let n = read_in(&mut file, &mut space)?;
    report(rt, label, walk(&space[..n]))
}

fn main(rt: HostRuntime) -> io::Result<()> {
    report(&rt, "Unicode, chapter 3", published::unicode())?;
    report(&rt, "names of XML and of the Rust", published::names())?;
    vectors(
        &rt,
        "pairs-0",
        "UTF-8, first bytes 00 to 7F with every second byte",
    )?;
    vectors(
        &rt,
        "pairs-1",
        "UTF-8, first bytes 80 to FF with every second byte",
    )?;
    vectors(
        &rt,
        "sequences",
        "UTF-8, first bytes C0 to FF with every second byte, then 80 80",
    )?;
    vectors(&rt, "utf8", "UTF-8 made at random")?;
    vectors(&rt, "utf16", "UTF-16 made at random")?;
    vectors(&rt, "both", "UTF-8 beside UTF-16")?;
    vectors(
        &rt,
        "names",
        "every boundary of a range of names, and ASCII",
    )
}
