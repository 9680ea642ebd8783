// The lines that are due, one behind the other. Definitions: specs/Due.antt; how the structs stand for them: specs/Inner/Steps.antt.
//
// A place is reached by lines without a fault, or a fault is told, and then nothing is looked at any more.
ghost use Rattle.std.specs.Prelude.{◌≡◌, [], suc, ◌+◌, ◌*◌, ◌/◌, ◌≤◌, ◌<◌, length, drop};
ghost use Rattle.listing_back.specs.Forms.{taken};
ghost use Rattle.listing_back.specs.Due.{stray_by, stray};
ghost use Rattle.listing_back.specs.Back.{is_listed};
ghost use Rattle.listing_back.specs.Inner.Stands.{form_at};
ghost use Rattle.listing_back.specs.Inner.Steps.{equals_in, TakesAlone, test_by, CountsOn, RecordOn, RecordsOn, EndsOn};

use crate::taking::{Taking, take_form};

// How far the lines are read: the fault's number (0 for none) and its value, or the place reached, and the number of the last line of the head.
#[derive(Clone, Copy)]
pub struct Spot {
    pub fault: u32,
    pub value: usize,
    pub at: usize,
    pub number: u32,
}

pub fn stopped(fault: u32, value: usize) -> Spot
    ensures { result ≡ record { fault = fault; value = value; at = 0; number = 0 } }
{
    Spot {
        fault: fault,
        value: value,
        at: 0,
        number: 0,
    }
}

pub fn gone(at: usize, number: u32) -> Spot
    ensures { result ≡ record { fault = 0; value = 0; at = at; number = number } }
{
    Spot {
        fault: 0,
        value: 0,
        at: at,
        number: number,
    }
}

// ---- a line that is not due

// A line of this form, of which no word is kept.
fn take_alone(text: &[u8], at: usize, n: u32) -> Option<Taking>
    requires { (at ≤ length text.now) × (n < 10) }
    ensures { TakesAlone text.now result (taken (form_at n) (drop at text.now)) }
{
    let mut none = [0u32; 1];
    take_form(text, at, n, &mut none, 1)
}

// What is wrong with a line of this form, 0 where there is none.
fn stray_as(text: &[u8], at: usize, n: u32) -> u32
    requires { (at ≤ length text.now) × (n < 10) }
    ensures { result ≡ stray_by (taken (form_at n) (drop at text.now)) 0 }
{
    let Some(t) = take_alone(text, at, n) else {
        return 0;
    };
    if t.over {
        return 25;
    }
    26
}

// What is wrong with the line at this place. Ruled out: 24 for a line of another form, and 26 for the end of the text taken for a line.
fn stray_at(text: &[u8], at: usize) -> u32
    requires { at ≤ length text.now }
    ensures { result ≡ stray (drop at text.now) }
{
    if text.len() <= at {
        return 26;
    }
    for n in 0..10 {
        let x = stray_as(text, at, n);
        if x != 0 {
            return x;
        }
    }
    24
}

// ---- a line of the head

// 0 to 3, 6, 41 to 45, 51, 52
fn is_listed(n: u64) -> bool
    ensures { result ≡ is_listed n }
{
    if n <= 3 {
        return true;
    }
    if n == 6 {
        return true;
    }
    if n < 41 {
        return false;
    }
    if n <= 45 {
        return true;
    }
    if n < 51 {
        return false;
    }
    n <= 52
}

// How a number of the head is tested.
#[derive(Clone, Copy)]
pub enum Kind {
    Any,
    Zero,
    Code, // the number of a refusal that can be listed
}

fn passes(kind: Kind, n: u64) -> bool
    ensures { result ≡ test_by kind n }
{
    match kind {
        Kind::Any => true,
        Kind::Zero => n == 0,
        Kind::Code => is_listed(n),
    }
}

// The line of the head with this form and this number is due. Ruled out: 25 before 24, and 26 before 25.
pub fn number_due(text: &[u8], before: Spot, n: u32, line: usize, kind: Kind) -> Spot
    requires { (before.at ≤ length text.now) × (n < 10) × (equals_in (form_at n) ≡ 1) }
    ensures { CountsOn text.now before n line kind result }
{
    if before.fault != 0 {
        return before;
    }
    let at = before.at;
    let Some(t) = take_alone(text, at, n) else {
        return stopped(stray_at(text, at), line);
    };
    if !passes(kind, t.first) {
        return stopped(24, line);
    }
    if t.over {
        return stopped(25, line);
    }
    if 4294967295 < t.first {
        return stopped(25, line);
    }
    gone(t.at, t.first as u32)
}

// ---- records

// The line of record k is due, its words from i on. Ruled out: a record's number not looked at, and 8 to 10 before 26.
fn record_due(
    text: &[u8],
    before: Spot,
    line: usize,
    n: u32,
    words: &mut [u32],
    i: usize,
    k: u32,
    places: usize,
    full: u32,
) -> Spot
    requires { (before.fault ≡ 0) × (before.at ≤ length text.now) × (n < 10) × (i ≤ length words.old) }
    ensures { RecordOn text.now before line n words.old i k places full result words.new }
{
    let at = before.at;
    let Some(t) = take_form(text, at, n, words, i) else {
        return stopped(stray_at(text, at), line);
    };
    if t.over {
        return stopped(25, line);
    }
    if t.first != k as u64 {
        return stopped(26, line);
    }
    if places <= k as usize {
        return stopped(full, places);
    }
    gone(t.at, 0)
}

// The lines of `count` records are due, the first of them the line with this number. Ruled out: a record more than there are places.
pub fn read_records(
    text: &[u8],
    before: Spot,
    line: usize,
    n: u32,
    words: &mut [u32],
    width: usize,
    count: u32,
    full: u32,
) -> Spot
    requires { (before.at ≤ length text.now) × (n < 10) × (equals_in (form_at n) ≡ suc width) × (0 < width) × (width < 4096) × (line < 1099511627776) × (0 < full) }
    ensures { RecordsOn text.now before line n width count full words.old result words.new }
{
    let places = words.len() / width;
    let mut spot = before;
    let mut i = 0;
    for k in 0..count {
        if spot.fault != 0 {
            return spot;
        }
        spot = record_due(text, spot, line + k as usize, n, words, i, k, places, full);
        i += width;
    }
    spot
}

// Nothing more is due.
pub fn read_end(text: &[u8], before: Spot, line: usize) -> Spot
    requires { before.at ≤ length text.now }
    ensures { EndsOn text.now before line result }
{
    if before.fault != 0 {
        return before;
    }
    let at = before.at;
    if at == text.len() {
        return before;
    }
    stopped(stray_at(text, at), line)
}
