// What is known of long texts while a file is read: each is passed over once to get its number, and compared once with those of the same number, so
// that two that are known are told apart by two words, however long they are and whatever their numbers.
//
// Stands for the hash in the Rust's `HashSet` of attribute names, which is computed at each use. Definitions: specs/Inner/Numbered.antt.
// Differs from the Rust: 256 indices are kept, in fixed memory that the caller lends for a reading.
ghost use Rattle.std.specs.Prelude.{◌≡◌, List, true, cond, ℕ, ◌+◌, ◌<◌, leb, length, set};
ghost use Rattle.system_types.specs.Names.{Lent, lends};
ghost use Rattle.text.specs.declared.Head.{Head};
ghost use Rattle.text.specs.Content.{content_of, has_text, same_name};
ghost use Rattle.text.specs.Inner.Found.{Asks, Finds, part_of};
ghost use Rattle.tables.specs.Inner.Keys.{hash_in};
ghost use Rattle.tables.specs.Inner.Numbered.{place_count, near_count, word_count, long_from, very_long_from, size_of};
ghost use Rattle.tables.specs.Inner.Numbered.{mark_of, Numbered, met_at, FirstOf, ToldBy};

use crate::hash::hash_found;
use common::StringIndex;
use text::apart::LONG;
use text::{Found, Head, find, is_found, same_found};

// How many indices are kept.
const PLACES: usize = 256;

// The words that they take: that of place i is the index and one more with the index that stands for its text, 256 behind it the number of this text.
pub const NUMBERS: usize = 512;

// An index stands at the place that the remainder of its number gives, or at one of the 15 behind it; where its text is very long, at any.
pub const NEAR: u32 = 16;

const ALL: u32 = 256;

// A text of so many bytes is very long: to look at all places costs less than to compare it.
const VERY_LONG: usize = 16384;

// A word of 64 bits is two numbers of 32: the quotient and the remainder by this.
pub(crate) const HALF: u64 = 4294967296;

// ---- how long a text is, which decides who is asked and nothing else

fn size_of(f: Found) -> usize
    ensures { result ≡ size_of f }
{
    match f {
        Found::Nothing | Found::Cut => 0,
        Found::System(_, n) | Found::Pool(_, n) => n,
    }
}

// Whether what was found is long, so that it is told by what is known of it.
// Ruled out: yes for what has no bytes, and no for a string of 128.
pub fn is_long(f: Found) -> bool
    ensures { result ≡ leb long_from (size_of f) }
{
    LONG <= size_of(f)
}

// How many places are looked at for an index that was found as f: all for a very long text, which it costs more to compare.
// Ruled out: all places for a short text, and none for any.
pub fn near_of(f: Found) -> u32
    ensures { result ≡ cond (leb very_long_from (size_of f)) place_count near_count }
{
    if VERY_LONG <= size_of(f) {
        return ALL;
    }
    NEAR
}

// ---- what is known

// The place of an index among the `near` that are looked at, or the first that is free for it, or the first of all.
fn place_of(numbers: &[u64], index: StringIndex, near: u32) -> usize
    requires { length numbers.now ≡ word_count }
    ensures { result < place_count }
{
    let own = u64::from(index.0) + 1;
    for k in 0..near {
        let p = (index.0 as usize + k as usize) % PLACES;
        let seen = numbers[p] / HALF;
        if seen == own || seen == 0 {
            return p;
        }
    }
    index.0 as usize % PLACES
}

// Whether two indices have the same text, if that is known, from `near` places for each.
// Ruled out: the same for two texts of one number, and what stands at the place of another index taken for it.
pub fn told_of(numbers: &[u64], i: StringIndex, j: StringIndex, near: u32) -> Option<bool>
    requires { length numbers.now ≡ word_count }
    ensures { (h : Head) (t : List ℕ) (lent : Lent) → Numbered h t lent numbers.now → ToldBy (same_name h t lent i.0 j.0) result }
{
    let a = numbers[place_of(numbers, i, near)];
    let b = numbers[place_of(numbers, j, near)];
    if a / HALF != u64::from(i.0) + 1 {
        return None;
    }
    if b / HALF != u64::from(j.0) + 1 {
        return None;
    }
    Some(a % HALF == b % HALF)
}

// ---- one index more

// Whether the index at the place q has the same text as `own`, which was found as f: another number tells at once.
fn is_met(
    t: &[u8],
    names: &[u32],
    area: &[u8],
    h: Head,
    own: StringIndex,
    f: Found,
    number: u64,
    numbers: &[u64],
    q: usize,
) -> bool
    requires { Asks t.now (lends names.now area.now) h × Finds t.now (lends names.now area.now) h own.0 f
        × (number ≡ hash_in 0 (content_of h t.now (lends names.now area.now) own.0))
        × Numbered h t.now (lends names.now area.now) numbers.now × (q < place_count) }
    ensures { result ≡ met_at (same_name h t.now (lends names.now area.now)) numbers.now own.0 q }
{
    let seen = (numbers[q] / HALF) as u32;
    if seen == 0 {
        return false;
    }
    if numbers[q + PLACES] != number {
        return false;
    }
    let g = find(t, names, area, h, StringIndex(seen - 1));
    same_found(t, area, h.utf16, f, g)
}

// The index that stands for the text of `own`: that of a place of the same text, or itself.
fn first_same(
    t: &[u8],
    names: &[u32],
    area: &[u8],
    h: Head,
    own: StringIndex,
    f: Found,
    number: u64,
    numbers: &[u64],
) -> u32
    requires { Asks t.now (lends names.now area.now) h × Finds t.now (lends names.now area.now) h own.0 f
        × (number ≡ hash_in 0 (content_of h t.now (lends names.now area.now) own.0))
        × Numbered h t.now (lends names.now area.now) numbers.now
        × (has_text (content_of h t.now (lends names.now area.now) own.0) ≡ true) × (own.0 < 4294967295) }
    ensures { FirstOf (same_name h t.now (lends names.now area.now)) numbers.now own.0 result }
{
    for q in 0..PLACES {
        if is_met(t, names, area, h, own, f, number, numbers, q) {
            return (numbers[q] % HALF) as u32;
        }
    }
    own.0
}

fn put(numbers: &mut [u64], p: usize, index: StringIndex, first: u32, number: u64)
    requires { (length numbers.old ≡ word_count) × (p < place_count) × (index.0 < 4294967295) }
    ensures { numbers.new ≡ set (set numbers.old p (mark_of index.0 first)) (p + place_count) number }
{
    numbers[p] = (u64::from(index.0) + 1) * HALF + u64::from(first);
    numbers[p + PLACES] = number;
}

// An index that has a text takes the place p.
fn enter_at(
    t: &[u8],
    names: &[u32],
    area: &[u8],
    h: Head,
    index: StringIndex,
    f: Found,
    p: usize,
    numbers: &mut [u64],
)
    requires { Asks t.now (lends names.now area.now) h × Finds t.now (lends names.now area.now) h index.0 f
        × Numbered h t.now (lends names.now area.now) numbers.old
        × (has_text (part_of h.utf16 t.now area.now f) ≡ true) × (p < place_count) × (index.0 < 4294967295) }
    ensures { Numbered h t.now (lends names.now area.now) numbers.new }
{
    let number = hash_found(t, area, h.utf16, f, 0);
    let first = first_same(t, names, area, h, index, f, number, numbers);
    put(numbers, p, index, first, number);
}

// Whether what stands at a place gives way to a text of n bytes: one that is less than half as long does, so that short texts do not keep long ones
// out, and a place changes hands some twenty times at most.
fn gives_way(t: &[u8], names: &[u32], area: &[u8], h: Head, n: usize, seen: u32) -> bool
    requires { Asks t.now (lends names.now area.now) h }
{
    if seen == 0 {
        return true;
    }
    let old = find(t, names, area, h, StringIndex(seen - 1));
    size_of(old) < n / 2
}

// Whether an index takes the place at which `seen` stands.
fn takes(
    t: &[u8],
    names: &[u32],
    area: &[u8],
    h: Head,
    index: StringIndex,
    f: Found,
    seen: u32,
) -> bool
    requires { Asks t.now (lends names.now area.now) h }
    ensures { result ≡ true → (has_text (part_of h.utf16 t.now area.now f) ≡ true) × (index.0 < 4294967295) }
{
    if 4294967295 <= index.0 {
        return false;
    }
    if seen == index.0 + 1 {
        return false;
    }
    if is_found(f) {
        return gives_way(t, names, area, h, size_of(f), seen);
    }
    false
}

// The text of an index, which was found as f, is known from here on, if there is a place for it.
// Ruled out: a number of another text kept, and two indices of other texts kept as the same.
pub fn enter(
    t: &[u8],
    names: &[u32],
    area: &[u8],
    h: Head,
    index: StringIndex,
    f: Found,
    numbers: &mut [u64],
)
    requires { Asks t.now (lends names.now area.now) h × Finds t.now (lends names.now area.now) h index.0 f
        × Numbered h t.now (lends names.now area.now) numbers.old }
    ensures { Numbered h t.now (lends names.now area.now) numbers.new }
{
    let p = place_of(numbers, index, near_of(f));
    let seen = (numbers[p] / HALF) as u32;
    if takes(t, names, area, h, index, f, seen) {
        enter_at(t, names, area, h, index, f, p, numbers);
    }
}

// ---- the number of a text

fn kept_number(
    t: &[u8],
    names: &[u32],
    area: &[u8],
    h: Head,
    index: StringIndex,
    f: Found,
    numbers: &mut [u64],
) -> u64
    requires { Asks t.now (lends names.now area.now) h × Finds t.now (lends names.now area.now) h index.0 f
        × Numbered h t.now (lends names.now area.now) numbers.old }
    ensures { (result ≡ hash_in 0 (content_of h t.now (lends names.now area.now) index.0))
        × Numbered h t.now (lends names.now area.now) numbers.new }
{
    enter(t, names, area, h, index, f, numbers);
    let p = place_of(numbers, index, near_of(f));
    if numbers[p] / HALF == u64::from(index.0) + 1 {
        return numbers[p + PLACES];
    }
    hash_found(t, area, h.utf16, f, 0)
}

// The number of the text of an index, which was found as f: a long one is passed over once in a reading, if there is a place for it.
// Ruled out: the number of another index of the same place, and two numbers for one text.
pub fn number_of(
    t: &[u8],
    names: &[u32],
    area: &[u8],
    h: Head,
    index: StringIndex,
    f: Found,
    numbers: &mut [u64],
) -> u64
    requires { Asks t.now (lends names.now area.now) h × Finds t.now (lends names.now area.now) h index.0 f
        × Numbered h t.now (lends names.now area.now) numbers.old }
    ensures { (result ≡ hash_in 0 (content_of h t.now (lends names.now area.now) index.0))
        × Numbered h t.now (lends names.now area.now) numbers.new }
{
    if is_long(f) {
        return kept_number(t, names, area, h, index, f, numbers);
    }
    hash_found(t, area, h.utf16, f, 0)
}
