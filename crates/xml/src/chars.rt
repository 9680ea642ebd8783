// What stands at a place of a text, as a part of a name, and how far its chars go.
//
// Mirrors the loop of `is_valid_name` in xml/src/lib.rs (apk-info 13770539b8), over bytes or units in place of chars. Definitions: specs/Inner/NameRun.antt.
// A byte of ASCII in UTF-8, and a unit of ASCII in UTF-16, is its own value and is looked up; a char of which the bytes, or the unit's number, say
// that it is a char of a name is passed, and in UTF-8 any byte at which no name ends (clear.rt); anything else is decoded first.
ghost use Rattle.std.specs.Prelude.{◌≡◌, true, false, cond, ◌+◌, ◌*◌, ◌≤◌, ◌<◌, length, drop, IfSome, IsNone};
ghost use Rattle.utf.specs.Text.{is_sound};
ghost use Rattle.xml.specs.NCName.{valid_name};
ghost use Rattle.xml.specs.Inner.SeenChars.{UnitChar, is_pair, is_triple};
ghost use Rattle.xml.specs.Inner.NameRun.{IsTable, sort_number, begins, chars_in, Told, Seen, Takes, Went, Reached};

use super::blocks::{is_trail, pair_lead, passing, stretch_at, triple_lead, triple_second};
use super::clear::{clear_end, lead_clear};
use super::units::units_end;
use super::{Sort, ascii_sort, sort_of};
use utf::next_of;

// What a char is in a name, and how many bytes it takes.
#[derive(Clone, Copy)]
pub struct Char {
    pub sort: Sort,
    pub width: usize,
}

// The value of a unit of UTF-16, of which b is the low byte.
fn unit_of(b: u8, c: u8) -> u32
    ensures { result ≡ b + c * 256 }
{
    u32::from(u16::from_le_bytes([b, c]))
}

// The char at a place inside. In UTF-8 what is damaged is U+FFFD, which is a start. In UTF-16 a unit that is no surrogate is its own value, and an
// unpaired surrogate is in no name.
fn char_at(utf16: bool, s: &[u8], at: usize) -> Char
    requires { at < length s.now }
    ensures { Told utf16 s.now at (sort_number result.sort) result.width }
{
    if utf16 & (2 <= s.len() - at) {
        let high = s[at + 1];
        if high / 8 != 27 {
            return Char {
                sort: sort_of(unit_of(s[at], high)),
                width: 2,
            };
        }
    }
    let t = next_of(utf16, s, at);
    if utf16 & !t.sound {
        return Char {
            sort: Sort::Outside,
            width: t.width,
        };
    }
    Char {
        sort: sort_of(t.value),
        width: t.width,
    }
}

// The sort of the char at a place inside, where it is one of ASCII.
fn ascii_at(classes: &[u8], utf16: bool, s: &[u8], at: usize) -> Option<Sort>
    requires { IsTable classes.now × (at < length s.now) }
    ensures { IfSome result (λ sort. Told utf16 s.now at (sort_number sort) (cond utf16 2 1)) }
{
    if !utf16 {
        return ascii_sort(classes, s[at]);
    }
    if s.len() - at < 2 {
        return None;
    }
    if s[at + 1] != 0 {
        return None;
    }
    ascii_sort(classes, s[at])
}

// Whether a text that is not empty begins with a start. `classes` is the table, which the caller makes once.
// Ruled out: true of a digit, and true of an unpaired surrogate of UTF-16.
pub fn begins_well(classes: &[u8], utf16: bool, s: &[u8]) -> bool
    requires { IsTable classes.now × (0 < length s.now) }
    ensures { result ≡ begins utf16 s.now }
{
    match ascii_at(classes, utf16, s, 0) {
        Some(sort) => sort == Sort::Start,
        None => char_at(utf16, s, 0).sort == Sort::Start,
    }
}

// ---- a run of chars that need no decoding

// Whether two bytes in UTF-8 are a char of a name: the first byte tells it, and with C3, which U+00D7 and U+00F7 have, the second too. False tells nothing.
#[tactic(auto, unfolding(crate::specs::Inner::SeenChars::is_pair, crate::specs::Inner::SeenChars::latin_pair))]
fn is_pair(b: u8, c: u8) -> bool
    ensures { result ≡ is_pair b c }
{
    is_trail(c) & (pair_lead(b) | (b == 0xc3) & (c != 0x97) & (c != 0xb7))
}

// Whether three bytes in UTF-8 are one. False tells nothing.
#[tactic(auto, unfolding(crate::specs::Inner::SeenChars::is_triple))]
fn is_triple(b: u8, c: u8, d: u8) -> bool
    ensures { result ≡ is_triple b c d }
{
    triple_lead(b) & triple_second(c) & is_trail(d)
}

// How many bytes the char at a place inside takes, where two or three bytes tell that it is a char of a name.
fn wide_width(s: &[u8], at: usize) -> Option<usize>
    requires { at < length s.now }
    ensures { IfSome result (λ w. Takes false s.now at w) }
{
    if s.len() - at < 2 {
        return None;
    }
    if is_pair(s[at], s[at + 1]) {
        return Some(2);
    }
    if s.len() - at < 3 {
        return None;
    }
    if is_triple(s[at], s[at + 1], s[at + 2]) {
        return Some(3);
    }
    None
}

// The same, and 1 where it is one of ASCII.
fn seen_width(classes: &[u8], s: &[u8], at: usize) -> Option<usize>
    requires { IsTable classes.now × (at < length s.now) }
    ensures { IfSome result (λ w. Takes false s.now at w) }
{
    if let Some(sort) = ascii_sort(classes, s[at]) {
        if sort == Sort::Outside {
            return None;
        }
        return Some(1);
    }
    wide_width(s, at)
}

// Chars in UTF-8 whose bytes tell that they are chars.
fn utf8_run(classes: &[u8], s: &[u8], at: usize, to: usize) -> usize
    requires { IsTable classes.now × (to ≤ length s.now) }
    ensures { Seen false s.now at result }
{
    let mut i = at;
    while i < to {
        let Some(w) = seen_width(classes, s, i) else {
            return i;
        };
        i += w;
    }
    i
}

// Whether a unit of UTF-16 is one of ASCII that is a char of a name.
#[tactic(auto, using(crate::proofs::UnitChars::unit_plain))]
fn is_ascii_unit(classes: &[u8], b: u8, c: u8) -> bool
    requires { IsTable classes.now }
    ensures { result ≡ true → UnitChar b c }
{
    let u = unit_of(b, c);
    if u < 128 {
        return classes[u as usize] != 0;
    }
    false
}

// The same, and also a unit from U+037F to U+1FFF or from U+3001 to U+D7FB, the last one assigned before the surrogates. False tells nothing. No test is one
// of the high byte alone (as up to U+D7FF would be): the compiler reads the two bytes of a unit at once only where neither is used by itself.
#[tactic(auto, using(crate::proofs::UnitChars::unit_near, crate::proofs::UnitChars::unit_told))]
fn is_plain_unit(classes: &[u8], b: u8, c: u8) -> bool
    requires { IsTable classes.now }
    ensures { result ≡ true → UnitChar b c }
{
    if is_ascii_unit(classes, b, c) {
        return true;
    }
    let u = unit_of(b, c);
    if u < 0x3001 {
        return (0x37f <= u) & (u <= 0x1fff);
    }
    u <= 0xd7fb
}

// The end of the units one behind the other from `at` on that need no decoding, none of which ends behind `to`: those of ASCII, which have a loop of their
// own, and behind them all, so that a name that changes its script at each char stays in the second loop.
fn units_run(classes: &[u8], s: &[u8], at: usize, to: usize) -> usize
    requires { IsTable classes.now × (to ≤ length s.now) }
    ensures { Seen true s.now at result }
{
    let most = to.saturating_sub(at) / 2;
    let ascii = passing(
        most,
        |k| is_ascii_unit(classes, s[at + 2 * k], s[at + 2 * k + 1]),
    );
    let from = at + 2 * ascii;
    let plain = passing(
        most - ascii,
        |k| is_plain_unit(classes, s[from + 2 * k], s[from + 2 * k + 1]),
    );
    from + 2 * plain
}

// ---- a run of chars, up to one that is in no name

// UTF-16: blocks of units that are chars, and then what a run leaves is decoded, one step and then the next run.
fn utf16_chars(classes: &[u8], s: &[u8], at: usize, to: usize) -> usize
    requires { IsTable classes.now × (to ≤ length s.now) }
    ensures { Reached true s.now at to result }
{
    let from = units_end(s, at, to);
    let mut i = units_run(classes, s, from, to);
    while i < to {
        let u = char_at(true, s, i);
        if u.sort == Sort::Outside {
            return i;
        }
        i = units_run(classes, s, i + u.width, to);
    }
    i
}

// How far to go from a char in UTF-8 that its first byte does not tell: nowhere where it is in no name.
fn wide_step(s: &[u8], at: usize) -> Option<usize>
    requires { at < length s.now }
    ensures none { IsNone result → chars_in false (drop at s.now) ≡ false }
    ensures some { IfSome result (λ w. Went false s.now at w) }
{
    if let Some(w) = wide_width(s, at) {
        return Some(w);
    }
    let t = char_at(false, s, at);
    if t.sort == Sort::Outside {
        return None;
    }
    Some(t.width)
}

// How far to go from a place inside of a text in UTF-8: nowhere where a char stands there that is in no name. It may be less than a whole char.
fn utf8_width(classes: &[u8], s: &[u8], at: usize) -> Option<usize>
    requires { IsTable classes.now × (at < length s.now) }
    ensures none { IsNone result → chars_in false (drop at s.now) ≡ false }
    ensures some { IfSome result (λ w. Went false s.now at w) }
{
    let b = s[at];
    if let Some(sort) = ascii_sort(classes, b) {
        if sort == Sort::Outside {
            return None;
        }
        return Some(1);
    }
    if lead_clear(b) {
        return Some(1);
    }
    wide_step(s, at)
}

// UTF-8: blocks that are clear, and then byte by byte.
fn utf8_chars(classes: &[u8], s: &[u8], at: usize, to: usize) -> usize
    requires { IsTable classes.now × (to ≤ length s.now) }
    ensures { Reached false s.now at to result }
{
    let mut i = clear_end(s, at, to);
    while i < to {
        let Some(w) = utf8_width(classes, s, i) else {
            return i;
        };
        i += w;
    }
    i
}

// The first place from `at` on where no char of a name stands, and `to` or one soon behind it where that comes first.
// Ruled out: a place before `to` where a char stands, and one behind a value that is no char.
pub fn chars_run(classes: &[u8], utf16: bool, s: &[u8], at: usize, to: usize) -> usize
    requires { IsTable classes.now × (to ≤ length s.now) × (0 < to) }
    ensures { Reached utf16 s.now at to result }
{
    if utf16 {
        return utf16_chars(classes, s, at, to);
    }
    utf8_chars(classes, s, at, to)
}

// ---- a name whose bytes alone tell

// Whether a UTF-8 text that is not empty is a name of which each char can be told from its bytes, so that nothing in it was replaced: one pass, and
// nothing beyond the first char is decoded. False tells nothing.
// Ruled out: true of `1a`, which begins with no start; true of FF, which is decoded.
pub fn is_seen_name(classes: &[u8], s: &[u8]) -> bool
    requires { IsTable classes.now × (0 < length s.now) }
    ensures { result ≡ true → (valid_name false s.now ≡ true) × (is_sound false s.now ≡ true) }
{
    if !begins_well(classes, false, s) {
        return false;
    }
    let mut at = 0;
    while at < s.len() {
        let p = stretch_at(false, s, at);
        at = utf8_run(classes, s, p.from, p.to);
        if at < p.to {
            return false;
        }
    }
    true
}
