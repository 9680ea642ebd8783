// Names: whether a text is an NCName, and what a byte or a value is in one.
//
// Mirrors xml/src/lib.rs (apk-info 13770539b8): `is_valid_name`, `is_name_start_char`, `is_name_char`.
// Definitions: specs/NCName.antt, from XML 1.0 (Fifth Edition) and Namespaces in XML 1.0. Text of ASCII is looked up, chars whose bytes tell that they
// are chars of a name are passed, and what is left is decoded; whole blocks are passed at once, of one sort of chars (blocks.rt), in UTF-16 of any units
// that are chars by themselves (units.rt), and in UTF-8 of any bytes at which no name ends (clear.rt).
// Differs from the Rust: a text in UTF-16 is read as it stands, and ill-formed UTF-8 is read as U+FFFD.
#![tactic(auto)]

pub mod blocks;
pub mod chars;
pub mod clear;
pub mod units;

ghost use Rattle.std.specs.Prelude.{◌≡◌, false, ◌<◌, ◌≤◌, ◌&&◌, IfSome, IsNone};
ghost use Rattle.utf.specs.Text.{is_sound};
ghost use Rattle.xml.specs.NCName.{char_sort, valid_name};
ghost use Rattle.xml.specs.Inner.NameRun.{IsTable, sort_number};

use blocks::stretch_at;
use chars::{begins_well, chars_run, is_seen_name};
use utf::is_sound;

// The class of each byte: 0 in no name, 1 first or later, 2 later only, 3 beyond ASCII. Numbers here: 256 names of an enum would be no plainer.
const CLASSES: [u8; 256] = *b"\
    \x00\x00\x00\x00\x00\x00\x00\x00\x00\x00\x00\x00\x00\x00\x00\x00\
    \x00\x00\x00\x00\x00\x00\x00\x00\x00\x00\x00\x00\x00\x00\x00\x00\
    \x00\x00\x00\x00\x00\x00\x00\x00\x00\x00\x00\x00\x00\x02\x02\x00\
    \x02\x02\x02\x02\x02\x02\x02\x02\x02\x02\x00\x00\x00\x00\x00\x00\
    \x00\x01\x01\x01\x01\x01\x01\x01\x01\x01\x01\x01\x01\x01\x01\x01\
    \x01\x01\x01\x01\x01\x01\x01\x01\x01\x01\x01\x00\x00\x00\x00\x01\
    \x00\x01\x01\x01\x01\x01\x01\x01\x01\x01\x01\x01\x01\x01\x01\x01\
    \x01\x01\x01\x01\x01\x01\x01\x01\x01\x01\x01\x00\x00\x00\x00\x00\
    \x03\x03\x03\x03\x03\x03\x03\x03\x03\x03\x03\x03\x03\x03\x03\x03\
    \x03\x03\x03\x03\x03\x03\x03\x03\x03\x03\x03\x03\x03\x03\x03\x03\
    \x03\x03\x03\x03\x03\x03\x03\x03\x03\x03\x03\x03\x03\x03\x03\x03\
    \x03\x03\x03\x03\x03\x03\x03\x03\x03\x03\x03\x03\x03\x03\x03\x03\
    \x03\x03\x03\x03\x03\x03\x03\x03\x03\x03\x03\x03\x03\x03\x03\x03\
    \x03\x03\x03\x03\x03\x03\x03\x03\x03\x03\x03\x03\x03\x03\x03\x03\
    \x03\x03\x03\x03\x03\x03\x03\x03\x03\x03\x03\x03\x03\x03\x03\x03\
    \x03\x03\x03\x03\x03\x03\x03\x03\x03\x03\x03\x03\x03\x03\x03\x03";

// What a char is in a name: nothing, or a start, which may come first or later, or one that comes later only.
#[derive(Clone, Copy, PartialEq, Eq)]
pub enum Sort {
    Outside,
    Start,
    Later,
}

// What a byte of ASCII is in a name; nothing of a byte beyond ASCII. `classes` is the table, which the caller makes once.
fn ascii_sort(classes: &[u8], b: u8) -> Option<Sort>
    requires { IsTable classes.now }
    ensures ascii { IfSome result (λ sort. (b < 128) × (sort_number sort ≡ char_sort b)) }
    ensures beyond { IsNone result → 128 ≤ b }
{
    match classes[b as usize] {
        0 => Some(Sort::Outside),
        1 => Some(Sort::Start),
        2 => Some(Sort::Later),
        _ => None,
    }
}

// What a value is in a name: a start by the ranges of NameStartChar, and later only by those that NameChar has besides.
// Ruled out: a start for U+00B7, which may only follow; anything but Outside for U+00D7, U+037E and a surrogate.
#[tactic(auto, using(std::proofs::lemmas::Bool::Decides::nat_tests), unfolding(crate::specs::NCName::char_sort))]
fn sort_of(v: u32) -> Sort
    ensures { sort_number result ≡ char_sort v }
{
    match v {
        0x41..=0x5a
        | 0x5f
        | 0x61..=0x7a
        | 0xc0..=0xd6
        | 0xd8..=0xf6
        | 0xf8..=0x2ff
        | 0x370..=0x37d
        | 0x37f..=0x1fff
        | 0x200c..=0x200d
        | 0x2070..=0x218f
        | 0x2c00..=0x2fef
        | 0x3001..=0xd7ff
        | 0xf900..=0xfdcf
        | 0xfdf0..=0xfffd
        | 0x10000..=0xeffff => Sort::Start,
        0x2d..=0x2e | 0x30..=0x39 | 0xb7 | 0x300..=0x36f | 0x203f..=0x2040 => Sort::Later,
        _ => Sort::Outside,
    }
}

// Whether the text, in UTF-16 or UTF-8, is an NCName: blocks are passed whole, and what they leave is looked at char by char.
// Ruled out: true of the empty text; false of FF in UTF-8, since U+FFFD is a start.
pub fn valid_name(utf16: bool, s: &[u8]) -> bool
    ensures { result ≡ valid_name utf16 s.now }
{
    if s.len() == 0 {
        return false;
    }
    let classes = CLASSES;
    if !begins_well(&classes, utf16, s) {
        return false;
    }
    let mut at = 0;
    while at < s.len() {
        let p = stretch_at(utf16, s, at);
        at = chars_run(&classes, utf16, s, p.from, p.to);
        if at < p.to {
            return false;
        }
    }
    true
}

// Whether the text is an NCName in which nothing was replaced. A name whose bytes tell its chars is seen to be sound as it is passed, and a name in
// UTF-16 is sound, so that only a name in UTF-8 with a char that must be decoded is passed over again.
// Ruled out: true of FF in UTF-8, whose U+FFFD is a start; false of EF BF BD, a U+FFFD of the text's own.
pub fn whole_name(utf16: bool, s: &[u8]) -> bool
    ensures { result ≡ (valid_name utf16 s.now && is_sound utf16 s.now) }
{
    if utf16 {
        return valid_name(true, s);
    }
    if s.len() == 0 {
        return false;
    }
    if is_seen_name(&CLASSES, s) {
        return true;
    }
    if !valid_name(false, s) {
        return false;
    }
    is_sound(false, s)
}

// Whether the UTF-8 text is an NCName.
// Ruled out: true of `a:b`; true of `1.0`.
pub fn is_valid_name(text: &[u8]) -> bool
    ensures { result ≡ valid_name false text.now }
{
    valid_name(false, text)
}
