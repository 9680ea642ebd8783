// Blocks of 32 units of UTF-16, each of them a char of a name by itself, which are passed at once.
// Definitions: specs/Inner/SeenChars.antt, from XML 1.0 (Fifth Edition), productions [4] and [4a].
//
// Mirrors nothing of xml/src/lib.rs (apk-info 13770539b8). A unit is told by its two bytes, b the low one and c the high one, with no early way out, so
// that the compiler takes many at once. A unit of a surrogate pair is none of these, and is left to those who decode.
ghost use Rattle.std.specs.Prelude.{◌≡◌, true, ◌+◌, ◌≤◌, length};
ghost use Rattle.xml.specs.Inner.SeenChars.{UnitChar};
ghost use Rattle.xml.specs.Inner.NameRun.{Seen};

use super::blocks::{all_pass, ascii_low, between, far_high, passing};

// ---- a unit. False tells nothing

// The high byte 00: ASCII, U+00B7, and U+00C0 to U+00FF without U+00D7 and U+00F7.
fn latin_unit(b: u8) -> bool
    ensures { result ≡ true → UnitChar b 0 }
{
    ascii_low(b) | (b == 0xb7) | ((0xc0 <= b) & (b != 0xd7) & (b != 0xf7))
}

// Up to U+03FF, of which U+037E is none.
fn low_unit(b: u8, c: u8) -> bool
    ensures { result ≡ true → UnitChar b c }
{
    ((c == 0) & latin_unit(b)) | between(0x01, 0x02, c) | ((c == 0x03) & (b != 0x7e))
}

// U+200C, U+200D, U+203F, U+2040, U+2070 to U+218F, U+2C00 to U+2FEF.
fn sign_unit(b: u8, c: u8) -> bool
    ensures { result ≡ true → UnitChar b c }
{
    ((c == 0x20) & (between(0x0c, 0x0d, b) | between(0x3f, 0x40, b) | (0x70 <= b)))
        | ((c == 0x21) & (b <= 0x8f))
        | between(0x2c, 0x2e, c)
        | ((c == 0x2f) & (b <= 0xef))
}

// From U+F900 on, without U+FDD0 to U+FDEF, U+FFFE and U+FFFF.
fn last_unit(b: u8, c: u8) -> bool
    ensures { result ≡ true → UnitChar b c }
{
    between(0xf9, 0xfc, c)
        | ((c == 0xfd) & !between(0xd0, 0xef, b))
        | (c == 0xfe)
        | ((c == 0xff) & (b <= 0xfd))
}

// Any unit; of the high byte 30 all but U+3000.
fn is_unit(b: u8, c: u8) -> bool
    ensures { result ≡ true → UnitChar b c }
{
    far_high(c) | low_unit(b, c) | sign_unit(b, c) | ((c == 0x30) & (b != 0)) | last_unit(b, c)
}

// ---- a block

// Whether each of the 32 units from `at` on is one.
fn all_units(s: &[u8], at: usize) -> bool
    requires { at + 64 ≤ length s.now }
    ensures { result ≡ true → Seen true s.now at (at + 64) }
{
    all_pass(32, |k| is_unit(s[at + 2 * k], s[at + 2 * k + 1]))
}

// The end of such blocks one behind the other from `at` on, none of which ends behind `to`.
// Ruled out: a place behind U+3000; a place behind an unpaired surrogate.
pub fn units_end(s: &[u8], at: usize, to: usize) -> usize
    requires { to ≤ length s.now }
    ensures { Seen true s.now at result }
{
    let blocks = passing(to.saturating_sub(at) / 64, |k| all_units(s, at + 64 * k));
    at + 64 * blocks
}
