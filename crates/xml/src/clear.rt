// Places of a text in UTF-8 that no name ends at, and blocks of 64 such places, which are passed at once.
// Definitions: specs/Inner/ClearPlaces.antt.
//
// Mirrors nothing of xml/src/lib.rs (apk-info 13770539b8). What is damaged is U+FFFD, which is a start, and a byte that begins a char is never inside
// another one: so a text in UTF-8 is chars of a name where at none of its bytes a whole char begins that is in no name, and a byte and the three behind
// it tell that, wherever the chars before it begin and whatever is damaged. Each byte is looked at by itself, with no early way out, so that the compiler
// takes many at once.
ghost use Rattle.std.specs.Prelude.{◌≡◌, true, false, ℕ, ◌+◌, ◌≤◌, length};
ghost use Rattle.xml.specs.Inner.ClearPlaces.{Clear};
ghost use Rattle.xml.specs.Inner.NameRun.{Passed};

use super::blocks::{all_pass, ascii_low, between, is_trail, passing};

// ---- a place, by its byte and those behind it. False tells nothing

// Whether the byte b tells it, whatever is behind it: no char in no name begins with it, or no char at all.
// Ruled out: true of C3, which U+00D7 has; true of EE, which U+E000 has.
pub fn lead_clear(b: u8) -> bool
    ensures { result ≡ true → (c d e : ℕ) → Clear b c d e }
{
    ascii_low(b)
        | between(0x80, 0xc1, b)
        | between(0xc4, 0xcc, b)
        | between(0xce, 0xe1, b)
        | between(0xe4, 0xed, b)
        | between(0xf0, 0xf2, b)
        | (0xf5 <= b)
}

// Two bytes. Of C2 only U+00B7 is a char of a name; of C3 all but U+00D7 and U+00F7; of CD all but U+037E.
fn two_clear(b: u8, c: u8) -> bool
    ensures { result ≡ true → (d e : ℕ) → Clear b c d e }
{
    ((b == 0xc2) & ((c == 0xb7) | !is_trail(c)))
        | ((b == 0xc3) & (c != 0x97) & (c != 0xb7))
        | ((b == 0xcd) & (c != 0xbe))
}

// Behind E2: U+200C, U+200D, U+203F, U+2040, U+2070 to U+218F, U+2C00 to U+2FEF.
fn e2_clear(c: u8, d: u8) -> bool
    ensures { result ≡ true → (e : ℕ) → Clear 0xe2 c d e }
{
    ((c == 0x80) & (between(0x8c, 0x8d, d) | (d == 0xbf)))
        | ((c == 0x81) & ((d == 0x80) | (0xb0 <= d)))
        | between(0x82, 0x85, c)
        | ((c == 0x86) & (d <= 0x8f))
        | between(0xb0, 0xbe, c)
        | ((c == 0xbf) & (d <= 0xaf))
}

// Behind EF: U+F900 to U+FDCF, U+FDF0 to U+FFFD.
fn ef_clear(c: u8, d: u8) -> bool
    ensures { result ≡ true → (e : ℕ) → Clear 0xef c d e }
{
    between(0xa4, 0xb6, c)
        | ((c == 0xb7) & !between(0x90, 0xaf, d))
        | between(0xb8, 0xbe, c)
        | ((c == 0xbf) & (d <= 0xbd))
}

// Three bytes. Of E3 all but U+3000 are chars of a name; of EE none is.
fn three_clear(b: u8, c: u8, d: u8) -> bool
    ensures { result ≡ true → (e : ℕ) → Clear b c d e }
{
    ((b == 0xe3) & ((c != 0x80) | (d != 0x80)))
        | (between(0xe2, 0xef, b) & (!is_trail(c) | !is_trail(d)))
        | ((b == 0xe2) & e2_clear(c, d))
        | ((b == 0xef) & ef_clear(c, d))
}

// Four bytes. Of F3 those up to U+EFFFF are chars of a name; of F4 none is.
fn four_clear(b: u8, c: u8, d: u8, e: u8) -> bool
    ensures { result ≡ true → Clear b c d e }
{
    (between(0xf3, 0xf4, b) & (!is_trail(c) | !is_trail(d) | !is_trail(e)))
        | ((b == 0xf3) & (c < 0xb0))
        | ((b == 0xf4) & (0x90 <= c))
}

// A byte alone, or where `near` is true with those behind it. The test of `near` is a branch, which the compiler takes out of a loop.
fn is_clear(near: bool, b: u8, c: u8, d: u8, e: u8) -> bool
    ensures { result ≡ true → Clear b c d e }
{
    if near {
        return lead_clear(b) | two_clear(b, c) | three_clear(b, c, d) | four_clear(b, c, d, e);
    }
    lead_clear(b)
}

// ---- a block

// Whether each of the 64 places from `at` on is clear.
fn all_clear(near: bool, s: &[u8], at: usize) -> bool
    requires { at + 67 ≤ length s.now }
    ensures { result ≡ true → Passed false s.now at (at + 64) }
{
    all_pass(
        64,
        |k| is_clear(near, s[at + k], s[at + k + 1], s[at + k + 2], s[at + k + 3]),
    )
}

// The same, first by the bytes alone, which is quick and most often enough.
fn block_clear(s: &[u8], at: usize) -> bool
    requires { at + 67 ≤ length s.now }
    ensures { result ≡ true → Passed false s.now at (at + 64) }
{
    if all_clear(false, s, at) {
        return true;
    }
    all_clear(true, s, at)
}

// The first place from `at` on that holds no byte 80 to BF: a char may begin there.
fn past_trails(s: &[u8], at: usize) -> usize
    ensures { Passed false s.now at result }
{
    at + passing(s.len().saturating_sub(at), |k| is_trail(s[at + k]))
}

// A place from `at` on, before which only chars of a name stand, and where a char may begin: behind the blocks that are clear, one behind the other, of
// which none ends behind `to`, nor has less than three bytes behind it.
// Ruled out: a place behind U+00D7, C3 97; a place behind U+E000, EE 80 80.
pub fn clear_end(s: &[u8], at: usize, to: usize) -> usize
    requires { to ≤ length s.now }
    ensures { Passed false s.now at result }
{
    let end = to.min(s.len().saturating_sub(3));
    let blocks = passing(end.saturating_sub(at) / 64, |k| block_clear(s, at + 64 * k));
    past_trails(s, at + 64 * blocks)
}
