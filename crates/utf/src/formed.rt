// Blocks of UTF-8 in which each sequence is whole, looked at with no early way out, so that the compiler takes many bytes at once: all tests of a byte are
// made, by `&` and `|`, since a branch would hold the loop over a block to one byte at a time.
//
// Mirrors nothing of the Rust. Definitions: specs/Inner/StepRuns.antt, from Unicode's Table 3-7. A first byte is followed by as many bytes 80 to BF as its
// row says, and then by none: where each byte of a block that begins with a first byte is so, or is a byte 80 to BF itself, no step in it is bad.
ghost use Rattle.std.specs.Prelude.{◌≡◌, true, false, ℕ, ◌+◌, ◌≤◌, length, get_or};
ghost use Rattle.utf.specs.Utf8.{inside};
ghost use Rattle.utf.specs.Inner.StepRuns.{IsInner, SecondFits, Placed, NextChar, Ran};

// Whether b lies in a range of Table 3-7.
fn between(first: u8, last: u8, b: u8) -> bool
    ensures { result ≡ inside first last b }
{
    (first..=last).contains(&b)
}

// Whether b stands behind the first byte of a sequence.
fn is_inner(b: u8) -> bool
    ensures { result ≡ inside 0x80 0xbf b }
{
    between(0x80, 0xbf, b)
}

// Whether c may be the second byte behind a first byte b: of E0, ED, F0 and F4 fewer may than of others. False tells nothing.
fn second_fits(b: u8, c: u8) -> bool
    ensures { result ≡ true → SecondFits b c }
{
    is_inner(c)
        & ((b != 0xe0) | (0xa0 <= c))
        & ((b != 0xed) | (c <= 0x9f))
        & ((b != 0xf0) | (0x90 <= c))
        & ((b != 0xf4) | (c <= 0x8f))
}

// Whether b begins a whole sequence with what is behind it, and no byte more follows; true too of a byte inside one. False tells nothing.
fn is_formed(b: u8, c: u8, d: u8, e: u8, f: u8) -> bool
    ensures { result ≡ true → Placed b c d e f }
{
    let more = second_fits(b, c);
    is_inner(b)
        | ((b < 0x80) & !is_inner(c))
        | (between(0xc2, 0xdf, b) & more & !is_inner(d))
        | (between(0xe0, 0xef, b) & more & is_inner(d) & !is_inner(e))
        | (between(0xf0, 0xf4, b) & more & is_inner(d) & is_inner(e) & !is_inner(f))
}

// Whether each of the n places from `at` on is so; a char begins at `at`. The least of the answers decides.
// The loop counts from 0: over `at..at + n` the compiler takes one byte at a time, and the whole look is a third slower.
fn all_formed(s: &[u8], at: usize, n: usize) -> bool
    requires { (at + n + 4 ≤ length s.now) × (IsInner (get_or s.now at 0) → ⊥) }
    ensures { result ≡ true → (to : ℕ) → NextChar s.now (at + n) to → Ran false s.now at to }
{
    let mut least: u8 = 1;
    for k in 0..n {
        let i = at + k;
        let x = is_formed(s[i], s[i + 1], s[i + 2], s[i + 3], s[i + 4]);
        least = least.min(u8::from(x));
    }
    least == 1
}

// The first place from `at` on that holds no byte 80 to BF, or the end.
fn past_inner(s: &[u8], at: usize) -> usize
    requires { at ≤ length s.now }
    ensures { NextChar s.now at result × (result ≤ length s.now) }
{
    for i in at..s.len() {
        if !is_inner(s[i]) {
            return i;
        }
    }
    s.len()
}

// The end of n bytes of whole sequences in UTF-8 at a place with four bytes more behind them, and of the last sequence that begins in them: `at` where
// they are not whole, and in UTF-16. Each step before it is sound.
// Ruled out: a place behind ED A0 80, an encoded surrogate; a place inside a sequence.
#[tactic(auto, using(crate::proofs::Units::ran_none))]
pub(crate) fn formed_end(utf16: bool, s: &[u8], at: usize, n: usize) -> usize
    requires { at + n + 4 ≤ length s.now }
    ensures { Ran utf16 s.now at result × (result ≤ length s.now) }
{
    if utf16 || is_inner(s[at]) || !all_formed(s, at, n) {
        return at;
    }
    past_inner(s, at + n)
}
