// Whether two texts are the same.
//
// Mirrors `==` of two texts in the Rust; here each stays where it lies, in its own encoding. Definitions: specs/Text.antt.
// Two in UTF-16 are told by their bytes, since a sound text has one spelling; only the empty text has many, all that are refused.
ghost use Rattle.std.specs.Prelude.{◌≡◌, Bool, true, false, [], ◌<◌, length, drop, MatchOption};
ghost use Rattle.utf.specs.Text.{steps_of, bytes_of, text_of, eq_bytes};
ghost use Rattle.utf.specs.Inner.StepRuns.{Paired};
ghost use Rattle.utf.specs.Plain.{is_plain, Known};

use super::span::is_ascii;
use super::{is_refused, next_of};

// ---- step by step

// The places after the steps at two places, if the two stand for the same. Two bytes of ASCII are compared as they stand.
fn both_at(
    utf16_a: bool,
    a: &[u8],
    i: usize,
    utf16_b: bool,
    b: &[u8],
    j: usize,
) -> Option<(usize, usize)>
    requires { (i < length a.now) × (j < length b.now) }
    ensures { MatchOption result
        (eq_bytes (bytes_of (steps_of utf16_a (drop i a.now))) (bytes_of (steps_of utf16_b (drop j b.now))) ≡ false)
        (λ next. Paired utf16_a a.now i utf16_b b.now j next.0 next.1) }
{
    if !utf16_a && !utf16_b {
        let (x, y) = (a[i], b[j]);
        if x < 128 && y < 128 {
            return (x == y).then_some((i + 1, j + 1));
        }
    }
    let t = next_of(utf16_a, a, i);
    let u = next_of(utf16_b, b, j);
    (t.value == u.value).then_some((i + t.width, j + u.width))
}

fn same_steps(utf16_a: bool, a: &[u8], utf16_b: bool, b: &[u8]) -> bool
    ensures { result ≡ eq_bytes (bytes_of (steps_of utf16_a a.now)) (bytes_of (steps_of utf16_b b.now)) }
{
    let mut i = 0;
    let mut j = 0;
    while i < a.len() {
        if b.len() <= j {
            return false;
        }
        let Some(next) = both_at(utf16_a, a, i, utf16_b, b, j) else {
            return false;
        };
        (i, j) = next;
    }
    b.len() <= j
}

// ---- by their bytes

// Whether the bytes are the same. Names that differ mostly do so in their length or at their end, which are looked at first: the last block of 64
// bytes, or, where there is none, the last eight.
// Ruled out: true of bytes and of more that begin with them; true of two that differ in the last alone.
pub fn same_bytes(a: &[u8], b: &[u8]) -> bool
    ensures { result ≡ eq_bytes a.now b.now }
{
    if a.len() != b.len() {
        return false;
    }
    if 64 <= a.len() {
        let last = a.len() - 64;
        return a.last_chunk::<64>() == b.last_chunk::<64>() && &a[..last] == &b[..last];
    }
    a.last_chunk::<8>() == b.last_chunk::<8>() && a == b
}

// Whether the text in UTF-16 is empty: it has no bytes, or it is refused.
fn is_blank(s: &[u8]) -> bool
    ensures { result ≡ eq_bytes [] (text_of true s.now) }
{
    is_refused(true, s) || s.is_empty()
}

// Whether two texts in UTF-16 are the same: bytes that differ are the same text only where both are empty.
fn same_utf16(a: &[u8], b: &[u8]) -> bool
    ensures { result ≡ eq_bytes (text_of true a.now) (text_of true b.now) }
{
    same_bytes(a, b) || is_blank(a) && is_blank(b)
}

// ---- the texts

// Whether a text is surely another than that of some bytes of UTF-8, because it has more than sixteen times as many bytes: nothing of it is read.
// A step takes at most four bytes and makes at least one, and a byte of UTF-8 makes at most four.
fn is_far_longer(a: &[u8], utf16_b: bool, b: &[u8]) -> bool
    ensures { result ≡ true → (w : Bool) → (eq_bytes (text_of w a.now) (text_of utf16_b b.now) ≡ false)
        × (eq_bytes (text_of utf16_b b.now) (text_of w a.now) ≡ false) }
{
    !utf16_b && !b.is_empty() && b.len() < a.len() / 16
}

// Whether two texts, each in its own encoding, are the same. One that is far longer than the other is not looked at.
// Ruled out: false of FF in UTF-8 and FD FF in UTF-16, since both are U+FFFD; true of a text and a longer one that begins with it.
pub fn same_text(utf16_a: bool, a: &[u8], utf16_b: bool, b: &[u8]) -> bool
    ensures { result ≡ eq_bytes (text_of utf16_a a.now) (text_of utf16_b b.now) }
{
    if utf16_a && utf16_b {
        return same_utf16(a, b);
    }
    if is_far_longer(a, utf16_b, b) || is_far_longer(b, utf16_a, a) {
        return false;
    }
    let no_b = is_refused(utf16_b, b);
    if is_refused(utf16_a, a) {
        return no_b || b.is_empty();
    }
    if no_b {
        return a.is_empty();
    }
    same_steps(utf16_a, a, utf16_b, b)
}

// ---- a text that its bytes decide

// Whether no other bytes in the same encoding are this text: in UTF-8 it is ASCII, and in UTF-16 it is not empty.
// Ruled out: true of a text that is refused, since there are others; true of EF BF BD in UTF-8, since FF is the same text.
pub fn is_plain(utf16: bool, s: &[u8]) -> bool
    ensures { result ≡ is_plain utf16 s.now }
{
    if utf16 {
        return !is_blank(s);
    }
    is_ascii(s)
}

// Whether two texts are the same, as `same_text` tells it; the second is known to be plain where `plain` is true, and then its bytes decide.
// Ruled out: true of two texts that are refused and differ; false of a plain text in UTF-8 and the same in UTF-16.
pub fn same_known(plain: bool, utf16_a: bool, a: &[u8], utf16_b: bool, b: &[u8]) -> bool
    requires { Known plain (is_plain utf16_b b.now) }
    ensures { result ≡ eq_bytes (text_of utf16_a a.now) (text_of utf16_b b.now) }
{
    if plain && utf16_a == utf16_b {
        return same_bytes(a, b);
    }
    same_text(utf16_a, a, utf16_b, b)
}
