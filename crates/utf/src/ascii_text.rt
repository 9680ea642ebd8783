// Texts of ASCII alone, in either encoding: told at a glance, and copied with no step taken. Most strings of a manifest are such.
//
// Mirrors nothing of the Rust, which takes std's decoders for every text. Definitions: specs/Text.antt, specs/Inner/StepRuns.antt.
ghost use Rattle.std.specs.Prelude.{◌≡◌, true, ◌++◌, ◌/◌, ◌≤◌, min, length, drop};
ghost use Rattle.utf.specs.Text.{text_of, put_text};
ghost use Rattle.utf.specs.Inner.StepRuns.{low_bytes, is_ascii_text};

use super::span::{is_ascii, is_ascii_units};

// Whether the text is seen at once to be ASCII, and so to be whole: each byte of UTF-8 is, or each unit of UTF-16.
// Ruled out: true of 41 01 in UTF-16, which is U+0141; true of 41 00 42 in UTF-16, where a byte stands alone at the end.
pub fn is_ascii_text(utf16: bool, s: &[u8]) -> bool
    ensures { result ≡ is_ascii_text utf16 s.now }
{
    if utf16 {
        return is_ascii_units(s);
    }
    is_ascii(s)
}

// The low byte of each unit at the front of a buffer that holds them.
#[tactic(auto, using(crate::proofs::AsciiText::all_copied, crate::proofs::AsciiText::low_bytes_length))]
fn put_lows(s: &[u8], out: &mut [u8])
    requires { length s.now / 2 ≤ length out.old }
    ensures { out.new ≡ low_bytes s.now ++ drop (length (low_bytes s.now)) out.old }
{
    for i in 0..s.len() / 2 {
        out[i] = s[2 * i];
    }
}

#[tactic(auto, using(crate::proofs::AsciiText::low_bytes_length), unfolding(crate::specs::Text::put_text))]
fn lows_into(s: &[u8], out: &mut [u8]) -> usize
    ensures { (result ≡ length (low_bytes s.now)) × (out.new ≡ put_text (low_bytes s.now) out.old) }
{
    let n = s.len() / 2;
    if n <= out.len() {
        put_lows(s, out);
    }
    n
}

// The bytes as they stand at the front of a buffer that holds them. A loop, since `copy_from_slice` would be a call of C's memmove, and the library
// for C calls none (include/axml.h).
#[tactic(auto, using(crate::proofs::AsciiText::all_copied))]
fn put_copy(s: &[u8], out: &mut [u8])
    requires { length s.now ≤ length out.old }
    ensures { out.new ≡ s.now ++ drop (length s.now) out.old }
{
    for i in 0..s.len() {
        out[i] = s[i];
    }
}

#[tactic(auto, unfolding(crate::specs::Text::put_text))]
fn copy_into(s: &[u8], out: &mut [u8]) -> usize
    ensures { (result ≡ length s.now) × (out.new ≡ put_text s.now out.old) }
{
    if s.len() <= out.len() {
        put_copy(s, out);
    }
    s.len()
}

// What `text_into` does, for a text that `is_ascii_text` has told to be ASCII: in UTF-8 its bytes, and in UTF-16 the low byte of each unit.
// Ruled out: both bytes of a unit; a byte of `out` changed where the text does not fit.
pub fn ascii_into(utf16: bool, s: &[u8], out: &mut [u8]) -> usize
    requires { is_ascii_text utf16 s.now ≡ true }
    ensures { (result ≡ min (length (text_of utf16 s.now)) 0xffffffffffffffff)
        × (out.new ≡ put_text (text_of utf16 s.now) out.old) }
{
    if utf16 {
        return lows_into(s, out);
    }
    copy_into(s, out)
}
