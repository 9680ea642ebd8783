// A string of the pool: where its content lies.
//
// Mirrors structs/res_string_pool.rs (apk-info 13770539b8): `split_string`. Definitions: specs/Content.antt.
// Differs from the Rust: the content is told by its place and length, so that a caller can hand out a part of the file.
ghost use Rattle.std.specs.Prelude.{◌≡◌, ◌≤◌, ◌<◌};
ghost use Rattle.field.specs.Le.{u8le, u16le};
ghost use Rattle.res_string_pool.specs.Content.{within, width8, length8, split8, split16, split_of};

use field::u8_at;

// The byte at a place, and 0 past the end: a string that lacks a byte of its lengths lacks its closing bytes too.
fn byte_at(s: &[u8], at: usize) -> u32
    ensures { (result ≡ u8le s.now at) × (result < 256) }
{
    if at < s.len() {
        return u8_at(s, at);
    }
    0
}

// The two bytes at a place, the low one first, and 0 for each past the end.
fn unit_at(s: &[u8], at: usize) -> u32
    requires { at ≤ 4 }
    ensures { (result ≡ u16le s.now at) × (result < 65536) }
{
    byte_at(s, at) + 256 * byte_at(s, at + 1)
}

// How many bytes a length of a UTF-8 string takes.
fn width8_at(s: &[u8], at: usize) -> usize
    ensures { (result ≡ width8 s.now at) × (result ≤ 2) }
{
    if 128 <= byte_at(s, at) { 2 } else { 1 }
}

// What a length of a UTF-8 string says, its high part first.
fn length8_at(s: &[u8], at: usize) -> usize
    requires { at ≤ 4 }
    ensures { (result ≡ length8 s.now at) × (result < 32768) }
{
    let b = byte_at(s, at);
    if 128 <= b {
        let low = byte_at(s, at + 1);
        return (b % 128 * 256 + low) as usize;
    }
    b as usize
}

// A content of n bytes at the place `at`, if it and the closing bytes behind it are there.
fn content_in(s: &[u8], at: usize, n: usize, closing: usize) -> Option<(usize, usize)>
    requires { (at ≤ 4) × (n < 8589934592) × (closing ≤ 2) }
    ensures { result ≡ within s.now at n closing }
{
    if at + n + closing <= s.len() {
        return Some((at, n));
    }
    None
}

fn split_utf8(s: &[u8]) -> Option<(usize, usize)>
    ensures { result ≡ split8 s.now }
{
    let first = width8_at(s, 0);
    let n = length8_at(s, first);
    content_in(s, first + width8_at(s, first), n, 1)
}

fn split_utf16(s: &[u8]) -> Option<(usize, usize)>
    ensures { result ≡ split16 s.now }
{
    let u = unit_at(s, 0);
    if 32768 <= u {
        let high = (u % 32768) as usize;
        let low = unit_at(s, 2) as usize;
        return content_in(s, 4, 2 * (high * 65536 + low), 2);
    }
    content_in(s, 2, 2 * (u as usize), 2)
}

// The content of the string at the front of s, which is the pool's data from an offset on: the place of its first byte, and how many bytes it
// has; none where the string is cut.
// Ruled out: the character length of a UTF-8 string for its byte length, and a length of two parts with the low part first.
pub fn split_string(utf16: bool, s: &[u8]) -> Option<(usize, usize)>
    ensures { result ≡ split_of utf16 s.now }
{
    if utf16 {
        return split_utf16(s);
    }
    split_utf8(s)
}
