// UTF-8: the step at a place, and a scalar value as bytes.
//
// Mirrors what std's String::from_utf8_lossy and char::encode_utf8 do. Definitions: specs/Utf8.antt, from Unicode's Tables 3-6 and 3-7;
// specs/Inner/Lead.antt is how the code goes through a row.
ghost use Rattle.std.specs.Prelude.{◌≡◌, ◌+◌, ◌≤◌, ◌<◌, length, get_or, drop};
ghost use Rattle.std.proofs.lemmas.List.Edits.{sets};
ghost use Rattle.utf.specs.Utf8.{encode, step8};
ghost use Rattle.utf.specs.Inner.Lead.{row, lead_of, step_by};

use super::Step;

// What a first byte says: how many bytes follow (4: it starts nothing), and the range of the second.
// The 4 stays a number, since `lead_of` and `step_by` of specs/Inner/Lead.antt hold it.
#[derive(Clone, Copy)]
pub struct Lead {
    pub more: u8,
    pub low: u8,
    pub high: u8,
}

fn row(more: u8, low: u8, high: u8) -> Lead
    ensures { result ≡ row more low high }
{
    Lead { more, low, high }
}

// The row of Table 3-7 that has the first byte b.
#[tactic(auto, unfolding(crate::specs::Inner::Lead::lead_of))]
fn lead_of(b: u8) -> Lead
    ensures { result ≡ lead_of b }
{
    match b {
        0x00..=0x7f => row(0, 0, 0),
        0xc2..=0xdf => row(1, 0x80, 0xbf),
        0xe0 => row(2, 0xa0, 0xbf),
        0xe1..=0xec => row(2, 0x80, 0xbf),
        0xed => row(2, 0x80, 0x9f),
        0xee..=0xef => row(2, 0x80, 0xbf),
        0xf0 => row(3, 0x90, 0xbf),
        0xf1..=0xf3 => row(3, 0x80, 0xbf),
        0xf4 => row(3, 0x80, 0x8f),
        _ => row(4, 0, 0),
    }
}

// The byte at i, and 0 past the end.
pub(crate) fn byte_at(s: &[u8], i: usize) -> u8
    ensures { result ≡ get_or s.now i 0 }
{
    s.get(i).copied().unwrap_or(0)
}

// The step at a first byte b0 of the row l, and the three bytes after it.
#[tactic(auto, unfolding(crate::specs::Inner::Lead::step_by))]
fn step_by(l: Lead, b0: u8, b1: u8, b2: u8, b3: u8) -> Step
    ensures { result ≡ step_by l b0 b1 b2 b3 }
{
    let v0 = u32::from(b0);
    let v1 = u32::from(b1) % 64;
    let v2 = u32::from(b2) % 64;
    let v3 = u32::from(b3) % 64;
    match l.more {
        0 => Step::Scalar(v0, 1),
        4 => Step::Bad(1),
        _ if b1 < l.low || l.high < b1 => Step::Bad(1),
        1 => Step::Scalar(v0 % 32 * 64 + v1, 2),
        _ if b2 < 0x80 || 0xbf < b2 => Step::Bad(2),
        2 => Step::Scalar(v0 % 16 * 4096 + v1 * 64 + v2, 3),
        _ if b3 < 0x80 || 0xbf < b3 => Step::Bad(3),
        _ => Step::Scalar(v0 % 8 * 262144 + v1 * 4096 + v2 * 64 + v3, 4),
    }
}

// The step at `at`: a scalar value, or the maximal subpart of what is ill-formed there.
// Ruled out: ED A0 80, an encoded surrogate, as one scalar value; F0 9F 98, the front of a sequence of four, as three bad steps.
pub fn utf8_step(s: &[u8], at: usize) -> Step
    ensures { result ≡ step8 (drop at s.now) }
{
    if s.len() <= at {
        return Step::End;
    }
    let b0 = s[at];
    step_by(
        lead_of(b0),
        b0,
        byte_at(s, at + 1),
        byte_at(s, at + 2),
        byte_at(s, at + 3),
    )
}

// How many bytes a scalar value takes.
#[tactic(auto, unfolding(crate::specs::Utf8::encode))]
pub(crate) fn scalar_len(v: u32) -> usize
    ensures { result ≡ length (encode v) }
{
    match v {
        0x00..=0x7f => 1,
        0x80..=0x7ff => 2,
        0x800..=0xffff => 3,
        _ => 4,
    }
}

// Writes a scalar value at `at`, and returns the place after it.
pub(crate) fn put_scalar(out: &mut [u8], at: usize, v: u32) -> usize
    requires { (v < 0x110000) × (at + length (encode v) ≤ length out.old) }
    ensures { (result ≡ at + length (encode v)) × (out.new ≡ sets out.old at (encode v)) }
{
    if v < 0x80 {
        out[at] = v as u8;
        return at + 1;
    }
    if v < 0x800 {
        out[at] = (0xc0 + v / 64) as u8;
        out[at + 1] = (0x80 + v % 64) as u8;
        return at + 2;
    }
    if v < 0x10000 {
        out[at] = (0xe0 + v / 4096) as u8;
        out[at + 1] = (0x80 + v / 64 % 64) as u8;
        out[at + 2] = (0x80 + v % 64) as u8;
        return at + 3;
    }
    out[at] = (0xf0 + v / 262144) as u8;
    out[at + 1] = (0x80 + v / 4096 % 64) as u8;
    out[at + 2] = (0x80 + v / 64 % 64) as u8;
    out[at + 3] = (0x80 + v % 64) as u8;
    at + 4
}
