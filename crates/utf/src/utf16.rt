// UTF-16, the low byte of a unit first: the step at a place.
//
// Mirrors std's char::decode_utf16 over units of two bytes. Definitions: specs/Utf16.antt, from Unicode's Table 3-5.
ghost use Rattle.std.specs.Prelude.{◌≡◌, ◌-◌, ◌<◌, drop};
ghost use Rattle.utf.specs.Utf16.{unit, pair_of, step16};

use super::Step;
use super::utf8::byte_at;

// The unit at i.
#[tactic(auto, unfolding(crate::specs::Utf16::unit))]
fn unit_at(s: &[u8], i: usize) -> u16
    requires { i < 0x10000000000000000 - 1 }
    ensures { result ≡ unit s.now i }
{
    u16::from_le_bytes([byte_at(s, i), byte_at(s, i + 1)])
}

// The step at a unit u, and the unit after it.
#[tactic(auto, unfolding(crate::specs::Utf16::pair_of))]
fn pair_of(u: u16, w: u16) -> Step
    ensures { result ≡ pair_of u w }
{
    match (u, w) {
        (0xd800..=0xdbff, 0xdc00..=0xdfff) => Step::Scalar(
            0x10000 + (u32::from(u) - 0xd800) * 1024 + (u32::from(w) - 0xdc00),
            4,
        ),
        (0xd800..=0xdfff, _) => Step::Bad(2),
        _ => Step::Scalar(u32::from(u), 2),
    }
}

// The step at `at`: a scalar value of one unit or of a pair, or a surrogate without its other half.
// Ruled out: 3D D8 alone as the scalar value D83D; 3D D8 00 DE, the pair of U+1F600, as two bad steps.
pub fn utf16_step(s: &[u8], at: usize) -> Step
    ensures { result ≡ step16 (drop at s.now) }
{
    if s.len() <= at {
        return Step::End;
    }
    if s.len() - at < 2 {
        return Step::Bad(1);
    }
    pair_of(unit_at(s, at), unit_at(s, at + 2))
}
