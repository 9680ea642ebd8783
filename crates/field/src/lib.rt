// Numbers in a list of bytes: one, two or four bytes, the low byte first.
//
// Mirrors what structs/*.rs takes from winnow::binary: le_u8, le_u16, le_u32.
// Definitions: specs/Le.antt. Each function asks that its bytes are there: its callers test a length once and then read.
#![tactic(auto)]

ghost use Rattle.std.specs.Prelude.{◌≡◌, ◌+◌, ◌*◌, ◌≤◌, ◌<◌, length};
ghost use Rattle.field.specs.Le.{u8le, u16le, u32le};

// A byte as a wider number.
pub fn to_u32(x: u8) -> u32
    ensures { (result ≡ x) × (result < 256) }
{
    u32::from(x)
}

pub fn u8_at(s: &[u8], at: usize) -> u32
    requires { at + 1 ≤ length s.now }
    ensures { (result ≡ u8le s.now at) × (result < 256) }
{
    u32::from(s[at])
}

#[tactic(auto, unfolding(crate::specs::Le::u16le))]
pub fn u16_at(s: &[u8], at: usize) -> u32
    requires { at + 2 ≤ length s.now }
    ensures { (result ≡ u16le s.now at) × (result < 65536) }
{
    u32::from(u16::from_le_bytes([s[at], s[at + 1]]))
}

#[tactic(auto, unfolding(crate::specs::Le::u16le, crate::specs::Le::u32le))]
pub fn u32_at(s: &[u8], at: usize) -> u32
    requires { at + 4 ≤ length s.now }
    ensures { result ≡ u32le s.now at }
{
    u32::from_le_bytes([s[at], s[at + 1], s[at + 2], s[at + 3]])
}
