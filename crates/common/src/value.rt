// The value of an attribute: its type, and the number that a dimension or a fraction holds.
//
// Mirrors structs/common.rs (apk-info 13770539b8): `ResourceValueType`, `complex_to_float`.
// Definitions: specs/ValueType.antt, specs/Complex.antt.
// Differs from the Rust: a type's number may be over 255, since a lent table holds it as a u32; the text of a value is not made.
ghost use Rattle.std.specs.Prelude.{◌≡◌};
ghost use Rattle.common.specs.ValueType.{value_type_of, value_type_number, is_reference};
ghost use Rattle.common.specs.Complex.{Complex};

// What a value is, by its type. `Unknown` keeps a number that has no name, also one over 255.
#[derive(Clone, Copy, Debug, PartialEq, Eq)]
pub enum ResourceValueType {
    Null,
    Reference,
    Attribute,
    String,
    Float,
    Dimension,
    Fraction,
    DynamicReference,
    DynamicAttribute,
    Dec,
    Hex,
    Boolean,
    ColorArgb8,
    ColorRgb8,
    ColorArgb4,
    ColorRgb4,
    Unknown(u32),
}

impl From<u32> for ResourceValueType {
    ghost from_gives = { λ n t. t ≡ value_type_of n };

    #[tactic(auto, unfolding(crate::specs::ValueType::value_type_of))]
    fn from(n: u32) -> ResourceValueType {
        match n {
            0x00 => ResourceValueType::Null,
            0x01 => ResourceValueType::Reference,
            0x02 => ResourceValueType::Attribute,
            0x03 => ResourceValueType::String,
            0x04 => ResourceValueType::Float,
            0x05 => ResourceValueType::Dimension,
            0x06 => ResourceValueType::Fraction,
            0x07 => ResourceValueType::DynamicReference,
            0x08 => ResourceValueType::DynamicAttribute,
            0x10 => ResourceValueType::Dec,
            0x11 => ResourceValueType::Hex,
            0x12 => ResourceValueType::Boolean,
            0x1c => ResourceValueType::ColorArgb8,
            0x1d => ResourceValueType::ColorRgb8,
            0x1e => ResourceValueType::ColorArgb4,
            0x1f => ResourceValueType::ColorRgb4,
            _ => ResourceValueType::Unknown(n),
        }
    }
}

// The type of a number. Ruled out: Reference for 257 (the low byte alone), and Dec for 9 (the place among the names).
pub fn value_type_of(n: u32) -> ResourceValueType
    ensures { result ≡ value_type_of n }
{
    ResourceValueType::from(n)
}

impl From<ResourceValueType> for u32 {
    ghost from_gives = { λ t n. n ≡ value_type_number t };

    #[tactic(auto, unfolding(crate::specs::ValueType::value_type_number))]
    fn from(t: ResourceValueType) -> u32 {
        match t {
            ResourceValueType::Null => 0x00,
            ResourceValueType::Reference => 0x01,
            ResourceValueType::Attribute => 0x02,
            ResourceValueType::String => 0x03,
            ResourceValueType::Float => 0x04,
            ResourceValueType::Dimension => 0x05,
            ResourceValueType::Fraction => 0x06,
            ResourceValueType::DynamicReference => 0x07,
            ResourceValueType::DynamicAttribute => 0x08,
            ResourceValueType::Dec => 0x10,
            ResourceValueType::Hex => 0x11,
            ResourceValueType::Boolean => 0x12,
            ResourceValueType::ColorArgb8 => 0x1c,
            ResourceValueType::ColorRgb8 => 0x1d,
            ResourceValueType::ColorArgb4 => 0x1e,
            ResourceValueType::ColorRgb4 => 0x1f,
            ResourceValueType::Unknown(n) => n,
        }
    }
}

// The number of a type; of `value_type_of(n)` it is n. Ruled out: 0 for an unknown type, and its place among the names.
pub fn value_type_number(t: ResourceValueType) -> u32
    ensures { result ≡ value_type_number t }
{
    u32::from(t)
}

// Whether a value refers to another resource: exactly the types 1 and 7.
// Ruled out: yes for 2, an attribute's id, and yes for 257.
#[tactic(auto, unfolding(crate::specs::ValueType::is_reference))]
pub fn is_reference(t: ResourceValueType) -> bool
    ensures { result ≡ is_reference t }
{
    let n = value_type_number(t);
    n == 1 || n == 7
}

// What one unit of a complex value's whole number is worth, by the radix: near 2 ^ -8, 2 ^ -15, 2 ^ -23 and 2 ^ -31.
const RADIX_MULTS: [f64; 4] = [0.00390625, 3.051758e-005, 1.192093e-007, 4.656613e-010];

// The number that a dimension or a fraction holds: the upper 24 bits, times what bits 4 and 5 pick.
// Ruled out: a product in which the low 8 bits count, and a multiplier picked by bits 5 and 6.
pub fn complex_to_float(data: u32) -> f64
    ensures { Complex «data» result }
{
    let m = data / 256 * 256;
    let r = (data / 16 % 4) as usize;
    (m as f64) * RADIX_MULTS[r]
}
