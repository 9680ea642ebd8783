// What every chunk of an AXML file has: its header and the type in it; and the two sorts of number that name things in it.
//
// Mirrors structs/common.rs (apk-info 13770539b8): `ResChunkHeader`, `ResourceHeaderType`; the values of attributes are in value.rt.
// Definitions: specs/Header.antt, specs/Inner/HeaderType.antt.
// Differs from the Rust: a header keeps the number of its type, since notes and the test for XML speak of numbers.
#![tactic(auto)]

ghost use Rattle.std.specs.Prelude.{◌≡◌, ◌≤◌, length, drop};
ghost use Rattle.common.specs.Header.{header_of, content_size};
ghost use Rattle.common.specs.Inner.HeaderType.{header_type_of, header_type_number};

use field::{u16_at, u32_at};

pub mod value;

pub use value::{
    ResourceValueType, complex_to_float, is_reference, value_type_number, value_type_of,
};

// The place of a string in the pool. Never a resource id: both are u32, and the two types keep them apart.
#[derive(Clone, Copy, Debug, PartialEq, Eq)]
pub struct StringIndex(pub u32);

// The id of a resource: package, type and entry. Never a string index.
#[derive(Clone, Copy, Debug, PartialEq, Eq)]
pub struct ResourceId(pub u32);

// The 8 bytes at the front of a chunk: its type (the Rust's `type_`), the size that it gives its header, and the size that it gives
// the whole chunk.
#[derive(Clone, Copy, Debug, PartialEq, Eq)]
pub struct ResChunkHeader {
    pub kind: u32,
    pub header_size: u32,
    pub size: u32,
}

impl ResChunkHeader {
    // The bytes of content that the size promises behind the 8 of the header; none where the size is below 8.
    // Ruled out: 2 ^ 32 - 1 for size 7 (wrapped), and the size less `header_size`.
    pub fn content_size(self) -> u32
        ensures { result ≡ content_size self }
    {
        self.size.saturating_sub(8)
    }
}

// The header that the bytes from `at` on begin with.
// Ruled out: a header made of 7 bytes and a zero, and none where exactly 8 bytes are left.
#[tactic(auto, using(crate::proofs::Laws::header_none_at, crate::proofs::Laws::header_some_at))]
pub fn header_at(s: &[u8], at: usize) -> Option<ResChunkHeader>
    requires { at ≤ length s.now }
    ensures { result ≡ header_of (drop at s.now) }
{
    if s.len() - at < 8 {
        return None;
    }
    Some(ResChunkHeader {
        kind: u16_at(s, at),
        header_size: u16_at(s, at + 2),
        size: u32_at(s, at + 4),
    })
}

// What a chunk is, by its type. `Unknown` keeps a number that has no name.
#[derive(Clone, Copy, Debug, PartialEq, Eq)]
pub enum ResourceHeaderType {
    Null,
    StringPool,
    Table,
    Xml,
    XmlStartNamespace,
    XmlEndNamespace,
    XmlStartElement,
    XmlEndElement,
    XmlCdata,
    XmlLastChunk,
    XmlResourceMap,
    TablePackage,
    TableType,
    TableTypeSpec,
    TableLibrary,
    TableOverlayable,
    TableOverlayablePolicy,
    TableStagedAlias,
    Unknown(u32),
}

impl From<u32> for ResourceHeaderType {
    ghost from_gives = { λ n t. t ≡ header_type_of n };

    #[tactic(auto, unfolding(crate::specs::Inner::HeaderType::header_type_of))]
    fn from(n: u32) -> ResourceHeaderType {
        match n {
            0x0000 => ResourceHeaderType::Null,
            0x0001 => ResourceHeaderType::StringPool,
            0x0002 => ResourceHeaderType::Table,
            0x0003 => ResourceHeaderType::Xml,
            0x0100 => ResourceHeaderType::XmlStartNamespace,
            0x0101 => ResourceHeaderType::XmlEndNamespace,
            0x0102 => ResourceHeaderType::XmlStartElement,
            0x0103 => ResourceHeaderType::XmlEndElement,
            0x0104 => ResourceHeaderType::XmlCdata,
            0x017f => ResourceHeaderType::XmlLastChunk,
            0x0180 => ResourceHeaderType::XmlResourceMap,
            0x0200 => ResourceHeaderType::TablePackage,
            0x0201 => ResourceHeaderType::TableType,
            0x0202 => ResourceHeaderType::TableTypeSpec,
            0x0203 => ResourceHeaderType::TableLibrary,
            0x0204 => ResourceHeaderType::TableOverlayable,
            0x0205 => ResourceHeaderType::TableOverlayablePolicy,
            0x0206 => ResourceHeaderType::TableStagedAlias,
            _ => ResourceHeaderType::Unknown(n),
        }
    }
}

// The type of a number. Ruled out: a name for 0x105 because it lies between two named numbers, and the type of the low byte alone.
pub fn header_type_of(n: u32) -> ResourceHeaderType
    ensures { result ≡ header_type_of n }
{
    ResourceHeaderType::from(n)
}

impl From<ResourceHeaderType> for u32 {
    ghost from_gives = { λ t n. n ≡ header_type_number t };

    #[tactic(auto, unfolding(crate::specs::Inner::HeaderType::header_type_number))]
    fn from(t: ResourceHeaderType) -> u32 {
        match t {
            ResourceHeaderType::Null => 0x0000,
            ResourceHeaderType::StringPool => 0x0001,
            ResourceHeaderType::Table => 0x0002,
            ResourceHeaderType::Xml => 0x0003,
            ResourceHeaderType::XmlStartNamespace => 0x0100,
            ResourceHeaderType::XmlEndNamespace => 0x0101,
            ResourceHeaderType::XmlStartElement => 0x0102,
            ResourceHeaderType::XmlEndElement => 0x0103,
            ResourceHeaderType::XmlCdata => 0x0104,
            ResourceHeaderType::XmlLastChunk => 0x017f,
            ResourceHeaderType::XmlResourceMap => 0x0180,
            ResourceHeaderType::TablePackage => 0x0200,
            ResourceHeaderType::TableType => 0x0201,
            ResourceHeaderType::TableTypeSpec => 0x0202,
            ResourceHeaderType::TableLibrary => 0x0203,
            ResourceHeaderType::TableOverlayable => 0x0204,
            ResourceHeaderType::TableOverlayablePolicy => 0x0205,
            ResourceHeaderType::TableStagedAlias => 0x0206,
            ResourceHeaderType::Unknown(n) => n,
        }
    }
}

// The number of a type; of `header_type_of(n)` it is n. Ruled out: 0 for an unknown type, and its place among the names.
pub fn header_type_number(t: ResourceHeaderType) -> u32
    ensures { result ≡ header_type_number t }
{
    u32::from(t)
}
