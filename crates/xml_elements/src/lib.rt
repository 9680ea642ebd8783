// The chunks of a body: what stands at the front of the bytes that are left.
//
// Mirrors structs/xml_elements.rs (apk-info 13770539b8): `XMLHeader`, `XmlStartElement::parse`, `XmlAttributeElement::parse`; and the tests of
// axml.rs that come before a chunk is read. Answers: `Turn`. Definitions: specs/Chunk.antt (docs/FORMAT.md, W1 to W3, W6 to W19).
// Differs from the Rust: attributes are not gathered in a list, they are read where they stand once the whole chunk is known to be there.
#![tactic(auto)]

ghost use Rattle.std.specs.Prelude.{◌≡◌, ◌+◌, ◌-◌, ◌*◌, ◌≤◌, ◌<◌, length};
ghost use Rattle.xml_elements.specs.Chunk.{start_of, stride_of, attributes_at, attributes_end, trailing_of, start_len, attribute_at};
ghost use Rattle.xml_elements.specs.Chunk.{start_turn, xml_turn, turn_of};

use chunk::{skip_content, sort_of};
use common::{ResChunkHeader, StringIndex, header_at};
use field::{u8_at, u16_at, u32_at};

// What a start says of itself.
#[derive(Clone, Copy)]
pub struct XmlStartElement {
    // the size of the whole chunk, as its header has it
    pub size: u32,
    // line of the source at which the element appeared
    pub line: u32,
    pub name: StringIndex,
    // where the attributes begin, from the start's own 20 bytes on
    pub attribute_start: u16,
    // the size of each attribute
    pub attribute_size: u16,
    pub attribute_count: u16,
}

// An attribute as it stands in the file.
#[derive(Clone, Copy)]
pub struct XmlAttributeElement {
    pub namespace_uri: StringIndex,
    pub name: StringIndex,
    pub data_type: u32,
    pub data: u32,
}

// An XML chunk that is whole.
#[derive(Clone, Copy)]
pub enum Chunk {
    Start(XmlStartElement),
    End,
    // a namespace or cdata, and the bytes that it takes
    Other(usize),
    // type 0x17f
    Last,
}

// An XML chunk that is cut, by the part that is not there.
#[derive(Clone, Copy)]
pub enum CutChunk {
    // line and comment
    CutLine,
    // the 20 bytes of a start
    CutHead,
    // what lies before its attributes, its attributes, what lies behind them
    CutGap(XmlStartElement),
    CutAttributes(XmlStartElement),
    CutTrailing(XmlStartElement),
    // the 8 bytes of an end
    CutEnd,
    // the 8 bytes of a namespace, the 12 of cdata
    CutOther,
}

// What stands at a place of the walk.
#[derive(Clone, Copy)]
pub enum Turn {
    // fewer than 8 bytes
    Stop,
    // a foreign chunk: its sort, the number of its note, the bytes that it takes
    Foreign(u32, u32, usize),
    Met(Chunk),
    Cut(CutChunk),
}

// ---- a start's parts

// The excess over 20.
fn less_20(x: u16) -> usize
    ensures { (result ≡ x - 20) × (result < 65536) }
{
    usize::from(x.saturating_sub(20))
}

// The bytes from one attribute to the next.
// Ruled out: 10 for an attribute_size of 10, and 20 for one of 24.
pub fn stride_of(s: XmlStartElement) -> usize
    ensures { (result ≡ stride_of s) × (20 ≤ result) × (result < 65556) }
{
    20 + less_20(s.attribute_size)
}

// Where the attributes begin, from the chunk's first byte.
// Ruled out: 16 for an attribute_start of 0, and 36 for one of 24.
pub fn attributes_at(s: XmlStartElement) -> usize
    ensures { (result ≡ attributes_at s) × (result < 65572) }
{
    36 + less_20(s.attribute_start)
}

// Where they end.
fn attributes_end(s: XmlStartElement) -> usize
    ensures { (result ≡ attributes_end s) × (result < 4300000000) }
{
    attributes_at(s) + (s.attribute_count as usize) * stride_of(s)
}

// What the chunk's size has beyond its attributes.
// Ruled out: a number near 2^32 for a size that is too small, and the whole size.
pub fn trailing_of(s: XmlStartElement) -> u32
    ensures { result ≡ trailing_of s }
{
    let size = s.size as usize;
    size.saturating_sub(attributes_end(s)) as u32
}

// The bytes of a whole start.
fn start_len(s: XmlStartElement) -> usize
    ensures { result ≡ start_len s }
{
    attributes_end(s) + (trailing_of(s) as usize)
}

// ---- what stands here

// What a start says of itself.
#[tactic(auto, unfolding(crate::specs::Chunk::start_of))]
fn start_at(l: &[u8]) -> XmlStartElement
    requires { 36 ≤ length l.now }
    ensures { result ≡ start_of l.now }
{
    XmlStartElement {
        size: u32_at(l, 4),
        line: u32_at(l, 8),
        name: StringIndex(u32_at(l, 20)),
        attribute_start: u16_at(l, 24) as u16,
        attribute_size: u16_at(l, 26) as u16,
        attribute_count: u16_at(l, 28) as u16,
    }
}

// The attribute at the front.
// Ruled out: the raw value at 8 for the data at 16, and the two bytes at 12 for the type at 15.
#[tactic(auto, unfolding(crate::specs::Chunk::attribute_at))]
pub fn attribute_at(l: &[u8]) -> XmlAttributeElement
    requires { 20 ≤ length l.now }
    ensures { result ≡ attribute_at l.now }
{
    XmlAttributeElement {
        namespace_uri: StringIndex(u32_at(l, 0)),
        name: StringIndex(u32_at(l, 4)),
        data_type: u8_at(l, 15),
        data: u32_at(l, 16),
    }
}

// A start whose line and comment are there: whole, or the first of its parts that is cut.
#[tactic(auto, using(crate::proofs::Tests::tests), unfolding(crate::specs::Chunk::start_turn))]
fn start_turn(l: &[u8]) -> Turn
    ensures { result ≡ start_turn l.now }
{
    let n = l.len();
    if n < 36 {
        return Turn::Cut(CutChunk::CutHead);
    }
    let s = start_at(l);
    if n < attributes_at(s) {
        return Turn::Cut(CutChunk::CutGap(s));
    }
    if n < attributes_end(s) {
        return Turn::Cut(CutChunk::CutAttributes(s));
    }
    if n < start_len(s) {
        return Turn::Cut(CutChunk::CutTrailing(s));
    }
    Turn::Met(Chunk::Start(s))
}

// An ordinary chunk of the type `kind`.
#[tactic(auto, using(crate::proofs::Tests::tests), unfolding(crate::specs::Chunk::xml_turn))]
fn xml_turn(l: &[u8], kind: u32) -> Turn
    ensures { result ≡ xml_turn l.now kind }
{
    let n = l.len();
    if n < 16 {
        return Turn::Cut(CutChunk::CutLine);
    }
    match kind {
        0x17f => Turn::Met(Chunk::Last),
        0x102 => start_turn(l),
        0x103 if n < 24 => Turn::Cut(CutChunk::CutEnd),
        0x103 => Turn::Met(Chunk::End),
        0x104 if n < 28 => Turn::Cut(CutChunk::CutOther),
        0x104 => Turn::Met(Chunk::Other(28)),
        _ if n < 24 => Turn::Cut(CutChunk::CutOther),
        _ => Turn::Met(Chunk::Other(24)),
    }
}

// What stands at the front of l.
// Ruled out: an XML chunk for the type 0x105, and a chunk of its own size for the type 0x17f.
pub fn look(l: &[u8]) -> Turn
    ensures { result ≡ turn_of l.now }
{
    let Some(h) = header_at(l, 0) else {
        return Turn::Stop;
    };
    let sort = sort_of(h);
    if sort == 2 {
        return xml_turn(l, h.kind);
    }
    let used = skip_content(l, 8, h.size);
    if sort == 0 {
        Turn::Foreign(0, h.kind, used)
    } else {
        Turn::Foreign(sort, h.header_size, used)
    }
}
