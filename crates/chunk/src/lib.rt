// What sort of chunk a header begins, how many bytes a chunk that is not looked into takes, and a run of such chunks.
//
// Mirrors axml.rs (apk-info 13770539b8): `is_xml_node`, `skip_run`. A sort number stands for the closure that `skip_run` takes there.
// Definitions: specs/Sort.antt, specs/Inner/Run.antt; the walk down a list of bytes that a run is, and every walk above: specs/Walk.antt;
// bare headers, which a run passes eight at once: specs/Inner/HeaderOnly.antt.
// Differs from the Rust: `skip_run` starts at the first chunk's header and not behind it, and gives a position, not how many were passed.
#![tactic(auto)]

ghost use Rattle.std.specs.Prelude.{◌≡◌, cond, ◌+◌, ◌-◌, ◌≤◌, length, drop};
ghost use Rattle.chunk.specs.Sort.{is_xml, chunk_sort, content_size};
ghost use Rattle.chunk.specs.Inner.Run.{run_used, skip_run};
ghost use Rattle.chunk.specs.Inner.HeaderOnly.{is_bare, all_bare};

use common::{ResChunkHeader, header_at};
use field::u32_at;

// Whether a chunk of this type belongs to the XML tree: 0x100 to 0x104 and 0x17f.
// Ruled out: yes for 0x105, because it lies between two XML types, and yes for 0x180, the resource map.
#[tactic(auto, unfolding(crate::specs::Sort::is_xml))]
pub fn is_xml_node(h: ResChunkHeader) -> bool
    ensures { result ≡ is_xml h.kind }
{
    matches!(h.kind, 0x100..=0x104 | 0x17f)
}

// 0: not XML. 1: XML whose header size is not 16. 2: ordinary, the only sort that is looked into.
// Ruled out: 1 for a chunk that is not XML and whose header size is not 16, and 2 for XML whose header size is 8.
#[tactic(auto, unfolding(crate::specs::Sort::chunk_sort))]
pub fn sort_of(h: ResChunkHeader) -> u32
    ensures { result ≡ chunk_sort h }
{
    if is_xml_node(h) {
        if h.header_size == 16 { 2 } else { 1 }
    } else {
        0
    }
}

// Where the content of a chunk ends whose 8 bytes of header end at `at`.
// Ruled out: the end of the file where the content passes it, and `at` where the content ends at the very end.
#[tactic(auto, unfolding(crate::specs::Sort::content_size))]
pub fn skip_content(s: &[u8], at: usize, size: u32) -> usize
    requires { at ≤ length s.now }
    ensures { result ≡ at + content_size (length s.now - at) size }
{
    // A way out of its own: where there is no content the next header stands here, whatever the size says, and is read before the size is there.
    if size <= 8 {
        return at;
    }
    let content = size.saturating_sub(8) as usize;
    if content <= s.len() - at {
        return at + content;
    }
    at
}

// The bytes that a chunk of the sort `sort` at `at` takes; 0 where no chunk of that sort stands there.
// Ruled out: the size that the header gives, where that passes the end, and 0 for a chunk whose size is below 8.
pub fn run_used(s: &[u8], at: usize, sort: u32) -> usize
    requires { at ≤ length s.now }
    ensures { (result ≡ run_used sort (drop at s.now)) × (at + result ≤ length s.now) }
{
    let Some(h) = header_at(s, at) else {
        return 0;
    };
    if sort_of(h) == sort {
        skip_content(s, at + 8, h.size) - at
    } else {
        0
    }
}

// 0 where the 8 bytes from `at` on are surely a bare header, a chunk of no content that is not XML, and else 1. Both tests are made
// in any case: a branch less for each header.
fn doubt_at(s: &[u8], at: usize) -> u8
    requires { at + 8 ≤ length s.now }
    ensures { result ≡ cond (is_bare (drop at s.now)) 0 1 }
{
    ((s[at + 1] == 1) | (8 < u32_at(s, at + 4))) as u8
}

// Whether the 64 bytes from `at` on are surely eight bare headers. The doubts are counted, with no way out between.
fn bare_block(s: &[u8], at: usize) -> bool
    requires { at + 64 ≤ length s.now }
    ensures { result ≡ all_bare 8 (drop at s.now) }
{
    let mut doubts: u8 = 0;
    for k in 0..8 {
        doubts += doubt_at(s, at + 8 * k);
    }
    doubts == 0
}

// A position that the run of the sort 0 from `at` on passes: behind all the blocks of eight bare headers that begin at `at`.
// This loop and the next go on by what they pass, and the place is their answer: over `chunks_exact` it would be counted beside.
fn skip_bare(s: &[u8], at: usize) -> usize
    requires { at ≤ length s.now }
    ensures { (skip_run s.now at 0 ≡ skip_run s.now result 0) × (at ≤ result) × (result ≤ length s.now) }
{
    let mut p = at;
    while 64 <= s.len() - p {
        if !bare_block(s, p) {
            return p;
        }
        p += 64;
    }
    p
}

// The position behind the run of chunks of the sort `sort` that begins at `at`; `at` itself where none stands there.
// Behind a bare header blocks of them are tried; where one fails, not again before `retry`, so that a run of other chunks pays little.
// Ruled out: the position behind the first chunk alone, and one behind a chunk of another sort.
pub fn skip_run(s: &[u8], at: usize, sort: u32) -> usize
    requires { at ≤ length s.now }
    ensures { (result ≡ skip_run s.now at sort) × (at ≤ result) × (result ≤ length s.now) }
{
    let mut p = at;
    let mut retry = at;
    loop {
        let n = run_used(s, p, sort);
        if n == 0 {
            return p;
        }
        p += n;
        if (n == 8) & (sort == 0) & (retry <= p) {
            p = skip_bare(s, p);
            retry = p + 512;
        }
    }
}
