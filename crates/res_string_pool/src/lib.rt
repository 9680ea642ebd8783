// The string pool of an AXML file: its numbers and its offsets. Where the content of a string lies: content.rt.
//
// Mirrors structs/res_string_pool.rs (apk-info 13770539b8): `ResStringPoolHeader::parse`, `StringPool::parse`.
// Answers: `PoolRead`, the pool and whether all of it is there or which part ran out. Definitions: specs/Pool.antt.
// Differs from the Rust: the data is not shortened to the last used byte (docs/DIFFERENCES.md), which changes no text.
#![tactic(auto)]

ghost use Rattle.std.specs.Prelude.{◌≡◌, ◌+◌, ◌-◌, ◌*◌, ◌/◌, ◌≤◌, ◌<◌, length};
ghost use Rattle.records.specs.Limits.{file_limit};
ghost use Rattle.common.specs.Header.{header_of};
ghost use Rattle.res_string_pool.specs.Pool.{count_of, unread, end_of, numbered, pool_from, second_by};
ghost use Rattle.res_string_pool.specs.Pool.{behind_garbage, pool_of, outside_of};

use common::{ResChunkHeader, header_at};
use field::u32_at;

pub mod content;

pub use content::split_string;

// A chunk that stood in the pool's place and was skipped whole: note 0 tells its type and its size.
#[derive(Clone, Copy, Debug, PartialEq, Eq)]
pub struct Garbage {
    pub kind: u32,
    pub skipped: u32,
}

// The pool: how many strings it declares and how many its offsets hold, whether they are UTF-16, where offsets and string data
// begin, and how many bytes the data has. A place is counted from the first byte behind the file's header.
#[derive(Clone, Copy, Debug, Default, PartialEq, Eq)]
pub struct Pool {
    pub declared: u32,
    pub count: u32,
    pub utf16: bool,
    pub offsets: usize,
    pub strings: usize,
    pub size: usize,
}

// Whether all of the pool is there, or which part ran out, with how many bytes left where that part begins.
#[derive(Clone, Copy, Debug, PartialEq, Eq)]
pub enum PoolEnd {
    Complete,
    GarbageShort(usize),
    HeaderShort(usize),
    OffsetsShort(usize),
    StylesShort(usize),
    DataShort(usize),
}

#[derive(Clone, Copy, Debug, PartialEq, Eq)]
pub struct PoolRead {
    pub garbage: Option<Garbage>,
    pub pool: Pool,
    pub end: PoolEnd,
}

// How many strings the offsets hold: what lies between the five numbers with the styles' offsets and the data.
#[tactic(auto, unfolding(crate::specs::Pool::count_of))]
fn count_of(start: u32, styles: u32) -> u32
    ensures { result ≡ count_of start styles }
{
    let offsets = styles.saturating_mul(4);
    start.saturating_sub(offsets.saturating_add(28)) / 4
}

// ---- the parts

// Which part runs out in the n bytes behind the five numbers.
#[tactic(auto, unfolding(crate::specs::Pool::end_of))]
fn end_of(n: usize, count: usize, styles: usize, size: usize) -> PoolEnd
    requires { (count < 4294967296) × (styles < 4294967296) }
    ensures { result ≡ end_of n count styles size }
{
    if n < 4 * count {
        return PoolEnd::OffsetsShort(n);
    }
    let behind = n - 4 * count;
    if behind < 4 * styles {
        return PoolEnd::StylesShort(behind);
    }
    let left = behind - 4 * styles;
    if left < size {
        return PoolEnd::DataShort(left);
    }
    PoolEnd::Complete
}

// A pool of which no number was read.
fn short(garbage: Option<Garbage>, end: PoolEnd) -> PoolRead
    ensures { result ≡ unread garbage end }
{
    PoolRead {
        garbage,
        pool: Pool::default(),
        end,
    }
}

// The numbers of the pool whose header h stands at the front of m, which begins at the place `at`.
#[tactic(auto, unfolding(crate::specs::Pool::numbered))]
fn numbers_of(at: usize, h: ResChunkHeader, m: &[u8]) -> Pool
    requires { (28 ≤ length m.now) × (at ≤ file_limit) }
    ensures { result ≡ numbered at h m.now }
{
    let declared = u32_at(m, 8);
    let styles = u32_at(m, 12);
    let flags = u32_at(m, 16);
    let start = u32_at(m, 20);
    let count = count_of(start, styles);
    Pool {
        declared,
        count,
        utf16: flags / 256 % 2 == 0,
        offsets: at + 28,
        strings: at + 28 + 4 * (count as usize) + 4 * (styles as usize),
        size: h.size.saturating_sub(start) as usize,
    }
}

// The pool whose header h stands at the front of m, which begins at the place `at`.
fn pool_from(garbage: Option<Garbage>, at: usize, h: ResChunkHeader, m: &[u8]) -> PoolRead
    requires { (8 ≤ length m.now) × (at ≤ file_limit) }
    ensures { result ≡ pool_from garbage at h m.now }
{
    if m.len() < 28 {
        return short(garbage, PoolEnd::HeaderShort(m.len() - 8));
    }
    let pool = numbers_of(at, h, m);
    let end = end_of(
        m.len() - 28,
        pool.count as usize,
        u32_at(m, 12) as usize,
        pool.size,
    );
    PoolRead { garbage, pool, end }
}

// The second header, behind a chunk that was skipped: its type is not tested.
fn second(garbage: Option<Garbage>, at: usize, m: &[u8]) -> PoolRead
    requires { at ≤ file_limit }
    ensures { result ≡ second_by garbage at m.now (header_of m.now) }
{
    let Some(h) = header_at(m, 0) else {
        return short(garbage, PoolEnd::HeaderShort(m.len()));
    };
    pool_from(garbage, at, h, m)
}

// The pool behind the chunk with the header h, which stands in its place and is skipped by its size.
fn behind_garbage(h: ResChunkHeader, s: &[u8]) -> PoolRead
    requires { (8 ≤ length s.now) × (length s.now ≤ file_limit) }
    ensures { result ≡ behind_garbage h s.now }
{
    let skipped = h.content_size();
    let n = skipped as usize;
    if s.len() - 8 < n {
        return short(None, PoolEnd::GarbageShort(s.len() - 8));
    }
    let garbage = Garbage {
        kind: h.kind,
        skipped,
    };
    second(Some(garbage), 8 + n, &s[8 + n..])
}

// The pool at the front of s, the bytes behind the file's header.
// Ruled out: the data at strings_start (it begins right behind the styles), and the declared count for the count.
pub fn pool_of(s: &[u8]) -> PoolRead
    requires { length s.now ≤ file_limit }
    ensures { result ≡ pool_of s.now }
{
    let Some(h) = header_at(s, 0) else {
        return short(None, PoolEnd::HeaderShort(s.len()));
    };
    if h.kind == 1 {
        pool_from(None, 0, h, s)
    } else {
        behind_garbage(h, s)
    }
}

// ---- the offsets

// How many of the offsets o are at or past the data's length; bytes left over at the end are not looked at.
// Ruled out: an offset that equals the length taken for one inside, and 1 for any number of them.
pub fn outside_of(o: &[u8], size: usize) -> u32
    requires { length o.now ≤ file_limit }
    ensures { result ≡ outside_of o.now size (length o.now / 4) }
{
    let mut k = 0;
    for i in 0..o.len() / 4 {
        if size <= u32_at(o, 4 * i) as usize {
            k += 1;
        }
    }
    k
}
