// The head of an AXML file, and the two questions that need nothing more: the text and the content of a string index.
//
// Mirrors axml.rs (apk-info 13770539b8), `AXML::new` up to the tree. Answers: `Opened`, what the head says and what is amiss with it
// (`enter`, or the first check that fails); the head or the first refusal (`open_file`). Definitions: specs/Head.antt,
// specs/Entry.antt, specs/Ask.antt.
#![tactic(auto)]

pub mod ask;

ghost use Rattle.std.specs.Prelude.{◌≡◌, ◌+◌, ◌-◌, ◌*◌, ◌≤◌, min, length, drop};
ghost use Rattle.records.specs.Limits.{file_limit};
ghost use Rattle.system_types.specs.Names.{lends};
ghost use Rattle.resource_map.specs.Map.{map_of};
ghost use Rattle.text.specs.Inner.Found.{Fits};
ghost use Rattle.head.specs.Head.{head_by, unopened, whole_head, cut_pool, cut_map, mapped_by, tables_of, opened_of};
ghost use Rattle.head.specs.Head.{head_len, tables_in, body_in, head_is_whole, pool_refusal, map_refusal, refusal_of, outside_in};
ghost use Rattle.head.specs.Entry.{keeps_none, mode_of, is_mode};
ghost use Rattle.head.specs.Inner.Entered.{terms_of, entered_of};

pub use ask::{content, found_told, open_file, text};
use errors::Refusal;
use field::u16_at;
use records::{APART, FILE_LIMIT, MERGED};
use res_string_pool::{Garbage, Pool, PoolEnd, PoolRead, outside_of, pool_of};
use resource_map::{MapShort, map_of};
use system_types::check_names;
use text::Head;

// The part of the pool that ran out, with the file offset at which it should begin.
#[derive(Clone, Copy)]
pub enum PoolPart {
    // the chunk in the pool's place
    Skipped(usize),
    // either header, or the five numbers
    Header(usize),
    Offsets(usize),
    Styles(usize),
    Data(usize),
}

// The same of the map.
#[derive(Clone, Copy)]
pub enum MapPart {
    MapHeader(usize),
    MapIds(usize),
}

// What is amiss with a head, or that it is whole.
#[derive(Clone, Copy)]
pub enum HeadEnd {
    Whole,
    // the file's length
    TooSmall(usize),
    // the header size
    HeaderSize(u32),
    PoolShort(PoolPart),
    MapShort(MapPart),
}

// What the head says: the chunk in the pool's place, the declared count, what is amiss, what texts are read by.
#[derive(Clone, Copy)]
pub struct Opened {
    pub garbage: Option<Garbage>,
    pub declared: u32,
    pub end: HeadEnd,
    pub head: Head,
}

// Who asks for a file: a question, or a reading, with how many notes of a kind it keeps, and its mode.
#[derive(Clone, Copy)]
pub enum Asker {
    Question,
    Reading(u32, u32),
}

// ---- the head

fn head_by(p: Pool, map: usize, ids: u32) -> Head
    ensures { result ≡ head_by p map ids }
{
    Head {
        utf16: p.utf16,
        count: p.count,
        offsets: p.offsets,
        strings: p.strings,
        size: p.size,
        map,
        ids,
    }
}

// A head of which not even the pool's place is known.
fn not_opened(end: HeadEnd) -> Opened
    ensures { result ≡ unopened end }
{
    Opened {
        garbage: None,
        declared: 0,
        end,
        head: Head {
            utf16: false,
            count: 0,
            offsets: 0,
            strings: 0,
            size: 0,
            map: 0,
            ids: 0,
        },
    }
}

fn pool_short(garbage: Option<Garbage>, p: Pool, e: PoolPart) -> Opened
    ensures { result ≡ cut_pool garbage p e }
{
    Opened {
        garbage,
        declared: p.declared,
        end: HeadEnd::PoolShort(e),
        head: head_by(p, 0, 0),
    }
}

fn map_short(garbage: Option<Garbage>, p: Pool, at: usize, e: MapPart) -> Opened
    ensures { result ≡ cut_map garbage p at e }
{
    Opened {
        garbage,
        declared: p.declared,
        end: HeadEnd::MapShort(e),
        head: head_by(p, at, 0),
    }
}

fn whole(garbage: Option<Garbage>, p: Pool, map: usize, ids: u32) -> Opened
    ensures { result ≡ whole_head garbage p map ids }
{
    Opened {
        garbage,
        declared: p.declared,
        end: HeadEnd::Whole,
        head: head_by(p, map, ids),
    }
}

// Where in the file a part should begin that had only `left` of the n bytes behind the file's header.
fn begins_at(n: usize, left: usize) -> usize
    requires { n ≤ file_limit }
    ensures { result ≡ 8 + n - left }
{
    (8 + n).saturating_sub(left)
}

// Behind a whole pool the map.
fn mapped(t: &[u8], garbage: Option<Garbage>, p: Pool) -> Opened
    requires { (p.strings + p.size ≤ length t.now) × (length t.now ≤ file_limit) }
    ensures { result ≡ mapped_by t.now garbage p (map_of (drop (p.strings + p.size) t.now)) }
{
    let at = p.strings + p.size;
    let read = map_of(&t[at..]);
    match read {
        Ok(n) => whole(garbage, p, at + 8, n),
        Err(MapShort::Header(left)) => map_short(
            garbage,
            p,
            at,
            MapPart::MapHeader(begins_at(t.len(), left)),
        ),
        Err(MapShort::Ids(left)) => map_short(
            garbage,
            p,
            at,
            MapPart::MapIds(begins_at(t.len(), left)),
        ),
    }
}

// Pool and map, t being the bytes behind the file's header.
fn tables_at(t: &[u8]) -> Opened
    requires { length t.now ≤ file_limit }
    ensures { result ≡ tables_of t.now }
{
    let PoolRead { garbage, pool, end } = pool_of(t);
    match end {
        PoolEnd::Complete => mapped(t, garbage, pool),
        PoolEnd::GarbageShort(left) => pool_short(
            garbage,
            pool,
            PoolPart::Skipped(begins_at(t.len(), left)),
        ),
        PoolEnd::HeaderShort(left) => pool_short(
            garbage,
            pool,
            PoolPart::Header(begins_at(t.len(), left)),
        ),
        PoolEnd::OffsetsShort(left) => pool_short(
            garbage,
            pool,
            PoolPart::Offsets(begins_at(t.len(), left)),
        ),
        PoolEnd::StylesShort(left) => pool_short(
            garbage,
            pool,
            PoolPart::Styles(begins_at(t.len(), left)),
        ),
        PoolEnd::DataShort(left) => pool_short(
            garbage,
            pool,
            PoolPart::Data(begins_at(t.len(), left)),
        ),
    }
}

// The head of a file. Type and total size of its header are not looked at.
// Ruled out: a refusal for a file of type 0, a head that is whole where the last id of the map is cut, and an offset counted from behind
// the file's header.
fn open_head(file: &[u8]) -> Opened
    requires { length file.now ≤ file_limit }
    ensures { result ≡ opened_of file.now }
{
    if file.len() < 8 {
        return not_opened(HeadEnd::TooSmall(file.len()));
    }
    let size = u16_at(file, 2);
    if size != 8 {
        return not_opened(HeadEnd::HeaderSize(size));
    }
    tables_at(&file[8..])
}

// ---- the way in

// Whether a reading would keep no note. Ruled out: a question that is taken for one.
fn keeps_none(asker: Asker) -> bool
    ensures { result ≡ keeps_none asker }
{
    match asker {
        Asker::Question => false,
        Asker::Reading(cap, _) => cap == 0,
    }
}

// A question reads in the first mode. Ruled out: the cap taken for the mode.
fn mode_of(asker: Asker) -> u32
    ensures { result ≡ mode_of asker }
{
    match asker {
        Asker::Question => MERGED,
        Asker::Reading(_, mode) => mode,
    }
}

// Whether there is such a mode. Ruled out: 0, and 3.
fn is_mode(mode: u32) -> bool
    ensures { result ≡ is_mode mode }
{
    mode == MERGED || mode == APART
}

// The way into a file, for every entry point: its length, the cap, the lent names, the mode, then the head opened. What is amiss with the head is
// the caller's to say, since notes can come before it; a caller that is lent items checks them behind this.
// Ruled out: 1 for a file of 7 bytes with names that break their rule, a head for a file past the limit, and 7 for a cap of 0.
pub fn enter(file: &[u8], names: &[u32], area: &[u8], asker: Asker) -> Result<Opened, Refusal>
    ensures { result ≡ entered_of file.now (lends names.now area.now) (terms_of asker) }
{
    if FILE_LIMIT < file.len() {
        return Err(Refusal::TooLargeError);
    }
    if keeps_none(asker) {
        return Err(Refusal::NotesOff);
    }
    if let Err(k) = check_names(names, area) {
        return Err(Refusal::SystemNamesError(k));
    }
    let mode = mode_of(asker);
    if !is_mode(mode) {
        return Err(Refusal::ModeError(mode));
    }
    Ok(open_head(file))
}

// ---- its parts

// How many of the n bytes behind the file's header the pool and the map take. A head that belongs to another file may say more than there is:
// then all n.
fn head_len(h: Head, n: usize) -> usize
    ensures { result ≡ min (head_len h) n }
{
    h.map.saturating_add(4 * h.ids as usize).min(n)
}

// The bytes that texts are read from: pool and map. Of a head that is not the file's, as much of them as is there.
// Ruled out: the 8 bytes of the file's header among them, and a byte behind the last id.
pub fn tables_of<'a>(file: &'a [u8], h: Head) -> &'a [u8]
    ensures { result.now ≡ tables_in file.now h }
{
    let Some(t) = file.get(8..) else {
        return &[];
    };
    &t[..head_len(h, t.len())]
}

// The bytes behind them, which are walked.
// Ruled out: the last id among them, and a body that begins at the map's size.
pub fn body_of<'a>(file: &'a [u8], h: Head) -> &'a [u8]
    ensures { result.now ≡ body_in file.now h }
{
    let Some(t) = file.get(8..) else {
        return &[];
    };
    &t[head_len(h, t.len())..]
}

// ---- what it says

pub fn is_whole(e: HeadEnd) -> bool
    ensures { result ≡ head_is_whole e }
{
    matches!(e, HeadEnd::Whole)
}

fn pool_refusal(e: PoolPart) -> Refusal
    ensures { result ≡ pool_refusal e }
{
    match e {
        PoolPart::Skipped(at) => Refusal::StringPoolGarbage(at),
        PoolPart::Header(at) => Refusal::StringPoolHeader(at),
        PoolPart::Offsets(at) => Refusal::StringPoolOffsets(at),
        PoolPart::Styles(at) => Refusal::StringPoolStyles(at),
        PoolPart::Data(at) => Refusal::StringPoolData(at),
    }
}

fn map_refusal(e: MapPart) -> Refusal
    ensures { result ≡ map_refusal e }
{
    match e {
        MapPart::MapHeader(at) => Refusal::ResourceMapHeader(at),
        MapPart::MapIds(at) => Refusal::ResourceMapIds(at),
    }
}

// The refusal of a head that is not whole. (Of one that is, the refusal that is left: no start.)
// Ruled out: one number for a short pool and a short map, and 0 in place of the header size or of a part's offset.
pub fn refusal_of(e: HeadEnd) -> Refusal
    ensures { result ≡ refusal_of e }
{
    match e {
        HeadEnd::Whole => Refusal::MissingRoot,
        HeadEnd::TooSmall(n) => Refusal::TooSmallError(n),
        HeadEnd::HeaderSize(n) => Refusal::HeaderSizeError(n),
        HeadEnd::PoolShort(part) => pool_refusal(part),
        HeadEnd::MapShort(part) => map_refusal(part),
    }
}

// How many of the pool's offsets are at or past the data's length, t being the bytes behind the file's header: one pass over them.
// Ruled out: 1 for any number of them, and the styles' offsets among them.
pub fn outside_in(t: &[u8], h: Head) -> u32
    requires { Fits t.now h }
    ensures { result ≡ outside_in t.now h }
{
    let from = h.offsets;
    let n = 4 * h.count as usize;
    outside_of(&t[from..from + n], h.size)
}
