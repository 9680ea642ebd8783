// The text of a string index: a lent system name, else a string of the pool, else none.
//
// Mirrors structs/res_string_pool.rs (apk-info 13770539b8): `get`, `get_with_resources`, `contains_with_resources`.
// A text is never copied: the code answers where it lies (`Found`). Definitions: specs/Content.antt, specs/Inner/Found.antt.
#![tactic(auto)]

pub mod apart;
pub mod damage;
pub mod equal;
pub mod part;

ghost use Rattle.std.specs.Prelude.{◌≡◌, List, Bool, true, ◌+◌, ◌≤◌, length, take, drop, Some};
ghost use Rattle.utf.specs.Plain.{is_ascii, Known};
ghost use Rattle.system_types.specs.Names.{lends};
ghost use Rattle.text.specs.Content.{named_by, system_of, string_at, string_of, content_of, has_text, plain_in, same_text, is_text, is_android};
ghost use Rattle.text.specs.Inner.Found.{Fits, Asks, Inside, Stands, Finds, part_of, is_found};
ghost use Rattle.text.specs.Inner.Marks.{Marked};

use apart::surely_differs;
pub use apart::{ends_apart, marks_of};
use common::StringIndex;
pub use damage::{replaced_of_found, state_of_found};
use equal::same_part;
pub use equal::{is_plain_found, same_found, same_found_known};
use field::u32_at;
pub use part::{content_of, found_ascii, found_ascii_into, found_into, found_whole};
use res_string_pool::split_string;
use resource_map::id_at;
use system_types::{get_type_name, without_attr};
use utf::is_sound;

// What texts are read by: the pool's numbers and the map's, as places in the bytes behind the file's header.
#[derive(Clone, Copy)]
pub struct Head {
    pub utf16: bool,
    pub count: u32,
    pub offsets: usize,
    pub strings: usize,
    pub size: usize,
    pub map: usize,
    pub ids: u32,
}

// The Android namespace.
pub const ANDROID_URI: [u8; 42] = *b"http://schemas.android.com/apk/res/android";

// The same in UTF-16.
const ANDROID_UTF16: [u8; 84] =
    *b"h\0t\0t\0p\0:\0/\0/\0s\0c\0h\0e\0m\0a\0s\0.\0a\0n\0d\0r\0o\0i\0d\0.\0c\0o\0m\0/\0a\0p\0k\0/\0r\0e\0s\0/\0a\0n\0d\0r\0o\0i\0d\0";

// Where the text of an index lies.
#[derive(Clone, Copy)]
pub enum Found {
    // no text
    Nothing,
    // a string that is cut or outside: an empty text
    Cut,
    // first byte and length in the area of the system names
    System(usize, usize),
    // first byte and length in the bytes behind the file's header
    Pool(usize, usize),
}

// What tells most strings of the pool apart from one that was found there, before any of them is read whole.
#[derive(Clone, Copy)]
pub struct Marks {
    // the first index that can be told apart; those up to the pool's count can
    pub first: StringIndex,
    // the two bytes that begin a string of the same length, as a number
    pub head: u32,
    // the last place at which such a string begins and ends in the data
    pub room: usize,
    // from its place to the low byte of its last unit, and this byte of the one found
    pub far: usize,
    pub last: u8,
    // first byte and length of the one found
    pub at: usize,
    pub n: usize,
}

// Whether an index has a text, and whether this is a valid name.
#[derive(Clone, Copy)]
pub enum NameState {
    NoText,
    Invalid,
    Valid,
}

// ---- the system name

// The name at a part of the area, without one leading `android:attr/`.
fn stripped(area: &[u8], start: usize, n: usize) -> Found
    requires { (start + n ≤ length area.now) × (is_ascii (take n (drop start area.now)) ≡ true) }
    ensures { (w : Bool) (t : List _) → Stands w t area.now (named_by area.now (Some (start, n))) result }
{
    let name = &area[start..start + n];
    let rest = without_attr(name);
    Found::System(start + n - rest.len(), rest.len())
}

fn find_system(t: &[u8], names: &[u32], area: &[u8], h: Head, index: StringIndex) -> Found
    requires { Asks t.now (lends names.now area.now) h }
    ensures { Stands h.utf16 t.now area.now
        (system_of h t.now (lends names.now area.now) index.0) result }
{
    if h.ids <= index.0 {
        return Found::Nothing;
    }
    let map = h.map;
    let id = id_at(&t[map..], index);
    let Some((start, n)) = get_type_name(names, id) else {
        return Found::Nothing;
    };
    stripped(area, start as usize, n as usize)
}

// ---- the pool string

// The string at the offset o of the data, which is `size` bytes from the place `strings` on.
fn string_at(t: &[u8], utf16: bool, strings: usize, size: usize, o: usize) -> Found
    requires { strings + size ≤ length t.now }
    ensures { (area : List _) → Stands utf16 t.now area (string_at utf16 (take size (drop strings t.now)) o) result }
{
    if size <= o {
        return Found::Cut;
    }
    match split_string(utf16, &t[strings + o..strings + size]) {
        None => Found::Cut,
        Some((at, n)) => Found::Pool(strings + o + at, n),
    }
}

fn find_string(t: &[u8], h: Head, index: StringIndex) -> Found
    requires { Fits t.now h }
    ensures { (area : List _) → Stands h.utf16 t.now area (string_of h t.now index.0) result }
{
    if h.count <= index.0 {
        return Found::Nothing;
    }
    let o = u32_at(t, h.offsets + 4 * (index.0 as usize));
    string_at(t, h.utf16, h.strings, h.size, o as usize)
}

// ---- the text of an index

// Where the text of an index lies.
// Ruled out: the pool's string where the map's entry has a system name, and no text where that name stands past the pool.
pub fn find(t: &[u8], names: &[u32], area: &[u8], h: Head, index: StringIndex) -> Found
    requires { Asks t.now (lends names.now area.now) h }
    ensures { Finds t.now (lends names.now area.now) h index.0 result }
{
    match find_system(t, names, area, h, index) {
        Found::Nothing => find_string(t, h, index),
        named => named,
    }
}

// ---- what was found

// Whether there is a text.
// Ruled out: no for a string that is cut, whose text is empty, and no for a name of the pool that is empty.
pub fn is_found(f: Found) -> bool
    ensures { result ≡ is_found f }
{
    !matches!(f, Found::Nothing)
}

// Whether an index has a text. No string is looked at: where the pool has one, cut or not, there is a text.
// Ruled out: no for a string that is cut, and no for an index past the pool whose map entry has a system name.
pub fn has_text(t: &[u8], names: &[u32], area: &[u8], h: Head, index: StringIndex) -> bool
    requires { Asks t.now (lends names.now area.now) h }
    ensures { result ≡ has_text (content_of h t.now (lends names.now area.now) index.0) }
{
    index.0 < h.count || is_found(find_system(t, names, area, h, index))
}

// ---- two texts

// Whether two indices have texts and these are equal.
// Ruled out: no for two strings of the same text at two offsets, and yes for a text and one that begins with it.
pub fn same_index(
    t: &[u8],
    names: &[u32],
    area: &[u8],
    h: Head,
    i: StringIndex,
    j: StringIndex,
) -> bool
    requires { Asks t.now (lends names.now area.now) h }
    ensures { result ≡ same_text (content_of h t.now (lends names.now area.now) i.0)
        (content_of h t.now (lends names.now area.now) j.0) }
{
    if i.0 == j.0 {
        return has_text(t, names, area, h, i);
    }
    let f = find(t, names, area, h, i);
    let g = find(t, names, area, h, j);
    same_found(t, area, h.utf16, f, g)
}

// Whether an index has a text and it is that of `name`, which was found as g: at once where both indices are equal. The marks of g tell
// most others apart before they are looked up; where `plain` is true, what was found is known to be plain.
// Ruled out: yes for two strings that end alike, no for a system name and the pool's string of the same text, and yes for an index
// without text and itself.
pub fn same_as_known(
    t: &[u8],
    names: &[u32],
    area: &[u8],
    h: Head,
    plain: bool,
    k: Marks,
    index: StringIndex,
    name: StringIndex,
    g: Found,
) -> bool
    requires { Asks t.now (lends names.now area.now) h × Finds t.now (lends names.now area.now) h name.0 g
        × Known plain (plain_in (part_of h.utf16 t.now area.now g)) × Marked t.now (lends names.now area.now) h g k }
    ensures { result ≡ same_text (content_of h t.now (lends names.now area.now) index.0)
        (part_of h.utf16 t.now area.now g) }
{
    if index.0 == name.0 {
        return is_found(g);
    }
    if surely_differs(t, names, area, h, k, index, g) {
        return false;
    }
    let f = find(t, names, area, h, index);
    same_found_known(t, area, h.utf16, plain, f, g)
}

// Whether an index has a text and its UTF-8 is the lent bytes: bytes that are no UTF-8 are no text's.
// Ruled out: yes for an index without text and no bytes, and no for UTF-16 and the UTF-8 of the same text.
pub fn is_index_text(
    t: &[u8],
    names: &[u32],
    area: &[u8],
    h: Head,
    index: StringIndex,
    bytes: &[u8],
) -> bool
    requires { Asks t.now (lends names.now area.now) h }
    ensures { result ≡ is_text (content_of h t.now (lends names.now area.now) index.0) bytes.now }
{
    let f = find(t, names, area, h, index);
    if !is_sound(false, bytes) {
        return false;
    }
    same_part(t, area, h.utf16, false, false, bytes, f)
}

// Whether an index has a text and it is the Android namespace, which is plain in either encoding, so that a string of the pool is told by its
// length and its bytes, however long it is.
// Ruled out: yes for a text that begins with it, and no for its UTF-16 or for a system name.
pub fn is_android(t: &[u8], names: &[u32], area: &[u8], h: Head, index: StringIndex) -> bool
    requires { Asks t.now (lends names.now area.now) h }
    ensures { result ≡ is_android (content_of h t.now (lends names.now area.now) index.0) }
{
    let f = find(t, names, area, h, index);
    if h.utf16 {
        return same_part(t, area, h.utf16, true, true, &ANDROID_UTF16, f);
    }
    same_part(t, area, h.utf16, true, false, &ANDROID_URI, f)
}
