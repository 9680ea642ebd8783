// Whether a string of the pool has other bytes than a part of the file, told from where the string begins, without looking for it as
// `find` does.
//
// Stands for the hash in the Rust's `HashSet` of attribute names, which tells most names apart. An answer of no says nothing: the string
// may be cut, or have lengths of two parts. Definitions: specs/Inner/Marks.antt, specs/Content.antt, specs/Inner/Found.antt.
ghost use Rattle.std.specs.Prelude.{◌≡◌, true, false, ◌+◌, ◌≤◌, ◌<◌, length, take, drop};
ghost use Rattle.utf.specs.Text.{eq_bytes};
ghost use Rattle.utf.specs.Plain.{Known};
ghost use Rattle.system_types.specs.Names.{lends};
ghost use Rattle.text.specs.Content.{some, content_of, plain_in, same_text};
ghost use Rattle.text.specs.Inner.Found.{Fits, Asks, Inside, part_of};
ghost use Rattle.text.specs.Inner.Marks.{Other, string_in, Ends, Chosen, Marked, first_of};

use super::{Found, Head, Marks};
use common::StringIndex;
use field::{u16_at, u32_at};
use utf::same::same_bytes;

// A text of so many bytes is long, and is not passed over here: who knows something of long texts asks that first.
pub const LONG: usize = 128;

// Whether two parts of t have other bytes. Most names differ in their length or in their last unit, whose low byte is `back` from the end.
// Where they do not, nothing is said of long ones.
fn bytes_apart(t: &[u8], q: usize, m: usize, at: usize, n: usize, back: usize) -> bool
    requires { (q + m ≤ length t.now) × (at + n ≤ length t.now) × (0 < back) }
    ensures { result ≡ true → eq_bytes (take m (drop q t.now)) (take n (drop at t.now)) ≡ false }
{
    if m != n {
        return true;
    }
    if back <= n && t[q + m - back] != t[at + n - back] {
        return true;
    }
    n < LONG && !same_bytes(&t[q..q + m], &t[at..at + n])
}

// The same of the UTF-8 string that begins at the place p, in data that ends at the place `end`: its head is two lengths of one byte.
fn utf8_apart(t: &[u8], end: usize, p: usize, at: usize, n: usize) -> bool
    requires { (end ≤ length t.now) × (p < 8589934592) × (at + n ≤ length t.now) }
    ensures { result ≡ true → Other false t.now (string_in false t.now end p) (take n (drop at t.now)) }
{
    if end < p + 2 {
        return false;
    }
    if 128 <= t[p] {
        return false;
    }
    let m = t[p + 1];
    if 128 <= m {
        return false;
    }
    if end < p + 3 + m as usize {
        return false;
    }
    bytes_apart(t, p + 2, m as usize, at, n, 1)
}

// The same of a UTF-16 string: its head is one length of two bytes.
fn utf16_apart(t: &[u8], end: usize, p: usize, at: usize, n: usize) -> bool
    requires { (end ≤ length t.now) × (p < 8589934592) × (at + n ≤ length t.now) }
    ensures { result ≡ true → Other true t.now (string_in true t.now end p) (take n (drop at t.now)) }
{
    if end < p + 2 {
        return false;
    }
    let u = u16_at(t, p);
    if 32768 <= u {
        return false;
    }
    let m = 2 * (u as usize);
    if end < p + 4 + m {
        return false;
    }
    bytes_apart(t, p + 2, m, at, n, 2)
}

fn string_apart(t: &[u8], utf16: bool, end: usize, p: usize, at: usize, n: usize) -> bool
    requires { (end ≤ length t.now) × (p < 8589934592) × (at + n ≤ length t.now) }
    ensures { result ≡ true → Other utf16 t.now (string_in utf16 t.now end p) (take n (drop at t.now)) }
{
    if utf16 {
        return utf16_apart(t, end, p, at, n);
    }
    utf8_apart(t, end, p, at, n)
}

// The same by what tells most strings apart from one of the same length: the low byte of the last unit, `far` from the string's place p.
fn alike_apart(t: &[u8], h: Head, k: Marks, p: usize) -> bool
    requires { Fits t.now h × Ends h.utf16 t.now (h.strings + h.size) k }
    ensures { result ≡ true → Other h.utf16 t.now (string_in h.utf16 t.now (h.strings + h.size) p)
        (take k.n (drop k.at t.now)) }
{
    if k.room < p {
        return false;
    }
    u16_at(t, p) == k.head && t[p + k.far] != k.last
}

fn place_apart(t: &[u8], h: Head, k: Marks, p: usize) -> bool
    requires { Fits t.now h × Ends h.utf16 t.now (h.strings + h.size) k × (p < 8589934592) }
    ensures { result ≡ true → Other h.utf16 t.now (string_in h.utf16 t.now (h.strings + h.size) p)
        (take k.n (drop k.at t.now)) }
{
    alike_apart(t, h, k, p) || string_apart(t, h.utf16, h.strings + h.size, p, k.at, k.n)
}

// Whether a part of the file surely has another text than what was found, which is plain.
fn part_apart(t: &[u8], area: &[u8], utf16: bool, q: usize, m: usize, g: Found) -> bool
    requires { (q + m ≤ length t.now) × Inside t.now area.now g × (plain_in (part_of utf16 t.now area.now g) ≡ true) }
    ensures { result ≡ true → same_text (some utf16 (take m (drop q t.now))) (part_of utf16 t.now area.now g) ≡ false }
{
    match g {
        Found::Pool(at, n) => bytes_apart(t, q, m, at, n, 2),
        _ => false,
    }
}

// The same of two that were found.
fn pool_apart(t: &[u8], area: &[u8], utf16: bool, f: Found, g: Found) -> bool
    requires { Inside t.now area.now f × Inside t.now area.now g × (plain_in (part_of utf16 t.now area.now g) ≡ true) }
    ensures { result ≡ true → same_text (part_of utf16 t.now area.now f) (part_of utf16 t.now area.now g) ≡ false }
{
    match f {
        Found::Pool(q, m) => part_apart(t, area, utf16, q, m, g),
        _ => false,
    }
}

// Whether two that were found in the pool surely have other texts, by their lengths and last units, the second being plain where `plain` is true.
// A long text is not passed over.
// Ruled out: yes for a system name and the pool's string of the same text, and yes for other bytes of a text that is not plain.
pub fn ends_apart(t: &[u8], area: &[u8], utf16: bool, plain: bool, f: Found, g: Found) -> bool
    requires { Inside t.now area.now f × Inside t.now area.now g × Known plain (plain_in (part_of utf16 t.now area.now g)) }
    ensures { result ≡ true → same_text (part_of utf16 t.now area.now f) (part_of utf16 t.now area.now g) ≡ false }
{
    plain && pool_apart(t, area, utf16, f, g)
}

// Whether an index surely has another text than what was found, by the marks of this. A long text is not passed over for it.
// Ruled out: yes for a string that is cut, whose length says nothing, and yes for a system name of the same text.
pub fn surely_differs(
    t: &[u8],
    names: &[u32],
    area: &[u8],
    h: Head,
    k: Marks,
    index: StringIndex,
    g: Found,
) -> bool
    requires { Asks t.now (lends names.now area.now) h × Marked t.now (lends names.now area.now) h g k }
    ensures { result ≡ true → same_text (content_of h t.now (lends names.now area.now) index.0)
        (part_of h.utf16 t.now area.now g) ≡ false }
{
    if index.0 < k.first.0 || h.count <= index.0 {
        return false;
    }
    let o = u32_at(t, h.offsets + 4 * (index.0 as usize));
    place_apart(t, h, k, h.strings + o as usize)
}

// ---- the marks

// Marks that tell no index apart: the first index that they can tell is behind the last.
fn no_marks(count: u32) -> Marks
    ensures { result.first.0 ≡ count }
{
    Marks {
        first: StringIndex(count),
        head: 0,
        room: 0,
        far: 0,
        last: 0,
        at: 0,
        n: 0,
    }
}

// Those of n bytes of UTF-8 at a place, against the strings from `first` up to `count`, whose data ends at the place `end`.
fn utf8_marks(t: &[u8], count: u32, first: StringIndex, end: usize, at: usize, n: usize) -> Marks
    requires { at + n ≤ length t.now }
    ensures { Chosen false t.now count first.0 end at n result }
{
    if n < 1 || 128 <= n || end < n + 3 {
        return no_marks(count);
    }
    Marks {
        first,
        head: 257 * (n as u32),
        room: end - (n + 3),
        far: n + 1,
        last: t[at + n - 1],
        at,
        n,
    }
}

// Those of n bytes of UTF-16.
fn utf16_marks(t: &[u8], count: u32, first: StringIndex, end: usize, at: usize, n: usize) -> Marks
    requires { at + n ≤ length t.now }
    ensures { Chosen true t.now count first.0 end at n result }
{
    if n < 2 || 65536 <= n || n % 2 != 0 || end < n + 4 {
        return no_marks(count);
    }
    Marks {
        first,
        head: (n / 2) as u32,
        room: end - (n + 4),
        far: n,
        last: t[at + n - 2],
        at,
        n,
    }
}

// The first index without a system name: behind the map, or any where no names are lent.
fn first_of(names: &[u32], ids: u32) -> StringIndex
    ensures { result.0 ≡ first_of names.now ids }
{
    if names.is_empty() {
        StringIndex(0)
    } else {
        StringIndex(ids)
    }
}

fn pool_marks(t: &[u8], names: &[u32], h: Head, at: usize, n: usize) -> Marks
    requires { Fits t.now h × (at + n ≤ length t.now) }
    ensures { Chosen h.utf16 t.now h.count (first_of names.now h.ids) (h.strings + h.size) at n result }
{
    let first = first_of(names, h.ids);
    if h.utf16 {
        return utf16_marks(t, h.count, first, h.strings + h.size, at, n);
    }
    utf8_marks(t, h.count, first, h.strings + h.size, at, n)
}

// The marks of what was found, which is known to be plain where `plain` is true: only then are other bytes of the pool another text.
// Ruled out: marks of a text that is not plain, and indices of the map among those told apart while names are lent.
pub fn marks_of(t: &[u8], names: &[u32], area: &[u8], h: Head, plain: bool, g: Found) -> Marks
    requires { Fits t.now h × Inside t.now area.now g × Known plain (plain_in (part_of h.utf16 t.now area.now g)) }
    ensures { Marked t.now (lends names.now area.now) h g result }
{
    match g {
        Found::Pool(at, n) if plain => pool_marks(t, names, h, at, n),
        _ => no_marks(h.count),
    }
}
