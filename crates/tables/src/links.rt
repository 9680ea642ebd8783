// Records of an element linked to each other, so that one that is repeated is found without a look at all of them.
//
// Stands for the Rust's `HashSet` of attribute names. Definitions: specs/Inner/Ways.antt. The links are three words for each record, in words that
// the caller lends for as long as he likes: a binary tree over the bits of the records' keys, and beside its two links each record's key.
ghost use Rattle.std.specs.Prelude.{◌≡◌, cond, ◌&&◌, ℕ, ◌+◌, ◌*◌, ◌/◌, ◌≤◌, ◌<◌, length, get_or, eqb};
ghost use Rattle.utf.specs.Plain.{Known};
ghost use Rattle.records.specs.Words.{attribute_width};
ghost use Rattle.system_types.specs.Names.{lends};
ghost use Rattle.text.specs.Content.{plain_in, same_name};
ghost use Rattle.text.specs.Inner.Found.{Asks, Finds, part_of};
ghost use Rattle.tables.specs.Inner.Keys.{key_by};
ghost use Rattle.tables.specs.Inner.Numbered.{Numbered};
ghost use Rattle.tables.specs.Inner.Ways.{link_width, link_key, child_of, Hung, Ends, same_at, Sought, front_words, is_far};

use crate::by_number::{is_same, plain_unless};
use crate::numbers::is_long;
use common::StringIndex;
use records::ATTRIBUTE_WORDS;
use text::{Found, Head};

// The words of the first 32 records of an element, which are compared one by one.
pub const FRONT_WORDS: usize = 192;

pub const LINK_WORDS: usize = 3;
// behind the two links
const LINK_KEY: usize = 2;

// Where the way of a key ends: the last record on it, and the bits of the key that are left there.
#[derive(Clone, Copy)]
pub struct WayEnd {
    pub at: usize,
    pub left: u32,
}

// Whether a new record of an element is linked, with so many words of the element's records before it, and so many words for links.
// Ruled out: yes for the 32nd record, and yes where its link has no room.
pub fn is_far(own: usize, links: usize) -> bool
    ensures { result ≡ is_far own links }
{
    if own < FRONT_WORDS {
        return false;
    }
    LINK_WORDS * ((own - FRONT_WORDS) / ATTRIBUTE_WORDS) + LINK_WORDS <= links
}

// How many words of an element's records are compared one by one: all, or those of the first 32.
pub fn front_of(far: bool, own: usize) -> usize
    ensures { result ≡ cond far front_words own }
{
    if far {
        return FRONT_WORDS;
    }
    own
}

fn child(links: &[u32], i: usize, g: u32) -> usize
    requires { link_width * i + link_width ≤ length links.now }
    ensures { result ≡ child_of links.now i g }
{
    links[LINK_WORDS * i + (g % 2) as usize] as usize
}

// The same of record i among those that are linked: another key is told at once.
fn is_hit(
    t: &[u8],
    names: &[u32],
    area: &[u8],
    h: Head,
    words: &[u32],
    links: &[u32],
    i: usize,
    key: u32,
    prefix: u32,
    name: StringIndex,
    ns: StringIndex,
    g: Found,
    plain: bool,
    long: bool,
    numbers: &mut [u64],
) -> bool
    requires { Asks t.now (lends names.now area.now) h × Finds t.now (lends names.now area.now) h name.0 g
        × Known plain (plain_in (part_of h.utf16 t.now area.now g))
        × Numbered h t.now (lends names.now area.now) numbers.old
        × (attribute_width * i + attribute_width ≤ length words.now) × (link_width * i + link_width ≤ length links.now) }
    ensures { (result ≡ (eqb (get_or links.now (link_width * i + link_key) 0) key
        && same_at (same_name h t.now (lends names.now area.now)) prefix name.0 ns.0
        words.now (attribute_width * i)))
        × Numbered h t.now (lends names.now area.now) numbers.new }
{
    if links[LINK_WORDS * i + LINK_KEY] != key {
        return false;
    }
    is_same(
        t,
        names,
        area,
        h,
        words,
        ATTRIBUTE_WORDS * i,
        prefix,
        name,
        ns,
        g,
        plain,
        long,
        numbers,
    )
}

// Looks for a record that the attribute of this prefix, name and namespace repeats, along the way of its key: None where it finds one, or the end of
// the way. Whatever stands in the links, the way ends; where they are those of the records, the answer is right.
// Ruled out: no for a record of another index and the same text, and an end of another key's way.
pub fn seek(
    t: &[u8],
    names: &[u32],
    area: &[u8],
    h: Head,
    words: &[u32],
    links: &[u32],
    key: u32,
    prefix: u32,
    name: StringIndex,
    ns: StringIndex,
    g: Found,
    numbers: &mut [u64],
) -> Option<WayEnd>
    requires { Asks t.now (lends names.now area.now) h × Finds t.now (lends names.now area.now) h name.0 g
        × Numbered h t.now (lends names.now area.now) numbers.old
        × (link_width * (length words.now / attribute_width) ≤ length links.now) }
    ensures { Sought (key_by h t.now (lends names.now area.now))
        (same_name h t.now (lends names.now area.now)) words.now links.now key prefix name.0 ns.0 result
        × Numbered h t.now (lends names.now area.now) numbers.new }
{
    let n = words.len() / ATTRIBUTE_WORDS;
    if n == 0 {
        return Some(WayEnd { at: 0, left: key });
    }
    let long = is_long(g);
    let plain = plain_unless(t, area, h.utf16, g, long);
    let mut i: usize = 0;
    let mut left = key;
    loop {
        if is_hit(
            t, names, area, h, words, links, i, key, prefix, name, ns, g, plain, long, numbers,
        ) {
            return None;
        }
        let c = child(links, i, left);
        if c <= i || n <= c {
            return Some(WayEnd { at: i, left });
        }
        i = c;
        left = left / 2;
    }
}

// Record n hangs itself at the end of its key's way, behind the n before it; the first has no way.
// Ruled out: a link in the place of one that is there, and the record's own links left as they were found.
pub fn link(links: &mut [u32], n: usize, key: u32, at: usize, left: u32)
    requires { (link_width * n + link_width ≤ length links.old) × (n < 4294967296) × (0 < n → at < n) }
    ensures { (0 < n → Ends n links.old key at left) → (keys : ℕ → ℕ) → keys n ≡ key → Hung keys links.old n
        → Hung keys links.new (n + 1) }
{
    let i = LINK_WORDS * n;
    links[i] = 0;
    links[i + 1] = 0;
    links[i + LINK_KEY] = key;
    if n == 0 {
        return;
    }
    links[LINK_WORDS * at + (left % 2) as usize] = n as u32;
}
