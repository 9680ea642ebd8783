// The names of attributes' values: a table that the caller lends, its rule, and what it says of a value.
//
// Mirrors structs/attrs_manifest.rs (apk-info 13770539b8): `get_attr_value`. Answers: nothing or the number of the first item that breaks the
// rule (`check_items`); what an attribute's items say of a value (`Said`).
// Definitions: specs/Items.antt, specs/Flags.antt, specs/Values.antt. Differs from the Rust: there the table is compiled in, here it is six words an item
// over an area of bytes.
#![tactic(auto)]

pub mod looking;
pub mod taking;
pub mod values;

ghost use Rattle.std.specs.Prelude.{◌≡◌, true, false, cond, ◌+◌, ◌*◌, ◌/◌, ◌≤◌, ◌<◌, length, ltb};
ghost use Rattle.utf.specs.Plain.{is_ascii};
ghost use Rattle.records.specs.Words.{item_width};
ghost use Rattle.items.specs.Items.{item_at, part_in, same_attribute, is_name, is_new, stands, is_good, table_of};
ghost use Rattle.items.specs.Inner.Back.{back_to};
ghost use Rattle.items.specs.Inner.Firsts.{Firsts};

use looking::place_of;
pub use looking::{NO_ITEM, PLACES, find_first, put_firsts, run_of};
use records::{
    ITEM_ATTRIBUTE, ITEM_ATTRIBUTE_LENGTH, ITEM_KIND, ITEM_NAME, ITEM_NAME_LENGTH, ITEM_VALUE,
    ITEM_WORDS,
};
use utf::is_ascii;
use utf::same::same_bytes;
pub use values::attr_value;

// One named value of an attribute. The names are parts of the area.
#[derive(Clone, Copy)]
pub struct Item {
    pub attribute: u32,
    pub attribute_len: u32,
    // 0 enum, 1 flag
    pub kind: u32,
    pub name: u32,
    pub name_len: u32,
    pub value: u32,
}

// Items that stand together: the number of the first, and that behind the last; as many as there are, twice, for none.
#[derive(Clone, Copy)]
pub struct Run {
    pub first: usize,
    pub end: usize,
}

// What is left of a flag behind some items: the place behind the names taken, the bits left, whether a name was taken.
#[derive(Clone, Copy)]
pub struct Flags {
    pub at: usize,
    pub left: u32,
    // no Option of the place: place and bits hold either way, and with None each step would need the start beside it
    pub some: bool,
}

// What the items of an attribute say of a value: the length of their text, None where they have none, and how many bits no name covers.
#[derive(Clone, Copy)]
pub struct Said {
    pub length: Option<usize>,
    pub uncovered: u32,
}

// ---- an item

// n bytes of the area from a place on, or as many of them as it has.
// Ruled out: a byte behind the part, and nothing at all for a part that ends past the area.
pub fn part_of<'a>(area: &'a [u8], start: u32, n: u32) -> &'a [u8]
    ensures { result.now ≡ part_in area.now start n }
{
    let rest = area.get(start as usize..).unwrap_or(&[]);
    &rest[..rest.len().min(n as usize)]
}

// The item with the number k, of a table that has it.
// Ruled out: the words of a neighbour.
#[tactic(auto, unfolding(crate::specs::Items::item_at))]
pub fn item_at(items: &[u32], k: usize) -> Item
    requires { item_width * k + item_width ≤ length items.now }
    ensures { result ≡ item_at items.now k }
{
    let at = ITEM_WORDS * k;
    Item {
        attribute: items[at + ITEM_ATTRIBUTE],
        attribute_len: items[at + ITEM_ATTRIBUTE_LENGTH],
        kind: items[at + ITEM_KIND],
        name: items[at + ITEM_NAME],
        name_len: items[at + ITEM_NAME_LENGTH],
        value: items[at + ITEM_VALUE],
    }
}

// Whether two items are of one attribute, by the bytes of its name; items whose names lie at one place need no look at them.
// Ruled out: no for the same name at two places, and yes for a name and one that begins with it.
pub fn same_attribute(area: &[u8], i: Item, j: Item) -> bool
    ensures { result ≡ same_attribute area.now i j }
{
    if (i.attribute == j.attribute) & (i.attribute_len == j.attribute_len) {
        return true;
    }
    same_bytes(
        part_of(area, i.attribute, i.attribute_len),
        part_of(area, j.attribute, j.attribute_len),
    )
}

// ---- the rule

// Whether the area is ASCII as a whole, so that no name in it need be looked at. Not asked of an area of over 64 bytes an item: a few names
// in a large area do not cost a pass over it.
fn is_plain(area: &[u8], whole: usize) -> bool
    ensures { result ≡ cond (ltb whole (length area.now / 64)) false (is_ascii area.now) }
{
    if whole < area.len() / 64 {
        return false;
    }
    is_ascii(area)
}

// Whether a name keeps the rule; `plain` where the area is known to be ASCII as a whole. The sum is made as usize, where it does not wrap.
fn is_name(area: &[u8], plain: bool, start: u32, n: u32) -> bool
    requires { plain ≡ true → is_ascii area.now ≡ true }
    ensures { result ≡ is_name area.now start n }
{
    if n < 1 {
        return false;
    }
    let from = start as usize;
    let to = from + (n as usize);
    if area.len() < to {
        return false;
    }
    if plain {
        return true;
    }
    is_ascii(&area[from..to])
}

// Whether none of the first k items has the attribute of i. Those before the first at the place of its name have another.
fn is_new(items: &[u32], area: &[u8], firsts: &[usize], k: usize, i: Item) -> bool
    requires { (item_width * k ≤ length items.now) × Firsts area.now items.now firsts.now }
    ensures { result ≡ is_new area.now (back_to items.now k) i }
{
    let from = firsts[place_of(part_of(area, i.attribute, i.attribute_len))];
    for j in (from..k).rev() {
        let p = item_at(items, j);
        if same_attribute(area, p, i) {
            return false;
        }
    }
    true
}

// Whether i may stand behind the first k items.
fn may_stand(items: &[u32], area: &[u8], firsts: &[usize], k: usize, i: Item) -> bool
    requires { (item_width * k ≤ length items.now) × Firsts area.now items.now firsts.now }
    ensures { result ≡ stands area.now (back_to items.now k) i }
{
    if k < 1 {
        return true;
    }
    let before = k - 1;
    let p = item_at(items, before);
    if same_attribute(area, p, i) {
        return p.kind == i.kind;
    }
    is_new(items, area, firsts, before, i)
}

fn is_good(items: &[u32], area: &[u8], plain: bool, firsts: &[usize], k: usize, i: Item) -> bool
    requires { (plain ≡ true → is_ascii area.now ≡ true) × (item_width * k ≤ length items.now) × Firsts area.now items.now firsts.now }
    ensures { result ≡ is_good area.now (back_to items.now k) i }
{
    if !is_name(area, plain, i.attribute, i.attribute_len) {
        return false;
    }
    if !is_name(area, plain, i.name, i.name_len) {
        return false;
    }
    if 1 < i.kind {
        return false;
    }
    may_stand(items, area, firsts, k, i)
}

// What the items say, item by item up to the first that breaks the rule; `plain` where the area is known to be ASCII as a whole.
fn check_each(items: &[u32], area: &[u8], plain: bool, firsts: &[usize]) -> Result<(), usize>
    requires { (plain ≡ true → is_ascii area.now ≡ true) × Firsts area.now items.now firsts.now }
    ensures { result ≡ table_of area.now items.now }
{
    let whole = items.len() / ITEM_WORDS;
    for k in 0..whole {
        if !is_good(items, area, plain, firsts, k, item_at(items, k)) {
            return Err(k);
        }
    }
    if items.len() % ITEM_WORDS != 0 {
        return Err(whole);
    }
    Ok(())
}

// Whether the lent items keep their rule, where the first item at each place of a name is known. All of them are looked at, each time; the first
// item of an attribute is compared with those before it only from the first on that stands at the same place by its name (looking.rt). `Err` has
// the first item that breaks the rule, or how many whole items there are where words remain.
// Ruled out: `Ok` for items of one attribute apart, and the earlier of two items whose kinds differ.
pub fn check_known(items: &[u32], area: &[u8], firsts: &[usize]) -> Result<(), usize>
    requires { Firsts area.now items.now firsts.now }
    ensures { result ≡ table_of area.now items.now }
{
    check_each(
        items,
        area,
        is_plain(area, items.len() / ITEM_WORDS),
        firsts,
    )
}

// The same for items of which nothing is known.
// Ruled out: as above.
pub fn check_items(items: &[u32], area: &[u8]) -> Result<(), usize>
    ensures { result ≡ table_of area.now items.now }
{
    let mut firsts = [NO_ITEM; PLACES];
    put_firsts(items, area, &mut firsts);
    check_known(items, area, &firsts)
}
