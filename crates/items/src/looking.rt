// Where the items of an attribute stand.
//
// Mirrors the `match` over names in the Rust's table (apk-info 13770539b8, structs/attrs_manifest.rs, `attr`), which is compiled in. Names are
// spread over places by their length and two of their bytes, and for each place the first item is kept, so that most names are found, or
// known to have no item, at once. Definitions: specs/Items.antt, specs/Inner/Firsts.antt.
ghost use Rattle.std.specs.Prelude.{◌≡◌, List, ◌+◌, ◌*◌, ◌/◌, ◌≤◌, ◌<◌, length, Ok};
ghost use Rattle.utf.specs.Text.{eq_bytes};
ghost use Rattle.records.specs.Words.{item_width};
ghost use Rattle.items.specs.Items.{item_at, attribute_of, table_of};
ghost use Rattle.items.specs.Inner.Firsts.{place_count, place_of, Firsts};
ghost use Rattle.items.specs.Inner.Turns.{FirstNamed, RunOf, EndOf};

use super::{Item, Run, item_at, part_of, same_attribute};
use records::ITEM_WORDS;
use utf::same::same_bytes;

// How many places there are.
pub const PLACES: usize = 256;

// Kept for a place where no name is.
pub const NO_ITEM: usize = usize::MAX;

// The place of a name.
pub fn place_of(name: &[u8]) -> usize
    ensures { result ≡ place_of name.now }
{
    let n = name.len();
    if n < 1 {
        return 0;
    }
    (n % PLACES + 16 * (name[n - 1] as usize) + 5 * (name[0] as usize)) % PLACES
}

// For each place of a name the first item that stands there. From the last to the first, so that the first stays.
// Ruled out: the second item of an attribute, and a later attribute at the place of an earlier one.
pub fn put_firsts(items: &[u32], area: &[u8], firsts: &mut [usize])
    requires { length firsts.old ≡ place_count }
    ensures { Firsts area.now items.now firsts.new }
{
    for k in (0..items.len() / ITEM_WORDS).rev() {
        let i = item_at(items, k);
        let place = place_of(part_of(area, i.attribute, i.attribute_len));
        firsts[place] = k;
    }
}

// Whether item k is of the attribute of that name.
fn is_named(items: &[u32], area: &[u8], name: &[u8], k: usize) -> bool
    requires { item_width * k + item_width ≤ length items.now }
    ensures { result ≡ eq_bytes (attribute_of area.now (item_at items.now k)) name.now }
{
    let i = item_at(items, k);
    same_bytes(part_of(area, i.attribute, i.attribute_len), name)
}

// The first item of the attribute of that name, or the number of items.
// Ruled out: the second, and an item of another attribute at the same place.
pub fn find_first(items: &[u32], area: &[u8], firsts: &[usize], name: &[u8]) -> usize
    requires { Firsts area.now items.now firsts.now }
    ensures { FirstNamed area.now name.now items.now result }
{
    let whole = items.len() / ITEM_WORDS;
    for k in firsts[place_of(name)]..whole {
        if is_named(items, area, name, k) {
            return k;
        }
    }
    whole
}

// The number behind the items that stand together with item `first` and have its attribute.
fn end_of(items: &[u32], area: &[u8], first: usize) -> usize
    requires { item_width * first + item_width ≤ length items.now }
    ensures { EndOf area.now items.now first result }
{
    let whole = items.len() / ITEM_WORDS;
    let head = item_at(items, first);
    for k in first + 1..whole {
        let i = item_at(items, k);
        if !same_attribute(area, i, head) {
            return k;
        }
    }
    whole
}

// All items of an attribute, by the first of them or the number of items: they stand together.
// Ruled out: the first alone, and an item of the next attribute.
pub fn run_of(items: &[u32], area: &[u8], first: usize) -> Run
    requires { table_of area.now items.now ≡ (Ok tt) }
    ensures { (name : List _) → FirstNamed area.now name items.now first
        → RunOf area.now name items.now result }
{
    let whole = items.len() / ITEM_WORDS;
    if whole <= first {
        return Run {
            first: whole,
            end: whole,
        };
    }
    let end = end_of(items, area, first);
    Run { first, end }
}
