// What the items of an attribute say of a value: the name of an enum's value, or the names of a flag's.
//
// Mirrors structs/attrs_manifest.rs (apk-info 13770539b8), `get_attr_value`; there a text is a string of its own, here it is written
// into a lent buffer. Definitions: specs/Values.antt.
ghost use Rattle.std.specs.Prelude.{◌≡◌, ◌-◌, ◌*◌, ◌≤◌, length};
ghost use Rattle.std.specs.Bool.{then_some};
ghost use Rattle.digits.specs.Written.{Wrote};
ghost use Rattle.records.specs.Words.{item_width};
ghost use Rattle.items.specs.Items.{items_from, enum_of};
ghost use Rattle.items.specs.Flags.{bit_sum};
ghost use Rattle.items.specs.Values.{enum_text};
ghost use Rattle.items.specs.Inner.Turns.{run_items, Spoken};

use super::taking::put_flags;
use super::{Flags, Item, Run, Said, item_at, part_of};
use digits::{put_bytes, put_word};

// The first item with a value, of those from number `first` up to `end`.
fn find_value(items: &[u32], first: usize, end: usize, value: u32) -> Option<Item>
    requires { item_width * end ≤ length items.now }
    ensures { result ≡ enum_of value (items_from items.now first (end - first)) }
{
    for k in first..end {
        let i = item_at(items, k);
        if i.value == value {
            return Some(i);
        }
    }
    None
}

// The name of an enum's value at the front of a buffer, or the value in decimal.
fn put_enum(out: &mut [u8], area: &[u8], found: Option<Item>, value: u32) -> usize
    ensures { Wrote 4294967296 0 (enum_text area.now value found) out.old result out.new }
{
    match found {
        Some(i) => put_bytes(out, 0, part_of(area, i.name, i.name_len)),
        None => put_word(out, 0, value),
    }
}

fn ones(left: u32) -> u32
    ensures { result ≡ bit_sum 32 left }
{
    u32::count_ones(left)
}

fn said_flags(st: Flags) -> Said
    ensures { (result.length ≡ then_some st.some st.at) × (result.uncovered ≡ bit_sum 32 st.left) }
{
    Said {
        length: st.some.then_some(st.at),
        uncovered: ones(st.left),
    }
}

// What items that are all of one attribute say of a value, at the front of a buffer; where they say nothing, it stays.
// Ruled out: the last of two items with the value, and no bit uncovered where no item was taken.
pub fn attr_value(out: &mut [u8], items: &[u32], area: &[u8], run: Run, value: u32) -> Said
    requires { item_width * run.end ≤ length items.now }
    ensures { Spoken area.now value (run_items items.now run) out.old result out.new }
{
    if run.end <= run.first {
        return Said {
            length: None,
            uncovered: 0,
        };
    }
    let head = item_at(items, run.first);
    if head.kind == 0 {
        let found = find_value(items, run.first, run.end, value);
        let length = put_enum(out, area, found, value);
        return Said {
            length: Some(length),
            uncovered: 0,
        };
    }
    said_flags(put_flags(out, 0, items, area, run.first, run.end, value))
}
