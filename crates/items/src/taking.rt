// Flags: the items of an attribute in table order, each taken one removing its bits, and the names of those taken.
//
// Mirrors structs/attrs_manifest.rs (apk-info 13770539b8), the arm of `get_attr_value` for flags. Definitions: specs/Flags.antt.
ghost use Rattle.std.specs.Prelude.{◌≡◌, ◌++◌, ◌-◌, ◌*◌, ◌≤◌, ◌<◌, length};
ghost use Rattle.digits.specs.Written.{Wrote};
ghost use Rattle.records.specs.Words.{item_width};
ghost use Rattle.items.specs.Items.{item_name_of, items_from};
ghost use Rattle.items.specs.Flags.{takes, bar};
ghost use Rattle.items.specs.Inner.Turns.{Turned, Put};

use super::{Flags, Item, item_at, part_of};
use digits::{put_byte, put_bytes};

// Whether an item's value is taken of what is left.
fn is_taken(left: u32, v: u32) -> bool
    ensures { result ≡ takes left v }
{
    v != 0 && v & left == v
}

fn put_bar(out: &mut [u8], p: usize, some: bool) -> usize
    requires { p < 9223372036854775808 }
    ensures { Wrote 1 p (bar some) out.old result out.new }
{
    if some {
        return put_byte(out, p, 124);
    }
    p
}

// The name of an item, behind `|` where a name stands there already.
fn put_name(out: &mut [u8], p: usize, area: &[u8], i: Item, some: bool) -> usize
    requires { p < 9223372036854775808 }
    ensures { Wrote 4294967296 p (bar some ++ item_name_of area.now i) out.old result out.new }
{
    let at = put_bar(out, p, some);
    put_bytes(out, at, part_of(area, i.name, i.name_len))
}

// One item.
fn put_turn(out: &mut [u8], area: &[u8], i: Item, st: Flags) -> Flags
    requires { st.at < 9223372036854775808 }
    ensures { Turned area.now i st out.old result out.new }
{
    if is_taken(st.left, i.value) {
        let at = put_name(out, st.at, area, i, st.some);
        return Flags {
            at,
            left: st.left ^ i.value,
            some: true,
        };
    }
    st
}

// The names of the items taken, of those from number `first` up to `end`, from a place on.
// Ruled out: an item of value 0 among them, and a bit taken twice.
pub fn put_flags(
    out: &mut [u8],
    p: usize,
    items: &[u32],
    area: &[u8],
    first: usize,
    end: usize,
    flags: u32,
) -> Flags
    requires { (p < 4611686018427387904) × (item_width * end ≤ length items.now) }
    ensures { Put area.now flags (items_from items.now first (end - first)) p out.old result out.new }
{
    let mut st = Flags {
        at: p,
        left: flags,
        some: false,
    };
    for k in first..end {
        let i = item_at(items, k);
        st = put_turn(out, area, i, st);
    }
    st
}
