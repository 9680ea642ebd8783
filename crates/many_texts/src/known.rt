// The items of a name, with what is known of the names that came before: a manifest has few different names, and one that comes again is not
// looked up again.
//
// Mirrors nothing of the Rust's, which compares each name with those of its table. Definitions: specs/Inner/Known.antt.
ghost use Rattle.std.specs.Prelude.{◌≡◌, ◌<◌, Ok};
ghost use Rattle.system_types.specs.Names.{lends};
ghost use Rattle.text.specs.Inner.Found.{Asks};
ghost use Rattle.items.specs.Items.{table_of};
ghost use Rattle.items.specs.Inner.Firsts.{Firsts};
ghost use Rattle.many_texts.specs.Inner.Known.{Looks, Knows};

use common::StringIndex;
use items::Run;
use text::{Head, find, is_found};
use value_text::known_run;

// How many names can be known: those with the lowest indices, which are the attributes' in every manifest that aapt makes.
pub const KNOWN: usize = 128;

fn look(
    t: &[u8],
    names: &[u32],
    area: &[u8],
    h: Head,
    items: &[u32],
    item_area: &[u8],
    firsts: &[usize],
    index: StringIndex,
) -> Option<Run>
    requires { Asks t.now (lends names.now area.now) h × (table_of item_area.now items.now ≡ (Ok tt))
        × Firsts item_area.now items.now firsts.now }
    ensures { Looks h t.now (lends names.now area.now) items.now item_area.now index.0 result }
{
    let f = find(t, names, area, h, index);
    if !is_found(f) {
        return None;
    }
    Some(known_run(t, area, h.utf16, f, items, item_area, firsts))
}

// The items of an index's text. In `ends` stands for a name that is known the number behind the last of them and one more, 0 for a name that
// is not, and in `starts` the number of the first.
// Ruled out: the items of another name, and those of a name that is not known yet.
pub fn look_up(
    t: &[u8],
    names: &[u32],
    area: &[u8],
    h: Head,
    items: &[u32],
    item_area: &[u8],
    firsts: &[usize],
    starts: &mut [usize],
    ends: &mut [usize],
    index: StringIndex,
) -> Option<Run>
    requires { Asks t.now (lends names.now area.now) h × (table_of item_area.now items.now ≡ (Ok tt))
        × Firsts item_area.now items.now firsts.now × Knows h t.now (lends names.now area.now) items.now item_area.now starts.old ends.old }
    ensures { Looks h t.now (lends names.now area.now) items.now item_area.now index.0 result
        × Knows h t.now (lends names.now area.now) items.now item_area.now starts.new ends.new }
{
    let place = index.0 as usize;
    if KNOWN <= place {
        return look(t, names, area, h, items, item_area, firsts, index);
    }
    if 0 < ends[place] {
        return Some(Run {
            first: starts[place],
            end: ends[place] - 1,
        });
    }
    let run = look(t, names, area, h, items, item_area, firsts, index)?;
    starts[place] = run.first;
    ends[place] = run.end + 1;
    Some(run)
}
