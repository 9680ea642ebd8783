// Whether a node has the tag, with what is known of the names that came before: a tree has few different names, and one that comes again is not
// looked up again.
//
// Mirrors nothing of the Rust's, whose names are texts. Definitions: specs/Question.antt, specs/Inner/Others.antt.
ghost use Rattle.std.specs.Prelude.{◌≡◌, length};
ghost use Rattle.system_types.specs.Names.{lends};
ghost use Rattle.text.specs.Inner.Found.{Asks};
ghost use Rattle.first_value.specs.Inner.Others.{Others, Tells};

use super::called::is_tagged;
use common::StringIndex;
use text::Head;

// How many names are kept, each at the place that the remainder of its index gives; a later one takes the place over.
pub const OTHERS: usize = 64;

// As `is_tagged` tells it. In `others` stand indices, one more each, whose text is not the tag, and 0 where there is none.
// Ruled out: no for an index that is not among them, and an index kept whose text is the tag.
pub fn is_tagged_once(
    t: &[u8],
    names: &[u32],
    area: &[u8],
    h: Head,
    tag: &[u8],
    others: &mut [u64],
    fixed: u32,
    index: StringIndex,
) -> bool
    requires { Asks t.now (lends names.now area.now) h × (length others.old ≡ 64)
        × Others h t.now (lends names.now area.now) tag.now others.old }
    ensures { Tells h t.now (lends names.now area.now) tag.now fixed index.0 result others.new }
{
    let mark = index.0 as u64 + 1;
    let place = index.0 as usize % OTHERS;
    if fixed == 1 {
        return is_tagged(t, names, area, h, tag, fixed, index);
    }
    if others[place] == mark {
        return false;
    }
    if is_tagged(t, names, area, h, tag, fixed, index) {
        return true;
    }
    others[place] = mark;
    false
}
