// Whether a node has the tag that is asked for, and an attribute the name: bytes against fixed texts and the texts of indices.
//
// Mirrors axml.rs (apk-info 13770539b8), `get_attribute_value`, its two comparisons. Definitions: specs/Question.antt, docs/FORMAT.md, Q7 and Q8.
ghost use Rattle.std.specs.Prelude.{◌≡◌};
ghost use Rattle.system_types.specs.Names.{lends};
ghost use Rattle.text.specs.Inner.Found.{Asks};
ghost use Rattle.first_value.specs.Question.{tag_is, name_is};

use common::StringIndex;
use text::{Head, is_index_text};
use utf::same::same_bytes;

// Whether a node of this fixed word and name index has the tag.
// Ruled out: `invalid-element` for a fixed word of 2, and yes for an index without text and no bytes.
pub fn is_tagged(
    t: &[u8],
    names: &[u32],
    area: &[u8],
    h: Head,
    tag: &[u8],
    fixed: u32,
    index: StringIndex,
) -> bool
    requires { Asks t.now (lends names.now area.now) h }
    ensures { result ≡ tag_is h t.now (lends names.now area.now) tag.now fixed index.0 }
{
    if fixed == 1 {
        return same_bytes(tag, b"invalid-element");
    }
    is_index_text(t, names, area, h, index, tag)
}

// Whether an attribute of this prefix and name index has the name.
// Ruled out: no for prefix 0 where the text is the name, and the text of the index where the prefix is 2.
pub fn is_named(
    t: &[u8],
    names: &[u32],
    area: &[u8],
    h: Head,
    name: &[u8],
    prefix: u32,
    index: StringIndex,
) -> bool
    requires { Asks t.now (lends names.now area.now) h }
    ensures { result ≡ name_is h t.now (lends names.now area.now) name.now «prefix» index.0 }
{
    if prefix == 2 {
        return same_bytes(name, b"android");
    }
    is_index_text(t, names, area, h, index, name)
}
