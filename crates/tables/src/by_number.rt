// Long names and namespaces compared by what is known of them (numbers.rt), and attributes that have such asked whether a new one repeats one of them.
//
// Stands for the Rust's `HashSet` of attribute names. Definitions: specs/Inner/Numbered.antt, records/specs/Repeats.antt.
ghost use Rattle.std.specs.Prelude.{◌≡◌, List, false, true, ℕ, ◌+◌, ◌≤◌, length};
ghost use Rattle.utf.specs.Plain.{Known};
ghost use Rattle.records.specs.Words.{attribute_width, attribute_words};
ghost use Rattle.records.specs.Repeats.{by_prefix, is_repeat};
ghost use Rattle.system_types.specs.Names.{Lent, lends};
ghost use Rattle.text.specs.declared.Head.{Head};
ghost use Rattle.text.specs.Content.{content_of, is_name, plain_in, same_text, same_name};
ghost use Rattle.text.specs.Inner.Found.{Asks, Inside, Finds, part_of};
ghost use Rattle.tables.specs.Inner.Numbered.{word_count, Numbered, ToldBy};
ghost use Rattle.tables.specs.Inner.Ways.{same_at};

use crate::numbers::{NEAR, enter, is_long, near_of, told_of};
use crate::{is_plain_name, same_space};
use common::StringIndex;
use records::{ATTRIBUTE_NAME, ATTRIBUTE_NAMESPACE, ATTRIBUTE_PREFIX, ATTRIBUTE_WORDS, OWN_PREFIX};
use text::{
    Found, Head, ends_apart, find, has_text, is_found, is_plain_found, same_found, same_found_known,
};

// ---- two texts

// Whether two that were found have the same text, with nothing known of either: both are passed over.
fn same_whole(t: &[u8], area: &[u8], utf16: bool, f: Found, g: Found) -> bool
    requires { Inside t.now area.now f × Inside t.now area.now g }
    ensures { result ≡ same_text (part_of utf16 t.now area.now f) (part_of utf16 t.now area.now g) }
{
    let plain = is_plain_found(t, area, utf16, g);
    same_found_known(t, area, utf16, plain, f, g)
}

// Whether two indices, found as f and g, have the same text. Both are known afterwards, if there are places for them.
fn same_kept(
    t: &[u8],
    names: &[u32],
    area: &[u8],
    h: Head,
    index: StringIndex,
    f: Found,
    name: StringIndex,
    g: Found,
    numbers: &mut [u64],
) -> bool
    requires { Asks t.now (lends names.now area.now) h × Finds t.now (lends names.now area.now) h index.0 f
        × Finds t.now (lends names.now area.now) h name.0 g
        × Numbered h t.now (lends names.now area.now) numbers.old }
    ensures { (result ≡ same_name h t.now (lends names.now area.now) index.0 name.0)
        × Numbered h t.now (lends names.now area.now) numbers.new }
{
    enter(t, names, area, h, name, g, numbers);
    enter(t, names, area, h, index, f, numbers);
    match told_of(numbers, index, name, near_of(g)) {
        Some(same) => same,
        None => same_whole(t, area, h.utf16, f, g),
    }
}

// The same: where their ends do not tell, one that is long by what is known, and any other by its bytes.
fn same_found_by(
    t: &[u8],
    names: &[u32],
    area: &[u8],
    h: Head,
    plain: bool,
    index: StringIndex,
    name: StringIndex,
    g: Found,
    long: bool,
    numbers: &mut [u64],
) -> bool
    requires { Asks t.now (lends names.now area.now) h × Finds t.now (lends names.now area.now) h name.0 g
        × Known plain (plain_in (part_of h.utf16 t.now area.now g))
        × Numbered h t.now (lends names.now area.now) numbers.old }
    ensures { (result ≡ same_name h t.now (lends names.now area.now) index.0 name.0)
        × Numbered h t.now (lends names.now area.now) numbers.new }
{
    let f = find(t, names, area, h, index);
    if ends_apart(t, area, h.utf16, plain, f, g) {
        return false;
    }
    if long {
        return same_kept(t, names, area, h, index, f, name, g, numbers);
    }
    same_found_known(t, area, h.utf16, plain, f, g)
}

// What is known of two indices, of which the second has a long text; of any other nothing is kept.
fn told_if(long: bool, numbers: &[u64], i: StringIndex, j: StringIndex) -> Option<bool>
    requires { length numbers.now ≡ word_count }
    ensures { (h : Head) (t : List ℕ) (lent : Lent) → Numbered h t lent numbers.now → ToldBy (same_name h t lent i.0 j.0) result }
{
    if long {
        told_of(numbers, i, j, NEAR)
    } else {
        None
    }
}

// Whether two indices have the same text, of which the second was found as g: by equal indices, then by what is known of a long one, then by
// lengths and last units, then by all bytes.
// Ruled out: yes for an index without a text and itself, and no for two indices of one long text.
pub fn same_by(
    t: &[u8],
    names: &[u32],
    area: &[u8],
    h: Head,
    plain: bool,
    index: StringIndex,
    name: StringIndex,
    g: Found,
    long: bool,
    numbers: &mut [u64],
) -> bool
    requires { Asks t.now (lends names.now area.now) h × Finds t.now (lends names.now area.now) h name.0 g
        × Known plain (plain_in (part_of h.utf16 t.now area.now g))
        × Numbered h t.now (lends names.now area.now) numbers.old }
    ensures { (result ≡ same_name h t.now (lends names.now area.now) index.0 name.0)
        × Numbered h t.now (lends names.now area.now) numbers.new }
{
    if index.0 == name.0 {
        return is_found(g);
    }
    match told_if(long, numbers, index, name) {
        Some(same) => same,
        None => same_found_by(t, names, area, h, plain, index, name, g, long, numbers),
    }
}

// Whether two indices have the same text, of which nothing is known: both are found, and long ones are known afterwards.
fn same_looked(
    t: &[u8],
    names: &[u32],
    area: &[u8],
    h: Head,
    i: StringIndex,
    j: StringIndex,
    numbers: &mut [u64],
) -> bool
    requires { Asks t.now (lends names.now area.now) h × Numbered h t.now (lends names.now area.now) numbers.old }
    ensures { (result ≡ same_name h t.now (lends names.now area.now) i.0 j.0)
        × Numbered h t.now (lends names.now area.now) numbers.new }
{
    let f = find(t, names, area, h, i);
    let g = find(t, names, area, h, j);
    if is_long(f) | is_long(g) {
        return same_kept(t, names, area, h, i, f, j, g, numbers);
    }
    same_found(t, area, h.utf16, f, g)
}

// Whether two indices have the same text: equal ones at once, then by what is known of both, then by their texts.
// Ruled out: no for two strings of the same text at two offsets, and yes for a text and one that begins with it.
pub fn same_numbered(
    t: &[u8],
    names: &[u32],
    area: &[u8],
    h: Head,
    i: StringIndex,
    j: StringIndex,
    numbers: &mut [u64],
) -> bool
    requires { Asks t.now (lends names.now area.now) h × Numbered h t.now (lends names.now area.now) numbers.old }
    ensures { (result ≡ same_name h t.now (lends names.now area.now) i.0 j.0)
        × Numbered h t.now (lends names.now area.now) numbers.new }
{
    if i.0 == j.0 {
        return has_text(t, names, area, h, i);
    }
    match told_of(numbers, i, j, NEAR) {
        Some(same) => same,
        None => same_looked(t, names, area, h, i, j, numbers),
    }
}

// ---- attributes

// Whether attributes of this prefix are compared by what is known of long texts: the name is long, or the namespace counts.
pub fn is_numbered(prefix: u32, wanted: Found) -> bool
    ensures { result ≡ false → prefix ≡ 3 → ⊥ }
{
    if prefix == OWN_PREFIX {
        return true;
    }
    is_long(wanted)
}

// Whether no other bytes in the same encoding have what was found, as far as this is known without a pass over a long text.
// Ruled out: yes for a name that is not plain.
pub fn plain_unless(t: &[u8], area: &[u8], utf16: bool, f: Found, long: bool) -> bool
    requires { Inside t.now area.now f }
    ensures { Known result (plain_in (part_of utf16 t.now area.now f)) }
{
    if long {
        return false;
    }
    is_plain_found(t, area, utf16, f)
}

// The same of an attribute's name, which is known to be valid unless it is the leading one's.
fn is_plain_long(t: &[u8], area: &[u8], utf16: bool, prefix: u32, f: Found, long: bool) -> bool
    requires { Inside t.now area.now f × ((prefix ≡ 2 → ⊥) → is_name (part_of utf16 t.now area.now f) ≡ true) }
    ensures { Known result (plain_in (part_of utf16 t.now area.now f)) }
{
    if long & !utf16 {
        return false;
    }
    is_plain_name(t, area, utf16, prefix, f)
}

// Whether the record whose words begin at the place i is repeated by the attribute of this prefix, name and namespace, whose name was found as g.
// Ruled out: yes for another prefix, and yes under the prefix 3 for another namespace.
pub fn is_same(
    t: &[u8],
    names: &[u32],
    area: &[u8],
    h: Head,
    words: &[u32],
    i: usize,
    prefix: u32,
    name: StringIndex,
    ns: StringIndex,
    g: Found,
    plain: bool,
    long: bool,
    numbers: &mut [u64],
) -> bool
    requires { Asks t.now (lends names.now area.now) h × Finds t.now (lends names.now area.now) h name.0 g
        × Known plain (plain_in (part_of h.utf16 t.now area.now g))
        × Numbered h t.now (lends names.now area.now) numbers.old × (i + attribute_width ≤ length words.now) }
    ensures { (result ≡ same_at (same_name h t.now (lends names.now area.now)) prefix name.0 ns.0
        words.now i)
        × Numbered h t.now (lends names.now area.now) numbers.new }
{
    if words[i + ATTRIBUTE_PREFIX] != prefix {
        return false;
    }
    let other = StringIndex(words[i + ATTRIBUTE_NAME]);
    if same_by(t, names, area, h, plain, other, name, g, long, numbers) {
        let old = StringIndex(words[i + ATTRIBUTE_NAMESPACE]);
        return same_space(t, names, area, h, prefix, old, ns, numbers);
    }
    false
}

// What `has` says, where the name is long or the namespace counts: by what is known of long texts.
// Ruled out: yes for two long names of one number, and yes under the prefix 3 for the same name in another namespace.
pub fn has_numbered(
    t: &[u8],
    names: &[u32],
    area: &[u8],
    h: Head,
    words: &[u32],
    prefix: u32,
    name: StringIndex,
    ns: StringIndex,
    wanted: Found,
    numbers: &mut [u64],
) -> bool
    requires { Asks t.now (lends names.now area.now) h × Finds t.now (lends names.now area.now) h name.0 wanted
        × ((prefix ≡ 2 → ⊥) → is_name (content_of h t.now (lends names.now area.now) name.0) ≡ true)
        × Numbered h t.now (lends names.now area.now) numbers.old }
    ensures { ((owner kind «data» : ℕ) → result ≡ is_repeat (by_prefix (same_name h t.now (lends names.now area.now)))
        (attribute_words owner prefix name.0 kind «data» ns.0) words.now)
        × Numbered h t.now (lends names.now area.now) numbers.new }
{
    let long = is_long(wanted);
    let plain = is_plain_long(t, area, h.utf16, prefix, wanted, long);
    for record in words.chunks_exact(ATTRIBUTE_WORDS) {
        if is_same(
            t, names, area, h, record, 0, prefix, name, ns, wanted, plain, long, numbers,
        ) {
            return true;
        }
    }
    false
}
