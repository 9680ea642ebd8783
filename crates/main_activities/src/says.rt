// Whether the text of an attribute's value is a given one, without writing the whole of it: a string of the pool is compared where it stands, any
// other text is written into a few bytes.
//
// Mirrors nothing of the Rust's, whose values are texts. Definitions: crate value_text, and `shown_as` of specs/Activities.antt.
ghost use Rattle.std.specs.Prelude.{◌≡◌, List, ◌/◌, ◌≤◌, ◌<◌, length, Ok};
ghost use Rattle.utf.specs.Text.{eq_bytes};
ghost use Rattle.system_types.specs.Names.{lends};
ghost use Rattle.text.specs.Content.{string_of, text_in};
ghost use Rattle.text.specs.Inner.Found.{Asks};
ghost use Rattle.items.specs.Items.{table_of};
ghost use Rattle.records.specs.Words.{item_width};
ghost use Rattle.items.specs.Inner.Turns.{RunOf};
ghost use Rattle.common.specs.ValueType.{value_type_of};
ghost use Rattle.value_text.specs.Value.{plain_by, named_value, attribute_value};
ghost use Rattle.value_text.specs.Inner.Leads.{Leads};
ghost use Rattle.main_activities.specs.Activities.{shown_as};
ghost use Rattle.main_activities.specs.Inner.Pass.{Fits, said_is};

use common::StringIndex;
use items::{Run, attr_value, run_of};
use text::{ANDROID_URI, Head, find, is_found, is_index_text};
use utf::same::same_bytes;
use value_text::plain::{form_of, is_other, is_pool, put_plain};
use value_text::{Attribute, find_item};

// How many bytes of a text are written at most: no text that is compared with is longer.
pub const LONGEST: usize = 32;

// Whether the text of n bytes that stands at the front of a buffer is the expected one.
fn is_front(out: &[u8], n: usize, expected: &[u8]) -> bool
    requires { Fits expected.now out.now }
    ensures { (s l : List _) → Leads s l n out.now → result ≡ eq_bytes s expected.now }
{
    if out.len() < n {
        return false;
    }
    same_bytes(&out[0..n], expected)
}

// Whether the string of the pool is the expected text: no names are asked.
fn is_string(t: &[u8], names: &[u32], area: &[u8], h: Head, v: u32, expected: &[u8]) -> bool
    requires { Asks t.now (lends names.now area.now) h × (0 < length expected.now) }
    ensures { result ≡ eq_bytes (text_in (string_of h t.now v)) expected.now }
{
    is_index_text(t, &names[0..0], area, h, StringIndex(v), expected)
}

// By the type alone.
fn plain_is(
    t: &[u8],
    names: &[u32],
    area: &[u8],
    h: Head,
    out: &mut [u8],
    expected: &[u8],
    kind: u32,
    v: u32,
) -> bool
    requires { Asks t.now (lends names.now area.now) h × Fits expected.now out.old }
    ensures { result ≡ said_is expected.now
        (plain_by h t.now (lends names.now area.now) v (value_type_of kind)) }
{
    let form = form_of(kind);
    if is_other(form) {
        return false;
    }
    if is_pool(form) {
        return is_string(t, names, area, h, v, expected);
    }
    let n = put_plain(t, names, area, h, out, form, v);
    is_front(out, n, expected)
}

// What the items of the attribute's name say first.
fn named_is(
    t: &[u8],
    names: &[u32],
    area: &[u8],
    h: Head,
    items: &[u32],
    item_area: &[u8],
    out: &mut [u8],
    expected: &[u8],
    run: Run,
    kind: u32,
    v: u32,
) -> bool
    requires { Asks t.now (lends names.now area.now) h × Fits expected.now out.old × (run.end ≤ length items.now / item_width) }
    ensures { (name : List _) → RunOf item_area.now name items.now run
        → result ≡ shown_as expected.now
        (named_value h t.now (lends names.now area.now) items.now
        item_area.now name kind v) }
{
    let said = attr_value(out, items, item_area, run, v);
    if let Some(length) = said.length {
        return is_front(out, length, expected);
    }
    plain_is(t, names, area, h, out, expected, kind, v)
}

// Whether an attribute's value has the text. Ruled out: yes for a value without a text, and for one that only begins with it.
pub fn value_is(
    t: &[u8],
    names: &[u32],
    area: &[u8],
    h: Head,
    items: &[u32],
    item_area: &[u8],
    a: Attribute,
    expected: &[u8],
) -> bool
    requires { Asks t.now (lends names.now area.now) h × (table_of item_area.now items.now ≡ (Ok tt))
        × (0 < length expected.now) × (length expected.now ≤ 32) }
    ensures { result ≡ shown_as expected.now
        (attribute_value h t.now (lends names.now area.now) items.now item_area.now a) }
{
    if a.prefix == 2 {
        return same_bytes(&ANDROID_URI, expected);
    }
    let f = find(t, names, area, h, a.name);
    if !is_found(f) {
        return false;
    }
    let first = find_item(t, area, h.utf16, f, items, item_area);
    let run = run_of(items, item_area, first);
    let mut out = [0u8; LONGEST];
    named_is(
        t, names, area, h, items, item_area, &mut out, expected, run, a.kind, a.data,
    )
}
