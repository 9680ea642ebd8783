// The text of a value, as a page shows it.
//
// Mirrors structs/common.rs (apk-info 13770539b8), `to_string` without resources of its own, and axml.rs where it asks `get_attr_value`
// first. Answers: a `ValueWritten`, length and state of the text and the bits that no name covers, or a refusal. Definitions: specs/Value.antt.
// Differs from the Rust: float, dimension and fraction have no text here (docs/DIFFERENCES.md).
#![tactic(auto)]

pub mod plain;

ghost use Rattle.std.specs.Prelude.{◌≡◌, true, List, ◌/◌, ◌≤◌, ◌<◌, length, replicate, Ok, Err};
ghost use Rattle.records.specs.Limits.{file_limit};
ghost use Rattle.system_types.specs.Names.{lends};
ghost use Rattle.text.specs.Content.{is_text, string_of, text_in, android_uri};
ghost use Rattle.text.specs.Inner.Found.{Asks, Inside, part_of, is_found};
ghost use Rattle.items.specs.Items.{item_at, attribute_of, table_of};
ghost use Rattle.records.specs.Words.{item_width};
ghost use Rattle.items.specs.Inner.Firsts.{Firsts};
ghost use Rattle.items.specs.Inner.Turns.{FirstNamed, RunOf};
ghost use Rattle.utf.specs.Text.{eq_bytes};
ghost use Rattle.common.specs.ValueType.{value_type_of};
ghost use Rattle.errors.specs.declared.TextState.TheVariants.{Whole};
ghost use Rattle.head.specs.Ask.{head_read};
ghost use Rattle.items.specs.Values.{nothing};
ghost use Rattle.value_text.specs.Value.{shows, string_state, or_plain, plain_by, plain_state, named_value, attribute_value, value_open, ValueReads};
ghost use Rattle.value_text.specs.Inner.Leads.{Leads, Tells, Gives, behind_items};

use common::StringIndex;
use digits::{put_bytes, zero};
use errors::{Refusal, TextState, ValueWritten};
use head::{Asker, Opened, enter, is_whole, refusal_of, tables_of};
use items::{Run, attr_value, check_items, check_known, find_first, item_at, part_of, run_of};
use plain::{form_of, is_other, is_pool, put_plain, string_state};
use records::ITEM_WORDS;
use text::equal::same_part;
use text::{ANDROID_URI, Found, Head, find, found_ascii, found_ascii_into, found_into, is_found};

// An attribute as a record of the table has it.
#[derive(Clone, Copy)]
pub struct Attribute {
    pub owner: u32,
    pub prefix: u32,
    pub name: StringIndex,
    pub kind: u32,
    pub data: u32,
    pub ns: StringIndex,
}

// What is told of a value: the length of its text, the bits that no name covers and what became of it; that its name has no text; that it has none.
#[derive(Clone, Copy)]
pub enum Told {
    Shown(usize, u32, TextState),
    NoName,
    NoText,
}

// ---- the items of its name

// Whether the item with the number k is of the attribute whose name was found.
fn is_item(
    t: &[u8],
    area: &[u8],
    utf16: bool,
    f: Found,
    items: &[u32],
    item_area: &[u8],
    k: usize,
) -> bool
    requires { Inside t.now area.now f × (is_found f ≡ true) × (table_of item_area.now items.now ≡ (Ok tt)) × (k < length items.now / item_width) }
    ensures { result ≡ eq_bytes (attribute_of item_area.now (item_at items.now k))
        (text_in (part_of utf16 t.now area.now f)) }
{
    let i = item_at(items, k);
    same_part(
        t,
        area,
        utf16,
        true,
        false,
        part_of(item_area, i.attribute, i.attribute_len),
        f,
    )
}

// The first item of the attribute whose name was found, or the number of items: one pass over the table.
pub fn find_item(
    t: &[u8],
    area: &[u8],
    utf16: bool,
    f: Found,
    items: &[u32],
    item_area: &[u8],
) -> usize
    requires { Inside t.now area.now f × (is_found f ≡ true) × (table_of item_area.now items.now ≡ (Ok tt)) }
    ensures { FirstNamed item_area.now (text_in (part_of utf16 t.now area.now f)) items.now result }
{
    let whole = items.len() / ITEM_WORDS;
    for k in 0..whole {
        if is_item(t, area, utf16, f, items, item_area, k) {
            return k;
        }
    }
    whole
}

// The first item of the attribute whose name was found, or the number of items, where the first item at each place of a name is known: a
// text of up to 64 bytes is held against the items as bytes, a longer one as `find_item` does.
fn find_known(
    t: &[u8],
    area: &[u8],
    utf16: bool,
    f: Found,
    items: &[u32],
    item_area: &[u8],
    firsts: &[usize],
) -> usize
    requires { Inside t.now area.now f × (is_found f ≡ true) × (table_of item_area.now items.now ≡ (Ok tt))
        × (length t.now ≤ file_limit) × Firsts item_area.now items.now firsts.now }
    ensures { FirstNamed item_area.now (text_in (part_of utf16 t.now area.now f)) items.now result }
{
    let mut name = [0u8; 64];
    let n = found_into(t, area, utf16, f, &mut name);
    if 64 < n {
        return find_item(t, area, utf16, f, items, item_area);
    }
    find_first(items, item_area, firsts, &name[0..n])
}

// All items of the attribute whose name was found, where the first item at each place of a name is known.
// Ruled out: those of a longer name that begins with it, and none for a name of more than 64 bytes.
pub fn known_run(
    t: &[u8],
    area: &[u8],
    utf16: bool,
    f: Found,
    items: &[u32],
    item_area: &[u8],
    firsts: &[usize],
) -> Run
    requires { Inside t.now area.now f × (is_found f ≡ true) × (table_of item_area.now items.now ≡ (Ok tt))
        × (length t.now ≤ file_limit) × Firsts item_area.now items.now firsts.now }
    ensures { RunOf item_area.now (text_in (part_of utf16 t.now area.now f)) items.now result }
{
    let first = find_known(t, area, utf16, f, items, item_area, firsts);
    run_of(items, item_area, first)
}

// ---- the text of a value

// The string of the pool and what became of it, found once: no names are asked, so none is found among them. One of ASCII, as most are, is whole,
// and is not looked at again.
fn string_told(
    t: &[u8],
    names: &[u32],
    area: &[u8],
    h: Head,
    out: &mut [u8],
    v: u32,
    uncovered: u32,
) -> Told
    requires { Asks t.now (lends names.now area.now) h }
    ensures { Tells (shows (text_in (string_of h t.now v)) uncovered (string_state (string_of h t.now v)))
        out.old result out.new }
{
    let f = find(t, &names[0..0], area, h, StringIndex(v));
    if found_ascii(t, area, h.utf16, f) {
        let n = found_ascii_into(t, area, h.utf16, f, out);
        return Told::Shown(n, uncovered, TextState::Whole);
    }
    let n = found_into(t, area, h.utf16, f, out);
    let state = string_state(t, area, h.utf16, f);
    Told::Shown(n, uncovered, state)
}

// By the type alone, with the bits that no name covers told: only a string can be damaged.
fn plain_into(
    t: &[u8],
    names: &[u32],
    area: &[u8],
    h: Head,
    out: &mut [u8],
    kind: u32,
    v: u32,
    uncovered: u32,
) -> Told
    requires { Asks t.now (lends names.now area.now) h }
    ensures { Tells (or_plain uncovered (plain_state h t.now v (value_type_of kind)) nothing
        (plain_by h t.now (lends names.now area.now) v (value_type_of kind)))
        out.old result out.new }
{
    let form = form_of(kind);
    if is_other(form) {
        return Told::NoText;
    }
    if is_pool(form) {
        return string_told(t, names, area, h, out, v, uncovered);
    }
    let length = put_plain(t, names, area, h, out, form, v);
    Told::Shown(length, uncovered, TextState::Whole)
}

// What the items of the attribute's name say first.
// Ruled out: the plain text where an item answers, and no bits uncovered where none does.
pub fn named_into(
    t: &[u8],
    names: &[u32],
    area: &[u8],
    h: Head,
    items: &[u32],
    item_area: &[u8],
    out: &mut [u8],
    run: Run,
    kind: u32,
    v: u32,
) -> Told
    requires { Asks t.now (lends names.now area.now) h × (run.end ≤ length items.now / item_width) }
    ensures { (name : List _) → RunOf item_area.now name items.now run
        → Tells (named_value h t.now (lends names.now area.now) items.now item_area.now name kind v)
        out.old result out.new }
{
    let said = attr_value(out, items, item_area, run, v);
    if let Some(length) = said.length {
        return Told::Shown(length, said.uncovered, TextState::Whole);
    }
    plain_into(t, names, area, h, out, kind, v, said.uncovered)
}

// The Android namespace.
// Ruled out: a part of it where there is no room for the whole.
pub fn uri_into(out: &mut [u8]) -> Told
    ensures { Tells (shows android_uri 0 Whole) out.old result out.new }
{
    let n = put_bytes(out, 0, &ANDROID_URI);
    Told::Shown(n, 0, TextState::Whole)
}

// The text of an attribute's value at the front of a buffer; what stands behind it is anything.
// Ruled out: a text cut to the room that there is, and 12 for a name whose text is empty.
pub fn value_into(
    t: &[u8],
    names: &[u32],
    area: &[u8],
    h: Head,
    items: &[u32],
    item_area: &[u8],
    out: &mut [u8],
    a: Attribute,
) -> Told
    requires { Asks t.now (lends names.now area.now) h × (table_of item_area.now items.now ≡ (Ok tt)) }
    ensures { Tells (attribute_value h t.now (lends names.now area.now) items.now item_area.now a)
        out.old result out.new }
{
    if a.prefix == 2 {
        return uri_into(out);
    }
    let f = find(t, names, area, h, a.name);
    if !is_found(f) {
        return Told::NoName;
    }
    let first = find_item(t, area, h.utf16, f, items, item_area);
    let run = run_of(items, item_area, first);
    named_into(
        t, names, area, h, items, item_area, out, run, a.kind, a.data,
    )
}

// ---- the question

// The head of a file whose entry checks pass, behind items that keep their rule.
fn open_behind(opened: Opened, read: Result<(), usize>) -> Result<Head, Refusal>
    ensures { result ≡ behind_items opened read }
{
    read.map_err(|k| Refusal::ItemsError(k))?;
    head_of(opened)
}

fn head_of(opened: Opened) -> Result<Head, Refusal>
    ensures { result ≡ head_read opened }
{
    let end = opened.end;
    let head = opened.head;
    if is_whole(end) {
        return Ok(head);
    }
    Err(refusal_of(end))
}

// The head of a file, or the first refusal: what every entry point checks, then the items, then the head.
// Ruled out: 1 for a file of 7 bytes with items that break their rule.
pub fn open_value(
    file: &[u8],
    names: &[u32],
    area: &[u8],
    items: &[u32],
    item_area: &[u8],
) -> Result<Head, Refusal>
    ensures { result ≡ value_open file.now (lends names.now area.now) items.now item_area.now }
{
    let opened = enter(file, names, area, Asker::Question)?;
    open_behind(opened, check_items(items, item_area))
}

// The same, where the first item at each place of a name is known.
// Ruled out: as above.
pub fn open_known(
    file: &[u8],
    names: &[u32],
    area: &[u8],
    items: &[u32],
    item_area: &[u8],
    firsts: &[usize],
) -> Result<Head, Refusal>
    requires { Firsts item_area.now items.now firsts.now }
    ensures { result ≡ value_open file.now (lends names.now area.now) items.now item_area.now }
{
    let opened = enter(file, names, area, Asker::Question)?;
    open_behind(opened, check_known(items, item_area, firsts))
}

fn refuse(out: &mut [u8], why: Refusal) -> Result<ValueWritten, Refusal>
    ensures { (result ≡ Err why) × (out.new ≡ replicate (length out.old) 0) }
{
    zero(out);
    Err(why)
}

// A text of n bytes that stands at the front of the buffer, if it fits.
fn settle(
    out: &mut [u8],
    n: usize,
    uncovered: u32,
    state: TextState,
) -> Result<ValueWritten, Refusal>
    ensures { (s l : List _) → Leads s l n out.old → Gives (length l) 0 (shows s uncovered state) result out.new }
{
    if out.len() < n {
        return refuse(out, Refusal::TextShort(n));
    }
    zero(&mut out[n..]);
    Ok(ValueWritten {
        length: n,
        uncovered,
        state,
    })
}

fn value_in(
    t: &[u8],
    names: &[u32],
    area: &[u8],
    h: Head,
    items: &[u32],
    item_area: &[u8],
    out: &mut [u8],
    a: Attribute,
) -> Result<ValueWritten, Refusal>
    requires { Asks t.now (lends names.now area.now) h × (table_of item_area.now items.now ≡ (Ok tt)) }
    ensures { Gives (length out.old) a.kind
        (attribute_value h t.now (lends names.now area.now) items.now item_area.now a)
        result out.new }
{
    let told = value_into(t, names, area, h, items, item_area, out, a);
    match told {
        Told::Shown(n, uncovered, state) => settle(out, n, uncovered, state),
        Told::NoName => refuse(out, Refusal::NothingFound),
        Told::NoText => refuse(out, Refusal::NoPlainText(a.kind)),
    }
}

// The text of an attribute's value, in `out`: its UTF-8 and zeros behind it; on a refusal zeros alone. Names, items and head are checked
// again at each call, and the answer tells the first that is amiss: 2, 7, 14, 1, 3, 41 to 45, 51, 52, then 12 (its name has no text), 15 (no
// plain text) and 11 (with the bytes needed).
// Ruled out: the number of a value that an item names, the names of bits that are not set, and a damaged string answered as whole.
pub fn value_text(
    file: &[u8],
    names: &[u32],
    area: &[u8],
    items: &[u32],
    item_area: &[u8],
    out: &mut [u8],
    attribute: Attribute,
) -> Result<ValueWritten, Refusal>
    ensures { ValueReads file.now (lends names.now area.now) items.now item_area.now
        out.old attribute result out.new }
{
    let opened = open_value(file, names, area, items, item_area);
    match opened {
        Ok(h) => value_in(
            tables_of(file, h),
            names,
            area,
            h,
            items,
            item_area,
            out,
            attribute,
        ),
        Err(why) => refuse(out, why),
    }
}
