// What a node is: its parent word, its tag, its attributes, what they say.
//
// Mirrors axml.rs (apk-info 13770539b8), `get_main_activities`, its comparisons. Definitions: specs/Activities.antt, docs/FORMAT.md, S3 to S8.
ghost use Rattle.std.specs.Prelude.{◌≡◌, ◌&&◌, ◌||◌, ◌+◌, ◌*◌, ◌≤◌, ◌<◌, length, get_or, eqb};
ghost use Rattle.records.specs.Words.{node_width, node_fixed, node_name, attribute_width};
ghost use Rattle.system_types.specs.Names.{lends};
ghost use Rattle.text.specs.Inner.Found.{Asks};
ghost use Rattle.first_value.specs.Question.{tag_is};
ghost use Rattle.main_activities.specs.Activities.{tree_of, parent_of, tagged, attribute_from, attribute_of, says, is_main, is_launcher, is_activity, is_enabled};
ghost use Rattle.main_activities.specs.Activities.{name_name, launcher_text, info_text};
ghost use Rattle.main_activities.specs.Inner.Pass.{Ready};

use super::says::value_is;
use common::StringIndex;
use first_value::called::{is_named, is_tagged};
use many_texts::attribute_at;
use records::{
    ATTRIBUTE_NAME, ATTRIBUTE_PREFIX, NODE_COUNT, NODE_FIRST, NODE_FIXED, NODE_NAME, NODE_PARENT,
    attribute_place, node_place,
};
use text::Head;

// The parent word of node k. Ruled out: the word of its neighbour.
pub fn parent_at(nodes: &[u32], k: u32) -> u32
    requires { node_width * k + node_width ≤ length nodes.now }
    ensures { result ≡ parent_of nodes.now k }
{
    let at = node_place(k);
    nodes[at + NODE_PARENT]
}

// Whether node k has the tag.
pub fn has_tag(
    t: &[u8],
    names: &[u32],
    area: &[u8],
    h: Head,
    nodes: &[u32],
    tag: &[u8],
    k: u32,
) -> bool
    requires { Asks t.now (lends names.now area.now) h × (node_width * k + node_width ≤ length nodes.now) }
    ensures { result ≡ tag_is h t.now (lends names.now area.now) tag.now
        (get_or nodes.now (node_width * k + node_fixed) 0) (get_or nodes.now (node_width * k + node_name) 0) }
{
    let at = node_place(k);
    is_tagged(
        t,
        names,
        area,
        h,
        tag,
        nodes[at + NODE_FIXED],
        StringIndex(nodes[at + NODE_NAME]),
    )
}

// The first with the name, of `number` attributes from the number `first` on, which lie in the table.
fn find_from(
    t: &[u8],
    names: &[u32],
    area: &[u8],
    h: Head,
    items: &[u32],
    item_area: &[u8],
    nodes: &[u32],
    attributes: &[u32],
    name: &[u8],
    count: u32,
    first: u32,
    number: u32,
) -> Option<u32>
    requires { Asks t.now (lends names.now area.now) h × (first + number < 4294967296) ×
        (attribute_width * (first + number) ≤ length attributes.now) }
    ensures { result ≡ attribute_from (tree_of h t.now (lends names.now area.now) items.now
        item_area.now nodes.now attributes.now count) name.now first number }
{
    for i in 0..number {
        let j = first + i;
        let at = attribute_place(j);
        if is_named(
            t,
            names,
            area,
            h,
            name,
            attributes[at + ATTRIBUTE_PREFIX],
            StringIndex(attributes[at + ATTRIBUTE_NAME]),
        ) {
            return Some(j);
        }
    }
    None
}

// The first attribute of node k with the name.
pub fn find_named(
    t: &[u8],
    names: &[u32],
    area: &[u8],
    h: Head,
    items: &[u32],
    item_area: &[u8],
    nodes: &[u32],
    attributes: &[u32],
    name: &[u8],
    count: u32,
    k: u32,
) -> Option<u32>
    requires { Ready (tree_of h t.now (lends names.now area.now) items.now item_area.now nodes.now attributes.now count) ×
        (k < count) }
    ensures { result ≡ attribute_of (tree_of h t.now (lends names.now area.now) items.now
        item_area.now nodes.now attributes.now count) name.now k }
{
    let at = node_place(k);
    find_from(
        t,
        names,
        area,
        h,
        items,
        item_area,
        nodes,
        attributes,
        name,
        count,
        nodes[at + NODE_FIRST],
        nodes[at + NODE_COUNT],
    )
}

// Whether the first attribute of node k with the name has the text as its value. The text is not empty, and no longer than 32 bytes.
fn has_value(
    t: &[u8],
    names: &[u32],
    area: &[u8],
    h: Head,
    items: &[u32],
    item_area: &[u8],
    nodes: &[u32],
    attributes: &[u32],
    name: &[u8],
    expected: &[u8],
    count: u32,
    k: u32,
) -> bool
    requires { Ready (tree_of h t.now (lends names.now area.now) items.now item_area.now nodes.now attributes.now count) ×
        (k < count)
        × (0 < length expected.now) × (length expected.now ≤ 32) }
    ensures { result ≡ says (tree_of h t.now (lends names.now area.now) items.now
        item_area.now nodes.now attributes.now count) name.now expected.now k }
{
    let Some(j) = find_named(
        t, names, area, h, items, item_area, nodes, attributes, name, count, k,
    ) else {
        return false;
    };
    value_is(
        t,
        names,
        area,
        h,
        items,
        item_area,
        attribute_at(attributes, j as usize),
        expected,
    )
}

// Whether node k is a child of p and the main action.
pub fn is_main_child(
    t: &[u8],
    names: &[u32],
    area: &[u8],
    h: Head,
    items: &[u32],
    item_area: &[u8],
    nodes: &[u32],
    attributes: &[u32],
    count: u32,
    p: u32,
    k: u32,
) -> bool
    requires { Ready (tree_of h t.now (lends names.now area.now) items.now item_area.now nodes.now attributes.now count) ×
        (k < count) }
    ensures { result ≡ (eqb (parent_of nodes.now k) p && is_main
        (tree_of h t.now (lends names.now area.now) items.now
        item_area.now nodes.now attributes.now count) k) }
{
    if parent_at(nodes, k) != p {
        return false;
    }
    if !has_tag(t, names, area, h, nodes, b"action", k) {
        return false;
    }
    has_value(
        t,
        names,
        area,
        h,
        items,
        item_area,
        nodes,
        attributes,
        b"name",
        b"android.intent.action.MAIN",
        count,
        k,
    )
}

// Whether the name of node k is that of the launcher's category, or of the other that will do.
fn is_launching(
    t: &[u8],
    names: &[u32],
    area: &[u8],
    h: Head,
    items: &[u32],
    item_area: &[u8],
    nodes: &[u32],
    attributes: &[u32],
    count: u32,
    k: u32,
) -> bool
    requires { Ready (tree_of h t.now (lends names.now area.now) items.now item_area.now nodes.now attributes.now count) ×
        (k < count) }
    ensures { result ≡ (says (tree_of h t.now (lends names.now area.now) items.now
        item_area.now nodes.now attributes.now count) name_name launcher_text k
        || says (tree_of h t.now (lends names.now area.now) items.now
        item_area.now nodes.now attributes.now count) name_name info_text k) }
{
    if has_value(
        t,
        names,
        area,
        h,
        items,
        item_area,
        nodes,
        attributes,
        b"name",
        b"android.intent.category.LAUNCHER",
        count,
        k,
    ) {
        return true;
    }
    has_value(
        t,
        names,
        area,
        h,
        items,
        item_area,
        nodes,
        attributes,
        b"name",
        b"android.intent.category.INFO",
        count,
        k,
    )
}

// Whether node k is a child of p and the launcher's category.
pub fn is_launcher_child(
    t: &[u8],
    names: &[u32],
    area: &[u8],
    h: Head,
    items: &[u32],
    item_area: &[u8],
    nodes: &[u32],
    attributes: &[u32],
    count: u32,
    p: u32,
    k: u32,
) -> bool
    requires { Ready (tree_of h t.now (lends names.now area.now) items.now item_area.now nodes.now attributes.now count) ×
        (k < count) }
    ensures { result ≡ (eqb (parent_of nodes.now k) p && is_launcher
        (tree_of h t.now (lends names.now area.now) items.now
        item_area.now nodes.now attributes.now count) k) }
{
    if parent_at(nodes, k) != p {
        return false;
    }
    if !has_tag(t, names, area, h, nodes, b"category", k) {
        return false;
    }
    is_launching(
        t, names, area, h, items, item_area, nodes, attributes, count, k,
    )
}

// Whether node k is an activity or an alias.
fn is_activity(
    t: &[u8],
    names: &[u32],
    area: &[u8],
    h: Head,
    items: &[u32],
    item_area: &[u8],
    nodes: &[u32],
    attributes: &[u32],
    count: u32,
    k: u32,
) -> bool
    requires { Ready (tree_of h t.now (lends names.now area.now) items.now item_area.now nodes.now attributes.now count) ×
        (k < count) }
    ensures { result ≡ is_activity (tree_of h t.now (lends names.now area.now) items.now
        item_area.now nodes.now attributes.now count) k }
{
    if has_tag(t, names, area, h, nodes, b"activity", k) {
        return true;
    }
    has_tag(t, names, area, h, nodes, b"activity-alias", k)
}

// Whether node k is an activity or an alias that is not disabled.
pub fn is_enabled(
    t: &[u8],
    names: &[u32],
    area: &[u8],
    h: Head,
    items: &[u32],
    item_area: &[u8],
    nodes: &[u32],
    attributes: &[u32],
    count: u32,
    k: u32,
) -> bool
    requires { Ready (tree_of h t.now (lends names.now area.now) items.now item_area.now nodes.now attributes.now count) ×
        (k < count) }
    ensures { result ≡ is_enabled (tree_of h t.now (lends names.now area.now) items.now
        item_area.now nodes.now attributes.now count) k }
{
    if !is_activity(
        t, names, area, h, items, item_area, nodes, attributes, count, k,
    ) {
        return false;
    }
    !has_value(
        t, names, area, h, items, item_area, nodes, attributes, b"enabled", b"false", count, k,
    )
}
