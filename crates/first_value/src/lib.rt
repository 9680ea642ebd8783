// The first value of a tag and a name: a question to tables that a reading, or anyone, has filled.
//
// Mirrors axml.rs (apk-info 13770539b8), `get_attribute_value`, without resolving references. Answers: a `FirstValue`, or a refusal.
// Definitions: specs/Question.antt. Differs from the Rust: the tree is two lent tables, which may hold any words, so they are looked at
// before they are searched; head and names are checked again at each call.
#![tactic(auto)]

pub mod called;
pub mod once;
pub mod runs;

ghost use Rattle.std.specs.Prelude.{◌≡◌, ◌*◌, ◌≤◌, length, Ok};
ghost use Rattle.records.specs.Words.{node_width, attribute_width};
ghost use Rattle.system_types.specs.Names.{lends};
ghost use Rattle.text.specs.Inner.Found.{Asks};
ghost use Rattle.first_value.specs.Question.{fit_of, found_by, find_node, find_value, value_by, fitted_by, shared_of, FirstReads};
ghost use Rattle.first_value.specs.Inner.Run.{RunFits};

use called::is_named;
use common::{StringIndex, is_reference, value_type_of};
use errors::{FirstValue, Refusal};
use head::{open_file, tables_of};
use once::{OTHERS, is_tagged_once};
use records::{
    ATTRIBUTE_DATA, ATTRIBUTE_NAME, ATTRIBUTE_PREFIX, ATTRIBUTE_TYPE, NODE_COUNT, NODE_FIRST,
    NODE_FIXED, NODE_NAME, attribute_place, node_place,
};
use runs::fit_of;
use text::Head;

// ---- the search

// The attributes of the first node of that tag: the first one's number, and how many. A name that was found to be another is not looked up again (once.rt).
// Ruled out: a later node where the first has no attributes.
pub fn find_node(
    t: &[u8],
    names: &[u32],
    area: &[u8],
    h: Head,
    tag: &[u8],
    nodes: &[u32],
    count: u32,
) -> Option<(u32, u32)>
    requires { Asks t.now (lends names.now area.now) h × (node_width * count ≤ length nodes.now) }
    ensures { result ≡ find_node h t.now (lends names.now area.now) tag.now count nodes.now }
{
    let mut others = [0u64; OTHERS];
    for k in 0..count {
        let at = node_place(k);
        if is_tagged_once(
            t,
            names,
            area,
            h,
            tag,
            &mut others,
            nodes[at + NODE_FIXED],
            StringIndex(nodes[at + NODE_NAME]),
        ) {
            return Some((nodes[at + NODE_FIRST], nodes[at + NODE_COUNT]));
        }
    }
    None
}

fn found(kind: u32, value: u32) -> Result<FirstValue, Refusal>
    ensures { result ≡ found_by kind value }
{
    let reference = is_reference(value_type_of(kind));
    Ok(FirstValue {
        kind,
        data: value,
        reference,
    })
}

// The value of the first attribute of that name, among the `count` attributes of one node, whose words `attributes` begins with.
fn find_value(
    t: &[u8],
    names: &[u32],
    area: &[u8],
    h: Head,
    name: &[u8],
    attributes: &[u32],
    count: u32,
) -> Result<FirstValue, Refusal>
    requires { Asks t.now (lends names.now area.now) h × (attribute_width * count ≤ length attributes.now) }
    ensures { result ≡ find_value h t.now (lends names.now area.now) name.now count attributes.now }
{
    for k in 0..count {
        let at = attribute_place(k);
        if is_named(
            t,
            names,
            area,
            h,
            name,
            attributes[at + ATTRIBUTE_PREFIX],
            StringIndex(attributes[at + ATTRIBUTE_NAME]),
        ) {
            return found(
                attributes[at + ATTRIBUTE_TYPE],
                attributes[at + ATTRIBUTE_DATA],
            );
        }
    }
    Err(Refusal::NothingFound)
}

// In the attributes of a node that was found, which lie in the table. Ruled out: a value where no node was found.
pub fn value_of(
    t: &[u8],
    names: &[u32],
    area: &[u8],
    h: Head,
    name: &[u8],
    attributes: &[u32],
    node: Option<(u32, u32)>,
) -> Result<FirstValue, Refusal>
    requires { Asks t.now (lends names.now area.now) h × RunFits attributes.now node }
    ensures { result ≡ value_by h t.now (lends names.now area.now) name.now attributes.now node }
{
    let Some((first, number)) = node else {
        return Err(Refusal::NothingFound);
    };
    find_value(
        t,
        names,
        area,
        h,
        name,
        &attributes[attribute_place(first)..],
        number,
    )
}

// In tables that fit, a node's attributes lie inside.
fn value_in(
    t: &[u8],
    names: &[u32],
    area: &[u8],
    h: Head,
    nodes: &[u32],
    attributes: &[u32],
    tag: &[u8],
    name: &[u8],
    node_count: u32,
    attribute_count: u32,
) -> Result<FirstValue, Refusal>
    requires { Asks t.now (lends names.now area.now) h × (fit_of nodes.now attributes.now node_count attribute_count ≡ (Ok tt)) }
    ensures { result ≡ value_by h t.now (lends names.now area.now) name.now attributes.now
        (find_node h t.now (lends names.now area.now) tag.now node_count nodes.now) }
{
    let node = find_node(t, names, area, h, tag, nodes, node_count);
    value_of(t, names, area, h, name, attributes, node)
}

// ---- what is asked once, however many questions follow

// A head beside tables that fit, or 13. Ruled out: a head beside tables that do not.
pub fn fitted(h: Head, fit: Result<(), u32>) -> Result<Head, Refusal>
    ensures { result ≡ fitted_by h fit }
{
    fit.map(|()| h).map_err(|k| Refusal::TablesError(k))
}

// The head of a file whose lent tables fit their counts, or the first refusal: the names and the head first, then the tables.
// Ruled out: 13 for a file that is refused itself, and a head beside tables that do not fit.
pub fn open_tables(
    file: &[u8],
    names: &[u32],
    area: &[u8],
    nodes: &[u32],
    attributes: &[u32],
    node_count: u32,
    attribute_count: u32,
) -> Result<Head, Refusal>
    ensures { result ≡ shared_of file.now (lends names.now area.now) nodes.now attributes.now
        node_count attribute_count }
{
    let h = open_file(file, names, area)?;
    fitted(h, fit_of(nodes, attributes, node_count, attribute_count))
}

// ---- the question

// Type and data of the first attribute of that name on the first node of that tag, and whether the type is a reference. The tables may
// hold any words; the answer tells the first that is amiss: 2, 7, 1, 3, those of
// the head, then 13 (the tables, all nodes up to the count) and 12.
// Ruled out: the value of a later node where the first of that tag has no such attribute, and a value where a node behind it does not fit.
pub fn first_value(
    file: &[u8],
    names: &[u32],
    area: &[u8],
    nodes: &[u32],
    attributes: &[u32],
    tag: &[u8],
    name: &[u8],
    node_count: u32,
    attribute_count: u32,
) -> Result<FirstValue, Refusal>
    ensures { FirstReads file.now (lends names.now area.now) nodes.now attributes.now
        tag.now name.now node_count attribute_count result }
{
    let h = open_tables(
        file,
        names,
        area,
        nodes,
        attributes,
        node_count,
        attribute_count,
    )?;
    value_in(
        tables_of(file, h),
        names,
        area,
        h,
        nodes,
        attributes,
        tag,
        name,
        node_count,
        attribute_count,
    )
}
