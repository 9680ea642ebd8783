// Which screens a launcher starts: the names of the activities and aliases with a main intent filter, as attribute numbers in a lent list.
//
// Mirrors axml.rs (apk-info 13770539b8), `get_main_activities`. Answers: how many there are, or a refusal.
// Definitions: specs/Activities.antt. Differs from the Rust: the tree is two lent tables, which may hold any words, so a child is told by the
// order of the records too (docs/FORMAT.md, S2), and one pass over the nodes answers, each function going on where the one that it called stopped.
#![tactic(auto)]

pub mod says;
pub mod tests;

ghost use Rattle.std.specs.Prelude.{◌≡◌, cond, ◌&&◌, ◌+◌, ◌*◌, ◌≤◌, ◌<◌, length, replicate, eqb, Err};
ghost use mathlib.Core.List.{List, [], ◌∷◌, ◌++◌, flat_map};
ghost use Rattle.records.specs.Words.{node_width};
ghost use Rattle.system_types.specs.Names.{lends};
ghost use Rattle.main_activities.specs.Activities.{tree_of, parent_of, children_of, any_of, is_main, is_launcher, is_filter, starts, given, in_application};
ghost use Rattle.main_activities.specs.Activities.{number_by, attribute_of, name_name, main_activities, main_open, main_numbers_of, MainReads};
ghost use Rattle.main_activities.specs.Inner.Pass.{Ready, Within, Holds, Gives};

use errors::{Refusal, refusal_number, refusal_value};
use first_value::fitted;
use first_value::runs::fit_of;
use head::tables_of;
use tables::{zero_all, zero_from};
use tests::{find_named, has_tag, is_enabled, is_launcher_child, is_main_child, parent_at};
use text::Head;
use value_text::open_value;

// The numbers of an answer of `main_activities`.
#[derive(Clone, Copy)]
pub struct MainNumbers {
    pub refusal: u32,
    pub value: u64,
    pub count: u64,
}

// The node to go on with, and whether what was looked for stands before it. No Option: there is a node to go on with in both cases, and a loop
// that goes on at it is no `for`.
#[derive(Clone, Copy)]
pub struct Scan {
    pub next: u32,
    pub yes: bool,
}

// The node to go on with, and how many names were found so far.
#[derive(Clone, Copy)]
pub struct Going {
    pub next: u32,
    pub found: usize,
}

// The numbers of an answer. Ruled out: a count beside a refusal, and a refusal that is told by its value alone.
#[tactic(auto, unfolding(crate::specs::Activities::main_numbers_of))]
pub fn main_numbers(a: Result<usize, Refusal>) -> MainNumbers
    ensures { result ≡ main_numbers_of a }
{
    match a {
        Ok(n) => MainNumbers {
            refusal: 0,
            value: 0,
            count: n as u64,
        },
        Err(e) => MainNumbers {
            refusal: refusal_number(e),
            value: refusal_value(e),
            count: 0,
        },
    }
}

// ---- a filter

// The children of the filter f: whether one is the main action and one the launcher's category.
fn scan_filter(
    t: &[u8],
    names: &[u32],
    area: &[u8],
    h: Head,
    items: &[u32],
    item_area: &[u8],
    nodes: &[u32],
    attributes: &[u32],
    count: u32,
    f: u32,
) -> Scan
    requires { Ready (tree_of h t.now (lends names.now area.now) items.now item_area.now nodes.now attributes.now count) ×
        (f < count) }
    ensures { Within (tree_of h t.now (lends names.now area.now) items.now
        item_area.now nodes.now attributes.now count) f result.next
        × (result.yes ≡ (any_of (is_main (tree_of h t.now (lends names.now area.now) items.now
        item_area.now nodes.now attributes.now count))
        (children_of (tree_of h t.now (lends names.now area.now) items.now
        item_area.now nodes.now attributes.now count) f)
        && any_of (is_launcher (tree_of h t.now (lends names.now area.now) items.now
        item_area.now nodes.now attributes.now count))
        (children_of (tree_of h t.now (lends names.now area.now) items.now
        item_area.now nodes.now attributes.now count) f))) }
{
    let mut main = false;
    let mut launcher = false;
    for k in f + 1..count {
        if parent_at(nodes, k) < f {
            return Scan {
                next: k,
                yes: main & launcher,
            };
        }
        let m = is_main_child(
            t, names, area, h, items, item_area, nodes, attributes, count, f, k,
        );
        let l = is_launcher_child(
            t, names, area, h, items, item_area, nodes, attributes, count, f, k,
        );
        main = main | m;
        launcher = launcher | l;
    }
    Scan {
        next: count,
        yes: main & launcher,
    }
}

// Node k, of an activity a: whether it is a filter of it that has both.
fn filter_child(
    t: &[u8],
    names: &[u32],
    area: &[u8],
    h: Head,
    items: &[u32],
    item_area: &[u8],
    nodes: &[u32],
    attributes: &[u32],
    count: u32,
    a: u32,
    k: u32,
) -> Scan
    requires { Ready (tree_of h t.now (lends names.now area.now) items.now item_area.now nodes.now attributes.now count) ×
        (k < count) }
    ensures { Within (tree_of h t.now (lends names.now area.now) items.now
        item_area.now nodes.now attributes.now count) k result.next
        × (result.yes ≡ (eqb (parent_of nodes.now k) a && is_filter
        (tree_of h t.now (lends names.now area.now) items.now
        item_area.now nodes.now attributes.now count) k)) }
{
    if parent_at(nodes, k) != a {
        return Scan {
            next: k + 1,
            yes: false,
        };
    }
    if !has_tag(t, names, area, h, nodes, b"intent-filter", k) {
        return Scan {
            next: k + 1,
            yes: false,
        };
    }
    scan_filter(
        t, names, area, h, items, item_area, nodes, attributes, count, k,
    )
}

// ---- an activity

// The children of the activity a, up to the first filter that has both.
fn scan_activity(
    t: &[u8],
    names: &[u32],
    area: &[u8],
    h: Head,
    items: &[u32],
    item_area: &[u8],
    nodes: &[u32],
    attributes: &[u32],
    count: u32,
    a: u32,
) -> Scan
    requires { Ready (tree_of h t.now (lends names.now area.now) items.now item_area.now nodes.now attributes.now count) ×
        (a < count) }
    ensures { Within (tree_of h t.now (lends names.now area.now) items.now
        item_area.now nodes.now attributes.now count) a result.next
        × (result.yes ≡ any_of (is_filter (tree_of h t.now (lends names.now area.now) items.now
        item_area.now nodes.now attributes.now count))
        (children_of (tree_of h t.now (lends names.now area.now) items.now
        item_area.now nodes.now attributes.now count) a)) }
{
    let mut k = a + 1;
    while k < count {
        if parent_at(nodes, k) < a {
            return Scan {
                next: k,
                yes: false,
            };
        }
        let s = filter_child(
            t, names, area, h, items, item_area, nodes, attributes, count, a, k,
        );
        if s.yes {
            return s;
        }
        k = s.next;
    }
    Scan {
        next: k,
        yes: false,
    }
}

// Node k, of an application p: whether it is an activity or an alias of it that starts.
fn activity_child(
    t: &[u8],
    names: &[u32],
    area: &[u8],
    h: Head,
    items: &[u32],
    item_area: &[u8],
    nodes: &[u32],
    attributes: &[u32],
    count: u32,
    p: u32,
    k: u32,
) -> Scan
    requires { Ready (tree_of h t.now (lends names.now area.now) items.now item_area.now nodes.now attributes.now count) ×
        (k < count) }
    ensures { Within (tree_of h t.now (lends names.now area.now) items.now
        item_area.now nodes.now attributes.now count) k result.next
        × (result.yes ≡ (eqb (parent_of nodes.now k) p && starts
        (tree_of h t.now (lends names.now area.now) items.now
        item_area.now nodes.now attributes.now count) k)) }
{
    if parent_at(nodes, k) != p {
        return Scan {
            next: k + 1,
            yes: false,
        };
    }
    if !is_enabled(
        t, names, area, h, items, item_area, nodes, attributes, count, k,
    ) {
        return Scan {
            next: k + 1,
            yes: false,
        };
    }
    scan_activity(
        t, names, area, h, items, item_area, nodes, attributes, count, k,
    )
}

// ---- the list

// One number more, where the list has a place for it; where it has none, one more than it has places is told.
fn put_number(list: &mut [u32], n: usize, j: u32) -> usize
    ensures { (z after : List _) → Holds z (j ∷ after) list.old n → Holds z after list.new result }
{
    if n < list.len() {
        list[n] = j;
        return n + 1;
    }
    list.len() + 1
}

// The name of node k, if it starts and has one.
fn put_given(
    t: &[u8],
    names: &[u32],
    area: &[u8],
    h: Head,
    items: &[u32],
    item_area: &[u8],
    nodes: &[u32],
    attributes: &[u32],
    list: &mut [u32],
    count: u32,
    n: usize,
    k: u32,
    yes: bool,
) -> usize
    requires { Ready (tree_of h t.now (lends names.now area.now) items.now item_area.now nodes.now attributes.now count) ×
        (k < count) }
    ensures { (z after : List _) → Holds z
        (cond yes (number_by (attribute_of (tree_of h t.now (lends names.now area.now) items.now
        item_area.now nodes.now attributes.now count) name_name k)) [] ++ after) list.old n
        → Holds z after list.new result }
{
    if !yes {
        return n;
    }
    let Some(j) = find_named(
        t, names, area, h, items, item_area, nodes, attributes, b"name", count, k,
    ) else {
        return n;
    };
    put_number(list, n, j)
}

// ---- an application

// The children of the application p: the name of each that starts, behind the n that were found before.
fn scan_application(
    t: &[u8],
    names: &[u32],
    area: &[u8],
    h: Head,
    items: &[u32],
    item_area: &[u8],
    nodes: &[u32],
    attributes: &[u32],
    list: &mut [u32],
    count: u32,
    n: usize,
    p: u32,
) -> Going
    requires { Ready (tree_of h t.now (lends names.now area.now) items.now item_area.now nodes.now attributes.now count) ×
        (p < count) }
    ensures { Within (tree_of h t.now (lends names.now area.now) items.now
        item_area.now nodes.now attributes.now count) p result.next
        × ((z after : List _) → Holds z (flat_map (given
        (tree_of h t.now (lends names.now area.now) items.now
        item_area.now nodes.now attributes.now count))
        (children_of (tree_of h t.now (lends names.now area.now) items.now
        item_area.now nodes.now attributes.now count) p) ++ after) list.old n
        → Holds z after list.new result.found) }
{
    let mut k = p + 1;
    let mut found = n;
    while k < count {
        if parent_at(nodes, k) < p {
            return Going { next: k, found };
        }
        let s = activity_child(
            t, names, area, h, items, item_area, nodes, attributes, count, p, k,
        );
        found = put_given(
            t, names, area, h, items, item_area, nodes, attributes, list, count, found, k, s.yes,
        );
        k = s.next;
    }
    Going { next: k, found }
}

// Node k: if it is an application below the first node, its activities.
fn application_child(
    t: &[u8],
    names: &[u32],
    area: &[u8],
    h: Head,
    items: &[u32],
    item_area: &[u8],
    nodes: &[u32],
    attributes: &[u32],
    list: &mut [u32],
    count: u32,
    n: usize,
    k: u32,
) -> Going
    requires { Ready (tree_of h t.now (lends names.now area.now) items.now item_area.now nodes.now attributes.now count) ×
        (k < count) }
    ensures { Within (tree_of h t.now (lends names.now area.now) items.now
        item_area.now nodes.now attributes.now count) k result.next
        × ((z after : List _) → Holds z (cond (eqb (parent_of nodes.now k) 0)
        (in_application (tree_of h t.now (lends names.now area.now) items.now
        item_area.now nodes.now attributes.now count) k) [] ++ after) list.old n
        → Holds z after list.new result.found) }
{
    if parent_at(nodes, k) != 0 {
        return Going {
            next: k + 1,
            found: n,
        };
    }
    if !has_tag(t, names, area, h, nodes, b"application", k) {
        return Going {
            next: k + 1,
            found: n,
        };
    }
    scan_application(
        t, names, area, h, items, item_area, nodes, attributes, list, count, n, k,
    )
}

// ---- the question

// All nodes behind the first, in one pass: the names at the front of the list, and how many there are, one more than its places where it is full.
fn list_all(
    t: &[u8],
    names: &[u32],
    area: &[u8],
    h: Head,
    items: &[u32],
    item_area: &[u8],
    nodes: &[u32],
    attributes: &[u32],
    list: &mut [u32],
    count: u32,
) -> usize
    requires { Ready (tree_of h t.now (lends names.now area.now) items.now item_area.now nodes.now attributes.now count) }
    ensures { Holds (main_activities (tree_of h t.now (lends names.now area.now) items.now
        item_area.now nodes.now attributes.now count)) [] list.new result }
{
    let mut k = 1;
    let mut found: usize = 0;
    while k < count {
        let g = application_child(
            t, names, area, h, items, item_area, nodes, attributes, list, count, found, k,
        );
        found = g.found;
        k = g.next;
    }
    found
}

// Zeros all over, and the refusal.
fn refuse(list: &mut [u32], why: Refusal) -> Result<usize, Refusal>
    ensures { (result ≡ Err why) × (list.new ≡ replicate (length list.old) 0) }
{
    zero_all(list);
    Err(why)
}

// The names that stand at the front of the list and zeros behind them, or 28.
fn settle(list: &mut [u32], n: usize) -> Result<usize, Refusal>
    ensures { (z : List _) → Holds z [] list.old n → Gives (length list.old) z result list.new }
{
    let places = list.len();
    if places < n {
        return refuse(list, Refusal::ListFull(places));
    }
    zero_from(list, n);
    Ok(n)
}

// Of an open file beside tables that fit.
fn main_in(
    t: &[u8],
    names: &[u32],
    area: &[u8],
    h: Head,
    items: &[u32],
    item_area: &[u8],
    nodes: &[u32],
    attributes: &[u32],
    list: &mut [u32],
    count: u32,
) -> Result<usize, Refusal>
    requires { Ready (tree_of h t.now (lends names.now area.now) items.now item_area.now nodes.now attributes.now count) }
    ensures { Gives (length list.old)
        (main_activities (tree_of h t.now (lends names.now area.now) items.now
        item_area.now nodes.now attributes.now count)) result list.new }
{
    let n = list_all(
        t, names, area, h, items, item_area, nodes, attributes, list, count,
    );
    settle(list, n)
}

// The head of a file whose names and items keep their rules and whose tables fit their counts, or the first refusal.
// Ruled out: 13 for a file that is refused itself, and a head beside tables that do not fit.
fn open_main(
    file: &[u8],
    names: &[u32],
    area: &[u8],
    items: &[u32],
    item_area: &[u8],
    nodes: &[u32],
    attributes: &[u32],
    node_count: u32,
    attribute_count: u32,
) -> Result<Head, Refusal>
    ensures { result ≡ main_open file.now (lends names.now area.now) items.now item_area.now
        nodes.now attributes.now node_count attribute_count }
{
    let h = open_value(file, names, area, items, item_area)?;
    fitted(h, fit_of(nodes, attributes, node_count, attribute_count))
}

// The attribute numbers of the names of the activities and aliases that a launcher starts, in `list`, in the order of the tree, zeros behind
// them; on a refusal zeros alone. The tables may hold any words; the answer tells the first that is amiss: 2, 7, 14, 1, 3, those of the head,
// then 13 (the tables) and 28 (more names than places).
// Ruled out: every activity, two filters that have one each counted together, and the front of the list kept beside 28.
pub fn main_activities(
    file: &[u8],
    names: &[u32],
    area: &[u8],
    items: &[u32],
    item_area: &[u8],
    nodes: &[u32],
    attributes: &[u32],
    list: &mut [u32],
    node_count: u32,
    attribute_count: u32,
) -> Result<usize, Refusal>
    ensures { MainReads file.now (lends names.now area.now) items.now item_area.now
        nodes.now attributes.now list.old node_count attribute_count result list.new }
{
    let opened = open_main(
        file,
        names,
        area,
        items,
        item_area,
        nodes,
        attributes,
        node_count,
        attribute_count,
    );
    match opened {
        Ok(h) => main_in(
            tables_of(file, h),
            names,
            area,
            h,
            items,
            item_area,
            nodes,
            attributes,
            list,
            node_count,
        ),
        Err(why) => refuse(list, why),
    }
}
