// The tree in its two lent tables: elements open and close, and attributes are kept.
//
// Mirrors axml.rs (apk-info 13770539b8): the stack of elements of `get_xml_tree`, and its `HashSet` of attribute names.
// Definitions: specs/Inner/Tree.antt. Differs from the Rust: the stack is the parent words of the nodes, and what is dropped at the end is told by
// two numbers, the element open above the first and the attributes before it.
ghost use Rattle.std.specs.Prelude.{◌≡◌, ◌++◌, cond, false, ◌+◌, ◌*◌, ◌≤◌, ◌<◌, length, drop, take, get_or, eqb};
ghost use Rattle.records.specs.Words.{node_width, node_parent, attribute_width};
ghost use Rattle.records.specs.Repeats.{by_prefix, is_repeat};
ghost use Rattle.system_types.specs.Names.{lends};
ghost use Rattle.text.specs.Content.{same_name};
ghost use Rattle.text.specs.Inner.Found.{Asks};
ghost use Rattle.tables.specs.Inner.Keys.{key_by};
ghost use Rattle.tables.specs.Inner.Numbered.{Numbered};
ghost use Rattle.events.specs.declared.Event.TheVariants.{Attribute};
ghost use Rattle.walk.specs.Inner.Tree.{parent_of, opened_tree, closed_tree, kept_tree, opened_words, kept_nodes, kept_attributes, new_words};
ghost use Rattle.walk.specs.Inner.Tree.{front_of, Fit, Far, Puts, KeepsIn, AsksFor};

use common::StringIndex;
use errors::Refusal;
use records::{
    ATTRIBUTE_WORDS, NO_PARENT, NODE_COUNT, NODE_PARENT, attribute_place, node_place,
    put_attribute, put_node,
};
use tables::hash::key_of;
use tables::links::{FRONT_WORDS, front_of, is_far, link, seek};
use tables::{has, put_one};
use text::{Head, find};
use xml_elements::XmlAttributeElement;

// How many nodes and attributes are stored, how many attributes before those of the last node, the innermost open element, the one that is
// open above the first (0: none), and how many attributes were there before it.
#[derive(Clone, Copy, Default)]
pub struct Tree {
    pub nodes: u32,
    pub attributes: u32,
    pub first: u32,
    pub inner: u32,
    pub above_root: u32,
    pub attributes_before_it: u32,
}

impl Tree {
    fn opened(self) -> Tree
        requires { self.nodes < 4294967295 }
        ensures { result ≡ opened_tree self }
    {
        let n = self.nodes;
        if n == 0 {
            return Tree {
                nodes: 1,
                first: self.attributes,
                inner: 0,
                above_root: 0,
                attributes_before_it: 0,
                ..self
            };
        }
        let opened = Tree {
            nodes: n + 1,
            first: self.attributes,
            inner: n,
            ..self
        };
        if self.inner == 0 {
            return Tree {
                above_root: n,
                attributes_before_it: self.attributes,
                ..opened
            };
        }
        opened
    }

    fn closed(self, parent: u32) -> Tree
        ensures { result ≡ closed_tree self parent }
    {
        if parent == 0 {
            return Tree {
                inner: 0,
                above_root: 0,
                attributes_before_it: 0,
                ..self
            };
        }
        Tree {
            inner: parent,
            ..self
        }
    }

    fn kept(self) -> Tree
        requires { self.attributes < 4294967295 }
        ensures { result ≡ kept_tree self }
    {
        Tree {
            attributes: self.attributes + 1,
            ..self
        }
    }
}

fn parent_of(tree: Tree) -> u32
    ensures { result ≡ parent_of tree }
{
    if tree.nodes == 0 {
        return NO_PARENT;
    }
    tree.inner
}

// An element opens: its node is stored behind the others.
// Ruled out: a parent that is not the innermost open element, a count of attributes that is not 0, and another line than its start's.
pub fn open_node(nodes: &mut [u32], tree: Tree, name: StringIndex, fixed: u32, line: u32) -> Tree
    requires { (node_width * tree.nodes + node_width ≤ length nodes.old) × (tree.nodes < 4294967295) }
    ensures { (result ≡ opened_tree tree)
        × (nodes.new
        ≡ take (node_width * tree.nodes) nodes.old ++ opened_words tree name.0 fixed line ++ drop (node_width * tree.nodes + node_width) nodes.old) }
{
    put_node(
        nodes,
        node_place(tree.nodes),
        name.0,
        fixed,
        parent_of(tree),
        tree.attributes,
        0,
        line,
    );
    tree.opened()
}

// The innermost element closes and becomes a child of the one below; the first stays open for ever.
// Ruled out: the first closed, and an element open above the first after it was closed.
pub fn close_node(nodes: &[u32], tree: Tree) -> Tree
    requires { (tree.inner ≡ 0 → ⊥) → node_width * tree.inner + node_width ≤ length nodes.now }
    ensures { result ≡ cond (eqb tree.inner 0) tree (closed_tree tree (get_or nodes.now (node_width * tree.inner + node_parent) 0)) }
{
    let open = tree.inner;
    if open == 0 {
        return tree;
    }
    let i = node_place(open) + NODE_PARENT;
    tree.closed(nodes[i])
}

// A new attribute of the last node is stored behind the others, and the node counts it.
fn store(
    nodes: &mut [u32],
    attributes: &mut [u32],
    tree: Tree,
    prefix: u32,
    a: XmlAttributeElement,
) -> Tree
    requires { Fit nodes.old attributes.old tree × (0 < tree.nodes) × (attribute_width * tree.attributes + attribute_width ≤ length attributes.old) }
    ensures { Puts result tree prefix a nodes.old attributes.old nodes.new attributes.new }
{
    let name = a.name;
    let ns = a.namespace_uri;
    let last = tree.nodes - 1;
    put_attribute(
        attributes,
        attribute_place(tree.attributes),
        last,
        prefix,
        name.0,
        a.data_type,
        a.data,
        ns.0,
    );
    put_one(
        nodes,
        node_place(last) + NODE_COUNT,
        tree.attributes + 1 - tree.first,
    );
    tree.kept()
}

// The same as `keep` from the 33rd attribute of a node on, where it repeats none of the first 32: the others are linked, in the words behind the nodes.
fn keep_far(
    t: &[u8],
    names: &[u32],
    area: &[u8],
    h: Head,
    nodes: &mut [u32],
    attributes: &mut [u32],
    tree: Tree,
    prefix: u32,
    a: XmlAttributeElement,
    numbers: &mut [u64],
) -> Result<Option<Tree>, Refusal>
    requires { Asks t.now (lends names.now area.now) h × Fit nodes.old attributes.old tree × Far nodes.old tree
        × Numbered h t.now (lends names.now area.now) numbers.old }
    ensures { ((is_repeat (by_prefix (same_name h t.now (lends names.now area.now))) (new_words tree prefix a) (front_of tree attributes.old) ≡ false
        → KeepsIn (by_prefix (same_name h t.now (lends names.now area.now)))
        (key_by h t.now (lends names.now area.now)) result tree prefix a
        nodes.old attributes.old nodes.new attributes.new))
        × Numbered h t.now (lends names.now area.now) numbers.new }
{
    let from = attribute_place(tree.first) + FRONT_WORDS;
    let used = attribute_place(tree.attributes);
    let free = node_place(tree.nodes);
    let name = a.name;
    let ns = a.namespace_uri;
    let g = find(t, names, area, h, name);
    let key = key_of(t, names, area, h, prefix, name, g, ns, numbers);
    let Some(end) = seek(
        t,
        names,
        area,
        h,
        &attributes[from..used],
        &nodes[free..],
        key,
        prefix,
        name,
        ns,
        g,
        numbers,
    ) else {
        return Ok(None);
    };
    if attributes.len() - used < ATTRIBUTE_WORDS {
        return Err(Refusal::AttributesFull(attributes.len() / ATTRIBUTE_WORDS));
    }
    let u = store(nodes, attributes, tree, prefix, a);
    link(
        &mut nodes[free..],
        (used - from) / ATTRIBUTE_WORDS,
        key,
        end.at,
        end.left,
    );
    Ok(Some(u))
}

// An attribute of the last node: the tree with it, or None where it repeats one of that node's or there is no node, or the refusal where it has
// no place. `numbers` is what is known of long texts.
// Ruled out: a place asked for a repeat, and the node's count of attributes left as it was.
pub fn keep(
    t: &[u8],
    names: &[u32],
    area: &[u8],
    h: Head,
    nodes: &mut [u32],
    attributes: &mut [u32],
    tree: Tree,
    prefix: u32,
    a: XmlAttributeElement,
    numbers: &mut [u64],
) -> Result<Option<Tree>, Refusal>
    requires { AsksFor (Attribute prefix a) t.now (lends names.now area.now) h × Fit nodes.old attributes.old tree
        × Numbered h t.now (lends names.now area.now) numbers.old }
    ensures { KeepsIn (by_prefix (same_name h t.now (lends names.now area.now)))
        (key_by h t.now (lends names.now area.now)) result tree prefix a
        nodes.old attributes.old nodes.new attributes.new
        × Numbered h t.now (lends names.now area.now) numbers.new }
{
    let n = tree.nodes;
    if n == 0 {
        return Ok(None);
    }
    let from = attribute_place(tree.first);
    let used = attribute_place(tree.attributes);
    let name = a.name;
    let ns = a.namespace_uri;
    let far = is_far(used - from, nodes.len() - node_place(n));
    let front = front_of(far, used - from);
    if has(
        t,
        names,
        area,
        h,
        &attributes[from..from + front],
        prefix,
        name,
        ns,
        numbers,
    ) {
        return Ok(None);
    }
    if far {
        return keep_far(
            t, names, area, h, nodes, attributes, tree, prefix, a, numbers,
        );
    }
    // Asked here and in `keep_far`, and not once in `store`: from there a reading of real manifests took 8 in 100 longer.
    if attributes.len() - used < ATTRIBUTE_WORDS {
        return Err(Refusal::AttributesFull(attributes.len() / ATTRIBUTE_WORDS));
    }
    Ok(Some(store(nodes, attributes, tree, prefix, a)))
}

// How many nodes are kept at the end: all before the second open element (W29). Ruled out: a finished child of a dropped element counted, and
// none kept where the first alone is open.
pub fn kept_nodes(tree: Tree) -> u32
    ensures { result ≡ kept_nodes tree }
{
    if tree.above_root == 0 {
        return tree.nodes;
    }
    tree.above_root
}

// How many attributes are kept: those of the kept nodes. Ruled out: an attribute of a dropped node counted, and one of a kept node not.
pub fn kept_attributes(tree: Tree) -> u32
    ensures { result ≡ kept_attributes tree }
{
    if tree.above_root == 0 {
        return tree.attributes;
    }
    tree.attributes_before_it
}
