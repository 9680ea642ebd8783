// Events are put away one by one, until one is for the caller.
//
// Mirrors axml.rs (apk-info 13770539b8): the body of the loop of `get_xml_tree`.
// Definitions: specs/Inner/Tree.antt, specs/Inner/Run.antt. Differs from the Rust: a record without a place refuses.
ghost use Rattle.std.specs.Prelude.{◌≡◌};
ghost use Rattle.records.specs.Repeats.{Rule, by_prefix};
ghost use Rattle.system_types.specs.Names.{lends};
ghost use Rattle.text.specs.Content.{same_name};
ghost use Rattle.tables.specs.Inner.Keys.{Key, key_by};
ghost use Rattle.tables.specs.Inner.Numbered.{Numbered};
ghost use Rattle.events.specs.declared.Event.TheVariants.{Open, Attribute, Close};
ghost use Rattle.head.specs.Head.{tables_in};
ghost use Rattle.events.specs.Inner.Remembered.{Remembers};
ghost use Rattle.walk.specs.declared.placing.Stop.TheVariants.{Full};
ghost use Rattle.walk.specs.Inner.Tree.{Fit, Places, NotEnd, AsksFor};
ghost use Rattle.walk.specs.Inner.Run.{Running, RanOn, RunningIn, RanIn};

use crate::tree::{Tree, close_node, keep, open_node};
use anomaly::ResAnomaly;
use common::StringIndex;
use errors::Refusal;
use events::{Cursor, Event, step_at};
use head::{Opened, body_of, tables_of};
use records::{NODE_WORDS, node_place};
use text::Head;
use xml_elements::XmlAttributeElement;

// Why an event is not put away, so that `run` stops: it refuses, it is a note for the caller, or nothing is left.
#[derive(Clone, Copy)]
pub enum Stop {
    Full(Refusal),
    Due(ResAnomaly),
    Finished,
}

impl From<Refusal> for Stop {
    ghost from_gives = { λ x r. r ≡ Full x };

    fn from(x: Refusal) -> Stop {
        Stop::Full(x)
    }
}

// Where `run` stopped, and why.
#[derive(Clone, Copy)]
pub struct Halt {
    pub cur: Cursor,
    pub tree: Tree,
    pub stop: Stop,
}

// An element opens, where its node has a place.
fn open_place(
    nodes: &mut [u32],
    attributes: &[u32],
    tree: Tree,
    name: StringIndex,
    fixed: u32,
    line: u32,
) -> Result<Tree, Stop>
    requires { Fit nodes.old attributes.now tree }
    ensures { (rule : Rule) (key : Key) → Places rule key result nodes.old attributes.now tree (Open name fixed line)
        nodes.new attributes.now }
{
    if nodes.len() - node_place(tree.nodes) < NODE_WORDS {
        return Err(Stop::Full(Refusal::NodesFull(nodes.len() / NODE_WORDS)));
    }
    Ok(open_node(nodes, tree, name, fixed, line))
}

// The innermost element closes.
fn close_place(nodes: &[u32], attributes: &[u32], tree: Tree) -> Result<Tree, Stop>
    requires { Fit nodes.now attributes.now tree }
    ensures { (rule : Rule) (key : Key) → Places rule key result nodes.now attributes.now tree Close
        nodes.now attributes.now }
{
    Ok(close_node(nodes, tree))
}

// An attribute is kept, where it is no repeat and has a place.
fn keep_place(
    t: &[u8],
    names: &[u32],
    area: &[u8],
    h: Head,
    nodes: &mut [u32],
    attributes: &mut [u32],
    tree: Tree,
    prefix: u32,
    a: XmlAttributeElement,
    numbers: &mut [u64],
) -> Result<Tree, Stop>
    requires { AsksFor (Attribute prefix a) t.now (lends names.now area.now) h × Fit nodes.old attributes.old tree
        × Numbered h t.now (lends names.now area.now) numbers.old }
    ensures { Places (by_prefix (same_name h t.now (lends names.now area.now)))
        (key_by h t.now (lends names.now area.now)) result
        nodes.old attributes.old tree (Attribute prefix a) nodes.new attributes.new
        × Numbered h t.now (lends names.now area.now) numbers.new }
{
    let kept = keep(
        t, names, area, h, nodes, attributes, tree, prefix, a, numbers,
    )?;
    Ok(kept.unwrap_or(tree))
}

// Puts an event away. Ruled out: a refusal for an attribute that is left out, and a note taken for the end.
pub fn place(
    t: &[u8],
    names: &[u32],
    area: &[u8],
    h: Head,
    nodes: &mut [u32],
    attributes: &mut [u32],
    tree: Tree,
    e: Event,
    numbers: &mut [u64],
) -> Result<Tree, Stop>
    requires { AsksFor e t.now (lends names.now area.now) h × Fit nodes.old attributes.old tree
        × Numbered h t.now (lends names.now area.now) numbers.old }
    ensures { Places (by_prefix (same_name h t.now (lends names.now area.now)))
        (key_by h t.now (lends names.now area.now)) result
        nodes.old attributes.old tree e nodes.new attributes.new × NotEnd result e
        × Numbered h t.now (lends names.now area.now) numbers.new }
{
    match e {
        Event::Nothing => Ok(tree),
        Event::Open(name, fixed, line) => open_place(nodes, attributes, tree, name, fixed, line),
        Event::Attribute(prefix, a) => keep_place(
            t, names, area, h, nodes, attributes, tree, prefix, a, numbers,
        ),
        Event::LeftOut(_) => Ok(tree),
        Event::Close => close_place(nodes, attributes, tree),
        Event::Note(x) => Err(Stop::Due(x)),
        Event::Refuse(x) => Err(Stop::Full(x)),
        Event::Finish => Err(Stop::Finished),
    }
}

// Puts events away until a note falls due, something is refused, or nothing is left. t is the bytes that texts are read from, b the
// body, `mode` that of the reading, `memory` what is known of its names, `numbers` of its long texts.
// Ruled out: a note passed over, and a stop before the end with none due.
pub fn run(
    t: &[u8],
    names: &[u32],
    area: &[u8],
    mode: u32,
    o: Opened,
    b: &[u8],
    nodes: &mut [u32],
    attributes: &mut [u32],
    memory: &mut [u32],
    c: Cursor,
    tree: Tree,
    numbers: &mut [u64],
) -> Halt
    requires { Running t.now (lends names.now area.now) b.now o nodes.old attributes.old c tree
        × Remembers o.head t.now (lends names.now area.now) memory.old
        × Numbered o.head t.now (lends names.now area.now) numbers.old }
    ensures { RanOn mode t.now (lends names.now area.now) b.now o nodes.old attributes.old c tree result
        nodes.new attributes.new
        × Remembers o.head t.now (lends names.now area.now) memory.new
        × Numbered o.head t.now (lends names.now area.now) numbers.new }
{
    let mut cur = c;
    let mut grown = tree;
    loop {
        let s = step_at(t, names, area, mode, o, b, cur, memory);
        match place(
            t, names, area, o.head, nodes, attributes, grown, s.event, numbers,
        ) {
            Ok(u) => {
                cur = s.cur;
                grown = u;
            }
            Err(stop) => {
                return Halt {
                    cur: s.cur,
                    tree: grown,
                    stop,
                };
            }
        }
    }
}

// The same as `run` over a whole file, which is split behind the head.
// Ruled out: texts read from the body, and the last byte of the map walked.
pub fn run_in(
    file: &[u8],
    names: &[u32],
    area: &[u8],
    mode: u32,
    o: Opened,
    nodes: &mut [u32],
    attributes: &mut [u32],
    memory: &mut [u32],
    c: Cursor,
    tree: Tree,
    numbers: &mut [u64],
) -> Halt
    requires { RunningIn file.now (lends names.now area.now) o nodes.old attributes.old c tree
        × Remembers o.head (tables_in file.now o.head) (lends names.now area.now) memory.old
        × Numbered o.head (tables_in file.now o.head) (lends names.now area.now) numbers.old }
    ensures { RanIn mode file.now (lends names.now area.now) o nodes.old attributes.old c tree result
        nodes.new attributes.new
        × Remembers o.head (tables_in file.now o.head) (lends names.now area.now) memory.new
        × Numbered o.head (tables_in file.now o.head) (lends names.now area.now) numbers.new }
{
    let t = tables_of(file, o.head);
    let b = body_of(file, o.head);
    run(
        t, names, area, mode, o, b, nodes, attributes, memory, c, tree, numbers,
    )
}
