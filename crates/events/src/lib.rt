// What a file makes, one step at a time: elements that open and close, attributes, notes, refusals.
//
// Mirrors axml.rs (apk-info 13770539b8): `get_xml_tree`, without its stack. Each step makes one event, or none, and hands the cursor on.
// Answers: `Step`. Definitions: specs/Events.antt (what a file makes), specs/Inner/Steps.antt and specs/Inner/Pending.antt (how the code goes).
// That the steps make what the file makes, one by one and to the end, is the law `stepped` (proofs/Steps.antt).
// In moves.rt: where the cursor goes; in notes.rt: notes that a test lets pass; in turns.rt: a chunk; in naming.rt: elements and attributes;
// in memory.rt: names that were looked at.
#![tactic(auto)]

ghost use Rattle.std.specs.Prelude.{◌≡◌, ◌+◌, ◌≤◌, ◌<◌};
ghost use Rattle.system_types.specs.Names.{lends};
ghost use Rattle.events.specs.Events.{names_in};
ghost use Rattle.events.specs.Inner.Steps.{first_cursor, step_of};
ghost use Rattle.events.specs.Inner.Pending.{Ready, Within};
ghost use Rattle.events.specs.Inner.Remembered.{Remembers};

use anomaly::ResAnomaly;
use common::StringIndex;
use errors::Refusal;
use head::Opened;
use xml_elements::{XmlAttributeElement, XmlStartElement};

pub mod memory;
mod moves;
mod naming;
mod notes;
mod turns;

use moves::over_step;
use naming::{attribute_step, lead_step, name_step, named_step, open_step};
use notes::{
    count_step, gap_step, garbage_step, last_step, offsets_step, refuse_step, root_step,
    short_step, size_step, trailing_step,
};
use turns::turn_step;

// What a step makes.
#[derive(Clone, Copy)]
pub enum Event {
    Nothing,
    // name, 1 for `invalid-element`, line
    Open(StringIndex, u32, u32),
    // prefix, attribute
    Attribute(u32, XmlAttributeElement),
    // an attribute without a text for its name
    LeftOut(StringIndex),
    Close,
    Note(ResAnomaly),
    Refuse(Refusal),
    // nothing is left
    Finish,
}

// Where the reading is: in the head, at a chunk, at one of the things that a start makes in turn, or behind the last chunk.
#[derive(Clone, Copy)]
pub enum Phase {
    AtGarbage,
    AtCount,
    AtOffsets,
    AtRefuse,
    AtChunk,
    AtGap,
    AtSize,
    AtTrailing,
    AtShort,
    AtName,
    AtNamed,
    AtOpen,
    AtLead,
    AtAttribute,
    AtLast,
    AtRoot,
    Over,
}

#[derive(Clone, Copy)]
pub struct Cursor {
    // place in the body
    pub at: usize,
    // the sort of the foreign chunk before, 2 where there is none
    pub run: u32,
    pub depth: u32,
    // starts read whole
    pub starts: u32,
    pub phase: Phase,
    // the start that is being read, and how many of its parts are there (3: all)
    pub start: XmlStartElement,
    pub reach: u32,
    // its attributes that are left
    pub left: u32,
}

#[derive(Clone, Copy)]
pub struct Step {
    pub event: Event,
    pub cur: Cursor,
}

// The cursor before the head: from here the steps make all that the file makes.
// Ruled out: a cursor that has met a start, and one behind the head's notes.
pub fn first_cursor() -> Cursor
    ensures { result ≡ first_cursor }
{
    let start = XmlStartElement {
        size: 0,
        line: 0,
        name: StringIndex(0),
        attribute_start: 0,
        attribute_size: 0,
        attribute_count: 0,
    };
    Cursor {
        at: 0,
        run: 2,
        depth: 0,
        starts: 0,
        phase: Phase::AtGarbage,
        start,
        reach: 0,
        left: 0,
    }
}

// One step of a file whose head is o: t is the bytes behind its header, b its body, names and area the lent system names, `mode` the
// reading's, `memory` what is known of its names.
// Ruled out: a second note for a stretch of foreign chunks of one sort, and an end whose 8 bytes are cut that closes nothing.
pub fn step_at(
    t: &[u8],
    names: &[u32],
    area: &[u8],
    mode: u32,
    o: Opened,
    b: &[u8],
    c: Cursor,
    memory: &mut [u32],
) -> Step
    requires { Ready t.now (lends names.now area.now) o × Within o b.now c
        × Remembers o.head t.now (lends names.now area.now) memory.old }
    ensures { (result ≡ step_of (names_in mode o.head t.now (lends names.now area.now)) o t.now b.now c)
        × Remembers o.head t.now (lends names.now area.now) memory.new }
{
    let h = o.head;
    match c.phase {
        Phase::AtGarbage => garbage_step(o, c),
        Phase::AtCount => count_step(o, c),
        Phase::AtOffsets => offsets_step(t, o, c),
        Phase::AtRefuse => refuse_step(o, c),
        Phase::AtChunk => turn_step(b, c),
        Phase::AtGap => gap_step(c),
        Phase::AtSize => size_step(c),
        Phase::AtTrailing => trailing_step(c),
        Phase::AtShort => short_step(c),
        Phase::AtName => name_step(t, names, area, h, c, memory),
        Phase::AtNamed => named_step(t, names, area, h, c, memory),
        Phase::AtOpen => open_step(c, 1),
        Phase::AtLead => lead_step(c),
        Phase::AtAttribute => attribute_step(t, names, area, h, mode, b, c, memory),
        Phase::AtLast => last_step(c),
        Phase::AtRoot => root_step(c),
        Phase::Over => over_step(c),
    }
}
