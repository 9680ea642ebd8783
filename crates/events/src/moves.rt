// Where the cursor goes, and steps that only change its phase. Each function gives what the definition of its name in specs/Inner/Steps.antt gives.
ghost use Rattle.std.specs.Prelude.{◌≡◌, ◌-◌, ◌≤◌, ◌<◌};
ghost use Rattle.records.specs.Limits.{file_limit};
ghost use Rattle.events.specs.Inner.Steps.{to_phase, begun_by, passed_to, closed_to, left_next, behind_of, opened_by, moved_by, after_open, to_step};
ghost use Rattle.events.specs.declared.Event.TheVariants.{Nothing, Finish};
ghost use Rattle.events.specs.declared.Phase.TheVariants.{Over};

use crate::{Cursor, Event, Phase, Step};
use xml_elements::{XmlStartElement, attributes_at, stride_of, trailing_of};

// The same place, another phase.
pub fn to_phase(c: Cursor, phase: Phase) -> Cursor
    ensures { result ≡ to_phase c phase }
{
    Cursor { phase, ..c }
}

// At a start of which `reach` parts are there.
pub fn begun_by(c: Cursor, start: XmlStartElement, reach: u32, phase: Phase) -> Cursor
    ensures { result ≡ begun_by c start reach phase }
{
    Cursor {
        phase,
        start,
        reach,
        ..c
    }
}

// To the place `at`, behind a chunk of the sort `run`.
pub fn passed_to(c: Cursor, at: usize, run: u32) -> Cursor
    ensures { result ≡ passed_to c at run }
{
    Cursor {
        at,
        run,
        phase: Phase::AtChunk,
        ..c
    }
}

// To the place `at`, behind an end: the depth falls by one, not below 0.
pub fn closed_to(c: Cursor, at: usize) -> Cursor
    ensures { result ≡ closed_to c at }
{
    Cursor {
        at,
        run: 2,
        depth: c.depth.saturating_sub(1),
        phase: Phase::AtChunk,
        ..c
    }
}

fn left_next(left: u32) -> Phase
    ensures { result ≡ left_next left }
{
    if left == 0 {
        Phase::AtChunk
    } else {
        Phase::AtAttribute
    }
}

// What lies behind the attributes, once none is left.
fn behind_of(s: XmlStartElement, left: u32) -> usize
    ensures { (result ≡ behind_of s left) × (result < 4294967296) }
{
    if left == 0 {
        trailing_of(s) as usize
    } else {
        0
    }
}

// Past the start's own bytes, at its attributes.
pub fn opened_by(c: Cursor) -> Cursor
    requires { (c.at ≤ file_limit) × (c.depth ≤ file_limit) × (c.starts ≤ file_limit) }
    ensures { result ≡ opened_by c }
{
    let start = c.start;
    let left = u32::from(start.attribute_count);
    Cursor {
        at: c.at + attributes_at(start) + behind_of(start, left),
        run: 2,
        depth: c.depth + 1,
        starts: c.starts + 1,
        phase: left_next(left),
        left,
        ..c
    }
}

// Past one attribute.
pub fn moved_by(c: Cursor) -> Cursor
    requires { (c.at ≤ file_limit) × (0 < c.left) }
    ensures { result ≡ moved_by c }
{
    let start = c.start;
    let left = c.left - 1;
    Cursor {
        at: c.at + stride_of(start) + behind_of(start, left),
        phase: left_next(left),
        left,
        ..c
    }
}

// Behind the element: the first has a leading attribute.
pub fn after_open(c: Cursor) -> Cursor
    requires { (c.at ≤ file_limit) × (c.depth ≤ file_limit) × (c.starts ≤ file_limit) }
    ensures { result ≡ after_open c }
{
    if c.starts == 0 {
        to_phase(c, Phase::AtLead)
    } else {
        opened_by(c)
    }
}

// ---- steps

// The event, and the same place at another phase.
pub fn to_step(c: Cursor, event: Event, phase: Phase) -> Step
    ensures { result ≡ to_step c event phase }
{
    Step {
        event,
        cur: to_phase(c, phase),
    }
}

// No event, the same place at another phase.
pub fn quiet_step(c: Cursor, phase: Phase) -> Step
    ensures { result ≡ to_step c Nothing phase }
{
    to_step(c, Event::Nothing, phase)
}

// Once all is made.
pub fn over_step(c: Cursor) -> Step
    ensures { result ≡ to_step c Finish Over }
{
    to_step(c, Event::Finish, Phase::Over)
}
