// Steps that make a note or a refusal where a test says so: of the head, of a start's numbers, and behind the walk.
// Each `.._next` gives the phase that follows; specs/Inner/Steps.antt has the steps by the same names.
ghost use Rattle.std.specs.Prelude.{◌≡◌, cond, ◌&&◌, not, ltb, eqb};
ghost use Rattle.text.specs.Inner.Found.{Fits};
ghost use Rattle.head.specs.Head.{refusal_of};
ghost use Rattle.events.specs.Inner.Steps.{to_step, note_if, garbage_event, garbage_step, pool_next, count_step, map_next, offsets_step};
ghost use Rattle.events.specs.Inner.Steps.{gap_step, size_step, trailing_step, last_step, root_step};
ghost use Rattle.events.specs.declared.Event.TheVariants.{Note, Refuse};
ghost use Rattle.events.specs.declared.Phase.TheVariants.{AtShort, AtSize, AtTrailing, AtName, AtLast, Over};
ghost use Rattle.anomaly.specs.declared.ResAnomaly.TheVariants.{StringPoolGarbageChunk, StringCountMismatch, StringOffsetsOutOfBounds};
ghost use Rattle.anomaly.specs.declared.ResAnomaly.TheVariants.{AttributeStartShifted, AttributeSizeMismatch, ElementTrailingBytes};
ghost use Rattle.anomaly.specs.declared.ResAnomaly.TheVariants.{TruncatedXml, UnclosedElements};
ghost use Rattle.errors.specs.declared.Refusal.TheVariants.{MissingRoot};

use crate::moves::{quiet_step, to_step};
use crate::{Cursor, Event, Phase, Step};
use anomaly::ResAnomaly;
use errors::Refusal;
use head::{HeadEnd, Opened, outside_in, refusal_of};
use res_string_pool::Garbage;
use xml_elements::trailing_of;

// A note where a test says so.
fn note_if(test: bool, note: ResAnomaly) -> Event
    ensures { result ≡ note_if test (Note note) }
{
    if test {
        Event::Note(note)
    } else {
        Event::Nothing
    }
}

// ---- the head

fn garbage_event(garbage: Option<Garbage>) -> Event
    ensures { result ≡ garbage_event garbage }
{
    match garbage {
        Some(g) => Event::Note(ResAnomaly::StringPoolGarbageChunk(g.kind, g.skipped)),
        None => Event::Nothing,
    }
}

pub fn garbage_step(o: Opened, c: Cursor) -> Step
    ensures { result ≡ garbage_step o c }
{
    to_step(c, garbage_event(o.garbage), Phase::AtCount)
}

fn pool_next(e: HeadEnd) -> Phase
    ensures { result ≡ pool_next e }
{
    match e {
        HeadEnd::Whole | HeadEnd::MapShort(_) => Phase::AtOffsets,
        HeadEnd::TooSmall(_) | HeadEnd::HeaderSize(_) | HeadEnd::PoolShort(_) => Phase::AtRefuse,
    }
}

pub fn count_step(o: Opened, c: Cursor) -> Step
    ensures { result ≡ count_step o c }
{
    let count = o.head.count;
    let note = ResAnomaly::StringCountMismatch(o.declared, count);
    to_step(c, note_if(o.declared != count, note), pool_next(o.end))
}

fn map_next(e: HeadEnd) -> Phase
    ensures { result ≡ map_next e }
{
    match e {
        HeadEnd::Whole => Phase::AtChunk,
        HeadEnd::TooSmall(_)
        | HeadEnd::HeaderSize(_)
        | HeadEnd::PoolShort(_)
        | HeadEnd::MapShort(_) => Phase::AtRefuse,
    }
}

pub fn offsets_step(t: &[u8], o: Opened, c: Cursor) -> Step
    requires { Fits t.now o.head }
    ensures { result ≡ offsets_step t.now o c }
{
    let outside = outside_in(t, o.head);
    let note = ResAnomaly::StringOffsetsOutOfBounds(outside);
    to_step(c, note_if(outside != 0, note), map_next(o.end))
}

pub fn refuse_step(o: Opened, c: Cursor) -> Step
    ensures { result ≡ to_step c (Refuse (refusal_of o.end)) Over }
{
    to_step(c, Event::Refuse(refusal_of(o.end)), Phase::Over)
}

// ---- a start's numbers

fn gap_next(reach: u32) -> Phase
    ensures { result ≡ cond (eqb reach 0) AtShort AtSize }
{
    if reach == 0 {
        Phase::AtShort
    } else {
        Phase::AtSize
    }
}

pub fn gap_step(c: Cursor) -> Step
    ensures { result ≡ gap_step c }
{
    let start = c.start.attribute_start;
    let note = ResAnomaly::AttributeStartShifted(u32::from(start));
    to_step(c, note_if(20 < start, note), gap_next(c.reach))
}

fn size_next(reach: u32) -> Phase
    ensures { result ≡ cond (ltb reach 2) AtShort AtTrailing }
{
    if reach < 2 {
        Phase::AtShort
    } else {
        Phase::AtTrailing
    }
}

pub fn size_step(c: Cursor) -> Step
    ensures { result ≡ size_step c }
{
    let size = c.start.attribute_size;
    let note = ResAnomaly::AttributeSizeMismatch(u32::from(size));
    let test = (c.start.attribute_count != 0) & (20 < size);
    to_step(c, note_if(test, note), size_next(c.reach))
}

fn trailing_next(reach: u32) -> Phase
    ensures { result ≡ cond (eqb reach 3) AtName AtShort }
{
    if reach == 3 {
        Phase::AtName
    } else {
        Phase::AtShort
    }
}

pub fn trailing_step(c: Cursor) -> Step
    ensures { result ≡ trailing_step c }
{
    let trailing = trailing_of(c.start);
    let note = ResAnomaly::ElementTrailingBytes(trailing);
    to_step(c, note_if(trailing != 0, note), trailing_next(c.reach))
}

pub fn short_step(c: Cursor) -> Step
    ensures { result ≡ to_step c (Note TruncatedXml) AtLast }
{
    to_step(c, Event::Note(ResAnomaly::TruncatedXml), Phase::AtLast)
}

// ---- behind the walk

pub fn last_step(c: Cursor) -> Step
    ensures { result ≡ last_step c }
{
    let note = ResAnomaly::UnclosedElements(c.depth);
    to_step(c, note_if(c.depth != 0, note), Phase::AtRoot)
}

pub fn root_step(c: Cursor) -> Step
    ensures { result ≡ root_step c }
{
    if c.starts == 0 {
        to_step(c, Event::Refuse(Refusal::MissingRoot), Phase::Over)
    } else {
        quiet_step(c, Phase::Over)
    }
}
