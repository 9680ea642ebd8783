// The step at a chunk: a start is begun, an end closes, a stretch of foreign chunks is passed whole, what is cut ends the walk.
// Each function follows the definition of its name in specs/Inner/Steps.antt.
ghost use Rattle.std.specs.Prelude.{◌≡◌, cond, ◌+◌, ◌≤◌, ◌<◌, length, drop, eqb};
ghost use Rattle.records.specs.Limits.{file_limit};
ghost use Rattle.xml_elements.specs.Chunk.{turn_of, len_of};
ghost use Rattle.xml_elements.specs.declared.Chunk.TheVariants.{Start, End, Other, Last};
ghost use Rattle.events.specs.Events.{foreign_note};
ghost use Rattle.events.specs.Inner.Steps.{begun_by, passed_to, closed_to, plain_next, chunk_step, cut_step, foreign_step, turn_step};
ghost use Rattle.events.specs.declared.Event.TheVariants.{Nothing, Close, Note};
ghost use Rattle.events.specs.declared.Phase.TheVariants.{AtGap};

use crate::moves::{begun_by, closed_to, passed_to, quiet_step};
use crate::{Cursor, Event, Phase, Step};
use anomaly::ResAnomaly;
use chunk::skip_run;
use xml_elements::{Chunk, CutChunk, Turn, XmlStartElement, look, trailing_of};

// ---- a whole chunk

// A start that makes none of the notes 6, 7, 8 goes to its name at once.
fn plain_next(s: XmlStartElement) -> Phase
    ensures { result ≡ plain_next s }
{
    if 20 < s.attribute_start {
        return Phase::AtGap;
    }
    if 20 < s.attribute_size {
        return Phase::AtGap;
    }
    if trailing_of(s) == 0 {
        return Phase::AtName;
    }
    Phase::AtGap
}

fn start_step(c: Cursor, s: XmlStartElement) -> Step
    ensures { result ≡ chunk_step c (Start s) }
{
    Step {
        event: Event::Nothing,
        cur: begun_by(c, s, 3, plain_next(s)),
    }
}

fn close_step(c: Cursor, at: usize) -> Step
    ensures { result ≡ record { event = Close; cur = closed_to c at } }
{
    Step {
        event: Event::Close,
        cur: closed_to(c, at),
    }
}

fn pass_step(c: Cursor, event: Event, at: usize) -> Step
    ensures { result ≡ record { event = event; cur = passed_to c at 2 } }
{
    Step {
        event,
        cur: passed_to(c, at, 2),
    }
}

fn skip_step(c: Cursor, at: usize) -> Step
    ensures { result ≡ record { event = Nothing; cur = passed_to c at 2 } }
{
    pass_step(c, Event::Nothing, at)
}

fn end_step(c: Cursor) -> Step
    requires { c.at + 24 ≤ file_limit }
    ensures { result ≡ chunk_step c End }
{
    close_step(c, c.at + 24)
}

fn other_step(c: Cursor, n: usize) -> Step
    requires { c.at + n ≤ file_limit }
    ensures { result ≡ chunk_step c (Other n) }
{
    skip_step(c, c.at + n)
}

// Beyond line and comment nothing of type 0x17f is passed.
fn unknown_step(c: Cursor) -> Step
    requires { c.at + 16 ≤ file_limit }
    ensures { result ≡ chunk_step c Last }
{
    pass_step(c, Event::Note(ResAnomaly::UnknownChunk(0x17f)), c.at + 16)
}

fn chunk_step(c: Cursor, x: Chunk) -> Step
    requires { c.at + len_of x ≤ file_limit }
    ensures { result ≡ chunk_step c x }
{
    match x {
        Chunk::Start(s) => start_step(c, s),
        Chunk::End => end_step(c),
        Chunk::Other(n) => other_step(c, n),
        Chunk::Last => unknown_step(c),
    }
}

// ---- a cut chunk

fn begin_step(c: Cursor, s: XmlStartElement, reach: u32) -> Step
    ensures { result ≡ record { event = Nothing; cur = begun_by c s reach AtGap } }
{
    Step {
        event: Event::Nothing,
        cur: begun_by(c, s, reach, Phase::AtGap),
    }
}

// With n the body's length. An end whose 8 bytes are cut closes all the same.
fn cut_step(n: usize, c: Cursor, x: CutChunk) -> Step
    ensures { result ≡ cut_step n c x }
{
    match x {
        CutChunk::CutLine | CutChunk::CutHead => quiet_step(c, Phase::AtShort),
        CutChunk::CutGap(s) => begin_step(c, s, 0),
        CutChunk::CutAttributes(s) => begin_step(c, s, 1),
        CutChunk::CutTrailing(s) => begin_step(c, s, 2),
        CutChunk::CutEnd => close_step(c, n),
        CutChunk::CutOther => skip_step(c, n),
    }
}

// ---- a foreign chunk

fn number_note(sort: u32, number: u32) -> ResAnomaly
    ensures { result ≡ foreign_note sort number }
{
    if sort == 0 {
        ResAnomaly::NonXmlChunk(number)
    } else {
        ResAnomaly::XmlNodeHeaderSize(number)
    }
}

// One note for each stretch of one sort.
fn foreign_note(run: u32, sort: u32, number: u32) -> Event
    ensures { result ≡ cond (eqb sort run) Nothing (Note (foreign_note sort number)) }
{
    if sort == run {
        Event::Nothing
    } else {
        Event::Note(number_note(sort, number))
    }
}

fn foreign_step(b: &[u8], c: Cursor, sort: u32, number: u32, n: usize) -> Step
    requires { (c.at + n ≤ length b.now) × (length b.now ≤ file_limit) }
    ensures { result ≡ foreign_step b.now c sort number n }
{
    let at = skip_run(b, c.at + n, sort);
    Step {
        event: foreign_note(c.run, sort, number),
        cur: passed_to(c, at, sort),
    }
}

// ---- what stands here

pub fn turn_step(b: &[u8], c: Cursor) -> Step
    requires { (c.at ≤ length b.now) × (length b.now ≤ file_limit) }
    ensures { result ≡ turn_step b.now c (turn_of (drop c.at b.now)) }
{
    match look(&b[c.at..]) {
        Turn::Stop => quiet_step(c, Phase::AtLast),
        Turn::Foreign(sort, number, used) => foreign_step(b, c, sort, number, used),
        Turn::Met(x) => chunk_step(c, x),
        Turn::Cut(x) => cut_step(b.len(), c, x),
    }
}
