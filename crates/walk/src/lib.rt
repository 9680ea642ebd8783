// The reading of a file into lent tables of nodes and attributes. It stops at each note, for the caller to write into the note table.
//
// Mirrors axml.rs (apk-info 13770539b8): `AXML::new` and `get_xml_tree`. tree.rt keeps the tree, placing.rt puts events away, passing.rt
// passes chunks that change nothing, ending.rt ends a reading. Definitions: specs/Reading.antt and specs/Settle.antt say what comes back,
// the others what the code does on its way.
// Differs from the Rust: tables are lent and have limited room, and the caller writes the notes.
#![tactic(auto)]

pub mod ending;
pub mod passing;
pub mod placing;
pub mod tree;

ghost use Rattle.std.specs.Prelude.{◌≡◌};
ghost use Rattle.system_types.specs.Names.{lends};
ghost use Rattle.walk.specs.declared.Stage.TheVariants.{Fresh, Reading as InBody};
ghost use Rattle.walk.specs.Inner.Outcome.{first, started_by, StateOk, AdvanceKeeps, Answers};
ghost use Rattle.walk.specs.Inner.KnownSoFar.{KnownSoFar};

use anomaly::{Note, Notes, kind_index};
use ending::{clear_next, finish, note_due, refuse};
use errors::{ReadCounts, Refusal};
pub use events::memory::MEMORY;
use events::{Cursor, first_cursor};
use head::{Asker, HeadEnd, Opened, enter};
use passing::pass_in;
use placing::{Stop, run_in};
pub use tables::numbers::NUMBERS;
use text::Head;
use tree::Tree;

// How far a reading has come. Before its last stage there is no answer.
#[derive(Clone, Copy)]
pub enum Stage {
    // nothing is read
    Fresh,
    // the head is opened, and events come
    Reading,
    // the answer is known, and the note table is cleared
    Clearing(Result<ReadCounts, Refusal>),
}

// The reader between two notes: whether all is done, the place and the note that the caller is to write, how many places the note table has
// and how many notes of a kind are kept, the mode, the stage, the head, where the reading stands, the tree and the note state.
#[derive(Clone, Copy)]
pub struct State {
    pub done: bool,
    pub slot: usize,
    pub note: Note,
    pub room: usize,
    pub cap: u32,
    pub mode: u32,
    pub stage: Stage,
    pub opened: Opened,
    pub cur: Cursor,
    pub tree: Tree,
    pub notes: Notes,
}

// What a place of the note table holds where there is no note.
pub const NO_NOTE: Note = Note {
    kind: 0,
    a: 0,
    b: 0,
};

// The state before the first call, for a note table of `room` places, `cap` notes of each kind, and the mode of the reading.
// Ruled out: a state that has counted notes, and one that takes the head for opened.
pub fn begin(room: usize, cap: u32, mode: u32) -> State
    ensures { result ≡ first room cap mode }
{
    let opened = Opened {
        garbage: None,
        declared: 0,
        end: HeadEnd::Whole,
        head: Head {
            utf16: false,
            count: 0,
            offsets: 0,
            strings: 0,
            size: 0,
            map: 0,
            ids: 0,
        },
    };
    State {
        done: false,
        slot: 0,
        note: NO_NOTE,
        room,
        cap,
        mode,
        stage: Stage::Fresh,
        opened,
        cur: first_cursor(),
        tree: Tree::default(),
        notes: Notes::new(),
    }
}

// The head is opened, and the reading begins.
fn started(st: State, opened: Opened) -> State
    ensures { result ≡ started_by st opened }
{
    State {
        stage: Stage::Reading,
        opened,
        ..begin(st.room, st.cap, st.mode)
    }
}

// Reads on behind the head, to the next note that is kept or to the answer.
fn read_on(
    file: &[u8],
    names: &[u32],
    area: &[u8],
    nodes: &mut [u32],
    attributes: &mut [u32],
    st: State,
    memory: &mut [u32],
    numbers: &mut [u64],
) -> State
    requires { StateOk file.now (lends names.now area.now) nodes.old attributes.old st × (st.stage ≡ InBody)
        × KnownSoFar file.now (lends names.now area.now) st memory.old numbers.old }
    ensures { AdvanceKeeps file.now (lends names.now area.now) nodes.old attributes.old st result
        nodes.new attributes.new
        × KnownSoFar file.now (lends names.now area.now) result memory.new numbers.new }
{
    let mut cur = st.cur;
    let mut tree = st.tree;
    loop {
        let halt = run_in(
            file, names, area, st.mode, st.opened, nodes, attributes, memory, cur, tree, numbers,
        );
        cur = halt.cur;
        tree = halt.tree;
        match halt.stop {
            Stop::Full(x) => return refuse(nodes, attributes, st, x),
            Stop::Finished => return finish(nodes, attributes, st, tree),
            Stop::Due(x) => {
                if st.notes.is_due(st.cap, kind_index(x)) {
                    return note_due(nodes, attributes, st, cur, tree, x);
                }
                cur = pass_in(file, st.opened, st.notes, st.cap, cur);
            }
        }
    }
}

// The first call: the way in (B2), with the cap and the mode, and then the file.
fn start(
    file: &[u8],
    names: &[u32],
    area: &[u8],
    nodes: &mut [u32],
    attributes: &mut [u32],
    st: State,
    memory: &mut [u32],
    numbers: &mut [u64],
) -> State
    requires { StateOk file.now (lends names.now area.now) nodes.old attributes.old st × (st.stage ≡ Fresh)
        × KnownSoFar file.now (lends names.now area.now) st memory.old numbers.old }
    ensures { AdvanceKeeps file.now (lends names.now area.now) nodes.old attributes.old st result
        nodes.new attributes.new
        × KnownSoFar file.now (lends names.now area.now) result memory.new numbers.new }
{
    match enter(file, names, area, Asker::Reading(st.cap, st.mode)) {
        Err(x) => refuse(nodes, attributes, st, x),
        Ok(opened) => read_on(
            file,
            names,
            area,
            nodes,
            attributes,
            started(st, opened),
            memory,
            numbers,
        ),
    }
}

// The answer of a reading that has one; a state without an answer is not asked, and what it gives of one is not promised.
// Ruled out: another answer than the one that the reading came to.
pub fn answer_of(st: State) -> Result<ReadCounts, Refusal>
    ensures { Answers st result }
{
    match st.stage {
        Stage::Fresh | Stage::Reading => Err(Refusal::MissingRoot),
        Stage::Clearing(answer) => answer,
    }
}

// Reads on until a place of the note table is to be written, or nothing is left to do. `memory` and `numbers` hold what is known of names and of long
// texts: zeros before the first call, and what the call before left at each later one, so that nothing is looked at again because of a note.
// Ruled out: a call that loses what was read before it, calls without end, and something known of another file.
pub fn advance_knowing(
    file: &[u8],
    names: &[u32],
    area: &[u8],
    nodes: &mut [u32],
    attributes: &mut [u32],
    st: State,
    memory: &mut [u32],
    numbers: &mut [u64],
) -> State
    requires { StateOk file.now (lends names.now area.now) nodes.old attributes.old st
        × KnownSoFar file.now (lends names.now area.now) st memory.old numbers.old }
    ensures { AdvanceKeeps file.now (lends names.now area.now) nodes.old attributes.old st result
        nodes.new attributes.new
        × KnownSoFar file.now (lends names.now area.now) result memory.new numbers.new }
{
    match st.stage {
        Stage::Fresh => start(file, names, area, nodes, attributes, st, memory, numbers),
        Stage::Reading => read_on(file, names, area, nodes, attributes, st, memory, numbers),
        Stage::Clearing(answer) => clear_next(st, answer),
    }
}

// The same with nothing known at each call: for a caller that has no place for what is known between two notes.
// Ruled out: what `advance_knowing` rules out.
pub fn advance(
    file: &[u8],
    names: &[u32],
    area: &[u8],
    nodes: &mut [u32],
    attributes: &mut [u32],
    st: State,
) -> State
    requires { StateOk file.now (lends names.now area.now) nodes.old attributes.old st }
    ensures { AdvanceKeeps file.now (lends names.now area.now) nodes.old attributes.old st result
        nodes.new attributes.new }
{
    let mut memory = [0u32; MEMORY];
    let mut numbers = [0u64; NUMBERS];
    advance_knowing(
        file,
        names,
        area,
        nodes,
        attributes,
        st,
        &mut memory,
        &mut numbers,
    )
}
