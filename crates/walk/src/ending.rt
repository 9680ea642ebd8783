// The ends of a reading: a refusal, a success, a note that is to be written, and the note table cleared place by place.
//
// Definitions: specs/Inner/Outcome.antt. The Rust has none of this: its tables are its own, and it refuses with `Result`.
ghost use Rattle.std.specs.Prelude.{◌≡◌, ◌<◌, get_or};
ghost use Rattle.anomaly.specs.Note.{kind_index};
ghost use Rattle.walk.specs.Inner.Outcome.{clearing_at, clear_next, noted_by, Refuses, Keepable, Finishes, Noted};

use crate::tree::{Tree, kept_attributes, kept_nodes};
use crate::{NO_NOTE, Stage, State};
use anomaly::{ResAnomaly, kind_index, note_of};
use errors::{ReadCounts, Refusal};
use events::Cursor;
use records::{attribute_place, node_place};
use tables::{zero_all, zero_from};

// The answer is known, and the note table is to be cleared from the place `from` on.
fn to_clear(st: State, from: usize, answer: Result<ReadCounts, Refusal>) -> State
    ensures { result ≡ clearing_at st from answer }
{
    State {
        done: st.room <= from,
        slot: from,
        note: NO_NOTE,
        stage: Stage::Clearing(answer),
        ..st
    }
}

// The next place to clear, where there is one. Ruled out: a place passed over, and one behind the last.
pub fn clear_next(st: State, answer: Result<ReadCounts, Refusal>) -> State
    ensures { result ≡ clear_next st answer }
{
    if st.slot < st.room {
        return to_clear(st, st.slot + 1, answer);
    }
    to_clear(st, st.slot, answer)
}

// A refusal leaves zeros only. Ruled out: a word of a table kept, and the note table cleared from the notes on.
pub fn refuse(nodes: &mut [u32], attributes: &mut [u32], st: State, x: Refusal) -> State
    ensures { Refuses nodes.old attributes.old st x result nodes.new attributes.new }
{
    zero_all(nodes);
    zero_all(attributes);
    to_clear(st, 0, Err(x))
}

// A success leaves the kept records and zeros behind them.
// Ruled out: a node of a dropped element kept, and the records counted that were dropped.
pub fn finish(nodes: &mut [u32], attributes: &mut [u32], st: State, tree: Tree) -> State
    requires { Keepable nodes.old attributes.old st tree }
    ensures { Finishes nodes.old attributes.old st tree result nodes.new attributes.new }
{
    let k = kept_nodes(tree);
    let a = kept_attributes(tree);
    zero_from(nodes, node_place(k));
    zero_from(attributes, attribute_place(a));
    let counts = ReadCounts {
        starts: tree.nodes,
        nodes: k,
        attributes: a,
        notes: st.notes.used as u32,
    };
    to_clear(st, st.notes.used, Ok(counts))
}

// A note is to be written: it is counted, and its place is the next.
fn noted(st: State, cur: Cursor, tree: Tree, x: ResAnomaly) -> State
    requires { (get_or st.notes.counts (kind_index x) 0 < st.cap) × (st.notes.used < st.room) }
    ensures { result ≡ noted_by st cur tree x }
{
    State {
        done: false,
        slot: st.notes.used,
        note: note_of(x),
        stage: Stage::Reading,
        cur,
        tree,
        notes: st.notes.stored(kind_index(x)),
        ..st
    }
}

// A note within its cap is written where it has a place; else it refuses (B4).
// Ruled out: a note written behind the last place, and a refusal that keeps the notes before it.
pub fn note_due(
    nodes: &mut [u32],
    attributes: &mut [u32],
    st: State,
    cur: Cursor,
    tree: Tree,
    x: ResAnomaly,
) -> State
    requires { get_or st.notes.counts (kind_index x) 0 < st.cap }
    ensures { Noted nodes.old attributes.old st cur tree x result nodes.new attributes.new }
{
    if st.notes.used < st.room {
        return noted(st, cur, tree, x);
    }
    refuse(nodes, attributes, st, Refusal::NotesFull(st.room))
}
