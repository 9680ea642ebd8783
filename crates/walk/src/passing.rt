// Foreign chunks whose notes are past their cap are passed at once.
//
// Mirrors axml.rs (apk-info 13770539b8): `skip_run` and the notes that `Anomalies::push` drops. Definitions: specs/Inner/Pass.antt.
// Differs from the Rust: once both sorts of foreign chunks are at their cap, a stretch of both is one loop, and none of its notes is made.
ghost use Rattle.std.specs.Prelude.{ℕ, ◌≡◌, ◌≤◌, ◌<◌, length, IfSome};
ghost use Rattle.head.specs.Head.{body_in};
ghost use Rattle.events.specs.Inner.Steps.{passed_to};
ghost use Rattle.events.specs.Inner.Pending.{Within};
ghost use Rattle.walk.specs.Inner.Pass.{Reaches, PassesOn};

use anomaly::{Notes, ResAnomaly, kind_index};
use chunk::run_used;
use events::{Cursor, Phase};
use head::{Opened, body_of};

// A place in the body, and the sort of the foreign chunk before it.
#[derive(Clone, Copy)]
pub struct Reach {
    pub at: usize,
    pub run: u32,
}

// Past a foreign chunk of either sort, where one stands at `at`, whatever stood before it.
fn pass_one(b: &[u8], at: usize) -> Option<Reach>
    requires { at ≤ length b.now }
    ensures { IfSome result (λ r. (at < r.at) × ((run : ℕ) → Reaches b.now at run r.at r.run)) }
{
    let n = run_used(b, at, 0);
    if 0 < n {
        return Some(Reach { at: at + n, run: 0 });
    }
    let m = run_used(b, at, 1);
    if 0 < m {
        return Some(Reach { at: at + m, run: 1 });
    }
    None
}

// Past all foreign chunks from `from` on, of either sort.
// Ruled out: a place behind a chunk that is looked into, and the sort of the chunk before where one was passed.
pub fn pass_foreign(b: &[u8], from: usize, before: u32) -> Reach
    requires { from ≤ length b.now }
    ensures { Reaches b.now from before result.at result.run }
{
    let mut reach = Reach {
        at: from,
        run: before,
    };
    while let Some(next) = pass_one(b, reach.at) {
        reach = next;
    }
    reach
}

fn passed_to(c: Cursor, r: Reach) -> Cursor
    ensures { result ≡ passed_to c r.at r.run }
{
    Cursor {
        at: r.at,
        run: r.run,
        phase: Phase::AtChunk,
        ..c
    }
}

// The cursor behind the foreign chunks that stand at it, where the notes of both their sorts are past their cap.
// Ruled out: a chunk passed whose note is due, and a start or an end passed.
pub fn pass_in(file: &[u8], o: Opened, notes: Notes, cap: u32, c: Cursor) -> Cursor
    requires { Within o (body_in file.now o.head) c }
    ensures { PassesOn (body_in file.now o.head) cap notes.counts c result }
{
    if notes.is_due(cap, kind_index(ResAnomaly::NonXmlChunk(0))) {
        return c;
    }
    if notes.is_due(cap, kind_index(ResAnomaly::XmlNodeHeaderSize(0))) {
        return c;
    }
    match c.phase {
        Phase::AtChunk => passed_to(c, pass_foreign(body_of(file, o.head), c.at, c.run)),
        _ => c,
    }
}
