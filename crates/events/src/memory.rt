// What a look at the text of an index tells of a name, with what is known of the indices that came before: a file uses few names, and one that comes
// again is not looked at again.
//
// Mirrors axml.rs (apk-info 13770539b8): the names that `get_xml_tree` keeps as valid. Definitions: specs/Inner/Remembered.antt.
// Differs from the Rust: indices are kept and not names, in fixed memory that the caller lends for a reading, and names that are not valid too.
ghost use Rattle.std.specs.Prelude.{◌≡◌, ◌+◌, ◌≤◌, ◌<◌, length};
ghost use Rattle.records.specs.Limits.{file_limit};
ghost use Rattle.system_types.specs.Names.{lends};
ghost use Rattle.text.specs.Content.{content_of, state_in};
ghost use Rattle.text.specs.Inner.Found.{Asks, Inside, part_of};
ghost use Rattle.text.specs.declared.Found.TheVariants.{Pool};
ghost use Rattle.events.specs.Inner.Remembered.{look_by, look_of, state_by, strings, words, Remembers};

use common::StringIndex;
use text::apart::LONG;
use text::part::found_state;
use text::{Found, Head, NameState, find, found_whole, state_of_found};

// How many indices are kept, each at the place that the remainder of its number gives; a later one takes the place over.
const INDICES: usize = 1024;

// Behind the words of the indices stand those of 512 long strings of the pool, whatever their indices are: for each where it begins and its look, and
// behind these for each its length.
const STRINGS: usize = 512;

const LENGTHS: usize = 1536;

// All words of a memory.
pub const MEMORY: usize = 2048;

// How many places are looked at for a string of so many bytes: the longer it is, the more it costs to look at it again. From 32,768 on all of them.
fn near_of(n: usize) -> usize
    ensures { result ≤ strings }
{
    STRINGS.min(n / 64)
}

// Of two places that at which the shorter string is kept.
fn shorter(memory: &[u32], p: usize, q: usize) -> usize
    requires { (length memory.now ≡ words) × (p < strings) × (q < strings) }
    ensures { result < strings }
{
    if memory[LENGTHS + p] < memory[LENGTHS + q] {
        p
    } else {
        q
    }
}

// The place of a string that begins at `at`, among so many from the one that `at` gives: where one is kept that begins there, else the first that is
// free, else that of the shortest.
fn place_of(memory: &[u32], at: u32, near: usize) -> usize
    requires { (length memory.now ≡ words) × (near ≤ strings) }
    ensures { result < strings }
{
    let home = at as usize / LONG;
    let mut least = home % STRINGS;
    for k in 0..near {
        let p = (home + k) % STRINGS;
        let seen = memory[INDICES + p];
        if seen == 0 || seen / 16 == at {
            return p;
        }
        least = shorter(memory, p, least);
    }
    least
}

// A look as one number. Ruled out: one number for a whole text and a damaged one, and for a valid name and another.
fn look_by(state: u32, name: NameState) -> u32
    requires { state ≤ 3 }
    ensures { result ≡ look_by state name }
{
    match name {
        NameState::NoText => 8,
        NameState::Invalid => 2 * state,
        NameState::Valid => 2 * state + 1,
    }
}

// The look at a text that is not a valid name and whole: its state and its name are asked each for itself.
fn look_again(t: &[u8], area: &[u8], utf16: bool, f: Found) -> u32
    requires { Inside t.now area.now f }
    ensures { result ≡ look_of (part_of utf16 t.now area.now f) }
{
    let state = state_of_found(t, area, utf16, f);
    let name = found_state(t, area, utf16, f);
    look_by(state, name)
}

// The look at what was found. A valid name that is whole is passed over once.
// Ruled out: 1 for FF in a UTF-8 pool, whose text is a valid name and not whole; 8 for a string that is cut, which is a text.
fn look_found(t: &[u8], area: &[u8], utf16: bool, f: Found) -> u32
    requires { Inside t.now area.now f }
    ensures { result ≡ look_of (part_of utf16 t.now area.now f) }
{
    if found_whole(t, area, utf16, f) {
        return 1;
    }
    look_again(t, area, utf16, f)
}

// The look at a long string of the pool, by what is remembered where it came before, whatever its index was. A longer string keeps its place, so
// that short ones do not drive it out.
// Ruled out: what is known of a string that begins at the same byte and is shorter, and of another that has the place.
fn look_pool(
    t: &[u8],
    names: &[u32],
    area: &[u8],
    h: Head,
    at: usize,
    n: usize,
    memory: &mut [u32],
) -> u32
    requires { (length t.now ≤ file_limit) × (at + n ≤ length t.now) × Remembers h t.now (lends names.now area.now) memory.old }
    ensures { (result ≡ look_of (part_of h.utf16 t.now area.now (Pool at n)))
        × Remembers h t.now (lends names.now area.now) memory.new }
{
    if n < LONG {
        return look_found(t, area, h.utf16, Found::Pool(at, n));
    }
    let begin = at as u32;
    let size = n as u32;
    let place = place_of(memory, begin, near_of(n));
    let seen = memory[INDICES + place];
    let kept = memory[LENGTHS + place];
    if seen / 16 == begin && kept == size {
        return seen % 16;
    }
    let look = look_found(t, area, h.utf16, Found::Pool(at, n));
    if size < kept {
        return look;
    }
    memory[INDICES + place] = 16 * begin + look;
    memory[LENGTHS + place] = size;
    look
}

// The look at what was found, where it may be a long string of the pool.
// Ruled out: what is known of the pool's string for a system name.
fn look_long(t: &[u8], names: &[u32], area: &[u8], h: Head, f: Found, memory: &mut [u32]) -> u32
    requires { (length t.now ≤ file_limit) × Inside t.now area.now f × Remembers h t.now (lends names.now area.now) memory.old }
    ensures { (result ≡ look_of (part_of h.utf16 t.now area.now f))
        × Remembers h t.now (lends names.now area.now) memory.new }
{
    match f {
        Found::Nothing => 8,
        Found::Cut => 6,
        Found::System(at, n) => look_found(t, area, h.utf16, Found::System(at, n)),
        Found::Pool(at, n) => look_pool(t, names, area, h, at, n, memory),
    }
}

// Whether what was found may be a long string of the pool. It decides where a look is sought and not what it tells, so that nothing is promised of it:
// most strings are short, and for these no more is done than a look.
fn is_long(f: Found) -> bool {
    matches!(f, Found::Pool(_, n) if LONG <= n)
}

// The look at the text of an index that is not kept.
// Ruled out: a text looked for in the pool where the index has a system name, and a string that is cut taken for no text.
fn look_at(
    t: &[u8],
    names: &[u32],
    area: &[u8],
    h: Head,
    index: StringIndex,
    memory: &mut [u32],
) -> u32
    requires { Asks t.now (lends names.now area.now) h × Remembers h t.now (lends names.now area.now) memory.old }
    ensures { (result ≡ look_of (content_of h t.now (lends names.now area.now) index.0))
        × Remembers h t.now (lends names.now area.now) memory.new }
{
    let f = find(t, names, area, h, index);
    if is_long(f) {
        return look_long(t, names, area, h, f, memory);
    }
    look_found(t, area, h.utf16, f)
}

// The look at the text of an index, by what is remembered where the index came before.
// Ruled out: what is known of another index taken for it, and a name that is not valid remembered as one that is.
pub fn known_look(
    t: &[u8],
    names: &[u32],
    area: &[u8],
    h: Head,
    index: StringIndex,
    memory: &mut [u32],
) -> u32
    requires { Asks t.now (lends names.now area.now) h × Remembers h t.now (lends names.now area.now) memory.old }
    ensures { (result ≡ look_of (content_of h t.now (lends names.now area.now) index.0))
        × Remembers h t.now (lends names.now area.now) memory.new }
{
    let place = index.0 as usize % INDICES;
    let own = index.0 / 1024 + 1;
    let seen = memory[place];
    if seen / 16 == own {
        return seen % 16;
    }
    let look = look_at(t, names, area, h, index, memory);
    memory[place] = 16 * own + look;
    look
}

// The sort of name that a look tells.
fn state_by(look: u32) -> NameState
    ensures { result ≡ state_by look }
{
    if look == 8 {
        return NameState::NoText;
    }
    if look % 2 == 1 {
        return NameState::Valid;
    }
    NameState::Invalid
}

// No text, a text that is no valid name, or a valid name, by what is remembered where the index came before.
// Ruled out: an index taken for valid because another is, and no text for a damaged one.
pub fn known_state(
    t: &[u8],
    names: &[u32],
    area: &[u8],
    h: Head,
    index: StringIndex,
    memory: &mut [u32],
) -> NameState
    requires { Asks t.now (lends names.now area.now) h × Remembers h t.now (lends names.now area.now) memory.old }
    ensures { (result ≡ state_in (content_of h t.now (lends names.now area.now) index.0))
        × Remembers h t.now (lends names.now area.now) memory.new }
{
    let look = known_look(t, names, area, h, index, memory);
    state_by(look)
}
