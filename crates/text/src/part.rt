// What was found, as a part of what was lent: its content as it stands, whether it is a valid name, and its text as UTF-8.
//
// Mirrors structs/res_string_pool.rs (apk-info 13770539b8), `decode`; there a text is a string of its own, here it is written into a lent
// buffer. Definitions: specs/Content.antt, specs/Inner/Found.antt.
ghost use Rattle.std.specs.Prelude.{◌≡◌, Bool, true, ◌≤◌, length};
ghost use Rattle.records.specs.Limits.{file_limit};
ghost use Rattle.text.specs.Content.{raw_of, text_in, valid_by, state_in};
ghost use Rattle.text.specs.Inner.Found.{part_of, whole_name, ascii_in, Inside, Wrote};

use super::{Found, NameState};
use utf::{ascii_into, is_ascii_text, text_into};
use xml::{valid_name, whole_name};

// The content bytes of what was found, a part of one of two lent slices: never a copy. It is empty for no text, and for a string that
// is cut or outside.
// Ruled out: the pool's bytes for a system name, and the closing byte among them.
pub fn content_of<'a>(t: &'a [u8], area: &'a [u8], f: Found) -> &'a [u8]
    requires { Inside t.now area.now f }
    ensures { (w : Bool) → result.now ≡ raw_of (part_of w t.now area.now f) }
{
    match f {
        Found::Nothing | Found::Cut => &[],
        Found::System(at, n) => &area[at..at + n],
        Found::Pool(at, n) => &t[at..at + n],
    }
}

fn state_of(valid: bool) -> NameState
    ensures { result ≡ valid_by valid }
{
    if valid {
        NameState::Valid
    } else {
        NameState::Invalid
    }
}

// Whether there is a text, and whether it is a valid name: a string that is cut is an empty text, and no name.
// Ruled out: a system name read as UTF-16 because the pool is, and no text for a string that is cut.
pub fn found_state(t: &[u8], area: &[u8], utf16: bool, f: Found) -> NameState
    requires { Inside t.now area.now f }
    ensures { result ≡ state_in (part_of utf16 t.now area.now f) }
{
    match f {
        Found::Nothing => NameState::NoText,
        Found::Cut => NameState::Invalid,
        Found::System(at, n) => state_of(valid_name(false, &area[at..at + n])),
        Found::Pool(at, n) => state_of(valid_name(utf16, &t[at..at + n])),
    }
}

// Writes the text of what was found as UTF-8 at the front of `out` if it holds it whole, and returns its length; the rest of `out` stays.
// Ruled out: the content bytes as they stand for UTF-16, and a byte changed where the text does not fit.
pub fn found_into(t: &[u8], area: &[u8], utf16: bool, f: Found, out: &mut [u8]) -> usize
    requires { Inside t.now area.now f × (length t.now ≤ file_limit) }
    ensures { Wrote (text_in (part_of utf16 t.now area.now f)) out.old out.new result }
{
    match f {
        Found::Nothing | Found::Cut => 0,
        Found::System(at, n) => text_into(false, &area[at..at + n], out),
        Found::Pool(at, n) => text_into(utf16, &t[at..at + n], out),
    }
}

// Whether there is a text that is a valid name and whole.
// Ruled out: true of FF in a UTF-8 pool, whose text is a valid name, and false of a system name in a UTF-16 pool.
pub fn found_whole(t: &[u8], area: &[u8], utf16: bool, f: Found) -> bool
    requires { Inside t.now area.now f }
    ensures { result ≡ whole_name (part_of utf16 t.now area.now f) }
{
    match f {
        Found::Nothing | Found::Cut => false,
        Found::System(at, n) => whole_name(false, &area[at..at + n]),
        Found::Pool(at, n) => whole_name(utf16, &t[at..at + n]),
    }
}

// Whether there is a text that is seen at once to be ASCII, and so to be whole: a system name, or a string of the pool with no other character.
// Ruled out: true of a string that is cut, whose text is empty; true of 41 01 in a UTF-16 pool, which is U+0141.
pub fn found_ascii(t: &[u8], area: &[u8], utf16: bool, f: Found) -> bool
    requires { Inside t.now area.now f }
    ensures { result ≡ ascii_in (part_of utf16 t.now area.now f) }
{
    match f {
        Found::Nothing | Found::Cut => false,
        Found::System(_, _) => true,
        Found::Pool(at, n) => is_ascii_text(utf16, &t[at..at + n]),
    }
}

// What `found_into` does, for a text that `found_ascii` has told to be ASCII: it is copied, and not looked at again.
// Ruled out: both bytes of a unit of UTF-16; a byte changed where the text does not fit.
pub fn found_ascii_into(t: &[u8], area: &[u8], utf16: bool, f: Found, out: &mut [u8]) -> usize
    requires { Inside t.now area.now f × (length t.now ≤ file_limit) × (ascii_in (part_of utf16 t.now area.now f) ≡ true) }
    ensures { Wrote (text_in (part_of utf16 t.now area.now f)) out.old out.new result }
{
    match f {
        Found::Nothing | Found::Cut => 0,
        Found::System(at, n) => ascii_into(false, &area[at..at + n], out),
        Found::Pool(at, n) => ascii_into(utf16, &t[at..at + n], out),
    }
}
