// How the text of an index was damaged: the number of its state, and how many characters were replaced.
//
// Mirrors nothing of the Rust, which does not tell a damaged text from a whole one. Definitions: specs/Content.antt (`damage_in`).
ghost use Rattle.std.specs.Prelude.{◌≡◌, ◌≤◌, length};
ghost use Rattle.records.specs.Limits.{file_limit};
ghost use Rattle.utf.specs.Text.{damage_of, state_number, replaced_count};
ghost use Rattle.text.specs.Content.{damage_in};
ghost use Rattle.text.specs.Inner.Found.{part_of, Inside};

use super::Found;
use utf::{replaced_of, state_of};

// The state of the text that was found: 0 whole, 1 replaced characters, 2 bad UTF-16, 3 cut or outside; 0 where there is none. A system
// name is ASCII, by the rule of the lent names, and is not looked at.
// Ruled out: 2 for a string of UTF-16 that is cut, and 0 for a string that is cut, since its text is empty.
pub fn state_of_found(t: &[u8], area: &[u8], utf16: bool, f: Found) -> u32
    requires { Inside t.now area.now f }
    ensures { result ≡ state_number (damage_in (part_of utf16 t.now area.now f)) }
{
    match f {
        Found::Nothing => 0,
        Found::Cut => 3,
        Found::System(_, _) => 0,
        Found::Pool(at, n) => state_of(utf16, &t[at..at + n]),
    }
}

fn replaced_in_part(utf16: bool, s: &[u8]) -> u32
    requires { length s.now ≤ file_limit }
    ensures { result ≡ replaced_count (damage_of utf16 s.now) }
{
    replaced_of(utf16, s) as u32
}

// How many characters of the text that was found were replaced.
// Ruled out: a U+FFFD of the file's own counted, and any count but 0 for UTF-16.
pub fn replaced_of_found(t: &[u8], area: &[u8], utf16: bool, f: Found) -> u32
    requires { Inside t.now area.now f × (length t.now ≤ file_limit) }
    ensures { result ≡ replaced_count (damage_in (part_of utf16 t.now area.now f)) }
{
    match f {
        Found::Nothing | Found::Cut => 0,
        Found::System(_, _) => 0,
        Found::Pool(at, n) => replaced_in_part(utf16, &t[at..at + n]),
    }
}
