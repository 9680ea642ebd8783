// How a text was damaged: whether all of its characters stand in the bytes, and how many were replaced.
//
// Mirrors nothing of the Rust, which puts U+FFFD in, or takes the empty text, and does not tell. Definitions: specs/Text.antt.
ghost use Rattle.std.specs.Prelude.{◌≡◌, false};
ghost use Rattle.utf.specs.Text.{steps_of, bad_count, damage_of, state_number, replaced_count};

use super::{is_sound, next_of};

// The number of the text's state: 0 whole, 1 replaced characters, 2 bad UTF-16. Nothing is counted, so that a whole text is looked at once.
// A number and no enum, since `state_number` of specs/Text.antt and the format of docs/FORMAT.md hold it.
// Ruled out: 1 for EF BF BD in UTF-8, which is a U+FFFD of the file's own; 0 for 00 DC in UTF-16, a low surrogate that stands alone.
pub fn state_of(utf16: bool, s: &[u8]) -> u32
    ensures { result ≡ state_number (damage_of utf16 s.now) }
{
    let sound = is_sound(utf16, s);
    if sound {
        return 0;
    }
    if utf16 {
        return 2;
    }
    1
}

// Each bad step is one U+FFFD.
fn replaced_in(s: &[u8]) -> usize
    ensures { result ≡ bad_count (steps_of false s.now) }
{
    let mut at: usize = 0;
    let mut n: usize = 0;
    while at < s.len() {
        let t = next_of(false, s, at);
        n += usize::from(!t.sound);
        at += t.width;
    }
    n
}

// How many U+FFFD the text has that the file has not, one for each maximal subpart; UTF-16 has none, since bad UTF-16 is the empty text.
// Ruled out: a U+FFFD of the file's own counted; 4 for F0 9F 98 41, whose first three bytes are one maximal subpart.
pub fn replaced_of(utf16: bool, s: &[u8]) -> usize
    ensures { result ≡ replaced_count (damage_of utf16 s.now) }
{
    if utf16 {
        return 0;
    }
    replaced_in(s)
}
