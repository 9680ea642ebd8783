// Whether two that were found have the same text.
//
// Mirrors `==` of two texts in the Rust; here each stays where it lies. Definitions: specs/Content.antt, specs/Inner/Found.antt.
// One that is compared with many is first asked whether it is plain: then the bytes decide wherever both have one encoding.
ghost use Rattle.std.specs.Prelude.{◌≡◌};
ghost use Rattle.utf.specs.Text.{text_of};
ghost use Rattle.utf.specs.Plain.{is_plain, Known};
ghost use Rattle.text.specs.Content.{same_text, is_text, plain_in};
ghost use Rattle.text.specs.Inner.Found.{part_of, Inside};

use super::Found;
use utf::{is_plain, same_known};

// Whether what was found has a text and it is that of the bytes s, in UTF-16 or UTF-8; where `plain` is true, s is known to be plain.
// Ruled out: yes for no text and no bytes, and no for UTF-16 and the UTF-8 of the same text.
pub fn same_part(
    t: &[u8],
    area: &[u8],
    utf16: bool,
    plain: bool,
    utf16_s: bool,
    s: &[u8],
    f: Found,
) -> bool
    requires { Inside t.now area.now f × Known plain (is_plain utf16_s s.now) }
    ensures { result ≡ is_text (part_of utf16 t.now area.now f) (text_of utf16_s s.now) }
{
    match f {
        Found::Nothing => false,
        Found::Cut => same_known(plain, utf16, &t[0..0], utf16_s, s),
        Found::System(at, n) => same_known(plain, false, &area[at..at + n], utf16_s, s),
        Found::Pool(at, n) => same_known(plain, utf16, &t[at..at + n], utf16_s, s),
    }
}

// Whether no other bytes in the same encoding have the text that was found; no text is none, and the empty one of a string that is cut has many.
// A system name is ASCII, by the rule of the lent names, and is not looked at.
// Ruled out: yes for UTF-16 that is refused, and no for a system name.
pub fn is_plain_found(t: &[u8], area: &[u8], utf16: bool, f: Found) -> bool
    requires { Inside t.now area.now f }
    ensures { result ≡ plain_in (part_of utf16 t.now area.now f) }
{
    match f {
        Found::Nothing | Found::Cut => false,
        Found::System(_, _) => true,
        Found::Pool(at, n) => is_plain(utf16, &t[at..at + n]),
    }
}

// Whether two that were found have texts and these are equal; where `plain` is true, the second is known to be plain. A system name is
// so in any case: two of them are told apart by their lengths, behind the stripped `android:attr/`, and then by their bytes.
// Ruled out: no for a system name and the pool's string of the same text, and yes for two indices without one.
pub fn same_found_known(t: &[u8], area: &[u8], utf16: bool, plain: bool, f: Found, g: Found) -> bool
    requires { Inside t.now area.now f × Inside t.now area.now g × Known plain (plain_in (part_of utf16 t.now area.now g)) }
    ensures { result ≡ same_text (part_of utf16 t.now area.now f) (part_of utf16 t.now area.now g) }
{
    match g {
        Found::Nothing => false,
        Found::Cut => same_part(t, area, utf16, false, utf16, &t[0..0], f),
        Found::System(at, n) => same_part(t, area, utf16, true, false, &area[at..at + n], f),
        Found::Pool(at, n) => same_part(t, area, utf16, plain, utf16, &t[at..at + n], f),
    }
}

// The same, with nothing known of either.
// Ruled out: no for a system name and the pool's string of the same text, and yes for two indices without one.
pub fn same_found(t: &[u8], area: &[u8], utf16: bool, f: Found, g: Found) -> bool
    requires { Inside t.now area.now f × Inside t.now area.now g }
    ensures { result ≡ same_text (part_of utf16 t.now area.now f) (part_of utf16 t.now area.now g) }
{
    same_found_known(t, area, utf16, false, f, g)
}
