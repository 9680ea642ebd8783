// Where the content of a string index lies, for C: which of the two lent slices, its first byte there, and how many bytes.
//
// `head::content` answers with the part itself, which C cannot be handed; here the same part is told by three numbers.
// Definitions: specs/Place.antt.
ghost use Rattle.std.specs.Prelude.{◌≡◌, ◌≤◌, length};
ghost use Rattle.records.specs.Limits.{file_limit};
ghost use Rattle.system_types.specs.Names.{lends};
ghost use Rattle.text.specs.Inner.Found.{Inside};
ghost use Rattle.c_api.specs.Place.{AsksContent};
ghost use Rattle.c_api.specs.Inner.Placed.{place_of};

use common::StringIndex;
use head::{open_file, tables_of};
use text::{Found, find};

// A part of what was lent: of nothing (slice 0), of the name area (1) or of the file (2).
#[repr(C)]
#[derive(Clone, Copy)]
pub struct AxmlContentAnswer {
    pub slice: u32,
    pub start: u64,
    pub length: u64,
}

// What was found in the bytes behind the file's header, t, told as a part of the file.
fn place_of(t: &[u8], area: &[u8], f: Found) -> AxmlContentAnswer
    requires { Inside t.now area.now f × (length t.now ≤ file_limit) }
    ensures { result ≡ place_of f }
{
    match f {
        Found::Nothing | Found::Cut => AxmlContentAnswer {
            slice: 0,
            start: 0,
            length: 0,
        },
        Found::System(at, n) => AxmlContentAnswer {
            slice: 1,
            start: at as u64,
            length: n as u64,
        },
        Found::Pool(at, n) => AxmlContentAnswer {
            slice: 2,
            start: 8 + at as u64,
            length: n as u64,
        },
    }
}

// Where the content of a string index lies (`head::content`): the bytes from `start` on, `length` of them, of the slice that is named.
// Slice 0 where the text question refuses with anything but 11, and for a string cut or outside.
// Ruled out: a place counted from behind the file's header, and the file's bytes for a system name.
#[unsafe(no_mangle)]
pub extern "C" fn axml_content(
    file: &[u8],
    names: &[u32],
    area: &[u8],
    index: u32,
) -> AxmlContentAnswer
    ensures { AsksContent file.now (lends names.now area.now) index result }
{
    let opened = open_file(file, names, area);
    match opened {
        Ok(h) => {
            let t = tables_of(file, h);
            let f = find(t, names, area, h, StringIndex(index));
            place_of(t, area, f)
        }
        Err(_) => AxmlContentAnswer {
            slice: 0,
            start: 0,
            length: 0,
        },
    }
}
