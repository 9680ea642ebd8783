// The text question and the content question: head and lent names are checked again at each call.
//
// Mirrors structs/res_string_pool.rs (apk-info 13770539b8), `get_with_resources`, for a caller who holds the file alone.
// Answers: the length and the state of the text (`TextWritten`) or a refusal. Definitions: specs/Ask.antt.
ghost use Rattle.std.specs.Prelude.{◌≡◌, List, ◌≤◌, length, Err};
ghost use Rattle.records.specs.Limits.{file_limit};
ghost use Rattle.system_types.specs.Names.{lends};
ghost use Rattle.text.specs.Content.{content_of, raw_of, text_in, damage_in};
ghost use Rattle.text.specs.Inner.Found.{part_of, Inside, is_found, Asks};
ghost use Rattle.head.specs.Ask.{head_read, open_of, state_told, fitted, text_by, content_answer, Gives, TextReads};

use super::{Asker, Opened, enter, is_whole, refusal_of, tables_of};
use common::StringIndex;
use errors::{Refusal, TextState, TextWritten};
use text::{
    Found, Head, content_of, find, found_into, is_found, replaced_of_found, state_of_found,
};

// ---- what refuses before an index is looked at

fn head_read(opened: Opened) -> Result<Head, Refusal>
    ensures { result ≡ head_read opened }
{
    if is_whole(opened.end) {
        Ok(opened.head)
    } else {
        Err(refusal_of(opened.end))
    }
}

// The head of a file, or the first refusal: what every entry point checks, then the head.
// Ruled out: a head for a file of which a part of the pool is short.
pub fn open_file(file: &[u8], names: &[u32], area: &[u8]) -> Result<Head, Refusal>
    ensures { result ≡ open_of file.now (lends names.now area.now) }
{
    head_read(enter(file, names, area, Asker::Question)?)
}

// ---- the text question

fn refuse(out: &mut [u8], why: Refusal) -> Result<TextWritten, Refusal>
    ensures { (text : List _) → Gives (length out.old) text (Err why) result out.new }
{
    out.fill(0);
    Err(why)
}

// What became of the text that was found. Only one with characters that were replaced is looked at again, to count them.
// Ruled out: `Whole` for a string that is cut, and one character replaced for every damaged text.
pub fn found_told(t: &[u8], area: &[u8], utf16: bool, f: Found) -> TextState
    requires { Inside t.now area.now f × (length t.now ≤ file_limit) }
    ensures { result ≡ state_told (damage_in (part_of utf16 t.now area.now f)) }
{
    let state = state_of_found(t, area, utf16, f);
    if state == 0 {
        return TextState::Whole;
    }
    if state == 1 {
        return TextState::Replaced(replaced_of_found(t, area, utf16, f));
    }
    if state == 2 {
        return TextState::Unpaired;
    }
    TextState::Cut
}

// The text of what was found, if the buffer holds it whole.
fn write_found(
    t: &[u8],
    area: &[u8],
    utf16: bool,
    f: Found,
    out: &mut [u8],
) -> Result<TextWritten, Refusal>
    requires { Inside t.now area.now f × (length t.now ≤ file_limit) }
    ensures { Gives (length out.old) (text_in (part_of utf16 t.now area.now f))
        (fitted (length out.old) (text_in (part_of utf16 t.now area.now f))
        (state_told (damage_in (part_of utf16 t.now area.now f)))) result out.new }
{
    let n = found_into(t, area, utf16, f, out);
    if out.len() < n {
        out.fill(0);
        return Err(Refusal::TextShort(n));
    }
    out[n..].fill(0);
    let state = found_told(t, area, utf16, f);
    Ok(TextWritten { length: n, state })
}

fn text_in(
    t: &[u8],
    names: &[u32],
    area: &[u8],
    h: Head,
    out: &mut [u8],
    index: StringIndex,
) -> Result<TextWritten, Refusal>
    requires { Asks t.now (lends names.now area.now) h }
    ensures { Gives (length out.old) (text_in (content_of h t.now (lends names.now area.now) index.0))
        (text_by (length out.old) (content_of h t.now (lends names.now area.now) index.0)) result out.new }
{
    let f = find(t, names, area, h, index);
    if !is_found(f) {
        return refuse(out, Refusal::NothingFound);
    }
    write_found(t, area, h.utf16, f, out)
}

// The text of a string index, in `out`: its UTF-8 and zeros behind it; on a refusal zeros alone. Head and names are checked again at
// each call, and the answer tells the first that is amiss: 2, 7, 1, 3, 41 to 45, 51, 52, then 12 (no text) and 11 (with the bytes needed).
// Ruled out: the front of a text that does not fit, 12 for an empty text, and a damaged text answered as a whole one.
pub fn text(
    file: &[u8],
    names: &[u32],
    area: &[u8],
    out: &mut [u8],
    index: StringIndex,
) -> Result<TextWritten, Refusal>
    ensures { TextReads file.now (lends names.now area.now) out.old index.0 result out.new }
{
    match open_file(file, names, area) {
        Ok(h) => text_in(tables_of(file, h), names, area, h, out, index),
        Err(why) => refuse(out, why),
    }
}

// ---- the content question

fn content_in<'a>(
    t: &'a [u8],
    names: &[u32],
    area: &'a [u8],
    h: Head,
    index: StringIndex,
) -> &'a [u8]
    requires { Asks t.now (lends names.now area.now) h }
    ensures { result.now ≡ raw_of (content_of h t.now (lends names.now area.now) index.0) }
{
    let f = find(t, names, area, h, index);
    content_of(t, area, f)
}

// The content of a string index: of a system name its text, as a part of the area; of a string of the pool its bytes before decoding,
// as a part of the file. It is empty where the text question refuses with anything but 11, and for a string cut or outside. Head and
// names are checked again at each call.
// Ruled out: `android:attr/` in front of a system name, and the closing byte of a string among its content.
pub fn content<'a>(file: &'a [u8], names: &[u32], area: &'a [u8], index: StringIndex) -> &'a [u8]
    ensures { result.now ≡ content_answer file.now (lends names.now area.now) index.0 }
{
    let Ok(h) = open_file(file, names, area) else {
        return &[];
    };
    content_in(tables_of(file, h), names, area, h, index)
}
