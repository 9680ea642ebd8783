// One question of the data: it is asked again, and what comes back is held to what is stored.
use crate::count;
use common::StringIndex;
use errors::{TextNumbers, text_numbers};
use head::{content, text};
use stored::{part, tally, word};

// A file by its number in the list of files, 8 bytes each.
fn file_of<'a>(data: &'a [u8], files: &[u8], number: u32) -> &'a [u8] {
    part(data, files, 2 * (number as usize))
}

// ---- the buffer

// What the buffer holds before a question: no byte of it is 0.
fn soil(out: &mut [u8]) {
    out.fill(170);
}

fn is_zero(s: &[u8]) -> bool {
    s.iter().all(|b| *b == 0)
}

// ---- an answer

// The numbers that are wanted, but for the length.
#[derive(Clone, Copy)]
pub struct Wanted {
    pub refusal: u32,
    pub value: usize,
    pub state: u32,
    pub replaced: u32,
}

// Whether the numbers are those wanted, the buffer begins with `want`, and the rest of it is 0. A refused answer wants no text.
fn is_right(a: TextNumbers, out: &[u8], w: Wanted, want: &[u8]) -> bool {
    let numbers = a.refusal == w.refusal
        && a.value == w.value as u64
        && a.state == w.state
        && a.replaced == w.replaced
        && a.length == want.len() as u64;
    match out.strip_prefix(want) {
        Some(rest) => numbers && is_zero(rest),
        None => false,
    }
}

// Whether the text question answers so, in the whole of `out`.
fn answers(
    file: &[u8],
    names: &[u32],
    area: &[u8],
    out: &mut [u8],
    index: StringIndex,
    w: Wanted,
    want: &[u8],
) -> bool {
    soil(out);
    let a = text(file, names, area, out, index);
    is_right(text_numbers(a), out, w, want)
}

// The same with the first `room` bytes of the buffer; a room that it does not have is not right.
fn answers_in(
    file: &[u8],
    names: &[u32],
    area: &[u8],
    out: &mut [u8],
    room: usize,
    index: StringIndex,
    w: Wanted,
    want: &[u8],
) -> bool {
    if out.len() < room {
        return false;
    }
    answers(file, names, area, &mut out[0..room], index, w, want)
}

// Refusal 11 with the bytes needed; it tells no state.
fn short(needed: usize) -> Wanted {
    Wanted {
        refusal: 11,
        value: needed,
        state: 0,
        replaced: 0,
    }
}

// A text in a buffer that is just right, and in one that is a byte short: refusal 11 with the bytes needed. Nothing where there is none.
fn judge_buffers(
    file: &[u8],
    names: &[u32],
    area: &[u8],
    out: &mut [u8],
    index: StringIndex,
    w: Wanted,
    want: &[u8],
    counts: &mut [u32],
) {
    if w.refusal != 0 {
        return;
    }
    let n = want.len();
    let right = answers_in(file, names, area, out, n, index, w, want);
    tally(counts, count::BUFFERS, right);
    if n == 0 {
        return;
    }
    let refused = answers_in(file, names, area, out, n - 1, index, short(n), &want[0..0]);
    tally(counts, count::BUFFERS, refused);
}

// Whether the content of an index is `want`.
fn holds<'a>(
    file: &'a [u8],
    names: &[u32],
    area: &'a [u8],
    index: StringIndex,
    want: &[u8],
) -> bool {
    content(file, names, area, index) == want
}

// A question is 44 bytes: the file's number, index, room, refusal, value, state, how many were replaced, then the places of text and content.
pub(crate) fn judge<'a>(
    data: &'a [u8],
    files: &[u8],
    row: &[u8],
    names: &[u32],
    area: &'a [u8],
    out: &mut [u8],
    counts: &mut [u32],
) {
    let number = word(row, 0);
    let index = StringIndex(word(row, 1));
    let room = word(row, 2) as usize;
    let w = Wanted {
        refusal: word(row, 3),
        value: word(row, 4) as usize,
        state: word(row, 5),
        replaced: word(row, 6),
    };
    let want = part(data, row, 7);
    let held = part(data, row, 9);
    let file = file_of(data, files, number);
    count::new_file(counts, number);
    let right = answers_in(file, names, area, out, room, index, w, want);
    tally(counts, w.refusal as usize, right);
    judge_buffers(file, names, area, out, index, w, want, counts);
    let same_content = holds(file, names, area, index, held);
    tally(counts, count::CONTENTS, same_content);
}
