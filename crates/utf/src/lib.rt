// Texts in UTF-8 or UTF-16: read step by step, measured, written as UTF-8, and compared.
//
// Mirrors what the Rust takes from std: String::from_utf8_lossy, char::decode_utf16 (any error is the empty text), and `==` of two texts.
// Definitions: specs/Text.antt over specs/Utf8.antt and specs/Utf16.antt. `utf16` is UTF-16, and otherwise the bytes are UTF-8.
#![tactic(auto)]

pub mod ascii_text;
pub mod damage;
pub mod formed;
pub mod same;
pub mod span;
pub mod utf16;
pub mod utf8;

ghost use Rattle.std.specs.Prelude.{◌≡◌, ◌+◌, ◌≤◌, ◌<◌, min, true, false, ◌++◌, length, drop};
ghost use Rattle.utf.specs.Text.{step_of, step_value, width_of, sound_of, steps_of, bytes_of, is_sound, refused, text_of, put_text};
ghost use Rattle.utf.specs.Inner.StepRuns.{Took, Ran, Halted};

pub use ascii_text::{ascii_into, is_ascii_text};
pub use damage::{replaced_of, state_of};
use formed::formed_end;
pub use same::{is_plain, same_known, same_text};
pub use span::is_ascii;
use span::is_single;
pub use utf8::utf8_step;
use utf8::{put_scalar, scalar_len};
pub use utf16::utf16_step;

#[derive(Clone, Copy)]
pub enum Step {
    // a scalar value, and how many bytes it took
    Scalar(u32, usize),
    // a maximal subpart of so many bytes
    Bad(usize),
    End,
}

// What a step stands for, how far it goes, and whether it is sound: `Took` of specs/Inner/StepRuns.antt tells the three apart, and an Option or a Result
// would be no plainer, since a bad step too has a value, U+FFFD, and a width.
#[derive(Clone, Copy)]
pub struct Taken {
    pub value: u32,
    pub width: usize,
    pub sound: bool,
}

impl From<Step> for Taken {
    ghost from_gives = { λ t r. (r.value ≡ step_value t) × (r.width ≡ width_of t) × (r.sound ≡ sound_of t) };

    fn from(t: Step) -> Taken {
        match t {
            Step::Scalar(v, n) => Taken {
                value: v,
                width: n,
                sound: true,
            },
            Step::Bad(part) => Taken {
                value: 0xfffd,
                width: part,
                sound: false,
            },
            Step::End => Taken {
                value: 0,
                width: 0,
                sound: false,
            },
        }
    }
}

fn step_at(utf16: bool, s: &[u8], at: usize) -> Step
    ensures { result ≡ step_of utf16 (drop at s.now) }
{
    if utf16 {
        utf16_step(s, at)
    } else {
        utf8_step(s, at)
    }
}

// The step at a place inside. A byte of ASCII in UTF-8 is its own value.
// Ruled out: the width 0; any other value than U+FFFD for a bad step.
pub fn next_of(utf16: bool, s: &[u8], at: usize) -> Taken
    requires { at < length s.now }
    ensures { Took utf16 s.now at result.value result.width result.sound }
{
    if !utf16 && s[at] < 128 {
        return Taken {
            value: u32::from(s[at]),
            width: 1,
            sound: true,
        };
    }
    Taken::from(step_at(utf16, s, at))
}

// ---- whether it is sound

// The first place from `at` on that holds no byte of ASCII, or one from `end` on: before it each step is one byte, and sound.
fn utf8_run(s: &[u8], at: usize, end: usize) -> usize
    requires { end ≤ length s.now }
    ensures { Ran false s.now at result }
{
    for i in at..end {
        if 128 <= s[i] {
            return i;
        }
    }
    at.max(end)
}

// The first place from `at` on that holds a surrogate, or less than a unit before `end`: a unit's high byte tells, D8 to DF are 27 times 8 and up.
fn utf16_run(s: &[u8], at: usize, end: usize) -> usize
    requires { end ≤ length s.now }
    ensures { Ran true s.now at result }
{
    let units = end.saturating_sub(at) / 2;
    for k in 0..units {
        let i = at + 2 * k;
        if s[i + 1] / 8 == 27 {
            return i;
        }
    }
    at + 2 * units
}

// Unit by unit: a place from `at` on, before which each step is sound; from `end` on nothing is looked at.
fn sound_run(utf16: bool, s: &[u8], at: usize, end: usize) -> usize
    requires { end ≤ length s.now }
    ensures { Ran utf16 s.now at result }
{
    if utf16 {
        return utf16_run(s, at, end);
    }
    utf8_run(s, at, end)
}

// Block by block, of 64 bytes each: the first from `at` on that is not single units throughout, or not whole.
fn block_run(utf16: bool, s: &[u8], at: usize) -> usize
    requires { at ≤ length s.now }
    ensures { Ran utf16 s.now at result × (result ≤ length s.now) }
{
    let mut i = at;
    for block in s[at..].chunks_exact(64) {
        if !is_single(utf16, block) {
            return i;
        }
        i += block.len();
    }
    i
}

// Block by block, of single units or in UTF-8 of whole sequences, and in UTF-8 what is left behind the last block but for some bytes: a place from `at`
// on before which each step is sound.
fn sound_blocks(utf16: bool, s: &[u8], at: usize) -> usize
    requires { at ≤ length s.now }
    ensures { Ran utf16 s.now at result × (result ≤ length s.now) }
{
    let mut i = block_run(utf16, s, at);
    while 68 <= s.len() - i {
        let n = formed_end(utf16, s, i, 64);
        if n == i {
            return i;
        }
        i = block_run(utf16, s, n);
    }
    if s.len() - i < 24 {
        return i;
    }
    formed_end(utf16, s, i, s.len() - i - 4)
}

// Step by step: the place before `end` of the first step that is bad, and where there is none a place from `end` on. What a run leaves is
// read by one step, and then comes the next run.
fn step_run(utf16: bool, s: &[u8], at: usize, end: usize) -> usize
    requires { (at ≤ end) × (end ≤ length s.now) }
    ensures { Halted utf16 s.now at end result }
{
    let mut i = sound_run(utf16, s, at, end);
    while i < end {
        let t = next_of(utf16, s, i);
        if !t.sound {
            return i;
        }
        i = sound_run(utf16, s, i + t.width, end);
    }
    i
}

// The end of a block that begins at `at`, or `n` where that is nearer.
fn block_end(at: usize, n: usize) -> usize
    requires { at ≤ n }
    ensures { result ≡ min (at + 64) n }
{
    at + (n - at).min(64)
}

// Whether no step is bad: block by block as far as that goes, then step by step through the block that does not pass, and so on. The look at
// a block that does not pass is all that is lost, once in 64 bytes.
// Ruled out: true of C0 80, the overlong form of U+0000; false of ED 9F BF, which is U+D7FF.
pub fn is_sound(utf16: bool, s: &[u8]) -> bool
    ensures { result ≡ is_sound utf16 s.now }
{
    let mut at = 0;
    while at < s.len() {
        let from = sound_blocks(utf16, s, at);
        let end = block_end(from, s.len());
        at = step_run(utf16, s, from, end);
        if at < end {
            return false;
        }
    }
    true
}

// Whether the text is empty because a surrogate of its UTF-16 stands alone.
// Ruled out: true of any UTF-8; false of 00 D8, a high surrogate at the end.
pub fn is_refused(utf16: bool, s: &[u8]) -> bool
    ensures { result ≡ refused utf16 s.now }
{
    utf16 && !is_sound(true, s)
}

// ---- the length and the bytes

// How long the steps are as UTF-8, as `text_len` tells it.
fn bytes_len(utf16: bool, s: &[u8]) -> usize
    ensures { result ≡ min (length (bytes_of (steps_of utf16 s.now))) 0xffffffffffffffff }
{
    let mut at = 0;
    let mut n: usize = 0;
    while at < s.len() {
        let t = next_of(utf16, s, at);
        let k = scalar_len(t.value);
        n = n.saturating_add(k);
        at += t.width;
    }
    n
}

fn bytes_into(utf16: bool, s: &[u8], out: &mut [u8]) -> usize
    requires { length (bytes_of (steps_of utf16 s.now)) ≤ length out.old }
    ensures { (result ≡ length (bytes_of (steps_of utf16 s.now)))
        × (out.new ≡ bytes_of (steps_of utf16 s.now) ++ drop (length (bytes_of (steps_of utf16 s.now))) out.old) }
{
    let mut at = 0;
    let mut o = 0;
    while at < s.len() {
        let t = next_of(utf16, s, at);
        o = put_scalar(out, o, t.value);
        at += t.width;
    }
    o
}

// How long the text is as UTF-8, for any bytes: the text of 2 ^ 63 - 1 times FF is longer than a usize tells, and 2 ^ 64 - 1 stands for it.
// Ruled out: 1 for FF, whose text is U+FFFD, three bytes; any length but 0 for UTF-16 with an unpaired surrogate.
pub fn text_len(utf16: bool, s: &[u8]) -> usize
    ensures { result ≡ min (length (text_of utf16 s.now)) 0xffffffffffffffff }
{
    if is_refused(utf16, s) {
        return 0;
    }
    bytes_len(utf16, s)
}

// What `text_into` does, for any text: step by step. A byte makes at most 4: with that much room nothing is measured first.
fn steps_into(utf16: bool, s: &[u8], out: &mut [u8]) -> usize
    ensures { (result ≡ min (length (text_of utf16 s.now)) 0xffffffffffffffff)
        × (out.new ≡ put_text (text_of utf16 s.now) out.old) }
{
    if is_refused(utf16, s) {
        return 0;
    }
    if s.len() <= out.len() / 4 {
        return bytes_into(utf16, s, out);
    }
    let n = bytes_len(utf16, s);
    if out.len() < n {
        return n;
    }
    bytes_into(utf16, s, out)
}

// Writes the text as UTF-8 if `out` holds it whole, and returns its length as `text_len` does; the rest of `out` stays as it was, and all of one
// that is too short. A text of ASCII is copied (ascii_text.rt).
// Ruled out: a `?` in place of U+FFFD; a byte of `out` changed behind the text, or where the text does not fit.
pub fn text_into(utf16: bool, s: &[u8], out: &mut [u8]) -> usize
    ensures { (result ≡ min (length (text_of utf16 s.now)) 0xffffffffffffffff)
        × (out.new ≡ put_text (text_of utf16 s.now) out.old) }
{
    if is_ascii_text(utf16, s) {
        return ascii_into(utf16, s, out);
    }
    steps_into(utf16, s, out)
}
