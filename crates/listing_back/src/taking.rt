// A number, and a line by its form, at a place of a text. Definitions: specs/Forms.antt; how the structs stand for them: specs/Inner/Stands.antt.
//
// A form is the text of a line with its numbers left out, so a number is taken behind each `=` of it. The first number of a line is told, and the
// others are stored as words where the table has a place for them. The one place in code that has the ten forms: `take_form`.
ghost use Rattle.std.specs.Prelude.{◌≡◌, cond, ◌||◌, Some, [], ◌+◌, ◌-◌, ◌*◌, ◌≤◌, ◌<◌, min, length, drop, get_or, set};
ghost use Rattle.listing_back.specs.Forms.{is_digit, nothing, number, digits_from, number_at_front, taken};
ghost use Rattle.listing_back.specs.Due.{is_over};
ghost use Rattle.listing_back.specs.Inner.Stands.{IsFigure, Holds, MovesOn, form_at};

// A number, or 2^32 where it is over 32 bits, and the place behind it.
#[derive(Clone, Copy)]
pub struct Figure {
    pub value: u64,
    pub end: usize,
}

// What a form has taken so far: whether a number was over 32 bits, the first number, how many there were, and the place reached.
#[derive(Clone, Copy)]
pub struct Taking {
    pub over: bool,
    pub first: u64,
    pub count: usize,
    pub at: usize,
}

// ---- a number

fn is_digit(b: u8) -> bool
    ensures { result ≡ is_digit b }
{
    if b < 48 {
        return false;
    }
    b <= 57
}

fn digit_value(b: u8) -> u64
    ensures { (result ≡ b - 48) × (result < 256) }
{
    if b <= 47 {
        return 0;
    }
    (b - 48) as u64
}

// One digit more; a number over 32 bits stays 2^32.
fn more(v: u64, b: u8) -> u64
    requires { v ≤ 4294967296 }
    ensures { result ≡ min (v * 10 + (b - 48)) 4294967296 }
{
    let n = v * 10 + digit_value(b);
    if n < 4294967296 { n } else { 4294967296 }
}

// The digits from a place on.
fn digits_from(text: &[u8], from: usize) -> Figure
    requires { from ≤ length text.now }
    ensures { IsFigure text.now (Some result) (digits_from 0 (drop from text.now)) }
{
    let mut v: u64 = 0;
    let mut p: usize = from;
    while p < text.len() {
        if !is_digit(text[p]) {
            return Figure { value: v, end: p };
        }
        v = more(v, text[p]);
        p += 1;
    }
    Figure { value: v, end: p }
}

// A byte of the text, 0 behind its end.
fn byte_at(text: &[u8], p: usize) -> u8
    ensures { result ≡ get_or text.now p 0 }
{
    text.get(p).copied().unwrap_or(0)
}

// A 0 at this place: no number where another digit follows it.
fn zero_at(text: &[u8], p: usize) -> Option<Figure>
    requires { p < length text.now }
    ensures { IsFigure text.now result
        (cond (is_digit (get_or text.now (p + 1) 0)) nothing (number 0 (drop (p + 1) text.now))) }
{
    let b = byte_at(text, p + 1);
    if is_digit(b) {
        return None;
    }
    Some(Figure {
        value: 0,
        end: p + 1,
    })
}

// The number at this place. Ruled out: a leading zero taken, `+1`, and a number over 32 bits that wraps.
#[tactic(auto, using(crate::proofs::Figures::zero_first))]
fn number_at(text: &[u8], p: usize) -> Option<Figure>
    requires { p ≤ length text.now }
    ensures { IsFigure text.now result (number_at_front (drop p text.now)) }
{
    if text.len() <= p {
        return None;
    }
    let b = text[p];
    if b == 48 {
        return zero_at(text, p);
    }
    if !is_digit(b) {
        return None;
    }
    Some(digits_from(text, p))
}

// ---- a line

fn is_over(v: u64) -> bool
    ensures { result ≡ is_over v }
{
    4294967295 < v
}

fn either(a: bool, b: bool) -> bool
    ensures { result ≡ (a || b) }
{
    a || b
}

// One byte further.
fn passed(f: Taking) -> Taking
    requires { f.at < 18446744073709551615 }
    ensures { result ≡ record { over = f.over; first = f.first; count = f.count; at = f.at + 1 } }
{
    Taking { at: f.at + 1, ..f }
}

// The first number of a line.
fn first_taken(n: Figure) -> Taking
    ensures { result ≡ record { over = is_over n.value; first = n.value; count = 1; at = n.end } }
{
    Taking {
        over: is_over(n.value),
        first: n.value,
        count: 1,
        at: n.end,
    }
}

// A number more.
fn more_taken(f: Taking, n: Figure) -> Taking
    requires { f.count < 18446744073709551615 }
    ensures { result ≡ record { over = (f.over || is_over n.value); first = f.first; count = f.count + 1; at = n.end } }
{
    Taking {
        over: either(f.over, is_over(n.value)),
        first: f.first,
        count: f.count + 1,
        at: n.end,
    }
}

// A word at a place of the table; none is stored behind its end, nor one over 32 bits.
fn store(words: &mut [u32], place: usize, v: u64)
    ensures { (v < 4294967296 → words.new ≡ set words.old place v) × (length words.new ≡ length words.old) }
{
    if v < 4294967296 {
        if place < words.len() {
            words[place] = v as u32;
        }
    }
}

// Behind an `=` at the place reached: a number.
fn number_next(text: &[u8], f: Taking, words: &mut [u32], i: usize) -> Option<Taking>
    requires { (f.at < length text.now) × (get_or text.now f.at 0 ≡ 61) × (i ≤ length words.old) × (f.count < 9223372036854775808) }
    ensures { MovesOn text.now i 61 words.old f result words.new }
{
    let n = number_at(text, f.at + 1)?;
    let count = f.count;
    if count == 0 {
        return Some(first_taken(n));
    }
    store(words, i + (count - 1), n.value);
    Some(more_taken(f, n))
}

// A byte of the form at the place reached.
fn hold_byte(text: &[u8], c: u8, f: Taking, words: &mut [u32], i: usize) -> Option<Taking>
    requires { (i ≤ length words.old) × (f.count < 9223372036854775808) }
    ensures { MovesOn text.now i c words.old f result words.new }
{
    let at = f.at;
    if text.len() <= at {
        return None;
    }
    if text[at] != c {
        return None;
    }
    if c == 61 {
        return number_next(text, f, words, i);
    }
    Some(passed(f))
}

// A line of this form at this place, its words from i on.
fn take_line(text: &[u8], at: usize, form: &[u8], words: &mut [u32], i: usize) -> Option<Taking>
    requires { (at ≤ length text.now) × (i ≤ length words.old) }
    ensures { Holds text.now i words.old words.new result (taken form.now (drop at text.now)) }
{
    let mut f = Taking {
        over: false,
        first: 0,
        count: 0,
        at,
    };
    for c in form {
        f = hold_byte(text, *c, f, words, i)?;
    }
    Some(f)
}

// ---- the ten forms

fn take_first(text: &[u8], at: usize, n: u32, words: &mut [u32], i: usize) -> Option<Taking>
    requires { (at ≤ length text.now) × (i ≤ length words.old) × (n < 3) }
    ensures { Holds text.now i words.old words.new result (taken (form_at n) (drop at text.now)) }
{
    if n == 0 {
        return take_line(text, at, b"refusal=\n", words, i);
    }
    if n == 1 {
        return take_line(text, at, b"value=\n", words, i);
    }
    take_line(text, at, b"cap=\n", words, i)
}

fn take_count(text: &[u8], at: usize, n: u32, words: &mut [u32], i: usize) -> Option<Taking>
    requires { (at ≤ length text.now) × (i ≤ length words.old) × (2 < n) × (n < 7) }
    ensures { Holds text.now i words.old words.new result (taken (form_at n) (drop at text.now)) }
{
    if n == 3 {
        return take_line(text, at, b"starts=\n", words, i);
    }
    if n == 4 {
        return take_line(text, at, b"nodes=\n", words, i);
    }
    if n == 5 {
        return take_line(text, at, b"attributes=\n", words, i);
    }
    take_line(text, at, b"notes=\n", words, i)
}

fn take_record(text: &[u8], at: usize, n: u32, words: &mut [u32], i: usize) -> Option<Taking>
    requires { (at ≤ length text.now) × (i ≤ length words.old) × (6 < n) × (n < 10) }
    ensures { Holds text.now i words.old words.new result (taken (form_at n) (drop at text.now)) }
{
    if n == 7 {
        return take_line(
            text,
            at,
            b"node= name= fixed= parent= first= count= line=\n",
            words,
            i,
        );
    }
    if n == 8 {
        return take_line(
            text,
            at,
            b"attribute= owner= prefix= name= type= data= ns=\n",
            words,
            i,
        );
    }
    take_line(text, at, b"note= kind= a= b=\n", words, i)
}

// A line of the form with this number (`forms`) at this place, its words from i on.
pub fn take_form(text: &[u8], at: usize, n: u32, words: &mut [u32], i: usize) -> Option<Taking>
    requires { (at ≤ length text.now) × (i ≤ length words.old) × (n < 10) }
    ensures { Holds text.now i words.old words.new result (taken (form_at n) (drop at text.now)) }
{
    if n < 3 {
        return take_first(text, at, n, words, i);
    }
    if n < 7 {
        return take_count(text, at, n, words, i);
    }
    take_record(text, at, n, words, i)
}
