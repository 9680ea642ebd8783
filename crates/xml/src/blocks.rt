// Whole blocks of a name, 64 or 48 bytes that are passed at once, and the tests of single bytes that tell a char without decoding it.
// Definitions: specs/Inner/SeenChars.antt, specs/Inner/Blocks.antt.
//
// Mirrors nothing of xml/src/lib.rs (apk-info 13770539b8), whose loop goes by chars. A block is looked at byte by byte, each byte by its place, with no
// early way out, so that the compiler takes many bytes at once. It holds chars of one form alone, of which the bytes say that they are chars.
ghost use Rattle.std.specs.Prelude.{◌≡◌, true, false, cond, ℕ, ◌+◌, ◌≤◌, ◌<◌, length, IfSome};
ghost use Rattle.utf.specs.Utf8.{inside};
ghost use Rattle.xml.specs.Inner.SeenChars.{ascii_low, far_high, is_trail, pair_lead, triple_lead, triple_second};
ghost use Rattle.xml.specs.Inner.Blocks.{in_utf16, size_of, fits_at, all_fit};
ghost use Rattle.xml.specs.Inner.NameRun.{Seen, Takes, Ahead};

// ---- a byte

// Whether b lies between the two. Both tests are made, as everywhere here: a branch would hold the loop over a block to one byte at a time.
// Ruled out: false of the first, false of the last.
pub fn between(first: u8, last: u8, b: u8) -> bool
    ensures { result ≡ inside first last b }
{
    (first <= b) & (b <= last)
}

// x where the test is true, else y.
fn choose(test: bool, x: bool, y: bool) -> bool
    ensures { result ≡ cond test x y }
{
    (test & x) | (!test & y)
}

// Whether b is a byte of ASCII that is a char: a letter, a digit, `-`, `.` or `_`.
// Ruled out: true of 3A, a colon; true of E9, which is no ASCII.
pub fn ascii_low(b: u8) -> bool
    ensures { result ≡ ascii_low b }
{
    between(0x61, 0x7a, b)
        | between(0x41, 0x5a, b)
        | between(0x30, 0x39, b)
        | between(0x2d, 0x2e, b)
        | (b == 0x5f)
}

// Whether each unit of UTF-16 with the high byte b is a start, whatever its low byte is.
// Ruled out: true of 03, which U+037E has; true of D8, which a surrogate has.
#[tactic(auto, unfolding(crate::specs::Inner::SeenChars::far_high))]
pub fn far_high(b: u8) -> bool
    ensures { result ≡ far_high b }
{
    between(0x04, 0x1f, b) | between(0x31, 0xd7, b)
}

// Whether b may follow the first byte of a char in UTF-8.
// Ruled out: true of C0, true of 7F.
#[tactic(auto, unfolding(crate::specs::Inner::SeenChars::is_trail))]
pub fn is_trail(b: u8) -> bool
    ensures { result ≡ is_trail b }
{
    between(0x80, 0xbf, b)
}

// Whether each char of two bytes in UTF-8 that begins with b is a char of a name.
// Ruled out: true of CD, which U+037E has; true of C3, which U+00D7 has.
#[tactic(auto, unfolding(crate::specs::Inner::SeenChars::pair_lead))]
pub fn pair_lead(b: u8) -> bool
    ensures { result ≡ pair_lead b }
{
    between(0xc4, 0xcc, b) | between(0xce, 0xdf, b)
}

// Whether each char of three bytes in UTF-8 that begins with b is a start, but for those whose second byte is 80.
// Ruled out: true of E2, which U+2190 has; true of ED, behind which A0 to BF is ill-formed.
#[tactic(auto, unfolding(crate::specs::Inner::SeenChars::triple_lead))]
pub fn triple_lead(b: u8) -> bool
    ensures { result ≡ triple_lead b }
{
    (b == 0xe1) | between(0xe3, 0xec, b)
}

// Whether b may be the second byte of such a char.
// Ruled out: true of 80, which U+3000 has behind E3; true of C0.
#[tactic(auto, unfolding(crate::specs::Inner::SeenChars::triple_second))]
pub fn triple_second(b: u8) -> bool
    ensures { result ≡ triple_second b }
{
    between(0x81, 0xbf, b)
}

// ---- a block

// What a block holds: units of ASCII or far units in UTF-16; chars of one, two or three bytes in UTF-8.
#[derive(Clone, Copy)]
pub enum Form {
    AsciiUnits,
    FarUnits,
    Ascii,
    Pairs,
    Triples,
}

// How many bytes a block has.
fn size_of(form: Form) -> usize
    ensures { result ≡ size_of form }
{
    match form {
        Form::AsciiUnits => 64,
        Form::FarUnits => 64,
        Form::Ascii => 64,
        Form::Pairs => 64,
        Form::Triples => 48,
    }
}

// Whether b may stand at place k of a block.
#[tactic(auto, unfolding(crate::specs::Inner::Blocks::fits_at))]
fn fits(form: Form, k: usize, b: u8) -> bool
    ensures { result ≡ fits_at form k b }
{
    match form {
        Form::AsciiUnits => choose(k % 2 == 1, b == 0, ascii_low(b)),
        Form::FarUnits => choose(k % 2 == 1, far_high(b), true),
        Form::Ascii => ascii_low(b),
        Form::Pairs => choose(k % 2 == 1, is_trail(b), pair_lead(b)),
        Form::Triples => choose(
            k % 3 == 0,
            triple_lead(b),
            choose(k % 3 == 1, triple_second(b), is_trail(b)),
        ),
    }
}

// Whether the test passes at each of the n places of a block. The least of the answers decides, so that the loop has no early way out.
// Ruled out: true where the test fails at one place, false where it passes at all.
pub(crate) fn all_pass<F: Fn(usize) -> bool>(n: usize, test: F) -> bool
    requires { (k : ℕ) → k < n → F.pre test k }
    ensures passes { result ≡ true → (k : ℕ) → k < n → F.post test k true }
    ensures fails { result ≡ false → (k : ℕ) × (k < n) × F.post test k false }
{
    let mut least = 1;
    for k in 0..n {
        least = least.min(test(k) as u8);
    }
    least == 1
}

// How many of n places pass the test, one behind the other from the first on: n, or as many as stand before the first at which it fails.
// Ruled out: a number that counts a place at which the test fails, and one that stops where it passes.
pub(crate) fn passing<F: Fn(usize) -> bool>(n: usize, test: F) -> usize
    requires { (k : ℕ) → k < n → F.pre test k }
    ensures within { result ≤ n }
    ensures passes { (k : ℕ) → k < result → F.post test k true }
    ensures fails { result < n → F.post test result false }
{
    for k in 0..n {
        if !test(k) {
            return k;
        }
    }
    n
}

// Whether each of the bytes fits that a block of the form at a place has. Each form has a loop of its own: the compiler takes many bytes at once only
// where the form is a constant in it.
fn all_fit(form: Form, s: &[u8], at: usize) -> bool
    requires { at + size_of form ≤ length s.now }
    ensures { result ≡ all_fit form s.now at (size_of form) }
{
    match form {
        Form::AsciiUnits => all_pass(64, |k| fits(Form::AsciiUnits, k, s[at + k])),
        Form::FarUnits => all_pass(64, |k| fits(Form::FarUnits, k, s[at + k])),
        Form::Ascii => all_pass(64, |k| fits(Form::Ascii, k, s[at + k])),
        Form::Pairs => all_pass(64, |k| fits(Form::Pairs, k, s[at + k])),
        Form::Triples => all_pass(48, |k| fits(Form::Triples, k, s[at + k])),
    }
}

// How many bytes a block of the form takes at a place with 64 bytes behind it, where one begins there.
fn block_len(form: Form, s: &[u8], at: usize) -> Option<usize>
    requires { at + 64 ≤ length s.now }
    ensures { IfSome result (λ n. Takes (in_utf16 form) s.now at n) }
{
    if all_fit(form, s, at) {
        return Some(size_of(form));
    }
    None
}

// The form that a block at a place can have: the high byte of its first unit tells it, and in UTF-8 its first byte.
fn form_at(utf16: bool, s: &[u8], at: usize) -> Form
    requires { at + 64 ≤ length s.now }
    ensures { in_utf16 result ≡ utf16 }
{
    if utf16 {
        if s[at + 1] == 0 {
            return Form::AsciiUnits;
        }
        return Form::FarUnits;
    }
    if 0xe0 <= s[at] {
        return Form::Triples;
    }
    if 0x80 <= s[at] {
        return Form::Pairs;
    }
    Form::Ascii
}

// The end of the blocks that stand at a place, one behind the other: fewer than 64 bytes are left there, or no block begins.
fn blocks_end(utf16: bool, s: &[u8], at: usize) -> usize
    requires { at ≤ length s.now }
    ensures { Seen utf16 s.now at result × (result ≤ length s.now) }
{
    let mut i = at;
    while 64 <= s.len() - i {
        let Some(n) = block_len(form_at(utf16, s, i), s, i) else {
            return i;
        };
        i += n;
    }
    i
}

// ---- a stretch

// What is looked at next: whole blocks end at `from`, and the chars from there to `to` are looked at one by one.
#[derive(Clone, Copy)]
pub struct Stretch {
    pub from: usize,
    pub to: usize,
}

// The stretch at a place inside. Where no block begins, the next is tried 256 bytes on, so that a text of which each block fails loses little.
// Ruled out: a stretch of no bytes, and one that ends behind the text.
pub fn stretch_at(utf16: bool, s: &[u8], at: usize) -> Stretch
    requires { at < length s.now }
    ensures { Ahead utf16 s.now at result.from result.to }
{
    let from = blocks_end(utf16, s, at);
    Stretch {
        from: from,
        to: from + (s.len() - from).min(256),
    }
}
