// Bytes looked at as a whole, with no early way out, so that the compiler takes many at once: `all` would stop at the first byte that fails, and so look
// at one byte at a time.
//
// `is_ascii` mirrors std's of that name. Definitions: specs/Plain.antt and specs/Inner/StepRuns.antt.
ghost use Rattle.std.specs.Prelude.{◌≡◌, ◌&&◌, cond, ◌/◌, ◌%◌, eqb};
ghost use Rattle.utf.specs.Plain.{is_ascii};
ghost use Rattle.utf.specs.Inner.StepRuns.{is_basic, is_single, ascii_units};

// Whether every byte is below 128: the greatest of them decides.
// Ruled out: true of 80, the first byte that is not ASCII; false of no bytes.
pub fn is_ascii(s: &[u8]) -> bool
    ensures { result ≡ is_ascii s.now }
{
    let mut most: u8 = 0;
    for b in s {
        most = most.max(*b);
    }
    most < 128
}

// 1 for a byte at an odd place that makes its unit a surrogate: D8 to DF are 27 times 8 and up.
fn surrogate_mark(at: usize, b: u8) -> u8
    ensures { result ≡ cond (eqb (at % 2) 1 && eqb (b / 8) 27) 1 0 }
{
    u8::from((at % 2 == 1) & (b / 8 == 27))
}

// Whether no unit of UTF-16 is a surrogate: the greatest mark decides.
fn is_basic(s: &[u8]) -> bool
    ensures { result ≡ is_basic s.now }
{
    let mut most: u8 = 0;
    for (i, b) in s.iter().enumerate() {
        most = most.max(surrogate_mark(i, *b));
    }
    most < 1
}

// Whether each unit of UTF-16 is ASCII: the greatest low byte and the greatest high byte decide. A byte alone at the end is no unit.
// Ruled out: true of 41 01, which is U+0141; true of 41 00 42, where a byte stands alone.
#[tactic(auto, using(crate::proofs::AsciiText::units_end, crate::proofs::AsciiText::ascii_units_odd))]
pub fn is_ascii_units(s: &[u8]) -> bool
    ensures { result ≡ ascii_units s.now }
{
    if s.len() % 2 == 1 {
        return false;
    }
    let mut low: u8 = 0;
    let mut high: u8 = 0;
    for unit in s.chunks_exact(2) {
        low = low.max(unit[0]);
        high = high.max(unit[1]);
    }
    low < 128 && high < 1
}

// Whether each step is a single unit: a byte of ASCII, or a unit of UTF-16 that is no surrogate.
// Ruled out: true of D800 in UTF-16, a surrogate; false of 00D8, whose low byte alone is D8.
pub fn is_single(utf16: bool, s: &[u8]) -> bool
    ensures { result ≡ is_single utf16 s.now }
{
    if utf16 {
        return is_basic(s);
    }
    is_ascii(s)
}
