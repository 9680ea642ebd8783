// Bytes and numbers as text in a lent buffer: decimal, decimal with a sign, eight hexadecimal digits.
//
// No file of the Rust prints numbers. What is printed: docs/FORMAT.md, L2. Definitions: specs/Digits.antt (the texts), specs/Written.antt (`Wrote`).
// Each `put` takes the place reached so far, writes what lies within the buffer, and answers the place behind its text, so that the last place is
// the length of the whole text whether it fits or not. The bounds on places only keep their sums from wrapping: a text is far shorter.
#![tactic(auto)]

ghost use Rattle.std.specs.Prelude.{◌≡◌, [], ◌∷◌, ◌+◌, ◌≤◌, ◌<◌, length, replicate};
ghost use Rattle.digits.specs.Digits.{decimal, signed_text, hex_digit, hex_text};
ghost use Rattle.digits.specs.Written.{Wrote};

// One byte at a place; past the end of the buffer nothing is written, and the place moves on all the same.
pub fn put_byte(out: &mut [u8], p: usize, b: u8) -> usize
    requires { p < 18446744073709551615 }
    ensures { Wrote 1 p (b ∷ []) out.old result out.new }
{
    if p < out.len() {
        out[p] = b;
    }
    p + 1
}

// Bytes as they stand.
pub fn put_bytes(out: &mut [u8], p: usize, text: &[u8]) -> usize
    requires { p + length text.now < 18446744073709551615 }
    ensures { Wrote (length text.now) p text.now out.old result out.new }
{
    let mut at = p;
    for b in text {
        at = put_byte(out, at, *b);
    }
    at
}

// ---- decimal

// A number without leading zeros: the digits of a tenth of it, and then the last.
pub fn put_decimal(out: &mut [u8], p: usize, n: u64) -> usize
    requires { p < 9223372036854775808 }
    ensures { Wrote 20 p (decimal n) out.old result out.new }
{
    let at = if n < 10 {
        p
    } else {
        put_decimal(out, p, n / 10)
    };
    put_byte(out, at, b'0' + (n % 10) as u8)
}

// A number of 32 bits, which takes half the place.
pub fn put_word(out: &mut [u8], p: usize, n: u32) -> usize
    requires { p < 9223372036854775808 }
    ensures { Wrote 10 p (decimal n) out.old result out.new }
{
    put_decimal(out, p, u64::from(n))
}

// A word read as an i32: `-` and the number without its sign from 2^31 on.
pub fn put_signed(out: &mut [u8], p: usize, n: u32) -> usize
    requires { p < 4611686018427387904 }
    ensures { Wrote 11 p (signed_text n) out.old result out.new }
{
    let z = n.cast_signed();
    let at = if z < 0 { put_byte(out, p, b'-') } else { p };
    put_word(out, at, z.unsigned_abs())
}

// ---- hexadecimal

// One digit, lower case.
fn hex_digit(d: u32) -> u8
    requires { d < 16 }
    ensures { result ≡ hex_digit d }
{
    if d < 10 {
        b'0' + d as u8
    } else {
        b'a' + (d - 10) as u8
    }
}

// All eight digits of a word, leading zeros among them.
pub fn put_hex(out: &mut [u8], p: usize, n: u32) -> usize
    requires { p < 9223372036854775808 }
    ensures { Wrote 8 p (hex_text n) out.old result out.new }
{
    let mut at = p;
    for k in (0..8u32).rev() {
        at = put_byte(out, at, hex_digit((n >> (4 * k)) & 15));
    }
    at
}

// ---- zeros

// Zeros all over. Two functions with `tables::zero_all`, which does it to words: no crate lies below both, and each is one call.
pub fn zero(out: &mut [u8])
    ensures { out.new ≡ replicate (length out.old) 0 }
{
    out.fill(0);
}
