// Fields into a lent buffer: `key=number` and the byte behind it. Definitions: specs/Listing.antt (`field_text`), specs/Inner/Three.antt (`three_text`).
//
// Each `put` takes a place and answers the place behind its text, as those of crate `digits` do.
ghost use Rattle.std.specs.Prelude.{[], ◌∷◌, ◌++◌, ◌≤◌, ◌<◌, length};
ghost use Rattle.digits.specs.Written.{Wrote};
ghost use Rattle.listing_text.specs.Listing.{field_text, field};
ghost use Rattle.listing_text.specs.Inner.Three.{three_text};

use digits::{put_byte, put_bytes, put_decimal};

// A field, and the byte behind it: a space, or a newline at the end of a line.
pub fn put_field(out: &mut [u8], p: usize, key: &[u8], number: u64, end: u8) -> usize
    requires { (p < 4611686018427387904) × (length key.now ≤ 10) }
    ensures { Wrote 32 p (field_text (field key.now number) ++ (end ∷ [])) out.old result out.new }
{
    let a = put_bytes(out, p, key);
    let b = put_byte(out, a, 61);
    let c = put_decimal(out, b, number);
    put_byte(out, c, end)
}

// Three fields: the byte `between` behind the first two, the byte `end` behind the third.
pub fn put_three(
    out: &mut [u8],
    p: usize,
    k1: &[u8],
    n1: u64,
    k2: &[u8],
    n2: u64,
    k3: &[u8],
    n3: u64,
    between: u8,
    end: u8,
) -> usize
    requires { (p < 2305843009213693952) × (length k1.now ≤ 10) × (length k2.now ≤ 10) × (length k3.now ≤ 10) }
    ensures { Wrote 96 p (three_text between end (field k1.now n1) (field k2.now n2) (field k3.now n3))
        out.old result out.new }
{
    let a = put_field(out, p, k1, n1, between);
    let b = put_field(out, a, k2, n2, between);
    put_field(out, b, k3, n3, end)
}
