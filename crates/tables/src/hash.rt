// A number of a text that is the same for equal texts, in whatever encoding and however damaged they are, and the key of an attribute.
//
// Stands for the hash in the Rust's `HashSet` of attribute names. Definitions: specs/Inner/Keys.antt. Differs from the Rust: it has no
// secret, so that who knows it can make texts of one number; docs/DECISIONS.md says what that costs.
ghost use Rattle.std.specs.Prelude.{◌≡◌};
ghost use Rattle.system_types.specs.Names.{lends};
ghost use Rattle.text.specs.Inner.Found.{Asks, Inside, Finds, part_of};
ghost use Rattle.tables.specs.Inner.Keys.{mixed, hash_of, hash_in, key_by};
ghost use Rattle.tables.specs.Inner.Numbered.{Numbered};

use crate::numbers::{HALF, number_of};
use common::StringIndex;
use records::OWN_PREFIX;
use text::{Found, Head, find};
use utf::{is_refused, next_of};

// A value mixed into the state.
#[tactic(auto, unfolding(crate::specs::Inner::Keys::mixed))]
fn mix(s: u64, v: u32) -> u64
    ensures { result ≡ mixed s v }
{
    let x = u64::from((s / HALF) as u32 ^ v) * 2654435769;
    let y = (s % HALF + u64::from(v)) % HALF * 3266489917;
    let p = (x / HALF) as u32 ^ (y % HALF) as u32;
    let q = (y / HALF) as u32 ^ (x % HALF) as u32;
    u64::from(p) * HALF + u64::from(q)
}

// The values of a text's steps, mixed one by one: no copy is made, and a text that is refused is the empty one.
// Ruled out: two numbers for one text in UTF-16 and in UTF-8, and one by the bytes of a bad step.
pub fn hash_of(utf16: bool, b: &[u8], seed: u64) -> u64
    ensures { result ≡ hash_of seed utf16 b.now }
{
    let mut s = seed;
    if is_refused(utf16, b) {
        return s;
    }
    let mut at: usize = 0;
    // No `for`: the next place depends on the step's width, and nothing yields the steps as an iterator.
    while at < b.len() {
        let t = next_of(utf16, b, at);
        s = mix(s, t.value);
        at += t.width;
    }
    s
}

// The same of what was found.
// Ruled out: another number for a system name than for the pool's string of the same text.
pub fn hash_found(t: &[u8], area: &[u8], utf16: bool, f: Found, seed: u64) -> u64
    requires { Inside t.now area.now f }
    ensures { result ≡ hash_in seed (part_of utf16 t.now area.now f) }
{
    match f {
        Found::Nothing | Found::Cut => seed,
        Found::System(at, n) => hash_of(false, &area[at..at + n], seed),
        Found::Pool(at, n) => hash_of(utf16, &t[at..at + n], seed),
    }
}

// The key of an attribute of this prefix, name and namespace; the name was found as g. A long name or namespace is not passed over again.
// Ruled out: one key for all namespaces under the prefix 3, and two for one name at two indices.
pub fn key_of(
    t: &[u8],
    names: &[u32],
    area: &[u8],
    h: Head,
    prefix: u32,
    name: StringIndex,
    g: Found,
    ns: StringIndex,
    numbers: &mut [u64],
) -> u32
    requires { Asks t.now (lends names.now area.now) h × Finds t.now (lends names.now area.now) h name.0 g
        × Numbered h t.now (lends names.now area.now) numbers.old }
    ensures { (result ≡ key_by h t.now (lends names.now area.now) prefix name.0 ns.0)
        × Numbered h t.now (lends names.now area.now) numbers.new }
{
    let s = mix(number_of(t, names, area, h, name, g, numbers), prefix);
    if prefix != OWN_PREFIX {
        return (s / HALF) as u32;
    }
    let f = find(t, names, area, h, ns);
    let n = number_of(t, names, area, h, ns, f, numbers);
    let u = mix(s, (n / HALF) as u32);
    (mix(u, (n % HALF) as u32) / HALF) as u32
}
