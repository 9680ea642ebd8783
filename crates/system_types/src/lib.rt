// The names of the framework's resources, by id: a table that the caller lends, its rule, and a name of it.
//
// Mirrors structs/system_types.rs (apk-info 13770539b8): `get_type_name`. Definitions: specs/Names.antt.
// Differs from the Rust: there the table is compiled in, here it is three words a name over an area of bytes; and a name is
// answered whole, so that leaving out `android:attr/` is a question of its own.
#![tactic(auto)]

ghost use Rattle.std.specs.Prelude.{◌≡◌, ◌+◌, ◌/◌, ◌<◌, ◌≤◌, true, false, length, if◌then◌else◌, nat_lt, IfSome, Ok};
ghost use Rattle.system_types.specs.Names.{lends, is_good, names_of, name_by_id, system_name, starts_with, without, android_attr};
ghost use Rattle.system_types.specs.Names.{Rising};
ghost use Rattle.utf.specs.Plain.{is_ascii};

use common::ResourceId;
use utf::is_ascii;

// ---- the rule

// Whether the area is ASCII as a whole, so that no part of it need be looked at. Not asked of an area of over 64 bytes an entry: a few
// names in a large area do not cost a pass over it.
fn is_plain(area: &[u8], entries: usize) -> bool
    ensures { result ≡ (if nat_lt entries (length area.now / 64) then false else is_ascii area.now) }
{
    if entries < area.len() / 64 {
        return false;
    }
    is_ascii(area)
}

// Whether an entry keeps the rule, behind one with the id `last`; `plain` where the area is known to be ASCII as a whole. The sum is
// made as usize, where it does not wrap.
#[tactic(auto, unfolding(crate::specs::Names::is_good))]
fn is_good(area: &[u8], plain: bool, last: ResourceId, id: ResourceId, start: u32, n: u32) -> bool
    requires { plain ≡ true → is_ascii area.now ≡ true }
    ensures { result ≡ is_good area.now last.0 id.0 start n }
{
    if id.0 <= last.0 {
        return false;
    }
    if id.0 / 16777216 != 1 {
        return false;
    }
    if n < 1 {
        return false;
    }
    let from = start as usize;
    let to = from + (n as usize);
    if area.len() < to {
        return false;
    }
    if plain {
        return true;
    }
    is_ascii(&area[from..to])
}

// Where the last byte of a name stands; for an empty name, whose length less one wraps to 4294967295, that far behind its start.
fn last_byte(start: u32, n: u32) -> usize
    ensures { result < 4294967295 → (1 ≤ n) × (result + 1 ≡ start + n) }
{
    (start as usize) + (std::num::wrapping_sub_u32(n, 1) as usize)
}

// True only where all the names keep their rule, over an area that is ASCII as a whole. The loop has no early way out: whether an id
// did not rise and the furthest last byte decide. Ids that rise from above 16777215 to below 33554432 have top byte 1.
fn all_keep(names: &[u32], area: &[u8]) -> bool
    requires { is_ascii area.now ≡ true }
    ensures { result ≡ true → names_of (lends names.now area.now) ≡ Ok tt }
{
    let mut falls: usize = 0;
    let mut last = 16777215;
    let mut most: usize = 0;
    for k in 0..names.len() / 3 {
        let id = names[3 * k];
        most = most.max(last_byte(names[3 * k + 1], names[3 * k + 2]));
        if id <= last {
            falls = 1;
        }
        last = id;
    }
    (names.len() % 3 == 0)
        & (falls == 0)
        & (last < 33554432)
        & (most < area.len())
        & (area.len() < 4294967296)
}

// What the names say, entry by entry up to the first that breaks the rule; `plain` where the area is known to be ASCII as a whole.
fn check_each(names: &[u32], area: &[u8], plain: bool) -> Result<(), usize>
    requires { plain ≡ true → is_ascii area.now ≡ true }
    ensures { result ≡ names_of (lends names.now area.now) }
{
    let whole = names.len() / 3;
    let mut last = 0;
    for k in 0..whole {
        let id = names[3 * k];
        if !is_good(
            area,
            plain,
            ResourceId(last),
            ResourceId(id),
            names[3 * k + 1],
            names[3 * k + 2],
        ) {
            return Err(k);
        }
        last = id;
    }
    if names.len() % 3 != 0 {
        return Err(whole);
    }
    Ok(())
}

// Whether the lent names keep their rule. All of them are looked at, each time: a caller who asks often pays for each question. Where
// the one pass finds all good, no entry is asked by itself. `Err` has the first entry that breaks the rule, or how many whole entries there are
// where words remain.
// Ruled out: Ok for a table with a word too many, and the earlier of two entries whose ids do not rise.
pub fn check_names(names: &[u32], area: &[u8]) -> Result<(), usize>
    ensures { result ≡ names_of (lends names.now area.now) }
{
    let plain = is_plain(area, names.len() / 3);
    if plain && all_keep(names, area) {
        return Ok(());
    }
    check_each(names, area, plain)
}

// ---- looking a name up

// A guess at the entry with an id. Without gaps the entry is as far from the first as its id is; the id at that place is too high by the gaps
// before it, and the guess lies as much before the place.
fn guess(names: &[u32], wanted: ResourceId) -> Option<usize>
    requires { Rising names.now }
    ensures { IfSome result (λ place. place < length names.now / 3) }
{
    let far = wanted.0.checked_sub(*names.first()?)?;
    let place = far as usize;
    if names.len() / 3 <= place {
        return None;
    }
    let over = names[3 * place] - wanted.0;
    Some(far.checked_sub(over)? as usize)
}

// The name of an id by halves, as the ids rise. The library's `binary_search` looks at single items, and an entry is three words of the slice.
fn by_halves(names: &[u32], wanted: ResourceId) -> Option<(u32, u32)>
    requires { Rising names.now }
    ensures { result ≡ name_by_id wanted.0 names.now }
{
    let mut low = 0;
    let mut high = names.len() / 3;
    while low < high {
        let middle = low + (high - low) / 2;
        let found = names[3 * middle];
        if found == wanted.0 {
            return Some((names[3 * middle + 1], names[3 * middle + 2]));
        }
        if found < wanted.0 {
            low = middle + 1;
        } else {
            high = middle;
        }
    }
    None
}

// The name of an id, as start and length of the whole name in the area: where it is guessed, if it is there, and else by halves.
// Ruled out: the name of another id with the same low bytes, and None for the first or the last entry.
pub fn get_type_name(names: &[u32], id: ResourceId) -> Option<(u32, u32)>
    requires { Rising names.now }
    ensures { result ≡ system_name id.0 names.now }
{
    if id.0 / 16777216 != 1 {
        return None;
    }
    if let Some(place) = guess(names, id) {
        if names[3 * place] == id.0 {
            return Some((names[3 * place + 1], names[3 * place + 2]));
        }
    }
    by_halves(names, id)
}

// ---- one leading `android:attr/`

// Whether s begins with `prefix`.
// Ruled out: true where s is shorter, and true where the last byte of `prefix` differs.
pub fn starts_with(s: &[u8], prefix: &[u8]) -> bool
    ensures { result ≡ starts_with s.now «prefix».now }
{
    s.starts_with(prefix)
}

// What follows one leading `android:attr/`, and s where it does not lead.
// Ruled out: both of two leading ones left out, and `android:attr/` alone kept as it is.
pub fn without_attr(s: &[u8]) -> &[u8]
    ensures { result.now ≡ without android_attr s.now }
{
    s.strip_prefix(b"android:attr/").unwrap_or(s)
}
