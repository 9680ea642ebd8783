// The lent pairs: whether all lie in their area, and the tag and the name of each.
//
// Mirrors nothing of the Rust's, which is asked pair by pair. Answers: how many, or the first that is amiss.
// Definitions: specs/Pairs.antt, docs/FORMAT.md, M1 and M3.
ghost use Rattle.std.specs.Prelude.{◌≡◌, true, ◌+◌, ◌*◌, ◌≤◌, length, drop};
ghost use Rattle.records.specs.Words.{pair_width};
ghost use Rattle.first_values.specs.Pairs.{is_inside, pair_inside, tag_at, name_at, pairs_of};
ghost use Rattle.first_values.specs.Inner.Known.{Repeats};

use items::part_of;
use records::{PAIR_NAME, PAIR_NAME_LENGTH, PAIR_TAG, PAIR_TAG_LENGTH, PAIR_WORDS};
use utf::same::same_bytes;

// Whether a part lies in the area. The sum is made as usize, where it does not wrap.
fn is_inside(area: &[u8], start: u32, n: u32) -> bool
    ensures { result ≡ is_inside area.now start n }
{
    (start as usize) + (n as usize) <= area.len()
}

// Whether tag and name of pair k lie in the area.
fn is_pair_inside(pairs: &[u32], area: &[u8], k: usize) -> bool
    requires { pair_width * k + pair_width ≤ length pairs.now }
    ensures { result ≡ pair_inside area.now (drop (pair_width * k) pairs.now) }
{
    let at = PAIR_WORDS * k;
    if !is_inside(area, pairs[at + PAIR_TAG], pairs[at + PAIR_TAG_LENGTH]) {
        return false;
    }
    is_inside(area, pairs[at + PAIR_NAME], pairs[at + PAIR_NAME_LENGTH])
}

// All pairs in turn, and then the words that are left: how many pairs there are, or the first that does not lie in the area, or how many whole
// ones there are where words remain.
// Ruled out: a pair refused that ends with the area, and words left over told where a pair before them does not lie inside.
pub fn read_pairs(pairs: &[u32], area: &[u8]) -> Result<usize, usize>
    ensures { result ≡ pairs_of pairs.now area.now }
{
    let n = pairs.len() / PAIR_WORDS;
    for k in 0..n {
        if !is_pair_inside(pairs, area, k) {
            return Err(k);
        }
    }
    if pairs.len() % PAIR_WORDS != 0 {
        return Err(n);
    }
    Ok(n)
}

// The tag of pair k.
pub fn tag_at<'a>(pairs: &[u32], area: &'a [u8], k: usize) -> &'a [u8]
    requires { pair_width * k + pair_width ≤ length pairs.now }
    ensures { result.now ≡ tag_at pairs.now area.now k }
{
    let at = PAIR_WORDS * k;
    part_of(area, pairs[at + PAIR_TAG], pairs[at + PAIR_TAG_LENGTH])
}

// The name of pair k.
pub fn name_at<'a>(pairs: &[u32], area: &'a [u8], k: usize) -> &'a [u8]
    requires { pair_width * k + pair_width ≤ length pairs.now }
    ensures { result.now ≡ name_at pairs.now area.now k }
{
    let at = PAIR_WORDS * k;
    part_of(area, pairs[at + PAIR_NAME], pairs[at + PAIR_NAME_LENGTH])
}

// Whether pair k has the tag of the pair before it. Ruled out: yes for the first.
pub fn repeats_tag(pairs: &[u32], area: &[u8], k: usize) -> bool
    requires { pair_width * k + pair_width ≤ length pairs.now }
    ensures { result ≡ true → Repeats pairs.now area.now k }
{
    if k == 0 {
        return false;
    }
    let before = k - 1;
    same_bytes(tag_at(pairs, area, k), tag_at(pairs, area, before))
}
