// Records in lent tables: a word is stored, words are zeroed, and attributes are asked whether a new one repeats one of them.
//
// Stands for the vectors of axml.rs (apk-info 13770539b8), and `has` for its `HashSet` of attribute names: it compares with each record, and links.rt
// finds its way among many.
// Definitions: records/specs/Repeats.antt. Differs from the Rust: names are compared where they lie, by text, and nothing is copied.
#![tactic(auto)]

pub mod by_number;
pub mod hash;
pub mod links;
pub mod numbers;

ghost use Rattle.std.specs.Prelude.{◌≡◌, ◌++◌, true, ℕ, ◌-◌, ◌≤◌, ◌<◌, length, take, replicate, set};
ghost use Rattle.records.specs.Words.{attribute_words};
ghost use Rattle.records.specs.Repeats.{by_prefix, same_space, is_repeat};
ghost use Rattle.system_types.specs.Names.{lends};
ghost use Rattle.text.specs.Content.{content_of, is_name, plain_in, same_name};
ghost use Rattle.text.specs.Inner.Found.{Asks, Inside, part_of};
ghost use Rattle.tables.specs.Inner.Numbered.{Numbered};

use by_number::{has_numbered, is_numbered, same_numbered};
use common::StringIndex;
use records::{ATTRIBUTE_NAME, ATTRIBUTE_NAMESPACE, ATTRIBUTE_PREFIX, ATTRIBUTE_WORDS, OWN_PREFIX};
use text::{Found, Head, find, is_plain_found, marks_of, same_as_known};

// One word. Ruled out: another word changed, and the word left as it was.
pub fn put_one(words: &mut [u32], i: usize, a: u32)
    requires { i < length words.old }
    ensures { words.new ≡ set words.old i a }
{
    words[i] = a;
}

// Zeros all over. Ruled out: the words behind the last record left as they were, and a last word left out.
pub fn zero_all(words: &mut [u32])
    ensures { words.new ≡ replicate (length words.old) 0 }
{
    words.fill(0);
}

// Zeros from the place `from` on. Ruled out: a word before it changed, and one behind it kept.
pub fn zero_from(words: &mut [u32], from: usize)
    requires { from ≤ length words.old }
    ensures { words.new ≡ take from words.old ++ replicate (length words.old - from) 0 }
{
    zero_all(&mut words[from..]);
}

// Whether the namespaces of two attributes of one prefix agree, as far as it asks: 3 asks for one text, and the others say all.
// Ruled out: yes under the prefix 3 for two texts, and no for two indices of one text.
fn same_space(
    t: &[u8],
    names: &[u32],
    area: &[u8],
    h: Head,
    prefix: u32,
    old: StringIndex,
    new: StringIndex,
    numbers: &mut [u64],
) -> bool
    requires { Asks t.now (lends names.now area.now) h × Numbered h t.now (lends names.now area.now) numbers.old }
    ensures { (result ≡ same_space (same_name h t.now (lends names.now area.now)) prefix old.0 new.0)
        × Numbered h t.now (lends names.now area.now) numbers.new }
{
    if prefix != OWN_PREFIX {
        return true;
    }
    same_numbered(t, names, area, h, old, new, numbers)
}

// The prefix of the leading attribute, the one whose name nothing is known of.
const LEADING_PREFIX: u32 = 2;

// Whether no other bytes in the same encoding have the name that was found. Under any prefix but that of the leading attribute it is valid, and
// a valid name in UTF-16 is sound and not empty, so that it is not passed over.
// Ruled out: yes for a name of UTF-8 that is valid and not ASCII, and yes for the leading attribute's where its text is refused.
fn is_plain_name(t: &[u8], area: &[u8], utf16: bool, prefix: u32, f: Found) -> bool
    requires { Inside t.now area.now f × ((prefix ≡ 2 → ⊥) → is_name (part_of utf16 t.now area.now f) ≡ true) }
    ensures { result ≡ plain_in (part_of utf16 t.now area.now f) }
{
    if utf16 & (prefix != LEADING_PREFIX) {
        return true;
    }
    is_plain_found(t, area, utf16, f)
}

// Whether an attribute of this prefix, name and namespace, whatever its other words, repeats one of these (W23). The name's own text is
// found once, and looked at once, or not at all (`is_plain_name`): where it is plain, bytes are compared, and its marks tell most names apart before
// they are looked up.
// Ruled out: yes for the same index under another prefix, and no for another index whose text is the same.
pub fn has(
    t: &[u8],
    names: &[u32],
    area: &[u8],
    h: Head,
    words: &[u32],
    prefix: u32,
    name: StringIndex,
    ns: StringIndex,
    numbers: &mut [u64],
) -> bool
    requires { Asks t.now (lends names.now area.now) h
        × ((prefix ≡ 2 → ⊥) → is_name (content_of h t.now (lends names.now area.now) name.0) ≡ true)
        × Numbered h t.now (lends names.now area.now) numbers.old }
    ensures { ((owner kind «data» : ℕ) → result ≡ is_repeat (by_prefix (same_name h t.now (lends names.now area.now)))
        (attribute_words owner prefix name.0 kind «data» ns.0) words.now)
        × Numbered h t.now (lends names.now area.now) numbers.new }
{
    if words.len() < ATTRIBUTE_WORDS {
        return false;
    }
    let wanted = find(t, names, area, h, name);
    if is_numbered(prefix, wanted) {
        return has_numbered(t, names, area, h, words, prefix, name, ns, wanted, numbers);
    }
    let plain = is_plain_name(t, area, h.utf16, prefix, wanted);
    let marks = marks_of(t, names, area, h, plain, wanted);
    for record in words.chunks_exact(ATTRIBUTE_WORDS) {
        if record[ATTRIBUTE_PREFIX] == prefix {
            let other = StringIndex(record[ATTRIBUTE_NAME]);
            if same_as_known(t, names, area, h, plain, marks, other, name, wanted) {
                return true;
            }
        }
    }
    false
}
