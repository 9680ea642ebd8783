// Many texts at once: the values of a table's records, or the strings of a list of indices.
//
// Mirrors nothing of the Rust's, which makes a string of its own for each value. Answers: `TextsWritten`, how many there are and the bytes of
// all their texts, or why there are none; the answer to each question is six words. Names, items and head are checked once for all of
// them. Definitions: specs/Many.antt.
#![tactic(auto)]

pub mod known;

ghost use Rattle.std.specs.Prelude.{◌≡◌, cond, List, [], ◌++◌, ◌+◌, ◌-◌, ◌*◌, ◌/◌, ◌≤◌, ◌<◌, min, ℕ, length, take, drop, replicate, ltb, leb, Ok, Err};
ghost use Rattle.errors.specs.declared.Refusal.TheVariants.{TablesError};
ghost use Rattle.records.specs.Words.{attribute_width};
ghost use Rattle.many_texts.specs.Words.{answer_width, answer_words};
ghost use Rattle.system_types.specs.Names.{lends};
ghost use Rattle.text.specs.Content.{content_of};
ghost use Rattle.text.specs.Inner.Found.{Asks};
ghost use Rattle.items.specs.Items.{table_of};
ghost use Rattle.items.specs.Inner.Firsts.{Firsts};
ghost use Rattle.value_text.specs.Value.{Value, shows, shown, attribute_value};
ghost use Rattle.value_text.specs.Inner.Leads.{Tells, told_of};
ghost use Rattle.many_texts.specs.Many.{value_in, attribute_at, words_at, many_by, most_bytes, most_count, ReadsValues, ReadsTexts};
ghost use Rattle.many_texts.specs.Inner.Known.{Knows};
ghost use Rattle.many_texts.specs.Inner.Going.{TellsAt, Puts, Done, Gives, record_value, index_value};

use common::StringIndex;
use digits::zero;
use errors::{Refusal, TextState, TextsWritten, replaced_number, state_number};
use head::{found_told, open_file, tables_of};
use items::{NO_ITEM, PLACES, put_firsts};
use known::{KNOWN, look_up};
use records::{
    ATTRIBUTE_DATA, ATTRIBUTE_NAME, ATTRIBUTE_NAMESPACE, ATTRIBUTE_OWNER, ATTRIBUTE_PREFIX,
    ATTRIBUTE_TYPE, ATTRIBUTE_WORDS, attribute_place,
};
use tables::zero_from;
use text::{Head, find, found_ascii, found_ascii_into, found_into, is_found};
use value_text::{Attribute, Told, named_into, open_known, uri_into};

pub const ANSWER_WORDS: usize = 6;

const ANSWER_REFUSAL: usize = 0;
// where its text begins
const ANSWER_START: usize = 1;
// the bytes of its text
const ANSWER_LENGTH: usize = 2;

const ANSWER_UNCOVERED: usize = 3;

const ANSWER_STATE: usize = 4;

const ANSWER_REPLACED: usize = 5;

// ---- the words of an answer

fn put_answer(
    words: &mut [u32],
    i: usize,
    refusal: u32,
    start: u32,
    bytes: u32,
    uncovered: u32,
    state: u32,
    replaced: u32,
)
    requires { i + answer_width ≤ length words.old }
    ensures { words.new
        ≡ take i words.old ++ answer_words refusal start bytes uncovered state replaced ++ drop (i + answer_width) words.old }
{
    words[i + ANSWER_REFUSAL] = refusal;
    words[i + ANSWER_START] = start;
    words[i + ANSWER_LENGTH] = bytes;
    words[i + ANSWER_UNCOVERED] = uncovered;
    words[i + ANSWER_STATE] = state;
    words[i + ANSWER_REPLACED] = replaced;
}

// Whether the place behind a text of n bytes is a word.
fn is_word(at: usize, n: usize) -> bool
    ensures { result ≡ leb (at + n) most_bytes }
{
    if 4294967295 < at {
        return false;
    }
    n <= 4294967295 - at
}

// An answer with a text of n bytes; nothing where its place is no word, since then there is no room for all of them.
fn put_shown(
    answers: &mut [u32],
    k: usize,
    at: usize,
    n: usize,
    uncovered: u32,
    state: TextState,
) -> usize
    requires { answer_width * k + answer_width ≤ length answers.old }
    ensures { (s : List _) → n ≡ length s → Puts k at (shows s uncovered state) answers.old result answers.new }
{
    let next = at.saturating_add(n);
    if is_word(at, n) {
        put_answer(
            answers,
            ANSWER_WORDS * k,
            0,
            at as u32,
            n as u32,
            uncovered,
            state_number(state),
            replaced_number(state),
        );
    }
    next
}

// An answer without a text.
fn put_none(answers: &mut [u32], k: usize, at: usize, refusal: u32) -> usize
    requires { answer_width * k + answer_width ≤ length answers.old }
    ensures { (v : Value) → shown v ≡ [] → words_at at v ≡ answer_words refusal 0 0 0 0 0 → Puts k at v answers.old result answers.new }
{
    put_answer(answers, ANSWER_WORDS * k, refusal, 0, 0, 0, 0, 0);
    at
}

// The answer to question k, whose text begins at a place; the place behind it is answered.
fn put_told(answers: &mut [u32], k: usize, at: usize, told: Told) -> usize
    requires { answer_width * k + answer_width ≤ length answers.old }
    ensures { (v : Value) → told ≡ told_of v → Puts k at v answers.old result answers.new }
{
    match told {
        Told::Shown(n, uncovered, state) => put_shown(answers, k, at, n, uncovered, state),
        Told::NoName => put_none(answers, k, at, 12),
        Told::NoText => put_none(answers, k, at, 15),
    }
}

// ---- a text behind others

// The attribute of record k, of a table that has it.
#[tactic(auto, unfolding(crate::specs::Many::attribute_at))]
pub fn attribute_at(attributes: &[u32], k: usize) -> Attribute
    requires { attribute_width * k + attribute_width ≤ length attributes.now }
    ensures { result ≡ attribute_at attributes.now k }
{
    let at = ATTRIBUTE_WORDS * k;
    Attribute {
        owner: attributes[at + ATTRIBUTE_OWNER],
        prefix: attributes[at + ATTRIBUTE_PREFIX],
        name: StringIndex(attributes[at + ATTRIBUTE_NAME]),
        kind: attributes[at + ATTRIBUTE_TYPE],
        data: attributes[at + ATTRIBUTE_DATA],
        ns: StringIndex(attributes[at + ATTRIBUTE_NAMESPACE]),
    }
}

// The text of an attribute's value at the front of a buffer, as `value_text::value_into` has it; what stands behind it is anything. The items of
// its name are looked up with what is known of the names before (known.rt).
fn value_by(
    t: &[u8],
    names: &[u32],
    area: &[u8],
    h: Head,
    items: &[u32],
    item_area: &[u8],
    firsts: &[usize],
    starts: &mut [usize],
    ends: &mut [usize],
    out: &mut [u8],
    a: Attribute,
) -> Told
    requires { Asks t.now (lends names.now area.now) h × (table_of item_area.now items.now ≡ (Ok tt))
        × Firsts item_area.now items.now firsts.now × Knows h t.now (lends names.now area.now) items.now item_area.now starts.old ends.old }
    ensures { Tells (attribute_value h t.now (lends names.now area.now) items.now item_area.now a)
        out.old result out.new
        × Knows h t.now (lends names.now area.now) items.now item_area.now starts.new ends.new }
{
    if a.prefix == 2 {
        return uri_into(out);
    }
    let Some(run) = look_up(
        t, names, area, h, items, item_area, firsts, starts, ends, a.name,
    ) else {
        return Told::NoName;
    };
    named_into(
        t, names, area, h, items, item_area, out, run, a.kind, a.data,
    )
}

fn value_at(
    t: &[u8],
    names: &[u32],
    area: &[u8],
    h: Head,
    items: &[u32],
    item_area: &[u8],
    firsts: &[usize],
    starts: &mut [usize],
    ends: &mut [usize],
    out: &mut [u8],
    at: usize,
    a: Attribute,
) -> Told
    requires { Asks t.now (lends names.now area.now) h × (table_of item_area.now items.now ≡ (Ok tt))
        × Firsts item_area.now items.now firsts.now × Knows h t.now (lends names.now area.now) items.now item_area.now starts.old ends.old }
    ensures { TellsAt at (attribute_value h t.now (lends names.now area.now) items.now item_area.now a)
        out.old result out.new
        × Knows h t.now (lends names.now area.now) items.now item_area.now starts.new ends.new }
{
    let from = at.min(out.len());
    value_by(
        t,
        names,
        area,
        h,
        items,
        item_area,
        firsts,
        starts,
        ends,
        &mut out[from..],
        a,
    )
}

// The text of a string index at the front of a buffer; what stands behind it is anything.
fn index_into(
    t: &[u8],
    names: &[u32],
    area: &[u8],
    h: Head,
    out: &mut [u8],
    index: StringIndex,
) -> Told
    requires { Asks t.now (lends names.now area.now) h }
    ensures { Tells (value_in (content_of h t.now (lends names.now area.now) index.0)) out.old result out.new }
{
    let f = find(t, names, area, h, index);
    if found_ascii(t, area, h.utf16, f) {
        let n = found_ascii_into(t, area, h.utf16, f, out);
        return Told::Shown(n, 0, TextState::Whole);
    }
    if !is_found(f) {
        return Told::NoName;
    }
    let n = found_into(t, area, h.utf16, f, out);
    let state = found_told(t, area, h.utf16, f);
    Told::Shown(n, 0, state)
}

fn index_at(
    t: &[u8],
    names: &[u32],
    area: &[u8],
    h: Head,
    out: &mut [u8],
    at: usize,
    index: StringIndex,
) -> Told
    requires { Asks t.now (lends names.now area.now) h }
    ensures { TellsAt at (value_in (content_of h t.now (lends names.now area.now) index.0)) out.old result out.new }
{
    let from = at.min(out.len());
    index_into(t, names, area, h, &mut out[from..], index)
}

// ---- all of them

fn put_values(
    t: &[u8],
    names: &[u32],
    area: &[u8],
    h: Head,
    items: &[u32],
    item_area: &[u8],
    firsts: &[usize],
    attributes: &[u32],
    out: &mut [u8],
    answers: &mut [u32],
    count: usize,
) -> usize
    requires { Asks t.now (lends names.now area.now) h × (table_of item_area.now items.now ≡ (Ok tt))
        × Firsts item_area.now items.now firsts.now × (attribute_width * count ≤ length attributes.now) × (answer_width * count ≤ length answers.old) }
    ensures { Done (record_value h t.now (lends names.now area.now) items.now item_area.now attributes.now)
        (length out.old) (length answers.old) count result out.new answers.new }
{
    let mut starts = [0usize; KNOWN];
    let mut ends = [0usize; KNOWN];
    let mut at: usize = 0;
    for k in 0..count {
        let told = value_at(
            t,
            names,
            area,
            h,
            items,
            item_area,
            firsts,
            &mut starts,
            &mut ends,
            out,
            at,
            attribute_at(attributes, k),
        );
        at = put_told(answers, k, at, told);
    }
    at
}

fn put_texts(
    t: &[u8],
    names: &[u32],
    area: &[u8],
    h: Head,
    indices: &[u32],
    out: &mut [u8],
    answers: &mut [u32],
) -> usize
    requires { Asks t.now (lends names.now area.now) h × (answer_width * length indices.now ≤ length answers.old) }
    ensures { Done (index_value h t.now (lends names.now area.now) indices.now)
        (length out.old) (length answers.old) (length indices.now) result out.new answers.new }
{
    let mut at: usize = 0;
    for (k, index) in indices.iter().enumerate() {
        let told = index_at(t, names, area, h, out, at, StringIndex(*index));
        at = put_told(answers, k, at, told);
    }
    at
}

// ---- the answer

fn refuse(out: &mut [u8], answers: &mut [u32], why: Refusal) -> Result<TextsWritten, Refusal>
    ensures { (result ≡ Err why) × (out.new ≡ replicate (length out.old) 0) × (answers.new ≡ replicate (length answers.old) 0) }
{
    zero(out);
    zero_from(answers, 0);
    Err(why)
}

fn zero_behind(out: &mut [u8], from: usize)
    requires { from ≤ length out.old }
    ensures { out.new ≡ take from out.old ++ replicate (length out.old - from) 0 }
{
    zero(&mut out[from..]);
}

// Texts that end at a place, if they fit.
fn settle(
    out: &mut [u8],
    answers: &mut [u32],
    count: usize,
    at: usize,
) -> Result<TextsWritten, Refusal>
    requires { answer_width * count ≤ length answers.old }
    ensures { (one : ℕ → Value) → Done one (length out.old) (length answers.old) count at out.old answers.old
        → Gives (length out.old) (length answers.old) count one
        (many_by count one (length out.old) (length answers.old / answer_width)) result out.new answers.new }
{
    if out.len().min(4294967295) < at {
        return refuse(out, answers, Refusal::TextShort(at));
    }
    zero_behind(out, at);
    zero_from(answers, ANSWER_WORDS * count);
    Ok(TextsWritten { count, length: at })
}

// The values of an open file's table.
fn values_in(
    t: &[u8],
    names: &[u32],
    area: &[u8],
    h: Head,
    items: &[u32],
    item_area: &[u8],
    firsts: &[usize],
    attributes: &[u32],
    out: &mut [u8],
    answers: &mut [u32],
    attribute_count: u32,
) -> Result<TextsWritten, Refusal>
    requires { Asks t.now (lends names.now area.now) h × (table_of item_area.now items.now ≡ (Ok tt))
        × Firsts item_area.now items.now firsts.now }
    ensures { Gives (length out.old) (length answers.old) attribute_count
        (record_value h t.now (lends names.now area.now) items.now item_area.now attributes.now)
        (cond (ltb (length attributes.now) (attribute_width * attribute_count)) (Err (TablesError attribute_count))
        (many_by attribute_count (record_value h t.now (lends names.now area.now) items.now item_area.now attributes.now)
        (length out.old) (length answers.old / answer_width))) result out.new answers.new }
{
    if attributes.len() < attribute_place(attribute_count) {
        return refuse(out, answers, Refusal::TablesError(attribute_count));
    }
    let places = answers.len() / ANSWER_WORDS;
    let count = attribute_count as usize;
    if places < count {
        return refuse(out, answers, Refusal::AnswersFull(places));
    }
    let at = put_values(
        t, names, area, h, items, item_area, firsts, attributes, out, answers, count,
    );
    settle(out, answers, count, at)
}

// The strings of an open file's indices.
fn texts_in(
    t: &[u8],
    names: &[u32],
    area: &[u8],
    h: Head,
    indices: &[u32],
    out: &mut [u8],
    answers: &mut [u32],
) -> Result<TextsWritten, Refusal>
    requires { Asks t.now (lends names.now area.now) h }
    ensures { Gives (length out.old) (length answers.old) (length indices.now)
        (index_value h t.now (lends names.now area.now) indices.now)
        (many_by (length indices.now) (index_value h t.now (lends names.now area.now) indices.now)
        (length out.old) (length answers.old / answer_width)) result out.new answers.new }
{
    let places = answers.len() / ANSWER_WORDS;
    if places < indices.len() {
        return refuse(out, answers, Refusal::AnswersFull(places));
    }
    let at = put_texts(t, names, area, h, indices, out, answers);
    settle(out, answers, indices.len(), at)
}

// The values of a table's first records as text, one behind the other at the front of `out`, and the answer to each in six words of
// `answers`: 0, 12 or 15; where its text begins and how many bytes it has; the bits that no name covers; how it was damaged. What is amiss
// with the call is told first: 2, 7, 14, 1, 3, 41 to 45, 51, 52, 13 (fewer records than that), 21 (fewer places for answers, with how many),
// 11 (with the bytes needed in all). Each answer is that of `value_text`.
// Ruled out: the answer of another record, and bytes or words behind the last that are kept.
pub fn value_texts(
    file: &[u8],
    names: &[u32],
    area: &[u8],
    items: &[u32],
    item_area: &[u8],
    attributes: &[u32],
    out: &mut [u8],
    answers: &mut [u32],
    attribute_count: u32,
) -> Result<TextsWritten, Refusal>
    ensures { ReadsValues file.now (lends names.now area.now) items.now item_area.now
        attributes.now out.old answers.old attribute_count result out.new answers.new }
{
    let mut firsts = [NO_ITEM; PLACES];
    put_firsts(items, item_area, &mut firsts);
    let opened = open_known(file, names, area, items, item_area, &firsts);
    match opened {
        Ok(h) => values_in(
            tables_of(file, h),
            names,
            area,
            h,
            items,
            item_area,
            &firsts,
            attributes,
            out,
            answers,
            attribute_count,
        ),
        Err(why) => refuse(out, answers, why),
    }
}

// The texts of string indices, as `value_texts` has those of values: 2, 7, 1, 3, 41 to 45, 51, 52, 21, 11. Each answer is that of `head::text`.
// Ruled out: as above.
pub fn texts(
    file: &[u8],
    names: &[u32],
    area: &[u8],
    indices: &[u32],
    out: &mut [u8],
    answers: &mut [u32],
) -> Result<TextsWritten, Refusal>
    ensures { ReadsTexts file.now (lends names.now area.now) indices.now out.old
        answers.old result out.new answers.new }
{
    let opened = open_file(file, names, area);
    match opened {
        Ok(h) => texts_in(tables_of(file, h), names, area, h, indices, out, answers),
        Err(why) => refuse(out, answers, why),
    }
}
