// Many pairs of tag and name, asked of one file and its tables at once: the names are checked, the head is opened and the tables are looked at
// once, whatever the number of pairs.
//
// Mirrors axml.rs (apk-info 13770539b8), `get_attribute_value`, called once for each pair. Answers: how many, or a refusal, and a lent list
// of words. Definitions: specs/Pairs.antt, over those of the single question (crate first_value), which answers each pair.
#![tactic(auto)]

pub mod pairs;

ghost use Rattle.std.specs.Prelude.{◌≡◌, List, ◌++◌, ◌+◌, ◌*◌, ◌/◌, ◌≤◌, length, take, drop, Ok, Err};
ghost use Rattle.records.specs.Words.{node_width, pair_width, answer_width};
ghost use Rattle.system_types.specs.Names.{lends};
ghost use Rattle.text.specs.Inner.Found.{Asks};
ghost use Rattle.first_value.specs.Question.{fit_of};
ghost use Rattle.first_values.specs.Pairs.{tag_at, pairs_of, number_words, answers_from, many_by, ManyReads};
ghost use Rattle.first_values.specs.Inner.Known.{finds_in, asks_in, NodeOf, Gives};

use errors::{FirstNumbers, Refusal, first_numbers};
use first_value::{find_node, open_tables, value_of};
use head::tables_of;
use pairs::{name_at, read_pairs, repeats_tag, tag_at};
use records::{ANSWER_DATA, ANSWER_REFERENCE, ANSWER_REFUSAL, ANSWER_TYPE, ANSWER_WORDS};
use tables::{zero_all, zero_from};
use text::Head;

// ---- one pair

// The node of pair k: the last one, where the pair before it has the same tag; else it is looked for.
fn node_for(
    t: &[u8],
    names: &[u32],
    area: &[u8],
    h: Head,
    nodes: &[u32],
    pairs: &[u32],
    pair_area: &[u8],
    node_count: u32,
    k: usize,
    last: Option<(u32, u32)>,
) -> Option<(u32, u32)>
    requires { Asks t.now (lends names.now area.now) h × (node_width * node_count ≤ length nodes.now)
        × (pair_width * k + pair_width ≤ length pairs.now)
        × NodeOf (finds_in h t.now (lends names.now area.now) nodes.now node_count) pairs.now pair_area.now k last }
    ensures { result ≡ finds_in h t.now (lends names.now area.now) nodes.now node_count
        (tag_at pairs.now pair_area.now k) }
{
    if repeats_tag(pairs, pair_area, k) {
        return last;
    }
    find_node(
        t,
        names,
        area,
        h,
        tag_at(pairs, pair_area, k),
        nodes,
        node_count,
    )
}

// The words of the answer to pair k.
fn put_answer(answers: &mut [u32], k: usize, n: FirstNumbers)
    requires { answer_width * k + answer_width ≤ length answers.old }
    ensures { answers.new ≡ take (answer_width * k) answers.old ++ number_words n
        ++ drop (answer_width * k + answer_width) answers.old }
{
    let i = ANSWER_WORDS * k;
    answers[i + ANSWER_REFUSAL] = n.refusal;
    answers[i + ANSWER_TYPE] = n.kind;
    answers[i + ANSWER_DATA] = n.data;
    answers[i + ANSWER_REFERENCE] = n.reference;
}

// ---- all pairs

// The answers to n pairs, one behind the other, at the front of a list that has room for them.
fn answer_each(
    t: &[u8],
    names: &[u32],
    area: &[u8],
    h: Head,
    nodes: &[u32],
    attributes: &[u32],
    pairs: &[u32],
    pair_area: &[u8],
    answers: &mut [u32],
    node_count: u32,
    attribute_count: u32,
    n: usize,
)
    requires { Asks t.now (lends names.now area.now) h × (fit_of nodes.now attributes.now node_count attribute_count ≡ (Ok tt))
        × (pair_width * n ≤ length pairs.now) × (answer_width * n ≤ length answers.old) }
    ensures { answers.new
        ≡ answers_from (asks_in h t.now (lends names.now area.now) nodes.now node_count attributes.now)
        pair_area.now n pairs.now ++ drop (answer_width * n) answers.old }
{
    let mut node = None;
    for k in 0..n {
        node = node_for(
            t, names, area, h, nodes, pairs, pair_area, node_count, k, node,
        );
        let value = value_of(
            t,
            names,
            area,
            h,
            name_at(pairs, pair_area, k),
            attributes,
            node,
        );
        put_answer(answers, k, first_numbers(value));
    }
}

// Zeros all over, and the refusal.
fn refuse(answers: &mut [u32], why: Refusal) -> Result<usize, Refusal>
    ensures { (words : List _) → Gives (length answers.old) words (Err why) result answers.new }
{
    zero_all(answers);
    Err(why)
}

// Of n pairs that lie in the area, where the list has a place for each.
fn answer_pairs(
    t: &[u8],
    names: &[u32],
    area: &[u8],
    h: Head,
    nodes: &[u32],
    attributes: &[u32],
    pairs: &[u32],
    pair_area: &[u8],
    answers: &mut [u32],
    node_count: u32,
    attribute_count: u32,
    n: usize,
) -> Result<usize, Refusal>
    requires { Asks t.now (lends names.now area.now) h × (fit_of nodes.now attributes.now node_count attribute_count ≡ (Ok tt))
        × (pair_width * n ≤ length pairs.now) }
    ensures { Gives (length answers.old)
        (answers_from (asks_in h t.now (lends names.now area.now) nodes.now node_count attributes.now)
        pair_area.now n pairs.now)
        (many_by (length answers.old / answer_width) (Ok n)) result answers.new }
{
    let places = answers.len() / ANSWER_WORDS;
    if places < n {
        return refuse(answers, Refusal::AnswersFull(places));
    }
    answer_each(
        t,
        names,
        area,
        h,
        nodes,
        attributes,
        pairs,
        pair_area,
        answers,
        node_count,
        attribute_count,
        n,
    );
    zero_from(answers, ANSWER_WORDS * n);
    Ok(n)
}

// All pairs are looked at before any is answered.
fn answers_in(
    t: &[u8],
    names: &[u32],
    area: &[u8],
    h: Head,
    nodes: &[u32],
    attributes: &[u32],
    pairs: &[u32],
    pair_area: &[u8],
    answers: &mut [u32],
    node_count: u32,
    attribute_count: u32,
) -> Result<usize, Refusal>
    requires { Asks t.now (lends names.now area.now) h × (fit_of nodes.now attributes.now node_count attribute_count ≡ (Ok tt)) }
    ensures { Gives (length answers.old)
        (answers_from (asks_in h t.now (lends names.now area.now) nodes.now node_count attributes.now)
        pair_area.now (length pairs.now / pair_width) pairs.now)
        (many_by (length answers.old / answer_width) (pairs_of pairs.now pair_area.now)) result answers.new }
{
    let read = read_pairs(pairs, pair_area);
    match read {
        Ok(n) => answer_pairs(
            t,
            names,
            area,
            h,
            nodes,
            attributes,
            pairs,
            pair_area,
            answers,
            node_count,
            attribute_count,
            n,
        ),
        Err(k) => refuse(answers, Refusal::PairsError(k)),
    }
}

// The answers to pairs of tag and name, parts of `pair_area`, in `answers`: four words each, what `first_value` answers to that pair, zeros
// behind them; on a refusal zeros alone. Any number of pairs will do. The answer tells the first that is amiss: what refuses any question to
// this file and these tables (2, 7, 1, 3, those of the head, 13), then 20 (a pair outside its area, or words left over) and 21 (a place too few).
// Ruled out: 12 as the answer to the call, the answer of a pair beside that of its neighbour, and answers kept behind a refusal.
pub fn first_values(
    file: &[u8],
    names: &[u32],
    area: &[u8],
    nodes: &[u32],
    attributes: &[u32],
    pairs: &[u32],
    pair_area: &[u8],
    answers: &mut [u32],
    node_count: u32,
    attribute_count: u32,
) -> Result<usize, Refusal>
    ensures { ManyReads file.now (lends names.now area.now) nodes.now attributes.now
        pairs.now pair_area.now answers.old node_count attribute_count result answers.new }
{
    let opened = open_tables(
        file,
        names,
        area,
        nodes,
        attributes,
        node_count,
        attribute_count,
    );
    match opened {
        Ok(h) => answers_in(
            tables_of(file, h),
            names,
            area,
            h,
            nodes,
            attributes,
            pairs,
            pair_area,
            answers,
            node_count,
            attribute_count,
        ),
        Err(why) => refuse(answers, why),
    }
}
