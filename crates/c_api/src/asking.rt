// Many pairs of tag and name at once, for C: the pairs are lent as words over an area of bytes, the answers as a list of words.
//
// The function of crate first_values as it stands; its answer is a struct of numbers. Definitions: specs/Asking.antt.
ghost use Rattle.std.specs.Prelude.{◌≡◌};
ghost use Rattle.system_types.specs.Names.{lends};
ghost use Rattle.c_api.specs.Asking.{pairs_answer_of, AsksMany};

use errors::{PairNumbers, pair_numbers};

// The numbers of the answer: how many pairs were answered, or why none was.
#[repr(C)]
#[derive(Clone, Copy)]
pub struct AxmlPairsAnswer {
    pub refusal: u32,
    pub value: u64,
    pub count: u64,
}

fn pairs_answer_of(n: PairNumbers) -> AxmlPairsAnswer
    ensures { result ≡ pairs_answer_of n }
{
    AxmlPairsAnswer {
        refusal: n.refusal,
        value: n.value,
        count: n.count,
    }
}

// What `axml_first_value` answers to each pair, in `answers`, four words each and zeros behind them (`first_values::first_values`).
// Ruled out: 12 as the answer to the call, and the places as the count of a refused call.
#[unsafe(no_mangle)]
pub extern "C" fn axml_first_values(
    file: &[u8],
    names: &[u32],
    area: &[u8],
    nodes: &[u32],
    attributes: &[u32],
    pairs: &[u32],
    pair_area: &[u8],
    answers: &mut [u32],
    node_count: u32,
    attribute_count: u32,
) -> AxmlPairsAnswer
    ensures { AsksMany file.now (lends names.now area.now) nodes.now attributes.now
        pairs.now pair_area.now answers.old node_count attribute_count result answers.new }
{
    let answer = first_values::first_values(
        file,
        names,
        area,
        nodes,
        attributes,
        pairs,
        pair_area,
        answers,
        node_count,
        attribute_count,
    );
    pairs_answer_of(pair_numbers(answer))
}
