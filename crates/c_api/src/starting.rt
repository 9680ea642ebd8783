// Which screens a launcher starts, for C: the tables are lent as words, and so is the list of attribute numbers.
//
// The function of crate main_activities as it stands; its answer is a struct of numbers. Definitions: specs/Starting.antt.
ghost use Rattle.std.specs.Prelude.{◌≡◌};
ghost use Rattle.system_types.specs.Names.{lends};
ghost use Rattle.c_api.specs.Starting.{main_answer_of, AsksMain};

use main_activities::{MainNumbers, main_numbers};

// The numbers of the answer: how many names there are, or why that is not told.
#[repr(C)]
#[derive(Clone, Copy)]
pub struct AxmlMainAnswer {
    pub refusal: u32,
    pub value: u64,
    pub count: u64,
}

fn main_answer_of(n: MainNumbers) -> AxmlMainAnswer
    ensures { result ≡ main_answer_of n }
{
    AxmlMainAnswer {
        refusal: n.refusal,
        value: n.value,
        count: n.count,
    }
}

// The attribute numbers of the names of the activities and aliases that a launcher starts, in `list`, zeros behind them; on a refusal zeros
// alone (`main_activities::main_activities`). Ruled out: the places as the count of a refused call, and the front of the list kept beside 28.
#[unsafe(no_mangle)]
pub extern "C" fn axml_main_activities(
    file: &[u8],
    names: &[u32],
    area: &[u8],
    items: &[u32],
    item_area: &[u8],
    nodes: &[u32],
    attributes: &[u32],
    list: &mut [u32],
    node_count: u32,
    attribute_count: u32,
) -> AxmlMainAnswer
    ensures { AsksMain file.now (lends names.now area.now) items.now item_area.now
        nodes.now attributes.now list.old node_count attribute_count result list.new }
{
    let answer = main_activities::main_activities(
        file,
        names,
        area,
        items,
        item_area,
        nodes,
        attributes,
        list,
        node_count,
        attribute_count,
    );
    main_answer_of(main_numbers(answer))
}
