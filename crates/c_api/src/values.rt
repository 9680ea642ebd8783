// The texts of values, one at a time and many at once, and many texts of string indices, for C.
//
// An attribute is handed over as the words of its record, since C has no `Attribute`; a table of answers is lent as words (crate records), in the layout
// of C's `struct axml_part`. Definitions: specs/Values.antt.
ghost use Rattle.std.specs.Prelude.{◌≡◌};
ghost use Rattle.system_types.specs.Names.{lends};
ghost use Rattle.c_api.specs.Values.{value_answer_of, many_answer_of, attribute_by, AsksValue, AsksValues, AsksTexts};

use common::StringIndex;
use errors::{ManyNumbers, ValueNumbers, many_numbers, value_numbers};
use value_text::{Attribute, value_text};

// The numbers of a value text's answer.
#[repr(C)]
#[derive(Clone, Copy)]
pub struct AxmlValueAnswer {
    pub refusal: u32,
    pub value: u64,
    pub length: u64,
    pub uncovered: u32,
    pub state: u32,
    pub replaced: u32,
}

// The numbers of many texts' answer.
#[repr(C)]
#[derive(Clone, Copy)]
pub struct AxmlManyAnswer {
    pub refusal: u32,
    pub value: u64,
    pub count: u64,
    pub length: u64,
}

fn value_answer_of(n: ValueNumbers) -> AxmlValueAnswer
    ensures { result ≡ value_answer_of n }
{
    AxmlValueAnswer {
        refusal: n.refusal,
        value: n.value,
        length: n.length,
        uncovered: n.uncovered,
        state: n.state,
        replaced: n.replaced,
    }
}

fn many_answer_of(n: ManyNumbers) -> AxmlManyAnswer
    ensures { result ≡ many_answer_of n }
{
    AxmlManyAnswer {
        refusal: n.refusal,
        value: n.value,
        count: n.count,
        length: n.length,
    }
}

// The text of an attribute's value, in `out`: its UTF-8 and zeros behind it; on a refusal zeros alone (`value_text::value_text`).
// Ruled out: type and data in each other's place, and bits that are told beside a refusal.
#[unsafe(no_mangle)]
pub extern "C" fn axml_value_text(
    file: &[u8],
    names: &[u32],
    area: &[u8],
    items: &[u32],
    item_area: &[u8],
    out: &mut [u8],
    owner: u32,
    prefix: u32,
    name: u32,
    kind: u32,
    data: u32,
    ns: u32,
) -> AxmlValueAnswer
    ensures { AsksValue file.now (lends names.now area.now) items.now item_area.now
        out.old (attribute_by owner prefix name kind «data» ns) result out.new }
{
    let attribute = Attribute {
        owner,
        prefix,
        name: StringIndex(name),
        kind,
        data,
        ns: StringIndex(ns),
    };
    let answer = value_text(file, names, area, items, item_area, out, attribute);
    value_answer_of(value_numbers(answer))
}

// The values of a table's first records, as text (`many_texts::value_texts`).
// Ruled out: the number of records as the bytes of their texts.
#[unsafe(no_mangle)]
pub extern "C" fn axml_value_texts(
    file: &[u8],
    names: &[u32],
    area: &[u8],
    items: &[u32],
    item_area: &[u8],
    attributes: &[u32],
    out: &mut [u8],
    answers: &mut [u32],
    attribute_count: u32,
) -> AxmlManyAnswer
    ensures { AsksValues file.now (lends names.now area.now) items.now item_area.now
        attributes.now out.old answers.old attribute_count result out.new answers.new }
{
    let answer = many_texts::value_texts(
        file,
        names,
        area,
        items,
        item_area,
        attributes,
        out,
        answers,
        attribute_count,
    );
    many_answer_of(many_numbers(answer))
}

// The texts of string indices (`many_texts::texts`).
// Ruled out: as above.
#[unsafe(no_mangle)]
pub extern "C" fn axml_texts(
    file: &[u8],
    names: &[u32],
    area: &[u8],
    indices: &[u32],
    out: &mut [u8],
    answers: &mut [u32],
) -> AxmlManyAnswer
    ensures { AsksTexts file.now (lends names.now area.now) indices.now out.old
        answers.old result out.new answers.new }
{
    let answer = many_texts::texts(file, names, area, indices, out, answers);
    many_answer_of(many_numbers(answer))
}
