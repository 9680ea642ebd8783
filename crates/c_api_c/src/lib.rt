// The static library that C links: one export for each function of include/axml.h, under its name there.
//
// A crate is built either for other Rattle crates or for C. c_api is the library: it has the code, the structs and the promises, and other crates use it.
// Here is nothing of its own: each export calls the function of its name in c_api, and promises what that one promises, clause for clause.
// What a promise rules out is told there.
#![tactic(auto)]

ghost use Rattle.std.specs.Prelude.{◌≡◌, false};
ghost use Rattle.common.specs.Complex.{Complex};
ghost use Rattle.errors.specs.Refusal.{first_numbers_of};
ghost use Rattle.first_value.specs.Question.{first_answer};
ghost use Rattle.xml.specs.NCName.{valid_name};
ghost use Rattle.system_types.specs.Names.{lends};
ghost use Rattle.c_api.specs.Abi.{abi};
ghost use Rattle.c_api.specs.Adding.{AddsWords};
ghost use Rattle.c_api.specs.Answers.{first_answer_of, AsksText};
ghost use Rattle.c_api.specs.Asking.{AsksMany};
ghost use Rattle.c_api.specs.Place.{AsksContent};
ghost use Rattle.c_api.specs.Relisting.{RelistsWords};
ghost use Rattle.c_api.specs.Starting.{AsksMain};
ghost use Rattle.c_api.specs.Values.{attribute_by, AsksValue, AsksValues, AsksTexts};
ghost use Rattle.c_api.specs.Words.{ReadsWords};

use c_api::{
    AxmlAddAnswer, AxmlAnswer, AxmlContentAnswer, AxmlFirstAnswer, AxmlMainAnswer, AxmlManyAnswer,
    AxmlPairsAnswer, AxmlRelisted, AxmlTextAnswer, AxmlValueAnswer,
};

#[unsafe(no_mangle)]
pub extern "C" fn axml_abi() -> u32
    ensures { result ≡ abi }
{
    c_api::axml_abi()
}

#[unsafe(no_mangle)]
pub extern "C" fn axml_read(
    file: &[u8],
    names: &[u32],
    area: &[u8],
    nodes: &mut [u32],
    attributes: &mut [u32],
    notes: &mut [u32],
    cap: u32,
    mode: u32,
) -> AxmlAnswer
    ensures { ReadsWords file.now (lends names.now area.now) nodes.old attributes.old
        notes.old cap mode result nodes.new attributes.new notes.new }
{
    c_api::axml_read(file, names, area, nodes, attributes, notes, cap, mode)
}

#[unsafe(no_mangle)]
pub extern "C" fn axml_text(
    file: &[u8],
    names: &[u32],
    area: &[u8],
    out: &mut [u8],
    index: u32,
) -> AxmlTextAnswer
    ensures { AsksText file.now (lends names.now area.now) out.old index result out.new }
{
    c_api::axml_text(file, names, area, out, index)
}

#[unsafe(no_mangle)]
pub extern "C" fn axml_content(
    file: &[u8],
    names: &[u32],
    area: &[u8],
    index: u32,
) -> AxmlContentAnswer
    ensures { AsksContent file.now (lends names.now area.now) index result }
{
    c_api::axml_content(file, names, area, index)
}

#[unsafe(no_mangle)]
pub extern "C" fn axml_first_value(
    file: &[u8],
    names: &[u32],
    area: &[u8],
    nodes: &[u32],
    attributes: &[u32],
    tag: &[u8],
    name: &[u8],
    node_count: u32,
    attribute_count: u32,
) -> AxmlFirstAnswer
    ensures { result ≡ first_answer_of (first_numbers_of (first_answer file.now (lends names.now area.now)
        nodes.now attributes.now tag.now name.now node_count attribute_count)) }
{
    c_api::axml_first_value(
        file,
        names,
        area,
        nodes,
        attributes,
        tag,
        name,
        node_count,
        attribute_count,
    )
}

#[unsafe(no_mangle)]
pub extern "C" fn axml_value_text(
    file: &[u8],
    names: &[u32],
    area: &[u8],
    items: &[u32],
    item_area: &[u8],
    out: &mut [u8],
    owner: u32,
    prefix: u32,
    name: u32,
    kind: u32,
    data: u32,
    ns: u32,
) -> AxmlValueAnswer
    ensures { AsksValue file.now (lends names.now area.now) items.now item_area.now
        out.old (attribute_by owner prefix name kind «data» ns) result out.new }
{
    c_api::axml_value_text(
        file, names, area, items, item_area, out, owner, prefix, name, kind, data, ns,
    )
}

#[unsafe(no_mangle)]
pub extern "C" fn axml_value_texts(
    file: &[u8],
    names: &[u32],
    area: &[u8],
    items: &[u32],
    item_area: &[u8],
    attributes: &[u32],
    out: &mut [u8],
    answers: &mut [u32],
    attribute_count: u32,
) -> AxmlManyAnswer
    ensures { AsksValues file.now (lends names.now area.now) items.now item_area.now
        attributes.now out.old answers.old attribute_count result out.new answers.new }
{
    c_api::axml_value_texts(
        file,
        names,
        area,
        items,
        item_area,
        attributes,
        out,
        answers,
        attribute_count,
    )
}

#[unsafe(no_mangle)]
pub extern "C" fn axml_texts(
    file: &[u8],
    names: &[u32],
    area: &[u8],
    indices: &[u32],
    out: &mut [u8],
    answers: &mut [u32],
) -> AxmlManyAnswer
    ensures { AsksTexts file.now (lends names.now area.now) indices.now out.old
        answers.old result out.new answers.new }
{
    c_api::axml_texts(file, names, area, indices, out, answers)
}

#[unsafe(no_mangle)]
pub extern "C" fn axml_first_values(
    file: &[u8],
    names: &[u32],
    area: &[u8],
    nodes: &[u32],
    attributes: &[u32],
    pairs: &[u32],
    pair_area: &[u8],
    answers: &mut [u32],
    node_count: u32,
    attribute_count: u32,
) -> AxmlPairsAnswer
    ensures { AsksMany file.now (lends names.now area.now) nodes.now attributes.now
        pairs.now pair_area.now answers.old node_count attribute_count result answers.new }
{
    c_api::axml_first_values(
        file,
        names,
        area,
        nodes,
        attributes,
        pairs,
        pair_area,
        answers,
        node_count,
        attribute_count,
    )
}

#[unsafe(no_mangle)]
pub extern "C" fn axml_main_activities(
    file: &[u8],
    names: &[u32],
    area: &[u8],
    items: &[u32],
    item_area: &[u8],
    nodes: &[u32],
    attributes: &[u32],
    list: &mut [u32],
    node_count: u32,
    attribute_count: u32,
) -> AxmlMainAnswer
    ensures { AsksMain file.now (lends names.now area.now) items.now item_area.now
        nodes.now attributes.now list.old node_count attribute_count result list.new }
{
    c_api::axml_main_activities(
        file,
        names,
        area,
        items,
        item_area,
        nodes,
        attributes,
        list,
        node_count,
        attribute_count,
    )
}

#[unsafe(no_mangle)]
pub extern "C" fn axml_round_up_add(
    round_up: &mut [u32],
    notes: &[u32],
    refusal: u32,
    note_count: u32,
    file_bytes: usize,
) -> AxmlAddAnswer
    ensures { AddsWords round_up.old notes.now refusal note_count file_bytes result round_up.new }
{
    c_api::axml_round_up_add(round_up, notes, refusal, note_count, file_bytes)
}

#[unsafe(no_mangle)]
pub extern "C" fn axml_read_listing(
    text: &[u8],
    nodes: &mut [u32],
    attributes: &mut [u32],
    notes: &mut [u32],
) -> AxmlRelisted
    ensures { RelistsWords text.now nodes.old attributes.old notes.old result
        nodes.new attributes.new notes.new }
{
    c_api::axml_read_listing(text, nodes, attributes, notes)
}

#[unsafe(no_mangle)]
pub extern "C" fn axml_is_valid_name(text: &[u8]) -> bool
    ensures { result ≡ valid_name false text.now }
{
    c_api::axml_is_valid_name(text)
}

#[unsafe(no_mangle)]
pub extern "C" fn axml_complex_to_float(data: u32) -> f64
    ensures { Complex «data» result }
{
    c_api::axml_complex_to_float(data)
}
