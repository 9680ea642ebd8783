// The C interface: the functions of include/axml.h, with what they promise. Rattle crates call them here; C and Rust link the exports of c_api_c, which
// call them.
//
// A slice is lent as two C parameters, a pointer and a number of elements. The answers are structs of numbers, and stay so in this crate: the C
// interface needs them, since C has no enums that hold values. Notes are lent as words (crate records), in the layout of C's `struct axml_note`;
// `axml::read` has them as records, and `same-reading` (proofs/Same.antt) says that both are one reading. Definitions: specs/Words.antt,
// specs/Answers.antt.
#![tactic(auto)]

pub mod abi;
pub mod adding;
pub mod asking;
pub mod content;
pub mod relisting;
pub mod starting;
pub mod values;

ghost use Rattle.std.specs.Prelude.{◌≡◌, false, ◌+◌, ◌*◌, ◌≤◌, length};
ghost use Rattle.common.specs.Complex.{Complex};
ghost use Rattle.errors.specs.Refusal.{numbers_of, first_numbers_of};
ghost use Rattle.first_value.specs.Question.{first_answer};
ghost use Rattle.records.specs.Words.{note_width};
ghost use Rattle.xml.specs.NCName.{valid_name};
ghost use Rattle.system_types.specs.Names.{lends};
ghost use Rattle.c_api.specs.Words.{put_note, is_clearing, answer_of, ReadsWords};
ghost use Rattle.c_api.specs.Answers.{text_answer_of, first_answer_of, AsksText};

pub use abi::axml_abi;
pub use adding::{AxmlAddAnswer, axml_round_up_add};
use anomaly::Note;
pub use asking::{AxmlPairsAnswer, axml_first_values};
use common::StringIndex;
pub use content::{AxmlContentAnswer, axml_content};
use errors::{
    FirstNumbers, Numbers, ReadCounts, Refusal, TextNumbers, first_numbers, read_numbers,
    text_numbers,
};
use records::{NOTE_A, NOTE_B, NOTE_KIND, NOTE_WORDS};
pub use relisting::{AxmlRelisted, axml_read_listing};
pub use starting::{AxmlMainAnswer, axml_main_activities};
use tables::zero_from;
pub use values::{AxmlManyAnswer, AxmlValueAnswer, axml_texts, axml_value_text, axml_value_texts};
use walk::{MEMORY, NUMBERS, Stage};

// ---- the reading

// The numbers of a reading's answer.
#[repr(C)]
#[derive(Clone, Copy)]
pub struct AxmlAnswer {
    pub refusal: u32,
    pub value: u64,
    pub starts: u32,
    pub nodes: u32,
    pub attributes: u32,
    pub notes: u32,
}

// The words of a note at its place.
fn put_note(words: &mut [u32], place: usize, note: Note)
    requires { note_width * place + note_width ≤ length words.old }
    ensures { words.new ≡ put_note words.old place note }
{
    let i = NOTE_WORDS * place;
    words[i + NOTE_KIND] = note.kind;
    words[i + NOTE_A] = note.a;
    words[i + NOTE_B] = note.b;
}

// Whether the answer is known, and zeros alone are left to write.
fn is_clearing(stage: Stage) -> bool
    ensures { result ≡ is_clearing stage }
{
    matches!(stage, Stage::Clearing(_))
}

// The loop of `axml::read` over words. It clears the places behind the notes, and the words behind the last place, all at once.
fn read_words(
    file: &[u8],
    names: &[u32],
    area: &[u8],
    nodes: &mut [u32],
    attributes: &mut [u32],
    notes: &mut [u32],
    cap: u32,
    mode: u32,
) -> Result<ReadCounts, Refusal>
    ensures { ReadsWords file.now (lends names.now area.now) nodes.old attributes.old
        notes.old cap mode (answer_of (numbers_of result)) nodes.new attributes.new notes.new }
{
    let mut memory = [0u32; MEMORY];
    let mut numbers = [0u64; NUMBERS];
    let mut st = walk::begin(notes.len() / NOTE_WORDS, cap, mode);
    loop {
        st = walk::advance_knowing(
            file,
            names,
            area,
            nodes,
            attributes,
            st,
            &mut memory,
            &mut numbers,
        );
        if st.done {
            zero_from(notes, NOTE_WORDS * (notes.len() / NOTE_WORDS));
            return walk::answer_of(st);
        }
        let at = st.slot;
        let note = st.note;
        let stage = st.stage;
        put_note(notes, at, note);
        if is_clearing(stage) {
            zero_from(notes, NOTE_WORDS * at + NOTE_WORDS);
            return walk::answer_of(st);
        }
    }
}

fn answer_of(n: Numbers) -> AxmlAnswer
    ensures { result ≡ answer_of n }
{
    AxmlAnswer {
        refusal: n.refusal,
        value: n.value,
        starts: n.starts,
        nodes: n.nodes,
        attributes: n.attributes,
        notes: n.notes,
    }
}

// Reads `file` into the three tables, and answers in numbers: the reading of `axml::read` with a place for the words of each whole note in `notes`.
// Ruled out: a note of two words, and words behind the last place that are not zeroed.
#[unsafe(no_mangle)]
pub extern "C" fn axml_read(
    file: &[u8],
    names: &[u32],
    area: &[u8],
    nodes: &mut [u32],
    attributes: &mut [u32],
    notes: &mut [u32],
    cap: u32,
    mode: u32,
) -> AxmlAnswer
    ensures { ReadsWords file.now (lends names.now area.now) nodes.old attributes.old
        notes.old cap mode result nodes.new attributes.new notes.new }
{
    let answer = read_words(file, names, area, nodes, attributes, notes, cap, mode);
    answer_of(read_numbers(answer))
}

// ---- the questions

// The numbers of a text question's answer.
#[repr(C)]
#[derive(Clone, Copy)]
pub struct AxmlTextAnswer {
    pub refusal: u32,
    pub value: u64,
    pub length: u64,
    pub state: u32,
    pub replaced: u32,
}

fn text_answer_of(n: TextNumbers) -> AxmlTextAnswer
    ensures { result ≡ text_answer_of n }
{
    AxmlTextAnswer {
        refusal: n.refusal,
        value: n.value,
        length: n.length,
        state: n.state,
        replaced: n.replaced,
    }
}

// The text of a string index, in `out`: its UTF-8 and zeros behind it; on a refusal zeros alone (`head::text`).
// Ruled out: the bytes needed as the length of a refused answer, the text of another index, and state 0 for a text that is not whole.
#[unsafe(no_mangle)]
pub extern "C" fn axml_text(
    file: &[u8],
    names: &[u32],
    area: &[u8],
    out: &mut [u8],
    index: u32,
) -> AxmlTextAnswer
    ensures { AsksText file.now (lends names.now area.now) out.old index result out.new }
{
    let answer = head::text(file, names, area, out, StringIndex(index));
    text_answer_of(text_numbers(answer))
}

// The numbers of a first-value question's answer. C calls the kind `type`.
#[repr(C)]
#[derive(Clone, Copy)]
pub struct AxmlFirstAnswer {
    pub refusal: u32,
    pub value: u64,
    pub kind: u32,
    pub data: u32,
    pub reference: u32,
}

fn first_answer_of(n: FirstNumbers) -> AxmlFirstAnswer
    ensures { result ≡ first_answer_of n }
{
    AxmlFirstAnswer {
        refusal: n.refusal,
        value: n.value,
        kind: n.kind,
        data: n.data,
        reference: n.reference,
    }
}

// Type and data of the first attribute of that name on the first node of that tag (`first_value::first_value`).
// Ruled out: tag and name in each other's place, and type and data in each other's place.
#[unsafe(no_mangle)]
pub extern "C" fn axml_first_value(
    file: &[u8],
    names: &[u32],
    area: &[u8],
    nodes: &[u32],
    attributes: &[u32],
    tag: &[u8],
    name: &[u8],
    node_count: u32,
    attribute_count: u32,
) -> AxmlFirstAnswer
    ensures { result ≡ first_answer_of (first_numbers_of (first_answer file.now (lends names.now area.now)
        nodes.now attributes.now tag.now name.now node_count attribute_count)) }
{
    let answer = first_value::first_value(
        file,
        names,
        area,
        nodes,
        attributes,
        tag,
        name,
        node_count,
        attribute_count,
    );
    first_answer_of(first_numbers(answer))
}

// Whether the UTF-8 text is an NCName (`xml::is_valid_name`). Ruled out: true of `a:b`; true of `1.0`.
#[unsafe(no_mangle)]
pub extern "C" fn axml_is_valid_name(text: &[u8]) -> bool
    ensures { result ≡ valid_name false text.now }
{
    xml::is_valid_name(text)
}

// The number that a dimension or a fraction holds (`common::complex_to_float`).
// Ruled out: a product in which the low 8 bits count, and a multiplier picked by bits 5 and 6.
#[unsafe(no_mangle)]
pub extern "C" fn axml_complex_to_float(data: u32) -> f64
    ensures { Complex «data» result }
{
    common::complex_to_float(data)
}
