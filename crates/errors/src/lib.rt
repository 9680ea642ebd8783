// Why a question is refused, what the questions answer, and the numbers of an answer.
//
// Mirrors errors.rs (apk-info 13770539b8), whose names are kept for the refusals that it has: `TooSmallError`, `HeaderSizeError`,
// `MissingRoot`. Its `StringPoolError` is 41 to 45 here and its `ResourceMapError` 51 and 52, which say the part that is short and where it
// should begin; 4 and 5 are no refusal's number. The others are those of a file that is too large, of lent names, tables and buffers, and
// of a question without an answer. Definitions: specs/Refusal.antt.
#![tactic(auto)]

ghost use Rattle.std.specs.Prelude.{◌≡◌};
ghost use Rattle.errors.specs.Refusal.{refusal_number, refusal_value, numbers_of, state_of, replaced_of, text_numbers_of};
ghost use Rattle.errors.specs.Refusal.{first_numbers_of, value_numbers_of, many_numbers_of, pair_numbers_of};

// One case for each number of a refusal.
#[derive(Clone, Copy, Debug, PartialEq, Eq)]
pub enum Refusal {
    TooSmallError(usize), // 1, with the length
    TooLargeError, // 2
    HeaderSizeError(u32), // 3, with that size
    MissingRoot, // 6
    SystemNamesError(usize), // 7, with the first bad entry, or how many whole ones there are
    NodesFull(usize), // 8, with the places
    AttributesFull(usize), // 9, with the places
    NotesFull(usize), // 10, with the places
    TextShort(usize), // 11, with the bytes needed
    NothingFound, // 12
    TablesError(u32), // 13, with the first bad node, or the node count
    ItemsError(usize), // 14, with the first bad item, or how many whole ones there are
    NoPlainText(u32), // 15, with the type
    ModeError(u32), // 16, with that mode: it is neither 1 nor 2
    PairsError(usize), // 20, with the first bad pair, or how many whole ones there are
    AnswersFull(usize), // 21, with the places
    ListingMalformed(usize), // 24, with the line that is none of a listing
    ListingNumber(usize), // 25, with the line that has a number over 4294967295
    ListingOrder(usize), // 26, with the line where another was due
    NotesOff, // 27: a reading that would keep no note
    ListFull(usize), // 28, with the places
    RoundUpFull, // 29: a count of a round-up would pass 4294967295
    // what of the head is short, each with the file offset at which the missing piece should begin
    StringPoolGarbage(usize), // 41, a chunk in the pool's place
    StringPoolHeader(usize), // 42, a header of the pool, or its five numbers
    StringPoolOffsets(usize), // 43
    StringPoolStyles(usize), // 44
    StringPoolData(usize), // 45
    ResourceMapHeader(usize), // 51
    ResourceMapIds(usize), // 52
}

// What a reading counted: the starts read whole, dropped ones too, and the records that it kept.
#[derive(Clone, Copy, Debug, PartialEq, Eq)]
pub struct ReadCounts {
    pub starts: u32,
    pub nodes: u32,
    pub attributes: u32,
    pub notes: u32,
}

// What became of a text. Where it is not whole, the file does not have the characters that the text has.
#[derive(Clone, Copy, Debug, PartialEq, Eq)]
pub enum TextState {
    Whole, // 0
    Replaced(u32), // 1, with how many U+FFFD were put in
    Unpaired, // 2: UTF-16 with a surrogate that stands alone, an empty text
    Cut, // 3: the string is cut or lies outside its pool, an empty text
}

// A text that was written: its length and its state.
#[derive(Clone, Copy, Debug, PartialEq, Eq)]
pub struct TextWritten {
    pub length: usize,
    pub state: TextState,
}

// The type and the data of a first value, and whether it is a reference.
#[derive(Clone, Copy, Debug, PartialEq, Eq)]
pub struct FirstValue {
    pub kind: u32,
    pub data: u32,
    pub reference: bool,
}

// A value's text that was written: its length, how many set bits of a flag no name covers, and its state.
#[derive(Clone, Copy, Debug, PartialEq, Eq)]
pub struct ValueWritten {
    pub length: usize,
    pub uncovered: u32,
    pub state: TextState,
}

// Texts that were written at once: how many, and the bytes of all of them.
#[derive(Clone, Copy, Debug, PartialEq, Eq)]
pub struct TextsWritten {
    pub count: usize,
    pub length: usize,
}

// The numbers of a reading's answer, as a listing prints them.
#[derive(Clone, Copy, Debug, Default, PartialEq, Eq)]
pub struct Numbers {
    pub refusal: u32,
    pub value: u64,
    pub starts: u32,
    pub nodes: u32,
    pub attributes: u32,
    pub notes: u32,
}

// The numbers of a text question's answer.
#[derive(Clone, Copy, Debug, Default, PartialEq, Eq)]
pub struct TextNumbers {
    pub refusal: u32,
    pub value: u64,
    pub length: u64,
    pub state: u32,
    pub replaced: u32,
}

// The numbers of what was printed.
#[derive(Clone, Copy, Debug, Default, PartialEq, Eq)]
pub struct LinesNumbers {
    pub refusal: u32,
    pub value: u64,
    pub length: u64,
}

// The numbers of a first-value question's answer.
#[derive(Clone, Copy, Debug, Default, PartialEq, Eq)]
pub struct FirstNumbers {
    pub refusal: u32,
    pub value: u64,
    pub kind: u32,
    pub data: u32,
    pub reference: u32,
}

// The numbers of a value text's answer.
#[derive(Clone, Copy, Debug, Default, PartialEq, Eq)]
pub struct ValueNumbers {
    pub refusal: u32,
    pub value: u64,
    pub length: u64,
    pub uncovered: u32,
    pub state: u32,
    pub replaced: u32,
}

// The numbers of many texts' answer.
#[derive(Clone, Copy, Debug, Default, PartialEq, Eq)]
pub struct ManyNumbers {
    pub refusal: u32,
    pub value: u64,
    pub count: u64,
    pub length: u64,
}

// The number of a refusal. Ruled out: 0 for any refusal, and one number for two of them.
#[tactic(auto, unfolding(crate::specs::Refusal::refusal_number))]
pub fn refusal_number(r: Refusal) -> u32
    ensures { result ≡ refusal_number r }
{
    match r {
        Refusal::TooSmallError(_) => 1,
        Refusal::TooLargeError => 2,
        Refusal::HeaderSizeError(_) => 3,
        Refusal::MissingRoot => 6,
        Refusal::SystemNamesError(_) => 7,
        Refusal::NodesFull(_) => 8,
        Refusal::AttributesFull(_) => 9,
        Refusal::NotesFull(_) => 10,
        Refusal::TextShort(_) => 11,
        Refusal::NothingFound => 12,
        Refusal::TablesError(_) => 13,
        Refusal::ItemsError(_) => 14,
        Refusal::NoPlainText(_) => 15,
        Refusal::ModeError(_) => 16,
        Refusal::PairsError(_) => 20,
        Refusal::AnswersFull(_) => 21,
        Refusal::ListingMalformed(_) => 24,
        Refusal::ListingNumber(_) => 25,
        Refusal::ListingOrder(_) => 26,
        Refusal::NotesOff => 27,
        Refusal::ListFull(_) => 28,
        Refusal::RoundUpFull => 29,
        Refusal::StringPoolGarbage(_) => 41,
        Refusal::StringPoolHeader(_) => 42,
        Refusal::StringPoolOffsets(_) => 43,
        Refusal::StringPoolStyles(_) => 44,
        Refusal::StringPoolData(_) => 45,
        Refusal::ResourceMapHeader(_) => 51,
        Refusal::ResourceMapIds(_) => 52,
    }
}

// The value of a refusal. Ruled out: 0 for a refusal that has a value, and the low half of a value alone.
#[tactic(auto, unfolding(crate::specs::Refusal::refusal_value))]
pub fn refusal_value(r: Refusal) -> u64
    ensures { result ≡ refusal_value r }
{
    match r {
        Refusal::TooLargeError
        | Refusal::MissingRoot
        | Refusal::NothingFound
        | Refusal::NotesOff
        | Refusal::RoundUpFull => 0,
        Refusal::HeaderSizeError(n)
        | Refusal::TablesError(n)
        | Refusal::NoPlainText(n)
        | Refusal::ModeError(n) => u64::from(n),
        Refusal::TooSmallError(n)
        | Refusal::SystemNamesError(n)
        | Refusal::NodesFull(n)
        | Refusal::AttributesFull(n)
        | Refusal::NotesFull(n)
        | Refusal::TextShort(n)
        | Refusal::ItemsError(n)
        | Refusal::PairsError(n)
        | Refusal::AnswersFull(n)
        | Refusal::ListingMalformed(n)
        | Refusal::ListingNumber(n)
        | Refusal::ListingOrder(n)
        | Refusal::ListFull(n)
        | Refusal::StringPoolGarbage(n)
        | Refusal::StringPoolHeader(n)
        | Refusal::StringPoolOffsets(n)
        | Refusal::StringPoolStyles(n)
        | Refusal::StringPoolData(n)
        | Refusal::ResourceMapHeader(n)
        | Refusal::ResourceMapIds(n) => n as u64,
    }
}

// The numbers of a reading's answer. Ruled out: a count beside a refusal, and a refusal that is told by its value alone.
#[tactic(auto, unfolding(crate::specs::Refusal::numbers_of))]
pub fn read_numbers(a: Result<ReadCounts, Refusal>) -> Numbers
    ensures { result ≡ numbers_of a }
{
    match a {
        Ok(c) => Numbers {
            refusal: 0,
            value: 0,
            starts: c.starts,
            nodes: c.nodes,
            attributes: c.attributes,
            notes: c.notes,
        },
        Err(e) => Numbers {
            refusal: refusal_number(e),
            value: refusal_value(e),
            ..Numbers::default()
        },
    }
}

// The number of a text's state. Ruled out: one number for two states, and any number but 0 for a whole text.
pub fn state_number(s: TextState) -> u32
    ensures { result ≡ state_of s }
{
    match s {
        TextState::Whole => 0,
        TextState::Replaced(_) => 1,
        TextState::Unpaired => 2,
        TextState::Cut => 3,
    }
}

// How many characters of a text were replaced. Ruled out: any count but 0 where no U+FFFD was put in, and 1 for every damaged text.
pub fn replaced_number(s: TextState) -> u32
    ensures { result ≡ replaced_of s }
{
    match s {
        TextState::Replaced(n) => n,
        TextState::Whole | TextState::Unpaired | TextState::Cut => 0,
    }
}

// The numbers of a text question's answer. Ruled out: the bytes needed as the length of a refused answer, and a state beside a refusal.
#[tactic(auto, unfolding(crate::specs::Refusal::text_numbers_of))]
pub fn text_numbers(a: Result<TextWritten, Refusal>) -> TextNumbers
    ensures { result ≡ text_numbers_of a }
{
    match a {
        Ok(w) => TextNumbers {
            refusal: 0,
            value: 0,
            length: w.length as u64,
            state: state_number(w.state),
            replaced: replaced_number(w.state),
        },
        Err(e) => TextNumbers {
            refusal: refusal_number(e),
            value: refusal_value(e),
            ..TextNumbers::default()
        },
    }
}

// The numbers of a first-value question's answer. Ruled out: a reference in a refused answer, and type and data in each other's place.
#[tactic(auto, unfolding(crate::specs::Refusal::first_numbers_of))]
pub fn first_numbers(a: Result<FirstValue, Refusal>) -> FirstNumbers
    ensures { result ≡ first_numbers_of a }
{
    match a {
        Ok(v) => FirstNumbers {
            refusal: 0,
            value: 0,
            kind: v.kind,
            data: v.data,
            reference: u32::from(v.reference),
        },
        Err(e) => FirstNumbers {
            refusal: refusal_number(e),
            value: refusal_value(e),
            ..FirstNumbers::default()
        },
    }
}

// The numbers of a value text's answer. Ruled out: the bytes needed as the length of a refused answer, and bits or a state beside a refusal.
#[tactic(auto, unfolding(crate::specs::Refusal::value_numbers_of))]
pub fn value_numbers(a: Result<ValueWritten, Refusal>) -> ValueNumbers
    ensures { result ≡ value_numbers_of a }
{
    match a {
        Ok(w) => ValueNumbers {
            refusal: 0,
            value: 0,
            length: w.length as u64,
            uncovered: w.uncovered,
            state: state_number(w.state),
            replaced: replaced_number(w.state),
        },
        Err(e) => ValueNumbers {
            refusal: refusal_number(e),
            value: refusal_value(e),
            ..ValueNumbers::default()
        },
    }
}

// The numbers of many texts' answer. Ruled out: a count beside a refusal, and count and length in each other's place.
#[tactic(auto, unfolding(crate::specs::Refusal::many_numbers_of))]
pub fn many_numbers(a: Result<TextsWritten, Refusal>) -> ManyNumbers
    ensures { result ≡ many_numbers_of a }
{
    match a {
        Ok(w) => ManyNumbers {
            refusal: 0,
            value: 0,
            count: w.count as u64,
            length: w.length as u64,
        },
        Err(e) => ManyNumbers {
            refusal: refusal_number(e),
            value: refusal_value(e),
            ..ManyNumbers::default()
        },
    }
}

// ---- many pairs

// The numbers of many pairs' answer.
#[derive(Clone, Copy, Debug, Default, PartialEq, Eq)]
pub struct PairNumbers {
    pub refusal: u32,
    pub value: u64,
    pub count: u64,
}

// The numbers of many pairs' answer. Ruled out: a count beside a refusal, and the places as the count of a refused answer.
#[tactic(auto, unfolding(crate::specs::Refusal::pair_numbers_of))]
pub fn pair_numbers(a: Result<usize, Refusal>) -> PairNumbers
    ensures { result ≡ pair_numbers_of a }
{
    match a {
        Ok(n) => PairNumbers {
            refusal: 0,
            value: 0,
            count: n as u64,
        },
        Err(e) => PairNumbers {
            refusal: refusal_number(e),
            value: refusal_value(e),
            ..PairNumbers::default()
        },
    }
}
