// What the words of a record are: of a node, an attribute, a note, a lent system name, a lent item, a pair of a question and its answer, each
// word by its name; how long a file may be; and the room of a listing. The one place that knows these numbers in code, as specs/Words.antt and specs/Limits.antt are in definitions.
//
// Mirrors nothing of the Rust's, whose tree has vectors and structs of its own. docs/FORMAT.md, B2, B9, B11, B12, N4, V3, M1, M4, L1.
// A further word of a record is its width, its place and its parameter here; who stores the record gives the word, and nobody else changes.
#![tactic(auto)]

ghost use Rattle.std.specs.Prelude.{◌≡◌, ◌++◌, ◌+◌, ◌*◌, ◌≤◌, length, drop, take};
ghost use Rattle.records.specs.Words.{node_width, attribute_width, node_words, attribute_words};

use anomaly::KINDS;

// ---- a node

pub const NODE_WORDS: usize = 6;
// the index of its name
pub const NODE_NAME: usize = 0;
// 1 for `invalid-element`, else 0
pub const NODE_FIXED: usize = 1;
// the number of its parent, NO_PARENT for the first
pub const NODE_PARENT: usize = 2;
// the number of its first attribute
pub const NODE_FIRST: usize = 3;
// how many attributes it has
pub const NODE_COUNT: usize = 4;
// the line of its start chunk, as read
pub const NODE_LINE: usize = 5;

pub const NO_PARENT: u32 = 4294967295;

// ---- an attribute

pub const ATTRIBUTE_WORDS: usize = 6;
// the number of its node
pub const ATTRIBUTE_OWNER: usize = 0;
// 0 none, 1 `android`, 2 that of the leading attribute, 3 a namespace of its own
pub const ATTRIBUTE_PREFIX: usize = 1;
// the index of its name
pub const ATTRIBUTE_NAME: usize = 2;

pub const ATTRIBUTE_TYPE: usize = 3;

pub const ATTRIBUTE_DATA: usize = 4;
// the index of its namespace, as it was read; 0 for the leading attribute, whose 0 is no index
pub const ATTRIBUTE_NAMESPACE: usize = 5;

// The prefix of a namespace that has a text and is not Android's, where these are told apart.
pub const OWN_PREFIX: u32 = 3;

// ---- a note lent as words

pub const NOTE_WORDS: usize = 3;

pub const NOTE_KIND: usize = 0;

pub const NOTE_A: usize = 1;

pub const NOTE_B: usize = 2;

// ---- a lent system name

pub const NAME_WORDS: usize = 3;

pub const NAME_ID: usize = 0;
// where its text begins in the area
pub const NAME_START: usize = 1;
// the bytes of its text
pub const NAME_LENGTH: usize = 2;

// ---- a lent item: a named value of an attribute

pub const ITEM_WORDS: usize = 6;
// where the attribute's name begins in the area
pub const ITEM_ATTRIBUTE: usize = 0;
// the bytes of the attribute's name
pub const ITEM_ATTRIBUTE_LENGTH: usize = 1;
// 0 enum, 1 flag
pub const ITEM_KIND: usize = 2;
// where its own name begins in the area
pub const ITEM_NAME: usize = 3;
// the bytes of its own name
pub const ITEM_NAME_LENGTH: usize = 4;

pub const ITEM_VALUE: usize = 5;

// ---- a pair of a question: parts of an area of bytes

pub const PAIR_WORDS: usize = 4;
// where its tag begins in the area
pub const PAIR_TAG: usize = 0;
// the bytes of its tag
pub const PAIR_TAG_LENGTH: usize = 1;
// where its name begins in the area
pub const PAIR_NAME: usize = 2;
// the bytes of its name
pub const PAIR_NAME_LENGTH: usize = 3;

// ---- the answer to a pair

pub const ANSWER_WORDS: usize = 4;
// 0 where a value was found, else 12
pub const ANSWER_REFUSAL: usize = 0;

pub const ANSWER_TYPE: usize = 1;

pub const ANSWER_DATA: usize = 2;
// 1 for a reference, else 0
pub const ANSWER_REFERENCE: usize = 3;

// ---- the mode of a reading

// Every namespace with a text is `android`, as in the Rust.
pub const MERGED: u32 = 1;

// Android's namespace and others are told apart.
pub const APART: u32 = 2;

// ---- limits

// A file of more bytes is refused.
pub const FILE_LIMIT: usize = 16777216;

// ---- a listing

// The longest file that is listed, and the room that suffices for each of these.
pub const LISTED_FILE: usize = 54272;

pub const LISTED_NODES: usize = 2048;

pub const LISTED_ATTRIBUTES: usize = 2730;
// How many notes of a kind are listed, and of all kinds.
pub const LISTED_CAP: u32 = 8;

pub const LISTED_NOTES: usize = (LISTED_CAP as usize) * KINDS;

// The first word of a node. Ruled out: the width for the first node, and a product that wraps.
pub fn node_place(k: u32) -> usize
    ensures { result ≡ node_width * k }
{
    NODE_WORDS * (k as usize)
}

// The first word of an attribute. Ruled out: as above.
pub fn attribute_place(k: u32) -> usize
    ensures { result ≡ attribute_width * k }
{
    ATTRIBUTE_WORDS * (k as usize)
}

// The words of a node, from the place `i` on. Ruled out: two words in each other's place, and a word changed before or behind them.
pub fn put_node(
    words: &mut [u32],
    i: usize,
    name: u32,
    fixed: u32,
    parent: u32,
    first: u32,
    count: u32,
    line: u32,
)
    requires { i + node_width ≤ length words.old }
    ensures { words.new
        ≡ take i words.old ++ node_words name fixed parent first count line ++ drop (i + node_width) words.old }
{
    words[i + NODE_NAME] = name;
    words[i + NODE_FIXED] = fixed;
    words[i + NODE_PARENT] = parent;
    words[i + NODE_FIRST] = first;
    words[i + NODE_COUNT] = count;
    words[i + NODE_LINE] = line;
}

// The words of an attribute, from the place `i` on. Ruled out: as above.
pub fn put_attribute(
    words: &mut [u32],
    i: usize,
    owner: u32,
    prefix: u32,
    name: u32,
    kind: u32,
    data: u32,
    ns: u32,
)
    requires { i + attribute_width ≤ length words.old }
    ensures { words.new
        ≡ take i words.old ++ attribute_words owner prefix name kind «data» ns ++ drop (i + attribute_width) words.old }
{
    words[i + ATTRIBUTE_OWNER] = owner;
    words[i + ATTRIBUTE_PREFIX] = prefix;
    words[i + ATTRIBUTE_NAME] = name;
    words[i + ATTRIBUTE_TYPE] = kind;
    words[i + ATTRIBUTE_DATA] = data;
    words[i + ATTRIBUTE_NAMESPACE] = ns;
}
