// The round-up of a month of files: how many were read, how many refused by number, and the notes kept by kind and by the size of the file.
//
// Mirrors nothing of the Rust's. A round-up goes in by value and comes back: with the file added, or as it was where a count would pass
// 4,294,967,295 (refusal 29). It is the sum of what each file adds, so that the order of files changes nothing.
// Definitions: specs/RoundUp.antt, specs/Kinds.antt. What holds of a history of files: specs/History.antt, proofs/Sums.antt, Order.antt, Told.antt.
#![tactic(auto)]

ghost use Rattle.std.specs.Prelude.{◌≡◌, ℕ, ◌<◌, true, length, get_or};
ghost use Rattle.round_up.specs.RoundUp.{empty_round_up, files_read, refused_by, notes_of};
ghost use Rattle.round_up.specs.RoundUp.{class_of, read_share, refused_share, share_by, share_of};
ghost use Rattle.round_up.specs.RoundUp.{sums, has_room, AddsShare, added_of, full_of, added_to, add_numbers};
ghost use Rattle.round_up.specs.Kinds.{kinds_in};
ghost use Rattle.round_up.specs.Inner.Turns.{counted_in};

use errors::{ReadCounts, Refusal, read_numbers, refusal_number, refusal_value};
use records::NOTE_WORDS;

// The Rust's kinds, 0 to 12, which have a row in the grid; the size classes; and the numbers of refusals, 0 to 52.
pub const ROUND_UP_KINDS: usize = 13;

pub const CLASSES: usize = 6;

pub const NUMBERS: usize = 53;

// Where the counts by number and the grid begin, and how many counts there are in all.
pub const REFUSED_FROM: usize = 1;

pub const GRID_FROM: usize = REFUSED_FROM + NUMBERS;

pub const PLACES: usize = GRID_FROM + CLASSES * ROUND_UP_KINDS;

const LARGEST: u32 = u32::MAX;

// The counts: files read, files refused by number, and the grid kind by kind; `files_read`, `refused_by` and `notes_of` say what stands where.
#[derive(Clone, Copy, Debug, PartialEq, Eq)]
pub struct RoundUp {
    pub counts: [u32; PLACES],
}

// The answer, and the round-up from now on.
#[derive(Clone, Copy, Debug, PartialEq, Eq)]
pub struct Added {
    pub answer: Result<(), Refusal>,
    pub round_up: RoundUp,
}

// The numbers of an answer to a file that is to be added.
#[derive(Clone, Copy, Debug, PartialEq, Eq)]
pub struct AddNumbers {
    pub refusal: u32,
    pub value: u64,
}

// ---- a round-up, and what stands in it

// The round-up before the first file. Ruled out: a count that is not 0.
pub fn empty_round_up() -> RoundUp
    ensures { result ≡ empty_round_up }
{
    RoundUp {
        counts: [0u32; PLACES],
    }
}

// How many files were read. Ruled out: those that were refused counted with them.
pub fn files_read(round_up: RoundUp) -> u32
    ensures { result ≡ files_read round_up }
{
    round_up.counts[0]
}

// How many files were refused with this number; 0 for a number that no refusal has.
// Ruled out: the count of the next number, and a place of the grid.
pub fn refused_by(round_up: RoundUp, number: u32) -> u32
    ensures { result ≡ refused_by round_up number }
{
    let at = number as usize;
    if at < NUMBERS {
        return round_up.counts[REFUSED_FROM + at];
    }
    0
}

// How many notes of this kind were kept in files of this class; 0 for a kind or a class that the grid has not.
// Ruled out: kind and class in each other's place, and a place behind the grid.
pub fn notes_of(round_up: RoundUp, kind: u32, class: u32) -> u32
    ensures { result ≡ notes_of round_up kind class }
{
    let row = kind as usize;
    let column = class as usize;
    if row < ROUND_UP_KINDS && column < CLASSES {
        return round_up.counts[GRID_FROM + (CLASSES * row + column)];
    }
    0
}

// ---- the notes of a table by kind

// The counts with one more of this kind. Ruled out: kind 32, or any other number above 12, counted.
fn count_kind(counts: &mut [u32; ROUND_UP_KINDS], kind: u32)
    requires { (k : ℕ) → get_or counts.old k 0 < 4294967295 }
    ensures { counts.new ≡ counted_in counts.old kind }
{
    let at = kind as usize;
    if at < ROUND_UP_KINDS {
        counts[at] += 1;
    }
}

// How many of the first `notes` notes of a table are of each kind, 0 to 12. The table is lent as words, three to a note, and may hold any.
// Ruled out: kind 32 counted, the numbers a and b of a note taken for kinds, and zeros behind the last note taken for notes of kind 0.
pub fn kinds_in(words: &[u32], notes: u32) -> [u32; ROUND_UP_KINDS]
    ensures { result ≡ kinds_in words.now notes }
{
    let n = (notes as usize).min(words.len() / NOTE_WORDS);
    let mut counts = [0u32; ROUND_UP_KINDS];
    for i in 0..n {
        count_kind(&mut counts, words[NOTE_WORDS * i]);
    }
    counts
}

// ---- what a file adds

// The size class of a file: 0 up to 4,096 bytes, 1 up to 16,384, 2 up to 65,536, 3 up to 262,144, 4 up to 1,048,576, 5 above.
// Ruled out: a file of 4,096 bytes in class 1, and one of 1,048,577 in class 4.
#[tactic(auto, unfolding(crate::specs::RoundUp::class_of))]
pub fn class_of(file_length: usize) -> usize
    ensures { result ≡ class_of file_length }
{
    match file_length {
        0..=4096 => 0,
        4097..=16384 => 1,
        16385..=65536 => 2,
        65537..=262144 => 3,
        262145..=1048576 => 4,
        _ => 5,
    }
}

// What a file that was read adds: one more file read, and its notes of each kind in its class.
fn read_share(kinds: [u32; ROUND_UP_KINDS], class: usize) -> [u32; PLACES]
    requires { class < 6 }
    ensures { result ≡ read_share kinds class }
{
    let mut share = [0u32; PLACES];
    share[0] = 1;
    for (k, notes) in kinds.iter().enumerate() {
        share[GRID_FROM + (CLASSES * k + class)] = *notes;
    }
    share
}

// What a file that was refused with this number adds: one more refused with it.
fn refused_share(number: u32) -> [u32; PLACES]
    requires { number < 53 }
    ensures { result ≡ refused_share number }
{
    let mut share = [0u32; PLACES];
    share[REFUSED_FROM + (number as usize)] = 1;
    share
}

// What a file adds: refusal 0 is a file read. Ruled out: the notes of a file that was refused.
#[tactic(auto, using(crate::proofs::Shares::class_bounds), unfolding(crate::specs::RoundUp::share_by))]
pub fn share_by(kinds: [u32; ROUND_UP_KINDS], number: u32, file_length: usize) -> [u32; PLACES]
    requires { number < 53 }
    ensures { result ≡ share_by kinds number file_length }
{
    if number == 0 {
        return read_share(kinds, class_of(file_length));
    }
    refused_share(number)
}

// ---- adding

// Whether each count has room for its share.
fn has_room(counts: &[u32], share: &[u32]) -> bool
    requires { length counts.now ≡ length share.now }
    ensures { result ≡ has_room counts.now share.now }
{
    for (i, more) in share.iter().enumerate() {
        if LARGEST - *more < counts[i] {
            return false;
        }
    }
    true
}

// Each count with its share added.
fn add_share(counts: &mut [u32], share: &[u32])
    requires { (length counts.old ≡ length share.now) × (has_room counts.old share.now ≡ true) }
    ensures { counts.new ≡ sums counts.old share.now }
{
    for (i, more) in share.iter().enumerate() {
        counts[i] += *more;
    }
}

// Adds the share where there is room for all of it, and says whether there is; the counts stay as they were where there is none.
// Ruled out: a count that was raised although another had no room.
pub fn add_where_room(counts: &mut [u32], share: &[u32]) -> bool
    requires { length counts.old ≡ length share.now }
    ensures { AddsShare counts.old share.now result counts.new }
{
    if has_room(counts, share) {
        add_share(counts, share);
        return true;
    }
    false
}

// A count would pass 4,294,967,295: nothing changes.
fn full(round_up: RoundUp) -> Added
    ensures { result ≡ full_of round_up }
{
    Added {
        answer: Err(Refusal::RoundUpFull),
        round_up,
    }
}

// The file is added, and these are the counts.
fn with_counts(counts: [u32; PLACES]) -> Added
    ensures { result ≡ added_of counts }
{
    Added {
        answer: Ok(()),
        round_up: RoundUp { counts },
    }
}

// The round-up with a file more: of its kept notes by kind, what its reading answered, and its length in bytes.
// Ruled out: a cell that was raised beside 29, and the notes or the length of a file that was refused.
pub fn add_reading(
    round_up: RoundUp,
    kinds: [u32; ROUND_UP_KINDS],
    answer: Result<ReadCounts, Refusal>,
    file_length: usize,
) -> Added
    ensures { result ≡ added_to round_up (share_of kinds answer file_length) }
{
    let numbers = read_numbers(answer);
    let share = share_by(kinds, numbers.refusal, file_length);
    let mut counts = round_up.counts;
    if add_where_room(&mut counts, &share) {
        return with_counts(counts);
    }
    full(round_up)
}

// The numbers of an answer. Ruled out: 0 beside 29.
#[tactic(auto, unfolding(crate::specs::RoundUp::add_numbers))]
pub fn add_numbers(answer: Result<(), Refusal>) -> AddNumbers
    ensures { result ≡ add_numbers answer }
{
    match answer {
        Ok(()) => AddNumbers {
            refusal: 0,
            value: 0,
        },
        Err(e) => AddNumbers {
            refusal: refusal_number(e),
            value: refusal_value(e),
        },
    }
}
