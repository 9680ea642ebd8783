// A file added to a round-up that C lends as words: the counts of crate round_up in its order, 132 of them.
//
// C has no `Result`: the reading is told by the number of its refusal, 0 for a file read, and by its notes, which are counted here from the
// words of the note table. The round-up is changed where it lies, or not at all. Definitions: specs/Adding.antt.
ghost use Rattle.std.specs.Prelude.{◌≡◌};
ghost use Rattle.c_api.specs.Adding.{AddsWords};

use round_up::{NUMBERS, PLACES, add_where_room, kinds_in, share_by};

// The numbers of the answer: 0, 13 with what does not fit, or 29 with 0.
#[repr(C)]
#[derive(Clone, Copy)]
pub struct AxmlAddAnswer {
    pub refusal: u32,
    pub value: u64,
}

// Adds a file: `refusal` and `note_count` are those of its reading's answer, `notes` the note table that it left, `file_bytes` its length.
// Ruled out: a word that changed beside a refusal, and a round-up of 131 words that is taken for one.
#[tactic(auto, using(crate::proofs::Month::other_length_answer, crate::proofs::Month::other_length_counts))]
#[unsafe(no_mangle)]
pub extern "C" fn axml_round_up_add(
    round_up: &mut [u32],
    notes: &[u32],
    refusal: u32,
    note_count: u32,
    file_bytes: usize,
) -> AxmlAddAnswer
    ensures { AddsWords round_up.old notes.now refusal note_count file_bytes result round_up.new }
{
    let words = round_up.len();
    if words != PLACES {
        return AxmlAddAnswer {
            refusal: 13,
            value: words as u64,
        };
    }
    if NUMBERS <= (refusal as usize) {
        return AxmlAddAnswer {
            refusal: 13,
            value: refusal as u64,
        };
    }
    let kinds = kinds_in(notes, note_count);
    let share = share_by(kinds, refusal, file_bytes);
    if add_where_room(round_up, &share) {
        return AxmlAddAnswer {
            refusal: 0,
            value: 0,
        };
    }
    AxmlAddAnswer {
        refusal: 29,
        value: 0,
    }
}
