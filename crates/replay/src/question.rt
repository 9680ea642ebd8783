// A stored first value, name or complex value: the question is asked again, and the answer held to what is stored.
use crate::count;
use axml::{FirstNumbers, complex_to_float, first_numbers, first_value, is_valid_name};
use stored::{load, part, tally, word};

// ---- first values

// Whether the numbers of an answer are those of the row.
fn is_first(row: &[u8], a: FirstNumbers) -> bool {
    a.refusal == word(row, 3)
        && a.value == u64::from(word(row, 4))
        && a.kind == word(row, 5)
        && a.data == word(row, 6)
        && a.reference == word(row, 7)
}

// Whether the question to these tables is answered so.
fn answers(
    data: &[u8],
    row: &[u8],
    names: &[u32],
    area: &[u8],
    nodes: &[u32],
    attributes: &[u32],
) -> bool {
    let a = first_value(
        part(data, row, 8),
        names,
        area,
        nodes,
        attributes,
        part(data, row, 14),
        part(data, row, 16),
        word(row, 1),
        word(row, 2),
    );
    is_first(row, first_numbers(a))
}

// Its row: node count, attribute count; refusal, value, type, data, reference; the places of file, node words, attribute words, tag and name.
pub(crate) fn judge_first(
    data: &[u8],
    row: &[u8],
    names: &[u32],
    area: &[u8],
    nodes: &mut [u32],
    attributes: &mut [u32],
    counts: &mut [u32],
) {
    let n = load(part(data, row, 10), nodes);
    let m = load(part(data, row, 12), attributes);
    let right = answers(data, row, names, area, &nodes[0..n], &attributes[0..m]);
    tally(counts, count::FIRSTS, right);
    count::tally_refusal(counts, count::FIRST, word(row, 3), right);
}

// ---- names

// Its row: 1 if it is a valid name, else 0; the place of the text.
pub(crate) fn judge_name(data: &[u8], row: &[u8], counts: &mut [u32]) {
    let answer = u32::from(is_valid_name(part(data, row, 2)));
    tally(counts, count::NAMES, answer == word(row, 1));
}

// ---- complex values

// The bits of the complex value, which is never a NaN.
fn complex_bits(data: u32) -> u64 {
    f64::to_bits(complex_to_float(data))
}

// Whether a number is made of these two halves.
fn is_made(n: u64, low: u32, high: u32) -> bool {
    n / 4294967296 == u64::from(high) && n % 4294967296 == u64::from(low)
}

// Its row: the data, the low and the high half of the bits.
pub(crate) fn judge_complex(row: &[u8], counts: &mut [u32]) {
    let bits = complex_bits(word(row, 1));
    let right = is_made(bits, word(row, 2), word(row, 3));
    tally(counts, count::COMPLEX, right);
}
