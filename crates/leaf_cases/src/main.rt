// Runs the leaves: the complex value against stored answers of the Rust, and the numbers of the enums over their whole range.
//
// Standard input holds a line for each stored answer: the number, 8 hexadecimal digits, and the bits of the Rust's
// `complex_to_float` of it, 16 digits (apk-info 13770539b8). What is printed is how many agree, and how many there are.
#![tactic(auto)]

mod numbers;
mod types;

ghost use Rattle.std.specs.Prelude.{◌+◌, ◌≤◌, ◌<◌, length};

use common::complex_to_float;
use std::io;
use stored::read_in;

// ---- stored answers

// A hexadecimal digit in lower case; 0 for any other byte.
fn digit(b: u8) -> u32
    ensures { result < 16 }
{
    match b {
        b'0'..=b'9' => u32::from(b - b'0'),
        b'a'..=b'f' => u32::from(b - b'a') + 10,
        _ => 0,
    }
}

fn two_digits(s: &[u8], at: usize) -> u32
    requires { at + 2 ≤ length s.now }
    ensures { result < 256 }
{
    16 * digit(s[at]) + digit(s[at + 1])
}

fn four_digits(s: &[u8], at: usize) -> u32
    requires { at + 4 ≤ length s.now }
    ensures { result < 65536 }
{
    256 * two_digits(s, at) + two_digits(s, at + 2)
}

fn eight_digits(s: &[u8], at: usize) -> u32
    requires { at + 8 ≤ length s.now }
{
    65536 * four_digits(s, at) + four_digits(s, at + 4)
}

// The bits of the complex value, which is never a NaN.
fn complex_bits(data: u32) -> u64 {
    f64::to_bits(complex_to_float(data))
}

// Whether a line holds the bits that are computed from its number.
fn agrees(line: &[u8]) -> bool
    requires { 26 ≤ length line.now }
{
    let bits = complex_bits(eight_digits(line, 0));
    let high = u64::from(eight_digits(line, 9));
    let low = u64::from(eight_digits(line, 17));
    bits / 4294967296 == high && bits % 4294967296 == low
}

#[derive(Clone, Copy)]
struct Tally {
    right: u32,
    all: u32,
}

// How many of the lines of `s` agree, and how many there are.
fn complex_tally(s: &[u8]) -> Tally
    requires { length s.now ≤ 65536 }
{
    let mut right = 0;
    let mut all = 0;
    for line in s.chunks_exact(26) {
        all += 1;
        if agrees(line) {
            right += 1;
        }
    }
    Tally { right, all }
}

// What came in, against what is computed, and then the rest of the report.
fn main(rt: HostRuntime) -> io::Result<()> {
    let mut file = [0u8; 65536];
    let n = read_in(&mut rt.stdin(), &mut file)?;
    let t = complex_tally(&file[..n]);
    println!(rt; "complex {} of {}", t.right, t.all)?;
    types::print_types(&rt)?;
    numbers::print_notes(&rt)?;
    numbers::print_refusals(&rt)
}
