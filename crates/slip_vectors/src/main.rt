// Replays stored slips: cut, damaged or as they are, each is read, computed and printed, and the print-out's length and check sum are compared. tests/README.md has the format, under
// 'Stored slips'; tests/slip/make_vectors.sh makes the files.
#![tactic(auto)]

ghost use Rattle.std.specs.Prelude.{◌≤◌, ◌<◌};

use little_endian::read_bytes;
use std::io;
use stored_numbers::{at_most, count, number, record_size, u32_of_byte};
use vectors::Tally;

// The check sum of stored jobs, of bytes.
fn check_sum(text: &[u8]) -> u32 {
    let mut sum: u64 = 0;
    for b in text {
        sum = (sum * 65_599 + (u32_of_byte(*b) as u64)) % 4_294_967_291;
    }
    sum as u32
}

// Whether the first n bytes are the print-out of the case at number c.
fn text_holds(s: &[u8], c: usize, text: &[u8], n: usize) -> bool
    requires { c < 1_000_000 }
{
    if n != number(s, c + 2) as usize {
        return false;
    }
    let end = at_most(n, text.len());
    check_sum(&text[..end]) == number(s, c + 3)
}

fn text_agrees(s: &[u8], c: usize, text: &[u8; 32768], n: usize) -> bool
    requires { c < 1_000_000 }
{
    text_holds(s, c, text, n)
}

// Whether a slip is printed as the case at number c says.
fn prints(s: &[u8], c: usize, slip: &[u8]) -> bool
    requires { c < 1_000_000 }
{
    let mut text = [0u8; 32768];
    let end = slip_program::print_slip(slip, &mut text);
    text_agrees(s, c, &text, end)
}

// Byte `at` of a slip becomes x, where it has so many.
fn damage(slip: &mut [u8], at: usize, x: u8) {
    if at < slip.len() {
        slip[at] = x;
    }
}

// The bytes of s from one place on, as many of n as there are and there is room for.
fn load(s: &[u8], from: usize, n: usize, slip: &mut [u8]) {
    if from < s.len() {
        let there = at_most(n, s.len() - from);
        read_bytes(s, from, at_most(there, slip.len()), slip);
    }
}

// The case at number c of the record at number k: the front of its slip, with one byte damaged.
fn case_holds(s: &[u8], k: usize, c: usize) -> bool
    requires { (k < 400_000) × (c < 1_000_000) }
{
    let mut slip = [0u8; 8192];
    let given = count(s, c, 8192);
    let damaged = number(s, c + 1);
    load(s, 4 * (k + 3), given, &mut slip);
    damage(&mut slip, (damaged / 256) as usize, (damaged % 256) as u8);
    prints(s, c, &slip[..given])
}

fn difference(s: &[u8], k: usize, c: usize) -> u64
    requires { (k < 400_000) × (c < 1_000_000) }
    ensures { result ≤ 1 }
{
    if case_holds(s, k, c) {
        return 0;
    }
    1
}

// How many of the n cases from number `from` on differ.
fn differences(s: &[u8], k: usize, from: usize, n: usize) -> u64
    requires { (k < 400_000) × ((from < 500_000) × (n ≤ 100_000)) }
    ensures { result ≤ n }
{
    let mut found: u64 = 0;
    for i in 0..n {
        found += difference(s, k, from + 4 * i);
    }
    found
}

fn replay(s: &[u8]) -> Tally {
    let end = at_most(s.len() / 4, 400_000);
    let mut cases: u64 = 0;
    let mut wrong: u64 = 0;
    let mut k: usize = 0;
    while k < end {
        let n = count(s, k + 2, 100_000);
        let from = k + 3 + (count(s, k + 1, 8192) + 3) / 4;
        wrong += differences(s, k, from, n);
        cases += n as u64;
        k += record_size(s, k);
    }
    Tally {
        cases,
        differences: wrong,
    }
}

fn main(rt: HostRuntime) -> io::Result<()> {
    vectors::replay_file::<1048576, _>(&rt, "refused", replay)?;
    vectors::replay_file::<1048576, _>(&rt, "damaged", replay)?;
    vectors::replay_file::<1048576, _>(&rt, "fresh", replay)
}
