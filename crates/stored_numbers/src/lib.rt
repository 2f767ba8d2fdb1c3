// Stored cases as rows of numbers of 4 bytes, the least significant first; a double is two, the low half first. For the programs that replay such files.
#![tactic(auto)]

ghost use Rattle.std.specs.Prelude.{ℕ, ◌+◌, ◌*◌, ◌%◌, ◌≤◌, ◌<◌, min, ◌≡◌, length, get_or, drop};
ghost use Rattle.std.specs.Float.{binary64};
ghost use Rattle.std.specs.Float.Ieee.{to_bits};
ghost use Rattle.nat_laws.specs.Lists.{list_of};
ghost use Rattle.stored_numbers.specs.Numbers.{stored_number, double_at, each_is};
ghost use Rattle.stored_numbers.specs.Records.{size_at, numbers_in, Tallied};

use vectors::Tally;

pub fn u32_of_byte(x: u8) -> u32
    ensures { (result ≡ x) × (result ≤ 255) }
{
    x as u32
}

// Byte i of s, 0 past the end.
fn octet(s: &[u8], i: usize) -> u32
    ensures { (result ≡ get_or s.now i 0) × (result ≤ 255) }
{
    if i < s.len() {
        return u32_of_byte(s[i]);
    }
    0
}

// Number k of s, 0 past the end.
pub fn number(s: &[u8], k: usize) -> u32
    requires { k < 4_000_000 }
    ensures { result ≡ stored_number s.now k }
{
    let i = 4 * k;
    octet(s, i) + 256 * octet(s, i + 1) + 65_536 * octet(s, i + 2) + 16_777_216 * octet(s, i + 3)
}

// The double at number k of s.
pub fn double(s: &[u8], k: usize) -> f64
    requires { k < 3_000_000 }
    ensures { result ≡ double_at s.now k }
{
    vectors::float((number(s, k) as u64) + 4_294_967_296 * (number(s, k + 1) as u64))
}

pub fn at_most(n: usize, most: usize) -> usize
    ensures { result ≡ min n most }
{
    if n < most { n } else { most }
}

// Number k of s, and no more than most.
pub fn count(s: &[u8], k: usize, most: usize) -> usize
    requires { k < 4_000_000 }
    ensures { result ≡ min (stored_number s.now k) most }
{
    at_most(number(s, k) as usize, most)
}

// The numbers of s from number k on, as many as fill the slice.
pub fn read_doubles(s: &[u8], k: usize, to: &mut [f64])
    requires { (k < 1_000_000) × (length to.old ≤ 200_000) }
    ensures { to.new ≡ list_of (length to.old) (λ i. double_at s.now (k + 2 * i)) }
{
    for i in 0..to.len() {
        to[i] = double(s, k + 2 * i);
    }
}

pub fn read_numbers(s: &[u8], k: usize, to: &mut [u32])
    requires { (k < 1_000_000) × (length to.old ≤ 200_000) }
    ensures { to.new ≡ list_of (length to.old) (λ i. stored_number s.now (k + i)) }
{
    for i in 0..to.len() {
        to[i] = number(s, k + i);
    }
}

pub fn read_bytes(s: &[u8], k: usize, to: &mut [u8])
    requires { (k < 1_000_000) × (length to.old ≤ 200_000) }
    ensures { to.new ≡ list_of (length to.old) (λ i. stored_number s.now (k + i) % 256) }
{
    for i in 0..to.len() {
        to[i] = (number(s, k + i) % 256) as u8;
    }
}

// Whether all from element n on are x.
pub fn all_u32(s: &[u32], n: usize, x: u32) -> bool
    ensures { result ≡ each_is (λ y. y) x (drop n s.now) }
{
    for i in n..s.len() {
        if s[i] != x {
            return false;
        }
    }
    true
}

pub fn all_f64(s: &[f64], n: usize, x: f64) -> bool
    ensures { result ≡ each_is (to_bits binary64) (to_bits binary64 x) (drop n s.now) }
{
    for i in n..s.len() {
        if vectors::pattern(s[i]) != vectors::pattern(x) {
            return false;
        }
    }
    true
}

// How many numbers a record has, as number k says. One that says none is the last: it is as long as a file.
pub fn record_size(s: &[u8], k: usize) -> usize
    requires { k < 4_000_000 }
    ensures { (result ≡ size_at s.now k) × ((1 ≤ result) × (result ≤ 400_000)) }
{
    let n = count(s, k, 400_000);
    if n == 0 {
        return 400_000;
    }
    n
}

// The records of s, one behind another: how many there are, and how many of them do not replay. The size of the record at number k stands at number k + at.
pub fn replay_records<F: Fn(usize) -> bool>(s: &[u8], at: usize, replays: F) -> Tally
    requires { (at < 400_000) × ((k : ℕ) → k < 400_000 → F.pre replays k) }
    ensures { Tallied (F.post replays) s.now (numbers_in s.now) at 0 result.cases result.differences }
{
    let end = at_most(s.len() / 4, 400_000);
    let mut cases: u64 = 0;
    let mut differences: u64 = 0;
    let mut k: usize = 0;
    while k < end {
        if !replays(k) {
            differences += 1;
        }
        cases += 1;
        k += record_size(s, k + at);
    }
    Tally { cases, differences }
}

// Where in a file the next expected number is, and whether all that was compared agrees.
#[derive(Clone, Copy)]
pub struct Walk {
    pub at: usize,
    pub same: bool,
}

pub fn wrong() -> Walk {
    Walk { at: 0, same: false }
}

// One more number is compared.
pub fn visit(s: &[u8], w: Walk, n: u32) -> Walk {
    let at = at_most(w.at, 3_000_000);
    if number(s, at) == n {
        return Walk {
            at: at + 1,
            same: w.same,
        };
    }
    wrong()
}

pub fn visit_double(s: &[u8], w: Walk, x: f64) -> Walk {
    let bits = vectors::pattern(x);
    let low = visit(s, w, (bits % 4_294_967_296) as u32);
    visit(s, low, (bits / 4_294_967_296) as u32)
}
