// Reading stored cases, comparing floats with them and reporting, for the programs that replay files of cases.
#![tactic(auto)]

ghost use Rattle.std.specs.Prelude.{◌≡◌, ◌+◌, ◌*◌, ◌^◌, ◌<◌, ◌≤◌, length};
ghost use Rattle.std.specs.Float.{binary64};
ghost use Rattle.std.specs.Float.Ieee.{of_bits, to_bits};
ghost use Rattle.std.specs.Io.{ReadsAtMost};
ghost use Rattle.vectors.specs.Records.{word_at, float_at};
ghost use Rattle.vectors.specs.Records.{agrees as Records·agrees};

use std::io::Read;
use std::rt::Files;
use std::{fs, io};

fn u64_of_byte(x: u8) -> u64
    ensures { result ≡ x }
{
    x as u64
}

// Number k of s, a row of numbers of 8 bytes, the least significant first.
pub fn word(s: &[u8], k: usize) -> u64
    requires { 8 * k + 8 ≤ length s.now }
    ensures { result ≡ word_at s.now k }
{
    let i = 8 * k;
    let mut r: u64 = 0;
    let mut j: usize = 8;
    while j > 0 {
        j -= 1;
        r = 256 * r + u64_of_byte(s[i + j]);
    }
    r
}

// The float of a bit pattern, a NaN's too, at which `f64::from_bits` is not defined.
pub fn float(bits: u64) -> f64
    ensures { result ≡ of_bits binary64 bits }
{
    if 0x7ff0_0000_0000_0000 < bits % 0x8000_0000_0000_0000 {
        return 0.0 / 0.0;
    }
    f64::from_bits(bits)
}

// The bit pattern of a float, of a NaN 0x7ff8_0000_0000_0000.
pub fn pattern(x: f64) -> u64
    ensures { result ≡ to_bits binary64 x }
{
    if x != x {
        return 0x7ff8_0000_0000_0000;
    }
    f64::to_bits(x)
}

// The float whose pattern is number k of s.
pub fn float_at(s: &[u8], k: usize) -> f64
    requires { 8 * k + 8 ≤ length s.now }
    ensures { result ≡ float_at s.now k }
{
    float(word(s, k))
}

// Whether x is the float of the pattern `bits`.
pub fn agrees(x: f64, bits: u64) -> bool
    ensures { result ≡ Records·agrees x bits }
{
    pattern(x) == pattern(float(bits))
}

// Prints a space and a number's 16 hexadecimal digits.
pub fn print_word(rt: &impl Print, n: u64) -> io::Result<()> {
    print!(rt; " {n:016x}")
}

// Prints n numbers of s, from number k on.
pub fn print_words(rt: &impl Print, s: &[u8], k: usize, n: usize) -> io::Result<()>
    requires { 8 * (k + n) ≤ length s.now }
{
    for i in 0..n {
        print_word(rt, word(s, k + i))?;
    }
    Ok(())
}

// How many cases were replayed, and how many of them were answered otherwise than stored.
#[derive(Clone, Copy)]
pub struct Tally {
    pub cases: u64,
    pub differences: u64,
}

// Reads until buf is full or the input ends, and answers how many bytes were put at the start of buf.
pub fn read_full(reader: &mut impl Read, buf: &mut [u8]) -> io::Result<usize>
    ensures { ReadsAtMost result buf.new }
{
    let mut done: usize = 0;
    while done < buf.len() {
        let n = reader.read(&mut buf[done..])?;
        if n == 0 {
            break;
        }
        done += n;
    }
    Ok(done)
}

// Reads the file of the name, as much as there is room for, and answers how many bytes.
pub fn read_file(rt: &impl Files, name: &str, buf: &mut [u8]) -> io::Result<usize>
    ensures { ReadsAtMost result buf.new }
{
    let mut file = fs::open(rt, name)?;
    read_full(&mut file, buf)
}

// Prints a line that says how many cases a file has and how many of them differ.
pub fn report(rt: &impl Print, name: &str, cases: u64, differences: u64) -> io::Result<()> {
    println!(rt; "{name}: {cases} cases, {differences} differences")
}

// Reads the file of the name, as much as N bytes hold, replays it and prints its line. It is not inlined: a program that calls it for several files then has one buffer
// on the stack at a time.
#[inline(never)]
pub fn replay_file<const N: usize, F: FnOnce(&[u8]) -> Tally>(
    rt: &(impl Files + Print),
    name: &str,
    replay: F,
) -> io::Result<()>
    requires { (N < 2 ^ 32) × F.IsAlwaysCallable replay }
{
    let mut buf = [0u8; N];
    let got = read_file(rt, name, &mut buf)?;
    let tally = replay(&buf[..got]);
    report(rt, name, tally.cases, tally.differences)
}
