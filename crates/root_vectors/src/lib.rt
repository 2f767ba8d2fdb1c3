// Replays files of stored roots. A record is a function's arguments and its answer, each a bit pattern of 8 bytes.
#![tactic(auto)]

ghost use Rattle.std.specs.Prelude.{IfOk, ◌≡◌, ◌+◌, ◌*◌, ◌≤◌, ◌<◌, length};
ghost use Rattle.root_vectors.specs.Replay.{answer_at, holds_at, records_in, differing};
ghost use Rattle.root_vectors.specs.Replay.{arity as Replay·arity, numbers_per_record};

use std::env::Env;
use std::io::Read;
use std::rt::Files;
use std::{env, fs, io};
use vectors::Tally;

// Which root the records are of.
#[derive(Clone, Copy)]
pub enum Function {
    Sqrt,
    Hypot,
}

pub fn arity(f: Function) -> usize
    ensures { result ≡ Replay·arity f }
{
    match f {
        Function::Sqrt => 1,
        Function::Hypot => 2,
    }
}

// What the function answers at the arguments that begin at number i of s.
pub fn answer(f: Function, s: &[u8], i: usize) -> f64
    requires { 8 * (i + numbers_per_record f) ≤ length s.now }
    ensures { result ≡ answer_at f s.now i }
{
    match f {
        Function::Sqrt => sqrt_hypot::sqrt(vectors::float_at(s, i)),
        Function::Hypot => {
            sqrt_hypot::hypot(vectors::float_at(s, i), vectors::float_at(s, i + 1))
        }
    }
}

// Whether the answer is the one that record k of s has.
pub fn holds(f: Function, s: &[u8], k: usize) -> bool
    requires { 8 * (numbers_per_record f * k + numbers_per_record f) ≤ length s.now }
    ensures { result ≡ holds_at f s.now k }
{
    let n = arity(f);
    let i = (n + 1) * k;
    vectors::agrees(answer(f, s, i), vectors::word(s, i + n))
}

// How many whole records s has.
pub fn records(f: Function, s: &[u8]) -> usize
    ensures { (result ≡ records_in f s.now) × (8 * (numbers_per_record f * result) ≤ length s.now) }
{
    s.len() / (8 * (arity(f) + 1))
}

// How many of them differ.
pub fn differences(f: Function, s: &[u8]) -> u64
    ensures { (result ≡ differing f s.now (records_in f s.now)) × (result ≤ length s.now) }
{
    let n = records(f, s);
    let mut count: u64 = 0;
    for k in 0..n {
        if !holds(f, s, k) {
            count += 1;
        }
    }
    count
}

// Prints record k of s and, after it, the answer that differs.
fn print_difference(rt: &impl Print, f: Function, s: &[u8], k: usize) -> io::Result<()>
    requires { 8 * (numbers_per_record f * k + numbers_per_record f) ≤ length s.now }
{
    let n = arity(f) + 1;
    let i = n * k;
    vectors::print_words(rt, s, i, n)?;
    print!(rt; " answered")?;
    vectors::print_word(rt, vectors::pattern(answer(f, s, i)))?;
    println!(rt)
}

// Prints the first few that differ.
fn print_differences(rt: &impl Print, f: Function, s: &[u8]) -> io::Result<()> {
    let n = records(f, s);
    let mut left: usize = 5;
    for k in 0..n {
        if left > 0 && !holds(f, s, k) {
            print_difference(rt, f, s, k)?;
            left -= 1;
        }
    }
    Ok(())
}

// A chunk of a file is 49,152 bytes: whole records of each function. An empty one is the end.
fn replay_chunk(rt: &impl Print, f: Function, reader: &mut impl Read) -> io::Result<Tally>
    ensures { IfOk result (λ t. (t.cases ≤ 49152) × (t.differences ≤ 49152)) }
{
    let mut buf = [0u8; 49152];
    let got = vectors::read_full(reader, &mut buf)?;
    let n = records(f, &buf[..got]);
    let d = differences(f, &buf[..got]);
    if d > 0 {
        print_differences(rt, f, &buf[..got])?;
    }
    Ok(Tally {
        cases: n as u64,
        differences: d,
    })
}

// Replays what can be read, up to 2^32 chunks.
fn replay(rt: &impl Print, f: Function, reader: &mut impl Read) -> io::Result<Tally> {
    let mut cases: u64 = 0;
    let mut differences: u64 = 0;
    let mut turns: u64 = 0x1_0000_0000;
    while turns > 0 {
        let t = replay_chunk(rt, f, reader)?;
        if t.cases == 0 {
            break;
        }
        cases += t.cases;
        differences += t.differences;
        turns -= 1;
    }
    Ok(Tally { cases, differences })
}

// Replays the file of the name, and reports.
fn replay_argument(rt: &(impl Files + Print), f: Function, name: &str) -> io::Result<()> {
    let mut file = fs::open(rt, name)?;
    let t = replay(rt, f, &mut file)?;
    vectors::report(rt, name, t.cases, t.differences)
}

// Replays the files that the arguments name.
pub fn replay_arguments(rt: &(impl Env + Alloc + Files + Print), f: Function) -> io::Result<()> {
    for name in env::args(rt)?.skip(1) {
        replay_argument(rt, f, name.as_str())?;
    }
    Ok(())
}
