// Replays the stored cases of `source`: of each function, how many there are and how many differ.
// A file is a count of 4 bytes and packed records: a function's arguments and its answer.
#![tactic(auto)]

ghost use Rattle.std.specs.Prelude.{◌≡◌, ◌+◌, ◌*◌, ◌≤◌, length};
ghost use Rattle.source_vectors.specs.Replay.{same_roots, same_value, holds_for, leaf_records, leaf_differences};
ghost use Rattle.source_vectors.specs.declared.Leaf.TheVariants.{Roots, Ties, Edge, Free, Foot, Lowest, Eval};
ghost use Rattle.source_vectors.specs.Replay.{size as Replay·size};

use source::{RealRoots, Win};
use source_records::{float_from, read_records, src_from, word_from};
use std::io;
use std::rt::Files;

// The function that the records are of.
#[derive(Clone, Copy)]
enum Leaf {
    Roots,
    Ties,
    Edge,
    Free,
    Foot,
    Lowest,
    Eval,
}

// How many bytes a record has.
fn size(f: Leaf) -> usize
    ensures { result ≡ Replay·size f }
{
    match f {
        Leaf::Roots => 41,
        Leaf::Ties => 67,
        Leaf::Edge => 41,
        Leaf::Free => 49,
        Leaf::Foot => 49,
        Leaf::Lowest => 49,
        Leaf::Eval => 65,
    }
}

// Whether x is the float stored at byte i.
fn same_value(x: f64, r: &[u8], i: usize) -> bool
    requires { i + 8 ≤ length r.now }
    ensures { result ≡ same_value x r.now i }
{
    vectors::agrees(x, word_from(r, i))
}

// Whether x has as many roots as byte i says, and they are those stored after it.
fn same_roots(x: RealRoots, r: &[u8], i: usize) -> bool
    requires { i + 17 ≤ length r.now }
    ensures { result ≡ same_roots x r.now i }
{
    let n = r[i];
    match x {
        RealRoots::None => n == 0,
        RealRoots::One(a) => n == 1 && same_value(a, r, i + 1),
        RealRoots::Two(a, b) => {
            if same_value(a, r, i + 1) {
                return n == 2 && same_value(b, r, i + 9);
            }
            false
        }
    }
}

// Whether a function answers as its record r says.
fn roots_hold(r: &[u8]) -> bool
    requires { 41 ≤ length r.now }
    ensures { result ≡ holds_for Roots r.now }
{
    same_roots(
        source::roots(float_from(r, 0), float_from(r, 8), float_from(r, 16)),
        r,
        24,
    )
}

fn ties_hold(r: &[u8]) -> bool
    requires { 67 ≤ length r.now }
    ensures { result ≡ holds_for Ties r.now }
{
    same_roots(source::ties(src_from(r, 0), src_from(r, 25)), r, 50)
}

fn edge_hold(r: &[u8]) -> bool
    requires { 41 ≤ length r.now }
    ensures { result ≡ holds_for Edge r.now }
{
    same_value(source::edge(src_from(r, 0), float_from(r, 25)), r, 33)
}

fn free_hold(r: &[u8]) -> bool
    requires { 49 ≤ length r.now }
    ensures { result ≡ holds_for Free r.now }
{
    same_value(
        source::free(src_from(r, 0), float_from(r, 25), float_from(r, 33)),
        r,
        41,
    )
}

fn foot_hold(r: &[u8]) -> bool
    requires { 49 ≤ length r.now }
    ensures { result ≡ holds_for Foot r.now }
{
    same_value(
        source::foot(src_from(r, 0), float_from(r, 25), float_from(r, 33)),
        r,
        41,
    )
}

fn lowest_hold(r: &[u8]) -> bool
    requires { 49 ≤ length r.now }
    ensures { result ≡ holds_for Lowest r.now }
{
    same_value(
        source::lowest(src_from(r, 0), float_from(r, 25), float_from(r, 33)),
        r,
        41,
    )
}

fn eval_hold(r: &[u8]) -> bool
    requires { 65 ≤ length r.now }
    ensures { result ≡ holds_for Eval r.now }
{
    // `eval` does not look at the low value.
    let b0 = float_from(r, 0);
    let w = Win {
        b0,
        b1: float_from(r, 8),
        low: b0,
        src: src_from(r, 16),
    };
    same_value(source::eval(w, float_from(r, 41), float_from(r, 49)), r, 57)
}

fn holds(f: Leaf, r: &[u8]) -> bool
    requires { Replay·size f ≤ length r.now }
    ensures { result ≡ holds_for f r.now }
{
    match f {
        Leaf::Roots => roots_hold(r),
        Leaf::Ties => ties_hold(r),
        Leaf::Edge => edge_hold(r),
        Leaf::Free => free_hold(r),
        Leaf::Foot => foot_hold(r),
        Leaf::Lowest => lowest_hold(r),
        Leaf::Eval => eval_hold(r),
    }
}

// How many whole records s has.
fn records(f: Leaf, s: &[u8]) -> usize
    ensures { (result ≡ leaf_records f s.now) × (Replay·size f * result ≤ length s.now) }
{
    s.len() / size(f)
}

// How many of them differ.
fn differences(f: Leaf, s: &[u8]) -> u64
    ensures { result ≡ leaf_differences f s.now (leaf_records f s.now) }
{
    let n = records(f, s);
    let z = size(f);
    let mut count: u64 = 0;
    for k in 0..n {
        let i = z * k;
        if !holds(f, &s[i..i + z]) {
            count += 1;
        }
    }
    count
}

// Replays the file of the name.
fn replay(rt: &(impl Files + Print), name: &str, f: Leaf) -> io::Result<()> {
    // Room for 6,000 of the longest records.
    let mut buf = [0u8; 409600];
    let got = read_records(rt, name, &mut buf)?;
    let n = records(f, &buf[..got]);
    vectors::report(rt, name, n as u64, differences(f, &buf[..got]))
}

fn main(rt: HostRuntime) -> io::Result<()> {
    replay(&rt, "roots", Leaf::Roots)?;
    replay(&rt, "ties", Leaf::Ties)?;
    replay(&rt, "edge", Leaf::Edge)?;
    replay(&rt, "free", Leaf::Free)?;
    replay(&rt, "foot", Leaf::Foot)?;
    replay(&rt, "lowest", Leaf::Lowest)?;
    replay(&rt, "eval", Leaf::Eval)
}
