// Replays the stored cases of `better`: how many there are, and how many are answered otherwise, with no test of ranges before it and with each of the two.
// The file is a count of 4 bytes and packed records: two sources of 25 bytes, lo and hi, the capacity of the lists (4 bytes), the refusal (1 byte, 0 or 14),
// the count of stretches (4 bytes), and their ends.
#![tactic(auto)]

ghost use Rattle.std.specs.Prelude.{◌≡◌, ◌+◌, ◌*◌, ◌≤◌, ◌<◌, length};
ghost use Rattle.source_records.specs.Records.{word_from, float_from, src_from};
ghost use Rattle.better_vectors.specs.Replay.{slot_count_of, stretches_of, other_floats, same_listed, FitsOut, Decides, Replays};

use source_records::{float_from, read_records, src_from, word_from};
use std::io;
use std::rt::Files;
use vectors::Tally;

// The capacity and the count of stretches of the record at byte i: the low and the high 4 bytes of 8.
fn capacity(s: &[u8], i: usize) -> usize
    requires { i + 75 ≤ length s.now }
    ensures { (result ≡ slot_count_of s.now i) × (result < 4294967296) }
{
    (word_from(s, i + 66) % 0x1_0000_0000) as usize
}

fn stretches(s: &[u8], i: usize) -> usize
    requires { i + 75 ≤ length s.now }
    ensures { (result ≡ stretches_of s.now i) × (result < 4294967296) }
{
    (word_from(s, i + 67) / 0x1_0000_0000) as usize
}

// At how many of the n floats in front of out another is stored from byte i on.
fn other_floats(out: &[f64], s: &[u8], i: usize, n: usize) -> u64
    requires { (n ≤ length out.now) × (i + 8 * n ≤ length s.now) }
    ensures { result ≡ other_floats out.now s.now i n }
{
    let mut count: u64 = 0;
    for k in 0..n {
        if !vectors::agrees(out[k], word_from(s, i + 8 * k)) {
            count += 1;
        }
    }
    count
}

// Whether an answer of `better` is the one that the record at byte i says.
fn same_listed(listed: Option<usize>, out: &[f64], s: &[u8], i: usize) -> bool
    requires { (i + 75 + 16 * stretches_of s.now i ≤ length s.now) × FitsOut listed out.now }
    ensures { result ≡ same_listed listed out.now s.now i }
{
    let refusal = s[i + 70];
    match listed {
        None => refusal == 14,
        Some(m) => {
            if refusal != 0 {
                return false;
            }
            if m != stretches(s, i) {
                return false;
            }
            other_floats(out, s, i + 75, 2 * m) == 0
        }
    }
}

// Whether `better` answers as that record says, in these buffers, by the test of ranges that the lows choose.
fn better_holds(
    s: &[u8],
    i: usize,
    pts: &mut [f64],
    out: &mut [f64],
    p_low: f64,
    q_low: f64,
) -> bool
    requires { i + 75 + 16 * stretches_of s.now i ≤ length s.now }
    ensures { Decides s.now i (length pts.old) out.new result }
{
    let p = src_from(s, i);
    let q = src_from(s, i + 25);
    let lo = float_from(s, i + 50);
    let hi = float_from(s, i + 58);
    let listed = range_test::better(p, q, lo, hi, pts, out, p_low, 0.0, q_low, 0.0);
    same_listed(listed, out, s, i)
}

// The same, in lists of the record's capacity. A record whose capacity is above the buffers' counts as a difference.
fn better_replays(
    s: &[u8],
    i: usize,
    pts: &mut [f64],
    out: &mut [f64],
    p_low: f64,
    q_low: f64,
) -> bool
    requires { i + 75 + 16 * stretches_of s.now i ≤ length s.now }
    ensures { Replays s.now i pts.old out.old result }
{
    let most = capacity(s, i);
    if pts.len() < most {
        return false;
    }
    if out.len() < 2 * most {
        return false;
    }
    better_holds(s, i, &mut pts[..most], &mut out[..2 * most], p_low, q_low)
}

// The whole records of s.
fn replay(s: &[u8], pts: &mut [f64], out: &mut [f64], p_low: f64, q_low: f64) -> Tally {
    let mut cases: u64 = 0;
    let mut differences: u64 = 0;
    let mut i: usize = 0;
    while 75 <= s.len() - i {
        let n = stretches(s, i);
        if s.len() - i < 75 + 16 * n {
            break;
        }
        if !better_replays(s, i, pts, out, p_low, q_low) {
            differences += 1;
        }
        cases += 1;
        i += 75 + 16 * n;
    }
    Tally { cases, differences }
}

fn replay_with(
    rt: &impl Print,
    name: &str,
    s: &[u8],
    pts: &mut [f64],
    out: &mut [f64],
    p_low: f64,
    q_low: f64,
) -> io::Result<()> {
    let tally = replay(s, pts, out, p_low, q_low);
    vectors::report(rt, name, tally.cases, tally.differences)
}

// The second and the third replay begin with what the one before left in the buffers.
fn replay_all(rt: &impl Print, s: &[u8]) -> io::Result<()> {
    let mut pts = [0.0f64; 2048];
    let mut out = [0.0f64; 4096];
    replay_with(rt, "better", s, &mut pts, &mut out, 0.0, 0.0)?;
    replay_with(rt, "range above", s, &mut pts, &mut out, 1.0, 0.0)?;
    replay_with(rt, "range below", s, &mut pts, &mut out, 0.0, 1.0)
}

// Reads the records into the buffer and replays them.
fn replay_into(rt: &(impl Files + Print), buf: &mut [u8]) -> io::Result<()> {
    let got = read_records(rt, "better", buf)?;
    replay_all(rt, &buf[..got])
}

fn main(rt: HostRuntime) -> io::Result<()> {
    let mut buf = [0u8; 524288];
    replay_into(&rt, &mut buf)
}
