// Replays stored runs of the queue: of each file that the arguments name, how many operations it has and how many are answered
// otherwise. A record is four numbers of 8 bytes: what was done and answered, then an event's key, number and kind.
#![tactic(auto)]

ghost use Rattle.std.specs.Prelude.{IfOk, ◌≡◌, cond, ◌+◌, ◌*◌, ◌/◌, ◌%◌, ◌≤◌, ◌<◌, length};
ghost use Rattle.heap.specs.Queue.{queue, pushing, popping};
ghost use Rattle.heap_vectors.specs.Replay.{event_at, same_event, replay_push, pop_differs, replay_pop, replay_record, replay_records};

use heap::{Event, item_of, kind_of, number_of, pop, push};
use std::io::Read;
use std::rt::Files;
use std::{env, fs, io};

// How many events the queue has, how many operations were replayed and how many differed.
#[derive(Clone, Copy)]
struct State {
    n: u32,
    cases: u64,
    differences: u64,
}

// A number's low 32 bits.
fn low(x: u64) -> u32
    ensures { result ≡ x % 4294967296 }
{
    (x % 0x1_0000_0000) as u32
}

// The event of record k of s.
fn event(s: &[u8], k: usize) -> Event
    requires { 32 * k + 32 ≤ length s.now }
    ensures { result ≡ event_at s.now k }
{
    Event {
        key: vectors::float_at(s, 4 * k + 1),
        item: item_of(
            low(vectors::word(s, 4 * k + 2)),
            low(vectors::word(s, 4 * k + 3)),
        ),
    }
}

fn same_event(a: Event, b: Event) -> bool
    ensures { result ≡ same_event a b }
{
    if vectors::pattern(a.key) != vectors::pattern(b.key) {
        return false;
    }
    let x = a.item;
    let y = b.item;
    if number_of(x) != number_of(y) {
        return false;
    }
    if kind_of(x) != kind_of(y) {
        return false;
    }
    true
}

fn one_if(b: bool) -> u64
    ensures { result ≡ cond b 1 0 }
{
    if b {
        return 1;
    }
    0
}

// What an operation leaves, and 1 where it was answered otherwise than stored.
#[derive(Clone, Copy)]
struct Outcome {
    n: u32,
    differs: u64,
}

fn replay_push(keys: &mut [f64], events: &mut [u32], n: u32, e: Event, found: bool) -> Outcome
    ensures { (result.n, (result.differs, queue keys.new events.new)) ≡ replay_push found n (pushing (queue keys.old events.old) n e) }
{
    match push(keys, events, n, e) {
        Err(_) => Outcome {
            n,
            differs: one_if(found),
        },
        Ok(m) => Outcome {
            n: m,
            differs: one_if(!found),
        },
    }
}

// 1 where the event x that a pop gave is not the stored answer.
fn pop_differs(found: bool, x: Event, e: Event) -> u64
    ensures { result ≡ pop_differs found x e }
{
    if found {
        return one_if(!same_event(x, e));
    }
    1
}

fn replay_pop(keys: &mut [f64], events: &mut [u32], n: u32, e: Event, found: bool) -> Outcome
    ensures { (result.n, (result.differs, queue keys.new events.new)) ≡ replay_pop found e n (popping (queue keys.old events.old) n) }
{
    match pop(keys, events, n) {
        None => Outcome {
            n,
            differs: one_if(found),
        },
        Some((x, m)) => Outcome {
            n: m,
            differs: pop_differs(found, x, e),
        },
    }
}

// Record k of s.
fn replay_record(keys: &mut [f64], events: &mut [u32], n: u32, s: &[u8], k: usize) -> Outcome
    requires { 32 * k + 32 ≤ length s.now }
    ensures { (result.n, (result.differs, queue keys.new events.new)) ≡ replay_record s.now k n (queue keys.old events.old) }
{
    let what = vectors::word(s, 4 * k);
    let e = event(s, k);
    if what < 2 {
        return replay_push(keys, events, n, e, what == 0);
    }
    replay_pop(keys, events, n, e, what == 2)
}

// The records of a chunk, from a queue of n events on.
fn replay_records(keys: &mut [f64], events: &mut [u32], n: u32, s: &[u8]) -> State
    requires { length s.now ≤ 32768 }
    ensures events_value { (result.n, (result.differences, queue keys.new events.new)) ≡ replay_records (length s.now / 32) s.now 0 n 0 (queue keys.old events.old) }
    ensures cases_value { (result.cases ≡ length s.now / 32) × (result.differences ≤ result.cases) }
{
    let mut n = n;
    let mut differences: u64 = 0;
    let mut k: usize = 0;
    while k < s.len() / 32 {
        let r = replay_record(keys, events, n, s, k);
        n = r.n;
        differences += r.differs;
        k += 1;
    }
    State {
        n,
        cases: k as u64,
        differences,
    }
}

// The next 1,024 records of a file, or what is left of it.
fn replay_chunk(
    keys: &mut [f64],
    events: &mut [u32],
    n: u32,
    reader: &mut impl Read,
) -> io::Result<State>
    ensures { IfOk result (λ t. (t.cases ≤ 1024) × (t.differences ≤ 1024)) }
{
    let mut buf = [0u8; 32768];
    let got = vectors::read_full(reader, &mut buf)?;
    Ok(replay_records(keys, events, n, &buf[..got]))
}

// A whole file, up to 1,024 chunks, from an empty queue of as many slots as the stored runs had.
fn replay(reader: &mut impl Read) -> io::Result<State> {
    let mut keys = [0.0f64; 256];
    let mut events = [0u32; 512];
    let mut n: u32 = 0;
    let mut cases: u64 = 0;
    let mut differences: u64 = 0;
    let mut turns: u64 = 1024;
    while turns > 0 {
        let t = replay_chunk(&mut keys, &mut events, n, reader)?;
        if t.cases == 0 {
            break;
        }
        n = t.n;
        cases += t.cases;
        differences += t.differences;
        turns -= 1;
    }
    Ok(State {
        n,
        cases,
        differences,
    })
}

// Replays the file of the name, and reports.
fn replay_argument(rt: &(impl Files + Print), name: &str) -> io::Result<()> {
    let mut file = fs::open(rt, name)?;
    let t = replay(&mut file)?;
    vectors::report(rt, name, t.cases, t.differences)
}

fn main(rt: HostRuntime) -> io::Result<()> {
    for name in env::args(&rt)?.skip(1) {
        replay_argument(&rt, name.as_str())?;
    }
    Ok(())
}
