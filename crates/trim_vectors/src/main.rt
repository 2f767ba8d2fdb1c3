// Replays stored lists of candidates, pops and touches: how many there are, and how many are answered otherwise. Compared are the refusal and the operation that
// meets it, the live windows of each edge in their order, the windows made, the distances of the vertices, the events left, and what is left in the buffers.
// tests/trim/make_vectors.py has the format and makes the files.
#![tactic(auto)]

ghost use Rattle.std.specs.Prelude.{◌<◌};

use buffers::{read_f64, read_u32};
use layout::{
    EDGE_HEAD, REALS_PER_VERTEX, REALS_PER_WINDOW, WINDOW_FLAGS, WINDOW_INTO, WINDOW_LINK,
    WORDS_PER_EDGE, WORDS_PER_WINDOW,
};
use run_operations::Ended;
use run_operations::of_trim::of_trim_split::Counts;
use run_operations::of_trim_operations::refusal_number;
use std::io;
use stored_numbers::{
    Walk, all_f64, all_u32, at_most, count, double, number, read_bytes, read_doubles, read_numbers,
    replay_records, u32_of_byte, visit, visit_double, wrong,
};
use vectors::Tally;

// The first fields of slot i.
fn visit_reals(s: &[u8], w: Walk, reals: &[f64], stride: u32, i: u32, fields: u32) -> Walk {
    let mut now = w;
    for k in 0..fields {
        now = visit_double(s, now, read_f64(reals, stride, i, k));
    }
    now
}

fn visit_window(s: &[u8], w: Walk, words: &[u32], reals: &[f64], id: u32) -> Walk {
    let numbered = visit(s, w, id);
    let into = visit(
        s,
        numbered,
        read_u32(words, WORDS_PER_WINDOW, id, WINDOW_INTO),
    );
    let flagged = visit(s, into, read_u32(words, WORDS_PER_WINDOW, id, WINDOW_FLAGS));
    visit_reals(s, flagged, reals, REALS_PER_WINDOW, id, REALS_PER_WINDOW)
}

// Where a chain ends there is no link.
fn visit_end(w: Walk, link: u32) -> Walk {
    if link == 0 {
        return w;
    }
    wrong()
}

// The live windows of edge e.
fn visit_chain(s: &[u8], w: Walk, edges: &[u32], words: &[u32], reals: &[f64], e: u32) -> Walk {
    let at = at_most(w.at, 3_000_000);
    let n = number(s, at);
    let mut now = visit(s, w, n);
    let mut link = read_u32(edges, WORDS_PER_EDGE, e, EDGE_HEAD);
    for i in 0..n {
        if link == 0 {
            return wrong();
        }
        now = visit_window(s, now, words, reals, link - 1);
        link = read_u32(words, WORDS_PER_WINDOW, link - 1, WINDOW_LINK);
    }
    visit_end(now, link)
}

fn visit_chains(s: &[u8], w: Walk, edges: &[u32], words: &[u32], reals: &[f64], n: u32) -> Walk {
    let mut now = w;
    for e in 0..n {
        now = visit_chain(s, now, edges, words, reals, e);
    }
    now
}

// The distances of the first n vertices.
fn visit_distances(s: &[u8], w: Walk, vertex: &[f64], n: u32) -> Walk {
    let mut now = w;
    for v in 0..n {
        now = visit_reals(s, now, vertex, REALS_PER_VERTEX, v, 1);
    }
    now
}

// What a pop answers, and how many events are left.
#[derive(Clone, Copy)]
struct Left {
    walk: Walk,
    events: u32,
}

fn visit_first(s: &[u8], w: Walk, keys: &mut [f64], events: &mut [u32], n: u32) -> Left {
    match heap::pop(keys, events, n) {
        None => Left {
            walk: wrong(),
            events: 0,
        },
        Some((x, m)) => {
            let item = x.item;
            let keyed = visit_double(s, w, x.key);
            let numbered = visit(s, keyed, heap::number_of(item));
            Left {
                walk: visit(s, numbered, heap::kind_of(item)),
                events: m,
            }
        }
    }
}

// The n events left, in the order of pops.
fn visit_events(s: &[u8], w: Walk, keys: &mut [f64], events: &mut [u32], n: u32) -> Walk {
    let mut now = visit(s, w, n);
    let mut left = n;
    for i in 0..n {
        let next = visit_first(s, now, keys, events, left);
        now = next.walk;
        left = next.events;
    }
    now
}

// Where the lists of the record at number k stand.
#[derive(Clone, Copy)]
struct OperationPlaces {
    ends: usize,
    lens: usize,
    ops: usize,
    args: usize,
    answer: usize,
}

fn operation_places(s: &[u8], k: usize) -> OperationPlaces
    requires { k < 400_000 }
    ensures { (result.ends < 1_000_000) × ((result.lens < 1_000_000) × ((result.ops < 1_000_000) × (result.args < 1_000_000))) }
{
    let edges = count(s, k + 2, 8);
    let steps = count(s, k + 3, 3072);
    let ends = k + 10 + count(s, k + 1, 8);
    let lens = ends + 2 * edges;
    let ops = lens + 2 * edges;
    let args = ops + 4 * steps;
    let answer = args + 10 * steps;
    OperationPlaces {
        ends,
        lens,
        ops,
        args,
        answer,
    }
}

// Reads the lists of the record at number k to the fronts of the arrays.
fn load_edges(s: &[u8], k: usize, flags: &mut [u8; 8], ends: &mut [u32; 16], lens: &mut [f64; 8])
    requires { k < 400_000 }
{
    let at = operation_places(s, k);
    read_bytes(s, k + 10, flags);
    read_numbers(s, at.ends, ends);
    read_doubles(s, at.lens, lens);
}

// The third of each vertex's three words is its flag.
fn flag_words(flags: &[u8; 8], vertex_words: &mut [u32; 24]) {
    for v in 0..8usize {
        vertex_words[3 * v + 2] = u32_of_byte(flags[v]);
    }
}

fn load_steps(s: &[u8], k: usize, ops: &mut [u32; 12288], args: &mut [f64; 15360])
    requires { k < 400_000 }
{
    let at = operation_places(s, k);
    read_numbers(s, at.ops, ops);
    read_doubles(s, at.args, args);
}

// Whether the lists of the additions are zero.
fn cuts_zero(pts: &[f64], out: &[f64], keep: &[f64], next: &[f64]) -> bool {
    if !all_f64(pts, 0, 0.0) {
        return false;
    }
    if !all_f64(out, 0, 0.0) {
        return false;
    }
    if !all_f64(keep, 0, 0.0) {
        return false;
    }
    all_f64(next, 0, 0.0)
}

// Whether the other buffers are.
fn all_zero(
    edges: &[u32],
    words: &[u32],
    reals: &[f64],
    keys: &[f64],
    events: &[u32],
    vertex: &[f64],
) -> bool {
    if !all_u32(edges, 0, 0) {
        return false;
    }
    if !all_u32(words, 0, 0) {
        return false;
    }
    if !all_f64(reals, 0, 0.0) {
        return false;
    }
    if !all_f64(keys, 0, 0.0) {
        return false;
    }
    if !all_u32(events, 0, 0) {
        return false;
    }
    all_f64(vertex, 0, 0.0)
}

// Whether the buffers, with so many windows made and so many events queued, are what the record at number k says.
fn same_state(
    s: &[u8],
    k: usize,
    made: u32,
    queued: u32,
    edges: &[u32],
    words: &[u32],
    reals: &[f64],
    keys: &mut [f64],
    events: &mut [u32],
    vertex: &[f64],
) -> bool
    requires { k < 400_000 }
{
    let start = Walk {
        at: operation_places(s, k).answer,
        same: true,
    };
    let counted = visit(s, start, made);
    let chained = visit_chains(s, counted, edges, words, reals, number(s, k + 2));
    let reached = visit_distances(s, chained, vertex, number(s, k + 1));
    let last = visit_events(s, reached, keys, events, queued);
    last.same
}

// Whether a list that ended before an operation, refused by its number, is to end so: the last one is refused.
fn same_refusal(s: &[u8], k: usize, at: u32, refusal: u32) -> bool
    requires { k < 400_000 }
{
    let steps = number(s, k + 3);
    if steps == 0 {
        return false;
    }
    if at != steps - 1 {
        return false;
    }
    refusal == number(s, k + 7)
}

// Whether an answer and the buffers are what the record at number k says.
fn same_ran(
    s: &[u8],
    k: usize,
    answer: Result<Counts, Ended>,
    edges: &[u32],
    words: &[u32],
    reals: &[f64],
    keys: &mut [f64],
    events: &mut [u32],
    vertex: &[f64],
) -> bool {
    let at = at_most(k, 399_999);
    match answer {
        Ok(counts) => {
            if number(s, at + 7) != 0 {
                return false;
            }
            same_state(
                s,
                at,
                counts.made,
                counts.queued,
                edges,
                words,
                reals,
                keys,
                events,
                vertex,
            )
        }
        Err(ended) => {
            if same_refusal(s, at, ended.at, refusal_number(ended.refusal)) {
                return all_zero(edges, words, reals, keys, events, vertex);
            }
            false
        }
    }
}

// The same of what the list of the record at number k leaves in the buffers.
fn run_holds(
    s: &[u8],
    k: usize,
    limit: f64,
    ops: &[u32],
    args: &[f64],
    ends: &[u32],
    lens: &[f64],
    vertex_words: &[u32],
    edges: &mut [u32],
    words: &mut [u32],
    reals: &mut [f64],
    keys: &mut [f64],
    events: &mut [u32],
    vertex: &mut [f64],
    pts: &mut [f64],
    out: &mut [f64],
    keep: &mut [f64],
    next: &mut [f64],
) -> bool {
    let answer = run_operations::run(
        limit,
        ops,
        args,
        ends,
        lens,
        vertex_words,
        edges,
        words,
        reals,
        keys,
        events,
        vertex,
        pts,
        out,
        keep,
        next,
    );
    if cuts_zero(pts, out, keep, next) {
        return same_ran(s, k, answer, edges, words, reals, keys, events, vertex);
    }
    false
}

// How many steps the record at number k has, and how many slots its buffers.
#[derive(Clone, Copy)]
struct Sizes {
    steps: u32,
    windows: u32,
    events: u32,
    cuts: u32,
}

fn read_sizes(s: &[u8], k: usize) -> Sizes
    requires { k < 400_000 }
{
    Sizes {
        steps: number(s, k + 3),
        windows: number(s, k + 4),
        events: number(s, k + 5),
        cuts: number(s, k + 6),
    }
}

// The same, in buffers of the sizes that the record says: of each, one slice is cut, and the others are longer.
fn run_holds_in(
    s: &[u8],
    k: usize,
    limit: f64,
    z: Sizes,
    ops: &[u32],
    args: &[f64],
    ends: &[u32],
    lens: &[f64],
    vertex_words: &[u32],
    edges: &mut [u32],
    words: &mut [u32],
    reals: &mut [f64],
    keys: &mut [f64],
    events: &mut [u32],
    vertex: &mut [f64],
    pts: &mut [f64],
    out: &mut [f64],
    keep: &mut [f64],
    next: &mut [f64],
) -> bool {
    let to_ops = at_most(4 * (z.steps as usize), ops.len());
    let to_words = at_most(4 * (z.windows as usize), words.len());
    let to_keys = at_most(z.events as usize, keys.len());
    let to_pts = at_most(z.cuts as usize, pts.len());
    run_holds(
        s,
        k,
        limit,
        &ops[..to_ops],
        args,
        ends,
        lens,
        vertex_words,
        edges,
        &mut words[..to_words],
        reals,
        &mut keys[..to_keys],
        events,
        vertex,
        &mut pts[..to_pts],
        out,
        keep,
        next,
    )
}

// The same in new buffers: they are all 7 before, and no vertex is reached.
fn run_holds_in_new(
    s: &[u8],
    k: usize,
    ops: &[u32; 12288],
    args: &[f64; 15360],
    ends: &[u32; 16],
    lens: &[f64; 8],
    vertex_words: &[u32; 24],
) -> bool
    requires { k < 400_000 }
{
    let limit = double(s, k + 8);
    let z = read_sizes(s, k);
    let mut edges = [7u32; 48];
    let mut words = [7u32; 16384];
    let mut reals = [7.0f64; 24576];
    let mut keys = [7.0f64; 4096];
    let mut events = [7u32; 8192];
    let mut vertex = [1.0 / 0.0f64; 16];
    let mut pts = [7.0f64; 1024];
    let mut out = [7.0f64; 2048];
    let mut keep = [7.0f64; 2048];
    let mut next = [7.0f64; 2048];
    run_holds_in(
        s,
        k,
        limit,
        z,
        ops,
        args,
        ends,
        lens,
        vertex_words,
        &mut edges,
        &mut words,
        &mut reals,
        &mut keys,
        &mut events,
        &mut vertex,
        &mut pts,
        &mut out,
        &mut keep,
        &mut next,
    )
}

// The same of a record that is still to be read.
fn list_replays(s: &[u8], k: usize) -> bool
    requires { k < 400_000 }
{
    let mut ops = [0u32; 12288];
    let mut args = [0.0f64; 15360];
    let mut ends = [0u32; 16];
    let mut lens = [0.0f64; 8];
    let mut flags = [0u8; 8];
    let mut vertex_words = [0u32; 24];
    load_edges(s, k, &mut flags, &mut ends, &mut lens);
    flag_words(&flags, &mut vertex_words);
    load_steps(s, k, &mut ops, &mut args);
    run_holds_in_new(s, k, &ops, &args, &ends, &lens, &vertex_words)
}

fn replay(s: &[u8]) -> Tally {
    replay_records(s, 0, |k| list_replays(s, k))
}

fn main(rt: HostRuntime) -> io::Result<()> {
    vectors::replay_file::<524288, _>(&rt, "scope", replay)?;
    vectors::replay_file::<524288, _>(&rt, "short", replay)?;
    vectors::replay_file::<524288, _>(&rt, "long", replay)?;
    vectors::replay_file::<524288, _>(&rt, "wild", replay)
}
