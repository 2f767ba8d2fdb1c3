// A list of candidates, pops and touches is run over lent buffers, from empty edges on.
#![tactic(auto)]

ghost use Rattle.std.specs.Prelude.{ℕ, ◌≡◌};
ghost use Rattle.chains.specs.Chains.{head_of};
ghost use Rattle.trim_operations.specs.Operations.{as_candidate, as_operation};
ghost use Rattle.trim_operations.specs.Operations.{add as Operations·add};
ghost use Rattle.run_operations.specs.Lists.{setting_of, ReadyToRun, Operated, Runs, snapshot_in, Touches, PopsFirst, edge_count, operation_count, lent_setting, ZeroSlices, ZeroCuts, RunWhole};
ghost use Rattle.buffers.specs.Lent.{given, left};
ghost use Rattle.trim.specs.Buffers.{slices, before, after};
ghost use Rattle.trim.specs.of_cut_lists.Buffers.{cut_buffers, cuts_before, cuts_after};
ghost use Rattle.cut_slots.specs.Slots.{cut_count};

use buffers::{EdgeId, VertexId, read_f64, read_u32};
use layout::{
    ENDS_HIGH, ENDS_LOW, REALS_PER_LEN, REALS_PER_OPERATION, REALS_PER_VERTEX, WORDS_PER_EDGE,
    WORDS_PER_ENDS, WORDS_PER_OPERATION,
};
pub use trim as of_trim;
use trim::of_trim_split::Counts;
pub use trim_operations as of_trim_operations;
use trim_operations::{Op, OperationRefusal, of_pop};
use windows::{Edge, NewWindow};

// The list ends before operation `at`, which is refused.
#[derive(Clone, Copy)]
pub struct Ended {
    pub at: u32,
    pub refusal: OperationRefusal,
}

// A vertex is reached at a distance.
fn touch(
    v: VertexId,
    d: f64,
    limit: f64,
    vertex_words: &[u32],
    keys: &mut [f64],
    events: &mut [u32],
    vertex: &mut [f64],
    counts: Counts,
) -> Result<Counts, OperationRefusal>
    ensures { Touches v.0 d limit vertex_words.now counts.made counts.queued (given keys) (given events) (given vertex) result (left keys) (left events) (left vertex) }
{
    if buffers::slots(vertex.len(), REALS_PER_VERTEX) <= v.0 {
        return Err(OperationRefusal::NoVertex);
    }
    let queued = actions::touch(
        vertex,
        vertex_words,
        keys,
        events,
        counts.queued,
        limit,
        v,
        d,
    )?;
    Ok(Counts {
        made: counts.made,
        queued,
    })
}

// The first event is taken out, if there is one. The answer is how many are left.
fn pop_first(words: &mut [u32], keys: &mut [f64], events: &mut [u32], made: u32, queued: u32) -> u32
    ensures { PopsFirst made queued (given words) (given keys) (given events) result (left words) (left keys) (left events) }
{
    match of_pop::pop(words, keys, events, made, queued) {
        None => queued,
        Some(first) => first.queued,
    }
}

// How many edges the slices all have.
fn edge_count(ends: &[u32], lens: &[f64], edges: &[u32]) -> u32
    ensures { result ≡ edge_count ends.now lens.now edges.now }
{
    let n = buffers::count(ends.len(), WORDS_PER_ENDS, lens.len(), REALS_PER_LEN);
    let heads = buffers::slots(edges.len(), WORDS_PER_EDGE);
    if n <= heads {
        return n;
    }
    heads
}

fn zero_cuts(pts: &mut [f64], out: &mut [f64], keep: &mut [f64], next: &mut [f64])
    ensures { ZeroCuts (cuts_before pts out keep next) (cuts_after pts out keep next) }
{
    buffers::zero_f64(pts);
    buffers::zero_f64(out);
    buffers::zero_f64(keep);
    buffers::zero_f64(next);
}

fn zero_slices(
    edges: &mut [u32],
    words: &mut [u32],
    reals: &mut [f64],
    keys: &mut [f64],
    events: &mut [u32],
    vertex: &mut [f64],
)
    ensures { ZeroSlices (before edges words reals keys events vertex) (after edges words reals keys events vertex) }
{
    buffers::zero_u32(edges);
    buffers::zero_u32(words);
    buffers::zero_f64(reals);
    buffers::zero_f64(keys);
    buffers::zero_u32(events);
    buffers::zero_f64(vertex);
}

// A candidate is refused, or added to its edge.
fn add_candidate(
    m: u32,
    id: EdgeId,
    w: NewWindow,
    limit: f64,
    ends: &[u32],
    lens: &[f64],
    vertex_words: &[u32],
    edges: &mut [u32],
    words: &mut [u32],
    reals: &mut [f64],
    keys: &mut [f64],
    events: &mut [u32],
    vertex: &mut [f64],
    pts: &mut [f64],
    out: &mut [f64],
    keep: &mut [f64],
    next: &mut [f64],
    counts: Counts,
) -> Result<Counts, OperationRefusal>
    requires { ReadyToRun m counts.made (slices edges.old words.old reals.old keys.old events.old vertex.old) (cut_buffers pts.old out.old keep.old next.old) }
    ensures { Operated (setting_of (cuts_before pts out keep next) (before edges words reals keys events vertex) limit vertex_words.now ends.now lens.now m)
        (Operations·add (as_candidate id.0 w)) counts.made counts.queued (before edges words reals keys events vertex) result (after edges words reals keys events vertex) }
{
    let len = read_f64(lens, REALS_PER_LEN, id.0, 0);
    trim_operations::check_candidate(m, id, len, w.b0, w.b1)?;
    let low = read_u32(ends, WORDS_PER_ENDS, id.0, ENDS_LOW);
    let high = read_u32(ends, WORDS_PER_ENDS, id.0, ENDS_HIGH);
    let e = Edge {
        id,
        len,
        a: VertexId(low),
        b: VertexId(high),
    };
    let now = trim::add(
        edges,
        words,
        reals,
        keys,
        events,
        vertex,
        vertex_words,
        pts,
        out,
        keep,
        next,
        counts,
        e,
        w,
        limit,
    )?;
    Ok(now)
}

// One operation.
fn operate(
    m: u32,
    op: Op,
    limit: f64,
    ends: &[u32],
    lens: &[f64],
    vertex_words: &[u32],
    edges: &mut [u32],
    words: &mut [u32],
    reals: &mut [f64],
    keys: &mut [f64],
    events: &mut [u32],
    vertex: &mut [f64],
    pts: &mut [f64],
    out: &mut [f64],
    keep: &mut [f64],
    next: &mut [f64],
    counts: Counts,
) -> Result<Counts, OperationRefusal>
    requires { ReadyToRun m counts.made (slices edges.old words.old reals.old keys.old events.old vertex.old) (cut_buffers pts.old out.old keep.old next.old) }
    ensures { Operated (setting_of (cuts_before pts out keep next) (before edges words reals keys events vertex) limit vertex_words.now ends.now lens.now m)
        (as_operation op) counts.made counts.queued (before edges words reals keys events vertex) result (after edges words reals keys events vertex) }
{
    match op {
        Op::Add(id, w) => add_candidate(
            m,
            id,
            w,
            limit,
            ends,
            lens,
            vertex_words,
            edges,
            words,
            reals,
            keys,
            events,
            vertex,
            pts,
            out,
            keep,
            next,
            counts,
        ),
        Op::Pop => {
            let queued = pop_first(words, keys, events, counts.made, counts.queued);
            Ok(Counts {
                made: counts.made,
                queued,
            })
        }
        Op::Touch(v, d) => touch(v, d, limit, vertex_words, keys, events, vertex, counts),
        Op::Unknown => Err(OperationRefusal::UnknownKind),
    }
}

// The n operations of a list, over cut buffers of as many slots each.
fn run_all(
    m: u32,
    n: u32,
    limit: f64,
    ops: &[u32],
    args: &[f64],
    ends: &[u32],
    lens: &[f64],
    vertex_words: &[u32],
    edges: &mut [u32],
    words: &mut [u32],
    reals: &mut [f64],
    keys: &mut [f64],
    events: &mut [u32],
    vertex: &mut [f64],
    pts: &mut [f64],
    out: &mut [f64],
    keep: &mut [f64],
    next: &mut [f64],
) -> Result<Counts, Ended>
    requires { ReadyToRun m 0 (slices edges.old words.old reals.old keys.old events.old vertex.old) (cut_buffers pts.old out.old keep.old next.old)
        × ((e : ℕ) → head_of edges.old e ≡ 0) }
    ensures { Runs (setting_of (cuts_before pts out keep next) (before edges words reals keys events vertex) limit vertex_words.now ends.now lens.now m)
        ops.now args.now n (snapshot_in 0 0 (before edges words reals keys events vertex)) result (after edges words reals keys events vertex) }
{
    let mut counts = Counts { made: 0, queued: 0 };
    for k in 0..n {
        let op = trim_operations::operation_at(ops, args, k);
        let step = operate(
            m,
            op,
            limit,
            ends,
            lens,
            vertex_words,
            edges,
            words,
            reals,
            keys,
            events,
            vertex,
            pts,
            out,
            keep,
            next,
            counts,
        );
        match step {
            Err(refusal) => return Err(Ended { at: k, refusal }),
            Ok(now) => counts = now,
        }
    }
    Ok(counts)
}

// The same over the first x slots of the cut buffers.
fn run_parts(
    x: u32,
    m: u32,
    n: u32,
    limit: f64,
    ops: &[u32],
    args: &[f64],
    ends: &[u32],
    lens: &[f64],
    vertex_words: &[u32],
    edges: &mut [u32],
    words: &mut [u32],
    reals: &mut [f64],
    keys: &mut [f64],
    events: &mut [u32],
    vertex: &mut [f64],
    pts: &mut [f64],
    out: &mut [f64],
    keep: &mut [f64],
    next: &mut [f64],
) -> Result<Counts, Ended>
    requires { (m ≡ edge_count ends.now lens.now edges.old)
        × ((x ≡ cut_count (cut_buffers pts.old out.old keep.old next.old)) × ((n ≡ operation_count ops.now args.now) × ((e : ℕ) → head_of edges.old e ≡ 0))) }
    ensures { Runs (lent_setting (cuts_before pts out keep next) (before edges words reals keys events vertex) limit vertex_words.now ends.now lens.now)
        ops.now args.now (operation_count ops.now args.now) (snapshot_in 0 0 (before edges words reals keys events vertex)) result (after edges words reals keys events vertex) }
{
    let single = x as usize;
    let double = 2 * single;
    run_all(
        m,
        n,
        limit,
        ops,
        args,
        ends,
        lens,
        vertex_words,
        edges,
        words,
        reals,
        keys,
        events,
        vertex,
        &mut pts[..single],
        &mut out[..double],
        &mut keep[..double],
        &mut next[..double],
    )
}

// The operations of a list, one after the other, on edges without windows and with no event queued. The list ends before an operation
// that is refused; the buffers are zeroed then. The lists of the additions are zeroed in any case.
pub fn run(
    limit: f64,
    ops: &[u32],
    args: &[f64],
    ends: &[u32],
    lens: &[f64],
    vertex_words: &[u32],
    edges: &mut [u32],
    words: &mut [u32],
    reals: &mut [f64],
    keys: &mut [f64],
    events: &mut [u32],
    vertex: &mut [f64],
    pts: &mut [f64],
    out: &mut [f64],
    keep: &mut [f64],
    next: &mut [f64],
) -> Result<Counts, Ended>
    ensures { RunWhole limit vertex_words.now ends.now lens.now ops.now args.now
        (before edges words reals keys events vertex) (cuts_before pts out keep next)
        result (after edges words reals keys events vertex) (cuts_after pts out keep next) }
{
    let m = edge_count(ends, lens, edges);
    let x = cut_slots::cut_count(pts, out, keep, next);
    let n = buffers::count(
        ops.len(),
        WORDS_PER_OPERATION,
        args.len(),
        REALS_PER_OPERATION,
    );
    buffers::zero_u32(edges);
    buffers::zero_u32(words);
    buffers::zero_f64(reals);
    let r = run_parts(
        x,
        m,
        n,
        limit,
        ops,
        args,
        ends,
        lens,
        vertex_words,
        edges,
        words,
        reals,
        keys,
        events,
        vertex,
        pts,
        out,
        keep,
        next,
    );
    zero_cuts(pts, out, keep, next);
    match r {
        Ok(counts) => {
            contents::forget(edges);
            Ok(counts)
        }
        Err(ended) => {
            zero_slices(edges, words, reals, keys, events, vertex);
            Err(ended)
        }
    }
}
