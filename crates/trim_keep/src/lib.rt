// The intervals that a new window keeps become windows, and the ends of the edge that they reach are touched.
#![tactic(auto)]

ghost use Rattle.buffers.specs.Lent.{given, left};
ghost use Rattle.std.specs.Prelude.{◌≡◌, List, [], ◌∷◌, ℕ, ◌+◌, ◌≤◌, ◌<◌, length};
ghost use Rattle.float64.specs.Scalar.{zero64};
ghost use Rattle.source.specs.Distance.{eval_of, lowest_of};
ghost use Rattle.trim_split.specs.of_better.Stretches.{interval};
ghost use Rattle.trim_split.specs.of_better.Buffers.{pairs};
ghost use Rattle.heap.specs.Queue.{queue};
ghost use Rattle.actions.specs.Actions.{touch, stock, play, queueing};
ghost use Rattle.trim_split.specs.of_trim_model.Intervals.{push_if, wide_of};
ghost use Rattle.trim_split.specs.of_trim_model.Windows.{part};
ghost use Rattle.trim_split.specs.of_trim_state.Trace.{touching};
ghost use Rattle.trim_split.specs.of_live_windows.Live.{live_of};
ghost use Rattle.trim_split.specs.Running.{Ready, room_for, snapshot_before, end_after, made_end};
ghost use Rattle.trim_keep.specs.Keeping.{MadeWithin, Seats, KeptOne};

use buffers::{Lack, VertexId};
use source::Win;
use trim_split::{Counts, Made, of_cut_lists, of_live_windows};
use windows::{Edge, WindowRecord};

// The end v of an edge, which is at x along it, is touched by a window that reaches it. Most values are told to be no less than the vertex's distance without a root.
fn touch_reached(
    vertex: &mut [f64],
    vertex_words: &[u32],
    keys: &mut [f64],
    events: &mut [u32],
    n: u32,
    limit: f64,
    reached: bool,
    v: VertexId,
    x: f64,
    win: Win,
) -> Result<u32, Lack>
    ensures { (cuts windows made : ℕ) →
        play cuts windows limit vertex_words.now (push_if reached (touch v.0 (eval_of win x zero64))) (stock made n (queue (given keys) (given events)) (given vertex))
        ≡ queueing made (left vertex) (result, queue (left keys) (left events)) }
{
    if reached {
        let known = actions::distance(vertex, v);
        let d = distance_tests::nearer(known, win, x);
        return actions::touch(vertex, vertex_words, keys, events, n, limit, v, d);
    }
    Ok(n)
}

// Both ends of an edge, one after the other. The part of window x from b0 to b1 is the new window; no distance depends on its lowest value, so it keeps x's.
fn touch_ends(
    vertex: &mut [f64],
    vertex_words: &[u32],
    keys: &mut [f64],
    events: &mut [u32],
    n: u32,
    limit: f64,
    e: Edge,
    x: WindowRecord,
    b0: f64,
    b1: f64,
) -> Result<u32, Lack>
    ensures { (cuts windows made k j : ℕ) →
        play cuts windows limit vertex_words.now (touching e (part (live_of x k) b0 b1 j)) (stock made n (queue (given keys) (given events)) (given vertex))
        ≡ queueing made (left vertex) (result, queue (left keys) (left events)) }
{
    let old = x.win;
    let src = old.src;
    let low = old.low;
    let win = Win { b0, b1, low, src };
    let near = 1e-9 * e.len;
    let m = touch_reached(
        vertex,
        vertex_words,
        keys,
        events,
        n,
        limit,
        b0 <= near,
        e.a,
        0.0,
        win,
    )?;
    touch_reached(
        vertex,
        vertex_words,
        keys,
        events,
        m,
        limit,
        b1 >= e.len - near,
        e.b,
        e.len,
        win,
    )
}

// The lowest value of a window between b0 and b1: where those are its own ends, bit for bit, it is known.
fn kept_low(w: Win, b0: f64, b1: f64) -> f64
    requires { w.low ≡ lowest_of w.src w.b0 w.b1 }
    ensures { result ≡ lowest_of w.src b0 b1 }
{
    if float64::total_key(b0) == float64::total_key(w.b0) {
        if float64::total_key(b1) == float64::total_key(w.b1) {
            return w.low;
        }
    }
    let src = w.src;
    source::lowest(src, b0, b1)
}

// The part of window x from b0 to b1 becomes a window of edge e, seated by its start behind a link.
fn keep_part(
    edges: &mut [u32],
    words: &mut [u32],
    reals: &mut [f64],
    keys: &mut [f64],
    events: &mut [u32],
    vertex: &mut [f64],
    vertex_words: &[u32],
    counts: Counts,
    e: Edge,
    before: u32,
    x: WindowRecord,
    b0: f64,
    b1: f64,
    limit: f64,
) -> Result<Made, Lack>
    requires { Ready e.id.0 counts.made before edges.old words.old reals.old × (x.win.low ≡ lowest_of x.win.src x.win.b0 x.win.b1) }
    ensures { MadeWithin (room_for words reals) result × ((cuts k : ℕ) →
        KeptOne cuts (room_for words reals) limit vertex_words.now e (live_of x k) (interval b0 b1)
        (snapshot_before edges words reals keys events counts.made counts.queued before (given vertex))
        (end_after edges words reals keys events (made_end result) (left vertex))) }
{
    let seat = of_live_windows::seat_from(edges, words, reals, counts.made, e.id, before, b0);
    let old = x.win;
    let low = kept_low(old, b0, b1);
    let part = trim_split::make_part(
        edges, words, reals, keys, events, counts, e.id, seat, x, b0, b1, low,
    )?;
    let c = part.counts;
    let queued = touch_ends(
        vertex,
        vertex_words,
        keys,
        events,
        c.queued,
        limit,
        e,
        x,
        b0,
        b1,
    )?;
    Ok(Made {
        counts: Counts {
            made: c.made,
            queued,
        },
        last: part.last,
    })
}

// Each of the k intervals that is wider than tiny becomes a window, behind a link of edge e.
pub fn keep_parts(
    edges: &mut [u32],
    words: &mut [u32],
    reals: &mut [f64],
    keys: &mut [f64],
    events: &mut [u32],
    vertex: &mut [f64],
    vertex_words: &[u32],
    keep: &[f64],
    k: usize,
    counts: Counts,
    e: Edge,
    before: u32,
    x: WindowRecord,
    tiny: f64,
    limit: f64,
) -> Result<Made, Lack>
    requires { Ready e.id.0 counts.made before edges.old words.old reals.old
        × ((k + k ≤ length keep.now) × (x.win.low ≡ lowest_of x.win.src x.win.b0 x.win.b1)) }
    ensures { MadeWithin (room_for words reals) result × ((cuts j : ℕ) →
        Seats cuts (room_for words reals) limit vertex_words.now e (live_of x j) (wide_of tiny (pairs k keep.now))
        (snapshot_before edges words reals keys events counts.made counts.queued before (given vertex))
        (end_after edges words reals keys events (made_end result) (left vertex))) }
{
    let mut now = Made {
        counts,
        last: before,
    };
    for i in 0..k {
        let b0 = of_cut_lists::from_of(keep, i);
        let b1 = of_cut_lists::to_of(keep, i);
        if b1 - b0 <= tiny {
            continue;
        }
        now = keep_part(
            edges,
            words,
            reals,
            keys,
            events,
            vertex,
            vertex_words,
            now.counts,
            e,
            now.last,
            x,
            b0,
            b1,
            limit,
        )?;
    }
    Ok(now)
}
