// One turn of the Rust's main loop: the least event is popped; its vertex passes its distance on, or its window is propagated, or it is out of date.
#![tactic(auto)]

ghost use Rattle.std.specs.Prelude.{◌≤◌, ◌<◌, cond, ◌≡◌, ltb, length, None};
ghost use Rattle.buffers.specs.Lent.{given, left};
ghost use Rattle.windows.specs.Windows.{window_at, capacity_of};
ghost use Rattle.spread.specs.of_cut_lists.Buffers.{cuts_before};
ghost use Rattle.spread.specs.of_cut_lists.Cut.{Sizes};
ghost use Rattle.spread.specs.of_trim.Buffers.{before, after};
ghost use Rattle.field_step.specs.Step.{vertex_turn, window_turn, marked_vertex};
ghost use Rattle.field_step.specs.Contract.{turn_at, SlotFor, StepsOnce};

use buffers::{Lack, VertexId, WindowId};
use heap::{Event, Item};
use spread::of_spread_offers::Spread;
use spread::of_trim_split::Counts;
use windows_there::of_pop;

// A vertex's event of this key; one past the first n is passed over, and no queue of a mesh of n vertices has such a one.
fn vertex_turn(vertex: &[f64], k: VertexId, key: f64, n: u32) -> Option<Spread>
    ensures { result ≡ cond (ltb k.0 n) (vertex_turn vertex.now k.0 key) None }
{
    if n <= k.0 {
        return None;
    }
    let d = actions::distance(vertex, k);
    let emitted = field_tests::emitted(vertex, k);
    if field_tests::emits(d, key, emitted) {
        return Some(Spread::Vertex { vertex: k, d });
    }
    None
}

// A window that was alive and queued.
fn window_turn(words: &[u32], reals: &[f64], id: WindowId, limit: f64) -> Option<Spread>
    requires { id.0 < capacity_of (length words.now) (length reals.now) }
    ensures { result ≡ window_turn limit (window_at words.now reals.now id.0) }
{
    let x = windows::load(words, reals, id);
    let edge = x.edge;
    let into = x.carried.into;
    let w = x.win;
    let src = w.src;
    if field_tests::goes_on(into, w.b0, w.b1, src, limit) {
        return Some(Spread::Window {
            edge,
            into,
            b0: w.b0,
            b1: w.b1,
            src,
        });
    }
    None
}

// An event that was popped; `pending` says whether its window was alive and queued.
fn turn_of(
    words: &[u32],
    reals: &[f64],
    vertex: &[f64],
    x: Event,
    pending: bool,
    n: u32,
    limit: f64,
) -> Option<Spread>
    requires { SlotFor (capacity_of (length words.now) (length reals.now)) x.item pending }
    ensures { result ≡ turn_at limit n words.now reals.now vertex.now x.item x.key pending }
{
    let key = x.key;
    let item = x.item;
    match item {
        Item::Window(id) => {
            if pending {
                return window_turn(words, reals, id, limit);
            }
            None
        }
        Item::Vertex(k) => vertex_turn(vertex, k, key, n),
    }
}

// A vertex has emitted its distance.
fn mark(vertex: &mut [f64], s: Spread)
    ensures { left vertex ≡ marked_vertex s (given vertex) }
{
    match s {
        Spread::Window {
            edge: _,
            into: _,
            b0: _,
            b1: _,
            src: _,
        } => {}
        Spread::Vertex { vertex: k, d } => field_tests::set_emitted(vertex, k, d),
    }
}

// One turn, in a mesh of n vertices: how many windows and events there are now, or what there is no slot for; of an empty queue nothing is done, and the answer is None.
pub fn step(
    vertices: &[f64],
    triangles: &[u32],
    edge_words: &mut [u32],
    words: &mut [u32],
    reals: &mut [f64],
    keys: &mut [f64],
    events: &mut [u32],
    vertex: &mut [f64],
    vertex_words: &[u32],
    round: &[u32],
    edge_reals: &[f64],
    triangle_words: &[u32],
    triangle_reals: &[f64],
    pts: &mut [f64],
    out: &mut [f64],
    keep: &mut [f64],
    next: &mut [f64],
    counts: Counts,
    n: u32,
    limit: f64,
) -> Result<Option<Counts>, Lack>
    requires { (counts.made ≤ capacity_of (length words.old) (length reals.old)) × Sizes (length pts.old) out.old keep.old next.old }
    ensures { StepsOnce limit n vertices.now triangles.now vertex_words.now round.now edge_reals.now triangle_words.now triangle_reals.now
        counts (before edge_words words reals keys events vertex) (cuts_before pts out keep next) result (after edge_words words reals keys events vertex) }
{
    let made = counts.made;
    let taken = of_pop::pop(words, keys, events, made, counts.queued);
    match taken {
        None => Ok(None),
        Some(first) => {
            let now = Counts {
                made,
                queued: first.queued,
            };
            let turn = turn_of(words, reals, vertex, first.event, first.pending, n, limit);
            match turn {
                None => Ok(Some(now)),
                Some(s) => {
                    mark(vertex, s);
                    let added = spread::spread(
                        vertices,
                        triangles,
                        edge_words,
                        words,
                        reals,
                        keys,
                        events,
                        vertex,
                        vertex_words,
                        round,
                        edge_reals,
                        triangle_words,
                        triangle_reals,
                        pts,
                        out,
                        keep,
                        next,
                        now,
                        s,
                        limit,
                    )?;
                    Ok(Some(added))
                }
            }
        }
    }
}
