// The end of the Rust's `compute`: every vertex at the least of its edges' windows there. What else the Rust does then changes nothing (proofs/Finished.antt).
#![tactic(auto)]

ghost use Rattle.std.specs.Prelude.{◌≡◌, ◌≤◌, ◌<◌, ◌-◌, length};
ghost use Rattle.layout.specs.Layout.{words_per_edge};
ghost use Rattle.float64.specs.Scalar.{zero64};
ghost use Rattle.source.specs.Distance.{eval_of};
ghost use Rattle.buffers.specs.Slots.{slots_of};
ghost use Rattle.buffers.specs.Lent.{given, left};
ghost use Rattle.windows.specs.Windows.{capacity_of};
ghost use Rattle.chains.specs.Chains.{links};
ghost use Rattle.last_pass.specs.Lowered.{lowered, lowered_by, lowered_edge};
ghost use Rattle.last_pass.specs.Buffers.{chain_behind, wins_on, lowered_all_at, lowered_from};

use buffers::{EdgeId, VertexId, WindowId, write_f64};
pub use distance_tests::of_face_distance as of_face_distance;
use layout::{REALS_PER_VERTEX, VERTEX_DISTANCE};
pub use mesh_readers as of_mesh_readers;
use source::Win;
use windows::Edge;

// A vertex's distance becomes the lesser of itself and what a window gives at x on its edge, by the Rust's `min`. Most values are told to be no less without a root.
fn lower(vertex: &mut [f64], v: VertexId, w: Win, x: f64)
    ensures { left vertex ≡ lowered (given vertex) v.0 (eval_of w x zero64) }
{
    let d = actions::distance(vertex, v);
    let least = distance_tests::nearer(d, w, x);
    write_f64(vertex, REALS_PER_VERTEX, v.0, VERTEX_DISTANCE, least);
}

// Those of both ends of an edge to what a window of it gives there.
fn lower_ends(vertex: &mut [f64], e: Edge, w: Win)
    ensures { left vertex ≡ lowered_by e w (given vertex) }
{
    lower(vertex, e.a, w, 0.0);
    lower(vertex, e.b, w, e.len);
}

// By all windows on the chain of an edge.
fn lower_edge(
    edge_words: &[u32],
    words: &[u32],
    reals: &[f64],
    vertex: &mut [f64],
    e: Edge,
    made: u32,
)
    requires { (made ≤ capacity_of (length words.now) (length reals.now)) × (e.id.0 < slots_of (length edge_words.now) words_per_edge) }
    ensures { left vertex ≡ lowered_edge e (wins_on words.now reals.now (chain_behind made (links edge_words.now words.now) e.id.0 made 0)) (given vertex) }
{
    let mut before = 0;
    let mut left = made;
    while 0 < left {
        let at = chains::link_at(edge_words, words, reals, made, e.id, before);
        if at == 0 {
            return;
        }
        let x = windows::load(words, reals, WindowId(at - 1));
        lower_ends(vertex, e, x.win);
        before = at;
        left -= 1;
    }
}

// The edges from one up to another, one after the other.
fn lower_group(
    edge_words: &[u32],
    edge_reals: &[f64],
    words: &[u32],
    reals: &[f64],
    vertex: &mut [f64],
    made: u32,
    from: u32,
    end: u32,
)
    requires { (made ≤ capacity_of (length words.now) (length reals.now)) × ((end ≤ slots_of (length edge_words.now) words_per_edge) × (from ≤ end)) }
    ensures { left vertex ≡ lowered_from made edge_reals.now (links edge_words.now words.now) reals.now from (end - from) (given vertex) }
{
    for e in from..end {
        let edge = mesh_readers::edge(edge_words, edge_reals, EdgeId(e));
        lower_edge(edge_words, words, reals, vertex, edge, made);
    }
}

// How far the group of edges that starts with edge e goes. Its windows are fetched at once; the result of the pass is the same wherever its groups end, and no start is below zero.
fn group_end(edge_words: &[u32], words: &[u32], reals: &[f64], made: u32, e: u32, edges: u32) -> u32
    requires { e < edges }
    ensures { (e < result) × (result ≤ edges) }
{
    let x = fetch_ahead::fetch_run(edge_words, words, reals, made, e / 8);
    if x < 0.0 {
        return e + 1;
    }
    if edges - e <= 8 {
        return edges;
    }
    e + 8
}

// The last pass over so many edges, where so many windows are made.
pub fn lower_all(
    edge_words: &[u32],
    edge_reals: &[f64],
    words: &[u32],
    reals: &[f64],
    vertex: &mut [f64],
    edges: u32,
    made: u32,
)
    requires { (made ≤ capacity_of (length words.now) (length reals.now)) × (edges ≤ slots_of (length edge_words.now) words_per_edge) }
    ensures { left vertex ≡ lowered_all_at made edge_reals.now (links edge_words.now words.now) reals.now edges (given vertex) }
{
    let mut e = 0;
    while e < edges {
        let end = group_end(edge_words, words, reals, made, e, edges);
        lower_group(edge_words, edge_reals, words, reals, vertex, made, e, end);
        e = end;
    }
}
