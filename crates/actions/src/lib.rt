// What an addition does beside the list of its edge: lists that grow, windows made, events queued, vertex distances.
#![tactic(auto)]

ghost use Rattle.std.specs.Prelude.{◌≡◌, ℕ, ◌+◌, ◌*◌, eqb, get_or};
ghost use Rattle.layout.specs.Layout.{words_per_vertex, vertex_flag};
ghost use Rattle.heap.specs.Queue.{queue};
ghost use Rattle.actions.specs.Actions.{stock, distance_of, queueing, act};
ghost use Rattle.actions.specs.Actions.{touch as Action·touch};
ghost use Rattle.buffers.specs.Lent.{given, left};

use buffers::{Lack, VertexId, read_u32, write_f64};
use layout::{REALS_PER_VERTEX, VERTEX_DISTANCE, VERTEX_EMITTED, VERTEX_FLAG, WORDS_PER_VERTEX};

// Whether vertex v passes distances round itself.
fn flagged(vertex_words: &[u32], v: VertexId) -> bool
    ensures { result ≡ eqb (get_or vertex_words.now (words_per_vertex * v.0 + vertex_flag) 0) 1 }
{
    if read_u32(vertex_words, WORDS_PER_VERTEX, v.0, VERTEX_FLAG) == 1 {
        return true;
    }
    false
}

// The distance of vertex v, a NaN where its two numbers are not both there: then no distance is less.
pub fn distance(vertex: &[f64], v: VertexId) -> f64
    ensures { result ≡ distance_of vertex.now v.0 }
{
    let i = (REALS_PER_VERTEX as usize) * (v.0 as usize);
    if i + (VERTEX_EMITTED as usize) < vertex.len() {
        return vertex[i + (VERTEX_DISTANCE as usize)];
    }
    0.0 / 0.0
}

// Vertex v is reached at distance d: a shorter one is kept, and queued at a flagged vertex up to the limit. The vertex buffer has the
// distance and the emitted distance of each vertex; one with only the first of them is not reached.
pub fn touch(
    vertex: &mut [f64],
    vertex_words: &[u32],
    keys: &mut [f64],
    events: &mut [u32],
    n: u32,
    limit: f64,
    v: VertexId,
    d: f64,
) -> Result<u32, Lack>
    ensures { (cuts windows made : ℕ) → act cuts windows limit vertex_words.now (Action·touch v.0 d) (stock made n (queue (given keys) (given events)) (given vertex))
        ≡ queueing made (left vertex) (result, queue (left keys) (left events)) }
{
    if d < distance(vertex, v) {
        write_f64(vertex, REALS_PER_VERTEX, v.0, VERTEX_DISTANCE, d);
        if flagged(vertex_words, v) {
            if d <= limit {
                return heap::push(keys, events, n, heap::vertex_event(d, v));
            }
        }
    }
    Ok(n)
}
