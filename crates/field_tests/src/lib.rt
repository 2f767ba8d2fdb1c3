// The tests of the Rust's main loop, on values: whether a vertex's event passes its distance on, and whether a window's event goes on into the face ahead;
// and the distance that a vertex has emitted.
#![tactic(auto)]

ghost use Rattle.std.specs.Prelude.{◌≡◌};
ghost use Rattle.field_tests.specs.Tests.{emits_of, goes_on_of, emitted_of, with_emitted};
ghost use Rattle.buffers.specs.Lent.{given, left};

use buffers::{FaceId, VertexId, read_f64, write_f64};
use layout::{REALS_PER_VERTEX, VERTEX_EMITTED};
use source::Src;

// Whether an event of this key emits its vertex, which is at distance d: the event is not out of date, and d is less than what was emitted last by more than 1e-10 (1 + d).
pub fn emits(d: f64, key: f64, emitted: f64) -> bool
    ensures { result ≡ emits_of d key emitted }
{
    if d < key || d >= emitted - 1e-10 * (1.0 + d) {
        return false;
    }
    true
}

// Whether a window from b0 to b1 goes on: it has a face ahead, and is not all above the limit.
pub fn goes_on(into: FaceId, b0: f64, b1: f64, src: Src, limit: f64) -> bool
    ensures { result ≡ goes_on_of into b0 b1 src limit }
{
    let none = buffers::no_face().0;
    if into.0 == none {
        return false;
    }
    if distance_tests::reaches(src, b0, b1, limit) {
        return true;
    }
    false
}

pub fn emitted(vertex: &[f64], v: VertexId) -> f64
    ensures { result ≡ emitted_of vertex.now v.0 }
{
    read_f64(vertex, REALS_PER_VERTEX, v.0, VERTEX_EMITTED)
}

pub fn set_emitted(vertex: &mut [f64], v: VertexId, d: f64)
    ensures { left vertex ≡ with_emitted (given vertex) v.0 d }
{
    write_f64(vertex, REALS_PER_VERTEX, v.0, VERTEX_EMITTED, d);
}
