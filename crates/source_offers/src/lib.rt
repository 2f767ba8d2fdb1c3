// What a source segment and a source point offer to a side of a face, read from a mesh's buffers. Nothing is asked of what the buffers hold; where they hold a
// mesh's topology, it is what the Rust adds (proofs/Held.antt).
#![tactic(auto)]

ghost use Rattle.std.specs.Prelude.{◌≡◌};
ghost use Rattle.source_offers.specs.Offering.{along_at, segment_offer_at, point_offer_at};
ghost use Rattle.source_offers.specs.Offering.{offered as offeredOf};

use buffers::{EdgeId, FaceId, no_face};
use candidate_laws::of_source_windows;
use candidate_laws::of_source_windows::{
    Bounds, CandidateWindow, Normal, goes_back, lies_on, point_window, segment_window, too_narrow,
};
pub use offers as of_offers;
use offers::Offered;
use offers::of_mesh_readers::{coords, ends, length, other, side, unit, vertex};
pub use offers::{of_mesh_readers, of_trim, of_trim_split};
use vec3::Vec3;
use windows::{Carried, NewWindow};

// A range of edge e as it is offered: it goes on into a face, and is queued or not.
pub fn offered(e: EdgeId, into: FaceId, queued: bool, w: Option<CandidateWindow>) -> Option<Offered>
    ensures { result ≡ offeredOf e.0 into.0 queued w }
{
    match w {
        None => None,
        Some(w) => {
            let carried = Carried { into, queued };
            let new = NewWindow {
                b0: w.b0,
                b1: w.b1,
                src: w.src,
                carried,
            };
            Some(Offered {
                edge: e,
                window: new,
            })
        }
    }
}

// One side of the segment from a to b of face f, to the face's side k, by the coordinates of its ends in the edge's frame.
fn framed_segment(
    vertices: &[f64],
    edge_words: &[u32],
    edge_reals: &[f64],
    triangle_words: &[u32],
    triangle_reals: &[f64],
    f: FaceId,
    k: u32,
    a: Vec3,
    b: Vec3,
    n: Normal,
) -> Option<Offered>
    ensures { result ≡ segment_offer_at vertices.now edge_words.now edge_reals.now triangle_words.now triangle_reals.now f.0 k a b n }
{
    let e = side(triangle_words, f, k);
    let l = length(edge_reals, e);
    let p = coords(
        vertices,
        edge_words,
        edge_reals,
        triangle_words,
        triangle_reals,
        e,
        f,
        a,
    );
    let q = coords(
        vertices,
        edge_words,
        edge_reals,
        triangle_words,
        triangle_reals,
        e,
        f,
        b,
    );
    let s = of_source_windows::in_frame(p.x, p.y, q.x, q.y, l);
    let w = segment_window(s, l, n);
    let beyond = other(edge_words, e, f);
    offered(e, beyond, true, w)
}

// Where p stands along edge e, the x of its `coords`.
fn along(vertices: &[f64], edge_words: &[u32], edge_reals: &[f64], e: EdgeId, p: Vec3) -> f64
    ensures { result ≡ along_at vertices.now edge_words.now edge_reals.now e.0 p }
{
    let o = vertex(vertices, ends(edge_words, e).a);
    vec3::dot(vec3::sub(p, o), unit(edge_reals, e))
}

// The same offer. On each side of a face one of the segment's own two sides gives none, which is mostly told by where its ends stand along the edge.
pub fn segment_offer(
    vertices: &[f64],
    edge_words: &[u32],
    edge_reals: &[f64],
    triangle_words: &[u32],
    triangle_reals: &[f64],
    f: FaceId,
    k: u32,
    a: Vec3,
    b: Vec3,
    n: Normal,
) -> Option<Offered>
    ensures { result ≡ segment_offer_at vertices.now edge_words.now edge_reals.now triangle_words.now triangle_reals.now f.0 k a b n }
{
    let e = side(triangle_words, f, k);
    let ax = along(vertices, edge_words, edge_reals, e, a);
    let bx = along(vertices, edge_words, edge_reals, e, b);
    if goes_back(ax, bx, n) {
        return None;
    }
    framed_segment(
        vertices,
        edge_words,
        edge_reals,
        triangle_words,
        triangle_reals,
        f,
        k,
        a,
        b,
        n,
    )
}

// The point p of face f, to the part w of the face's side k that its wedge leaves, by its coordinates in the edge's frame. One that lies on the edge goes nowhere.
fn framed_point(
    vertices: &[f64],
    edge_words: &[u32],
    edge_reals: &[f64],
    triangle_words: &[u32],
    triangle_reals: &[f64],
    f: FaceId,
    k: u32,
    p: Vec3,
    w: Bounds,
) -> Option<Offered>
    ensures { result ≡ point_offer_at vertices.now edge_words.now edge_reals.now triangle_words.now triangle_reals.now f.0 k p w }
{
    let e = side(triangle_words, f, k);
    let l = length(edge_reals, e);
    let c = coords(
        vertices,
        edge_words,
        edge_reals,
        triangle_words,
        triangle_reals,
        e,
        f,
        p,
    );
    let range = point_window(w, c.x, c.y, l);
    if lies_on(c.y, l) {
        return offered(e, no_face(), false, range);
    }
    let beyond = other(edge_words, e, f);
    offered(e, beyond, true, range)
}

// The same offer. Where the wedge leaves too little of the side, the point's coordinates are not asked for.
pub fn point_offer(
    vertices: &[f64],
    edge_words: &[u32],
    edge_reals: &[f64],
    triangle_words: &[u32],
    triangle_reals: &[f64],
    f: FaceId,
    k: u32,
    p: Vec3,
    w: Bounds,
) -> Option<Offered>
    ensures { result ≡ point_offer_at vertices.now edge_words.now edge_reals.now triangle_words.now triangle_reals.now f.0 k p w }
{
    let e = side(triangle_words, f, k);
    if too_narrow(w, length(edge_reals, e)) {
        return None;
    }
    framed_point(
        vertices,
        edge_words,
        edge_reals,
        triangle_words,
        triangle_reals,
        f,
        k,
        p,
        w,
    )
}
