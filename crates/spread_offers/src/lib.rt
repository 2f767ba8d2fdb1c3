// What a window that is propagated, and a vertex that passes distances on, offer to the edges ahead (the Rust's `propagate` and `emit`): one candidate at a time,
// read from a mesh's buffers. Nothing is asked of what the buffers hold; where they hold a mesh's topology, it is what the Rust adds (proofs/Held.antt).
#![tactic(auto)]

ghost use Rattle.std.specs.Prelude.{◌≡◌};
ghost use Rattle.source_offers.specs.of_mesh_readers.Readers.{edge_at};
ghost use Rattle.spread_offers.specs.Offering.{side_number, side_end, ahead_at, next_edge_at, at_end, propagate_offer_at, emit_offer_at};
ghost use Rattle.spread_offers.specs.Spreading.{spread_count_at, round_offer_at, opposite_at, spread_offer_at};

use buffers::{EdgeId, FaceId, VertexId};
use propagation::of_source_windows::Bounds;
use propagation::{FaceAhead, NextEdge, Side, vertex_of};
use source::Src;
use source_offers::of_mesh_readers::{
    coords, edge_between, ends, face_round, faces_round, length, local, normal, other, side, third,
    unit, vertex, vertex_degree,
};
use source_offers::of_offers::Offered;
use source_offers::offered;
pub use source_offers::{of_offers, of_trim, of_trim_split};

// What passes distances on: a window of an edge into a face, or a vertex at distance d.
#[derive(Clone, Copy)]
pub enum Spread {
    Window {
        edge: EdgeId,
        into: FaceId,
        b0: f64,
        b1: f64,
        src: Src,
    },
    Vertex {
        vertex: VertexId,
        d: f64,
    },
}

// The face that a window goes into, and its vertex opposite to the window's edge.
#[derive(Clone, Copy)]
pub struct Opposite {
    pub c: VertexId,
    pub ahead: FaceAhead,
}

// The face that a window of edge e goes into; c is its third vertex. Its `coords` are read here: every step of the main loop asks for them, and a call with all the slices costs more than they do.
fn face_ahead(
    vertices: &[f64],
    edge_words: &[u32],
    edge_reals: &[f64],
    triangle_words: &[u32],
    triangle_reals: &[f64],
    e: EdgeId,
    g: FaceId,
    c: VertexId,
) -> FaceAhead
    ensures { result ≡ ahead_at vertices.now edge_words.now edge_reals.now triangle_words.now triangle_reals.now e.0 g.0 c.0 }
{
    let l = length(edge_reals, e);
    let both = ends(edge_words, e);
    let w = vec3::sub(vertex(vertices, c), vertex(vertices, both.a));
    let xhat = unit(edge_reals, e);
    let yhat = normal(triangle_reals, g, local(triangle_words, g, e));
    FaceAhead {
        l,
        cx: vec3::dot(w, xhat),
        cy: vec3::dot(w, yhat),
    }
}

fn side_number(k: u32) -> Side
    ensures { result ≡ side_number k }
{
    if k == 0 {
        return Side::First;
    }
    Side::Second
}

// The end of edge e that the next edge of a side shares with it.
fn side_end(edge_words: &[u32], e: EdgeId, side: Side) -> VertexId
    ensures { result ≡ record { 0 = side_end side (edge_at edge_words.now e.0) } }
{
    let both = ends(edge_words, e);
    match side {
        Side::First => both.a,
        Side::Second => both.b,
    }
}

// Edge ne, as the frame of edge e sees it.
fn next_edge(edge_words: &[u32], edge_reals: &[f64], e: EdgeId, ne: EdgeId) -> NextEdge
    ensures { result ≡ next_edge_at edge_words.now edge_reals.now e.0 ne.0 }
{
    let both = ends(edge_words, e);
    let next = ends(edge_words, ne);
    let p = vertex_of(next.a, both.a, both.b);
    let q = vertex_of(next.b, both.a, both.b);
    let ln = length(edge_reals, ne);
    NextEdge { p, q, ln }
}

// The window b0 to b1 of edge e that goes into face g, to the next edge at e's first end (k is 0) or at its second; o is the face ahead.
pub fn propagate_offer(
    edge_words: &[u32],
    edge_reals: &[f64],
    triangle_words: &[u32],
    o: Opposite,
    e: EdgeId,
    g: FaceId,
    b0: f64,
    b1: f64,
    src: Src,
    k: u32,
) -> Option<Offered>
    ensures { result ≡ propagate_offer_at edge_words.now edge_reals.now triangle_words.now o e.0 g.0 b0 b1 src k }
{
    let c = o.c;
    let ahead = o.ahead;
    let side = side_number(k);
    let from = side_end(edge_words, e, side);
    let ne = edge_between(edge_words, triangle_words, g, from, c);
    let next = next_edge(edge_words, edge_reals, e, ne);
    let range = propagation::propagate(src, Bounds { b0, b1 }, ahead, side, next);
    let beyond = other(edge_words, ne, g);
    offered(ne, beyond, true, range)
}

// Vertex k is an end of edge e.
fn at_end(edge_words: &[u32], e: EdgeId, k: VertexId) -> bool
    ensures { result ≡ at_end k.0 (edge_at edge_words.now e.0) }
{
    let both = ends(edge_words, e);
    if both.a.0 == k.0 {
        return true;
    }
    if both.b.0 == k.0 {
        return true;
    }
    false
}

// Vertex vx at distance d, to side k of face g. An edge at the vertex needs no window: every evaluation goes through its ends too.
pub fn emit_offer(
    vertices: &[f64],
    edge_words: &[u32],
    edge_reals: &[f64],
    triangle_words: &[u32],
    triangle_reals: &[f64],
    g: FaceId,
    k: u32,
    vx: VertexId,
    d: f64,
) -> Option<Offered>
    ensures { result ≡ emit_offer_at vertices.now edge_words.now edge_reals.now triangle_words.now triangle_reals.now g.0 k vx.0 d }
{
    let e = side(triangle_words, g, k);
    if at_end(edge_words, e, vx) {
        return None;
    }
    let l = length(edge_reals, e);
    let p = coords(
        vertices,
        edge_words,
        edge_reals,
        triangle_words,
        triangle_reals,
        e,
        g,
        vertex(vertices, vx),
    );
    let range = propagation::emit(p.x, p.y, l, d);
    let beyond = other(edge_words, e, g);
    offered(e, beyond, true, range)
}

// How many candidates there are, some of them nothing: two of a window, and of a vertex three for each face round it. More than can be counted are not.
pub fn spread_count(vertex_words: &[u32], s: Spread) -> u32
    ensures { result ≡ spread_count_at vertex_words.now s }
{
    match s {
        Spread::Window {
            edge: _,
            into: _,
            b0: _,
            b1: _,
            src: _,
        } => 2,
        Spread::Vertex { vertex, d: _ } => {
            let n = vertex_degree(vertex_words, vertex);
            if n <= 1431655765 {
                return 3 * n;
            }
            4294967295
        }
    }
}

// Candidate i of vertex vx at distance d: to side i % 3 of face i / 3 round it.
fn round_offer(
    vertices: &[f64],
    edge_words: &[u32],
    edge_reals: &[f64],
    triangle_words: &[u32],
    triangle_reals: &[f64],
    vertex_words: &[u32],
    round: &[u32],
    vx: VertexId,
    d: f64,
    i: u32,
) -> Option<Offered>
    ensures { result ≡ round_offer_at vertices.now edge_words.now edge_reals.now triangle_words.now triangle_reals.now
        vertex_words.now round.now vx.0 d i }
{
    let fi = i / 3;
    if vertex_degree(vertex_words, vx) <= fi {
        return None;
    }
    let range = faces_round(vertex_words, vx);
    let g = face_round(round, range.start + fi);
    emit_offer(
        vertices,
        edge_words,
        edge_reals,
        triangle_words,
        triangle_reals,
        g,
        i % 3,
        vx,
        d,
    )
}

// What both candidates of a window ask for.
pub fn find_opposite(
    vertices: &[f64],
    triangles: &[u32],
    edge_words: &[u32],
    edge_reals: &[f64],
    triangle_words: &[u32],
    triangle_reals: &[f64],
    s: Spread,
) -> Opposite
    ensures { result ≡ opposite_at vertices.now triangles.now edge_words.now edge_reals.now triangle_words.now triangle_reals.now s }
{
    match s {
        Spread::Window {
            edge,
            into,
            b0: _,
            b1: _,
            src: _,
        } => {
            let c = third(triangles, edge_words, edge, into);
            let ahead = face_ahead(
                vertices,
                edge_words,
                edge_reals,
                triangle_words,
                triangle_reals,
                edge,
                into,
                c,
            );
            Opposite { c, ahead }
        }
        Spread::Vertex { vertex, d: _ } => {
            let ahead = FaceAhead {
                l: 0.0,
                cx: 0.0,
                cy: 0.0,
            };
            Opposite { c: vertex, ahead }
        }
    }
}

// Candidate i; o is what `find_opposite` tells.
pub fn spread_offer(
    vertices: &[f64],
    edge_words: &[u32],
    edge_reals: &[f64],
    triangle_words: &[u32],
    triangle_reals: &[f64],
    vertex_words: &[u32],
    round: &[u32],
    o: Opposite,
    s: Spread,
    i: u32,
) -> Option<Offered>
    ensures { result ≡ spread_offer_at vertices.now edge_words.now edge_reals.now triangle_words.now triangle_reals.now
        vertex_words.now round.now o s i }
{
    match s {
        Spread::Window {
            edge,
            into,
            b0,
            b1,
            src,
        } => propagate_offer(
            edge_words,
            edge_reals,
            triangle_words,
            o,
            edge,
            into,
            b0,
            b1,
            src,
            i,
        ),
        Spread::Vertex { vertex, d } => round_offer(
            vertices,
            edge_words,
            edge_reals,
            triangle_words,
            triangle_reals,
            vertex_words,
            round,
            vertex,
            d,
            i,
        ),
    }
}
