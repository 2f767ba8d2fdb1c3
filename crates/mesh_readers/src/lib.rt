// What a mesh's buffers say of its edges, faces and vertices. Reads past an end give 0 or a NaN, so these functions ask nothing of what the buffers hold; where
// they hold a mesh's topology, the answers are the topology's (proofs/Held.antt).
#![tactic(auto)]

ghost use Rattle.std.specs.Prelude.{◌≡◌, ◌+◌, ◌*◌, get_or};
ghost use Rattle.layout.specs.Layout.{vertices_per_triangle};
ghost use Rattle.job_checks.specs.Edge.{vertex_at};
ghost use Rattle.topology.specs.Edges.{off_ends, joins};
ghost use Rattle.frames.specs.Stored.{length_at, unit_at};
ghost use Rattle.mesh_readers.specs.Readers.{edge_at, ends_at, trim_edge_at, faces_at, other_at, side_in, local_at, third_at, normal_in, coords_at, range_at, degree_at, round_at, shared_at, edge_between_at, face_of, side_to_at};

use buffers::{EdgeId, FaceId, VertexId, read_f64, read_u32};
use layout::{
    COORDINATES_PER_VERTEX, EDGE_FIRST_FACE, EDGE_HIGH, EDGE_LEN, EDGE_LOW, EDGE_SECOND_FACE,
    EDGE_UNIT, REALS_PER_EDGE, REALS_PER_NORMAL, REALS_PER_TRIANGLE, ROUND_FACE, VERTEX_END,
    VERTEX_START, VERTICES_PER_TRIANGLE, WORDS_PER_EDGE, WORDS_PER_ROUND, WORDS_PER_TRIANGLE,
    WORDS_PER_VERTEX,
};
use vec3::Vec3;

// The two vertices of an edge, the lower-numbered one first.
#[derive(Clone, Copy)]
pub struct EdgeEnds {
    pub a: VertexId,
    pub b: VertexId,
}

// The two faces of an edge, `no_face` where there is none.
#[derive(Clone, Copy)]
pub struct FacePair {
    pub first: FaceId,
    pub second: FaceId,
}

// A point in the frame of an edge: along it, and across it into a face.
#[derive(Clone, Copy)]
pub struct FrameCoords {
    pub x: f64,
    pub y: f64,
}

// Where the faces round a vertex start and end in the list of them.
#[derive(Clone, Copy)]
pub struct RoundRange {
    pub start: u32,
    pub end: u32,
}

pub fn ends(edge_words: &[u32], e: EdgeId) -> EdgeEnds
    ensures { result ≡ ends_at edge_words.now e.0 }
{
    EdgeEnds {
        a: VertexId(read_u32(edge_words, WORDS_PER_EDGE, e.0, EDGE_LOW)),
        b: VertexId(read_u32(edge_words, WORDS_PER_EDGE, e.0, EDGE_HIGH)),
    }
}

// An edge as it goes to trimming: its number, length and ends.
pub fn edge(edge_words: &[u32], edge_reals: &[f64], e: EdgeId) -> windows::Edge
    ensures { result ≡ trim_edge_at edge_words.now edge_reals.now e.0 }
{
    let len = read_f64(edge_reals, REALS_PER_EDGE, e.0, EDGE_LEN);
    let low = read_u32(edge_words, WORDS_PER_EDGE, e.0, EDGE_LOW);
    let high = read_u32(edge_words, WORDS_PER_EDGE, e.0, EDGE_HIGH);
    windows::Edge {
        id: e,
        len,
        a: VertexId(low),
        b: VertexId(high),
    }
}

pub fn faces(edge_words: &[u32], e: EdgeId) -> FacePair
    ensures { result ≡ faces_at edge_words.now e.0 }
{
    FacePair {
        first: FaceId(read_u32(edge_words, WORDS_PER_EDGE, e.0, EDGE_FIRST_FACE)),
        second: FaceId(read_u32(edge_words, WORDS_PER_EDGE, e.0, EDGE_SECOND_FACE)),
    }
}

// The face of an edge that is not f, `no_face` where there is none.
pub fn other(edge_words: &[u32], e: EdgeId, f: FaceId) -> FaceId
    ensures { result ≡ record { 0 = other_at edge_words.now e.0 f.0 } }
{
    let first = read_u32(edge_words, WORDS_PER_EDGE, e.0, EDGE_FIRST_FACE);
    let second = read_u32(edge_words, WORDS_PER_EDGE, e.0, EDGE_SECOND_FACE);
    if first == f.0 {
        return FaceId(second);
    }
    FaceId(first)
}

pub fn length(edge_reals: &[f64], e: EdgeId) -> f64
    ensures { result ≡ length_at edge_reals.now e.0 }
{
    read_f64(edge_reals, REALS_PER_EDGE, e.0, EDGE_LEN)
}

// The unit vector along an edge, from its first vertex to its second.
pub fn unit(edge_reals: &[f64], e: EdgeId) -> Vec3
    ensures { result ≡ unit_at edge_reals.now e.0 }
{
    frames::vector_from(
        edge_reals,
        (REALS_PER_EDGE as usize) * (e.0 as usize) + (EDGE_UNIT as usize),
    )
}

// Side k of face f.
pub fn side(triangle_words: &[u32], f: FaceId, k: u32) -> EdgeId
    ensures { result ≡ record { 0 = side_in triangle_words.now f.0 k } }
{
    EdgeId(read_u32(triangle_words, WORDS_PER_TRIANGLE, f.0, k))
}

// Which side of face f edge e is.
pub fn local(triangle_words: &[u32], f: FaceId, e: EdgeId) -> u32
    ensures { result ≡ local_at triangle_words.now f.0 e.0 }
{
    let first = read_u32(triangle_words, WORDS_PER_TRIANGLE, f.0, 0);
    let second = read_u32(triangle_words, WORDS_PER_TRIANGLE, f.0, 1);
    if first == e.0 {
        return 0;
    }
    if second == e.0 {
        return 1;
    }
    2
}

// The unit vector into face f at a right angle to its side k.
pub fn normal(triangle_reals: &[f64], f: FaceId, k: u32) -> Vec3
    ensures { result ≡ normal_in triangle_reals.now f.0 k }
{
    frames::vector_from(
        triangle_reals,
        (REALS_PER_TRIANGLE as usize) * (f.0 as usize) + (REALS_PER_NORMAL as usize) * (k as usize),
    )
}

pub fn vertex(vertices: &[f64], k: VertexId) -> Vec3
    ensures { result ≡ vertex_at vertices.now k.0 }
{
    frames::vector_from(vertices, (COORDINATES_PER_VERTEX as usize) * (k.0 as usize))
}

fn off_ends(k: u32, low: u32, high: u32) -> bool
    ensures { result ≡ off_ends k (record { low = low; high = high }) }
{
    if k == low {
        return false;
    }
    if k == high {
        return false;
    }
    true
}

// Vertex k of face f.
pub fn face_vertex(triangles: &[u32], f: FaceId, k: u32) -> VertexId
    ensures { result ≡ record { 0 = get_or triangles.now (vertices_per_triangle * f.0 + k) 0 } }
{
    VertexId(read_u32(triangles, VERTICES_PER_TRIANGLE, f.0, k))
}

// The vertex of face f that is not on edge e.
pub fn third(triangles: &[u32], edge_words: &[u32], e: EdgeId, f: FaceId) -> VertexId
    ensures { result ≡ record { 0 = third_at triangles.now edge_words.now e.0 f.0 } }
{
    let low = read_u32(edge_words, WORDS_PER_EDGE, e.0, EDGE_LOW);
    let high = read_u32(edge_words, WORDS_PER_EDGE, e.0, EDGE_HIGH);
    let a = read_u32(triangles, VERTICES_PER_TRIANGLE, f.0, 0);
    if off_ends(a, low, high) {
        return VertexId(a);
    }
    let b = read_u32(triangles, VERTICES_PER_TRIANGLE, f.0, 1);
    if off_ends(b, low, high) {
        return VertexId(b);
    }
    VertexId(read_u32(triangles, VERTICES_PER_TRIANGLE, f.0, 2))
}

// p in the frame of edge e, of which face f is on the side of positive y.
pub fn coords(
    vertices: &[f64],
    edge_words: &[u32],
    edge_reals: &[f64],
    triangle_words: &[u32],
    triangle_reals: &[f64],
    e: EdgeId,
    f: FaceId,
    p: Vec3,
) -> FrameCoords
    ensures { result ≡ coords_at vertices.now edge_words.now edge_reals.now triangle_words.now triangle_reals.now e.0 f.0 p }
{
    let o = vertex(
        vertices,
        VertexId(read_u32(edge_words, WORDS_PER_EDGE, e.0, EDGE_LOW)),
    );
    let w = vec3::sub(p, o);
    let xhat = unit(edge_reals, e);
    let yhat = normal(triangle_reals, f, local(triangle_words, f, e));
    FrameCoords {
        x: vec3::dot(w, xhat),
        y: vec3::dot(w, yhat),
    }
}

pub fn faces_round(vertex_words: &[u32], k: VertexId) -> RoundRange
    ensures { result ≡ range_at vertex_words.now k.0 }
{
    RoundRange {
        start: read_u32(vertex_words, WORDS_PER_VERTEX, k.0, VERTEX_START),
        end: read_u32(vertex_words, WORDS_PER_VERTEX, k.0, VERTEX_END),
    }
}

// How many faces there are round a vertex.
pub fn vertex_degree(vertex_words: &[u32], k: VertexId) -> u32
    ensures { result ≡ degree_at vertex_words.now k.0 }
{
    let start = read_u32(vertex_words, WORDS_PER_VERTEX, k.0, VERTEX_START);
    let end = read_u32(vertex_words, WORDS_PER_VERTEX, k.0, VERTEX_END);
    if end < start {
        return 0;
    }
    end - start
}

// Entry i of the list of the faces round the vertices.
pub fn face_round(round: &[u32], i: u32) -> FaceId
    ensures { result ≡ record { 0 = round_at round.now i } }
{
    FaceId(read_u32(round, WORDS_PER_ROUND, i, ROUND_FACE))
}

// The vertex that two edges of one face share: the first end of e if o has it, or else the second.
pub fn shared_vertex(edge_words: &[u32], e: EdgeId, o: EdgeId) -> VertexId
    ensures { result ≡ record { 0 = shared_at edge_words.now e.0 o.0 } }
{
    let a = read_u32(edge_words, WORDS_PER_EDGE, e.0, EDGE_LOW);
    let low = read_u32(edge_words, WORDS_PER_EDGE, o.0, EDGE_LOW);
    let high = read_u32(edge_words, WORDS_PER_EDGE, o.0, EDGE_HIGH);
    if off_ends(a, low, high) {
        return VertexId(read_u32(edge_words, WORDS_PER_EDGE, e.0, EDGE_HIGH));
    }
    VertexId(a)
}

// Both vertices are ends of an edge.
fn joined(edge_words: &[u32], e: u32, a: u32, b: u32) -> bool
    ensures { result ≡ joins a b (edge_at edge_words.now e) }
{
    let low = read_u32(edge_words, WORDS_PER_EDGE, e, EDGE_LOW);
    let high = read_u32(edge_words, WORDS_PER_EDGE, e, EDGE_HIGH);
    if off_ends(a, low, high) {
        return false;
    }
    if off_ends(b, low, high) {
        return false;
    }
    true
}

// The edge of face f between two of its vertices: the first of its edges that has both.
pub fn edge_between(
    edge_words: &[u32],
    triangle_words: &[u32],
    f: FaceId,
    a: VertexId,
    b: VertexId,
) -> EdgeId
    ensures { result ≡ record { 0 = edge_between_at edge_words.now triangle_words.now f.0 a.0 b.0 } }
{
    let first = read_u32(triangle_words, WORDS_PER_TRIANGLE, f.0, 0);
    if joined(edge_words, first, a.0, b.0) {
        return EdgeId(first);
    }
    let second = read_u32(triangle_words, WORDS_PER_TRIANGLE, f.0, 1);
    if joined(edge_words, second, a.0, b.0) {
        return EdgeId(second);
    }
    EdgeId(read_u32(triangle_words, WORDS_PER_TRIANGLE, f.0, 2))
}

fn has_face(edge_words: &[u32], e: u32, h: u32) -> bool
    ensures { result ≡ face_of edge_words.now e h }
{
    if read_u32(edge_words, WORDS_PER_EDGE, e, EDGE_FIRST_FACE) == h {
        return true;
    }
    if read_u32(edge_words, WORDS_PER_EDGE, e, EDGE_SECOND_FACE) == h {
        return true;
    }
    false
}

// The first side of face f whose edge has face h too, 3 where none has.
pub fn side_to(edge_words: &[u32], triangle_words: &[u32], f: FaceId, h: FaceId) -> u32
    ensures { result ≡ side_to_at edge_words.now triangle_words.now f.0 h.0 }
{
    if has_face(
        edge_words,
        read_u32(triangle_words, WORDS_PER_TRIANGLE, f.0, 0),
        h.0,
    ) {
        return 0;
    }
    if has_face(
        edge_words,
        read_u32(triangle_words, WORDS_PER_TRIANGLE, f.0, 1),
        h.0,
    ) {
        return 1;
    }
    if has_face(
        edge_words,
        read_u32(triangle_words, WORDS_PER_TRIANGLE, f.0, 2),
        h.0,
    ) {
        return 2;
    }
    3
}
