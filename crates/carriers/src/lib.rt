// Where a point of a face lies: inside it, on an edge or on a vertex, and so the faces that enter it as a source (the Rust's `carrier`), counted and read; and the vertex of a
// face nearest to a point. Nothing is asked of what the buffers hold; where they hold a mesh's topology, the answers are the topology's (proofs/Held.antt).
#![tactic(auto)]

ghost use Rattle.std.specs.Prelude.{◌≡◌, [], ◌∷◌, ◌+◌, ◌*◌, length as size, get_or};
ghost use Rattle.layout.specs.Layout.{words_per_vertex, vertex_start};
ghost use Rattle.topology.specs.Edges.{no_face};
ghost use Rattle.frames.specs.Stored.{face_at};
ghost use Rattle.mesh_readers.specs.Readers.{side_in, shared_at, round_at};
ghost use Rattle.carriers.specs.Carrier.{filtered, on_side_at, simplex_of, carrier_at, present, carrier_count_at, carrier_face_at, other_carrier};
ghost use Rattle.carriers.specs.Nearest.{nearer_of, nearest_at};
ghost use Rattle.carriers.specs.declared.CarrierSimplex.TheVariants.{Edge as onEdge, Vertex as onVertex};

use buffers::{EdgeId, FaceId, VertexId, no_face, read_u32};
use layout::{
    EDGE_FIRST_FACE, EDGE_SECOND_FACE, VERTEX_START, WORDS_PER_EDGE, WORDS_PER_ROUND,
    WORDS_PER_VERTEX,
};
pub use mesh_readers as of_mesh_readers;
use mesh_readers::{coords, face_vertex, length, shared_vertex, side, vertex, vertex_degree};
pub use source_windows as of_source_windows;
use source_windows::lies_on;
use vec3::Vec3;

// What a point of a face lies on: the face itself, an edge of it or a vertex of it.
#[derive(Clone, Copy)]
pub enum CarrierSimplex {
    Face,
    Edge(EdgeId),
    Vertex(VertexId),
}

// Whether p counts as lying on side k of face f.
fn on_side(
    vertices: &[f64],
    edge_words: &[u32],
    edge_reals: &[f64],
    triangle_words: &[u32],
    triangle_reals: &[f64],
    f: FaceId,
    k: u32,
    p: Vec3,
) -> bool
    ensures { result ≡ on_side_at vertices.now edge_words.now edge_reals.now triangle_words.now triangle_reals.now f.0 p k }
{
    let e = side(triangle_words, f, k);
    let c = coords(
        vertices,
        edge_words,
        edge_reals,
        triangle_words,
        triangle_reals,
        e,
        f,
        p,
    );
    lies_on(c.y, length(edge_reals, e))
}

fn at_edge(triangle_words: &[u32], f: FaceId, i: u32) -> CarrierSimplex
    ensures { result ≡ onEdge (record { 0 = side_in triangle_words.now f.0 i }) }
{
    CarrierSimplex::Edge(side(triangle_words, f, i))
}

fn at_vertex(
    edge_words: &[u32],
    triangle_words: &[u32],
    f: FaceId,
    i: u32,
    j: u32,
) -> CarrierSimplex
    ensures { result ≡ onVertex (record { 0 = shared_at edge_words.now (side_in triangle_words.now f.0 i) (side_in triangle_words.now f.0 j) }) }
{
    CarrierSimplex::Vertex(shared_vertex(
        edge_words,
        side(triangle_words, f, i),
        side(triangle_words, f, j),
    ))
}

// What a point lies on, from which of the three sides it lies on.
fn simplex(
    edge_words: &[u32],
    triangle_words: &[u32],
    f: FaceId,
    a: bool,
    b: bool,
    c: bool,
) -> CarrierSimplex
    ensures { result ≡ simplex_of edge_words.now triangle_words.now f.0 (filtered a b c) }
{
    if a {
        if b {
            return at_vertex(edge_words, triangle_words, f, 0, 1);
        }
        if c {
            return at_vertex(edge_words, triangle_words, f, 0, 2);
        }
        return at_edge(triangle_words, f, 0);
    }
    if b {
        if c {
            return at_vertex(edge_words, triangle_words, f, 1, 2);
        }
        return at_edge(triangle_words, f, 1);
    }
    if c {
        return at_edge(triangle_words, f, 2);
    }
    CarrierSimplex::Face
}

// What p lies on, by its computed distance into face f from each of the three sides.
pub fn carrier(
    vertices: &[f64],
    edge_words: &[u32],
    edge_reals: &[f64],
    triangle_words: &[u32],
    triangle_reals: &[f64],
    f: FaceId,
    p: Vec3,
) -> CarrierSimplex
    ensures { result ≡ carrier_at vertices.now edge_words.now edge_reals.now triangle_words.now triangle_reals.now f.0 p }
{
    let a = on_side(
        vertices,
        edge_words,
        edge_reals,
        triangle_words,
        triangle_reals,
        f,
        0,
        p,
    );
    let b = on_side(
        vertices,
        edge_words,
        edge_reals,
        triangle_words,
        triangle_reals,
        f,
        1,
        p,
    );
    let c = on_side(
        vertices,
        edge_words,
        edge_reals,
        triangle_words,
        triangle_reals,
        f,
        2,
        p,
    );
    simplex(edge_words, triangle_words, f, a, b, c)
}

// How many faces an edge has.
fn edge_degree(edge_words: &[u32], e: EdgeId) -> u32
    ensures { result ≡ size (present (face_at edge_words.now e.0 0 ∷ (face_at edge_words.now e.0 1 ∷ []))) }
{
    let none = no_face().0;
    let first = read_u32(edge_words, WORDS_PER_EDGE, e.0, EDGE_FIRST_FACE);
    let second = read_u32(edge_words, WORDS_PER_EDGE, e.0, EDGE_SECOND_FACE);
    if first == none {
        if second == none {
            return 0;
        }
        return 1;
    }
    if second == none {
        return 1;
    }
    2
}

// How many faces have a point that lies on c.
pub fn carrier_count(edge_words: &[u32], vertex_words: &[u32], c: CarrierSimplex) -> u32
    ensures { result ≡ carrier_count_at edge_words.now vertex_words.now c }
{
    match c {
        CarrierSimplex::Face => 1,
        CarrierSimplex::Edge(e) => edge_degree(edge_words, e),
        CarrierSimplex::Vertex(k) => vertex_degree(vertex_words, k),
    }
}

// The i-th face that an edge has, `no_face` past the last.
fn edge_face(edge_words: &[u32], e: EdgeId, i: u32) -> FaceId
    ensures { result ≡ record { 0 = get_or (present (face_at edge_words.now e.0 0 ∷ (face_at edge_words.now e.0 1 ∷ []))) i no_face } }
{
    let none = no_face();
    let first = read_u32(edge_words, WORDS_PER_EDGE, e.0, EDGE_FIRST_FACE);
    let second = read_u32(edge_words, WORDS_PER_EDGE, e.0, EDGE_SECOND_FACE);
    if first == none.0 {
        if i == 0 {
            return FaceId(second);
        }
        return none;
    }
    if i == 0 {
        return FaceId(first);
    }
    if i == 1 {
        return FaceId(second);
    }
    none
}

// The i-th face round a vertex: the list of them has one word for each.
fn vertex_face(vertex_words: &[u32], round: &[u32], k: VertexId, i: u32) -> FaceId
    ensures { result ≡ record { 0 = round_at round.now (get_or vertex_words.now (words_per_vertex * k.0 + vertex_start) 0 + i) } }
{
    let start = read_u32(vertex_words, WORDS_PER_VERTEX, k.0, VERTEX_START);
    FaceId(read_u32(round, WORDS_PER_ROUND, start, i))
}

// The i-th of the faces that have a point of face f that lies on c.
pub fn carrier_face(
    edge_words: &[u32],
    vertex_words: &[u32],
    round: &[u32],
    f: FaceId,
    c: CarrierSimplex,
    i: u32,
) -> FaceId
    ensures { result ≡ record { 0 = carrier_face_at edge_words.now vertex_words.now round.now f.0 c i } }
{
    match c {
        CarrierSimplex::Face => f,
        CarrierSimplex::Edge(e) => edge_face(edge_words, e, i),
        CarrierSimplex::Vertex(k) => vertex_face(vertex_words, round, k, i),
    }
}

// Of two such faces the one that is not g.
pub fn other_carrier(
    edge_words: &[u32],
    vertex_words: &[u32],
    round: &[u32],
    f: FaceId,
    c: CarrierSimplex,
    g: FaceId,
) -> FaceId
    ensures { result ≡ record {
      0 = other_carrier g.0 (carrier_face_at edge_words.now vertex_words.now round.now f.0 c 0)
          (carrier_face_at edge_words.now vertex_words.now round.now f.0 c 1);
    } }
{
    let first = carrier_face(edge_words, vertex_words, round, f, c, 0);
    if first.0 == g.0 {
        return carrier_face(edge_words, vertex_words, round, f, c, 1);
    }
    first
}

// The vertex nearer to p, the first on a tie.
fn nearer(vertices: &[f64], p: Vec3, a: VertexId, b: VertexId) -> VertexId
    ensures { result ≡ record { 0 = nearer_of vertices.now p a.0 b.0 } }
{
    let first = vec3::norm(vec3::sub(vertex(vertices, a), p));
    let second = vec3::norm(vec3::sub(vertex(vertices, b), p));
    if float64::total_less(second, first) {
        return b;
    }
    a
}

// The vertex of face f nearest to p, the first on a tie.
pub fn nearest_vertex(vertices: &[f64], triangles: &[u32], f: FaceId, p: Vec3) -> VertexId
    ensures { result ≡ record { 0 = nearest_at vertices.now triangles.now f.0 p } }
{
    let a = face_vertex(triangles, f, 0);
    let b = face_vertex(triangles, f, 1);
    let c = face_vertex(triangles, f, 2);
    nearer(vertices, p, nearer(vertices, p, a, b), c)
}
