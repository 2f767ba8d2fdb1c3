// Document 01's refusal 11, over a whole job: a point to be entered lies on a vertex of more than two faces, and a segment of computed length above zero ends there whose face is
// round the nearest vertex of the point's face. There the Rust asks `vertex_wedge`, which is not ported.
#![tactic(auto)]

ghost use Rattle.std.specs.Prelude.{◌≡◌, ◌≤◌, length};
ghost use Rattle.wedge_refusal.specs.Wedge.{over_two_at, wedge_at, any_wedge_at};

use buffers::FaceId;
pub use carriers as of_carriers;
pub use carriers::of_source_windows as of_source_windows;
use carriers::{carrier, carrier_count, nearest_vertex};
pub use segments_behind as of_segments_behind;
pub use segments_behind::of_piece_ends as of_piece_ends;
use segments_behind::of_piece_ends::{end_point, is_first};
use segments_behind::{any_round, face_of};
use vec3::Vec3;

// Whether a point of face f lies on what more than two faces have.
fn over_two(
    vertices: &[f64],
    edge_words: &[u32],
    edge_reals: &[f64],
    triangle_words: &[u32],
    triangle_reals: &[f64],
    vertex_words: &[u32],
    f: FaceId,
    p: Vec3,
) -> bool
    ensures { result ≡ over_two_at vertices.now edge_words.now edge_reals.now
        triangle_words.now triangle_reals.now vertex_words.now f.0 p }
{
    let c = carrier(
        vertices,
        edge_words,
        edge_reals,
        triangle_words,
        triangle_reals,
        f,
        p,
    );
    let count = carrier_count(edge_words, vertex_words, c);
    if count > 2 {
        return true;
    }
    false
}

// Whether end e meets the refusal, in a table of so many pieces.
fn wedge_at(
    vertices: &[f64],
    edge_words: &[u32],
    edge_reals: &[f64],
    triangle_words: &[u32],
    triangle_reals: &[f64],
    vertex_words: &[u32],
    triangles: &[u32],
    kinds: &[u8],
    faces: &[u32],
    coords: &[f64],
    words: &[u32],
    pieces: u32,
    e: u32,
) -> bool
    ensures { result ≡ wedge_at vertices.now edge_words.now edge_reals.now
        triangle_words.now triangle_reals.now vertex_words.now
        triangles.now kinds.now faces.now coords.now words.now pieces e }
{
    if !is_first(kinds, coords, words, pieces, e) {
        return false;
    }
    let f = face_of(faces, e);
    let p = end_point(coords, e);
    if !over_two(
        vertices,
        edge_words,
        edge_reals,
        triangle_words,
        triangle_reals,
        vertex_words,
        f,
        p,
    ) {
        return false;
    }
    let k = nearest_vertex(vertices, triangles, f, p);
    any_round(kinds, faces, coords, triangles, words, pieces, k, p)
}

// Whether the job meets the refusal, from a mesh's buffers and the table that `piece_ends::build` leaves.
pub fn any_wedge(
    vertices: &[f64],
    edge_words: &[u32],
    edge_reals: &[f64],
    triangle_words: &[u32],
    triangle_reals: &[f64],
    vertex_words: &[u32],
    triangles: &[u32],
    kinds: &[u8],
    faces: &[u32],
    coords: &[f64],
    words: &[u32],
) -> bool
    requires { length kinds.now ≤ 65535 }
    ensures { result ≡ any_wedge_at vertices.now edge_words.now edge_reals.now
        triangle_words.now triangle_reals.now vertex_words.now
        triangles.now kinds.now faces.now coords.now words.now }
{
    let pieces = kinds.len() as u32;
    for e in 0..(2 * pieces) {
        if wedge_at(
            vertices,
            edge_words,
            edge_reals,
            triangle_words,
            triangle_reals,
            vertex_words,
            triangles,
            kinds,
            faces,
            coords,
            words,
            pieces,
            e,
        ) {
            return true;
        }
    }
    false
}
