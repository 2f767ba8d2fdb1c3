// The segments that end at a point, found by its coordinate bits through the table of `piece_ends`: those of a face, with the direction in which each leaves the point (the
// Rust's `behind`), and whether one lies in a face round a vertex, which document 01's refusal 11 asks. A link is the number of an end plus one, and 0 is none.
#![tactic(auto)]

ghost use Rattle.std.specs.Prelude.{◌≡◌, ◌*◌, ◌/◌, get_or};
ghost use Rattle.piece_ends.specs.Walk.{find_along, next_link_at};
ghost use Rattle.segments_behind.specs.Behind.{in_face, first_behind_at, next_behind_at, leaving_at};
ghost use Rattle.segments_behind.specs.Round.{has_vertex, is_round, any_round_at};

use buffers::{FaceId, VertexId, read_u32};
use frames::vector_from;
use layout::REALS_PER_PIECE;
pub use piece_ends as of_piece_ends;
use piece_ends::{first_at, is_long, next_at};
use vec3::Vec3;

// The face of the piece of end e.
pub fn face_of(faces: &[u32], e: u32) -> FaceId
    ensures { result ≡ record { 0 = get_or faces.now (e / 2) 0 } }
{
    FaceId(read_u32(faces, 1, e / 2, 0))
}

fn in_face(kinds: &[u8], faces: &[u32], coords: &[f64], g: FaceId, e: u32) -> bool
    ensures { result ≡ in_face kinds.now faces.now coords.now g.0 e }
{
    let f = face_of(faces, e);
    if f.0 != g.0 {
        return false;
    }
    is_long(kinds, coords, e / 2)
}

// The link to the first end, from a link on along those of its bits, whose segment is of face g, in a table of so many pieces.
pub fn first_behind(
    kinds: &[u8],
    faces: &[u32],
    coords: &[f64],
    words: &[u32],
    pieces: u32,
    g: FaceId,
    link: u32,
) -> u32
    ensures { result ≡ first_behind_at kinds.now faces.now coords.now words.now pieces g.0 link }
{
    let mut at = link;
    let mut rest = 2 * (pieces as u64);
    while rest > 0 {
        if at == 0 {
            return 0;
        }
        if in_face(kinds, faces, coords, g, at - 1) {
            return at;
        }
        at = next_at(coords, words, pieces, at - 1);
        rest -= 1;
    }
    0
}

// The same behind end e, of its bits.
pub fn next_behind(
    kinds: &[u8],
    faces: &[u32],
    coords: &[f64],
    words: &[u32],
    pieces: u32,
    g: FaceId,
    e: u32,
) -> u32
    ensures { result ≡ next_behind_at kinds.now faces.now coords.now words.now pieces g.0 e }
{
    let link = next_at(coords, words, pieces, e);
    first_behind(kinds, faces, coords, words, pieces, g, link)
}

// The direction in which the segment of end e leaves it, from the directions of all pieces.
pub fn leaving(reals: &[f64], e: u32) -> Vec3
    ensures { result ≡ leaving_at reals.now e }
{
    let d = vector_from(reals, (REALS_PER_PIECE as usize) * ((e / 2) as usize));
    if e % 2 == 0 {
        return d;
    }
    vec3::scale(d, -1.0)
}

fn has_vertex(triangles: &[u32], g: FaceId, k: VertexId) -> bool
    ensures { result ≡ has_vertex triangles.now g.0 k.0 }
{
    if read_u32(triangles, 3, g.0, 0) == k.0 {
        return true;
    }
    if read_u32(triangles, 3, g.0, 1) == k.0 {
        return true;
    }
    if read_u32(triangles, 3, g.0, 2) == k.0 {
        return true;
    }
    false
}

fn is_round(
    kinds: &[u8],
    faces: &[u32],
    coords: &[f64],
    triangles: &[u32],
    k: VertexId,
    e: u32,
) -> bool
    ensures { result ≡ is_round kinds.now faces.now coords.now triangles.now k.0 e }
{
    if !is_long(kinds, coords, e / 2) {
        return false;
    }
    has_vertex(triangles, face_of(faces, e), k)
}

// The link to the first end, from a link on, whose segment lies in a face round vertex k.
fn seek_round(
    kinds: &[u8],
    faces: &[u32],
    coords: &[f64],
    triangles: &[u32],
    words: &[u32],
    pieces: u32,
    k: VertexId,
    link: u32,
) -> u32
    ensures { result ≡ find_along (next_link_at coords.now words.now pieces) (is_round kinds.now faces.now coords.now triangles.now k.0) (2 * pieces) link }
{
    let mut at = link;
    let mut rest = 2 * (pieces as u64);
    while rest > 0 {
        if at == 0 {
            return 0;
        }
        if is_round(kinds, faces, coords, triangles, k, at - 1) {
            return at;
        }
        at = next_at(coords, words, pieces, at - 1);
        rest -= 1;
    }
    0
}

// Whether a segment of computed length above zero that lies in a face round vertex k ends at the bits of p.
pub fn any_round(
    kinds: &[u8],
    faces: &[u32],
    coords: &[f64],
    triangles: &[u32],
    words: &[u32],
    pieces: u32,
    k: VertexId,
    p: Vec3,
) -> bool
    ensures { result ≡ any_round_at kinds.now faces.now coords.now triangles.now words.now pieces k.0 p }
{
    let link = first_at(coords, words, pieces, p);
    if seek_round(kinds, faces, coords, triangles, words, pieces, k, link) == 0 {
        return false;
    }
    true
}
