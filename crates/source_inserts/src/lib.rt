// What the sources of a job do, one after the other, read from the buffers of the mesh and of the pieces: the Rust's loop over `sources` with `source_point` and `source_segment`, as a list of
// entries and offers of which any one is asked for by its number. Nothing is asked of what the buffers hold; where they hold a job, the list is the Rust's (proofs/Held.antt).
#![tactic(auto)]

ghost use Rattle.std.specs.Prelude.{◌≡◌, ◌<◌};
ghost use Rattle.source_inserts.specs.Read.{end_source_at, segment_source_at, job_source_at, insert_count_at, point_side_at, point_insert_at, segment_insert_at, normal_of_number, insert_at};

use buffers::FaceId;
pub use face_entries as of_face_entries;
pub use face_entries::of_mesh as of_mesh;
use face_entries::{Part, PiecePart, part_of};
use source_offers::of_offers::Offered;
pub use source_offers::{of_offers, of_trim, of_trim_split};
use source_offers::{point_offer, segment_offer};
use vec3::Vec3;
pub use wedge_refusal as of_wedge_refusal;
use wedge_refusal::of_carriers::{
    CarrierSimplex, carrier, carrier_count, carrier_face, other_carrier,
};
pub use wedge_refusal::of_piece_ends as of_piece_ends;
use wedge_refusal::of_piece_ends::{end_point, is_end, is_first};
use wedge_refusal::of_segments_behind::face_of;
use wedge_refusal::of_source_windows::Normal;

// A part of a piece is entered in a face, or a window is offered to an edge.
#[derive(Clone, Copy)]
pub enum Insert {
    Entry(FaceId, PiecePart),
    Offer(Option<Offered>),
}

// A source: none; the point p of a face, which is a part of a piece and lies on a carrier, with the link to the first end of its bits; the segment from a to b of a face, which is a piece.
#[derive(Clone, Copy)]
pub enum Source {
    Absent,
    Point {
        face: FaceId,
        p: Vec3,
        piece: u32,
        part: Part,
        on: CarrierSimplex,
        first: u32,
    },
    Segment {
        face: FaceId,
        a: Vec3,
        b: Vec3,
        piece: u32,
    },
}

// End e as a point, where no end before it has its bits.
fn end_source(
    vertices: &[f64],
    edge_words: &[u32],
    edge_reals: &[f64],
    triangle_words: &[u32],
    triangle_reals: &[f64],
    kinds: &[u8],
    faces: &[u32],
    coords: &[f64],
    piece_words: &[u32],
    pieces: u32,
    e: u32,
    part: Part,
) -> Source
    requires { e < 4294967295 }
    ensures { result ≡ end_source_at vertices.now edge_words.now edge_reals.now triangle_words.now triangle_reals.now
        kinds.now faces.now coords.now piece_words.now pieces e part }
{
    if !is_first(kinds, coords, piece_words, pieces, e) {
        return Source::Absent;
    }
    let face = face_of(faces, e);
    let p = end_point(coords, e);
    let on = carrier(
        vertices,
        edge_words,
        edge_reals,
        triangle_words,
        triangle_reals,
        face,
        p,
    );
    let piece = e / 2;
    let first = e + 1;
    Source::Point {
        face,
        p,
        piece,
        part,
        on,
        first,
    }
}

// Piece i as a segment, where it is one.
fn segment_source(kinds: &[u8], faces: &[u32], coords: &[f64], i: u32) -> Source
    requires { i < 2147483648 }
    ensures { result ≡ segment_source_at kinds.now faces.now coords.now i }
{
    if !is_end(kinds, 2 * i + 1) {
        return Source::Absent;
    }
    let face = face_of(faces, 2 * i);
    let a = end_point(coords, 2 * i);
    let b = end_point(coords, 2 * i + 1);
    Source::Segment {
        face,
        a,
        b,
        piece: i,
    }
}

// Source j of a job of so many pieces: three for each piece, its end a, its end b, and the whole segment.
pub fn job_source(
    vertices: &[f64],
    edge_words: &[u32],
    edge_reals: &[f64],
    triangle_words: &[u32],
    triangle_reals: &[f64],
    kinds: &[u8],
    faces: &[u32],
    coords: &[f64],
    piece_words: &[u32],
    pieces: u32,
    j: u32,
) -> Source
    ensures { result ≡ job_source_at vertices.now edge_words.now edge_reals.now triangle_words.now triangle_reals.now
        kinds.now faces.now coords.now piece_words.now pieces j }
{
    let i = j / 3;
    let k = j % 3;
    if k == 2 {
        return segment_source(kinds, faces, coords, i);
    }
    let part = part_of(k);
    end_source(
        vertices,
        edge_words,
        edge_reals,
        triangle_words,
        triangle_reals,
        kinds,
        faces,
        coords,
        piece_words,
        pieces,
        2 * i + k,
        part,
    )
}

// How many entries and offers a source makes. A count of carriers that no mesh has is cut so that the number fits.
pub fn insert_count(edge_words: &[u32], vertex_words: &[u32], s: Source) -> u32
    ensures { result ≡ insert_count_at edge_words.now vertex_words.now s }
{
    match s {
        Source::Absent => 0,
        Source::Point {
            face,
            p,
            piece,
            part,
            on,
            first,
        } => {
            let count = carrier_count(edge_words, vertex_words, on);
            if count < 1073741823 {
                return 4 * count;
            }
            4294967292
        }
        Source::Segment { face, a, b, piece } => 7,
    }
}

// What the point p of face f, on c, offers to side k of its carrier g; `first` is the link to the first end of its bits.
fn point_side(
    vertices: &[f64],
    edge_words: &[u32],
    edge_reals: &[f64],
    triangle_words: &[u32],
    triangle_reals: &[f64],
    vertex_words: &[u32],
    round: &[u32],
    kinds: &[u8],
    faces: &[u32],
    coords: &[f64],
    piece_words: &[u32],
    piece_reals: &[f64],
    pieces: u32,
    f: FaceId,
    p: Vec3,
    c: CarrierSimplex,
    first: u32,
    g: FaceId,
    k: u32,
) -> Option<Offered>
    ensures { result ≡ point_side_at vertices.now edge_words.now edge_reals.now triangle_words.now triangle_reals.now vertex_words.now round.now
        kinds.now faces.now coords.now piece_words.now piece_reals.now pieces f.0 p c first g.0 k }
{
    let count = carrier_count(edge_words, vertex_words, c);
    let h = other_carrier(edge_words, vertex_words, round, f, c, g);
    let w = point_wedge::bounds(
        vertices,
        edge_words,
        edge_reals,
        triangle_words,
        triangle_reals,
        kinds,
        faces,
        coords,
        piece_words,
        piece_reals,
        pieces,
        g,
        k,
        p,
        count,
        h,
        first,
    );
    point_offer(
        vertices,
        edge_words,
        edge_reals,
        triangle_words,
        triangle_reals,
        g,
        k,
        p,
        w,
    )
}

// Of each carrier its entry, then what is offered to its three sides.
fn point_insert(
    vertices: &[f64],
    edge_words: &[u32],
    edge_reals: &[f64],
    triangle_words: &[u32],
    triangle_reals: &[f64],
    vertex_words: &[u32],
    round: &[u32],
    kinds: &[u8],
    faces: &[u32],
    coords: &[f64],
    piece_words: &[u32],
    piece_reals: &[f64],
    pieces: u32,
    f: FaceId,
    p: Vec3,
    piece: u32,
    part: Part,
    c: CarrierSimplex,
    first: u32,
    i: u32,
) -> Insert
    ensures { result ≡ point_insert_at vertices.now edge_words.now edge_reals.now triangle_words.now triangle_reals.now vertex_words.now round.now
        kinds.now faces.now coords.now piece_words.now piece_reals.now pieces f.0 p piece part c first i }
{
    let g = carrier_face(edge_words, vertex_words, round, f, c, i / 4);
    if i % 4 == 0 {
        let x = PiecePart { piece, part };
        return Insert::Entry(g, x);
    }
    let o = point_side(
        vertices,
        edge_words,
        edge_reals,
        triangle_words,
        triangle_reals,
        vertex_words,
        round,
        kinds,
        faces,
        coords,
        piece_words,
        piece_reals,
        pieces,
        f,
        p,
        c,
        first,
        g,
        i % 4 - 1,
    );
    Insert::Offer(o)
}

// Left of the segment's direction first, then right.
fn normal_of(number: u32) -> Normal
    ensures { result ≡ normal_of_number number }
{
    if number == 0 {
        return Normal::Left;
    }
    Normal::Right
}

// The entry, then of each side of the face what is offered to it on both sides of the segment.
fn segment_insert(
    vertices: &[f64],
    edge_words: &[u32],
    edge_reals: &[f64],
    triangle_words: &[u32],
    triangle_reals: &[f64],
    f: FaceId,
    a: Vec3,
    b: Vec3,
    piece: u32,
    i: u32,
) -> Insert
    ensures { result ≡ segment_insert_at vertices.now edge_words.now edge_reals.now triangle_words.now triangle_reals.now f.0 a b piece i }
{
    if i == 0 {
        let x = PiecePart {
            piece,
            part: Part::Whole,
        };
        return Insert::Entry(f, x);
    }
    let n = normal_of((i - 1) % 2);
    let o = segment_offer(
        vertices,
        edge_words,
        edge_reals,
        triangle_words,
        triangle_reals,
        f,
        (i - 1) / 2,
        a,
        b,
        n,
    );
    Insert::Offer(o)
}

// The i-th that a source makes; of none an offer of nothing.
pub fn insert_at(
    vertices: &[f64],
    edge_words: &[u32],
    edge_reals: &[f64],
    triangle_words: &[u32],
    triangle_reals: &[f64],
    vertex_words: &[u32],
    round: &[u32],
    kinds: &[u8],
    faces: &[u32],
    coords: &[f64],
    piece_words: &[u32],
    piece_reals: &[f64],
    pieces: u32,
    s: Source,
    i: u32,
) -> Insert
    ensures { result ≡ insert_at vertices.now edge_words.now edge_reals.now triangle_words.now triangle_reals.now vertex_words.now round.now
        kinds.now faces.now coords.now piece_words.now piece_reals.now pieces s i }
{
    match s {
        Source::Absent => Insert::Offer(None),
        Source::Point {
            face,
            p,
            piece,
            part,
            on,
            first,
        } => point_insert(
            vertices,
            edge_words,
            edge_reals,
            triangle_words,
            triangle_reals,
            vertex_words,
            round,
            kinds,
            faces,
            coords,
            piece_words,
            piece_reals,
            pieces,
            face,
            p,
            piece,
            part,
            on,
            first,
            i,
        ),
        Source::Segment { face, a, b, piece } => segment_insert(
            vertices,
            edge_words,
            edge_reals,
            triangle_words,
            triangle_reals,
            face,
            a,
            b,
            piece,
            i,
        ),
    }
}
