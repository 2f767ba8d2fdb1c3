// What is checked of a job before any work: document 01's refusals 1 to 9, each over the whole job before the next.
// The checks only read, and each is also a function of its own: 1, 2 to 4, 5, 6 and 7, 8, 9. They take any bits, so a vertex or a kind that is not there reads
// as NaN or 0. The step budget is any u32, so there is nothing to check of it.
#![tactic(auto)]

ghost use Rattle.std.specs.Prelude.{◌≡◌, ◌/◌, ◌<◌, length, get_or};
ghost use Rattle.vec3.specs.declared.Vec3.{Vec3};
ghost use Rattle.vec3.specs.Vec.{sub_of, norm_of};
ghost use Rattle.job_checks.specs.Any.{any_below, first_of};
ghost use Rattle.job_checks.specs.Edge.{vertex_at, lower, higher};
ghost use Rattle.job_checks.specs.Job.{job};
ghost use Rattle.job_checks.specs.Refusals.{
  refusal_number,
  refusal_of,
  wrong_counts,
  malformed,
  above_one,
  missing,
  repeated,
  repeated_in,
  out_of_range,
  out_of_range_at,
  degenerate,
  degenerate_edge,
  degenerate_in,
  degenerate_triangle,
  used_out_of_range,
  piece_out_of_range,
  limit_outside,
  is_too_short,
  mesh_tests,
  piece_tests,
};

use buffers::read_f64;
use layout::{COORDINATES_PER_PIECE, COORDINATES_PER_VERTEX};
use vec3::Vec3;

// What a job is refused for: `refusal_number` of specs/ gives each case its number.
#[derive(Clone, Copy, Debug, PartialEq, Eq)]
pub enum Refusal {
    Malformed,
    MissingVertex,
    RepeatedVertex,
    VertexOutOfRange,
    DegenerateTriangle,
    MissingFace,
    PieceOutOfRange,
    LimitOutOfRange,
    ShortBuffer,
}

// How many slots each lent buffer of a fixed size has, and how many windows there is a slot for.
#[derive(Clone, Copy)]
pub struct BufferCounts {
    pub vertices: u32,
    pub edges: u32,
    pub vertex_faces: u32,
    pub triangles: u32,
    pub pieces: u32,
    pub windows: u32,
    pub scratch: u32,
    pub other_scratch: u32,
}

fn any_above_one(bytes: &[u8]) -> bool
    ensures { result ≡ any_below (above_one bytes.now) (length bytes.now) }
{
    bytes.iter().any(|&byte| byte > 1)
}

// Whether one of the numbers names none of count things.
fn any_missing(numbers: &[u32], count: usize) -> bool
    ensures { result ≡ any_below (missing count numbers.now) (length numbers.now) }
{
    numbers.iter().any(|&number| number as usize >= count)
}

// Whether a triangle names a vertex twice.
fn any_repeated(triangles: &[u32]) -> bool
    ensures { result ≡ any_below (repeated_in triangles.now) (length triangles.now / 3) }
{
    for t in 0..triangles.len() / 3 {
        let a = triangles[3 * t];
        let b = triangles[3 * t + 1];
        let c = triangles[3 * t + 2];
        if repeated(a, b, c) {
            return true;
        }
    }
    false
}

fn repeated(a: u32, b: u32, c: u32) -> bool
    ensures { result ≡ repeated a b c }
{
    a == b || b == c || c == a
}

// A NaN fails every comparison, so what is tested is what must hold.
fn out_of_range(x: f64) -> bool
    ensures { result ≡ out_of_range x }
{
    !(-1_000_000.0 <= x && x <= 1_000_000.0)
}

fn any_out_of_range(coords: &[f64]) -> bool
    ensures { result ≡ any_below (out_of_range_at coords.now) (length coords.now) }
{
    coords.iter().any(|&x| out_of_range(x))
}

// Whether the edge from o along d, of length `len`, is too short, or the altitude of the third vertex over it too small. The altitude is the root of dot(p, p),
// which is not taken: it is 0.000_001 or more exactly where dot(p, p) is 9.999_999_999_999_998e-13 or more, the double before 1e-12 (`altitude_test`).
fn degenerate(o: Vec3, d: Vec3, len: f64, third: Vec3) -> bool
    ensures { (b : Vec3) → d ≡ sub_of b o → len ≡ norm_of d → result ≡ degenerate o b third }
{
    if 0.001 <= len {
        let xhat = vec3::scale(d, 1.0 / len);
        let w = vec3::sub(third, o);
        let p = vec3::axpy(w, -vec3::dot(w, xhat), xhat);
        if 9.999_999_999_999_998e-13 <= vec3::dot(p, p) {
            return false;
        }
        return true;
    }
    true
}

fn vertex(v: &[f64], k: u32) -> Vec3
    ensures { result ≡ vertex_at v.now k }
{
    Vec3 {
        x: read_f64(v, COORDINATES_PER_VERTEX, k, 0),
        y: read_f64(v, COORDINATES_PER_VERTEX, k, 1),
        z: read_f64(v, COORDINATES_PER_VERTEX, k, 2),
    }
}

pub fn lower_of(a: u32, b: u32) -> u32
    ensures { result ≡ lower a b }
{
    if a < b { a } else { b }
}

pub fn higher_of(a: u32, b: u32) -> u32
    ensures { result ≡ higher a b }
{
    if a < b { b } else { a }
}

// The edge of a and b starts at its lower-numbered vertex.
fn edge_vector(v: &[f64], a: u32, b: u32) -> Vec3
    ensures { result ≡ sub_of (vertex_at v.now (higher a b)) (vertex_at v.now (lower a b)) }
{
    let start = lower_of(a, b);
    let end = higher_of(a, b);
    vec3::sub(vertex(v, end), vertex(v, start))
}

// `d` is the vector of the edge of a and b, `len` its length.
fn degenerate_edge(v: &[f64], a: u32, b: u32, third: u32, d: Vec3, len: f64) -> bool
    requires { (d ≡ sub_of (vertex_at v.now (higher a b)) (vertex_at v.now (lower a b))) × (len ≡ norm_of d) }
    ensures { result ≡ degenerate_edge v.now a b third }
{
    let o = lower_of(a, b);
    degenerate(vertex(v, o), d, len, vertex(v, third))
}

// The three lengths come first, so that their roots are taken side by side.
fn degenerate_triangle(v: &[f64], a: u32, b: u32, c: u32) -> bool
    ensures { result ≡ degenerate_in v.now a b c }
{
    let ab = edge_vector(v, a, b);
    let bc = edge_vector(v, b, c);
    let ca = edge_vector(v, c, a);
    let len = vec3::norms(ab, bc, ca);
    degenerate_edge(v, a, b, c, ab, len.x)
        || degenerate_edge(v, b, c, a, bc, len.y)
        || degenerate_edge(v, c, a, b, ca, len.z)
}

// Refusal 5: whether a triangle has an edge too short or an altitude too small.
pub fn any_degenerate(v: &[f64], triangles: &[u32]) -> bool
    ensures { result ≡ degenerate_triangle v.now triangles.now }
{
    for t in 0..triangles.len() / 3 {
        let a = triangles[3 * t];
        let b = triangles[3 * t + 1];
        let c = triangles[3 * t + 2];
        if degenerate_triangle(v, a, b, c) {
            return true;
        }
    }
    false
}

fn kind_at(kinds: &[u8], i: usize) -> u8
    ensures { result ≡ get_or kinds.now i 0 }
{
    if i < kinds.len() { kinds[i] } else { 0 }
}

// Whether coordinate i is out of range and its piece uses it: a point has only the first three of six.
fn used_out_of_range(kinds: &[u8], coords: &[f64], i: usize) -> bool
    requires { i < length coords.now }
    ensures { result ≡ used_out_of_range kinds.now coords.now i }
{
    out_of_range(coords[i]) && (i % 6 < 3 || kind_at(kinds, i / 6) != 0)
}

fn any_piece_out_of_range(kinds: &[u8], coords: &[f64]) -> bool
    ensures { result ≡ piece_out_of_range kinds.now coords.now }
{
    for i in 0..coords.len() {
        if used_out_of_range(kinds, coords, i) {
            return true;
        }
    }
    false
}

// Refusal 8.
pub fn limit_out_of_range(limit: f64) -> bool
    ensures { result ≡ limit_outside limit }
{
    !(0.0 <= limit && limit <= 10_000_000.0)
}

// Refusal 9: whether a buffer of a fixed size is too short for so many vertices, triangles and pieces.
pub fn short_buffer(vertices: usize, triangles: usize, pieces: usize, buffers: BufferCounts) -> bool
    ensures { result ≡ is_too_short vertices triangles pieces buffers }
{
    // a third of the slots is compared, since three times any number can be too large
    (buffers.edges as usize) / 3 < triangles
        || (buffers.vertex_faces as usize) / 3 < triangles
        || (buffers.vertices as usize) < vertices
        || (buffers.triangles as usize) < triangles
        || (buffers.pieces as usize) < pieces
        || buffers.scratch < buffers.windows
        || buffers.other_scratch < buffers.windows
}

fn wrong_counts(
    vertices: usize,
    triangles: usize,
    flags: usize,
    kinds: usize,
    faces: usize,
    coords: usize,
) -> bool
    ensures { result ≡ wrong_counts vertices triangles flags kinds faces coords }
{
    vertices % 3 != 0
        || triangles % 3 != 0
        || vertices / 3 > 65_535
        || triangles / 3 > 131_070
        || kinds > 65_535
        || flags != vertices / 3
        || faces != kinds
        || coords != (COORDINATES_PER_PIECE as usize) * kinds
}

// The answer's number in document 01, 0 where the job passed.
pub fn refusal_number(checked: Result<(), Refusal>) -> u32
    ensures { result ≡ refusal_number checked }
{
    match checked {
        Ok(()) => 0,
        Err(Refusal::Malformed) => 1,
        Err(Refusal::MissingVertex) => 2,
        Err(Refusal::RepeatedVertex) => 3,
        Err(Refusal::VertexOutOfRange) => 4,
        Err(Refusal::DegenerateTriangle) => 5,
        Err(Refusal::MissingFace) => 6,
        Err(Refusal::PieceOutOfRange) => 7,
        Err(Refusal::LimitOutOfRange) => 8,
        Err(Refusal::ShortBuffer) => 9,
    }
}

// Refusal 1.
pub fn is_malformed(
    vertices: usize,
    triangles: usize,
    flags: &[u8],
    kinds: &[u8],
    faces: usize,
    coords: usize,
) -> bool
    ensures { result ≡ malformed vertices triangles flags.now kinds.now faces coords }
{
    wrong_counts(vertices, triangles, flags.len(), kinds.len(), faces, coords)
        || any_above_one(flags)
        || any_above_one(kinds)
}

// The first of the refusals 2 to 4 that holds, if any.
pub fn check_mesh(vertices: &[f64], triangles: &[u32]) -> Result<(), Refusal>
    ensures { refusal_number result ≡ first_of (mesh_tests vertices.now triangles.now) }
{
    if any_missing(triangles, vertices.len() / 3) {
        return Err(Refusal::MissingVertex);
    }
    if any_repeated(triangles) {
        return Err(Refusal::RepeatedVertex);
    }
    if any_out_of_range(vertices) {
        return Err(Refusal::VertexOutOfRange);
    }
    Ok(())
}

// The first of the refusals 6 and 7 that holds, if any, of a job with so many triangles.
pub fn check_pieces(
    triangles: usize,
    kinds: &[u8],
    faces: &[u32],
    coords: &[f64],
) -> Result<(), Refusal>
    ensures { refusal_number result ≡ first_of (piece_tests triangles kinds.now faces.now coords.now) }
{
    if any_missing(faces, triangles) {
        return Err(Refusal::MissingFace);
    }
    if any_piece_out_of_range(kinds, coords) {
        return Err(Refusal::PieceOutOfRange);
    }
    Ok(())
}

// The first of the refusals 1 to 9 that holds, if any.
pub fn check(
    vertices: &[f64],
    triangles: &[u32],
    flags: &[u8],
    kinds: &[u8],
    faces: &[u32],
    coords: &[f64],
    limit: f64,
    buffers: BufferCounts,
) -> Result<(), Refusal>
    ensures { refusal_number result ≡ refusal_of
        (job vertices.now triangles.now flags.now kinds.now faces.now coords.now limit)
        buffers }
{
    let v = vertices.len();
    let t = triangles.len();
    if is_malformed(v, t, flags, kinds, faces.len(), coords.len()) {
        return Err(Refusal::Malformed);
    }
    check_mesh(vertices, triangles)?;
    if any_degenerate(vertices, triangles) {
        return Err(Refusal::DegenerateTriangle);
    }
    check_pieces(t / 3, kinds, faces, coords)?;
    if limit_out_of_range(limit) {
        return Err(Refusal::LimitOutOfRange);
    }
    if short_buffer(v / 3, t / 3, kinds.len(), buffers) {
        return Err(Refusal::ShortBuffer);
    }
    Ok(())
}
