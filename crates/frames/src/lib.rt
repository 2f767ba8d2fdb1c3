// The frames of a mesh in lent buffers: each edge's length and unit vector, each triangle's inward normals.
// Reads past an end give 0 or a NaN, so none of these functions asks anything of the buffers' content; those that write ask that there is room.
#![tactic(auto)]

ghost use Rattle.std.specs.Prelude.{◌≡◌, [], ◌∷◌, ◌+◌, ◌*◌, ◌%◌, ◌≤◌, ◌<◌, length, get_or, replicate};
ghost use Rattle.std.specs.Float.{nan};
ghost use Rattle.layout.specs.Layout.{reals_per_edge, reals_per_triangle, reals_per_normal};
ghost use Rattle.buffers.specs.Slots.{fill};
ghost use Rattle.float64.specs.Scalar.{zero64};
ghost use Rattle.vec3.specs.Vec.{sub_of};
ghost use Rattle.job_checks.specs.Edge.{vertex_at, lower, perpendicular_from};
ghost use Rattle.frames.specs.Stored.{vector_from, vector_at, unit_at, fill_three, with_rows, unit_row_of, origin_at, edge_end, length_row, with_lengths, perpendicular_row, with_normals};
ghost use Rattle.buffers.specs.Lent.{given, left};

use buffers::{read_u32, zero_f64_from};
use job_checks::lower_of;
use layout::{
    COORDINATES_PER_VERTEX, EDGE_HIGH, EDGE_LOW, EDGE_UNIT, REALS_PER_EDGE, REALS_PER_NORMAL,
    VERTICES_PER_TRIANGLE, WORDS_PER_EDGE, WORDS_PER_TRIANGLE,
};
use vec3::Vec3;

fn real(reals: &[f64], i: usize) -> f64
    ensures { result ≡ get_or reals.now i nan }
{
    if i < reals.len() { reals[i] } else { 0.0 / 0.0 }
}

// Three reals from one on; one test where all are inside.
pub fn vector_from(reals: &[f64], i: usize) -> Vec3
    requires { i + 2 < 18446744073709551616 }
    ensures { result ≡ vector_from reals.now i }
{
    if i + 2 < reals.len() {
        return Vec3 {
            x: reals[i],
            y: reals[i + 1],
            z: reals[i + 2],
        };
    }
    Vec3 {
        x: real(reals, i),
        y: real(reals, i + 1),
        z: real(reals, i + 2),
    }
}

// Three reals of a slot from a field on.
fn vector(reals: &[f64], stride: u32, slot: u32, field: u32) -> Vec3
    requires { field + 2 < 4294967296 }
    ensures { result ≡ vector_at stride reals.now slot field }
{
    vector_from(
        reals,
        (stride as usize) * (slot as usize) + (field as usize),
    )
}

fn vertex(vertices: &[f64], k: u32) -> Vec3
    ensures { result ≡ vertex_at vertices.now k }
{
    vector(vertices, COORDINATES_PER_VERTEX, k, 0)
}

fn store_four(reals: &mut [f64], slot: u32, len: f64, u: Vec3)
    requires { reals_per_edge * slot + reals_per_edge ≤ length reals.old }
    ensures { left reals ≡ fill reals_per_edge (given reals) slot 0 (len ∷ u.x ∷ u.y ∷ u.z ∷ []) }
{
    let i = (REALS_PER_EDGE as usize) * (slot as usize);
    reals[i] = len;
    reals[i + 1] = u.x;
    reals[i + 2] = u.y;
    reals[i + 3] = u.z;
}

fn store_three(reals: &mut [f64], slot: u32, u: Vec3)
    requires { reals_per_normal * slot + reals_per_normal ≤ length reals.old }
    ensures { left reals ≡ fill reals_per_normal (given reals) slot 0 (u.x ∷ u.y ∷ u.z ∷ []) }
{
    let i = (REALS_PER_NORMAL as usize) * (slot as usize);
    reals[i] = u.x;
    reals[i + 1] = u.y;
    reals[i + 2] = u.z;
}

fn origin(vertices: &[f64], edge_words: &[u32], e: u32) -> Vec3
    ensures { result ≡ origin_at vertices.now edge_words.now e }
{
    vertex(vertices, read_u32(edge_words, WORDS_PER_EDGE, e, EDGE_LOW))
}

fn end(vertices: &[f64], edge_words: &[u32], e: u32) -> Vec3
    ensures { result ≡ edge_end vertices.now edge_words.now e }
{
    vertex(vertices, read_u32(edge_words, WORDS_PER_EDGE, e, EDGE_HIGH))
}

// From the start of edge e to its end.
fn edge_vector(vertices: &[f64], edge_words: &[u32], e: u32) -> Vec3
    ensures { result ≡ sub_of (edge_end vertices.now edge_words.now e) (origin_at vertices.now edge_words.now e) }
{
    let o = origin(vertices, edge_words, e);
    let b = end(vertices, edge_words, e);
    vec3::sub(b, o)
}

// The length and the unit vector of edge e.
fn store_length(vertices: &[f64], edge_words: &[u32], e: u32, edge_reals: &mut [f64])
    requires { reals_per_edge * e + reals_per_edge ≤ length edge_reals.old }
    ensures { left edge_reals ≡ fill reals_per_edge (given edge_reals) e 0 (length_row vertices.now edge_words.now e) }
{
    let d = edge_vector(vertices, edge_words, e);
    let len = vec3::norm(d);
    store_four(edge_reals, e, len, vec3::scale(d, 1.0 / len));
}

// The same of the edges e, e + 1 and e + 2.
fn store_three_lengths(vertices: &[f64], edge_words: &[u32], e: u32, edge_reals: &mut [f64])
    requires { (reals_per_edge * e + 3 * reals_per_edge ≤ length edge_reals.old) × (e + 2 < 4294967296) }
    ensures { left edge_reals ≡ fill_three reals_per_edge (given edge_reals) e (length_row vertices.now edge_words.now e)
        (length_row vertices.now edge_words.now (e + 1)) (length_row vertices.now edge_words.now (e + 2)) }
{
    let d = edge_vector(vertices, edge_words, e);
    let d1 = edge_vector(vertices, edge_words, e + 1);
    let d2 = edge_vector(vertices, edge_words, e + 2);
    let len = vec3::norms(d, d1, d2);
    store_four(edge_reals, e, len.x, vec3::scale(d, 1.0 / len.x));
    store_four(edge_reals, e + 1, len.y, vec3::scale(d1, 1.0 / len.y));
    store_four(edge_reals, e + 2, len.z, vec3::scale(d2, 1.0 / len.z));
}

// Of the first `count` edges; the other slots are zeroed.
pub fn lengths(vertices: &[f64], edge_words: &[u32], count: u32, edge_reals: &mut [f64])
    requires { reals_per_edge * count ≤ length edge_reals.old }
    ensures { left edge_reals ≡ with_lengths vertices.now edge_words.now count (replicate (length (given edge_reals)) zero64) }
{
    let mut e: u32 = 0;
    while e < count {
        if count - e < 3 {
            store_length(vertices, edge_words, e, edge_reals);
            e += 1;
        } else {
            store_three_lengths(vertices, edge_words, e, edge_reals);
            e += 3;
        }
    }
    zero_f64_from(edge_reals, (REALS_PER_EDGE as usize) * (count as usize));
}

// From the edge e of the vertices a and b to the third vertex, at a right angle. The edge's unit vector is read, not computed again.
fn perpendicular(vertices: &[f64], edge_reals: &[f64], e: u32, a: u32, b: u32, third: u32) -> Vec3
    ensures { result ≡ perpendicular_from (vertex_at vertices.now (lower a b)) (unit_at edge_reals.now e) (vertex_at vertices.now third) }
{
    let o = vertex(vertices, lower_of(a, b));
    let xhat = vector(edge_reals, REALS_PER_EDGE, e, EDGE_UNIT);
    let w = vec3::sub(vertex(vertices, third), o);
    vec3::axpy(w, -vec3::dot(w, xhat), xhat)
}

// The perpendiculars over the three sides of face f, not yet scaled.
fn store_perpendiculars(
    vertices: &[f64],
    triangles: &[u32],
    triangle_words: &[u32],
    edge_reals: &[f64],
    f: u32,
    triangle_reals: &mut [f64],
)
    requires { (reals_per_triangle * f + reals_per_triangle ≤ length triangle_reals.old) × (3 * f + 2 < 4294967296) }
    ensures { left triangle_reals ≡ fill_three reals_per_normal (given triangle_reals) (3 * f)
        (perpendicular_row vertices.now triangles.now triangle_words.now edge_reals.now (3 * f))
        (perpendicular_row vertices.now triangles.now triangle_words.now edge_reals.now (3 * f + 1))
        (perpendicular_row vertices.now triangles.now triangle_words.now edge_reals.now (3 * f + 2)) }
{
    let a = read_u32(triangles, VERTICES_PER_TRIANGLE, f, 0);
    let b = read_u32(triangles, VERTICES_PER_TRIANGLE, f, 1);
    let c = read_u32(triangles, VERTICES_PER_TRIANGLE, f, 2);
    let e = read_u32(triangle_words, WORDS_PER_TRIANGLE, f, 0);
    let e1 = read_u32(triangle_words, WORDS_PER_TRIANGLE, f, 1);
    let e2 = read_u32(triangle_words, WORDS_PER_TRIANGLE, f, 2);
    let p = perpendicular(vertices, edge_reals, e, a, b, c);
    let p1 = perpendicular(vertices, edge_reals, e1, b, c, a);
    let p2 = perpendicular(vertices, edge_reals, e2, c, a, b);
    store_three(triangle_reals, 3 * f, p);
    store_three(triangle_reals, 3 * f + 1, p1);
    store_three(triangle_reals, 3 * f + 2, p2);
}

// Of all faces.
fn perpendiculars(
    vertices: &[f64],
    triangles: &[u32],
    triangle_words: &[u32],
    edge_reals: &[f64],
    faces: u32,
    triangle_reals: &mut [f64],
)
    requires { (reals_per_triangle * faces ≤ length triangle_reals.old) × (3 * faces < 4294967296) }
    ensures { left triangle_reals ≡ with_rows reals_per_normal (perpendicular_row vertices.now triangles.now triangle_words.now edge_reals.now) (3 * faces)
        (given triangle_reals) }
{
    for f in 0..faces {
        store_perpendiculars(
            vertices,
            triangles,
            triangle_words,
            edge_reals,
            f,
            triangle_reals,
        );
    }
}

// The three vectors of face f, scaled to length one.
fn store_units(reals: &mut [f64], f: u32)
    requires { (reals_per_triangle * f + reals_per_triangle ≤ length reals.old) × (3 * f + 2 < 4294967296) }
    ensures { left reals ≡ fill_three reals_per_normal (given reals) (3 * f) (unit_row_of (given reals) (3 * f)) (unit_row_of (given reals) (3 * f + 1)) (unit_row_of (given reals) (3 * f + 2)) }
{
    let p = vector(reals, REALS_PER_NORMAL, 3 * f, 0);
    let p1 = vector(reals, REALS_PER_NORMAL, 3 * f + 1, 0);
    let p2 = vector(reals, REALS_PER_NORMAL, 3 * f + 2, 0);
    let altitude = vec3::norms(p, p1, p2);
    store_three(reals, 3 * f, vec3::scale(p, 1.0 / altitude.x));
    store_three(reals, 3 * f + 1, vec3::scale(p1, 1.0 / altitude.y));
    store_three(reals, 3 * f + 2, vec3::scale(p2, 1.0 / altitude.z));
}

// Of all faces.
fn units(reals: &mut [f64], faces: u32)
    requires { (reals_per_triangle * faces ≤ length reals.old) × (3 * faces < 4294967296) }
    ensures { left reals ≡ with_rows reals_per_normal (unit_row_of (given reals)) (3 * faces) (given reals) }
{
    for f in 0..faces {
        store_units(reals, f);
    }
}

// The inward normals of all sides; the other slots are zeroed. Two passes: the first reads from all over the buffers and has little else to do, so that
// many reads are under way at once, and the second has the long chains of roots.
pub fn normals(
    vertices: &[f64],
    triangles: &[u32],
    triangle_words: &[u32],
    edge_reals: &[f64],
    triangle_reals: &mut [f64],
)
    requires { (length triangles.now < 4294967296) × ((length triangles.now % 3 ≡ 0) × (reals_per_normal * length triangles.now ≤ length triangle_reals.old)) }
    ensures { left triangle_reals ≡ with_normals vertices.now triangles.now triangle_words.now edge_reals.now (length triangles.now)
        (replicate (length (given triangle_reals)) zero64) }
{
    let faces = (triangles.len() / 3) as u32;
    perpendiculars(
        vertices,
        triangles,
        triangle_words,
        edge_reals,
        faces,
        triangle_reals,
    );
    units(triangle_reals, faces);
    zero_f64_from(
        triangle_reals,
        (REALS_PER_NORMAL as usize) * triangles.len(),
    );
}
