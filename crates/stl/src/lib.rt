// Binary STL: a mesh read from the bytes of a file, and the file of a mesh. All is checked before anything is written.
#![tactic(auto)]

ghost use Rattle.std.specs.Prelude.{◌≡◌, ℕ, ◌+◌, ◌-◌, ◌*◌, ◌/◌, ◌%◌, ◌≤◌, ◌<◌, T, length, get_or};
ghost use Rattle.std.specs.Float.{nan};
ghost use Rattle.job_checks.specs.Any.{any_below};
ghost use Rattle.job_checks.specs.Refusals.{missing};
ghost use Rattle.little_endian.specs.Bytes.{put_in_front};
ghost use Rattle.nat_laws.specs.Lists.{list_of};
ghost use Rattle.single.specs.Single.{is_single};
ghost use Rattle.text_out.specs.Text.{Puts};
ghost use Rattle.stl_format.specs.Format.{coordinate, bytes_not_finite, single_bytes, vertex_bytes, record_bytes, records_bytes, file_of};
ghost use Rattle.stl_format.specs.Answers.{mesh_lists, stl_reading, wrong_sizes, not_single, stl_writing};
ghost use Rattle.stl_table.specs.Table.{HasPoint, HasPoints, found_at, Findable};
ghost use Rattle.stl.specs.Parts.{Writable, WritableTriangles, CheckedFile};

use float64::is_finite;
use single::{is_single, single_bits};
use slip_write::put_number;
use stl_format::{StlCounts, StlRefusal, coordinate_at, word_at};
use stl_table::{build, find};
use text_out::put_text;

// ---- writing

fn has_wrong_sizes(vertices: usize, triangles: usize) -> bool
    ensures { result ≡ wrong_sizes vertices triangles }
{
    if vertices % 3 != 0 {
        return true;
    }
    if triangles % 3 != 0 {
        return true;
    }
    if 65_535 < vertices / 3 {
        return true;
    }
    if 131_070 < triangles / 3 {
        return true;
    }
    false
}

fn wide(x: u32) -> usize
    ensures { result ≡ x }
{
    x as usize
}

// Whether a triangle names none of count vertices.
fn any_missing(triangles: &[u32], count: usize) -> bool
    ensures { result ≡ any_below (missing count triangles.now) (length triangles.now) }
{
    for v in triangles {
        if wide(*v) >= count {
            return true;
        }
    }
    false
}

fn any_not_single(vertices: &[f64]) -> bool
    ensures { result ≡ any_below (not_single vertices.now) (length vertices.now) }
{
    for x in vertices {
        if !is_single(*x) {
            return true;
        }
    }
    false
}

// The bytes of a single, of a vertex, of a triangle's record, of the first n records and of a file, from place i on: each answers the place behind.
fn put_single(out: &mut [u8], i: usize, x: f64) -> usize
    requires { (i < 9_000_000_000_000_000) × T (is_single x) }
    ensures { Puts out.old i (single_bytes x) out.new result × (result ≡ i + 4) }
{
    put_number(out, i, single_bits(x))
}

fn put_vertex(out: &mut [u8], i: usize, vertices: &[f64], a: u32) -> usize
    requires { (i < 8_000_000_000_000_000) × Writable vertices.now a }
    ensures { Puts out.old i (vertex_bytes vertices.now a) out.new result × (result ≡ i + 12) }
{
    let k = 3 * (a as usize);
    let j = put_single(out, i, vertices[k]);
    let l = put_single(out, j, vertices[k + 1]);
    put_single(out, l, vertices[k + 2])
}

fn put_record(out: &mut [u8], i: usize, vertices: &[f64], triangles: &[u32], t: usize) -> usize
    requires { (i < 7_000_000_000_000_000) × ((3 * t + 3 ≤ length triangles.now) × WritableTriangles vertices.now triangles.now) }
    ensures { Puts out.old i (record_bytes vertices.now triangles.now t) out.new result × (result ≡ i + 50) }
{
    let normal = [0u8; 12];
    let attributes = [0u8; 2];
    let a = put_text(out, i, &normal);
    let b = put_vertex(out, a, vertices, triangles[3 * t]);
    let c = put_vertex(out, b, vertices, triangles[3 * t + 1]);
    let d = put_vertex(out, c, vertices, triangles[3 * t + 2]);
    put_text(out, d, &attributes)
}

fn put_records(out: &mut [u8], i: usize, vertices: &[f64], triangles: &[u32]) -> usize
    requires { (i ≤ 84) × ((length triangles.now / 3 ≤ 131_070) × WritableTriangles vertices.now triangles.now) }
    ensures { Puts out.old i (records_bytes vertices.now triangles.now (length triangles.now / 3)) out.new result }
{
    let n = triangles.len() / 3;
    let mut at = i;
    for t in 0..n {
        at = put_record(out, at, vertices, triangles, t);
    }
    at
}

fn put_file(out: &mut [u8], vertices: &[f64], triangles: &[u32]) -> usize
    requires { (length triangles.now / 3 ≤ 131_070) × WritableTriangles vertices.now triangles.now }
    ensures { Puts out.old 0 (file_of vertices.now triangles.now) out.new result }
{
    let header = [0u8; 80];
    let a = put_text(out, 0, &header);
    let b = put_number(out, a, (triangles.len() / 3) as u32);
    put_records(out, b, vertices, triangles)
}

// The file of a mesh to the front of a slice: how many bytes it has. Refused, it writes nothing.
pub fn write(vertices: &[f64], triangles: &[u32], out: &mut [u8]) -> Result<usize, StlRefusal>
    ensures { (result, out.new) ≡ stl_writing vertices.now triangles.now out.old }
{
    if has_wrong_sizes(vertices.len(), triangles.len()) {
        return Err(StlRefusal::Malformed);
    }
    if any_missing(triangles, vertices.len() / 3) {
        return Err(StlRefusal::MissingVertex);
    }
    if any_not_single(vertices) {
        return Err(StlRefusal::NotSingle);
    }
    let n = 84 + 50 * (triangles.len() / 3);
    if out.len() < n {
        return Err(StlRefusal::ShortBuffer);
    }
    put_file(out, vertices, triangles);
    Ok(n)
}

// ---- reading

fn is_not_finite(s: &[u8], h: usize) -> bool
    requires { HasPoint s.now h }
    ensures { result ≡ bytes_not_finite s.now h }
{
    if !is_finite(coordinate_at(s, h, 0)) {
        return true;
    }
    if !is_finite(coordinate_at(s, h, 1)) {
        return true;
    }
    if !is_finite(coordinate_at(s, h, 2)) {
        return true;
    }
    false
}

fn any_not_finite(s: &[u8], points: usize) -> bool
    requires { HasPoints s.now points }
    ensures { result ≡ any_below (bytes_not_finite s.now) points }
{
    for h in 0..points {
        if is_not_finite(s, h) {
            return true;
        }
    }
    false
}

// The coordinates of the points firsts, in n vertices.
fn write_vertices(s: &[u8], firsts: &[u32], n: usize, vertices: &mut [f64])
    requires { (n ≤ length firsts.now) × ((3 * n ≤ length vertices.old) × ((i : ℕ) → i < n → HasPoint s.now (get_or firsts.now i 0))) }
    ensures { vertices.new ≡ put_in_front (list_of (3 * n) (λ j. coordinate s.now (get_or firsts.now (j / 3) 0) (j % 3))) vertices.old }
{
    for j in 0..(3 * n) {
        vertices[j] = coordinate_at(s, wide(firsts[j / 3]), j % 3);
    }
}

// A vertex's number by the link to it.
fn number_of(link: u32) -> u32
    ensures { result ≡ link - 1 }
{
    if link == 0 {
        return 0;
    }
    link - 1
}

// The vertices of the first n points.
fn write_triangles(
    s: &[u8],
    heads: &[u32],
    links: &[u32],
    firsts: &[u32],
    n: u32,
    triangles: &mut [u32],
)
    requires { (n ≤ length triangles.old) × ((h : ℕ) → h < n → Findable s.now heads.now links.now firsts.now h) }
    ensures { triangles.new ≡ put_in_front (list_of n (λ h. found_at s.now heads.now links.now firsts.now h - 1)) triangles.old }
{
    for h in 0..n {
        triangles[h as usize] = number_of(find(s, heads, links, firsts, h));
    }
}

// The mesh of a file of n records that 40 to 42 passed. Its vertices are counted in arrays of its own before anything is written.
fn read_mesh(
    s: &[u8],
    n: u32,
    vertices: &mut [f64],
    triangles: &mut [u32],
) -> Result<StlCounts, StlRefusal>
    requires { CheckedFile s.now n }
    ensures { (result, mesh_lists vertices.new triangles.new) ≡ stl_reading s.now (mesh_lists vertices.old triangles.old) }
{
    let mut heads = [0u32; 131072];
    let mut links = [0u32; 65536];
    let mut firsts = [0u32; 65536];
    let count = build(s, 3 * n, &mut heads, &mut links, &mut firsts);
    if 65_535 < count {
        return Err(StlRefusal::TooMany);
    }
    if vertices.len() / 3 < count as usize {
        return Err(StlRefusal::ShortBuffer);
    }
    if triangles.len() / 3 < n as usize {
        return Err(StlRefusal::ShortBuffer);
    }
    write_vertices(s, &firsts, count as usize, vertices);
    write_triangles(s, &heads, &links, &firsts, 3 * n, triangles);
    Ok(StlCounts {
        vertices: count,
        triangles: n,
    })
}

// Reads a file: its mesh to the fronts of the two slices, where there is room for it. Refused, it writes nothing.
pub fn read(s: &[u8], vertices: &mut [f64], triangles: &mut [u32]) -> Result<StlCounts, StlRefusal>
    ensures { (result, mesh_lists vertices.new triangles.new) ≡ stl_reading s.now (mesh_lists vertices.old triangles.old) }
{
    if s.len() < 84 {
        return Err(StlRefusal::TooShort);
    }
    let n = word_at(s, 80) as usize;
    if s.len() != 84 + 50 * n {
        return Err(StlRefusal::WrongLength);
    }
    if any_not_finite(s, 3 * n) {
        return Err(StlRefusal::NotFinite);
    }
    if 131_070 < n {
        return Err(StlRefusal::TooMany);
    }
    read_mesh(s, n as u32, vertices, triangles)
}
