// Writing the slip of a job: its bytes to the front of a slice, or nothing where they do not fit.
#![tactic(auto)]

ghost use Rattle.std.specs.Prelude.{◌≡◌, ◌+◌, ◌*◌, ◌≤◌, ◌<◌, length, get_or};
ghost use Rattle.std.specs.Float.{nan};
ghost use Rattle.job_checks.specs.Job.{job};
ghost use Rattle.little_endian.specs.Bytes.{number_bytes, double_bytes};
ghost use Rattle.text_out.specs.Text.{Puts};
ghost use Rattle.slip_write.specs.Write.{numbers_bytes, doubles_bytes, three_bytes, piece_bytes, pieces_bytes, counts_bytes, mesh_bytes, rest_bytes, slip_of, oversized, writing};

use text_out::put_text;

// The bytes of a number, of a double and of rows of them, from place i on.
pub fn put_number(out: &mut [u8], i: usize, n: u32) -> usize
    requires { i < 9_000_000_000_000_000_000 }
    ensures { Puts out.old i (number_bytes n) out.new result }
{
    let bytes = [
        (n % 256) as u8,
        (n / 256 % 256) as u8,
        (n / 65_536 % 256) as u8,
        (n / 16_777_216 % 256) as u8,
    ];
    put_text(out, i, &bytes)
}

pub fn put_double(out: &mut [u8], i: usize, x: f64) -> usize
    requires { i < 8_000_000_000_000_000_000 }
    ensures { Puts out.old i (double_bytes x) out.new result }
{
    let b = little_endian::pattern(x);
    let j = put_number(out, i, (b % 4_294_967_296) as u32);
    put_number(out, j, (b / 4_294_967_296) as u32)
}

fn put_doubles(out: &mut [u8], i: usize, xs: &[f64]) -> usize
    requires { i + 8 * length xs.now < 7_000_000_000_000_000_000 }
    ensures { Puts out.old i (doubles_bytes xs.now (length xs.now)) out.new result × (result ≡ i + 8 * length xs.now) }
{
    let mut at = i;
    for x in xs {
        at = put_double(out, at, *x);
    }
    at
}

fn put_numbers(out: &mut [u8], i: usize, xs: &[u32]) -> usize
    requires { i + 4 * length xs.now < 7_000_000_000_000_000_000 }
    ensures { Puts out.old i (numbers_bytes xs.now (length xs.now)) out.new result × (result ≡ i + 4 * length xs.now) }
{
    let mut at = i;
    for x in xs {
        at = put_number(out, at, *x);
    }
    at
}

// Element k, a NaN past the end; of faces and kinds 0.
fn real_at(xs: &[f64], k: usize) -> f64
    ensures { result ≡ get_or xs.now k nan }
{
    if k < xs.len() { xs[k] } else { 0.0 / 0.0 }
}

fn word_at(xs: &[u32], k: usize) -> u32
    ensures { result ≡ get_or xs.now k 0 }
{
    if k < xs.len() { xs[k] } else { 0 }
}

fn put_three(out: &mut [u8], i: usize, coords: &[f64], k: usize) -> usize
    requires { (i < 7_000_000_000_000_000_000) × (k < 18_000_000_000_000_000_000) }
    ensures { Puts out.old i (three_bytes coords.now k) out.new result × (result ≡ i + 24) }
{
    let a = put_double(out, i, real_at(coords, k));
    let b = put_double(out, a, real_at(coords, k + 1));
    put_double(out, b, real_at(coords, k + 2))
}

fn put_piece(
    out: &mut [u8],
    i: usize,
    kinds: &[u8],
    faces: &[u32],
    coords: &[f64],
    k: usize,
) -> usize
    requires { (i < 6_000_000_000_000_000_000) × ((k < 2_000_000_000_000_000_000) × (k < length kinds.now)) }
    ensures { Puts out.old i (piece_bytes kinds.now faces.now coords.now k) out.new result × (result ≤ i + 53) }
{
    let kind = [kinds[k]];
    let a = put_text(out, i, &kind);
    let b = put_number(out, a, word_at(faces, k));
    let c = put_three(out, b, coords, 6 * k);
    if kinds[k] == 0 {
        return c;
    }
    put_three(out, c, coords, 6 * k + 3)
}

// All pieces, as many as there are kinds.
fn put_pieces(out: &mut [u8], i: usize, kinds: &[u8], faces: &[u32], coords: &[f64]) -> usize
    requires { i + 53 * length kinds.now < 5_000_000_000_000_000_000 }
    ensures { Puts out.old i (pieces_bytes kinds.now faces.now coords.now (length kinds.now)) out.new result × (result ≤ i + 53 * length kinds.now) }
{
    let mut at = i;
    for k in 0..kinds.len() {
        at = put_piece(out, at, kinds, faces, coords, k);
    }
    at
}

// The three counts, by their low 32 bits.
fn put_counts(out: &mut [u8], vertices: usize, triangles: usize, pieces: usize) -> usize
    ensures { Puts out.old 0 (counts_bytes vertices triangles pieces) out.new result × (result ≡ 12) }
{
    let a = put_number(out, 0, (vertices % 4_294_967_296) as u32);
    let b = put_number(out, a, (triangles % 4_294_967_296) as u32);
    put_number(out, b, (pieces % 4_294_967_296) as u32)
}

fn put_mesh(out: &mut [u8], i: usize, vertices: &[f64], triangles: &[u32], flags: &[u8]) -> usize
    requires { (i ≤ 12) × ((length vertices.now ≤ 72_057_594_037_927_936) × ((length triangles.now ≤ 72_057_594_037_927_936) × (length flags.now ≤ 72_057_594_037_927_936))) }
    ensures { Puts out.old i (mesh_bytes vertices.now triangles.now flags.now) out.new result × (result ≤ 1_000_000_000_000_000_000) }
{
    let a = put_doubles(out, i, vertices);
    let b = put_numbers(out, a, triangles);
    put_text(out, b, flags)
}

fn put_rest(
    out: &mut [u8],
    i: usize,
    kinds: &[u8],
    faces: &[u32],
    coords: &[f64],
    limit: f64,
) -> usize
    requires { (i ≤ 1_000_000_000_000_000_000) × (length kinds.now ≤ 72_057_594_037_927_936) }
    ensures { Puts out.old i (rest_bytes kinds.now faces.now coords.now limit) out.new result }
{
    let a = put_pieces(out, i, kinds, faces, coords);
    put_double(out, a, limit)
}

fn put_slip(
    vertices: &[f64],
    triangles: &[u32],
    flags: &[u8],
    kinds: &[u8],
    faces: &[u32],
    coords: &[f64],
    limit: f64,
    out: &mut [u8],
) -> usize
    requires { (length vertices.now ≤ 72_057_594_037_927_936) ×
        ((length triangles.now ≤ 72_057_594_037_927_936) × ((length flags.now ≤ 72_057_594_037_927_936) × (length kinds.now ≤ 72_057_594_037_927_936))) }
    ensures { Puts out.old 0 (slip_of (job vertices.now triangles.now flags.now kinds.now faces.now coords.now limit)) out.new result }
{
    let a = put_counts(out, vertices.len() / 3, triangles.len() / 3, kinds.len());
    let b = put_mesh(out, a, vertices, triangles, flags);
    put_rest(out, b, kinds, faces, coords, limit)
}

fn is_oversized(vertices: usize, triangles: usize, flags: usize, kinds: usize) -> bool
    ensures { result ≡ oversized vertices triangles flags kinds }
{
    if 72_057_594_037_927_936 < vertices {
        return true;
    }
    if 72_057_594_037_927_936 < triangles {
        return true;
    }
    if 72_057_594_037_927_936 < flags {
        return true;
    }
    if 72_057_594_037_927_936 < kinds {
        return true;
    }
    false
}

// The slip of a job to the front of a slice: answers how long it is, or nothing where the slice is too short, and then nothing is written. A first pass only counts.
pub fn write(
    vertices: &[f64],
    triangles: &[u32],
    flags: &[u8],
    kinds: &[u8],
    faces: &[u32],
    coords: &[f64],
    limit: f64,
    out: &mut [u8],
) -> Option<usize>
    ensures { (result, out.new) ≡ writing (job vertices.now triangles.now flags.now kinds.now faces.now coords.now limit) out.old }
{
    if is_oversized(vertices.len(), triangles.len(), flags.len(), kinds.len()) {
        return None;
    }
    let mut none = [0u8; 1];
    let n = put_slip(
        vertices, triangles, flags, kinds, faces, coords, limit, &mut none,
    );
    if out.len() < n {
        return None;
    }
    put_slip(vertices, triangles, flags, kinds, faces, coords, limit, out);
    Some(n)
}
