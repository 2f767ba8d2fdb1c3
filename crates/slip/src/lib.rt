// Reading a slip: the bytes of a job, to the fronts of six slices. All is checked before anything is written.
#![tactic(auto)]

ghost use Rattle.std.specs.Prelude.{◌≡◌, true, ◌+◌, ◌*◌, ◌≤◌, ◌<◌, min, length, get_or};
ghost use Rattle.buffers.specs.Slots.{fill};
ghost use Rattle.little_endian.specs.Bytes.{number_from, put_in_front};
ghost use Rattle.slip.specs.Format.{refusal_number, slip_number, is_job, vertex_count_in, triangle_count_in, piece_count_in, triangles_from, flags_from, pieces_from, piece_size, second_double_at, piece_coords, job_in, exceeds, after_pieces, answer_to};
ghost use Rattle.slip.specs.Reading.{job_rows, reading};

use little_endian::{double_at, number_at, read_bytes, read_doubles, read_numbers};

// What the slip of a job says beside its lists.
#[derive(Clone, Copy)]
pub struct SlipJob {
    pub vertices: u32,
    pub triangles: u32,
    pub pieces: u32,
    pub limit: f64,
}

// Why a slip is refused.
#[derive(Clone, Copy, PartialEq, Eq, Debug)]
pub enum SlipRefusal {
    TooShort,
    LeftOver,
    UnknownKind,
    TooMany,
}

// The number of a refusal in document 01.
pub fn refusal_number(refusal: SlipRefusal) -> u32
    ensures { result ≡ refusal_number refusal }
{
    match refusal {
        SlipRefusal::TooShort => 30,
        SlipRefusal::LeftOver => 31,
        SlipRefusal::UnknownKind => 32,
        SlipRefusal::TooMany => 33,
    }
}

// The same of an answer: 0 of a job.
pub fn slip_number(slip: Result<SlipJob, SlipRefusal>) -> u32
    ensures { result ≡ slip_number slip }
{
    match slip {
        Ok(_) => 0,
        Err(why) => refusal_number(why),
    }
}

pub fn is_job(slip: Result<SlipJob, SlipRefusal>) -> bool
    ensures { result ≡ is_job slip }
{
    slip.is_ok()
}

// The lesser of two numbers.
pub fn least(m: usize, n: usize) -> usize
    ensures { result ≡ min m n }
{
    if m <= n { m } else { n }
}

// The count that stands at byte i.
fn count(s: &[u8], i: usize) -> usize
    requires { i + 4 ≤ length s.now }
    ensures { (result ≡ number_from s.now i) × (result < 4_294_967_296) }
{
    number_at(s, i) as usize
}

// Where the triangles, the flags and the pieces of a slip start, by its counts.
fn triangles_from(s: &[u8]) -> usize
    requires { 12 ≤ length s.now }
    ensures { (result ≡ triangles_from s.now) × (result < 200_000_000_000) }
{
    12 + 24 * count(s, 0)
}

fn flags_from(s: &[u8]) -> usize
    requires { 12 ≤ length s.now }
    ensures { (result ≡ flags_from s.now) × (result < 300_000_000_000) }
{
    triangles_from(s) + 12 * count(s, 4)
}

fn pieces_from(s: &[u8]) -> usize
    requires { 12 ≤ length s.now }
    ensures { result ≡ pieces_from s.now }
{
    flags_from(s) + count(s, 0)
}

// How many bytes a piece of a kind has.
fn piece_size(kind: u8) -> usize
    ensures { (result ≡ piece_size kind) × ((29 ≤ result) × (result ≤ 53)) }
{
    if kind == 0 {
        return 29;
    }
    53
}

// Whether a count of the slip is above what there is room for.
fn has_too_many(s: &[u8], vertices: usize, triangles: usize, pieces: usize) -> bool
    requires { 12 ≤ length s.now }
    ensures { result ≡ exceeds s.now vertices triangles pieces }
{
    if vertices < count(s, 0) {
        return true;
    }
    if triangles < count(s, 4) {
        return true;
    }
    if pieces < count(s, 8) {
        return true;
    }
    false
}

// What the last bytes answer, from byte i on: the limit is due.
fn check_limit(s: &[u8], i: usize) -> Result<SlipJob, SlipRefusal>
    requires { (12 ≤ length s.now) × (i ≤ length s.now) }
    ensures { result ≡ after_pieces s.now 0 i }
{
    let rest = s.len() - i;
    if rest < 8 {
        return Err(SlipRefusal::TooShort);
    }
    if 8 < rest {
        return Err(SlipRefusal::LeftOver);
    }
    Ok(SlipJob {
        vertices: number_at(s, 0),
        triangles: number_at(s, 4),
        pieces: number_at(s, 8),
        limit: double_at(s, i),
    })
}

// The same where n pieces come before the limit.
fn check_pieces(s: &[u8], from: usize, n: u32) -> Result<SlipJob, SlipRefusal>
    requires { (12 ≤ length s.now) × (from ≤ length s.now) }
    ensures { result ≡ after_pieces s.now n from }
{
    let mut i = from;
    for _ in 0..n {
        if s.len() <= i {
            return Err(SlipRefusal::TooShort);
        }
        let kind = s[i];
        if 1 < kind {
            return Err(SlipRefusal::UnknownKind);
        }
        let size = piece_size(kind);
        if s.len() - i < size {
            return Err(SlipRefusal::TooShort);
        }
        i += size;
    }
    check_limit(s, i)
}

// What reading answers where there is room for so many vertices, triangles and pieces.
fn check(s: &[u8], vertices: usize, triangles: usize, pieces: usize) -> Result<SlipJob, SlipRefusal>
    ensures { result ≡ answer_to s.now vertices triangles pieces }
{
    if s.len() < 12 {
        return Err(SlipRefusal::TooShort);
    }
    if has_too_many(s, vertices, triangles, pieces) {
        return Err(SlipRefusal::TooMany);
    }
    let from = pieces_from(s);
    if s.len() < from {
        return Err(SlipRefusal::TooShort);
    }
    check_pieces(s, from, number_at(s, 8))
}

fn write_mesh(s: &[u8], vertices: &mut [f64], triangles: &mut [u32], flags: &mut [u8])
    requires { (12 ≤ length s.now) × ((pieces_from s.now ≤ length s.now) ×
        ((3 * vertex_count_in s.now ≤ length vertices.old) × ((3 * triangle_count_in s.now ≤ length triangles.old) × (vertex_count_in s.now ≤ length flags.old)))) }
    ensures { (vertices.new ≡ put_in_front (job_in s.now).vertices vertices.old) ×
        ((triangles.new ≡ put_in_front (job_in s.now).triangles triangles.old) × (flags.new ≡ put_in_front (job_in s.now).flags flags.old)) }
{
    let n = count(s, 0);
    let from = triangles_from(s);
    let flags_start = flags_from(s);
    read_doubles(s, 12, 3 * n, vertices);
    read_numbers(s, from, 3 * count(s, 4), triangles);
    read_bytes(s, flags_start, n, flags);
}

// The double k bytes behind the start of the piece at i, 0 of a point.
fn second(s: &[u8], i: usize, k: usize) -> f64
    requires { (i < length s.now) × ((k ≤ 45) × (i + piece_size (get_or s.now i 0) ≤ length s.now)) }
    ensures { result ≡ second_double_at s.now i k }
{
    if s[i] == 0 {
        return 0.0;
    }
    double_at(s, i + k)
}

// The coordinates of the piece at i, to place k.
fn write_coords(s: &[u8], i: usize, k: usize, coords: &mut [f64])
    requires { (i < length s.now) × ((i + piece_size (get_or s.now i 0) ≤ length s.now) × (6 * k + 6 ≤ length coords.old)) }
    ensures { coords.new ≡ fill 6 coords.old k 0 (piece_coords s.now i) }
{
    coords[6 * k] = double_at(s, i + 5);
    coords[6 * k + 1] = double_at(s, i + 13);
    coords[6 * k + 2] = double_at(s, i + 21);
    coords[6 * k + 3] = second(s, i, 29);
    coords[6 * k + 4] = second(s, i, 37);
    coords[6 * k + 5] = second(s, i, 45);
}

fn write_pieces(s: &[u8], kinds: &mut [u8], faces: &mut [u32], coords: &mut [f64])
    requires { (12 ≤ length s.now) × ((is_job (after_pieces s.now (piece_count_in s.now) (pieces_from s.now)) ≡ true) ×
        ((piece_count_in s.now ≤ length kinds.old) × ((piece_count_in s.now ≤ length faces.old) × (6 * piece_count_in s.now ≤ length coords.old)))) }
    ensures { (kinds.new ≡ put_in_front (job_in s.now).kinds kinds.old) ×
        ((faces.new ≡ put_in_front (job_in s.now).faces faces.old) × (coords.new ≡ put_in_front (job_in s.now).coords coords.old)) }
{
    let n = count(s, 8);
    let mut at = pieces_from(s);
    for k in 0..n {
        let kind = s[at];
        kinds[k] = kind;
        faces[k] = number_at(s, at + 1);
        write_coords(s, at, k, coords);
        at += piece_size(kind);
    }
}

// Reads a slip: its job to the fronts of the slices, where there is room for it. Refused, it writes nothing.
pub fn read(
    s: &[u8],
    vertices: &mut [f64],
    triangles: &mut [u32],
    flags: &mut [u8],
    kinds: &mut [u8],
    faces: &mut [u32],
    coords: &mut [f64],
) -> Result<SlipJob, SlipRefusal>
    ensures { (result, job_rows vertices.new triangles.new flags.new kinds.new faces.new coords.new) ≡ reading s.now
        (job_rows vertices.old triangles.old flags.old kinds.old faces.old coords.old) }
{
    let vertex_room = least(vertices.len() / 3, flags.len());
    let piece_room = least(kinds.len(), least(faces.len(), coords.len() / 6));
    let job = check(s, vertex_room, triangles.len() / 3, piece_room)?;
    write_mesh(s, vertices, triangles, flags);
    write_pieces(s, kinds, faces, coords);
    Ok(job)
}
