// Reading a slip in the form that the reader is told: its job to the fronts of six slices. All is checked before anything is written.
#![tactic(auto)]

ghost use Rattle.std.specs.Prelude.{◌≡◌, true, ◌+◌, ◌*◌, ◌≤◌, ◌<◌, length, get_or, Ok};
ghost use Rattle.buffers.specs.Slots.{fill};
ghost use Rattle.little_endian.specs.Bytes.{doubles_from, bytes_from, put_in_front};
ghost use Rattle.groups.specs.declared.Form.TheVariants.{Plain, Groups};
ghost use Rattle.slip.specs.Reading.{job_rows};
ghost use Rattle.slip_moves.specs.Moves.{form_head_at};
ghost use Rattle.form_read.specs.declared.ReadRefusal.TheVariants.{Slip};
ghost use Rattle.form_read.specs.Places.{value_read, place_behind, number_place, numbers_in, second_in, ends_in, kinds_from, faces_from, coords_from, flags_place, first_piece};
ghost use Rattle.form_read.specs.FormReading.{read_refusal_number, answer_number, slip_refusal, counts_exceed, passed_answer, groups_answer, job_written, groups_reading, form_reading};
ghost use Rattle.form_read.specs.There.{MeshThere, PieceThere, PiecesThere, JobThere};

use groups::{Form, NumberRefusal, read_number};
use little_endian::{double_at, read_bytes, read_doubles};
use slip::{SlipJob, SlipRefusal, least};
use slip_moves::{MoveRefusal, Refusal, ends_size, move_slip, read_head};

// Why a slip is not read: it is refused as a move of it is, or there is too little room for its counts.
#[derive(Clone, Copy, PartialEq, Eq, Debug)]
pub enum ReadRefusal {
    Slip(Refusal),
    TooMany,
}

impl From<Refusal> for ReadRefusal {
    ghost from_gives = { λ why refusal. refusal ≡ Slip why };

    fn from(why: Refusal) -> ReadRefusal {
        ReadRefusal::Slip(why)
    }
}

impl From<SlipRefusal> for ReadRefusal {
    ghost from_gives = { λ why refusal. refusal ≡ slip_refusal why };

    fn from(why: SlipRefusal) -> ReadRefusal {
        match why {
            SlipRefusal::TooShort => ReadRefusal::Slip(Refusal::TooShort),
            SlipRefusal::LeftOver => ReadRefusal::Slip(Refusal::LeftOver),
            SlipRefusal::UnknownKind => ReadRefusal::Slip(Refusal::UnknownKind),
            SlipRefusal::TooMany => ReadRefusal::TooMany,
        }
    }
}

// The number of a refusal in documents 01 and 02.
pub fn refusal_number(refusal: ReadRefusal) -> u32
    ensures { result ≡ read_refusal_number refusal }
{
    match refusal {
        ReadRefusal::Slip(why) => slip_moves::refusal_number(why),
        ReadRefusal::TooMany => 33,
    }
}

// The same of an answer: 0 of a job.
pub fn answer_number(answer: Result<SlipJob, ReadRefusal>) -> u32
    ensures { result ≡ answer_number answer }
{
    match answer {
        Ok(_) => 0,
        Err(why) => refusal_number(why),
    }
}

fn value(number: Result<(usize, usize), NumberRefusal>) -> usize
    ensures { result ≡ value_read number }
{
    match number {
        Ok((n, _)) => n,
        Err(_) => 0,
    }
}

fn behind(number: Result<(usize, usize), NumberRefusal>) -> usize
    ensures { result ≡ place_behind number }
{
    match number {
        Ok((_, next)) => next,
        Err(_) => 0,
    }
}

// ---- the check

fn is_exceeded(
    v: usize,
    t: usize,
    p: usize,
    vertices: usize,
    triangles: usize,
    pieces: usize,
) -> bool
    ensures { result ≡ counts_exceed v t p vertices triangles pieces }
{
    if vertices < v {
        return true;
    }
    if triangles < t {
        return true;
    }
    if pieces < p {
        return true;
    }
    false
}

fn job(s: &[u8], v: usize, t: usize, p: usize) -> SlipJob
    requires { (8 ≤ length s.now) × ((v < 4_294_967_296) × ((t < 4_294_967_296) × (p < 4_294_967_296))) }
    ensures { Ok result ≡ passed_answer s.now v t p }
{
    SlipJob {
        vertices: v as u32,
        triangles: t as u32,
        pieces: p as u32,
        limit: double_at(s, s.len() - 8),
    }
}

// What reading answers where there is room for so many vertices, triangles and pieces.
fn check(s: &[u8], vertices: usize, triangles: usize, pieces: usize) -> Result<SlipJob, ReadRefusal>
    ensures { result ≡ groups_answer s.now vertices triangles pieces }
{
    let head = read_head(Form::Groups, s)?;
    let (v, t, p) = (head.vertices, head.triangles, head.pieces);
    if is_exceeded(v, t, p, vertices, triangles, pieces) {
        return Err(ReadRefusal::TooMany);
    }
    let mut none = [0u8; 1];
    match move_slip(Form::Groups, Form::Plain, s, &mut none) {
        Ok(_) => Ok(job(s, v, t, p)),
        Err(MoveRefusal::NoRoom(_)) => Ok(job(s, v, t, p)),
        Err(MoveRefusal::Slip(why)) => Err(ReadRefusal::Slip(why)),
    }
}

// ---- the job

// n numbers from byte i on, to the front of a slice: answers the place behind them.
fn write_numbers(s: &[u8], i: usize, n: usize, to: &mut [u32]) -> usize
    requires { (i < 1_000_000_000_000_000_000) × ((n < 100_000_000_000) × (n ≤ length to.old)) }
    ensures { (to.new ≡ put_in_front (numbers_in s.now i n) to.old) × (result ≡ number_place s.now i n) }
{
    let mut at = i;
    for k in 0..n {
        let number = read_number(Form::Groups, s, at);
        to[k] = value(number) as u32;
        at = behind(number);
    }
    at
}

fn write_mesh(
    s: &[u8],
    i: usize,
    v: usize,
    t: usize,
    vertices: &mut [f64],
    triangles: &mut [u32],
    flags: &mut [u8],
) -> usize
    requires { MeshThere s.now i v t (length vertices.old) (length triangles.old) (length flags.old) }
    ensures { (vertices.new ≡ put_in_front (doubles_from s.now i (3 * v)) vertices.old)
        × ((triangles.new ≡ put_in_front (numbers_in s.now (i + 24 * v) (3 * t)) triangles.old)
        × ((flags.new ≡ put_in_front (bytes_from s.now (flags_place s.now v t i) v) flags.old) × (result ≡ first_piece s.now v t i))) }
{
    read_doubles(s, i, 3 * v, vertices);
    let from = write_numbers(s, i + 24 * v, 3 * t, triangles);
    read_bytes(s, from, v, flags);
    from + v
}

// The double k bytes behind the start of the ends of the piece at byte i, 0 of a point.
fn second(s: &[u8], i: usize, e: usize, k: usize) -> f64
    requires { PieceThere s.now i e × (k ≤ 40) }
    ensures { result ≡ second_in s.now i k }
{
    if s[i] == 0 {
        return 0.0;
    }
    double_at(s, e + k)
}

// The coordinates of the piece at byte i, to place k.
fn write_coords(s: &[u8], i: usize, e: usize, k: usize, coords: &mut [f64])
    requires { PieceThere s.now i e × (6 * k + 6 ≤ length coords.old) }
    ensures { coords.new ≡ fill 6 coords.old k 0 (ends_in s.now i) }
{
    coords[6 * k] = double_at(s, e);
    coords[6 * k + 1] = double_at(s, e + 8);
    coords[6 * k + 2] = double_at(s, e + 16);
    coords[6 * k + 3] = second(s, i, e, 24);
    coords[6 * k + 4] = second(s, i, e, 32);
    coords[6 * k + 5] = second(s, i, e, 40);
}

fn write_pieces(
    s: &[u8],
    from: usize,
    n: usize,
    kinds: &mut [u8],
    faces: &mut [u32],
    coords: &mut [f64],
)
    requires { PiecesThere s.now from n (length kinds.old) (length faces.old) (length coords.old) }
    ensures { (kinds.new ≡ put_in_front (kinds_from s.now from n) kinds.old)
        × ((faces.new ≡ put_in_front (faces_from s.now from n) faces.old) × (coords.new ≡ put_in_front (coords_from s.now from n) coords.old)) }
{
    let mut at = from;
    for k in 0..n {
        let kind = s[at];
        let number = read_number(Form::Groups, s, at + 1);
        let e = behind(number);
        kinds[k] = kind;
        faces[k] = value(number) as u32;
        write_coords(s, at, e, k, coords);
        at = e + ends_size(kind);
    }
}

// The job of a slip that was checked.
fn write_job(
    s: &[u8],
    vertices: &mut [f64],
    triangles: &mut [u32],
    flags: &mut [u8],
    kinds: &mut [u8],
    faces: &mut [u32],
    coords: &mut [f64],
)
    requires { JobThere s.now (job_rows vertices.old triangles.old flags.old kinds.old faces.old coords.old) }
    ensures { job_rows vertices.new triangles.new flags.new kinds.new faces.new coords.new
        ≡ job_written s.now (form_head_at Groups s.now) (job_rows vertices.old triangles.old flags.old kinds.old faces.old coords.old) }
{
    if let Ok(head) = read_head(Form::Groups, s) {
        let at = write_mesh(
            s,
            head.next,
            head.vertices,
            head.triangles,
            vertices,
            triangles,
            flags,
        );
        write_pieces(s, at, head.pieces, kinds, faces, coords);
    }
}

fn read_groups(
    s: &[u8],
    vertices: &mut [f64],
    triangles: &mut [u32],
    flags: &mut [u8],
    kinds: &mut [u8],
    faces: &mut [u32],
    coords: &mut [f64],
) -> Result<SlipJob, ReadRefusal>
    ensures { (result, job_rows vertices.new triangles.new flags.new kinds.new faces.new coords.new)
        ≡ groups_reading s.now (job_rows vertices.old triangles.old flags.old kinds.old faces.old coords.old) }
{
    let vertex_room = least(vertices.len() / 3, flags.len());
    let piece_room = least(kinds.len(), least(faces.len(), coords.len() / 6));
    let job = check(s, vertex_room, triangles.len() / 3, piece_room)?;
    write_job(s, vertices, triangles, flags, kinds, faces, coords);
    Ok(job)
}

// Reads a slip in a form: its job to the fronts of the slices, where there is room for it. Refused, it writes nothing.
pub fn read(
    form: Form,
    s: &[u8],
    vertices: &mut [f64],
    triangles: &mut [u32],
    flags: &mut [u8],
    kinds: &mut [u8],
    faces: &mut [u32],
    coords: &mut [f64],
) -> Result<SlipJob, ReadRefusal>
    ensures { (result, job_rows vertices.new triangles.new flags.new kinds.new faces.new coords.new)
        ≡ form_reading form s.now (job_rows vertices.old triangles.old flags.old kinds.old faces.old coords.old) }
{
    match form {
        Form::Plain => Ok(slip::read(s, vertices, triangles, flags, kinds, faces, coords)?),
        Form::Groups => read_groups(s, vertices, triangles, flags, kinds, faces, coords),
    }
}
