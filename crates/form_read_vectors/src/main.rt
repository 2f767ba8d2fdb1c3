// Replays stored slips of both forms that are read: how many there are, and how many are read otherwise. Compared are the answer, what is told of the job and every
// element of the lent slices. oracle/README.md has the format; tests/moves/make_vectors.sh makes the file.
#![tactic(auto)]

ghost use Rattle.std.specs.Prelude.{◌<◌};

use form_read::{ReadRefusal, answer_number};
use groups::Form;
use slip::SlipJob;
use std::io;
use stored_bytes::holds_bytes;
use stored_numbers::{all_f64, all_u32, count, double, number, replay_records};
use stored_slots::{start_at, visit_f64, visit_u32};
use vectors::{Tally, pattern};

fn form_of(number: u32) -> Form {
    if number == 1 {
        return Form::Plain;
    }
    Form::Groups
}

// Whether what is told of a job is what the record at number k says, its limit at number `at`.
fn is_told(s: &[u8], k: usize, at: usize, job: SlipJob) -> bool
    requires { (k < 500_000) × (at < 1_000_000) }
{
    if job.vertices != number(s, k + 7) {
        return false;
    }
    if job.triangles != number(s, k + 8) {
        return false;
    }
    if job.pieces != number(s, k + 9) {
        return false;
    }
    if pattern(job.limit) != pattern(double(s, at)) {
        return false;
    }
    true
}

fn is_answered(s: &[u8], k: usize, at: usize, answer: Result<SlipJob, ReadRefusal>) -> bool
    requires { (k < 500_000) × (at < 1_000_000) }
{
    if answer_number(answer) != number(s, k + 2) {
        return false;
    }
    match answer {
        Ok(job) => is_told(s, k, at, job),
        Err(_) => true,
    }
}

// Whether the vertices, triangles and flags from number `at` on are those of the slices, which hold 7 behind them.
fn holds_mesh(
    s: &[u8],
    at: usize,
    vertices: &[f64],
    triangles: &[u32],
    flags: &[u8],
    v: usize,
    t: usize,
) -> bool
    requires { (at < 1_000_000) × ((v < 1_000_000) × (t < 1_000_000)) }
{
    let flags_at = 4 * (at + 6 * v + 3 * t);
    let mut w = start_at(at);
    w = visit_f64(s, 1, w, vertices, 3, v as u32);
    w = visit_u32(s, 1, w, triangles, 3, t as u32, 3);
    let walk = w.walk;
    if !walk.same {
        return false;
    }
    if !all_f64(vertices, 3 * v, 7.0) {
        return false;
    }
    if !all_u32(triangles, 3 * t, 7) {
        return false;
    }
    holds_bytes(s, flags_at, flags, v)
}

// The same of the pieces.
fn holds_pieces(s: &[u8], at: usize, kinds: &[u8], faces: &[u32], coords: &[f64], p: usize) -> bool
    requires { (at < 1_000_000) × (p < 1_000_000) }
{
    let mut w = start_at(at + (p + 3) / 4);
    w = visit_u32(s, 1, w, faces, 1, p as u32, 1);
    w = visit_f64(s, 1, w, coords, 6, p as u32);
    let walk = w.walk;
    if !walk.same {
        return false;
    }
    if !all_u32(faces, p, 7) {
        return false;
    }
    if !all_f64(coords, 6 * p, 7.0) {
        return false;
    }
    holds_bytes(s, 4 * at, kinds, p)
}

// Whether the answer and the slices are those of the record at number k.
fn holds_job(
    s: &[u8],
    k: usize,
    answer: Result<SlipJob, ReadRefusal>,
    vertices: &[f64],
    triangles: &[u32],
    flags: &[u8],
    kinds: &[u8],
    faces: &[u32],
    coords: &[f64],
) -> bool
    requires { k < 500_000 }
{
    let bytes = count(s, k + 3, 2_000);
    let v = count(s, k + 7, 32);
    let t = count(s, k + 8, 32);
    let p = count(s, k + 9, 16);
    let mesh_at = k + 10 + (bytes + 3) / 4;
    let pieces_at = mesh_at + 6 * v + 3 * t + (v + 3) / 4;
    if !is_answered(s, k, pieces_at + (p + 3) / 4 + 13 * p, answer) {
        return false;
    }
    if !holds_mesh(s, mesh_at, vertices, triangles, flags, v, t) {
        return false;
    }
    holds_pieces(s, pieces_at, kinds, faces, coords, p)
}

// Whether the slip of the record at number k is read as stored, into slices that hold 7.
fn reads_into(
    s: &[u8],
    k: usize,
    vertices: &mut [f64],
    triangles: &mut [u32],
    flags: &mut [u8],
    kinds: &mut [u8],
    faces: &mut [u32],
    coords: &mut [f64],
) -> bool
    requires { k < 500_000 }
{
    let form = form_of(number(s, k + 1));
    let from = 4 * (k + 10);
    let end = from + count(s, k + 3, 2_000);
    if s.len() < end {
        return false;
    }
    let answer = form_read::read(
        form,
        &s[from..end],
        vertices,
        triangles,
        flags,
        kinds,
        faces,
        coords,
    );
    holds_job(
        s, k, answer, vertices, triangles, flags, kinds, faces, coords,
    )
}

fn is_read(s: &[u8], k: usize) -> bool
    requires { k < 500_000 }
{
    let mut vertices = [7.0f64; 96];
    let mut triangles = [7u32; 96];
    let mut flags = [7u8; 32];
    let mut kinds = [7u8; 16];
    let mut faces = [7u32; 16];
    let mut coords = [7.0f64; 96];
    let v = count(s, k + 4, 32);
    let t = count(s, k + 5, 32);
    let p = count(s, k + 6, 16);
    let nv = 3 * v;
    let nt = 3 * t;
    let np = 6 * p;
    reads_into(
        s,
        k,
        &mut vertices[..nv],
        &mut triangles[..nt],
        &mut flags[..v],
        &mut kinds[..p],
        &mut faces[..p],
        &mut coords[..np],
    )
}

fn replay(s: &[u8]) -> Tally {
    replay_records(s, 0, |k| is_read(s, k))
}

fn main(rt: HostRuntime) -> io::Result<()> {
    vectors::replay_file::<262144, _>(&rt, "reads", replay)
}
