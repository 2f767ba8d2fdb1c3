// Replays stored STL files and meshes: how many there are, and how many are read or written otherwise. Compared are the answer, the mesh or the file, and that no
// other element of the lent slices changed. tests/stl/make_vectors.py has the format and makes the files.
#![tactic(auto)]

ghost use Rattle.std.specs.Prelude.{◌<◌};

use std::io;
use stl_format::stl_number;
use stored_bytes::holds_bytes;
use stored_numbers::{all_f64, all_u32, count, number, read_doubles, read_numbers, replay_records};
use stored_slots::{start_at, visit_f64, visit_u32};
use vectors::Tally;

// Whether the lists at number `at` are those of the slices, which hold 7 behind them.
fn holds_mesh(s: &[u8], at: usize, vertices: &[f64], triangles: &[u32], v: usize, t: usize) -> bool
    requires { (at < 1_000_000) × ((v < 1_000_000) × (t < 1_000_000)) }
{
    let mut w = start_at(at);
    w = visit_f64(s, 1, w, vertices, 3, v as u32);
    w = visit_u32(s, 1, w, triangles, 3, t as u32, 3);
    let walk = w.walk;
    if !walk.same {
        return false;
    }
    if !all_f64(vertices, 3 * v, 7.0) {
        return false;
    }
    all_u32(triangles, 3 * t, 7)
}

// Whether the file of the record at number k is read as stored, into slices that hold 7.
fn reads_into(s: &[u8], k: usize, vertices: &mut [f64], triangles: &mut [u32]) -> bool
    requires { k < 500_000 }
{
    let bytes = count(s, k + 2, 20_000);
    let from = 4 * (k + 7);
    let end = from + bytes;
    if s.len() < end {
        return false;
    }
    let answer = stl::read(&s[from..end], vertices, triangles);
    if stl_number(answer) != number(s, k + 1) {
        return false;
    }
    let v = count(s, k + 5, 200);
    let t = count(s, k + 6, 200);
    holds_mesh(s, k + 7 + (bytes + 3) / 4, vertices, triangles, v, t)
}

fn is_read(s: &[u8], k: usize) -> bool
    requires { k < 500_000 }
{
    let mut vertices = [7.0f64; 600];
    let mut triangles = [7u32; 600];
    let nv = count(s, k + 3, 600);
    let nt = count(s, k + 4, 600);
    reads_into(s, k, &mut vertices[..nv], &mut triangles[..nt])
}

// Whether the mesh of the record at number k is written as stored, into bytes that are 7; its file stands from number `at` on.
fn writes_into(
    s: &[u8],
    k: usize,
    at: usize,
    vertices: &[f64],
    triangles: &[u32],
    out: &mut [u8],
) -> bool
    requires { (k < 500_000) × (at < 1_000_000) }
{
    let answer = stl::write(vertices, triangles, out);
    if stl_number(answer) != number(s, k + 1) {
        return false;
    }
    holds_bytes(s, 4 * at, out, count(s, k + 5, 2000))
}

fn is_written(s: &[u8], k: usize) -> bool
    requires { k < 500_000 }
{
    let mut vertices = [0.0f64; 200];
    let mut triangles = [0u32; 200];
    let mut out = [7u8; 2000];
    let nv = count(s, k + 2, 200);
    let nt = count(s, k + 3, 200);
    let lent = count(s, k + 4, 2000);
    let at = k + 6 + 2 * nv;
    read_doubles(s, k + 6, &mut vertices);
    read_numbers(s, at, &mut triangles);
    let v = &vertices[..nv];
    let t = &triangles[..nt];
    writes_into(s, k, at + nt, v, t, &mut out[..lent])
}

fn replay_read(s: &[u8]) -> Tally {
    replay_records(s, 0, |k| is_read(s, k))
}

fn replay_written(s: &[u8]) -> Tally {
    replay_records(s, 0, |k| is_written(s, k))
}

fn main(rt: HostRuntime) -> io::Result<()> {
    vectors::replay_file::<524288, _>(&rt, "read", replay_read)?;
    vectors::replay_file::<524288, _>(&rt, "write", replay_written)
}
