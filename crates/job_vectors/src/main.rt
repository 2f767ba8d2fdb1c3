// Replays stored jobs through the checks: how many there are, and how many get another refusal than the stored one. tests/jobs/make_jobs.py makes the files.
#![tactic(auto)]

ghost use Rattle.std.specs.Prelude.{◌<◌};

use job_checks::BufferCounts;
use std::io;
use stored_jobs::{load_mesh, load_pieces};
use stored_numbers::{count, double, number, replay_records};
use vectors::Tally;

// How many slots the job at number k says that each buffer has.
fn buffers(s: &[u8], k: usize) -> BufferCounts
    requires { k < 500_000 }
{
    BufferCounts {
        vertices: number(s, k + 9),
        edges: number(s, k + 10),
        vertex_faces: number(s, k + 11),
        triangles: number(s, k + 12),
        pieces: number(s, k + 13),
        windows: number(s, k + 14),
        scratch: number(s, k + 15),
        other_scratch: number(s, k + 16),
    }
}

// The refusal that the job at number k gets, whose lists stand at the fronts of the slices.
fn refusal_of(
    s: &[u8],
    k: usize,
    vertices: &[f64],
    triangles: &[u32],
    flags: &[u8],
    kinds: &[u8],
    faces: &[u32],
    coords: &[f64],
) -> u32
    requires { k < 500_000 }
{
    let limit = double(s, k + 17);
    let lent = buffers(s, k);
    let nv = count(s, k + 3, vertices.len());
    let v = &vertices[..nv];
    let nt = count(s, k + 4, triangles.len());
    let t = &triangles[..nt];
    let nf = count(s, k + 5, flags.len());
    let f = &flags[..nf];
    let nk = count(s, k + 6, kinds.len());
    let i = &kinds[..nk];
    let nn = count(s, k + 7, faces.len());
    let n = &faces[..nn];
    let nc = count(s, k + 8, coords.len());
    let c = &coords[..nc];
    job_checks::refusal_number(job_checks::check(v, t, f, i, n, c, limit, lent))
}

// The same, read from the file.
fn refusal(s: &[u8], k: usize) -> u32
    requires { k < 500_000 }
{
    let mut vertices = [0.0f64; 192];
    let mut triangles = [0u32; 96];
    let mut flags = [0u8; 64];
    let mut kinds = [0u8; 64];
    let mut faces = [0u32; 96];
    let mut coords = [0.0f64; 192];
    load_mesh(s, k, &mut vertices, &mut triangles, &mut flags);
    load_pieces(s, k, &mut kinds, &mut faces, &mut coords);
    refusal_of(s, k, &vertices, &triangles, &flags, &kinds, &faces, &coords)
}

fn replay(s: &[u8]) -> Tally {
    replay_records(s, 2, |k| refusal(s, k) == number(s, k))
}

fn main(rt: HostRuntime) -> io::Result<()> {
    vectors::replay_file::<524288, _>(&rt, "jobs", replay)?;
    vectors::replay_file::<524288, _>(&rt, "meshes", replay)
}
