// The topology of a mesh for programs in C and Rust, in buffers that they lend: a job with no pieces, limit 0 and no windows.
#![tactic(auto)]

ghost use Rattle.std.specs.Prelude.{◌≡◌};
ghost use Rattle.job_checks.specs.Refusals.{refusal_of};
ghost use Rattle.mesh.specs.Topology.{before, after};
ghost use Rattle.mesh_c.specs.Exports.{mesh_alone, plenty, PackedAnswer};

use job_checks::BufferCounts;
use mesh::OtherCounts;

// The first of the refusals 1 to 5 that holds, or 0: the other four are about pieces, a limit and buffers.
#[unsafe(no_mangle)]
pub extern "C" fn sirmolaat_mesh_check(vertices: &[f64], triangles: &[u32], flags: &[u8]) -> u32
    ensures { result ≡ refusal_of (mesh_alone vertices.now triangles.now flags.now) plenty }
{
    let checked = job_checks::check(
        vertices,
        triangles,
        flags,
        &flags[..0],
        &triangles[..0],
        &vertices[..0],
        0.0,
        BufferCounts {
            vertices: 65_535,
            edges: 393_210,
            vertex_faces: 393_210,
            triangles: 131_070,
            pieces: 0,
            windows: 0,
            scratch: 0,
            other_scratch: 0,
        },
    );
    job_checks::refusal_number(checked)
}

// A refusal in the upper 32 bits, or else the number of edges.
#[unsafe(no_mangle)]
pub extern "C" fn sirmolaat_mesh_build(
    vertices: &[f64],
    triangles: &[u32],
    flags: &[u8],
    vertex_words: &mut [u32],
    edge_words: &mut [u32],
    edge_reals: &mut [f64],
    round: &mut [u32],
    triangle_words: &mut [u32],
    triangle_reals: &mut [f64],
) -> u64
    ensures { PackedAnswer (mesh_alone vertices.now triangles.now flags.now) result
        (before vertex_words edge_words edge_reals round triangle_words triangle_reals)
        (after vertex_words edge_words edge_reals round triangle_words triangle_reals) }
{
    let meshed = mesh::build(
        vertices,
        triangles,
        flags,
        &flags[..0],
        &triangles[..0],
        &vertices[..0],
        0.0,
        OtherCounts {
            vertex_reals: 65_535,
            pieces: 0,
            windows: 0,
            scratch: 0,
            other_scratch: 0,
        },
        vertex_words,
        edge_words,
        edge_reals,
        round,
        triangle_words,
        triangle_reals,
    );
    match meshed {
        Ok(edges) => edges as u64,
        Err(_) => 4_294_967_296 * (mesh::refusal_number(meshed) as u64),
    }
}
