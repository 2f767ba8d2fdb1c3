// A mesh's topology in six buffers that a caller lends: the checks of its job, then the edge table, the faces round each vertex, and the frames.
#![tactic(auto)]

ghost use Rattle.std.specs.Prelude.{◌≡◌, ◌≤◌, min, length};
ghost use Rattle.buffers.specs.Lent.{given, left};
ghost use Rattle.job_checks.specs.Job.{job};
ghost use Rattle.mesh.specs.declared.Refusal.TheVariants.{Job, ThirdFace};
ghost use Rattle.mesh.specs.Topology.{before, after, Fits, Completed, MadeTopology};
ghost use Rattle.mesh.specs.Answer.{meshed_number, counts_of, Answered};

use buffers::{zero_f64, zero_u32};
use edge_table::ThirdFace;
pub use frames as of_frames;
use job_checks::BufferCounts;
use layout::{
    REALS_PER_EDGE, REALS_PER_TRIANGLE, WORDS_PER_EDGE, WORDS_PER_ROUND, WORDS_PER_TRIANGLE,
    WORDS_PER_VERTEX,
};

// How many slots the slices have that a job needs beside those of the mesh: the distances of vertices, two f64 each, count with the words of vertices. And how
// many windows there is a slot for.
#[derive(Clone, Copy)]
pub struct OtherCounts {
    pub vertex_reals: u32,
    pub pieces: u32,
    pub windows: u32,
    pub scratch: u32,
    pub other_scratch: u32,
}

// What a mesh is refused for: `meshed_number` of specs/ gives each case its number.
#[derive(Clone, Copy, Debug, PartialEq, Eq)]
pub enum Refusal {
    Job(job_checks::Refusal),
    ThirdFace,
}

impl From<job_checks::Refusal> for Refusal {
    ghost from_gives = { λ refusal e. e ≡ Job refusal };

    fn from(refusal: job_checks::Refusal) -> Refusal {
        Refusal::Job(refusal)
    }
}

impl From<ThirdFace> for Refusal {
    ghost from_gives = { λ _ e. e ≡ ThirdFace };

    fn from(_third_face: ThirdFace) -> Refusal {
        Refusal::ThirdFace
    }
}

// The answer's number in document 01, 0 where the mesh is not refused.
pub fn refusal_number(meshed: Result<u32, Refusal>) -> u32
    ensures { result ≡ meshed_number meshed }
{
    match meshed {
        Ok(_) => 0,
        Err(Refusal::Job(refusal)) => job_checks::refusal_number(Err(refusal)),
        Err(Refusal::ThirdFace) => 10,
    }
}

// What is computed from a table of `edges` edges, the flags and the faces round each vertex, lengths and normals.
fn complete(
    vertices: &[f64],
    triangles: &[u32],
    flags: &[u8],
    edges: u32,
    vertex_words: &mut [u32],
    edge_words: &[u32],
    edge_reals: &mut [f64],
    round: &mut [u32],
    triangle_words: &[u32],
    triangle_reals: &mut [f64],
)
    requires { Fits vertices.now triangles.now (length vertex_words.old) (length edge_words.now)
        (length edge_reals.old) (length round.old) (length triangle_words.now) (length triangle_reals.old) × (edges ≤ length triangles.now) }
    ensures { Completed vertices.now triangles.now flags.now edges edge_words.now triangle_words.now
        (given vertex_words) (given edge_reals) (given round) (given triangle_reals)
        (left vertex_words) (left edge_reals) (left round) (left triangle_reals) }
{
    let vertex_count = (vertices.len() / 3) as u32;
    zero_u32(vertex_words);
    vertex_faces::store_flags(flags, vertex_words, vertex_count);
    vertex_faces::build(triangles, vertex_words, vertex_count, round);
    frames::lengths(vertices, edge_words, edges, edge_reals);
    frames::normals(
        vertices,
        triangles,
        triangle_words,
        edge_reals,
        triangle_reals,
    );
}

// The topology of a mesh that passed the checks: how many edges it has. Or refusal 10 and every buffer zero.
pub fn topology(
    vertices: &[f64],
    triangles: &[u32],
    flags: &[u8],
    vertex_words: &mut [u32],
    edge_words: &mut [u32],
    edge_reals: &mut [f64],
    round: &mut [u32],
    triangle_words: &mut [u32],
    triangle_reals: &mut [f64],
) -> Result<u32, ThirdFace>
    requires { Fits vertices.now triangles.now (length vertex_words.old) (length edge_words.old)
        (length edge_reals.old) (length round.old) (length triangle_words.old) (length triangle_reals.old) }
    ensures { MadeTopology vertices.now triangles.now flags.now result
        (before vertex_words edge_words edge_reals round triangle_words triangle_reals)
        (after vertex_words edge_words edge_reals round triangle_words triangle_reals) }
{
    // the heads of the table's buckets are no longer wanted where the faces round each vertex are listed
    match edge_table::build(triangles, round, edge_words, triangle_words) {
        Err(third_face) => {
            zero_u32(vertex_words);
            zero_f64(edge_reals);
            zero_f64(triangle_reals);
            Err(third_face)
        }
        Ok(edges) => {
            complete(
                vertices,
                triangles,
                flags,
                edges,
                vertex_words,
                edge_words,
                edge_reals,
                round,
                triangle_words,
                triangle_reals,
            );
            Ok(edges)
        }
    }
}

fn fewer(a: u32, b: u32) -> u32
    ensures { result ≡ min a b }
{
    if a <= b { a } else { b }
}

// How many slots a job's buffers have, of which those of the mesh have slices of these lengths.
fn buffer_counts(
    vertex_words: usize,
    edge_words: usize,
    edge_reals: usize,
    round: usize,
    triangle_words: usize,
    triangle_reals: usize,
    others: OtherCounts,
) -> BufferCounts
    ensures { result ≡ counts_of vertex_words edge_words edge_reals round triangle_words triangle_reals others }
{
    BufferCounts {
        vertices: fewer(
            buffers::slots(vertex_words, WORDS_PER_VERTEX),
            others.vertex_reals,
        ),
        edges: buffers::count(edge_words, WORDS_PER_EDGE, edge_reals, REALS_PER_EDGE),
        vertex_faces: buffers::slots(round, WORDS_PER_ROUND),
        triangles: buffers::count(
            triangle_words,
            WORDS_PER_TRIANGLE,
            triangle_reals,
            REALS_PER_TRIANGLE,
        ),
        pieces: others.pieces,
        windows: others.windows,
        scratch: others.scratch,
        other_scratch: others.other_scratch,
    }
}

// Any job: the first of the refusals 1 to 10 that holds, if any, or the topology of its mesh, and how many edges it has.
pub fn build(
    vertices: &[f64],
    triangles: &[u32],
    flags: &[u8],
    kinds: &[u8],
    faces: &[u32],
    coords: &[f64],
    limit: f64,
    others: OtherCounts,
    vertex_words: &mut [u32],
    edge_words: &mut [u32],
    edge_reals: &mut [f64],
    round: &mut [u32],
    triangle_words: &mut [u32],
    triangle_reals: &mut [f64],
) -> Result<u32, Refusal>
    ensures { Answered
        (job vertices.now triangles.now flags.now kinds.now faces.now coords.now limit)
        others result
        (before vertex_words edge_words edge_reals round triangle_words triangle_reals)
        (after vertex_words edge_words edge_reals round triangle_words triangle_reals) }
{
    let counts = buffer_counts(
        vertex_words.len(),
        edge_words.len(),
        edge_reals.len(),
        round.len(),
        triangle_words.len(),
        triangle_reals.len(),
        others,
    );
    job_checks::check(
        vertices, triangles, flags, kinds, faces, coords, limit, counts,
    )?;
    let edges = topology(
        vertices,
        triangles,
        flags,
        vertex_words,
        edge_words,
        edge_reals,
        round,
        triangle_words,
        triangle_reals,
    )?;
    Ok(edges)
}
