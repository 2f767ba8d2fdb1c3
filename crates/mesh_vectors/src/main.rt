// Replays stored meshes through the checks and the topology: how many there are, and how many are answered otherwise. Compared are the refusal, every number
// of the topology, and what is left in the buffers. tests/mesh/make_vectors.py has the format and makes the files.
#![tactic(auto)]

ghost use Rattle.std.specs.Prelude.{◌<◌};

use buffers::read_u32;
use layout::{
    REALS_PER_EDGE, REALS_PER_TRIANGLE, ROUND_FACE, VERTEX_END, VERTEX_START, WORDS_PER_EDGE,
    WORDS_PER_ROUND, WORDS_PER_TRIANGLE, WORDS_PER_VERTEX,
};
use mesh::{OtherCounts, Refusal};
use std::io;
use stored_jobs::{list_places, load_mesh, load_pieces};
use stored_numbers::{all_f64, all_u32, at_most, count, double, number, replay_records};
use stored_slots::{SummedWalk, broken, compare_or_sum, section, start_at, visit_f64, visit_u32};
use vectors::Tally;

// The faces from one place of their list up to another, their count first.
fn visit_faces(
    s: &[u8],
    detail: u32,
    w: SummedWalk,
    round: &[u32],
    start: u32,
    end: u32,
) -> SummedWalk {
    if end < start {
        return broken();
    }
    let mut now = compare_or_sum(s, detail, w, end - start);
    for i in start..end {
        now = compare_or_sum(
            s,
            detail,
            now,
            read_u32(round, WORDS_PER_ROUND, i, ROUND_FACE),
        );
    }
    now
}

// The faces round the first n vertices.
fn visit_faces_round(
    s: &[u8],
    detail: u32,
    w: SummedWalk,
    words: &[u32],
    round: &[u32],
    n: u32,
) -> SummedWalk {
    let mut now = w;
    for i in 0..n {
        now = visit_faces(
            s,
            detail,
            now,
            round,
            read_u32(words, WORDS_PER_VERTEX, i, VERTEX_START),
            read_u32(words, WORDS_PER_VERTEX, i, VERTEX_END),
        );
    }
    section(s, detail, now)
}

// The slots of the buffers that the topology does not touch, as the record at number k says.
fn other_counts(s: &[u8], k: usize) -> OtherCounts
    requires { k < 500_000 }
{
    OtherCounts {
        vertex_reals: number(s, k + 9),
        pieces: number(s, k + 13),
        windows: number(s, k + 14),
        scratch: number(s, k + 15),
        other_scratch: number(s, k + 16),
    }
}

// Whether the buffers all hold one number, as integers and as floats.
fn all_are(
    vertex_words: &[u32],
    edge_words: &[u32],
    edge_reals: &[f64],
    round: &[u32],
    triangle_words: &[u32],
    triangle_reals: &[f64],
    x: u32,
    y: f64,
) -> bool {
    if !all_u32(vertex_words, 0, x) {
        return false;
    }
    if !all_u32(edge_words, 0, x) {
        return false;
    }
    if !all_f64(edge_reals, 0, y) {
        return false;
    }
    if !all_u32(round, 0, x) {
        return false;
    }
    if !all_u32(triangle_words, 0, x) {
        return false;
    }
    all_f64(triangle_reals, 0, y)
}

// Whether what lies behind the edges, the sides and the triangles is zero.
fn tails_zero(
    edge_words: &[u32],
    edge_reals: &[f64],
    round: &[u32],
    triangle_words: &[u32],
    triangle_reals: &[f64],
    edges: u32,
    sides: u32,
) -> bool {
    if !all_u32(edge_words, 6 * (edges as usize), 0) {
        return false;
    }
    if !all_f64(edge_reals, 4 * (edges as usize), 0.0) {
        return false;
    }
    if !all_u32(round, sides as usize, 0) {
        return false;
    }
    if !all_u32(triangle_words, 2 * (sides as usize), 0) {
        return false;
    }
    all_f64(triangle_reals, 3 * (sides as usize), 0.0)
}

// Whether the topology in the buffers, of so many edges, is the one that the record at number k has.
fn same_topology(
    s: &[u8],
    k: usize,
    edges: u32,
    vertex_words: &[u32],
    edge_words: &[u32],
    edge_reals: &[f64],
    round: &[u32],
    triangle_words: &[u32],
    triangle_reals: &[f64],
) -> bool
    requires { k < 500_000 }
{
    let detail = number(s, k + 1);
    let vertices = (count(s, k + 3, 200_000) / 3) as u32;
    let sides = count(s, k + 4, 200_000) as u32;
    let triangles = sides / 3;
    let start = start_at(list_places(s, k).answer);
    let counted = compare_or_sum(s, 1, start, edges);
    let ends = visit_u32(s, detail, counted, edge_words, WORDS_PER_EDGE, edges, 4);
    let lengths = visit_f64(s, detail, ends, edge_reals, REALS_PER_EDGE, edges);
    let numbered = visit_u32(
        s,
        detail,
        lengths,
        triangle_words,
        WORDS_PER_TRIANGLE,
        triangles,
        3,
    );
    let normals = visit_f64(
        s,
        detail,
        numbered,
        triangle_reals,
        REALS_PER_TRIANGLE,
        triangles,
    );
    let last = visit_faces_round(s, detail, normals, vertex_words, round, vertices);
    let compared = last.walk;
    if compared.same {
        return tails_zero(
            edge_words,
            edge_reals,
            round,
            triangle_words,
            triangle_reals,
            edges,
            sides,
        );
    }
    false
}

// Whether an answer and the buffers, all 7 before, are what the record at number k says: 1 to 9 leave the buffers as they were, and 10 leaves them zero.
fn same_meshed(
    s: &[u8],
    k: usize,
    answer: Result<u32, Refusal>,
    vertex_words: &[u32],
    edge_words: &[u32],
    edge_reals: &[f64],
    round: &[u32],
    triangle_words: &[u32],
    triangle_reals: &[f64],
) -> bool
    requires { k < 500_000 }
{
    if mesh::refusal_number(answer) != number(s, k) {
        return false;
    }
    match answer {
        Ok(n) => {
            if number(s, k + 1) == 0 {
                return true;
            }
            same_topology(
                s,
                k,
                n,
                vertex_words,
                edge_words,
                edge_reals,
                round,
                triangle_words,
                triangle_reals,
            )
        }
        Err(Refusal::Job(_)) => all_are(
            vertex_words,
            edge_words,
            edge_reals,
            round,
            triangle_words,
            triangle_reals,
            7,
            7.0,
        ),
        Err(Refusal::ThirdFace) => all_are(
            vertex_words,
            edge_words,
            edge_reals,
            round,
            triangle_words,
            triangle_reals,
            0,
            0.0,
        ),
    }
}

// The answer to the record at number k, whose lists stand at the fronts of the slices.
fn build_record(
    s: &[u8],
    k: usize,
    vertices: &[f64],
    triangles: &[u32],
    flags: &[u8],
    kinds: &[u8],
    faces: &[u32],
    coords: &[f64],
    vertex_words: &mut [u32],
    edge_words: &mut [u32],
    edge_reals: &mut [f64],
    round: &mut [u32],
    triangle_words: &mut [u32],
    triangle_reals: &mut [f64],
) -> Result<u32, Refusal>
    requires { k < 500_000 }
{
    let limit = double(s, k + 17);
    let others = other_counts(s, k);
    let nv = count(s, k + 3, vertices.len());
    let v = &vertices[..nv];
    let nt = count(s, k + 4, triangles.len());
    let t = &triangles[..nt];
    let nf = count(s, k + 5, flags.len());
    let f = &flags[..nf];
    let nk = count(s, k + 6, kinds.len());
    let i = &kinds[..nk];
    let nn = count(s, k + 7, faces.len());
    let n = &faces[..nn];
    let nc = count(s, k + 8, coords.len());
    let c = &coords[..nc];
    mesh::build(
        v,
        t,
        f,
        i,
        n,
        c,
        limit,
        others,
        vertex_words,
        edge_words,
        edge_reals,
        round,
        triangle_words,
        triangle_reals,
    )
}

// Whether that is the stored answer, and the buffers are as they must be.
fn build_holds(
    s: &[u8],
    k: usize,
    vertices: &[f64],
    triangles: &[u32],
    flags: &[u8],
    kinds: &[u8],
    faces: &[u32],
    coords: &[f64],
    vertex_words: &mut [u32],
    edge_words: &mut [u32],
    edge_reals: &mut [f64],
    round: &mut [u32],
    triangle_words: &mut [u32],
    triangle_reals: &mut [f64],
) -> bool
    requires { k < 500_000 }
{
    let given = build_record(
        s,
        k,
        vertices,
        triangles,
        flags,
        kinds,
        faces,
        coords,
        vertex_words,
        edge_words,
        edge_reals,
        round,
        triangle_words,
        triangle_reals,
    );
    same_meshed(
        s,
        k,
        given,
        vertex_words,
        edge_words,
        edge_reals,
        round,
        triangle_words,
        triangle_reals,
    )
}

// The same, in buffers of the sizes that the record says, cut from longer ones.
fn build_holds_in(
    s: &[u8],
    k: usize,
    vertices: &[f64],
    triangles: &[u32],
    flags: &[u8],
    kinds: &[u8],
    faces: &[u32],
    coords: &[f64],
    vertex_words: &mut [u32],
    edge_words: &mut [u32],
    edge_reals: &mut [f64],
    round: &mut [u32],
    triangle_words: &mut [u32],
    triangle_reals: &mut [f64],
) -> bool
    requires { k < 400_000 }
{
    let edges = count(s, k + 10, 24000);
    let triangles_there = count(s, k + 12, 8000);
    let nv = at_most(3 * count(s, k + 9, 4096), vertex_words.len());
    let ne = at_most(6 * edges, edge_words.len());
    let nr = at_most(4 * edges, edge_reals.len());
    let nf = count(s, k + 11, round.len());
    let nt = at_most(6 * triangles_there, triangle_words.len());
    let nn = at_most(9 * triangles_there, triangle_reals.len());
    build_holds(
        s,
        k,
        vertices,
        triangles,
        flags,
        kinds,
        faces,
        coords,
        &mut vertex_words[..nv],
        &mut edge_words[..ne],
        &mut edge_reals[..nr],
        &mut round[..nf],
        &mut triangle_words[..nt],
        &mut triangle_reals[..nn],
    )
}

// The same of a record that is still to be read. The buffers are all 7 before.
fn mesh_replays(s: &[u8], k: usize) -> bool
    requires { k < 400_000 }
{
    let mut vertices = [0.0f64; 12288];
    let mut triangles = [0u32; 24576];
    let mut flags = [0u8; 4096];
    let mut kinds = [0u8; 64];
    let mut faces = [0u32; 64];
    let mut coords = [0.0f64; 384];
    load_mesh(s, k, &mut vertices, &mut triangles, &mut flags);
    load_pieces(s, k, &mut kinds, &mut faces, &mut coords);
    let mut vertex_words = [7u32; 12288];
    let mut edge_words = [7u32; 144000];
    let mut edge_reals = [7.0f64; 96000];
    let mut round = [7u32; 24000];
    let mut triangle_words = [7u32; 48000];
    let mut triangle_reals = [7.0f64; 72000];
    build_holds_in(
        s,
        k,
        &vertices,
        &triangles,
        &flags,
        &kinds,
        &faces,
        &coords,
        &mut vertex_words,
        &mut edge_words,
        &mut edge_reals,
        &mut round,
        &mut triangle_words,
        &mut triangle_reals,
    )
}

fn replay(s: &[u8]) -> Tally {
    replay_records(s, 2, |k| mesh_replays(s, k))
}

fn main(rt: HostRuntime) -> io::Result<()> {
    vectors::replay_file::<524288, _>(&rt, "jobs", replay)?;
    vectors::replay_file::<524288, _>(&rt, "meshes", replay)?;
    vectors::replay_file::<524288, _>(&rt, "large", replay)
}
