// The whole job: its mesh, its work, its field or its refusal, in buffers that a caller lends.
#![tactic(auto)]

ghost use Rattle.std.specs.Prelude.{◌≡◌};
ghost use Rattle.job_checks.specs.Job.{job};
ghost use Rattle.field_model.specs.of_compute_spec.Compute.{buffers_before, buffers_after};
ghost use Rattle.field_model.specs.Queue.{queue_in_order};
ghost use Rattle.field_model.specs.Lent.{ComputesOver};
ghost use Rattle.compute.specs.Answers.{other_counts_of, edges_answered, zeroes, clears, told};

use buffers::slots;
use computed::{Computed, Field};
use field_model::of_mesh;
use field_model::of_mesh::{OtherCounts, Refusal};
use field_model::of_zero_buffers::{
    zero_cuts_if, zero_mesh_if, zero_pieces_if, zero_windows_if, zero_words_if,
};
use layout::{
    COORDINATES_PER_VERTEX, REALS_PER_PIECE, REALS_PER_VERTEX, REALS_PER_WINDOW,
    VERTICES_PER_TRIANGLE, WORDS_PER_PIECE, WORDS_PER_WINDOW,
};
use make_field::of_run_steps::FieldWork;

// The slots that slices of these lengths have.
fn other_counts(
    piece_words: usize,
    piece_reals: usize,
    vertex: usize,
    words: usize,
    reals: usize,
    scratch: usize,
    other_scratch: usize,
) -> OtherCounts
    ensures { result ≡ other_counts_of piece_words piece_reals vertex words reals scratch other_scratch }
{
    OtherCounts {
        vertex_reals: slots(vertex, REALS_PER_VERTEX),
        pieces: buffers::count(piece_words, WORDS_PER_PIECE, piece_reals, REALS_PER_PIECE),
        windows: buffers::count(words, WORDS_PER_WINDOW, reals, REALS_PER_WINDOW),
        scratch: slots(scratch, 1),
        other_scratch: slots(other_scratch, 1),
    }
}

fn edge_count(meshed: Result<u32, Refusal>) -> u32
    ensures { result ≡ edges_answered meshed }
{
    meshed.unwrap_or(0)
}

// Refusals above 9 leave zeros everywhere.
fn is_zeroed(work: FieldWork) -> bool
    ensures { result ≡ zeroes work }
{
    match work {
        FieldWork::Refused(number) => number > 9,
        FieldWork::Done(_, _) => false,
    }
}

// The scratch rows are zero in a field too.
fn is_cleared(work: FieldWork) -> bool
    ensures { result ≡ clears work }
{
    match work {
        FieldWork::Refused(number) => number > 9,
        FieldWork::Done(_, _) => true,
    }
}

fn answer(vertices: usize, triangles: usize, kinds: usize, edges: u32, work: FieldWork) -> Computed
    ensures { result ≡ told vertices triangles kinds edges work }
{
    match work {
        FieldWork::Refused(number) => Computed::Refused(number),
        FieldWork::Done(counts, steps) => Computed::Field(Field {
            vertices: slots(vertices, COORDINATES_PER_VERTEX),
            triangles: slots(triangles, VERTICES_PER_TRIANGLE),
            pieces: slots(kinds, 1),
            edges,
            windows: counts.trim.made,
            steps,
        }),
    }
}

// Any job, any buffers: a refusal by its number in document 01, or a field. `ComputesOver` says what is answered and what every buffer holds then; its
// queue is the list of events in order, or any other that pops the least (field_model's `computes_over`).
pub fn compute(
    vertices: &[f64],
    triangles: &[u32],
    flags: &[u8],
    kinds: &[u8],
    faces: &[u32],
    coords: &[f64],
    limit: f64,
    max_steps: u32,
    vertex_words: &mut [u32],
    edge_words: &mut [u32],
    edge_reals: &mut [f64],
    round: &mut [u32],
    triangle_words: &mut [u32],
    triangle_reals: &mut [f64],
    piece_words: &mut [u32],
    piece_reals: &mut [f64],
    vertex: &mut [f64],
    words: &mut [u32],
    reals: &mut [f64],
    keys: &mut [f64],
    events: &mut [u32],
    entry_words: &mut [u32],
    pts: &mut [f64],
    out: &mut [f64],
    keep: &mut [f64],
    next: &mut [f64],
    scratch: &mut [u32],
    other_scratch: &mut [u32],
) -> Computed
    ensures { ComputesOver queue_in_order (job vertices.now triangles.now flags.now kinds.now faces.now coords.now limit)
        (buffers_before vertex_words edge_words edge_reals round triangle_words triangle_reals
        piece_words piece_reals vertex words reals keys events entry_words pts out keep next scratch other_scratch) max_steps result
        (buffers_after vertex_words edge_words edge_reals round triangle_words triangle_reals
        piece_words piece_reals vertex words reals keys events entry_words pts out keep next scratch other_scratch) }
{
    let others = other_counts(
        piece_words.len(),
        piece_reals.len(),
        vertex.len(),
        words.len(),
        reals.len(),
        scratch.len(),
        other_scratch.len(),
    );
    let meshed = of_mesh::build(
        vertices,
        triangles,
        flags,
        kinds,
        faces,
        coords,
        limit,
        others,
        vertex_words,
        edge_words,
        edge_reals,
        round,
        triangle_words,
        triangle_reals,
    );
    let edges = edge_count(meshed);
    let work = make_field::make_field(
        of_mesh::refusal_number(meshed),
        edges,
        vertices,
        triangles,
        kinds,
        faces,
        coords,
        limit,
        max_steps,
        vertex_words,
        edge_words,
        edge_reals,
        round,
        triangle_words,
        triangle_reals,
        piece_words,
        piece_reals,
        vertex,
        words,
        reals,
        keys,
        events,
        entry_words,
        pts,
        out,
        keep,
        next,
    );
    let zero = is_zeroed(work);
    zero_mesh_if(
        zero,
        vertex_words,
        edge_words,
        edge_reals,
        round,
        triangle_words,
        triangle_reals,
    );
    zero_pieces_if(zero, piece_words, piece_reals, vertex);
    zero_windows_if(zero, words, reals, keys, events);
    zero_words_if(zero, entry_words);
    zero_cuts_if(zero, pts, out, keep, next);
    let clear = is_cleared(work);
    zero_words_if(clear, scratch);
    zero_words_if(clear, other_scratch);
    answer(vertices.len(), triangles.len(), kinds.len(), edges, work)
}
