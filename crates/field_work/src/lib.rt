// The work on a job whose mesh is made: its pieces are inserted, then the main loop runs within the step budget.
#![tactic(auto)]

ghost use Rattle.std.specs.Prelude.{◌*◌, ◌/◌, ◌≤◌, length};
ghost use Rattle.layout.specs.Layout.{words_per_piece};
ghost use Rattle.buffers.specs.Lent.{given, left};
ghost use Rattle.run_steps.specs.of_cut_lists.Buffers.{cuts_before};
ghost use Rattle.run_steps.specs.of_cut_lists.Cut.{Sizes};
ghost use Rattle.run_steps.specs.of_trim.Buffers.{after};
ghost use Rattle.run_steps.specs.of_mesh.Topology.{mesh_buffers};
ghost use Rattle.run_steps.specs.of_insertion.Snapshots.{entries_after};
ghost use Rattle.run_steps.specs.of_begin.Begin.{work_before};
ghost use Rattle.field_work.specs.Contract.{WorksTo};

pub use run_steps as of_run_steps;
use run_steps::{FieldWork, of_insert_job};

pub fn work(
    vertices: &[f64],
    triangles: &[u32],
    kinds: &[u8],
    faces: &[u32],
    coords: &[f64],
    limit: f64,
    max_steps: u32,
    vertex_words: &[u32],
    edge_words: &mut [u32],
    edge_reals: &[f64],
    round: &[u32],
    triangle_words: &mut [u32],
    triangle_reals: &[f64],
    piece_words: &mut [u32],
    piece_reals: &mut [f64],
    vertex: &mut [f64],
    words: &mut [u32],
    reals: &mut [f64],
    keys: &mut [f64],
    events: &mut [u32],
    entry_words: &mut [u32],
    pts: &mut [f64],
    out: &mut [f64],
    keep: &mut [f64],
    next: &mut [f64],
) -> FieldWork
    requires { (length vertices.now / 3 ≤ 65535) × ((length kinds.now ≤ 65535) × ((words_per_piece * length kinds.now ≤ length piece_words.old)
        × Sizes (length pts.old) out.old keep.old next.old)) }
    ensures { WorksTo vertices.now triangles.now kinds.now faces.now coords.now limit
        (mesh_buffers vertex_words.now (given edge_words) edge_reals.now round.now (given triangle_words) triangle_reals.now)
        (work_before piece_words piece_reals vertex words reals keys events entry_words) (cuts_before pts out keep next) max_steps
        result (left piece_words) (left piece_reals) (after edge_words words reals keys events vertex) (entries_after triangle_words entry_words) }
{
    let n = (vertices.len() / 3) as u32;
    let inserted = of_insert_job::insert_job(
        vertices,
        triangles,
        kinds,
        faces,
        coords,
        limit,
        vertex_words,
        edge_words,
        edge_reals,
        round,
        triangle_words,
        triangle_reals,
        piece_words,
        piece_reals,
        vertex,
        words,
        reals,
        keys,
        events,
        entry_words,
        pts,
        out,
        keep,
        next,
    );
    run_steps::run_steps(
        inserted,
        vertices,
        triangles,
        edge_words,
        words,
        reals,
        keys,
        events,
        vertex,
        vertex_words,
        round,
        edge_reals,
        triangle_words,
        triangle_reals,
        pts,
        out,
        keep,
        next,
        n,
        max_steps,
        limit,
    )
}
