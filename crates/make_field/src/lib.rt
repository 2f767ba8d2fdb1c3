// A job whose mesh was answered: its work, over as many slots as all four cut buffers have, and the finish of its field. After a refusal nothing is done.
#![tactic(auto)]

ghost use Rattle.buffers.specs.Lent.{given, left};
ghost use Rattle.compute_spec.specs.of_cut_lists.Buffers.{cuts_before, cuts_after};
ghost use Rattle.compute_spec.specs.of_mesh.Topology.{mesh_buffers};
ghost use Rattle.compute_spec.specs.of_begin.Begin.{work_before, work_after};
ghost use Rattle.make_field.specs.Contract.{WorkFits, MakesField};

pub use finish_work::of_run_steps as of_run_steps;
use finish_work::of_run_steps::FieldWork;
use work_parts::of_cut_slots;

// `number` is the refusal of the mesh, or 0 where it has so many edges.
pub fn make_field(
    number: u32,
    edges: u32,
    vertices: &[f64],
    triangles: &[u32],
    kinds: &[u8],
    faces: &[u32],
    coords: &[f64],
    limit: f64,
    max_steps: u32,
    vertex_words: &[u32],
    edge_words: &mut [u32],
    edge_reals: &[f64],
    round: &[u32],
    triangle_words: &mut [u32],
    triangle_reals: &[f64],
    piece_words: &mut [u32],
    piece_reals: &mut [f64],
    vertex: &mut [f64],
    words: &mut [u32],
    reals: &mut [f64],
    keys: &mut [f64],
    events: &mut [u32],
    entry_words: &mut [u32],
    pts: &mut [f64],
    out: &mut [f64],
    keep: &mut [f64],
    next: &mut [f64],
) -> FieldWork
    requires { WorkFits number edges vertices.now kinds.now piece_words.old edge_words.old }
    ensures { MakesField number edges vertices.now triangles.now kinds.now faces.now coords.now limit
        (mesh_buffers vertex_words.now (given edge_words) edge_reals.now round.now (given triangle_words) triangle_reals.now)
        (work_before piece_words piece_reals vertex words reals keys events entry_words) (cuts_before pts out keep next) max_steps result
        (mesh_buffers vertex_words.now (left edge_words) edge_reals.now round.now (left triangle_words) triangle_reals.now)
        (work_after piece_words piece_reals vertex words reals keys events entry_words) (cuts_after pts out keep next) }
{
    if number > 0 {
        return FieldWork::Refused(number);
    }
    let x = of_cut_slots::cut_count(pts, out, keep, next);
    let worked = work_parts::work_parts(
        x,
        vertices,
        triangles,
        kinds,
        faces,
        coords,
        limit,
        max_steps,
        vertex_words,
        edge_words,
        edge_reals,
        round,
        triangle_words,
        triangle_reals,
        piece_words,
        piece_reals,
        vertex,
        words,
        reals,
        keys,
        events,
        entry_words,
        pts,
        out,
        keep,
        next,
    );
    finish_work::finish_work(
        worked, edge_words, edge_reals, words, reals, vertex, keys, events, pts, out, keep, next,
        edges,
    );
    worked
}
