// The work on a job whose mesh is made, over as many slots as all four cut buffers have.
#![tactic(auto)]

ghost use Rattle.std.specs.Prelude.{◌≡◌, ◌*◌, ◌/◌, ◌≤◌, length};
ghost use Rattle.layout.specs.Layout.{words_per_piece};
ghost use Rattle.buffers.specs.Lent.{given, left};
ghost use Rattle.cut_slots.specs.of_cut_lists.Buffers.{cut_buffers, cuts_before};
ghost use Rattle.field_work.specs.of_trim.Buffers.{after};
ghost use Rattle.cut_slots.specs.Slots.{cut_count, cut_to};
ghost use Rattle.field_work.specs.of_mesh.Topology.{mesh_buffers};
ghost use Rattle.field_work.specs.of_insertion.Snapshots.{entries_after};
ghost use Rattle.field_work.specs.of_begin.Begin.{work_before};
ghost use Rattle.field_work.specs.Contract.{WorksTo};

pub use cut_slots as of_cut_slots;
use field_work::of_run_steps::FieldWork;

// The work over the first x slots of the cut buffers.
pub fn work_parts(
    x: u32,
    vertices: &[f64],
    triangles: &[u32],
    kinds: &[u8],
    faces: &[u32],
    coords: &[f64],
    limit: f64,
    max_steps: u32,
    vertex_words: &[u32],
    edge_words: &mut [u32],
    edge_reals: &[f64],
    round: &[u32],
    triangle_words: &mut [u32],
    triangle_reals: &[f64],
    piece_words: &mut [u32],
    piece_reals: &mut [f64],
    vertex: &mut [f64],
    words: &mut [u32],
    reals: &mut [f64],
    keys: &mut [f64],
    events: &mut [u32],
    entry_words: &mut [u32],
    pts: &mut [f64],
    out: &mut [f64],
    keep: &mut [f64],
    next: &mut [f64],
) -> FieldWork
    requires { (length vertices.now / 3 ≤ 65535) × ((length kinds.now ≤ 65535) × ((words_per_piece * length kinds.now ≤ length piece_words.old)
        × (x ≡ cut_count (cut_buffers pts.old out.old keep.old next.old)))) }
    ensures { WorksTo vertices.now triangles.now kinds.now faces.now coords.now limit
        (mesh_buffers vertex_words.now (given edge_words) edge_reals.now round.now (given triangle_words) triangle_reals.now)
        (work_before piece_words piece_reals vertex words reals keys events entry_words) (cut_to x (cuts_before pts out keep next)) max_steps
        result (left piece_words) (left piece_reals) (after edge_words words reals keys events vertex) (entries_after triangle_words entry_words) }
{
    let single = x as usize;
    let double = 2 * single;
    field_work::work(
        vertices,
        triangles,
        kinds,
        faces,
        coords,
        limit,
        max_steps,
        vertex_words,
        edge_words,
        edge_reals,
        round,
        triangle_words,
        triangle_reals,
        piece_words,
        piece_reals,
        vertex,
        words,
        reals,
        keys,
        events,
        entry_words,
        &mut pts[..single],
        &mut out[..double],
        &mut keep[..double],
        &mut next[..double],
    )
}
