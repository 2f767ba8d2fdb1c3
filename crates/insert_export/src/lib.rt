// The static library of insert_c: `sirmolaat_insert` as programs in C and Rust call it.
#![tactic(auto)]

ghost use Rattle.insert_c.specs.of_cut_lists.Buffers.{cuts_before, cuts_after};
ghost use Rattle.insert_c.specs.of_job_checks.Job.{job};
ghost use Rattle.insert_c.specs.of_mesh.Topology.{before, after};
ghost use Rattle.insert_c.specs.of_begin.Begin.{work_before, work_after};
ghost use Rattle.insert_c.specs.Exports.{InsertAnswers};

// Any job: its first refusal that holds of 1 to 14 and 17, or 0; its mesh, and its pieces inserted. Stopped by 11 to 17, the slices are left as they are then; the cut lists always are.
#[unsafe(no_mangle)]
pub extern "C" fn sirmolaat_insert(
    vertices: &[f64],
    triangles: &[u32],
    flags: &[u8],
    kinds: &[u8],
    faces: &[u32],
    coords: &[f64],
    limit: f64,
    vertex_words: &mut [u32],
    edge_words: &mut [u32],
    edge_reals: &mut [f64],
    round: &mut [u32],
    triangle_words: &mut [u32],
    triangle_reals: &mut [f64],
    piece_words: &mut [u32],
    piece_reals: &mut [f64],
    vertex: &mut [f64],
    words: &mut [u32],
    reals: &mut [f64],
    keys: &mut [f64],
    events: &mut [u32],
    entry_words: &mut [u32],
    pts: &mut [f64],
    out: &mut [f64],
    keep: &mut [f64],
    next: &mut [f64],
    told: &mut [u32],
) -> u32
    ensures { InsertAnswers (job vertices.now triangles.now flags.now kinds.now faces.now coords.now limit)
        (before vertex_words edge_words edge_reals round triangle_words triangle_reals)
        (work_before piece_words piece_reals vertex words reals keys events entry_words) (cuts_before pts out keep next) told.old
        result (after vertex_words edge_words edge_reals round triangle_words triangle_reals)
        (work_after piece_words piece_reals vertex words reals keys events entry_words) (cuts_after pts out keep next) told.new }
{
    insert_c::sirmolaat_insert(
        vertices,
        triangles,
        flags,
        kinds,
        faces,
        coords,
        limit,
        vertex_words,
        edge_words,
        edge_reals,
        round,
        triangle_words,
        triangle_reals,
        piece_words,
        piece_reals,
        vertex,
        words,
        reals,
        keys,
        events,
        entry_words,
        pts,
        out,
        keep,
        next,
        told,
    )
}
