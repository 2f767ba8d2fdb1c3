// The start of a job's work, its mesh being made: what the slices hold at first, refusal 11, and the insertion of its pieces.
#![tactic(auto)]

ghost use Rattle.std.specs.Prelude.{◌≡◌, ◌*◌, ◌/◌, ◌≤◌, length};
ghost use Rattle.layout.specs.Layout.{words_per_piece};
ghost use Rattle.buffers.specs.Lent.{given, left};
ghost use Rattle.insert_sources.specs.of_cut_lists.Buffers.{cuts_before};
ghost use Rattle.insert_sources.specs.of_cut_lists.Cut.{Sizes};
ghost use Rattle.insert_sources.specs.of_trim.Buffers.{after};
ghost use Rattle.insert_sources.specs.of_mesh.Topology.{mesh_buffers};
ghost use Rattle.insert_sources.specs.of_insertion.Snapshots.{entries_after};
ghost use Rattle.begin.specs.Begin.{work_before};
ghost use Rattle.insert_job.specs.declared.InsertRefusal.TheVariants.{NoSlot};
ghost use Rattle.insert_job.specs.Job.{InsertsJob};

use buffers::Lack;
use insert_sources::of_insertion::InsertCounts;
use insert_sources::of_trim_split::Counts;
use insert_sources::of_wedge_refusal;
pub use insert_sources::{of_insertion, of_mesh};

// Refusal 11, or what there is no slot for.
#[derive(Clone, Copy)]
pub enum InsertRefusal {
    Wedge,
    NoSlot(Lack),
}

impl From<Lack> for InsertRefusal {
    ghost from_gives = { λ lack e. e ≡ NoSlot lack };

    fn from(lack: Lack) -> InsertRefusal {
        InsertRefusal::NoSlot(lack)
    }
}

// The pieces of a job are inserted, whatever the slices beside the mesh's held before. The answer is the counts after the last piece.
pub fn insert_job(
    vertices: &[f64],
    triangles: &[u32],
    kinds: &[u8],
    faces: &[u32],
    coords: &[f64],
    limit: f64,
    vertex_words: &[u32],
    edge_words: &mut [u32],
    edge_reals: &[f64],
    round: &[u32],
    triangle_words: &mut [u32],
    triangle_reals: &[f64],
    piece_words: &mut [u32],
    piece_reals: &mut [f64],
    vertex: &mut [f64],
    words: &mut [u32],
    reals: &mut [f64],
    keys: &mut [f64],
    events: &mut [u32],
    entry_words: &mut [u32],
    pts: &mut [f64],
    out: &mut [f64],
    keep: &mut [f64],
    next: &mut [f64],
) -> Result<InsertCounts, InsertRefusal>
    requires { (length vertices.now / 3 ≤ 65535) × ((length kinds.now ≤ 65535) × ((words_per_piece * length kinds.now ≤ length piece_words.old)
        × Sizes (length pts.old) out.old keep.old next.old)) }
    ensures { InsertsJob vertices.now triangles.now kinds.now faces.now coords.now limit
        (mesh_buffers vertex_words.now (given edge_words) edge_reals.now round.now (given triangle_words) triangle_reals.now)
        (work_before piece_words piece_reals vertex words reals keys events entry_words) (cuts_before pts out keep next)
        result (left piece_words) (left piece_reals) (after edge_words words reals keys events vertex) (entries_after triangle_words entry_words) }
{
    let n = (vertices.len() / 3) as u32;
    begin::begin_buffers(
        kinds,
        coords,
        n,
        piece_words,
        piece_reals,
        vertex,
        words,
        reals,
        keys,
        events,
        entry_words,
    );
    if of_wedge_refusal::any_wedge(
        vertices,
        edge_words,
        edge_reals,
        triangle_words,
        triangle_reals,
        vertex_words,
        triangles,
        kinds,
        faces,
        coords,
        piece_words,
    ) {
        return Err(InsertRefusal::Wedge);
    }
    let trim = Counts { made: 0, queued: 0 };
    let counts = InsertCounts { trim, entries: 0 };
    let inserted = insert_sources::insert_all(
        vertices,
        edge_words,
        words,
        reals,
        keys,
        events,
        vertex,
        vertex_words,
        edge_reals,
        triangle_reals,
        round,
        kinds,
        faces,
        coords,
        piece_words,
        piece_reals,
        pts,
        out,
        keep,
        next,
        triangle_words,
        entry_words,
        counts,
        limit,
    )?;
    Ok(inserted)
}
