// The insertion of a job's pieces, in buffers that programs in C and Rust lend: the crate insert_export has it as a static library.
#![tactic(auto)]

ghost use Rattle.std.specs.Prelude.{◌≡◌, ◌*◌, ◌/◌, ◌≤◌, length};
ghost use Rattle.layout.specs.Layout.{words_per_piece};
ghost use Rattle.cut_slots.specs.of_cut_lists.Buffers.{cut_buffers, cuts_before, cuts_after};
ghost use Rattle.insert_job.specs.of_trim.Buffers.{after as Buffers·after};
ghost use Rattle.cut_slots.specs.Slots.{cut_count, cut_to};
ghost use Rattle.job_checks.specs.Job.{job};
ghost use Rattle.insert_job.specs.of_mesh.Topology.{mesh_buffers, before, after};
ghost use Rattle.insert_job.specs.of_insertion.Snapshots.{entries_after};
ghost use Rattle.insert_job.specs.of_begin.Begin.{work_before, work_after};
ghost use Rattle.insert_job.specs.Job.{InsertsJob};
ghost use Rattle.insert_c.specs.Exports.{lent_counts, edges_told, insert_told, InsertAnswers};

use buffers::write_u32;
use insert_job::of_insertion::InsertCounts;
use insert_job::of_mesh::{OtherCounts, Refusal};
use insert_job::{InsertRefusal, of_mesh};
use layout::{
    REALS_PER_PIECE, REALS_PER_VERTEX, REALS_PER_WINDOW, WORDS_PER_PIECE, WORDS_PER_WINDOW,
};

// The slots that slices of these lengths have. No scratch is lent, so none can lack.
fn lent_counts(
    piece_words: usize,
    piece_reals: usize,
    vertex: usize,
    words: usize,
    reals: usize,
) -> OtherCounts
    ensures { result ≡ lent_counts piece_words piece_reals vertex words reals }
{
    let windows = buffers::count(words, WORDS_PER_WINDOW, reals, REALS_PER_WINDOW);
    OtherCounts {
        vertex_reals: buffers::slots(vertex, REALS_PER_VERTEX),
        pieces: buffers::count(piece_words, WORDS_PER_PIECE, piece_reals, REALS_PER_PIECE),
        windows,
        scratch: windows,
        other_scratch: windows,
    }
}

fn edges_told(meshed: Result<u32, Refusal>) -> u32
    ensures { result ≡ edges_told meshed }
{
    meshed.unwrap_or(0)
}

// The answer is 0 where all pieces are inserted, else the refusal's number. The first four numbers of `told` are then the edges, the windows made, the events queued and the
// entries of faces.
fn tell(edges: u32, inserted: Result<InsertCounts, InsertRefusal>, told: &mut [u32]) -> u32
    ensures { (result, told.new) ≡ insert_told edges inserted told.old }
{
    match inserted {
        Err(InsertRefusal::Wedge) => 11,
        Err(InsertRefusal::NoSlot(lack)) => buffers::lack_number(lack),
        Ok(counts) => {
            let trim = counts.trim;
            write_u32(told, 4, 0, 0, edges);
            write_u32(told, 4, 0, 1, trim.made);
            write_u32(told, 4, 0, 2, trim.queued);
            write_u32(told, 4, 0, 3, counts.entries);
            0
        }
    }
}

// The pieces are inserted over the first x slots of the cut buffers.
fn insert_parts(
    x: u32,
    vertices: &[f64],
    triangles: &[u32],
    kinds: &[u8],
    faces: &[u32],
    coords: &[f64],
    limit: f64,
    vertex_words: &[u32],
    edge_words: &mut [u32],
    edge_reals: &[f64],
    round: &[u32],
    triangle_words: &mut [u32],
    triangle_reals: &[f64],
    piece_words: &mut [u32],
    piece_reals: &mut [f64],
    vertex: &mut [f64],
    words: &mut [u32],
    reals: &mut [f64],
    keys: &mut [f64],
    events: &mut [u32],
    entry_words: &mut [u32],
    pts: &mut [f64],
    out: &mut [f64],
    keep: &mut [f64],
    next: &mut [f64],
) -> Result<InsertCounts, InsertRefusal>
    requires { (length vertices.now / 3 ≤ 65535) × ((length kinds.now ≤ 65535) × ((words_per_piece * length kinds.now ≤ length piece_words.old)
        × (x ≡ cut_count (cut_buffers pts.old out.old keep.old next.old)))) }
    ensures { InsertsJob vertices.now triangles.now kinds.now faces.now coords.now limit
        (mesh_buffers vertex_words.now edge_words.old edge_reals.now round.now triangle_words.old triangle_reals.now)
        (work_before piece_words piece_reals vertex words reals keys events entry_words) (cut_to x (cuts_before pts out keep next))
        result piece_words.new piece_reals.new (Buffers·after edge_words words reals keys events vertex) (entries_after triangle_words entry_words) }
{
    let single = x as usize;
    let double = 2 * single;
    insert_job::insert_job(
        vertices,
        triangles,
        kinds,
        faces,
        coords,
        limit,
        vertex_words,
        edge_words,
        edge_reals,
        round,
        triangle_words,
        triangle_reals,
        piece_words,
        piece_reals,
        vertex,
        words,
        reals,
        keys,
        events,
        entry_words,
        &mut pts[..single],
        &mut out[..double],
        &mut keep[..double],
        &mut next[..double],
    )
}

// Any job: its first refusal that holds of 1 to 14 and 17, or 0; its mesh, and its pieces inserted. Stopped by 11 to 17, the slices are left as they are then; the cut lists always are.
pub fn sirmolaat_insert(
    vertices: &[f64],
    triangles: &[u32],
    flags: &[u8],
    kinds: &[u8],
    faces: &[u32],
    coords: &[f64],
    limit: f64,
    vertex_words: &mut [u32],
    edge_words: &mut [u32],
    edge_reals: &mut [f64],
    round: &mut [u32],
    triangle_words: &mut [u32],
    triangle_reals: &mut [f64],
    piece_words: &mut [u32],
    piece_reals: &mut [f64],
    vertex: &mut [f64],
    words: &mut [u32],
    reals: &mut [f64],
    keys: &mut [f64],
    events: &mut [u32],
    entry_words: &mut [u32],
    pts: &mut [f64],
    out: &mut [f64],
    keep: &mut [f64],
    next: &mut [f64],
    told: &mut [u32],
) -> u32
    ensures { InsertAnswers (job vertices.now triangles.now flags.now kinds.now faces.now coords.now limit)
        (before vertex_words edge_words edge_reals round triangle_words triangle_reals)
        (work_before piece_words piece_reals vertex words reals keys events entry_words) (cuts_before pts out keep next) told.old
        result (after vertex_words edge_words edge_reals round triangle_words triangle_reals)
        (work_after piece_words piece_reals vertex words reals keys events entry_words) (cuts_after pts out keep next) told.new }
{
    let others = lent_counts(
        piece_words.len(),
        piece_reals.len(),
        vertex.len(),
        words.len(),
        reals.len(),
    );
    let meshed = of_mesh::build(
        vertices,
        triangles,
        flags,
        kinds,
        faces,
        coords,
        limit,
        others,
        vertex_words,
        edge_words,
        edge_reals,
        round,
        triangle_words,
        triangle_reals,
    );
    let number = of_mesh::refusal_number(meshed);
    if number > 0 {
        return number;
    }
    let edges = edges_told(meshed);
    let x = cut_slots::cut_count(pts, out, keep, next);
    let inserted = insert_parts(
        x,
        vertices,
        triangles,
        kinds,
        faces,
        coords,
        limit,
        vertex_words,
        edge_words,
        edge_reals,
        round,
        triangle_words,
        triangle_reals,
        piece_words,
        piece_reals,
        vertex,
        words,
        reals,
        keys,
        events,
        entry_words,
        pts,
        out,
        keep,
        next,
    );
    tell(edges, inserted, told)
}
