// The sources of a job are inserted, piece by piece: the Rust's loop over `sources` in `compute`, with `source_point` and `source_segment`.
#![tactic(auto)]

ghost use Rattle.std.specs.Prelude.{◌≤◌, ◌<◌, ◌*◌, ◌≡◌, length};
ghost use Rattle.buffers.specs.Lent.{given};
ghost use Rattle.insertion.specs.of_cut_lists.Buffers.{cuts_before};
ghost use Rattle.insertion.specs.of_cut_lists.Cut.{Sizes};
ghost use Rattle.insertion.specs.of_trim.Buffers.{before, after};
ghost use Rattle.windows.specs.Windows.{capacity_of};
ghost use Rattle.insertion.specs.of_source_inserts.Inserts.{source_inserts, job_inserts};
ghost use Rattle.insertion.specs.of_source_inserts.Read.{insert_at};
ghost use Rattle.insertion.specs.Snapshots.{InsertsTo, entries_before, entries_after};
ghost use Rattle.insert_sources.specs.Job.{insertion_slices, InsertsAll};

use buffers::Lack;
pub use insertion as of_insertion;
use insertion::of_source_inserts::Source;
pub use insertion::{of_mesh, of_piece_ends, of_trim_split, of_wedge_refusal};
use insertion::{InsertCounts, of_source_inserts};

// The i-th of what source s does, in a job of so many pieces.
fn insert_number(
    vertices: &[f64],
    edge_words: &mut [u32],
    words: &mut [u32],
    reals: &mut [f64],
    keys: &mut [f64],
    events: &mut [u32],
    vertex: &mut [f64],
    vertex_words: &[u32],
    edge_reals: &[f64],
    triangle_reals: &[f64],
    round: &[u32],
    kinds: &[u8],
    faces: &[u32],
    coords: &[f64],
    piece_words: &[u32],
    piece_reals: &[f64],
    pts: &mut [f64],
    out: &mut [f64],
    keep: &mut [f64],
    next: &mut [f64],
    triangle_words: &mut [u32],
    entry_words: &mut [u32],
    counts: InsertCounts,
    pieces: u32,
    s: Source,
    i: u32,
    limit: f64,
) -> Result<InsertCounts, Lack>
    requires { (counts.trim.made ≤ capacity_of (length words.old) (length reals.old)) × Sizes (length pts.old) out.old keep.old next.old }
    ensures { InsertsTo limit vertex_words.now edge_reals.now
        (insert_at vertices.now (given edge_words) edge_reals.now (given triangle_words) triangle_reals.now vertex_words.now round.now
        kinds.now faces.now coords.now piece_words.now piece_reals.now pieces s i)
        counts (before edge_words words reals keys events vertex) (entries_before triangle_words entry_words) (cuts_before pts out keep next)
        result (after edge_words words reals keys events vertex) (entries_after triangle_words entry_words) }
{
    let x = of_source_inserts::insert_at(
        vertices,
        edge_words,
        edge_reals,
        triangle_words,
        triangle_reals,
        vertex_words,
        round,
        kinds,
        faces,
        coords,
        piece_words,
        piece_reals,
        pieces,
        s,
        i,
    );
    insertion::insert(
        edge_words,
        words,
        reals,
        keys,
        events,
        vertex,
        vertex_words,
        edge_reals,
        pts,
        out,
        keep,
        next,
        triangle_words,
        entry_words,
        counts,
        x,
        limit,
    )
}

// Source j, of three for each of so many pieces: its end a, its end b, and the whole segment.
fn insert_source(
    vertices: &[f64],
    edge_words: &mut [u32],
    words: &mut [u32],
    reals: &mut [f64],
    keys: &mut [f64],
    events: &mut [u32],
    vertex: &mut [f64],
    vertex_words: &[u32],
    edge_reals: &[f64],
    triangle_reals: &[f64],
    round: &[u32],
    kinds: &[u8],
    faces: &[u32],
    coords: &[f64],
    piece_words: &[u32],
    piece_reals: &[f64],
    pts: &mut [f64],
    out: &mut [f64],
    keep: &mut [f64],
    next: &mut [f64],
    triangle_words: &mut [u32],
    entry_words: &mut [u32],
    counts: InsertCounts,
    pieces: u32,
    j: u32,
    limit: f64,
) -> Result<InsertCounts, Lack>
    requires { (counts.trim.made ≤ capacity_of (length words.old) (length reals.old)) × (Sizes (length pts.old) out.old keep.old next.old
        × ((pieces ≡ length kinds.now) × (j < 3 * length kinds.now))) }
    ensures { InsertsAll limit
        (insertion_slices vertices.now vertex_words.now edge_reals.now triangle_reals.now round.now
        kinds.now faces.now coords.now piece_words.now piece_reals.now)
        (λ triangles. source_inserts vertices.now triangles kinds.now faces.now coords.now j)
        counts (before edge_words words reals keys events vertex) (entries_before triangle_words entry_words) (cuts_before pts out keep next)
        result (after edge_words words reals keys events vertex) (entries_after triangle_words entry_words) }
{
    let s = of_source_inserts::job_source(
        vertices,
        edge_words,
        edge_reals,
        triangle_words,
        triangle_reals,
        kinds,
        faces,
        coords,
        piece_words,
        pieces,
        j,
    );
    let count = of_source_inserts::insert_count(edge_words, vertex_words, s);
    let mut now = counts;
    for i in 0..count {
        now = insert_number(
            vertices,
            edge_words,
            words,
            reals,
            keys,
            events,
            vertex,
            vertex_words,
            edge_reals,
            triangle_reals,
            round,
            kinds,
            faces,
            coords,
            piece_words,
            piece_reals,
            pts,
            out,
            keep,
            next,
            triangle_words,
            entry_words,
            now,
            pieces,
            s,
            i,
            limit,
        )?;
    }
    Ok(now)
}

// All sources of the job, in the Rust's order.
pub fn insert_all(
    vertices: &[f64],
    edge_words: &mut [u32],
    words: &mut [u32],
    reals: &mut [f64],
    keys: &mut [f64],
    events: &mut [u32],
    vertex: &mut [f64],
    vertex_words: &[u32],
    edge_reals: &[f64],
    triangle_reals: &[f64],
    round: &[u32],
    kinds: &[u8],
    faces: &[u32],
    coords: &[f64],
    piece_words: &[u32],
    piece_reals: &[f64],
    pts: &mut [f64],
    out: &mut [f64],
    keep: &mut [f64],
    next: &mut [f64],
    triangle_words: &mut [u32],
    entry_words: &mut [u32],
    counts: InsertCounts,
    limit: f64,
) -> Result<InsertCounts, Lack>
    requires { (counts.trim.made ≤ capacity_of (length words.old) (length reals.old)) × (Sizes (length pts.old) out.old keep.old next.old
        × (length kinds.now ≤ 65535)) }
    ensures { InsertsAll limit
        (insertion_slices vertices.now vertex_words.now edge_reals.now triangle_reals.now round.now
        kinds.now faces.now coords.now piece_words.now piece_reals.now)
        (λ triangles. job_inserts vertices.now triangles kinds.now faces.now coords.now)
        counts (before edge_words words reals keys events vertex) (entries_before triangle_words entry_words) (cuts_before pts out keep next)
        result (after edge_words words reals keys events vertex) (entries_after triangle_words entry_words) }
{
    let pieces = kinds.len() as u32;
    let sources = 3 * pieces;
    let mut now = counts;
    for j in 0..sources {
        now = insert_source(
            vertices,
            edge_words,
            words,
            reals,
            keys,
            events,
            vertex,
            vertex_words,
            edge_reals,
            triangle_reals,
            round,
            kinds,
            faces,
            coords,
            piece_words,
            piece_reals,
            pts,
            out,
            keep,
            next,
            triangle_words,
            entry_words,
            now,
            pieces,
            j,
            limit,
        )?;
    }
    Ok(now)
}
