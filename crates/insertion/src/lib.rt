// One thing that a source does: a part of a piece is entered in a face, or a window is offered to an edge.
#![tactic(auto)]

ghost use Rattle.std.specs.Prelude.{◌≤◌, length};
ghost use Rattle.source_inserts.specs.of_cut_lists.Buffers.{cuts_before, cuts_after};
ghost use Rattle.source_inserts.specs.of_cut_lists.Cut.{Sizes};
ghost use Rattle.source_inserts.specs.of_trim.Buffers.{before, after};
ghost use Rattle.windows.specs.Windows.{capacity_of};
ghost use Rattle.insertion.specs.Snapshots.{EntersTo, OfferedTo, InsertsTo, entries_before, entries_after};

use buffers::{FaceId, Lack};
pub use source_inserts as of_source_inserts;
use source_inserts::of_face_entries::PiecePart;
use source_inserts::of_offers::Offered;
use source_inserts::of_trim_split::Counts;
pub use source_inserts::{of_mesh, of_piece_ends, of_trim_split, of_wedge_refusal};
use source_inserts::{Insert, of_face_entries, of_offers};

// How many windows are made and events queued, and how many entries there are.
#[derive(Clone, Copy)]
pub struct InsertCounts {
    pub trim: Counts,
    pub entries: u32,
}

// The counts afterwards, or what there is no slot for; so of `offer` and `insert` too.
fn enter(
    triangle_words: &mut [u32],
    entry_words: &mut [u32],
    counts: InsertCounts,
    face: FaceId,
    x: PiecePart,
) -> Result<InsertCounts, Lack>
    ensures { EntersTo counts face x (entries_before triangle_words entry_words) result (entries_after triangle_words entry_words) }
{
    let piece = x.piece;
    let part = x.part;
    let entries = of_face_entries::enter(
        triangle_words,
        entry_words,
        counts.entries,
        face,
        piece,
        part,
    )?;
    let trim = counts.trim;
    Ok(InsertCounts { trim, entries })
}

fn offer(
    edge_words: &mut [u32],
    words: &mut [u32],
    reals: &mut [f64],
    keys: &mut [f64],
    events: &mut [u32],
    vertex: &mut [f64],
    vertex_words: &[u32],
    edge_reals: &[f64],
    pts: &mut [f64],
    out: &mut [f64],
    keep: &mut [f64],
    next: &mut [f64],
    counts: InsertCounts,
    o: Option<Offered>,
    limit: f64,
) -> Result<InsertCounts, Lack>
    requires { (counts.trim.made ≤ capacity_of (length words.old) (length reals.old)) × Sizes (length pts.old) out.old keep.old next.old }
    ensures { OfferedTo limit vertex_words.now edge_reals.now o counts (before edge_words words reals keys events vertex) (cuts_before pts out keep next)
        result (after edge_words words reals keys events vertex) (cuts_after pts out keep next) }
{
    let trim = of_offers::offer(
        edge_words,
        words,
        reals,
        keys,
        events,
        vertex,
        vertex_words,
        edge_reals,
        pts,
        out,
        keep,
        next,
        counts.trim,
        o,
        limit,
    )?;
    let entries = counts.entries;
    Ok(InsertCounts { trim, entries })
}

// What is inserted stands in the buffers afterwards, or there is no slot for it.
pub fn insert(
    edge_words: &mut [u32],
    words: &mut [u32],
    reals: &mut [f64],
    keys: &mut [f64],
    events: &mut [u32],
    vertex: &mut [f64],
    vertex_words: &[u32],
    edge_reals: &[f64],
    pts: &mut [f64],
    out: &mut [f64],
    keep: &mut [f64],
    next: &mut [f64],
    triangle_words: &mut [u32],
    entry_words: &mut [u32],
    counts: InsertCounts,
    x: Insert,
    limit: f64,
) -> Result<InsertCounts, Lack>
    requires { (counts.trim.made ≤ capacity_of (length words.old) (length reals.old)) × Sizes (length pts.old) out.old keep.old next.old }
    ensures { InsertsTo limit vertex_words.now edge_reals.now x counts
        (before edge_words words reals keys events vertex) (entries_before triangle_words entry_words) (cuts_before pts out keep next)
        result (after edge_words words reals keys events vertex) (entries_after triangle_words entry_words) }
{
    match x {
        Insert::Entry(face, part) => enter(triangle_words, entry_words, counts, face, part),
        Insert::Offer(o) => offer(
            edge_words,
            words,
            reals,
            keys,
            events,
            vertex,
            vertex_words,
            edge_reals,
            pts,
            out,
            keep,
            next,
            counts,
            o,
            limit,
        ),
    }
}
