// A candidate is offered to an edge of the mesh, whose length and ends are read from the mesh's buffers.
#![tactic(auto)]

ghost use Rattle.std.specs.Prelude.{◌≤◌, length};
ghost use Rattle.buffers.specs.Lent.{given};
ghost use Rattle.trim.specs.of_cut_lists.Buffers.{cuts_before, cuts_after};
ghost use Rattle.trim.specs.of_cut_lists.Cut.{Sizes};
ghost use Rattle.mesh_readers.specs.Readers.{trim_edge_at};
ghost use Rattle.trim.specs.of_trim_split.Running.{Ready};
ghost use Rattle.trim.specs.Adding.{AddsTo};
ghost use Rattle.trim.specs.Buffers.{before, after};
ghost use Rattle.windows.specs.Windows.{capacity_of};
ghost use Rattle.offers.specs.Offers.{OffersTo};

use buffers::{EdgeId, Lack};
pub use mesh_readers as of_mesh_readers;
pub use trim as of_trim;
pub use trim::of_trim_split as of_trim_split;
use trim::of_trim_split::Counts;
use windows::NewWindow;

// A window that is offered to an edge.
#[derive(Clone, Copy)]
pub struct Offered {
    pub edge: EdgeId,
    pub window: NewWindow,
}

// The edge has a slot.
fn add_to(
    edge_words: &mut [u32],
    words: &mut [u32],
    reals: &mut [f64],
    keys: &mut [f64],
    events: &mut [u32],
    vertex: &mut [f64],
    vertex_words: &[u32],
    edge_reals: &[f64],
    pts: &mut [f64],
    out: &mut [f64],
    keep: &mut [f64],
    next: &mut [f64],
    counts: Counts,
    e: EdgeId,
    w: NewWindow,
    limit: f64,
) -> Result<Counts, Lack>
    requires { Ready e.0 counts.made 0 edge_words.old words.old reals.old × Sizes (length pts.old) out.old keep.old next.old }
    ensures { AddsTo limit vertex_words.now (trim_edge_at (given edge_words) edge_reals.now e.0) w counts
        (before edge_words words reals keys events vertex) (cuts_before pts out keep next)
        result (after edge_words words reals keys events vertex) (cuts_after pts out keep next) }
{
    let edge = mesh_readers::edge(edge_words, edge_reals, e);
    trim::add(
        edge_words,
        words,
        reals,
        keys,
        events,
        vertex,
        vertex_words,
        pts,
        out,
        keep,
        next,
        counts,
        edge,
        w,
        limit,
    )
}

// What is offered is added. Where the edge has no slot nothing is done: no mesh's buffers have such a one.
pub fn offer(
    edge_words: &mut [u32],
    words: &mut [u32],
    reals: &mut [f64],
    keys: &mut [f64],
    events: &mut [u32],
    vertex: &mut [f64],
    vertex_words: &[u32],
    edge_reals: &[f64],
    pts: &mut [f64],
    out: &mut [f64],
    keep: &mut [f64],
    next: &mut [f64],
    counts: Counts,
    o: Option<Offered>,
    limit: f64,
) -> Result<Counts, Lack>
    requires { (counts.made ≤ capacity_of (length words.old) (length reals.old)) × Sizes (length pts.old) out.old keep.old next.old }
    ensures { OffersTo limit vertex_words.now edge_reals.now o counts (before edge_words words reals keys events vertex) (cuts_before pts out keep next)
        result (after edge_words words reals keys events vertex) (cuts_after pts out keep next) }
{
    match o {
        None => Ok(counts),
        Some(offered) => {
            let e = offered.edge;
            if buffers::slots(edge_words.len(), layout::WORDS_PER_EDGE) <= e.0 {
                return Ok(counts);
            }
            add_to(
                edge_words,
                words,
                reals,
                keys,
                events,
                vertex,
                vertex_words,
                edge_reals,
                pts,
                out,
                keep,
                next,
                counts,
                e,
                offered.window,
                limit,
            )
        }
    }
}
