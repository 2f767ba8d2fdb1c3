// What a window passes on to the edges ahead, and a vertex to those of the faces round it, is added: the Rust's `propagate` and `emit`.
#![tactic(auto)]

ghost use Rattle.std.specs.Prelude.{◌≤◌, length};
ghost use Rattle.windows.specs.Windows.{capacity_of};
ghost use Rattle.spread_offers.specs.of_cut_lists.Buffers.{cuts_before};
ghost use Rattle.spread_offers.specs.of_cut_lists.Cut.{Sizes};
ghost use Rattle.spread_offers.specs.of_trim.Buffers.{before, after};
ghost use Rattle.spread_offers.specs.of_offers.Walks.{AddsCandidates};
ghost use Rattle.spread_offers.specs.Spreading.{spread_candidates};
ghost use Rattle.spread.specs.Walk.{SpreadIn};

use buffers::Lack;
pub use spread_offers as of_spread_offers;
use spread_offers::of_trim_split::Counts;
pub use spread_offers::{of_trim, of_trim_split};
use spread_offers::{Spread, of_offers};

// All candidates of a window or of a vertex, one after the other. What both candidates of a window ask for is read once: no addition changes it.
pub fn spread(
    vertices: &[f64],
    triangles: &[u32],
    edge_words: &mut [u32],
    words: &mut [u32],
    reals: &mut [f64],
    keys: &mut [f64],
    events: &mut [u32],
    vertex: &mut [f64],
    vertex_words: &[u32],
    round: &[u32],
    edge_reals: &[f64],
    triangle_words: &[u32],
    triangle_reals: &[f64],
    pts: &mut [f64],
    out: &mut [f64],
    keep: &mut [f64],
    next: &mut [f64],
    counts: Counts,
    s: Spread,
    limit: f64,
) -> Result<Counts, Lack>
    requires { (counts.made ≤ capacity_of (length words.old) (length reals.old)) × Sizes (length pts.old) out.old keep.old next.old }
    ensures { AddsCandidates limit vertex_words.now vertices.now edge_reals.now triangle_words.now triangle_reals.now
        (SpreadIn triangles.now vertex_words.now round.now s) (λ triangles. spread_candidates vertices.now triangles s)
        counts (before edge_words words reals keys events vertex) (cuts_before pts out keep next) result (after edge_words words reals keys events vertex) }
{
    let o = spread_offers::find_opposite(
        vertices,
        triangles,
        edge_words,
        edge_reals,
        triangle_words,
        triangle_reals,
        s,
    );
    let n = spread_offers::spread_count(vertex_words, s);
    let mut now = counts;
    for i in 0..n {
        let x = spread_offers::spread_offer(
            vertices,
            edge_words,
            edge_reals,
            triangle_words,
            triangle_reals,
            vertex_words,
            round,
            o,
            s,
            i,
        );
        now = of_offers::offer(
            edge_words,
            words,
            reals,
            keys,
            events,
            vertex,
            vertex_words,
            edge_reals,
            pts,
            out,
            keep,
            next,
            now,
            x,
            limit,
        )?;
    }
    Ok(now)
}
