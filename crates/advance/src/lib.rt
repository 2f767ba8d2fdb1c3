// The Rust's main loop, up to a number of turns: events are popped and passed on until the queue is empty.
#![tactic(auto)]

ghost use Rattle.std.specs.Prelude.{◌≤◌, length};
ghost use Rattle.windows.specs.Windows.{capacity_of};
ghost use Rattle.insertion.specs.of_cut_lists.Buffers.{cuts_before};
ghost use Rattle.insertion.specs.of_cut_lists.Cut.{Sizes};
ghost use Rattle.insertion.specs.of_trim.Buffers.{before, after};
ghost use Rattle.advance.specs.Contract.{AdvancesTo};

use buffers::Lack;
pub use insertion as of_insertion;
use insertion::of_trim_split::Counts;

// How many windows and events there are now, after so many steps. Every pop is a step, skipped ones included.
#[derive(Clone, Copy)]
pub struct Advanced {
    pub counts: Counts,
    pub steps: u32,
}

// At most `most` turns, in a mesh of n vertices; or what there is no slot for.
pub fn advance(
    vertices: &[f64],
    triangles: &[u32],
    edge_words: &mut [u32],
    words: &mut [u32],
    reals: &mut [f64],
    keys: &mut [f64],
    events: &mut [u32],
    vertex: &mut [f64],
    vertex_words: &[u32],
    round: &[u32],
    edge_reals: &[f64],
    triangle_words: &[u32],
    triangle_reals: &[f64],
    pts: &mut [f64],
    out: &mut [f64],
    keep: &mut [f64],
    next: &mut [f64],
    counts: Counts,
    n: u32,
    most: u32,
    limit: f64,
) -> Result<Advanced, Lack>
    requires { (counts.made ≤ capacity_of (length words.old) (length reals.old)) × Sizes (length pts.old) out.old keep.old next.old }
    ensures { AdvancesTo limit n most vertices.now triangles.now vertex_words.now round.now edge_reals.now triangle_words.now triangle_reals.now
        counts (before edge_words words reals keys events vertex) (cuts_before pts out keep next) result (after edge_words words reals keys events vertex) }
{
    let mut now = counts;
    for steps in 0..most {
        let stepped = field_step::step(
            vertices,
            triangles,
            edge_words,
            words,
            reals,
            keys,
            events,
            vertex,
            vertex_words,
            round,
            edge_reals,
            triangle_words,
            triangle_reals,
            pts,
            out,
            keep,
            next,
            now,
            n,
            limit,
        )?;
        match stepped {
            None => return Ok(Advanced { counts: now, steps }),
            Some(c) => {
                now = c;
            }
        }
    }
    Ok(Advanced {
        counts: now,
        steps: most,
    })
}
