// What the buffers hold as a function of the state, and the scratch word of each edge.
#![tactic(auto)]

ghost use Rattle.std.specs.Prelude.{◌≡◌, ◌/◌, length};
ghost use Rattle.layout.specs.Layout.{words_per_edge};
ghost use Rattle.contents.specs.Contents.{forgotten};
ghost use Rattle.buffers.specs.Lent.{given, left};

use layout::{EDGE_SCRATCH, WORDS_PER_EDGE};

// The link that each edge remembers for the next walk is forgotten, in every whole slot of the slice.
pub fn forget(edges: &mut [u32])
    ensures { left edges ≡ forgotten (length (given edges) / words_per_edge) (given edges) }
{
    let n = edges.len() / (WORDS_PER_EDGE as usize);
    for e in 0..n {
        edges[(WORDS_PER_EDGE as usize) * e + (EDGE_SCRATCH as usize)] = 0;
    }
}
