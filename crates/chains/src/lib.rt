// Chains of windows: each edge's windows in order, linked through the window buffer. `count` is at most how many windows that buffer counts
// for, and each function is lent both of its slices, since both make that number. A link to a window past `count` is none, so whatever numbers
// the buffers hold, no window past the count is met.
#![tactic(auto)]

ghost use Rattle.std.specs.Prelude.{◌≡◌, ◌+◌, ◌-◌, ◌≤◌, ◌<◌, length};
ghost use Rattle.layout.specs.Layout.{words_per_edge};
ghost use Rattle.buffers.specs.Slots.{slots_of};
ghost use Rattle.windows.specs.Windows.{capacity_of};
ghost use Rattle.chains.specs.Chains.{links, link_in, link_at, with_link};
ghost use Rattle.buffers.specs.Lent.{given, left};

use buffers::{EdgeId, read_u32, write_u32};
use layout::{EDGE_HEAD, WINDOW_LINK, WORDS_PER_EDGE, WORDS_PER_WINDOW};

// A link that was read.
pub fn within(link: u32, count: u32) -> u32
    ensures { result ≡ link_in count link }
{
    if link <= count {
        return link;
    }
    0
}

// The link after `before` on the chain of an edge; after 0 comes the head.
pub fn link_at(
    edges: &[u32],
    words: &[u32],
    reals: &[f64],
    count: u32,
    e: EdgeId,
    before: u32,
) -> u32
    requires { (e.0 < slots_of (length edges.now) words_per_edge) × (before ≤ count) × (count ≤ capacity_of (length words.now) (length reals.now)) }
    ensures { result ≡ link_in count (link_at (links edges.now words.now) e.0 before) }
{
    if before == 0 {
        let head = read_u32(edges, WORDS_PER_EDGE, e.0, EDGE_HEAD);
        return within(head, count);
    }
    let next = read_u32(words, WORDS_PER_WINDOW, before - 1, WINDOW_LINK);
    within(next, count)
}

pub fn set_link(
    edges: &mut [u32],
    words: &mut [u32],
    reals: &[f64],
    count: u32,
    e: EdgeId,
    before: u32,
    link: u32,
)
    requires { (e.0 < slots_of (length edges.old) words_per_edge) × (before ≤ count) × (count ≤ capacity_of (length words.old) (length reals.now)) }
    ensures { links (left edges) (left words) ≡ with_link (links (given edges) (given words)) e.0 before link }
{
    if before == 0 {
        write_u32(edges, WORDS_PER_EDGE, e.0, EDGE_HEAD, link);
        return;
    }
    write_u32(words, WORDS_PER_WINDOW, before - 1, WINDOW_LINK, link);
}
