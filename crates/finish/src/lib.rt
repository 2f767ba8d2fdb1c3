// The end of `compute`, where no event is queued any more: the last pass over the vertices, and zeros in what is no part of a field.
#![tactic(auto)]

ghost use Rattle.std.specs.Prelude.{◌≤◌, length};
ghost use Rattle.layout.specs.Layout.{words_per_edge};
ghost use Rattle.buffers.specs.Slots.{slots_of};
ghost use Rattle.buffers.specs.Lent.{given, left};
ghost use Rattle.windows.specs.Windows.{capacity_of};
ghost use Rattle.offers.specs.of_cut_lists.Buffers.{cuts_before, cuts_after};
ghost use Rattle.offers.specs.of_trim.Buffers.{slices};
ghost use Rattle.finish.specs.Finish.{FinishesTo};

pub use face_entries::of_mesh as of_mesh;
pub use offers::of_trim_split as of_trim_split;
pub use zero_buffers as of_zero_buffers;

// Of so many edges, where so many windows are made. The edges forget the links that they remember; the queue and the lists of additions are zeroed.
pub fn finish(
    edge_words: &mut [u32],
    edge_reals: &[f64],
    words: &[u32],
    reals: &[f64],
    vertex: &mut [f64],
    keys: &mut [f64],
    events: &mut [u32],
    pts: &mut [f64],
    out: &mut [f64],
    keep: &mut [f64],
    next: &mut [f64],
    edges: u32,
    made: u32,
)
    requires { (made ≤ capacity_of (length words.now) (length reals.now)) × (edges ≤ slots_of (length edge_words.old) words_per_edge) }
    ensures { FinishesTo edges made edge_reals.now
        (slices (given edge_words) words.now reals.now (given keys) (given events) (given vertex)) (cuts_before pts out keep next)
        (slices (left edge_words) words.now reals.now (left keys) (left events) (left vertex)) (cuts_after pts out keep next) }
{
    last_pass::lower_all(edge_words, edge_reals, words, reals, vertex, edges, made);
    contents::forget(edge_words);
    buffers::zero_f64(keys);
    buffers::zero_u32(events);
    buffers::zero_f64(pts);
    buffers::zero_f64(out);
    buffers::zero_f64(keep);
    buffers::zero_f64(next);
}
