// Window trimming: a candidate window is added to its edge.
#![tactic(auto)]

ghost use Rattle.std.specs.Prelude.{◌≤◌, ◌≡◌, [], ◌∷◌, length};
ghost use Rattle.source.specs.Distance.{lowest_of};
ghost use Rattle.trim_visit.specs.of_better.Stretches.{interval};
ghost use Rattle.trim_visit.specs.of_better.Buffers.{pairs};
ghost use Rattle.trim_visit.specs.of_trim_model.Intervals.{tiny_of};
ghost use Rattle.trim_visit.specs.of_cut_lists.Cut.{Sizes};
ghost use Rattle.trim_visit.specs.of_trim_split.Running.{Ready, room_for, snapshot_before, end_after, made_end};
ghost use Rattle.trim_keep.specs.Keeping.{MadeWithin};
ghost use Rattle.trim.specs.Adding.{new_of, Admits, AddsTo};
ghost use Rattle.trim.specs.Buffers.{before, after};
ghost use Rattle.trim_visit.specs.of_cut_lists.Buffers.{cuts_before, cuts_after};
ghost use Rattle.buffers.specs.Lent.{given, left};

use buffers::Lack;
use source::Win;
use trim_visit::of_live_windows;
pub use trim_visit::of_trim_split as of_trim_split;
use trim_visit::of_trim_split::{Counts, Made};
use windows::{Edge, NewWindow, WindowRecord};

// `keep` at first: the whole of the new window.
fn whole(keep: &mut [f64], b0: f64, b1: f64)
    requires { 2 ≤ length keep.old }
    ensures { pairs 1 (left keep) ≡ interval b0 b1 ∷ [] }
{
    keep[0] = b0;
    keep[1] = b1;
}

// The addition of window w, which is admitted.
fn admit(
    edges: &mut [u32],
    words: &mut [u32],
    reals: &mut [f64],
    keys: &mut [f64],
    events: &mut [u32],
    vertex: &mut [f64],
    vertex_words: &[u32],
    pts: &mut [f64],
    out: &mut [f64],
    keep: &mut [f64],
    next: &mut [f64],
    counts: Counts,
    e: Edge,
    w: WindowRecord,
    tiny: f64,
    limit: f64,
) -> Result<Made, Lack>
    requires { Ready e.id.0 counts.made 0 edges.old words.old reals.old
        × (Sizes (length pts.old) out.old keep.old next.old × (w.win.low ≡ lowest_of w.win.src w.win.b0 w.win.b1)) }
    ensures { MadeWithin (room_for words reals) result × (tiny ≡ tiny_of e.len →
        Admits (length (given pts)) (room_for words reals) limit vertex_words.now e (new_of w)
        (snapshot_before edges words reals keys events counts.made counts.queued 0 (given vertex))
        (end_after edges words reals keys events (made_end result) (left vertex))) }
{
    if pts.len() == 0 {
        return Err(Lack::Cuts);
    }
    let win = w.win;
    whole(keep, win.b0, win.b1);
    let before = of_live_windows::pass_front(edges, words, reals, counts.made, e.id, win.b0, tiny);
    let visited = trim_visit::visits(
        edges, words, reals, keys, events, pts, out, keep, next, counts, e.id, before, 1, w, tiny,
    )?;
    trim_keep::keep_parts(
        edges,
        words,
        reals,
        keys,
        events,
        vertex,
        vertex_words,
        keep,
        visited.kept,
        visited.counts,
        e,
        before,
        w,
        tiny,
        limit,
    )
}

// The Rust's `add`: the window w is added to edge e, if it is wide enough and not all beyond the limit. The answer is how many windows and events there are now, or
// what there is no slot for.
pub fn add(
    edges: &mut [u32],
    words: &mut [u32],
    reals: &mut [f64],
    keys: &mut [f64],
    events: &mut [u32],
    vertex: &mut [f64],
    vertex_words: &[u32],
    pts: &mut [f64],
    out: &mut [f64],
    keep: &mut [f64],
    next: &mut [f64],
    counts: Counts,
    e: Edge,
    w: NewWindow,
    limit: f64,
) -> Result<Counts, Lack>
    requires { Ready e.id.0 counts.made 0 edges.old words.old reals.old × Sizes (length pts.old) out.old keep.old next.old }
    ensures { AddsTo limit vertex_words.now e w counts (before edges words reals keys events vertex) (cuts_before pts out keep next)
        result (after edges words reals keys events vertex) (cuts_after pts out keep next) }
{
    let tiny = 1e-11 * e.len;
    let b0 = w.b0;
    let b1 = w.b1;
    let src = w.src;
    let carried = w.carried;
    let id = e.id;
    if b1 - b0 <= tiny {
        return Ok(counts);
    }
    let low = source::lowest(src, b0, b1);
    if low > limit {
        return Ok(counts);
    }
    let win = Win { b0, b1, low, src };
    let x = WindowRecord {
        edge: id,
        carried,
        alive: true,
        link: 0,
        win,
    };
    let made = admit(
        edges,
        words,
        reals,
        keys,
        events,
        vertex,
        vertex_words,
        pts,
        out,
        keep,
        next,
        counts,
        e,
        x,
        tiny,
        limit,
    )?;
    Ok(made.counts)
}
