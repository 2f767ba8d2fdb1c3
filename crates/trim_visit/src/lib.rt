// The windows that a new one meets, visited one after the other along the chain of their edge.
#![tactic(auto)]

ghost use Rattle.buffers.specs.Lent.{given, left};
ghost use Rattle.std.specs.Prelude.{ℕ, ◌≤◌, ◌<◌, List, length, Float};
ghost use Rattle.trim_split.specs.of_better.Stretches.{better_of};
ghost use Rattle.trim_split.specs.of_better.Buffers.{pairs};
ghost use Rattle.trim_split.specs.of_trim_model.Windows.{Window};
ghost use Rattle.trim_split.specs.of_trim_model.Add.{visit as Add·visit};
ghost use Rattle.trim_split.specs.of_live_windows.Live.{live_of};
ghost use Rattle.trim_split.specs.of_cut_lists.Cut.{Sizes};
ghost use Rattle.trim_split.specs.Running.{Ready, room_for, snapshot_before, end_after};
ghost use Rattle.trim_visit.specs.Visiting.{from, visited_end, Keeps, VisitedWithin, Visits1, VisitsAll};

use buffers::{EdgeId, Lack, WindowId};
pub use trim_split as of_trim_split;
pub use trim_split::of_live_windows as of_live_windows;
use trim_split::{Counts, of_cut_lists};
use windows::WindowRecord;

// How many windows and events there are now, the link of the last window that survived, and how many intervals the new window keeps.
#[derive(Clone, Copy)]
pub struct Visited {
    pub counts: Counts,
    pub last: u32,
    pub kept: usize,
}

// The new window w, which keeps k intervals, meets window x, of number id.
fn visit(
    edges: &mut [u32],
    words: &mut [u32],
    reals: &mut [f64],
    keys: &mut [f64],
    events: &mut [u32],
    pts: &mut [f64],
    out: &mut [f64],
    keep: &mut [f64],
    next: &mut [f64],
    counts: Counts,
    e: EdgeId,
    before: u32,
    id: WindowId,
    x: WindowRecord,
    k: usize,
    w: WindowRecord,
    tiny: f64,
) -> Result<Visited, Lack>
    requires { Ready e.0 counts.made before edges.old words.old reals.old
        × ((id.0 < counts.made) × (Sizes (length pts.old) out.old keep.old next.old × (k ≤ length pts.old))) }
    ensures { Keeps (length (given pts)) result (left keep) (Add·visit better_of tiny (live_of w 0) (live_of x id.0) (from (pairs k (given keep)) counts.made))
        × ((limit : Float) (flags : List ℕ) (vertex : List Float) →
        Visits1 (length (given pts)) (room_for words reals) limit flags e.0 tiny (live_of w 0) (pairs k (given keep)) (live_of x id.0)
        (snapshot_before edges words reals keys events counts.made counts.queued before vertex)
        (end_after edges words reals keys events (visited_end result) vertex)) }
{
    let new = w.win;
    let old = x.win;
    let lo = float64::max(old.b0, new.b0);
    let hi = float64::min(old.b1, new.b1);
    if hi - lo <= tiny {
        return Ok(Visited {
            counts,
            last: id.0 + 1,
            kept: k,
        });
    }
    let p = new.src;
    let q = old.src;
    let met = of_cut_lists::cut(
        p,
        q,
        lo,
        hi,
        old.b0,
        old.b1,
        tiny,
        pts,
        out,
        keep,
        k,
        next,
        new.low,
        new.b1 - new.b0,
        old.low,
    );
    let Some(shared) = met else {
        return Err(Lack::Cuts);
    };
    if shared.lost == 0 {
        return Ok(Visited {
            counts,
            last: id.0 + 1,
            kept: shared.kept,
        });
    }
    let made = trim_split::split_window(
        edges,
        words,
        reals,
        keys,
        events,
        counts,
        e,
        before,
        id,
        x,
        next,
        shared.pieces,
    )?;
    Ok(Visited {
        counts: made.counts,
        last: made.last,
        kept: shared.kept,
    })
}

// The windows behind a link that start before the new one's end are visited. As many turns as windows are made are enough, whatever the buffers hold.
pub fn visits(
    edges: &mut [u32],
    words: &mut [u32],
    reals: &mut [f64],
    keys: &mut [f64],
    events: &mut [u32],
    pts: &mut [f64],
    out: &mut [f64],
    keep: &mut [f64],
    next: &mut [f64],
    counts: Counts,
    e: EdgeId,
    before: u32,
    k: usize,
    w: WindowRecord,
    tiny: f64,
) -> Result<Visited, Lack>
    requires { Ready e.0 counts.made before edges.old words.old reals.old × (Sizes (length pts.old) out.old keep.old next.old × (k ≤ length pts.old)) }
    ensures { VisitedWithin (length (given pts)) (room_for words reals) counts.made result × ((limit : Float) (flags : List ℕ) (vertex : List Float) →
        VisitsAll (length (given pts)) (room_for words reals) limit flags e.0 tiny (live_of w 0) (λ zs. length zs ≤ counts.made) (pairs k (given keep))
        (snapshot_before edges words reals keys events counts.made counts.queued before vertex) result
        (end_after edges words reals keys events (visited_end result) vertex) (left keep)) }
{
    let new = w.win;
    let end = new.b1 + tiny;
    let mut now = Visited {
        counts,
        last: before,
        kept: k,
    };
    for _turn in 0..counts.made {
        let link = of_live_windows::next_link(edges, words, reals, now.counts.made, e, now.last);
        if link == 0 {
            return Ok(now);
        }
        let id = WindowId(link - 1);
        let x = of_live_windows::load(words, reals, id);
        let old = x.win;
        if old.b0 < end {
            now = visit(
                edges, words, reals, keys, events, pts, out, keep, next, now.counts, e, now.last,
                id, x, now.kept, w, tiny,
            )?;
        } else {
            return Ok(now);
        }
    }
    Ok(now)
}
