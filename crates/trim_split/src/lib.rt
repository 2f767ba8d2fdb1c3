// An existing window is split into pieces, which are made windows and queued.
#![tactic(auto)]

ghost use Rattle.std.specs.Prelude.{ℕ, suc, ◌+◌, ◌≤◌, ◌<◌, pred, List, [], ◌∷◌, ◌≡◌, length, drop, Float};
ghost use Rattle.buffers.specs.Slots.{slots_of};
ghost use Rattle.source.specs.Distance.{lowest_of};
ghost use Rattle.cut_lists.specs.of_better.Stretches.{interval};
ghost use Rattle.cut_lists.specs.of_better.Buffers.{pairs};
ghost use Rattle.cut_lists.specs.of_trim_model.Windows.{part, fresh, split};
ghost use Rattle.live_windows.specs.of_trim_state.Trace.{making, makings, splitting};
ghost use Rattle.live_windows.specs.Live.{live_of};
ghost use Rattle.trim_split.specs.Trimmed.{trimmed_to};
ghost use Rattle.trim_split.specs.Running.{Ready, Counted, room_for, snapshot_before, end_after, made_end, Does};

use buffers::{EdgeId, Lack, WindowId};
pub use cut_lists as of_cut_lists;
pub use live_windows as of_live_windows;
use source::Win;
use windows::WindowRecord;

// How many windows are made, and how many events are queued.
#[derive(Clone, Copy)]
pub struct Counts {
    pub made: u32,
    pub queued: u32,
}

// How many there are now, and the link of the last window that was put on the chain.
#[derive(Clone, Copy)]
pub struct Made {
    pub counts: Counts,
    pub last: u32,
}

// The part of a window from b0 to b1, with its lowest value there.
pub fn trimmed(w: Win, b0: f64, b1: f64) -> Win
    ensures { result ≡ trimmed_to w b0 b1 }
{
    let src = w.src;
    let low = source::lowest(src, b0, b1);
    Win { b0, b1, low, src }
}

// The part of window x from b0 to b1, where its lowest value is low, is made, put behind a link of its edge, and queued if x is.
pub fn make_part(
    edges: &mut [u32],
    words: &mut [u32],
    reals: &mut [f64],
    keys: &mut [f64],
    events: &mut [u32],
    counts: Counts,
    e: EdgeId,
    before: u32,
    x: WindowRecord,
    b0: f64,
    b1: f64,
    low: f64,
) -> Result<Made, Lack>
    requires { Ready e.0 counts.made before edges.old words.old reals.old × (low ≡ lowest_of x.win.src b0 b1) }
    ensures { Counted result (suc counts.made) × ((cuts : ℕ) (limit : Float) (flags : List ℕ) (vertex : List Float) (k : ℕ) →
        Does cuts (room_for words reals) limit flags e.0 (making e.0 (live_of x k) counts.made (interval b0 b1)) [] (part (live_of x k) b0 b1 counts.made ∷ [])
        (snapshot_before edges words reals keys events counts.made counts.queued before vertex)
        (end_after edges words reals keys events (made_end result) vertex)) }
{
    let made = counts.made;
    let queued = counts.queued;
    let old = x.win;
    let carried = x.carried;
    if windows::capacity(words, reals) <= made {
        return Err(Lack::Windows);
    }
    let src = old.src;
    let win = Win { b0, b1, low, src };
    live_windows::make_window(edges, words, reals, made, e, before, carried, win);
    if carried.queued {
        let event = heap::window_event(low, WindowId(made));
        let n = heap::push(keys, events, queued, event)?;
        return Ok(Made {
            counts: Counts {
                made: made + 1,
                queued: n,
            },
            last: made + 1,
        });
    }
    Ok(Made {
        counts: Counts {
            made: made + 1,
            queued,
        },
        last: made + 1,
    })
}

// The pieces of window x but for the first are made, one behind the other.
fn make_parts(
    edges: &mut [u32],
    words: &mut [u32],
    reals: &mut [f64],
    keys: &mut [f64],
    events: &mut [u32],
    counts: Counts,
    e: EdgeId,
    before: u32,
    x: WindowRecord,
    pieces: &[f64],
    n: usize,
) -> Result<Made, Lack>
    requires { Ready e.0 counts.made before edges.old words.old reals.old × (n + n ≤ length pieces.now) }
    ensures { Counted result (counts.made + length (drop 1 (pairs n pieces.now))) × ((cuts : ℕ) (limit : Float) (flags : List ℕ) (vertex : List Float) (k : ℕ) →
        Does cuts (room_for words reals) limit flags e.0 (makings e.0 (live_of x k) counts.made (drop 1 (pairs n pieces.now)))
        [] (fresh (live_of x k) counts.made (drop 1 (pairs n pieces.now)))
        (snapshot_before edges words reals keys events counts.made counts.queued before vertex)
        (end_after edges words reals keys events (made_end result) vertex)) }
{
    let mut now = Made {
        counts,
        last: before,
    };
    for i in 1..n {
        let b0 = cut_lists::from_of(pieces, i);
        let b1 = cut_lists::to_of(pieces, i);
        let old = x.win;
        let src = old.src;
        let low = source::lowest(src, b0, b1);
        now = make_part(
            edges, words, reals, keys, events, now.counts, e, now.last, x, b0, b1, low,
        )?;
    }
    Ok(now)
}

// Window x, of number id, becomes its n pieces: it is trimmed to the first, and the others are made behind it; or it is taken out.
pub fn split_window(
    edges: &mut [u32],
    words: &mut [u32],
    reals: &mut [f64],
    keys: &mut [f64],
    events: &mut [u32],
    counts: Counts,
    e: EdgeId,
    before: u32,
    id: WindowId,
    x: WindowRecord,
    pieces: &[f64],
    n: usize,
) -> Result<Made, Lack>
    requires { Ready e.0 counts.made before edges.old words.old reals.old × ((id.0 < counts.made) × (n + n ≤ length pieces.now)) }
    ensures { Counted result (counts.made + pred (length (pairs n pieces.now))) × ((cuts : ℕ) (limit : Float) (flags : List ℕ) (vertex : List Float) →
        Does cuts (room_for words reals) limit flags e.0 (splitting e.0 (live_of x id.0) counts.made (pairs n pieces.now))
        (live_of x id.0 ∷ []) (split (live_of x id.0) counts.made (pairs n pieces.now))
        (snapshot_before edges words reals keys events counts.made counts.queued before vertex)
        (end_after edges words reals keys events (made_end result) vertex)) }
{
    let made = counts.made;
    let old = x.win;
    if n == 0 {
        live_windows::kill_window(edges, words, reals, made, e, before, id);
        return Ok(Made {
            counts,
            last: before,
        });
    }
    let b0 = cut_lists::from_of(pieces, 0);
    let b1 = cut_lists::to_of(pieces, 0);
    let first = trimmed(old, b0, b1);
    live_windows::trim_window(words, reals, id, b0, b1, first.low);
    make_parts(
        edges,
        words,
        reals,
        keys,
        events,
        counts,
        e,
        id.0 + 1,
        x,
        pieces,
        n,
    )
}
