// The live windows of the edges, in the window buffer and its chains. A link is a window's number plus one, and 0 is none or, where
// something stands behind a link, the head of the chain. A link that is read counts only where it leads to one of the first `made`
// windows, so whatever the buffers hold, no other window is touched.
#![tactic(auto)]

ghost use Rattle.std.specs.Prelude.{◌≡◌, ◌&&◌, not, ◌+◌, ◌*◌, ◌≤◌, ◌<◌, get_or, length};
ghost use Rattle.std.specs.Float.{nan};
ghost use Rattle.std.specs.Float.Ieee.{lt};
ghost use Rattle.layout.specs.Layout.{words_per_edge, reals_per_window, window_b0, window_b1};
ghost use Rattle.float64.specs.TotalOrder.{total_less};
ghost use Rattle.buffers.specs.Slots.{slots_of};
ghost use Rattle.windows.specs.Windows.{capacity_of};
ghost use Rattle.chains.specs.Chains.{links};
ghost use Rattle.trim_model.specs.Add.{passes};
ghost use Rattle.live_windows.specs.Live.{window_of, sorts_before, LinkFollows, Walked, Begins, Fronted, Loads, Makes, Trims, Kills};
ghost use Rattle.buffers.specs.Lent.{given, left};

use buffers::{EdgeId, WindowId, read_f64, read_u32, write_u32};
use layout::{
    ALIVE_FLAG, EDGE_SCRATCH, QUEUED_FLAG, REALS_PER_WINDOW, WINDOW_B0, WINDOW_B1, WINDOW_EDGE,
    WINDOW_FLAGS, WINDOW_LINK, WORDS_PER_EDGE, WORDS_PER_WINDOW,
};
use source::Win;
use windows::{Carried, WindowRecord};

// The link that follows `before` on the chain of an edge.
pub fn next_link(
    edges: &[u32],
    words: &[u32],
    reals: &[f64],
    made: u32,
    e: EdgeId,
    before: u32,
) -> u32
    requires { (made ≤ capacity_of (length words.now) (length reals.now)) × ((e.0 < slots_of (length edges.now) words_per_edge) × (before ≤ made)) }
    ensures { LinkFollows made (links edges.now words.now) e.0 before result }
{
    chains::link_at(edges, words, reals, made, e, before)
}

// Whether a window starts before b0 and ends at or before lo.
fn passes_by(reals: &[f64], i: u32, b0: f64, lo: f64) -> bool
    ensures { result ≡ (lt (get_or reals.now (reals_per_window * i + window_b0) nan) b0 && not (lt lo (get_or reals.now (reals_per_window * i + window_b1) nan))) }
{
    let start = read_f64(reals, REALS_PER_WINDOW, i, WINDOW_B0);
    let end = read_f64(reals, REALS_PER_WINDOW, i, WINDOW_B1);
    if start < b0 {
        if lo < end {
            return false;
        }
        return true;
    }
    false
}

// Whether a window starts before b0, as windows are sorted.
fn starts_by(reals: &[f64], i: u32, b0: f64) -> bool
    ensures { result ≡ total_less (get_or reals.now (reals_per_window * i + window_b0) nan) b0 }
{
    let start = read_f64(reals, REALS_PER_WINDOW, i, WINDOW_B0);
    float64::total_less(start, b0)
}

// Where a walk along the front may start: behind the window that the last one ended at, if that is alive, still of this edge, and passed once more, or at the head.
fn remembered(
    edges: &[u32],
    words: &[u32],
    reals: &[f64],
    made: u32,
    e: EdgeId,
    b0: f64,
    tiny: f64,
) -> u32
    ensures { Begins (passes tiny b0) made (links edges.now words.now) reals.now e.0 result }
{
    let link = read_u32(edges, WORDS_PER_EDGE, e.0, EDGE_SCRATCH);
    let at = chains::within(link, made);
    if at == 0 {
        return 0;
    }
    let edge = read_u32(words, WORDS_PER_WINDOW, at - 1, WINDOW_EDGE);
    if edge != e.0 {
        return 0;
    }
    let flags = read_u32(words, WORDS_PER_WINDOW, at - 1, WINDOW_FLAGS);
    let alive = windows::has_flag(flags, ALIVE_FLAG);
    if alive {
        let go = passes_by(reals, at - 1, b0, b0 - tiny);
        if go {
            return at;
        }
    }
    0
}

// The walk from a link to the first window that a new one, which starts at b0, may share something with: the link of the last window passed.
fn pass_from(
    edges: &[u32],
    words: &[u32],
    reals: &[f64],
    made: u32,
    e: EdgeId,
    from: u32,
    b0: f64,
    tiny: f64,
) -> u32
    requires { (made ≤ capacity_of (length words.now) (length reals.now)) × ((e.0 < slots_of (length edges.now) words_per_edge) × (from ≤ made)) }
    ensures { Walked (passes tiny b0) made (links edges.now words.now) reals.now e.0 from result }
{
    let lo = b0 - tiny;
    let mut before = from;
    let mut left = made;
    while 0 < left {
        let at = next_link(edges, words, reals, made, e, before);
        if at == 0 {
            return before;
        }
        let go = passes_by(reals, at - 1, b0, lo);
        if go {
            before = at;
            left -= 1;
        } else {
            return before;
        }
    }
    before
}

// The link of the last window that a new one, which starts at b0, passes from the head on. The edge remembers it, since the next new window mostly starts near.
pub fn pass_front(
    edges: &mut [u32],
    words: &[u32],
    reals: &[f64],
    made: u32,
    e: EdgeId,
    b0: f64,
    tiny: f64,
) -> u32
    requires { (made ≤ capacity_of (length words.now) (length reals.now)) × (e.0 < slots_of (length edges.old) words_per_edge) }
    ensures { Fronted (passes tiny b0) made (links (given edges) words.now) reals.now (left edges) e.0 result }
{
    let from = remembered(edges, words, reals, made, e, b0, tiny);
    let last = pass_from(edges, words, reals, made, e, from, b0, tiny);
    write_u32(edges, WORDS_PER_EDGE, e.0, EDGE_SCRATCH, last);
    last
}

// The walk from a link to where a window that starts at b0 is to stand, before those that start there: the link of the last window before it.
pub fn seat_from(
    edges: &[u32],
    words: &[u32],
    reals: &[f64],
    made: u32,
    e: EdgeId,
    from: u32,
    b0: f64,
) -> u32
    requires { (made ≤ capacity_of (length words.now) (length reals.now)) × ((e.0 < slots_of (length edges.now) words_per_edge) × (from ≤ made)) }
    ensures { Walked (sorts_before b0) made (links edges.now words.now) reals.now e.0 from result }
{
    let mut before = from;
    let mut left = made;
    while 0 < left {
        let at = next_link(edges, words, reals, made, e, before);
        if at == 0 {
            return before;
        }
        let go = starts_by(reals, at - 1, b0);
        if go {
            before = at;
            left -= 1;
        } else {
            return before;
        }
    }
    before
}

pub fn load(words: &[u32], reals: &[f64], id: WindowId) -> WindowRecord
    requires { id.0 < capacity_of (length words.now) (length reals.now) }
    ensures { Loads words.now reals.now id.0 result }
{
    windows::load(words, reals, id)
}

// A window is made, as number `made`, and put behind a link of its edge.
pub fn make_window(
    edges: &mut [u32],
    words: &mut [u32],
    reals: &mut [f64],
    made: u32,
    e: EdgeId,
    before: u32,
    carried: Carried,
    win: Win,
)
    requires { (made < capacity_of (length words.old) (length reals.old)) × ((e.0 < slots_of (length edges.old) words_per_edge) × (before ≤ made)) }
    ensures { Makes made (links (given edges) (given words)) (links (left edges) (left words)) (given reals) (left reals) e.0 before (window_of e carried 0 win) }
{
    let next = next_link(edges, words, reals, made, e, before);
    let x = WindowRecord {
        edge: e,
        carried,
        alive: true,
        link: next,
        win,
    };
    windows::store(words, reals, WindowId(made), x);
    chains::set_link(edges, words, reals, made, e, before, made + 1);
}

// A window is trimmed.
pub fn trim_window(words: &[u32], reals: &mut [f64], id: WindowId, b0: f64, b1: f64, low: f64)
    requires { id.0 < capacity_of (length words.now) (length reals.old) }
    ensures { Trims (given reals) (left reals) id.0 b0 b1 low }
{
    windows::store_range(words, reals, id, b0, b1, low);
}

// A window is taken out from behind a link of its edge. It keeps no link and all else but its flag.
pub fn kill_window(
    edges: &mut [u32],
    words: &mut [u32],
    reals: &[f64],
    made: u32,
    e: EdgeId,
    before: u32,
    id: WindowId,
)
    requires { (made ≤ capacity_of (length words.old) (length reals.now)) × ((e.0 < slots_of (length edges.old) words_per_edge) × ((before ≤ made) × (id.0 < made))) }
    ensures { Kills made (links (given edges) (given words)) (links (left edges) (left words)) e.0 before id.0 }
{
    let link = read_u32(words, WORDS_PER_WINDOW, id.0, WINDOW_LINK);
    let next = chains::within(link, made);
    let flags = read_u32(words, WORDS_PER_WINDOW, id.0, WINDOW_FLAGS);
    let queued = windows::has_flag(flags, QUEUED_FLAG);
    chains::set_link(edges, words, reals, made, e, before, next);
    write_u32(words, WORDS_PER_WINDOW, id.0, WINDOW_LINK, 0);
    windows::store_flags(words, id, false, queued);
}
