// The window buffer: for each window u32 words (its edge, the face it goes into, its flags, its link) and f64 reals (its ends,
// its least value, the three numbers of its source). Crate `layout` says where each stands.
#![tactic(auto)]

ghost use Rattle.std.specs.Prelude.{◌≡◌, cond, ◌+◌, ◌*◌, ◌/◌, ◌%◌, ◌≤◌, ◌<◌, [], ◌∷◌, length};
ghost use Rattle.layout.specs.Layout.{reals_per_window, window_s0};
ghost use Rattle.buffers.specs.Slots.{fill};
ghost use Rattle.windows.specs.Windows.{is_line, src_of, reals_of, win_at, window_at, words_with, reals_with, range_with, flags_with, flags_of, has_flag, capacity_of};
ghost use Rattle.buffers.specs.Lent.{given, left};

use buffers::{EdgeId, FaceId, VertexId, WindowId, read_u32, write_f64, write_u32};
use layout::{
    ALIVE_FLAG, LINE_FLAG, QUEUED_FLAG, REALS_PER_WINDOW, WINDOW_B0, WINDOW_B1, WINDOW_EDGE,
    WINDOW_FLAGS, WINDOW_INTO, WINDOW_LINK, WINDOW_LOW, WINDOW_S0, WINDOW_S1, WINDOW_S2,
    WORDS_PER_WINDOW,
};
use source::{Src, Win};

// What a window only carries along: the face it goes into, and whether it is queued.
#[derive(Clone, Copy)]
pub struct Carried {
    pub into: FaceId,
    pub queued: bool,
}

// An edge: its number, its length and its two ends.
#[derive(Clone, Copy)]
pub struct Edge {
    pub id: EdgeId,
    pub len: f64,
    pub a: VertexId,
    pub b: VertexId,
}

// A window that is to be added to an edge.
#[derive(Clone, Copy)]
pub struct NewWindow {
    pub b0: f64,
    pub b1: f64,
    pub src: Src,
    pub carried: Carried,
}

// A window with what the buffer keeps beside it.
#[derive(Clone, Copy)]
pub struct WindowRecord {
    pub edge: EdgeId,
    pub carried: Carried,
    pub alive: bool,
    // The next window of its edge's chain, as its number plus one; 0 is none.
    pub link: u32,
    pub win: Win,
}

// How many windows the buffer counts for.
pub fn capacity(words: &[u32], reals: &[f64]) -> u32
    ensures { result ≡ capacity_of (length words.now) (length reals.now) }
{
    buffers::count(words.len(), WORDS_PER_WINDOW, reals.len(), REALS_PER_WINDOW)
}

fn weight(flag: bool, v: u32) -> u32
    ensures { result ≡ cond flag v 0 }
{
    if flag {
        return v;
    }
    0
}

// The kind of a window's source and its flags in one number.
pub fn flags(line: bool, alive: bool, queued: bool) -> u32
    ensures { result ≡ flags_of line alive queued }
{
    weight(line, LINE_FLAG) + weight(alive, ALIVE_FLAG) + weight(queued, QUEUED_FLAG)
}

// Whether a number has the flag of weight v.
pub fn has_flag(flags: u32, v: u32) -> bool
    requires { 0 < v }
    ensures { result ≡ has_flag flags v }
{
    if flags / v % 2 == 1 {
        return true;
    }
    false
}

fn is_line(src: Src) -> bool
    ensures { result ≡ is_line src }
{
    match src {
        Src::Point { x: _, y: _, s: _ } => false,
        Src::Line { ux: _, uy: _, c: _ } => true,
    }
}

fn source_of(line: bool, s0: f64, s1: f64, s2: f64) -> Src
    ensures { result ≡ src_of line s0 s1 s2 }
{
    if line {
        return Src::Line {
            ux: s0,
            uy: s1,
            c: s2,
        };
    }
    Src::Point {
        x: s0,
        y: s1,
        s: s2,
    }
}

fn load_win(reals: &[f64], id: WindowId, line: bool) -> Win
    requires { reals_per_window * id.0 + reals_per_window ≤ length reals.now }
    ensures { result ≡ win_at line reals.now id.0 }
{
    let i = (REALS_PER_WINDOW as usize) * (id.0 as usize);
    let src = source_of(
        line,
        reals[i + (WINDOW_S0 as usize)],
        reals[i + (WINDOW_S1 as usize)],
        reals[i + (WINDOW_S2 as usize)],
    );
    Win {
        b0: reals[i + (WINDOW_B0 as usize)],
        b1: reals[i + (WINDOW_B1 as usize)],
        low: reals[i + (WINDOW_LOW as usize)],
        src,
    }
}

// A window is read or written only where the buffer counts for it: each of these functions is lent both slices, since both make the count.
pub fn load(words: &[u32], reals: &[f64], id: WindowId) -> WindowRecord
    requires { id.0 < capacity_of (length words.now) (length reals.now) }
    ensures { result ≡ window_at words.now reals.now id.0 }
{
    let i = (WORDS_PER_WINDOW as usize) * (id.0 as usize);
    let flags = words[i + (WINDOW_FLAGS as usize)];
    let win = load_win(reals, id, has_flag(flags, LINE_FLAG));
    let carried = Carried {
        into: FaceId(words[i + (WINDOW_INTO as usize)]),
        queued: has_flag(flags, QUEUED_FLAG),
    };
    WindowRecord {
        edge: EdgeId(words[i + (WINDOW_EDGE as usize)]),
        carried,
        alive: has_flag(flags, ALIVE_FLAG),
        link: words[i + (WINDOW_LINK as usize)],
        win,
    }
}

fn store_words(words: &mut [u32], id: WindowId, x: WindowRecord)
    ensures { left words ≡ words_with (given words) id.0 x }
{
    let k = id.0;
    let edge = x.edge;
    let carried = x.carried;
    let into = carried.into;
    let win = x.win;
    let src = win.src;
    let line = is_line(src);
    let flags = flags(line, x.alive, carried.queued);
    write_u32(words, WORDS_PER_WINDOW, k, WINDOW_EDGE, edge.0);
    write_u32(words, WORDS_PER_WINDOW, k, WINDOW_INTO, into.0);
    write_u32(words, WORDS_PER_WINDOW, k, WINDOW_FLAGS, flags);
    write_u32(words, WORDS_PER_WINDOW, k, WINDOW_LINK, x.link);
}

fn store_three(reals: &mut [f64], id: WindowId, s0: f64, s1: f64, s2: f64)
    ensures { left reals ≡ fill reals_per_window (given reals) id.0 window_s0 (s0 ∷ s1 ∷ s2 ∷ []) }
{
    let k = id.0;
    write_f64(reals, REALS_PER_WINDOW, k, WINDOW_S0, s0);
    write_f64(reals, REALS_PER_WINDOW, k, WINDOW_S1, s1);
    write_f64(reals, REALS_PER_WINDOW, k, WINDOW_S2, s2);
}

fn store_src(reals: &mut [f64], id: WindowId, src: Src)
    ensures { left reals ≡ fill reals_per_window (given reals) id.0 window_s0 (reals_of src) }
{
    match src {
        Src::Point { x, y, s } => store_three(reals, id, x, y, s),
        Src::Line { ux, uy, c } => store_three(reals, id, ux, uy, c),
    }
}

fn store_reals(reals: &mut [f64], id: WindowId, x: Win)
    ensures { left reals ≡ reals_with (given reals) id.0 x }
{
    let k = id.0;
    let src = x.src;
    write_f64(reals, REALS_PER_WINDOW, k, WINDOW_B0, x.b0);
    write_f64(reals, REALS_PER_WINDOW, k, WINDOW_B1, x.b1);
    write_f64(reals, REALS_PER_WINDOW, k, WINDOW_LOW, x.low);
    store_src(reals, id, src);
}

pub fn store(words: &mut [u32], reals: &mut [f64], id: WindowId, x: WindowRecord)
    requires { id.0 < capacity_of (length words.old) (length reals.old) }
    ensures { (left words ≡ words_with (given words) id.0 x) × (left reals ≡ reals_with (given reals) id.0 x.win) }
{
    let win = x.win;
    store_words(words, id, x);
    store_reals(reals, id, win);
}

// A window is trimmed: its ends and its least value change, and nothing else.
pub fn store_range(words: &[u32], reals: &mut [f64], id: WindowId, b0: f64, b1: f64, low: f64)
    requires { id.0 < capacity_of (length words.now) (length reals.old) }
    ensures { left reals ≡ range_with (given reals) id.0 b0 b1 low }
{
    let k = id.0;
    write_f64(reals, REALS_PER_WINDOW, k, WINDOW_B0, b0);
    write_f64(reals, REALS_PER_WINDOW, k, WINDOW_B1, b1);
    write_f64(reals, REALS_PER_WINDOW, k, WINDOW_LOW, low);
}

// A window's flags change, and nothing else.
pub fn store_flags(words: &mut [u32], id: WindowId, alive: bool, queued: bool)
    ensures { left words ≡ flags_with (given words) id.0 alive queued }
{
    let old = read_u32(words, WORDS_PER_WINDOW, id.0, WINDOW_FLAGS);
    let line = has_flag(old, LINE_FLAG);
    let flags = flags(line, alive, queued);
    write_u32(words, WORDS_PER_WINDOW, id.0, WINDOW_FLAGS, flags);
}
