// What the work on a job starts from once its mesh is made, whatever the slices held before: the table of its pieces, no window, no event, no entry in a face,
// and every vertex infinitely far. The Rust's `Field { .. }` at the start of `compute`, and its `behind`.
#![tactic(auto)]

ghost use Rattle.std.specs.Prelude.{◌≡◌, ◌*◌, ◌≤◌, length};
ghost use Rattle.layout.specs.Layout.{words_per_piece, reals_per_vertex};
ghost use Rattle.buffers.specs.Lent.{given, left};
ghost use Rattle.buffers.specs.Slots.{fill};
ghost use Rattle.begin.specs.Begin.{unreached, vertex_reals, ZeroWindows, begun, work_before, work_after};
ghost use Rattle.piece_ends.specs.Table.{piece_words_of};
ghost use Rattle.piece_ends.specs.Directions.{piece_reals_of};

use buffers::{write_f64, zero_f64, zero_f64_from, zero_u32};
use layout::{REALS_PER_VERTEX, VERTEX_DISTANCE, VERTEX_EMITTED};

// A vertex that nothing has reached and that has emitted nothing.
fn leave_unreached(vertex: &mut [f64], v: u32)
    ensures { left vertex ≡ fill reals_per_vertex (given vertex) v 0 unreached }
{
    let infinity = 1.0 / 0.0;
    write_f64(vertex, REALS_PER_VERTEX, v, VERTEX_DISTANCE, infinity);
    write_f64(vertex, REALS_PER_VERTEX, v, VERTEX_EMITTED, infinity);
}

// The distances of n vertices; the slots behind them are zeroed.
pub fn begin_vertices(vertex: &mut [f64], n: u32)
    ensures { left vertex ≡ vertex_reals n (length (given vertex)) }
{
    for v in 0..n {
        leave_unreached(vertex, v);
    }
    zero_f64_from(vertex, (REALS_PER_VERTEX as usize) * (n as usize));
}

pub fn begin_pieces(kinds: &[u8], coords: &[f64], piece_words: &mut [u32], piece_reals: &mut [f64])
    requires { (length kinds.now ≤ 65535) × (words_per_piece * length kinds.now ≤ length piece_words.old) }
    ensures { (left piece_words ≡ piece_words_of kinds.now coords.now (length (given piece_words)))
        × (left piece_reals ≡ piece_reals_of kinds.now coords.now (length (given piece_reals))) }
{
    piece_ends::build(kinds, coords, piece_words);
    piece_ends::directions(kinds, coords, piece_reals);
}

fn zero_windows(
    words: &mut [u32],
    reals: &mut [f64],
    keys: &mut [f64],
    events: &mut [u32],
    entry_words: &mut [u32],
)
    ensures { ZeroWindows (given words) (given reals) (given keys) (given events) (given entry_words)
        (left words) (left reals) (left keys) (left events) (left entry_words) }
{
    zero_u32(words);
    zero_f64(reals);
    zero_f64(keys);
    zero_u32(events);
    zero_u32(entry_words);
}

// For a mesh of n vertices.
pub fn begin_buffers(
    kinds: &[u8],
    coords: &[f64],
    n: u32,
    piece_words: &mut [u32],
    piece_reals: &mut [f64],
    vertex: &mut [f64],
    words: &mut [u32],
    reals: &mut [f64],
    keys: &mut [f64],
    events: &mut [u32],
    entry_words: &mut [u32],
)
    requires { (length kinds.now ≤ 65535) × (words_per_piece * length kinds.now ≤ length piece_words.old) }
    ensures { work_after piece_words piece_reals vertex words reals keys events entry_words
        ≡ begun kinds.now coords.now n (work_before piece_words piece_reals vertex words reals keys events entry_words) }
{
    begin_pieces(kinds, coords, piece_words, piece_reals);
    begin_vertices(vertex, n);
    zero_windows(words, reals, keys, events, entry_words);
}
