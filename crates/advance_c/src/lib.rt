// A job's main loop some turns at a time, and its finish, in buffers that programs in C and Rust lend: `insert_c` comes before, and what is then held is a field.
#![tactic(auto)]

ghost use Rattle.std.specs.Prelude.{◌≡◌, ◌+◌, eqb, length};
ghost use Rattle.buffers.specs.Slots.{slots_of};
ghost use Rattle.advance.specs.of_cut_lists.Buffers.{cuts_before, cuts_after};
ghost use Rattle.finish.specs.of_trim.Buffers.{before, after, slices};
ghost use Rattle.advance_c.specs.Turns.{told_counts, turns_told, turns_fit, TurnsAnswer, finish_fits, FinishAnswer};

use advance::Advanced;
use buffers::{Lack, read_u32, write_u32};
use finish::of_trim_split::Counts;
use layout::{REALS_PER_WINDOW, WORDS_PER_EDGE, WORDS_PER_WINDOW};

fn told_counts(told: &[u32]) -> Counts
    ensures { result ≡ told_counts told.now }
{
    Counts {
        made: read_u32(told, 3, 0, 0),
        queued: read_u32(told, 3, 0, 1),
    }
}

fn tell_turns(advanced: Result<Advanced, Lack>, told: &mut [u32]) -> u32
    ensures { (result, told.new) ≡ turns_told advanced told.old }
{
    match advanced {
        Err(lack) => buffers::lack_number(lack),
        Ok(done) => {
            let counts = done.counts;
            write_u32(told, 3, 0, 0, counts.made);
            write_u32(told, 3, 0, 1, counts.queued);
            write_u32(told, 3, 0, 2, done.steps);
            0
        }
    }
}

// Whether one is twice the other.
fn is_double(one: usize, two: usize) -> bool
    ensures { result ≡ eqb two (one + one) }
{
    if one <= two {
        if two - one == one {
            return true;
        }
        return false;
    }
    false
}

fn turns_fit(
    made: u32,
    words: usize,
    reals: usize,
    pts: usize,
    out: usize,
    keep: usize,
    next: usize,
) -> bool
    ensures { result ≡ turns_fit made words reals pts out keep next }
{
    if made <= buffers::count(words, WORDS_PER_WINDOW, reals, REALS_PER_WINDOW) {
        if is_double(pts, out) {
            if is_double(pts, keep) {
                return is_double(pts, next);
            }
            return false;
        }
        return false;
    }
    false
}

fn finish_fits(edges: u32, made: u32, edge_words: usize, words: usize, reals: usize) -> bool
    ensures { result ≡ finish_fits edges made edge_words words reals }
{
    if edges <= buffers::slots(edge_words, WORDS_PER_EDGE) {
        if made <= buffers::count(words, WORDS_PER_WINDOW, reals, REALS_PER_WINDOW) {
            return true;
        }
        return false;
    }
    false
}

// At most `most` turns in a mesh of n vertices. `told` has the windows made and the events queued, before and after, and the steps of these turns; fewer steps than `most`: no event waits.
// The answer is 0, or 12 to 14: the job is refused, and its slices are then as they happen to be.
pub fn sirmolaat_advance(
    limit: f64,
    n: u32,
    most: u32,
    vertices: &[f64],
    triangles: &[u32],
    vertex_words: &[u32],
    edge_reals: &[f64],
    round: &[u32],
    triangle_words: &[u32],
    triangle_reals: &[f64],
    edge_words: &mut [u32],
    vertex: &mut [f64],
    words: &mut [u32],
    reals: &mut [f64],
    keys: &mut [f64],
    events: &mut [u32],
    pts: &mut [f64],
    out: &mut [f64],
    keep: &mut [f64],
    next: &mut [f64],
    told: &mut [u32],
) -> u32
    ensures { TurnsAnswer limit n most vertices.now triangles.now vertex_words.now round.now edge_reals.now triangle_words.now triangle_reals.now
        told.old (before edge_words words reals keys events vertex) (cuts_before pts out keep next)
        result (after edge_words words reals keys events vertex) (cuts_after pts out keep next) told.new }
{
    let counts = told_counts(told);
    if turns_fit(
        counts.made,
        words.len(),
        reals.len(),
        pts.len(),
        out.len(),
        keep.len(),
        next.len(),
    ) {
        let advanced = advance::advance(
            vertices,
            triangles,
            edge_words,
            words,
            reals,
            keys,
            events,
            vertex,
            vertex_words,
            round,
            edge_reals,
            triangle_words,
            triangle_reals,
            pts,
            out,
            keep,
            next,
            counts,
            n,
            most,
            limit,
        );
        return tell_turns(advanced, told);
    }
    20
}

// The end of a job whose queue is empty: the last pass over its vertices, and zeros in what is no part of a field.
pub fn sirmolaat_finish(
    edges: u32,
    made: u32,
    edge_reals: &[f64],
    words: &[u32],
    reals: &[f64],
    edge_words: &mut [u32],
    vertex: &mut [f64],
    keys: &mut [f64],
    events: &mut [u32],
    pts: &mut [f64],
    out: &mut [f64],
    keep: &mut [f64],
    next: &mut [f64],
) -> u32
    ensures { FinishAnswer edges made edge_reals.now
        (slices edge_words.old words.now reals.now keys.old events.old vertex.old) (cuts_before pts out keep next)
        result (slices edge_words.new words.now reals.now keys.new events.new vertex.new) (cuts_after pts out keep next) }
{
    if finish_fits(edges, made, edge_words.len(), words.len(), reals.len()) {
        finish::finish(
            edge_words, edge_reals, words, reals, vertex, keys, events, pts, out, keep, next,
            edges, made,
        );
        return 0;
    }
    20
}
