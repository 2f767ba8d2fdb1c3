// The main loop of a job's work after the insertion of its pieces, within the step budget: refusal 15.
#![tactic(auto)]

ghost use Rattle.std.specs.Prelude.{◌≡◌, length};
ghost use Rattle.windows.specs.Windows.{capacity_of};
ghost use Rattle.advance.specs.of_cut_lists.Buffers.{cuts_before};
ghost use Rattle.advance.specs.of_cut_lists.Cut.{Sizes};
ghost use Rattle.insert_job.specs.of_trim.Buffers.{before, after};
ghost use Rattle.insert_job.specs.Job.{JobWithin};
ghost use Rattle.run_steps.specs.Contract.{none_waits, work_answer, RunsTo};

use advance::Advanced;
use advance::of_insertion::InsertCounts;
use buffers::{Lack, count, lack_number};
pub use insert_job as of_insert_job;
use insert_job::InsertRefusal;
use layout::WORDS_PER_EVENT;

// The job is refused by this number; or so many windows, events and entries there are after so many steps, and no event waits.
#[derive(Clone, Copy)]
pub enum FieldWork {
    Refused(u32),
    Done(InsertCounts, u32),
}

// Whether a pop of so many events would find none.
fn none_waits(keys: &[f64], events: &[u32], queued: u32) -> bool
    ensures { result ≡ none_waits keys.now events.now queued }
{
    if queued == 0 {
        return true;
    }
    if count(events.len(), WORDS_PER_EVENT, keys.len(), 1) < queued {
        return true;
    }
    false
}

// Refusal 15: the budget is spent, and an event waits.
fn after_steps(
    keys: &[f64],
    events: &[u32],
    entries: u32,
    advanced: Result<Advanced, Lack>,
) -> FieldWork
    ensures { result ≡ work_answer keys.now events.now entries advanced }
{
    match advanced {
        Err(lack) => FieldWork::Refused(lack_number(lack)),
        Ok(done) => {
            let trim = done.counts;
            if none_waits(keys, events, trim.queued) {
                return FieldWork::Done(InsertCounts { trim, entries }, done.steps);
            }
            FieldWork::Refused(15)
        }
    }
}

// After a refusal nothing is done.
pub fn run_steps(
    from: Result<InsertCounts, InsertRefusal>,
    vertices: &[f64],
    triangles: &[u32],
    edge_words: &mut [u32],
    words: &mut [u32],
    reals: &mut [f64],
    keys: &mut [f64],
    events: &mut [u32],
    vertex: &mut [f64],
    vertex_words: &[u32],
    round: &[u32],
    edge_reals: &[f64],
    triangle_words: &[u32],
    triangle_reals: &[f64],
    pts: &mut [f64],
    out: &mut [f64],
    keep: &mut [f64],
    next: &mut [f64],
    n: u32,
    most: u32,
    limit: f64,
) -> FieldWork
    requires { JobWithin (capacity_of (length words.old) (length reals.old)) from × Sizes (length pts.old) out.old keep.old next.old }
    ensures { RunsTo limit n most vertices.now triangles.now vertex_words.now round.now edge_reals.now triangle_words.now triangle_reals.now
        (before edge_words words reals keys events vertex) (cuts_before pts out keep next) from result (after edge_words words reals keys events vertex) }
{
    match from {
        Err(InsertRefusal::Wedge) => FieldWork::Refused(11),
        Err(InsertRefusal::NoSlot(lack)) => FieldWork::Refused(lack_number(lack)),
        Ok(counts) => {
            let advanced = advance::advance(
                vertices,
                triangles,
                edge_words,
                words,
                reals,
                keys,
                events,
                vertex,
                vertex_words,
                round,
                edge_reals,
                triangle_words,
                triangle_reals,
                pts,
                out,
                keep,
                next,
                counts.trim,
                n,
                most,
                limit,
            );
            after_steps(keys, events, counts.entries, advanced)
        }
    }
}
