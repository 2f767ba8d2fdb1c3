// The end of a job's work: a field is finished, and after a refusal nothing is done.
#![tactic(auto)]

ghost use Rattle.std.specs.Prelude.{◌≤◌, length};
ghost use Rattle.layout.specs.Layout.{words_per_edge};
ghost use Rattle.buffers.specs.Slots.{slots_of};
ghost use Rattle.buffers.specs.Lent.{given, left};
ghost use Rattle.windows.specs.Windows.{capacity_of};
ghost use Rattle.run_steps.specs.of_cut_lists.Buffers.{cuts_before, cuts_after};
ghost use Rattle.finish.specs.of_trim.Buffers.{slices};
ghost use Rattle.run_steps.specs.Contract.{WorkWithin};
ghost use Rattle.finish_work.specs.FinishWork.{FinishesWork};

pub use run_steps as of_run_steps;
use run_steps::FieldWork;

pub fn finish_work(
    work: FieldWork,
    edge_words: &mut [u32],
    edge_reals: &[f64],
    words: &[u32],
    reals: &[f64],
    vertex: &mut [f64],
    keys: &mut [f64],
    events: &mut [u32],
    pts: &mut [f64],
    out: &mut [f64],
    keep: &mut [f64],
    next: &mut [f64],
    edges: u32,
)
    requires { WorkWithin (capacity_of (length words.now) (length reals.now)) work × (edges ≤ slots_of (length edge_words.old) words_per_edge) }
    ensures { FinishesWork work edges edge_reals.now
        (slices (given edge_words) words.now reals.now (given keys) (given events) (given vertex)) (cuts_before pts out keep next)
        (slices (left edge_words) words.now reals.now (left keys) (left events) (left vertex)) (cuts_after pts out keep next) }
{
    match work {
        FieldWork::Refused(_) => {}
        FieldWork::Done(counts, _) => finish::finish(
            edge_words,
            edge_reals,
            words,
            reals,
            vertex,
            keys,
            events,
            pts,
            out,
            keep,
            next,
            edges,
            counts.trim.made,
        ),
    }
}
