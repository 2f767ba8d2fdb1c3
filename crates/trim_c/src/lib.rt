// The function that runs a list, for programs in C and Rust, in buffers that they lend.
#![tactic(auto)]

ghost use Rattle.run_operations.specs.of_trim.Buffers.{before, after};
ghost use Rattle.run_operations.specs.of_cut_lists.Buffers.{cuts_before, cuts_after};
ghost use Rattle.std.specs.Prelude.{◌≡◌};
ghost use Rattle.trim_c.specs.Exports.{told_run, AnsweredList};

use buffers::write_u32;
use run_operations::Ended;
use run_operations::of_trim::of_trim_split::Counts;
use run_operations::of_trim_operations::refusal_number;

// The answer is 0 where all operations went, else the number that refuses one. The first two numbers of `told` are then the windows made and the
// events queued, or the operation that is refused and 0.
fn tell(ran: Result<Counts, Ended>, told: &mut [u32]) -> u32
    ensures { (result, told.new) ≡ told_run ran told.old }
{
    match ran {
        Ok(counts) => {
            write_u32(told, 2, 0, 0, counts.made);
            write_u32(told, 2, 0, 1, counts.queued);
            0
        }
        Err(ended) => {
            write_u32(told, 2, 0, 0, ended.at);
            write_u32(told, 2, 0, 1, 0);
            refusal_number(ended.refusal)
        }
    }
}

#[unsafe(no_mangle)]
pub extern "C" fn sirmolaat_trim_run(
    limit: f64,
    ops: &[u32],
    args: &[f64],
    ends: &[u32],
    lens: &[f64],
    vertex_words: &[u32],
    edges: &mut [u32],
    words: &mut [u32],
    reals: &mut [f64],
    keys: &mut [f64],
    events: &mut [u32],
    vertex: &mut [f64],
    pts: &mut [f64],
    out: &mut [f64],
    keep: &mut [f64],
    next: &mut [f64],
    told: &mut [u32],
) -> u32
    ensures { AnsweredList limit vertex_words.now ends.now lens.now ops.now args.now
        (before edges words reals keys events vertex) (cuts_before pts out keep next)
        (after edges words reals keys events vertex) (cuts_after pts out keep next) told.old result told.new }
{
    let ran = run_operations::run(
        limit,
        ops,
        args,
        ends,
        lens,
        vertex_words,
        edges,
        words,
        reals,
        keys,
        events,
        vertex,
        pts,
        out,
        keep,
        next,
    );
    tell(ran, told)
}
