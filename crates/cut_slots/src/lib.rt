// How many entries the lists of an addition can have in the slices that are lent for them.
#![tactic(auto)]

ghost use Rattle.std.specs.Prelude.{◌≡◌};
ghost use Rattle.cut_lists.specs.Buffers.{cut_buffers};
ghost use Rattle.cut_slots.specs.Slots.{cut_count};

// As many as all four slices have whole slots for.
pub fn cut_count(pts: &[f64], out: &[f64], keep: &[f64], next: &[f64]) -> u32
    ensures { result ≡ cut_count (cut_buffers pts.now out.now keep.now next.now) }
{
    let a = buffers::count(pts.len(), 1, out.len(), 2);
    let b = buffers::count(keep.len(), 2, next.len(), 2);
    if a <= b {
        return a;
    }
    b
}
