// A new window meets an existing one of its edge: what it keeps and what it leaves of the other, the Rust's lists `next` and `pieces` of `add`, in lent buffers
// of two numbers an interval.
#![tactic(auto)]

ghost use Rattle.std.specs.Prelude.{◌≡◌, cond, [], ◌∷◌, ◌++◌, suc, ◌+◌, ◌≤◌, ◌<◌, length, get_or};
ghost use Rattle.std.specs.Float.{nan};
ghost use Rattle.better.specs.Stretches.{interval};
ghost use Rattle.better.specs.Buffers.{pairs, HoldsPairs, has_entries, listed_number};
ghost use Rattle.trim_model.specs.Intervals.{push_if, cuts_within, next_of, next, pieces};
ghost use Rattle.buffers.specs.Lent.{given, left};
ghost use Rattle.cut_lists.specs.Cut.{Sizes, Meets};

use source::Src;

// Where interval i of a buffer starts, and where it ends.
pub fn from_of(buffer: &[f64], i: usize) -> f64
    requires { i + i < length buffer.now }
    ensures { result ≡ get_or buffer.now (i + i) nan }
{
    buffer[i + i]
}

pub fn to_of(buffer: &[f64], i: usize) -> f64
    requires { suc (i + i) < length buffer.now }
    ensures { result ≡ get_or buffer.now (suc (i + i)) nan }
{
    buffer[i + i + 1]
}

// The first n intervals of another buffer.
pub fn copy(from: &[f64], n: usize, to: &mut [f64])
    requires { (n + n ≤ length from.now) × (n + n ≤ length to.old) }
    ensures { pairs n (left to) ≡ pairs n from.now }
{
    for i in 0..n {
        to[2 * i] = from[2 * i];
        to[2 * i + 1] = from[2 * i + 1];
    }
}

// One more interval behind the n in front of out.
fn push(out: &mut [f64], n: usize, x0: f64, x1: f64) -> Option<usize>
    requires { n + n ≤ length out.old }
    ensures { HoldsPairs result (left out) (pairs n (given out) ++ (interval x0 x1 ∷ [])) }
{
    let end = 2 * n;
    if out.len() - end < 2 {
        return None;
    }
    out[end] = x0;
    out[end + 1] = x1;
    Some(n + 1)
}

fn push_if(b: bool, out: &mut [f64], n: usize, x0: f64, x1: f64) -> Option<usize>
    requires { n + n ≤ length out.old }
    ensures { HoldsPairs result (left out) (pairs n (given out) ++ push_if b (interval x0 x1)) }
{
    if b {
        return push(out, n, x0, x1);
    }
    Some(n)
}

// `better` within [o0, o1], behind the n in front of out.
fn push_cuts(better: &[f64], m: usize, o0: f64, o1: f64, out: &mut [f64], n: usize) -> Option<usize>
    requires { (m + m ≤ length better.now) × (n + n ≤ length out.old) }
    ensures { HoldsPairs result (left out) (pairs n (given out) ++ cuts_within o0 o1 (pairs m better.now)) }
{
    let mut k = n;
    for i in 0..m {
        let c0 = float64::max(from_of(better, i), o0);
        let c1 = float64::min(to_of(better, i), o1);
        k = push_if(c1 > c0, out, k, c0, c1)?;
    }
    Some(k)
}

// What the entry from k0 to k1 of `keep` leaves, behind the n in front of out.
fn push_next(
    k0: f64,
    k1: f64,
    better: &[f64],
    m: usize,
    lo: f64,
    hi: f64,
    out: &mut [f64],
    n: usize,
) -> Option<usize>
    requires { (m + m ≤ length better.now) × (n + n ≤ length out.old) }
    ensures { HoldsPairs result (left out) (pairs n (given out) ++ next_of lo hi (pairs m better.now) (interval k0 k1)) }
{
    let o0 = float64::max(k0, lo);
    let o1 = float64::min(k1, hi);
    if o1 <= o0 {
        return push(out, n, k0, k1);
    }
    let a = push_if(k0 < o0, out, n, k0, o0)?;
    let b = push_cuts(better, m, o0, o1, out, a)?;
    push_if(o1 < k1, out, b, o1, k1)
}

// What the new window keeps of the k intervals of `keep`, where it is shorter than the window from lo to hi along the m of `better`. The answer is
// `None` where that outgrows out.
pub fn next_keep(
    keep: &[f64],
    k: usize,
    better: &[f64],
    m: usize,
    lo: f64,
    hi: f64,
    out: &mut [f64],
) -> Option<usize>
    requires { (k + k ≤ length keep.now) × (m + m ≤ length better.now) }
    ensures holds_pairs { HoldsPairs result (left out) (next lo hi (pairs m better.now) (pairs k keep.now)) }
    ensures result_value { listed_number result ≡ cond (has_entries (next lo hi (pairs m better.now) (pairs k keep.now)) (given out)) 0 14 }
{
    let mut n = 0;
    for i in 0..k {
        n = push_next(from_of(keep, i), to_of(keep, i), better, m, lo, hi, out, n)?;
    }
    Some(n)
}

// What the existing window, from b0 to b1, keeps without the m intervals of `better`: the pieces wider than tiny. The answer is `None` where they outgrow
// out.
pub fn pieces(
    better: &[f64],
    m: usize,
    b0: f64,
    b1: f64,
    tiny: f64,
    out: &mut [f64],
) -> Option<usize>
    requires { m + m ≤ length better.now }
    ensures holds_pairs { HoldsPairs result (left out) (pieces tiny b0 b1 (pairs m better.now)) }
    ensures result_value { listed_number result ≡ cond (has_entries (pieces tiny b0 b1 (pairs m better.now)) (given out)) 0 14 }
{
    let mut n = 0;
    let mut at = b0;
    for i in 0..m {
        let g0 = from_of(better, i);
        n = push_if(g0 - at > tiny, out, n, at, g0)?;
        at = float64::max(at, to_of(better, i));
    }
    push_if(b1 - at > tiny, out, n, at, b1)
}

// So many intervals are kept, the new window is shorter along so many stretches, and the existing one is left in so many pieces.
#[derive(Clone, Copy)]
pub struct CutCounts {
    pub kept: usize,
    pub lost: usize,
    pub pieces: usize,
}

// The new window, whose source is p, and an existing one from b0 to b1, whose source is q, share the stretch from lo to hi. The k intervals of `keep` become
// what the new one keeps; `out` has then the stretches where it is shorter, and `next`, if there are any, the pieces of the other. What else `pts`, `out` and
// `next` hold then is left free: they are scratch space. The lows of the two windows and the width of the new one are hints for the test of ranges. The
// answer is `None` where one of the lists outgrows its buffer.
pub fn cut(
    p: Src,
    q: Src,
    lo: f64,
    hi: f64,
    b0: f64,
    b1: f64,
    tiny: f64,
    pts: &mut [f64],
    out: &mut [f64],
    keep: &mut [f64],
    k: usize,
    next: &mut [f64],
    p_low: f64,
    p_wide: f64,
    q_low: f64,
) -> Option<CutCounts>
    requires { Sizes (length pts.old) out.old keep.old next.old × (k ≤ length pts.old) }
    ensures { Meets p q lo hi b0 b1 tiny (length (given pts)) (pairs k (given keep)) result (left keep) (left next) }
{
    let lost = range_test::better(p, q, lo, hi, pts, out, p_low, p_wide, q_low, b1 - b0)?;
    let kept = next_keep(keep, k, out, lost, lo, hi, next)?;
    copy(next, kept, keep);
    if lost == 0 {
        return Some(CutCounts {
            kept,
            lost: 0,
            pieces: 0,
        });
    }
    let pieces = pieces(out, lost, b0, b1, tiny, next)?;
    Some(CutCounts { kept, lost, pieces })
}
