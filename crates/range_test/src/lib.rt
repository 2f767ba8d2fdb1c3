// Where the ranges of two sources along a stretch of their edge are apart, they tell the answer of `better` with no tie, middle or halving.
#![tactic(auto)]

ghost use Rattle.std.specs.Prelude.{◌≡◌, cond, ◌&&◌, T, leb, length, IfSome};
ghost use Rattle.std.specs.Float.{binary64};
ghost use Rattle.std.specs.Float.Ieee.{neg, lt, le, fits};
ghost use Rattle.float64.specs.Scalar.{one, is_finite};
ghost use Rattle.float64.specs.Notation.{◌⊕◌, ◌⊖◌, ◌⊗◌};
ghost use Rattle.better.specs.Cutting.{tolerance};
ghost use Rattle.better.specs.Points.{pts_of, walk_of};
ghost use Rattle.better.specs.Stretches.{better_of};
ghost use Rattle.better.specs.Buffers.{has_entries, bettering, listed_number};
ghost use Rattle.range_test.specs.Range.{highest_of, nearest_of, from_minus_one, finite_source, finite_stretch, Across, Comparable, RangeAbove, RangeBelow, Tells, listing, one_stretch};

use source::Src;
use source_bounds::Enclosure;

// What the ranges tell of p beside q.
#[derive(Clone, Copy)]
pub enum Ranged {
    Unknown,
    NeverShorter,
    AlwaysShorter,
}

// v as both bounds of itself, where it is not too great.
fn exact(v: f64) -> Option<Enclosure>
    ensures { IfSome result (λ e. T (le v e.hi) × T (le e.lo v)) }
{
    if v <= 1e100 {
        return Some(Enclosure { lo: v, hi: v });
    }
    None
}

// What no distance from lo to hi is above.
fn upper(src: Src, lo: f64, hi: f64) -> Option<Enclosure>
    ensures { IfSome result (λ e. T (le (highest_of src lo hi) e.hi)) }
{
    match src {
        Src::Point { x, y: _, s: _ } => {
            if x <= lo {
                return source_bounds::bounds(src, hi);
            }
            if hi <= x {
                return source_bounds::bounds(src, lo);
            }
            exact(float64::max(source::edge(src, lo), source::edge(src, hi)))
        }
        Src::Line { ux, uy: _, c: _ } => {
            if 0.0 <= ux {
                return exact(source::edge(src, hi));
            }
            exact(source::edge(src, lo))
        }
    }
}

// What no distance from lo to hi is below.
fn lower(src: Src, lo: f64, hi: f64) -> Option<Enclosure>
    ensures { IfSome result (λ e. T (le e.lo (nearest_of src lo hi))) }
{
    match src {
        Src::Point { x, y, s } => {
            if x < lo {
                return source_bounds::bounds(src, lo);
            }
            if hi < x {
                return source_bounds::bounds(src, hi);
            }
            exact(float64::abs(y) + s)
        }
        Src::Line { ux, uy: _, c: _ } => {
            if 0.0 <= ux {
                return exact(source::edge(src, lo));
            }
            exact(source::edge(src, hi))
        }
    }
}

// Whether no distance from lo to hi is below -1.
fn from_minus_one(src: Src, lo: f64, hi: f64) -> bool
    ensures { result ≡ from_minus_one src lo hi }
{
    match src {
        Src::Point { x: _, y: _, s } => -1.0 <= s,
        Src::Line { ux: _, uy: _, c: _ } => -1.0 <= source::lowest(src, lo, hi),
    }
}

// Each is finite where their sum is; and y is a double, as every f64 is.
fn finite_sum(x: f64, y: f64, s: f64) -> bool
    ensures { (result ≡ is_finite (x ⊕ y ⊕ s)) × T (fits binary64 y) }
{
    float64::is_finite(x + y + s)
}

fn finite_source(src: Src) -> bool
    ensures { (result ≡ finite_source src) × Across src }
{
    match src {
        Src::Point { x, y, s } => finite_sum(x, y, s),
        Src::Line { ux, uy: _, c } => float64::is_finite(ux + c),
    }
}

fn finite_stretch(lo: f64, hi: f64) -> bool
    ensures { (result ≡ finite_stretch lo hi) × (T (fits binary64 lo) × T (fits binary64 hi)) }
{
    lo < hi && float64::is_finite(lo + lo) && float64::is_finite(hi + hi)
}

// Whether all that the range tests compute with is finite, and the stretch rises.
fn all_finite(p: Src, q: Src, lo: f64, hi: f64) -> bool
    ensures { Comparable result p q lo hi }
{
    finite_stretch(lo, hi) && finite_source(p) && finite_source(q)
}

fn range_above(p: Src, q: Src, lo: f64, hi: f64) -> bool
    ensures { T result → RangeAbove p q lo hi }
{
    let Some(most) = upper(q, lo, hi) else {
        return false;
    };
    let Some(least) = lower(p, lo, hi) else {
        return false;
    };
    most.hi <= least.lo && from_minus_one(q, lo, hi)
}

// One comparison of what bounds tell.
fn is_below(most: f64, least: f64, greatest: f64) -> bool
    ensures { result ≡ (lt most (least ⊖ tolerance ⊗ (one ⊕ greatest)) && le (neg one) least && is_finite (tolerance ⊗ (one ⊕ greatest))) }
{
    let t = 1e-10 * (1.0 + greatest);
    most < least - t && -1.0 <= least && float64::is_finite(t)
}

fn range_below(p: Src, q: Src, lo: f64, hi: f64) -> bool
    ensures { T result → RangeBelow p q lo hi }
{
    let Some(most) = upper(p, lo, hi) else {
        return false;
    };
    let Some(least) = lower(q, lo, hi) else {
        return false;
    };
    let Some(greatest) = upper(q, lo, hi) else {
        return false;
    };
    is_below(most.hi, least.lo, greatest.hi)
}

// Whether p is never, or always, shorter than q from lo to hi, where the ranges tell. The lows and widths of the two windows say which test may hold, and need
// not be right.
fn compare_ranges(
    p: Src,
    q: Src,
    lo: f64,
    hi: f64,
    p_low: f64,
    p_wide: f64,
    q_low: f64,
    q_wide: f64,
) -> Ranged
    ensures { Tells p q lo hi result }
{
    if q_low + q_wide < p_low {
        if all_finite(p, q, lo, hi) && range_above(p, q, lo, hi) {
            return Ranged::NeverShorter;
        }
        return Ranged::Unknown;
    }
    if p_low + p_wide < q_low {
        if all_finite(p, q, lo, hi) && range_below(p, q, lo, hi) {
            return Ranged::AlwaysShorter;
        }
    }
    Ranged::Unknown
}

// The stretch from lo to hi alone in front of out.
fn list_whole(lo: f64, hi: f64, out: &mut [f64]) -> Option<usize>
    ensures { (result, out.new) ≡ listing out.old (one_stretch lo hi) }
{
    if out.len() < 2 {
        return None;
    }
    out[0] = lo;
    out[1] = hi;
    Some(1)
}

// `better`, with the same contract. The lows and widths of the two windows are hints.
pub fn better(
    p: Src,
    q: Src,
    lo: f64,
    hi: f64,
    pts: &mut [f64],
    out: &mut [f64],
    p_low: f64,
    p_wide: f64,
    q_low: f64,
    q_wide: f64,
) -> Option<usize>
    ensures out_after { (result, out.new) ≡ bettering (length pts.old) out.old (walk_of p q (pts_of p q lo hi)) (better_of p q lo hi) }
    ensures result_value { listed_number result ≡ cond (leb (length (walk_of p q (pts_of p q lo hi))) (length pts.old) && has_entries (better_of p q lo hi) out.old) 0 14 }
{
    if pts.len() < 4 {
        return better::better(p, q, lo, hi, pts, out);
    }
    let told = compare_ranges(p, q, lo, hi, p_low, p_wide, q_low, q_wide);
    match told {
        Ranged::Unknown => better::better(p, q, lo, hi, pts, out),
        Ranged::NeverShorter => Some(0),
        Ranged::AlwaysShorter => list_whole(lo, hi, out),
    }
}
