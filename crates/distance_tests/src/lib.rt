// What is told of distances along an edge by tests on squares, with no root: whether a source's distance is at least or at most a number. Roots are taken where
// the tests do not tell.
#![tactic(auto)]

ghost use Rattle.std.specs.Prelude.{◌≡◌, T, ◌||◌};
ghost use Rattle.std.specs.Float.Ieee.{eq, lt, le};
ghost use Rattle.std.specs.Float.{binary64};
ghost use Rattle.root_spec.specs.Root.{hypot_of};
ghost use Rattle.float64.specs.Scalar.{zero64, min_of};
ghost use Rattle.float64.specs.Notation.{◌⊕◌, ◌⊖◌};
ghost use Rattle.source.specs.declared.Src.TheVariants.{Point};
ghost use Rattle.source.specs.Distance.{edge_of, foot_of, lowest_of, eval_of};
ghost use Rattle.source_bounds.specs.Bounds.{Encloses};
ghost use Rattle.face_distance.specs.Floors.{UpTo};

pub use face_distance as of_face_distance;
use source::{Src, Win};

// Whether the hypotenuse of d and y is told to be at least lo.
fn hypot_from(d: f64, y: f64, lo: f64) -> bool
    ensures { T result → T (le lo (hypot_of binary64 d y)) }
{
    let z = d * d + y * y;
    if lo * lo < z * 0.9999999999995453 {
        if 1e-100 < z {
            if z * 1.0000000000004547 < 1e75 * 1e75 {
                return true;
            }
        }
    }
    false
}

// Whether it is told to be at most hi.
fn hypot_upto(d: f64, y: f64, hi: f64) -> bool
    ensures { T result → Encloses zero64 hi (hypot_of binary64 d y) }
{
    let z = d * d + y * y;
    if z * 1.0000000000004547 < hi * hi {
        if 1e-100 < z {
            if 0.0 < hi {
                if hi < 1e100 {
                    return true;
                }
            }
        }
    }
    false
}

// Whether a source's distance at x on its edge is told to be at least d. What the root is compared with is more than d - s by a little, so that with s it comes to d or more.
fn at_least(src: Src, x: f64, d: f64) -> bool
    ensures { T result → UpTo d (edge_of src x) }
{
    match src {
        Src::Point { x: sx, y, s } => {
            let lo = d * 1.0000000000009095 - s;
            if d <= lo + s {
                return hypot_from(x - sx, y, lo);
            }
            false
        }
        Src::Line { ux, uy: _, c } => {
            if d <= c + ux * x {
                return true;
            }
            false
        }
    }
}

// Whether a point's distance at x on the edge is told to be at most d.
fn at_most(sx: f64, y: f64, s: f64, x: f64, d: f64) -> bool
    ensures { T result → T (le (edge_of (Point sx y s) x) d) }
{
    let hi = d * 0.9999999999990905 - s;
    if hi + s <= d {
        return hypot_upto(x - sx, y, hi);
    }
    false
}

// Whether a source's least distance from b0 to b1 is told to be at most d.
fn lowest_at_most(src: Src, b0: f64, b1: f64, d: f64) -> bool
    ensures { T result → T (le (lowest_of src b0 b1) d) }
{
    match src {
        Src::Point { x, y, s } => {
            if x < b0 {
                return at_most(x, y, s, b0, d);
            }
            if b1 < x {
                return at_most(x, y, s, b1, d);
            }
            false
        }
        Src::Line { ux: _, uy: _, c: _ } => false,
    }
}

// Whether a source's least distance from b0 to b1 is at most d.
pub fn reaches(src: Src, b0: f64, b1: f64, d: f64) -> bool
    ensures { result ≡ le (lowest_of src b0 b1) d }
{
    if lowest_at_most(src, b0, b1, d) {
        return true;
    }
    if source::lowest(src, b0, b1) <= d {
        return true;
    }
    false
}

// The least of d and of the way from x along the edge to q and on from there.
fn along(d: f64, src: Src, x: f64, q: f64) -> f64
    ensures { result ≡ min_of d (hypot_of binary64 (x ⊖ q) zero64 ⊕ edge_of src q) }
{
    let across = x - q;
    let way = float64::abs(across);
    let rest = d * 1.0000000000009095 - way;
    if d <= way + rest {
        if at_least(src, q, rest) {
            return d;
        }
    }
    float64::min(d, sqrt_hypot::hypot(across, 0.0) + source::edge(src, q))
}

// Whether the foot of x, as the source sees it from the edge, is told to be at x itself: what is added to x is then a quotient of a zero.
fn foot_stays(src: Src, x: f64) -> bool
    ensures { T result → T (eq (foot_of src x zero64) x) }
{
    match src {
        Src::Point { x: sx, y: _, s: _ } => {
            if (sx - x) * 0.0 == 0.0 {
                return true;
            }
            false
        }
        Src::Line { ux, uy: _, c: _ } => {
            if ux * 0.0 == 0.0 {
                if x * 0.0 == 0.0 {
                    return true;
                }
                return false;
            }
            false
        }
    }
}

// Whether x is below a range or above it.
fn is_beyond(b0: f64, b1: f64, x: f64) -> bool
    ensures { result ≡ (lt x b0 || lt b1 x) }
{
    if x < b0 {
        return true;
    }
    if b1 < x {
        return true;
    }
    false
}

// The least of d and of a window's value at x on its edge, by the foot of x.
fn nearer_by_foot(d: f64, w: Win, x: f64) -> f64
    ensures { result ≡ min_of d (eval_of w x zero64) }
{
    let src = w.src;
    let f = source::foot(src, x, 0.0);
    if f >= w.b0 && f <= w.b1 {
        return float64::min(d, source::free(src, x, 0.0));
    }
    along(d, src, x, float64::clamp(f, w.b0, w.b1))
}

// The same. Where x is beyond the window, as the ends of an edge mostly are, its foot need not be computed.
pub fn nearer(d: f64, w: Win, x: f64) -> f64
    ensures { result ≡ min_of d (eval_of w x zero64) }
{
    let src = w.src;
    if foot_stays(src, x) {
        if is_beyond(w.b0, w.b1, x) {
            return along(d, src, x, float64::clamp(x, w.b0, w.b1));
        }
    }
    nearer_by_foot(d, w, x)
}
