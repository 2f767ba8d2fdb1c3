// Bounds of a source's distance at a point of its edge, without a root: a number near the root is guessed, and a test on squares certifies the bounds beside it.
#![tactic(auto)]

ghost use Rattle.std.specs.Prelude.{◌≡◌, T, IfSome};
ghost use Rattle.std.specs.Float.Ieee.{le};
ghost use Rattle.std.specs.Float.{binary64};
ghost use Rattle.root_spec.specs.Root.{hypot_of};
ghost use Rattle.source.specs.Distance.{edge_of};
ghost use Rattle.source_bounds.specs.Bounds.{least_bound, greatest_bound, Bounded, Encloses, Certified};

use source::Src;

// Bounds of a number.
#[derive(Clone, Copy)]
pub struct Enclosure {
    pub lo: f64,
    pub hi: f64,
}

// A number near the root of z, by two refinements of a guess of 1 / sqrt(z) from its bits. How near is not stated: only whether bounds are known rests on it.
fn near_root(z: f64) -> f64 {
    if z != z {
        return z;
    }
    let b = f64::to_bits(z) % 0x8000_0000_0000_0000 / 2;
    let y0 = f64::from_bits(0x5fe5_ab50_c7b5_37a9 - b);
    let t = z * (y0 * y0);
    let y1 = y0 * (1.9667642096254867 - t * (1.4416250555461023 - 0.47506331207131997 * t));
    let u = z * (y1 * y1);
    z * (y1 * (1.875 - u * (1.25 - 0.375 * u)))
}

// Whether the square of lo is below z and that of hi above it, with a margin.
fn is_certified(z: f64, lo: f64, hi: f64) -> bool
    ensures { T result → Certified z lo hi }
{
    1e-100 < z
        && lo * lo < z * 0.9999999999995453
        && z * 1.0000000000004547 < hi * hi
        && 0.0 < hi
        && hi < 1e100
}

// Bounds of the hypotenuse of d and y, where they are certified.
fn hypot_bounds(d: f64, y: f64) -> Option<Enclosure>
    ensures { IfSome result (λ e. Encloses e.lo e.hi (hypot_of binary64 d y)) }
{
    let z = d * d + y * y;
    let q = near_root(z);
    let lo = q * 0.9999999999990905;
    let hi = q * 1.0000000000009095;
    if is_certified(z, lo, hi) {
        return Some(Enclosure { lo, hi });
    }
    None
}

// lo and hi, where they are from -1 to 1e100.
fn limited(lo: f64, hi: f64) -> Option<Enclosure>
    ensures { IfSome result (λ e. (e.lo ≡ lo) × (e.hi ≡ hi) × (T (le least_bound lo) × T (le hi greatest_bound))) }
{
    if -1.0 <= lo && hi <= 1e100 {
        return Some(Enclosure { lo, hi });
    }
    None
}

// Bounds of the distance at x on the edge, where they are known. A line's are exact.
pub fn bounds(src: Src, x: f64) -> Option<Enclosure>
    ensures { IfSome result (λ e. Bounded e.lo e.hi (edge_of src x)) }
{
    match src {
        Src::Point { x: sx, y, s } => {
            let b = hypot_bounds(x - sx, y)?;
            limited(b.lo + s, b.hi + s)
        }
        Src::Line { ux, uy: _, c } => {
            let v = c + ux * x;
            limited(v, v)
        }
    }
}
