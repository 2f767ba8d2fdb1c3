// The sign of two sources at a point, and the bounds that it is first asked of, for programs in C and Rust.
#![tactic(auto)]

ghost use Rattle.std.specs.Prelude.{◌≡◌, T};
ghost use Rattle.std.specs.Float.Ieee.{le};
ghost use Rattle.float_laws.proofs.Order.{Number};
ghost use Rattle.source.specs.Distance.{edge_of};
ghost use Rattle.better.specs.Cutting.{sign_of};
ghost use Rattle.signs_c.specs.Exports.{source_given, sign_number};

use source::Src;
use std::cmp::Ordering;

fn source_given(kind: u32, a: f64, b: f64, c: f64) -> Src
    ensures { result ≡ source_given kind a b c }
{
    if kind == 0 {
        return Src::Point { x: a, y: b, s: c };
    }
    Src::Line { ux: a, uy: b, c }
}

// 0 where p is shorter at x, 1 where both are equally far, 2 where p is longer.
#[unsafe(no_mangle)]
pub extern "C" fn sirmolaat_sign(
    p_kind: u32,
    p0: f64,
    p1: f64,
    p2: f64,
    q_kind: u32,
    q0: f64,
    q1: f64,
    q2: f64,
    x: f64,
) -> u32
    ensures { result ≡ sign_number (sign_of (source_given p_kind p0 p1 p2) (source_given q_kind q0 q1 q2) x) }
{
    let p = source_given(p_kind, p0, p1, p2);
    let q = source_given(q_kind, q0, q1, q2);
    let sign = better::sign(p, q, x);
    match sign {
        Ordering::Less => 0,
        Ordering::Equal => 1,
        Ordering::Greater => 2,
    }
}

// A number that the distance at x is not below, or a NaN where none is known.
#[unsafe(no_mangle)]
pub extern "C" fn sirmolaat_lower(kind: u32, a: f64, b: f64, c: f64, x: f64) -> f64
    ensures { Number result → T (le result (edge_of (source_given kind a b c) x)) }
{
    let src = source_given(kind, a, b, c);
    let bounds = source_bounds::bounds(src, x);
    match bounds {
        Some(e) => e.lo,
        None => 0.0 / 0.0,
    }
}

// A number that the distance at x is not above, or a NaN where none is known.
#[unsafe(no_mangle)]
pub extern "C" fn sirmolaat_upper(kind: u32, a: f64, b: f64, c: f64, x: f64) -> f64
    ensures { Number result → T (le (edge_of (source_given kind a b c) x) result) }
{
    let src = source_given(kind, a, b, c);
    let bounds = source_bounds::bounds(src, x);
    match bounds {
        Some(e) => e.hi,
        None => 0.0 / 0.0,
    }
}
