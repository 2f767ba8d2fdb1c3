// The distances that the Rust's `at` and `edge_at` take the least of, on values.
#![tactic(auto)]

ghost use Rattle.std.specs.Prelude.{◌≡◌};
ghost use Rattle.std.specs.Float.{binary64};
ghost use Rattle.root_spec.specs.Root.{hypot_of};
ghost use Rattle.float64.specs.Scalar.{min_of};
ghost use Rattle.float64.specs.Notation.{◌⊕◌, ◌⊖◌};
ghost use Rattle.source.specs.Distance.{edge_of, eval_of};
ghost use Rattle.face_distance.specs.Floors.{UpTo, longer_leg};
ghost use Rattle.face_distance.specs.Entries.{to_point, to_segment, through_vertex, through_window, through_ends};

use source::{Src, Win};
use vec3::Vec3;

// From p to a source point q of its face.
pub fn to_point(p: Vec3, q: Vec3) -> f64
    ensures { result ≡ to_point p q }
{
    vec3::norm(vec3::sub(p, q))
}

// From p to the nearest point of a source segment of its face, from a to b.
pub fn to_segment(p: Vec3, a: Vec3, b: Vec3) -> f64
    ensures { result ≡ to_segment p a b }
{
    let ab = vec3::sub(b, a);
    let s = float64::clamp(
        vec3::dot(vec3::sub(p, a), ab) / float64::max(vec3::dot(ab, ab), 1e-300),
        0.0,
        1.0,
    );
    vec3::norm(vec3::sub(p, vec3::axpy(a, s, ab)))
}

// From p through a vertex v at distance d.
pub fn through_vertex(p: Vec3, v: Vec3, d: f64) -> f64
    ensures { result ≡ through_vertex p v d }
{
    vec3::norm(vec3::sub(p, v)) + d
}

// The longer leg of a right angle, which its hypotenuse is no shorter than.
fn leg(a: f64, b: f64) -> f64
    ensures { (result ≡ longer_leg a b) × UpTo result (hypot_of binary64 a b) }
{
    float64::max(float64::abs(a), float64::abs(b))
}

// What a source's distance at x on the edge is no less than, without a root.
fn edge_floor(src: Src, x: f64) -> f64
    ensures { UpTo result (edge_of src x) }
{
    match src {
        Src::Point { x: sx, y: sy, s } => leg(x - sx, sy) + s,
        Src::Line { ux, uy: _, c } => c + ux * x,
    }
}

// The least of d and of the way from (x, y) to the edge at q and on from there. A root is taken only where the legs alone come to less than d.
fn around(d: f64, src: Src, x: f64, y: f64, q: f64) -> f64
    ensures { result ≡ min_of d (hypot_of binary64 (x ⊖ q) y ⊕ edge_of src q) }
{
    let across = x - q;
    let straight = leg(across, y);
    if d <= straight + edge_floor(src, q) {
        return d;
    }
    let far = source::edge(src, q);
    if d <= straight + far {
        return d;
    }
    float64::min(d, sqrt_hypot::hypot(across, y) + far)
}

// The least of d and of a window's value at (x, y >= 0).
fn nearer(d: f64, w: Win, x: f64, y: f64) -> f64
    ensures { result ≡ min_of d (eval_of w x y) }
{
    let src = w.src;
    let f = source::foot(src, x, y);
    if f >= w.b0 && f <= w.b1 {
        return float64::min(d, source::free(src, x, y));
    }
    around(d, src, x, y, float64::clamp(f, w.b0, w.b1))
}

// The same where y and the window's least value come to less than d: no path through the window is shorter than both.
pub fn through_window(d: f64, w: Win, x: f64, y: f64) -> f64
    ensures { result ≡ through_window d w x y }
{
    if y + w.low < d {
        return nearer(d, w, x, y);
    }
    d
}

// At x on an edge of length l through its ends, at distances da and db.
pub fn through_ends(da: f64, db: f64, l: f64, x: f64) -> f64
    ensures { result ≡ through_ends da db l x }
{
    float64::min(da + x, db + l - x)
}
