// The distances that a source gives near an edge, where two of them are equal, and a window's value.
// The frame is the edge's: x along it from its first vertex, y across it, away from the source's side.
#![tactic(auto)]

ghost use Rattle.std.specs.Prelude.{◌≡◌};
ghost use Rattle.float64.specs.Scalar.{min_of};
ghost use Rattle.source.specs.declared.Src.TheVariants.{Point};
ghost use Rattle.source.specs.Quadratic.{roots_of};
ghost use Rattle.source.specs.Distance.{edge_of, free_of, foot_of, lowest_of, ties_of_points, ties_of_point_line, ties_of, eval_of};

// The real roots of an equation, in the order in which they are found.
#[derive(Clone, Copy)]
pub enum RealRoots {
    None,
    One(f64),
    Two(f64, f64),
}

// A source, as an edge sees it: a window's distance function.
#[derive(Clone, Copy)]
pub enum Src {
    // A point at (x, y <= 0), unfolded, that carries the distance s.
    Point { x: f64, y: f64, s: f64 },
    // A line of direction (ux, uy >= 0) and constant c: D(x, y) = c + ux x + uy y.
    Line { ux: f64, uy: f64, c: f64 },
}

// A window: two ends on its edge, the least distance between them, and its source.
#[derive(Clone, Copy)]
pub struct Win {
    pub b0: f64,
    pub b1: f64,
    pub low: f64,
    pub src: Src,
}

// The real roots of a x^2 + b x + c = 0, linear where a vanishes against the other coefficients.
pub fn roots(a: f64, b: f64, c: f64) -> RealRoots
    ensures { result ≡ roots_of a b c }
{
    let s = float64::max(
        float64::max(float64::abs(a), float64::abs(b)),
        float64::abs(c),
    );
    if s == 0.0 || !float64::is_finite(s) {
        return RealRoots::None;
    }
    if float64::abs(a) <= 1e-13 * s {
        if b != 0.0 {
            return RealRoots::One(-c / b);
        }
        return RealRoots::None;
    }
    let disc = b * b - 4.0 * a * c;
    if disc < 0.0 {
        return RealRoots::None;
    }
    let q = -0.5 * (b + float64::signum(b) * sqrt_hypot::sqrt(disc));
    if q != 0.0 {
        return RealRoots::Two(q / a, c / q);
    }
    RealRoots::One(q / a)
}

// The distance at x on the edge.
pub fn edge(src: Src, x: f64) -> f64
    ensures { result ≡ edge_of src x }
{
    match src {
        Src::Point { x: sx, y: sy, s } => sqrt_hypot::hypot(x - sx, sy) + s,
        Src::Line { ux, uy: _, c } => c + ux * x,
    }
}

// The distance at (x, y >= 0) along the window's pencil of rays, unrestricted.
pub fn free(src: Src, x: f64, y: f64) -> f64
    ensures { result ≡ free_of src x y }
{
    match src {
        Src::Point { x: sx, y: sy, s } => sqrt_hypot::hypot(x - sx, y - sy) + s,
        Src::Line { ux, uy, c } => c + ux * x + uy * y,
    }
}

// Where the ray back from (x, y >= 0) crosses the edge.
pub fn foot(src: Src, x: f64, y: f64) -> f64
    ensures { result ≡ foot_of src x y }
{
    match src {
        Src::Point { x: sx, y: sy, s: _ } => {
            let k = y - sy;
            if k > 0.0 {
                return x + (sx - x) * y / k;
            }
            x
        }
        Src::Line { ux, uy, c: _ } => {
            if uy > 0.0 {
                return x - ux * y / uy;
            }
            x
        }
    }
}

// The lesser of a point's distances at b0 and b1. Where both lie on one side of its foot, that is the distance at the nearer end, with one root. Both may be equal: then
// the first is given, so the second is to be above zero, for the sign of a zero.
fn lowest_end(x: f64, y: f64, s: f64, b0: f64, b1: f64) -> f64
    ensures { result ≡ min_of (edge_of (Point x y s) b0) (edge_of (Point x y s) b1) }
{
    let src = Src::Point { x, y, s };
    if b0 <= b1 {
        if x < b0 {
            let d = edge(src, b0);
            if float64::is_finite(d) {
                return d;
            }
        }
        if b1 < x {
            let d = edge(src, b1);
            if d > 0.0 {
                if float64::is_finite(d) {
                    return d;
                }
            }
        }
    }
    float64::min(edge(src, b0), edge(src, b1))
}

// The least distance from b0 to b1 on the edge.
pub fn lowest(src: Src, b0: f64, b1: f64) -> f64
    ensures { result ≡ lowest_of src b0 b1 }
{
    if let Src::Point { x, y, s } = src {
        if b0 <= x && x <= b1 {
            return float64::abs(y) + s;
        }
        return lowest_end(x, y, s, b0, b1);
    }
    float64::min(edge(src, b0), edge(src, b1))
}

// Where two points are equally far: r0 = r1 + b with b = s1 - s0; r0^2 - r1^2 - b^2 = 2 b r1 is linear in x, k1 x + k0; squared once more.
fn ties_points(a0: f64, h0: f64, s0: f64, a1: f64, h1: f64, s1: f64) -> RealRoots
    ensures { result ≡ ties_of_points a0 h0 s0 a1 h1 s1 }
{
    let b = s1 - s0;
    let k1 = 2.0 * (a1 - a0);
    let k0 = a0 * a0 + h0 * h0 - a1 * a1 - h1 * h1 - b * b;
    // Equal offsets: the bisector is linear; squared, it has a double root that rounding can lose.
    if b == 0.0 {
        if k1 != 0.0 {
            return RealRoots::One(-k0 / k1);
        }
        return RealRoots::None;
    }
    roots(
        k1 * k1 - 4.0 * b * b,
        2.0 * k1 * k0 + 8.0 * b * b * a1,
        k0 * k0 - 4.0 * b * b * (a1 * a1 + h1 * h1),
    )
}

// Where a point and a line are equally far: r = (c - s) + ux x, squared.
fn ties_point_line(a: f64, h: f64, s: f64, ux: f64, c: f64) -> RealRoots
    ensures { result ≡ ties_of_point_line a h s ux c }
{
    let n = c - s;
    roots(
        1.0 - ux * ux,
        -2.0 * a - 2.0 * ux * n,
        a * a + h * h - n * n,
    )
}

// Where two sources are equally far on the edge, or could be: squaring adds roots, and none is filtered out.
pub fn ties(p: Src, q: Src) -> RealRoots
    ensures { result ≡ ties_of p q }
{
    match p {
        Src::Point {
            x: a0,
            y: h0,
            s: s0,
        } => match q {
            Src::Point {
                x: a1,
                y: h1,
                s: s1,
            } => ties_points(a0, h0, s0, a1, h1, s1),
            Src::Line { ux, uy: _, c } => ties_point_line(a0, h0, s0, ux, c),
        },
        Src::Line {
            ux: u0,
            uy: _,
            c: c0,
        } => match q {
            Src::Point { x, y, s } => ties_point_line(x, y, s, u0, c0),
            Src::Line {
                ux: u1,
                uy: _,
                c: c1,
            } => {
                if u0 != u1 {
                    return RealRoots::One((c1 - c0) / (u0 - u1));
                }
                RealRoots::None
            }
        },
    }
}

// The least of |p - p'| + D(p') over the p' in the window, for p = (x, y >= 0).
pub fn eval(w: Win, x: f64, y: f64) -> f64
    ensures { result ≡ eval_of w x y }
{
    let src = w.src;
    let f = foot(src, x, y);
    if f >= w.b0 && f <= w.b1 {
        return free(src, x, y);
    }
    let q = float64::clamp(f, w.b0, w.b1);
    sqrt_hypot::hypot(x - q, y) + edge(src, q)
}
