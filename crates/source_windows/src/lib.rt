// The candidate windows that a source point or a source segment gives an edge of its face, on values: the Rust's `source_point` and `source_segment`
// without their walks over the mesh. In an edge's frame x goes along the edge from its first vertex; the y of `coords` goes into the face.
#![tactic(auto)]

ghost use Rattle.std.specs.Prelude.{◌≡◌, Some};
ghost use Rattle.source_windows.specs.Tolerance.{too_narrow};
ghost use Rattle.source_windows.specs.Wedge.{lies_on, unfolded_of, whole_of, narrow_of, behind_of, point_source_of, point_window_of};
ghost use Rattle.source_windows.specs.Back.{advance_of, goes_back_along};
ghost use Rattle.source_windows.specs.Segment.{in_frame_of, nx_of, ny_of, feet_of, ahead_of, wave_of, side_window_of, segment_window_of};

use source::Src;
use vec3::Vec3;

// A range along an edge.
#[derive(Clone, Copy)]
pub struct Bounds {
    pub b0: f64,
    pub b1: f64,
}

// A candidate window of an edge: its ends and its source.
#[derive(Clone, Copy)]
pub struct CandidateWindow {
    pub b0: f64,
    pub b1: f64,
    pub src: Src,
}

// A segment in the window's frame of an edge, y positive away from the face: its first end, its vector, the vector's square and its length.
#[derive(Clone, Copy)]
pub struct EdgeSegment {
    pub ax: f64,
    pub ay: f64,
    pub dx: f64,
    pub dy: f64,
    pub ll: f64,
    pub sl: f64,
}

// A segment's two sides, in the Rust's order: left of its direction, then right.
#[derive(Clone, Copy)]
pub enum Normal {
    Left,
    Right,
}

pub fn too_narrow(w: Bounds, l: f64) -> bool
    ensures { result ≡ too_narrow w l }
{
    w.b1 - w.b0 <= 1e-12 * l
}

// Whether a point at y over an edge of length l counts as lying on it.
pub fn lies_on(y: f64, l: f64) -> bool
    ensures { result ≡ lies_on y l }
{
    y <= 1e-9 * l
}

// A direction of face h in the plane of face g, unfolded across their common edge xh; yg and yh go into g and into h.
pub fn unfolded(d: Vec3, xh: Vec3, yg: Vec3, yh: Vec3) -> Vec3
    ensures { result ≡ unfolded_of d xh yg yh }
{
    vec3::axpy(vec3::scale(xh, vec3::dot(d, xh)), -vec3::dot(d, yh), yg)
}

pub fn whole_edge(l: f64) -> Bounds
    ensures { result ≡ whole_of l }
{
    Bounds { b0: 0.0, b1: l }
}

// The part of a range where k0 + t k1 <= 0.
pub fn narrow(w: Bounds, k0: f64, k1: f64) -> Bounds
    ensures { result ≡ narrow_of w k0 k1 }
{
    if k1 > 0.0 {
        return Bounds {
            b0: w.b0,
            b1: float64::min(w.b1, -k0 / k1),
        };
    }
    if k1 < 0.0 {
        return Bounds {
            b0: float64::max(w.b0, -k0 / k1),
            b1: w.b1,
        };
    }
    if k0 > 0.0 {
        return Bounds { b0: w.b0, b1: -1.0 };
    }
    w
}

// The part of a range of the edge o + t xhat that lies behind a segment that leaves p in the direction d.
pub fn behind(o: Vec3, p: Vec3, xhat: Vec3, w: Bounds, d: Vec3) -> Bounds
    ensures { result ≡ behind_of o p xhat w d }
{
    narrow(w, vec3::dot(vec3::sub(o, p), d), vec3::dot(xhat, d))
}

// A point with `coords` (x, y) as the edge sees it, carrying the distance s.
pub fn point_source(x: f64, y: f64, s: f64) -> Src
    ensures { result ≡ point_source_of x y s }
{
    Src::Point {
        x,
        y: float64::min(-y, 0.0),
        s,
    }
}

pub fn point_window(w: Bounds, x: f64, y: f64, l: f64) -> Option<CandidateWindow>
    ensures { result ≡ point_window_of w x y l }
{
    if too_narrow(w, l) {
        return None;
    }
    Some(CandidateWindow {
        b0: w.b0,
        b1: w.b1,
        src: point_source(x, y, 0.0),
    })
}

// A segment by the `coords` of its ends, unless it is too short.
pub fn in_frame(ax: f64, ay: f64, bx: f64, by: f64, l: f64) -> Option<EdgeSegment>
    ensures { result ≡ in_frame_of ax ay bx by l }
{
    let ay = -float64::max(ay, 0.0);
    let by = -float64::max(by, 0.0);
    let dx = bx - ax;
    let dy = by - ay;
    let ll = dx * dx + dy * dy;
    let short = 1e-12 * l;
    if ll <= short * short {
        return None;
    }
    Some(EdgeSegment {
        ax,
        ay,
        dx,
        dy,
        ll,
        sl: sqrt_hypot::sqrt(ll),
    })
}

// The unit normal of a side, along the edge and across it.
fn normal_x(g: EdgeSegment, n: Normal) -> f64
    ensures { result ≡ nx_of g n }
{
    match n {
        Normal::Left => -g.dy / g.sl,
        Normal::Right => g.dy / g.sl,
    }
}

fn normal_y(g: EdgeSegment, n: Normal) -> f64
    ensures { result ≡ ny_of g n }
{
    match n {
        Normal::Left => g.dx / g.sl,
        Normal::Right => -g.dx / g.sl,
    }
}

// Where on an edge the feet lie on a segment.
fn feet(g: EdgeSegment, l: f64) -> Option<Bounds>
    ensures { result ≡ feet_of g l }
{
    let base = -g.ax * g.dx - g.ay * g.dy;
    if float64::abs(g.dx) > 1e-15 * g.sl {
        let x0 = -base / g.dx;
        let x1 = (g.ll - base) / g.dx;
        return Some(Bounds {
            b0: float64::max(0.0, float64::min(x0, x1)),
            b1: float64::min(l, float64::max(x0, x1)),
        });
    }
    if 0.0 <= base && base <= g.ll {
        return Some(whole_edge(l));
    }
    None
}

// The part of a range on the side of the segment's line that the normal points to.
fn ahead(w: Bounds, g: EdgeSegment, nx: f64, ny: f64) -> Bounds
    ensures { result ≡ ahead_of w g nx ny }
{
    if nx > 0.0 {
        return Bounds {
            b0: float64::max(w.b0, g.ax + g.ay * ny / nx),
            b1: w.b1,
        };
    }
    if nx < 0.0 {
        return Bounds {
            b0: w.b0,
            b1: float64::min(w.b1, g.ax + g.ay * ny / nx),
        };
    }
    w
}

// The wave of a side over the range of the feet.
fn wave(w: Bounds, g: EdgeSegment, nx: f64, ny: f64, l: f64) -> Option<CandidateWindow>
    ensures { result ≡ wave_of (Some w) g nx ny l }
{
    let part = ahead(w, g, nx, ny);
    if too_narrow(part, l) {
        return None;
    }
    Some(CandidateWindow {
        b0: part.b0,
        b1: part.b1,
        src: Src::Line {
            ux: nx,
            uy: ny,
            c: -(g.ax * nx + g.ay * ny),
        },
    })
}

fn side_window(g: EdgeSegment, l: f64, n: Normal) -> Option<CandidateWindow>
    ensures { result ≡ side_window_of g l n }
{
    let ny = normal_y(g, n);
    if ny <= 1e-12 {
        return None;
    }
    let w = feet(g, l)?;
    wave(w, g, normal_x(g, n), ny, l)
}

// How far along an edge a segment that goes by dx advances, with the normal of a side to its left.
fn advance(dx: f64, n: Normal) -> f64
    ensures { result ≡ advance_of dx n }
{
    match n {
        Normal::Left => dx,
        Normal::Right => -dx,
    }
}

// Whether a segment whose ends stand at ax and bx along an edge goes back, as one of its sides sees it: then it gives the edge no window on that side, which is told here without a root (`goes_Back`).
pub fn goes_back(ax: f64, bx: f64, n: Normal) -> bool
    ensures { result ≡ goes_back_along ax bx n }
{
    let d = advance(bx - ax, n);
    if d < 0.0 {
        return float64::is_finite(d);
    }
    false
}

// The window of one side of a segment.
pub fn segment_window(s: Option<EdgeSegment>, l: f64, n: Normal) -> Option<CandidateWindow>
    ensures { result ≡ segment_window_of s l n }
{
    let g = s?;
    side_window(g, l, n)
}
