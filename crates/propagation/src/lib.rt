// What a window passes on to the two edges ahead, on values: the Rust's `propagate` and `emit` without their walks over the mesh. The face ahead lies in
// the frame of the window's edge: x along the edge from its first vertex a to its second b, y into the face, where the opposite vertex c is.
#![tactic(auto)]

ghost use Rattle.std.specs.Prelude.{◌≡◌};
ghost use Rattle.propagation.specs.Plane.{vertex_of, pos_of, rest_of, yh_of, frame_between, frame_of, turn_to, map_to};
ghost use Rattle.propagation.specs.Propagate.{xc_of, part_of, image_of_point, image_of_line, clipped_of, images_of, side_of, propagate_of, emit_of};

use buffers::VertexId;
use source::Src;
pub use source_windows as of_source_windows;
use source_windows::{Bounds, CandidateWindow};

#[derive(Clone, Copy)]
pub struct Vec2 {
    pub x: f64,
    pub y: f64,
}

// The face that a window goes into: the length of the window's edge, and where the opposite vertex is.
#[derive(Clone, Copy)]
pub struct FaceAhead {
    pub l: f64,
    pub cx: f64,
    pub cy: f64,
}

// The vertices of that face: the ends of the window's edge, and the opposite one.
#[derive(Clone, Copy)]
pub enum FaceVertex {
    A,
    B,
    C,
}

// The end of the window's edge that an edge ahead shares with it, in the Rust's order: a, then b.
#[derive(Clone, Copy)]
pub enum Side {
    First,
    Second,
}

// An edge ahead: its first and its second vertex, and its length.
#[derive(Clone, Copy)]
pub struct NextEdge {
    pub p: FaceVertex,
    pub q: FaceVertex,
    pub ln: f64,
}

// An edge's frame: its first vertex, the unit vector along it, and the one across it, out of the face.
#[derive(Clone, Copy)]
pub struct Frame {
    pub o: Vec2,
    pub xh: Vec2,
    pub yh: Vec2,
}

// Which of the face's vertices k is, given the ends of the window's edge.
pub fn vertex_of(k: VertexId, a: VertexId, b: VertexId) -> FaceVertex
    ensures { result ≡ vertex_of k a b }
{
    if k.0 == a.0 {
        return FaceVertex::A;
    }
    if k.0 == b.0 {
        return FaceVertex::B;
    }
    FaceVertex::C
}

// Where the ray from the source through the opposite vertex crosses the window's edge, unless the window goes no further.
pub fn crossing(src: Src, g: FaceAhead) -> Option<f64>
    ensures { result ≡ xc_of src g }
{
    if g.cy <= 0.0 {
        return None;
    }
    match src {
        Src::Point { x: sx, y: sy, s: _ } => {
            if sy > -1e-12 * g.l {
                return None;
            }
            Some(sx + (g.cx - sx) * (-sy) / (g.cy - sy))
        }
        Src::Line { ux, uy, c: _ } => {
            if uy < 1e-12 {
                return None;
            }
            Some(g.cx - ux * g.cy / uy)
        }
    }
}

// Where a vertex of the face stands.
fn position(g: FaceAhead, k: FaceVertex) -> Vec2
    ensures { result ≡ pos_of g k }
{
    match k {
        FaceVertex::A => Vec2 { x: 0.0, y: 0.0 },
        FaceVertex::B => Vec2 { x: g.l, y: 0.0 },
        FaceVertex::C => Vec2 { x: g.cx, y: g.cy },
    }
}

fn rest(side: Side) -> FaceVertex
    ensures { result ≡ rest_of side }
{
    match side {
        Side::First => FaceVertex::B,
        Side::Second => FaceVertex::A,
    }
}

// The unit vector across an edge that starts at o, away from the face's vertex that is not on it.
fn across(o: Vec2, xh: Vec2, rest: Vec2) -> Vec2
    ensures { result ≡ yh_of o xh rest }
{
    let x = -xh.y;
    let y = xh.x;
    if (rest.x - o.x) * x + (rest.y - o.y) * y > 0.0 {
        return Vec2 { x: -x, y: -y };
    }
    Vec2 { x, y }
}

fn frame_between(o: Vec2, qq: Vec2, rest: Vec2, ln: f64) -> Frame
    ensures { result ≡ frame_between o qq rest ln }
{
    let xh = Vec2 {
        x: (qq.x - o.x) / ln,
        y: (qq.y - o.y) / ln,
    };
    let yh = across(o, xh, rest);
    Frame { o, xh, yh }
}

// The frame of an edge ahead.
pub fn next_frame(g: FaceAhead, side: Side, ne: NextEdge) -> Frame
    ensures { result ≡ frame_of g side ne }
{
    let p = ne.p;
    let q = ne.q;
    let o = position(g, p);
    let qq = position(g, q);
    let rest = position(g, rest(side));
    frame_between(o, qq, rest, ne.ln)
}

// A direction in a frame.
fn turn(f: Frame, d: Vec2) -> Vec2
    ensures { result ≡ turn_to f d }
{
    Vec2 {
        x: d.x * f.xh.x + d.y * f.xh.y,
        y: d.x * f.yh.x + d.y * f.yh.y,
    }
}

// A point in a frame.
fn map(f: Frame, pt: Vec2) -> Vec2
    ensures { result ≡ map_to f pt }
{
    turn(
        f,
        Vec2 {
            x: pt.x - f.o.x,
            y: pt.y - f.o.y,
        },
    )
}

// The part of a window on a side of the ray.
fn part(side: Side, w: Bounds, xc: f64) -> Bounds
    ensures { result ≡ part_of side w xc }
{
    match side {
        Side::First => Bounds {
            b0: w.b0,
            b1: float64::min(w.b1, xc),
        },
        Side::Second => Bounds {
            b0: float64::max(w.b0, xc),
            b1: w.b1,
        },
    }
}

// Where the ray from the point sn over x of the window's edge meets the next edge.
fn image_of_point(f: Frame, sn: Vec2, x: f64) -> f64
    ensures { result ≡ image_of_point f sn x }
{
    let xn = map(f, Vec2 { x, y: 0.0 });
    let k = xn.y - sn.y;
    if k <= 0.0 {
        if xn.x >= sn.x {
            return 1.0 / 0.0;
        }
        return -1.0 / 0.0;
    }
    sn.x + (xn.x - sn.x) * (-sn.y) / k
}

// Where the ray of direction un over x meets it.
fn image_of_line(f: Frame, un: Vec2, x: f64) -> f64
    ensures { result ≡ image_of_line f un x }
{
    let xn = map(f, Vec2 { x, y: 0.0 });
    if un.y <= 0.0 {
        if un.x >= 0.0 {
            return 1.0 / 0.0;
        }
        return -1.0 / 0.0;
    }
    xn.x + un.x * (-xn.y) / un.y
}

// The images of a window's ends in order, cut off at the next edge's ends.
fn clipped(i0: f64, i1: f64, ln: f64, src: Src) -> Option<CandidateWindow>
    ensures { result ≡ clipped_of i0 i1 ln src }
{
    Some(CandidateWindow {
        b0: float64::max(float64::min(i0, i1), 0.0),
        b1: float64::min(float64::max(i0, i1), ln),
        src,
    })
}

fn images(src: Src, f: Frame, r: Bounds, ln: f64) -> Option<CandidateWindow>
    ensures { result ≡ images_of src f r ln }
{
    match src {
        Src::Point { x: sx, y: sy, s } => {
            let sn = map(f, Vec2 { x: sx, y: sy });
            clipped(
                image_of_point(f, sn, r.b0),
                image_of_point(f, sn, r.b1),
                ln,
                Src::Point {
                    x: sn.x,
                    y: float64::min(sn.y, 0.0),
                    s,
                },
            )
        }
        Src::Line { ux, uy, c } => {
            let un = turn(f, Vec2 { x: ux, y: uy });
            clipped(
                image_of_line(f, un, r.b0),
                image_of_line(f, un, r.b1),
                ln,
                Src::Line {
                    ux: un.x,
                    uy: float64::max(un.y, 0.0),
                    c: c + ux * f.o.x + uy * f.o.y,
                },
            )
        }
    }
}

// What the edge ahead on a side gets of a window from b0 to b1, whose ray crosses at xc.
pub fn pass_on(
    src: Src,
    w: Bounds,
    g: FaceAhead,
    xc: f64,
    side: Side,
    ne: NextEdge,
) -> Option<CandidateWindow>
    ensures { result ≡ side_of src w g xc side ne }
{
    let r = part(side, w, xc);
    if source_windows::too_narrow(r, g.l) {
        return None;
    }
    images(src, next_frame(g, side, ne), r, ne.ln)
}

pub fn propagate(
    src: Src,
    w: Bounds,
    g: FaceAhead,
    side: Side,
    ne: NextEdge,
) -> Option<CandidateWindow>
    ensures { result ≡ propagate_of src w g side ne }
{
    let xc = crossing(src, g)?;
    pass_on(src, w, g, xc, side, ne)
}

// What a vertex with `coords` (x, y) at distance d gives an edge of length l of a face round it.
pub fn emit(x: f64, y: f64, l: f64, d: f64) -> Option<CandidateWindow>
    ensures { result ≡ emit_of x y l d }
{
    Some(CandidateWindow {
        b0: 0.0,
        b1: l,
        src: source_windows::point_source(x, y, d),
    })
}
