// Replays stored answers of the Rust: the windows that `propagate`, `source_point`, `source_segment` and `emit` offer to `add`, and the distances of `at` and
// `edge_at`. Prints of each file how many cases it has and how many are answered otherwise. A record is a row of doubles (oracle/README.md); the arguments
// come first, then the answers. A window is six: its ends, 1 for a point or 2 for a line, and the source's three; where there is none, zeros.
#![tactic(auto)]

ghost use Rattle.std.specs.Prelude.{◌≤◌};

use face_distance::{through_ends, through_vertex, through_window, to_point, to_segment};
use propagation::{FaceAhead, FaceVertex, NextEdge, Side};
use source::{Src, Win};
use source_windows::{Bounds, CandidateWindow, Normal};
use std::io;
use stored_numbers::{count, read_doubles};
use vec3::Vec3;
use vectors::Tally;

fn vector(r: &[f64; 42], i: usize) -> Vec3
    requires { i ≤ 39 }
{
    Vec3 {
        x: r[i],
        y: r[i + 1],
        z: r[i + 2],
    }
}

fn source_at(r: &[f64; 42], i: usize) -> Src
    requires { i ≤ 38 }
{
    if r[i] == 1.0 {
        return Src::Point {
            x: r[i + 1],
            y: r[i + 2],
            s: r[i + 3],
        };
    }
    Src::Line {
        ux: r[i + 1],
        uy: r[i + 2],
        c: r[i + 3],
    }
}

fn same(x: f64, y: f64) -> bool {
    vectors::pattern(x) == vectors::pattern(y)
}

fn same_three(x: f64, y: f64, z: f64, u: Vec3) -> bool {
    same(x, u.x) && same(y, u.y) && same(z, u.z)
}

fn same_source(src: Src, kind: f64, u: Vec3) -> bool {
    match src {
        Src::Point { x, y, s } => kind == 1.0 && same_three(x, y, s, u),
        Src::Line { ux, uy, c } => kind == 2.0 && same_three(ux, uy, c, u),
    }
}

// Whether a candidate is the window at number i, or there is none in both.
fn same_range(c: Option<CandidateWindow>, r: &[f64; 42], i: usize) -> bool
    requires { i ≤ 36 }
{
    let kind = r[i + 2];
    match c {
        None => kind == 0.0,
        Some(CandidateWindow { b0, b1, src }) => {
            same(b0, r[i]) && same(b1, r[i + 1]) && same_source(src, kind, vector(r, i + 3))
        }
    }
}

fn face_vertex(n: f64) -> FaceVertex {
    if n == 0.0 {
        return FaceVertex::A;
    }
    if n == 1.0 {
        return FaceVertex::B;
    }
    FaceVertex::C
}

fn next_edge(p: f64, q: f64, ln: f64) -> NextEdge {
    let p = face_vertex(p);
    let q = face_vertex(q);
    NextEdge { p, q, ln }
}

fn propagate_holds(r: &[f64; 42]) -> bool {
    let src = source_at(r, 0);
    let w = Bounds { b0: r[4], b1: r[5] };
    let g = FaceAhead {
        l: r[6],
        cx: r[7],
        cy: r[8],
    };
    let a = propagation::propagate(src, w, g, Side::First, next_edge(r[9], r[10], r[11]));
    let b = propagation::propagate(src, w, g, Side::Second, next_edge(r[12], r[13], r[14]));
    same_range(a, r, 15) && same_range(b, r, 21)
}

// The part of an edge behind the segments of its own face.
fn wedge(r: &[f64; 42]) -> Bounds {
    let o = vector(r, 3);
    let p = vector(r, 6);
    let xhat = vector(r, 9);
    let mut w = source_windows::whole_edge(r[2]);
    if r[21] > 0.0 {
        w = source_windows::behind(o, p, xhat, w, vector(r, 22));
    }
    if r[21] > 1.0 {
        w = source_windows::behind(o, p, xhat, w, vector(r, 25));
    }
    w
}

// A direction of the other face.
fn unfolded_at(r: &[f64; 42], i: usize) -> Vec3
    requires { i ≤ 39 }
{
    source_windows::unfolded(vector(r, i), vector(r, 12), vector(r, 15), vector(r, 18))
}

// And behind those of the other face.
fn wedge_across(r: &[f64; 42], own: Bounds) -> Bounds {
    let o = vector(r, 3);
    let p = vector(r, 6);
    let xhat = vector(r, 9);
    let mut w = own;
    if r[28] > 0.0 {
        w = source_windows::behind(o, p, xhat, w, unfolded_at(r, 29));
    }
    if r[28] > 1.0 {
        w = source_windows::behind(o, p, xhat, w, unfolded_at(r, 32));
    }
    w
}

// 1 for a point on the edge.
fn on(y: f64, l: f64) -> f64 {
    if source_windows::lies_on(y, l) {
        return 1.0;
    }
    0.0
}

// Where there is no window it is not known whether the point was taken to be on the edge.
fn point_holds(r: &[f64; 42]) -> bool {
    let c = source_windows::point_window(wedge_across(r, wedge(r)), r[0], r[1], r[2]);
    let known = r[38] == 0.0 || same(on(r[1], r[2]), r[35]);
    known && same_range(c, r, 36)
}

// The stored windows are those of the two sides, in their order.
fn segment_holds(r: &[f64; 42]) -> bool {
    let g = source_windows::in_frame(r[0], r[1], r[2], r[3], r[4]);
    let left = source_windows::segment_window(g, r[4], Normal::Left);
    let right = source_windows::segment_window(g, r[4], Normal::Right);
    if left.is_none() {
        return same_range(right, r, 5) && r[13] == 0.0;
    }
    same_range(left, r, 5) && same_range(right, r, 11)
}

fn emit_holds(r: &[f64; 42]) -> bool {
    same_range(propagation::emit(r[0], r[1], r[2], r[3]), r, 4)
}

// `at` through one vertex, and then through a window.
fn through_a_vertex(r: &[f64; 42]) -> f64 {
    float64::min(1.0 / 0.0, through_vertex(vector(r, 1), vector(r, 4), r[10]))
}

fn through_a_window(r: &[f64; 42]) -> f64 {
    let w = Win {
        b0: r[12],
        b1: r[13],
        low: r[14],
        src: source_at(r, 15),
    };
    through_window(through_a_vertex(r), w, r[19], float64::max(r[20], 0.0))
}

// `at` with one entry of the face or through the above, `edge_at` through the edge's ends.
fn distance(r: &[f64; 42]) -> f64 {
    let kind = r[0];
    if kind == 0.0 {
        return float64::min(1.0 / 0.0, to_point(vector(r, 1), vector(r, 4)));
    }
    if kind == 1.0 {
        return float64::min(
            1.0 / 0.0,
            to_segment(vector(r, 1), vector(r, 4), vector(r, 7)),
        );
    }
    if kind == 2.0 {
        return through_a_vertex(r);
    }
    if kind == 3.0 {
        return through_a_window(r);
    }
    through_ends(r[10], r[11], r[21], r[19])
}

// Replays the records of a file, whose first number says how many there are; each has z numbers. Numbers past the file's end read as zeros, so a file that is
// cut off differs.
fn replay<F: Fn(&[f64; 42]) -> bool>(s: &[u8], z: usize, holds: F) -> Tally
    requires { (z ≤ 84) × F.IsAlwaysCallable holds }
{
    let n = count(s, 0, 10_000);
    let mut differences: u64 = 0;
    let mut k: usize = 1;
    for i in 0..n {
        // the record, and what comes after it if it is shorter than the longest
        let mut r = [0.0f64; 42];
        read_doubles(s, k, &mut r);
        if !holds(&r) {
            differences += 1;
        }
        k += z;
    }
    Tally {
        cases: n as u64,
        differences,
    }
}

fn entry_holds(r: &[f64; 42]) -> bool {
    same(distance(r), r[22])
}

fn main(rt: HostRuntime) -> io::Result<()> {
    vectors::replay_file::<524288, _>(&rt, "propagate", |s| replay(s, 54, propagate_holds))?;
    vectors::replay_file::<524288, _>(&rt, "point", |s| replay(s, 84, point_holds))?;
    vectors::replay_file::<524288, _>(&rt, "segment", |s| replay(s, 34, segment_holds))?;
    vectors::replay_file::<524288, _>(&rt, "emit", |s| replay(s, 20, emit_holds))?;
    vectors::replay_file::<524288, _>(&rt, "entry", |s| replay(s, 46, entry_holds))
}
