// The Rust's `at` over the buffers: the distance at a point of a face. Whatever the buffers hold, no link leads past the windows made, and no walk goes on for more than those, or
// for more entries than the buffer counts for.
#![tactic(auto)]

ghost use Rattle.std.specs.Prelude.{◌≡◌, false, cond, is_none, ◌&&◌, ◌-◌, ◌≤◌, ◌<◌, length};
ghost use Rattle.std.specs.Float.{inf};
ghost use Rattle.windows.specs.Windows.{capacity_of, window_at};
ghost use Rattle.chains.specs.Chains.{links, link_in, link_at};
ghost use Rattle.last_pass.specs.Buffers.{chain_behind};
ghost use Rattle.face_entries.specs.Buffers.{entry_capacity};
ghost use Rattle.face_entries.specs.Entries.{entries_from_link};
ghost use Rattle.last_pass.specs.of_face_distance.Entries.{to_point, to_segment, through_window};
ghost use Rattle.face_query.specs.Lows.{least_low, side_low, WalksOn};
ghost use Rattle.face_query.specs.FaceDistance.{through_windows, records_on, first_end, second_end, to_part, to_entries, through_face_vertex, through_vertices, through_side, through_sides, to_pieces, face_distance_in};

use buffers::{EdgeId, FaceId, WindowId, read_f64, read_u32};
use face_entries::{Part, of_frames};
use last_pass::{of_face_distance, of_mesh_readers};
use layout::{
    COORDINATES_PER_PIECE, COORDINATES_PER_VERTEX, EDGE_HEAD, REALS_PER_WINDOW, WINDOW_LINK,
    WINDOW_LOW, WORDS_PER_EDGE, WORDS_PER_WINDOW,
};
use vec3::Vec3;

// The lesser of d and of the way through vertex i of a face.
fn through_face_vertex(
    vertices: &[f64],
    triangles: &[u32],
    vertex: &[f64],
    f: FaceId,
    p: Vec3,
    i: u32,
    d: f64,
) -> f64
    ensures { result ≡ through_face_vertex vertices.now triangles.now vertex.now f.0 p i d }
{
    let k = of_mesh_readers::face_vertex(triangles, f, i);
    let v = of_mesh_readers::vertex(vertices, k);
    let far = actions::distance(vertex, k);
    float64::min(d, of_face_distance::through_vertex(p, v, far))
}

fn through_vertices(vertices: &[f64], triangles: &[u32], vertex: &[f64], f: FaceId, p: Vec3) -> f64
    ensures { result ≡ through_vertices vertices.now triangles.now vertex.now f.0 p }
{
    let a = through_face_vertex(vertices, triangles, vertex, f, p, 0, 1.0 / 0.0);
    let b = through_face_vertex(vertices, triangles, vertex, f, p, 1, a);
    through_face_vertex(vertices, triangles, vertex, f, p, 2, b)
}

// The link behind `before` on the chain of an edge; behind 0 comes the head.
fn link_behind(edge_words: &[u32], words: &[u32], made: u32, e: EdgeId, before: u32) -> u32
    ensures { result ≡ link_in made (link_at (links edge_words.now words.now) e.0 before) }
{
    if before == 0 {
        return chains::within(read_u32(edge_words, WORDS_PER_EDGE, e.0, EDGE_HEAD), made);
    }
    chains::within(
        read_u32(words, WORDS_PER_WINDOW, before - 1, WINDOW_LINK),
        made,
    )
}

// The lesser of d and of the way through a window. It is loaded only where its least value leaves it a chance.
fn through_link(words: &[u32], reals: &[f64], i: u32, x: f64, y: f64, d: f64) -> f64
    requires { i < capacity_of (length words.now) (length reals.now) }
    ensures { result ≡ cond (window_at words.now reals.now i).alive (through_window d (window_at words.now reals.now i).win x y) d }
{
    if y + read_f64(reals, REALS_PER_WINDOW, i, WINDOW_LOW) < d {
        let window = windows::load(words, reals, WindowId(i));
        if window.alive {
            return of_face_distance::through_window(d, window.win, x, y);
        }
        return d;
    }
    d
}

fn through_chain(
    edge_words: &[u32],
    words: &[u32],
    reals: &[f64],
    e: EdgeId,
    made: u32,
    x: f64,
    y: f64,
    far: f64,
) -> f64
    requires { made ≤ capacity_of (length words.now) (length reals.now) }
    ensures { result ≡ through_windows x y far (records_on words.now reals.now (chain_behind made (links edge_words.now words.now) e.0 made 0)) }
{
    let mut d = far;
    let mut before = 0;
    let mut left = made;
    while 0 < left {
        let at = link_behind(edge_words, words, made, e, before);
        if at == 0 {
            return d;
        }
        d = through_link(words, reals, at - 1, x, y, d);
        before = at;
        left -= 1;
    }
    d
}

// A walk along the chain of an edge for the least `low` of its windows: what it has come to, and the link before the next one (0: that is the head), if there may be more.
#[derive(Clone, Copy)]
pub struct LowWalk {
    pub low: f64,
    pub before: Option<u32>,
}

// None of three walks has more.
fn over(a: LowWalk, b: LowWalk, c: LowWalk) -> bool
    ensures { result ≡ (is_none a.before && (is_none b.before && is_none c.before)) }
{
    a.before.is_none() && b.before.is_none() && c.before.is_none()
}

// The next window of the chain, if there is one.
fn pass_low(
    edge_words: &[u32],
    words: &[u32],
    reals: &[f64],
    made: u32,
    e: EdgeId,
    s: LowWalk,
) -> LowWalk
    ensures { WalksOn made (links edge_words.now words.now) reals.now e.0 s result }
{
    let Some(before) = s.before else {
        return s;
    };
    let at = link_behind(edge_words, words, made, e, before);
    if at == 0 {
        return LowWalk {
            low: s.low,
            before: None,
        };
    }
    let low = float64::min(s.low, read_f64(reals, REALS_PER_WINDOW, at - 1, WINDOW_LOW));
    LowWalk {
        low,
        before: Some(at),
    }
}

// The least `low` on each side of a face.
#[derive(Clone, Copy)]
struct SideLows {
    first: f64,
    second: f64,
    third: f64,
}

// The chains of three edges are walked side by side: the next window of each is read while those of the others are on their way from memory.
fn side_lows(
    edge_words: &[u32],
    words: &[u32],
    reals: &[f64],
    made: u32,
    e0: EdgeId,
    e1: EdgeId,
    e2: EdgeId,
) -> SideLows
    ensures { (result.first ≡ least_low reals.now (inf false) (chain_behind made (links edge_words.now words.now) e0.0 made 0))
        × ((result.second ≡ least_low reals.now (inf false) (chain_behind made (links edge_words.now words.now) e1.0 made 0))
        × (result.third ≡ least_low reals.now (inf false) (chain_behind made (links edge_words.now words.now) e2.0 made 0))) }
{
    let mut a = LowWalk {
        low: 1.0 / 0.0,
        before: Some(0),
    };
    let mut b = a;
    let mut c = a;
    let mut left = made;
    while 0 < left {
        if over(a, b, c) {
            return SideLows {
                first: a.low,
                second: b.low,
                third: c.low,
            };
        }
        a = pass_low(edge_words, words, reals, made, e0, a);
        b = pass_low(edge_words, words, reals, made, e1, b);
        c = pass_low(edge_words, words, reals, made, e2, c);
        left -= 1;
    }
    SideLows {
        first: a.low,
        second: b.low,
        third: c.low,
    }
}

// The lesser of d and of the ways through the windows on side i of a face, of which `low` is the least `low`: where it fails the test of a window, all do.
fn through_side(
    vertices: &[f64],
    edge_words: &[u32],
    edge_reals: &[f64],
    triangle_words: &[u32],
    triangle_reals: &[f64],
    words: &[u32],
    reals: &[f64],
    made: u32,
    f: FaceId,
    p: Vec3,
    i: u32,
    low: f64,
    d: f64,
) -> f64
    requires { (made ≤ capacity_of (length words.now) (length reals.now)) × (low ≡ side_low edge_words.now triangle_words.now words.now reals.now made f.0 i) }
    ensures { result ≡ through_side vertices.now edge_words.now edge_reals.now triangle_words.now triangle_reals.now words.now reals.now made f.0 p i d }
{
    let e = of_mesh_readers::side(triangle_words, f, i);
    let c = of_mesh_readers::coords(
        vertices,
        edge_words,
        edge_reals,
        triangle_words,
        triangle_reals,
        e,
        f,
        p,
    );
    let y = float64::max(c.y, 0.0);
    if y + low < d {
        return through_chain(edge_words, words, reals, e, made, c.x, y, d);
    }
    d
}

fn through_sides(
    vertices: &[f64],
    edge_words: &[u32],
    edge_reals: &[f64],
    triangle_words: &[u32],
    triangle_reals: &[f64],
    words: &[u32],
    reals: &[f64],
    made: u32,
    f: FaceId,
    p: Vec3,
    d: f64,
) -> f64
    requires { made ≤ capacity_of (length words.now) (length reals.now) }
    ensures { result ≡ through_sides vertices.now edge_words.now edge_reals.now triangle_words.now triangle_reals.now words.now reals.now made f.0 p d }
{
    let e0 = of_mesh_readers::side(triangle_words, f, 0);
    let e1 = of_mesh_readers::side(triangle_words, f, 1);
    let e2 = of_mesh_readers::side(triangle_words, f, 2);
    let lows = side_lows(edge_words, words, reals, made, e0, e1, e2);
    let a = through_side(
        vertices,
        edge_words,
        edge_reals,
        triangle_words,
        triangle_reals,
        words,
        reals,
        made,
        f,
        p,
        0,
        lows.first,
        d,
    );
    let b = through_side(
        vertices,
        edge_words,
        edge_reals,
        triangle_words,
        triangle_reals,
        words,
        reals,
        made,
        f,
        p,
        1,
        lows.second,
        a,
    );
    through_side(
        vertices,
        edge_words,
        edge_reals,
        triangle_words,
        triangle_reals,
        words,
        reals,
        made,
        f,
        p,
        2,
        lows.third,
        b,
    )
}

// From p to the first end of a piece, to the second, and to the segment between them.
fn to_first(coords: &[f64], p: Vec3, piece: u32) -> f64
    ensures { result ≡ to_point p (first_end coords.now piece) }
{
    let at = (COORDINATES_PER_PIECE as usize) * (piece as usize);
    of_face_distance::to_point(p, of_frames::vector_from(coords, at))
}

fn to_second(coords: &[f64], p: Vec3, piece: u32) -> f64
    ensures { result ≡ to_point p (second_end coords.now piece) }
{
    let at = (COORDINATES_PER_PIECE as usize) * (piece as usize)
        + (COORDINATES_PER_VERTEX as usize);
    of_face_distance::to_point(p, of_frames::vector_from(coords, at))
}

fn to_whole(coords: &[f64], p: Vec3, piece: u32) -> f64
    ensures { result ≡ to_segment p (first_end coords.now piece) (second_end coords.now piece) }
{
    let at = (COORDINATES_PER_PIECE as usize) * (piece as usize);
    let a = of_frames::vector_from(coords, at);
    let b = of_frames::vector_from(coords, at + (COORDINATES_PER_VERTEX as usize));
    of_face_distance::to_segment(p, a, b)
}

// From p to what an entry holds.
fn to_part(coords: &[f64], p: Vec3, piece: u32, part: Part) -> f64
    ensures { result ≡ to_part coords.now p piece part }
{
    match part {
        Part::EndA => to_first(coords, p, piece),
        Part::EndB => to_second(coords, p, piece),
        Part::Whole => to_whole(coords, p, piece),
    }
}

// The least of d and of the ways to the entries from a link on.
fn to_entries(coords: &[f64], entry_words: &[u32], first: u32, p: Vec3, far: f64) -> f64
    ensures { result ≡ to_entries coords.now p far (entries_from_link (entry_capacity (length entry_words.now)) entry_words.now first) }
{
    let mut d = far;
    let mut at = first;
    let mut left = face_entries::capacity(entry_words);
    while 0 < left {
        if at == 0 {
            return d;
        }
        let x = face_entries::entry(entry_words, at - 1);
        let part = x.part;
        d = float64::min(d, to_part(coords, p, x.piece, part));
        at = face_entries::next_entry(entry_words, at - 1);
        left -= 1;
    }
    d
}

fn to_pieces(
    coords: &[f64],
    triangle_words: &[u32],
    entry_words: &[u32],
    f: FaceId,
    p: Vec3,
    d: f64,
) -> f64
    ensures { result ≡ to_pieces coords.now triangle_words.now entry_words.now f.0 p d }
{
    to_entries(
        coords,
        entry_words,
        face_entries::first_entry(triangle_words, f),
        p,
        d,
    )
}

// The distance at p in face f, where so many windows are made.
pub fn distance_in_face(
    vertices: &[f64],
    triangles: &[u32],
    coords: &[f64],
    edge_words: &[u32],
    edge_reals: &[f64],
    triangle_words: &[u32],
    triangle_reals: &[f64],
    vertex: &[f64],
    words: &[u32],
    reals: &[f64],
    entry_words: &[u32],
    made: u32,
    f: FaceId,
    p: Vec3,
) -> f64
    requires { made ≤ capacity_of (length words.now) (length reals.now) }
    ensures { result ≡ face_distance_in vertices.now triangles.now coords.now edge_words.now edge_reals.now triangle_words.now triangle_reals.now
        vertex.now words.now reals.now entry_words.now made f.0 p }
{
    let through = through_vertices(vertices, triangles, vertex, f, p);
    let sides = through_sides(
        vertices,
        edge_words,
        edge_reals,
        triangle_words,
        triangle_reals,
        words,
        reals,
        made,
        f,
        p,
        through,
    );
    to_pieces(coords, triangle_words, entry_words, f, p, sides)
}
