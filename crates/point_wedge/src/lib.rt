// The part of a side of a carrier that the wedge of a source point leaves: the Rust's `wedge_in` of `source_point`, and its loop over the wedge's directions. Nothing is asked of what
// the buffers hold; where they hold a mesh's topology and the table of its pieces' ends, the part is the Rust's (proofs/Held.antt).
#![tactic(auto)]

ghost use Rattle.std.specs.Prelude.{◌≡◌, map};
ghost use Rattle.segments_behind.specs.Behind.{leaving_at};
ghost use Rattle.carriers.specs.of_source_windows.Wedge.{behind_of, wedge_of};
ghost use Rattle.point_wedge.specs.Wedge.{laid_of, behind_at, across_at, pair_at, directions_at, bounds_at};

use buffers::{EdgeId, FaceId};
use carriers::of_mesh_readers::{ends, length, local, normal, side, side_to, unit, vertex};
use carriers::of_source_windows;
use carriers::of_source_windows::{Bounds, unfolded, whole_edge};
use segments_behind::{first_behind, leaving, next_behind};
use vec3::Vec3;

// The plane that directions are laid into: their own face's, or that of a face across an edge along xh; yg goes from the edge into that face, yh into their own.
#[derive(Clone, Copy)]
pub enum Plane {
    Own,
    Across { xh: Vec3, yg: Vec3, yh: Vec3 },
}

fn laid(plane: Plane, d: Vec3) -> Vec3
    ensures { result ≡ laid_of plane d }
{
    match plane {
        Plane::Own => d,
        Plane::Across { xh, yg, yh } => unfolded(d, xh, yg, yh),
    }
}

// Behind the segment of end e.
fn behind_end(
    reals: &[f64],
    plane: Plane,
    o: Vec3,
    p: Vec3,
    xhat: Vec3,
    w: Bounds,
    e: u32,
) -> Bounds
    ensures { result ≡ behind_of o p xhat w (laid_of plane (leaving_at reals.now e)) }
{
    let d = leaving(reals, e);
    let there = laid(plane, d);
    of_source_windows::behind(o, p, xhat, w, there)
}

// The part of a range of the edge o + t xhat that lies behind every segment of face f that ends at p; `first` is the link to the first end of its bits.
fn narrow_behind(
    kinds: &[u8],
    faces: &[u32],
    coords: &[f64],
    words: &[u32],
    reals: &[f64],
    pieces: u32,
    f: FaceId,
    plane: Plane,
    first: u32,
    o: Vec3,
    p: Vec3,
    xhat: Vec3,
    w: Bounds,
) -> Bounds
    ensures { result ≡ wedge_of o p xhat w (map (laid_of plane)
        (behind_at kinds.now faces.now coords.now words.now reals.now pieces f.0 first)) }
{
    let mut at = first_behind(kinds, faces, coords, words, pieces, f, first);
    let mut part = w;
    let mut rest = 2 * (pieces as u64);
    while rest > 0 {
        if at == 0 {
            return part;
        }
        part = behind_end(reals, plane, o, p, xhat, part, at - 1);
        at = next_behind(kinds, faces, coords, words, pieces, f, at - 1);
        rest -= 1;
    }
    part
}

// From face h into the plane of face g, across edge e.
fn across(
    edge_reals: &[f64],
    triangle_words: &[u32],
    triangle_reals: &[f64],
    g: FaceId,
    h: FaceId,
    e: EdgeId,
) -> Plane
    ensures { result ≡ across_at edge_reals.now triangle_words.now triangle_reals.now g.0 h.0 e.0 }
{
    let xh = unit(edge_reals, e);
    let i = local(triangle_words, g, e);
    let yg = normal(triangle_reals, g, i);
    let j = local(triangle_words, h, e);
    let yh = normal(triangle_reals, h, j);
    Plane::Across { xh, yg, yh }
}

// Behind the segments of two carriers, g and h. Where no edge of g has h, there is no wedge.
fn narrow_pair(
    edge_words: &[u32],
    edge_reals: &[f64],
    triangle_words: &[u32],
    triangle_reals: &[f64],
    kinds: &[u8],
    faces: &[u32],
    coords: &[f64],
    words: &[u32],
    reals: &[f64],
    pieces: u32,
    g: FaceId,
    h: FaceId,
    first: u32,
    o: Vec3,
    p: Vec3,
    xhat: Vec3,
    w: Bounds,
) -> Bounds
    ensures { result ≡ wedge_of o p xhat w
        (pair_at edge_words.now edge_reals.now triangle_words.now triangle_reals.now
        kinds.now faces.now coords.now words.now reals.now pieces g.0 h.0 first) }
{
    let i = side_to(edge_words, triangle_words, g, h);
    if i == 3 {
        return w;
    }
    let e = side(triangle_words, g, i);
    let plane = across(edge_reals, triangle_words, triangle_reals, g, h, e);
    let own = narrow_behind(
        kinds,
        faces,
        coords,
        words,
        reals,
        pieces,
        g,
        Plane::Own,
        first,
        o,
        p,
        xhat,
        w,
    );
    narrow_behind(
        kinds, faces, coords, words, reals, pieces, h, plane, first, o, p, xhat, own,
    )
}

// Behind the segments of a point's carriers, so many, of which h is the one that is not g where there are two. More have no wedge here.
fn narrow_wedge(
    edge_words: &[u32],
    edge_reals: &[f64],
    triangle_words: &[u32],
    triangle_reals: &[f64],
    kinds: &[u8],
    faces: &[u32],
    coords: &[f64],
    words: &[u32],
    reals: &[f64],
    pieces: u32,
    g: FaceId,
    count: u32,
    h: FaceId,
    first: u32,
    o: Vec3,
    p: Vec3,
    xhat: Vec3,
    w: Bounds,
) -> Bounds
    ensures { result ≡ wedge_of o p xhat w
        (directions_at edge_words.now edge_reals.now triangle_words.now triangle_reals.now
        kinds.now faces.now coords.now words.now reals.now pieces g.0 count h.0 first) }
{
    if count == 1 {
        return narrow_behind(
            kinds,
            faces,
            coords,
            words,
            reals,
            pieces,
            g,
            Plane::Own,
            first,
            o,
            p,
            xhat,
            w,
        );
    }
    if count == 2 {
        return narrow_pair(
            edge_words,
            edge_reals,
            triangle_words,
            triangle_reals,
            kinds,
            faces,
            coords,
            words,
            reals,
            pieces,
            g,
            h,
            first,
            o,
            p,
            xhat,
            w,
        );
    }
    w
}

// The part of side k of face g that is left to the point p of so many carriers: g, and h where there are two.
pub fn bounds(
    vertices: &[f64],
    edge_words: &[u32],
    edge_reals: &[f64],
    triangle_words: &[u32],
    triangle_reals: &[f64],
    kinds: &[u8],
    faces: &[u32],
    coords: &[f64],
    words: &[u32],
    reals: &[f64],
    pieces: u32,
    g: FaceId,
    k: u32,
    p: Vec3,
    count: u32,
    h: FaceId,
    first: u32,
) -> Bounds
    ensures { result ≡ bounds_at vertices.now edge_words.now edge_reals.now triangle_words.now triangle_reals.now
        kinds.now faces.now coords.now words.now reals.now pieces g.0 k p count h.0 first }
{
    let e = side(triangle_words, g, k);
    let o = vertex(vertices, ends(edge_words, e).a);
    let xhat = unit(edge_reals, e);
    let whole = whole_edge(length(edge_reals, e));
    narrow_wedge(
        edge_words,
        edge_reals,
        triangle_words,
        triangle_reals,
        kinds,
        faces,
        coords,
        words,
        reals,
        pieces,
        g,
        count,
        h,
        first,
        o,
        p,
        xhat,
        whole,
    )
}
