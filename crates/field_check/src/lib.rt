// Document 01's refusal 20: whether the buffers that are lent to a query, with a job's answer and its mesh and pieces, are none of a field. It reads everything once and writes
// nothing, and asks nothing of what the buffers hold.
#![tactic(auto)]

ghost use Rattle.std.specs.Prelude.{◌≡◌, not, ◌||◌, ℕ, ◌*◌, ltb, leb, length};
ghost use Rattle.std.specs.Float.Ieee.{lt};
ghost use Rattle.windows.specs.Windows.{link_of};
ghost use Rattle.job_checks.specs.Any.{any_below};
ghost use Rattle.job_checks.specs.Refusals.{above_one};
ghost use Rattle.face_entries.specs.Buffers.{entry_capacity, next_entry_of};
ghost use Rattle.field_check.specs.Chains.{walk_of};
ghost use Rattle.field_check.specs.FieldCheck.{job_slices, field_slices, too_few_slots, records_differ, counts_differ, meets_refusal, face_outside, edge_outside, triangle_outside, window_outside, entry_outside, window_start, not_rising, window_unsound, windows_unsound, entries_unsound, points_outside, lists_unsound, field_unsound};

use buffers::{read_f64, read_u32, slots};
use computed::Field;
use layout::{
    COORDINATES_PER_PIECE, COORDINATES_PER_VERTEX, EDGE_FIRST_FACE, EDGE_HEAD, EDGE_HIGH, EDGE_LOW,
    EDGE_SECOND_FACE, ENTRY_LINK, ENTRY_PART, ENTRY_PIECE, REALS_PER_EDGE, REALS_PER_TRIANGLE,
    REALS_PER_VERTEX, REALS_PER_WINDOW, TRIANGLE_FIRST_ENTRY, TRIANGLE_LAST_ENTRY,
    VERTICES_PER_TRIANGLE, WINDOW_B0, WINDOW_B1, WINDOW_EDGE, WINDOW_INTO, WINDOW_LINK,
    WORDS_PER_EDGE, WORDS_PER_ENTRY, WORDS_PER_TRIANGLE, WORDS_PER_WINDOW,
};
pub use mesh_readers as of_mesh_readers;

fn either(a: bool, b: bool) -> bool
    ensures { result ≡ (a || b) }
{
    if a {
        return true;
    }
    b
}

// n is none of so many things.
fn past(count: u32, n: u32) -> bool
    ensures { result ≡ leb count n }
{
    if n < count {
        return false;
    }
    true
}

fn over(most: u32, n: u32) -> bool
    ensures { result ≡ ltb most n }
{
    if most < n {
        return true;
    }
    false
}

fn product(a: u32, b: u32) -> usize
    ensures { result ≡ a * b }
{
    (a as usize) * (b as usize)
}

fn differ(elements: usize, stride: u32, count: u32) -> bool
    ensures { result ≡ records_differ elements stride count }
{
    let due = product(stride, count);
    if elements == due {
        return false;
    }
    true
}

// A NaN is not below anything.
fn not_below(x: f64, y: f64) -> bool
    ensures { result ≡ not (lt x y) }
{
    if x < y {
        return false;
    }
    true
}

fn face_outside(triangles: u32, g: u32) -> bool
    ensures { result ≡ face_outside triangles g }
{
    if g < triangles {
        return false;
    }
    if g == 4294967295 {
        return false;
    }
    true
}

fn too_few_slots(
    n: Field,
    edge_words: &[u32],
    edge_reals: &[f64],
    triangle_words: &[u32],
    triangle_reals: &[f64],
    vertex: &[f64],
    words: &[u32],
    reals: &[f64],
    entry_words: &[u32],
) -> bool
    ensures { result ≡ too_few_slots n (field_slices edge_words.now edge_reals.now triangle_words.now triangle_reals.now vertex.now words.now reals.now
        entry_words.now) }
{
    let edges = buffers::count(
        edge_words.len(),
        WORDS_PER_EDGE,
        edge_reals.len(),
        REALS_PER_EDGE,
    );
    let triangles = buffers::count(
        triangle_words.len(),
        WORDS_PER_TRIANGLE,
        triangle_reals.len(),
        REALS_PER_TRIANGLE,
    );
    let vertices = slots(vertex.len(), REALS_PER_VERTEX);
    let made = windows::capacity(words, reals);
    let a = over(made, n.windows);
    let b = over(vertices, n.vertices);
    let c = over(triangles, n.triangles);
    let d = over(edges, n.edges);
    either(d, either(c, either(b, a)))
}

fn counts_differ(
    n: Field,
    vertices: &[f64],
    triangles: &[u32],
    kinds: &[u8],
    faces: &[u32],
    coords: &[f64],
) -> bool
    ensures { result ≡ counts_differ n (job_slices vertices.now triangles.now kinds.now faces.now coords.now) }
{
    let a = differ(vertices.len(), COORDINATES_PER_VERTEX, n.vertices);
    let b = differ(triangles.len(), VERTICES_PER_TRIANGLE, n.triangles);
    let c = differ(kinds.len(), 1, n.pieces);
    let d = differ(faces.len(), 1, n.pieces);
    let e = differ(coords.len(), COORDINATES_PER_PIECE, n.pieces);
    either(a, either(b, either(c, either(d, e))))
}

fn any_above_one(kinds: &[u8]) -> bool
    ensures { result ≡ any_below (above_one kinds.now) (length kinds.now) }
{
    for &kind in kinds {
        if kind > 1 {
            return true;
        }
    }
    false
}

// The job meets one of 2 to 7.
fn meets_refusal(
    vertices: &[f64],
    triangles: &[u32],
    kinds: &[u8],
    faces: &[u32],
    coords: &[f64],
) -> bool
    ensures { result ≡ meets_refusal (job_slices vertices.now triangles.now kinds.now faces.now coords.now) }
{
    let mesh = job_checks::check_mesh(vertices, triangles);
    let a = over(0, job_checks::refusal_number(mesh));
    let b = job_checks::any_degenerate(vertices, triangles);
    let pieces = job_checks::check_pieces(triangles.len() / 3, kinds, faces, coords);
    let c = over(0, job_checks::refusal_number(pieces));
    let d = any_above_one(kinds);
    either(a, either(b, either(c, d)))
}

fn edge_outside(n: Field, edge_words: &[u32], e: u32) -> bool
    ensures { result ≡ edge_outside n edge_words.now e }
{
    let a = past(
        n.vertices,
        read_u32(edge_words, WORDS_PER_EDGE, e, EDGE_LOW),
    );
    let b = past(
        n.vertices,
        read_u32(edge_words, WORDS_PER_EDGE, e, EDGE_HIGH),
    );
    let c = face_outside(
        n.triangles,
        read_u32(edge_words, WORDS_PER_EDGE, e, EDGE_FIRST_FACE),
    );
    let d = face_outside(
        n.triangles,
        read_u32(edge_words, WORDS_PER_EDGE, e, EDGE_SECOND_FACE),
    );
    let f = over(
        n.windows,
        read_u32(edge_words, WORDS_PER_EDGE, e, EDGE_HEAD),
    );
    either(a, either(b, either(c, either(d, f))))
}

fn any_edge_outside(n: Field, edges: u32, edge_words: &[u32]) -> bool
    ensures { result ≡ any_below (edge_outside n edge_words.now) edges }
{
    for e in 0..edges {
        if edge_outside(n, edge_words, e) {
            return true;
        }
    }
    false
}

fn triangle_outside(n: Field, entries: u32, triangle_words: &[u32], f: u32) -> bool
    ensures { result ≡ triangle_outside n entries triangle_words.now f }
{
    let a = past(n.edges, read_u32(triangle_words, WORDS_PER_TRIANGLE, f, 0));
    let b = past(n.edges, read_u32(triangle_words, WORDS_PER_TRIANGLE, f, 1));
    let c = past(n.edges, read_u32(triangle_words, WORDS_PER_TRIANGLE, f, 2));
    let d = over(
        entries,
        read_u32(triangle_words, WORDS_PER_TRIANGLE, f, TRIANGLE_FIRST_ENTRY),
    );
    let e = over(
        entries,
        read_u32(triangle_words, WORDS_PER_TRIANGLE, f, TRIANGLE_LAST_ENTRY),
    );
    either(a, either(b, either(c, either(d, e))))
}

fn any_triangle_outside(n: Field, triangles: u32, entries: u32, triangle_words: &[u32]) -> bool
    ensures { result ≡ any_below (triangle_outside n entries triangle_words.now) triangles }
{
    for f in 0..triangles {
        if triangle_outside(n, entries, triangle_words, f) {
            return true;
        }
    }
    false
}

fn window_outside(n: Field, words: &[u32], i: u32) -> bool
    ensures { result ≡ window_outside n words.now i }
{
    let a = past(n.edges, read_u32(words, WORDS_PER_WINDOW, i, WINDOW_EDGE));
    let b = face_outside(
        n.triangles,
        read_u32(words, WORDS_PER_WINDOW, i, WINDOW_INTO),
    );
    let c = over(n.windows, read_u32(words, WORDS_PER_WINDOW, i, WINDOW_LINK));
    either(a, either(b, c))
}

fn any_window_outside(n: Field, made: u32, words: &[u32]) -> bool
    ensures { result ≡ any_below (window_outside n words.now) made }
{
    for i in 0..made {
        if window_outside(n, words, i) {
            return true;
        }
    }
    false
}

fn not_rising(reals: &[f64], before: u32, start: f64) -> bool
    ensures { (i : ℕ) → start ≡ window_start reals.now i → result ≡ not_rising reals.now before i }
{
    if before == 0 {
        return false;
    }
    not_below(
        read_f64(reals, REALS_PER_WINDOW, before - 1, WINDOW_B0),
        start,
    )
}

fn window_unsound(reals: &[f64], before: u32, i: u32) -> bool
    ensures { result ≡ window_unsound reals.now before i }
{
    let start = read_f64(reals, REALS_PER_WINDOW, i, WINDOW_B0);
    let a = not_below(start, read_f64(reals, REALS_PER_WINDOW, i, WINDOW_B1));
    either(a, not_rising(reals, before, start))
}

// Along the list of an edge, of which `head` is the first link: how many more links there may be, if the list is a field's.
fn walk_windows(words: &[u32], reals: &[f64], head: u32, most: u32) -> Option<u32>
    ensures { result ≡ walk_of (link_of words.now) (window_unsound reals.now) most 0 head }
{
    let mut before = 0;
    let mut at = head;
    let mut left = most;
    while 0 < at {
        if left == 0 {
            return None;
        }
        if window_unsound(reals, before, at - 1) {
            return None;
        }
        before = at;
        at = read_u32(words, WORDS_PER_WINDOW, at - 1, WINDOW_LINK);
        left -= 1;
    }
    Some(left)
}

fn windows_unsound(edge_words: &[u32], words: &[u32], reals: &[f64], made: u32, edges: u32) -> bool
    ensures { result ≡ windows_unsound edge_words.now words.now reals.now made edges }
{
    let mut left = made;
    for e in 0..edges {
        let head = read_u32(edge_words, WORDS_PER_EDGE, e, EDGE_HEAD);
        let Some(rest) = walk_windows(words, reals, head, left) else {
            return true;
        };
        left = rest;
    }
    false
}

fn entry_outside(entry_words: &[u32], pieces: u32, entries: u32, i: u32) -> bool
    requires { entries ≡ entry_capacity (length entry_words.now) }
    ensures { result ≡ entry_outside pieces entry_words.now i }
{
    let a = past(
        pieces,
        read_u32(entry_words, WORDS_PER_ENTRY, i, ENTRY_PIECE),
    );
    let b = over(2, read_u32(entry_words, WORDS_PER_ENTRY, i, ENTRY_PART));
    let c = over(
        entries,
        read_u32(entry_words, WORDS_PER_ENTRY, i, ENTRY_LINK),
    );
    either(a, either(b, c))
}

// Along the entries of a face, of which `first` is the first link: how many more links there may be, if they are a field's.
fn walk_entries(entry_words: &[u32], pieces: u32, first: u32, most: u32) -> Option<u32>
    ensures { result ≡ walk_of (next_entry_of entry_words.now) (λ (before i : ℕ). entry_outside pieces entry_words.now i) most 0 first }
{
    let entries = face_entries::capacity(entry_words);
    let mut at = first;
    let mut left = most;
    while 0 < at {
        if left == 0 {
            return None;
        }
        if entry_outside(entry_words, pieces, entries, at - 1) {
            return None;
        }
        at = read_u32(entry_words, WORDS_PER_ENTRY, at - 1, ENTRY_LINK);
        left -= 1;
    }
    Some(left)
}

fn entries_unsound(triangle_words: &[u32], entry_words: &[u32], pieces: u32, triangles: u32) -> bool
    ensures { result ≡ entries_unsound triangle_words.now entry_words.now pieces triangles }
{
    let mut left = face_entries::capacity(entry_words);
    for f in 0..triangles {
        let first = read_u32(triangle_words, WORDS_PER_TRIANGLE, f, TRIANGLE_FIRST_ENTRY);
        let Some(rest) = walk_entries(entry_words, pieces, first, left) else {
            return true;
        };
        left = rest;
    }
    false
}

// A number in the buffers names nothing that the field has.
fn points_outside(
    n: Field,
    edge_words: &[u32],
    triangle_words: &[u32],
    words: &[u32],
    entry_words: &[u32],
) -> bool
    ensures { result ≡ (any_below (edge_outside n edge_words.now) n.edges
        || (any_below (triangle_outside n (entry_capacity (length entry_words.now)) triangle_words.now) n.triangles
        || any_below (window_outside n words.now) n.windows)) }
{
    let entries = face_entries::capacity(entry_words);
    any_edge_outside(n, n.edges, edge_words)
        || any_triangle_outside(n, n.triangles, entries, triangle_words)
        || any_window_outside(n, n.windows, words)
}

fn lists_unsound(
    n: Field,
    edge_words: &[u32],
    triangle_words: &[u32],
    words: &[u32],
    reals: &[f64],
    entry_words: &[u32],
) -> bool
    ensures { result ≡ (windows_unsound edge_words.now words.now reals.now n.windows n.edges || entries_unsound triangle_words.now entry_words.now n.pieces
        n.triangles) }
{
    windows_unsound(edge_words, words, reals, n.windows, n.edges)
        || entries_unsound(triangle_words, entry_words, n.pieces, n.triangles)
}

// Refusal 20 of a field that a job returned, with the job's mesh and pieces and the field's buffers as they are lent to a query.
#[tactic(auto, unfolding(crate::specs::FieldCheck::field_unsound, crate::specs::FieldCheck::points_outside, crate::specs::FieldCheck::lists_unsound))]
pub fn is_unsound(
    n: Field,
    vertices: &[f64],
    triangles: &[u32],
    kinds: &[u8],
    faces: &[u32],
    coords: &[f64],
    edge_words: &[u32],
    edge_reals: &[f64],
    triangle_words: &[u32],
    triangle_reals: &[f64],
    vertex: &[f64],
    words: &[u32],
    reals: &[f64],
    entry_words: &[u32],
) -> bool
    ensures { result ≡ field_unsound n (job_slices vertices.now triangles.now kinds.now faces.now coords.now)
        (field_slices edge_words.now edge_reals.now triangle_words.now triangle_reals.now vertex.now words.now reals.now entry_words.now) }
{
    too_few_slots(
        n,
        edge_words,
        edge_reals,
        triangle_words,
        triangle_reals,
        vertex,
        words,
        reals,
        entry_words,
    ) || counts_differ(n, vertices, triangles, kinds, faces, coords)
        || meets_refusal(vertices, triangles, kinds, faces, coords)
        || points_outside(n, edge_words, triangle_words, words, entry_words)
        || lists_unsound(n, edge_words, triangle_words, words, reals, entry_words)
}
