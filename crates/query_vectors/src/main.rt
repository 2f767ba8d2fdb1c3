// Replays stored questions to fields, sound ones and damaged ones, in rows: how many rows of each field there are, and how many are answered otherwise. Compared are a row's number and the
// check sum of each slice for its answers, all 77 before. tests/README.md has the format, under 'Stored questions'; tests/query/make_vectors.sh makes the file.
#![tactic(auto)]

ghost use Rattle.std.specs.Prelude.{◌≤◌, length};

use buffers::{write_f64, write_u32};
use computed::{Computed, Field};
use std::io;
use stored_numbers::{
    at_most, count, double, number, read_bytes, read_doubles, read_numbers, record_size,
};
use stored_slots::{SummedWalk, compare_or_sum, start_at, visit_f64, visit_u32};
use vectors::Tally;
use window_rows::of_query_rows;
use window_rows::of_query_rows::{RowRefusal, row_number};

// Of the record at number k: where list i stands, and how many elements it has, no more than most.
fn place(s: &[u8], k: usize, i: usize) -> usize
    ensures { result ≤ 600_000 }
{
    let at = at_most(k, 400_000);
    at + count(s, at + 9 + 2 * at_most(i, 20), 200_000)
}

fn elements(s: &[u8], k: usize, i: usize, most: usize) -> usize
    ensures { result ≤ most }
{
    count(s, at_most(k, 400_000) + 10 + 2 * at_most(i, 20), most)
}

// Number i of the case at number c.
fn of_case(s: &[u8], c: usize, i: usize) -> u32 {
    number(s, at_most(c, 1_000_000) + at_most(i, 19))
}

// The element of list i that a case damages; of another list none, a number past every slice.
fn damaged(s: &[u8], c: usize, i: u32) -> u32 {
    if of_case(s, c, 0) == i {
        return of_case(s, c, 1);
    }
    4_294_967_295
}

// List i of the record at number k to the front of a slice, damaged as the case says.
fn load_u32(s: &[u8], k: usize, c: usize, i: u32, list: &mut [u32])
    requires { length list.old ≤ 1_000 }
{
    read_numbers(s, place(s, k, i as usize), list);
    let v = of_case(s, c, 2);
    write_u32(list, 1, damaged(s, c, i), 0, v);
}

fn load_f64(s: &[u8], k: usize, c: usize, i: u32, list: &mut [f64])
    requires { length list.old ≤ 1_000 }
{
    read_doubles(s, place(s, k, i as usize), list);
    let v = double(s, at_most(c, 1_000_000) + 2);
    write_f64(list, 1, damaged(s, c, i), 0, v);
}

fn load_u8(s: &[u8], k: usize, c: usize, i: u32, list: &mut [u8])
    requires { length list.old ≤ 1_000 }
{
    read_bytes(s, place(s, k, i as usize), list);
    let at = damaged(s, c, i) as usize;
    if at < list.len() {
        list[at] = (of_case(s, c, 2) % 256) as u8;
    }
}

// How many elements are lent for so many answers: fewer by number i of the case.
fn lent(s: &[u8], c: usize, i: usize, n: usize) -> usize
    ensures { result ≤ n }
{
    n - count(s, at_most(c, 1_000_000) + at_most(i, 19), n)
}

// What was told of the field; list 13 of a case's damages.
fn told(s: &[u8], k: usize, c: usize, i: u32) -> u32 {
    if damaged(s, c, 13) == i {
        return of_case(s, c, 2);
    }
    number(s, at_most(k, 400_000) + 3 + at_most(i as usize, 5))
}

fn computed(s: &[u8], k: usize, c: usize) -> Computed {
    let refusal = number(s, at_most(k, 400_000));
    if refusal == 0 {
        let field = Field {
            vertices: told(s, k, c, 0),
            triangles: told(s, k, c, 1),
            pieces: told(s, k, c, 2),
            edges: told(s, k, c, 3),
            windows: told(s, k, c, 4),
            steps: told(s, k, c, 5),
        };
        return Computed::Field(field);
    }
    Computed::Refused(refusal)
}

// A row's number, and the check sums of its numbers and distances.
fn visit_row(
    s: &[u8],
    w: SummedWalk,
    answer: Result<(), RowRefusal>,
    numbers: &[u32; 60],
    distances: &[f64; 60],
) -> SummedWalk {
    let numbered = compare_or_sum(s, 1, w, row_number(answer));
    let counted = visit_u32(s, 2, numbered, numbers, 1, 60, 1);
    visit_f64(s, 2, counted, distances, 1, 60)
}

// The same of a row of windows.
fn visit_listed(
    s: &[u8],
    w: SummedWalk,
    answer: Result<(), RowRefusal>,
    numbers: &[u32; 24],
    ids: &[u32; 24],
    window_words: &[u32; 96],
    window_reals: &[f64; 144],
) -> SummedWalk {
    let numbered = compare_or_sum(s, 1, w, row_number(answer));
    let counted = visit_u32(s, 2, numbered, numbers, 1, 24, 1);
    let named = visit_u32(s, 2, counted, ids, 1, 24, 1);
    let worded = visit_u32(s, 2, named, window_words, 1, 96, 1);
    visit_f64(s, 2, worded, window_reals, 1, 144)
}

// The row of points of faces.
fn visit_faces(
    s: &[u8],
    k: usize,
    c: usize,
    w: SummedWalk,
    vertices: &[f64],
    triangles: &[u32],
    kinds: &[u8],
    faces: &[u32],
    coords: &[f64],
    edge_words: &[u32],
    edge_reals: &[f64],
    triangle_words: &[u32],
    triangle_reals: &[f64],
    vertex: &[f64],
    words: &[u32],
    reals: &[f64],
    entry_words: &[u32],
) -> SummedWalk {
    let job = computed(s, k, c);
    let mut asked = [0u32; 60];
    let mut points = [0.0f64; 180];
    read_numbers(s, place(s, k, 13), &mut asked);
    read_doubles(s, place(s, k, 14), &mut points);
    let to_numbers = lent(s, c, 4, 60);
    let to_distances = lent(s, c, 5, 60);
    let mut numbers = [77u32; 60];
    let mut distances = [77.0f64; 60];
    let answer = of_query_rows::faces_at(
        job,
        vertices,
        triangles,
        kinds,
        faces,
        coords,
        edge_words,
        edge_reals,
        triangle_words,
        triangle_reals,
        vertex,
        words,
        reals,
        entry_words,
        &asked,
        &points,
        &mut numbers[..to_numbers],
        &mut distances[..to_distances],
    );
    visit_row(s, w, answer, &numbers, &distances)
}

// The row of places on edges.
fn visit_edges(
    s: &[u8],
    k: usize,
    c: usize,
    w: SummedWalk,
    vertices: &[f64],
    triangles: &[u32],
    kinds: &[u8],
    faces: &[u32],
    coords: &[f64],
    edge_words: &[u32],
    edge_reals: &[f64],
    triangle_words: &[u32],
    triangle_reals: &[f64],
    vertex: &[f64],
    words: &[u32],
    reals: &[f64],
    entry_words: &[u32],
) -> SummedWalk {
    let job = computed(s, k, c);
    let mut edges = [0u32; 60];
    let mut places = [0.0f64; 60];
    read_numbers(s, place(s, k, 15), &mut edges);
    read_doubles(s, place(s, k, 16), &mut places);
    let to_numbers = lent(s, c, 4, 60);
    let to_distances = lent(s, c, 5, 60);
    let mut numbers = [77u32; 60];
    let mut distances = [77.0f64; 60];
    let answer = of_query_rows::edges_at(
        job,
        vertices,
        triangles,
        kinds,
        faces,
        coords,
        edge_words,
        edge_reals,
        triangle_words,
        triangle_reals,
        vertex,
        words,
        reals,
        entry_words,
        &edges,
        &places,
        &mut numbers[..to_numbers],
        &mut distances[..to_distances],
    );
    visit_row(s, w, answer, &numbers, &distances)
}

// The row of vertices.
fn visit_vertices(
    s: &[u8],
    k: usize,
    c: usize,
    w: SummedWalk,
    vertices: &[f64],
    triangles: &[u32],
    kinds: &[u8],
    faces: &[u32],
    coords: &[f64],
    edge_words: &[u32],
    edge_reals: &[f64],
    triangle_words: &[u32],
    triangle_reals: &[f64],
    vertex: &[f64],
    words: &[u32],
    reals: &[f64],
    entry_words: &[u32],
) -> SummedWalk {
    let job = computed(s, k, c);
    let mut asked = [0u32; 60];
    read_numbers(s, place(s, k, 17), &mut asked);
    let to_numbers = lent(s, c, 4, 60);
    let to_distances = lent(s, c, 5, 60);
    let mut numbers = [77u32; 60];
    let mut distances = [77.0f64; 60];
    let answer = of_query_rows::vertices_at(
        job,
        vertices,
        triangles,
        kinds,
        faces,
        coords,
        edge_words,
        edge_reals,
        triangle_words,
        triangle_reals,
        vertex,
        words,
        reals,
        entry_words,
        &asked,
        &mut numbers[..to_numbers],
        &mut distances[..to_distances],
    );
    visit_row(s, w, answer, &numbers, &distances)
}

// The row of places in edges' lists.
fn visit_windows(
    s: &[u8],
    k: usize,
    c: usize,
    w: SummedWalk,
    vertices: &[f64],
    triangles: &[u32],
    kinds: &[u8],
    faces: &[u32],
    coords: &[f64],
    edge_words: &[u32],
    edge_reals: &[f64],
    triangle_words: &[u32],
    triangle_reals: &[f64],
    vertex: &[f64],
    words: &[u32],
    reals: &[f64],
    entry_words: &[u32],
) -> SummedWalk {
    let job = computed(s, k, c);
    let mut edges = [0u32; 24];
    let mut places = [0u32; 24];
    read_numbers(s, place(s, k, 18), &mut edges);
    read_numbers(s, place(s, k, 19), &mut places);
    let to_numbers = lent(s, c, 4, 24);
    let to_ids = lent(s, c, 5, 24);
    let mut numbers = [77u32; 24];
    let mut ids = [77u32; 24];
    let mut window_words = [77u32; 96];
    let mut window_reals = [77.0f64; 144];
    let answer = window_rows::windows_at(
        job,
        vertices,
        triangles,
        kinds,
        faces,
        coords,
        edge_words,
        edge_reals,
        triangle_words,
        triangle_reals,
        vertex,
        words,
        reals,
        entry_words,
        &edges,
        &places,
        &mut numbers[..to_numbers],
        &mut ids[..to_ids],
        &mut window_words,
        &mut window_reals,
    );
    visit_listed(s, w, answer, &numbers, &ids, &window_words, &window_reals)
}

// Whether the four rows of a case are answered as it says.
fn rows_hold(
    s: &[u8],
    k: usize,
    c: usize,
    vertices: &[f64],
    triangles: &[u32],
    kinds: &[u8],
    faces: &[u32],
    coords: &[f64],
    edge_words: &[u32],
    edge_reals: &[f64],
    triangle_words: &[u32],
    triangle_reals: &[f64],
    vertex: &[f64],
    words: &[u32],
    reals: &[f64],
    entry_words: &[u32],
) -> bool {
    let start = start_at(at_most(c, 1_000_000) + 6);
    let of_faces = visit_faces(
        s,
        k,
        c,
        start,
        vertices,
        triangles,
        kinds,
        faces,
        coords,
        edge_words,
        edge_reals,
        triangle_words,
        triangle_reals,
        vertex,
        words,
        reals,
        entry_words,
    );
    let of_edges = visit_edges(
        s,
        k,
        c,
        of_faces,
        vertices,
        triangles,
        kinds,
        faces,
        coords,
        edge_words,
        edge_reals,
        triangle_words,
        triangle_reals,
        vertex,
        words,
        reals,
        entry_words,
    );
    let of_vertices = visit_vertices(
        s,
        k,
        c,
        of_edges,
        vertices,
        triangles,
        kinds,
        faces,
        coords,
        edge_words,
        edge_reals,
        triangle_words,
        triangle_reals,
        vertex,
        words,
        reals,
        entry_words,
    );
    let of_windows = visit_windows(
        s,
        k,
        c,
        of_vertices,
        vertices,
        triangles,
        kinds,
        faces,
        coords,
        edge_words,
        edge_reals,
        triangle_words,
        triangle_reals,
        vertex,
        words,
        reals,
        entry_words,
    );
    of_windows.walk.same
}

// The same, where the field's lists stand at the fronts of its slices.
fn field_holds(
    s: &[u8],
    k: usize,
    c: usize,
    vertices: &[f64],
    triangles: &[u32],
    kinds: &[u8],
    faces: &[u32],
    coords: &[f64],
    edge_words: &[u32],
    edge_reals: &[f64],
    triangle_words: &[u32],
    triangle_reals: &[f64],
    vertex: &[f64],
    words: &[u32],
    reals: &[f64],
    entry_words: &[u32],
) -> bool {
    let to_edge_words = elements(s, k, 5, edge_words.len());
    let ew = &edge_words[..to_edge_words];
    let to_edge_reals = elements(s, k, 6, edge_reals.len());
    let er = &edge_reals[..to_edge_reals];
    let to_triangle_words = elements(s, k, 7, triangle_words.len());
    let tw = &triangle_words[..to_triangle_words];
    let to_triangle_reals = elements(s, k, 8, triangle_reals.len());
    let tr = &triangle_reals[..to_triangle_reals];
    let to_vertex = elements(s, k, 9, vertex.len());
    let d = &vertex[..to_vertex];
    let to_words = elements(s, k, 10, words.len());
    let ww = &words[..to_words];
    let to_reals = elements(s, k, 11, reals.len());
    let wr = &reals[..to_reals];
    let to_entry_words = elements(s, k, 12, entry_words.len());
    let en = &entry_words[..to_entry_words];
    rows_hold(
        s, k, c, vertices, triangles, kinds, faces, coords, ew, er, tw, tr, d, ww, wr, en,
    )
}

// The same, where they are still to be read.
fn field_replays(
    s: &[u8],
    k: usize,
    c: usize,
    vertices: &[f64],
    triangles: &[u32],
    kinds: &[u8],
    faces: &[u32],
    coords: &[f64],
) -> bool {
    let mut edge_words = [0u32; 384];
    let mut edge_reals = [0.0f64; 256];
    let mut triangle_words = [0u32; 192];
    let mut triangle_reals = [0.0f64; 288];
    let mut vertex = [0.0f64; 64];
    let mut words = [0u32; 512];
    let mut reals = [0.0f64; 768];
    let mut entry_words = [0u32; 96];
    load_u32(s, k, c, 5, &mut edge_words);
    load_f64(s, k, c, 6, &mut edge_reals);
    load_u32(s, k, c, 7, &mut triangle_words);
    load_f64(s, k, c, 8, &mut triangle_reals);
    load_f64(s, k, c, 9, &mut vertex);
    load_u32(s, k, c, 10, &mut words);
    load_f64(s, k, c, 11, &mut reals);
    load_u32(s, k, c, 12, &mut entry_words);
    field_holds(
        s,
        k,
        c,
        vertices,
        triangles,
        kinds,
        faces,
        coords,
        &edge_words,
        &edge_reals,
        &triangle_words,
        &triangle_reals,
        &vertex,
        &words,
        &reals,
        &entry_words,
    )
}

// The same, where the job's lists stand at the fronts of its slices.
fn job_holds(
    s: &[u8],
    k: usize,
    c: usize,
    vertices: &[f64],
    triangles: &[u32],
    kinds: &[u8],
    faces: &[u32],
    coords: &[f64],
) -> bool {
    let to_vertices = elements(s, k, 0, vertices.len());
    let v = &vertices[..to_vertices];
    let to_triangles = elements(s, k, 1, triangles.len());
    let t = &triangles[..to_triangles];
    let to_kinds = elements(s, k, 2, kinds.len());
    let i = &kinds[..to_kinds];
    let to_faces = elements(s, k, 3, faces.len());
    let f = &faces[..to_faces];
    let to_coords = elements(s, k, 4, coords.len());
    let p = &coords[..to_coords];
    field_replays(s, k, c, v, t, i, f, p)
}

// The same, where they are still to be read too.
fn case_holds(s: &[u8], k: usize, c: usize) -> bool {
    let mut vertices = [0.0f64; 96];
    let mut triangles = [0u32; 96];
    let mut kinds = [0u8; 16];
    let mut faces = [0u32; 16];
    let mut coords = [0.0f64; 96];
    load_f64(s, k, c, 0, &mut vertices);
    load_u32(s, k, c, 1, &mut triangles);
    load_u8(s, k, c, 2, &mut kinds);
    load_u32(s, k, c, 3, &mut faces);
    load_f64(s, k, c, 4, &mut coords);
    job_holds(s, k, c, &vertices, &triangles, &kinds, &faces, &coords)
}

// How many cases the record at number k has, and how many of them are answered otherwise.
fn replay_record(s: &[u8], k: usize) -> Tally
    ensures { (result.cases ≤ 1_000) × (result.differences ≤ result.cases) }
{
    let cases = count(s, at_most(k, 400_000) + 1, 1_000) as u64;
    let mut differences: u64 = 0;
    let mut c = place(s, k, 20);
    for i in 0..cases {
        if !case_holds(s, k, c) {
            differences += 1;
        }
        c += 20;
    }
    Tally { cases, differences }
}

fn replay(s: &[u8]) -> Tally {
    let end = at_most(s.len() / 4, 400_000);
    let mut cases: u64 = 0;
    let mut differences: u64 = 0;
    let mut k: usize = 0;
    while k < end {
        let tally = replay_record(s, k);
        differences += tally.differences;
        cases += tally.cases;
        k += record_size(s, k + 2);
    }
    Tally { cases, differences }
}

fn main(rt: HostRuntime) -> io::Result<()> {
    vectors::replay_file::<262144, _>(&rt, "small", replay)
}
