// Replays stored whole jobs: how many there are, and how many are answered otherwise. Compared are the answer and the check sum of every slice that was lent, all 7
// before: a field with all its windows, chains, distances and entries, zeros, or sevens. oracle/README.md has the format, under 'Stored jobs'; tests/field/make_vectors.sh
// makes the files.
#![tactic(auto)]

ghost use Rattle.std.specs.Prelude.{◌≤◌, ◌<◌};

use buffers::slots;
use computed::{Computed, Field};
use std::io;
use stored_jobs::{list_places, load_mesh, load_pieces};
use stored_numbers::{at_most, count, double, number, replay_records};
use stored_slots::{SummedWalk, compare_or_sum, start_at, visit_f64, visit_u32};
use vectors::Tally;

// Where max_steps of the record at number k stands, before the lengths of the slices.
fn lent_at(s: &[u8], k: usize) -> usize
    ensures { result ≤ 1_000_000 }
{
    at_most(list_places(s, at_most(k, 399_999)).answer, 1_000_000)
}

// How long slice i was, of those of words and then those of reals, and no longer than most.
fn lent(s: &[u8], k: usize, i: usize, most: usize) -> usize
    ensures { result ≤ most }
{
    count(s, lent_at(s, k) + 1 + at_most(i, 19), most)
}

fn refusal_of(computed: Computed) -> u32 {
    match computed {
        Computed::Refused(n) => n,
        Computed::Field(_) => 0,
    }
}

// What is told of a field; zeros where there is none.
fn field_of(computed: Computed) -> Field {
    match computed {
        Computed::Refused(_) => Field {
            vertices: 0,
            triangles: 0,
            pieces: 0,
            edges: 0,
            windows: 0,
            steps: 0,
        },
        Computed::Field(field) => field,
    }
}

// Whether the job was refused by the stored number, or told what is stored of its field.
fn answer_holds(s: &[u8], k: usize, computed: Computed) -> bool {
    let field = field_of(computed);
    let refused = compare_or_sum(s, 1, start_at(k), refusal_of(computed));
    let vertices = compare_or_sum(s, 1, start_at(lent_at(s, k) + 21), field.vertices);
    let triangles = compare_or_sum(s, 1, vertices, field.triangles);
    let pieces = compare_or_sum(s, 1, triangles, field.pieces);
    let edges = compare_or_sum(s, 1, pieces, field.edges);
    let windows = compare_or_sum(s, 1, edges, field.windows);
    let steps = compare_or_sum(s, 1, windows, field.steps);
    refused.walk.same & steps.walk.same
}

// How long the slices of the mesh, of the pieces and of the distances were.
#[derive(Clone, Copy)]
struct MeshLengths {
    vertex_words: usize,
    edge_words: usize,
    edge_reals: usize,
    round: usize,
    triangle_words: usize,
    triangle_reals: usize,
    piece_words: usize,
    piece_reals: usize,
    vertex: usize,
}

fn mesh_lengths(s: &[u8], k: usize) -> MeshLengths
    ensures { (result.vertex_words ≤ 3600) × ((result.edge_words ≤ 37800) × ((result.edge_reals ≤ 25200) × ((result.round ≤ 6300)
        × ((result.triangle_words ≤ 12600) × ((result.triangle_reals ≤ 18900) × ((result.piece_words ≤ 3600) × ((result.piece_reals ≤ 3600) × (result.vertex ≤ 2400)))))))) }
{
    MeshLengths {
        vertex_words: lent(s, k, 0, 3600),
        edge_words: lent(s, k, 1, 37800),
        edge_reals: lent(s, k, 10, 25200),
        round: lent(s, k, 2, 6300),
        triangle_words: lent(s, k, 3, 12600),
        triangle_reals: lent(s, k, 11, 18900),
        piece_words: lent(s, k, 4, 3600),
        piece_reals: lent(s, k, 12, 3600),
        vertex: lent(s, k, 13, 2400),
    }
}

// How long those of the windows, of the queue and of the entries were.
#[derive(Clone, Copy)]
struct WindowLengths {
    words: usize,
    reals: usize,
    keys: usize,
    events: usize,
    entry_words: usize,
}

fn window_lengths(s: &[u8], k: usize) -> WindowLengths
    ensures { (result.words ≤ 73728) × ((result.reals ≤ 110592) × ((result.keys ≤ 4608) × ((result.events ≤ 9216) × (result.entry_words ≤ 10800)))) }
{
    WindowLengths {
        words: lent(s, k, 5, 73728),
        reals: lent(s, k, 14, 110592),
        keys: lent(s, k, 15, 4608),
        events: lent(s, k, 6, 9216),
        entry_words: lent(s, k, 7, 10800),
    }
}

// How long those of the cut lists and the scratch rows were.
#[derive(Clone, Copy)]
struct CutLengths {
    pts: usize,
    out: usize,
    keep: usize,
    next: usize,
    scratch: usize,
    other_scratch: usize,
}

fn cut_lengths(s: &[u8], k: usize) -> CutLengths
    ensures { (result.pts ≤ 256) × ((result.out ≤ 512) × ((result.keep ≤ 512) × ((result.next ≤ 512) × ((result.scratch ≤ 18432) × (result.other_scratch ≤ 18432))))) }
{
    CutLengths {
        pts: lent(s, k, 16, 256),
        out: lent(s, k, 17, 512),
        keep: lent(s, k, 18, 512),
        next: lent(s, k, 19, 512),
        scratch: lent(s, k, 8, 18432),
        other_scratch: lent(s, k, 9, 18432),
    }
}

// Whether the check sum of slice i, the first n numbers, is the stored one.
fn words_hold(s: &[u8], k: usize, i: usize, n: usize, words: &[u32]) -> bool {
    let start = start_at(lent_at(s, k) + 27 + at_most(i, 19));
    visit_u32(s, 2, start, words, 1, slots(n, 1), 1).walk.same
}

fn reals_hold(s: &[u8], k: usize, i: usize, n: usize, reals: &[f64]) -> bool {
    let start = start_at(lent_at(s, k) + 27 + at_most(i, 19));
    visit_f64(s, 2, start, reals, 1, slots(n, 1)).walk.same
}

// Of the slices of the mesh, of the pieces and of the distances.
fn mesh_holds(
    s: &[u8],
    k: usize,
    lent: MeshLengths,
    vertex_words: &[u32; 3600],
    edge_words: &[u32; 37800],
    edge_reals: &[f64; 25200],
    round: &[u32; 6300],
    triangle_words: &[u32; 12600],
    triangle_reals: &[f64; 18900],
    piece_words: &[u32; 3600],
    piece_reals: &[f64; 3600],
    vertex: &[f64; 2400],
) -> bool {
    let vertices = words_hold(s, k, 0, lent.vertex_words, vertex_words);
    let edges = vertices & words_hold(s, k, 1, lent.edge_words, edge_words);
    let lengths = edges & reals_hold(s, k, 10, lent.edge_reals, edge_reals);
    let rounds = lengths & words_hold(s, k, 2, lent.round, round);
    let triangles = rounds & words_hold(s, k, 3, lent.triangle_words, triangle_words);
    let normals = triangles & reals_hold(s, k, 11, lent.triangle_reals, triangle_reals);
    let pieces = normals & words_hold(s, k, 4, lent.piece_words, piece_words);
    let directions = pieces & reals_hold(s, k, 12, lent.piece_reals, piece_reals);
    directions & reals_hold(s, k, 13, lent.vertex, vertex)
}

// Of those of the windows, of the queue and of the entries.
fn windows_hold(
    s: &[u8],
    k: usize,
    lent: WindowLengths,
    words: &[u32; 73728],
    reals: &[f64; 110592],
    keys: &[f64; 4608],
    events: &[u32; 9216],
    entry_words: &[u32; 10800],
) -> bool {
    let windows = words_hold(s, k, 5, lent.words, words);
    let places = windows & reals_hold(s, k, 14, lent.reals, reals);
    let queue = places & reals_hold(s, k, 15, lent.keys, keys);
    let kinds = queue & words_hold(s, k, 6, lent.events, events);
    kinds & words_hold(s, k, 7, lent.entry_words, entry_words)
}

// Of those of the cut lists and the scratch rows.
fn cuts_hold(
    s: &[u8],
    k: usize,
    lent: CutLengths,
    pts: &[f64; 256],
    out: &[f64; 512],
    keep: &[f64; 512],
    next: &[f64; 512],
    scratch: &[u32; 18432],
    other_scratch: &[u32; 18432],
) -> bool {
    let first = reals_hold(s, k, 16, lent.pts, pts);
    let second = first & reals_hold(s, k, 17, lent.out, out);
    let third = second & reals_hold(s, k, 18, lent.keep, keep);
    let fourth = third & reals_hold(s, k, 19, lent.next, next);
    let row = fourth & words_hold(s, k, 8, lent.scratch, scratch);
    row & words_hold(s, k, 9, lent.other_scratch, other_scratch)
}

// Whether the job of the record at number k is answered and leaves its slices as the record says: those of the mesh, of the pieces and of the distances, which are new here.
fn job_in_mesh(
    s: &[u8],
    k: usize,
    limit: f64,
    max_steps: u32,
    vertices: &[f64],
    triangles: &[u32],
    flags: &[u8],
    kinds: &[u8],
    faces: &[u32],
    coords: &[f64],
    words: &mut [u32],
    reals: &mut [f64],
    keys: &mut [f64],
    events: &mut [u32],
    entry_words: &mut [u32],
    pts: &mut [f64],
    out: &mut [f64],
    keep: &mut [f64],
    next: &mut [f64],
    scratch: &mut [u32],
    other_scratch: &mut [u32],
) -> bool {
    let lengths = mesh_lengths(s, k);
    let to_vertex_words = lengths.vertex_words;
    let to_edge_words = lengths.edge_words;
    let to_edge_reals = lengths.edge_reals;
    let to_round = lengths.round;
    let to_triangle_words = lengths.triangle_words;
    let to_triangle_reals = lengths.triangle_reals;
    let to_piece_words = lengths.piece_words;
    let to_piece_reals = lengths.piece_reals;
    let to_vertex = lengths.vertex;
    let mut vertex_words = [7u32; 3600];
    let mut edge_words = [7u32; 37800];
    let mut edge_reals = [7.0f64; 25200];
    let mut round = [7u32; 6300];
    let mut triangle_words = [7u32; 12600];
    let mut triangle_reals = [7.0f64; 18900];
    let mut piece_words = [7u32; 3600];
    let mut piece_reals = [7.0f64; 3600];
    let mut vertex = [7.0f64; 2400];
    let computed = compute::compute(
        vertices,
        triangles,
        flags,
        kinds,
        faces,
        coords,
        limit,
        max_steps,
        &mut vertex_words[..to_vertex_words],
        &mut edge_words[..to_edge_words],
        &mut edge_reals[..to_edge_reals],
        &mut round[..to_round],
        &mut triangle_words[..to_triangle_words],
        &mut triangle_reals[..to_triangle_reals],
        &mut piece_words[..to_piece_words],
        &mut piece_reals[..to_piece_reals],
        &mut vertex[..to_vertex],
        words,
        reals,
        keys,
        events,
        entry_words,
        pts,
        out,
        keep,
        next,
        scratch,
        other_scratch,
    );
    let answered = answer_holds(s, k, computed);
    let held = mesh_holds(
        s,
        k,
        lengths,
        &vertex_words,
        &edge_words,
        &edge_reals,
        &round,
        &triangle_words,
        &triangle_reals,
        &piece_words,
        &piece_reals,
        &vertex,
    );
    answered & held
}

// The same, and the cut lists and the scratch rows.
fn job_in_cuts(
    s: &[u8],
    k: usize,
    limit: f64,
    max_steps: u32,
    vertices: &[f64],
    triangles: &[u32],
    flags: &[u8],
    kinds: &[u8],
    faces: &[u32],
    coords: &[f64],
    words: &mut [u32],
    reals: &mut [f64],
    keys: &mut [f64],
    events: &mut [u32],
    entry_words: &mut [u32],
) -> bool {
    let lengths = cut_lengths(s, k);
    let to_pts = lengths.pts;
    let to_out = lengths.out;
    let to_keep = lengths.keep;
    let to_next = lengths.next;
    let to_scratch = lengths.scratch;
    let to_other_scratch = lengths.other_scratch;
    let mut pts = [7.0f64; 256];
    let mut out = [7.0f64; 512];
    let mut keep = [7.0f64; 512];
    let mut next = [7.0f64; 512];
    let mut scratch = [7u32; 18432];
    let mut other_scratch = [7u32; 18432];
    let answered = job_in_mesh(
        s,
        k,
        limit,
        max_steps,
        vertices,
        triangles,
        flags,
        kinds,
        faces,
        coords,
        words,
        reals,
        keys,
        events,
        entry_words,
        &mut pts[..to_pts],
        &mut out[..to_out],
        &mut keep[..to_keep],
        &mut next[..to_next],
        &mut scratch[..to_scratch],
        &mut other_scratch[..to_other_scratch],
    );
    let held = cuts_hold(
        s,
        k,
        lengths,
        &pts,
        &out,
        &keep,
        &next,
        &scratch,
        &other_scratch,
    );
    answered & held
}

// The same, and the windows, the queue and the entries: all slices.
fn job_in_windows(
    s: &[u8],
    k: usize,
    vertices: &[f64],
    triangles: &[u32],
    flags: &[u8],
    kinds: &[u8],
    faces: &[u32],
    coords: &[f64],
) -> bool {
    let limit = double(s, at_most(k, 399_999) + 17);
    let max_steps = number(s, lent_at(s, k));
    let lengths = window_lengths(s, k);
    let to_words = lengths.words;
    let to_reals = lengths.reals;
    let to_keys = lengths.keys;
    let to_events = lengths.events;
    let to_entry_words = lengths.entry_words;
    let mut words = [7u32; 73728];
    let mut reals = [7.0f64; 110592];
    let mut keys = [7.0f64; 4608];
    let mut events = [7u32; 9216];
    let mut entry_words = [7u32; 10800];
    let answered = job_in_cuts(
        s,
        k,
        limit,
        max_steps,
        vertices,
        triangles,
        flags,
        kinds,
        faces,
        coords,
        &mut words[..to_words],
        &mut reals[..to_reals],
        &mut keys[..to_keys],
        &mut events[..to_events],
        &mut entry_words[..to_entry_words],
    );
    let held = windows_hold(s, k, lengths, &words, &reals, &keys, &events, &entry_words);
    answered & held
}

// The same of a record whose lists stand at the fronts of the slices.
fn lists_hold(
    s: &[u8],
    k: usize,
    vertices: &[f64],
    triangles: &[u32],
    flags: &[u8],
    kinds: &[u8],
    faces: &[u32],
    coords: &[f64],
) -> bool
    requires { k < 400_000 }
{
    let nv = count(s, k + 3, vertices.len());
    let v = &vertices[..nv];
    let nt = count(s, k + 4, triangles.len());
    let t = &triangles[..nt];
    let nf = count(s, k + 5, flags.len());
    let f = &flags[..nf];
    let nk = count(s, k + 6, kinds.len());
    let i = &kinds[..nk];
    let nn = count(s, k + 7, faces.len());
    let n = &faces[..nn];
    let nc = count(s, k + 8, coords.len());
    let c = &coords[..nc];
    job_in_windows(s, k, v, t, f, i, n, c)
}

// The same of a record that is still to be read.
fn job_replays(s: &[u8], k: usize) -> bool
    requires { k < 400_000 }
{
    let mut vertices = [0.0f64; 3600];
    let mut triangles = [0u32; 6300];
    let mut flags = [0u8; 1200];
    let mut kinds = [0u8; 1200];
    let mut faces = [0u32; 1200];
    let mut coords = [0.0f64; 7200];
    load_mesh(s, k, &mut vertices, &mut triangles, &mut flags);
    load_pieces(s, k, &mut kinds, &mut faces, &mut coords);
    lists_hold(s, k, &vertices, &triangles, &flags, &kinds, &faces, &coords)
}

fn replay(s: &[u8]) -> Tally {
    replay_records(s, 2, |k| job_replays(s, k))
}

fn main(rt: HostRuntime) -> io::Result<()> {
    vectors::replay_file::<524288, _>(&rt, "small", replay)?;
    vectors::replay_file::<524288, _>(&rt, "large", replay)
}
