// Replays stored jobs through the mesh, the tables of the pieces and insertion: how many there are, and how many are answered otherwise. Compared are the refusal, all
// windows made, each edge's chain, the distances of the vertices, the events of the queue in the order of pops, and the entries of each face. oracle/README.md has
// the format, under 'Stored jobs'; tests/insertion/make_vectors.sh makes the files.
#![tactic(auto)]

ghost use Rattle.std.specs.Prelude.{◌≤◌, ◌<◌, ◌≡◌, length};

use buffers::Lack;
use insert_sources::of_insertion::InsertCounts;
use insert_sources::of_mesh::{OtherCounts, Refusal};
use insert_sources::of_trim_split::Counts;
use insert_sources::{of_mesh, of_piece_ends, of_wedge_refusal};
use layout::{
    EDGE_HEAD, ENTRY_LINK, REALS_PER_VERTEX, REALS_PER_WINDOW, TRIANGLE_FIRST_ENTRY, WINDOW_LINK,
    WORDS_PER_EDGE, WORDS_PER_ENTRY, WORDS_PER_TRIANGLE, WORDS_PER_WINDOW,
};
use std::io;
use stored_jobs::{list_places, load_mesh, load_pieces};
use stored_numbers::{all_f64, all_u32, at_most, count, double, number, replay_records};
use stored_slots::{
    SummedWalk, broken, compare_or_sum, compare_or_sum_double, section, start_at, visit_all_links,
    visit_f64, visit_u32,
};
use vectors::Tally;

// The walk behind a pop, and how many events are left.
#[derive(Clone, Copy)]
struct PoppedWalk {
    walk: SummedWalk,
    left: u32,
}

fn compare_first(
    s: &[u8],
    detail: u32,
    w: SummedWalk,
    keys: &mut [f64],
    events: &mut [u32],
    n: u32,
) -> PoppedWalk {
    match heap::pop(keys, events, n) {
        None => PoppedWalk {
            walk: broken(),
            left: 0,
        },
        Some((x, m)) => {
            let item = x.item;
            let keyed = compare_or_sum_double(s, detail, w, x.key);
            let numbered = compare_or_sum(s, detail, keyed, heap::number_of(item));
            PoppedWalk {
                walk: compare_or_sum(s, detail, numbered, heap::kind_of(item)),
                left: m,
            }
        }
    }
}

// The n events queued, in the order of pops.
fn compare_events(
    s: &[u8],
    detail: u32,
    w: SummedWalk,
    keys: &mut [f64],
    events: &mut [u32],
    n: u32,
) -> SummedWalk {
    let mut now = w;
    let mut left = n;
    for i in 0..n {
        let next = compare_first(s, detail, now, keys, events, left);
        now = next.walk;
        left = next.left;
    }
    section(s, detail, now)
}

// Whether what lies behind the windows made and the entries is zero.
fn rest_zero(words: &[u32], reals: &[f64], entry_words: &[u32], made: u32, entries: u32) -> bool {
    if !all_u32(words, 4 * (made as usize), 0) {
        return false;
    }
    if !all_f64(reals, 6 * (made as usize), 0.0) {
        return false;
    }
    all_u32(entry_words, 3 * (entries as usize), 0)
}

// The counts, and no steps.
fn compare_counts(s: &[u8], w: SummedWalk, counts: InsertCounts) -> SummedWalk {
    let trim = counts.trim;
    let windows = compare_or_sum(s, 1, w, trim.made);
    let queue = compare_or_sum(s, 1, windows, trim.queued);
    let entered = compare_or_sum(s, 1, queue, counts.entries);
    compare_or_sum(s, 1, entered, 0)
}

// Whether the buffers, after an insertion with these counts on a mesh of so many edges, hold what the record at number k says.
fn same_inserted(
    s: &[u8],
    k: usize,
    edges: u32,
    counts: InsertCounts,
    edge_words: &[u32],
    words: &[u32],
    reals: &[f64],
    keys: &mut [f64],
    events: &mut [u32],
    vertex: &[f64],
    triangle_words: &[u32],
    entry_words: &[u32],
) -> bool {
    let r = at_most(k, 399_999);
    let detail = number(s, r + 1);
    let vertices = number(s, r + 5);
    let triangles = number(s, r + 4) / 3;
    let entries = counts.entries;
    let trim = counts.trim;
    let made = trim.made;
    let queued = trim.queued;
    let at = at_most(list_places(s, r).answer, 1_000_000);
    let start = start_at(at + 4);
    let counted = compare_counts(s, start, counts);
    let flagged = visit_u32(s, detail, counted, words, WORDS_PER_WINDOW, made, 3);
    let measured = visit_f64(s, detail, flagged, reals, REALS_PER_WINDOW, made);
    let chained = visit_all_links(
        s,
        detail,
        measured,
        edge_words,
        WORDS_PER_EDGE,
        EDGE_HEAD,
        edges,
        words,
        WORDS_PER_WINDOW,
        WINDOW_LINK,
        made,
    );
    let reached = visit_f64(s, detail, chained, vertex, REALS_PER_VERTEX, vertices);
    let popped = compare_events(s, detail, reached, keys, events, queued);
    let entered = visit_u32(s, detail, popped, entry_words, WORDS_PER_ENTRY, entries, 2);
    let last = visit_all_links(
        s,
        detail,
        entered,
        triangle_words,
        WORDS_PER_TRIANGLE,
        TRIANGLE_FIRST_ENTRY,
        triangles,
        entry_words,
        WORDS_PER_ENTRY,
        ENTRY_LINK,
        entries,
    );
    let compared = last.walk;
    if compared.same {
        return rest_zero(words, reals, entry_words, made, entries);
    }
    false
}

// The answer of insertion from no windows on, with cut lists of so many slots, all 7 before.
fn insert_with_cuts(
    limit: f64,
    to_pts: usize,
    vertices: &[f64],
    vertex_words: &[u32],
    edge_reals: &[f64],
    triangle_reals: &[f64],
    round: &[u32],
    kinds: &[u8],
    faces: &[u32],
    coords: &[f64],
    piece_words: &[u32],
    piece_reals: &[f64],
    edge_words: &mut [u32],
    triangle_words: &mut [u32],
    words: &mut [u32],
    reals: &mut [f64],
    keys: &mut [f64],
    events: &mut [u32],
    vertex: &mut [f64],
    entry_words: &mut [u32],
) -> Result<InsertCounts, Lack>
    requires { (to_pts ≤ 256) × (length kinds.now ≤ 1200) }
{
    let to_cuts = 2 * to_pts;
    let mut pts = [7.0f64; 256];
    let mut out = [7.0f64; 512];
    let mut keep = [7.0f64; 512];
    let mut next = [7.0f64; 512];
    let trim = Counts { made: 0, queued: 0 };
    let none = InsertCounts { trim, entries: 0 };
    insert_sources::insert_all(
        vertices,
        edge_words,
        words,
        reals,
        keys,
        events,
        vertex,
        vertex_words,
        edge_reals,
        triangle_reals,
        round,
        kinds,
        faces,
        coords,
        piece_words,
        piece_reals,
        &mut pts[..to_pts],
        &mut out[..to_cuts],
        &mut keep[..to_cuts],
        &mut next[..to_cuts],
        triangle_words,
        entry_words,
        none,
        limit,
    )
}

// Whether that is the answer that the record at number k has, on a mesh of so many edges.
fn insert_holds(
    s: &[u8],
    k: usize,
    edges: u32,
    vertices: &[f64],
    vertex_words: &[u32],
    edge_reals: &[f64],
    triangle_reals: &[f64],
    round: &[u32],
    kinds: &[u8],
    faces: &[u32],
    coords: &[f64],
    piece_words: &[u32],
    piece_reals: &[f64],
    edge_words: &mut [u32],
    triangle_words: &mut [u32],
    words: &mut [u32],
    reals: &mut [f64],
    keys: &mut [f64],
    events: &mut [u32],
    vertex: &mut [f64],
    entry_words: &mut [u32],
) -> bool
    requires { (k < 400_000) × (length kinds.now ≤ 1200) }
{
    let refusal = number(s, k);
    let limit = double(s, k + 17);
    let at = at_most(list_places(s, k).answer, 1_000_000);
    let to_pts = count(s, at + 1, 256);
    let answer = insert_with_cuts(
        limit,
        to_pts,
        vertices,
        vertex_words,
        edge_reals,
        triangle_reals,
        round,
        kinds,
        faces,
        coords,
        piece_words,
        piece_reals,
        edge_words,
        triangle_words,
        words,
        reals,
        keys,
        events,
        vertex,
        entry_words,
    );
    match answer {
        Err(lack) => buffers::lack_number(lack) == refusal,
        Ok(counts) => {
            if refusal != 0 {
                return false;
            }
            same_inserted(
                s,
                k,
                edges,
                counts,
                edge_words,
                words,
                reals,
                keys,
                events,
                vertex,
                triangle_words,
                entry_words,
            )
        }
    }
}

// The same in new buffers of the sizes that the record says: of each, one slice is cut, and the others are longer. Those of windows and entries are zero before, the
// queue's are 7, and no vertex is reached.
fn insert_holds_in(
    s: &[u8],
    k: usize,
    edges: u32,
    vertices: &[f64],
    vertex_words: &[u32],
    edge_reals: &[f64],
    triangle_reals: &[f64],
    round: &[u32],
    kinds: &[u8],
    faces: &[u32],
    coords: &[f64],
    piece_words: &[u32],
    piece_reals: &[f64],
    edge_words: &mut [u32],
    triangle_words: &mut [u32],
) -> bool
    requires { (k < 400_000) × (length kinds.now ≤ 1200) }
{
    let at = at_most(list_places(s, k).answer, 1_000_000);
    let to_words = 4 * count(s, k + 14, 6144);
    let to_keys = count(s, at, 8192);
    let to_entries = 3 * count(s, at + 2, 6144);
    let mut words = [0u32; 24576];
    let mut reals = [0.0f64; 36864];
    let mut keys = [7.0f64; 8192];
    let mut events = [7u32; 16384];
    let mut vertex = [1.0 / 0.0f64; 2400];
    let mut entry_words = [0u32; 18432];
    insert_holds(
        s,
        k,
        edges,
        vertices,
        vertex_words,
        edge_reals,
        triangle_reals,
        round,
        kinds,
        faces,
        coords,
        piece_words,
        piece_reals,
        edge_words,
        triangle_words,
        &mut words[..to_words],
        &mut reals,
        &mut keys[..to_keys],
        &mut events,
        &mut vertex,
        &mut entry_words[..to_entries],
    )
}

// Whether the refusal 11 or the insertion of a job of at most 1200 pieces is the stored one, on a mesh that is built.
fn pieces_hold(
    s: &[u8],
    k: usize,
    edges: u32,
    vertices: &[f64],
    triangles: &[u32],
    kinds: &[u8],
    faces: &[u32],
    coords: &[f64],
    vertex_words: &[u32],
    edge_words: &mut [u32],
    edge_reals: &[f64],
    round: &[u32],
    triangle_words: &mut [u32],
    triangle_reals: &[f64],
) -> bool {
    let r = at_most(k, 399_999);
    if kinds.len() > 1200 {
        return false;
    }
    let refusal = number(s, r);
    let mut piece_words = [7u32; 3600];
    let mut piece_reals = [7.0f64; 3600];
    of_piece_ends::build(kinds, coords, &mut piece_words);
    of_piece_ends::directions(kinds, coords, &mut piece_reals);
    if of_wedge_refusal::any_wedge(
        vertices,
        edge_words,
        edge_reals,
        triangle_words,
        triangle_reals,
        vertex_words,
        triangles,
        kinds,
        faces,
        coords,
        &piece_words,
    ) {
        return refusal == 11;
    }
    insert_holds_in(
        s,
        r,
        edges,
        vertices,
        vertex_words,
        edge_reals,
        triangle_reals,
        round,
        kinds,
        faces,
        coords,
        &piece_words,
        &piece_reals,
        edge_words,
        triangle_words,
    )
}

// The slots that the record at number k says of the buffers that the mesh does not touch.
fn stored_counts(s: &[u8], k: usize) -> OtherCounts
    requires { k < 400_000 }
{
    OtherCounts {
        vertex_reals: number(s, k + 9),
        pieces: number(s, k + 13),
        windows: number(s, k + 14),
        scratch: number(s, k + 15),
        other_scratch: number(s, k + 16),
    }
}

// Whether the answer to the record at number k, whose lists stand at the fronts of the arrays, is the stored one.
fn job_holds(
    s: &[u8],
    k: usize,
    vertices: &[f64],
    triangles: &[u32],
    flags: &[u8],
    kinds: &[u8],
    faces: &[u32],
    coords: &[f64],
) -> bool
    requires { k < 400_000 }
{
    let refusal = number(s, k);
    let limit = double(s, k + 17);
    let others = stored_counts(s, k);
    let nv = count(s, k + 3, vertices.len());
    let v = &vertices[..nv];
    let nt = count(s, k + 4, triangles.len());
    let t = &triangles[..nt];
    let nf = count(s, k + 5, flags.len());
    let f = &flags[..nf];
    let nk = count(s, k + 6, kinds.len());
    let i = &kinds[..nk];
    let nn = count(s, k + 7, faces.len());
    let n = &faces[..nn];
    let nc = count(s, k + 8, coords.len());
    let c = &coords[..nc];
    let mut vertex_words = [7u32; 3600];
    let mut edge_words = [7u32; 37800];
    let mut edge_reals = [7.0f64; 25200];
    let mut round = [7u32; 6300];
    let mut triangle_words = [7u32; 12600];
    let mut triangle_reals = [7.0f64; 18900];
    let meshed = of_mesh::build(
        v,
        t,
        f,
        i,
        n,
        c,
        limit,
        others,
        &mut vertex_words,
        &mut edge_words,
        &mut edge_reals,
        &mut round,
        &mut triangle_words,
        &mut triangle_reals,
    );
    match meshed {
        Ok(edges) => pieces_hold(
            s,
            k,
            edges,
            v,
            t,
            i,
            n,
            c,
            &vertex_words,
            &mut edge_words,
            &edge_reals,
            &round,
            &mut triangle_words,
            &triangle_reals,
        ),
        Err(Refusal::Job(_)) => false,
        Err(Refusal::ThirdFace) => refusal == 10,
    }
}

// The same of a record that is still to be read.
fn job_replays(s: &[u8], k: usize) -> bool
    requires { k < 400_000 }
{
    let mut vertices = [0.0f64; 3600];
    let mut triangles = [0u32; 6300];
    let mut flags = [0u8; 1200];
    let mut kinds = [0u8; 1200];
    let mut faces = [0u32; 1200];
    let mut coords = [0.0f64; 7200];
    load_mesh(s, k, &mut vertices, &mut triangles, &mut flags);
    load_pieces(s, k, &mut kinds, &mut faces, &mut coords);
    job_holds(s, k, &vertices, &triangles, &flags, &kinds, &faces, &coords)
}

fn replay(s: &[u8]) -> Tally {
    replay_records(s, 2, |k| job_replays(s, k))
}

fn main(rt: HostRuntime) -> io::Result<()> {
    vectors::replay_file::<524288, _>(&rt, "small", replay)?;
    vectors::replay_file::<524288, _>(&rt, "large", replay)
}
