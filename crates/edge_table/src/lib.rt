// The edges of a mesh, numbered by first appearance, in buffers that a caller lends. An edge is looked up through buckets: as many
// as the mesh has sides, each a chain of edges through the edge buffer, the newest first. `bucket_of` in specs/ spreads them.
// On the meshes of tests/mesh/bench.rs no bucket has more than 7 edges. Nothing proves that: tests/mesh/worst.rs counts how full one can get, some
// thousands, and from the code alone E edges take at most a step for each edge before, E (E - 1) / 2.
#![tactic(auto)]

ghost use Rattle.std.specs.Prelude.{◌≡◌, [], ◌∷◌, ◌+◌, ◌*◌, ◌/◌, ◌<◌, ◌≤◌, length, get_or, set};
ghost use Rattle.layout.specs.Layout.{words_per_round, round_head, words_per_edge};
ghost use Rattle.buffers.specs.Slots.{fill};
ghost use Rattle.edge_table.specs.Words.{bucket_of};
ghost use Rattle.edge_table.specs.Table.{Mesh, TableFits, Built};
ghost use Rattle.edge_table.specs.Sides.{without_links, ReadyForSide, Blank, Turned, Falling, seek};
ghost use Rattle.buffers.specs.Lent.{given, left};

use buffers::{no_face, read_u32, write_u32, zero_u32};
use job_checks::{higher_of, lower_of};
use layout::{
    EDGE_FIRST_FACE, EDGE_HEAD, EDGE_HIGH, EDGE_LOW, EDGE_SCRATCH, EDGE_SECOND_FACE, ROUND_HEAD,
    VERTICES_PER_TRIANGLE, WORDS_PER_EDGE, WORDS_PER_ROUND, WORDS_PER_TRIANGLE,
};

// Document 01's refusal 10: an edge lies in more than two triangles.
#[derive(Clone, Copy, Debug, PartialEq, Eq)]
pub struct ThirdFace;

fn bucket_of(low: u32, high: u32, size: u32) -> u32
    requires { (low ≤ high) × ((high < 65535) × ((0 < size) × (size ≤ 393210))) }
    ensures { result ≡ bucket_of size (record { low = low; high = high }) }
{
    let difference = (high - low) as u64;
    let base = difference / 8 * 2654435761 % 4294967296 * (size as u64) / 4294967296;
    let place = 4 * (low as u64) + difference % 8 + base;
    if place < (size as u64) {
        return place as u32;
    }
    let reduced = place - (size as u64);
    if reduced < (size as u64) {
        return reduced as u32;
    }
    (reduced % (size as u64)) as u32
}

// The link to the edge with these ends on the chain from a link on, or 0. Links fall, so the chain ends.
fn find_in_bucket(edge_words: &[u32], head: u32, low: u32, high: u32) -> u32
    requires { Falling edge_words.now }
    ensures { result ≡ seek edge_words.now low high head head }
{
    let mut at = head;
    while at != 0 {
        let e = at - 1;
        if read_u32(edge_words, WORDS_PER_EDGE, e, EDGE_LOW) == low {
            if read_u32(edge_words, WORDS_PER_EDGE, e, EDGE_HIGH) == high {
                return at;
            }
        }
        at = read_u32(edge_words, WORDS_PER_EDGE, e, EDGE_SCRATCH);
    }
    0
}

// A new edge, with its first face, at the head of its bucket.
fn add_edge(
    heads: &mut [u32],
    edge_words: &mut [u32],
    bucket: u32,
    e: u32,
    low: u32,
    high: u32,
    f: u32,
)
    requires { e < 4294967295 }
    ensures { (left heads ≡ set (given heads) (words_per_round * bucket + round_head) (e + 1))
        × (left edge_words ≡ fill words_per_edge (given edge_words) e 0 (low ∷ high ∷ f ∷ 4294967295 ∷ 0 ∷ get_or (given heads) (words_per_round * bucket + round_head) 0 ∷ [])) }
{
    let none = no_face();
    let next = read_u32(heads, WORDS_PER_ROUND, bucket, ROUND_HEAD);
    write_u32(edge_words, WORDS_PER_EDGE, e, EDGE_LOW, low);
    write_u32(edge_words, WORDS_PER_EDGE, e, EDGE_HIGH, high);
    write_u32(edge_words, WORDS_PER_EDGE, e, EDGE_FIRST_FACE, f);
    write_u32(edge_words, WORDS_PER_EDGE, e, EDGE_SECOND_FACE, none.0);
    write_u32(edge_words, WORDS_PER_EDGE, e, EDGE_HEAD, 0);
    write_u32(edge_words, WORDS_PER_EDGE, e, EDGE_SCRATCH, next);
    write_u32(heads, WORDS_PER_ROUND, bucket, ROUND_HEAD, e + 1);
}

// Side h: its edge is found or entered, and has the side's triangle as its next face. `count` is how many edges there are before, the answer how many after.
fn enter_side(
    triangles: &[u32],
    heads: &mut [u32],
    edge_words: &mut [u32],
    triangle_words: &mut [u32],
    h: u32,
    count: u32,
) -> Result<u32, ThirdFace>
    requires { ReadyForSide triangles.now h count heads.old edge_words.old triangle_words.old }
    ensures { Turned triangles.now (length triangles.now) (h + 1) (left heads) (left edge_words) (left triangle_words) result }
{
    let f = h / 3;
    let k = h % 3;
    let a = read_u32(triangles, VERTICES_PER_TRIANGLE, f, k);
    let b = read_u32(triangles, VERTICES_PER_TRIANGLE, f, (k + 1) % 3);
    let low = lower_of(a, b);
    let high = higher_of(a, b);
    let bucket = bucket_of(low, high, triangles.len() as u32);
    let head = read_u32(heads, WORDS_PER_ROUND, bucket, ROUND_HEAD);
    let link = find_in_bucket(edge_words, head, low, high);
    if link == 0 {
        add_edge(heads, edge_words, bucket, count, low, high, f);
        write_u32(triangle_words, WORDS_PER_TRIANGLE, f, k, count);
        return Ok(count + 1);
    }
    let e = link - 1;
    let none = no_face();
    if read_u32(edge_words, WORDS_PER_EDGE, e, EDGE_SECOND_FACE) != none.0 {
        return Err(ThirdFace);
    }
    write_u32(edge_words, WORDS_PER_EDGE, e, EDGE_SECOND_FACE, f);
    write_u32(triangle_words, WORDS_PER_TRIANGLE, f, k, e);
    Ok(count)
}

// All sides, in buffers that are zero: how many edges there are.
fn enter_sides(
    triangles: &[u32],
    heads: &mut [u32],
    edge_words: &mut [u32],
    triangle_words: &mut [u32],
) -> Result<u32, ThirdFace>
    requires { Blank triangles.now heads.old edge_words.old triangle_words.old }
    ensures { Turned triangles.now (length triangles.now) (length triangles.now) (left heads) (left edge_words) (left triangle_words) result }
{
    let sides = triangles.len() as u32;
    let mut count: u32 = 0;
    for h in 0..sides {
        count = enter_side(triangles, heads, edge_words, triangle_words, h, count)?;
    }
    Ok(count)
}

// The links of the first `count` edges, which are wanted no longer.
fn clear_links(edge_words: &mut [u32], count: u32)
    ensures { left edge_words ≡ without_links count (given edge_words) }
{
    for e in 0..count {
        write_u32(edge_words, WORDS_PER_EDGE, e, EDGE_SCRATCH, 0);
    }
}

// The table of a mesh whose triangles were checked: how many edges there are. Where an edge lies in more than two triangles the buffers are zero.
pub fn build(
    triangles: &[u32],
    heads: &mut [u32],
    edge_words: &mut [u32],
    triangle_words: &mut [u32],
) -> Result<u32, ThirdFace>
    requires { Mesh triangles.now 65535
        × TableFits triangles.now (length heads.old) (length edge_words.old) (length triangle_words.old) }
    ensures { Built triangles.now result
        (given heads) (given edge_words) (given triangle_words)
        (left heads) (left edge_words) (left triangle_words) }
{
    zero_u32(heads);
    zero_u32(edge_words);
    zero_u32(triangle_words);
    match enter_sides(triangles, heads, edge_words, triangle_words) {
        Ok(count) => {
            clear_links(edge_words, count);
            Ok(count)
        }
        Err(third_face) => {
            zero_u32(heads);
            zero_u32(edge_words);
            zero_u32(triangle_words);
            Err(third_face)
        }
    }
}
