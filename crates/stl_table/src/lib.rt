// The vertices of an STL file: points with the same coordinates are found through buckets, 131,072 of them, each a chain of vertices, the newest first.
// `key_bucket` in specs/ spreads them. Points that are chosen to meet in one bucket make a step for each vertex before: at worst 3 n points of v vertices take
// 3 n v steps.
#![tactic(auto)]

ghost use Rattle.std.specs.Prelude.{◌≡◌, ◌+◌, ◌≤◌, ◌<◌, length, get_or};
ghost use Rattle.little_endian.specs.Bytes.{number_from};
ghost use Rattle.stl_table.specs.Keys.{zero_unsigned, key_at, same_key, mixed_key, key_bucket};
ghost use Rattle.stl_table.specs.Table.{HasPoint, HasPoints, follow_links, Walkable, found_at, Findable, VertexTable, PointEntered, TableBuilt};

use buffers::zero_u32;
use stl_format::{point_from, word_at};

// The bits of a point's three coordinates, minus zero's as zero's.
#[derive(Clone, Copy, PartialEq, Eq)]
pub struct PointKey {
    pub x: u32,
    pub y: u32,
    pub z: u32,
}

fn key_word(s: &[u8], i: usize) -> u32
    requires { i + 4 ≤ length s.now }
    ensures { result ≡ zero_unsigned (number_from s.now i) }
{
    let b = word_at(s, i);
    if b == 0x8000_0000 {
        return 0;
    }
    b
}

fn key_at(s: &[u8], h: u32) -> PointKey
    requires { HasPoint s.now h }
    ensures { result ≡ key_at s.now h }
{
    let i = point_from(h as usize);
    PointKey {
        x: key_word(s, i),
        y: key_word(s, i + 4),
        z: key_word(s, i + 8),
    }
}

fn mix(h: u32, x: u32) -> u32
    ensures { result ≡ mixed_key h x }
{
    let p = ((h as u64) + (x as u64)) % 4294967296 * 2654435769;
    ((p / 4294967296 + p % 4294967296) % 4294967296) as u32
}

fn bucket_of(k: PointKey) -> usize
    ensures { (result ≡ key_bucket k) × (result < 131072) }
{
    (mix(mix(mix(0, k.x), k.y), k.z) / 32768) as usize
}

// The link to the vertex with key k along the links from one on, or 0.
fn seek(s: &[u8], links: &[u32], firsts: &[u32], k: PointKey, head: u32) -> u32
    requires { Walkable s.now links.now firsts.now head }
    ensures { result ≡ follow_links (λ i. same_key (key_at s.now (get_or firsts.now i 0)) k) links.now head head }
{
    let mut at = head;
    while at != 0 {
        let i = (at - 1) as usize;
        if key_at(s, firsts[i]) == k {
            return at;
        }
        at = links[i];
    }
    0
}

// The link to the vertex of point h.
pub fn find(s: &[u8], heads: &[u32], links: &[u32], firsts: &[u32], h: u32) -> u32
    requires { Findable s.now heads.now links.now firsts.now h }
    ensures { result ≡ found_at s.now heads.now links.now firsts.now h }
{
    let k = key_at(s, h);
    let b = bucket_of(k);
    seek(s, links, firsts, k, heads[b])
}

// Point h: a vertex's, or the next vertex, at the head of its bucket. `count` is how many there are.
fn enter(
    s: &[u8],
    heads: &mut [u32],
    links: &mut [u32],
    firsts: &mut [u32],
    h: u32,
    count: u32,
) -> u32
    requires { HasPoint s.now h × ((count ≤ 65535) × VertexTable s.now count heads.old links.old firsts.old) }
    ensures { PointEntered s.now h count firsts.old result heads.new links.new firsts.new }
{
    let k = key_at(s, h);
    let b = bucket_of(k);
    let head = heads[b];
    if seek(s, links, firsts, k, head) != 0 {
        return count;
    }
    let i = count as usize;
    firsts[i] = h;
    links[i] = head;
    heads[b] = count + 1;
    count + 1
}

// The first so many points: answers how many vertices they have, and stops at 65,536.
pub fn build(s: &[u8], points: u32, heads: &mut [u32], links: &mut [u32], firsts: &mut [u32]) -> u32
    requires { HasPoints s.now points × ((131072 ≤ length heads.old) × ((65536 ≤ length links.old) × (65536 ≤ length firsts.old))) }
    ensures { TableBuilt s.now points result heads.new links.new firsts.new }
{
    zero_u32(heads);
    let mut count: u32 = 0;
    for h in 0..points {
        count = enter(s, heads, links, firsts, h, count);
        if 65535 < count {
            return count;
        }
    }
    count
}
