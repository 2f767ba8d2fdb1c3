// The ends of a job's pieces, found by their coordinate bits through buckets in the pieces' buffer: as many as there are pieces, each a chain of ends in the order in which
// the Rust meets them. End 2 i is the first end of piece i, a point's only one, and end 2 i + 1 the second of a segment. A slot has the head of a bucket and the links
// of its piece's two ends; a link is the number of an end plus one, and 0 is none.
#![tactic(auto)]

ghost use Rattle.std.specs.Prelude.{◌≡◌, ◌*◌, ◌≤◌, ◌<◌, length};
ghost use Rattle.std.specs.Float.{binary64};
ghost use Rattle.std.specs.Float.Ieee.{to_bits};
ghost use Rattle.layout.specs.Layout.{words_per_piece, reals_per_piece};
ghost use Rattle.buffers.specs.Lent.{given, left};
ghost use Rattle.buffers.specs.Slots.{fill};
ghost use Rattle.frames.specs.Stored.{row3};
ghost use Rattle.piece_ends.specs.Ends.{end_point, is_end, same_bits};
ghost use Rattle.piece_ends.specs.Table.{mixed, point_bucket, piece_words_of, entered};
ghost use Rattle.piece_ends.specs.Walk.{end_link_at, stands_at, find_along, first_link_at, next_link_at, leads_at, follows_at, is_first_at};
ghost use Rattle.piece_ends.specs.Directions.{is_long, direction_of, piece_reals_of};

use buffers::{read_u32, write_f64, write_u32, zero_f64_from, zero_u32};
use frames::vector_from;
use layout::{PIECE_HEAD, PIECE_LINKS, REALS_PER_PIECE, WORDS_PER_PIECE};
use vec3::Vec3;

fn bits(x: f64) -> u64
    ensures { result ≡ to_bits binary64 x }
{
    if x != x {
        return 0x7ff8_0000_0000_0000;
    }
    f64::to_bits(x)
}

fn mix(h: u32, x: f64) -> u32
    ensures { result ≡ mixed h x }
{
    let b = bits(x);
    let low = ((h as u64) + b % 4294967296) % 4294967296;
    let high = (b / 4294967296 + 2654435769) % 4294967296;
    let product = low * high;
    ((product / 4294967296 + product % 4294967296) % 4294967296) as u32
}

// A remainder by the size would fall on few buckets where a coordinate's upper half and the size have a common factor.
fn bucket_of(p: Vec3, size: u32) -> u32
    ensures { result ≡ point_bucket size p }
{
    let h = mix(mix(mix(2654435769, p.x), p.y), p.z);
    let scaled = (h as u64) * (size as u64);
    (scaled / 4294967296) as u32
}

// Whether two points have the same coordinate bits.
pub fn same_bits(p: Vec3, q: Vec3) -> bool
    ensures { result ≡ same_bits p q }
{
    if bits(p.x) != bits(q.x) {
        return false;
    }
    if bits(p.y) != bits(q.y) {
        return false;
    }
    if bits(p.z) != bits(q.z) {
        return false;
    }
    true
}

pub fn end_point(coords: &[f64], e: u32) -> Vec3
    ensures { result ≡ end_point coords.now e }
{
    vector_from(coords, 3 * (e as usize))
}

pub fn is_end(kinds: &[u8], e: u32) -> bool
    ensures { result ≡ is_end kinds.now e }
{
    let i = (e / 2) as usize;
    if i < kinds.len() {
        if e % 2 == 0 {
            return true;
        }
        if kinds[i] == 0 {
            return false;
        }
        return true;
    }
    false
}

// End e before the others of its bucket.
fn enter(kinds: &[u8], coords: &[f64], words: &mut [u32], e: u32)
    requires { (length kinds.now ≤ 65535) × (e < 2 * length kinds.now) }
    ensures { left words ≡ entered kinds.now coords.now e (given words) }
{
    if !is_end(kinds, e) {
        return;
    }
    let b = bucket_of(end_point(coords, e), kinds.len() as u32);
    let head = read_u32(words, WORDS_PER_PIECE, b, PIECE_HEAD);
    write_u32(words, WORDS_PER_PIECE, e / 2, PIECE_LINKS + e % 2, head);
    write_u32(words, WORDS_PER_PIECE, b, PIECE_HEAD, e + 1);
}

// The table of all ends. They are entered from the last to the first, so that each bucket has them in the Rust's order.
pub fn build(kinds: &[u8], coords: &[f64], words: &mut [u32])
    requires { (length kinds.now ≤ 65535) × (words_per_piece * length kinds.now ≤ length words.old) }
    ensures { left words ≡ piece_words_of kinds.now coords.now (length (given words)) }
{
    zero_u32(words);
    let mut e = 2 * (kinds.len() as u32);
    while e > 0 {
        e -= 1;
        enter(kinds, coords, words, e);
    }
}

fn next_link(words: &[u32], e: u32) -> u32
    ensures { result ≡ end_link_at words.now e }
{
    read_u32(words, WORDS_PER_PIECE, e / 2, PIECE_LINKS + e % 2)
}

// The link to the first end with p's bits along the links from one on. No chain is longer than there are ends.
fn seek(coords: &[f64], words: &[u32], pieces: u32, p: Vec3, link: u32) -> u32
    ensures { result ≡ find_along (end_link_at words.now) (stands_at coords.now p) (2 * pieces) link }
{
    let mut at = link;
    let mut rest = 2 * (pieces as u64);
    while rest > 0 {
        if at == 0 {
            return 0;
        }
        if same_bits(end_point(coords, at - 1), p) {
            return at;
        }
        at = next_link(words, at - 1);
        rest -= 1;
    }
    0
}

// The link to the first end with p's bits, in a table of so many pieces.
pub fn first_at(coords: &[f64], words: &[u32], pieces: u32, p: Vec3) -> u32
    ensures { result ≡ first_link_at coords.now words.now pieces p }
{
    let head = read_u32(words, WORDS_PER_PIECE, bucket_of(p, pieces), PIECE_HEAD);
    seek(coords, words, pieces, p, head)
}

// The link to the next end with the bits of end e.
pub fn next_at(coords: &[f64], words: &[u32], pieces: u32, e: u32) -> u32
    ensures { result ≡ next_link_at coords.now words.now pieces e }
{
    seek(
        coords,
        words,
        pieces,
        end_point(coords, e),
        next_link(words, e),
    )
}

// Whether end e is the first of its bits that the links lead to.
fn leads(coords: &[f64], words: &[u32], pieces: u32, e: u32) -> bool
    ensures { result ≡ leads_at coords.now words.now pieces e }
{
    let link = first_at(coords, words, pieces, end_point(coords, e));
    if link == 0 {
        return false;
    }
    if link - 1 == e {
        return true;
    }
    false
}

// Whether the end before end e is there and has its bits, as along a line from segment to segment: then the table need not be asked.
fn follows(kinds: &[u8], coords: &[f64], e: u32) -> bool
    ensures { result ≡ follows_at kinds.now coords.now e }
{
    if e == 0 {
        return false;
    }
    if !is_end(kinds, e - 1) {
        return false;
    }
    same_bits(end_point(coords, e - 1), end_point(coords, e))
}

// Whether end e is there and none before it has its bits. A point's second end is not looked for: what stands in its place may lead through a whole bucket.
pub fn is_first(kinds: &[u8], coords: &[f64], words: &[u32], pieces: u32, e: u32) -> bool
    ensures { result ≡ is_first_at kinds.now coords.now words.now pieces e }
{
    if !is_end(kinds, e) {
        return false;
    }
    if follows(kinds, coords, e) {
        return false;
    }
    leads(coords, words, pieces, e)
}

// Whether piece i is a segment of computed length above zero. The length is a root, which is above zero exactly where its argument is.
pub fn is_long(kinds: &[u8], coords: &[f64], i: u32) -> bool
    requires { i < 2147483648 }
    ensures { result ≡ is_long kinds.now coords.now i }
{
    if !is_end(kinds, 2 * i + 1) {
        return false;
    }
    let a = end_point(coords, 2 * i);
    let b = end_point(coords, 2 * i + 1);
    let d = vec3::sub(b, a);
    if vec3::dot(d, d) > 0.0 {
        return true;
    }
    false
}

// The unit direction of piece i, zeros where it is no segment of computed length above zero.
fn direction(kinds: &[u8], coords: &[f64], i: u32) -> Vec3
    requires { i < 2147483648 }
    ensures { result ≡ direction_of kinds.now coords.now i }
{
    if is_end(kinds, 2 * i + 1) {
        let a = end_point(coords, 2 * i);
        let b = end_point(coords, 2 * i + 1);
        let d = vec3::sub(b, a);
        let len = vec3::norm(d);
        if len > 0.0 {
            return vec3::scale(d, 1.0 / len);
        }
    }
    Vec3 {
        x: 0.0,
        y: 0.0,
        z: 0.0,
    }
}

fn store_direction(kinds: &[u8], coords: &[f64], i: u32, reals: &mut [f64])
    requires { i < 2147483648 }
    ensures { left reals ≡ fill reals_per_piece (given reals) i 0 (row3 (direction_of kinds.now coords.now i)) }
{
    let u = direction(kinds, coords, i);
    write_f64(reals, REALS_PER_PIECE, i, 0, u.x);
    write_f64(reals, REALS_PER_PIECE, i, 1, u.y);
    write_f64(reals, REALS_PER_PIECE, i, 2, u.z);
}

// The directions of all pieces; the slots behind them are zeroed.
pub fn directions(kinds: &[u8], coords: &[f64], reals: &mut [f64])
    requires { length kinds.now ≤ 65535 }
    ensures { left reals ≡ piece_reals_of kinds.now coords.now (length (given reals)) }
{
    let count = kinds.len() as u32;
    for i in 0..count {
        store_direction(kinds, coords, i, reals);
    }
    zero_f64_from(reals, (REALS_PER_PIECE as usize) * kinds.len());
}
