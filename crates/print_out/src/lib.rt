// The print-out of a job: lines of text, from its answer, the number of live windows and the vertices' distances.
#![tactic(auto)]

ghost use Rattle.std.specs.Prelude.{◌≡◌, cond, ◌&&◌, leb, ltb, [], ◌+◌, ◌*◌, ◌≤◌, ◌<◌, length};
ghost use Rattle.std.specs.Float.{binary64};
ghost use Rattle.std.specs.Float.Ieee.{of_bits};
ghost use Rattle.text_out.specs.Text.{Puts};
ghost use Rattle.thousandths.specs.Thousandths.{thousandths_of};
ghost use Rattle.print_out.specs.PrintOut.{is_live, live_count, minus_text, signed, count_text, distance_text, corner_line, corner_lines, edges_line, windows_line, refused_line, field_text, text_of};

use buffers::{read_f64, read_u32};
use computed::{Computed, Field};
use large_decimal::put_large;
use layout::{ALIVE_FLAG, REALS_PER_VERTEX, VERTEX_DISTANCE, WINDOW_FLAGS, WORDS_PER_WINDOW};
use text_out::{put_decimal, put_text};

fn one_if(b: bool) -> u32
    ensures { (result ≡ cond b 1 0) × (result ≤ 1) }
{
    if b {
        return 1;
    }
    0
}

// Whether window k lives.
fn is_live(words: &[u32], k: u32) -> bool
    ensures { result ≡ is_live words.now k }
{
    let flags = read_u32(words, WORDS_PER_WINDOW, k, WINDOW_FLAGS);
    windows::has_flag(flags, ALIVE_FLAG)
}

// How many of the first n windows live.
pub fn live_count(words: &[u32], n: u32) -> u32
    ensures { result ≡ live_count words.now n }
{
    let mut live: u32 = 0;
    for k in 0..n {
        live += one_if(is_live(words, k));
    }
    live
}

// A word and a number.
fn put_count(out: &mut [u8], i: usize, word: &[u8], n: u32) -> usize
    requires { (i < 8_000_000_000_000_000_000) × (length word.now ≤ 20) }
    ensures { Puts out.old i (count_text word.now n) out.new result × (result ≤ i + 40) }
{
    let j = put_text(out, i, word);
    put_decimal(out, j, n as u64)
}

// Whether a pattern has the minus sign.
fn is_minus(b: u64) -> bool
    ensures { result ≡ leb 0x8000_0000_0000_0000 b }
{
    if b < 0x8000_0000_0000_0000 {
        return false;
    }
    true
}

// Whether thousandths are below zero: of none there is no minus.
fn is_below_zero(minus: bool, thousandths: u64) -> bool
    ensures { result ≡ (minus && ltb 0 thousandths) }
{
    if minus {
        if 0 < thousandths {
            return true;
        }
    }
    false
}

fn put_sign(out: &mut [u8], i: usize, minus: bool) -> usize
    requires { i < 8_600_000_000_000_000_000 }
    ensures { Puts out.old i (cond minus minus_text []) out.new result × (result ≤ i + 1) }
{
    if minus {
        return put_text(out, i, b"-");
    }
    i
}

// The thousandths of the double whose pattern is b, a number, or of its negative.
fn put_thousandths(out: &mut [u8], i: usize, minus: bool, b: u64) -> usize
    requires { (i < 8_500_000_000_000_000_000) × (b < 0x7ff0_0000_0000_0000) }
    ensures { Puts out.old i (signed minus (thousandths_of minus (of_bits binary64 b))) out.new result × (result ≤ i + 346) }
{
    if 0x4330_0000_0000_0000 <= b {
        let j = put_sign(out, i, minus);
        let m = 1000 * (b % 0x10_0000_0000_0000 + 0x10_0000_0000_0000);
        return put_large(out, j, m, b / 0x10_0000_0000_0000 - 1075);
    }
    let t = thousandths::thousandths(minus, b);
    let j = put_sign(out, i, is_below_zero(minus, t));
    put_decimal(out, j, t)
}

fn put_distance(out: &mut [u8], i: usize, x: f64) -> usize
    requires { i < 8_500_000_000_000_000_000 }
    ensures { Puts out.old i (distance_text x) out.new result × (result ≤ i + 346) }
{
    let b = little_endian::pattern(x);
    if b == 0x7ff0_0000_0000_0000 {
        return put_text(out, i, b"far");
    }
    let size = b % 0x8000_0000_0000_0000;
    if 0x7ff0_0000_0000_0000 <= size {
        return put_text(out, i, b"nan");
    }
    put_thousandths(out, i, is_minus(b), size)
}

fn put_corner(out: &mut [u8], i: usize, k: u32, x: f64) -> usize
    requires { i < 7_000_000_000_000_000_000 }
    ensures { Puts out.old i (corner_line k x) out.new result × (result ≤ i + 388) }
{
    let a = put_count(out, i, b"corner ", k);
    let b = put_text(out, a, b" ");
    let c = put_distance(out, b, x);
    put_text(out, c, b"\n")
}

// A line for each of the n vertices.
fn put_corners(out: &mut [u8], i: usize, n: u32, vertex: &[f64]) -> usize
    requires { i < 6_000_000_000_000_000_000 }
    ensures { Puts out.old i (corner_lines vertex.now n) out.new result × (result ≤ i + 388 * n) }
{
    let mut at = i;
    for k in 0..n {
        let x = read_f64(vertex, REALS_PER_VERTEX, k, VERTEX_DISTANCE);
        at = put_corner(out, at, k, x);
    }
    at
}

// The lines of edges and of windows.
fn put_edges(out: &mut [u8], edges: u32) -> usize
    ensures { Puts out.old 0 (edges_line edges) out.new result × (result ≤ 41) }
{
    let a = put_count(out, 0, b"edges ", edges);
    put_text(out, a, b"\n")
}

fn put_windows(out: &mut [u8], i: usize, windows: u32, live: u32, steps: u32) -> usize
    requires { i < 7_000_000_000_000_000_000 }
    ensures { Puts out.old i (windows_line windows live steps) out.new result × (result ≤ i + 121) }
{
    let a = put_count(out, i, b"windows ", windows);
    let b = put_count(out, a, b" live ", live);
    let c = put_count(out, b, b" steps ", steps);
    put_text(out, c, b"\n")
}

fn put_refused(out: &mut [u8], number: u32) -> usize
    ensures { Puts out.old 0 (refused_line number) out.new result }
{
    let a = put_count(out, 0, b"refused ", number);
    put_text(out, a, b"\n")
}

fn put_field(out: &mut [u8], field: Field, live: u32, vertex: &[f64]) -> usize
    ensures { Puts out.old 0 (field_text field live vertex.now) out.new result }
{
    let a = put_edges(out, field.edges);
    let b = put_windows(out, a, field.windows, live, field.steps);
    let c = put_corners(out, b, field.vertices, vertex);
    put_text(out, c, b"end\n")
}

// The print-out of an answer, to the front of a slice: as much of it as there is room for. Answers how long it is.
pub fn print_out(answer: Computed, live: u32, vertex: &[f64], out: &mut [u8]) -> usize
    ensures { Puts out.old 0 (text_of answer live vertex.now) out.new result }
{
    match answer {
        Computed::Refused(number) => put_refused(out, number),
        Computed::Field(field) => put_field(out, field, live, vertex),
    }
}
