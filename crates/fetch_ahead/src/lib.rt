// Windows are read before they are asked for. A chain is walked link by link, each of which waits for the one before; the chains of eight edges are walked side by side, so that eight windows are on
// their way from memory at a time. What is answered, a number that is below zero where a start is, depends on all that was read, so that the compiler leaves nothing out; no more is said of it.
#![tactic(auto)]

use buffers::{read_f64, read_u32};
use layout::{
    EDGE_HEAD, REALS_PER_WINDOW, WINDOW_B0, WINDOW_LINK, WORDS_PER_EDGE, WORDS_PER_TRIANGLE,
    WORDS_PER_WINDOW,
};

// Eight walks, each the link of the window that it has come to, 0 at its end.
#[derive(Clone, Copy)]
struct Walks {
    a: u32,
    b: u32,
    c: u32,
    d: u32,
    e: u32,
    f: u32,
    g: u32,
    h: u32,
}

fn within(link: u32, made: u32) -> u32 {
    if link <= made {
        return link;
    }
    0
}

fn behind(words: &[u32], made: u32, at: u32) -> u32 {
    if at == 0 {
        return 0;
    }
    within(read_u32(words, WORDS_PER_WINDOW, at - 1, WINDOW_LINK), made)
}

// The lesser of x and of the start of a link's window.
fn lesser_start(reals: &[f64], at: u32, x: f64) -> f64 {
    if at == 0 {
        return x;
    }
    let start = read_f64(reals, REALS_PER_WINDOW, at - 1, WINDOW_B0);
    if start < x {
        return start;
    }
    x
}

fn least_start(reals: &[f64], s: Walks, x: f64) -> f64 {
    let a = lesser_start(reals, s.a, x);
    let b = lesser_start(reals, s.b, a);
    let c = lesser_start(reals, s.c, b);
    let d = lesser_start(reals, s.d, c);
    let e = lesser_start(reals, s.e, d);
    let f = lesser_start(reals, s.f, e);
    let g = lesser_start(reals, s.g, f);
    lesser_start(reals, s.h, g)
}

fn on(words: &[u32], made: u32, s: Walks) -> Walks {
    Walks {
        a: behind(words, made, s.a),
        b: behind(words, made, s.b),
        c: behind(words, made, s.c),
        d: behind(words, made, s.d),
        e: behind(words, made, s.e),
        f: behind(words, made, s.f),
        g: behind(words, made, s.g),
        h: behind(words, made, s.h),
    }
}

fn over(s: Walks) -> bool {
    if s.a != 0 {
        return false;
    }
    if s.b != 0 {
        return false;
    }
    if s.c != 0 {
        return false;
    }
    if s.d != 0 {
        return false;
    }
    if s.e != 0 {
        return false;
    }
    if s.f != 0 {
        return false;
    }
    if s.g != 0 {
        return false;
    }
    s.h == 0
}

fn walk(words: &[u32], reals: &[f64], made: u32, first: Walks) -> f64 {
    let mut s = first;
    let mut x = 0.0;
    for _ in 0..made {
        if over(s) {
            return x;
        }
        x = least_start(reals, s, x);
        s = on(words, made, s);
    }
    x
}

// The head of the chain of edge e.
fn head(edge_words: &[u32], made: u32, e: u32) -> u32 {
    within(read_u32(edge_words, WORDS_PER_EDGE, e, EDGE_HEAD), made)
}

// Of the edge that the first question of group 8 k + j asks about, 0 where there is no question.
fn edge_head(edge_words: &[u32], edges: &[u32], heads: &[u32], made: u32, k: u32, j: u32) -> u32 {
    let question = read_u32(heads, 8, k, j);
    if question == 0 {
        return 0;
    }
    head(edge_words, made, read_u32(edges, 1, question - 1, 0))
}

// Of side i of the face that it asks about.
fn side_head(
    edge_words: &[u32],
    triangle_words: &[u32],
    asked: &[u32],
    heads: &[u32],
    made: u32,
    k: u32,
    j: u32,
    i: u32,
) -> u32 {
    let question = read_u32(heads, 8, k, j);
    if question == 0 {
        return 0;
    }
    let face = read_u32(asked, 1, question - 1, 0);
    head(
        edge_words,
        made,
        read_u32(triangle_words, WORDS_PER_TRIANGLE, face, i),
    )
}

// The windows of the edges that the first questions of eight groups ask about, from group 8 k on.
pub fn fetch_edges(
    edge_words: &[u32],
    words: &[u32],
    reals: &[f64],
    edges: &[u32],
    heads: &[u32],
    made: u32,
    k: u32,
) -> f64 {
    let first = Walks {
        a: edge_head(edge_words, edges, heads, made, k, 0),
        b: edge_head(edge_words, edges, heads, made, k, 1),
        c: edge_head(edge_words, edges, heads, made, k, 2),
        d: edge_head(edge_words, edges, heads, made, k, 3),
        e: edge_head(edge_words, edges, heads, made, k, 4),
        f: edge_head(edge_words, edges, heads, made, k, 5),
        g: edge_head(edge_words, edges, heads, made, k, 6),
        h: edge_head(edge_words, edges, heads, made, k, 7),
    };
    walk(words, reals, made, first)
}

// The windows of side i of the faces that they ask about.
fn fetch_side(
    edge_words: &[u32],
    triangle_words: &[u32],
    words: &[u32],
    reals: &[f64],
    asked: &[u32],
    heads: &[u32],
    made: u32,
    k: u32,
    i: u32,
) -> f64 {
    let first = Walks {
        a: side_head(edge_words, triangle_words, asked, heads, made, k, 0, i),
        b: side_head(edge_words, triangle_words, asked, heads, made, k, 1, i),
        c: side_head(edge_words, triangle_words, asked, heads, made, k, 2, i),
        d: side_head(edge_words, triangle_words, asked, heads, made, k, 3, i),
        e: side_head(edge_words, triangle_words, asked, heads, made, k, 4, i),
        f: side_head(edge_words, triangle_words, asked, heads, made, k, 5, i),
        g: side_head(edge_words, triangle_words, asked, heads, made, k, 6, i),
        h: side_head(edge_words, triangle_words, asked, heads, made, k, 7, i),
    };
    walk(words, reals, made, first)
}

pub fn fetch_faces(
    edge_words: &[u32],
    triangle_words: &[u32],
    words: &[u32],
    reals: &[f64],
    asked: &[u32],
    heads: &[u32],
    made: u32,
    k: u32,
) -> f64 {
    let a = fetch_side(
        edge_words,
        triangle_words,
        words,
        reals,
        asked,
        heads,
        made,
        k,
        0,
    );
    let b = fetch_side(
        edge_words,
        triangle_words,
        words,
        reals,
        asked,
        heads,
        made,
        k,
        1,
    );
    let c = fetch_side(
        edge_words,
        triangle_words,
        words,
        reals,
        asked,
        heads,
        made,
        k,
        2,
    );
    float64::min(a, float64::min(b, c))
}

// The head of the chain of one of the eight edges from 8 k on: its field, counted from the first one's slot.
fn run_head(edge_words: &[u32], made: u32, k: u32, field: u32) -> u32 {
    within(read_u32(edge_words, 8 * WORDS_PER_EDGE, k, field), made)
}

// The windows of the eight edges from 8 k on.
pub fn fetch_run(edge_words: &[u32], words: &[u32], reals: &[f64], made: u32, k: u32) -> f64 {
    let first = Walks {
        a: run_head(edge_words, made, k, EDGE_HEAD),
        b: run_head(edge_words, made, k, WORDS_PER_EDGE + EDGE_HEAD),
        c: run_head(edge_words, made, k, 2 * WORDS_PER_EDGE + EDGE_HEAD),
        d: run_head(edge_words, made, k, 3 * WORDS_PER_EDGE + EDGE_HEAD),
        e: run_head(edge_words, made, k, 4 * WORDS_PER_EDGE + EDGE_HEAD),
        f: run_head(edge_words, made, k, 5 * WORDS_PER_EDGE + EDGE_HEAD),
        g: run_head(edge_words, made, k, 6 * WORDS_PER_EDGE + EDGE_HEAD),
        h: run_head(edge_words, made, k, 7 * WORDS_PER_EDGE + EDGE_HEAD),
    };
    walk(words, reals, made, first)
}
