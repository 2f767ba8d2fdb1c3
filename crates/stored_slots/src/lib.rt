// What buffers hold, compared with stored rows number by number (detail 1) or by check sums of whole lists (detail 2). tests/mesh/make_vectors.py says what a check
// sum is.
#![tactic(auto)]

use buffers::{read_f64, read_u32};
use stored_numbers::{Walk, visit, wrong};

// The walk over the stored numbers, and the check sum so far.
#[derive(Clone, Copy)]
pub struct SummedWalk {
    pub walk: Walk,
    pub sum: u64,
}

// Where the lists of a record begin.
pub fn start_at(at: usize) -> SummedWalk {
    let walk = Walk { at, same: true };
    SummedWalk { walk, sum: 0 }
}

pub fn broken() -> SummedWalk {
    SummedWalk {
        walk: wrong(),
        sum: 0,
    }
}

// One more number, compared at detail 1 and summed at detail 2.
pub fn compare_or_sum(s: &[u8], detail: u32, w: SummedWalk, n: u32) -> SummedWalk {
    let walk = w.walk;
    if detail == 1 {
        return SummedWalk {
            walk: visit(s, walk, n),
            sum: 0,
        };
    }
    SummedWalk {
        walk,
        sum: ((w.sum % 4_294_967_296) * 65_599 + (n as u64)) % 4_294_967_291,
    }
}

// The end of a list: at detail 2 its check sum is compared.
pub fn section(s: &[u8], detail: u32, w: SummedWalk) -> SummedWalk {
    if detail == 1 {
        return w;
    }
    let sum = (w.sum % 4_294_967_296) as u32;
    compare_or_sum(s, 1, w, sum)
}

pub fn compare_or_sum_double(s: &[u8], detail: u32, w: SummedWalk, x: f64) -> SummedWalk {
    let bits = vectors::pattern(x);
    let low = compare_or_sum(s, detail, w, (bits % 4_294_967_296) as u32);
    compare_or_sum(s, detail, low, (bits / 4_294_967_296) as u32)
}

// The first fields of a slot.
pub fn visit_slot_u32(
    s: &[u8],
    detail: u32,
    w: SummedWalk,
    words: &[u32],
    stride: u32,
    slot: u32,
    fields: u32,
) -> SummedWalk {
    let mut now = w;
    for k in 0..fields {
        now = compare_or_sum(s, detail, now, read_u32(words, stride, slot, k));
    }
    now
}

pub fn visit_slot_f64(
    s: &[u8],
    detail: u32,
    w: SummedWalk,
    reals: &[f64],
    fields: u32,
    slot: u32,
) -> SummedWalk {
    let mut now = w;
    for k in 0..fields {
        now = compare_or_sum_double(s, detail, now, read_f64(reals, fields, slot, k));
    }
    now
}

// The same of the first n slots.
pub fn visit_u32(
    s: &[u8],
    detail: u32,
    w: SummedWalk,
    words: &[u32],
    stride: u32,
    n: u32,
    fields: u32,
) -> SummedWalk {
    let mut now = w;
    for i in 0..n {
        now = visit_slot_u32(s, detail, now, words, stride, i, fields);
    }
    section(s, detail, now)
}

pub fn visit_f64(
    s: &[u8],
    detail: u32,
    w: SummedWalk,
    reals: &[f64],
    fields: u32,
    n: u32,
) -> SummedWalk {
    let mut now = w;
    for i in 0..n {
        now = visit_slot_f64(s, detail, now, reals, fields, i);
    }
    section(s, detail, now)
}

// The links of a chain from its head on, up to the 0 behind them. A link is a slot's number plus one; a chain of more than so many slots is none.
pub fn visit_links(
    s: &[u8],
    detail: u32,
    w: SummedWalk,
    head: u32,
    links: &[u32],
    stride: u32,
    field: u32,
    slots: u32,
) -> SummedWalk {
    let mut now = w;
    let mut link = head;
    let mut rest = (slots as u64) + 1;
    while rest > 0 {
        now = compare_or_sum(s, detail, now, link);
        if link == 0 {
            return now;
        }
        link = read_u32(links, stride, link - 1, field);
        rest -= 1;
    }
    broken()
}

// The chains of the first n slots, each of which has its head in one field.
pub fn visit_all_links(
    s: &[u8],
    detail: u32,
    w: SummedWalk,
    heads: &[u32],
    heads_stride: u32,
    heads_field: u32,
    n: u32,
    links: &[u32],
    stride: u32,
    field: u32,
    slots: u32,
) -> SummedWalk {
    let mut now = w;
    for i in 0..n {
        let head = read_u32(heads, heads_stride, i, heads_field);
        now = visit_links(s, detail, now, head, links, stride, field, slots);
    }
    section(s, detail, now)
}
