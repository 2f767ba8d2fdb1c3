// The Rust's `edge_at` over the buffers: the distance at a place on an edge. Whatever the buffers hold, no link leads past the windows made and no walk goes on for more of them.
#![tactic(auto)]

ghost use Rattle.std.specs.Prelude.{◌≡◌, ◌-◌, ◌≤◌, ◌<◌, length};
ghost use Rattle.layout.specs.Layout.{words_per_edge};
ghost use Rattle.buffers.specs.Slots.{slots_of};
ghost use Rattle.windows.specs.Windows.{capacity_of};
ghost use Rattle.chains.specs.Chains.{links};
ghost use Rattle.edge_query.specs.EdgeDistance.{edge_distance_in};
ghost use Rattle.edge_query.specs.Forward.{value_of, passed_value, past_of};
ghost use Rattle.edge_query.specs.Resume.{from_head, head_cursor, cursor_for, cursor_past, ResumesAt, Resumes};

use buffers::{EdgeId, WindowId, read_f64};
use last_pass::of_face_distance;
use layout::{REALS_PER_WINDOW, WINDOW_B0, WINDOW_B1};
use windows::Edge;

// Of the windows that start at x or before it, as far as a walk has come: the least value of those behind the last that ends short of x, a NaN where there is none; and the link
// of that one, 0 where there is none.
#[derive(Clone, Copy)]
pub struct Passed {
    pub least: f64,
    pub short: u32,
}

// Where a walk along the chain of an edge may begin for any place past `place`: behind the window of a link (0: at the head), with so many links left.
#[derive(Clone, Copy)]
pub struct Cursor {
    pub edge: u32,
    pub place: f64,
    pub link: u32,
    pub left: u32,
}

// A distance, and where the walk for the next may begin.
#[derive(Clone, Copy)]
pub struct Resumed {
    pub distance: f64,
    pub cursor: Cursor,
}

// The value at x of the window of a link, a NaN of none.
fn value(words: &[u32], reals: &[f64], link: u32, x: f64) -> f64
    requires { link ≤ capacity_of (length words.now) (length reals.now) }
    ensures { result ≡ value_of words.now reals.now x link }
{
    if link == 0 {
        return 0.0 / 0.0;
    }
    let window = windows::load(words, reals, WindowId(link - 1));
    source::eval(window.win, x, 0.0)
}

// The windows passed come to the least of those that reach x and of the last that ends short of it.
fn value_passed(words: &[u32], reals: &[f64], passed: Passed, x: f64) -> f64
    requires { passed.short ≤ capacity_of (length words.now) (length reals.now) }
    ensures { result ≡ passed_value words.now reals.now x passed }
{
    float64::min(passed.least, value(words, reals, passed.short, x))
}

// The window of a link is passed.
fn past(words: &[u32], reals: &[f64], passed: Passed, link: u32, x: f64) -> Passed
    requires { (0 < link) × (link ≤ capacity_of (length words.now) (length reals.now)) }
    ensures { result ≡ past_of words.now reals.now x passed (link - 1) }
{
    if read_f64(reals, REALS_PER_WINDOW, link - 1, WINDOW_B1) < x {
        return Passed {
            least: 0.0 / 0.0,
            short: link,
        };
    }
    Passed {
        least: float64::min(value(words, reals, link, x), passed.least),
        short: passed.short,
    }
}

// The window of a link is passed, with so many links left behind it, and none passed starts past the bound.
fn cursor_past(reals: &[f64], cursor: Cursor, link: u32, left: u32, bound: f64, x: f64) -> Cursor
    requires { 0 < link }
    ensures { result ≡ cursor_past reals.now x cursor link left bound }
{
    let end = read_f64(reals, REALS_PER_WINDOW, link - 1, WINDOW_B1);
    if end < x {
        return Cursor {
            edge: cursor.edge,
            place: float64::max(bound, end),
            link,
            left,
        };
    }
    cursor
}

// The head of the chain of an edge, where a walk for any place may begin.
pub fn head_cursor(e: EdgeId, made: u32) -> Cursor
    ensures { result ≡ head_cursor e made }
{
    Cursor {
        edge: e.0,
        place: 0.0,
        link: 0,
        left: made,
    }
}

// Where the walk for x begins: at the cursor if x is past its place on the same edge.
fn cursor_for(cursor: Cursor, e: EdgeId, made: u32, x: f64) -> Cursor
    ensures { result ≡ cursor_for cursor e made x }
{
    if cursor.edge == e.0 {
        if cursor.place < x {
            return cursor;
        }
        return head_cursor(e, made);
    }
    head_cursor(e, made)
}

// The least of d and of the values of the windows on the chain of an edge that the Rust evaluates: the first that starts past x, and those before it back to the first that ends
// short of x.
fn least_on_chain(
    edge_words: &[u32],
    words: &[u32],
    reals: &[f64],
    from: Cursor,
    made: u32,
    x: f64,
    d: f64,
) -> Resumed
    requires { (made ≤ capacity_of (length words.now) (length reals.now)) × ((from.edge < slots_of (length edge_words.now) words_per_edge)
        × (Resumes made (links edge_words.now words.now) reals.now from × ResumesAt made (links edge_words.now words.now) reals.now from x)) }
    ensures distance_value { result.distance ≡ from_head made (links edge_words.now words.now) reals.now from.edge x d }
    ensures resumes { Resumes made (links edge_words.now words.now) reals.now result.cursor }
{
    let mut passed = Passed {
        least: 0.0 / 0.0,
        short: from.link,
    };
    let mut cursor = from;
    let mut bound = from.place;
    let mut before = from.link;
    let mut left = from.left;
    while 0 < left {
        let at = chains::link_at(edge_words, words, reals, made, EdgeId(from.edge), before);
        if at == 0 {
            let distance = float64::min(d, value_passed(words, reals, passed, x));
            return Resumed { distance, cursor };
        }
        let start = read_f64(reals, REALS_PER_WINDOW, at - 1, WINDOW_B0);
        if start <= x {
            passed = past(words, reals, passed, at, x);
            before = at;
            left -= 1;
            bound = float64::max(bound, start);
            cursor = cursor_past(reals, cursor, at, left, bound, x);
        } else {
            let next = float64::min(d, value(words, reals, at, x));
            let distance = float64::min(next, value_passed(words, reals, passed, x));
            return Resumed { distance, cursor };
        }
    }
    let distance = float64::min(d, value_passed(words, reals, passed, x));
    Resumed { distance, cursor }
}

// The distance at x on an edge, where so many windows are made, by a walk that begins at a cursor where it may.
pub fn distance_from(
    edge_words: &[u32],
    words: &[u32],
    reals: &[f64],
    vertex: &[f64],
    e: Edge,
    made: u32,
    cursor: Cursor,
    x: f64,
) -> Resumed
    requires { (made ≤ capacity_of (length words.now) (length reals.now)) × ((e.id.0 < slots_of (length edge_words.now) words_per_edge)
        × Resumes made (links edge_words.now words.now) reals.now cursor) }
    ensures distance_value { result.distance ≡ edge_distance_in vertex.now (links edge_words.now words.now) reals.now made e x }
    ensures resumes { Resumes made (links edge_words.now words.now) reals.now result.cursor }
{
    let da = actions::distance(vertex, e.a);
    let db = actions::distance(vertex, e.b);
    let d = of_face_distance::through_ends(da, db, e.len, x);
    let from = cursor_for(cursor, e.id, made, x);
    least_on_chain(edge_words, words, reals, from, made, x, d)
}
