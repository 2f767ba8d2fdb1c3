// The static library of advance_c: `sirmolaat_advance` and `sirmolaat_finish` as programs in C and Rust call them.
#![tactic(auto)]

ghost use Rattle.advance_c.specs.of_cut_lists.Buffers.{cuts_before, cuts_after};
ghost use Rattle.advance_c.specs.of_trim.Buffers.{before, after, slices};
ghost use Rattle.advance_c.specs.Turns.{TurnsAnswer, FinishAnswer};

// At most `most` turns in a mesh of n vertices. `told` has the windows made and the events queued, before and after, and the steps of these turns; fewer steps than `most`: no event waits.
// The answer is 0, or 12 to 14: the job is refused, and its slices are then as they happen to be.
#[unsafe(no_mangle)]
pub extern "C" fn sirmolaat_advance(
    limit: f64,
    n: u32,
    most: u32,
    vertices: &[f64],
    triangles: &[u32],
    vertex_words: &[u32],
    edge_reals: &[f64],
    round: &[u32],
    triangle_words: &[u32],
    triangle_reals: &[f64],
    edge_words: &mut [u32],
    vertex: &mut [f64],
    words: &mut [u32],
    reals: &mut [f64],
    keys: &mut [f64],
    events: &mut [u32],
    pts: &mut [f64],
    out: &mut [f64],
    keep: &mut [f64],
    next: &mut [f64],
    told: &mut [u32],
) -> u32
    ensures { TurnsAnswer limit n most vertices.now triangles.now vertex_words.now round.now edge_reals.now triangle_words.now triangle_reals.now
        told.old (before edge_words words reals keys events vertex) (cuts_before pts out keep next)
        result (after edge_words words reals keys events vertex) (cuts_after pts out keep next) told.new }
{
    advance_c::sirmolaat_advance(
        limit,
        n,
        most,
        vertices,
        triangles,
        vertex_words,
        edge_reals,
        round,
        triangle_words,
        triangle_reals,
        edge_words,
        vertex,
        words,
        reals,
        keys,
        events,
        pts,
        out,
        keep,
        next,
        told,
    )
}

// The end of a job whose queue is empty: the last pass over its vertices, and zeros in what is no part of a field.
#[unsafe(no_mangle)]
pub extern "C" fn sirmolaat_finish(
    edges: u32,
    made: u32,
    edge_reals: &[f64],
    words: &[u32],
    reals: &[f64],
    edge_words: &mut [u32],
    vertex: &mut [f64],
    keys: &mut [f64],
    events: &mut [u32],
    pts: &mut [f64],
    out: &mut [f64],
    keep: &mut [f64],
    next: &mut [f64],
) -> u32
    ensures { FinishAnswer edges made edge_reals.now
        (slices edge_words.old words.now reals.now keys.old events.old vertex.old) (cuts_before pts out keep next)
        result (slices edge_words.new words.now reals.now keys.new events.new vertex.new) (cuts_after pts out keep next) }
{
    advance_c::sirmolaat_finish(
        edges, made, edge_reals, words, reals, edge_words, vertex, keys, events, pts, out, keep,
        next,
    )
}
