// Refusals 10 to 15 and 17 leave every buffer zero: a job's buffers are zeroed, group by group, where its work stopped, and else they stay as they are.
#![tactic(auto)]

ghost use Rattle.std.specs.Prelude.{◌≡◌};
ghost use Rattle.buffers.specs.Lent.{given, left};
ghost use Rattle.cut_lists.specs.Buffers.{cuts_before, cuts_after};
ghost use Rattle.mesh.specs.Topology.{before, after};
ghost use Rattle.zero_buffers.specs.ZeroIf.{words_if, reals_if, mesh_if, cuts_if};

pub fn zero_words_if(stop: bool, s: &mut [u32])
    ensures { left s ≡ words_if stop (given s) }
{
    if stop {
        buffers::zero_u32(s);
    }
}

pub fn zero_reals_if(stop: bool, s: &mut [f64])
    ensures { left s ≡ reals_if stop (given s) }
{
    if stop {
        buffers::zero_f64(s);
    }
}

pub fn zero_mesh_if(
    stop: bool,
    vertex_words: &mut [u32],
    edge_words: &mut [u32],
    edge_reals: &mut [f64],
    round: &mut [u32],
    triangle_words: &mut [u32],
    triangle_reals: &mut [f64],
)
    ensures { after vertex_words edge_words edge_reals round triangle_words triangle_reals
        ≡ mesh_if stop (before vertex_words edge_words edge_reals round triangle_words triangle_reals) }
{
    zero_words_if(stop, vertex_words);
    zero_words_if(stop, edge_words);
    zero_reals_if(stop, edge_reals);
    zero_words_if(stop, round);
    zero_words_if(stop, triangle_words);
    zero_reals_if(stop, triangle_reals);
}

// The pieces' buffer and the vertices' distances.
pub fn zero_pieces_if(
    stop: bool,
    piece_words: &mut [u32],
    piece_reals: &mut [f64],
    vertex: &mut [f64],
)
    ensures piece_words_value { left piece_words ≡ words_if stop (given piece_words) }
    ensures piece_reals_value { left piece_reals ≡ reals_if stop (given piece_reals) }
    ensures vertex_value { left vertex ≡ reals_if stop (given vertex) }
{
    zero_words_if(stop, piece_words);
    zero_reals_if(stop, piece_reals);
    zero_reals_if(stop, vertex);
}

// The windows and the queue.
pub fn zero_windows_if(
    stop: bool,
    words: &mut [u32],
    reals: &mut [f64],
    keys: &mut [f64],
    events: &mut [u32],
)
    ensures words_value { left words ≡ words_if stop (given words) }
    ensures reals_value { left reals ≡ reals_if stop (given reals) }
    ensures keys_value { left keys ≡ reals_if stop (given keys) }
    ensures events_value { left events ≡ words_if stop (given events) }
{
    zero_words_if(stop, words);
    zero_reals_if(stop, reals);
    zero_reals_if(stop, keys);
    zero_words_if(stop, events);
}

pub fn zero_cuts_if(
    stop: bool,
    pts: &mut [f64],
    out: &mut [f64],
    keep: &mut [f64],
    next: &mut [f64],
)
    ensures { cuts_after pts out keep next ≡ cuts_if stop (cuts_before pts out keep next) }
{
    zero_reals_if(stop, pts);
    zero_reals_if(stop, out);
    zero_reals_if(stop, keep);
    zero_reals_if(stop, next);
}
