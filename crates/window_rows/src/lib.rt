// Rows of questions for the windows at places in edges' lists: refusal 20 is tried once, and each answer is that of the single query. Of answer k, element k of `numbers` has the number
// and element k of `ids` the window's own number; slot k of `window_words` and `window_reals` has the window, as a window buffer has it (crate `layout`). A question that is refused has
// its number and 0 for its window, and its slot is left as it was; the others are answered all the same.
#![tactic(auto)]

ghost use Rattle.std.specs.Prelude.{◌≡◌, ◌≤◌, ◌<◌, length};
ghost use Rattle.layout.specs.Layout.{words_per_edge};
ghost use Rattle.buffers.specs.Slots.{slots_of};
ghost use Rattle.buffers.specs.Lent.{given, left};
ghost use Rattle.windows.specs.Windows.{capacity_of};
ghost use Rattle.query_rows.specs.of_field_check.FieldCheck.{job_slices, field_slices};
ghost use Rattle.open_rows.specs.Written.{written_row};
ghost use Rattle.window_rows.specs.WindowRows.{window_id, words_put, reals_put, stored_row, window_numbers, window_ids, window_words_of, window_reals_of, window_result, window_row};

use buffers::{EdgeId, WindowId, read_u32, slots, write_u32};
use computed::{Computed, Field};
use layout::{REALS_PER_WINDOW, WORDS_PER_WINDOW};
pub use query_rows as of_query_rows;
pub use query_rows::of_queries as of_queries;
use query_rows::of_queries::{ListedWindow, WindowRefusal};
use query_rows::{RowRefusal, of_field_check};

fn window_id(answer: Result<ListedWindow, WindowRefusal>) -> u32
    ensures { result ≡ window_id answer }
{
    match answer {
        Ok(listed) => listed.id.0,
        Err(_) => 0,
    }
}

fn put_window(
    window_words: &mut [u32],
    window_reals: &mut [f64],
    slot: WindowId,
    answer: Result<ListedWindow, WindowRefusal>,
)
    requires { slot.0 < capacity_of (length window_words.old) (length window_reals.old) }
    ensures { (left window_words ≡ words_put answer slot.0 (given window_words)) × (left window_reals ≡ reals_put answer slot.0 (given window_reals)) }
{
    if let Ok(listed) = answer {
        windows::store(window_words, window_reals, slot, listed.window);
    }
}

fn answer_windows(
    n: Field,
    edge_words: &[u32],
    edge_reals: &[f64],
    triangle_words: &[u32],
    triangle_reals: &[f64],
    vertex: &[f64],
    words: &[u32],
    reals: &[f64],
    entry_words: &[u32],
    edges: &[u32],
    places: &[u32],
    count: u32,
    numbers: &mut [u32],
    ids: &mut [u32],
    window_words: &mut [u32],
    window_reals: &mut [f64],
)
    requires { (n.edges ≤ slots_of (length edge_words.now) words_per_edge) ×
        ((n.windows ≤ capacity_of (length words.now) (length reals.now)) × (count ≤ capacity_of (length window_words.old) (length window_reals.old))) }
    ensures numbers_value { left numbers ≡ written_row (window_numbers n
        (field_slices edge_words.now edge_reals.now triangle_words.now triangle_reals.now vertex.now words.now reals.now entry_words.now) edges.now
        places.now) count (given numbers) }
    ensures ids_value { left ids ≡ written_row (window_ids n (field_slices edge_words.now edge_reals.now triangle_words.now triangle_reals.now vertex.now words.now
        reals.now entry_words.now) edges.now places.now) count (given ids) }
    ensures window_words_value { left window_words ≡ stored_row (window_words_of n
        (field_slices edge_words.now edge_reals.now triangle_words.now triangle_reals.now vertex.now words.now reals.now entry_words.now) edges.now
        places.now) count (given window_words) }
    ensures window_reals_value { left window_reals ≡ stored_row (window_reals_of n
        (field_slices edge_words.now edge_reals.now triangle_words.now triangle_reals.now vertex.now words.now reals.now entry_words.now) edges.now
        places.now) count (given window_reals) }
{
    for i in 0..count {
        let e = EdgeId(read_u32(edges, 1, i, 0));
        let place = read_u32(places, 1, i, 0);
        let answer = of_queries::window_answer(
            n,
            edge_words,
            edge_reals,
            triangle_words,
            triangle_reals,
            vertex,
            words,
            reals,
            entry_words,
            e,
            place,
        );
        let number = of_queries::window_number(answer);
        write_u32(numbers, 1, i, 0, number);
        let id = window_id(answer);
        write_u32(ids, 1, i, 0, id);
        put_window(window_words, window_reals, WindowId(i), answer);
    }
}

// The windows at places in edges' lists.
pub fn windows_at(
    computed: Computed,
    vertices: &[f64],
    triangles: &[u32],
    kinds: &[u8],
    faces: &[u32],
    coords: &[f64],
    edge_words: &[u32],
    edge_reals: &[f64],
    triangle_words: &[u32],
    triangle_reals: &[f64],
    vertex: &[f64],
    words: &[u32],
    reals: &[f64],
    entry_words: &[u32],
    edges: &[u32],
    places: &[u32],
    numbers: &mut [u32],
    ids: &mut [u32],
    window_words: &mut [u32],
    window_reals: &mut [f64],
) -> Result<(), RowRefusal>
    ensures { window_result result (left numbers) (left ids) (left window_words) (left window_reals) ≡ window_row
        (job_slices vertices.now triangles.now kinds.now faces.now coords.now)
        (field_slices edge_words.now edge_reals.now triangle_words.now triangle_reals.now vertex.now words.now reals.now entry_words.now) (given numbers)
        (given ids) (given window_words) (given window_reals) computed edges.now places.now }
{
    let Computed::Field(n) = computed else {
        return Err(RowRefusal::NoField);
    };
    if of_field_check::is_unsound(
        n,
        vertices,
        triangles,
        kinds,
        faces,
        coords,
        edge_words,
        edge_reals,
        triangle_words,
        triangle_reals,
        vertex,
        words,
        reals,
        entry_words,
    ) {
        return Err(RowRefusal::NoField);
    }
    let count = slots(edges.len(), 1);
    let others = slots(places.len(), 1);
    let room = slots(numbers.len(), 1);
    let rest = slots(ids.len(), 1);
    if query_rows::short_for(count, others, room, rest) {
        return Err(RowRefusal::ShortRow);
    }
    let held = buffers::count(
        window_words.len(),
        WORDS_PER_WINDOW,
        window_reals.len(),
        REALS_PER_WINDOW,
    );
    if held < count {
        return Err(RowRefusal::ShortRow);
    }
    answer_windows(
        n,
        edge_words,
        edge_reals,
        triangle_words,
        triangle_reals,
        vertex,
        words,
        reals,
        entry_words,
        edges,
        places,
        count,
        numbers,
        ids,
        window_words,
        window_reals,
    );
    Ok(())
}
