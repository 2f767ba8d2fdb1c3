// Rows of questions to a field, for programs in C and Rust. `refusal` and `told` are what the whole job answered: 0 and the field's counts, or a refusal's number.
#![tactic(auto)]

ghost use Rattle.std.specs.Prelude.{◌≡◌};
ghost use Rattle.window_rows.specs.of_field_check.FieldCheck.{job_slices, field_slices};
ghost use Rattle.window_rows.specs.of_queries.Told.{told_answer};
ghost use Rattle.window_rows.specs.of_query_rows.Rows.{face_row, edge_row, vertex_row};
ghost use Rattle.window_rows.specs.WindowRows.{window_row};
ghost use Rattle.query_c.specs.Exports.{told_row, told_windows};

use window_rows::of_queries::told_answer;
use window_rows::of_query_rows;
use window_rows::of_query_rows::row_number;

// The distances at points of faces: the number and the distance of each question are written, the row's own number is answered.
#[unsafe(no_mangle)]
pub extern "C" fn sirmolaat_faces_at(
    refusal: u32,
    told: &[u32],
    vertices: &[f64],
    triangles: &[u32],
    kinds: &[u8],
    faces: &[u32],
    coords: &[f64],
    edge_words: &[u32],
    edge_reals: &[f64],
    triangle_words: &[u32],
    triangle_reals: &[f64],
    vertex: &[f64],
    words: &[u32],
    reals: &[f64],
    entry_words: &[u32],
    asked: &[u32],
    points: &[f64],
    numbers: &mut [u32],
    distances: &mut [f64],
) -> u32
    ensures { (result, (numbers.new, distances.new)) ≡ told_row (face_row (job_slices vertices.now triangles.now kinds.now faces.now coords.now)
        (field_slices edge_words.now edge_reals.now triangle_words.now triangle_reals.now vertex.now words.now reals.now entry_words.now) numbers.old
        distances.old (told_answer refusal told.now) asked.now points.now) }
{
    let computed = told_answer(refusal, told);
    let answer = of_query_rows::faces_at(
        computed,
        vertices,
        triangles,
        kinds,
        faces,
        coords,
        edge_words,
        edge_reals,
        triangle_words,
        triangle_reals,
        vertex,
        words,
        reals,
        entry_words,
        asked,
        points,
        numbers,
        distances,
    );
    row_number(answer)
}

// The distances at places on edges.
#[unsafe(no_mangle)]
pub extern "C" fn sirmolaat_edges_at(
    refusal: u32,
    told: &[u32],
    vertices: &[f64],
    triangles: &[u32],
    kinds: &[u8],
    faces: &[u32],
    coords: &[f64],
    edge_words: &[u32],
    edge_reals: &[f64],
    triangle_words: &[u32],
    triangle_reals: &[f64],
    vertex: &[f64],
    words: &[u32],
    reals: &[f64],
    entry_words: &[u32],
    edges: &[u32],
    places: &[f64],
    numbers: &mut [u32],
    distances: &mut [f64],
) -> u32
    ensures { (result, (numbers.new, distances.new)) ≡ told_row (edge_row (job_slices vertices.now triangles.now kinds.now faces.now coords.now)
        (field_slices edge_words.now edge_reals.now triangle_words.now triangle_reals.now vertex.now words.now reals.now entry_words.now) numbers.old
        distances.old (told_answer refusal told.now) edges.now places.now) }
{
    let computed = told_answer(refusal, told);
    let answer = of_query_rows::edges_at(
        computed,
        vertices,
        triangles,
        kinds,
        faces,
        coords,
        edge_words,
        edge_reals,
        triangle_words,
        triangle_reals,
        vertex,
        words,
        reals,
        entry_words,
        edges,
        places,
        numbers,
        distances,
    );
    row_number(answer)
}

// The distances of vertices.
#[unsafe(no_mangle)]
pub extern "C" fn sirmolaat_vertices_at(
    refusal: u32,
    told: &[u32],
    vertices: &[f64],
    triangles: &[u32],
    kinds: &[u8],
    faces: &[u32],
    coords: &[f64],
    edge_words: &[u32],
    edge_reals: &[f64],
    triangle_words: &[u32],
    triangle_reals: &[f64],
    vertex: &[f64],
    words: &[u32],
    reals: &[f64],
    entry_words: &[u32],
    asked: &[u32],
    numbers: &mut [u32],
    distances: &mut [f64],
) -> u32
    ensures { (result, (numbers.new, distances.new)) ≡ told_row (vertex_row (job_slices vertices.now triangles.now kinds.now faces.now coords.now)
        (field_slices edge_words.now edge_reals.now triangle_words.now triangle_reals.now vertex.now words.now reals.now entry_words.now) numbers.old
        distances.old (told_answer refusal told.now) asked.now) }
{
    let computed = told_answer(refusal, told);
    let answer = of_query_rows::vertices_at(
        computed,
        vertices,
        triangles,
        kinds,
        faces,
        coords,
        edge_words,
        edge_reals,
        triangle_words,
        triangle_reals,
        vertex,
        words,
        reals,
        entry_words,
        asked,
        numbers,
        distances,
    );
    row_number(answer)
}

// The windows at places in edges' lists: the number of each question, the number of its window and the window itself are written.
#[unsafe(no_mangle)]
pub extern "C" fn sirmolaat_windows_at(
    refusal: u32,
    told: &[u32],
    vertices: &[f64],
    triangles: &[u32],
    kinds: &[u8],
    faces: &[u32],
    coords: &[f64],
    edge_words: &[u32],
    edge_reals: &[f64],
    triangle_words: &[u32],
    triangle_reals: &[f64],
    vertex: &[f64],
    words: &[u32],
    reals: &[f64],
    entry_words: &[u32],
    edges: &[u32],
    places: &[u32],
    numbers: &mut [u32],
    ids: &mut [u32],
    window_words: &mut [u32],
    window_reals: &mut [f64],
) -> u32
    ensures { (result, (numbers.new, (ids.new, (window_words.new, window_reals.new)))) ≡ told_windows
        (window_row (job_slices vertices.now triangles.now kinds.now faces.now coords.now)
        (field_slices edge_words.now edge_reals.now triangle_words.now triangle_reals.now vertex.now words.now reals.now entry_words.now) numbers.old
        ids.old window_words.old window_reals.old (told_answer refusal told.now) edges.now places.now) }
{
    let computed = told_answer(refusal, told);
    let answer = window_rows::windows_at(
        computed,
        vertices,
        triangles,
        kinds,
        faces,
        coords,
        edge_words,
        edge_reals,
        triangle_words,
        triangle_reals,
        vertex,
        words,
        reals,
        entry_words,
        edges,
        places,
        numbers,
        ids,
        window_words,
        window_reals,
    );
    row_number(answer)
}
