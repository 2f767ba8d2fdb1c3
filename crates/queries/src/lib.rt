// Document 01's queries of a field: the distance at a point of a face (the Rust's `at`), at a place on an edge (`edge_at`) and of a vertex, and the window at a place in an edge's
// list. Each takes the job's answer by value, the job's mesh and pieces again and the buffers of the field, all for reading only, and tries refusal 20 before anything else. The
// functions that end in `_answer` give the answers of a field that passed it.
#![tactic(auto)]

ghost use Rattle.std.specs.Prelude.{◌≡◌, ◌≤◌, ◌<◌, length};
ghost use Rattle.layout.specs.Layout.{words_per_edge};
ghost use Rattle.buffers.specs.Slots.{slots_of};
ghost use Rattle.windows.specs.Windows.{capacity_of};
ghost use Rattle.chains.specs.Chains.{links};
ghost use Rattle.job_checks.specs.Refusals.{out_of_range};
ghost use Rattle.edge_query.specs.of_last_pass.Buffers.{chain_behind};
ghost use Rattle.edge_query.specs.Resume.{Resumes};
ghost use Rattle.field_check.specs.FieldCheck.{job_slices, field_slices};
ghost use Rattle.queries.specs.Answers.{face_answer_number, edge_answer_number, vertex_answer_number, window_answer_number, face_value, edge_value, vertex_value};
ghost use Rattle.queries.specs.Queries.{point_outside, place_outside, place_link, linked_window, face_answer, edge_answer, vertex_answer, window_answer, face_query, edge_query, vertex_query, window_query};
ghost use Rattle.queries.specs.Told.{told_field, told_answer};

use buffers::{EdgeId, FaceId, VertexId, WindowId, read_u32};
use computed::{Computed, Field};
pub use edge_query as of_edge_query;
use edge_query::Cursor;
pub use field_check as of_field_check;
pub use field_check::of_mesh_readers as of_mesh_readers;
use vec3::Vec3;
use windows::WindowRecord;

// What refuses each query: `face_answer_number`, `edge_answer_number`, `vertex_answer_number` and `window_answer_number` of specs/ give each case its number.
#[derive(Clone, Copy, Debug, PartialEq, Eq)]
pub enum FaceRefusal {
    NoField,
    MissingFace,
    PointOutOfRange,
}

#[derive(Clone, Copy, Debug, PartialEq, Eq)]
pub enum EdgeRefusal {
    NoField,
    MissingEdge,
    PlaceOutside,
}

#[derive(Clone, Copy, Debug, PartialEq, Eq)]
pub enum VertexRefusal {
    NoField,
    MissingVertex,
}

#[derive(Clone, Copy, Debug, PartialEq, Eq)]
pub enum WindowRefusal {
    NoField,
    MissingEdge,
    PastEnd,
}

// An answer with the cursor that the walk for the next may begin at.
#[derive(Clone, Copy)]
pub struct ResumedAnswer {
    pub answer: Result<f64, EdgeRefusal>,
    pub cursor: Cursor,
}

// A window with its number.
#[derive(Clone, Copy)]
pub struct ListedWindow {
    pub id: WindowId,
    pub window: WindowRecord,
}

// An answer's number in document 01, 0 where it is no refusal.
pub fn face_number(answer: Result<f64, FaceRefusal>) -> u32
    ensures { result ≡ face_answer_number answer }
{
    match answer {
        Ok(_) => 0,
        Err(FaceRefusal::NoField) => 20,
        Err(FaceRefusal::MissingFace) => 21,
        Err(FaceRefusal::PointOutOfRange) => 22,
    }
}

pub fn edge_number(answer: Result<f64, EdgeRefusal>) -> u32
    ensures { result ≡ edge_answer_number answer }
{
    match answer {
        Ok(_) => 0,
        Err(EdgeRefusal::NoField) => 20,
        Err(EdgeRefusal::MissingEdge) => 23,
        Err(EdgeRefusal::PlaceOutside) => 24,
    }
}

pub fn vertex_number(answer: Result<f64, VertexRefusal>) -> u32
    ensures { result ≡ vertex_answer_number answer }
{
    match answer {
        Ok(_) => 0,
        Err(VertexRefusal::NoField) => 20,
        Err(VertexRefusal::MissingVertex) => 25,
    }
}

pub fn window_number(answer: Result<ListedWindow, WindowRefusal>) -> u32
    ensures { result ≡ window_answer_number answer }
{
    match answer {
        Ok(_) => 0,
        Err(WindowRefusal::NoField) => 20,
        Err(WindowRefusal::MissingEdge) => 23,
        Err(WindowRefusal::PastEnd) => 26,
    }
}

// Its distance, a NaN of a refusal.
pub fn face_value(answer: Result<f64, FaceRefusal>) -> f64
    ensures { result ≡ face_value answer }
{
    answer.unwrap_or(f64::NAN)
}

pub fn edge_value(answer: Result<f64, EdgeRefusal>) -> f64
    ensures { result ≡ edge_value answer }
{
    answer.unwrap_or(f64::NAN)
}

pub fn vertex_value(answer: Result<f64, VertexRefusal>) -> f64
    ensures { result ≡ vertex_value answer }
{
    answer.unwrap_or(f64::NAN)
}

// A NaN fails every comparison, so what is tested is what must hold.
fn out_of_range(x: f64) -> bool
    ensures { result ≡ out_of_range x }
{
    if -1_000_000.0 <= x {
        if x <= 1_000_000.0 {
            return false;
        }
        return true;
    }
    true
}

#[tactic(auto, unfolding(crate::specs::Queries::point_outside))]
fn point_outside(p: Vec3) -> bool
    ensures { result ≡ point_outside p }
{
    out_of_range(p.x) || out_of_range(p.y) || out_of_range(p.z)
}

fn place_outside(len: f64, x: f64) -> bool
    ensures { result ≡ place_outside len x }
{
    if 0.0 <= x {
        if x <= len {
            return false;
        }
        return true;
    }
    true
}

pub fn face_answer(
    n: Field,
    vertices: &[f64],
    triangles: &[u32],
    kinds: &[u8],
    faces: &[u32],
    coords: &[f64],
    edge_words: &[u32],
    edge_reals: &[f64],
    triangle_words: &[u32],
    triangle_reals: &[f64],
    vertex: &[f64],
    words: &[u32],
    reals: &[f64],
    entry_words: &[u32],
    f: FaceId,
    p: Vec3,
) -> Result<f64, FaceRefusal>
    requires { (n.edges ≤ slots_of (length edge_words.now) words_per_edge) × (n.windows ≤ capacity_of (length words.now) (length reals.now)) }
    ensures { result ≡ face_answer n (field_slices edge_words.now edge_reals.now triangle_words.now triangle_reals.now vertex.now words.now reals.now
        entry_words.now) (job_slices vertices.now triangles.now kinds.now faces.now coords.now) f.0 p }
{
    if n.triangles <= f.0 {
        return Err(FaceRefusal::MissingFace);
    }
    if point_outside(p) {
        return Err(FaceRefusal::PointOutOfRange);
    }
    let d = face_query::distance_in_face(
        vertices,
        triangles,
        coords,
        edge_words,
        edge_reals,
        triangle_words,
        triangle_reals,
        vertex,
        words,
        reals,
        entry_words,
        n.windows,
        f,
        p,
    );
    Ok(d)
}

// The answer by a walk that begins at a cursor where it may.
pub fn edge_answer_from(
    n: Field,
    edge_words: &[u32],
    edge_reals: &[f64],
    triangle_words: &[u32],
    triangle_reals: &[f64],
    vertex: &[f64],
    words: &[u32],
    reals: &[f64],
    entry_words: &[u32],
    cursor: Cursor,
    e: EdgeId,
    x: f64,
) -> ResumedAnswer
    requires { (n.edges ≤ slots_of (length edge_words.now) words_per_edge) × ((n.windows ≤ capacity_of (length words.now) (length reals.now))
        × Resumes n.windows (links edge_words.now words.now) reals.now cursor) }
    ensures answer_value { result.answer ≡ edge_answer n (field_slices edge_words.now edge_reals.now triangle_words.now triangle_reals.now vertex.now words.now reals.now
        entry_words.now) e.0 x }
    ensures resumes { Resumes n.windows (links edge_words.now words.now) reals.now result.cursor }
{
    if n.edges <= e.0 {
        return ResumedAnswer {
            answer: Err(EdgeRefusal::MissingEdge),
            cursor,
        };
    }
    if place_outside(of_mesh_readers::length(edge_reals, e), x) {
        return ResumedAnswer {
            answer: Err(EdgeRefusal::PlaceOutside),
            cursor,
        };
    }
    let edge = of_mesh_readers::edge(edge_words, edge_reals, e);
    let resumed = edge_query::distance_from(
        edge_words, words, reals, vertex, edge, n.windows, cursor, x,
    );
    ResumedAnswer {
        answer: Ok(resumed.distance),
        cursor: resumed.cursor,
    }
}

pub fn edge_answer(
    n: Field,
    edge_words: &[u32],
    edge_reals: &[f64],
    triangle_words: &[u32],
    triangle_reals: &[f64],
    vertex: &[f64],
    words: &[u32],
    reals: &[f64],
    entry_words: &[u32],
    e: EdgeId,
    x: f64,
) -> Result<f64, EdgeRefusal>
    requires { (n.edges ≤ slots_of (length edge_words.now) words_per_edge) × (n.windows ≤ capacity_of (length words.now) (length reals.now)) }
    ensures { result ≡ edge_answer n (field_slices edge_words.now edge_reals.now triangle_words.now triangle_reals.now vertex.now words.now reals.now
        entry_words.now) e.0 x }
{
    let head = edge_query::head_cursor(e, n.windows);
    let resumed = edge_answer_from(
        n,
        edge_words,
        edge_reals,
        triangle_words,
        triangle_reals,
        vertex,
        words,
        reals,
        entry_words,
        head,
        e,
        x,
    );
    resumed.answer
}

pub fn vertex_answer(
    n: Field,
    edge_words: &[u32],
    edge_reals: &[f64],
    triangle_words: &[u32],
    triangle_reals: &[f64],
    vertex: &[f64],
    words: &[u32],
    reals: &[f64],
    entry_words: &[u32],
    k: VertexId,
) -> Result<f64, VertexRefusal>
    ensures { result ≡ vertex_answer n (field_slices edge_words.now edge_reals.now triangle_words.now triangle_reals.now vertex.now words.now reals.now
        entry_words.now) k.0 }
{
    if n.vertices <= k.0 {
        return Err(VertexRefusal::MissingVertex);
    }
    Ok(actions::distance(vertex, k))
}

// The link of the window at a place in the list of an edge, 0 past its end.
fn place_link(
    edge_words: &[u32],
    words: &[u32],
    reals: &[f64],
    e: EdgeId,
    made: u32,
    place: u32,
) -> u32
    requires { (made ≤ capacity_of (length words.now) (length reals.now)) × (e.0 < slots_of (length edge_words.now) words_per_edge) }
    ensures value { result ≡ place_link place (chain_behind made (links edge_words.now words.now) e.0 made 0) }
    ensures upper_bound { result ≤ made }
{
    let mut before = 0;
    let mut left = made;
    let mut skip = place;
    while 0 < left {
        let at = chains::link_at(edge_words, words, reals, made, e, before);
        if at == 0 {
            return 0;
        }
        if skip == 0 {
            return at;
        }
        before = at;
        left -= 1;
        skip -= 1;
    }
    0
}

fn linked_window(words: &[u32], reals: &[f64], link: u32) -> Result<ListedWindow, WindowRefusal>
    requires { link ≤ capacity_of (length words.now) (length reals.now) }
    ensures { result ≡ linked_window words.now reals.now link }
{
    if link == 0 {
        return Err(WindowRefusal::PastEnd);
    }
    let id = WindowId(link - 1);
    let window = windows::load(words, reals, id);
    Ok(ListedWindow { id, window })
}

pub fn window_answer(
    n: Field,
    edge_words: &[u32],
    edge_reals: &[f64],
    triangle_words: &[u32],
    triangle_reals: &[f64],
    vertex: &[f64],
    words: &[u32],
    reals: &[f64],
    entry_words: &[u32],
    e: EdgeId,
    place: u32,
) -> Result<ListedWindow, WindowRefusal>
    requires { (n.edges ≤ slots_of (length edge_words.now) words_per_edge) × (n.windows ≤ capacity_of (length words.now) (length reals.now)) }
    ensures { result ≡ window_answer n (field_slices edge_words.now edge_reals.now triangle_words.now triangle_reals.now vertex.now words.now reals.now
        entry_words.now) e.0 place }
{
    if n.edges <= e.0 {
        return Err(WindowRefusal::MissingEdge);
    }
    let link = place_link(edge_words, words, reals, e, n.windows, place);
    linked_window(words, reals, link)
}

// The distance at a point of a face.
pub fn face_at(
    computed: Computed,
    vertices: &[f64],
    triangles: &[u32],
    kinds: &[u8],
    faces: &[u32],
    coords: &[f64],
    edge_words: &[u32],
    edge_reals: &[f64],
    triangle_words: &[u32],
    triangle_reals: &[f64],
    vertex: &[f64],
    words: &[u32],
    reals: &[f64],
    entry_words: &[u32],
    f: FaceId,
    p: Vec3,
) -> Result<f64, FaceRefusal>
    ensures { result ≡ face_query (job_slices vertices.now triangles.now kinds.now faces.now coords.now)
        (field_slices edge_words.now edge_reals.now triangle_words.now triangle_reals.now vertex.now words.now reals.now entry_words.now) computed f.0 p }
{
    let Computed::Field(n) = computed else {
        return Err(FaceRefusal::NoField);
    };
    if field_check::is_unsound(
        n,
        vertices,
        triangles,
        kinds,
        faces,
        coords,
        edge_words,
        edge_reals,
        triangle_words,
        triangle_reals,
        vertex,
        words,
        reals,
        entry_words,
    ) {
        return Err(FaceRefusal::NoField);
    }
    face_answer(
        n,
        vertices,
        triangles,
        kinds,
        faces,
        coords,
        edge_words,
        edge_reals,
        triangle_words,
        triangle_reals,
        vertex,
        words,
        reals,
        entry_words,
        f,
        p,
    )
}

// The distance at a place on an edge.
pub fn edge_at(
    computed: Computed,
    vertices: &[f64],
    triangles: &[u32],
    kinds: &[u8],
    faces: &[u32],
    coords: &[f64],
    edge_words: &[u32],
    edge_reals: &[f64],
    triangle_words: &[u32],
    triangle_reals: &[f64],
    vertex: &[f64],
    words: &[u32],
    reals: &[f64],
    entry_words: &[u32],
    e: EdgeId,
    x: f64,
) -> Result<f64, EdgeRefusal>
    ensures { result ≡ edge_query (job_slices vertices.now triangles.now kinds.now faces.now coords.now)
        (field_slices edge_words.now edge_reals.now triangle_words.now triangle_reals.now vertex.now words.now reals.now entry_words.now) computed e.0 x }
{
    let Computed::Field(n) = computed else {
        return Err(EdgeRefusal::NoField);
    };
    if field_check::is_unsound(
        n,
        vertices,
        triangles,
        kinds,
        faces,
        coords,
        edge_words,
        edge_reals,
        triangle_words,
        triangle_reals,
        vertex,
        words,
        reals,
        entry_words,
    ) {
        return Err(EdgeRefusal::NoField);
    }
    edge_answer(
        n,
        edge_words,
        edge_reals,
        triangle_words,
        triangle_reals,
        vertex,
        words,
        reals,
        entry_words,
        e,
        x,
    )
}

// The distance of a vertex.
pub fn vertex_at(
    computed: Computed,
    vertices: &[f64],
    triangles: &[u32],
    kinds: &[u8],
    faces: &[u32],
    coords: &[f64],
    edge_words: &[u32],
    edge_reals: &[f64],
    triangle_words: &[u32],
    triangle_reals: &[f64],
    vertex: &[f64],
    words: &[u32],
    reals: &[f64],
    entry_words: &[u32],
    k: VertexId,
) -> Result<f64, VertexRefusal>
    ensures { result ≡ vertex_query (job_slices vertices.now triangles.now kinds.now faces.now coords.now)
        (field_slices edge_words.now edge_reals.now triangle_words.now triangle_reals.now vertex.now words.now reals.now entry_words.now) computed k.0 }
{
    let Computed::Field(n) = computed else {
        return Err(VertexRefusal::NoField);
    };
    if field_check::is_unsound(
        n,
        vertices,
        triangles,
        kinds,
        faces,
        coords,
        edge_words,
        edge_reals,
        triangle_words,
        triangle_reals,
        vertex,
        words,
        reals,
        entry_words,
    ) {
        return Err(VertexRefusal::NoField);
    }
    vertex_answer(
        n,
        edge_words,
        edge_reals,
        triangle_words,
        triangle_reals,
        vertex,
        words,
        reals,
        entry_words,
        k,
    )
}

// The window at a place in an edge's list.
pub fn window_at(
    computed: Computed,
    vertices: &[f64],
    triangles: &[u32],
    kinds: &[u8],
    faces: &[u32],
    coords: &[f64],
    edge_words: &[u32],
    edge_reals: &[f64],
    triangle_words: &[u32],
    triangle_reals: &[f64],
    vertex: &[f64],
    words: &[u32],
    reals: &[f64],
    entry_words: &[u32],
    e: EdgeId,
    place: u32,
) -> Result<ListedWindow, WindowRefusal>
    ensures { result ≡ window_query (job_slices vertices.now triangles.now kinds.now faces.now coords.now)
        (field_slices edge_words.now edge_reals.now triangle_words.now triangle_reals.now vertex.now words.now reals.now entry_words.now) computed
        e.0 place }
{
    let Computed::Field(n) = computed else {
        return Err(WindowRefusal::NoField);
    };
    if field_check::is_unsound(
        n,
        vertices,
        triangles,
        kinds,
        faces,
        coords,
        edge_words,
        edge_reals,
        triangle_words,
        triangle_reals,
        vertex,
        words,
        reals,
        entry_words,
    ) {
        return Err(WindowRefusal::NoField);
    }
    window_answer(
        n,
        edge_words,
        edge_reals,
        triangle_words,
        triangle_reals,
        vertex,
        words,
        reals,
        entry_words,
        e,
        place,
    )
}

// The vertices, triangles, pieces, edges, windows and steps of a field, as a caller tells them.
pub fn told_field(told: &[u32]) -> Field
    ensures { result ≡ told_field told.now }
{
    Field {
        vertices: read_u32(told, 6, 0, 0),
        triangles: read_u32(told, 6, 0, 1),
        pieces: read_u32(told, 6, 0, 2),
        edges: read_u32(told, 6, 0, 3),
        windows: read_u32(told, 6, 0, 4),
        steps: read_u32(told, 6, 0, 5),
    }
}

// The job's answer: 0 and what it told of its field, or a refusal's number.
pub fn told_answer(refusal: u32, told: &[u32]) -> Computed
    ensures { result ≡ told_answer refusal told.now }
{
    if refusal == 0 {
        let field = told_field(told);
        return Computed::Field(field);
    }
    Computed::Refused(refusal)
}
