// The whole job, single questions to its field, slips and print-outs for programs in C and Rust, in buffers that they lend. docs/ABI.md says how they are called.
#![tactic(auto)]

ghost use Rattle.std.specs.Prelude.{◌≡◌, get_or};
ghost use Rattle.job_checks.specs.Job.{job};
ghost use Rattle.compute.specs.of_compute_spec.Compute.{buffers_before, buffers_after};
ghost use Rattle.queries.specs.of_field_check.FieldCheck.{job_slices, field_slices};
ghost use Rattle.queries.specs.Told.{told_field, told_answer};
ghost use Rattle.text_out.specs.Text.{Puts};
ghost use Rattle.print_out.specs.PrintOut.{live_count, text_of};
ghost use Rattle.slip.specs.Reading.{job_rows};
ghost use Rattle.field_c.specs.Exports.{field_told, ToldOf};
ghost use Rattle.field_c.specs.Asked.{fits, asked_face, asked_edge};
ghost use Rattle.field_c.specs.Slips.{slip_told, ReadTold, length_told, WriteTold};

use buffers::{EdgeId, FaceId, read_u32, write_f64, write_u32};
use computed::{Computed, Field};
use layout::{REALS_PER_WINDOW, WORDS_PER_EDGE, WORDS_PER_WINDOW};
use queries::{told_answer, told_field};
use slip::{SlipJob, SlipRefusal};
use vec3::Vec3;

// The number of this interface: another one where a name, the order of arguments or the layout of a buffer is another.
#[unsafe(no_mangle)]
pub extern "C" fn sirmolaat_interface() -> u32
    ensures { result ≡ 1 }
{
    1
}

// The answer is 0 for a field, else the refusal's number. Of a field the first six numbers of `told` are its vertices, triangles, pieces, edges, windows and steps.
fn tell(computed: Computed, told: &mut [u32]) -> u32
    ensures { (result, told.new) ≡ field_told computed told.old }
{
    match computed {
        Computed::Refused(number) => number,
        Computed::Field(field) => {
            write_u32(told, 6, 0, 0, field.vertices);
            write_u32(told, 6, 0, 1, field.triangles);
            write_u32(told, 6, 0, 2, field.pieces);
            write_u32(told, 6, 0, 3, field.edges);
            write_u32(told, 6, 0, 4, field.windows);
            write_u32(told, 6, 0, 5, field.steps);
            0
        }
    }
}

#[unsafe(no_mangle)]
pub extern "C" fn sirmolaat_compute(
    vertices: &[f64],
    triangles: &[u32],
    flags: &[u8],
    kinds: &[u8],
    faces: &[u32],
    coords: &[f64],
    limit: f64,
    max_steps: u32,
    vertex_words: &mut [u32],
    edge_words: &mut [u32],
    edge_reals: &mut [f64],
    round: &mut [u32],
    triangle_words: &mut [u32],
    triangle_reals: &mut [f64],
    piece_words: &mut [u32],
    piece_reals: &mut [f64],
    vertex: &mut [f64],
    words: &mut [u32],
    reals: &mut [f64],
    keys: &mut [f64],
    events: &mut [u32],
    entry_words: &mut [u32],
    pts: &mut [f64],
    out: &mut [f64],
    keep: &mut [f64],
    next: &mut [f64],
    scratch: &mut [u32],
    other_scratch: &mut [u32],
    told: &mut [u32],
) -> u32
    ensures { ToldOf (job vertices.now triangles.now flags.now kinds.now faces.now coords.now limit)
        (buffers_before vertex_words edge_words edge_reals round triangle_words triangle_reals
        piece_words piece_reals vertex words reals keys events entry_words pts out keep next scratch other_scratch) max_steps told.old result
        (buffers_after vertex_words edge_words edge_reals round triangle_words triangle_reals
        piece_words piece_reals vertex words reals keys events entry_words pts out keep next scratch other_scratch) told.new }
{
    let computed = compute::compute(
        vertices,
        triangles,
        flags,
        kinds,
        faces,
        coords,
        limit,
        max_steps,
        vertex_words,
        edge_words,
        edge_reals,
        round,
        triangle_words,
        triangle_reals,
        piece_words,
        piece_reals,
        vertex,
        words,
        reals,
        keys,
        events,
        entry_words,
        pts,
        out,
        keep,
        next,
        scratch,
        other_scratch,
    );
    tell(computed, told)
}

fn has_slots(n: Field, edge_words: usize, words: usize, reals: usize) -> bool
    ensures { result ≡ fits n edge_words words reals }
{
    if n.edges <= buffers::slots(edge_words, WORDS_PER_EDGE) {
        if n.windows <= buffers::count(words, WORDS_PER_WINDOW, reals, REALS_PER_WINDOW) {
            return true;
        }
        return false;
    }
    false
}

// The distance at a point of a face. `told` is what the job told of its field, which passed refusal 20; that is not tried again.
#[unsafe(no_mangle)]
pub extern "C" fn sirmolaat_at(
    told: &[u32],
    vertices: &[f64],
    triangles: &[u32],
    kinds: &[u8],
    faces: &[u32],
    coords: &[f64],
    edge_words: &[u32],
    edge_reals: &[f64],
    triangle_words: &[u32],
    triangle_reals: &[f64],
    vertex: &[f64],
    words: &[u32],
    reals: &[f64],
    entry_words: &[u32],
    f: u32,
    x: f64,
    y: f64,
    z: f64,
    distance: &mut [f64],
) -> u32
    ensures { (result, distance.new) ≡ asked_face (told_field told.now) (job_slices vertices.now triangles.now kinds.now faces.now coords.now)
        (field_slices edge_words.now edge_reals.now triangle_words.now triangle_reals.now vertex.now words.now reals.now entry_words.now)
        f (record { x = x; y = y; z = z }) distance.old }
{
    let face = FaceId(f);
    let point = Vec3 { x, y, z };
    let n = told_field(told);
    if has_slots(n, edge_words.len(), words.len(), reals.len()) {
        let answer = queries::face_answer(
            n,
            vertices,
            triangles,
            kinds,
            faces,
            coords,
            edge_words,
            edge_reals,
            triangle_words,
            triangle_reals,
            vertex,
            words,
            reals,
            entry_words,
            face,
            point,
        );
        write_f64(distance, 1, 0, 0, queries::face_value(answer));
        return queries::face_number(answer);
    }
    20
}

// The distance at a place on an edge, in the same way.
#[unsafe(no_mangle)]
pub extern "C" fn sirmolaat_edge_at(
    told: &[u32],
    vertices: &[f64],
    triangles: &[u32],
    kinds: &[u8],
    faces: &[u32],
    coords: &[f64],
    edge_words: &[u32],
    edge_reals: &[f64],
    triangle_words: &[u32],
    triangle_reals: &[f64],
    vertex: &[f64],
    words: &[u32],
    reals: &[f64],
    entry_words: &[u32],
    e: u32,
    x: f64,
    distance: &mut [f64],
) -> u32
    ensures { (result, distance.new) ≡ asked_edge (told_field told.now) (job_slices vertices.now triangles.now kinds.now faces.now coords.now)
        (field_slices edge_words.now edge_reals.now triangle_words.now triangle_reals.now vertex.now words.now reals.now entry_words.now)
        e x distance.old }
{
    let edge = EdgeId(e);
    let n = told_field(told);
    if has_slots(n, edge_words.len(), words.len(), reals.len()) {
        let answer = queries::edge_answer(
            n,
            edge_words,
            edge_reals,
            triangle_words,
            triangle_reals,
            vertex,
            words,
            reals,
            entry_words,
            edge,
            x,
        );
        write_f64(distance, 1, 0, 0, queries::edge_value(answer));
        return queries::edge_number(answer);
    }
    20
}

fn tell_slip(slip: Result<SlipJob, SlipRefusal>, told: &mut [u32], limit: &mut [f64]) -> u32
    ensures { (result, (told.new, limit.new)) ≡ slip_told slip told.old limit.old }
{
    match slip {
        Err(why) => slip::refusal_number(why),
        Ok(job) => {
            write_u32(told, 3, 0, 0, job.vertices);
            write_u32(told, 3, 0, 1, job.triangles);
            write_u32(told, 3, 0, 2, job.pieces);
            write_f64(limit, 1, 0, 0, job.limit);
            0
        }
    }
}

fn length_told(written: Option<usize>) -> usize
    ensures { result ≡ length_told written }
{
    match written {
        Some(n) => n,
        None => 0,
    }
}

// A slip is read to the fronts of the slices: 0, and `told` has its vertices, triangles and pieces, `limit` its limit; or 30 to 33, and nothing is written.
#[unsafe(no_mangle)]
pub extern "C" fn sirmolaat_read_slip(
    slip: &[u8],
    vertices: &mut [f64],
    triangles: &mut [u32],
    flags: &mut [u8],
    kinds: &mut [u8],
    faces: &mut [u32],
    coords: &mut [f64],
    told: &mut [u32],
    limit: &mut [f64],
) -> u32
    ensures { ReadTold slip.now (job_rows vertices.old triangles.old flags.old kinds.old faces.old coords.old) told.old limit.old
        result (job_rows vertices.new triangles.new flags.new kinds.new faces.new coords.new) told.new limit.new }
{
    let read = slip::read(slip, vertices, triangles, flags, kinds, faces, coords);
    tell_slip(read, told, limit)
}

// The slip of a job is written to the front of `out`: how many bytes it has, or 0 where they don't fit, and nothing is written.
#[unsafe(no_mangle)]
pub extern "C" fn sirmolaat_write_slip(
    vertices: &[f64],
    triangles: &[u32],
    flags: &[u8],
    kinds: &[u8],
    faces: &[u32],
    coords: &[f64],
    limit: f64,
    out: &mut [u8],
) -> usize
    ensures { WriteTold (job vertices.now triangles.now flags.now kinds.now faces.now coords.now limit) out.old result out.new }
{
    let written = slip_write::write(vertices, triangles, flags, kinds, faces, coords, limit, out);
    length_told(written)
}

// The print-out of a job's answer, as far as `out` goes: how many bytes it has. `words` and `vertex` are those of the field's buffers.
#[unsafe(no_mangle)]
pub extern "C" fn sirmolaat_print_out(
    refusal: u32,
    told: &[u32],
    words: &[u32],
    vertex: &[f64],
    out: &mut [u8],
) -> usize
    ensures { Puts out.old 0 (text_of (told_answer refusal told.now) (live_count words.now (get_or told.now 4 0)) vertex.now) out.new result }
{
    let answer = told_answer(refusal, told);
    let live = print_out::live_count(words, read_u32(told, 6, 0, 4));
    print_out::print_out(answer, live, vertex, out)
}
