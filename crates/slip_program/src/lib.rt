// Document 01's program on bytes: the print-out of a slip, computed in buffers of 01's sizes.
#![tactic(auto)]

ghost use Rattle.std.specs.Prelude.{◌≡◌, ◌*◌, length};
ghost use Rattle.buffers.specs.Lent.{given, left};
ghost use Rattle.job_checks.specs.Job.{job};
ghost use Rattle.slip.specs.Reading.{job_rows};
ghost use Rattle.text_out.specs.Text.{Puts};
ghost use Rattle.print_out.specs.PrintOut.{live_count, text_of};
ghost use Rattle.slip_program.specs.Program.{job_text, program_text};
ghost use Rattle.slip_program.specs.Fronts.{windows_told, front_job};

use computed::Computed;
use slip::{SlipJob, least};

const MAX_STEPS: u32 = 100_000;

fn window_count(computed: Computed) -> u32
    ensures { result ≡ windows_told computed }
{
    match computed {
        Computed::Refused(_) => 0,
        Computed::Field(field) => field.windows,
    }
}

fn print_answer(
    computed: Computed,
    words: &[u32; 1600],
    vertex: &[f64; 128],
    text: &mut [u8],
) -> usize
    ensures { Puts (given text) 0 (text_of computed (live_count words.now (windows_told computed)) vertex.now) (left text) result }
{
    let live = print_out::live_count(words, window_count(computed));
    print_out::print_out(computed, live, vertex, text)
}

// Computes a job and prints its answer.
fn print_job(
    vertices: &[f64],
    triangles: &[u32],
    flags: &[u8],
    kinds: &[u8],
    faces: &[u32],
    coords: &[f64],
    limit: f64,
    text: &mut [u8],
) -> usize
    ensures { Puts (given text) 0
        (job_text (job vertices.now triangles.now flags.now kinds.now faces.now coords.now limit)) (left text) result }
{
    let mut vertex_words = [0u32; 192];
    let mut edge_words = [0u32; 1728];
    let mut edge_reals = [0.0f64; 1152];
    let mut round = [0u32; 288];
    let mut triangle_words = [0u32; 576];
    let mut triangle_reals = [0.0f64; 864];
    let mut piece_words = [0u32; 96];
    let mut piece_reals = [0.0f64; 96];
    let mut vertex = [0.0f64; 128];
    let mut words = [0u32; 1600];
    let mut reals = [0.0f64; 2400];
    let mut keys = [0.0f64; 600];
    let mut events = [0u32; 1200];
    let mut entry_words = [0u32; 3000];
    let mut pts = [0.0f64; 100];
    let mut out = [0.0f64; 200];
    let mut keep = [0.0f64; 200];
    let mut next = [0.0f64; 200];
    let mut scratch = [0u32; 400];
    let mut other_scratch = [0u32; 400];
    let computed = compute::compute(
        vertices,
        triangles,
        flags,
        kinds,
        faces,
        coords,
        limit,
        MAX_STEPS,
        &mut vertex_words,
        &mut edge_words,
        &mut edge_reals,
        &mut round,
        &mut triangle_words,
        &mut triangle_reals,
        &mut piece_words,
        &mut piece_reals,
        &mut vertex,
        &mut words,
        &mut reals,
        &mut keys,
        &mut events,
        &mut entry_words,
        &mut pts,
        &mut out,
        &mut keep,
        &mut next,
        &mut scratch,
        &mut other_scratch,
    );
    print_answer(computed, &words, &vertex, text)
}

// The same of the job of a slip, whose lists stand at the fronts of the slices.
fn print_read(
    read: SlipJob,
    vertices: &[f64],
    triangles: &[u32],
    flags: &[u8],
    kinds: &[u8],
    faces: &[u32],
    coords: &[f64],
    text: &mut [u8],
) -> usize
    ensures { Puts (given text) 0
        (job_text (front_job read (job_rows vertices.now triangles.now flags.now kinds.now faces.now coords.now))) (left text) result }
{
    let nv = least(3 * (read.vertices as usize), vertices.len());
    let v = &vertices[..nv];
    let nt = least(3 * (read.triangles as usize), triangles.len());
    let t = &triangles[..nt];
    let nf = least(read.vertices as usize, flags.len());
    let f = &flags[..nf];
    let nk = least(read.pieces as usize, kinds.len());
    let k = &kinds[..nk];
    let nn = least(read.pieces as usize, faces.len());
    let n = &faces[..nn];
    let nc = least(6 * (read.pieces as usize), coords.len());
    let c = &coords[..nc];
    print_job(v, t, f, k, n, c, read.limit, text)
}

// The print-out of a slip, to the front of a slice: as much of it as there is room for. Answers how long it is.
pub fn print_slip(s: &[u8], text: &mut [u8]) -> usize
    ensures { Puts (given text) 0 (program_text s.now) (left text) result }
{
    let mut vertices = [0.0f64; 192];
    let mut triangles = [0u32; 288];
    let mut flags = [0u8; 64];
    let mut kinds = [0u8; 32];
    let mut faces = [0u32; 32];
    let mut coords = [0.0f64; 192];
    let read = slip::read(
        s,
        &mut vertices,
        &mut triangles,
        &mut flags,
        &mut kinds,
        &mut faces,
        &mut coords,
    );
    match read {
        Ok(job) => print_read(
            job, &vertices, &triangles, &flags, &kinds, &faces, &coords, text,
        ),
        Err(why) => {
            let refused = Computed::Refused(slip::refusal_number(why));
            print_out::print_out(refused, 0, &vertices, text)
        }
    }
}
