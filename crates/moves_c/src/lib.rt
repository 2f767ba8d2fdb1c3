// Slips in either form for programs in C and Rust, in slices that they lend: moved from one form to the other, and read.
#![tactic(auto)]

ghost use Rattle.std.specs.Prelude.{◌≡◌, set};
ghost use Rattle.groups.specs.declared.Form.TheVariants.{Plain, Groups};
ghost use Rattle.slip_moves.specs.Moves.{moved_number};
ghost use Rattle.slip.specs.Reading.{job_rows};
ghost use Rattle.moves_c.specs.Exports.{told_length, exported, read_told, form_read, exported_read};

use buffers::{write_f64, write_u32};
use form_read::ReadRefusal;
use groups::Form;
use slip::SlipJob;
use slip_moves::MoveRefusal;

fn set_first(told: &mut [usize], n: usize)
    ensures { told.new ≡ set told.old 0 n }
{
    if 0 < told.len() {
        told[0] = n;
    }
}

fn tell(moved: Result<usize, MoveRefusal>, told: &mut [usize]) -> u32
    ensures { (result ≡ moved_number moved) × (told.new ≡ told_length moved told.old) }
{
    match moved {
        Ok(n) => {
            set_first(told, n);
            0
        }
        Err(MoveRefusal::NoRoom(n)) => {
            set_first(told, n);
            36
        }
        Err(MoveRefusal::Slip(why)) => slip_moves::refusal_number(why),
    }
}

// Moves a plain slip to groups: 0 or a refusal of 30, 31, 32 and 36. For 0 and 36 the first of `told` is the length of what it is moved to.
#[unsafe(no_mangle)]
pub extern "C" fn sirmolaat_slip_to_groups(slip: &[u8], out: &mut [u8], told: &mut [usize]) -> u32
    ensures { (result, (out.new, told.new)) ≡ exported Plain Groups slip.now out.old told.old }
{
    tell(slip_moves::to_groups(slip, out), told)
}

// Moves a slip in groups to a plain one: 0 or a refusal of 30, 31, 32, 34, 35 and 36, and `told` as above.
#[unsafe(no_mangle)]
pub extern "C" fn sirmolaat_groups_to_slip(slip: &[u8], out: &mut [u8], told: &mut [usize]) -> u32
    ensures { (result, (out.new, told.new)) ≡ exported Groups Plain slip.now out.old told.old }
{
    tell(slip_moves::from_groups(slip, out), told)
}

fn tell_read(answer: Result<SlipJob, ReadRefusal>, told: &mut [u32], limit: &mut [f64]) -> u32
    ensures { (result, (told.new, limit.new)) ≡ read_told answer told.old limit.old }
{
    match answer {
        Err(why) => form_read::refusal_number(why),
        Ok(job) => {
            write_u32(told, 3, 0, 0, job.vertices);
            write_u32(told, 3, 0, 1, job.triangles);
            write_u32(told, 3, 0, 2, job.pieces);
            write_f64(limit, 1, 0, 0, job.limit);
            0
        }
    }
}

fn read_told(
    form: Form,
    slip: &[u8],
    vertices: &mut [f64],
    triangles: &mut [u32],
    flags: &mut [u8],
    kinds: &mut [u8],
    faces: &mut [u32],
    coords: &mut [f64],
    told: &mut [u32],
    limit: &mut [f64],
) -> u32
    ensures { (result, (job_rows vertices.new triangles.new flags.new kinds.new faces.new coords.new, (told.new, limit.new))) ≡ form_read form slip.now
        (job_rows vertices.old triangles.old flags.old kinds.old faces.old coords.old) told.old limit.old }
{
    let answer = form_read::read(form, slip, vertices, triangles, flags, kinds, faces, coords);
    tell_read(answer, told, limit)
}

// A slip in a form, 1 plain or 2 in groups, is read to the fronts of the slices: 0, and `told` has its vertices, triangles and pieces, `limit` its limit; or 30 to 35, of
// another form 37, and nothing is written.
#[unsafe(no_mangle)]
pub extern "C" fn sirmolaat_read_slip_form(
    form: u32,
    slip: &[u8],
    vertices: &mut [f64],
    triangles: &mut [u32],
    flags: &mut [u8],
    kinds: &mut [u8],
    faces: &mut [u32],
    coords: &mut [f64],
    told: &mut [u32],
    limit: &mut [f64],
) -> u32
    ensures { (result, (job_rows vertices.new triangles.new flags.new kinds.new faces.new coords.new, (told.new, limit.new)))
        ≡ exported_read form slip.now (job_rows vertices.old triangles.old flags.old kinds.old faces.old coords.old) told.old limit.old }
{
    if form == 1 {
        return read_told(
            Form::Plain,
            slip,
            vertices,
            triangles,
            flags,
            kinds,
            faces,
            coords,
            told,
            limit,
        );
    }
    if form == 2 {
        return read_told(
            Form::Groups,
            slip,
            vertices,
            triangles,
            flags,
            kinds,
            faces,
            coords,
            told,
            limit,
        );
    }
    37
}
