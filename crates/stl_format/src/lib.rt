// What reading and writing binary STL answer, and the coordinates in a file.
#![tactic(auto)]

ghost use Rattle.std.specs.Prelude.{◌≡◌, ◌+◌, ◌*◌, ◌≤◌, ◌<◌, length};
ghost use Rattle.little_endian.specs.Bytes.{number_from};
ghost use Rattle.stl_format.specs.Format.{point_from, coordinate};
ghost use Rattle.stl_format.specs.Answers.{refusal_number, stl_number};

use single::single_value;

// How many vertices and triangles a file's mesh has.
#[derive(Clone, Copy)]
pub struct StlCounts {
    pub vertices: u32,
    pub triangles: u32,
}

// Why a file is not read, or not written.
#[derive(Clone, Copy, PartialEq, Eq, Debug)]
pub enum StlRefusal {
    Malformed,
    MissingVertex,
    TooShort,
    WrongLength,
    NotFinite,
    TooMany,
    NotSingle,
    ShortBuffer,
}

// The number of a refusal.
pub fn refusal_number(refusal: StlRefusal) -> u32
    ensures { result ≡ refusal_number refusal }
{
    match refusal {
        StlRefusal::Malformed => 1,
        StlRefusal::MissingVertex => 2,
        StlRefusal::TooShort => 40,
        StlRefusal::WrongLength => 41,
        StlRefusal::NotFinite => 42,
        StlRefusal::TooMany => 43,
        StlRefusal::NotSingle => 44,
        StlRefusal::ShortBuffer => 45,
    }
}

// The number of an answer: 0 of what was read or written.
pub fn stl_number<A: Copy>(answer: Result<A, StlRefusal>) -> u32
    ensures { result ≡ stl_number answer }
{
    match answer {
        Ok(_) => 0,
        Err(why) => refusal_number(why),
    }
}

fn u32_of_byte(x: u8) -> u32
    ensures { (result ≡ x) × (result ≤ 255) }
{
    x as u32
}

// The number whose bytes stand from i on, with no test of the bounds.
pub fn word_at(s: &[u8], i: usize) -> u32
    requires { i + 4 ≤ length s.now }
    ensures { result ≡ number_from s.now i }
{
    u32_of_byte(s[i])
        + 256 * u32_of_byte(s[i + 1])
        + 65_536 * u32_of_byte(s[i + 2])
        + 16_777_216 * u32_of_byte(s[i + 3])
}

// Where point h of a file starts.
pub fn point_from(h: usize) -> usize
    requires { point_from h < 18_446_744_073_709_551_616 }
    ensures { result ≡ point_from h }
{
    96 + 50 * (h / 3) + 12 * (h % 3)
}

// Coordinate k of point h.
pub fn coordinate_at(s: &[u8], h: usize, k: usize) -> f64
    requires { (k < 3) × (point_from h + 12 ≤ length s.now) }
    ensures { result ≡ coordinate s.now h k }
{
    single_value(word_at(s, point_from(h) + 4 * k))
}
