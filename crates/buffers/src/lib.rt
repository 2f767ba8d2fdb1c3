// Buffers that a caller lends: slices of u32 and f64 in slots of a fixed stride. A read past a slice's end gives 0 or a NaN and
// a write past it changes nothing, so whatever numbers a buffer holds, nothing outside its slices is touched. Which of their slots are
// counted (`count`) is for the callers to keep to.
#![tactic(auto)]

ghost use Rattle.std.specs.Prelude.{◌≡◌, ◌+◌, ◌*◌, ◌<◌, min, set, get_or, length, replicate};
ghost use Rattle.std.specs.Float.{nan};
ghost use Rattle.buffers.specs.Lack.{lack_number};
ghost use Rattle.buffers.specs.Slots.{slots_of};
ghost use Rattle.float64.specs.Scalar.{zero64};
ghost use Rattle.buffers.specs.Zero.{zero_from};

// Vertices, edges, faces and windows are counted apart: where the number of one is asked for, that of another is a type error.
// In a buffer all are plain u32, and the field says which it is.
#[derive(Clone, Copy)]
pub struct VertexId(pub u32);

#[derive(Clone, Copy)]
pub struct EdgeId(pub u32);

#[derive(Clone, Copy)]
pub struct FaceId(pub u32);

#[derive(Clone, Copy)]
pub struct WindowId(pub u32);

// The number of no face: beyond a boundary edge, or where a window goes on into none.
pub fn no_face() -> FaceId
    ensures { result ≡ record { 0 = 4294967295 } }
{
    FaceId(4294967295)
}

// What work stops at for lack of a slot: windows, events of the queue, entries of a list of cuts, entries of pieces in faces.
#[derive(Clone, Copy)]
pub enum Lack {
    Windows,
    Events,
    Cuts,
    Entries,
}

pub fn lack_number(lack: Lack) -> u32
    ensures { result ≡ lack_number lack }
{
    match lack {
        Lack::Windows => 12,
        Lack::Events => 13,
        Lack::Cuts => 14,
        Lack::Entries => 17,
    }
}

pub fn read_u32(s: &[u32], stride: u32, slot: u32, field: u32) -> u32
    ensures { result ≡ get_or s.now (stride * slot + field) 0 }
{
    let i = (stride as usize) * (slot as usize) + (field as usize);
    if i < s.len() { s[i] } else { 0 }
}

pub fn read_f64(s: &[f64], stride: u32, slot: u32, field: u32) -> f64
    ensures { result ≡ get_or s.now (stride * slot + field) nan }
{
    let i = (stride as usize) * (slot as usize) + (field as usize);
    if i < s.len() { s[i] } else { 0.0 / 0.0 }
}

pub fn write_u32(s: &mut [u32], stride: u32, slot: u32, field: u32, v: u32)
    ensures { s.new ≡ set s.old (stride * slot + field) v }
{
    let i = (stride as usize) * (slot as usize) + (field as usize);
    if i < s.len() {
        s[i] = v;
    }
}

pub fn write_f64(s: &mut [f64], stride: u32, slot: u32, field: u32, v: f64)
    ensures { s.new ≡ set s.old (stride * slot + field) v }
{
    let i = (stride as usize) * (slot as usize) + (field as usize);
    if i < s.len() {
        s[i] = v;
    }
}

// The whole slots of a slice, as far as they are counted.
pub fn slots(len: usize, stride: u32) -> u32
    requires { 0 < stride }
    ensures { result ≡ slots_of len stride }
{
    let n = len / (stride as usize);
    if n < 4294967295 { n as u32 } else { 4294967295 }
}

// The count of a buffer of two slices, of m and n elements at strides s and t: the slots that both have.
pub fn count(m: usize, s: u32, n: usize, t: u32) -> u32
    requires { (0 < s) × (0 < t) }
    ensures { result ≡ min (slots_of m s) (slots_of n t) }
{
    let a = slots(m, s);
    let b = slots(n, t);
    if a <= b { a } else { b }
}

pub fn zero_u32_from(s: &mut [u32], n: usize)
    ensures { s.new ≡ zero_from 0 n s.old }
{
    for i in n..s.len() {
        s[i] = 0;
    }
}

pub fn zero_f64_from(s: &mut [f64], n: usize)
    ensures { s.new ≡ zero_from zero64 n s.old }
{
    for i in n..s.len() {
        s[i] = 0.0;
    }
}

pub fn zero_u32(s: &mut [u32])
    ensures { s.new ≡ replicate (length s.old) 0 }
{
    zero_u32_from(s, 0);
}

pub fn zero_f64(s: &mut [f64])
    ensures { s.new ≡ replicate (length s.old) zero64 }
{
    zero_f64_from(s, 0);
}
