// Binary STL for programs in C and Rust, in slices that they lend.
#![tactic(auto)]

ghost use Rattle.std.specs.Prelude.{◌≡◌};
ghost use Rattle.stl_format.specs.Answers.{mesh_lists};
ghost use Rattle.stl_c.specs.Exports.{packed_refusal, packed_mesh, packed_file, packed_reading, packed_writing};

use stl_format::{StlCounts, StlRefusal, refusal_number};

fn packed_refusal(why: StlRefusal) -> u64
    ensures { result ≡ packed_refusal why }
{
    0x1_0000_0000 * refusal_number(why) as u64
}

fn packed_mesh(answer: Result<StlCounts, StlRefusal>) -> u64
    ensures { result ≡ packed_mesh answer }
{
    match answer {
        Ok(counts) => counts.vertices as u64,
        Err(why) => packed_refusal(why),
    }
}

fn packed_file(answer: Result<usize, StlRefusal>) -> u64
    ensures { result ≡ packed_file answer }
{
    match answer {
        Ok(bytes) => bytes as u64,
        Err(why) => packed_refusal(why),
    }
}

// Reads a file: a refusal in the upper 32 bits, or else the number of vertices. It has as many triangles as the file says.
#[unsafe(no_mangle)]
pub extern "C" fn sirmolaat_stl_read(s: &[u8], vertices: &mut [f64], triangles: &mut [u32]) -> u64
    ensures { (result, mesh_lists vertices.new triangles.new) ≡ packed_reading s.now (mesh_lists vertices.old triangles.old) }
{
    packed_mesh(stl::read(s, vertices, triangles))
}

// Writes a file: a refusal in the upper 32 bits, or else the number of bytes.
#[unsafe(no_mangle)]
pub extern "C" fn sirmolaat_stl_write(vertices: &[f64], triangles: &[u32], out: &mut [u8]) -> u64
    ensures { (result, out.new) ≡ packed_writing vertices.now triangles.now out.old }
{
    packed_file(stl::write(vertices, triangles, out))
}
