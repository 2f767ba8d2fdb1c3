// Stored jobs, as records of numbers of 4 bytes (tests/mesh/make_vectors.py has the format), for the programs that replay them.
#![tactic(auto)]

ghost use Rattle.std.specs.Prelude.{◌≤◌, ◌<◌, length};

use stored_numbers::{count, read_bytes, read_doubles, read_numbers};

// Where the lists of the record at number k stand, but for the vertices, and what comes after them.
#[derive(Clone, Copy)]
pub struct ListPlaces {
    pub triangles: usize,
    pub flags: usize,
    pub kinds: usize,
    pub faces: usize,
    pub coords: usize,
    pub answer: usize,
}

pub fn list_places(s: &[u8], k: usize) -> ListPlaces
    requires { k < 500_000 }
    ensures { (result.triangles < 1_000_000) × ((result.flags < 1_000_000) × ((result.kinds < 1_000_000) × ((result.faces < 1_000_000) × (result.coords < 1_000_000)))) }
{
    let triangles = k + 19 + 2 * count(s, k + 3, 20_000);
    let flags = triangles + count(s, k + 4, 40_000);
    let kinds = flags + count(s, k + 5, 10_000);
    let faces = kinds + count(s, k + 6, 4_000);
    let coords = faces + count(s, k + 7, 4_000);
    let answer = coords + 2 * count(s, k + 8, 24_000);
    ListPlaces {
        triangles,
        flags,
        kinds,
        faces,
        coords,
        answer,
    }
}

// Reads the lists of the record at number k, as many numbers as there is room for, to the fronts of the slices.
pub fn load_mesh(s: &[u8], k: usize, vertices: &mut [f64], triangles: &mut [u32], flags: &mut [u8])
    requires { (k < 500_000) × ((length vertices.old ≤ 200_000) × ((length triangles.old ≤ 200_000) × (length flags.old ≤ 200_000))) }
{
    let at = list_places(s, k);
    read_numbers(s, at.triangles, triangles);
    read_bytes(s, at.flags, flags);
    read_doubles(s, k + 19, vertices);
}

pub fn load_pieces(s: &[u8], k: usize, kinds: &mut [u8], faces: &mut [u32], coords: &mut [f64])
    requires { (k < 500_000) × ((length kinds.old ≤ 200_000) × ((length faces.old ≤ 200_000) × (length coords.old ≤ 200_000))) }
{
    let at = list_places(s, k);
    read_bytes(s, at.kinds, kinds);
    read_numbers(s, at.faces, faces);
    read_doubles(s, at.coords, coords);
}
