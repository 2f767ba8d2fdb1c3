// Vectors of three f64, in the Rust's order of operations: each sum and product is rounded by itself, left to right.
#![tactic(auto)]

ghost use Rattle.std.specs.Prelude.{◌≡◌};
ghost use Rattle.vec3.specs.Vec.{scale_of, axpy_of, sub_of, dot_of, cross_of, norm_of};

use sqrt_hypot::ThreeRoots;

#[derive(Clone, Copy)]
pub struct Vec3 {
    pub x: f64,
    pub y: f64,
    pub z: f64,
}

pub fn scale(a: Vec3, k: f64) -> Vec3
    ensures { result ≡ scale_of a k }
{
    Vec3 {
        x: a.x * k,
        y: a.y * k,
        z: a.z * k,
    }
}

// a + k b
pub fn axpy(a: Vec3, k: f64, b: Vec3) -> Vec3
    ensures { result ≡ axpy_of a k b }
{
    Vec3 {
        x: a.x + k * b.x,
        y: a.y + k * b.y,
        z: a.z + k * b.z,
    }
}

pub fn sub(a: Vec3, b: Vec3) -> Vec3
    ensures { result ≡ sub_of a b }
{
    Vec3 {
        x: a.x - b.x,
        y: a.y - b.y,
        z: a.z - b.z,
    }
}

pub fn dot(a: Vec3, b: Vec3) -> f64
    ensures { result ≡ dot_of a b }
{
    a.x * b.x + a.y * b.y + a.z * b.z
}

pub fn cross(a: Vec3, b: Vec3) -> Vec3
    ensures { result ≡ cross_of a b }
{
    Vec3 {
        x: a.y * b.z - a.z * b.y,
        y: a.z * b.x - a.x * b.z,
        z: a.x * b.y - a.y * b.x,
    }
}

pub fn norm(a: Vec3) -> f64
    ensures { result ≡ norm_of a }
{
    sqrt_hypot::sqrt(dot(a, a))
}

// The norms of three vectors, their roots taken side by side.
pub fn norms(a: Vec3, b: Vec3, c: Vec3) -> ThreeRoots
    ensures { (result.x ≡ norm_of a) × ((result.y ≡ norm_of b) × (result.z ≡ norm_of c)) }
{
    sqrt_hypot::three_sqrts(dot(a, a), dot(b, b), dot(c, c))
}
