// The square root and the hypotenuse for programs in C and Rust.
#![tactic(auto)]

ghost use Rattle.std.specs.Prelude.{◌≡◌};
ghost use Rattle.std.specs.Float.{binary64};
ghost use Rattle.root_spec.specs.Root.{sqrt_of, hypot_of};

// IEEE 754's squareRoot, rounded to nearest, ties to even.
#[unsafe(no_mangle)]
pub extern "C" fn sirmolaat_sqrt(x: f64) -> f64
    ensures { result ≡ sqrt_of binary64 x }
{
    sqrt_hypot::sqrt(x)
}

// IEEE 754's hypot, rounded to nearest, ties to even.
#[unsafe(no_mangle)]
pub extern "C" fn sirmolaat_hypot(x: f64, y: f64) -> f64
    ensures { result ≡ hypot_of binary64 x y }
{
    sqrt_hypot::hypot(x, y)
}
