// Doubles that a single (f32) holds, by the single's bit pattern. Nothing is rounded.
#![tactic(auto)]

ghost use Rattle.std.specs.Prelude.{◌≡◌, T, Float};
ghost use Rattle.std.specs.Float.{binary32, binary64};
ghost use Rattle.std.specs.Float.Ieee.{of_bits, to_bits};
ghost use Rattle.single.specs.Single.{is_single};

use float64::is_finite;
use little_endian::pattern;

// The value of a single's bit pattern, a NaN's too, at which `f32::from_bits` is not defined.
pub fn single_value(bits: u32) -> f64
    ensures { result ≡ of_bits binary32 bits }
{
    if 0x7f80_0000 < bits % 0x8000_0000 {
        return 0.0 / 0.0;
    }
    f32::from_bits(bits) as f64
}

// The pattern of the single that has the value of a double's pattern b, where there is one: below 2^-126, where singles have no leading digit, the digits are
// shifted to their place.
fn narrow(b: u64) -> u32
    ensures { (x : Float) → T (is_single x) → b ≡ to_bits binary64 x → result ≡ to_bits binary32 x }
{
    let sign = b / 0x8000_0000_0000_0000;
    let exponent = b % 0x8000_0000_0000_0000 / 0x10_0000_0000_0000;
    let digits = 0x10_0000_0000_0000 + b % 0x10_0000_0000_0000;
    if exponent < 874 {
        return (0x8000_0000 * sign) as u32;
    }
    if exponent < 897 {
        return (0x8000_0000 * sign + int_root::shr(digits, 926 - exponent) % 0x8000_0000) as u32;
    }
    if exponent < 1151 {
        return (0x8000_0000 * sign + (exponent - 897) * 0x80_0000 + digits / 0x2000_0000) as u32;
    }
    0
}

// The bit pattern of the single of x, where there is one.
pub fn single_bits(x: f64) -> u32
    ensures { T (is_single x) → result ≡ to_bits binary32 x }
{
    narrow(pattern(x))
}

// Whether a single holds x: the pattern is tried.
pub fn is_single(x: f64) -> bool
    ensures { result ≡ is_single x }
{
    if is_finite(x) {
        if pattern(single_value(single_bits(x))) == pattern(x) {
            return true;
        }
        return false;
    }
    false
}
