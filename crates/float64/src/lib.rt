// The functions of f64 that the operators do not give, and the total order of its values.
#![tactic(auto)]

ghost use Rattle.std.specs.Prelude.{◌≡◌};
ghost use Rattle.float64.specs.Scalar.{min_of, max_of, abs_of, signum_of, clamp_of, is_finite};
ghost use Rattle.float64.specs.TotalOrder.{total_key, total_less};

pub fn is_finite(x: f64) -> bool
    ensures { result ≡ is_finite x }
{
    let infinity = 1.0 / 0.0;
    if x < infinity {
        if -infinity < x {
            return true;
        }
        return false;
    }
    false
}

pub fn min(x: f64, y: f64) -> f64
    ensures { result ≡ min_of x y }
{
    if x != x {
        return y;
    }
    if y < x {
        return y;
    }
    x
}

pub fn max(x: f64, y: f64) -> f64
    ensures { result ≡ max_of x y }
{
    if x != x {
        return y;
    }
    if x < y {
        return y;
    }
    x
}

pub fn abs(x: f64) -> f64
    ensures { result ≡ abs_of x }
{
    if x != x {
        return x;
    }
    f64::from_bits(f64::to_bits(x) % 0x8000_0000_0000_0000)
}

pub fn signum(x: f64) -> f64
    ensures { result ≡ signum_of x }
{
    if x != x {
        return x;
    }
    if f64::to_bits(x) < 0x8000_0000_0000_0000 {
        return 1.0;
    }
    -1.0
}

pub fn clamp(x: f64, lo: f64, hi: f64) -> f64
    ensures { result ≡ clamp_of x lo hi }
{
    let mut y = x;
    if y < lo {
        y = lo;
    }
    if y > hi {
        y = hi;
    }
    y
}

// The position of x in the total order, as a number.
pub fn total_key(x: f64) -> u64
    ensures { result ≡ total_key x }
{
    if x != x {
        return 0xfff8_0000_0000_0000;
    }
    let b = f64::to_bits(x);
    if b < 0x8000_0000_0000_0000 {
        return b + 0x8000_0000_0000_0000;
    }
    0xffff_ffff_ffff_ffff - b
}

// Whether total_cmp finds x less than y, with every NaN read as one above plus infinity.
pub fn total_less(x: f64, y: f64) -> bool
    ensures { result ≡ total_less x y }
{
    if total_key(x) < total_key(y) {
        return true;
    }
    false
}
