// A double in thousandths, nearest, halves up.
#![tactic(auto)]

ghost use Rattle.std.specs.Prelude.{◌≡◌, ◌<◌};
ghost use Rattle.std.specs.Float.{binary64};
ghost use Rattle.std.specs.Float.Ieee.{of_bits};
ghost use Rattle.thousandths.specs.Thousandths.{thousandths_of};

// The thousandths of the double whose pattern is b, one below 2^52, or the size of those of its negative. Below 2^-11 there are none.
pub fn thousandths(minus: bool, b: u64) -> u64
    requires { b < 0x4330_0000_0000_0000 }
    ensures { result ≡ thousandths_of minus (of_bits binary64 b) }
{
    if b < 0x3f40_0000_0000_0000 {
        return 0;
    }
    let less = u64::from(minus);
    let m = 1000 * (b % 0x10_0000_0000_0000 + 0x10_0000_0000_0000) - less;
    let k = 1074 - b / 0x10_0000_0000_0000;
    ((m >> k) + 1) / 2
}
