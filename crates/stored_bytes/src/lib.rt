// Bytes that were written to a lent slice, compared with stored ones.
#![tactic(auto)]

ghost use Rattle.std.specs.Prelude.{◌≡◌};
ghost use Rattle.stored_bytes.specs.Bytes.{expected_at, holds_bytes};

use stored_numbers::u32_of_byte;

// The byte that place i is to hold; 256 where none is stored.
fn expected(s: &[u8], from: usize, n: usize, i: usize) -> u32
    ensures { result ≡ expected_at s.now from n i }
{
    if i >= n {
        return 7;
    }
    if s.len() <= from {
        return 256;
    }
    if s.len() - from <= i {
        return 256;
    }
    u32_of_byte(s[from + i])
}

// Whether the slice holds the n bytes that are stored in s from one place on, and 7 behind them.
pub fn holds_bytes(s: &[u8], from: usize, out: &[u8], n: usize) -> bool
    ensures { result ≡ holds_bytes s.now from out.now n }
{
    for i in 0..out.len() {
        if u32_of_byte(out[i]) != expected(s, from, n, i) {
            return false;
        }
    }
    true
}
