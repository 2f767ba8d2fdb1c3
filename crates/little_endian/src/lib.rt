// Numbers of 4 bytes and doubles of 8, the least significant byte first, in slices of bytes.
#![tactic(auto)]

ghost use Rattle.std.specs.Prelude.{◌≡◌, ◌+◌, ◌*◌, ◌≤◌, length, get_or};
ghost use Rattle.std.specs.Float.{binary64};
ghost use Rattle.std.specs.Float.Ieee.{of_bits, to_bits};
ghost use Rattle.buffers.specs.Lent.{given, left};
ghost use Rattle.little_endian.specs.Bytes.{number_from, double_from, numbers_from, doubles_from, bytes_from, put_in_front};

fn u32_of_byte(x: u8) -> u32
    ensures { (result ≡ x) × (result ≤ 255) }
{
    x as u32
}

// Byte i of s, 0 past the end.
fn octet(s: &[u8], i: usize) -> u32
    ensures { (result ≡ get_or s.now i 0) × (result ≤ 255) }
{
    if i < s.len() {
        return u32_of_byte(s[i]);
    }
    0
}

// The number whose bytes stand from i on.
pub fn number_at(s: &[u8], i: usize) -> u32
    requires { i + 4 ≤ length s.now }
    ensures { result ≡ number_from s.now i }
{
    octet(s, i) + 256 * octet(s, i + 1) + 65_536 * octet(s, i + 2) + 16_777_216 * octet(s, i + 3)
}

// The double of a bit pattern, a NaN's too, at which `f64::from_bits` is not defined.
fn float(bits: u64) -> f64
    ensures { result ≡ of_bits binary64 bits }
{
    if 0x7ff0_0000_0000_0000 < bits % 0x8000_0000_0000_0000 {
        return 0.0 / 0.0;
    }
    f64::from_bits(bits)
}

// The bit pattern of a double, of a NaN 0x7ff8_0000_0000_0000.
pub fn pattern(x: f64) -> u64
    ensures { result ≡ to_bits binary64 x }
{
    if x != x {
        return 0x7ff8_0000_0000_0000;
    }
    f64::to_bits(x)
}

// The double whose bytes stand from i on.
pub fn double_at(s: &[u8], i: usize) -> f64
    requires { i + 8 ≤ length s.now }
    ensures { result ≡ double_from s.now i }
{
    float((number_at(s, i) as u64) + 4_294_967_296 * (number_at(s, i + 4) as u64))
}

// The n doubles whose bytes stand from i on, to the front of a slice; so of numbers and of bytes.
pub fn read_doubles(s: &[u8], i: usize, n: usize, to: &mut [f64])
    requires { (i + 8 * n ≤ length s.now) × (n ≤ length to.old) }
    ensures { left to ≡ put_in_front (doubles_from s.now i n) (given to) }
{
    for j in 0..n {
        to[j] = double_at(s, i + 8 * j);
    }
}

pub fn read_numbers(s: &[u8], i: usize, n: usize, to: &mut [u32])
    requires { (i + 4 * n ≤ length s.now) × (n ≤ length to.old) }
    ensures { left to ≡ put_in_front (numbers_from s.now i n) (given to) }
{
    for j in 0..n {
        to[j] = number_at(s, i + 4 * j);
    }
}

pub fn read_bytes(s: &[u8], i: usize, n: usize, to: &mut [u8])
    requires { (i + n ≤ length s.now) × (n ≤ length to.old) }
    ensures { left to ≡ put_in_front (bytes_from s.now i n) (given to) }
{
    for j in 0..n {
        to[j] = s[i + j];
    }
}
