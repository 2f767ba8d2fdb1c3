// Files of packed records of bytes, with 8 bytes for a float, 25 for a source (a kind, 0 for a point, and three floats).
#![tactic(auto)]

ghost use Rattle.std.specs.Prelude.{◌≡◌, ◌+◌, ◌≤◌, length};
ghost use Rattle.std.specs.Io.{ReadsAtMost};
ghost use Rattle.source_records.specs.Records.{word_from, float_from, src_from};

use source::Src;
use std::rt::Files;
use std::{fs, io};

// Reads the records of the file of the name, which stand after a count of 4 bytes, as `vectors::read_file` reads a file.
pub fn read_records(rt: &impl Files, name: &str, buf: &mut [u8]) -> io::Result<usize>
    ensures { ReadsAtMost result buf.new }
{
    let mut file = fs::open(rt, name)?;
    let mut head = [0u8; 4];
    vectors::read_full(&mut file, &mut head)?;
    vectors::read_full(&mut file, buf)
}

// The number of 8 bytes at byte i.
pub fn word_from(s: &[u8], i: usize) -> u64
    requires { i + 8 ≤ length s.now }
    ensures { result ≡ word_from s.now i }
{
    vectors::word(&s[i..], 0)
}

pub fn float_from(s: &[u8], i: usize) -> f64
    requires { i + 8 ≤ length s.now }
    ensures { result ≡ float_from s.now i }
{
    vectors::float(word_from(s, i))
}

pub fn src_from(s: &[u8], i: usize) -> Src
    requires { i + 25 ≤ length s.now }
    ensures { result ≡ src_from s.now i }
{
    if s[i] == 0 {
        return Src::Point {
            x: float_from(s, i + 1),
            y: float_from(s, i + 9),
            s: float_from(s, i + 17),
        };
    }
    Src::Line {
        ux: float_from(s, i + 1),
        uy: float_from(s, i + 9),
        c: float_from(s, i + 17),
    }
}
