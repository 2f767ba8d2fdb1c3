// Document 01's program: a slip on standard input, its print-out on standard output.
#![tactic(auto)]

ghost use Rattle.std.specs.Prelude.{◌≤◌};
ghost use Rattle.std.specs.Io.{ReadsAtMost};

use std::io;
use std::io::{Read, Write};

fn at_most(n: usize, most: usize) -> usize
    ensures { result ≤ most }
{
    if n < most { n } else { most }
}

fn write_front(out: &mut impl Write, text: &[u8], n: usize) -> io::Result<()> {
    let end = at_most(n, text.len());
    out.write_all(&text[..end])
}

fn write_text(out: &mut impl Write, text: &[u8; 32768], n: usize) -> io::Result<()> {
    write_front(out, text, n)
}

// Reads until buf is full or the input ends, and answers how many bytes were put at the start of buf.
fn read_full(reader: &mut impl Read, buf: &mut [u8]) -> io::Result<usize>
    ensures { ReadsAtMost result buf.new }
{
    let mut done: usize = 0;
    while done < buf.len() {
        let n = reader.read(&mut buf[done..])?;
        if n == 0 {
            break;
        }
        done += n;
    }
    Ok(done)
}

// The longest slip that is read has 4,468 bytes, so what is past the buffer changes no answer. The longest print-out has 64 lines of at most 388 bytes and
// 166 bytes beside them.
fn main(rt: HostRuntime) -> io::Result<()> {
    let mut bytes = [0u8; 8192];
    let mut text = [0u8; 32768];
    let n = read_full(&mut rt.reader(), &mut bytes)?;
    let end = slip_program::print_slip(&bytes[..n], &mut text);
    write_text(&mut io::writer(&rt), &text, end)
}
