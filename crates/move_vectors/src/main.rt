// Replays stored slips that are moved from one form to the other: how many there are, and how many are moved otherwise. Compared are the answer, the length that is
// told and every lent byte. oracle/README.md has the format; tests/moves/make_vectors.sh makes the file.
#![tactic(auto)]

ghost use Rattle.std.specs.Prelude.{◌<◌};

use groups::Form;
use slip_moves::{move_slip, moved_length, moved_number};
use std::io;
use stored_bytes::holds_bytes;
use stored_numbers::{count, number, replay_records};
use vectors::Tally;

// The forms that a slip is moved from and to, by the stored direction.
fn moved_from(direction: u32) -> Form {
    if direction == 0 {
        return Form::Plain;
    }
    Form::Groups
}

fn moved_to(direction: u32) -> Form {
    if direction == 0 {
        return Form::Groups;
    }
    Form::Plain
}

// How many bytes are written, where the answer and the length are these.
fn stored_length(answer: u32, length: usize) -> usize {
    if answer == 0 {
        return length;
    }
    0
}

// Whether the slip of the record at number k is moved as stored, into bytes that are 7.
fn moves_into(s: &[u8], k: usize, out: &mut [u8]) -> bool
    requires { k < 500_000 }
{
    let direction = number(s, k + 1);
    let answer = number(s, k + 2);
    let bytes = count(s, k + 3, 2_000);
    let length = count(s, k + 5, 10_000);
    let from = 4 * (k + 6);
    let end = from + bytes;
    if s.len() < end {
        return false;
    }
    let moved = move_slip(
        moved_from(direction),
        moved_to(direction),
        &s[from..end],
        out,
    );
    if moved_number(moved) != answer {
        return false;
    }
    if moved_length(moved) != length {
        return false;
    }
    let at = k + 6 + (bytes + 3) / 4;
    holds_bytes(s, 4 * at, out, stored_length(answer, length))
}

// The same, into bytes of its own.
fn is_moved(s: &[u8], k: usize) -> bool
    requires { k < 500_000 }
{
    let mut out = [7u8; 2400];
    let lent = count(s, k + 4, 2_400);
    moves_into(s, k, &mut out[..lent])
}

fn replay(s: &[u8]) -> Tally {
    replay_records(s, 0, |k| is_moved(s, k))
}

fn main(rt: HostRuntime) -> io::Result<()> {
    vectors::replay_file::<524288, _>(&rt, "moves", replay)
}
