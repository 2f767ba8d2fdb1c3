// A number below 2 ^ 32 as bytes, in both forms of a slip: four bytes, or groups of seven bits.
#![tactic(auto)]

ghost use Rattle.std.specs.Prelude.{◌≡◌, [], ◌∷◌, ◌+◌, ◌-◌, ◌≤◌, ◌<◌, length, get_or};
ghost use Rattle.text_out.specs.Text.{Puts};
ghost use Rattle.groups.specs.Groups.{groups_of, joined_group, group_at, grouped, number_of, Found};

use little_endian::number_at;
use text_out::put_text;

// The forms of a slip: numbers of four bytes, or in groups.
#[derive(Clone, Copy)]
pub enum Form {
    Plain,
    Groups,
}

// Why no number is read at a place: the bytes end before it does, or it has too many groups or is too large.
#[derive(Clone, Copy, PartialEq, Eq, Debug)]
pub enum NumberRefusal {
    Short,
    Over,
}

fn wide(x: u8) -> usize
    ensures { (result ≡ x) × (result < 256) }
{
    x as usize
}

// A group in front of a number.
fn join(
    low: usize,
    behind: Result<(usize, usize), NumberRefusal>,
) -> Result<(usize, usize), NumberRefusal>
    requires { low < 128 }
    ensures { result ≡ joined_group low behind }
{
    let (n, next) = behind?;
    if n == 0 {
        return Err(NumberRefusal::Over);
    }
    if 33_554_431 < n {
        return Err(NumberRefusal::Over);
    }
    Ok((low + 128 * n, next))
}

// The group at byte i, the last that there may be.
fn last_group(s: &[u8], i: usize) -> Result<(usize, usize), NumberRefusal>
    requires { i < 9_000_000_000_000_000_000 }
    ensures { result ≡ grouped s.now i 0 }
{
    if s.len() <= i {
        return Err(NumberRefusal::Short);
    }
    let b = wide(s[i]);
    if b < 128 {
        return Ok((b, i + 1));
    }
    Err(NumberRefusal::Over)
}

// The group at byte i, in front of a number.
fn group(
    s: &[u8],
    i: usize,
    behind: Result<(usize, usize), NumberRefusal>,
) -> Result<(usize, usize), NumberRefusal>
    requires { i < 9_000_000_000_000_000_000 }
    ensures { result ≡ group_at s.now i (joined_group (get_or s.now i 0 - 128) behind) }
{
    if s.len() <= i {
        return Err(NumberRefusal::Short);
    }
    let b = wide(s[i]);
    if b < 128 {
        return Ok((b, i + 1));
    }
    join(b - 128, behind)
}

// The groups from byte i on, the last first.
fn read_groups(s: &[u8], i: usize) -> Result<(usize, usize), NumberRefusal>
    requires { i < 8_000_000_000_000_000_000 }
    ensures { result ≡ grouped s.now i 4 }
{
    let a = last_group(s, i + 4);
    let b = group(s, i + 3, a);
    let c = group(s, i + 2, b);
    let d = group(s, i + 1, c);
    group(s, i, d)
}

fn read_plain(s: &[u8], i: usize) -> Result<(usize, usize), NumberRefusal>
    requires { i < 8_000_000_000_000_000_000 }
    ensures { Found Form.Plain s.now i result }
{
    if s.len() < i + 4 {
        return Err(NumberRefusal::Short);
    }
    Ok((number_at(s, i) as usize, i + 4))
}

// The number at byte i and the place behind it.
pub fn read_number(form: Form, s: &[u8], i: usize) -> Result<(usize, usize), NumberRefusal>
    requires { i < 8_000_000_000_000_000_000 }
    ensures { Found form s.now i result }
{
    match form {
        Form::Plain => read_plain(s, i),
        Form::Groups => read_groups(s, i),
    }
}

fn put_one(out: &mut [u8], i: usize, b: usize) -> usize
    requires { (i < 9_000_000_000_000_000_000) × (b < 256) }
    ensures { Puts out.old i (b ∷ []) out.new result × (result ≡ i + 1) }
{
    let bytes = [b as u8];
    put_text(out, i, &bytes)
}

fn put_groups(out: &mut [u8], i: usize, n: usize) -> usize
    requires { (i < 8_000_000_000_000_000_000) × (n < 4_294_967_296) }
    ensures { Puts out.old i (groups_of 4 n) out.new result × (result ≤ i + 5) }
{
    let mut at = i;
    let mut rest = n;
    while 128 <= rest {
        at = put_one(out, at, 128 + rest % 128);
        rest = rest / 128;
    }
    put_one(out, at, rest)
}

// The bytes of a number from place i on: answers the place behind them.
pub fn put_number(form: Form, out: &mut [u8], i: usize, n: usize) -> usize
    requires { (i < 8_000_000_000_000_000_000) × (n < 4_294_967_296) }
    ensures { Puts out.old i (number_of form n) out.new result × (result ≤ i + 5) }
{
    match form {
        Form::Plain => slip_write::put_number(out, i, n as u32),
        Form::Groups => put_groups(out, i, n),
    }
}
