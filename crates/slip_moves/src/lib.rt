// A slip moved from one form to another: checked and counted first, then written.
#![tactic(auto)]

ghost use Rattle.std.specs.Prelude.{◌≡◌, [], ◌∷◌, ℕ, ◌+◌, ◌*◌, ◌≤◌, ◌<◌, length, get_or};
ghost use Rattle.text_out.specs.Text.{Puts};
ghost use Rattle.slip_moves.specs.declared.MoveRefusal.TheVariants.{Slip};
ghost use Rattle.slip_moves.specs.Moves.{slip_refusal_number, number_refusal, moved_number, length_moved, counts_at, form_head_at, first_byte, head_bytes, bytes_moved, ends_size, number_moved, numbers_moved, piece_of_kind, piece_moved, pieces_moved, mesh_moved, rest_moved, body_moved, ended, then, slip_moved, moving, Moves, SmallCounts};

use groups::{Form, NumberRefusal, put_number, read_number};
use text_out::put_text;

#[derive(Clone, Copy, PartialEq, Eq, Debug)]
pub enum Refusal {
    TooShort,
    LeftOver,
    UnknownKind,
    NotGroups,
    TooManyGroups,
}

// The number of a refusal in documents 01 and 02.
pub fn refusal_number(refusal: Refusal) -> u32
    ensures { result ≡ slip_refusal_number refusal }
{
    match refusal {
        Refusal::TooShort => 30,
        Refusal::LeftOver => 31,
        Refusal::UnknownKind => 32,
        Refusal::NotGroups => 34,
        Refusal::TooManyGroups => 35,
    }
}

// A slip is refused where a number in it is.
impl From<NumberRefusal> for Refusal {
    ghost from_gives = { λ why refusal. refusal ≡ number_refusal why };

    fn from(why: NumberRefusal) -> Refusal {
        match why {
            NumberRefusal::Short => Refusal::TooShort,
            NumberRefusal::Over => Refusal::TooManyGroups,
        }
    }
}

// The counts of vertices, triangles and pieces and the place behind them.
#[derive(Clone, Copy)]
pub struct Counts {
    pub vertices: usize,
    pub triangles: usize,
    pub pieces: usize,
    pub next: usize,
}

// Why a slip is not moved: the output is too short, and how long it would have to be, or the slip is refused.
#[derive(Clone, Copy, PartialEq, Eq, Debug)]
pub enum MoveRefusal {
    NoRoom(usize),
    Slip(Refusal),
}

impl From<Refusal> for MoveRefusal {
    ghost from_gives = { λ why refusal. refusal ≡ Slip why };

    fn from(why: Refusal) -> MoveRefusal {
        MoveRefusal::Slip(why)
    }
}

// The number of an answer, and the length that it tells.
pub fn moved_number(moved: Result<usize, MoveRefusal>) -> u32
    ensures { result ≡ moved_number moved }
{
    match moved {
        Ok(_) => 0,
        Err(MoveRefusal::NoRoom(_)) => 36,
        Err(MoveRefusal::Slip(why)) => refusal_number(why),
    }
}

pub fn moved_length(moved: Result<usize, MoveRefusal>) -> usize
    ensures { result ≡ length_moved moved }
{
    match moved {
        Ok(n) => n,
        Err(MoveRefusal::NoRoom(n)) => n,
        Err(MoveRefusal::Slip(_)) => 0,
    }
}

// ---- the head

fn read_counts(form: Form, s: &[u8], i: usize) -> Result<Counts, Refusal>
    requires { i ≤ 1 }
    ensures { (result ≡ counts_at form s.now i) × SmallCounts result 16 }
{
    let (vertices, j) = read_number(form, s, i)?;
    let (triangles, k) = read_number(form, s, j)?;
    let (pieces, next) = read_number(form, s, k)?;
    Ok(Counts {
        vertices,
        triangles,
        pieces,
        next,
    })
}

fn read_groups_head(s: &[u8]) -> Result<Counts, Refusal>
    ensures { (result ≡ form_head_at Form.Groups s.now) × SmallCounts result 16 }
{
    if s.len() == 0 {
        return Err(Refusal::TooShort);
    }
    if s[0] != 2 {
        return Err(Refusal::NotGroups);
    }
    read_counts(Form::Groups, s, 1)
}

// The first byte, where the form has one, and the counts.
pub fn read_head(form: Form, s: &[u8]) -> Result<Counts, Refusal>
    ensures { (result ≡ form_head_at form s.now) × SmallCounts result 16 }
{
    match form {
        Form::Plain => read_counts(Form::Plain, s, 0),
        Form::Groups => read_groups_head(s),
    }
}

fn put_first_byte(form: Form, out: &mut [u8]) -> usize
    ensures { Puts out.old 0 (first_byte form) out.new result × (result ≤ 1) }
{
    match form {
        Form::Plain => 0,
        Form::Groups => put_text(out, 0, b"\x02"),
    }
}

fn put_head(form: Form, out: &mut [u8], vertices: usize, triangles: usize, pieces: usize) -> usize
    requires { (vertices < 4_294_967_296) × ((triangles < 4_294_967_296) × (pieces < 4_294_967_296)) }
    ensures { Puts out.old 0 (head_bytes form vertices triangles pieces) out.new result × (result ≤ 16) }
{
    let a = put_first_byte(form, out);
    let b = put_number(form, out, a, vertices);
    let c = put_number(form, out, b, triangles);
    put_number(form, out, c, pieces)
}

// ---- the parts, from byte i on to place o: what is answered are the places behind them in the slip and in the output

fn move_bytes(
    s: &[u8],
    i: usize,
    n: usize,
    out: &mut [u8],
    o: usize,
) -> Result<(usize, usize), Refusal>
    requires { (i < 4_000_000_000_000_000_000) × ((o < 4_000_000_000_000_000_000) × (n < 4_000_000_000_000_000_000)) }
    ensures { Moves out.old o (bytes_moved s.now n i) out.new result }
{
    let end = i + n;
    if s.len() < end {
        return Err(Refusal::TooShort);
    }
    let p = put_text(out, o, &s[i..end]);
    Ok((end, p))
}

fn move_number(
    from: Form,
    to: Form,
    s: &[u8],
    i: usize,
    out: &mut [u8],
    o: usize,
) -> Result<(usize, usize), Refusal>
    requires { (i < 4_000_000_000_000_000_000) × (o < 4_000_000_000_000_000_000) }
    ensures { Moves out.old o (number_moved from to s.now i) out.new result }
{
    let (n, next) = read_number(from, s, i)?;
    let p = put_number(to, out, o, n);
    Ok((next, p))
}

fn move_numbers(
    from: Form,
    to: Form,
    s: &[u8],
    i: usize,
    n: usize,
    out: &mut [u8],
    o: usize,
) -> Result<(usize, usize), Refusal>
    requires { (i < 1_000_000_000_000_000_000) × ((o < 1_000_000_000_000_000_000) × (n < 100_000_000_000)) }
    ensures { Moves out.old o (numbers_moved from to s.now n i) out.new result }
{
    let mut at = i;
    let mut p = o;
    for _ in 0..n {
        (at, p) = move_number(from, to, s, at, out, p)?;
    }
    Ok((at, p))
}

// How many bytes the ends of a piece of a kind have.
pub fn ends_size(kind: u8) -> usize
    ensures { (result ≡ ends_size kind) × (result ≤ 48) }
{
    if kind == 0 {
        return 24;
    }
    48
}

// A piece of a kind.
fn move_kind(
    from: Form,
    to: Form,
    s: &[u8],
    i: usize,
    kind: u8,
    out: &mut [u8],
    o: usize,
) -> Result<(usize, usize), Refusal>
    requires { (i < 2_000_000_000_000_000_000) × (o < 2_000_000_000_000_000_000) }
    ensures { Moves out.old o (piece_of_kind from to s.now kind i) out.new result }
{
    let (j, p) = move_bytes(s, i, 1, out, o)?;
    let (k, q) = move_number(from, to, s, j, out, p)?;
    move_bytes(s, k, ends_size(kind), out, q)
}

fn move_piece(
    from: Form,
    to: Form,
    s: &[u8],
    i: usize,
    out: &mut [u8],
    o: usize,
) -> Result<(usize, usize), Refusal>
    requires { (i < 2_000_000_000_000_000_000) × (o < 2_000_000_000_000_000_000) }
    ensures { Moves out.old o (piece_moved from to s.now i) out.new result }
{
    if s.len() <= i {
        return Err(Refusal::TooShort);
    }
    let kind = s[i];
    if 1 < kind {
        return Err(Refusal::UnknownKind);
    }
    move_kind(from, to, s, i, kind, out, o)
}

fn move_pieces(
    from: Form,
    to: Form,
    s: &[u8],
    i: usize,
    n: usize,
    out: &mut [u8],
    o: usize,
) -> Result<(usize, usize), Refusal>
    requires { (i < 1_000_000_000_000_000_000) × ((o < 1_000_000_000_000_000_000) × (n < 100_000_000_000)) }
    ensures { Moves out.old o (pieces_moved from to s.now n i) out.new result }
{
    let mut at = i;
    let mut p = o;
    for _ in 0..n {
        (at, p) = move_piece(from, to, s, at, out, p)?;
    }
    Ok((at, p))
}

fn move_mesh(
    from: Form,
    to: Form,
    s: &[u8],
    i: usize,
    vertices: usize,
    triangles: usize,
    out: &mut [u8],
    o: usize,
) -> Result<(usize, usize), Refusal>
    requires { (i ≤ 16) × ((o ≤ 16) × ((vertices < 4_294_967_296) × (triangles < 4_294_967_296))) }
    ensures { Moves out.old o (mesh_moved from to s.now vertices triangles i) out.new result }
{
    let (j, p) = move_bytes(s, i, 24 * vertices, out, o)?;
    let (k, q) = move_numbers(from, to, s, j, 3 * triangles, out, p)?;
    move_bytes(s, k, vertices, out, q)
}

// The pieces and the limit.
fn move_rest(
    from: Form,
    to: Form,
    s: &[u8],
    i: usize,
    pieces: usize,
    out: &mut [u8],
    o: usize,
) -> Result<(usize, usize), Refusal>
    requires { (i < 500_000_000_000_000_000) × ((o < 500_000_000_000_000_000) × (pieces < 4_294_967_296)) }
    ensures { Moves out.old o (rest_moved from to s.now pieces i) out.new result }
{
    let (j, p) = move_pieces(from, to, s, i, pieces, out, o)?;
    move_bytes(s, j, 8, out, p)
}

// What stands behind the counts, and nothing behind that.
fn move_body(
    from: Form,
    to: Form,
    s: &[u8],
    i: usize,
    vertices: usize,
    triangles: usize,
    pieces: usize,
    out: &mut [u8],
    o: usize,
) -> Result<(usize, usize), Refusal>
    requires { (i ≤ 16) × ((o ≤ 16) × ((vertices < 4_294_967_296) × ((triangles < 4_294_967_296) × (pieces < 4_294_967_296)))) }
    ensures { Moves out.old o (then (body_moved from to s.now vertices triangles pieces i) (ended s.now)) out.new result }
{
    let (j, p) = move_mesh(from, to, s, i, vertices, triangles, out, o)?;
    let (k, q) = move_rest(from, to, s, j, pieces, out, p)?;
    if k < s.len() {
        return Err(Refusal::LeftOver);
    }
    Ok((k, q))
}

// The whole slip from place 0 on; what is past the end of the output is left out, and counted all the same.
fn move_whole(from: Form, to: Form, s: &[u8], out: &mut [u8]) -> Result<(usize, usize), Refusal>
    ensures { Moves out.old 0 (slip_moved from to s.now) out.new result }
{
    let head = read_head(from, s)?;
    let o = put_head(to, out, head.vertices, head.triangles, head.pieces);
    move_body(
        from,
        to,
        s,
        head.next,
        head.vertices,
        head.triangles,
        head.pieces,
        out,
        o,
    )
}

// Moves a slip from one form to another, to the front of a slice, and answers how long it is there. Refused, or where the slice is too short, it writes nothing: a first pass only counts.
pub fn move_slip(from: Form, to: Form, s: &[u8], out: &mut [u8]) -> Result<usize, MoveRefusal>
    ensures { (result, out.new) ≡ moving from to s.now out.old }
{
    let mut none = [0u8; 1];
    let (_, n) = move_whole(from, to, s, &mut none)?;
    if out.len() < n {
        return Err(MoveRefusal::NoRoom(n));
    }
    move_whole(from, to, s, out)?;
    Ok(n)
}

// Moves a plain slip to groups, and back.
pub fn to_groups(s: &[u8], out: &mut [u8]) -> Result<usize, MoveRefusal>
    ensures { (result, out.new) ≡ moving Form.Plain Form.Groups s.now out.old }
{
    move_slip(Form::Plain, Form::Groups, s, out)
}

pub fn from_groups(s: &[u8], out: &mut [u8]) -> Result<usize, MoveRefusal>
    ensures { (result, out.new) ≡ moving Form.Groups Form.Plain s.now out.old }
{
    move_slip(Form::Groups, Form::Plain, s, out)
}
