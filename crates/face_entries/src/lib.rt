// Entries of source pieces in faces: the Rust's `in_face`, a list of pieces for each face, linked through the buffer of face entries. To `enter` a link past
// `count` is none, so whatever the buffers hold it writes no entry but the new one and the one that it is put behind.
#![tactic(auto)]

ghost use Rattle.std.specs.Prelude.{◌≡◌, cond, ltb, length};
ghost use Rattle.buffers.specs.declared.Lack.TheVariants.{Entries};
ghost use Rattle.buffers.specs.Lack.{lack_number};
ghost use Rattle.buffers.specs.Lent.{given, left};
ghost use Rattle.face_entries.specs.Buffers.{part_number, part_of_number, first_entry_of, next_entry_of, part_at, entry_capacity, stored_in, entry_buffers, linked_in, entering, entered_number};

use buffers::{FaceId, Lack, read_u32, write_u32};
use layout::{
    ENTRY_LINK, ENTRY_PART, ENTRY_PIECE, TRIANGLE_FIRST_ENTRY, TRIANGLE_LAST_ENTRY,
    WORDS_PER_ENTRY, WORDS_PER_TRIANGLE,
};
pub use mesh as of_mesh;
pub use mesh::of_frames as of_frames;

// Which part of a source piece an entry is of: a point or a segment's end a, its end b, or the whole segment.
#[derive(Clone, Copy)]
pub enum Part {
    EndA,
    EndB,
    Whole,
}

// What an entry holds: the number of a source piece, and which part of it.
#[derive(Clone, Copy)]
pub struct PiecePart {
    pub piece: u32,
    pub part: Part,
}

pub fn part_number(part: Part) -> u32
    ensures { result ≡ part_number part }
{
    match part {
        Part::EndA => 0,
        Part::EndB => 1,
        Part::Whole => 2,
    }
}

pub fn part_of(number: u32) -> Part
    ensures { result ≡ part_of_number number }
{
    if number == 0 {
        return Part::EndA;
    }
    if number == 1 {
        return Part::EndB;
    }
    Part::Whole
}

// How many entries the buffer counts for.
pub fn capacity(entry_words: &[u32]) -> u32
    ensures { result ≡ entry_capacity (length entry_words.now) }
{
    buffers::slots(entry_words.len(), WORDS_PER_ENTRY)
}

// An entry that has none behind it.
fn store(entry_words: &mut [u32], number: u32, x: PiecePart)
    ensures { left entry_words ≡ stored_in (given entry_words) number x }
{
    let part = x.part;
    let kind = part_number(part);
    write_u32(entry_words, WORDS_PER_ENTRY, number, ENTRY_PIECE, x.piece);
    write_u32(entry_words, WORDS_PER_ENTRY, number, ENTRY_PART, kind);
    write_u32(entry_words, WORDS_PER_ENTRY, number, ENTRY_LINK, 0);
}

// A link is put behind that of a face's last entry, or where that is 0 it is the first.
fn put_behind(
    triangle_words: &mut [u32],
    entry_words: &mut [u32],
    face: FaceId,
    last: u32,
    link: u32,
)
    ensures { entry_buffers (left triangle_words) (left entry_words) ≡ linked_in (entry_buffers (given triangle_words) (given entry_words)) face.0 last link }
{
    write_u32(
        triangle_words,
        WORDS_PER_TRIANGLE,
        face.0,
        TRIANGLE_LAST_ENTRY,
        link,
    );
    if last == 0 {
        write_u32(
            triangle_words,
            WORDS_PER_TRIANGLE,
            face.0,
            TRIANGLE_FIRST_ENTRY,
            link,
        );
        return;
    }
    write_u32(entry_words, WORDS_PER_ENTRY, last - 1, ENTRY_LINK, link);
}

// A part of a piece is entered behind the entries of a face, where there are `count` entries in all (the Rust's `in_face.entry(g).or_default().push(..)`).
// The answer is how many there are now, or that there is no slot for one more.
pub fn enter(
    triangle_words: &mut [u32],
    entry_words: &mut [u32],
    count: u32,
    face: FaceId,
    piece: u32,
    part: Part,
) -> Result<u32, Lack>
    ensures entry_words_value { (result, entry_buffers (left triangle_words) (left entry_words))
        ≡ entering (entry_buffers (given triangle_words) (given entry_words)) count face.0 (record { piece = piece; part = part }) }
    ensures result_value { entered_number result ≡ cond (ltb count (entry_capacity (length (given entry_words)))) 0 (lack_number Entries) }
{
    if capacity(entry_words) <= count {
        return Err(Lack::Entries);
    }
    let x = PiecePart { piece, part };
    store(entry_words, count, x);
    let read = read_u32(
        triangle_words,
        WORDS_PER_TRIANGLE,
        face.0,
        TRIANGLE_LAST_ENTRY,
    );
    let last = chains::within(read, count);
    put_behind(triangle_words, entry_words, face, last, count + 1);
    Ok(count + 1)
}

// The link of a face's first entry: its number plus one, or 0 where it has none.
pub fn first_entry(triangle_words: &[u32], face: FaceId) -> u32
    ensures { result ≡ first_entry_of triangle_words.now face.0 }
{
    read_u32(
        triangle_words,
        WORDS_PER_TRIANGLE,
        face.0,
        TRIANGLE_FIRST_ENTRY,
    )
}

pub fn entry(entry_words: &[u32], number: u32) -> PiecePart
    ensures { result ≡ part_at entry_words.now number }
{
    let piece = read_u32(entry_words, WORDS_PER_ENTRY, number, ENTRY_PIECE);
    let part = part_of(read_u32(entry_words, WORDS_PER_ENTRY, number, ENTRY_PART));
    PiecePart { piece, part }
}

// The link of the entry behind one, of the same face.
pub fn next_entry(entry_words: &[u32], number: u32) -> u32
    ensures { result ≡ next_entry_of entry_words.now number }
{
    read_u32(entry_words, WORDS_PER_ENTRY, number, ENTRY_LINK)
}
