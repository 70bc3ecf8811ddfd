// Rows: what a receiver makes of an item, and a row taken out of a table by itself.
// A row is bad exactly where document 01 says so, and what is taken out is what the row says, for every table and buffer.
#![tactic(auto)]

ghost use Rattle.std.specs.Prelude.{◌≡◌, ◌+◌, ◌*◌, length, get_or, eqb, cond};
ghost use Rattle.refusal.specs.Answer.{answer_said};
ghost use Rattle.tagset.specs.Sets.{holds};
ghost use Rattle.catalogue.specs.code.Column.{shape_in};
ghost use Rattle.catalogue.specs.declared.Shape.{Shape};
ghost use Rattle.rows.specs.Meaning.{kind_of, kind_for, value_as, mark_code, said_by};
ghost use Rattle.rows.specs.Taken.{row_good, tag_good, withdrawn_row_good, value_row_good, value_good, part_good, code_good, count_good, tag_shown};
ghost use Rattle.rows.specs.Taken.{row_at, part_of, content_of, row_taken, row_taken_at};

use catalogue::Shape;
use refusal::{Reason, Refusal, refused};
use tagset::TagSet;

// The four words of a row.
#[derive(Clone, Copy, Debug, PartialEq, Eq)]
pub struct RowWords {
    pub tag: u64,
    pub kind: u64,
    pub code: u64,
    pub part: u64,
}

// A filled table: how many rows it has, and as two words each the tags of those that are not carried and of those that are withdrawn.
#[derive(Clone, Copy, Debug, PartialEq, Eq)]
pub struct Filled {
    pub count: usize,
    pub present: TagSet,
    pub withdrawn: TagSet,
}

// Document 01's numbers of the kinds. No enum: they are compared with the words of the table that is lent, which may hold any number (C interface).
pub const READING: u64 = 1;

pub const MARK: u64 = 2;

pub const TEXT: u64 = 3;

pub const CARRIED: u64 = 4;

pub const WITHDRAWN: u64 = 5;

// The kind of an item, by its shape, its code and how many bytes it has: W-204's is the first to be asked for.
pub fn kind_of(shape: Shape, code: u64, size: usize) -> u64
    ensures { result ≡ kind_for shape code size }
{
    if catalogue::is_empty(shape, size) {
        return WITHDRAWN;
    }
    kind_of_value(shape, code)
}

fn kind_of_value(shape: Shape, code: u64) -> u64
    ensures { result ≡ kind_of (value_as {A = Unit {0}} shape code 0 tt) }
{
    match shape {
        Shape::Text => TEXT,
        Shape::Absent => CARRIED,
        Shape::Number { most, marked, .. } => {
            if marked && is_mark(most, code) {
                return MARK;
            }
            READING
        }
    }
}

// Whether only the top bit of a code of so many bytes is set.
fn is_mark(width: usize, code: u64) -> bool
    ensures { result ≡ eqb code (mark_code width) }
{
    if width == 0 {
        return code == 1;
    }
    width <= 8 && code == 1 << (8 * width - 1)
}

// The shape that a receiver gives a tag, by the column of shapes: it carries what it does not know.
pub fn shape_for(column: &[u8; 128], known: TagSet, tag: u64) -> Shape
    ensures { result ≡ cond (holds known tag) (shape_in column.now tag) Shape.Absent }
{
    if tagset::has(known, tag) {
        return catalogue::shape_at(column, tag);
    }
    Shape::Absent
}

// Whether a row is not bad, for a shape and a buffer of so many bytes: by its length it is withdrawn or has a value. Shape, room and row are no
// struct: the public functions take them one by one, and would take it apart at once.
pub fn is_good_row(shape: Shape, room: usize, row: RowWords) -> bool
    ensures { result ≡ row_good shape room row }
{
    let length = (row.part % 65536) as usize;
    if catalogue::is_empty(shape, length) {
        return is_good_withdrawal(row);
    }
    is_good_value_row(shape, room, row)
}

fn is_good_tag(tag: u64) -> bool
    ensures { result ≡ tag_good tag }
{
    0 < tag && tag < 2097152
}

// A withdrawn row: code 0, and no item that a packet needs; its place does not matter.
fn is_good_withdrawal(row: RowWords) -> bool
    ensures { result ≡ withdrawn_row_good row }
{
    is_good_tag(row.tag) && row.kind == WITHDRAWN && !catalogue::is_needed(row.tag) && row.code == 0
}

// Whether a row of some bytes, or a carried one, is not bad.
pub fn is_good_value_row(shape: Shape, room: usize, row: RowWords) -> bool
    ensures { result ≡ value_row_good shape room row }
{
    is_good_tag(row.tag)
        && row.kind == kind_of_value(shape, row.code)
        && is_good_value(shape, room, row)
}

fn is_good_value(shape: Shape, room: usize, row: RowWords) -> bool
    ensures { result ≡ value_good shape room row }
{
    match shape {
        Shape::Text | Shape::Absent => is_good_part(room, row.code, row.part),
        Shape::Number { .. } => {
            let length = (row.part % 65536) as usize;
            catalogue::allows_length(shape, length) && is_good_code(row.tag, length, row.code)
        }
    }
}

// Text and carried: code 0, and the place plus the length within the buffer.
fn is_good_part(room: usize, code: u64, part: u64) -> bool
    ensures { result ≡ part_good room code part }
{
    let place = (part / 65536) as usize;
    let length = (part % 65536) as usize;
    code == 0 && place + length <= room
}

// A number: not too wide for its length, the checksum's aside.
fn is_good_code(tag: u64, width: usize, code: u64) -> bool
    ensures { result ≡ code_good tag width code }
{
    if tag == 1 {
        return true;
    }
    8 <= width || code < 1 << (8 * width)
}

// A part of the buffer.
#[derive(Clone, Copy, Debug, PartialEq, Eq)]
pub struct Part {
    pub place: usize,
    pub length: usize,
}

// What a row holds: a reading's code and length, a mark, where text or carried bytes stand, or that the value no longer holds.
#[derive(Clone, Copy, Debug, PartialEq, Eq)]
pub enum Content {
    Reading { code: u64, length: usize },
    Mark,
    Text(Part),
    Carried(Part),
    Withdrawn,
}

// A row taken out singly.
#[derive(Clone, Copy, Debug, PartialEq, Eq)]
pub struct Row {
    pub tag: u64,
    pub content: Content,
}

// Whether so many rows can stand in so many words.
pub fn is_good_count(count: usize, lent: usize) -> bool
    ensures { result ≡ count_good count lent }
{
    count <= 128 && 4 * count <= lent
}

// The tag that a bad row is refused with: 0, which is no tag, where document 01 has none.
pub fn tag_shown(tag: u64) -> u64
    ensures { result ≡ tag_shown tag }
{
    if tag < 2097152 {
        return tag;
    }
    0
}

// Word k of the row numbered n, and 0 past the end.
fn word_at(words: &[u64], n: usize, k: usize) -> u64
    ensures { result ≡ get_or words.now (4 * n + k) 0 }
{
    let lent = words.len();
    if k < lent && n <= (lent - 1 - k) / 4 {
        return words[4 * n + k];
    }
    0
}

// The four words of the row numbered n, whether it is bad or not: asked once whether all four are lent, and one by one where they are not.
pub fn row_at(words: &[u64], n: usize) -> RowWords
    ensures { result ≡ row_at words.now n }
{
    if n < words.len() / 4 {
        let at = 4 * n;
        let tag = words[at];
        let kind = words[at + 1];
        let code = words[at + 2];
        let part = words[at + 3];
        return RowWords {
            tag,
            kind,
            code,
            part,
        };
    }
    RowWords {
        tag: word_at(words, n, 0),
        kind: word_at(words, n, 1),
        code: word_at(words, n, 2),
        part: word_at(words, n, 3),
    }
}

// Where a row's bytes stand. A function and no `From`, since what it takes is a number.
fn part_of(part: u64) -> Part
    ensures { result ≡ part_of part }
{
    Part {
        place: (part / 65536) as usize,
        length: (part % 65536) as usize,
    }
}

// What a row holds, by its kind, its code, and where its value stands.
pub fn content_of(kind: u64, code: u64, part: Part) -> Content
    ensures { result ≡ content_of (said_by kind code part.length part) }
{
    match kind {
        READING => Content::Reading {
            code,
            length: part.length,
        },
        MARK => Content::Mark,
        TEXT => Content::Text(part),
        WITHDRAWN => Content::Withdrawn,
        _ => Content::Carried(part),
    }
}

fn single(shape: Shape, room: usize, n: usize, row: RowWords) -> Result<Row, Refusal>
    ensures { answer_said result ≡ row_taken shape room n row }
{
    if is_good_row(shape, room, row) {
        let part = part_of(row.part);
        return Ok(Row {
            tag: row.tag,
            content: content_of(row.kind, row.code, part),
        });
    }
    refused(Reason::RowBad, n, tag_shown(row.tag))
}

// The row numbered n of count rows, with the buffer that text and carried rows point into: refused as the writer refuses it.
pub fn take_row(
    words: &[u64],
    count: usize,
    n: usize,
    known: TagSet,
    buffer: &[u8],
) -> Result<Row, Refusal>
    ensures { answer_said result ≡ row_taken_at known (length buffer.now) count n words.now }
{
    if knowing::is_good(known) {
        if is_good_count(count, words.len()) {
            if n < count {
                let row = row_at(words, n);
                let column = catalogue::shapes();
                let shape = shape_for(&column.column, known, row.tag);
                return single(shape, buffer.len(), n, row);
            }
            return refused(Reason::RowBad, n, 0);
        }
        return refused(Reason::RowCountTooLarge, 0, 0);
    }
    refused(Reason::SetNotGood, 0, 0)
}
