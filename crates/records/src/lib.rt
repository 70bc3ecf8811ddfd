// The writer over a lent list of records: a thin cover over the word-table writer, with the same answers.
// What it answers and writes is the word writer's on the records' images.
#![tactic(auto)]

ghost use Rattle.std.specs.Prelude.{◌≡◌, ◌<◌, ◌≤◌, length};
ghost use Rattle.writer.specs.Writes.{Writes};
ghost use Rattle.rows.specs.Meaning.{mark_code};
ghost use Rattle.records.specs.Images.{width_of, row_with, image_of, put_image, image_table};

use refusal::Refusal;
use rows::{Content, Part, Row, RowWords};
use tagset::TagSet;
use writer::Written;

// The catalogue's one length for a tag, 0 where it has none or more.
fn width_of(tag: u64) -> usize
    ensures { result ≡ width_of tag }
{
    match items::item_of(tag) {
        Some(item) => item.width,
        None => 0,
    }
}

// The code of so many bytes with only the top bit set; `rows` only asks whether a code is one.
fn mark_code(width: usize) -> u64
    requires { width ≤ 8 }
    ensures { result ≡ mark_code width }
{
    if width == 0 {
        return 1;
    }
    1 << (8 * width - 1)
}

// The kind of a row whose place and length a word cannot hold: a word of the table, which the writer refuses by its number.
const NO_KIND: u64 = 0;

// The four words of a kind and a code, and of where the bytes stand.
fn row_with(tag: u64, kind: u64, code: u64, part: Part) -> RowWords
    ensures { result ≡ row_with tag kind code part }
{
    let place = part.place;
    let length = part.length;
    if place < 281_474_976_710_656 && length < 65536 {
        return RowWords {
            tag,
            kind,
            code,
            part: place as u64 * 65536 + length as u64,
        };
    }
    RowWords {
        tag,
        kind: NO_KIND,
        code: 0,
        part: 0,
    }
}

// The four words of a record. No `From`, since both types are of another crate.
fn image_of(row: Row) -> RowWords
    ensures { result ≡ image_of row }
{
    let tag = row.tag;
    let content = row.content;
    match content {
        // a number stands at place 0
        Content::Reading { code, length } => {
            row_with(tag, rows::READING, code, Part { place: 0, length })
        }
        Content::Mark => {
            let length = width_of(tag);
            let code = mark_code(length);
            row_with(tag, rows::MARK, code, Part { place: 0, length })
        }
        Content::Text(part) => row_with(tag, rows::TEXT, 0, part),
        Content::Carried(part) => row_with(tag, rows::CARRIED, 0, part),
        Content::Withdrawn => {
            let nothing = Part {
                place: 0,
                length: 0,
            };
            row_with(tag, rows::WITHDRAWN, 0, nothing)
        }
    }
}

// A record's words as row n of the table.
fn put_record(table: &mut [u64; 512], n: usize, row: Row)
    requires { n < 128 }
    ensures { table.new ≡ put_image table.old n (image_of row) }
{
    let words = image_of(row);
    table[4 * n..4 * n + 4].copy_from_slice(&[words.tag, words.kind, words.code, words.part]);
}

// The words of as many records as have room, and zeros after them.
fn table_of(records: &[Row]) -> [u64; 512]
    ensures { result ≡ image_table records.now }
{
    let mut table = [0; 512];
    for n in 0..records.len().min(128) {
        put_record(&mut table, n, records[n]);
    }
    table
}

// Writes the records as a packet, with the buffer that text and carried records point into.
pub fn write_records(
    known: TagSet,
    records: &[Row],
    buffer: &[u8],
    out: &mut [u8],
) -> Result<Written, Refusal>
    ensures { Writes known (length records.now) (image_table records.now)
        buffer.now out.old result out.new }
{
    writer::write(known, records.len(), &table_of(records), buffer, out)
}

// The same for an array of three, whose callers lend no records themselves.
pub fn write_three(
    known: TagSet,
    records: [Row; 3],
    buffer: &[u8],
    out: &mut [u8],
) -> Result<Written, Refusal>
    ensures { Writes known (length records) (image_table records) buffer.now out.old result out.new }
{
    write_records(known, &records, buffer, out)
}
