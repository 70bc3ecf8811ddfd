// The writer: from a table of rows to a packet in a lent output.
// What is written reads back as the same table; a refusal leaves the whole output, and bytes after the packet stay.
#![tactic(auto)]

ghost use Rattle.std.specs.Prelude.{◌+◌, ◌<◌, ◌≤◌, ◌++◌, length, take, drop};
ghost use Rattle.number.specs.Stored.{bytes_of};
ghost use Rattle.base.specs.Putting.{Room, Wrote};
ghost use Rattle.ber.specs.Written.{tag_bytes, length_bytes};
ghost use Rattle.rows.specs.Taken.{part_length};
ghost use Rattle.packet.specs.Structure.{key};
ghost use Rattle.packet.specs.Encode.{item_bytes, encode};
ghost use Rattle.writer.specs.Writes.{WritesWith, Writes};
ghost use Rattle.writer.specs.code.Putting.{value_said, piece_said, table_bytes, table_pieces, CanPut, Rows, Ready};

use refusal::{Reason, Refusal, refused};
use rows::RowWords;
use tagset::TagSet;

// So many lowest bytes of a number, at a place of the output.
fn put_number(out: &mut [u8], at: usize, size: usize, x: u64)
    requires { at + size ≤ length out.old }
    ensures { Wrote out.old at (bytes_of size x) (at + size) out.new }
{
    let end = at + size;
    number::put(&mut out[at..end], x);
}

// A part of the buffer, at a place of the output; the place of no bytes does not matter.
fn copy(out: &mut [u8], at: usize, buffer: &[u8], place: usize, size: usize)
    requires { (at + size ≤ length out.old) × (0 < size → place + size ≤ length buffer.now) }
    ensures { Wrote out.old at (take size (drop place buffer.now)) (at + size) out.new }
{
    // byte by byte: a copy of the library's would ask memmove of C
    for i in 0..size {
        out[at + i] = buffer[place + i];
    }
}

// A row's value, by its kind, a word of the table: the bytes of its code, or those that it points at.
fn put_value(out: &mut [u8], at: usize, row: RowWords, buffer: &[u8])
    requires { CanPut buffer.now row × (at + part_length row.part ≤ length out.old) }
    ensures { Wrote out.old at (value_said buffer.now row) (at + part_length row.part) out.new }
{
    let place = (row.part / 65536) as usize;
    let size = (row.part % 65536) as usize;
    if row.kind < rows::TEXT {
        put_number(out, at, size, row.code);
    } else {
        copy(out, at, buffer, place, size);
    }
}

// What stands before a value, and the place after it: most have a tag and a length of one byte each.
fn put_header(out: &mut [u8], at: usize, tag: u64, size: u64) -> usize
    requires { (0 < tag) × Room out.old at (tag_bytes tag ++ length_bytes size) }
    ensures { Wrote out.old at (tag_bytes tag ++ length_bytes size) result out.new }
{
    if tag < 128 && size < 128 {
        out[at] = tag as u8;
        out[at + 1] = size as u8;
        return at + 2;
    }
    let after = at + ber::put_tag(out, at, tag);
    after + ber::put_length(out, after, size)
}

// A row's item, and the place after it.
fn put_item(out: &mut [u8], at: usize, row: RowWords, buffer: &[u8]) -> usize
    requires { CanPut buffer.now row × Room out.old at (item_bytes (piece_said buffer.now row)) }
    ensures { Wrote out.old at (item_bytes (piece_said buffer.now row)) result out.new }
{
    let size = row.part % 65536;
    let place = put_header(out, at, row.tag, size);
    put_value(out, place, row, buffer);
    place + size as usize
}

// All items, one after another, and the place after them.
// Count, words and buffer are handed on by two functions alone: a struct of the three would be no plainer.
fn put_rows(out: &mut [u8], from: usize, count: usize, words: &[u64], buffer: &[u8]) -> usize
    requires { Rows buffer.now count words.now × Room out.old from (table_bytes buffer.now count words.now) }
    ensures { Wrote out.old from (table_bytes buffer.now count words.now) result out.new }
{
    let mut at = from;
    for n in 0..count {
        at = put_item(out, at, rows::row_at(words, n), buffer);
    }
    at
}

// Key and length, and the place after them.
fn put_head(out: &mut [u8], items: usize) -> usize
    requires { Room out.old 0 (key ++ length_bytes items) }
    ensures { Wrote out.old 0 (key ++ length_bytes items) result out.new }
{
    put_number(out, 0, 8, 0x060E_2B34_020B_0101);
    put_number(out, 8, 8, 0x0E01_0301_0100_0000);
    16 + ber::put_length(out, 16, items as u64)
}

// The packet: what stands before the items, the items, and the checksum of all before its value.
fn put_packet(out: &mut [u8], size: usize, items: usize, count: usize, words: &[u64], buffer: &[u8])
    requires { Ready buffer.now count words.now size items (length out.old) }
    ensures { Wrote out.old 0 (encode (table_pieces buffer.now count words.now)) size out.new }
{
    let from = put_head(out, items);
    put_rows(out, from, count, words, buffer);
    let end = size - 2;
    let sum = u64::from(checksum::checksum(&out[..end]));
    put_number(out, end, 2, sum);
}

// A packet written: how many bytes of the output it takes.
#[derive(Clone, Copy)]
pub struct Written {
    pub size: usize,
}

// The packet of count rows in lent words, or the refusal, whatever was handed beside the rows.
fn write_handed(
    known: TagSet,
    handed: Option<TagSet>,
    count: usize,
    words: &[u64],
    buffer: &[u8],
    out: &mut [u8],
) -> Result<Written, Refusal>
    ensures { WritesWith known handed count words.now buffer.now out.old result out.new }
{
    let packed = outgoing::check_rows(known, handed, count, words, buffer)?;
    let size = packed.size;
    let short = out.len() < size;
    if short {
        return refused(Reason::OutputTooShort, 0, 0);
    }
    put_packet(out, size, packed.items, count, words, buffer);
    Ok(Written { size })
}

// Writes count rows in lent words as a packet, with the buffer that text and carried rows point into. Bytes of the output after
// the packet stay, and a refusal leaves all of them.
pub fn write(
    known: TagSet,
    count: usize,
    words: &[u64],
    buffer: &[u8],
    out: &mut [u8],
) -> Result<Written, Refusal>
    ensures { Writes known count words.now buffer.now out.old result out.new }
{
    write_handed(known, None, count, words, buffer, out)
}

// The same, handed the words that say which items are there: it refuses words that a scan of its rows would not give.
pub fn write_with(
    known: TagSet,
    present: TagSet,
    count: usize,
    words: &[u64],
    buffer: &[u8],
    out: &mut [u8],
) -> Result<Written, Refusal>
    ensures { WritesWith known (Some present) count words.now buffer.now out.old result out.new }
{
    write_handed(known, Some(present), count, words, buffer, out)
}
