// The reader: from a packet to a table of rows in lent words.
// An accepted packet fills the table with its rows and zeros up to word 512; a refusal leaves every word.
#![tactic(auto)]

ghost use Rattle.std.specs.Prelude.{◌≡◌, ◌+◌, ◌-◌, ◌*◌, ◌/◌, ◌^◌, ◌<◌, ◌≤◌, length};
ghost use Rattle.tagset.specs.Sets.{holds};
ghost use Rattle.refusal.specs.Answer.{given};
ghost use Rattle.catalogue.specs.code.Column.{shape_byte};
ghost use Rattle.packet.specs.Said.{header_at};
ghost use Rattle.packet.specs.code.Headers.{item_by};
ghost use Rattle.packet.specs.Rows.{shape_for, row_of, table_of};
ghost use Rattle.reader.specs.Reads.{Reads};
ghost use Rattle.reader.specs.code.Filling.{ItemAt, top_of, kind_by, put_row, Narrow, AcceptsFrom, items_of};

use catalogue::ShapeColumn;
use packet::Header;
use refusal::{Reason, Refusal, refused};
use rows::{Filled, RowWords};
use tagset::TagSet;

// Any item of an accepted packet.
fn any_header_at(packet: &[u8], at: usize) -> Header
    requires { ItemAt packet.now at }
    ensures { header_at packet.now at ≡ given result }
{
    match packet::item_at(packet, at) {
        Ok(item) => item,
        Err(_) => Header {
            tag: 0,
            start: at,
            place: at,
            size: 0,
        },
    }
}

// Most have a tag and a length of one byte each.
fn header_at(packet: &[u8], at: usize) -> Header
    requires { ItemAt packet.now at }
    ensures { header_at packet.now at ≡ given result }
{
    let after = at + 1;
    if 128 <= (packet[at] | packet[after]) {
        return any_header_at(packet, at);
    }
    Header {
        tag: u64::from(packet[at]),
        start: at,
        place: after + 1,
        size: usize::from(packet[after]),
    }
}

// The byte of a tag's shape, as a receiver sees it: it carries what it does not know.
fn byte_for(shapes: &ShapeColumn, known: TagSet, tag: u64) -> u64
    ensures { result ≡ shape_byte (shape_for (holds known) tag) }
{
    if tagset::has(known, tag) {
        return u64::from(shapes.column[tag as usize]);
    }
    0x40
}

// So many lowest bytes of a word, moved to its top.
fn topmost(word: u64, width: u64) -> u64
    requires { width ≤ 8 }
    ensures { result ≡ top_of width word }
{
    let half = 32 - 4 * width;
    word << half << half
}

// And back from there, alone.
fn lowest(top: u64, width: u64) -> u64
    requires { width ≤ 8 }
    ensures { result ≡ top / 2 ^ (64 - 8 * width) }
{
    let half = 32 - 4 * width;
    top >> half >> half
}

// The kind by a shape's byte: a mark has the number after a reading's. A code at the top is the mark where only the top bit is set; what has no bytes
// is withdrawn, if it is known. Kinds are words of the table, which the C interface lends.
fn kind_by(byte: u64, size: u64, top: u64) -> u64
    requires { byte < 256 }
    ensures { result ≡ kind_by byte size top }
{
    let kind = byte / 16 % 8;
    if size == 0 {
        if kind == rows::CARRIED {
            return rows::CARRIED;
        }
        return rows::WITHDRAWN;
    }
    if top == 0x8000_0000_0000_0000 {
        return kind + byte / 128;
    }
    kind
}

// The row of an item. The eight bytes that end with its value are there, for it stands past the key; of them a number has as many as its length,
// which lies within the mask, and text and carried bytes have none.
fn row_of(packet: &[u8], shapes: &ShapeColumn, known: TagSet, item: Header) -> RowWords
    requires { (item.place + item.size ≤ length packet.now) × (length packet.now ≤ 8192)
        × Narrow (shape_for (holds known) item.tag) item.size × (8 ≤ item.place + item.size) }
    ensures { result ≡ row_of (holds known) (item_by packet.now item) }
{
    let end = item.place + item.size;
    let byte = byte_for(shapes, known, item.tag);
    let place = item.place as u64;
    let size = item.size as u64;
    let width = size & (byte % 16);
    let top = topmost(number::value(&packet[end - 8..end]), width);
    RowWords {
        tag: item.tag,
        kind: kind_by(byte, size, top),
        code: lowest(top, width),
        part: place * 65536 + size,
    }
}

// A row's four words, at its place in the table. One by one: by copy_from_slice a full packet is read with a tenth more instructions.
fn put_row(table: &mut [u64], n: usize, row: RowWords)
    requires { (n < 128) × (4 * n + 4 ≤ length table.old) }
    ensures { table.new ≡ put_row table.old n row }
{
    let at = 4 * n;
    table[at] = row.tag;
    table[at + 1] = row.kind;
    table[at + 2] = row.code;
    table[at + 3] = row.part;
}

// The rows of an accepted packet, so many from a place on, one after another; then zeros up to word 512.
fn fill(packet: &[u8], from: usize, count: usize, known: TagSet, table: &mut [u64])
    requires { AcceptsFrom known packet.now from count × (count ≤ 128) × (512 ≤ length table.old) }
    ensures { table.new ≡ table_of (holds known) (items_of known packet.now) table.old }
{
    let shapes = catalogue::shapes();
    let mut here = from;
    for n in 0..count {
        let item = header_at(packet, here);
        put_row(table, n, row_of(packet, &shapes, known, item));
        here = item.place + item.size;
    }
    table[4 * count..512].fill(0);
}

// Reads a packet into a table of at least 512 words: rows, then zeros up to word 512. A refusal leaves every word as it was.
pub fn read(packet: &[u8], known: TagSet, table: &mut [u64]) -> Result<Filled, Refusal>
    ensures { Reads known packet.now table.old result table.new }
{
    if !knowing::is_good(known) {
        return refused(Reason::SetNotGood, 0, 0);
    }
    let short = table.len() < 512;
    if short {
        return refused(Reason::TableTooShort, 0, 0);
    }
    let checked = packet::check(packet, known);
    let accepted = checked?;
    let count = accepted.count;
    fill(packet, accepted.from, count, known, table);
    Ok(Filled {
        count,
        present: accepted.present,
        withdrawn: accepted.withdrawn,
    })
}
