// The listing of a packet, as a person reads it: a line for each row, or one line for a refusal, in a lent output.
// The contract gives every byte; an output that is too short is left as it was.
#![tactic(auto)]

ghost use Rattle.std.specs.Prelude.{◌≡◌, ◌<◌, ◌++◌, leb, length};
ghost use Rattle.base.specs.Putting.{Room, Wrote};
ghost use Rattle.refusal.specs.Numbers.{number};
ghost use Rattle.refusal.specs.Answer.{answer_said};
ghost use Rattle.rows.specs.Taken.{part_place, part_length, row_at};
ghost use Rattle.packet.specs.Rows.{rows_in, bytes_at};
ghost use Rattle.scale.specs.Conversions.{to_house};
ghost use Rattle.spelling.specs.Spelling.{decimal, whole, hex};
ghost use Rattle.listing.specs.Lines.{header, field, content_text, line_of, lines_of, refused_line};
ghost use Rattle.listing.specs.Listing.{listing_of};
ghost use Rattle.listing.specs.Lists.{Lists};
ghost use Rattle.listing.specs.Accepted.{ListsAccepted};
ghost use Rattle.listing.specs.code.Writes.{HasRoom, Writes};
ghost use Rattle.listing.specs.code.Listable.{InPacket, Listable, listable_prop, reading_text};

use refusal::{Reason, Refusal, refused};
use rows::RowWords;
use scale::House;

// No listing has more bytes.
pub const LARGEST: usize = 21781;

// A lent output, and the place in it that is put to next.
#[derive(Drop)]
struct Output<'a> {
    bytes: &'a mut [u8],
    at: usize,
}

impl Output<'_> {
    // Text as it is.
    fn word(&mut self, word: &[u8])
        requires { HasRoom self.old word.now }
        ensures { Writes self.old word.now self.new }
    {
        self.at += spelling::put_text(self.bytes, self.at, word);
    }

    fn decimal(&mut self, n: u64)
        requires { HasRoom self.old (decimal n) }
        ensures { Writes self.old (decimal n) self.new }
    {
        self.at += spelling::put_decimal(self.bytes, self.at, n);
    }

    fn whole(&mut self, value: i64)
        requires { HasRoom self.old (whole value) }
        ensures { Writes self.old (whole value) self.new }
    {
        self.at += spelling::put_whole(self.bytes, self.at, value);
    }

    fn hex(&mut self, value: &[u8])
        requires { HasRoom self.old (hex value.now) }
        ensures { Writes self.old (hex value.now) self.new }
    {
        self.at += spelling::put_hex(self.bytes, self.at, value);
    }

    // A number and a tab.
    fn field(&mut self, n: u64)
        requires { HasRoom self.old (field n) }
        ensures { Writes self.old (field n) self.new }
    {
        self.decimal(n);
        self.word(b"\t");
    }
}

// A row of a packet in which its value lies. Its kind is a word of the table (rows::READING and the others), which the C interface lends.
#[derive(Clone, Copy)]
struct Line<'a> {
    packet: &'a [u8],
    row: RowWords,
    ghost inside: { InPacket packet.now row },
}

impl Line<'_> {
    fn place(&self) -> u64
        ensures { result ≡ part_place self.now.row.part }
    {
        self.row.part / 65536
    }

    fn length(&self) -> usize
        ensures { result ≡ part_length self.now.row.part }
    {
        (self.row.part % 65536) as usize
    }

    // The bytes of text or of a carried value.
    fn value(&self) -> &[u8]
        ensures { result.now ≡ bytes_at self.now.packet.now self.now.row }
    {
        let place = self.place() as usize;
        &self.packet[place..place + self.length()]
    }

    // A reading in house units, where it is scaled.
    fn house(&self) -> Result<House, Refusal>
        ensures { answer_said result ≡ to_house self.now.row.tag (part_length self.now.row.part) self.now.row.code }
    {
        scale::to_house(self.row.tag, self.length(), self.row.code)
    }

    // How many characters a reading has: in house units where scaled, else its code.
    fn number_size(&self) -> usize
        ensures { result ≡ length (reading_text self.now.row) }
    {
        match self.house() {
            Ok(house) => spelling::whole_size(house.value),
            Err(_) => spelling::decimal_size(self.row.code),
        }
    }

    // How many its kind and value have, with the tab between them.
    fn content_size(&self) -> usize
        ensures { result ≡ length (content_text self.now.packet.now self.now.row) }
    {
        match self.row.kind {
            rows::READING => 7 + self.number_size(),
            rows::MARK => 6,
            rows::TEXT => 5 + 2 * self.length(),
            rows::WITHDRAWN => 10,
            _ => 8 + 2 * self.length(),
        }
    }

    fn size(&self) -> usize
        ensures { result ≡ length (line_of self.now.packet.now self.now.row) }
    {
        let fields = spelling::decimal_size(self.place())
            + spelling::decimal_size(self.row.tag)
            + 2;
        fields + self.content_size() + 1
    }

    // A reading: in house units where scaled, else its code.
    fn put_number(&self, out: &mut Output)
        requires { HasRoom out.old (reading_text self.now.row) }
        ensures { Writes out.old (reading_text self.now.row) out.new }
    {
        match self.house() {
            Ok(house) => out.whole(house.value),
            Err(_) => out.decimal(self.row.code),
        }
    }

    // Its kind and value, with the tab between them.
    fn put_content(&self, out: &mut Output)
        requires { HasRoom out.old (content_text self.now.packet.now self.now.row) }
        ensures { Writes out.old (content_text self.now.packet.now self.now.row) out.new }
    {
        match self.row.kind {
            rows::READING => {
                out.word(b"number\t");
                self.put_number(out);
            }
            rows::MARK => out.word(b"mark\t-"),
            rows::TEXT => {
                out.word(b"text\t");
                out.hex(self.value());
            }
            rows::WITHDRAWN => out.word(b"withdrawn\t"),
            _ => {
                out.word(b"carried\t");
                out.hex(self.value());
            }
        }
    }

    fn put(&self, out: &mut Output)
        requires { HasRoom out.old (line_of self.now.packet.now self.now.row) }
        ensures { Writes out.old (line_of self.now.packet.now self.now.row) out.new }
    {
        out.field(self.place());
        out.field(self.row.tag);
        self.put_content(out);
        out.word(b"\n");
    }
}

// The rows of an accepted packet, of which each is a line.
#[derive(Clone, Copy)]
struct Table<'a> {
    packet: &'a [u8],
    words: &'a [u64],
    count: usize,
    ghost listable: { Listable packet.now (rows_in 0 count words.now) } by { listable_prop packet.now (rows_in 0 count words.now) },
}

impl<'a> Table<'a> {
    fn line(&self, n: usize) -> Line<'a>
        requires { n < self.now.count }
        ensures { (result.packet.now ≡ self.now.packet.now) × (result.row ≡ row_at self.now.words.now n) }
    {
        Line {
            packet: self.packet,
            row: rows::row_at(self.words, n),
        }
    }

    fn size(&self) -> usize
        ensures { result ≡ length (lines_of self.now.packet.now (rows_in 0 self.now.count self.now.words.now)) }
    {
        let mut size: usize = 0;
        for n in 0..self.count {
            size += self.line(n).size();
        }
        size
    }

    // Whether the header and the lines fit: by the most that so many lines take, and only where that is more than there is by their size.
    fn fits(&self, room: usize) -> bool
        ensures { result ≡ leb (length (header ++ lines_of self.now.packet.now (rows_in 0 self.now.count self.now.words.now))) room }
    {
        let most = 21 + 42 * self.count + 2 * self.packet.len();
        if most <= room {
            return true;
        }
        21 + self.size() <= room
    }

    fn put_lines(&self, out: &mut Output)
        requires { HasRoom out.old (lines_of self.now.packet.now (rows_in 0 self.now.count self.now.words.now)) }
        ensures { Writes out.old (lines_of self.now.packet.now (rows_in 0 self.now.count self.now.words.now)) out.new }
    {
        for n in 0..self.count {
            self.line(n).put(out);
        }
    }

    // The header and the lines, where they fit.
    fn list(&self, out: &mut [u8]) -> Result<usize, Refusal>
        ensures { Lists (header ++ lines_of self.now.packet.now (rows_in 0 self.now.count self.now.words.now)) out.old result out.new }
    {
        let fit = self.fits(out.len());
        if !fit {
            return refused(Reason::OutputTooShort, 0, 0);
        }
        let mut text = Output { bytes: out, at: 0 };
        text.word(b"place\ttag\tkind\tvalue\n");
        self.put_lines(&mut text);
        Ok(text.at)
    }
}

fn put_refusal(out: &mut [u8], n: u64, place: u64, tag: u64) -> usize
    requires { Room out.old 0 (refused_line n place tag) }
    ensures { Wrote out.old 0 (refused_line n place tag) result out.new }
{
    let mut line = Output { bytes: out, at: 0 };
    line.word(b"refused\t");
    line.field(n);
    line.field(place);
    line.decimal(tag);
    line.word(b"\n");
    line.at
}

// The one line of a refusal.
fn list_refusal(refusal: Refusal, out: &mut [u8]) -> Result<usize, Refusal>
    ensures { Lists (refused_line (number refusal.reason) refusal.place refusal.tag) out.old result out.new }
{
    let n = refusal::number_of(refusal.reason);
    let place = refusal.place as u64;
    let tag = refusal.tag;
    let numbers = spelling::decimal_size(n) + spelling::decimal_size(place);
    let size = numbers + spelling::decimal_size(tag) + 11;
    if out.len() < size {
        return refused(Reason::OutputTooShort, 0, 0);
    }
    Ok(put_refusal(out, n, place, tag))
}

// Lists a packet for a reader of the whole catalogue: how many bytes of the output the listing takes. An output that is too short is left as it
// was, and so are its bytes after the listing.
pub fn list(packet: &[u8], out: &mut [u8]) -> Result<usize, Refusal>
    ensures { Lists (listing_of packet.now) out.old result out.new }
{
    let mut words = [0u64; 512];
    match reader::read(packet, catalogue::all_tags(), &mut words) {
        Err(refusal) => list_refusal(refusal, out),
        Ok(filled) => {
            let table = Table {
                packet,
                words: &words,
                count: filled.count,
            };
            table.list(out)
        }
    }
}

// The same of an accepted packet alone: for another its refusal is the answer, and the output is left as it was.
pub fn list_accepted(packet: &[u8], out: &mut [u8]) -> Result<usize, Refusal>
    ensures { ListsAccepted packet.now out.old result out.new }
{
    let mut words = [0u64; 512];
    let filled = reader::read(packet, catalogue::all_tags(), &mut words)?;
    let table = Table {
        packet,
        words: &words,
        count: filled.count,
    };
    table.list(out)
}
