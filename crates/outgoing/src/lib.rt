// What a table of rows comes to before it is written: the writer's refusals in their order, or the size of the packet.
// Nothing is written here, and no sum wraps for any table.
#![tactic(auto)]

ghost use Rattle.std.specs.Prelude.{◌≡◌, true, ℕ, ◌^◌, ◌<◌, ◌≤◌, length, IfSome};
ghost use Rattle.refusal.specs.Answer.{answer_said, map};
ghost use Rattle.tagset.specs.Sets.{holds};
ghost use Rattle.catalogue.specs.Extended.{is_extended};
ghost use Rattle.catalogue.specs.Shapes.{shape_of};
ghost use Rattle.rows.specs.Meaning.{shape_for};
ghost use Rattle.rows.specs.Present.{present_in};
ghost use Rattle.rows.specs.Taken.{part_length, row_at};
ghost use Rattle.packet.specs.Said.{fault_said};
ghost use Rattle.packet.specs.Rows.{rows_in};
ghost use Rattle.outgoing.specs.Outgoing.{right_rows, agrees, outgoing_with, packed_of};
ghost use Rattle.outgoing.specs.code.Staged.{row_size, rows_size, packed_by, row_fault, judged_in, ends_in, closed_in, sized_in, told_in};
ghost use Rattle.outgoing.specs.code.Glance.{PlainAs, Plain, PlainRows, PlainEnds, FitsPlainly};

use catalogue::{Shape, ShapeColumn};
use packet::{Ends, Looked};
use refusal::{Reason, Refusal, refused};
use rows::RowWords;
use tagset::TagSet;

// How many bytes the packet has, and how many of them its items.
#[derive(Clone, Copy)]
pub struct Packed {
    pub size: usize,
    pub items: usize,
}

// Whether the words handed beside the rows, if any were, are these.
fn words_right(handed: Option<TagSet>, present: TagSet) -> bool
    ensures { result ≡ agrees handed present }
{
    match handed {
        None => true,
        Some(words) => tagset::is_same(words, present),
    }
}

// How many bytes a row's value has.
fn length_of(row: RowWords) -> usize
    ensures { result ≡ part_length row.part }
{
    (row.part % 65536) as usize
}

// And its item.
fn row_size(row: RowWords) -> usize
    ensures { result ≡ row_size row }
{
    let length = length_of(row);
    ber::tag_size(row.tag) + ber::length_size(length as u64) + length
}

// And the packet: key, length, items.
fn packet_size(items: usize) -> Packed
    requires { items < 2 ^ 32 }
    ensures { result ≡ packed_by items }
{
    let size = 16 + ber::length_size(items as u64) + items;
    Packed { size, items }
}

// How many bytes the item of a known row has, where the row is plainly right and the first of its tag.
fn known_size(shape: Shape, room: usize, row: RowWords) -> Option<usize>
    ensures { IfSome result (PlainAs shape room row) }
{
    if rows::is_good_row(shape, room, row) {
        let looked = Looked {
            shape,
            tag: row.tag,
            size: length_of(row),
            code: row.code,
            twice: false,
        };
        packet::fault_of(looked).ok()?;
        return Some(row_size(row));
    }
    None
}

// The same of a row of some bytes, whose tests stand in the walk: with known_size in its place a write of the typical packet took 70 in 100 more.
fn value_size(shape: Shape, room: usize, row: RowWords) -> Option<usize>
    requires { part_length row.part ≡ 0 → ⊥ }
    ensures { IfSome result (PlainAs shape room row) }
{
    let size = length_of(row);
    if rows::is_good_value_row(shape, room, row)
        && catalogue::allows_length(shape, size)
        && catalogue::allows_code(row.tag, size, row.code)
    {
        return Some(row_size(row));
    }
    None
}

// The same of a row of an extended height, whatever the buffer: a code within reach has a right length and is not too wide for it.
fn height_size(row: RowWords) -> Option<usize>
    requires { is_extended row.tag ≡ true }
    ensures { (room : ℕ) → IfSome result (PlainAs (shape_of row.tag) room row) }
{
    if row.kind == rows::READING && catalogue::is_in_reach(length_of(row), row.code) {
        return Some(row_size(row));
    }
    None
}

// What a walk over the rows keeps: the tags seen, how many bytes their items have.
#[derive(Clone, Copy)]
struct Glance {
    seen: TagSet,
    items: usize,
}

// A table to be sent out: the catalogue's shapes, the receiver's tags, count rows in lent words, how many bytes text and carried rows can point
// into.
#[derive(Clone, Copy)]
struct Table<'a> {
    shapes: &'a ShapeColumn,
    known: TagSet,
    count: usize,
    words: &'a [u64],
    room: usize,
    ghost few: { count ≤ 128 },
}

impl<'a> Table<'a> {
    fn row(&self, n: usize) -> RowWords
        ensures { result ≡ row_at self.now.words.now n }
    {
        rows::row_at(self.words, n)
    }

    // The shape that the receiver gives a tag.
    fn shape_for(&self, tag: u64) -> Shape
        ensures { result ≡ shape_for (holds self.now.known) tag }
    {
        rows::shape_for(&self.shapes.column, self.known, tag)
    }

    // No row is bad, or the refusal of the first that is.
    fn rows_right(&self) -> Result<(), Refusal>
        ensures { answer_said result ≡ right_rows (holds self.now.known) self.now.room 0 (rows_in 0 self.now.count self.now.words.now) }
    {
        for n in 0..self.count {
            let row = self.row(n);
            if !rows::is_good_row(self.shape_for(row.tag), self.room, row) {
                return refused(Reason::RowBad, n, rows::tag_shown(row.tag));
            }
        }
        Ok(())
    }

    // The words of the rows, by a scan: a bit for each that is not carried.
    fn present(&self) -> TagSet
        ensures { result ≡ present_in (rows_in 0 self.now.count self.now.words.now) }
    {
        let mut present = TagSet { low: 0, high: 0 };
        for n in 0..self.count {
            let row = self.row(n);
            if row.kind != rows::CARRIED {
                present = tagset::with_tag(present, row.tag);
            }
        }
        present
    }

    // Whether the words handed are the rows' own; where nothing was handed, no row is looked at.
    fn rows_agree(&self, handed: Option<TagSet>) -> bool
        ensures { result ≡ agrees handed (present_in (rows_in 0 self.now.count self.now.words.now)) }
    {
        match handed {
            None => true,
            Some(_) => words_right(handed, self.present()),
        }
    }

    // How many bytes all items have together.
    fn items_size(&self) -> usize
        ensures { result ≡ rows_size (rows_in 0 self.now.count self.now.words.now) }
    {
        (0..self.count).map(|n| row_size(self.row(n))).sum()
    }

    // What is wrong with a row for a receiver: nothing where it does not know the tag.
    fn fault_at(&self, seen: TagSet, row: RowWords) -> Result<(), Reason>
        ensures { fault_said result ≡ row_fault self.now.known seen row }
    {
        let tag = row.tag;
        if tagset::has(self.known, tag) {
            let shape = self.shapes.of(tag);
            let twice = tagset::has(seen, tag);
            return packet::fault_of(Looked {
                shape,
                tag,
                size: length_of(row),
                code: row.code,
                twice,
            });
        }
        Ok(())
    }

    // Row by row the faults of known items, then item 65.
    fn judged(&self) -> Result<(), Refusal>
        ensures { answer_said result ≡ judged_in self.now.known self.now.count self.now.words.now }
    {
        let mut seen = TagSet { low: 0, high: 0 };
        for n in 0..self.count {
            let row = self.row(n);
            if let Err(reason) = self.fault_at(seen, row) {
                return refused(reason, n, row.tag);
            }
            seen = tagset::with_tag(seen, row.tag);
        }
        if tagset::has(seen, 65) {
            return Ok(());
        }
        refused(Reason::VersionMissing, 0, 0)
    }

    // The first and the last row, by their numbers.
    fn ends(&self) -> Ends
        ensures { result ≡ ends_in self.now.count self.now.words.now }
    {
        if self.count == 0 {
            return Ends {
                start: 0,
                first: 0,
                end: 0,
                last: 0,
                size: 0,
            };
        }
        let end = self.count - 1;
        let first = self.row(0);
        let last = self.row(end);
        Ends {
            start: 0,
            first: first.tag,
            end,
            last: last.tag,
            size: length_of(last),
        }
    }

    // The first and the last row before that.
    fn closed(&self, packed: Packed) -> Result<Packed, Refusal>
        ensures { answer_said result ≡ closed_in self.now.known self.now.count self.now.words.now packed }
    {
        packet::check_ends(self.ends())?;
        self.judged()?;
        Ok(packed)
    }

    // The total size before that.
    fn sized(&self) -> Result<Packed, Refusal>
        ensures { answer_said result ≡ sized_in self.now.known self.now.count self.now.words.now }
    {
        let packed = packet_size(self.items_size());
        let too_long = 8192 < packed.size;
        if too_long {
            return refused(Reason::PacketTooLong, 0, 0);
        }
        self.closed(packed)
    }

    // The words handed before that.
    fn told(&self, handed: Option<TagSet>) -> Result<Packed, Refusal>
        ensures { answer_said result ≡ told_in self.now.known handed self.now.count self.now.words.now }
    {
        if self.rows_agree(handed) {
            return self.sized();
        }
        refused(Reason::WordsDisagree, 0, 0)
    }

    // How many bytes the item of a row has, where the row is plainly right after some tags. Numbers, which most rows are, by themselves, so that their
    // tests go by a shape that is settled: value_size for all shapes, with no match, made a write of the small packet 6 in 100 slower.
    fn plain_size(&self, seen: TagSet, row: RowWords) -> Option<usize>
        ensures { IfSome result (Plain self.now.known seen self.now.room row) }
    {
        let tag = row.tag;
        if !tagset::has(self.known, tag) {
            if rows::is_good_value_row(Shape::Absent, self.room, row) {
                return Some(row_size(row));
            }
            return None;
        }
        if tagset::has(seen, tag) {
            return None;
        }
        if length_of(row) == 0 {
            return known_size(self.shapes.of(tag), self.room, row);
        }
        if catalogue::is_extended(tag) {
            return height_size(row);
        }
        let shape = self.shapes.of(tag);
        match shape {
            Shape::Number { .. } => value_size(shape, self.room, row),
            Shape::Text => known_size(shape, self.room, row),
            Shape::Absent => None,
        }
    }

    // All rows in one walk, which stops at the first that is not plainly right.
    fn rows_at_a_glance(&self) -> Option<Glance>
        ensures { IfSome result (λ g. PlainRows self.now.known self.now.room (rows_in 0 self.now.count self.now.words.now) g.seen g.items) }
    {
        let mut seen = TagSet { low: 0, high: 0 };
        let mut items: usize = 0;
        for n in 0..self.count {
            let row = self.row(n);
            let size = self.plain_size(seen, row)?;
            seen = tagset::with_tag(seen, row.tag);
            items += size;
        }
        Some(Glance { seen, items })
    }

    // The total size, and the first and the last row.
    fn ends_at_a_glance(&self, items: usize) -> Option<Packed>
        requires { items < 2 ^ 32 }
        ensures { IfSome result (PlainEnds self.now.count self.now.words.now items) }
    {
        let packed = packet_size(items);
        if packed.size <= 8192 {
            packet::check_ends(self.ends()).ok()?;
            return Some(packed);
        }
        None
    }

    // What the packet comes to where all is seen to be right at a glance; else it is for the stages to say.
    fn at_a_glance(&self, handed: Option<TagSet>) -> Option<Packed>
        ensures { IfSome result (FitsPlainly self.now.known handed self.now.room self.now.count self.now.words.now) }
    {
        let glance = self.rows_at_a_glance()?;
        // of rows that are plainly right just those of known tags are not carried
        let present = tagset::meet_of(glance.seen, self.known);
        if tagset::has(glance.seen, 65) && words_right(handed, present) {
            return self.ends_at_a_glance(glance.items);
        }
        None
    }
}

// What count rows in lent words come to, with what was handed beside them and the buffer that text and carried rows point into:
// document 01's refusals of the writer in their order, but for 18, and W-201's 22.
pub fn check_rows(
    known: TagSet,
    handed: Option<TagSet>,
    count: usize,
    words: &[u64],
    buffer: &[u8],
) -> Result<Packed, Refusal>
    ensures { answer_said result ≡ map packed_of (outgoing_with known handed count words.now buffer.now) }
{
    if !knowing::is_good(known) {
        return refused(Reason::SetNotGood, 0, 0);
    }
    if !rows::is_good_count(count, words.len()) {
        return refused(Reason::RowCountTooLarge, 0, 0);
    }
    let shapes = catalogue::shapes();
    let table = Table {
        shapes: &shapes,
        known,
        count,
        words,
        room: buffer.len(),
    };
    if let Some(packed) = table.at_a_glance(handed) {
        return Ok(packed);
    }
    table.rows_right()?;
    table.told(handed)
}
