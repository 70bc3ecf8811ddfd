// The library that C and Rust link: document 01's functions under C names, each with a struct as its answer.
// An answer says all there is to say; no lent memory carries any part of a refusal, and a refusal leaves all of it.
#![tactic(auto)]

ghost use Rattle.std.specs.Prelude.{◌≡◌, length};
ghost use Rattle.scale.specs.Conversions.{to_house, to_code};
ghost use Rattle.refusal.specs.Answer.{answer_said, map};
ghost use Rattle.rows.specs.Taken.{row_at, row_taken_at, part_place, part_length};
ghost use Rattle.packet.specs.Verdict.{checked};
ghost use Rattle.packet.specs.Rows.{read_answer, read_table};
ghost use Rattle.writer.specs.Writes.{write_answer, write_output, write_answer_with, write_output_with};
ghost use Rattle.relay.specs.Forwards.{forward_answer, forward_output};
ghost use Rattle.ground.specs.Said.{height_said, corner_said};
ghost use Rattle.ground.specs.Ground.{sensor_height, frame_centre_height, corner_of};
ghost use Rattle.listing.specs.Accepted.{list_answer, list_output};
ghost use Rattle.refusal.specs.Numbers.{number};
ghost use Rattle.tagset.specs.Sets.{knowing, no_tags};
ghost use Rattle.catalogue.specs.Items.{item_of, unit_of};
ghost use Rattle.walker.specs.Steps.{seen_at};
ghost use Rattle.oysterknoll.specs.Answers.{version, nothing, refusing, counting, presenting, rowing, unfixed_as, stored_as, marked_as, listing};
ghost use Rattle.oysterknoll.specs.Answers.{bytes_answer, lines_answer, row_answer, start_answer, next_answer, value_answer, code_answer};
ghost use Rattle.oysterknoll.specs.Answers.{height_seen, height_answer};
ghost use Rattle.oysterknoll.specs.Answers.{corner_seen, corner_answer, item_answer, has_answer, items_answer, rows_answer};

use catalogue::{Item, Sign};
use ground::{Corner, Height};
use refusal::Refusal as Cause;
use rows::RowWords;
use tagset::TagSet;
use walker::Standing;
use writer::Written;

const VERSION: u64 = 4;

// Kinds of a height and of a corner, and how an item is stored: numbers, as C reads them.
const MISSING: u64 = 0;

const OVER_ELLIPSOID: u64 = 1;

const OVER_SEA_LEVEL: u64 = 2;

const POINT: u64 = 1;

const OFF_THE_EARTH: u64 = 2;

const NOT_LISTED: u64 = 0;

const STORED_UNSIGNED: u64 = 1;

const STORED_SIGNED: u64 = 2;

const STORED_TEXT: u64 = 3;

const STORED_EXTENDED: u64 = 4;

// The refusal in front of an answer: document 01's number, place and tag, number 0 where nothing is refused.
#[repr(C)]
#[derive(Clone, Copy)]
pub struct Refusal {
    pub number: u64,
    pub place: usize,
    pub tag: u64,
}

// A row: its words, with the place and the length of its value apart.
#[repr(C)]
#[derive(Clone, Copy)]
pub struct Row {
    pub tag: u64,
    pub kind: u64,
    pub code: u64,
    pub place: usize,
    pub length: usize,
}

const NONE: Refusal = Refusal {
    number: 0,
    place: 0,
    tag: 0,
};

const NO_ROW: Row = Row {
    tag: 0,
    kind: 0,
    code: 0,
    place: 0,
    length: 0,
};

// Which known items are there: tag t is bit t of the pair.
#[repr(C)]
#[derive(Clone, Copy)]
pub struct Present {
    pub low: u64,
    pub high: u64,
}

const NO_TAGS: Present = Present { low: 0, high: 0 };

// How many items or rows, which known ones, and which of them are withdrawn.
#[repr(C)]
#[derive(Clone, Copy)]
pub struct CountAnswer {
    pub refusal: Refusal,
    pub count: usize,
    pub present: Present,
    pub withdrawn: Present,
}

// How many bytes at the front of the output.
#[repr(C)]
#[derive(Clone, Copy)]
pub struct SizeAnswer {
    pub refusal: Refusal,
    pub size: usize,
}

#[repr(C)]
#[derive(Clone, Copy)]
pub struct RowAnswer {
    pub refusal: Refusal,
    pub row: Row,
}

// Where the items begin.
#[repr(C)]
#[derive(Clone, Copy)]
pub struct StartAnswer {
    pub refusal: Refusal,
    pub place: usize,
}

// An item and the place after it; where there is none, kind 0 and the same place.
#[repr(C)]
#[derive(Clone, Copy)]
pub struct NextAnswer {
    pub row: Row,
    pub next: usize,
}

// In house units.
#[repr(C)]
#[derive(Clone, Copy)]
pub struct ValueAnswer {
    pub refusal: Refusal,
    pub value: i64,
}

#[repr(C)]
#[derive(Clone, Copy)]
pub struct CodeAnswer {
    pub refusal: Refusal,
    pub code: u64,
}

// The height is in mm.
#[repr(C)]
#[derive(Clone, Copy)]
pub struct HeightAnswer {
    pub refusal: Refusal,
    pub kind: u64,
    pub height: i64,
}

// In 10^-7 degree.
#[repr(C)]
#[derive(Clone, Copy)]
pub struct CornerAnswer {
    pub refusal: Refusal,
    pub kind: u64,
    pub latitude: i64,
    pub longitude: i64,
}

// What the catalogue has; marked is 1 where the lowest code is a mark.
#[repr(C)]
#[derive(Clone, Copy)]
pub struct ItemAnswer {
    pub stored: u64,
    pub width: usize,
    pub low: i64,
    pub high: i64,
    pub unit: u64,
    pub marked: u64,
}

// The version of what header and archive say to each other; it grows with every change of it.
#[unsafe(no_mangle)]
pub extern "C" fn oyk_version() -> u64
    ensures { result ≡ version }
{
    VERSION
}

impl From<Cause> for Refusal {
    ghost from_gives = { λ cause r. r ≡ refusing (number cause.reason) cause.place cause.tag };

    fn from(cause: Cause) -> Refusal {
        Refusal {
            number: refusal::number_of(cause.reason),
            place: cause.place,
            tag: cause.tag,
        }
    }
}

impl From<TagSet> for Present {
    ghost from_gives = { λ set p. p ≡ presenting set };

    fn from(set: TagSet) -> Present {
        Present {
            low: set.low,
            high: set.high,
        }
    }
}

impl From<Cause> for CountAnswer {
    ghost from_gives = { λ cause a. a ≡ counting (refusing (number cause.reason) cause.place cause.tag) 0 no_tags no_tags };

    fn from(cause: Cause) -> CountAnswer {
        CountAnswer {
            refusal: cause.into(),
            count: 0,
            present: NO_TAGS,
            withdrawn: NO_TAGS,
        }
    }
}

fn counted(count: usize, present: TagSet, withdrawn: TagSet) -> CountAnswer
    ensures { result ≡ counting nothing count present withdrawn }
{
    CountAnswer {
        refusal: NONE,
        count,
        present: present.into(),
        withdrawn: withdrawn.into(),
    }
}

// Whether a packet is accepted, how many items it has, which known ones are there, and which of them are withdrawn.
#[unsafe(no_mangle)]
pub extern "C" fn oyk_check(packet: &[u8], low: u64, high: u64) -> CountAnswer
    ensures { result ≡ items_answer (checked (knowing low high) packet.now) }
{
    match packet::check(packet, TagSet { low, high }) {
        Err(cause) => cause.into(),
        Ok(accepted) => counted(accepted.count, accepted.present, accepted.withdrawn),
    }
}

// Reads a packet into a table: how many rows there are, which known items, and which of them are withdrawn.
#[unsafe(no_mangle)]
pub extern "C" fn oyk_read(packet: &[u8], low: u64, high: u64, table: &mut [u64]) -> CountAnswer
    ensures answer { result ≡ rows_answer (read_answer (knowing low high) packet.now table.old) }
    ensures rows_left { table.new ≡ read_table (knowing low high) packet.now table.old }
{
    match reader::read(packet, TagSet { low, high }, table) {
        Err(cause) => cause.into(),
        Ok(filled) => counted(filled.count, filled.present, filled.withdrawn),
    }
}

// Whether an item is there, by the words of an answer alone: 1, or 0.
#[unsafe(no_mangle)]
pub extern "C" fn oyk_has(present_low: u64, present_high: u64, tag: u64) -> u64
    ensures { result ≡ has_answer (knowing present_low present_high) tag }
{
    let present = TagSet {
        low: present_low,
        high: present_high,
    };
    if tagset::has(present, tag) {
        return 1;
    }
    0
}

impl From<RowWords> for Row {
    ghost from_gives = { λ row r. r ≡ rowing row.tag row.kind row.code (part_place row.part) (part_length row.part) };

    fn from(row: RowWords) -> Row {
        Row {
            tag: row.tag,
            kind: row.kind,
            code: row.code,
            place: (row.part / 65536) as usize,
            length: (row.part % 65536) as usize,
        }
    }
}

// The row numbered n of count rows.
#[unsafe(no_mangle)]
pub extern "C" fn oyk_take_row(
    words: &[u64],
    count: usize,
    n: usize,
    buffer: &[u8],
    low: u64,
    high: u64,
) -> RowAnswer
    ensures { result ≡ row_answer (map (λ _. row_at words.now n)
        (row_taken_at (knowing low high) (length buffer.now) count n words.now)) }
{
    match rows::take_row(words, count, n, TagSet { low, high }, buffer) {
        Err(cause) => RowAnswer {
            refusal: cause.into(),
            row: NO_ROW,
        },
        Ok(_) => RowAnswer {
            refusal: NONE,
            row: rows::row_at(words, n).into(),
        },
    }
}

// Starts a walk: where the items of an accepted packet begin.
#[unsafe(no_mangle)]
pub extern "C" fn oyk_start(packet: &[u8], low: u64, high: u64) -> StartAnswer
    ensures { result ≡ start_answer (checked (knowing low high) packet.now) }
{
    let begun = walker::opened(packet, TagSet { low, high });
    match begun.answer {
        Err(cause) => StartAnswer {
            refusal: cause.into(),
            place: 0,
        },
        Ok(()) => StartAnswer {
            refusal: NONE,
            place: begun.at,
        },
    }
}

impl From<Standing> for Row {
    ghost from_gives = { λ item r. r ≡ rowing item.tag item.kind item.code item.place item.length };

    fn from(item: Standing) -> Row {
        Row {
            tag: item.tag,
            kind: item.kind,
            code: item.code,
            place: item.place,
            length: item.length,
        }
    }
}

// A step of a walk: the item at a place, and the place after it.
#[unsafe(no_mangle)]
pub extern "C" fn oyk_next(packet: &[u8], low: u64, high: u64, place: usize) -> NextAnswer
    ensures { result ≡ next_answer place (seen_at (knowing low high) packet.now place) }
{
    match walker::seen_at(packet, place, TagSet { low, high }) {
        Some(item) => NextAnswer {
            row: item.into(),
            next: item.next,
        },
        None => NextAnswer {
            row: NO_ROW,
            next: place,
        },
    }
}

impl From<Result<usize, Cause>> for SizeAnswer {
    ghost from_gives = { λ size a. a ≡ lines_answer (answer_said size) };

    fn from(size: Result<usize, Cause>) -> SizeAnswer {
        match size {
            Err(cause) => SizeAnswer {
                refusal: cause.into(),
                size: 0,
            },
            Ok(size) => SizeAnswer {
                refusal: NONE,
                size,
            },
        }
    }
}

impl From<Result<Written, Cause>> for SizeAnswer {
    ghost from_gives = { λ written a. a ≡ bytes_answer (answer_said written) };

    fn from(written: Result<Written, Cause>) -> SizeAnswer {
        written.map(|written| written.size).into()
    }
}

// Writes count rows as a packet: how many bytes it takes.
#[unsafe(no_mangle)]
pub extern "C" fn oyk_write(
    words: &[u64],
    count: usize,
    buffer: &[u8],
    low: u64,
    high: u64,
    out: &mut [u8],
) -> SizeAnswer
    ensures answer { result ≡ bytes_answer (write_answer (knowing low high) count words.now buffer.now out.old) }
    ensures output { out.new ≡ write_output (knowing low high) count words.now buffer.now out.old }
{
    writer::write(TagSet { low, high }, count, words, buffer, out).into()
}

// The same, handed the words that say which items are there: words that a scan of the rows would not give are refused.
#[unsafe(no_mangle)]
pub extern "C" fn oyk_write_with(
    words: &[u64],
    count: usize,
    buffer: &[u8],
    low: u64,
    high: u64,
    present_low: u64,
    present_high: u64,
    out: &mut [u8],
) -> SizeAnswer
    ensures answer { result ≡ bytes_answer (write_answer_with (knowing low high) (Some (knowing present_low present_high)) count words.now
        buffer.now out.old) }
    ensures output { out.new ≡ write_output_with (knowing low high) (Some (knowing present_low present_high)) count words.now
        buffer.now out.old }
{
    let present = TagSet {
        low: present_low,
        high: present_high,
    };
    writer::write_with(TagSet { low, high }, present, count, words, buffer, out).into()
}

// Sends a packet on: how many bytes it takes.
#[unsafe(no_mangle)]
pub extern "C" fn oyk_forward(packet: &[u8], low: u64, high: u64, out: &mut [u8]) -> SizeAnswer
    ensures answer { result ≡ bytes_answer (forward_answer (knowing low high) packet.now out.old) }
    ensures output { out.new ≡ forward_output (knowing low high) packet.now out.old }
{
    relay::forward(TagSet { low, high }, packet, out).into()
}

// What a code of so many bytes stands for, in house units; only at an extended height does the length matter.
#[unsafe(no_mangle)]
pub extern "C" fn oyk_to_house(tag: u64, length: usize, code: u64) -> ValueAnswer
    ensures { result ≡ value_answer (to_house tag length code) }
{
    match scale::to_house(tag, length, code) {
        Err(cause) => ValueAnswer {
            refusal: cause.into(),
            value: 0,
        },
        Ok(house) => ValueAnswer {
            refusal: NONE,
            value: house.value,
        },
    }
}

// The code of so many bytes that is nearest to a value in house units, at an extended height the one at or below it.
#[unsafe(no_mangle)]
pub extern "C" fn oyk_to_code(tag: u64, length: usize, value: i64) -> CodeAnswer
    ensures { result ≡ code_answer (to_code tag length value) }
{
    match scale::to_code(tag, length, value) {
        Err(cause) => CodeAnswer {
            refusal: cause.into(),
            code: 0,
        },
        Ok(code) => CodeAnswer {
            refusal: NONE,
            code: code.code,
        },
    }
}

impl From<Height> for HeightAnswer {
    ghost from_gives = { λ height a. a ≡ height_seen (height_said height) };

    fn from(height: Height) -> HeightAnswer {
        match height {
            Height::Missing => HeightAnswer {
                refusal: NONE,
                kind: MISSING,
                height: 0,
            },
            Height::OverEllipsoid(over) => HeightAnswer {
                refusal: NONE,
                kind: OVER_ELLIPSOID,
                height: over.0,
            },
            Height::OverSeaLevel(over) => HeightAnswer {
                refusal: NONE,
                kind: OVER_SEA_LEVEL,
                height: over.0,
            },
        }
    }
}

impl From<Result<Height, Cause>> for HeightAnswer {
    ghost from_gives = { λ found a. a ≡ height_answer (map height_said (answer_said found)) };

    fn from(found: Result<Height, Cause>) -> HeightAnswer {
        match found {
            Err(cause) => HeightAnswer {
                refusal: cause.into(),
                kind: MISSING,
                height: 0,
            },
            Ok(height) => height.into(),
        }
    }
}

// The sensor's height, with its kind.
#[unsafe(no_mangle)]
pub extern "C" fn oyk_sensor_height(packet: &[u8], low: u64, high: u64) -> HeightAnswer
    ensures { result ≡ height_answer (sensor_height (knowing low high) packet.now) }
{
    ground::sensor_height(packet, TagSet { low, high }).into()
}

// The frame centre's height, with its kind.
#[unsafe(no_mangle)]
pub extern "C" fn oyk_frame_centre_height(packet: &[u8], low: u64, high: u64) -> HeightAnswer
    ensures { result ≡ height_answer (frame_centre_height (knowing low high) packet.now) }
{
    ground::frame_centre_height(packet, TagSet { low, high }).into()
}

impl From<Corner> for CornerAnswer {
    ghost from_gives = { λ corner a. a ≡ corner_seen (corner_said corner) };

    fn from(corner: Corner) -> CornerAnswer {
        match corner {
            Corner::Missing => CornerAnswer {
                refusal: NONE,
                kind: MISSING,
                latitude: 0,
                longitude: 0,
            },
            Corner::At(point) => CornerAnswer {
                refusal: NONE,
                kind: POINT,
                latitude: point.latitude,
                longitude: point.longitude,
            },
            Corner::OffTheEarth => CornerAnswer {
                refusal: NONE,
                kind: OFF_THE_EARTH,
                latitude: 0,
                longitude: 0,
            },
        }
    }
}

// Corner k of the picture on the ground: latitude and longitude.
#[unsafe(no_mangle)]
pub extern "C" fn oyk_corner(packet: &[u8], low: u64, high: u64, k: u64) -> CornerAnswer
    ensures { result ≡ corner_answer (corner_of k (knowing low high) packet.now) }
{
    match ground::corner_at(packet, TagSet { low, high }, k) {
        Err(cause) => CornerAnswer {
            refusal: cause.into(),
            kind: MISSING,
            latitude: 0,
            longitude: 0,
        },
        Ok(corner) => corner.into(),
    }
}

// What has no width of its own: with a scale it is an extended height.
fn unfixed_as(item: Item) -> u64
    ensures { result ≡ unfixed_as item }
{
    if item.low < item.high {
        return STORED_EXTENDED;
    }
    STORED_TEXT
}

fn stored_as(item: Item) -> u64
    ensures { result ≡ stored_as item }
{
    if item.width == 0 {
        return unfixed_as(item);
    }
    match item.sign {
        Sign::Unsigned => STORED_UNSIGNED,
        Sign::Signed | Sign::Marked => STORED_SIGNED,
    }
}

fn marked_as(sign: Sign) -> u64
    ensures { result ≡ marked_as sign }
{
    match sign {
        Sign::Unsigned | Sign::Signed => 0,
        Sign::Marked => 1,
    }
}

// No `From`, since it takes two things.
fn listed(item: Item, unit: u64) -> ItemAnswer
    ensures { result ≡ listing item unit }
{
    ItemAnswer {
        stored: stored_as(item),
        width: item.width,
        low: item.low,
        high: item.high,
        unit,
        marked: marked_as(item.sign),
    }
}

// What the catalogue has for a tag.
#[unsafe(no_mangle)]
pub extern "C" fn oyk_item(tag: u64) -> ItemAnswer
    ensures { result ≡ item_answer (item_of tag) (unit_of tag) }
{
    match items::item_of(tag) {
        Some(item) => listed(item, units::number_of(units::unit_of(tag))),
        None => ItemAnswer {
            stored: NOT_LISTED,
            width: 0,
            low: 0,
            high: 0,
            unit: 0,
            marked: 0,
        },
    }
}

// Lists an accepted packet for a reader of the whole catalogue: how many bytes the listing takes.
#[unsafe(no_mangle)]
pub extern "C" fn oyk_list(packet: &[u8], out: &mut [u8]) -> SizeAnswer
    ensures answer { result ≡ lines_answer (list_answer packet.now out.old) }
    ensures output { out.new ≡ list_output packet.now out.old }
{
    listing::list_accepted(packet, out).into()
}
