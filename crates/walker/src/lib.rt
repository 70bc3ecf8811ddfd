// A walker over the items of a packet: it keeps the packet and its place, and hands back each item with its value as a part of the
// packet.
// From the start to "no more" it hands out just the reader's rows, in their order; every step has an answer.
#![tactic(auto)]

ghost use Rattle.std.specs.Prelude.{◌≡◌, ◌+◌, ◌%◌, ◌^◌, ◌≤◌, length, Some};
ghost use Rattle.refusal.specs.Answer.{answer_said};
ghost use Rattle.number.specs.Stored.{value_of};
ghost use Rattle.tagset.specs.Sets.{holds};
ghost use Rattle.catalogue.specs.Shapes.{is_marked, shape_by, unfixed};
ghost use Rattle.catalogue.specs.declared.Shape.TheVariants.{Number};
ghost use Rattle.rows.specs.Meaning.{shape_for};
ghost use Rattle.packet.specs.Verdict.{checked};
ghost use Rattle.walker.specs.Passes.{Starts, Passes};
ghost use Rattle.walker.specs.Steps.{code_for, seen_in, row_seen, seen_at, found_at, part_at, next_at, begin_by, start_place, place_number};

use catalogue::{Item, Shape, Sign};
use packet::Header;
use refusal::Refusal;
use rows::{Part, Row};
use tagset::TagSet;

// An item where it stands: its row, with the place and the length of its value apart, and the place after it.
#[derive(Clone, Copy)]
pub struct Standing {
    pub tag: u64,
    pub kind: u64,
    pub code: u64,
    pub place: usize,
    pub length: usize,
    pub next: usize,
}

// Whether a walk begins, for the packet is accepted, or the refusal; and where, which after a refusal is where there are no more.
#[derive(Clone, Copy)]
pub struct Begun {
    pub answer: Result<(), Refusal>,
    pub at: usize,
}

// Begins a walk: the packet is checked as the reader checks it.
pub fn opened(packet: &[u8], known: TagSet) -> Begun
    ensures { (answer_said result.answer ≡ begin_by (checked known packet.now)) × (result.at ≡ start_place known packet.now) }
{
    match packet::check(packet, known) {
        Ok(accepted) => Begun {
            answer: Ok(()),
            at: accepted.from,
        },
        Err(refusal) => Begun {
            answer: Err(refusal),
            at: packet.len(),
        },
    }
}

fn number_shape(width: usize, sign: Sign) -> Shape
    ensures { result ≡ Number width width (is_marked sign) }
{
    Shape::Number {
        least: width,
        most: width,
        marked: matches!(sign, Sign::Marked),
    }
}

// The shape of an item without a width of its own: with a scale it is an extended height.
fn unfixed_shape(item: Item) -> Shape
    ensures { result ≡ unfixed item }
{
    if item.low < item.high {
        return Shape::Number {
            least: 2,
            most: 4,
            marked: false,
        };
    }
    Shape::Text
}

fn listed_shape(item: Item) -> Shape
    ensures { result ≡ shape_by (Some item) }
{
    if item.width == 0 {
        return unfixed_shape(item);
    }
    number_shape(item.width, item.sign)
}

// The shape that a receiver gives a tag.
fn shape_of(known: TagSet, tag: u64) -> Shape
    ensures { result ≡ shape_for (holds known) tag }
{
    if tagset::has(known, tag) {
        return items::item_of(tag).map_or(Shape::Absent, listed_shape);
    }
    Shape::Absent
}

// The code of a number, that of no bytes being 0; a text or carried value is not looked into.
fn code_of(shape: Shape, value: &[u8]) -> u64
    ensures { result ≡ code_for shape (value_of value.now % 2 ^ 64) (length value.now) }
{
    match shape {
        Shape::Text | Shape::Absent => 0,
        Shape::Number { .. } => number::value(value),
    }
}

fn standing_in(packet: &[u8], known: TagSet, item: Header) -> Standing
    requires { item.place + item.size ≤ length packet.now }
    ensures { result ≡ seen_in known packet.now item }
{
    let place = item.place;
    let next = place + item.size;
    let shape = shape_of(known, item.tag);
    let code = code_of(shape, &packet[place..next]);
    Standing {
        tag: item.tag,
        kind: rows::kind_of(shape, code, item.size),
        code,
        place,
        length: item.size,
        next,
    }
}

// The item at a place, where it stands, unless there are no more.
pub fn seen_at(packet: &[u8], at: usize, known: TagSet) -> Option<Standing>
    ensures { result ≡ seen_at known packet.now at }
{
    match packet::item_at(packet, at) {
        Ok(item) => Some(standing_in(packet, known, item)),
        Err(_) => None,
    }
}

impl From<Standing> for Row {
    ghost from_gives = { λ seen row. row ≡ row_seen seen };

    fn from(seen: Standing) -> Row {
        let part = Part {
            place: seen.place,
            length: seen.length,
        };
        Row {
            tag: seen.tag,
            content: rows::content_of(seen.kind, seen.code, part),
        }
    }
}

// The item at a place, as a row taken out singly.
pub fn found_at(packet: &[u8], at: usize, known: TagSet) -> Option<Row>
    ensures { result ≡ found_at known packet.now at }
{
    seen_at(packet, at, known).map(Row::from)
}

// The value of the item at a place.
pub fn value_at(packet: &[u8], at: usize) -> &[u8]
    ensures { result.now ≡ part_at packet.now at }
{
    match packet::item_at(packet, at) {
        Ok(item) => &packet[item.place..item.place + item.size],
        Err(_) => &packet[..0],
    }
}

// The place after it; the same place where there is no item. These two match, since a closure's sum would have to fit for every header.
pub fn next_at(packet: &[u8], at: usize) -> usize
    ensures { result ≡ next_at packet.now at }
{
    match packet::item_at(packet, at) {
        Ok(item) => item.place + item.size,
        Err(_) => at,
    }
}

// A walker: the packet, its place in it, and what its receiver knows.
#[derive(Clone, Copy)]
pub struct Walker<'a> {
    pub packet: &'a [u8],
    pub at: usize,
    pub known: TagSet,
}

// How a walk begins: good or the refusal, and the walker, which after a refusal has no more.
#[derive(Clone, Copy)]
pub struct Started<'a> {
    pub answer: Result<(), Refusal>,
    pub walker: Walker<'a>,
}

// A step: the item or that there are no more, its value as a part of the packet, and the moved walker.
#[derive(Clone, Copy)]
pub struct Passed<'a> {
    pub found: Option<Row>,
    pub value: &'a [u8],
    pub rest: Walker<'a>,
}

// Starts a walk, with the walker.
pub fn start<'a>(packet: &'a [u8], known: TagSet) -> Started<'a>
    ensures { Starts packet.entry known result }
{
    let Begun { answer, at } = opened(packet, known);
    Started {
        answer,
        walker: Walker { packet, at, known },
    }
}

// One step of a walk.
pub fn next<'a>(w: Walker<'a>) -> Passed<'a>
    ensures { Passes w.entry result }
{
    let Walker { packet, at, known } = w;
    Passed {
        found: found_at(packet, at, known),
        value: value_at(packet, at),
        rest: Walker {
            at: next_at(packet, at),
            ..w
        },
    }
}

// The value of the item numbered k, counted from 0 and walked to one by one.
pub fn value_number<'a>(packet: &'a [u8], known: TagSet, k: usize) -> &'a [u8]
    ensures { result.now ≡ part_at packet.now (place_number known packet.now k) }
{
    let mut w = start(packet, known).walker;
    for _ in 0..k {
        w = next(w).rest;
    }
    next(w).value
}
