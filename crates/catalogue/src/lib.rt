// The catalogue: which items document 01 knows, how each is stored, and which lengths and codes it allows.
// Every answer is that of document 01's groups, in constant time, for every tag of 64 bits.
#![tactic(auto)]

ghost use Rattle.std.specs.Prelude.{◌≡◌, ◌||◌, eqb, ltb};
ghost use Rattle.catalogue.specs.Rows.{all_tags};
ghost use Rattle.catalogue.specs.Extended.{is_extended, in_reach};
ghost use Rattle.catalogue.specs.Shapes.{shape_of, shape_allows, is_empty, is_needed, size_allowed, codes_limited, code_allowed};
ghost use Rattle.catalogue.specs.code.Column.{shape_column, mask_column, shape_in};

use tagset::TagSet;

// How the codes of a number are read: as they stand, in two's complement, or in two's complement with the lowest one a mark.
#[derive(Clone, Copy, Debug, PartialEq, Eq)]
pub enum Sign {
    Unsigned,
    Signed,
    Marked,
}

// An item. Width is in bytes, 0 where it is not fixed: for text, which has no scale, and for an extended height (W-202), which has one.
// Low equals high where there is no scale.
#[derive(Clone, Copy, Debug, PartialEq, Eq)]
pub struct Item {
    pub tag: u64,
    pub width: usize,
    pub sign: Sign,
    pub low: i64,
    pub high: i64,
}

// What a value in house units counts. None for texts and for numbers whose code is all there is; item 2's code counts microseconds.
#[derive(Clone, Copy, Debug, PartialEq, Eq)]
pub enum Unit {
    None,
    Degree,
    Metre,
    MetrePerSecond,
    Millibar,
    Percent,
    Celsius,
    Microsecond,
}

// How a value is stored: as text, or as a number of at least and at most so many bytes, whose lowest code is a mark or not.
#[derive(Clone, Copy, Debug, PartialEq, Eq)]
pub enum Shape {
    Text,
    Number {
        least: usize,
        most: usize,
        marked: bool,
    },
    Absent,
}

// A row of the table: tag, width, whether it is signed, low and high.
// A signed number from -high to high has a mark; 39 is the one that has none.
#[derive(Clone, Copy, Debug, PartialEq, Eq)]
pub struct Entry(pub u64, pub usize, pub bool, pub i64, pub i64);

// The tags of all rows.
pub fn all_tags() -> TagSet
    ensures { result ≡ all_tags }
{
    TagSet {
        low: 0x8b80_00ff_ffff_fffe,
        high: 0x0380_0ffd_c8db,
    }
}

// A tag's shape as a byte: in the low four bits a mask within which every length of a number lies, its width or 7 for an extended height; above
// them document 01's kind (1 a reading, 3 text, 4 carried, for what is not in the table), 0x80 more where the number has a mark. A line has
// sixteen tags, from 0 on.
const COLUMN: [u8; 128] = *b"\
    \x40\x12\x18\x30\x30\x12\x92\x92\x11\x11\x30\x30\x30\x94\x94\x12\
    \x12\x12\x14\x94\x14\x14\x12\x94\x94\x12\x92\x92\x92\x92\x92\x92\
    \x92\x92\x11\x12\x11\x12\x12\x11\x40\x40\x40\x40\x40\x40\x40\x40\
    \x40\x40\x40\x40\x40\x40\x40\x11\x11\x14\x40\x30\x40\x40\x40\x11\
    \x12\x11\x40\x94\x94\x40\x30\x12\x40\x40\x40\x12\x40\x40\x12\x92\
    \x92\x40\x94\x94\x94\x94\x94\x94\x94\x94\x94\x94\x40\x40\x40\x40\
    \x40\x40\x40\x40\x40\x40\x40\x17\x17\x17\x40\x40\x40\x40\x40\x40\
    \x40\x40\x40\x40\x40\x40\x40\x40\x40\x40\x40\x40\x40\x40\x40\x40\
";

// The shapes of all tags below 128, named once at the top of a walk and lent to what looks one up.
#[derive(Clone, Copy)]
pub struct ShapeColumn {
    pub column: [u8; 128],
    ghost of_the_catalogue: { column ≡ shape_column },
}

pub fn shapes() -> ShapeColumn
    ensures { result.column ≡ shape_column }
{
    ShapeColumn { column: COLUMN }
}

impl ShapeColumn {
    // The shape that the catalogue has for a tag.
    pub fn of(&self, tag: u64) -> Shape
        ensures { result ≡ shape_of tag }
    {
        shape_at(&self.column, tag)
    }
}

// For a glance at a length of one byte, a mask within which every right one lies: the width of a number, which is a power of two, so that no
// bytes and the width lie within it; 0x7f for text and for what is not in the table; 0x80 where a closer look is asked for, at an extended height
// and at tag 0, which no item has.
const MASKS: [u8; 128] = *b"\
    \x80\x02\x08\x7f\x7f\x02\x02\x02\x01\x01\x7f\x7f\x7f\x04\x04\x02\
    \x02\x02\x04\x04\x04\x04\x02\x04\x04\x02\x02\x02\x02\x02\x02\x02\
    \x02\x02\x01\x02\x01\x02\x02\x01\x7f\x7f\x7f\x7f\x7f\x7f\x7f\x7f\
    \x7f\x7f\x7f\x7f\x7f\x7f\x7f\x01\x01\x04\x7f\x7f\x7f\x7f\x7f\x01\
    \x02\x01\x7f\x04\x04\x7f\x7f\x02\x7f\x7f\x7f\x02\x7f\x7f\x02\x02\
    \x02\x7f\x04\x04\x04\x04\x04\x04\x04\x04\x04\x04\x7f\x7f\x7f\x7f\
    \x7f\x7f\x7f\x7f\x7f\x7f\x7f\x80\x80\x80\x7f\x7f\x7f\x7f\x7f\x7f\
    \x7f\x7f\x7f\x7f\x7f\x7f\x7f\x7f\x7f\x7f\x7f\x7f\x7f\x7f\x7f\x7f\
";

// The masks of all tags below 128, in the same way.
#[derive(Clone, Copy)]
pub struct MaskColumn {
    pub column: [u8; 128],
    ghost of_the_catalogue: { column ≡ mask_column },
}

pub fn length_masks() -> MaskColumn
    ensures { result.column ≡ mask_column }
{
    MaskColumn { column: MASKS }
}

// The shape that a column of shapes has for a tag. The lengths of an extended height go by its tag, so that all else is seen to have one; from 128
// on there is none.
pub fn shape_at(column: &[u8; 128], tag: u64) -> Shape
    ensures { result ≡ shape_in column.now tag }
{
    if is_extended(tag) {
        return Shape::Number {
            least: 2,
            most: 4,
            marked: false,
        };
    }
    if 128 <= tag {
        return Shape::Absent;
    }
    let at = tag as usize;
    let byte = u64::from(column[at]);
    let kind = byte / 16 % 8;
    if kind == 4 {
        return Shape::Absent;
    }
    if kind == 3 {
        return Shape::Text;
    }
    let width = (byte % 16) as usize;
    Shape::Number {
        least: width,
        most: width,
        marked: 128 <= byte,
    }
}

// Whether a value of this shape may have n bytes.
pub fn allows_length(shape: Shape, n: usize) -> bool
    ensures { result ≡ shape_allows shape n }
{
    match shape {
        Shape::Text => 0 < n && n < 128,
        Shape::Number { least, most, .. } => {
            // most numbers have one length
            if n == most {
                return least <= n;
            }
            least <= n && n < most
        }
        Shape::Absent => false,
    }
}

// Whether a known item has no bytes, by which it is withdrawn (W-204).
pub fn is_empty(shape: Shape, n: usize) -> bool
    ensures { result ≡ is_empty shape n }
{
    n == 0 && !matches!(shape, Shape::Absent)
}

// Whether an item is one that no packet is without: these are never withdrawn.
pub fn is_needed(tag: u64) -> bool
    ensures { result ≡ is_needed tag }
{
    tag == 1 || tag == 2 || tag == 65
}

// Whether a known item may have n bytes: those of its shape, or none.
pub fn allows_size(tag: u64, shape: Shape, n: usize) -> bool
    ensures { result ≡ size_allowed tag shape n }
{
    if is_empty(shape, n) {
        return !is_needed(tag);
    }
    allows_length(shape, n)
}

// Whether a tag is that of an extended height.
pub fn is_extended(tag: u64) -> bool
    ensures { result ≡ is_extended tag }
{
    103 <= tag && tag <= 105
}

// Whether an item takes only some of its codes.
pub fn limits_codes(tag: u64) -> bool
    ensures { result ≡ codes_limited tag }
{
    tag == 34 || tag == 63 || is_extended(tag)
}

// Whether an extended height of so many bytes may have a code: up to that of 40,000 m, which has more zeros the more bytes there are.
pub fn is_in_reach(size: usize, code: u64) -> bool
    ensures { result ≡ in_reach size code }
{
    2 <= size && size <= 4 && code <= 20_450 << (8 * size - 16)
}

// Whether a code is below a limit; a value of no bytes has none.
fn is_under(limit: u64, size: usize, code: u64) -> bool
    ensures { result ≡ (eqb size 0 || ltb code limit) }
{
    size == 0 || code < limit
}

// Whether an item may have a code: 34 goes from 0 to 2, 63 from 0 to 8, an extended height up to 40,000 m, and every other takes all; where there
// are no bytes, no code is looked at.
pub fn allows_code(tag: u64, size: usize, code: u64) -> bool
    ensures { result ≡ code_allowed tag size code }
{
    // most tags are below 64, and are not asked whether they are extended heights
    if 63 < tag {
        if is_extended(tag) {
            return size == 0 || is_in_reach(size, code);
        }
        return true;
    }
    match tag {
        34 => is_under(3, size, code),
        63 => is_under(9, size, code),
        _ => true,
    }
}
