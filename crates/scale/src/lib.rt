// Codes and house units: what a stored code stands for, and the code of a value, for every item that has a scale.
// Values are the nearest, codes too, but for an extended height (W-202) the one at or below; 19, 20 and 21 come exactly where document 01
// and W-202 have them.
#![tactic(auto)]

ghost use Rattle.std.specs.Prelude.{◌≡◌, true, false, cond, ◌&&◌, ◌-◌, ◌*◌, ◌/◌, ◌^◌, ◌<◌, ◌≤◌, leb, nat_abs, ◌-ℤ◌, ◌+ℤ◌, pos};
ghost use Rattle.std.specs.Option.{option_map};
ghost use Rattle.std.specs.Int.Signed.{mag, lt_z};
ghost use Rattle.catalogue.specs.Shapes.{is_marked};
ghost use Rattle.catalogue.specs.Extended.{is_extended, in_reach};
ghost use Rattle.scale.specs.Nearest.{nearest};
ghost use Rattle.scale.specs.Scales.{is_number, beyond, is_outside, side};
ghost use Rattle.scale.specs.Extended.{low_end, high_end, extended_house, extended_code};
ghost use Rattle.scale.specs.Conversions.{scaled_item, house_of, to_house, code_of, to_code};
ghost use Rattle.scale.specs.code.Rule.{Rule, Scales, Counted};
ghost use Rattle.refusal.specs.Answer.{answer_said};

use catalogue::{Item, Sign};
use refusal::{Reason, Refusal, refused};

// In house units.
#[derive(Clone, Copy, Debug, PartialEq, Eq)]
pub struct House {
    pub value: i64,
}

// As it is stored, unsigned.
#[derive(Clone, Copy, Debug, PartialEq, Eq)]
pub struct Code {
    pub code: u64,
}

// An item that has a scale, and so keeps the rule of all that have one.
#[derive(Clone, Copy)]
struct Scaled {
    item: Item,
    ghost rule: { Rule item },
}

// An item's scale: values are counted from the origin, and as many house units as reach are as many codes as steps,
// both divided by what they share, so that the products below fit.
#[derive(Clone, Copy)]
struct Scale {
    origin: i64,
    signed: bool,
    codes: u64,
    reach: u64,
    steps: u64,
}

// What a code of so many bytes stands for, in house units. Only of an extended height does the length matter.
pub fn to_house(tag: u64, length: usize, code: u64) -> Result<House, Refusal>
    ensures { answer_said result ≡ to_house tag length code }
{
    if catalogue::is_extended(tag) {
        return height_to_house(tag, length, code);
    }
    match scaled_item(tag) {
        Some(scaled) => {
            if scaled.is_number(code) {
                return Ok(House {
                    value: scaled.house_of(code),
                });
            }
            refused(Reason::NotANumber, 0, tag)
        }
        None => refused(Reason::NoScale, 0, tag),
    }
}

// The code of so many bytes that is nearest to a value in house units, of an extended height the one at or below it. In form like `to_house`, but what
// is asked, refused and answered is another thing each time.
pub fn to_code(tag: u64, length: usize, value: i64) -> Result<Code, Refusal>
    ensures { answer_said result ≡ to_code tag length value }
{
    if catalogue::is_extended(tag) {
        return height_to_code(tag, length, value);
    }
    match scaled_item(tag) {
        Some(scaled) => {
            if is_outside(scaled.item.low, scaled.item.high, value) {
                return refused(Reason::ValueOutOfRange, 0, tag);
            }
            Ok(Code {
                code: scaled.code_of(value),
            })
        }
        None => refused(Reason::NoScale, 0, tag),
    }
}

// The item of a tag, if it has a scale: of all items but the extended heights that shows in the range alone.
fn scaled_item(tag: u64) -> Option<Scaled>
    requires { is_extended tag ≡ false }
    ensures { option_map (λ s. s.item) result ≡ scaled_item tag }
{
    let item = items::item_of(tag)?;
    if item.low < item.high {
        return Some(Scaled { item });
    }
    None
}

// Whether a value is outside a range; both ends are inside.
pub fn is_outside(low: i64, high: i64, value: i64) -> bool
    ensures { result ≡ beyond low high value }
{
    value < low || high < value
}

// How many codes a number of so many bytes has.
fn codes_of(width: usize) -> u64
    requires { width < 5 }
    ensures { result ≡ 2 ^ (8 * width) }
{
    1 << (8 * width)
}

fn has_mark(sign: Sign) -> bool
    ensures { result ≡ is_marked sign }
{
    matches!(sign, Sign::Marked)
}

impl Scaled {
    // Whether a code stands for a number: it fits and is no mark.
    fn is_number(self, code: u64) -> bool
        ensures { result ≡ is_number self.item code }
    {
        let codes = codes_of(self.item.width);
        if codes <= code {
            return false;
        }
        if has_mark(self.item.sign) {
            return code != codes / 2;
        }
        true
    }

    fn scale(self) -> Scale
        ensures { Scales self.item result }
    {
        let codes = codes_of(self.item.width);
        let low = self.item.low;
        let high = self.item.high;
        match self.item.sign {
            Sign::Unsigned => Scale {
                origin: low,
                signed: false,
                codes,
                reach: apart(low, high) / 5,
                steps: (codes - 1) / 5,
            },
            Sign::Signed | Sign::Marked => two_sided(codes, high),
        }
    }

    fn house_of(self, code: u64) -> i64
        requires { is_number self.item code ≡ true }
        ensures { result ≡ house_of self.item code }
    {
        let s = self.scale();
        let below = s.is_below(code);
        let far = turned(s.codes, below, code);
        let units = rounded(far, s.reach, s.steps);
        placed(s.origin, below, units)
    }

    fn code_of(self, value: i64) -> u64
        requires { is_outside self.item value ≡ false }
        ensures { result ≡ code_of self.item value }
    {
        let s = self.scale();
        let origin = s.origin;
        let far = rounded(apart(origin, value), s.steps, s.reach);
        if 0 < far {
            return turned(s.codes, value < origin, far);
        }
        far
    }
}

// The scale of a signed item, counted from zero.
fn two_sided(codes: u64, high: i64) -> Scale
    requires two_codes { 2 ≤ codes }
    requires high_from_zero { lt_z high (pos 0) ≡ false }
    ensures { Counted codes high result }
{
    Scale {
        origin: 0,
        signed: true,
        codes,
        reach: high as u64,
        steps: codes / 2 - 1,
    }
}

// How far it is from one value up to another.
fn up_to(from: i64, to: i64) -> u64
    requires { (lt_z to from ≡ false) × (mag from < 2 ^ 62) × (mag to < 2 ^ 62) }
    ensures { result ≡ nat_abs (to -ℤ from) }
{
    (to - from) as u64
}

// How far two values are apart.
fn apart(from: i64, to: i64) -> u64
    requires { (mag from < 2 ^ 62) × (mag to < 2 ^ 62) }
    ensures { result ≡ nat_abs (to -ℤ from) }
{
    if to < from {
        return up_to(to, from);
    }
    up_to(from, to)
}

// The nearest whole number to far * by / q, a tie going up.
fn rounded(far: u64, by: u64, q: u64) -> u64
    requires some_parts { 0 < q }
    requires product_fits { far * by < 2 ^ 63 }
    ensures { result ≡ nearest (far * by) q }
{
    let p = far * by;
    let whole = p / q;
    let rest = p % q;
    if q - rest <= rest {
        return whole + 1;
    }
    whole
}

impl Scale {
    // Whether a code is below zero in two's complement.
    fn is_below(self, code: u64) -> bool
        ensures { result ≡ (self.signed && leb (self.codes / 2) code) }
    {
        self.signed && self.codes / 2 <= code
    }
}

// A distance as a code, or a code as a distance: below zero both are counted down from the number of codes.
fn turned(codes: u64, below: bool, n: u64) -> u64
    requires { n ≤ codes }
    ensures { result ≡ cond below (codes - n) n }
{
    if below {
        return codes - n;
    }
    n
}

// The value that is so many units from the origin.
fn placed(origin: i64, below: bool, units: u64) -> i64
    requires { (mag origin < 2 ^ 62) × (units < 2 ^ 62) }
    ensures { result ≡ origin +ℤ side below units }
{
    let far = units as i64;
    if below {
        return origin - far;
    }
    origin + far
}

// The ends of the extended heights, in house units: those of their rows, so that no row is looked up.
const LOW: i64 = -900_000;

const HIGH: i64 = 40_000_000;

// An extended height in house units: another length is refused before the code is looked at.
fn height_to_house(tag: u64, length: usize, code: u64) -> Result<House, Refusal>
    requires { is_extended tag ≡ true }
    ensures { answer_said result ≡ to_house tag length code }
{
    if is_height_length(length) {
        if catalogue::is_in_reach(length, code) {
            return Ok(House {
                value: height_of(length, code),
            });
        }
        return refused(Reason::NotANumber, 0, tag);
    }
    refused(Reason::NoScale, 0, tag)
}

// The code of an extended height: another length is refused before the value is looked at.
fn height_to_code(tag: u64, length: usize, value: i64) -> Result<Code, Refusal>
    requires { is_extended tag ≡ true }
    ensures { answer_said result ≡ to_code tag length value }
{
    if is_height_length(length) {
        if is_outside(LOW, HIGH, value) {
            return refused(Reason::ValueOutOfRange, 0, tag);
        }
        return Ok(Code {
            code: height_code(length, value),
        });
    }
    refused(Reason::NoScale, 0, tag)
}

// Whether an extended height may have so many bytes.
fn is_height_length(length: usize) -> bool
    ensures { result ≡ (leb 2 length && leb length 4) }
{
    2 <= length && length <= 4
}

// So many codes as two to this are two metres, 2000 house units: a byte more makes a step 256 times as fine. The length is no struct of its own:
// that it is one of three stands in two contracts alone, here and below.
fn fineness(length: usize) -> usize
    requires { (2 ≤ length) × (length ≤ 4) }
    ensures { result ≡ 8 * length - 16 }
{
    8 * length - 16
}

// Half of a unit of so many parts: added before the cut, it makes the cut the nearest, a tie going up.
fn half_of(unit: u64) -> u64
    requires { 0 < unit }
    ensures { result ≡ unit / 2 }
{
    unit / 2
}

// What a code in reach stands for: parts of which so many as two to the shift are one house unit.
fn height_of(length: usize, code: u64) -> i64
    requires { in_reach length code ≡ true }
    ensures { result ≡ extended_house length code }
{
    let shift = fineness(length);
    let units = (code * 2000 + half_of(1 << shift)) >> shift;
    placed(LOW, false, units)
}

// So many whole steps are so many parts, 2000 to a step: sending cuts down.
fn whole_steps(parts: u64) -> u64
    requires { parts < 2 ^ 63 }
    ensures { result ≡ parts / 2000 }
{
    parts / 2000
}

// The code at or below a value between the ends.
fn height_code(length: usize, value: i64) -> u64
    requires lengths { (2 ≤ length) × (length ≤ 4) }
    requires inside { beyond low_end high_end value ≡ false }
    ensures { result ≡ extended_code length value }
{
    let far = up_to(LOW, value);
    whole_steps(far << fineness(length))
}
