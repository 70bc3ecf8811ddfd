// What the values of an item count, by its tag: the unit that document 01's table has beside the range.
// The tags of a unit are a set of two words, so that no table is looked through.
#![tactic(auto)]

ghost use Rattle.std.specs.Prelude.{◌≡◌};
ghost use Rattle.catalogue.specs.Items.{unit_of};
ghost use Rattle.units.specs.Units.{unit_number};
ghost use Rattle.units.specs.code.BySets.{lone_unit};

use catalogue::Unit;
use tagset::TagSet;

// The unit of a tag that is alone with it, or none.
fn lone_unit(tag: u64) -> Unit
    ensures { result ≡ lone_unit tag }
{
    match tag {
        2 => Unit::Microsecond,
        37 => Unit::Millibar,
        39 => Unit::Celsius,
        55 => Unit::Percent,
        _ => Unit::None,
    }
}

// What the values of a tag count.
pub fn unit_of(tag: u64) -> Unit
    ensures { result ≡ unit_of tag }
{
    let degrees = TagSet {
        low: 0x000b_fd9f_60e0,
        high: 0x0ffc_0099,
    };
    if tagset::has(degrees, tag) {
        return Unit::Degree;
    }
    let metres = TagSet {
        low: 0x0200_0040_0260_8000,
        high: 0x0380_0000_4800,
    };
    if tagset::has(metres, tag) {
        return Unit::Metre;
    }
    let speeds = TagSet {
        low: 0x0100_0010_0000_0300,
        high: 0x1_8000,
    };
    if tagset::has(speeds, tag) {
        return Unit::MetrePerSecond;
    }
    lone_unit(tag)
}

// The number by which a unit goes outside of the code. No `From`, since both types are of other crates.
pub fn number_of(unit: Unit) -> u64
    ensures { result ≡ unit_number unit }
{
    match unit {
        Unit::None => 0,
        Unit::Degree => 1,
        Unit::Metre => 2,
        Unit::MetrePerSecond => 3,
        Unit::Millibar => 4,
        Unit::Percent => 5,
        Unit::Celsius => 6,
        Unit::Microsecond => 7,
    }
}
