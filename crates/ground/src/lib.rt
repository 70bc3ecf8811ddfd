// Heights and corners of an accepted packet, in house units. A height keeps its kind, and no function turns one kind into the
// other; a mark is off the Earth and never a number.
#![tactic(auto)]

ghost use Rattle.std.specs.Prelude.{◌≡◌, ◌<◌, true};
ghost use Rattle.refusal.specs.Answer.{answer_said, map};
ghost use Rattle.catalogue.specs.Extended.{is_extended};
ghost use Rattle.scale.specs.Conversions.{to_house};
ghost use Rattle.ground.specs.Values.{in_house, value_for, Small};
ghost use Rattle.ground.specs.Earth.{turn_for};
ghost use Rattle.ground.specs.Ground.{height_in, sensor_in, point_of, sum_of, full_corner, offset_corner, plain_corner, on, on_earth};
ghost use Rattle.ground.specs.Ground.{sensor_height, frame_centre_height, corner_of};
ghost use Rattle.ground.specs.Said.{height_said, corner_said};
ghost use Rattle.ground.specs.code.Located.{Placed, rows_held, place_found, Like};

use refusal::Refusal;
use tagset::TagSet;

// In mm over the ellipsoid.
#[derive(Clone, Copy, Debug, PartialEq, Eq)]
pub struct EllipsoidHeight(pub i64);

// In mm over mean sea level.
#[derive(Clone, Copy, Debug, PartialEq, Eq)]
pub struct SeaLevelHeight(pub i64);

#[derive(Clone, Copy, Debug, PartialEq, Eq)]
pub enum Height {
    OverEllipsoid(EllipsoidHeight),
    OverSeaLevel(SeaLevelHeight),
    Missing,
}

// In 10^-7 degree.
#[derive(Clone, Copy, Debug, PartialEq, Eq)]
pub struct Point {
    pub latitude: i64,
    pub longitude: i64,
}

#[derive(Clone, Copy, Debug, PartialEq, Eq)]
pub enum Corner {
    At(Point),
    OffTheEarth,
    Missing,
}

// What the rows say of a tag: nothing, a mark, or a value in house units.
#[derive(Clone, Copy)]
enum Value {
    Absent,
    Off,
    At(i64),
}

// A code in house units; what is no number, as a mark, is no place on the Earth.
fn in_house(tag: u64, length: usize, code: u64) -> Value
    ensures { result ≡ in_house (to_house tag length code) }
{
    match scale::to_house(tag, length, code) {
        Ok(house) => Value::At(house.value),
        Err(_) => Value::Off,
    }
}

// The plain sum of two values, where both are there; a mark is no number.
fn sum(centre: Value, offset: Value) -> Value
    requires { Small centre × Small offset }
    ensures { result ≡ sum_of centre offset }
{
    match (centre, offset) {
        (Value::Absent, _) => Value::Absent,
        (_, Value::Absent) => Value::Absent,
        (Value::At(from), Value::At(by)) => Value::At(from + by),
        _ => Value::Off,
    }
}

// Two coordinates make a point where both are there; a mark in either puts it off the Earth.
fn point_of(latitude: Value, longitude: Value) -> Corner
    ensures { corner_said result ≡ point_of latitude longitude }
{
    match (latitude, longitude) {
        (Value::Absent, _) => Corner::Missing,
        (_, Value::Absent) => Corner::Missing,
        (Value::At(north), Value::At(east)) => Corner::At(Point {
            latitude: north,
            longitude: east,
        }),
        _ => Corner::OffTheEarth,
    }
}

// The tags of whose scales the others of their kind are.
const HEIGHT: u64 = 15;

const LATITUDE: u64 = 23;

const LONGITUDE: u64 = 24;

const OFFSET: u64 = 26;

// An accepted packet, a receiver's tags, and for each tag below 128 where its value is found, 0 where there is none.
#[derive(Clone, Copy)]
struct Found<'a> {
    packet: &'a [u8],
    known: TagSet,
    places: &'a [u16; 128],
    ghost placed: { Placed known packet.now places.now },
}

impl<'a> Found<'a> {
    // Where the value of a known tag is found.
    fn place_of(self, tag: u64) -> Option<usize>
        ensures { result ≡ place_found self.entry.known self.entry.places.now tag }
    {
        if tagset::has(self.known, tag) {
            let place = self.places[tag as usize] as usize;
            if 0 < place {
                return Some(place);
            }
        }
        None
    }

    // An extended height, by its place: before it stands its length.
    fn extended_at(self, tag: u64) -> Value
        requires { is_extended tag ≡ true }
        ensures { result ≡ value_for tag (rows_held self.entry.known self.entry.packet.now) }
    {
        match self.place_of(tag) {
            Some(place) => {
                let length = self.packet[place - 1] as usize;
                let end = place + length;
                in_house(tag, length, number::value(&self.packet[place..end]))
            }
            None => Value::Absent,
        }
    }

    // A value in the scale of the tag LIKE. That and the width are constants, so that the compiler works the scale out.
    fn value_at<const LIKE: u64, const WIDTH: usize>(self, tag: u64) -> Value
        requires { Like tag LIKE WIDTH }
        ensures { result ≡ value_for tag (rows_held self.entry.known self.entry.packet.now) }
    {
        match self.place_of(tag) {
            Some(end) => in_house(LIKE, WIDTH, number::value(&self.packet[end - WIDTH..end])),
            None => Value::Absent,
        }
    }

    // A height by its row over the ellipsoid, else by the one over mean sea level.
    fn height_in(self, ellipsoid: u64, sea: u64) -> Height
        requires { Like ellipsoid 15 2 × Like sea 15 2 }
        ensures { height_said result ≡ height_in ellipsoid sea (rows_held self.entry.known self.entry.packet.now) }
    {
        match self.value_at::<HEIGHT, 2>(ellipsoid) {
            Value::At(over) => Height::OverEllipsoid(EllipsoidHeight(over)),
            Value::Off => Height::Missing,
            Value::Absent => match self.value_at::<HEIGHT, 2>(sea) {
                Value::At(above) => Height::OverSeaLevel(SeaLevelHeight(above)),
                Value::Off | Value::Absent => Height::Missing,
            },
        }
    }

    // The sensor's height: row 104, else row 75, else row 15.
    fn sensor_in(self) -> Height
        ensures { height_said result ≡ sensor_in (rows_held self.entry.known self.entry.packet.now) }
    {
        match self.extended_at(104) {
            Value::At(over) => Height::OverEllipsoid(EllipsoidHeight(over)),
            Value::Off => Height::Missing,
            Value::Absent => self.height_in(75, 15),
        }
    }

    fn full_corner(self, k: u64) -> Corner
        requires { (0 < k) × (k < 5) }
        ensures { corner_said result ≡ full_corner k (rows_held self.entry.known self.entry.packet.now) }
    {
        let latitude = self.value_at::<LATITUDE, 4>(80 + 2 * k);
        let longitude = self.value_at::<LONGITUDE, 4>(81 + 2 * k);
        point_of(latitude, longitude)
    }

    fn offset_corner(self, k: u64) -> Corner
        requires { (0 < k) × (k < 5) }
        ensures { corner_said result ≡ offset_corner k (rows_held self.entry.known self.entry.packet.now) }
    {
        let north = self.value_at::<LATITUDE, 4>(23);
        let up = self.value_at::<OFFSET, 2>(24 + 2 * k);
        let east = self.value_at::<LONGITUDE, 4>(24);
        let right = self.value_at::<OFFSET, 2>(25 + 2 * k);
        let latitude = sum(north, up);
        let longitude = sum(east, right);
        point_of(latitude, longitude)
    }

    // The full rows decide where both are there, also by a mark.
    fn plain_corner(self, k: u64) -> Corner
        ensures { corner_said result ≡ plain_corner k (rows_held self.entry.known self.entry.packet.now) }
    {
        if k == 0 {
            return Corner::Missing;
        }
        let past_last = 5 <= k;
        if past_last {
            return Corner::Missing;
        }
        let full = self.full_corner(k);
        if let Corner::Missing = full {
            return self.offset_corner(k);
        }
        full
    }
}

// The sensor's height. Each of the three makes what is found itself: a function that makes it would be as long.
pub fn sensor_height(packet: &[u8], known: TagSet) -> Result<Height, Refusal>
    ensures { map height_said (answer_said result) ≡ sensor_height known packet.now }
{
    let located = packet::locate(packet, known)?;
    let found = Found {
        packet,
        known,
        places: &located.places,
    };
    Ok(found.sensor_in())
}

// The frame centre's height: row 78, else row 25.
pub fn frame_centre_height(packet: &[u8], known: TagSet) -> Result<Height, Refusal>
    ensures { map height_said (answer_said result) ≡ frame_centre_height known packet.now }
{
    let located = packet::locate(packet, known)?;
    let found = Found {
        packet,
        known,
        places: &located.places,
    };
    Ok(found.height_in(78, 25))
}

// As far as a latitude goes.
const NORTH_POLE: i64 = 900_000_000;

const SOUTH_POLE: i64 = -900_000_000;

// The 180th meridian by both its names, of which the eastern one is not answered.
const EAST_END: i64 = 1_800_000_000;

const WEST_END: i64 = -1_800_000_000;

// One turn of 360 degrees, up and down.
const TURN_EAST: i64 = 3_600_000_000;

const TURN_WEST: i64 = -3_600_000_000;

// The turn that brings a longitude back: 180 degrees and more goes down, below -180 goes up.
fn turn_for(longitude: i64) -> i64
    ensures { result ≡ turn_for longitude }
{
    let past_east = EAST_END <= longitude;
    if past_east {
        return TURN_WEST;
    }
    if longitude < WEST_END {
        return TURN_EAST;
    }
    0
}

// A plain point as a place on the Earth: its longitude comes back by one turn, and beyond a pole there is none.
fn point_on_earth(plain: Point) -> Corner
    ensures { corner_said result ≡ on_earth (on plain.latitude plain.longitude) }
{
    if scale::is_outside(SOUTH_POLE, NORTH_POLE, plain.latitude) {
        return Corner::OffTheEarth;
    }
    let longitude = plain.longitude + turn_for(plain.longitude);
    Corner::At(Point {
        latitude: plain.latitude,
        longitude,
    })
}

fn on_earth(plain: Corner) -> Corner
    ensures { corner_said result ≡ on_earth (corner_said plain) }
{
    match plain {
        Corner::At(point) => point_on_earth(point),
        Corner::OffTheEarth => plain,
        Corner::Missing => plain,
    }
}

// Corner k of the picture on the ground, k from 1 to 4; any other k is missing.
pub fn corner_at(packet: &[u8], known: TagSet, k: u64) -> Result<Corner, Refusal>
    ensures { map corner_said (answer_said result) ≡ corner_of k known packet.now }
{
    let located = packet::locate(packet, known)?;
    let found = Found {
        packet,
        known,
        places: &located.places,
    };
    Ok(on_earth(found.plain_corner(k)))
}
