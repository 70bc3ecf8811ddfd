// A packet checked: structure, then what the receiver knows of its items, in one walk.
// A packet is accepted exactly when document 01 allows it, and is refused by the first refusal in its order.
#![tactic(auto)]

ghost use Rattle.std.specs.Prelude.{◌≡◌, true, ◌+◌, ◌-◌, ◌%◌, ◌^◌, ◌<◌, ◌≤◌, length, take, drop, get_or};
ghost use Rattle.refusal.specs.Answer.{answer_said, refusal as refusalOf};
ghost use Rattle.number.specs.Stored.{Bytes};
ghost use Rattle.tagset.specs.Sets.{holds};
ghost use Rattle.knowing.specs.Good.{good};
ghost use Rattle.catalogue.specs.code.Column.{within};
ghost use Rattle.packet.specs.Judge.{fault_by, fault_of};
ghost use Rattle.packet.specs.Said.{header_at, fault_said};
ghost use Rattle.packet.specs.Pieces.{walk as walkItems};
ghost use Rattle.packet.specs.Ends.{right_ends};
ghost use Rattle.packet.specs.Structure.{key, same, frame};
ghost use Rattle.packet.specs.Verdict.{one_byte, checked, located};
ghost use Rattle.packet.specs.code.Headers.{item_by, short_forms};
ghost use Rattle.packet.specs.code.Passing.{longer_in, shortest, FitAs, found_by, SaidAt, asks_close, mask_at, PlainAt, TwoWords, set_of, Notes};
ghost use Rattle.packet.specs.code.Passing.{kept_in, with_plain, with_glance, Counted, HasRoom, Going, fresh_at, Passes, Stops};
ghost use Rattle.packet.specs.code.Concluded.{WalksFrom, judged_from, header_in, ends_by, summed_at, closed_by, coded_in, found_in};
ghost use Rattle.packet.specs.code.Concluded.{whole_in, clean_in, begun_by, PlacesIn, Whole, right_from, Begins, ChecksFrom};

use catalogue::{MaskColumn, Shape, ShapeColumn};
use refusal::{Reason, Refusal, refused};
use tagset::TagSet;

// What stands before a value: the tag, where the item starts, where its value stands, and how many bytes that has.
#[derive(Clone, Copy)]
pub struct Header {
    pub tag: u64,
    pub start: usize,
    pub place: usize,
    pub size: usize,
}

// The item at a place of a packet, whatever its tag and its length are.
fn any_item_at(packet: &[u8], at: usize) -> Result<Header, Refusal>
    ensures { answer_said result ≡ header_at packet.now at }
{
    let Some(tag) = ber::tag_at(packet, at) else {
        return refused(Reason::TagBroken, at, 0);
    };
    let after = at + tag.size;
    let Some(length) = ber::length_at(packet, after) else {
        return refused(Reason::LengthBroken, at, tag.value);
    };
    let place = after + length.size;
    let size = length.value as usize;
    if packet.len() - place < size {
        return refused(Reason::LengthBroken, at, tag.value);
    }
    Ok(Header {
        tag: tag.value,
        start: at,
        place,
        size,
    })
}

// Whether a tag and a length are these two bytes alone.
fn is_short(tag: u64, length: u64) -> bool
    ensures { result ≡ short_forms tag length }
{
    0 < tag && tag < 128 && length < 128
}

// The item at a place of a packet: most have a tag and a length of one byte each.
pub fn item_at(packet: &[u8], at: usize) -> Result<Header, Refusal>
    ensures { answer_said result ≡ header_at packet.now at }
{
    if packet.len() < 2 {
        return any_item_at(packet, at);
    }
    if packet.len() - 2 < at {
        return any_item_at(packet, at);
    }
    let after = at + 1;
    let tag = u64::from(packet[at]);
    let length = u64::from(packet[after]);
    if is_short(tag, length) {
        let place = after + 1;
        let size = length as usize;
        if packet.len() < place + size {
            return refused(Reason::LengthBroken, at, tag);
        }
        return Ok(Header {
            tag,
            start: at,
            place,
            size,
        });
    }
    any_item_at(packet, at)
}

// What is looked at in a known item: its shape and tag, the length and the code of its value, whether its tag came before.
#[derive(Clone, Copy)]
pub struct Looked {
    pub shape: Shape,
    pub tag: u64,
    pub size: usize,
    pub code: u64,
    pub twice: bool,
}

// The rule for a known item, for reader and writer alike: its length, that it stands once, its code. What is wrong with it, if anything is.
pub fn fault_of(item: Looked) -> Result<(), Reason>
    ensures { fault_said result ≡ fault_by item }
{
    let shape = item.shape;
    if catalogue::allows_size(item.tag, shape, item.size) {
        if item.twice {
            return Err(Reason::KnownTagTwice);
        }
        if catalogue::allows_code(item.tag, item.size, item.code) {
            return Ok(());
        }
        return Err(Reason::CodeNotAllowed);
    }
    Err(Reason::LengthNotAllowed)
}

// What is wrong with an item for a receiver: nothing where it does not know the tag.
fn fault_at(
    packet: &[u8],
    shapes: &ShapeColumn,
    known: TagSet,
    seen: TagSet,
    item: Header,
) -> Result<(), Reason>
    requires { item.place + item.size ≤ length packet.now }
    ensures { fault_said result ≡ fault_of (holds known) (holds seen) (item_by packet.now item).piece }
{
    let tag = item.tag;
    let size = item.size;
    let place = item.place;
    if tagset::has(known, tag) {
        let shape = shapes.of(tag);
        let twice = tagset::has(seen, tag);
        if catalogue::limits_codes(tag) {
            let end = place + size;
            let code = number::value(&packet[place..end]);
            return fault_of(Looked {
                shape,
                tag,
                size,
                code,
                twice,
            });
        }
        // any code will do
        return fault_of(Looked {
            shape,
            tag,
            size,
            code: 0,
            twice,
        });
    }
    Ok(())
}

// Item by item the faults of known items, then item 65: the exact walk, of a packet whose structure is right. The writer walks over its rows in the
// same way, and both ask `fault_of`.
fn judged(packet: &[u8], from: usize, known: TagSet) -> Result<(), Refusal>
    requires { WalksFrom packet.now from }
    ensures { answer_said result ≡ judged_from known packet.now from }
{
    let shapes = catalogue::shapes();
    let mut seen = TagSet { low: 0, high: 0 };
    let mut here = from;
    // from item to item, each step as long as its item: an iterator of items would be this loop once more
    while here < packet.len() {
        let item = item_at(packet, here)?;
        if let Err(reason) = fault_at(packet, &shapes, known, seen, item) {
            return refused(reason, here, item.tag);
        }
        seen = tagset::with_tag(seen, item.tag);
        here = item.place + item.size;
    }
    if tagset::has(seen, 65) {
        return Ok(());
    }
    refused(Reason::VersionMissing, 0, 0)
}

// An item at a glance: its tag where one byte says it, else 0, which no item has; where its tag is known, whether it is fit; whether it has no
// bytes; where its value is found; the place past it; by how many bytes its length is longer than in its shortest form.
#[derive(Clone, Copy)]
struct Glance {
    tag: usize,
    fit: bool,
    empty: bool,
    place: usize,
    past: usize,
    longer: usize,
}

fn one_byte(x: u64) -> usize
    ensures { result ≡ one_byte x }
{
    if x < 128 {
        return x as usize;
    }
    0
}

// How many bytes stand before a value beyond those that it needs.
fn longer_by(item: Header) -> usize
    requires { item.start + shortest item ≤ item.place }
    ensures { result ≡ longer_in item }
{
    item.place - item.start - ber::tag_size(item.tag) - ber::length_size(item.size as u64)
}

// Whether a length lies within a mask: without a branch.
fn is_within(mask: u8, size: u8) -> bool
    ensures { result ≡ within mask size }
{
    (size | mask) == mask
}

// Where the value of an item is found: by the place past it, for its tag tells its length; that of an extended height, which does not, by its
// own place, before which its length stands; where there are no bytes, nowhere, which is 0, as `Located` says it.
fn found_at(item: Header) -> usize
    requires { item.place + item.size < 2 ^ 64 }
    ensures { result ≡ found_by item }
{
    if item.size == 0 {
        return 0;
    }
    if catalogue::is_extended(item.tag) {
        return item.place;
    }
    item.place + item.size
}

// Whether a tag and a length ask for a closer look: of more than one byte, or no bytes.
fn is_close(tag: u8, size: u8) -> bool
    ensures { result ≡ asks_close tag size }
{
    128 <= (tag | size) || size == 0
}

// Two words of tags as a set.
fn as_set(words: [u64; 2]) -> TagSet
    ensures { result ≡ set_of words }
{
    TagSet {
        low: words[0],
        high: words[1],
    }
}

// What a walk keeps of the items that it has passed: where the last one starts, where it stands, how many they are, by how many bytes
// their lengths are longer than in their shortest forms, and how many of them are known.
#[derive(Clone, Copy)]
struct Passed {
    last: usize,
    here: usize,
    count: usize,
    longer: usize,
    known: usize,
}

// The tags that a walk has noted, in two words each: of the known items that are fit, and of those that have no bytes. The column of places stands
// apart: tried as a field here, and a check of a small packet took 5 percent more, for the compiler clears so many bytes by a call.
#[derive(Clone, Copy)]
struct Noted {
    present: [u64; 2],
    withdrawn: [u64; 2],
}

// What the walk at a glance goes by: a packet of a right frame, the masks of all lengths, and the tags of a good knowing set as two words, in which
// a tag's bit is found without a branch.
#[derive(Clone, Copy)]
struct Walk<'a> {
    packet: &'a [u8],
    masks: &'a MaskColumn,
    known: &'a [u64; 2],
    ghost bytes: { Bytes packet.now },
    ghost some: { 2 ≤ length packet.now },
    ghost short: { length packet.now ≤ 8192 },
    ghost words: { TwoWords known.now },
    ghost knows: { good (set_of known.now) ≡ true },
}

impl Walk<'_> {
    // Whether an item is fit: it has no bytes, or its length is allowed, and of an extended height its code too.
    fn is_fit(&self, item: Header) -> bool
        requires { item.place + item.size ≤ length self.now.packet.now }
        ensures { FitAs self.now.packet.now item result }
    {
        let tag = one_byte(item.tag);
        let size = item.size;
        if size == 0 {
            return true;
        }
        if catalogue::is_extended(tag as u64) {
            let place = item.place;
            let end = place + size;
            return catalogue::is_in_reach(size, number::value(&self.packet[place..end]));
        }
        let long = 128 <= size;
        if long {
            return false;
        }
        is_within(self.masks.column[tag], size as u8)
    }

    // Any item at a glance, if there is one.
    fn any_glance_at(&self, at: usize) -> Option<Glance>
        ensures { SaidAt self.now.packet.now at result }
    {
        let Ok(item) = any_item_at(self.packet, at) else {
            return None;
        };
        Some(Glance {
            tag: one_byte(item.tag),
            fit: self.is_fit(item),
            empty: item.size == 0,
            place: found_at(item),
            past: item.place + item.size,
            longer: longer_by(item),
        })
    }

    // The mask of the lengths of the item at a place, 128 where it asks for a closer look, as the catalogue's masks say it; tag 0 does, for it is none.
    fn mask_at(&self, at: usize) -> u8
        requires { at + 2 ≤ length self.now.packet.now }
        ensures { result ≡ mask_at self.now.packet.now at }
    {
        let tag = self.packet[at];
        if is_close(tag, self.packet[at + 1]) {
            return 128;
        }
        self.masks.column[tag as usize]
    }

    // An item at a glance: most have a tag and a length of one byte each, and need no closer look. Of others it says nothing.
    fn glance_at(&self, at: usize) -> Option<Glance>
        requires { at + 2 ≤ length self.now.packet.now }
        ensures { PlainAt self.now.packet.now at result }
    {
        let mask = self.mask_at(at);
        if 128 <= mask {
            return None;
        }
        let after = at + 1;
        let past = after + 1 + self.packet[after] as usize;
        if self.packet.len() < past {
            return None;
        }
        Some(Glance {
            tag: self.packet[at] as usize,
            fit: is_within(mask, self.packet[after]),
            empty: false,
            place: past,
            past,
            longer: 0,
        })
    }

    // Notes a known item that is fit in two words of tags, and says 1 where its tag is known, else 0: without a branch.
    fn note(&self, tags: &mut [u64; 2], tag: usize, fit: bool) -> usize
        requires { tag < 128 }
        ensures { Notes self.now.known.now tags.old tag fit result tags.new }
    {
        let word = tag / 64;
        let shift = tag % 64;
        let known = (self.known[word] >> shift) & 1;
        let noted = known & fit as u64;
        tags[word] = tags[word] | (noted << shift);
        known as usize
    }

    // Keeps an item: for its tag where its value is found, and among those present its tag, if it is known and fit.
    fn keep(
        &self,
        places: &mut [u16; 128],
        noted: &mut Noted,
        passed: Passed,
        item: Glance,
    ) -> Passed
        requires { HasRoom passed item }
        ensures { kept_in result places.new noted.new ≡ with_plain (set_of self.now.known.now) (kept_in passed places.old noted.old) item }
    {
        let tag = item.tag;
        let one = self.note(&mut noted.present, tag, item.fit);
        places[tag] = item.place as u16;
        Passed {
            here: item.past,
            count: passed.count + 1,
            last: passed.here,
            longer: passed.longer + item.longer,
            known: passed.known + one,
        }
    }

    // Keeps an item, and if it has no bytes, its tag among those withdrawn.
    fn keep_close(
        &self,
        places: &mut [u16; 128],
        noted: &mut Noted,
        passed: Passed,
        item: Glance,
    ) -> Passed
        requires { HasRoom passed item }
        ensures { kept_in result places.new noted.new ≡ with_glance (set_of self.now.known.now) (kept_in passed places.old noted.old) item }
    {
        let kept = self.keep(places, noted, passed, item);
        if item.empty {
            self.note(&mut noted.withdrawn, item.tag, true);
        }
        kept
    }

    // The items from where a walk stands on that need no closer look, without a branch for what they are. An item has two bytes, so none begins with
    // the last one.
    fn pass_plain(&self, places: &mut [u16; 128], noted: &mut Noted, from: Passed) -> Passed
        requires { Counted from }
        ensures { Going (set_of self.now.known.now) self.now.packet.now
            (kept_in from places.old noted.old) (kept_in result places.new noted.new) }
    {
        let last_byte = self.packet.len() - 1;
        let mut passed = from;
        // from item to item, as in `judged`
        while passed.here < last_byte {
            if passed.count == 128 {
                return passed;
            }
            let Some(item) = self.glance_at(passed.here) else {
                return passed;
            };
            passed = self.keep(places, noted, passed, item);
        }
        passed
    }

    // All items from a place to the packet's end, at most 128 of them.
    fn pass(&self, from: usize, places: &mut [u16; 128], noted: &mut Noted) -> Passed
        ensures { Passes (set_of self.now.known.now) self.now.packet.now
            (fresh_at from places.old (set_of noted.old.present) (set_of noted.old.withdrawn)) (kept_in result places.new noted.new) }
    {
        let last_byte = self.packet.len() - 1;
        let mut passed = Passed {
            here: from,
            count: 0,
            last: from,
            longer: 0,
            known: 0,
        };
        // from item to item, as in `judged`
        while passed.here < last_byte {
            passed = self.pass_plain(places, noted, passed);
            // two tests: joined by `||` they were tried, and a longer form took an instruction more
            if last_byte <= passed.here {
                return passed;
            }
            if passed.count == 128 {
                return passed;
            }
            let Some(item) = self.any_glance_at(passed.here) else {
                return passed;
            };
            passed = self.keep_close(places, noted, passed, item);
        }
        passed
    }
}

fn has_key(packet: &[u8]) -> bool
    ensures { result ≡ same (take 16 packet.now) key }
{
    if packet.len() < 16 {
        return false;
    }
    number::value(&packet[0..8]) == 0x060E_2B34_020B_0101
        && number::value(&packet[8..16]) == 0x0E01_0301_0100_0000
}

// The key and the outer length: where the items begin.
fn framed(packet: &[u8]) -> Result<usize, Refusal>
    ensures { answer_said result ≡ frame packet.now }
{
    if 8192 < packet.len() {
        return refused(Reason::PacketTooLong, 0, 0);
    }
    if has_key(packet) {
        let Some(length) = ber::length_at(packet, 16) else {
            return refused(Reason::OuterLengthWrong, 16, 0);
        };
        let from = 16 + length.size;
        let rest = length.value as usize;
        if packet.len() == from + rest {
            return Ok(from);
        }
        return refused(Reason::OuterLengthWrong, 16, 0);
    }
    refused(Reason::KeyDiffers, 0, 0)
}

// An accepted packet: where its items begin, how many there are, by how many bytes their forms are longer than the shortest, and as two
// words each the tags of the known ones and of those of them that are withdrawn.
#[derive(Clone, Copy)]
pub struct Accepted {
    pub from: usize,
    pub count: usize,
    pub longer: usize,
    pub present: TagSet,
    pub withdrawn: TagSet,
}

// The first and the last of the items or rows: where each is said to stand, its tag, and the last one's length.
#[derive(Clone, Copy)]
pub struct Ends {
    pub start: usize,
    pub first: u64,
    pub end: usize,
    pub last: u64,
    pub size: usize,
}

// The rule for first and last, for reader and writer alike.
pub fn check_ends(ends: Ends) -> Result<(), Refusal>
    ensures { answer_said result ≡ right_ends ends }
{
    if ends.first != 2 {
        return refused(Reason::FirstNotTimeStamp, ends.start, ends.first);
    }
    let two_bytes = ends.size == 2;
    if ends.last == 1 && two_bytes {
        return Ok(());
    }
    refused(Reason::LastNotChecksum, ends.end, ends.last)
}

// The header of the item at a place; where there is none, one with nothing in it, whose tag 0 a refusal shows.
fn header_at(packet: &[u8], at: usize) -> Header
    ensures { result ≡ header_in packet.now at }
{
    item_at(packet, at).unwrap_or(Header {
        tag: 0,
        start: 0,
        place: 0,
        size: 0,
    })
}

// The first and the last item; where there is none, the first one is said to be absent where the items begin, at the packet's end.
fn ends_of(packet: &[u8], from: usize, last: Header) -> Ends
    ensures { result ≡ ends_by packet.now from last }
{
    Ends {
        start: from,
        first: header_at(packet, from).tag,
        end: last.start,
        last: last.tag,
        size: last.size,
    }
}

// Whether the two bytes of the last item are the checksum of all before them.
fn is_summed(packet: &[u8], place: usize) -> bool
    requires { place + 2 ≤ length packet.now }
    ensures { result ≡ summed_at packet.now place }
{
    let end = place + 2;
    let stored = number::value(&packet[place..end]);
    let sum = checksum::checksum(&packet[..place]) as u64;
    stored == sum
}

// First, last and sum.
fn closed(packet: &[u8], from: usize, last: Header) -> Result<(), Refusal>
    requires { last.place + last.size ≤ length packet.now }
    ensures { answer_said result ≡ closed_by packet.now from last }
{
    check_ends(ends_of(packet, from, last))?;
    let place = last.place;
    if is_summed(packet, place) {
        return Ok(());
    }
    refused(Reason::ChecksumDiffers, place, 1)
}

// Whether an item of one byte is not known, has no value, or has one of its codes. Packet, known and places are no struct: the
// places are lent to the walk to be written, and are read only after it, by two functions.
fn is_coded(packet: &[u8], known: TagSet, places: &[u16; 128], tag: usize) -> bool
    requires { (tag < 128) × (get_or places.now tag 0 ≤ length packet.now) }
    ensures { result ≡ coded_in known packet.now places.now tag }
{
    let end = places[tag] as usize;
    if 0 < end && tagset::has(known, tag as u64) {
        return catalogue::allows_code(tag as u64, 1, u64::from(packet[end - 1]));
    }
    true
}

// Whether a value was found for a tag: 0 is no place, as `Located` says it.
fn is_found(places: &[u16; 128], tag: usize) -> bool
    requires { tag < 128 }
    ensures { result ≡ found_in places.now tag }
{
    places[tag] != 0
}

// Whether what a packet needs has a value: 1, 2 and 65.
fn is_whole(places: &[u16; 128]) -> bool
    ensures { result ≡ whole_in places.now }
{
    is_found(places, 1) && is_found(places, 2) && is_found(places, 65)
}

// Whether nothing is wrong with the known items: each was noted by its own tag, 34 and 63 have their codes, and what a packet needs has a value.
fn is_clean(
    packet: &[u8],
    known: TagSet,
    places: &[u16; 128],
    present: TagSet,
    count: usize,
) -> bool
    requires { PlacesIn (length packet.now) places.now }
    ensures { result ≡ clean_in known packet.now places.now present count }
{
    tagset::size_of(present) == count
        && is_whole(places)
        && is_coded(packet, known, places, 34)
        && is_coded(packet, known, places, 63)
}

// First, last and sum of the items passed; then the exact walk names the fault, if something is wrong.
fn concluded(
    packet: &[u8],
    from: usize,
    known: TagSet,
    places: &[u16; 128],
    noted: &Noted,
    passed: Passed,
) -> Result<(), Refusal>
    requires { Whole known packet.now from (kept_in passed places.now noted.now) }
    ensures { answer_said result ≡ right_from known packet.now from }
{
    closed(packet, from, header_at(packet, passed.last))?;
    if is_clean(packet, known, places, as_set(noted.present), passed.known) {
        return Ok(());
    }
    judged(packet, from, known)
}

// Why a walk stopped before the packet's end: too many items, or none at its place.
fn stopped(packet: &[u8], here: usize, count: usize) -> Refusal
    requires { Stops packet.now here count }
    ensures { walkItems (128 - count) here (drop here packet.now) ≡ refusalOf result }
{
    let full = Refusal {
        reason: Reason::TooManyItems,
        place: here,
        tag: 0,
    };
    if count == 128 {
        return full;
    }
    match any_item_at(packet, here) {
        Err(refusal) => refusal,
        Ok(_) => full,
    }
}

// The walk at a glance over all items. By itself, so that the masks have left the frame when the exact walk makes the shapes.
fn passed_from(
    packet: &[u8],
    from: usize,
    known: TagSet,
    places: &mut [u16; 128],
    noted: &mut Noted,
) -> Passed
    requires { Begins known packet.now from places.old }
    ensures { Passes known packet.now
        (fresh_at from places.old (set_of noted.old.present) (set_of noted.old.withdrawn)) (kept_in result places.new noted.new) }
{
    let masks = catalogue::length_masks();
    let words = [known.low, known.high];
    let walk = Walk {
        packet,
        masks: &masks,
        known: &words,
    };
    walk.pass(from, places, noted)
}

// The items, once it is known where they begin; in a column of nothing, for each tag where its value is found.
fn check_from(
    packet: &[u8],
    from: usize,
    known: TagSet,
    places: &mut [u16; 128],
) -> Result<Accepted, Refusal>
    requires { Begins known packet.now from places.old }
    ensures { ChecksFrom known packet.now from result places.new }
{
    let mut noted = Noted {
        present: [0; 2],
        withdrawn: [0; 2],
    };
    let passed = passed_from(packet, from, known, places, &mut noted);
    if passed.here < packet.len() {
        return Err(stopped(packet, passed.here, passed.count));
    }
    concluded(packet, from, known, places, &noted, passed)?;
    Ok(Accepted {
        from,
        count: passed.count,
        longer: passed.longer,
        present: as_set(noted.present),
        withdrawn: as_set(noted.withdrawn),
    })
}

// Where the items begin, for a good knowing set.
fn begun(packet: &[u8], known: TagSet) -> Result<usize, Refusal>
    ensures { answer_said result ≡ begun_by known packet.now }
{
    if knowing::is_good(known) {
        return framed(packet);
    }
    refused(Reason::SetNotGood, 0, 0)
}

// Whether a receiver accepts a packet: document 01's refusals in their order, but for 2. Inlined always: a call would be one more frame below those
// of its callers.
#[inline(always)]
pub fn check(packet: &[u8], known: TagSet) -> Result<Accepted, Refusal>
    ensures { answer_said result ≡ checked known packet.now }
{
    let from = begun(packet, known)?;
    let mut places = [0u16; 128];
    check_from(packet, from, known, &mut places)
}

// An accepted packet, and where its values are found: for each tag below 128 the place past its last item, of an extended height the place of its
// value, 0 where there is none or it is withdrawn; at 0 that of the tags from 128 on.
#[derive(Clone, Copy)]
pub struct Located {
    pub accepted: Accepted,
    pub places: [u16; 128],
}

// The same, with the places at which the values are found. Inlined always: a call would copy the places into its caller's frame. A match in place of
// `?`, so that an edit can hand places out after a refusal.
#[inline(always)]
pub fn locate(packet: &[u8], known: TagSet) -> Result<Located, Refusal>
    ensures { answer_said result ≡ located known packet.now }
{
    let from = begun(packet, known)?;
    let mut places = [0u16; 128];
    match check_from(packet, from, known, &mut places) {
        Ok(accepted) => Ok(Located { accepted, places }),
        Err(refusal) => Err(refusal),
    }
}
