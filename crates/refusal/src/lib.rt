// Why an answer is a refusal: document 01's reasons and those that change requests add, with the place and the tag that go with each.
// A reason's number is document 01's, and number, place and tag tell any two refusals apart.
#![tactic(auto)]

ghost use Rattle.std.specs.Prelude.{◌≡◌, ◌∷◌, ◌++◌, Some};
ghost use Rattle.std.specs.Fmt.{decimal};
ghost use Rattle.refusal.specs.Numbers.{number};
ghost use Rattle.refusal.specs.Answer.{answer_said, refused as refusedBy};

use std::fmt;

#[derive(Clone, Copy, Debug, PartialEq, Eq)]
pub enum Reason {
    // of the reader, and of the knowing set
    SetNotGood,
    TableTooShort,
    PacketTooLong,
    KeyDiffers,
    OuterLengthWrong,
    TooManyItems,
    TagBroken,
    LengthBroken,
    FirstNotTimeStamp,
    LastNotChecksum,
    ChecksumDiffers,
    LengthNotAllowed,
    KnownTagTwice,
    CodeNotAllowed,
    VersionMissing,
    // of the writer
    RowCountTooLarge,
    RowBad,
    OutputTooShort,
    // of the conversions
    NoScale,
    NotANumber,
    ValueOutOfRange,
    // of the writer that is handed the words of its rows (W-201)
    WordsDisagree,
}

// The tag is 0 where there is none.
#[derive(Clone, Copy, Debug, PartialEq, Eq)]
pub struct Refusal {
    pub reason: Reason,
    pub place: usize,
    pub tag: u64,
}

// Document 01's number of a reason.
impl From<Reason> for u64 {
    ghost from_gives = { λ r n. n ≡ number r };

    fn from(reason: Reason) -> u64 {
        match reason {
            Reason::SetNotGood => 1,
            Reason::TableTooShort => 2,
            Reason::PacketTooLong => 3,
            Reason::KeyDiffers => 4,
            Reason::OuterLengthWrong => 5,
            Reason::TooManyItems => 6,
            Reason::TagBroken => 7,
            Reason::LengthBroken => 8,
            Reason::FirstNotTimeStamp => 9,
            Reason::LastNotChecksum => 10,
            Reason::ChecksumDiffers => 11,
            Reason::LengthNotAllowed => 12,
            Reason::KnownTagTwice => 13,
            Reason::CodeNotAllowed => 14,
            Reason::VersionMissing => 15,
            Reason::RowCountTooLarge => 16,
            Reason::RowBad => 17,
            Reason::OutputTooShort => 18,
            Reason::NoScale => 19,
            Reason::NotANumber => 20,
            Reason::ValueOutOfRange => 21,
            Reason::WordsDisagree => 22,
        }
    }
}

// The number by a name, as docs/ have it.
pub fn number_of(reason: Reason) -> u64
    ensures { result ≡ number reason }
{
    u64::from(reason)
}

// A refusal as an answer, of whatever else is asked for.
pub fn refused<T>(reason: Reason, place: usize, tag: u64) -> Result<T, Refusal>
    ensures { answer_said result ≡ refusedBy (number reason) place tag }
{
    Err(Refusal { reason, place, tag })
}

// As a line has it: number, place and tag, parted by tabs.
impl fmt::Display for Refusal {
    ghost output = { λ r. Some (decimal (number r.reason) ++ (9 ∷ decimal r.place) ++ (9 ∷ decimal r.tag)) };

    fn fmt<W: fmt::Write>(&self, f: &mut fmt::Formatter<W>) -> fmt::Result {
        let number = u64::from(self.reason);
        let place = self.place;
        let tag = self.tag;
        write!(f, "{number}\t{place}\t{tag}")
    }
}
