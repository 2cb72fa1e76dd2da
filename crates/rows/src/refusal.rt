// The questions of documents 01 and 02 that can be answered No, by their numbers, and a refusal with the place at which it came.
ghost use Rattle.std.specs.Prelude.{◌≡◌};
ghost use Rattle.rows.specs.Refusals.{number_of, refused_at};

use std::error::Error;
use std::fmt;

// The question that was answered No. Its number is the question's.
#[derive(Clone, Copy, Debug, PartialEq, Eq, Hash)]
pub enum Refusal {
    // Are the lent slices long enough?
    ShortSlice = 1,
    // Are model, row limit and process limit within their ranges?
    Limits = 2,
    // Is the header word 0 or 1?
    HeaderWord = 3,
    // Is the record well formed?
    Malformed = 4,
    // Has the header the six names in order?
    Header = 5,
    // Is the row's number within the row limit?
    RowLimit = 6,
    // Are there six fields?
    SixFields = 7,
    // Is the kind known?
    KnownKind = 8,
    // Are the used fields filled and the unused empty?
    UsedFields = 9,
    // Is each number plain and within its range?
    Range = 10,
    // Is offset + length at most 4,294,967,295?
    RangeEnd = 11,
    // Is the message in order?
    MessageOrder = 12,
    // Is the state lawful?
    State = 13,
    // Is the row number 1 to 4,096?
    RowNumber = 14,
    // Is the row one of this file?
    OfFile = 15,
    // Does every map after the row fit its space?
    MapSpace = 16,
    // Does a read's list fit the lent answer slice?
    AnswerSpace = 17,
    // Does the text fit the lent slice behind the place?
    TextSpace = 18,
    // Has each process rows in one of two joined files alone?
    SharedProcess = 19,
    // Can the next row of one of two joined files be taken?
    Stuck = 20,
    // Is the wait in order?
    WaitOrder = 21,
    // Is each barrier in order, and finished?
    BarrierOrder = 22,
    // Does every race fit the lent list?
    ListSpace = 23,
}

// A refusal and the place at which it came: the number of a row or record from 1 on, and 0 where it is about none.
#[derive(Clone, Copy, Debug, PartialEq, Eq, Hash)]
pub struct Refused {
    pub refusal: Refusal,
    pub place: u32,
}

impl Refusal {
    // The question's number.
    pub fn number(self) -> u32
        ensures { result ≡ number_of self }
    {
        self as u32
    }

    // The refusal at a place.
    pub fn at(self, place: u32) -> Refused
        ensures { result ≡ refused_at self place }
    {
        Refused {
            refusal: self,
            place,
        }
    }
}

impl From<Refusal> for Refused {
    ghost from_gives = { λ refusal refused. refused ≡ refused_at refusal 0 };

    fn from(refusal: Refusal) -> Refused {
        refusal.at(0)
    }
}

impl fmt::Display for Refusal {
    fn fmt<W: fmt::Write>(&self, f: &mut fmt::Formatter<W>) -> fmt::Result {
        f.write_str(match self {
            Refusal::ShortSlice => "a lent slice is too short",
            Refusal::Limits => "the model or a limit is out of its range",
            Refusal::HeaderWord => "the header word is not 0 or 1",
            Refusal::Malformed => "the record is not well formed",
            Refusal::Header => "the header has not the six names in order",
            Refusal::RowLimit => "there are more rows than the row limit",
            Refusal::SixFields => "the record has not six fields",
            Refusal::KnownKind => "the kind is unknown",
            Refusal::UsedFields => "a used field is empty or an unused one is filled",
            Refusal::Range => "a number is not plain or out of its range",
            Refusal::RangeEnd => "the range ends past the largest offset",
            Refusal::MessageOrder => "the message is out of order",
            Refusal::State => "the state is not lawful",
            Refusal::RowNumber => "the row number is not 1 to 4,096",
            Refusal::OfFile => "the row is not one of this file",
            Refusal::MapSpace => "a map does not fit its space",
            Refusal::AnswerSpace => "the list does not fit the lent answer",
            Refusal::TextSpace => "the text does not fit the lent slice",
            Refusal::SharedProcess => "a process has rows in both files",
            Refusal::Stuck => "no file has a row that can be taken",
            Refusal::WaitOrder => "the wait is out of order",
            Refusal::BarrierOrder => "the barrier is out of order or not finished",
            Refusal::ListSpace => "the races do not fit the lent list",
        })
    }
}

impl Error for Refusal {}
