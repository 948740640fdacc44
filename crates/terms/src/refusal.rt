ghost use Rattle.std.specs.Prelude.{◌≡◌};
ghost use Rattle.terms.specs.Refusal.{number_of, layer_of, date_named};

use super::layer::Layer;
use thiserror::Error;

/// Why a line or a call is refused. The checks run in the order of these cases, so that of several reasons the first
/// is told.
#[derive(Clone, Copy, PartialEq, Eq, Debug, Error)]
pub enum Refusal {
    /// 1: the bytes are no line of the format.
    #[error("the line is malformed")]
    MalformedLine,
    /// 2: the record may not stand here, as a second opening, or an entry before the opening.
    #[error("the line is out of turn")]
    OutOfTurn,
    /// 3: a number is smaller or larger than its limits allow.
    #[error("a number is beyond its limits")]
    BeyondLimits,
    /// 4: eight digits are no date from 20010101 to 20991231.
    #[error("there is no such date")]
    NoSuchDate,
    /// 5: a date lies before the book's first day or after its last; a reading may end on the day after the last.
    #[error("a date lies outside the book")]
    OutsideBook,
    /// 6: a reading's energy is less than 0.
    #[error("the energy is negative")]
    NegativeEnergy,
    /// 7: a reading's point has no enrolment.
    #[error("the point is not enrolled")]
    PointNotEnrolled,
    /// 8: a point is enrolled once only.
    #[error("the point is enrolled already")]
    PointEnrolledAlready,
    /// 9: a reading starts neither on its point's start day nor where a reading that the point holds ends.
    #[error("the reading starts at no mark of its point")]
    StartIsNoMark,
    /// 10: a reading does not end after its start, or neither at a mark of its point nor later than all its marks; a
    /// span ends before it starts.
    #[error("the reading or the span ends where it may not")]
    EndNotAllowed,
    /// 11: the date of the first day that the reading covers and that has no load.
    #[error("a day that the reading covers has no load")]
    CoveredDayWithoutLoad { date: u32 },
    /// 12: an estimate or a customer's own reading would replace an actual or a substituted one.
    #[error("a soft reading does not replace a firm one")]
    SoftOverFirm,
    /// 13: more readings would be held than the reading list has places.
    #[error("no place is left for a reading")]
    ReadingPlacesFull,
    /// 14: the date of the first day asked for that has no load.
    #[error("the day has no load")]
    AskedDayWithoutLoad { date: u32 },
    /// 15: a list that the caller hands over has too few places.
    #[error("a list is too short")]
    ListTooShort,
}

impl Refusal {
    /// The number under which a refusal is reported, 1 to 15. The checks run in the order of these numbers.
    pub fn number(self) -> u8
        ensures { result ≡ number_of self }
    {
        match self {
            Refusal::MalformedLine => 1,
            Refusal::OutOfTurn => 2,
            Refusal::BeyondLimits => 3,
            Refusal::NoSuchDate => 4,
            Refusal::OutsideBook => 5,
            Refusal::NegativeEnergy => 6,
            Refusal::PointNotEnrolled => 7,
            Refusal::PointEnrolledAlready => 8,
            Refusal::StartIsNoMark => 9,
            Refusal::EndNotAllowed => 10,
            Refusal::CoveredDayWithoutLoad { .. } => 11,
            Refusal::SoftOverFirm => 12,
            Refusal::ReadingPlacesFull => 13,
            Refusal::AskedDayWithoutLoad { .. } => 14,
            Refusal::ListTooShort => 15,
        }
    }

    /// The layer that meets a refusal.
    pub fn layer(self) -> Layer
        ensures { result ≡ layer_of self }
    {
        match self {
            Refusal::MalformedLine => Layer::Line,
            Refusal::OutOfTurn | Refusal::BeyondLimits | Refusal::NoSuchDate => Layer::Record,
            Refusal::OutsideBook
            | Refusal::NegativeEnergy
            | Refusal::PointNotEnrolled
            | Refusal::PointEnrolledAlready
            | Refusal::StartIsNoMark
            | Refusal::EndNotAllowed
            | Refusal::CoveredDayWithoutLoad { .. }
            | Refusal::SoftOverFirm
            | Refusal::ReadingPlacesFull
            | Refusal::AskedDayWithoutLoad { .. }
            | Refusal::ListTooShort => Layer::Book,
        }
    }

    /// The date that a refusal names, if it names one: of a day without a load.
    pub fn date(self) -> Option<u32>
        ensures { result ≡ date_named self }
    {
        match self {
            Refusal::CoveredDayWithoutLoad { date } | Refusal::AskedDayWithoutLoad { date } => {
                Some(date)
            }
            _ => None,
        }
    }
}
