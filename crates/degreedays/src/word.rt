ghost use Rattle.std.specs.Prelude.{◌≡◌};
ghost use Rattle.degreedays.specs.Word.{index_of};

use thiserror::Error;

/// A word of those that tell a day, the temperatures and the winds by their place from 1. It is shown with its
/// limits, as what is said of it where it is at fault.
#[derive(Clone, Copy, PartialEq, Eq, Debug, Error)]
pub enum Word {
    #[error("the date has to be one from 20010101 to 20991231")]
    Date,
    #[error("temperature {0} has to be from -200 to 500, in tenths of a degree")]
    Temperature(u32),
    #[error("wind {0} has to be from 0 to 100, in knots")]
    Wind(u32),
    #[error("sunshine has to be from 0 to 160, in tenths of an hour")]
    Sunshine,
}

impl Word {
    /// Its index among the words of a day, from 0 for the date to 25 for the sunshine.
    pub fn index(self) -> usize
        ensures { result ≡ index_of self }
    {
        match self {
            Word::Date => 0,
            Word::Temperature(place) => place as usize,
            Word::Wind(place) => 8 + place as usize,
            Word::Sunshine => 25,
        }
    }
}
