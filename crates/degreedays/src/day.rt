// A day as words tell it.
use estimates::Observations;
use std::array;
use std::str::FromStr;

/// A date, given by its eight digits, and what the weather stations observed on it.
#[derive(Clone, Copy, PartialEq, Eq, Debug)]
pub struct Day {
    pub date: u32,
    pub observations: Observations,
}

impl Day {
    /// The day that words tell, in the order of `Word::index`.
    ///
    /// A word that is absent or no number of its kind counts as one beyond its limits: of all words at fault the
    /// first is named, and so each is judged in its turn.
    pub fn from_words(words: &[&str]) -> Day {
        Day {
            // 0 is no date.
            date: number(words, 0).unwrap_or(0),
            observations: Observations {
                temperatures: array::from_fn(|i| number(words, 1 + i).unwrap_or(i32::MAX)),
                winds: array::from_fn(|i| number(words, 9 + i).unwrap_or(u32::MAX)),
                sunshine: number(words, 25).unwrap_or(u32::MAX),
            },
        }
    }
}

// The number that a word is, if there is such a word and it is one.
fn number<N: FromStr<Err: Drop> + Drop>(words: &[&str], index: usize) -> Option<N> {
    words.get(index)?.parse::<N>().ok()
}
