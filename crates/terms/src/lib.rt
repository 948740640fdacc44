//! The terms that every other crate cites: the reasons for a refusal, the types of readings, the limits of a reading,
//! and rounding. Proved: the number, layer and date of each refusal are those of one table; a type's letter reads back
//! as that type, and no other letter reads; a quotient is rounded to the nearest whole number, halves up.
#![tactic(auto)]

mod layer;
mod limits;
mod reading_type;
mod refusal;
mod rounding;

pub use layer::Layer;
pub use limits::{GREATEST_FIGURE, LARGEST_ENERGY, RETAILERS};
pub use reading_type::{ReadingType, UnknownLetter};
pub use refusal::Refusal;
pub use rounding::nearest_quotient;
