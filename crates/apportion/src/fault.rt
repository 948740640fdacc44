ghost use Rattle.std.specs.Prelude.{◌≡◌};
ghost use Rattle.apportion.specs.declared.fault.Fault.TheVariants.{Memory, Refused as RefusedCall};
ghost use Rattle.terms.specs.declared.refusal.Refusal.{Refusal as Reason};

use super::words::WordFault;
use estimators::DAYS;
use std::alloc::{AllocError, AllocFailed};
use terms::Refusal;
use thiserror::Error;

// Why no table can be made.
#[derive(Clone, Copy, PartialEq, Eq, Debug, Error)]
pub(crate) enum Fault {
    #[error("too few words: an energy and the load of one day at least")]
    TooFewWords,
    #[error("too many words: the loads of {most} days at most", most = DAYS)]
    TooManyWords,
    // The word at this index, counted from 0, and what is wrong with it.
    #[error("word {} {why}", .index.saturating_add(1))]
    Word { index: usize, why: WordFault },
    #[error("a number is beyond its limit")]
    Refused(Refusal),
    #[error("not enough memory")]
    Memory,
}

// The conversions are written out, since contracts name the fault that `?` gives.
impl From<AllocError> for Fault {
    ghost from_gives = { λ _ r. r ≡ Memory };

    fn from(_e: AllocError) -> Fault {
        Fault::Memory
    }
}

impl<T: Drop> From<AllocFailed<T>> for Fault {
    ghost from_gives = { λ _ r. r ≡ Memory };

    fn from(_e: AllocFailed<T>) -> Fault {
        Fault::Memory
    }
}

impl From<Refusal> for Fault {
    ghost from_gives = { λ e r. r ≡ RefusedCall e };

    fn from(e: Refusal) -> Fault {
        Fault::Refused(e)
    }
}
