// The month settled: preliminary, final, and revised once.
use super::calls::{before_final, before_revision, july};
use super::month::{FIRST, LAST, Month};
use statements::{
    Final, LATER_PLACES, Preliminary, Revised, SUMS, Span, Stage, Statement, Undrawn,
};
use std::alloc::Global;

const JULY: Span = Span {
    first: FIRST,
    last: LAST,
};

// What the stages wrote: sums, and in a later one the adjustments before them.
#[derive(Clone, Copy, PartialEq, Eq, Debug)]
pub(crate) struct Settlement {
    pub(crate) preliminary: [i64; SUMS],
    pub(crate) last: [i64; LATER_PLACES],
    pub(crate) revised: [i64; LATER_PLACES],
}

// The final of July, from the preliminary. Where it cannot be drawn the settlement ends with what there is.
fn finalise(
    month: &mut Month,
    heap: Global,
    stage: Stage<Preliminary>,
    list: &mut [i64],
) -> anyhow::Result<Stage<Final>> {
    if let Err(e) = month.tell(heap, &before_final()) {
        stage.settle();
        return Err(e);
    }
    match stage.draw_final(&month.book, &month.estimator, list) {
        Ok(next) => Ok(next),
        Err(Undrawn { refusal, stage }) => {
            stage.settle();
            Err(refusal.into())
        }
    }
}

// The revision of July, from the final.
fn revise(
    month: &mut Month,
    heap: Global,
    stage: Stage<Final>,
    list: &mut [i64],
) -> anyhow::Result<Stage<Revised>> {
    if let Err(e) = month.tell(heap, &before_revision()) {
        stage.settle();
        return Err(e);
    }
    match stage.draw_revision(&month.book, &month.estimator, list) {
        Ok(next) => Ok(next),
        Err(Undrawn { refusal, stage }) => {
            stage.settle();
            Err(refusal.into())
        }
    }
}

// All stages of July, one after another.
pub(crate) fn settle(heap: Global) -> anyhow::Result<(Settlement, Statement)> {
    let mut settlement = Settlement {
        preliminary: [0; SUMS],
        last: [0; LATER_PLACES],
        revised: [0; LATER_PLACES],
    };
    let mut month = Month::open(heap)?;
    let calls = july(heap)?;
    month.tell(heap, calls.as_slice())?;
    let preliminary = Stage::draw(
        &month.book,
        &month.estimator,
        JULY,
        &mut settlement.preliminary,
    )?;
    let last = finalise(&mut month, heap, preliminary, &mut settlement.last)?;
    let revised = revise(&mut month, heap, last, &mut settlement.revised)?;
    Ok((settlement, revised.settle()))
}
