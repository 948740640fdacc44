// What refuses a draw, and what it leaves.
use super::areas::{
    Area, FIRST, IDLE, LAST, WHOLE_BOOK, area_with, begins, first_calls, last_gate, places,
};
use statements::{Final, LATER_PLACES, Preliminary, Revised, SUMS, Span, Stage, Undrawn};
use std::process::Abort;
use std::test::Fail;
use terms::Refusal;

// The refusal of a preliminary. The list stays as it was.
fn refusal(
    rt: &impl Abort,
    area: &Area,
    first: u32,
    last: u32,
    list: &mut [i64],
) -> Option<Refusal> {
    match Stage::draw(&area.book, &area.weather, Span { first, last }, list) {
        Ok(stage) => {
            stage.settle();
            None
        }
        Err(refusal) => {
            begins(rt, "refused", list, &[]);
            Some(refusal)
        }
    }
}

// The first reason that holds decides.
#[test]
fn spans_refused(rt: HostRuntime) -> Result<(), Fail> {
    let area = area_with(&rt, 4, &[&first_calls()])?;
    let lacking = Refusal::AskedDayWithoutLoad { date: LAST };
    let due = [
        (20240732, IDLE, Refusal::NoSuchDate),
        (FIRST, 20230229, Refusal::NoSuchDate),
        (20240801, 20240732, Refusal::NoSuchDate),
        (20240630, IDLE, Refusal::OutsideBook),
        (FIRST, 20240705, Refusal::OutsideBook),
        (20240705, FIRST, Refusal::OutsideBook),
        (IDLE, 20240702, Refusal::EndNotAllowed),
        (LAST, IDLE, Refusal::EndNotAllowed),
        (FIRST, LAST, lacking),
        (LAST, LAST, lacking),
        (FIRST, IDLE, Refusal::ListTooShort),
    ];
    let mut short = [7; SUMS - 1];
    for (first, last, reason) in due {
        assert_eq!(rt;
            refusal(&rt, &area, first, last, &mut short),
            Some(reason),
            "{first} to {last}"
        );
    }
    assert_eq!(rt; refusal(&rt, &area, FIRST, IDLE, &mut [7; SUMS]), None);
    Ok(())
}

// The stage and the reason why the final was not drawn. The list stays as it was.
fn undrawn(
    rt: &impl Abort,
    stage: Stage<Preliminary>,
    area: &Area,
    list: &mut [i64],
) -> Result<(Stage<Preliminary>, Refusal), Fail> {
    let before = stage.statement();
    match stage.draw_final(&area.book, &area.weather, list) {
        Ok(next) => {
            next.settle();
            Err(Fail::new("drawn"))
        }
        Err(Undrawn { refusal, stage }) => {
            begins(rt, "undrawn", list, &[]);
            assert_eq!(rt; stage.statement(), before);
            Ok((stage, refusal))
        }
    }
}

// A later stage is judged by the book that it is drawn from. One that is refused comes back, and goes on.
#[test]
fn later_stages_refused(rt: HostRuntime) -> Result<(), Fail> {
    let complete = area_with(&rt, 4, &[&first_calls(), &last_gate()])?;
    let without_load = area_with(&rt, 4, &[&first_calls()])?;
    let smaller = area_with(&rt, 3, &[])?;
    let mut list = [7; LATER_PLACES - 1];

    let stage = Stage::draw(
        &complete.book,
        &complete.weather,
        WHOLE_BOOK,
        &mut [7; SUMS],
    )?;
    let (stage, reason) = undrawn(&rt, stage, &smaller, &mut list)?;
    assert_eq!(rt; reason, Refusal::OutsideBook);
    let (stage, reason) = undrawn(&rt, stage, &without_load, &mut list)?;
    assert_eq!(rt; reason, Refusal::AskedDayWithoutLoad { date: LAST });
    let (stage, reason) = undrawn(&rt, stage, &complete, &mut list)?;
    assert_eq!(rt; reason, Refusal::ListTooShort);

    let mut list = [7; LATER_PLACES];
    match stage.draw_final(&complete.book, &complete.weather, &mut list) {
        Ok(stage) => {
            begins(
                &rt,
                "final",
                &list,
                &[places(0, 0, 0), places(200, 90, 310)],
            );
            revise_in_vain(&rt, stage, &complete)
        }
        Err(Undrawn { refusal, stage }) => {
            stage.settle();
            Err(refusal.into())
        }
    }
}

// A final without places for its revision comes back, and so does a revision.
fn revise_in_vain(rt: &impl Abort, stage: Stage<Final>, area: &Area) -> Result<(), Fail> {
    let before = stage.statement();
    match stage.draw_revision(&area.book, &area.weather, &mut []) {
        Ok(next) => {
            next.settle();
            Err(Fail::new("drawn"))
        }
        Err(Undrawn { refusal, stage }) => {
            assert_eq!(rt;
                (refusal, stage.statement()),
                (Refusal::ListTooShort, before)
            );
            match stage.draw_revision(&area.book, &area.weather, &mut [7; LATER_PLACES]) {
                Ok(next) => revise_again_in_vain(rt, next, area),
                Err(Undrawn { refusal, stage }) => {
                    stage.settle();
                    Err(refusal.into())
                }
            }
        }
    }
}

fn revise_again_in_vain(rt: &impl Abort, stage: Stage<Revised>, area: &Area) -> Result<(), Fail> {
    let before = stage.statement();
    match stage.draw_revision(&area.book, &area.weather, &mut [7; LATER_PLACES - 1]) {
        Ok(next) => {
            next.settle();
            Err(Fail::new("drawn"))
        }
        Err(Undrawn { refusal, stage }) => {
            assert_eq!(rt; (refusal, stage.settle()), (Refusal::ListTooShort, before));
            Ok(())
        }
    }
}
