// A span from its preliminary to its second revision.
use super::areas::{
    Area, FIRST, IDLE, LAST, WHOLE_BOOK, area_with, begins, corrections, excess_reading,
    first_calls, last_gate, places,
};
use statements::{Final, Preliminary, Revised, SUMS, Span, Stage, Statement, Undrawn};
use std::process::Abort;
use std::test::Fail;

// The next stage, or the reason why there is none; then the settlement ends.

fn finalised(
    stage: Stage<Preliminary>,
    area: &Area,
    list: &mut [i64],
) -> Result<Stage<Final>, Fail> {
    match stage.draw_final(&area.book, &area.weather, list) {
        Ok(next) => Ok(next),
        Err(Undrawn { refusal, stage }) => {
            stage.settle();
            Err(refusal.into())
        }
    }
}

fn first_revised(
    stage: Stage<Final>,
    area: &Area,
    list: &mut [i64],
) -> Result<Stage<Revised>, Fail> {
    match stage.draw_revision(&area.book, &area.weather, list) {
        Ok(next) => Ok(next),
        Err(Undrawn { refusal, stage }) => {
            stage.settle();
            Err(refusal.into())
        }
    }
}

fn revised(stage: Stage<Revised>, area: &Area, list: &mut [i64]) -> Result<Stage<Revised>, Fail> {
    match stage.draw_revision(&area.book, &area.weather, list) {
        Ok(next) => Ok(next),
        Err(Undrawn { refusal, stage }) => {
            stage.settle();
            Err(refusal.into())
        }
    }
}

// Up and down: the reading of point 2 lowers what retailer 16 is charged by 50, the revised gate day raises the
// remainder. The second revision charges retailer 1 more, and the excess of the last day lowers no other day's
// remainder.
#[test]
fn adjustments_up_and_down(rt: HostRuntime) -> Result<(), Fail> {
    let at_first = area_with(&rt, 4, &[&first_calls(), &last_gate()])?;
    let then = area_with(&rt, 4, &[&first_calls(), &last_gate(), &corrections()])?;
    let at_last = area_with(
        &rt,
        4,
        &[
            &first_calls(),
            &last_gate(),
            &corrections(),
            &excess_reading(),
        ],
    )?;
    let sums = [
        places(200, 90, 310),
        places(200, 40, 561),
        places(500, 40, 371),
    ];
    let mut list = [7; 40];

    let stage = Stage::draw(&at_first.book, &at_first.weather, WHOLE_BOOK, &mut list)?;
    begins(&rt, "preliminary", &list, &[sums[0]]);
    let mut list = [7; 40];
    let stage = finalised(stage, &then, &mut list)?;
    begins(&rt, "final", &list, &[places(0, -50, 251), sums[1]]);
    let mut list = [7; 40];
    let stage = first_revised(stage, &at_last, &mut list)?;
    begins(&rt, "revised", &list, &[places(300, 0, -190), sums[2]]);
    let mut list = [7; 40];
    let stage = revised(stage, &at_last, &mut list)?;
    begins(&rt, "nothing new", &list, &[places(0, 0, 0), sums[2]]);

    let Statement { span, sums } = stage.settle();
    assert_eq!(rt; span, WHOLE_BOOK);
    assert_eq!(rt;
        (sums.retailers[0], sums.retailers[15], sums.remainder),
        (500, 40, 371)
    );
    Ok(())
}

// The sums of a span, from a list with just enough places.
fn sums_of(area: &Area, first: u32, last: u32) -> Result<[i64; SUMS], Fail> {
    let mut list = [7; SUMS];
    let stage = Stage::draw(&area.book, &area.weather, Span { first, last }, &mut list)?;
    stage.settle();
    Ok(list)
}

// A span of one day, with its load and without gas, and spans over a day without gas.
#[test]
fn spans_of_few_days(rt: HostRuntime) -> Result<(), Fail> {
    let area = area_with(&rt, 4, &[&first_calls(), &last_gate()])?;
    let due = [
        (FIRST, FIRST, places(50, 30, 20)),
        (20240702, 20240702, places(150, 30, 120)),
        (IDLE, IDLE, places(0, 0, 0)),
        (LAST, LAST, places(0, 30, 170)),
        (FIRST, 20240702, places(200, 60, 140)),
        (20240702, IDLE, places(150, 30, 120)),
        (IDLE, LAST, places(0, 30, 170)),
    ];
    for (first, last, sums) in due {
        assert_eq!(rt; sums_of(&area, first, last)?, sums, "{first} to {last}");
    }
    Ok(())
}
