// What a book refuses, by the entries that it has.
use super::reported_inputs::{GAPS, TWO_DAYS};
use super::rows::{accepted, check_rows, refused, refused_on};
use std::test::Fail;

#[test]
fn outside_the_book(rt: HostRuntime) -> Result<(), Fail> {
    check_rows(
        &rt,
        &TWO_DAYS,
        &[
            refused("ENRL         1        16  20240703", 3, 5, 25),
            refused("GATE  20240703       100         0", 3, 5, 5),
            refused("GATE  20240630       100         0", 3, 5, 5),
            refused("INTV  20240630        32         0", 3, 5, 5),
            refused("DEGD  20240703     20000", 3, 5, 5),
            refused("READ         9  20240703  20240701        -1A", 3, 5, 15),
            refused("READ         9  20240630  20240704        -1A", 3, 5, 15),
            refused("READ         9  20240701  20240704        -1A", 3, 5, 25),
            refused("READ         9  20240701  20240630        -1A", 3, 5, 25),
        ],
    )
}

#[test]
fn readings_of_two_days(rt: HostRuntime) -> Result<(), Fail> {
    check_rows(
        &rt,
        &TWO_DAYS,
        &[
            refused("READ         1  20240701  20240703       -10A", 3, 6, 35),
            refused("READ         1  20240701  20240703-999999999A", 3, 6, 35),
            refused("READ         9  20240702  20240701        -1A", 3, 6, 35),
            refused("READ         9  20240702  20240701         1A", 3, 7, 5),
            refused("READ         1  20240702  20240701         1A", 3, 9, 15),
            refused("READ         2  20240702  20240703         5A", 3, 9, 15),
            refused("READ         1  20240701  20240701         1E", 3, 10, 25),
            refused("READ         1  20240701  20240702         1E", 3, 10, 25),
            refused("READ         1  20240701  20240703         1E", 3, 12, 5),
            refused("READ         1  20240701  20240703         1C", 3, 12, 5),
            accepted("READ         1  20240701  20240703         1S"),
            refused("ENRL         1        16  20240702", 3, 8, 5),
            refused("ENRL         2         2  20240701", 3, 8, 5),
            accepted("ENRL         3         2  20240701"),
        ],
    )
}

// The first day without a load is named.
#[test]
fn days_without_a_load(rt: HostRuntime) -> Result<(), Fail> {
    check_rows(
        &rt,
        &GAPS,
        &[
            refused_on(
                "READ         1  20240702  20240706         1A",
                3,
                11,
                15,
                20240703,
            ),
            refused_on(
                "READ         1  20240702  20240704         1A",
                3,
                11,
                15,
                20240703,
            ),
            accepted("READ         1  20240702  20240703         1C"),
            refused("READ         1  20240701  20240703         1C", 3, 9, 15),
        ],
    )
}
