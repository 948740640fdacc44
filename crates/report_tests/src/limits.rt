// Numbers beyond their limits, and dates that do not exist: the leftmost number first, then the leftmost date.
use super::reported_inputs::{NOTHING, TWO_DAYS};
use super::rows::{accepted, check_rows, refused};
use std::test::Fail;

#[test]
fn openings(rt: HostRuntime) -> Result<(), Fail> {
    check_rows(
        &rt,
        &NOTHING,
        &[
            accepted("OPEN  20240701         1         0"),
            accepted("OPEN  20240701        62      2000"),
            refused("OPEN  20240701         0         0", 2, 3, 15),
            refused("OPEN  20240701        63      2001", 2, 3, 15),
            refused("OPEN  20240732        63         0", 2, 3, 15),
            refused("OPEN  20240701        62      2001", 2, 3, 25),
            refused("OPEN  209912309999999999         0", 2, 3, 15),
            refused("OPEN  20991232         1      2001", 2, 3, 25),
            // A last day that is too late is a limit, at fault beside the others.
            accepted("OPEN  20991230         1         0"),
            refused("OPEN  20991230         2         0", 2, 3, 5),
            refused("OPEN  20991231         1      2001", 2, 3, 5),
            refused("OPEN  20991231        63         0", 2, 3, 15),
            accepted("OPEN  20010101        62         0"),
            refused("OPEN  20001231         1         0", 2, 4, 5),
            refused("OPEN  21000101         1         0", 2, 4, 5),
            refused("OPEN  20230229         1         0", 2, 4, 5),
            refused("OPEN  00000000         1         0", 2, 4, 5),
        ],
    )
}

#[test]
fn factors(rt: HostRuntime) -> Result<(), Fail> {
    check_rows(
        &rt,
        &NOTHING,
        &[
            accepted("FACT         1         0         0"),
            accepted("FACT        32 100000000   1000000"),
            refused("FACT         0         0         0", 2, 3, 5),
            refused("FACT        33 100000001         0", 2, 3, 5),
            refused("FACT        32 100000001   1000001", 2, 3, 15),
            refused("FACT        32 100000000   1000001", 2, 3, 25),
        ],
    )
}

#[test]
fn enrolments(rt: HostRuntime) -> Result<(), Fail> {
    check_rows(
        &rt,
        &TWO_DAYS,
        &[
            accepted("ENRL        32        16  20240702"),
            refused("ENRL         0         1  20240701", 2, 3, 5),
            refused("ENRL        33        17  20240732", 2, 3, 5),
            refused("ENRL         3         0  20240701", 2, 3, 15),
            refused("ENRL         3        17  20240732", 2, 3, 15),
            refused("ENRL         3        16  20240732", 2, 4, 25),
        ],
    )
}

#[test]
fn entries_of_a_day(rt: HostRuntime) -> Result<(), Fail> {
    check_rows(
        &rt,
        &TWO_DAYS,
        &[
            accepted("GATE  2024070110000000001000000000"),
            refused("GATE  202407321000000001         0", 2, 3, 15),
            refused("GATE  20240630       1001000000001", 2, 3, 25),
            refused("GATE  202407321000000000         0", 2, 4, 5),
            accepted("INTV  20240701         1         0"),
            accepted("INTV  20240702        32 100000000"),
            refused("INTV  20240701         0         0", 2, 3, 15),
            refused("INTV  20240701        33 100000001", 2, 3, 15),
            refused("INTV  20240701        32 100000001", 2, 3, 25),
            refused("INTV  20240431        32         0", 2, 4, 5),
            accepted("DEGD  20240701     20000"),
            refused("DEGD  20230229     20001", 2, 3, 15),
            refused("DEGD  20230229     20000", 2, 4, 5),
        ],
    )
}

#[test]
fn readings(rt: HostRuntime) -> Result<(), Fail> {
    check_rows(
        &rt,
        &TWO_DAYS,
        &[
            accepted("READ         2  20240701  20240703  10000000A"),
            refused("READ         0  20240701  20240703       -20A", 2, 3, 5),
            refused("READ        33  20240732  20240703  10000001A", 2, 3, 5),
            refused("READ         1  20240732  20240703  10000001A", 2, 3, 35),
            refused("READ         1  20240732  20240732        -1A", 2, 4, 15),
            refused("READ         1  20240703  20240732        -1A", 2, 4, 25),
        ],
    )
}
