// Factors come before the one accepted opening, and everything else after it.
use super::inputs::{filled, report_of};
use super::reported_inputs::{GAPS, NOTHING, ReportedInput, TWO_DAYS};
use super::rows::{accepted, check_rows, malformed, refused};
use std::test::Fail;

// A book that was not opened, since its opening was refused.
const NOT_OPENED: ReportedInput = ReportedInput {
    lines: "FACT         2     30000         0
OPEN  20240701        63         0
",
    refusals: "FAIL         2         2         3        15         0
",
    days: "",
};

#[test]
fn before_the_opening(rt: HostRuntime) -> Result<(), Fail> {
    for before in [NOTHING, NOT_OPENED] {
        check_rows(
            &rt,
            &before,
            &[
                refused("ENRL         1         1  20240701", 2, 2, 1),
                refused("GATE  20240701       100         0", 2, 2, 1),
                refused("INTV  20240701         1         0", 2, 2, 1),
                refused("DEGD  20240701       500", 2, 2, 1),
                refused("READ         1  20240701  20240703       200A", 2, 2, 1),
                // Malformed comes before the turn, and the turn before limits, dates and a negative energy.
                malformed("ENRL         1         1   2024070", 25),
                refused("ENRL        99        99  20240732", 2, 2, 1),
                refused("READ        99  20240732  20240703       -20A", 2, 2, 1),
                accepted("FACT         3     30000         0"),
                accepted("OPEN  20240701         2         0"),
            ],
        )?;
    }
    Ok(())
}

#[test]
fn after_the_opening(rt: HostRuntime) -> Result<(), Fail> {
    for before in [TWO_DAYS, GAPS] {
        check_rows(
            &rt,
            &before,
            &[
                refused("FACT         2     30000         0", 2, 2, 1),
                refused("FACT        99 999999999         0", 2, 2, 1),
                malformed("FACT        99     30000        00", 25),
                refused("OPEN  20240701         2         0", 2, 2, 1),
                refused("OPEN  20240732        63      2001", 2, 2, 1),
                malformed("OPEN  20240701         2         0         0", 35),
            ],
        )?;
    }
    Ok(())
}

// A refused opening leaves the factors as they were, and another may follow, after further factors.
#[test]
fn an_opening_after_refused_ones(rt: HostRuntime) -> Result<(), Fail> {
    let input = filled(
        rt.alloc(),
        "FACT         1     30000         0
OPEN  20240701         2      2001
OPEN  20240732         2         0
FACT         2     40000         0
OPEN  20240701         1         0
OPEN  20240701         2         0
ENRL         1         1  20240701
ENRL         2         1  20240701
GATE  20240701       100         0
DEGD  20240701         0
",
    )?;
    let text = report_of(rt.alloc(), input.as_slice())?;
    let wanted = "FAIL         2         2         3        25         0
FAIL         3         2         4         5         0
FAIL         6         2         2         1         0
DAY   20240701       100         0        70        30         0         0
";
    assert_eq!(rt; text.as_slice(), wanted.as_bytes());
    Ok(())
}
