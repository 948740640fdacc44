// Lines that are malformed in a field, the tag or the letter: the leftmost is named.
use super::reported_inputs::TWO_DAYS;
use super::rows::{accepted, check_rows, malformed, no_line, refused};
use std::test::Fail;

#[test]
fn tags(rt: HostRuntime) -> Result<(), Fail> {
    check_rows(
        &rt,
        &TWO_DAYS,
        &[
            malformed("GATX  20240701       100         0", 1),
            malformed("gate  20240701       100         0", 1),
            malformed(" GATE 20240701       100         0", 1),
            malformed("DAY   20240701       100        50        30", 1),
            malformed("FAIL        10         3         9        15 ", 1),
            malformed("      20240701       100         0", 1),
            malformed("", 1),
            // Whatever else is wrong.
            malformed("REAX        -1  2024-7-1         x        -0e", 1),
        ],
    )
}

#[test]
fn numbers(rt: HostRuntime) -> Result<(), Fail> {
    check_rows(
        &rt,
        &TWO_DAYS,
        &[
            malformed("GATE  20240701                   0", 15),
            malformed("GATE  20240701        00         0", 15),
            malformed("GATE  20240701      0100         0", 15),
            malformed("GATE  20240701        -1         0", 15),
            malformed("GATE  20240701        +1         0", 15),
            malformed("GATE  202407011                  0", 15),
            malformed("GATE  20240701      1 00         0", 15),
            malformed("GATE  20240701       1.0         0", 15),
            malformed("GATE  20240701\t        1         0", 15),
            malformed("GATE  20240701       0x1         0", 15),
            malformed("GATE  20240701         a         x", 15),
            malformed("GATE  20240701       100        0 ", 25),
            malformed("GATE  20240701       100         x         x", 25),
            accepted("GATE  20240701         0         0"),
            // Ten digits are well formed, and beyond the limit.
            refused("GATE  202407019999999999         0", 2, 3, 15),
        ],
    )
}

#[test]
fn dates(rt: HostRuntime) -> Result<(), Fail> {
    check_rows(
        &rt,
        &TWO_DAYS,
        &[
            malformed("GATE                 100         0", 5),
            malformed("GATE   2024070       100         0", 5),
            malformed("GATE 020240701       100         0", 5),
            malformed("GATE0020240701       100         0", 5),
            malformed("GATE20240701         100         0", 5),
            malformed("GATE  2024-7-1       100         0", 5),
            malformed("GATE  -2024070       100         0", 5),
            malformed("ENRL         3         1  2024 701", 25),
            malformed("READ         1   2024070  20240703       200A", 15),
            // Eight digits that begin with 0 are well formed, and no date.
            refused("GATE  02024070       100         0", 2, 4, 5),
        ],
    )
}

// Columns that a tag does not use are spaces.
#[test]
fn unused_columns(rt: HostRuntime) -> Result<(), Fail> {
    check_rows(
        &rt,
        &TWO_DAYS,
        &[
            malformed("GATE  20240701       100         0         0", 35),
            malformed("GATE  20240701       100         0x", 35),
            malformed("GATE  20240701       100         0          A", 45),
            malformed("DEGD  20240701       500         0", 25),
            malformed("DEGD  20240701       500                   0", 35),
            malformed("DEGD  20240701       500                    E", 45),
            malformed("ENRL         3         1  20240701         1", 35),
            malformed("INTV  20240701         1         0          S", 45),
        ],
    )
}

#[test]
fn energies_and_letters(rt: HostRuntime) -> Result<(), Fail> {
    check_rows(
        &rt,
        &TWO_DAYS,
        &[
            malformed("READ         1  20240701  20240703        -0A", 35),
            malformed("READ         1  20240701  20240703       -01A", 35),
            malformed("READ         1  20240701  20240703      - 10A", 35),
            malformed("READ         1  20240701  20240703         -A", 35),
            malformed("READ         1  20240701  20240703       --1A", 35),
            malformed("READ         1  20240701  20240703       1-1A", 35),
            malformed("READ         1  20240701  20240703       010A", 35),
            malformed("READ        -1  20240701  20240703        10A", 5),
            malformed("READ         1  20240701  20240703        10B", 45),
            malformed("READ         1  20240701  20240703        10a", 45),
            malformed("READ         1  20240701  20240703        100", 45),
            malformed("READ         1  20240701  20240703        10", 45),
            accepted("READ         1  20240701  20240703        10S"),
        ],
    )
}

// NUL, a carriage return and bytes that are no ASCII are bytes like any other: no digit, no space and no capital.
#[test]
fn strange_bytes(rt: HostRuntime) -> Result<(), Fail> {
    check_rows(
        &rt,
        &TWO_DAYS,
        &[
            no_line(b"GAT\0  20240701       100         0           \n", 1),
            no_line(
                b"\xef\xbb\xbfG  20240701       100         0           \n",
                1,
            ),
            no_line(b"GATE\0 20240701       100         0           \n", 5),
            no_line(b"GATE\xc2\xa020240701       100         0           \n", 5),
            no_line(b"GATE  20240701       10\0         0           \n", 15),
            no_line(b"GATE  20240701       100\x00        0           \n", 25),
            no_line(b"GATE  20240701       100         \xb2           \n", 25),
            no_line(b"GATE  20240701       100         0\0          \n", 35),
            no_line(b"GATE  20240701       100         0          \r\n", 45),
            no_line(b"GATE  20240701       100         0          \xff\n", 45),
            no_line(b"READ         1  20240701  20240703       200\0\n", 45),
        ],
    )
}
