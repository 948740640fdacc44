use super::rows::{GOOD, Row, beyond_limits, malformed, no_such_date};

// Lines with the tag OPEN.
pub(crate) fn openings() -> [Row; 19] {
    [
        Row(b"OPEN  20240701         2         0           \n", GOOD),
        Row(b"OPEN  20010101        62      2000           \n", GOOD),
        Row(b"OPEN  20991230         1         0           \n", GOOD),
        Row(
            b"OPEN   2024070         2         0           \n",
            malformed(5),
        ),
        Row(
            b"OPEN 020240701         2         0           \n",
            malformed(5),
        ),
        Row(
            b"OPEN                   2         0           \n",
            malformed(5),
        ),
        Row(
            b"OPEN 20240701          2         0           \n",
            malformed(5),
        ),
        Row(
            b"OPEN  20240701        02         0           \n",
            malformed(15),
        ),
        Row(
            b"OPEN  202407012                  0           \n",
            malformed(15),
        ),
        Row(
            b"OPEN  20240701         2                     \n",
            malformed(25),
        ),
        Row(
            b"OPEN  20240701         2        -1           \n",
            malformed(25),
        ),
        Row(
            b"OPEN  20240701         2         0         0 \n",
            malformed(35),
        ),
        Row(
            b"OPEN  20240701         2         0          A\n",
            malformed(45),
        ),
        Row(
            b"OPEN  20240701         0         0           \n",
            beyond_limits(15),
        ),
        Row(
            b"OPEN  20230229        63      2001           \n",
            beyond_limits(15),
        ),
        Row(
            b"OPEN  20230229        62      2001           \n",
            beyond_limits(25),
        ),
        Row(
            b"OPEN  20991230         2      2001           \n",
            beyond_limits(5),
        ),
        Row(
            b"OPEN  00000000         2         0           \n",
            no_such_date(5),
        ),
        Row(
            b"OPEN  21000101         2         0           \n",
            no_such_date(5),
        ),
    ]
}

// Lines with the tag FACT.
pub(crate) fn factors() -> [Row; 12] {
    [
        Row(b"FACT         2     30000         0           \n", GOOD),
        Row(b"FACT        32 100000000   1000000           \n", GOOD),
        Row(
            b"FACT         x     30000         0           \n",
            malformed(5),
        ),
        Row(
            b"FACT         \xff     30000         0           \n",
            malformed(5),
        ),
        Row(
            b"FACT         2    3 0000         0           \n",
            malformed(15),
        ),
        Row(
            b"FACT         2     30000         \0           \n",
            malformed(25),
        ),
        Row(
            b"FACT         2     30000         0         \0 \n",
            malformed(35),
        ),
        Row(
            b"FACT         2     30000         0          \0\n",
            malformed(45),
        ),
        Row(
            b"FACT         0     30000         0           \n",
            beyond_limits(5),
        ),
        Row(
            b"FACT        33 100000001         0           \n",
            beyond_limits(5),
        ),
        Row(
            b"FACT        32 100000001   1000001           \n",
            beyond_limits(15),
        ),
        Row(
            b"FACT        32 100000000   1000001           \n",
            beyond_limits(25),
        ),
    ]
}

// Lines with the tag ENRL.
pub(crate) fn enrolments() -> [Row; 11] {
    [
        Row(b"ENRL         1         1  20240701           \n", GOOD),
        Row(b"ENRL        32        16  20240229           \n", GOOD),
        Row(
            b"ENRL        +1         1  20240701           \n",
            malformed(5),
        ),
        Row(
            b"ENRL         1       1\xc2\xa0  20240701           \n",
            malformed(15),
        ),
        Row(
            b"ENRL         1         1  2024-701           \n",
            malformed(25),
        ),
        Row(
            b"ENRL         1         1 \x0920240701           \n",
            malformed(25),
        ),
        Row(
            b"ENRL         1         1  20240701         x \n",
            malformed(35),
        ),
        Row(
            b"ENRL         1         1  20240701          .\n",
            malformed(45),
        ),
        Row(
            b"ENRL        33        17  20240230           \n",
            beyond_limits(5),
        ),
        Row(
            b"ENRL        32        17  20240230           \n",
            beyond_limits(15),
        ),
        Row(
            b"ENRL        32        16  20240230           \n",
            no_such_date(25),
        ),
    ]
}

// Lines with the tag GATE.
pub(crate) fn gate_days() -> [Row; 11] {
    [
        Row(b"GATE  20240701       100         0           \n", GOOD),
        Row(b"GATE  2099123110000000001000000000           \n", GOOD),
        Row(
            b"GATE  2024O701       100         0           \n",
            malformed(5),
        ),
        Row(
            b"GATE  20240701      0100         0           \n",
            malformed(15),
        ),
        Row(
            b"GATE  20240701      -100         0           \n",
            malformed(15),
        ),
        Row(
            b"GATE  20240701       100       \xe2\x82\xac           \n",
            malformed(25),
        ),
        Row(
            b"GATE  20240701       100         0         0 \n",
            malformed(35),
        ),
        Row(
            b"GATE  20240701       100         0          \n\n",
            malformed(45),
        ),
        Row(
            b"GATE  2024070110000000011000000001           \n",
            beyond_limits(15),
        ),
        Row(
            b"GATE  2024070110000000009999999999           \n",
            beyond_limits(25),
        ),
        Row(
            b"GATE  202409311000000000         0           \n",
            no_such_date(5),
        ),
    ]
}

// Lines with the tag INTV.
pub(crate) fn interval_energies() -> [Row; 11] {
    [
        Row(b"INTV  20240702         1         0           \n", GOOD),
        Row(b"INTV  20240702        32 100000000           \n", GOOD),
        Row(
            b"INTV 20240702         32         0           \n",
            malformed(5),
        ),
        Row(
            b"INTV  20240702        3a         0           \n",
            malformed(15),
        ),
        Row(
            b"INTV  20240702        32        00           \n",
            malformed(25),
        ),
        Row(
            b"INTV  20240702        32         0         - \n",
            malformed(35),
        ),
        Row(
            b"INTV  20240702        32         0          \x80\n",
            malformed(45),
        ),
        Row(
            b"INTV  20240702        33         0           \n",
            beyond_limits(15),
        ),
        Row(
            b"INTV  20240702         0 100000001           \n",
            beyond_limits(15),
        ),
        Row(
            b"INTV  20240732        32 100000001           \n",
            beyond_limits(25),
        ),
        Row(
            b"INTV  20240732        32 100000000           \n",
            no_such_date(5),
        ),
    ]
}

// Lines with the tag DEGD.
pub(crate) fn degree_days() -> [Row; 9] {
    [
        Row(b"DEGD  20240701       500                     \n", GOOD),
        Row(b"DEGD  20240701     20000                     \n", GOOD),
        Row(
            b"DEGD                 500                     \n",
            malformed(5),
        ),
        Row(
            b"DEGD  20240701                               \n",
            malformed(15),
        ),
        Row(
            b"DEGD  20240701       500         1           \n",
            malformed(25),
        ),
        Row(
            b"DEGD  20240701       500                   1 \n",
            malformed(35),
        ),
        Row(
            b"DEGD  20240701       500                    a\n",
            malformed(45),
        ),
        Row(
            b"DEGD  20241301     20001                     \n",
            beyond_limits(15),
        ),
        Row(
            b"DEGD  20241301     20000                     \n",
            no_such_date(5),
        ),
    ]
}

// Lines with the tag READ.
pub(crate) fn readings() -> [Row; 20] {
    [
        Row(b"READ         1  20240701  20240703       200A\n", GOOD),
        Row(b"READ        32  20240701  20240703  10000000S\n", GOOD),
        Row(b"READ         2  20240702  20240703        -5E\n", GOOD),
        Row(b"READ         2  20240702  20240703-999999999C\n", GOOD),
        Row(
            b"READ        -1  20240701  20240703       200A\n",
            malformed(5),
        ),
        Row(
            b"READ         1   2024071  20240703       200A\n",
            malformed(15),
        ),
        Row(
            b"READ         1  20240701 120240703       200A\n",
            malformed(25),
        ),
        Row(
            b"READ         1  20240701  20240703        -0A\n",
            malformed(35),
        ),
        Row(
            b"READ         1  20240701  20240703       - 5A\n",
            malformed(35),
        ),
        Row(
            b"READ         1  20240701  20240703       -05A\n",
            malformed(35),
        ),
        Row(
            b"READ         1  20240701  20240703         -A\n",
            malformed(35),
        ),
        Row(
            b"READ         1  20240701  20240703       --5A\n",
            malformed(35),
        ),
        Row(
            b"READ         1  20240701  20240703          A\n",
            malformed(35),
        ),
        Row(
            b"READ         1  20240701  20240703       200a\n",
            malformed(45),
        ),
        Row(
            b"READ         1  20240701  20240703       200 \n",
            malformed(45),
        ),
        Row(
            b"READ         1  20240701  20240703       200B\n",
            malformed(45),
        ),
        Row(
            b"READ9999999999  20240701  20240703  10000001A\n",
            beyond_limits(5),
        ),
        Row(
            b"READ        32  20240700  20240703  10000001A\n",
            beyond_limits(35),
        ),
        Row(
            b"READ        32  20240700  20240700  10000000A\n",
            no_such_date(15),
        ),
        Row(
            b"READ        32  20240701  20230229        -5A\n",
            no_such_date(25),
        ),
    ]
}

// Lines with no such tag, and of a wrong length.
pub(crate) fn tags_and_lengths() -> [Row; 16] {
    [
        Row(
            b"GATX  20240701       100         0           \n",
            malformed(1),
        ),
        Row(
            b"gate  20240701       100         0           \n",
            malformed(1),
        ),
        Row(
            b"GAT\xc8         x         y         z          ?\n",
            malformed(1),
        ),
        Row(
            b"\0\0\0\0                                         \n",
            malformed(1),
        ),
        Row(b"", malformed(1)),
        Row(b"\n", malformed(1)),
        Row(b"GATE\n", malformed(5)),
        Row(b"GATE", malformed(5)),
        Row(
            b"GATE  20240701       100         0          \n",
            malformed(45),
        ),
        Row(
            b"GATE  20240701       100         0          ",
            malformed(45),
        ),
        Row(
            b"GATE  20240701       100         0           ",
            malformed(46),
        ),
        Row(
            b"GATE  20240701       100         0           \r",
            malformed(46),
        ),
        Row(
            b"GATE  20240701       100         0           \r\n",
            malformed(46),
        ),
        Row(
            b"GATE  20240701       100         0           \0",
            malformed(46),
        ),
        Row(
            b"GATE  20240701       100         0           \nGATE  20240701       100         0           \n",
            malformed(46),
        ),
        Row(
            b"xxxxxxxxxxxxxxxxxxxxxxxxxxxxxxxxxxxxxxxxxxxxxxxxxxxxxxxxxxxxxxxxxxxxxxxxxxxxxxxxxxxxxxxxxxxxxxxxxxxx\n",
            malformed(46),
        ),
    ]
}
