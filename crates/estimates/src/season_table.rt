// The season term of each day of a year, by a table.
ghost use Rattle.std.specs.Prelude.{◌≡◌, ◌≤◌, IsTrue, pos, negsuc, ◌*ℤ◌, neg_ℤ, ◌≤ℤ◌};
ghost use Rattle.std.specs.List.{list_all};
ghost use Rattle.estimates.specs.DegreeDayTerms.{hundredth, largest_season_term};
ghost use Rattle.estimates.specs.Observations.{day_of_year_within};
ghost use Rattle.estimates.specs.SeasonTerm.{are_season_terms, season_term, season_term_within};

use super::degree_day_terms::HUNDREDTH;

// The season term of each day of a year, in hundredths of a degree day: 200 at midwinter, day 200, and -200 half a year
// away.
const SEASON: [i32; 366] = [
    -192, // day 1
    -193, -194, -195, -195, -196, -197, -197, -198, -198, -199, -199, -199, -200, -200, -200, -200,
    -200, -200, -200, -200, -199, -199, -199, -198, -198, -197, -197, -196, -195, -195, -194, -193,
    -192, -191, -190, -189, -188, -186, -185, -184, -182, -181, -180, -178, -176, -175, -173, -171,
    -170, // day 50
    -168, -166, -164, -162, -160, -158, -156, -153, -151, -149, -146, -144, -142, -139, -137, -134,
    -132, -129, -126, -124, -121, -118, -115, -113, -110, -107, -104, -101, -98, -95, -92, -89,
    -86, -83, -80, -76, -73, -70, -67, -63, -60, -57, -54, -50, -47, -44, -40, -37, -33, -30, // day 100
    -27, -23, -20, -16, -13, -9, -6, -3, 1, 4, 8, 11, 15, 18, 21, 25, 28, 32, 35, 38, 42, 45, 49,
    52, 55, 59, 62, 65, 68, 72, 75, 78, 81, 84, 87, 90, 93, 97, 100, 102, 105, 108, 111, 114, 117,
    120, 122, 125, 128, 130, // day 150
    133, 136, 138, 141, 143, 145, 148, 150, 152, 154, 157, 159, 161, 163, 165, 167, 169, 170, 172,
    174, 176, 177, 179, 180, 182, 183, 185, 186, 187, 188, 189, 190, 191, 192, 193, 194, 195, 196,
    196, 197, 198, 198, 199, 199, 199, 200, 200, 200, 200, 200, // day 200
    200, 200, 200, 200, 199, 199, 199, 198, 198, 197, 196, 196, 195, 194, 193, 192, 191, 190, 189,
    188, 187, 186, 185, 183, 182, 180, 179, 177, 176, 174, 172, 170, 169, 167, 165, 163, 161, 159,
    157, 154, 152, 150, 148, 145, 143, 141, 138, 136, 133, 130, // day 250
    128, 125, 122, 120, 117, 114, 111, 108, 105, 102, 100, 97, 93, 90, 87, 84, 81, 78, 75, 72, 68,
    65, 62, 59, 55, 52, 49, 45, 42, 38, 35, 32, 28, 25, 21, 18, 15, 11, 8, 4, 1, -3, -6, -9, -13,
    -16, -20, -23, -27, -30, // day 300
    -33, -37, -40, -44, -47, -50, -54, -57, -60, -63, -67, -70, -73, -76, -80, -83, -86, -89, -92,
    -95, -98, -101, -104, -107, -110, -113, -115, -118, -121, -124, -126, -129, -132, -134, -137,
    -139, -142, -144, -146, -149, -151, -153, -156, -158, -160, -162, -164, -166, -168, -170, // day 350
    -171, -173, -175, -176, -178, -180, -181, -182, -184, -185, -186, -188, -189, -190, -191, -192, // day 366
];

// The season term of a day of the year, in 1,600,000ths of a hundredth of a degree day.
pub(crate) fn season_term(day_of_year: u32) -> i64
    requires { IsTrue (day_of_year_within day_of_year) }
    ensures value { result ≡ pos hundredth *ℤ season_term day_of_year }
    ensures bounds { (neg_ℤ (pos largest_season_term) ≤ℤ result) × (result ≤ℤ pos largest_season_term) }
{
    HUNDREDTH as i64 * i64::from(entry_of(&SEASON, day_of_year))
}

// The entry of a day of the year in a table whose entries are all season terms, in hundredths of a degree day.
fn entry_of(table: &[i32; 366], day_of_year: u32) -> i32
    requires terms { IsTrue (are_season_terms 1 table.now) × IsTrue (list_all season_term_within table.now) }
    requires within { IsTrue (day_of_year_within day_of_year) }
    ensures value { result ≡ season_term day_of_year }
    ensures bounds { (negsuc 199 ≤ℤ result) × (result ≤ℤ pos 200) }
{
    table[day_of_year as usize - 1]
}
