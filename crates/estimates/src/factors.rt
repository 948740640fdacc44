ghost use Rattle.std.specs.Prelude.{◌≡◌, T};
ghost use Rattle.estimators.specs.Limits.{count_within};
ghost use Rattle.estimates.specs.Factors.{factors_within, weather_figure};

/// The greatest base load, in kilojoules a day.
pub const GREATEST_BASE_LOAD: u64 = 100_000_000;

/// The greatest sensitivity, in kilojoules a degree day.
pub const GREATEST_SENSITIVITY: u64 = 1_000_000;

/// How a point's use depends on the weather (the base load and temperature sensitivity of AEMO's methodology for net
/// system load).
#[derive(Clone, Copy, Debug, PartialEq, Eq)]
pub struct Factors {
    /// In kilojoules a day, from 0 to `GREATEST_BASE_LOAD`.
    pub base_load: u64,
    /// In kilojoules a degree day, from 0 to `GREATEST_SENSITIVITY`.
    pub sensitivity: u64,
}

impl Factors {
    // Whether both are within their limits.
    pub(crate) fn is_within(self) -> bool
        ensures { result ≡ factors_within self }
    {
        self.base_load <= GREATEST_BASE_LOAD && self.sensitivity <= GREATEST_SENSITIVITY
    }

    // The figure under a degree-day count in hundredths, in megajoules.
    pub(crate) fn figure(self, count: u32) -> u64
        requires factors { T (factors_within self) }
        requires count { T (count_within count) }
        ensures { result ≡ weather_figure self count }
    {
        (100 * self.base_load + self.sensitivity * u64::from(count) + 50_000) / 100_000
    }
}
