ghost use Rattle.std.specs.Prelude.{◌≡◌, T};
ghost use Rattle.estimates.specs.Usage.{usage_within, hot_water_figure};

use super::season::Season;

/// A reading of hot water is of at most so many litres.
pub const MOST_LITRES: u64 = 500_000;

/// A reading of hot water is over at most so many days.
pub const MOST_DAYS: u64 = 400;

/// A litre of hot water takes at most so many kilojoules.
pub const MOST_HEAT: u64 = 1_000;

/// The hot water of a point, as it was last metered.
#[derive(Clone, Copy, Debug, PartialEq, Eq)]
pub struct Usage {
    /// From 0 to 500,000.
    pub litres: u64,
    /// The days over which the litres were used, from 1 to 400.
    pub days: u64,
    /// The month of the last reading, counted from 1 for January.
    pub read_in: u32,
    /// In kilojoules a litre, from 0 to 1,000.
    pub heat: u64,
}

impl Usage {
    // Whether all of it is within its limits.
    pub(crate) fn is_within(self) -> bool
        ensures { result ≡ usage_within self }
    {
        self.litres <= MOST_LITRES
            && (1..=MOST_DAYS).contains(&self.days)
            && (1..=12).contains(&self.read_in)
            && self.heat <= MOST_HEAT
    }

    // The figure for a day in a month, in megajoules.
    pub(crate) fn figure(self, month: u32) -> u64
        requires { T (usage_within self) }
        ensures { result ≡ hot_water_figure self month }
    {
        let reading = Season::of_month(self.read_in).reading_weight();
        let day = Season::of_month(month).day_weight();
        (self.litres * self.heat * reading * day + 6_000 * self.days) / (12_000 * self.days)
    }
}
