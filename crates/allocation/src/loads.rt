ghost use Rattle.std.specs.Prelude.{◌≡◌};
ghost use Rattle.terms.specs.Answers.{Answers};
ghost use Rattle.terms.specs.RefusalNumbers.{beyond_limits};
ghost use Rattle.allocation.specs.Loads.{adjusted, net_load, weight};
ghost use Rattle.allocation.specs.Loads.{gate_within_limits, interval_within_limits};

use terms::{Refusal, nearest_quotient};

/// The most energy that enters or leaves through the gate on a day, in MJ.
pub const LARGEST_GATE: u64 = 1_000_000_000;

/// The interval meters of an area, numbered from 1.
pub const METERS: u32 = 32;

/// The most that one interval meter burns on a day, in MJ.
pub const LARGEST_INTERVAL: u64 = 100_000_000;

/// The most that all interval meters burn on a day, in MJ.
pub const LARGEST_INTERVAL_TOTAL: u64 = 3_200_000_000;

/// The largest share of unaccounted-for gas, in ten-thousandths.
pub const LARGEST_UNACCOUNTED: u64 = 2_000;

/// What the largest interval total comes to with the largest share of unaccounted-for gas, in MJ.
pub const LARGEST_ADJUSTED: u64 = 4_000_000_000;

/// A day's interval total with its share of unaccounted-for gas: of the result, `unaccounted` ten-thousandths are
/// unaccounted for. In MJ, to the nearest, halves up.
///
/// Refused as `BeyondLimits` (3) above `LARGEST_INTERVAL_TOTAL` or `LARGEST_UNACCOUNTED`.
pub fn adjust_for_unaccounted(interval_total: u64, unaccounted: u64) -> Result<u64, Refusal>
    ensures { Answers result (interval_within_limits interval_total unaccounted)
        (adjusted interval_total unaccounted) beyond_limits }
{
    if interval_total > LARGEST_INTERVAL_TOTAL || unaccounted > LARGEST_UNACCOUNTED {
        return Err(Refusal::BeyondLimits);
    }
    nearest_quotient(interval_total * 10_000, 10_000 - unaccounted)
}

/// The net system load of a gas day in MJ, by AEMO's methodology for net system load: what enters through the gate less
/// what leaves and what interval meters burn with their share of unaccounted-for gas, and 0 where that is negative.
///
/// Refused as `BeyondLimits` (3) where what enters or leaves is above `LARGEST_GATE`, or what the meters burn above
/// `LARGEST_ADJUSTED`.
pub fn net_system_load(
    energy_in: u64,
    energy_out: u64,
    adjusted_interval: u64,
) -> Result<u64, Refusal>
    ensures { Answers result (gate_within_limits energy_in energy_out adjusted_interval)
        (net_load energy_in energy_out adjusted_interval) beyond_limits }
{
    if energy_in > LARGEST_GATE
        || energy_out > LARGEST_GATE
        || adjusted_interval > LARGEST_ADJUSTED
    {
        return Err(Refusal::BeyondLimits);
    }
    Ok(energy_in.saturating_sub(energy_out + adjusted_interval))
}

/// The weight of a day with this load: the load in MJ, or 1 where it is 0, so that such a day too takes part in a
/// sharing.
pub fn weight_of(load: u64) -> u64
    ensures { result ≡ weight load }
{
    load.max(1)
}
