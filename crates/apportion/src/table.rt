ghost use Rattle.std.specs.Prelude.{◌≡◌, ℕ, ◌+◌, ◌<◌, ◌≤◌, true, map, length, IfOk};
ghost use Rattle.estimators.specs.Limits.{last_day};
ghost use Rattle.allocation.specs.SharingLimits.{largest_day_weight};
ghost use Rattle.allocation.specs.Sharing.{running_sum};
ghost use Rattle.apportion.specs.Fault.{MakesWhere};
ghost use Rattle.apportion.specs.Limits.{can_spread, is_sized, loads_within};
ghost use Rattle.apportion.specs.Table.{lines_of, table, weights_of, load_weights};

use super::fault::Fault;
use super::request::LARGEST_ENERGY;
use allocation::{ReadingDay, share, weight_of};
use estimators::DAYS;
use std::alloc::{AllocError, Global};
use terms::Refusal;

// One day of the table: its load, its weight, the sum of the weights up to it, and its share of the energy.
#[derive(Clone, Copy, PartialEq, Eq, Debug)]
pub(crate) struct DayLine {
    pub load: u64,
    pub weight: u64,
    pub running_sum: u64,
    pub share: u64,
}

// Spreads an energy over the loads of consecutive days, a line for each day. Refused as `BeyondLimits` (3) where a
// number is above its limit, or the days are none or more than a book has.
pub(crate) fn spread(heap: Global, energy: u64, loads: &[u64]) -> Result<Vec<DayLine>, Fault>
    ensures { MakesWhere (can_spread energy loads.now)
        (λ lines. lines.items ≡ table energy loads.now) result }
{
    if energy > LARGEST_ENERGY || loads.is_empty() || loads.len() > DAYS as usize {
        return Err(Fault::Refused(Refusal::BeyondLimits));
    }
    let mut days = weighed_days(heap, loads)?;
    shared_lines(heap, energy, loads, days.as_mut_slice())
}

// The lines of an energy within its limit, once the weighed days have taken their shares of it.
fn shared_lines(
    heap: Global,
    energy: u64,
    loads: &[u64],
    days: &mut [ReadingDay],
) -> Result<Vec<DayLine>, Fault>
    requires sized { is_sized energy loads.now ≡ true }
    requires weighed { weights_of days.old ≡ load_weights loads.now }
    ensures { MakesWhere true (λ lines. lines.items ≡ table energy loads.now) result }
{
    share(energy, days)?;
    Ok(day_lines(heap, loads, days)?)
}

// The days of these loads, with no share yet.
fn weighed_days(heap: Global, loads: &[u64]) -> Result<Vec<ReadingDay>, Fault>
    ensures { MakesWhere (loads_within loads.now)
        (λ days. weights_of days.items ≡ load_weights loads.now) result }
{
    let mut days = Vec::new(heap);
    for load in loads {
        days.push(ReadingDay::new(weight_of(*load))?)?;
    }
    Ok(days)
}

// A line for each day, from its load and from what it weighs and has taken.
fn day_lines(heap: Global, loads: &[u64], days: &[ReadingDay]) -> Result<Vec<DayLine>, AllocError>
    requires { (length loads.now ≡ length days.now) × (length days.now ≤ last_day) }
    ensures { IfOk result (λ lines. lines.items ≡ lines_of loads.now days.now) }
{
    let mut lines = Vec::new(heap);
    let mut running_sum = 0;
    for (load, day) in loads.iter().zip(days) {
        running_sum += day.weight;
        lines.push(DayLine {
            load: *load,
            weight: day.weight,
            running_sum,
            share: day.share,
        })?;
    }
    Ok(lines)
}
