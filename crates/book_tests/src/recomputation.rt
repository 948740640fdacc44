// What the rules make of the calls that a book accepted, worked out from nothing each time. It shares no code
// with the book.
use estimates::Factors;
use std::alloc::{AllocError, Global};
use std::ops::Range;
use terms::{ReadingType, Refusal};

// Days are counted from 0, the book's first.
#[derive(Clone, Copy, PartialEq, Eq, Debug)]
pub(crate) struct Enrolled {
    pub(crate) point: u32,
    pub(crate) retailer: u32,
    pub(crate) start: u32,
}

#[derive(Clone, Copy, PartialEq, Eq, Debug)]
pub(crate) struct Gate {
    pub(crate) day: u32,
    pub(crate) energy_in: u64,
    pub(crate) energy_out: u64,
}

#[derive(Clone, Copy, PartialEq, Eq, Debug)]
pub(crate) struct Metered {
    pub(crate) day: u32,
    pub(crate) meter: u32,
    pub(crate) energy: u64,
}

#[derive(Clone, Copy, PartialEq, Eq, Debug)]
pub(crate) struct Count {
    pub(crate) day: u32,
    pub(crate) count: u32,
}

#[derive(Clone, Copy, PartialEq, Eq, Debug)]
pub(crate) struct Taken {
    pub(crate) point: u32,
    pub(crate) start: u32,
    pub(crate) end: u32,
    pub(crate) energy: i64,
    pub(crate) reading_type: ReadingType,
}

// How a point comes to its figure of a day: by its readings, or by an estimate, where there is one.
#[derive(Clone, Copy, PartialEq, Eq, Debug)]
enum Basis {
    Absent,
    Supplied(u64),
    Estimated(Option<u64>),
}

impl Basis {
    fn supplied(&self) -> u64 {
        match self {
            Basis::Supplied(share) => *share,
            _ => 0,
        }
    }

    fn estimated(&self) -> u64 {
        match self {
            Basis::Estimated(estimate) => estimate.unwrap_or(0),
            _ => 0,
        }
    }
}

// The figures of a day by point, and its account.
#[derive(Drop)]
pub(crate) struct Worked {
    pub(crate) figures: Vec<u64>,
    pub(crate) load: Option<u64>,
    pub(crate) supplied: u64,
    pub(crate) generated: u64,
    pub(crate) remainder: u64,
    pub(crate) excess: u64,
    pub(crate) missing: u64,
    pub(crate) scaled: bool,
}

// An opening, what the estimator knew then, and every accepted call in its order.
#[derive(Drop)]
pub(crate) struct Area {
    pub(crate) days: u32,
    pub(crate) points: u32,
    pub(crate) unaccounted: u64,
    pub(crate) places: usize,
    // By point, from the first.
    pub(crate) heating: Vec<Option<Factors>>,
    pub(crate) counts_at_opening: Vec<Count>,
    pub(crate) enrolments: Vec<Enrolled>,
    pub(crate) gates: Vec<Gate>,
    pub(crate) intervals: Vec<Metered>,
    pub(crate) counts: Vec<Count>,
    pub(crate) readings: Vec<Taken>,
}

fn share_a_day(one: &Taken, other: &Taken) -> bool {
    one.point == other.point && one.start < other.end && other.start < one.end
}

// A day with a load weighs its load, and one with none of it weighs 1. The loads of all days are worked out
// once for a comparison, so they go along as a list.
fn weight(loads: &[Option<u64>], day: u32) -> u64 {
    loads
        .get(day as usize)
        .copied()
        .flatten()
        .map_or(1, |load| load.max(1))
}

// What has fallen to the first of some weights, of an amount that is shared over all of them.
fn fallen(amount: u64, first: u64, all: u64) -> u64 {
    amount.saturating_mul(first) / all.max(1)
}

// What some days weigh together.
fn weight_of(loads: &[Option<u64>], days: Range<u32>) -> u64 {
    days.fold(0, |sum, day| sum.saturating_add(weight(loads, day)))
}

// What falls to a day that a reading covers of the reading's energy.
fn share(reading: &Taken, loads: &[Option<u64>], day: u32) -> u64 {
    let before = weight_of(loads, reading.start..day);
    let through = weight_of(loads, reading.start..day.saturating_add(1));
    let all = weight_of(loads, reading.start..reading.end);
    let energy = reading.energy.unsigned_abs();
    fallen(energy, through, all).saturating_sub(fallen(energy, before, all))
}

impl Area {
    pub(crate) fn enrolment(&self, point: u32) -> Option<Enrolled> {
        self.enrolments
            .iter()
            .find(|enrolment| enrolment.point == point)
            .copied()
    }

    // The latest energies of a day's interval meters.
    pub(crate) fn energies(&self, day: u32) -> [u64; 32] {
        let mut energies = [0u64; 32];
        for interval in self.intervals.iter() {
            if interval.day == day && (1..=32).contains(&interval.meter) {
                energies[interval.meter as usize - 1] = interval.energy;
            }
        }
        energies
    }

    // The load of a day by its latest gate energies and interval energies.
    fn load(&self, day: u32) -> Option<u64> {
        let gate = self.gates.iter().rev().find(|gate| gate.day == day)?;
        let total = self
            .energies(day)
            .iter()
            .fold(0u64, |sum, energy| sum.saturating_add(*energy));
        let kept = 10_000u64.saturating_sub(self.unaccounted);
        let adjusted = total.saturating_mul(20_000).saturating_add(kept)
            / kept.saturating_mul(2).max(1);
        Some(
            gate.energy_in
                .saturating_sub(gate.energy_out)
                .saturating_sub(adjusted),
        )
    }

    pub(crate) fn loads(&self, heap: Global) -> Result<Vec<Option<u64>>, AllocError> {
        (0..self.days).map(|day| self.load(day)).collect(heap)
    }

    // The readings that no later one of their point shares a day with.
    pub(crate) fn held(&self, heap: Global) -> Result<Vec<Taken>, AllocError> {
        let mut held = Vec::new(heap);
        for (i, reading) in self.readings.iter().enumerate() {
            let mut later = self.readings.iter().skip(i.saturating_add(1));
            if !later.any(|other| share_a_day(reading, other)) {
                held.push(*reading)?;
            }
        }
        Ok(held)
    }

    // The last reading to cover a day of a point.
    fn covering(&self, point: u32, day: u32) -> Option<Taken> {
        self.readings
            .iter()
            .rev()
            .find(|reading| reading.point == point && (reading.start..reading.end).contains(&day))
            .copied()
    }

    // The estimate of a point under the day's latest count.
    fn estimate(&self, point: u32, day: u32) -> Option<u64> {
        let latest = self
            .counts
            .iter()
            .rev()
            .chain(self.counts_at_opening.iter().rev())
            .find(|count| count.day == day)?;
        let factors = (*self.heating.get((point as usize).saturating_sub(1))?)?;
        // To the nearest, halves up, from hundredths of a kilojoule.
        let heat = factors.base_load.saturating_mul(100).saturating_add(
            factors.sensitivity.saturating_mul(u64::from(latest.count)),
        );
        Some(heat.saturating_add(50_000) / 100_000)
    }

    fn basis(&self, loads: &[Option<u64>], point: u32, day: u32) -> Basis {
        if let Some(reading) = self.covering(point, day) {
            return Basis::Supplied(share(&reading, loads, day));
        }
        match self.enrolment(point) {
            Some(enrolment) if enrolment.start <= day => {
                Basis::Estimated(self.estimate(point, day))
            }
            _ => Basis::Absent,
        }
    }

    pub(crate) fn work(
        &self,
        heap: Global,
        loads: &[Option<u64>],
        day: u32,
    ) -> Result<Worked, AllocError> {
        let bases: Vec<Basis> = (1..=self.points)
            .map(|point| self.basis(loads, point, day))
            .collect(heap)?;
        let supplied = bases
            .iter()
            .fold(0u64, |sum, basis| sum.saturating_add(basis.supplied()));
        let estimated = bases
            .iter()
            .fold(0u64, |sum, basis| sum.saturating_add(basis.estimated()));
        let missing = bases
            .iter()
            .filter(|basis| matches!(basis, Basis::Estimated(None)))
            .count();
        let load = loads.get(day as usize).copied().flatten();
        let whole = load.unwrap_or(0);
        let scaled = load.is_some() && supplied.saturating_add(estimated) > whole && estimated > 0;
        let left = whole.saturating_sub(supplied);
        let mut figures = Vec::new(heap);
        let mut generated = 0u64;
        let mut running = 0u64;
        for basis in bases.iter() {
            let figure = match basis {
                Basis::Absent => 0,
                Basis::Supplied(share) => *share,
                Basis::Estimated(_) => {
                    let estimate = basis.estimated();
                    let before = running;
                    running = running.saturating_add(estimate);
                    let figure = if scaled {
                        fallen(left, running, estimated).saturating_sub(fallen(
                            left, before, estimated,
                        ))
                    } else {
                        estimate
                    };
                    generated = generated.saturating_add(figure);
                    figure
                }
            };
            figures.push(figure)?;
        }
        Ok(Worked {
            figures,
            load,
            supplied,
            generated,
            remainder: whole.saturating_sub(supplied.saturating_add(generated)),
            excess: supplied.saturating_sub(whole),
            missing: missing as u64,
            scaled,
        })
    }

    // What the figures of a retailer's points on a day come to.
    pub(crate) fn retailer_sum(&self, worked: &Worked, retailer: u32) -> u64 {
        self.enrolments
            .iter()
            .filter(|enrolment| enrolment.retailer == retailer)
            .filter_map(|enrolment| {
                worked
                    .figures
                    .get((enrolment.point as usize).saturating_sub(1))
            })
            .fold(0u64, |sum, figure| sum.saturating_add(*figure))
    }

    // Why a reading is refused once its numbers, dates and point are found in order.
    fn judge_span(
        &self,
        held: &[Taken],
        enrolment: Enrolled,
        reading: Taken,
        dates: &[u32],
    ) -> Result<(), Refusal> {
        if !is_mark(held, enrolment, reading.start) {
            return Err(Refusal::StartIsNoMark);
        }
        let last = held
            .iter()
            .filter(|old| old.point == reading.point)
            .fold(enrolment.start, |last, old| last.max(old.end));
        if reading.end <= reading.start
            || reading.end <= last && !is_mark(held, enrolment, reading.end)
        {
            return Err(Refusal::EndNotAllowed);
        }
        let unloaded = (reading.start..reading.end).find(|day| self.load(*day).is_none());
        if let Some(day) = unloaded {
            let date = dates.get(day as usize).copied().unwrap_or(0);
            return Err(Refusal::CoveredDayWithoutLoad { date });
        }
        let over_firm = held.iter().any(|old| share_a_day(old, &reading)
            && is_firm(old.reading_type));
        if over_firm && !is_firm(reading.reading_type) {
            return Err(Refusal::SoftOverFirm);
        }
        let kept = held
            .iter()
            .filter(|old| !share_a_day(old, &reading))
            .count();
        if kept >= self.places {
            return Err(Refusal::ReadingPlacesFull);
        }
        Ok(())
    }

    // Judges a reading beside those that are held.
    pub(crate) fn judge_reading(
        &self,
        held: &[Taken],
        reading: Taken,
        dates: &[u32],
    ) -> Result<(), Refusal> {
        if !(1..=self.points).contains(&reading.point) || reading.energy > 10_000_000 {
            return Err(Refusal::BeyondLimits);
        }
        if reading.start >= self.days || reading.end > self.days {
            return Err(Refusal::OutsideBook);
        }
        if reading.energy < 0 {
            return Err(Refusal::NegativeEnergy);
        }
        let enrolment = self
            .enrolment(reading.point)
            .ok_or(Refusal::PointNotEnrolled)?;
        self.judge_span(held, enrolment, reading, dates)
    }
}

// A day is the start day of a point, or the end of a reading that it holds.
fn is_mark(held: &[Taken], enrolment: Enrolled, day: u32) -> bool {
    enrolment.start == day
        || held.iter().any(|reading| reading.point == enrolment.point && reading.end == day)
}

// Neither a customer's own reading nor an estimated one.
fn is_firm(reading_type: ReadingType) -> bool {
    matches!(reading_type, ReadingType::Actual | ReadingType::Substituted)
}
