// What an accepted entry makes a sheet work out anew.
ghost use Rattle.std.specs.Prelude.{◌≡◌, ℕ, ◌-◌, ◌<◌, ◌≤◌, max, IfSome, if◌then◌else◌, length, replicate, Option, slice_index, slice_index_or};
ghost use Rattle.allocation.specs.Loads.{largest_gate};
ghost use Rattle.estimators.specs.Limits.{last_day};
ghost use Rattle.rules.specs.Figures as law;
ghost use Rattle.rules.specs.History.{History, Setting, covers};
ghost use Rattle.rules.specs.declared.entry.Entry.TheVariants.{Enrolled, ReadingTaken};
ghost use Rattle.rules.specs.declared.entry.Reading.{Reading};
ghost use Rattle.ledger.specs.declared.ledger.Ledger.{Ledger};
ghost use Rattle.sheet.specs.DayWeights.{shares_of_days, weight_of_load};
ghost use Rattle.sheet.specs.Sheet.{ChangesOnlyDays, IsDayOfSheet, IsPointOfSheet, LiesInSheet, SetsCover, SetsLoad, figure_at};
ghost use Rattle.sheet.specs.SheetOfHistory.{ForKnown, ShowsShares, ShowsSharesOver, TakesEntry, TakesLoad, TakesDayCount};
ghost use Rattle.sheet.specs.declared.sheet.DayNote.TheVariants.{NothingKnown};
ghost use Rattle.ledger.specs.Ledger.{IsLedgerOf};

use super::day_range::DayRange;
use super::sheet::{DayNote, Sheet};
use super::sources::Sources;
use allocation::{ReadingDay, share, weight_of};
use estimators::{DAYS, Estimator};
use ledger::Ledger;
use rules::{Enrolment, Reading};

// A day with this load by its weight, without a share yet.
fn reading_day_of(load: Option<u64>) -> ReadingDay
    requires { IfSome load (λ n. n ≤ largest_gate) }
    ensures { result.weight ≡ weight_of_load load }
{
    ReadingDay {
        weight: weight_of(load.unwrap_or(0)),
        share: 0,
    }
}

impl Sheet {
    /// Takes in a new gate day or interval energy: the readings over its day are shared anew, and each day
    /// that they join is settled once, unless its note says that it stands. Outside the sheet nothing
    /// changes.
    pub fn reload<E: Estimator>(&mut self, sources: &Sources<'_, E>, day: u32)
        ensures { TakesLoad day sources.now.ledger.now
            (E.Estimator.meaning sources.now.estimator.now) self.old self.new }
    {
        if day >= self.days {
            return;
        }
        self.set_load(sources.ledger, day);
        let joined = self.share_readings_over(sources.ledger, day);
        self.settle_days(sources, joined);
    }

    /// Takes in a new reading: its days show its shares, and are settled. Where the reading lies outside the
    /// sheet, or has more energy than a reading may have, nothing changes.
    pub fn take_reading<E: Estimator>(&mut self, sources: &Sources<'_, E>, reading: &Reading)
        ensures { TakesEntry (ReadingTaken reading.now)
            sources.now.ledger.now (E.Estimator.meaning sources.now.estimator.now) self.old self.new }
    {
        if !self.contains_reading(reading) {
            return;
        }
        self.extend_cover(reading.point, reading.end);
        self.share_reading(reading);
        self.settle_days(sources, DayRange::from(*reading));
    }

    /// Takes in an enrolment: the days from the point's start are settled. Outside the sheet nothing changes.
    pub fn start_point<E: Estimator>(
        &mut self,
        sources: &Sources<'_, E>,
        point: u32,
        enrolment: Enrolment,
    )
        ensures { TakesEntry (Enrolled point enrolment)
            sources.now.ledger.now (E.Estimator.meaning sources.now.estimator.now) self.old self.new }
    {
        if !(1..=self.points).contains(&point) || enrolment.start >= self.days {
            return;
        }
        self.start_cover(point, enrolment.start);
        let days = self.days_from(enrolment.start);
        self.settle_days(sources, days);
    }

    /// Takes in a degree-day count that the estimator has taken: its day is settled. Outside the sheet
    /// nothing changes.
    pub fn take_count<E: Estimator>(&mut self, sources: &Sources<'_, E>, day: u32)
        ensures { TakesDayCount day sources.now.ledger.now
            (E.Estimator.meaning sources.now.estimator.now) self.old self.new }
    {
        if day >= self.days {
            return;
        }
        self.settle_day(sources, day);
    }

    // Learns the load of a day of the sheet from the ledger.
    fn set_load(&mut self, ledger: &Ledger, day: u32)
        requires { IsDayOfSheet self.old day }
        ensures within { day < length self.old.loads }
        ensures days { self.new.days ≡ self.old.days }
        ensures notes { self.new.notes ≡ self.old.notes }
        ensures after { (s : Setting) (h : History) → IsLedgerOf s h ledger.now
            → SetsLoad day (law.load s h day) self.old self.new }
    {
        let load = ledger.load(day);
        self.loads[day as usize] = load;
        self.reading_days[day as usize] = reading_day_of(load);
    }

    // The days of a point are covered up to this day.
    fn set_cover(&mut self, point: u32, end: u32)
        requires { IsPointOfSheet self.old point }
        ensures within { point - 1 < length self.old.cover_ends }
        ensures notes { self.new.notes ≡ self.old.notes }
        ensures after { SetsCover point end self.old self.new }
    {
        self.cover_ends[point as usize - 1] = end;
    }

    // A point starts on a day: its days are covered up to there, and nothing is known any more of the
    // estimates of any day.
    fn start_cover(&mut self, point: u32, start: u32)
        requires { IsPointOfSheet self.old point }
        ensures within { point - 1 < length self.old.cover_ends }
        ensures notes { self.new.notes ≡ replicate last_day NothingKnown }
        ensures after { SetsCover point start self.old self.new }
    {
        self.set_cover(point, start);
        self.notes = [DayNote::NothingKnown; DAYS as usize];
    }

    // The days of a point are covered up to this day at least.
    fn extend_cover(&mut self, point: u32, end: u32)
        requires { IsPointOfSheet self.old point }
        ensures within { point - 1 < length self.old.cover_ends }
        ensures notes { self.new.notes ≡ self.old.notes }
        ensures after { SetsCover point
            (max (slice_index_or self.old.cover_ends (point - 1) 0) end) self.old self.new }
    {
        let before = self.cover_ends[point as usize - 1];
        self.set_cover(point, before.max(end));
    }

    // The days of the sheet from one day on.
    fn days_from(&self, day: u32) -> DayRange
        ensures from { result.from ≡ day }
        ensures to { result.to ≡ self.now.days }
    {
        DayRange {
            from: day,
            to: self.days,
        }
    }

    // Shows the shares that the days of a reading have taken.
    fn show_shares(&mut self, reading: &Reading)
        requires { LiesInSheet self.old reading.now }
        ensures stands { ChangesOnlyDays reading.now.start reading.now.end self.old self.new }
        ensures notes { self.new.notes ≡ self.old.notes }
        ensures figures { (p d : ℕ) → 1 ≤ p → p ≤ self.old.points
            → figure_at self.new p d
            ≡ (if covers reading.now p d
            then slice_index (shares_of_days self.old.reading_days) d
            else figure_at self.old p d) }
    {
        for day in reading.start..reading.end {
            let share = self.reading_days[day as usize].share;
            self.show(reading.point, day, share);
        }
    }

    // Shares the energy of a reading over its days by their weights, and shows the shares.
    fn share_reading(&mut self, reading: &Reading)
        requires { LiesInSheet self.old reading.now }
        ensures stands { ChangesOnlyDays reading.now.start reading.now.end self.old self.new }
        ensures notes { self.new.notes ≡ self.old.notes }
        ensures law { (ledger : Ledger) → ForKnown ledger self.old (λ s h.
            ShowsShares s h reading.now self.old self.new) }
    {
        let days = &mut self.reading_days[reading.start as usize..reading.end as usize];
        share(reading.energy, days).unwrap();
        self.show_shares(reading);
    }

    // The reading of a place, where it covers a day.
    fn reading_over(&self, place: &Option<Reading>, day: u32) -> Option<Reading>
        ensures lies { IfSome result (λ reading. LiesInSheet self.now reading) }
        ensures free { place.now ≡ Option.None → result ≡ Option.None }
        ensures law { (reading : Reading) → place.now ≡ Option.Some reading → LiesInSheet self.now reading
            → result ≡ (if covers reading reading.point day then Option.Some reading else Option.None) }
    {
        place.filter(|reading| {
            (reading.start..reading.end).contains(&day) && self.contains_reading(reading)
        })
    }

    // Shares the readings that cover a day anew, and gives the days between which those lie that they join to
    // it.
    fn share_readings_over(&mut self, ledger: &Ledger, day: u32) -> DayRange
        requires { IsDayOfSheet self.old day }
        ensures around { (result.from ≤ day) × ((day < result.to) × (result.to ≤ self.old.days)) }
        ensures stands { ChangesOnlyDays result.from result.to self.old self.new }
        ensures notes { self.new.notes ≡ self.old.notes }
        ensures law { ForKnown ledger.now self.old (λ s h.
            ShowsSharesOver s h day result.from result.to self.old self.new) }
    {
        let mut days = DayRange {
            from: day,
            to: day + 1,
        };
        for place in ledger.places() {
            if let Some(reading) = self.reading_over(place, day) {
                self.share_reading(&reading);
                days = days.including(&reading);
            }
        }
        days
    }
}
