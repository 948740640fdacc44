ghost use Rattle.std.specs.Prelude.{◌≡◌, ◌+◌, ◌-◌, ◌≤◌, Bool, not, ◌&&◌, ◌==◌, nat_le, IfOk, IfSome, OnOk};
ghost use Rattle.std.specs.Fn.{FnReturnsAt};
ghost use Rattle.std.specs.List.{range_with_len};
ghost use Rattle.std.specs.Option.{option_map};
ghost use Rattle.calendar.specs.Digits as dates;
ghost use Rattle.rules.specs.Readings as held;
ghost use Rattle.rules.specs.declared.call.Call.TheVariants.{EnterReading};
ghost use Rattle.rules.specs.declared.entry.Entry.TheVariants.{ReadingTaken};
ghost use Rattle.ledger.specs.Ledger.{EachLedgerHistory, EntersInLedger, HasDay, JudgesEntry, WithReading, enrolment_at};
ghost use Rattle.ledger.specs.Places.{EachTestOf};
ghost use Rattle.ledger.specs.Readings.{HasRoomFor, JudgesNumbers, JudgesSpan, is_after_marks_at, is_end_allowed_at, is_full_at, is_mark_at, is_soft_over_firm_at, some_at};
ghost use Rattle.terms.specs.ReadingType.{is_firm};
ghost use Rattle.rules.specs.Calls.{is_after_all_marks, ends_where_not_allowed, first_day_without_load, replaces_firm_though_soft};

use super::ledger::Ledger;
use super::places::{all_passing, free_replaced, replaces, some_passing, take_place};
use calendar::{date_of_day_number, day_number_of};
use rules::{Delivery, Entry, Reading};
use terms::{LARGEST_ENERGY, Refusal};

// Marks, and the readings that a ledger holds: judging a delivered reading, and holding it.
impl Ledger {
    // Whether some held reading passes a test.
    fn holds_some<F: Fn(&Reading) -> bool>(&self, test: F) -> bool
        requires { F.IsAlwaysCallable test }
        ensures { EachTestOf (FnReturnsAt F.Fn test) (λ passes. result ≡ some_at self.now passes) }
    {
        some_passing(self.places.as_slice(), test)
    }

    // Whether a reading that a point holds ends on a day.
    fn holds_end_on(&self, point: u32, day: u32) -> bool
        ensures { result ≡ some_at self.now (λ r. (r.point == point) && r.end == day) }
    {
        self.holds_some(|reading| reading.point == point && reading.end == day)
    }

    // Whether a reading that a point holds ends on a day or later.
    fn holds_end_from(&self, point: u32, day: u32) -> bool
        ensures { result ≡ some_at self.now (λ r. (r.point == point) && nat_le day r.end) }
    {
        self.holds_some(|reading| reading.point == point && day <= reading.end)
    }

    // The start day of a point, if it is enrolled.
    fn start_day_of(&self, point: u32) -> Option<u32>
        ensures { result ≡ option_map (λ e. e.start) (enrolment_at self.now point) }
    {
        self.enrolment(point).map(|enrolment| enrolment.start)
    }

    /// Whether a day is a mark of a point: its start day, or the end of a reading that it holds.
    pub fn is_mark(&self, point: u32, day: u32) -> bool
        ensures value { result ≡ is_mark_at self.now point day }
        ensures law { EachLedgerHistory self.now (λ s h. result ≡ held.is_mark h point day) }
    {
        self.start_day_of(point) == Some(day) || self.holds_end_on(point, day)
    }

    /// Whether a point is enrolled and a day is later than all its marks.
    pub fn is_after_all_marks(&self, point: u32, day: u32) -> bool
        ensures value { result ≡ is_after_marks_at self.now point day }
        ensures law { EachLedgerHistory self.now (λ s h. result ≡ is_after_all_marks h point day) }
    {
        self.start_day_of(point).is_some_and(|start| start < day)
            && !self.holds_end_from(point, day)
    }

    // Whether the rules allow the end of a reading: it ends after its start, and at a mark or later
    // than every mark.
    fn may_end(&self, reading: &Reading) -> bool
        ensures value { result ≡ is_end_allowed_at self.now reading.now }
        ensures law { EachLedgerHistory self.now
            (λ s h. ends_where_not_allowed h reading.now ≡ not result) }
    {
        reading.start < reading.end
            && (self.is_mark(reading.point, reading.end)
                || self.is_after_all_marks(reading.point, reading.end))
    }

    // The first day from a start day to before an end day that has no load.
    fn first_without_load(&self, start: u32, end: u32) -> Option<u32>
        requires { end ≤ self.now.opening.days }
        ensures within { IfSome result (HasDay self.now) }
        ensures law { EachLedgerHistory self.now (λ s h.
            result ≡ first_day_without_load s h (range_with_len start (end - start))) }
    {
        (start..end).find(|day| self.gates[*day as usize].is_none())
    }

    // The date of a day of the book.
    fn date_of_day(&self, day: u32) -> u32
        requires { HasDay self.now day }
        ensures { result ≡ dates.date_of_day_number (self.now.opening.first + day) }
    {
        date_of_day_number(self.opening.first + day).unwrap()
    }

    // Whether a firm reading is held that a new one would replace.
    fn holds_firm_under(&self, reading: &Reading) -> bool
        ensures { result ≡ some_at self.now
            (λ old. held.replaces reading.now old && is_firm old.reading_type) }
    {
        self.holds_some(|old| replaces(reading, old) && old.reading_type.is_firm())
    }

    // Whether a reading is soft and a firm one that it would replace is held, which the rules refuse.
    fn is_soft_over_firm(&self, reading: &Reading) -> bool
        ensures value { result ≡ is_soft_over_firm_at self.now reading.now }
        ensures law { EachLedgerHistory self.now (λ s h. result ≡ replaces_firm_though_soft h reading.now) }
    {
        !reading.reading_type.is_firm() && self.holds_firm_under(reading)
    }

    // Whether the readings that stay beside a new one leave no place for it.
    fn is_full_beside(&self, reading: &Reading) -> bool
        ensures { result ≡ is_full_at self.now reading.now }
    {
        all_passing(self.places.as_slice(), |old| !replaces(reading, old))
    }

    // Judges the numbers of a delivered reading, its dates and its point, and puts days in the place
    // of dates.
    fn judge_numbers(&self, delivery: Delivery) -> Result<Reading, Refusal>
        ensures fits { IfOk result (λ reading. reading.end ≤ self.now.opening.days) }
        ensures law { JudgesNumbers self.now delivery result }
    {
        if !self.has_point(delivery.point) || delivery.energy > LARGEST_ENERGY {
            return Err(Refusal::BeyondLimits);
        }
        // Both dates have to exist before either is looked for in the book.
        let start_number = day_number_of(delivery.start)?;
        let end_number = day_number_of(delivery.end)?;
        let start = self.day_of_number(start_number, 0)?;
        let end = self.day_of_number(end_number, 1)?;
        if delivery.energy < 0 {
            return Err(Refusal::NegativeEnergy);
        }
        if self.enrolment(delivery.point).is_none() {
            return Err(Refusal::PointNotEnrolled);
        }
        Ok(Reading {
            point: delivery.point,
            start,
            end,
            energy: delivery.energy as u64,
            reading_type: delivery.reading_type,
        })
    }

    // Judges what a reading covers: its start, its end, the loads of its days, and the readings that
    // are held.
    fn judge_span(&self, reading: &Reading) -> Result<(), Refusal>
        requires { reading.now.end ≤ self.now.opening.days }
        ensures fits { OnOk result (HasRoomFor self.now reading.now) }
        ensures law { JudgesSpan self.now reading.now result }
    {
        if !self.is_mark(reading.point, reading.start) {
            return Err(Refusal::StartIsNoMark);
        }
        if !self.may_end(reading) {
            return Err(Refusal::EndNotAllowed);
        }
        if let Some(day) = self.first_without_load(reading.start, reading.end) {
            let date = self.date_of_day(day);
            return Err(Refusal::CoveredDayWithoutLoad { date });
        }
        if self.is_soft_over_firm(reading) {
            return Err(Refusal::SoftOverFirm);
        }
        if self.is_full_beside(reading) {
            return Err(Refusal::ReadingPlacesFull);
        }
        Ok(())
    }

    // The reading that can be taken.
    fn judge_reading(&self, delivery: Delivery) -> Result<Reading, Refusal>
        ensures fits { IfOk result (HasRoomFor self.now) }
        ensures law { JudgesEntry self.now (EnterReading delivery) ReadingTaken result }
    {
        let reading = self.judge_numbers(delivery)?;
        self.judge_span(&reading)?;
        Ok(reading)
    }

    // Holds a reading, in the place of those that it replaces.
    fn put_reading(&mut self, reading: Reading)
        requires { HasRoomFor self.old reading }
        ensures { WithReading reading self.old self.new }
    {
        let places = self.places.as_mut_slice();
        free_replaced(places, &reading);
        take_place(places, reading).unwrap();
    }

    /// Takes a reading of a point, in MJ, from a start date to the day before an end date. It replaces
    /// the readings of the point of which it covers a day.
    ///
    /// Refused, in this order: 3 `BeyondLimits` (the point, or an energy above 10,000,000),
    /// 4 `NoSuchDate`, 5 `OutsideBook` (the end may be the day after the book's last),
    /// 6 `NegativeEnergy`, 7 `PointNotEnrolled`, 9 `StartIsNoMark`, 10 `EndNotAllowed`,
    /// 11 `CoveredDayWithoutLoad`, with the date of the first, 12 `SoftOverFirm`,
    /// 13 `ReadingPlacesFull`.
    pub fn enter_reading(&mut self, delivery: Delivery) -> Result<Entry, Refusal>
        ensures { EntersInLedger (EnterReading delivery) self.old result self.new }
    {
        let reading = self.judge_reading(delivery)?;
        self.put_reading(reading);
        Ok(Entry::ReadingTaken(reading))
    }
}
