ghost use Rattle.std.specs.Prelude.{◌≡◌, ℕ, ◌+◌, ◌-◌, ◌*◌, ◌<◌, ◌≤◌, T, take, length, is_some, vec_items, vec_len, replicate, Option, IfOk, IfErr, IfSome, OnOk};
ghost use Rattle.std.specs.List.{list_all};
ghost use Rattle.allocation.specs.Loads.{largest_gate, largest_interval_total, meters};
ghost use Rattle.estimators.specs.Limits.{last_day, last_point};
ghost use Rattle.rules.specs.Figures as figures;
ghost use Rattle.rules.specs.History.{enrolment_of};
ghost use Rattle.rules.specs.declared.call.Call.TheVariants.{AskDay, AskFigure, AskRetailer, Enrol, EnterDegreeDays, EnterGate, EnterInterval};
ghost use Rattle.rules.specs.declared.entry.Entry.TheVariants.{DegreeDaysEntered, Enrolled, GateEntered, IntervalEntered};
ghost use Rattle.terms.specs.Answers.{Answers};
ghost use Rattle.ledger.specs.Limits.{all_intervals_within, gate_within, opening_within};
ghost use Rattle.ledger.specs.Opening.{JudgesDay, has_day_number};
ghost use Rattle.rules.specs.Calls.{is_between};
ghost use Rattle.terms.specs.RefusalNumbers.{outside_book};

use super::limits::retailer_within;
use super::opening::{Opening, OpeningRequest, Unopened, clear_front, judge_opening};
use allocation::{LARGEST_GATE, LARGEST_INTERVAL, METERS, adjust_for_unaccounted, net_system_load};
use calendar::day_number_of;
use estimators::{DAYS, GREATEST_COUNT, POINTS};
use rules::{Enrolment, Entry, GateDay, Reading};
use terms::Refusal;

/// The two lists in whose memory a ledger is kept. The first has 32 places for each day of the book,
/// and may have more; the second has as many places as readings can be held.
#[derive(Debug, Drop)]
pub struct Lists {
    /// The energies of the interval meters in MJ, day by day and by meter.
    pub intervals: Vec<u64>,
    /// The places of readings, each free or with one reading.
    pub places: Vec<Option<Reading>>,
}

/// What a book has been told: the gate energies by day, the interval energies day by day and by
/// meter, the enrolments by point, and the held readings, each in a place of its own.
///
/// Tables of the greatest size and two lists of the caller's: no call of a ledger allocates.
#[derive(Drop)]
pub struct Ledger {
    pub(crate) opening: Opening,
    pub(crate) gates: [Option<GateDay>; DAYS as usize],
    intervals: Vec<u64>,
    enrolments: [Option<Enrolment>; POINTS as usize],
    pub(crate) places: Vec<Option<Reading>>,
    // The opening and all gate energies are within their limits.
    ghost opened: { T (opening_within opening) },
    ghost gates_within: { T (list_all gate_within gates) },
    // The interval list has a place for each meter and day of the book, and what lies there is within
    // its limit.
    ghost intervals_long: { opening.days * meters ≤ vec_len intervals },
    ghost intervals_within: { T (all_intervals_within opening.days intervals.items) },
}

impl Ledger {
    ghost use Rattle.ledger.specs.Ledger.{EachLedgerHistory, EntersInLedger, FitsGate, FitsInterval, HasDay, HasPoint, JudgesEntry, JudgesQuestion, OpensLedger, WithEnrolment, WithGate, WithInterval, enrolment_at, ledger_intervals, ledger_opening, ledger_places, load_at, meters_sum};

    // A ledger with no gate and no enrolment, of these lists.
    fn empty(opening: Opening, lists: Lists) -> Ledger
        requires opening { T (opening_within opening) }
        requires long { opening.days * meters ≤ vec_len lists.intervals }
        requires within { T (all_intervals_within opening.days lists.intervals.items) }
        ensures opening { result.opening ≡ opening }
        ensures gates { result.gates ≡ replicate last_day Option.None }
        ensures intervals { result.intervals ≡ lists.intervals }
        ensures enrolments { result.enrolments ≡ replicate last_point Option.None }
        ensures places { result.places ≡ lists.places }
    {
        Ledger {
            opening,
            gates: [None; DAYS as usize],
            intervals: lists.intervals,
            enrolments: [None; POINTS as usize],
            places: lists.places,
        }
    }

    /// Opens the ledger of a book that has been told nothing, in the memory of two lists: the interval
    /// places of the book's days become 0 and those beyond stay, and every reading place becomes free.
    ///
    /// Refused as [`judge_opening`] says, by 3, 4 or 15. Both lists then come back as they were.
    pub fn open(request: OpeningRequest, mut lists: Lists) -> Result<Ledger, Unopened<Lists>>
        ensures law { OpensLedger request lists result }
        ensures refused { IfErr result (λ e. e.lists ≡ lists) }
    {
        match judge_opening(request, lists.intervals.len(), lists.places.len()) {
            Ok(opening) => {
                clear_front(
                    lists.intervals.as_mut_slice(),
                    (opening.days * METERS) as usize,
                );
                lists.places.fill(None);
                Ok(Ledger::empty(opening, lists))
            }
            Err(refusal) => Err(Unopened { refusal, lists }),
        }
    }

    /// How the book was opened.
    pub fn opening(&self) -> Opening
        ensures { result ≡ ledger_opening self.now }
    {
        self.opening
    }

    /// The interval list in MJ: 32 energies for each day of the book, by meter, and then what lies
    /// beyond.
    pub fn intervals(&self) -> &[u64]
        ensures { result.now ≡ vec_items (ledger_intervals self.now) }
    {
        self.intervals.as_slice()
    }

    /// The reading places, free or with the reading that each holds.
    pub fn places(&self) -> &[Option<Reading>]
        ensures { result.now ≡ vec_items (ledger_places self.now) }
    {
        self.places.as_slice()
    }

    /// Ends the ledger and gives its two lists back as they are.
    pub fn close(self) -> Lists
        ensures intervals { result.intervals ≡ ledger_intervals self }
        ensures places { result.places ≡ ledger_places self }
    {
        Lists {
            intervals: self.intervals,
            places: self.places,
        }
    }

    // The day of the book, from 0, that a day number is. So many days after the book's last count as
    // days of it too: 0 or 1.
    pub(crate) fn day_of_number(&self, day_number: u32, later: u32) -> Result<u32, Refusal>
        requires { later ≤ 1 }
        ensures { Answers result (has_day_number self.now.opening later day_number)
            (day_number - self.now.opening.first) outside_book }
    {
        let opening = self.opening;
        if !(opening.first..opening.first + opening.days + later).contains(&day_number) {
            return Err(Refusal::OutsideBook);
        }
        Ok(day_number - opening.first)
    }

    // The day of the book, from 0, that a date is.
    fn day_of_date(&self, date: u32) -> Result<u32, Refusal>
        ensures { JudgesDay self.now.opening date result }
    {
        let day_number = day_number_of(date)?;
        self.day_of_number(day_number, 0)
    }

    // Whether the book has such a point.
    pub(crate) fn has_point(&self, point: u32) -> bool
        ensures { result ≡ is_between 1 self.now.opening.points point }
    {
        (1..=self.opening.points).contains(&point)
    }

    /// The enrolment of a point. A point that is not enrolled has none, nor has one that the book does
    /// not have.
    pub fn enrolment(&self, point: u32) -> Option<Enrolment>
        ensures value { result ≡ enrolment_at self.now point }
        ensures law { EachLedgerHistory self.now (λ s h. result ≡ enrolment_of h point) }
    {
        if self.has_point(point) {
            self.enrolments[point as usize - 1]
        } else {
            None
        }
    }

    // The sum of what the interval meters burn on a day of the book.
    fn interval_total(&self, day: u32) -> u64
        requires { HasDay self.now day }
        ensures value { result ≡ meters_sum self.now day meters }
        ensures bound { result ≤ largest_interval_total }
    {
        let first = (day * METERS) as usize;
        self.intervals[first..first + METERS as usize].iter().sum()
    }

    // The net system load of a day of the book with these gate energies.
    fn load_with(&self, day: u32, gate: GateDay) -> u64
        requires { FitsGate self.now day gate }
        ensures { result ≡ load_at self.now day gate }
    {
        let total = self.interval_total(day);
        let adjusted = adjust_for_unaccounted(total, self.opening.unaccounted).unwrap();
        net_system_load(gate.energy_in, gate.energy_out, adjusted).unwrap()
    }

    /// The net system load of a day in MJ, at most 1,000,000,000, by AEMO's methodology for net system
    /// load: what enters the area, less what leaves it and what its interval meters burn with their
    /// share of unaccounted-for gas. A day without a gate entry has none, nor has one that the book
    /// does not have.
    pub fn load(&self, day: u32) -> Option<u64>
        ensures bound { IfSome result (λ n. n ≤ largest_gate) }
        ensures law { EachLedgerHistory self.now (λ s h. result ≡ figures.load s h day) }
    {
        if day >= self.opening.days {
            return None;
        }
        let gate = self.gates[day as usize]?;
        Some(self.load_with(day, gate))
    }

    // Whether a day has a load.
    fn has_load(&self, day: u32) -> bool
        ensures { EachLedgerHistory self.now (λ s h. result ≡ is_some (figures.load s h day)) }
    {
        self.load(day).is_some()
    }

    // The retailer and the start day of an enrolment that can be made.
    fn judge_enrolment(
        &self,
        point: u32,
        retailer: u32,
        start_date: u32,
    ) -> Result<Enrolment, Refusal>
        ensures fits { OnOk result (HasPoint self.now point) }
        ensures law { JudgesEntry self.now (Enrol point retailer start_date)
            (λ e. Enrolled point e) result }
    {
        if !self.has_point(point) || !retailer_within(retailer) {
            return Err(Refusal::BeyondLimits);
        }
        let start = self.day_of_date(start_date)?;
        if self.enrolment(point).is_some() {
            return Err(Refusal::PointEnrolledAlready);
        }
        Ok(Enrolment { retailer, start })
    }

    // Gives a point its enrolment.
    fn put_enrolment(&mut self, point: u32, enrolment: Enrolment)
        requires { HasPoint self.old point }
        ensures within { point - 1 < length self.old.enrolments }
        ensures after { WithEnrolment point enrolment self.old self.new }
    {
        self.enrolments[point as usize - 1] = Some(enrolment);
    }

    /// Enrols a point with a retailer from a start date on. A point is enrolled once.
    ///
    /// Refused, in this order: 3 `BeyondLimits` (the point, or the retailer, 1 to 16), 4 `NoSuchDate`,
    /// 5 `OutsideBook`, 8 `PointEnrolledAlready`.
    pub fn enrol(&mut self, point: u32, retailer: u32, start_date: u32) -> Result<Entry, Refusal>
        ensures { EntersInLedger (Enrol point retailer start_date) self.old result self.new }
    {
        let enrolment = self.judge_enrolment(point, retailer, start_date)?;
        self.put_enrolment(point, enrolment);
        Ok(Entry::Enrolled { point, enrolment })
    }

    // The day of a gate entry that can be made.
    fn judge_gate(&self, date: u32, gate: GateDay) -> Result<u32, Refusal>
        ensures fits { IfOk result (λ day. FitsGate self.now day gate) }
        ensures law { JudgesEntry self.now (EnterGate date gate.energy_in gate.energy_out)
            (λ day. GateEntered day gate) result }
    {
        if gate.energy_in > LARGEST_GATE || gate.energy_out > LARGEST_GATE {
            return Err(Refusal::BeyondLimits);
        }
        self.day_of_date(date)
    }

    // Gives a day its gate energies.
    fn put_gate(&mut self, day: u32, gate: GateDay)
        requires { FitsGate self.old day gate }
        ensures within { day < length self.old.gates }
        ensures after { WithGate day gate self.old self.new }
    {
        self.gates[day as usize] = Some(gate);
    }

    /// Enters the energies in MJ into and out of the area on a date. A later entry for a date replaces
    /// the earlier one.
    ///
    /// Refused, in this order: 3 `BeyondLimits` (an energy above 1,000,000,000), 4 `NoSuchDate`,
    /// 5 `OutsideBook`.
    pub fn enter_gate(
        &mut self,
        date: u32,
        energy_in: u64,
        energy_out: u64,
    ) -> Result<Entry, Refusal>
        ensures { EntersInLedger (EnterGate date energy_in energy_out) self.old result self.new }
    {
        let gate = GateDay {
            energy_in,
            energy_out,
        };
        let day = self.judge_gate(date, gate)?;
        self.put_gate(day, gate);
        Ok(Entry::GateEntered { day, gate })
    }

    // The day of an interval energy that can be entered.
    fn judge_interval(&self, date: u32, meter: u32, energy: u64) -> Result<u32, Refusal>
        ensures fits { IfOk result (λ day. FitsInterval self.now day meter energy) }
        ensures law { JudgesEntry self.now (EnterInterval date meter energy)
            (λ day. IntervalEntered day meter energy) result }
    {
        if !(1..=METERS).contains(&meter) || energy > LARGEST_INTERVAL {
            return Err(Refusal::BeyondLimits);
        }
        self.day_of_date(date)
    }

    // Gives an interval meter its energy on a day.
    fn put_interval(&mut self, day: u32, meter: u32, energy: u64)
        requires { FitsInterval self.old day meter energy }
        ensures within { day * meters + (meter - 1) < length self.old.intervals.items }
        ensures after { WithInterval day meter energy self.old self.new }
    {
        let place = day * METERS + (meter - 1);
        self.intervals[place as usize] = energy;
    }

    /// Enters the energy in MJ of an interval meter on a date. A later entry for a meter and date
    /// replaces the earlier one.
    ///
    /// Refused, in this order: 3 `BeyondLimits` (the meter, 1 to 32, or an energy above 100,000,000),
    /// 4 `NoSuchDate`, 5 `OutsideBook`.
    pub fn enter_interval(&mut self, date: u32, meter: u32, energy: u64) -> Result<Entry, Refusal>
        ensures { EntersInLedger (EnterInterval date meter energy) self.old result self.new }
    {
        let day = self.judge_interval(date, meter, energy)?;
        self.put_interval(day, meter, energy);
        Ok(Entry::IntervalEntered { day, meter, energy })
    }

    /// The day of a degree-day count, in hundredths of a degree day, that can be entered. The estimator
    /// keeps the count; the ledger does not change.
    ///
    /// Refused, in this order: 3 `BeyondLimits` (a count above 20,000), 4 `NoSuchDate`,
    /// 5 `OutsideBook`.
    pub fn judge_degree_days(&self, date: u32, count: u32) -> Result<u32, Refusal>
        ensures fits { IfOk result (HasDay self.now) }
        ensures law { JudgesEntry self.now (EnterDegreeDays date count)
            (λ day. DegreeDaysEntered day count) result }
    {
        if count > GREATEST_COUNT {
            return Err(Refusal::BeyondLimits);
        }
        self.day_of_date(date)
    }

    /// The day for which the figure of a point is asked.
    ///
    /// Refused, in this order: 3 `BeyondLimits` (the point), 4 `NoSuchDate`, 5 `OutsideBook`,
    /// 7 `PointNotEnrolled`.
    pub fn judge_figure(&self, point: u32, date: u32) -> Result<u32, Refusal>
        ensures { JudgesQuestion self.now (AskFigure point date) date result }
    {
        if !self.has_point(point) {
            return Err(Refusal::BeyondLimits);
        }
        let day = self.day_of_date(date)?;
        if self.enrolment(point).is_none() {
            return Err(Refusal::PointNotEnrolled);
        }
        Ok(day)
    }

    /// The day that is asked for. It has a load.
    ///
    /// Refused, in this order: 4 `NoSuchDate`, 5 `OutsideBook`, 14 `AskedDayWithoutLoad`, with the
    /// date.
    pub fn judge_day(&self, date: u32) -> Result<u32, Refusal>
        ensures { JudgesQuestion self.now (AskDay date) date result }
    {
        let day = self.day_of_date(date)?;
        if !self.has_load(day) {
            return Err(Refusal::AskedDayWithoutLoad { date });
        }
        Ok(day)
    }

    /// The day for which the sum of a retailer's points is asked.
    ///
    /// Refused, in this order: 3 `BeyondLimits` (the retailer, 1 to 16), 4 `NoSuchDate`,
    /// 5 `OutsideBook`.
    pub fn judge_retailer(&self, retailer: u32, date: u32) -> Result<u32, Refusal>
        ensures { JudgesQuestion self.now (AskRetailer retailer date) date result }
    {
        if !retailer_within(retailer) {
            return Err(Refusal::BeyondLimits);
        }
        self.day_of_date(date)
    }
}
