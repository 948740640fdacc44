ghost use Rattle.std.specs.Prelude.{◌≡◌, ℕ, ◌+◌, ◌-◌, ◌<◌, ◌≤◌, true, ◌∷◌, IfErr, MatchResult, OnErr, OnOk, Option};
ghost use Rattle.estimators.specs.Limits.{last_day};
ghost use Rattle.estimators.specs.Meaning.{weather_within, TakesCount};
ghost use Rattle.rules.specs.declared.call.Call.{Call};
ghost use Rattle.rules.specs.declared.call.Call.TheVariants.{AskDay, AskFigure, AskRetailer, Enrol, EnterDegreeDays, EnterGate, EnterInterval, EnterReading};
ghost use Rattle.rules.specs.declared.entry.Entry.TheVariants.{DegreeDaysEntered};
ghost use Rattle.terms.specs.Answers.{Answers};
ghost use Rattle.terms.specs.Refusal.{number_of};
ghost use Rattle.calendar.specs.Digits.{date_of_day_number};
ghost use Rattle.ledger.specs.Opening.{has_day_number};
ghost use Rattle.terms.specs.RefusalNumbers.{beyond_limits, outside_book};

use calendar::{date_of_day_number, day_number_of};
use estimators::{Estimator, Weather};
use ledger::{Ledger, OpeningRequest, Unopened, judge_opening};
use rules::{Delivery, Entry, Reading};
use sheet::{Account, Sheet, Sources};
use terms::Refusal;

/// The three lists in whose memory a book is kept. No call of a book allocates.
#[derive(Debug, Drop)]
pub struct Lists {
    /// The figures, day by day and by point: at least days times points. In megajoules.
    pub sheet: Vec<u64>,
    /// The interval energies, day by day and by meter: at least 32 for each day. In megajoules.
    pub intervals: Vec<u64>,
    /// The places of held readings: at least one, free or with the reading that it holds.
    pub readings: Vec<Option<Reading>>,
}

/// Days of a book that follow one another.
#[derive(Clone, Copy, PartialEq, Eq, Debug)]
pub struct Days {
    /// The first of them, counted from 0, the book's first day.
    pub first: u32,
    /// How many there are.
    pub count: u32,
    ghost few: { first + count ≤ last_day },
}

/// The book of one distribution area: what it has accepted, and the figures that the rules make of it.
///
/// A book is told by entries (`enrol`, `enter_gate`, `enter_interval`, `enter_degree_days`, `enter_reading`)
/// and asked by questions (`ask_figure`, `ask_day`, `ask_retailer`). An estimator stands beside it and is
/// passed to each call that needs it: it must be the one beside which the book was opened. Dates are numbers of
/// eight digits, as 20240701. A refused call changes nothing.
#[derive(Drop)]
pub struct Book {
    ledger: Ledger,
    sheet: Sheet,
}

// Opening and end, and what the lists hold.
impl Book {
    ghost use Rattle.book.specs.Book.{lists_of};
    ghost use Rattle.book.specs.Opening.{OpensBook, book_opening_refusal};

    // Judges an opening: its numbers and its last day, its first date, and the three lists.
    fn judge(request: OpeningRequest, lists: &Lists) -> Result<(), Refusal>
        ensures { MatchResult result (λ _. book_opening_refusal request lists.now ≡ Option.None)
            (λ e. book_opening_refusal request lists.now ≡ Option.Some (number_of e)) }
    {
        let opening = judge_opening(request, lists.intervals.len(), lists.readings.len())?;
        if lists.sheet.len() < (opening.days * opening.points) as usize {
            return Err(Refusal::ListTooShort);
        }
        Ok(())
    }

    /// A book that has accepted nothing, from a first date on, in the memory of three lists. What the lists
    /// hold beyond the book's places stays as it is. Where the opening is refused, all three come back as they
    /// were.
    ///
    /// Refusals: `BeyondLimits` (3) where the days are not 1 to 400, the points not 1 to 256, the
    /// unaccounted-for gas is more than 2,000 ten-thousandths, or the last day is later than 30 December 2099;
    /// `NoSuchDate` (4); `ListTooShort` (15).
    pub fn open(request: OpeningRequest, lists: Lists) -> Result<Book, Unopened<Lists>>
        ensures law { OpensBook request lists result }
        ensures refused { IfErr result (λ e. e.lists ≡ lists) }
    {
        match Book::judge(request, &lists) {
            Ok(()) => {
                let ledger_lists = ledger::Lists {
                    intervals: lists.intervals,
                    places: lists.readings,
                };
                // `judge` has asked for all that these two refuse.
                let ledger = Ledger::open(request, ledger_lists).unwrap();
                let sheet = Sheet::open(request.days, request.points, lists.sheet).unwrap();
                Ok(Book { ledger, sheet })
            }
            Err(refusal) => Err(Unopened { refusal, lists }),
        }
    }

    /// The figures in megajoules, day by day and by point, then what lies beyond.
    pub fn sheet(&self) -> &[u64]
        ensures { result.now ≡ (lists_of self.now).sheet.items }
    {
        self.sheet.figures()
    }

    /// The interval energies in megajoules, day by day and by meter, then what lies beyond.
    pub fn intervals(&self) -> &[u64]
        ensures { result.now ≡ (lists_of self.now).intervals.items }
    {
        self.ledger.intervals()
    }

    /// The reading places, free or with the reading that each holds.
    pub fn readings(&self) -> &[Option<Reading>]
        ensures { result.now ≡ (lists_of self.now).readings.items }
    {
        self.ledger.places()
    }

    /// Ends the book and gives its lists back as they are.
    pub fn close(self) -> Lists
        ensures { result ≡ lists_of self }
    {
        let ledger_lists = self.ledger.close();
        Lists {
            sheet: self.sheet.close(),
            intervals: ledger_lists.intervals,
            readings: ledger_lists.places,
        }
    }
}

// Entries. Each is judged and held by the ledger first, and then taken in by the sheet.
impl Book {
    ghost use Rattle.book.specs.Book.{IsEnteredBeside, ChangesLedgerOnly, IsServedByLaw, LeavesBookIfRefused, SheetTakes};
    ghost use Rattle.estimators.specs.Meaning.{meanings_of};
    ghost use Rattle.book.specs.Replies.{entry_reply};
    ghost use Rattle.book.specs.declared.book.Book.{Book};

    // Works out anew what an entry can move, once the ledger holds it.
    fn follow<E: Estimator>(&mut self, estimator: &E, entry: Entry)
        ensures ledger { self.new.ledger ≡ self.old.ledger }
        ensures law { SheetTakes entry self.old.ledger (E.meaning estimator.now)
            self.old.sheet self.new.sheet }
    {
        let sources = Sources {
            ledger: &self.ledger,
            estimator,
        };
        match entry {
            Entry::Enrolled { point, enrolment } => {
                self.sheet.start_point(&sources, point, enrolment);
            }
            Entry::GateEntered { day, .. } | Entry::IntervalEntered { day, .. } => {
                self.sheet.reload(&sources, day)
            }
            Entry::DegreeDaysEntered { day, .. } => { self.sheet.take_count(&sources, day) }
            Entry::ReadingTaken(reading) => { self.sheet.take_reading(&sources, &reading) }
        }
    }

    // Takes in what the ledger has answered: what an accepted entry can move is worked out anew, and a refusal
    // is handed on.
    fn take_in<E: Weather>(
        &mut self,
        estimator: &E,
        answer: Result<Entry, Refusal>,
    ) -> Result<(), Refusal>
        ensures refused { (b : Book) → LeavesBookIfRefused answer b self.old → OnErr result (self.new ≡ b) }
        ensures law { (call : Call) (b : Book) → ChangesLedgerOnly call answer b self.old
            → IsEnteredBeside
            (meanings_of (E.meaning estimator.now) (E.under estimator.now)) call result b self.new }
    {
        let entry = answer?;
        self.follow(estimator, entry);
        Ok(())
    }

    // Enters the degree-day count of a day, and then works out anew what it can move.
    fn take_count<E: Weather>(
        &mut self,
        estimator: &mut E,
        day: u32,
        count: u32,
    ) -> Result<(), Refusal>
        requires { day < last_day }
        ensures answer { Answers result (weather_within (day + 1) count) tt beyond_limits }
        ensures refused { OnErr result ((self.new ≡ self.old) × (estimator.new ≡ estimator.old)) }
        ensures ledger { self.new.ledger ≡ self.old.ledger }
        ensures weather { weather_within (day + 1) count ≡ true
            → TakesCount (day + 1) count (E.meaning estimator.old) (E.meaning estimator.new)
            (E.under estimator.old) (E.under estimator.new) }
        ensures figures { OnOk result
            (SheetTakes (DegreeDaysEntered day count) self.old.ledger (E.meaning estimator.new)
            self.old.sheet self.new.sheet) }
    {
        estimator.enter(day + 1, count)?;
        self.follow(estimator, Entry::DegreeDaysEntered { day, count });
        Ok(())
    }

    /// Gives a point its retailer and its start date. A point is enrolled once.
    ///
    /// Refusals: `BeyondLimits` (3) where the book has no such point or the retailer is not 1 to 16;
    /// `NoSuchDate` (4); `OutsideBook` (5); `PointEnrolledAlready` (8).
    pub fn enrol<E: Weather>(
        &mut self,
        estimator: &E,
        point: u32,
        retailer: u32,
        start: u32,
    ) -> Result<(), Refusal>
        ensures refused { OnErr result (self.new ≡ self.old) }
        ensures law { IsEnteredBeside (meanings_of (E.meaning estimator.now) (E.under estimator.now))
            (Enrol point retailer start) result self.old self.new }
    {
        let answer = self.ledger.enrol(point, retailer, start);
        self.take_in(estimator, answer)
    }

    /// Enters the energy into and out of the area on a day, in megajoules. A later entry for a day replaces the
    /// earlier one.
    ///
    /// Refusals: `BeyondLimits` (3) where an energy is more than 1,000,000,000; `NoSuchDate` (4); `OutsideBook` (5).
    pub fn enter_gate<E: Weather>(
        &mut self,
        estimator: &E,
        date: u32,
        energy_in: u64,
        energy_out: u64,
    ) -> Result<(), Refusal>
        ensures refused { OnErr result (self.new ≡ self.old) }
        ensures law { IsEnteredBeside (meanings_of (E.meaning estimator.now) (E.under estimator.now))
            (EnterGate date energy_in energy_out) result self.old self.new }
    {
        let answer = self.ledger.enter_gate(date, energy_in, energy_out);
        self.take_in(estimator, answer)
    }

    /// Enters the energy of an interval meter on a day, in megajoules. A later entry for a meter and day
    /// replaces the earlier one.
    ///
    /// Refusals: `BeyondLimits` (3) where the meter is not 1 to 32 or the energy is more than 100,000,000;
    /// `NoSuchDate` (4); `OutsideBook` (5).
    pub fn enter_interval<E: Weather>(
        &mut self,
        estimator: &E,
        date: u32,
        meter: u32,
        energy: u64,
    ) -> Result<(), Refusal>
        ensures refused { OnErr result (self.new ≡ self.old) }
        ensures law { IsEnteredBeside (meanings_of (E.meaning estimator.now) (E.under estimator.now))
            (EnterInterval date meter energy) result self.old self.new }
    {
        let answer = self.ledger.enter_interval(date, meter, energy);
        self.take_in(estimator, answer)
    }

    /// Enters the degree-day count of a day, in hundredths. The estimator takes it before the day is worked out anew.
    ///
    /// Refusals: `BeyondLimits` (3) where the count is more than 20,000; `NoSuchDate` (4); `OutsideBook` (5).
    pub fn enter_degree_days<E: Weather>(
        &mut self,
        estimator: &mut E,
        date: u32,
        count: u32,
    ) -> Result<(), Refusal>
        ensures refused { OnErr result ((self.new ≡ self.old) × (estimator.new ≡ estimator.old)) }
        ensures law { IsServedByLaw (EnterDegreeDays date count) entry_reply result
            self.old (meanings_of (E.meaning estimator.old) (E.under estimator.old))
            self.new (meanings_of (E.meaning estimator.new) (E.under estimator.new)) }
    {
        let day = self.ledger.judge_degree_days(date, count)?;
        self.take_count(estimator, day, count)
    }

    /// Takes a reading of a point from a start date to the day before an end date, with its energy in
    /// megajoules. It replaces the readings of which it covers a day.
    ///
    /// Refusals: `BeyondLimits` (3) where the book has no such point or the energy is more than 10,000,000;
    /// `NoSuchDate` (4); `OutsideBook` (5), the end being at most the day after the book's last;
    /// `NegativeEnergy` (6); `PointNotEnrolled` (7); `StartIsNoMark` (9); `EndNotAllowed` (10);
    /// `CoveredDayWithoutLoad` (11); `SoftOverFirm` (12); `ReadingPlacesFull` (13).
    pub fn enter_reading<E: Weather>(
        &mut self,
        estimator: &E,
        delivery: Delivery,
    ) -> Result<(), Refusal>
        ensures refused { OnErr result (self.new ≡ self.old) }
        ensures law { IsEnteredBeside (meanings_of (E.meaning estimator.now) (E.under estimator.now))
            (EnterReading delivery) result self.old self.new }
    {
        let answer = self.ledger.enter_reading(delivery);
        self.take_in(estimator, answer)
    }
}

// Days and questions.
impl Book {
    ghost use Rattle.book.specs.Book.{IsAnsweredByLaw};
    ghost use Rattle.book.specs.Days.{TellsAccount, TellsDays, TellsSum};
    ghost use Rattle.estimators.specs.Meaning.{Meanings, meanings_of};
    ghost use Rattle.book.specs.Replies.{day_is, figure_is, sum_is};

    // The date of a day of the book.
    fn date_of(&self, day: u32) -> u32
        requires { day < self.now.ledger.opening.days }
        ensures { result ≡ date_of_day_number (self.now.ledger.opening.first + day) }
    {
        date_of_day_number(self.ledger.opening().first + day).unwrap()
    }

    // The day of the book of a day number.
    fn day_of_number(&self, number: u32) -> Result<u32, Refusal>
        ensures { Answers result
            (has_day_number self.now.ledger.opening 0 number)
            (number - self.now.ledger.opening.first) outside_book }
    {
        let opening = self.ledger.opening();
        if !(opening.first..opening.first + opening.days).contains(&number) {
            return Err(Refusal::OutsideBook);
        }
        Ok(number - opening.first)
    }

    /// The days of the book from a first date to a last one, both included.
    ///
    /// Refusals: `NoSuchDate` (4) where either date does not exist; `OutsideBook` (5) where either lies outside
    /// the book; `EndNotAllowed` (10) where the last is before the first.
    pub fn days_of(&self, first: u32, last: u32) -> Result<Days, Refusal>
        ensures { TellsDays first last result self.now }
    {
        // Both dates have to exist before either is looked for in the book.
        let first_number = day_number_of(first)?;
        let last_number = day_number_of(last)?;
        let first = self.day_of_number(first_number)?;
        let last = self.day_of_number(last_number)?;
        if last < first {
            return Err(Refusal::EndNotAllowed);
        }
        Ok(Days {
            first,
            count: last - first + 1,
        })
    }

    /// The account of a day, counted from 0, the book's first.
    ///
    /// Refusals: `OutsideBook` (5) where the book has no such day; `AskedDayWithoutLoad` (14).
    pub fn day_account<E: Weather>(&self, estimator: &E, day: u32) -> Result<Account, Refusal>
        ensures { TellsAccount day result self.now
            (meanings_of (E.meaning estimator.now) (E.under estimator.now)) }
    {
        if day >= self.ledger.opening().days {
            return Err(Refusal::OutsideBook);
        }
        let sources = Sources {
            ledger: &self.ledger,
            estimator,
        };
        match self.sheet.day_account(&sources, day) {
            Some(figures) => Ok(figures),
            None => {
                let date = self.date_of(day);
                Err(Refusal::AskedDayWithoutLoad { date })
            }
        }
    }

    /// What the figures of a retailer's points come to on a day, counted from 0, the book's first: in
    /// megajoules, and 0 for a retailer without a point.
    ///
    /// Refusal: `OutsideBook` (5) where the book has no such day.
    pub fn day_sum(&self, retailer: u32, day: u32) -> Result<u64, Refusal>
        ensures { TellsSum retailer day result self.now }
    {
        if day >= self.ledger.opening().days {
            return Err(Refusal::OutsideBook);
        }
        Ok(self.sheet.retailer_sum(&self.ledger, retailer, day))
    }

    /// The figure of a point on a day, in megajoules.
    ///
    /// Refusals: `BeyondLimits` (3) where the book has no such point; `NoSuchDate` (4); `OutsideBook` (5);
    /// `PointNotEnrolled` (7).
    pub fn ask_figure(&self, point: u32, date: u32) -> Result<u64, Refusal>
        ensures { (m : Meanings) → IsAnsweredByLaw (AskFigure point date) figure_is result self.now m }
    {
        let day = self.ledger.judge_figure(point, date)?;
        Ok(self.sheet.figure(point, day))
    }

    /// The account of the day of a date.
    ///
    /// Refusals: `NoSuchDate` (4); `OutsideBook` (5); `AskedDayWithoutLoad` (14).
    pub fn ask_day<E: Weather>(&self, estimator: &E, date: u32) -> Result<Account, Refusal>
        ensures { IsAnsweredByLaw (AskDay date) day_is result self.now
            (meanings_of (E.meaning estimator.now) (E.under estimator.now)) }
    {
        let day = self.ledger.judge_day(date)?;
        self.day_account(estimator, day)
    }

    /// What the figures of a retailer's points come to on the day of a date, in megajoules.
    ///
    /// Refusals: `BeyondLimits` (3) where the retailer is not 1 to 16; `NoSuchDate` (4); `OutsideBook` (5).
    pub fn ask_retailer(&self, retailer: u32, date: u32) -> Result<u64, Refusal>
        ensures { (m : Meanings) → IsAnsweredByLaw (AskRetailer retailer date) sum_is result self.now m }
    {
        let day = self.ledger.judge_retailer(retailer, date)?;
        self.day_sum(retailer, day)
    }
}
