ghost use Rattle.std.specs.Prelude.{◌≡◌, ℕ, ◌+◌, ◌-◌, ◌*◌, ◌^◌, ◌<◌, ◌≤◌, [], ◌++◌, min, T, Bool, not, ◌&&◌, List, map, take, drop, is_ok, is_some, vec_len, if◌then◌else◌, MatchResult};
ghost use Rattle.std.specs.List.{list_all};
ghost use Rattle.estimators.specs.Limits.{last_day, last_point};
ghost use Rattle.rules.specs.Figures as law;
ghost use Rattle.rules.specs.History.{enrolment_of, covering_reading};
ghost use Rattle.sheet.specs.DayWeights.{load_within, weight_of_load, weights_of_days};

use super::account::Account;
use super::sources::Sources;
use allocation::ReadingDay;
use estimators::{DAYS, Estimator, POINTS};
use ledger::{Ledger, clear_front};
use rules::Reading;

/// The daily figures of a book's points, in whole megajoules.
///
/// Days are counted from 0, the first day of the book, and points from 1. There are at most 400 days and 256
/// points. Beside the figures stands what they are worked out from again and again, in arrays of fixed size:
/// a sheet allocates nothing.
#[derive(Drop)]
pub struct Sheet {
    pub(crate) days: u32,
    pub(crate) points: u32,
    // Day by day and by point; what lies beyond them in the list stays as it is.
    pub(crate) figures: Vec<u64>,
    // The load of each day.
    pub(crate) loads: [Option<u64>; DAYS as usize],
    // The days by the weights of their loads, so that readings are shared over them in place. Each keeps the
    // share that it took last.
    pub(crate) reading_days: [ReadingDay; DAYS as usize],
    // Of each point the day before which its days are covered, from its start day on.
    pub(crate) cover_ends: [u32; POINTS as usize],
    // What is noted of each day.
    pub(crate) notes: [DayNote; DAYS as usize],
    ghost few_days: { days ≤ last_day },
    ghost few_points: { points ≤ last_point },
    ghost long: { days * points ≤ vec_len figures },
    ghost loads_within: { T (list_all load_within loads) },
    ghost weighed_by_loads: { weights_of_days reading_days ≡ map weight_of_load loads },
}

// What a sheet notes of a day, so that most days whose figures stand are not settled again.
#[derive(Clone, Copy, PartialEq, Eq, Debug)]
pub(crate) enum DayNote {
    // Nothing: its estimates are scaled, or it has not been settled yet.
    NothingKnown,
    // Its estimates come to 0, and its points that no reading covers show 0.
    NothingEstimated,
    // Its points that no reading covers show their estimates as they are.
    EstimatesShown,
    // Its points that no reading covers show 0, since its load left nothing beside supplied energy.
    NothingLeft,
}

// What a point's figure on a day comes from.
#[derive(Clone, Copy, PartialEq, Eq, Debug)]
pub(crate) enum PointStatus {
    // A reading covers the day.
    Covered,
    // The point has started, and no reading covers the day.
    Estimated,
    // The point is not enrolled, or starts later: its figure is 0.
    Absent,
}

// The largest energy of a reading, in megajoules.
const LARGEST_ENERGY: u64 = terms::LARGEST_ENERGY as u64;

// A day without a load, by its weight.
const DAY_WITHOUT_LOAD: ReadingDay = ReadingDay {
    weight: 1,
    share: 0,
};

// A list whose places in a sheet of so many days and points are cleared.
fn cleared_figures(days: u32, points: u32, mut figures: Vec<u64>) -> Vec<u64>
    requires { (days ≤ last_day) × (points ≤ last_point) }
    ensures items { result.items
        ≡ map (λ x. 0) (take (days * points) figures.items) ++ drop (days * points) figures.items }
    ensures len { vec_len result ≡ vec_len figures }
{
    clear_front(figures.as_mut_slice(), (days * points) as usize);
    figures
}

impl Sheet {
    ghost use Rattle.sheet.specs.Account.{day_account};
    ghost use Rattle.sheet.specs.Sheet as sheets;
    ghost use Rattle.sheet.specs.Sheet.{IsDayOfSheet, IsInSheet, IsPointOfSheet, SetsFigure};
    ghost use Rattle.sheet.specs.Sheet.{can_open_sheet, figure_place, figures_of_sheet, is_in_sheet, lies_in_sheet, list_of_sheet};
    ghost use Rattle.sheet.specs.SheetOfHistory.{ForKnown, ForKnownOn, ForShown, MeansEstimatesOn, OpensSheet, status_of};

    /// A sheet of so many days and points without any figure, in the memory of a list.
    ///
    /// The places of the sheet are cleared; what lies beyond them stays. The list comes back as it was where
    /// there are more than 400 days or 256 points, or fewer places than days times points.
    pub fn open(days: u32, points: u32, figures: Vec<u64>) -> Result<Sheet, Vec<u64>>
        ensures answer { is_ok result ≡ can_open_sheet days points (vec_len figures) }
        ensures stands { MatchResult result (OpensSheet days points figures.items) (λ list. list ≡ figures) }
    {
        if days > DAYS || points > POINTS || figures.len() < (days * points) as usize {
            return Err(figures);
        }
        Ok(Sheet {
            days,
            points,
            figures: cleared_figures(days, points, figures),
            loads: [None; DAYS as usize],
            reading_days: [DAY_WITHOUT_LOAD; DAYS as usize],
            cover_ends: [0; POINTS as usize],
            notes: [DayNote::NothingKnown; DAYS as usize],
        })
    }

    /// Ends the sheet and gives its list back as it is.
    pub fn close(self) -> Vec<u64>
        ensures { result ≡ list_of_sheet self }
    {
        let Sheet { figures, .. } = self;
        figures
    }

    /// The figures, day by day and by point, then what lies beyond them in the list.
    pub fn figures(&self) -> &[u64]
        ensures { result.now ≡ figures_of_sheet self.now }
    {
        self.figures.as_slice()
    }

    /// The figure of a point and day, in megajoules. It is 0 where the rules make none, and outside the sheet.
    pub fn figure(&self, point: u32, day: u32) -> u64
        ensures { result ≡ (if is_in_sheet self.now point day then sheets.figure_at self.now point day else 0) }
    {
        if !(1..=self.points).contains(&point) || day >= self.days {
            return 0;
        }
        self.figure_at(point, day)
    }

    /// The account of a day. There is none of a day without a load, nor outside the sheet.
    pub fn day_account<E: Estimator>(&self, sources: &Sources<'_, E>, day: u32) -> Option<Account>
        ensures { ForShown sources.now.ledger.now self.now (λ s h.
            MeansEstimatesOn s h day (E.Estimator.meaning sources.now.estimator.now) → day < s.days
            → result ≡ day_account s h day) }
    {
        if day >= self.days {
            return None;
        }
        let load = self.loads[day as usize]?;
        let supplied = self.sum_where(day, |point| self.is_covered(sources.ledger, point, day));
        let generated = self.sum_where(day, |point| !self.is_covered(sources.ledger, point, day));
        let missing = self.missing_count(sources, day);
        Some(Account::new(load, supplied, generated, missing))
    }

    /// What the figures of a retailer's points on a day come to, in megajoules; 0 outside the sheet.
    pub fn retailer_sum(&self, ledger: &Ledger, retailer: u32, day: u32) -> u64
        ensures { ForShown ledger.now self.now (λ s h.
            day < s.days → result ≡ law.retailer_sum s h retailer day) }
    {
        if day >= self.days {
            return 0;
        }
        self.sum_where(day, |point| self.belongs_to(ledger, point, retailer))
    }

    // The index of a point and day in the list of figures.
    fn figure_index(&self, point: u32, day: u32) -> usize
        requires { IsInSheet self.now point day }
        ensures value { result ≡ figure_place self.now point day }
        ensures within { result < vec_len self.now.figures }
    {
        (day * self.points + (point - 1)) as usize
    }

    // The figure of a point and day of the sheet.
    pub(crate) fn figure_at(&self, point: u32, day: u32) -> u64
        requires { IsInSheet self.now point day }
        ensures { result ≡ sheets.figure_at self.now point day }
    {
        self.figures[self.figure_index(point, day)]
    }

    // Shows another figure of a point and day of the sheet.
    pub(crate) fn show(&mut self, point: u32, day: u32, figure: u64)
        requires { IsInSheet self.old point day }
        ensures { SetsFigure point day figure self.old self.new }
    {
        let place = self.figure_index(point, day);
        self.figures[place] = figure;
    }

    // Whether a reading lies in the sheet with an energy of at most 10,000,000, as every reading of its book
    // does.
    pub(crate) fn contains_reading(&self, reading: &Reading) -> bool
        ensures { result ≡ lies_in_sheet self.now reading.now }
    {
        (1..=self.points).contains(&reading.point)
            && reading.start < reading.end
            && reading.end <= self.days
            && reading.energy <= LARGEST_ENERGY
    }

    // What the figure of a point of the sheet on a day comes from.
    pub(crate) fn status(&self, ledger: &Ledger, point: u32, day: u32) -> PointStatus
        requires { IsPointOfSheet self.now point }
        ensures { ForKnown ledger.now self.now (λ s h. result ≡ status_of h point day) }
    {
        match ledger.enrolment(point) {
            Some(enrolment) if enrolment.start <= day => {
                if day < self.cover_ends[point as usize - 1] {
                    PointStatus::Covered
                } else {
                    PointStatus::Estimated
                }
            }
            _ => PointStatus::Absent,
        }
    }

    // Whether a reading covers a day of a point of the sheet.
    pub(crate) fn is_covered(&self, ledger: &Ledger, point: u32, day: u32) -> bool
        requires { IsPointOfSheet self.now point }
        ensures { ForKnown ledger.now self.now (λ s h. result ≡ is_some (covering_reading h point day)) }
    {
        matches!(self.status(ledger, point, day), PointStatus::Covered)
    }

    // Whether a point of the sheet is estimated on a day.
    fn is_estimated(&self, ledger: &Ledger, point: u32, day: u32) -> bool
        requires { IsPointOfSheet self.now point }
        ensures { ForKnown ledger.now self.now (λ s h. result ≡ law.is_estimated h point day) }
    {
        matches!(self.status(ledger, point, day), PointStatus::Estimated)
    }

    // Whether a point of the sheet is a retailer's.
    fn belongs_to(&self, ledger: &Ledger, point: u32, retailer: u32) -> bool
        requires { IsPointOfSheet self.now point }
        ensures { ForKnown ledger.now self.now (λ s h. result ≡ law.belongs_to (enrolment_of h point) retailer) }
    {
        ledger
            .enrolment(point)
            .is_some_and(|enrolment| enrolment.retailer == retailer)
    }

    // Whether a point is estimated on a day and has no estimate.
    fn is_missing<E: Estimator>(&self, sources: &Sources<'_, E>, point: u32, day: u32) -> bool
        requires { IsInSheet self.now point day }
        ensures { ForKnownOn day sources.now.ledger.now
            (E.Estimator.meaning sources.now.estimator.now) self.now (λ s h.
            result ≡ law.is_estimated h point day && not (is_some (law.estimate s h point day))) }
    {
        self.is_estimated(sources.ledger, point, day) && sources.estimate_of(point, day).is_none()
    }

    // How many estimated points of a day have no estimate.
    fn missing_count<E: Estimator>(&self, sources: &Sources<'_, E>, day: u32) -> u64
        requires { IsDayOfSheet self.now day }
        ensures { ForKnownOn day sources.now.ledger.now
            (E.Estimator.meaning sources.now.estimator.now) self.now (λ s h.
            result ≡ law.missing_count s h day) }
    {
        (1..self.points + 1)
            .filter(|point| self.is_missing(sources, *point, day))
            .count() as u64
    }

    // What the figures of a day come to at the points that pass a test, or the largest u64 where it is more:
    // no book comes near it.
    pub(crate) fn sum_where<F: Fn(u32) -> bool>(&self, day: u32, test: F) -> u64
        requires day { IsDayOfSheet self.now day }
        requires test { (point : ℕ) → IsPointOfSheet self.now point → F.pre test point }
        ensures { (passes : ℕ → Bool)
            → ((point : ℕ) (answer : Bool) → IsPointOfSheet self.now point
            → F.post test point answer → answer ≡ passes point)
            → result ≡ min (sheets.sum_where passes self.now day self.now.points) (2 ^ 64 - 1) }
    {
        let mut total = 0u64;
        for point in 1..=self.points {
            if test(point) {
                total = total.saturating_add(self.figure_at(point, day));
            }
        }
        total
    }
}
