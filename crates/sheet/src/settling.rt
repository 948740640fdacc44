// How a day is settled: its generated figures are worked out anew beside the supplied ones that the sheet
// shows.
ghost use Rattle.std.specs.Prelude.{◌≡◌, ◌+◌, ◌-◌, ◌^◌, ◌<◌, ◌≤◌, ℕ, min, true, length, is_some, IfSome, if◌then◌else◌, sum, nat_lt, slice_index};
ghost use Rattle.std.specs.Option.{unwrap_or};
ghost use Rattle.allocation.specs.Loads.{largest_gate};
ghost use Rattle.estimators.specs.Limits.{last_point};
ghost use Rattle.rules.specs.Figures as law;
ghost use Rattle.rules.specs.History.{History, Setting, covering_reading};
ghost use Rattle.ledger.specs.declared.ledger.Ledger.{Ledger};
ghost use Rattle.sheet.specs.Scaling.{estimates_of_points, figures_of_points, note_of, scaled_estimates};
ghost use Rattle.sheet.specs.Sheet as sheets;
ghost use Rattle.sheet.specs.Sheet.{ChangesOnlyDays, ChangesOnlyNotes, IsDayOfSheet, IsInSheet, SetsNote, stands_by_note};
ghost use Rattle.sheet.specs.SheetOfHistory.{ForKnown, ForKnownOn, IsReadyToSettle, IsSettled, MeansEstimates, ShowsDay, ShowsSupplied};
ghost use Rattle.sheet.specs.declared.sheet.DayNote.TheVariants.{NothingKnown, NothingLeft};
ghost use Rattle.terms.specs.Limits.{greatest_figure};

use super::day_range::DayRange;
use super::sheet::{DayNote, PointStatus, Sheet};
use super::sources::Sources;
use allocation::{EstimatedPoint, share};
use estimators::{Estimator, POINTS};
use ledger::Ledger;

// A point that counts as nothing.
const NO_POINT: EstimatedPoint = EstimatedPoint {
    estimate: 0,
    figure: 0,
};

// What a point takes part in a day with: what is supplied to it, or its estimate.
#[derive(Drop)]
struct Contribution {
    supplied: u64,
    estimate: Option<u64>,
}

// A point with this estimate, not scaled yet. A missing estimate counts as 0.
fn unscaled_point(estimate: Option<u64>) -> EstimatedPoint
    requires { IfSome estimate (λ x. x ≤ greatest_figure) }
    ensures estimate { result.estimate ≡ unwrap_or estimate 0 }
    ensures figure { result.figure ≡ unwrap_or estimate 0 }
{
    let estimate = estimate.unwrap_or(0);
    EstimatedPoint {
        estimate,
        figure: estimate,
    }
}

// What the estimates of some points come to.
fn estimates_total(points: &[EstimatedPoint]) -> u64
    requires { length points.now ≤ last_point }
    ensures { result ≡ sum (estimates_of_points points.now) }
{
    points.iter().map(|point| point.estimate).sum()
}

// What can be noted of a day whose estimates are scaled to so much.
fn note_of_scaled(left: u64) -> DayNote
    ensures { result ≡ (if nat_lt 0 left then NothingKnown else NothingLeft) }
{
    if left > 0 {
        DayNote::NothingKnown
    } else {
        DayNote::NothingLeft
    }
}

// Scales the estimates of a day: where they and supplied energy together exceed its load, what the load
// leaves is shared over them. Gives what can be noted of the day.
fn scale(load: Option<u64>, supplied: u64, points: &mut [EstimatedPoint]) -> DayNote
    requires load { IfSome load (λ n. n ≤ largest_gate) }
    requires points { (length points.old ≤ last_point)
        × (figures_of_points points.old ≡ estimates_of_points points.old) }
    ensures figures { figures_of_points points.new
        ≡ scaled_estimates load supplied (estimates_of_points points.old) }
    ensures note { result ≡ note_of load supplied (estimates_of_points points.old) }
{
    let estimated = estimates_total(points);
    if estimated == 0 {
        return DayNote::NothingEstimated;
    }
    let Some(load) = load else {
        return DayNote::EstimatesShown;
    };
    if supplied.saturating_add(estimated) <= load {
        return DayNote::EstimatesShown;
    }
    let left = load.saturating_sub(supplied);
    share(left, points).unwrap();
    note_of_scaled(left)
}

impl Sheet {
    // What a point takes part in a day with. One that is not estimated has no estimate, and one that is not
    // covered no supply.
    fn contribution_of<E: Estimator>(
        &self,
        sources: &Sources<'_, E>,
        point: u32,
        day: u32,
    ) -> Contribution
        requires { IsInSheet self.now point day }
        ensures within { IfSome result.estimate (λ x. x ≤ greatest_figure) }
        ensures supplied { ForKnown sources.now.ledger.now self.now (λ s h.
            result.supplied
            ≡ (if is_some (covering_reading h point day) then sheets.figure_at self.now point day else 0)) }
        ensures estimate { ForKnownOn day sources.now.ledger.now
            (E.Estimator.meaning sources.now.estimator.now) self.now (λ s h.
            unwrap_or result.estimate 0 ≡ law.counted_estimate s h point day) }
    {
        let mut part = Contribution {
            supplied: 0,
            estimate: None,
        };
        match self.status(sources.ledger, point, day) {
            PointStatus::Covered => part.supplied = self.figure_at(point, day),
            PointStatus::Estimated => part.estimate = sources.estimate_of(point, day),
            PointStatus::Absent => {}
        }
        part
    }

    // The estimates of a day's points in number order, not scaled yet, and what its supplied figures come to,
    // capped as in `sum_where`: in one pass.
    fn gather<E: Estimator>(
        &self,
        sources: &Sources<'_, E>,
        day: u32,
        points: &mut [EstimatedPoint],
    ) -> u64
        requires { (length points.old ≡ self.now.points) × IsDayOfSheet self.now day }
        ensures same { figures_of_points points.new ≡ estimates_of_points points.new }
        ensures estimates { ForKnownOn day sources.now.ledger.now
            (E.Estimator.meaning sources.now.estimator.now) self.now (λ s h.
            estimates_of_points points.new ≡ law.estimates s h day) }
        ensures supplied { ForKnown sources.now.ledger.now self.now (λ s h.
            result
            ≡ min (sheets.sum_where (λ p. is_some (covering_reading h p day)) self.now day self.now.points)
            (2 ^ 64 - 1)) }
    {
        let mut supplied = 0u64;
        for (i, row) in points.iter_mut().enumerate() {
            let part = self.contribution_of(sources, i as u32 + 1, day);
            supplied = supplied.saturating_add(part.supplied);
            *row = unscaled_point(part.estimate);
        }
        supplied
    }

    // Shows the figures of a day's points that no reading covers.
    fn show_generated(&mut self, ledger: &Ledger, day: u32, points: &[EstimatedPoint])
        requires { (length points.now ≡ self.old.points) × IsDayOfSheet self.old day }
        ensures stands { ChangesOnlyDays day (day + 1) self.old self.new }
        ensures notes { self.new.notes ≡ self.old.notes }
        ensures law { ForKnown ledger.now self.old (λ s h.
            (p : ℕ) → 1 ≤ p → p ≤ s.points
            → sheets.figure_at self.new p day
            ≡ (if is_some (covering_reading h p day)
            then sheets.figure_at self.old p day
            else slice_index (figures_of_points points.now) (p - 1))) }
    {
        for (point, row) in (1..self.points + 1).zip(points) {
            if !self.is_covered(ledger, point, day) {
                self.show(point, day, row.figure);
            }
        }
    }

    // The generated figures of a day's points in number order, scaled where they must be, beside the supplied
    // figures that the sheet shows. Gives what can be noted of the day.
    fn generate<E: Estimator>(
        &self,
        sources: &Sources<'_, E>,
        day: u32,
        points: &mut [EstimatedPoint],
    ) -> DayNote
        requires { (length points.old ≡ self.now.points) × IsDayOfSheet self.now day }
        ensures { ForKnownOn day sources.now.ledger.now
            (E.Estimator.meaning sources.now.estimator.now) self.now (λ s h.
            ShowsSupplied s h self.now day
            → (figures_of_points points.new ≡ law.generated_figures s h day)
            × (result ≡ note_of (law.load s h day) (law.supplied_sum s h day) (law.estimates s h day))) }
    {
        let supplied = self.gather(sources, day, points);
        scale(self.loads[day as usize], supplied, points)
    }

    // Notes something of a day of the sheet.
    fn set_note(&mut self, day: u32, note: DayNote)
        requires { IsDayOfSheet self.old day }
        ensures within { day < length self.old.notes }
        ensures after { SetsNote day note self.old self.new }
    {
        self.notes[day as usize] = note;
    }

    // Works out the generated figures of a day anew, beside the supplied ones that the sheet shows, and notes
    // what is known of it then.
    pub(crate) fn settle_day<E: Estimator>(&mut self, sources: &Sources<'_, E>, day: u32)
        requires { IsDayOfSheet self.old day }
        ensures stands { ChangesOnlyDays day (day + 1) self.old self.new }
        ensures notes { ChangesOnlyNotes day (day + 1) self.old self.new }
        ensures law { ForKnownOn day sources.now.ledger.now
            (E.Estimator.meaning sources.now.estimator.now) self.old (λ s h.
            ShowsSupplied s h self.old day → IsSettled s h self.new day) }
    {
        // An array of the greatest size, since a sheet allocates nothing.
        let mut all = [NO_POINT; POINTS as usize];
        let points = &mut all[0..self.points as usize];
        let note = self.generate(sources, day, points);
        self.show_generated(sources.ledger, day, points);
        self.set_note(day, note);
    }

    // Whether a day of the sheet shows its figures by what is noted of it, where it shows the supplied ones.
    fn stands_by_its_note(&self, day: u32) -> bool
        requires { IsDayOfSheet self.now day }
        ensures value { result ≡ stands_by_note self.now day }
        ensures law { (ledger : Ledger) → ForKnown ledger self.now (λ s h.
            IsReadyToSettle s h self.now day → result ≡ true → ShowsDay s h self.now day) }
    {
        match self.notes[day as usize] {
            DayNote::NothingKnown => false,
            DayNote::NothingEstimated => true,
            DayNote::EstimatesShown => match self.loads[day as usize] {
                Some(load) => self.sum_where(day, |_| true) <= load,
                None => true,
            },
            DayNote::NothingLeft => match self.loads[day as usize] {
                Some(load) => load <= self.sum_where(day, |_| true),
                None => false,
            },
        }
    }

    // Settles a day unless what is noted of it says that its figures stand.
    fn resettle_day<E: Estimator>(&mut self, sources: &Sources<'_, E>, day: u32)
        requires { IsDayOfSheet self.old day }
        ensures left { stands_by_note self.old day ≡ true → self.new ≡ self.old }
        ensures stands { ChangesOnlyDays day (day + 1) self.old self.new }
        ensures notes { ChangesOnlyNotes day (day + 1) self.old self.new }
        ensures law { ForKnownOn day sources.now.ledger.now
            (E.Estimator.meaning sources.now.estimator.now) self.old (λ s h.
            IsReadyToSettle s h self.old day → IsSettled s h self.new day) }
    {
        if !self.stands_by_its_note(day) {
            self.settle_day(sources, day);
        }
    }

    // Settles some days of the sheet, each unless its note says that it stands.
    pub(crate) fn settle_days<E: Estimator>(&mut self, sources: &Sources<'_, E>, days: DayRange)
        requires { (days.from ≤ days.to) × (days.to ≤ self.old.days) }
        ensures stands { ChangesOnlyDays days.from days.to self.old self.new }
        ensures notes { ChangesOnlyNotes days.from days.to self.old self.new }
        ensures law { ForKnown sources.now.ledger.now self.old (λ s h.
            MeansEstimates s h (E.Estimator.meaning sources.now.estimator.now)
            → ((d : ℕ) → days.from ≤ d → d < days.to → IsReadyToSettle s h self.old d)
            → (d : ℕ) → days.from ≤ d → d < days.to → IsSettled s h self.new d) }
    {
        for day in days.from..days.to {
            self.resettle_day(sources, day);
        }
    }
}
