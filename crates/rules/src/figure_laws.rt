//! What holds of the daily figures of every history, as the promises of a book cite them.

ghost use Rattle.rules.specs.FigureLaws.{CountsMoveEstimates, EachDayBalances, EnrolmentsMoveLaterDays, EstimatedDaysShown, FiguresKeepLimits, LatestEntriesDecide, LoadsLeaveApartDays, LoadsMoveJoinedDays, LoadsMoveOneDay, ReadingsMoveCoveredDays, RetailersBalance, ScalingOnlyLowers, SuppliedIsNeverScaled};
ghost use Rattle.rules.specs.WorkedDays.{WorkedDays};

/// A scaled estimate never exceeds its estimate.
pub fn scaling_only_lowers()
    ensures { ScalingOnlyLowers }
{}

/// On each day with a load, figures and remainder make up load and excess.
pub fn each_day_balances()
    ensures { EachDayBalances }
{}

/// The retailers' day sums and the remainder make up load and excess.
pub fn retailers_balance()
    ensures { RetailersBalance }
{}

/// A covered day shows its reading's share, whatever the estimates.
pub fn supplied_is_never_scaled()
    ensures { SuppliedIsNeverScaled }
{}

/// A day that no reading covers shows the latest estimate, scaled where it must be, and nothing before the start day.
pub fn estimated_days_shown()
    ensures { EstimatedDaysShown }
{}

/// The latest entries and the accepted readings in their order decide every day.
pub fn latest_entries_decide()
    ensures { LatestEntriesDecide }
{}

/// A gate day or an interval energy moves only its day and days joined to it.
pub fn loads_move_joined_days()
    ensures { LoadsMoveJoinedDays }
{}

/// A gate day or an interval energy leaves days that share no supplying reading with its day.
pub fn loads_leave_apart_days()
    ensures { LoadsLeaveApartDays }
{}

/// A gate day or an interval energy moves the load of its day alone.
pub fn loads_move_one_day()
    ensures { LoadsMoveOneDay }
{}

/// A degree-day count moves only estimated points of its day.
pub fn counts_move_estimates()
    ensures { CountsMoveEstimates }
{}

/// A reading moves only days that it covers, and there its point and estimated points.
pub fn readings_move_covered_days()
    ensures { ReadingsMoveCoveredDays }
{}

/// An enrolment moves only days from its start on.
pub fn enrolments_move_later_days()
    ensures { EnrolmentsMoveLaterDays }
{}

/// No number of a sheet passes its limit, and every held reading can be shared over its days.
pub fn figures_keep_limits()
    ensures { FiguresKeepLimits }
{}

/// Days worked by hand.
pub fn worked_days_hold()
    ensures { WorkedDays }
{}
