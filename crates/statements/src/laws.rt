ghost use Rattle.statements.specs.Laws.{AdjustmentsLeadOn, SpansAreJudgedAndSummed, StatementsBalance};

/// An adjustment added to the sum before it gives the new sum, and the adjustments of all stages what the last
/// has more than the first.
pub fn adjustments_lead_on()
    ensures { AdjustmentsLeadOn }
{}

/// What is known of a span that is not refused, and of sums over it.
pub fn spans_are_judged_and_summed()
    ensures { SpansAreJudgedAndSummed }
{}

/// The sums of a span with loads come to its loads and its excesses.
pub fn statements_balance()
    ensures { StatementsBalance }
{}
