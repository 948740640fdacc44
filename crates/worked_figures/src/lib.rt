//! Figures worked by hand, proved of the definitions that every promise cites: loads, shares, degree days, estimates
//! by weather and by hot water. So the definitions say what the rules say at these values.
#![tactic(auto)]

ghost use Rattle.worked_figures.specs.Figures.{WorkedFigures};

/// The worked figures hold (`specs/Figures.antt` has them); there is nothing to compute.
#[tactic(auto, unfolding(allocation::specs::Sharing::part, allocation::specs::Sharing::share_at, allocation::specs::Sharing::shares))]
pub fn worked_figures_hold()
    ensures { WorkedFigures }
{}
