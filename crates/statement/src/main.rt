//! A month settled by stages: what each retailer's points and the host remainder come to, and what changes afterwards.
#![tactic(auto)]

mod calls;
mod month;
mod settlement;
mod tables;

use settlement::settle;
use tables::{print_first, print_later, print_span, print_together};

fn main(rt: HostRuntime) -> anyhow::Result<()> {
    let (settlement, statement) = settle(rt.alloc())?;
    print_span(&rt, statement.span)?;
    print_first(&rt, &settlement.preliminary)?;
    print_later(&rt, "final", &settlement.last)?;
    print_later(&rt, "revised", &settlement.revised)?;
    print_together(&rt, &settlement)?;
    Ok(())
}
