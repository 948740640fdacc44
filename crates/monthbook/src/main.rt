//! A month in the life of a book: what it is told and asked, call by call with its answer, and then its sheet
//! and its days.
#![tactic(auto)]

mod calls;
mod display;
mod month;
mod tables;

use calls::{july_calls, questions};
use month::Month;
use tables::{print_calls, print_days, print_sheet};

fn main(rt: HostRuntime) -> anyhow::Result<()> {
    let heap = rt.alloc();
    let mut month = Month::open(heap)?;
    let calls = july_calls(heap)?;
    let answers = month.serve(heap, calls.as_slice())?;
    print_calls(&rt, calls.as_slice(), answers.as_slice())?;
    print_sheet(&rt, month.sheet())?;
    let asked = questions(heap)?;
    let accounts = month.serve(heap, asked.as_slice())?;
    print_days(&rt, accounts.as_slice())?;
    Ok(())
}
