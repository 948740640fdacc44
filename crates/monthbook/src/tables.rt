// The three lists that the program prints.
use super::calls::{NORTHERN, QUESTIONS, SOUTHERN};
use super::display::{AnswerShown, CallShown, DateShown};
use super::month::{DAYS, FIRST, LAST, POINTS};
use book::Answer;
use rules::Call;
use sheet::Account;
use std::io;
use terms::Refusal;

// Each call with its number and its answer.
pub(crate) fn print_calls(
    rt: &HostRuntime,
    calls: &[Call],
    answers: &[Result<Answer, Refusal>],
) -> io::Result<()> {
    println!(rt; "What the book is told and asked, and what it answers")?;
    for (i, (call, answer)) in calls.iter().zip(answers.iter()).enumerate() {
        let call = CallShown(*call);
        let answer = AnswerShown(*answer);
        println!(rt; "{:>4}  {call}: {answer}", i + 1)?;
    }
    Ok(())
}

// A row for each day, a column for each point.
pub(crate) fn print_sheet(rt: &HostRuntime, figures: &[u64]) -> io::Result<()> {
    println!(rt; "")?;
    println!(rt; "The sheet, in MJ")?;
    println!(rt; "day          point 1   point 2   point 3")?;
    for (date, row) in (FIRST..=LAST).zip(figures.chunks_exact(POINTS)) {
        let day = DateShown(date);
        print!(rt; "{day}")?;
        for figure in row {
            print!(rt; " {figure:>9}")?;
        }
        println!(rt; "")?;
    }
    Ok(())
}

// The account of a day and both retailers' sums.
#[derive(Clone, Copy, PartialEq, Eq, Debug)]
struct DayAccount {
    account: Account,
    northern: u64,
    southern: u64,
}

// The account that the answers about a day give.
fn account_in(answers: &[Result<Answer, Refusal>]) -> Option<DayAccount> {
    match answers {
        [
            Ok(Answer::Day(account)),
            Ok(Answer::RetailerSum(northern)),
            Ok(Answer::RetailerSum(southern)),
        ] => {
            Some(DayAccount {
                account: *account,
                northern: *northern,
                southern: *southern,
            })
        }
        _ => None,
    }
}

// The six numbers of each day, and the retailers' sums.
pub(crate) fn print_days(rt: &HostRuntime, answers: &[Result<Answer, Refusal>]) -> io::Result<()> {
    println!(rt; "")?;
    println!(rt; "The days, in MJ, and how many estimates are missing")?;
    println!(rt;
        "day             load  supplied  generated  remainder  excess  missing  retailer {NORTHERN}  retailer {SOUTHERN}"
    )?;
    for (date, asked) in (FIRST..=LAST).zip(answers.chunks_exact(QUESTIONS)) {
        match account_in(asked) {
            Some(day) => print_account(rt, DateShown(date), day)?,
            None => println!(rt; "{}  no account", DateShown(date))?,
        }
    }
    Ok(())
}

fn print_account(rt: &HostRuntime, date: DateShown, day: DayAccount) -> io::Result<()> {
    let Account {
        load,
        supplied,
        generated,
        remainder,
        excess,
        missing,
    } = day.account;
    let northern = day.northern;
    let southern = day.southern;
    println!(rt;
        "{date} {load:>9} {supplied:>9} {generated:>10} {remainder:>10} {excess:>7} {missing:>8} {northern:>11} {southern:>11}"
    )
}
