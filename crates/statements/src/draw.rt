ghost use Rattle.std.specs.Prelude.{◌≡◌, ℕ, ◌+◌, ◌<◌, ◌≤◌, min, IfOk, OnOk, Result};
ghost use Rattle.estimators.specs.Meaning.{meanings_of};
ghost use Rattle.terms.specs.declared.refusal.Refusal.{Refusal};
ghost use Rattle.statements.specs.Draws.{GivesSums, JudgesDraw, JudgesLoads, SumsAll, SumsRemainder, SumsRetailer, TellsRemainder};
ghost use Rattle.statements.specs.Spans.{sum_over};
ghost use Rattle.statements.specs.Limits.{largest_statement_sum};

use super::statement::Span;
use super::sums::{LARGEST_SUM, RETAILERS, Sums};
use book::{Book, Days};
use estimators::{Estimator, Weather};
use terms::Refusal;

// Judges that each of some days has a load. The first that has none is named.
fn judge_loads<E: Weather>(book: &Book, estimator: &E, days: Days) -> Result<(), Refusal>
    ensures { JudgesLoads days result book.now (meanings_of (E.meaning estimator.now) (E.under estimator.now)) }
{
    for place in 0..days.count {
        book.day_account(estimator, days.first + place)?;
    }
    Ok(())
}

// Judges the draw of a stage into a list that has places for what is wanted, and gives the days of its span. A
// first stage and a later one are judged alike: the book that a later one is given may be another.
fn judge_draw<E: Weather>(
    book: &Book,
    estimator: &E,
    span: Span,
    places: usize,
    wanted: usize,
) -> Result<Days, Refusal>
    ensures room { OnOk result (wanted ≤ places) }
    ensures law { JudgesDraw span wanted places result book.now
        (meanings_of (E.meaning estimator.now) (E.under estimator.now)) }
{
    let days = book.days_of(span.first, span.last)?;
    judge_loads(book, estimator, days)?;
    if places < wanted {
        return Err(Refusal::ListTooShort);
    }
    Ok(days)
}

// What some days come to, as each is asked by its place in the book.
fn sum_over<F: Fn(u32) -> Result<u64, Refusal>>(days: Days, ask: F) -> Result<u64, Refusal>
    requires { F.IsAlwaysCallable ask }
    ensures fits { IfOk result (λ sum. sum ≤ largest_statement_sum) }
    ensures law { (f : ℕ → ℕ)
        → ((k : ℕ) (r : Result ℕ Refusal) → k < days.count → F.post ask (days.first + k) r
        → r ≡ Result.Ok (f (days.first + k)))
        → result ≡ Result.Ok (min (sum_over f days.first days.count) largest_statement_sum) }
{
    let mut total = 0u64;
    for place in 0..days.count {
        total = total
            .saturating_add(ask(days.first + place)?)
            .min(LARGEST_SUM);
    }
    Ok(total)
}

// What the figures of a retailer's points come to over some days.
fn retailer_over(book: &Book, retailer: u32, days: Days) -> Result<u64, Refusal>
    ensures fits { IfOk result (λ sum. sum ≤ largest_statement_sum) }
    ensures law { SumsRetailer retailer days result book.now }
{
    sum_over(days, |day| book.day_sum(retailer, day))
}

// What is left to the host retailer on a day with a load.
fn remainder_on<E: Weather>(book: &Book, estimator: &E, day: u32) -> Result<u64, Refusal>
    ensures { TellsRemainder day result book.now
        (meanings_of (E.meaning estimator.now) (E.under estimator.now)) }
{
    Ok(book.day_account(estimator, day)?.remainder)
}

// What is left to the host retailer over some days: the remainders of the days added up. An excess lowers none
// of them.
fn remainder_over<E: Weather>(book: &Book, estimator: &E, days: Days) -> Result<u64, Refusal>
    ensures fits { IfOk result (λ sum. sum ≤ largest_statement_sum) }
    ensures law { SumsRemainder days result book.now (meanings_of (E.meaning estimator.now) (E.under estimator.now)) }
{
    sum_over(days, |day| remainder_on(book, estimator, day))
}

// The sums of some days with loads.
fn sums_over<E: Weather>(book: &Book, estimator: &E, days: Days) -> Result<Sums, Refusal>
    ensures { SumsAll days result book.now (meanings_of (E.meaning estimator.now) (E.under estimator.now)) }
{
    let remainder = remainder_over(book, estimator, days)?;
    let mut retailers = [0; RETAILERS];
    for place in 0..RETAILERS {
        retailers[place] = retailer_over(book, place as u32 + 1, days)?;
    }
    Ok(Sums {
        retailers,
        remainder,
    })
}

// The sums of a span, for a list of so many places of which so many are wanted.
pub(crate) fn sums_of<E: Weather>(
    book: &Book,
    estimator: &E,
    span: Span,
    places: usize,
    wanted: usize,
) -> Result<Sums, Refusal>
    ensures room { OnOk result (wanted ≤ places) }
    ensures law { GivesSums span wanted places result book.now
        (meanings_of (E.meaning estimator.now) (E.under estimator.now)) }
{
    let days = judge_draw(book, estimator, span, places, wanted)?;
    sums_over(book, estimator, days)
}
