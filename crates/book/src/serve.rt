ghost use Rattle.std.specs.Prelude.{◌≡◌, true, false, T, length, take, drop, is_ok, IfOk, IfErr, OnErr, OnOk, nat_le};
ghost use Rattle.std.specs.List.{list_all};
ghost use Rattle.book.specs.Book.{InEveryCase, IsBookOf, IsServedByLaw};
ghost use Rattle.book.specs.Law.{Law};
ghost use Rattle.estimators.specs.Meaning.{meanings_of};
ghost use Rattle.book.specs.Opening.{OpensByRules, opening_case};
ghost use Rattle.book.specs.Replies.{answer_reply, changes_nothing};
ghost use Rattle.terms.specs.Answers.{IsAcceptedWhen};
ghost use Rattle.terms.specs.RefusalNumbers.{list_too_short};

use super::book::{Book, Lists};
use estimators::{Estimator, Weather};
use ledger::{OpeningRequest, Unopened};
use rules::Call;
use sheet::Account;
use terms::Refusal;

/// What a call that is not refused is answered. Energies are in megajoules.
#[derive(Clone, Copy, PartialEq, Eq, Debug)]
pub enum Answer {
    /// An entry is accepted.
    Accepted,
    /// The figure of a point on a day.
    Figure(u64),
    /// The account of a day.
    Day(Account),
    /// What the figures of a retailer's points come to on a day.
    RetailerSum(u64),
}

/// A book that was opened, and whether its calls were served: `ListTooShort` (15) where there was no room for
/// all answers.
#[derive(Drop)]
pub struct Served {
    /// The book, whether or not its calls were served.
    pub book: Book,
    /// Whether they were.
    pub outcome: Result<(), Refusal>,
}

impl Book {
    // One call, whichever it is.
    fn serve_one<E: Weather>(&mut self, estimator: &mut E, call: Call) -> Result<Answer, Refusal>
        ensures kept { changes_nothing result ≡ true → (self.new ≡ self.old) × (estimator.new ≡ estimator.old) }
        ensures law { IsServedByLaw call answer_reply result
            self.old (meanings_of (E.meaning estimator.old) (E.under estimator.old))
            self.new (meanings_of (E.meaning estimator.new) (E.under estimator.new)) }
    {
        match call {
            Call::Enrol {
                point,
                retailer,
                start,
            } => self
                .enrol(estimator, point, retailer, start)
                .map(|()| Answer::Accepted),
            Call::EnterGate {
                date,
                energy_in,
                energy_out,
            } => self
                .enter_gate(estimator, date, energy_in, energy_out)
                .map(|()| Answer::Accepted),
            Call::EnterInterval {
                date,
                meter,
                energy,
            } => self
                .enter_interval(estimator, date, meter, energy)
                .map(|()| Answer::Accepted),
            Call::EnterDegreeDays { date, count } => {
                self.enter_degree_days(estimator, date, count)
                    .map(|()| Answer::Accepted)
            }
            Call::EnterReading(delivery) => self
                .enter_reading(estimator, delivery)
                .map(|()| Answer::Accepted),
            Call::AskFigure { point, date } => self.ask_figure(point, date).map(Answer::Figure),
            Call::AskDay { date } => self.ask_day(estimator, date).map(Answer::Day),
            Call::AskRetailer { retailer, date } => {
                self.ask_retailer(retailer, date).map(Answer::RetailerSum)
            }
        }
    }

    /// Serves calls in their order, with the answer to each in its place. A call that is refused is the answer,
    /// and those after it are served all the same. Later places of the answers stay as they are.
    ///
    /// Refusal: `ListTooShort` (15) where there is no room for all answers, and then no call is served.
    pub fn serve<E: Weather>(
        &mut self,
        estimator: &mut E,
        calls: &[Call],
        answers: &mut [Result<Answer, Refusal>],
    ) -> Result<(), Refusal>
        ensures answer { IsAcceptedWhen result (nat_le (length calls.now) (length answers.old)) list_too_short }
        ensures refused { OnErr result
            ((self.new ≡ self.old) × (estimator.new ≡ estimator.old) × (answers.new ≡ answers.old)) }
        ensures rest { drop (length calls.now) answers.new ≡ drop (length calls.now) answers.old }

        // Questions and refused calls leave book and estimator as they were.
        ensures kept { T (list_all changes_nothing (take (length calls.now) answers.new)) → is_ok result ≡ true
            → (self.new ≡ self.old) × (estimator.new ≡ estimator.old) }
        ensures law { OnOk result
            (InEveryCase self.old (meanings_of (E.meaning estimator.old) (E.under estimator.old))
            (λ c. Law c calls.now answers.new self.new
            (meanings_of (E.meaning estimator.new) (E.under estimator.new)))) }
    {
        if answers.len() < calls.len() {
            return Err(Refusal::ListTooShort);
        }
        for (i, call) in calls.iter().enumerate() {
            answers[i] = self.serve_one(estimator, *call);
        }
        Ok(())
    }

    /// Opens a book and serves calls on it. Where the opening is refused, as by `open`, lists, estimator and
    /// answers are as they were.
    pub fn open_and_serve<E: Weather>(
        request: OpeningRequest,
        lists: Lists,
        estimator: &mut E,
        calls: &[Call],
        answers: &mut [Result<Answer, Refusal>],
    ) -> Result<Served, Unopened<Lists>>
        ensures opened { OpensByRules request lists result }
        ensures refused { IfErr result
            (λ e. (e.lists ≡ lists) × (estimator.new ≡ estimator.old) × (answers.new ≡ answers.old)) }
        ensures served { IfOk result
            (λ served. IsAcceptedWhen served.outcome (nat_le (length calls.now) (length answers.old))
            list_too_short) }
        ensures unserved { IfOk result
            (λ served. is_ok served.outcome ≡ false
            → (estimator.new ≡ estimator.old) × (answers.new ≡ answers.old)
            × IsBookOf
            (opening_case request lists (meanings_of (E.meaning estimator.old) (E.under estimator.old)))
            served.book (meanings_of (E.meaning estimator.old) (E.under estimator.old))) }
        ensures rest { OnOk result (drop (length calls.now) answers.new ≡ drop (length calls.now) answers.old) }
        ensures law { IfOk result
            (λ served. is_ok served.outcome ≡ true
            → Law
            (opening_case request lists (meanings_of (E.meaning estimator.old) (E.under estimator.old)))
            calls.now answers.new served.book
            (meanings_of (E.meaning estimator.new) (E.under estimator.new))) }
    {
        let mut book = Book::open(request, lists)?;
        let outcome = book.serve(estimator, calls, answers);
        Ok(Served { book, outcome })
    }
}
