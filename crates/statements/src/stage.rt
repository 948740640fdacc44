ghost use Rattle.std.specs.Prelude.{◌≡◌, length, ◌≤◌, IfErr, IfOk, OnErr};
ghost use Rattle.estimators.specs.Meaning.{meanings_of};
ghost use Rattle.statements.specs.Draws.{DrawsByLaw};
ghost use Rattle.statements.specs.Limits.{later_places, sum_count};
ghost use Rattle.statements.specs.Lists.{first_list, later_list};

use super::draw::sums_of;
use super::statement::{Span, Statement};
use super::sums::{LATER_PLACES, SUMS};
use book::Book;
use estimators::{Estimator, Weather};
use std::marker::PhantomData;
use terms::Refusal;

/// Marks the first stage of a span's settlement.
#[derive(Debug)]
pub struct Preliminary;

/// Marks the second stage, which stands until it is revised.
#[derive(Debug)]
pub struct Final;

/// Marks a third or later stage, which can be revised once more.
#[derive(Debug)]
pub struct Revised;

/// The stages that can be revised: a final one, and one that was revised already.
pub trait Revisable {}

impl Revisable for Final {}

impl Revisable for Revised {}

/// A stage of a span's settlement, of one kind: `Preliminary`, `Final` or `Revised`.
///
/// It is no `Clone`, `Copy` or `Drop`: each stage is spent once, by the next or by `settle`.
#[derive(Debug)]
pub struct Stage<K> {
    statement: Statement,
    kind: PhantomData<K>,
}

/// Why the next stage was not drawn, and the stage as it was, which may not be forgotten.
#[derive(Debug)]
pub struct Undrawn<K> {
    /// The reason.
    pub refusal: Refusal,
    /// The stage, the very one that was given.
    pub stage: Stage<K>,
}

impl<K> Stage<K> {
    /// What the stage says.
    pub fn statement(&self) -> Statement
        ensures { result ≡ self.now.statement }
    {
        self.statement
    }

    /// Ends the settlement of the span with this stage.
    pub fn settle(self) -> Statement
        ensures { result ≡ self.statement }
    {
        let Stage { statement, kind: _ } = self;
        statement
    }

    // Draws the next stage of the same span: what was added to each sum is written, and then the sums.
    fn draw_next<N, E: Weather>(
        self,
        book: &Book,
        estimator: &E,
        list: &mut [i64],
    ) -> Result<Stage<N>, Undrawn<K>>
        ensures refused { IfErr result (λ e. (e.stage ≡ self) × (list.new ≡ list.old)) }
        ensures written { IfOk result
            (λ stage. list.new ≡ later_list self.statement.sums stage.statement.sums list.old) }
        ensures law { DrawsByLaw (λ stage. stage.statement) (λ e. e.refusal) self.statement.span
            later_places (length list.old) book.now
            (meanings_of (E.meaning estimator.now) (E.under estimator.now)) result }
    {
        let span = self.statement.span;
        match sums_of(book, estimator, span, list.len(), LATER_PLACES) {
            Ok(sums) => {
                let old = self.settle();
                sums.write_after(&old.sums, list);
                Ok(Stage {
                    statement: Statement { span, sums },
                    kind: PhantomData,
                })
            }
            Err(refusal) => Err(Undrawn {
                refusal,
                stage: self,
            }),
        }
    }
}

impl Stage<Preliminary> {
    /// Draws the first stage of a span, and writes its sums into the first 17 places of a list: each
    /// retailer's, in megajoules and in the order of their numbers, then the host remainder's.
    ///
    /// Refusals: `NoSuchDate` (4), `OutsideBook` (5) and `EndNotAllowed` (10) as `Book::days_of` gives them;
    /// `AskedDayWithoutLoad` (14) with the first day of the span that has no load; `ListTooShort` (15).
    /// A refused draw leaves the list as it was.
    pub fn draw<E: Weather>(
        book: &Book,
        estimator: &E,
        span: Span,
        list: &mut [i64],
    ) -> Result<Stage<Preliminary>, Refusal>
        ensures refused { OnErr result (list.new ≡ list.old) }
        ensures written { IfOk result (λ stage. list.new ≡ first_list stage.statement.sums list.old) }
        ensures law { DrawsByLaw (λ stage. stage.statement) (λ e. e)
            span sum_count (length list.old) book.now
            (meanings_of (E.meaning estimator.now) (E.under estimator.now)) result }
    {
        let sums = sums_of(book, estimator, span, list.len(), SUMS)?;
        sums.write(list);
        Ok(Stage {
            statement: Statement { span, sums },
            kind: PhantomData,
        })
    }

    /// Draws the final stage of the same span from a book, which may be another, and writes 34 numbers into the
    /// first places of a list: what was added to each sum, which may be negative, and then the sums.
    ///
    /// Refusals as of `draw`. A refused draw gives the stage back, and leaves the list as it was.
    pub fn draw_final<E: Weather>(
        self,
        book: &Book,
        estimator: &E,
        list: &mut [i64],
    ) -> Result<Stage<Final>, Undrawn<Preliminary>>
        ensures refused { IfErr result (λ e. (e.stage ≡ self) × (list.new ≡ list.old)) }
        ensures written { IfOk result
            (λ stage. list.new ≡ later_list self.statement.sums stage.statement.sums list.old) }
        ensures law { DrawsByLaw (λ stage. stage.statement) (λ e. e.refusal) self.statement.span
            later_places (length list.old) book.now
            (meanings_of (E.meaning estimator.now) (E.under estimator.now)) result }
    {
        self.draw_next(book, estimator, list)
    }
}

impl<K: Revisable> Stage<K> {
    /// Draws a revision of the same span, and writes it as `draw_final` does.
    ///
    /// Refusals as of `draw`. A refused draw gives the stage back, and leaves the list as it was.
    pub fn draw_revision<E: Weather>(
        self,
        book: &Book,
        estimator: &E,
        list: &mut [i64],
    ) -> Result<Stage<Revised>, Undrawn<K>>
        ensures refused { IfErr result (λ e. (e.stage ≡ self) × (list.new ≡ list.old)) }
        ensures written { IfOk result
            (λ stage. list.new ≡ later_list self.statement.sums stage.statement.sums list.old) }
        ensures law { DrawsByLaw (λ stage. stage.statement) (λ e. e.refusal) self.statement.span
            later_places (length list.old) book.now
            (meanings_of (E.meaning estimator.now) (E.under estimator.now)) result }
    {
        self.draw_next(book, estimator, list)
    }
}
