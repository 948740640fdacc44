use super::sums::Sums;

/// The days from a first date to a last one, both included. Dates are numbers of eight digits, as 20240701.
#[derive(Clone, Copy, PartialEq, Eq, Debug)]
pub struct Span {
    /// The first date.
    pub first: u32,
    /// The last date, which the span includes.
    pub last: u32,
}

/// What a stage says: its span, and what the days of it come to.
#[derive(Clone, Copy, PartialEq, Eq, Debug)]
pub struct Statement {
    /// The days that it settles.
    pub span: Span,
    /// What they come to, in megajoules.
    pub sums: Sums,
}
