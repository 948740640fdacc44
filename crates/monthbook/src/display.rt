// Calls and answers in words.
use book::Answer;
use rules::{Call, Delivery};
use sheet::Account;
use std::fmt;
use terms::Refusal;

// A date by its digits: a call may name a date that does not exist.
#[derive(Clone, Copy, PartialEq, Eq, Debug)]
pub(crate) struct DateShown(pub u32);

impl fmt::Display for DateShown {
    fn fmt<W: fmt::Write>(&self, f: &mut fmt::Formatter<W>) -> fmt::Result {
        let year = self.0 / 10_000;
        let month = self.0 / 100 % 100;
        let day = self.0 % 100;
        write!(f, "{year}-{month:02}-{day:02}")
    }
}

#[derive(Clone, Copy, PartialEq, Eq, Debug)]
pub(crate) struct CallShown(pub Call);

impl fmt::Display for CallShown {
    fn fmt<W: fmt::Write>(&self, f: &mut fmt::Formatter<W>) -> fmt::Result {
        match self.0 {
            Call::Enrol {
                point,
                retailer,
                start,
            } => write!(
                f,
                "point {point} enrolled with retailer {retailer} from {}",
                DateShown(start)
            ),
            Call::EnterGate {
                date,
                energy_in,
                energy_out,
            } => write!(
                f,
                "gate day {}, {energy_in} MJ in and {energy_out} MJ out",
                DateShown(date)
            ),
            Call::EnterInterval {
                date,
                meter,
                energy,
            } => write!(
                f,
                "interval meter {meter} on {}, {energy} MJ",
                DateShown(date)
            ),
            Call::EnterDegreeDays { date, count } => {
                write!(f, "degree days of {}, {count} hundredths", DateShown(date))
            }
            Call::EnterReading(
                Delivery {
                    point,
                    start,
                    end,
                    energy,
                    reading_type,
                },
            ) => write!(
                f,
                "{reading_type} reading of point {point} from {} to {}, {energy} MJ",
                DateShown(start),
                DateShown(end)
            ),
            Call::AskFigure { point, date } => {
                write!(f, "the figure of point {point} on {}", DateShown(date))
            }
            Call::AskDay { date } => write!(f, "the account of {}", DateShown(date)),
            Call::AskRetailer { retailer, date } => {
                write!(f, "the sum of retailer {retailer} on {}", DateShown(date))
            }
        }
    }
}

#[derive(Clone, Copy, PartialEq, Eq, Debug)]
pub(crate) struct AnswerShown(pub Result<Answer, Refusal>);

impl fmt::Display for AnswerShown {
    fn fmt<W: fmt::Write>(&self, f: &mut fmt::Formatter<W>) -> fmt::Result {
        match self.0 {
            Ok(Answer::Accepted) => write!(f, "accepted"),
            Ok(Answer::Figure(energy) | Answer::RetailerSum(energy)) => write!(f, "{energy} MJ"),
            Ok(Answer::Day(figures)) => write!(f, "{}", DayShown(figures)),
            Err(refusal) => write!(f, "{}", RefusalShown(refusal)),
        }
    }
}

// The six numbers of a day.
#[derive(Clone, Copy, PartialEq, Eq, Debug)]
pub(crate) struct DayShown(pub Account);

impl fmt::Display for DayShown {
    fn fmt<W: fmt::Write>(&self, f: &mut fmt::Formatter<W>) -> fmt::Result {
        let Account {
            load,
            supplied,
            generated,
            remainder,
            excess,
            missing,
        } = self.0;
        write!(
            f,
            "load {load}, supplied {supplied}, generated {generated}, remainder {remainder}, excess {excess} MJ, {missing} missing"
        )
    }
}

// A refusal by its number, its reason and the day that it names.
#[derive(Clone, Copy, PartialEq, Eq, Debug)]
pub(crate) struct RefusalShown(pub Refusal);

impl fmt::Display for RefusalShown {
    fn fmt<W: fmt::Write>(&self, f: &mut fmt::Formatter<W>) -> fmt::Result {
        let refusal = self.0;
        let number = refusal.number();
        match refusal.date() {
            Some(date) => write!(f, "refused, {number}, {refusal}: {}", DateShown(date)),
            None => write!(f, "refused, {number}, {refusal}"),
        }
    }
}
