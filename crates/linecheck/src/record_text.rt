use line_format::{
    DegreeDays, Enrolment, Factors, GateDay, IntervalEnergy, Opening, Reading, Record,
};
use std::fmt;

// A record, shown in words.
#[derive(Clone, Copy, PartialEq, Eq, Debug)]
pub(crate) struct RecordText(pub(crate) Record);

impl fmt::Display for RecordText {
    fn fmt<W: fmt::Write>(&self, f: &mut fmt::Formatter<W>) -> fmt::Result {
        match self.0 {
            Record::Opening(
                Opening {
                    first_date,
                    days,
                    unaccounted,
                },
            ) => write!(
                f,
                "opening: from {first_date}, {days} days, {unaccounted} ten-thousandths unaccounted for"
            ),
            Record::Factors(
                Factors {
                    point,
                    base_load,
                    sensitivity,
                },
            ) => write!(
                f,
                "factors: point {point}, base load {base_load} kJ a day, sensitivity {sensitivity} kJ a degree day"
            ),
            Record::Enrolment(
                Enrolment {
                    point,
                    retailer,
                    start,
                },
            ) => write!(
                f,
                "enrolment: point {point} with retailer {retailer} from {start}"
            ),
            Record::GateDay(
                GateDay {
                    date,
                    energy_in,
                    energy_out,
                },
            ) => write!(
                f,
                "gate day: {date}, {energy_in} MJ in, {energy_out} MJ out"
            ),
            Record::IntervalEnergy(
                IntervalEnergy {
                    date,
                    meter,
                    energy,
                },
            ) => { write!(f, "interval energy: {date}, meter {meter}, {energy} MJ") }
            Record::DegreeDays(DegreeDays { date, count }) => {
                write!(f, "degree days: {date}, {count} hundredths")
            }
            Record::Reading(
                Reading {
                    point,
                    start,
                    end,
                    energy,
                    reading_type,
                },
            ) => write!(
                f,
                "reading: point {point} from {start} to before {end}, {energy} MJ, {reading_type}"
            ),
        }
    }
}
