//! Tests of `line_format`: lines good and damaged in every part of every tag, and what each is
//! answered; what each record is read as, and how records are written.
#![tactic(auto)]

#[cfg(test)]
mod rows;
#[cfg(test)]
mod table;
#[cfg(test)]
mod values;
#[cfg(test)]
mod writing;

#[cfg(test)]
mod tests {
    use super::rows::check_rows;
    use super::table;
    use std::test::Fail;

    #[test]
    fn openings(rt: HostRuntime) -> Result<(), Fail> {
        check_rows(&rt, &table::openings())
    }

    #[test]
    fn factors(rt: HostRuntime) -> Result<(), Fail> {
        check_rows(&rt, &table::factors())
    }

    #[test]
    fn enrolments(rt: HostRuntime) -> Result<(), Fail> {
        check_rows(&rt, &table::enrolments())
    }

    #[test]
    fn gate_days(rt: HostRuntime) -> Result<(), Fail> {
        check_rows(&rt, &table::gate_days())
    }

    #[test]
    fn interval_energies(rt: HostRuntime) -> Result<(), Fail> {
        check_rows(&rt, &table::interval_energies())
    }

    #[test]
    fn degree_days(rt: HostRuntime) -> Result<(), Fail> {
        check_rows(&rt, &table::degree_days())
    }

    #[test]
    fn readings(rt: HostRuntime) -> Result<(), Fail> {
        check_rows(&rt, &table::readings())
    }

    #[test]
    fn tags_and_lengths(rt: HostRuntime) -> Result<(), Fail> {
        check_rows(&rt, &table::tags_and_lengths())
    }
}
