use line_format::{
    DegreeDays, Enrolment, Factors, GateDay, IntervalEnergy, Opening, Reading, Record, read_line,
};
use terms::ReadingType;

// The values of each record stand in its own fields. A test for each tag, so that the one that
// fails is named.
#[test]
fn opening(rt: HostRuntime) {
    let line = b"OPEN  20240701         2      2000           \n";
    assert_eq!(rt;
        read_line(line),
        Ok(Record::Opening(Opening {
            first_date: 20240701,
            days: 2,
            unaccounted: 2000,
        }))
    );
}

#[test]
fn factors(rt: HostRuntime) {
    let line = b"FACT         2     30000      4000           \n";
    assert_eq!(rt;
        read_line(line),
        Ok(Record::Factors(Factors {
            point: 2,
            base_load: 30000,
            sensitivity: 4000,
        }))
    );
}

#[test]
fn enrolment(rt: HostRuntime) {
    let line = b"ENRL        12         3  20240701           \n";
    assert_eq!(rt;
        read_line(line),
        Ok(Record::Enrolment(Enrolment {
            point: 12,
            retailer: 3,
            start: 20240701,
        }))
    );
}

#[test]
fn gate_day(rt: HostRuntime) {
    let line = b"GATE  20240701       100         7           \n";
    assert_eq!(rt;
        read_line(line),
        Ok(Record::GateDay(GateDay {
            date: 20240701,
            energy_in: 100,
            energy_out: 7,
        }))
    );
}

#[test]
fn interval_energy(rt: HostRuntime) {
    let line = b"INTV  00000000         09999999999           \n";
    assert_eq!(rt;
        read_line(line),
        Ok(Record::IntervalEnergy(IntervalEnergy {
            date: 0,
            meter: 0,
            energy: 9_999_999_999,
        }))
    );
}

#[test]
fn degree_days(rt: HostRuntime) {
    let line = b"DEGD  20240701       500                     \n";
    assert_eq!(rt;
        read_line(line),
        Ok(Record::DegreeDays(DegreeDays {
            date: 20240701,
            count: 500,
        }))
    );
}

#[test]
fn reading(rt: HostRuntime) {
    let line = b"READ         1  20240701  20240703-999999999C\n";
    assert_eq!(rt;
        read_line(line),
        Ok(Record::Reading(Reading {
            point: 1,
            start: 20240701,
            end: 20240703,
            energy: -999_999_999,
            reading_type: ReadingType::CustomersOwn,
        }))
    );
}
