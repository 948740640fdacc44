// Deliveries of meter data, as they come in over a month.
use ledger::{Ledger, Lists, OpeningRequest};
use rules::Delivery;
use std::alloc::Global;
use std::test::Fail;
use terms::{ReadingType, Refusal};

// A reading of a point as it is delivered.
fn reading(
    point: u32,
    start_date: u32,
    end_date: u32,
    energy: i64,
    reading_type: ReadingType,
) -> Delivery {
    Delivery {
        point,
        start: start_date,
        end: end_date,
        energy,
        reading_type,
    }
}

// A ledger of five days from 1 July 2024 and two points, both enrolled from the first day, with so
// many reading places.
fn opened(heap: Global, reading_places: usize) -> Result<Ledger, Fail> {
    let lists = Lists {
        intervals: vec![in heap; 0; 160]?,
        places: vec![in heap; None; reading_places]?,
    };
    let request = OpeningRequest {
        first_date: 20240701,
        days: 5,
        points: 2,
        unaccounted: 0,
    };
    let mut ledger = Ledger::open(request, lists)?;
    ledger.enrol(1, 1, 20240701)?;
    ledger.enrol(2, 2, 20240701)?;
    Ok(ledger)
}

// The same with a gate entry for each day.
fn with_loads(heap: Global, reading_places: usize) -> Result<Ledger, Fail> {
    let mut ledger = opened(heap, reading_places)?;
    for day in 1..6 {
        ledger.enter_gate(20240700 + day, 100, 0)?;
    }
    Ok(ledger)
}

#[test]
fn estimate_then_actual(rt: HostRuntime) -> Result<(), Fail> {
    let mut ledger = with_loads(rt.alloc(), 1)?;
    ledger.enter_reading(reading(1, 20240701, 20240703, 50, ReadingType::Estimated))?;
    ledger.enter_reading(reading(1, 20240701, 20240703, 60, ReadingType::Actual))?;
    assert!(rt; ledger.is_mark(1, 2));
    Ok(())
}

#[test]
fn actual_over_several_estimates(rt: HostRuntime) -> Result<(), Fail> {
    let mut ledger = with_loads(rt.alloc(), 4)?;
    ledger.enter_reading(reading(1, 20240701, 20240702, 50, ReadingType::Estimated))?;
    ledger.enter_reading(reading(1, 20240702, 20240704, 50, ReadingType::CustomersOwn))?;
    assert!(rt; ledger.is_mark(1, 1));
    ledger.enter_reading(reading(1, 20240701, 20240704, 90, ReadingType::Actual))?;
    assert!(rt; !ledger.is_mark(1, 1));
    assert!(rt; ledger.is_mark(1, 3));
    Ok(())
}

// Inside what is held, and behind a gap; before there is a reading, every day but the start day.
#[test]
fn misaligned_starts(rt: HostRuntime) -> Result<(), Fail> {
    let mut ledger = with_loads(rt.alloc(), 4)?;
    assert_eq!(rt;
        ledger.enter_reading(reading(1, 20240702, 20240704, 50, ReadingType::Actual)),
        Err(Refusal::StartIsNoMark)
    );
    ledger.enter_reading(reading(1, 20240701, 20240703, 50, ReadingType::Actual))?;
    for (point, start_date) in [(1, 20240702), (1, 20240704), (2, 20240702), (2, 20240703)] {
        for reading_type in [ReadingType::Actual, ReadingType::Estimated] {
            assert_eq!(rt;
                ledger.enter_reading(reading(point, start_date, 20240705, 50, reading_type)),
                Err(Refusal::StartIsNoMark)
            );
        }
    }
    Ok(())
}

#[test]
fn negative_energy(rt: HostRuntime) -> Result<(), Fail> {
    let mut ledger = with_loads(rt.alloc(), 4)?;
    assert_eq!(rt;
        ledger.enter_reading(reading(1, 20240701, 20240704, -5, ReadingType::Actual)),
        Err(Refusal::NegativeEnergy)
    );
    assert_eq!(rt;
        ledger.enter_reading(reading(3, 20240701, 20240704, -5, ReadingType::Actual)),
        Err(Refusal::BeyondLimits)
    );
    Ok(())
}

#[test]
fn estimate_over_actual(rt: HostRuntime) -> Result<(), Fail> {
    let mut ledger = with_loads(rt.alloc(), 4)?;
    ledger.enter_reading(reading(1, 20240701, 20240703, 50, ReadingType::Actual))?;
    assert_eq!(rt;
        ledger.enter_reading(reading(1, 20240701, 20240704, 50, ReadingType::Estimated)),
        Err(Refusal::SoftOverFirm)
    );
    ledger.enter_reading(reading(1, 20240701, 20240704, 50, ReadingType::Substituted))?;
    Ok(())
}

#[test]
fn actual_back_to_an_earlier_mark(rt: HostRuntime) -> Result<(), Fail> {
    let mut ledger = with_loads(rt.alloc(), 4)?;
    ledger.enter_reading(reading(1, 20240701, 20240702, 50, ReadingType::Estimated))?;
    ledger.enter_reading(reading(1, 20240702, 20240703, 50, ReadingType::Estimated))?;
    ledger.enter_reading(reading(1, 20240703, 20240704, 50, ReadingType::Estimated))?;
    ledger.enter_reading(reading(1, 20240702, 20240706, 90, ReadingType::Actual))?;
    assert!(rt; ledger.is_mark(1, 1));
    assert!(rt; !ledger.is_mark(1, 2));
    assert!(rt; ledger.is_mark(1, 5));
    Ok(())
}

// An actual reading that was delayed, and an estimated one.
#[test]
fn delayed_inside_a_longer_estimate(rt: HostRuntime) -> Result<(), Fail> {
    let mut ledger = with_loads(rt.alloc(), 4)?;
    ledger.enter_reading(reading(1, 20240701, 20240705, 50, ReadingType::Estimated))?;
    for reading_type in [ReadingType::Actual, ReadingType::Estimated] {
        assert_eq!(rt;
            ledger.enter_reading(reading(1, 20240701, 20240703, 20, reading_type)),
            Err(Refusal::EndNotAllowed)
        );
    }
    assert!(rt; ledger.is_mark(1, 4));
    assert!(rt; !ledger.is_mark(1, 2));
    Ok(())
}

#[test]
fn first_day_without_a_load(rt: HostRuntime) -> Result<(), Fail> {
    let mut ledger = opened(rt.alloc(), 4)?;
    ledger.enter_gate(20240701, 100, 0)?;
    assert_eq!(rt;
        ledger.enter_reading(reading(1, 20240701, 20240704, 50, ReadingType::Actual)),
        Err(Refusal::CoveredDayWithoutLoad { date: 20240702 })
    );
    Ok(())
}

#[test]
fn one_place(rt: HostRuntime) -> Result<(), Fail> {
    let mut ledger = with_loads(rt.alloc(), 1)?;
    ledger.enter_reading(reading(1, 20240701, 20240703, 50, ReadingType::Actual))?;
    assert_eq!(rt;
        ledger.enter_reading(reading(2, 20240701, 20240703, 50, ReadingType::Actual)),
        Err(Refusal::ReadingPlacesFull)
    );
    ledger.enter_reading(reading(1, 20240701, 20240704, 50, ReadingType::Actual))?;
    Ok(())
}

#[test]
fn load_of_a_day(rt: HostRuntime) -> Result<(), Fail> {
    let mut ledger = opened(rt.alloc(), 1)?;
    ledger.enter_interval(20240701, 3, 900)?;
    ledger.enter_interval(20240701, 3, 800)?;
    assert_eq!(rt; ledger.load(0), None);
    ledger.enter_gate(20240701, 5000, 200)?;
    assert_eq!(rt; ledger.load(0), Some(4000));
    assert_eq!(rt;
        ledger.enrol(1, 2, 20240701),
        Err(Refusal::PointEnrolledAlready)
    );
    assert_eq!(rt;
        ledger.judge_degree_days(20240706, 500),
        Err(Refusal::OutsideBook)
    );
    Ok(())
}
