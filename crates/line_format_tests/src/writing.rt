use line_format::{DegreeDays, Record, write_record};
use terms::Refusal;

const DEGREES: Record = Record::DegreeDays(DegreeDays {
    date: 20240701,
    count: 500,
});

const TOO_LONG: Record = Record::DegreeDays(DegreeDays {
    date: 20240701,
    count: 10_000_000_000,
});

#[test]
fn bytes_beyond_the_line_stay(rt: HostRuntime) {
    let mut buffer = [b'x'; 48];
    assert!(rt; write_record(&DEGREES, &mut buffer).is_ok());
    assert_eq!(rt;
        &buffer[..],
        b"DEGD  20240701       500                     \nxx".as_slice()
    );
}

#[test]
fn a_short_buffer_is_refused_and_stays(rt: HostRuntime) {
    let mut buffer = [b'x'; 45];
    assert_eq!(rt;
        write_record(&DEGREES, &mut buffer),
        Err(Refusal::ListTooShort)
    );
    assert_eq!(rt; buffer, [b'x'; 45]);
}

#[test]
fn what_does_not_fit_is_refused_before_a_short_buffer(rt: HostRuntime) {
    let mut buffer = [b'x'; 45];
    assert_eq!(rt;
        write_record(&TOO_LONG, &mut buffer),
        Err(Refusal::BeyondLimits)
    );
    assert_eq!(rt; buffer, [b'x'; 45]);
}

// The numbers and the layers under which refusals are reported.
#[test]
fn numbers_and_layers(rt: HostRuntime) {
    let date = 20240701;
    for (refusal, number, layer) in [
        (Refusal::MalformedLine, 1, 1),
        (Refusal::OutOfTurn, 2, 2),
        (Refusal::BeyondLimits, 3, 2),
        (Refusal::NoSuchDate, 4, 2),
        (Refusal::OutsideBook, 5, 3),
        (Refusal::NegativeEnergy, 6, 3),
        (Refusal::PointNotEnrolled, 7, 3),
        (Refusal::PointEnrolledAlready, 8, 3),
        (Refusal::StartIsNoMark, 9, 3),
        (Refusal::EndNotAllowed, 10, 3),
        (Refusal::CoveredDayWithoutLoad { date }, 11, 3),
        (Refusal::SoftOverFirm, 12, 3),
        (Refusal::ReadingPlacesFull, 13, 3),
        (Refusal::AskedDayWithoutLoad { date }, 14, 3),
        (Refusal::ListTooShort, 15, 3),
    ] {
        assert_eq!(rt; refusal.number(), number);
        assert_eq!(rt; refusal.layer().number(), layer);
    }
}
