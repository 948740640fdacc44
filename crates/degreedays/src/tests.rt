// The word that is named where a day's weather is beyond its limits.
use super::reckoning::reckon;
use super::word::Word;
use estimates::Observations;
use std::test::Fail;

const COLD: Observations = Observations {
    temperatures: [100; 8],
    winds: [10; 16],
    sunshine: 50,
};

// The index of the word at fault.
fn index_at_fault(date: u32, observations: &Observations) -> Option<usize> {
    reckon(date, observations).err().map(Word::index)
}

#[test]
fn a_day_within_its_limits(rt: HostRuntime) {
    let reckoning_of = reckon(20240718, &COLD).map(|r| (r.day_of_year, r.count));
    assert_eq!(rt; reckoning_of, Ok((200, 1_094)));
}

#[test]
fn dates(rt: HostRuntime) {
    for (date, index) in [
        (20240229, None),
        (20230229, Some(0)),
        (20991231, None),
        (21000101, Some(0)),
        (20001231, Some(0)),
    ] {
        assert_eq!(rt; index_at_fault(date, &COLD), index);
    }
}

// The first word at fault is named, whatever comes after it.
#[test]
fn the_first_word_at_fault(rt: HostRuntime) {
    let mut day = COLD;
    day.sunshine = 161;
    assert_eq!(rt; index_at_fault(20240718, &day), Some(25));
    day.winds[15] = 101;
    assert_eq!(rt; index_at_fault(20240718, &day), Some(24));
    day.winds[0] = u32::MAX;
    assert_eq!(rt; index_at_fault(20240718, &day), Some(9));
    day.temperatures[7] = -201;
    assert_eq!(rt; index_at_fault(20240718, &day), Some(8));
    day.temperatures[2] = i32::MAX;
    assert_eq!(rt; index_at_fault(20240718, &day), Some(3));
    assert_eq!(rt; index_at_fault(20240732, &day), Some(0));
}

#[test]
fn a_word_and_its_index(rt: HostRuntime) {
    assert_eq!(rt; Word::Temperature(3).index(), 3);
    assert_eq!(rt; Word::Wind(16).index(), 24);
}

#[test]
fn a_word_is_shown_with_its_limits(rt: HostRuntime) -> Result<(), Fail> {
    for (word, shown) in [
        (
            Word::Date,
            "the date has to be one from 20010101 to 20991231",
        ),
        (
            Word::Temperature(3),
            "temperature 3 has to be from -200 to 500, in tenths of a degree",
        ),
        (Word::Wind(16), "wind 16 has to be from 0 to 100, in knots"),
        (
            Word::Sunshine,
            "sunshine has to be from 0 to 160, in tenths of an hour",
        ),
    ] {
        let text = format!(in rt.alloc(); "{word}")?;
        assert_eq!(rt; text.as_str(), shown);
    }
    Ok(())
}
