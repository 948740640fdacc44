// Energies spread over loads, held to shares worked out by hand; and requests that cannot be read.
use super::fault::Fault;
use super::request::read_request;
use super::table::spread;
use super::words::WordFault;
use std::process::Abort;
use std::test::Fail;
use terms::Refusal;

// An energy, the loads, and the shares.
const CASES: [(u64, &'static [u64], &'static [u64]); 16] = [
    (1000, &[100, 0, 200], &[332, 3, 665]),
    (1, &[100, 0, 200], &[0, 0, 1]),
    (0, &[100, 0, 200], &[0, 0, 0]),
    (7, &[0], &[7]),
    (0, &[0], &[0]),
    (10_000_000, &[1], &[10_000_000]),
    (10_000_000, &[1_000_000_000], &[10_000_000]),
    (2, &[0, 0, 0], &[0, 1, 1]),
    (3, &[0, 0, 0], &[1, 1, 1]),
    (4, &[0, 0, 0], &[1, 1, 2]),
    (100, &[50, 50], &[50, 50]),
    (99, &[50, 50], &[49, 50]),
    (10, &[1, 2, 3, 4], &[1, 2, 3, 4]),
    (10, &[4, 3, 2, 1], &[4, 3, 2, 1]),
    (1, &[1_000_000_000, 0], &[0, 1]),
    (5, &[1, 1_000_000_000, 1], &[0, 4, 1]),
];

#[test]
fn worked_rows(rt: HostRuntime) -> Result<(), Fail> {
    for (energy, loads, shares) in CASES {
        let lines = spread(rt.alloc(), energy, loads)?;
        assert_eq!(rt; lines.len(), shares.len());
        for (line, share) in lines.iter().zip(shares) {
            assert_eq!(rt; line.share, *share, "of {energy}");
        }
    }
    Ok(())
}

fn refused(rt: &(impl Abort + AllocGlobal), energy: u64, loads: &[u64]) -> Result<(), Fail> {
    let answer = spread(rt.alloc(), energy, loads);
    assert_eq!(rt; answer.err(), Some(Fault::Refused(Refusal::BeyondLimits)));
    Ok(())
}

#[test]
fn beyond_limits(rt: HostRuntime) -> Result<(), Fail> {
    refused(&rt, 10_000_001, &[1])?;
    refused(&rt, 1, &[])?;
    refused(&rt, 1, &[1, 1_000_000_001])?;
    refused(&rt, 1, &[1; 401])?;
    let most = spread(rt.alloc(), 10_000_000, &[1_000_000_000; 400])?;
    assert_eq!(rt; most.len(), 400);
    Ok(())
}

fn at_fault(rt: &(impl Abort + AllocGlobal), words: &[&str], fault: Fault) -> Result<(), Fail> {
    let heap = rt.alloc();
    let mut texts = Vec::new(heap);
    for word in words {
        texts.push(String::from_str(heap, *word)?)?;
    }
    assert_eq!(rt; read_request(heap, texts.as_slice()).err(), Some(fault));
    Ok(())
}

fn no_number(index: usize) -> Fault {
    Fault::Word {
        index,
        why: WordFault::NotANumber,
    }
}

fn beyond(index: usize) -> Fault {
    Fault::Word {
        index,
        why: WordFault::BeyondLimit,
    }
}

#[test]
fn words_at_fault(rt: HostRuntime) -> Result<(), Fail> {
    at_fault(&rt, &[], Fault::TooFewWords)?;
    at_fault(&rt, &["5"], Fault::TooFewWords)?;
    at_fault(&rt, &["5"; 402], Fault::TooManyWords)?;
    at_fault(&rt, &["", "5"], no_number(0))?;
    at_fault(&rt, &["-5", "5"], no_number(0))?;
    at_fault(&rt, &["5", "5", "5 "], no_number(2))?;
    at_fault(&rt, &["10000001", "x"], beyond(0))?;
    at_fault(&rt, &["5", "1000000001"], beyond(1))?;
    let large = "99999999999999999999999999999999999999999";
    at_fault(&rt, &["5", large], beyond(1))
}

#[test]
fn faults_in_words(rt: HostRuntime) -> Result<(), Fail> {
    let too_many = format!(in rt.alloc(); "{}", Fault::TooManyWords)?;
    assert_eq!(rt;
        too_many.as_str(),
        "too many words: the loads of 400 days at most"
    );
    let word = format!(in rt.alloc(); "{}", beyond(2))?;
    assert_eq!(rt; word.as_str(), "word 3 is beyond its limit");
    Ok(())
}
