ghost use Rattle.std.specs.Prelude.{length};
ghost use Rattle.apportion.specs.Request.{IsNumberAt, IsRequestOf, texts};

use super::fault::Fault;
use super::words::number_up_to;
use estimators::DAYS;
use std::alloc::Global;

// The largest metered energy of a reading, in MJ.
pub(crate) const LARGEST_ENERGY: u64 = terms::LARGEST_ENERGY as u64;

// The largest load of a day, in MJ: no more than enters through the gate.
pub(crate) const LARGEST_LOAD: u64 = allocation::LARGEST_GATE;

// The most words: an energy, and a load for each day of the longest book.
const MOST_WORDS: usize = 1 + DAYS as usize;

// An energy to be spread over the loads of consecutive days, in MJ.
#[derive(Drop)]
pub(crate) struct Request {
    pub energy: u64,
    pub loads: Vec<u64>,
}

// Reads an energy and then the loads. The first word at fault is named, before any want of memory after it.
pub(crate) fn read_request(heap: Global, words: &[String]) -> Result<Request, Fault>
    ensures { IsRequestOf (texts words.now) result }
{
    if words.len() < 2 {
        return Err(Fault::TooFewWords);
    }
    if words.len() > MOST_WORDS {
        return Err(Fault::TooManyWords);
    }
    let energy = number_at(words[0].as_str(), 0, LARGEST_ENERGY)?;
    let mut loads = Vec::new(heap);
    for (index, word) in words.iter().enumerate().skip(1) {
        loads.push(number_at(word.as_str(), index, LARGEST_LOAD)?)?;
    }
    Ok(Request { energy, loads })
}

// The number that the word at an index writes.
fn number_at(word: &str, index: usize, limit: u64) -> Result<u64, Fault>
    ensures { IsNumberAt word.now index limit result }
{
    number_up_to(word, limit).map_err(|why| Fault::Word { index, why })
}
