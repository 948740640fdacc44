//! Tests of the way from the bytes of an input to the bytes of its report, which `report` proves: the shape of each
//! line, each refusal with its column, and readers and writers that fail, wait, or give and take little or much.
#![tactic(auto)]

#[cfg(test)]
mod book_refusals;
#[cfg(test)]
mod draws;
#[cfg(test)]
mod early_writes;
#[cfg(test)]
mod failures;
#[cfg(test)]
mod inputs;
#[cfg(test)]
mod lengths;
#[cfg(test)]
mod limits;
#[cfg(test)]
mod malformed;
#[cfg(test)]
mod many_pieces;
#[cfg(test)]
mod noise;
#[cfg(test)]
mod pieces;
#[cfg(test)]
mod readers;
#[cfg(test)]
mod reading_places;
#[cfg(test)]
mod record_order;
#[cfg(test)]
mod reported_inputs;
#[cfg(test)]
mod rows;
#[cfg(test)]
mod writers;
