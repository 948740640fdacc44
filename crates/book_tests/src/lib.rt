//! Tests of the ledger, the book and the statements. The crates are proved in their own place, and only run here.
#![tactic(auto)]

#[cfg(test)]
mod areas;
#[cfg(test)]
mod beside_plain_estimators;
#[cfg(test)]
mod calls;
#[cfg(test)]
mod ledger_deliveries;
#[cfg(test)]
mod opened_and_served;
#[cfg(test)]
mod plain_estimators;
#[cfg(test)]
mod random_calls;
#[cfg(test)]
mod recomputation;
#[cfg(test)]
mod refusals;
#[cfg(test)]
mod refused_calls;
#[cfg(test)]
mod small_book;
#[cfg(test)]
mod stages;
