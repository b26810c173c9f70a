//! Tests of what several callers share: the desk, its example, the ledger, the machine of a request, a row in a store,
//! workers, runs and races.
//! They use public calls alone, and are a crate of their own, since a crate with tests is proved twice, with them and without.
#![tactic(auto)]

#[cfg(test)]
mod checks;
#[cfg(test)]
mod desk;
#[cfg(test)]
mod ledger;
#[cfg(test)]
mod plans;
#[cfg(test)]
mod pool;
#[cfg(test)]
mod request;
#[cfg(test)]
mod row;
