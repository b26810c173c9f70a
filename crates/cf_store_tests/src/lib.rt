//! Tests of what a process does with a store's requests: what notes say, who is gone, what is due, a process's part in a
//! request, its turn, and the host of all its requests. They use public calls alone, and are a crate of their own, since a
//! crate with tests is proved twice, with them and without.
#![tactic(auto)]

#[cfg(test)]
mod checks;
#[cfg(test)]
mod due;
#[cfg(test)]
mod host;
#[cfg(test)]
mod notes;
#[cfg(test)]
mod part;
#[cfg(test)]
mod turn;
#[cfg(test)]
mod watch;
