//! A host with several threads: they run the stages of one lane of a request's machine, under one lock.
//!
//! A thread takes the lock, finishes what it holds and claims the next stage, lets go of the lock, and calls the stage's
//! function. Under the lock lies a `Desk`: the machine, and the keeper's slip, which knows each `Turn` that was taken. A
//! turn is noted in its thread's slip, too. Slips have no bytes, and can't be copied. So what each thread did is known once
//! all are joined, and is compared with what the machine did. The desk knows that as long as a stage is ready or held,
//! somebody has to come again. So `run` promises that each job was called once, its stage finished with the answer, and
//! nothing left. Where nothing is ready, a thread rests at the `Bell`, whose `rest` requires that this was just seen.
#![tactic(auto)]

pub mod bell;
pub mod desk;
pub mod news;
pub mod place;
pub mod room;
pub mod slips;
pub mod team;
pub mod turn;
pub mod work;
