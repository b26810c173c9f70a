//! What is odd about a script, though it is none that is refused.
use crate::oddity::Oddity;
use crate::place::Place;
use std::fmt;

/// What is odd about a part of a script.
#[derive(Drop)]
pub enum Remark {
    /// How it is written.
    Writing(Oddity),
    /// A limit never does anything, because another limit has settled its stage by its moment.
    Behind(Place, Place),
    /// A step never does anything.
    Idle(Place, Idle),
}

/// Why a step never does anything.
#[derive(Clone, Copy)]
pub enum Idle {
    /// Its stage calls no function, so nobody can claim it.
    NoFunction,
    /// Its stage is settled already, by this step.
    Settled(u32),
    /// No step before it claims the stage for its caller.
    NotClaimed,
    /// The tick of this step came before it, for the same or a later moment.
    NotLater(u32),
    /// No stage has a function.
    NoWork,
    /// There is no room for a stage.
    NoRoom,
    /// No turn is asked for.
    NoTurn,
}

impl fmt::Display for Remark {
    fn fmt<W: fmt::Write>(&self, f: &mut fmt::Formatter<W>) -> fmt::Result {
        match self {
            Remark::Writing(oddity) => write!(f, "{oddity}"),
            Remark::Behind(place, other) => {
                write!(
                    f,
                    "{place}: never fires, since {other} settles its stage first"
                )
            }
            Remark::Idle(place, why) => write!(f, "{place}: never does anything: {why}"),
        }
    }
}

impl fmt::Display for Idle {
    fn fmt<W: fmt::Write>(&self, f: &mut fmt::Formatter<W>) -> fmt::Result {
        match *self {
            Idle::NoFunction => f.write_str("its stage calls no function, so nobody can claim it"),
            Idle::Settled(k) => write!(f, "its stage is settled since steps[{k}]"),
            Idle::NotClaimed => f.write_str("its caller hasn't claimed the stage"),
            Idle::NotLater(k) => write!(f, "steps[{k}] was as late or later"),
            Idle::NoWork => f.write_str("no stage calls a function"),
            Idle::NoRoom => f.write_str("there is no room for a stage more"),
            Idle::NoTurn => f.write_str("it does no turn"),
        }
    }
}
