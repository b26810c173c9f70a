//! Where something stands in a script.
ghost use Rattle.std.specs.Prelude.{◌≡◌, ◌<◌};
ghost use Rattle.cf_explain.specs.Places.{area_of, limit_place, place_of, position_of};

use cf_plan::PlanFault;
use cf_script_reading::{Part, ReadingFault};
use std::fmt;

/// The part of a script that something stands in.
#[derive(Clone, Copy)]
pub enum Area {
    /// The whole, one of its members, a stage or a limit.
    Part(Part),
    /// The step at this position, from 0 on.
    Step(u32),
}

/// One step of a path through a JSON value.
#[derive(Clone, Copy)]
pub enum PathStep {
    /// To the member of this name.
    Member(&'static str),
    /// To the element at this position, from 0 on.
    Item(u32),
}

/// A part of a script, and the path that leads into it. Nothing that is read lies more than four steps deep.
#[derive(Clone, Copy)]
pub struct Place {
    pub area: Area,
    pub path: [Option<PathStep>; 4],
}

/// A position as a `u32`, which holds every position in a script.
fn position(k: usize) -> u32
    ensures { result ≡ position_of k }
{
    u32::try_from(k).unwrap_or(u32::MAX)
}

impl Place {
    /// This part itself.
    pub(crate) fn of(area: Area) -> Place
        ensures { result ≡ place_of area }
    {
        Place {
            area,
            path: [None; 4],
        }
    }

    /// The whole script.
    pub(crate) fn top() -> Place
        ensures { result.area ≡ Area.Part Part.Top }
    {
        Place::of(Area::Part(Part::Top))
    }

    /// The stage at this position.
    pub(crate) fn stage(k: usize) -> Place
        ensures { k < 4294967296 → result.area ≡ Area.Part (Part.Stage k) }
    {
        Place::of(Area::Part(Part::Stage(position(k))))
    }

    /// The limit at this position.
    pub(crate) fn limit(k: usize) -> Place
        ensures { result ≡ limit_place k }
    {
        Place::of(Area::Part(Part::Limit(position(k))))
    }

    /// The step at this position.
    pub(crate) fn step(k: usize) -> Place
        ensures { k < 4294967296 → result ≡ place_of (Area.Step k) }
    {
        Place::of(Area::Step(position(k)))
    }

    /// The member of this name in it.
    pub(crate) fn member(self, name: &'static str) -> Place
        ensures { result.area ≡ self.area }
    {
        self.with(PathStep::Member(name))
    }

    /// The element at this position in it.
    pub(crate) fn item(self, k: usize) -> Place
        ensures { result.area ≡ self.area }
    {
        self.with(PathStep::Item(position(k)))
    }

    fn with(self, step: PathStep) -> Place
        ensures { result.area ≡ self.area }
    {
        let mut path = self.path;
        for slot in path.iter_mut() {
            if slot.is_none() {
                *slot = Some(step);
                break;
            }
        }
        Place {
            area: self.area,
            path,
        }
    }
}

/// The part that a fault names. Where the builder of plans refused something, that is the stage or the limit.
pub(crate) fn area_of(fault: ReadingFault) -> Area
    ensures { result ≡ area_of fault }
{
    match fault {
        ReadingFault::Shape(part) => Area::Part(part),
        ReadingFault::Plan(PlanFault::NoSuchStage | PlanFault::TooManyLimits, k) => {
            Area::Part(Part::Limit(k))
        }
        ReadingFault::Plan(_, k) | ReadingFault::Function(k) => Area::Part(Part::Stage(k)),
        ReadingFault::Step(k) => Area::Step(k),
        ReadingFault::TooLong
        | ReadingFault::NotJson
        | ReadingFault::Read
        | ReadingFault::NoMemory => Area::Part(Part::Top),
    }
}

/// Written as `stages[3]`, and the whole as `script`.
impl fmt::Display for Area {
    fn fmt<W: fmt::Write>(&self, f: &mut fmt::Formatter<W>) -> fmt::Result {
        match *self {
            Area::Part(Part::Top) => f.write_str("script"),
            Area::Part(Part::Stage(k)) => write!(f, "stages[{k}]"),
            Area::Part(Part::Limit(k)) => write!(f, "limits[{k}]"),
            Area::Part(part) => f.write_str(part.name()),
            Area::Step(k) => write!(f, "steps[{k}]"),
        }
    }
}

/// Written as `stages[3].of[1]`, and in a member of the whole as `names[3]`.
impl fmt::Display for Place {
    fn fmt<W: fmt::Write>(&self, f: &mut fmt::Formatter<W>) -> fmt::Result {
        match self.member_of_whole() {
            Some(name) => {
                f.write_str(name)?;
                write_path(f, &self.path[1..])
            }
            None => {
                write!(f, "{}", self.area)?;
                write_path(f, &self.path)
            }
        }
    }
}

impl Place {
    /// The member of the whole that it is in, if it is in one.
    fn member_of_whole(&self) -> Option<&'static str> {
        match (self.area, self.path[0]) {
            (Area::Part(Part::Top), Some(PathStep::Member(name))) => Some(name),
            _ => None,
        }
    }
}

fn write_path<W: fmt::Write>(f: &mut fmt::Formatter<W>, path: &[Option<PathStep>]) -> fmt::Result {
    for step in path.iter().flatten() {
        write_step(f, *step)?;
    }
    Ok(())
}

fn write_step<W: fmt::Write>(f: &mut fmt::Formatter<W>, step: PathStep) -> fmt::Result {
    match step {
        PathStep::Member(name) => write!(f, ".{name}"),
        PathStep::Item(i) => write!(f, "[{i}]"),
    }
}
