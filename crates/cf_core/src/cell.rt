//! One stage in 16 bytes.
ghost use Rattle.std.specs.Prelude.{◌≡◌, IfNone, IfSome, Some, is_some, true};
ghost use Rattle.cf_outcome.specs.declared.outcome.Outcome.TheVariants.{Value as Gives};
ghost use Rattle.cf_outcome.specs.Outcomes.{is_exceptional};
ghost use Rattle.cf_forms.specs.declared.forms.Args.TheVariants.{Got, None as NoArgs, One};
ghost use Rattle.cf_forms.specs.declared.forms.Due.TheVariants.{Needs};
ghost use Rattle.cf_forms.specs.Forms.{due_one};
ghost use Rattle.cf_model.specs.declared.stage.Stage.TheVariants.{Claimed, Linked, Pending, Ready, Settled};
ghost use Rattle.cf_model.specs.States.{is_ready, outcome_of};
ghost use Rattle.cf_core.specs.Keeping.Cells.{kept_of, outcome_of_cell, taken_from, value_in, wrapped_of_cell};
ghost use Rattle.cf_core.specs.Keeping.Treatment.{became, ready_kept, settled_kept};
ghost use Rattle.cf_core.specs.Keeping.Sound.{is_waiting};

use crate::kept::{KeptStage, Treated};
use cf_forms::{Args, Form};
use cf_model::Stage;
use cf_outcome::{Cause, Outcome, Value};

/// Which state a stage is in, and what it is ready with.
#[derive(Clone, Copy)]
pub enum Kind {
    Pending,
    Linked,
    None,
    One,
    Two,
    Got,
    Claimed,
    Settled,
}

/// Which value, or which cause, is kept.
#[derive(Clone, Copy)]
pub enum Detail {
    Nil,
    Int,
    Thrown,
    Cancelled,
    TimedOut,
    BadAnswer,
}

/// A stage's state and its step. Each field is written by itself, so that no cell is put together first and then copied,
/// and says what it says for each `kind` alone: the others keep what was there.
#[derive(Clone, Copy)]
pub struct Cell {
    pub kind: Kind,
    pub detail: Detail,
    /// Whether a fault is wrapped, and of two values whether the second is a number.
    pub flag: bool,
    pub step: u32,
    /// The number that is the value, or the first of two.
    pub number: i32,
    /// The code of a fault, the stage linked to, and the bits of a second number.
    pub payload: u32,
}

const _: () = prove!(size_of::<Cell>() == 16);

/// The value of a cell, or the first of two.
fn value_in(detail: Detail, number: i32) -> Value
    ensures { result ≡ value_in detail number }
{
    match detail {
        Detail::Nil => Value::Nil,
        _ => Value::Int(number),
    }
}

/// The second of a cell's values.
fn second_in(flag: bool, payload: u32) -> Value
    ensures { result ≡ Rattle.cf_core.specs.Keeping.Cells.second_in flag payload }
{
    if flag {
        Value::Int(payload.cast_signed())
    } else {
        Value::Nil
    }
}

/// The outcome of a cell.
fn outcome_in(cell: &Cell) -> Outcome
    ensures { result ≡ outcome_of_cell cell.now }
{
    let wrapped = cell.flag;
    match cell.detail {
        Detail::Nil => Outcome::Value(Value::Nil),
        Detail::Int => Outcome::Value(Value::Int(cell.number)),
        Detail::Thrown => Outcome::Fault {
            cause: Cause::Thrown(cell.payload),
            wrapped,
        },
        Detail::Cancelled => Outcome::Fault {
            cause: Cause::Cancelled,
            wrapped,
        },
        Detail::TimedOut => Outcome::Fault {
            cause: Cause::TimedOut(cell.payload),
            wrapped,
        },
        Detail::BadAnswer => Outcome::Fault {
            cause: Cause::BadAnswer(cell.payload),
            wrapped,
        },
    }
}

impl Cell {
    /// The state.
    #[inline(always)]
    pub fn stage(&self) -> Stage
        ensures { result ≡ (kept_of self.now).stage }
    {
        match self.kind {
            Kind::Pending => Stage::Pending,
            Kind::None => Stage::Ready(Args::None),
            Kind::One => Stage::Ready(Args::One(value_in(self.detail, self.number))),
            Kind::Two => Stage::Ready(Args::Two(
                value_in(self.detail, self.number),
                second_in(self.flag, self.payload),
            )),
            Kind::Got => Stage::Ready(Args::Got(outcome_in(self))),
            Kind::Claimed => Stage::Claimed,
            Kind::Linked => Stage::Linked((self.payload % 65536) as u16),
            Kind::Settled => Stage::Settled(outcome_in(self)),
        }
    }

    /// Whether it waits, for its sources or for the stage that it is linked to.
    #[inline(always)]
    pub fn is_waiting(&self) -> bool
        ensures { result ≡ is_waiting ((kept_of self.now).stage) }
    {
        matches!(self.kind, Kind::Pending | Kind::Linked)
    }

    /// Whether it is ready.
    #[inline(always)]
    pub fn is_ready(&self) -> bool
        ensures { result ≡ is_ready ((kept_of self.now).stage) }
    {
        matches!(self.kind, Kind::None | Kind::One | Kind::Two | Kind::Got)
    }

    /// Whether it is settled.
    #[inline(always)]
    pub fn is_settled(&self) -> bool
        ensures { result ≡ is_some (outcome_of ((kept_of self.now).stage)) }
    {
        matches!(self.kind, Kind::Settled)
    }

    /// Whether it waits for its sources.
    #[inline(always)]
    pub fn is_pending(&self) -> bool
        ensures { result ≡ true → (kept_of self.now).stage ≡ Pending }
    {
        matches!(self.kind, Kind::Pending)
    }

    /// The value that it has settled with, if it has.
    #[inline(always)]
    pub fn value(&self) -> Option<Value>
        ensures { IfSome result (λ v. outcome_of ((kept_of self.now).stage) ≡ Some (Gives v)) }
    {
        match self.kind {
            Kind::Settled => match self.detail {
                Detail::Nil => Some(Value::Nil),
                Detail::Int => Some(Value::Int(self.number)),
                _ => None,
            },
            _ => None,
        }
    }

    /// The outcome, if it is settled.
    #[inline(always)]
    pub fn outcome(&self) -> Option<Outcome>
        ensures { result ≡ outcome_of ((kept_of self.now).stage) }
    {
        match self.kind {
            Kind::Settled => Some(outcome_in(self)),
            _ => None,
        }
    }

    /// Writes the parts of an outcome.
    #[inline(always)]
    fn put_outcome(&mut self, o: Outcome)
        ensures outcome { outcome_of_cell self.new ≡ o }
        ensures kind { self.new.kind ≡ self.old.kind }
        ensures step { self.new.step ≡ self.old.step }
    {
        match o {
            Outcome::Value(Value::Nil) => self.detail = Detail::Nil,
            Outcome::Value(Value::Int(n)) => {
                self.detail = Detail::Int;
                self.number = n;
            }
            Outcome::Fault { cause, wrapped } => {
                self.flag = wrapped;
                match cause {
                    Cause::Thrown(code) => {
                        self.detail = Detail::Thrown;
                        self.payload = code;
                    }
                    Cause::Cancelled => self.detail = Detail::Cancelled,
                    Cause::TimedOut(code) => {
                        self.detail = Detail::TimedOut;
                        self.payload = code;
                    }
                    Cause::BadAnswer(code) => {
                        self.detail = Detail::BadAnswer;
                        self.payload = code;
                    }
                }
            }
        }
    }

    /// Settles it.
    #[inline(always)]
    pub fn settle(&mut self, o: Outcome, step: u32)
        ensures { kept_of self.new ≡ record { stage = Settled o; step = step } }
    {
        self.put_outcome(o);
        self.kind = Kind::Settled;
        self.step = step;
    }

    /// Writes a value, as the first of two.
    #[inline(always)]
    fn put_value(&mut self, v: Value)
        ensures value { value_in self.new.detail self.new.number ≡ v }
        ensures kind { self.new.kind ≡ self.old.kind }
        ensures step { self.new.step ≡ self.old.step }
    {
        match v {
            Value::Nil => self.detail = Detail::Nil,
            Value::Int(n) => {
                self.detail = Detail::Int;
                self.number = n;
            }
        }
    }

    /// Writes the second of two values.
    #[inline(always)]
    fn put_second(&mut self, v: Value)
        ensures second { Rattle.cf_core.specs.Keeping.Cells.second_in self.new.flag self.new.payload ≡ v }
        ensures kind { self.new.kind ≡ self.old.kind }
        ensures step { self.new.step ≡ self.old.step }
        ensures detail { self.new.detail ≡ self.old.detail }
        ensures number { self.new.number ≡ self.old.number }
    {
        match v {
            Value::Nil => self.flag = false,
            Value::Int(n) => {
                self.flag = true;
                self.payload = n.cast_unsigned();
            }
        }
    }

    /// Makes it ready. Its step stays.
    #[inline(always)]
    pub fn make_ready(&mut self, args: Args)
        ensures { kept_of self.new ≡ record { stage = Ready args; step = self.old.step } }
    {
        match args {
            Args::None => self.kind = Kind::None,
            Args::One(v) => {
                self.put_value(v);
                self.kind = Kind::One;
            }
            Args::Two(v, w) => {
                self.put_value(v);
                self.put_second(w);
                self.kind = Kind::Two;
            }
            Args::Got(o) => {
                self.put_outcome(o);
                self.kind = Kind::Got;
            }
        }
    }

    /// Claims it. Its step stays.
    #[inline(always)]
    pub fn claim(&mut self)
        ensures { kept_of self.new ≡ record { stage = Claimed; step = self.old.step } }
    {
        self.kind = Kind::Claimed;
    }

    /// Links it.
    #[inline(always)]
    pub fn link(&mut self, j: u16, step: u32)
        ensures { kept_of self.new ≡ record { stage = Linked j; step = step } }
    {
        self.kind = Kind::Linked;
        self.payload = u32::from(j);
        self.step = step;
    }

    /// Writes the state and the step.
    #[inline(always)]
    pub fn put(&mut self, new: KeptStage)
        ensures { kept_of self.new ≡ new }
    {
        match new.stage {
            Stage::Pending => self.kind = Kind::Pending,
            Stage::Ready(args) => self.make_ready(args),
            Stage::Claimed => self.kind = Kind::Claimed,
            Stage::Linked(j) => self.link(j, new.step),
            Stage::Settled(o) => self.settle(o, new.step),
        }
        self.step = new.step;
    }

    /// Whether it keeps a fault, where it keeps an outcome.
    #[inline(always)]
    pub fn is_fault(&self) -> bool
        ensures { result ≡ is_exceptional (outcome_of_cell self.now) }
    {
        match self.detail {
            Detail::Nil | Detail::Int => false,
            Detail::Thrown | Detail::Cancelled | Detail::TimedOut | Detail::BadAnswer => true,
        }
    }

    /// Settles it with the outcome of another, wrapped. What kind of outcome it is isn't looked at.
    #[inline(always)]
    fn pass(&mut self, from: Cell, step: u32) -> Treated
        ensures kept { kept_of self.new ≡ settled_kept (wrapped_of_cell from) step }
        ensures told { result ≡ became ((kept_of self.new).stage) }
    {
        self.kind = Kind::Settled;
        self.detail = from.detail;
        self.flag = true;
        self.step = step;
        self.number = from.number;
        self.payload = from.payload;
        Treated::Settled
    }

    /// Makes it ready with the outcome of another. Its step stays.
    #[inline(always)]
    fn get(&mut self, from: Cell) -> Treated
        ensures kept { kept_of self.new ≡ ready_kept (Got (outcome_of_cell from)) self.old.step }
        ensures told { result ≡ became ((kept_of self.new).stage) }
    {
        self.kind = Kind::Got;
        self.detail = from.detail;
        self.flag = from.flag;
        self.number = from.number;
        self.payload = from.payload;
        Treated::Ready
    }

    /// Makes it ready with the value of another. Its step stays.
    #[inline(always)]
    fn get_value(&mut self, from: Cell) -> Treated
        ensures kept { kept_of self.new ≡ ready_kept (One (value_in from.detail from.number)) self.old.step }
        ensures told { result ≡ became ((kept_of self.new).stage) }
    {
        self.kind = Kind::One;
        self.detail = from.detail;
        self.number = from.number;
        Treated::Ready
    }

    /// Makes it ready without arguments. Its step stays.
    #[inline(always)]
    fn get_none(&mut self) -> Treated
        ensures kept { kept_of self.new ≡ ready_kept NoArgs self.old.step }
        ensures told { result ≡ became ((kept_of self.new).stage) }
    {
        self.kind = Kind::None;
        Treated::Ready
    }

    /// Lets a pending stage take what its one source has, which has settled.
    #[inline(always)]
    pub fn take_one(&mut self, form: Form, from: Cell) -> Treated
        ensures kept { kept_of self.new ≡ taken_from form from self.old.step }
        ensures told { result ≡ became ((kept_of self.new).stage) }
    {
        match form {
            Form::Handle | Form::WhenComplete => self.get(from),
            Form::AnyOf => self.pass(from, from.step),
            Form::Exceptionally | Form::ExceptionallyCompose => {
                if from.is_fault() {
                    self.get(from)
                } else {
                    self.pass(from, from.step)
                }
            }
            Form::ThenRun | Form::RunEither => {
                if from.is_fault() {
                    self.pass(from, from.step)
                } else {
                    self.get_none()
                }
            }
            _ => {
                if from.is_fault() {
                    self.pass(from, from.step)
                } else {
                    self.get_value(from)
                }
            }
        }
    }

    /// Lets a pending stage take what its one source has, which has settled. With what its function is to be called is
    /// told, and not written.
    #[inline(always)]
    pub fn offer_one(&mut self, form: Form, from: Cell) -> Option<Args>
        ensures told { IfSome result (λ args. due_one form (outcome_of_cell from) ≡ Needs args) }
        ensures unwritten { IfSome result (λ args. self.new ≡ self.old) }
        ensures kept { IfNone result (kept_of self.new ≡ taken_from form from self.old.step) }
    {
        match form {
            Form::Handle | Form::WhenComplete => Some(Args::Got(outcome_in(&from))),
            Form::AnyOf => {
                self.pass(from, from.step);
                None
            }
            Form::Exceptionally | Form::ExceptionallyCompose => {
                if from.is_fault() {
                    Some(Args::Got(outcome_in(&from)))
                } else {
                    self.pass(from, from.step);
                    None
                }
            }
            Form::ThenRun | Form::RunEither => {
                if from.is_fault() {
                    self.pass(from, from.step);
                    None
                } else {
                    Some(Args::None)
                }
            }
            _ => {
                if from.is_fault() {
                    self.pass(from, from.step);
                    None
                } else {
                    Some(Args::One(value_in(from.detail, from.number)))
                }
            }
        }
    }
}
