//! Closing a desk, and what a closed desk tells.
ghost use Rattle.std.specs.Prelude.{Some};
ghost use Rattle.cf_c_handles.specs.declared.handle.object.Object.TheVariants.{Closing as IsClosing};
ghost use Rattle.cf_c_handles.specs.Answers.{TakesOrGivesBack};
ghost use Rattle.cf_c_handles.specs.Closings.{AreOfOneDesk, BecomesGraph, Begins, ClosingTakes, Ends, OfClosed, Returns, TakesFrom, events_told, record_told, records_told, word_told};

pub mod closed;
pub mod closing;

use crate::close::closed::CfRecord;
use crate::code::Code;
use crate::handle::CfHandle;
use crate::handle::object::{Closing, Object, hold, take};
use std::alloc::Global;

pub fn begin(alloc: Global, held: &mut Object) -> Result<(), Code>
    ensures { Begins held.old result held.new }
{
    let (now, done) = begun(alloc, take(alloc, held));
    hold(held, now);
    done
}

/// What stands behind a handle with which a desk is begun to be closed.
fn begun(alloc: Global, held: Object) -> (Object, Result<(), Code>)
    ensures { Begins held result.1 result.0 }
{
    match held {
        Object::Caller(caller) => match Closing::of(alloc, caller) {
            Ok(closing) => (Object::Closing(closing), Ok(())),
            Err(caller) => (Object::Caller(caller), Err(Code::NoMemory)),
        },
        other => (other, Err(Code::WrongKind)),
    }
}

pub fn add(alloc: Global, held: &mut Object, caller: &mut CfHandle) -> Result<(), Code>
    requires { AreOfOneDesk (Some held.old) caller.old.inner.held }
    ensures { Returns caller.old.inner.held caller.new.inner.held held.old result held.new }
{
    match held {
        Object::Closing(closing) => add_from(alloc, closing, caller),
        _ => Err(Code::WrongKind),
    }
}

/// Takes what stands behind a handle, if it is a caller.
fn add_from(alloc: Global, closing: &mut Closing, caller: &mut CfHandle) -> Result<(), Code>
    requires { AreOfOneDesk (Some (IsClosing closing.old)) caller.old.inner.held }
    ensures { TakesFrom closing.old caller.old.inner.held result closing.new caller.new.inner.held }
{
    match caller.take(alloc) {
        None => Err(Code::Empty),
        Some(mut given) => match add_given(closing, take(alloc, &mut given)) {
            Ok(()) => {
                drop(given);
                Ok(())
            }
            Err((back, code)) => {
                hold(&mut given, back);
                caller.put(given);
                Err(code)
            }
        },
    }
}

/// Takes what is given, if it is a caller. Where it is refused it comes back.
fn add_given(closing: &mut Closing, given: Object) -> Result<(), (Object, Code)>
    requires { AreOfOneDesk (Some (IsClosing closing.old)) (Some given) }
    ensures { TakesOrGivesBack ClosingTakes closing.old given result closing.new }
{
    match given {
        Object::Caller(caller) => match closing.refusal(&caller) {
            None => {
                closing.add(caller);
                Ok(())
            }
            Some(code) => Err((Object::Caller(caller), code)),
        },
        other => Err((other, Code::WrongKind)),
    }
}

pub fn end(alloc: Global, held: &mut Object) -> Result<(), Code>
    ensures { Ends held.old result held.new }
{
    let (now, done) = ended(take(alloc, held));
    hold(held, now);
    done
}

/// What stands behind a handle that is asked to end a closing.
fn ended(held: Object) -> (Object, Result<(), Code>)
    ensures { Ends held result.1 result.0 }
{
    match held {
        Object::Closing(closing) => end_closing(closing),
        other => (other, Err(Code::WrongKind)),
    }
}

/// The closed desk of a closing, or the closing where it doesn't end.
fn end_closing(closing: Closing) -> (Object, Result<(), Code>)
    ensures { Ends (IsClosing closing) result.1 result.0 }
{
    match closing.end() {
        Ok(closed) => (Object::Closed(closed), Ok(())),
        Err((closing, code)) => (Object::Closing(closing), Err(code)),
    }
}

pub fn become_graph(alloc: Global, held: &mut Object) -> Result<(), Code>
    ensures { BecomesGraph held.old result held.new }
{
    let (now, done) = as_graph(take(alloc, held));
    hold(held, now);
    done
}

/// What stands behind a handle whose closed desk is to be its graph.
fn as_graph(held: Object) -> (Object, Result<(), Code>)
    ensures { BecomesGraph held result.1 result.0 }
{
    match held {
        Object::Closed(closed) => (Object::Graph(closed.into_graph()), Ok(())),
        other => (other, Err(Code::WrongKind)),
    }
}

pub fn events_of(held: &mut Object) -> Result<u16, Code>
    ensures { OfClosed events_told held.old result held.new }
{
    match held {
        Object::Closed(closed) => Ok(closed.events()),
        _ => Err(Code::WrongKind),
    }
}

pub fn word_at(held: &mut Object, place: u16) -> Result<u64, Code>
    ensures { OfClosed (word_told place) held.old result held.new }
{
    match held {
        Object::Closed(closed) => closed.word(place).ok_or(Code::Nothing),
        _ => Err(Code::WrongKind),
    }
}

pub fn records_of(held: &mut Object, caller: u8) -> Result<u16, Code>
    ensures { OfClosed (records_told caller) held.old result held.new }
{
    match held {
        Object::Closed(closed) => closed.records(caller).ok_or(Code::Nothing),
        _ => Err(Code::WrongKind),
    }
}

pub fn record_at(held: &mut Object, caller: u8, at: u16) -> Result<CfRecord, Code>
    ensures { OfClosed (record_told caller at) held.old result held.new }
{
    match held {
        Object::Closed(closed) => closed.record(caller, at).ok_or(Code::Nothing),
        _ => Err(Code::WrongKind),
    }
}
