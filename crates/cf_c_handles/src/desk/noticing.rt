//! What a caller has seen, as a notice behind a handle of its own, and how another caller heeds it.
ghost use Rattle.std.specs.Prelude.{◌≡◌, MatchResult, Some};
ghost use Rattle.std.specs.Arc.{arc_value};
ghost use Rattle.cf_c_handles.specs.declared.code.Code.TheVariants.{NoMemory};
ghost use Rattle.cf_c_handles.specs.declared.handle.object.Object.TheVariants.{Caller as IsCaller};
ghost use Rattle.cf_c_handles.specs.Answers.{TakesOrGivesBack};
ghost use Rattle.cf_c_handles.specs.Notices.{CallerHeeds, HasHeeded, HeedsBehind, HeedsFrom, IsNoticeOf, IsOfItsDesk, IsUnchanged, NotesBehind, NotesTo};

use crate::code::Code;
use crate::desk::caller::is_one_desk;
use crate::handle::object::{Caller, Noted, Object, hold, take};
use crate::handle::{CfHandle, box_of};
use std::alloc::Global;
use std::sync::Arc;

/// Puts what the caller behind a handle has seen behind another handle, if that is empty.
pub fn note_behind(alloc: Global, held: &mut Object, to: &mut CfHandle) -> Result<(), Code>
    ensures { NotesBehind to.old.inner.held to.new.inner.held held.old result held.new }
{
    match held {
        Object::Caller(caller) => note_to(alloc, caller, to),
        _ => Err(Code::WrongKind),
    }
}

/// Puts what a caller has seen behind a handle, if that is empty.
fn note_to(alloc: Global, caller: &mut Caller, to: &mut CfHandle) -> Result<(), Code>
    ensures same { IsUnchanged caller.old caller.new }
    ensures notes { NotesTo caller.old to.old.inner.held result to.new.inner.held }
{
    if to.is_full() {
        return Err(Code::Full);
    }
    let noted = caller.noted()?;
    match box_of(alloc, Object::Notice(noted)) {
        Ok(held) => {
            to.put(held);
            Ok(())
        }
        Err(_) => Err(Code::NoMemory),
    }
}

/// Lets the caller behind a handle see all that the notice behind another handle tells of. The notice is used up.
pub fn heed_behind(alloc: Global, held: &mut Object, from: &mut CfHandle) -> Result<(), Code>
    requires { IsOfItsDesk (Some held.old) from.old.inner.held }
    ensures { HeedsBehind from.old.inner.held from.new.inner.held held.old result held.new }
{
    match held {
        Object::Caller(caller) => heed_from(alloc, caller, from),
        _ => Err(Code::WrongKind),
    }
}

/// Heeds what stands behind a handle, if it is a notice.
fn heed_from(alloc: Global, caller: &mut Caller, from: &mut CfHandle) -> Result<(), Code>
    requires { IsOfItsDesk (Some (IsCaller caller.old)) from.old.inner.held }
    ensures { HeedsFrom caller.old from.old.inner.held result caller.new from.new.inner.held }
{
    match from.take(alloc) {
        None => Err(Code::Empty),
        Some(mut given) => match heed_given(caller, take(alloc, &mut given)) {
            Ok(()) => {
                drop(given);
                Ok(())
            }
            Err((back, code)) => {
                hold(&mut given, back);
                from.put(given);
                Err(code)
            }
        },
    }
}

/// Heeds what is given, if it is a notice. Where it is refused it comes back.
fn heed_given(caller: &mut Caller, given: Object) -> Result<(), (Object, Code)>
    requires { IsOfItsDesk (Some (IsCaller caller.old)) (Some given) }
    ensures { TakesOrGivesBack CallerHeeds caller.old given result caller.new }
{
    match given {
        Object::Notice(noted) => {
            if is_one_desk(&caller.desk, &noted.desk) {
                caller.heed(noted);
                Ok(())
            } else {
                Err((Object::Notice(noted), Code::OtherDesk))
            }
        }
        other => Err((other, Code::WrongKind)),
    }
}

impl Caller {
    /// What it has seen, with its desk.
    fn noted(&mut self) -> Result<Noted, Code>
        ensures same { IsUnchanged self.old self.new }
        ensures notice { MatchResult result (IsNoticeOf self.old) (λ why. why ≡ NoMemory) }
    {
        let Ok(desk) = Arc::try_clone(&self.desk) else {
            return Err(Code::NoMemory);
        };
        let notice = self.desk.notice(&mut self.pass);
        Ok(Noted { desk, notice })
    }

    /// Sees all that the notice tells of.
    fn heed(&mut self, noted: Noted)
        requires { (arc_value noted.desk).table ≡ (arc_value self.old.desk).table }
        ensures { HasHeeded self.old noted self.new }
    {
        let Noted { desk, notice } = noted;
        self.desk.heed(&mut self.pass, notice);
        drop(desk);
    }
}
