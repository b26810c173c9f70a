//! What users and the store's notices call of a host, and what it has to do next.
ghost use Rattle.std.specs.Prelude.{None, Some};
ghost use Rattle.cf_part.specs.Parts.{later};
ghost use Rattle.cf_c_handles.specs.HostValues.{act_of};
ghost use Rattle.cf_c_handles.specs.Hosts.{Acts, EndsRequest, Follows, GrowsIn, IsStirred, OfHost, Stops, TurnsTo, Wants};

use crate::code::Code;
use crate::handle::object::Object;
use crate::host::{call_code, room_code};
use crate::values::host::order::{CfHostOrder, as_order};
use crate::values::host::{CfHostActing, act_of};
use cf_due::Act;
use cf_host::Host;

/// Asks what stands behind a handle, if that is a host.
macro_rules! of_host {
    ($held:expr, $host:ident => $ask:expr) => {{
        let crate::handle::object::Object::Host($host) = $held else {
            return Err(crate::code::Code::WrongKind);
        };
        $ask
    }};
}

pub(crate) use of_host;

/// Works on a request.
pub fn follow(held: &mut Object, request: u64) -> Result<(), Code>
    ensures { OfHost (Follows request) held.old result held.new }
{
    of_host!(held, host => follow_in(host, request))
}

fn follow_in(host: &mut Host, request: u64) -> Result<(), Code>
    ensures { Follows request host.old result host.new }
{
    Ok(host.follow(request)?)
}

/// A user asks for an act. It tells the ticket under which its user is told of it.
pub fn act(held: &mut Object, now: u64, request: u64, asked: &CfHostActing) -> Result<u64, Code>
    ensures { OfHost (Acts now request (act_of asked.now)) held.old result held.new }
{
    let act = act_of(asked);
    of_host!(held, host => act_in(host, now, request, act))
}

fn act_in(host: &mut Host, now: u64, request: u64, act: Result<Act, Code>) -> Result<u64, Code>
    ensures { Acts now request act host.old result host.new }
{
    let act = act?;
    if !act.fits() {
        return Err(Code::BadAttach);
    }
    match host.act(now, request, act) {
        Ok(ticket) => Ok(ticket),
        Err(why) => Err(call_code(why)),
    }
}

/// A user ends a request.
pub fn end(held: &mut Object, now: u64, request: u64) -> Result<u64, Code>
    ensures { OfHost (EndsRequest now request) held.old result held.new }
{
    of_host!(held, host => end_in(host, now, request))
}

fn end_in(host: &mut Host, now: u64, request: u64) -> Result<u64, Code>
    ensures { EndsRequest now request host.old result host.new }
{
    match host.end(now, request) {
        Ok(ticket) => Ok(ticket),
        Err(why) => Err(call_code(why)),
    }
}

/// Somebody waits for a stage.
pub fn want(held: &mut Object, request: u64, stage: u16) -> Result<(), Code>
    ensures { OfHost (Wants (Some 0) request stage) held.old result held.new }
{
    of_host!(held, host => want_in(host, request, stage))
}

fn want_in(host: &mut Host, request: u64, stage: u16) -> Result<(), Code>
    ensures { Wants (Some 0) request stage host.old result host.new }
{
    match host.wants(request, stage) {
        Ok(()) => Ok(()),
        Err(why) => Err(call_code(why)),
    }
}

/// Nobody waits for a stage any more.
pub fn let_go(held: &mut Object, request: u64, stage: u16) -> Result<(), Code>
    ensures { OfHost (Wants None request stage) held.old result held.new }
{
    of_host!(held, host => let_go_in(host, request, stage))
}

fn let_go_in(host: &mut Host, request: u64, stage: u16) -> Result<(), Code>
    ensures { Wants None request stage host.old result host.new }
{
    match host.lets_go(request, stage) {
        Ok(()) => Ok(()),
        Err(why) => Err(call_code(why)),
    }
}

/// The payload of a stage that was shown couldn't be read: the stage is shown again later.
pub fn unread(held: &mut Object, now: u64, request: u64, stage: u16) -> Result<(), Code>
    ensures { OfHost (Wants (Some (later now)) request stage) held.old result held.new }
{
    of_host!(held, host => unread_in(host, now, request, stage))
}

fn unread_in(host: &mut Host, now: u64, request: u64, stage: u16) -> Result<(), Code>
    ensures { Wants (Some (later now)) request stage host.old result host.new }
{
    match host.unread(now, request, stage) {
        Ok(()) => Ok(()),
        Err(why) => Err(call_code(why)),
    }
}

/// Makes room in a request for so many stages more.
pub fn grow(held: &mut Object, request: u64, more: u16) -> Result<(), Code>
    ensures { OfHost (GrowsIn request more) held.old result held.new }
{
    of_host!(held, host => grow_in(host, request, more))
}

fn grow_in(host: &mut Host, request: u64, more: u16) -> Result<(), Code>
    ensures { GrowsIn request more host.old result host.new }
{
    match host.grow(request, more) {
        Ok(()) => Ok(()),
        Err(why) => Err(room_code(why)),
    }
}

/// The store says that something is new.
pub fn stir(held: &mut Object, now: u64) -> Result<(), Code>
    ensures { OfHost (IsStirred now) held.old result held.new }
{
    of_host!(held, host => stir_in(host, now))
}

fn stir_in(host: &mut Host, now: u64) -> Result<(), Code>
    ensures { IsStirred now host.old result host.new }
{
    host.stirred(now);
    Ok(())
}

/// No further function is called.
pub fn stop(held: &mut Object) -> Result<(), Code>
    ensures { OfHost Stops held.old result held.new }
{
    of_host!(held, host => stop_in(host))
}

fn stop_in(host: &mut Host) -> Result<(), Code>
    ensures { Stops host.old result host.new }
{
    host.stop();
    Ok(())
}

/// What is to be done next.
pub fn turn(held: &mut Object, now: u64) -> Result<CfHostOrder, Code>
    ensures { OfHost (TurnsTo now) held.old result held.new }
{
    of_host!(held, host => turn_in(host, now))
}

fn turn_in(host: &mut Host, now: u64) -> Result<CfHostOrder, Code>
    ensures { TurnsTo now host.old result host.new }
{
    let order = host.turn(now)?;
    Ok(as_order(order))
}
