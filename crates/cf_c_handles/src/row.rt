//! One session's view of a row in a store: what it plans, is told and is asked.
ghost use Rattle.std.specs.Prelude.{◌≡◌, ◌<◌, ◌≤◌, [], length};
ghost use Rattle.std.specs.Bool.{OnFalse, OnTrue};
ghost use Rattle.cf_c_handles.specs.Rows.{GivesUpIn, IsSession, MeetsIn, OfRow, PlansIn, RoomsIn, RowOf, SeesIn, SeesOrNot, TellsAbandon, TellsFinish, TellsHeld, TellsNextClaim, TellsNumber, TellsNumberOf, TellsOpenClaim, put_code};
ghost use Rattle.cf_c_handles.specs.declared.handle.object.Object.TheVariants.{Row as HeldRow};

use crate::code::Code;
use crate::handle::object::Object;
use crate::ledger::telling::give_news;
use crate::ledger::word_code;
use crate::values::row::{CfRowClaim, CfRowOpening, as_claim};
use crate::values::stage::CfNews;
use crate::values::task::{CfTask, held_by};
use crate::values::{CfReply, put_reply};
use cf_row::{Entry, PutFault, Row, SESSIONS, TOKENS};
use std::alloc::Global;

/// The view of a row of a plan's request, of which nothing was read yet.
pub fn row_of(alloc: Global, held: &Object, opening: &CfRowOpening) -> Result<Object, Code>
    ensures { RowOf opening.now held.now result }
{
    let Object::Plan(plan) = held else {
        return Err(Code::WrongKind);
    };
    if !plan.has_place(opening.room) {
        return Err(Code::Room);
    }
    if !is_session(opening) {
        return Err(Code::NoTokens);
    }
    let row = Row::new(alloc, plan, opening.room, opening.session, opening.first)?;
    Ok(Object::Row(row))
}

/// Whether there is such a session, whose tokens may begin there.
fn is_session(opening: &CfRowOpening) -> bool
    ensures session { OnTrue result (opening.now.session < 549755813888) }
    ensures first { OnTrue result (opening.now.first ≤ 8388608) }
    ensures none { OnFalse result (¬ IsSession opening.now) }
{
    opening.session < SESSIONS && u64::from(opening.first) <= TOKENS
}

/// Whether no put is under way.
#[tactic(auto, using(crate::proofs::Rows::none_in))]
fn is_at_rest(row: &Row) -> bool
    ensures rests { OnTrue result (row.now.put ≡ []) }
    ensures under_way { OnFalse result (0 < length row.now.put) }
{
    row.put().is_empty()
}

/// Plans a put of these words behind all that was seen. It tells the token of the first; each further one has the next.
#[tactic(auto, using(crate::proofs::Rows::some_put, crate::proofs::Rows::first_token))]
pub fn plan(held: &mut Object, words: &[u64]) -> Result<u64, Code>
    ensures { PlansIn words.now held.old result held.new }
{
    let Object::Row(row) = held else {
        return Err(Code::WrongKind);
    };
    if !is_at_rest(row) {
        return Err(Code::UnderWay);
    }
    if words.is_empty() {
        return Err(Code::Nothing);
    }
    match row.plan(words) {
        Err(fault) => Err(put_code(fault)),
        Ok(()) => Ok(row.put()[0].token),
    }
}

/// The code of the fault for which nothing is put.
fn put_code(fault: PutFault) -> Code
    ensures { result ≡ put_code fault }
{
    match fault {
        PutFault::NoMemory => Code::NoMemory,
        PutFault::NoTokens => Code::NoTokens,
        PutFault::NoWord => Code::NoWord,
    }
}

/// At the place of the put under way this entry stands. It tells 1 where that is the put's own, which has landed, and 0
/// where it isn't. The put is over then.
pub fn meet(held: &mut Object, first: Entry) -> Result<u8, Code>
    ensures { MeetsIn first held.old result held.new }
{
    let Object::Row(row) = held else {
        return Err(Code::WrongKind);
    };
    if is_at_rest(row) {
        return Err(Code::Nothing);
    }
    Ok(u8::from(row.met(first)))
}

/// The put is given up: it isn't known whether it stands.
pub fn give_up(held: &mut Object) -> Result<(), Code>
    ensures { GivesUpIn held.old result held.new }
{
    let Object::Row(row) = held else {
        return Err(Code::WrongKind);
    };
    row.give_up();
    Ok(())
}

/// This entry stands behind all that was seen. It tells the reply, and the stages that it changed as far as the buffer
/// reaches, with their number.
pub fn see(
    held: &mut Object,
    entry: Entry,
    reply: &mut CfReply,
    news: &mut [CfNews],
    n: &mut usize,
) -> Result<(), Code>
    ensures { SeesIn entry held.old (reply.old, news.old, n.old) result held.new (reply.new, news.new, n.new) }
{
    let Object::Row(row) = held else {
        return Err(Code::WrongKind);
    };
    if !is_at_rest(row) {
        return Err(Code::UnderWay);
    }
    see_entry(row, entry, reply, news, n)
}

/// The same where no put is under way.
#[tactic(auto, using(crate::proofs::Rows::last_place))]
fn see_entry(
    row: &mut Row,
    entry: Entry,
    reply: &mut CfReply,
    news: &mut [CfNews],
    n: &mut usize,
) -> Result<(), Code>
    requires { row.old.put ≡ [] }
    ensures { SeesOrNot entry row.old (reply.old, news.old, n.old) result (HeldRow row.new)
        (reply.new, news.new, n.new) }
{
    let place = row.replica().seen().len();
    match row.saw(entry) {
        Err(fault) => Err(word_code(fault)),
        Ok(told) => {
            put_reply(reply, told);
            *n = give_news(row.replica().ledger(), place, news);
            Ok(())
        }
    }
}

/// Makes room for so many stages more.
pub fn grow(alloc: Global, held: &mut Object, more: u16) -> Result<(), Code>
    ensures { RoomsIn more held.old result held.new }
{
    let Object::Row(row) = held else {
        return Err(Code::WrongKind);
    };
    if !is_at_rest(row) {
        return Err(Code::UnderWay);
    }
    if !row.replica().ledger().has_place(more) {
        return Err(Code::Room);
    }
    match row.grow(alloc, more) {
        Ok(()) => Ok(()),
        Err(_) => Err(Code::NoMemory),
    }
}

/// The session's own number: that which it has, or that which it takes with its next put.
pub fn number(held: &mut Object) -> Result<u8, Code>
    ensures { OfRow TellsNumber held.old result held.new }
{
    let Object::Row(row) = held else {
        return Err(Code::WrongKind);
    };
    Ok(row.replica().number())
}

/// The number of a session that has put something.
pub fn number_of(held: &mut Object, session: u64) -> Result<u8, Code>
    ensures { OfRow (TellsNumberOf session) held.old result held.new }
{
    let Object::Row(row) = held else {
        return Err(Code::WrongKind);
    };
    row.replica().number_of(session).ok_or(Code::Nothing)
}

/// The lowest stage from a number on whose claim is open, with the session to which it was granted.
pub fn open_claim(held: &mut Object, from: u16) -> Result<CfRowClaim, Code>
    ensures { OfRow (TellsOpenClaim from) held.old result held.new }
{
    let Object::Row(row) = held else {
        return Err(Code::WrongKind);
    };
    match row.replica().open_claim(from) {
        None => Err(Code::Nothing),
        Some(claim) => Ok(as_claim(claim)),
    }
}

/// The lowest stage from a number on that a session has claimed, and that isn't settled.
pub fn held(held: &mut Object, session: u64, from: u16) -> Result<u16, Code>
    ensures { OfRow (TellsHeld session from) held.old result held.new }
{
    let Object::Row(row) = held else {
        return Err(Code::WrongKind);
    };
    row.replica().held(session, from).ok_or(Code::Nothing)
}

/// The word that fails the lowest stage from a number on that a session has.
pub fn abandon(held: &mut Object, session: u64, from: u16, code: u32) -> Result<u64, Code>
    ensures { OfRow (TellsAbandon session from code) held.old result held.new }
{
    let Object::Row(row) = held else {
        return Err(Code::WrongKind);
    };
    row.replica()
        .abandon(session, from, code)
        .ok_or(Code::Nothing)
}

/// The word that finishes what a task holds, where that is the session's own.
pub fn finish(held: &mut Object, task: &CfTask) -> Result<u64, Code>
    ensures { OfRow (TellsFinish task.now) held.old result held.new }
{
    let Object::Row(row) = held else {
        return Err(Code::WrongKind);
    };
    match held_by(task) {
        None => Err(Code::Nothing),
        Some(ended) => row.replica().finish(ended).ok_or(Code::Nothing),
    }
}

/// The lowest stage from a number on that the session could claim, behind the finish of what a task holds.
pub fn next_claim(held: &mut Object, task: &CfTask, from: u16) -> Result<u16, Code>
    ensures { OfRow (TellsNextClaim task.now from) held.old result held.new }
{
    let Object::Row(row) = held else {
        return Err(Code::WrongKind);
    };
    row.replica()
        .next_claim(held_by(task), from)
        .ok_or(Code::Nothing)
}
