//! How a request behind a handle does a word, and writes what the word is answered.
ghost use Rattle.std.specs.Prelude.{◌≡◌, ◌<◌, IfErr, OnErr, OnOk, Some};
ghost use Rattle.cf_model.specs.declared.events.Event.TheVariants.{Claim as Claims, Finish as Finishes};
ghost use Rattle.cf_event.specs.Words.{word_of};
ghost use Rattle.cf_event.specs.Decoding.{event_of};
ghost use Rattle.cf_request.specs.Machines.{IsNoWord, OnlyFinds};
ghost use Rattle.cf_c_handles.specs.Ledgers.{word_code};
ghost use Rattle.cf_c_handles.specs.RequestCalls.{Answers, IsDueAs};

use crate::code::Code;
use crate::ledger::word_code;
use crate::values::{CfReply, put_attached, put_claim, put_finish};
use cf_event::{claim_of, giving_of};
use cf_forms::Answer;
use cf_request::Machine;

/// Does a word; a stage that it attaches is this lane's. A claim, and a finish that gives a value, are nearly all words.
/// Each has code of its own, in which the kind of its reply is known.
#[inline(always)]
pub(crate) fn apply(
    machine: &mut Machine,
    word: u64,
    lane: u8,
    reply: &mut CfReply,
) -> Result<(), Code>
    requires { lane < machine.old.teller.lanes.count }
    ensures done { OnOk result (Answers word lane machine.old machine.new reply.new) }
    ensures refused { OnErr result (OnlyFinds machine.old machine.new) }
    ensures same { OnErr result (reply.new ≡ reply.old) }
    ensures why { IfErr result (λ code. IsDueAs word_code (IsNoWord word machine.old) code) }
{
    if let Some((who, stage)) = claim_of(word) {
        return claim(machine, who, stage, word, lane, reply);
    }
    if let Some((who, stage, v)) = giving_of(word) {
        return finish(machine, who, stage, Answer::Give(v), word, lane, reply);
    }
    apply_other(machine, word, lane, reply)
}

/// Does a claim, whose word this is.
#[inline(always)]
fn claim(
    machine: &mut Machine,
    who: u8,
    stage: u16,
    word: u64,
    lane: u8,
    reply: &mut CfReply,
) -> Result<(), Code>
    requires read { event_of word ≡ Some (Claims who stage) }
    requires named { word_of (Claims who stage) ≡ word }
    ensures done { OnOk result (Answers word lane machine.old machine.new reply.new) }
    ensures refused { OnErr result (OnlyFinds machine.old machine.new) }
    ensures same { OnErr result (reply.new ≡ reply.old) }
    ensures why { IfErr result (λ code. IsDueAs word_code (IsNoWord word machine.old) code) }
{
    // Only the contract speaks of the lane, since nothing is attached.
    let _lane = lane;
    match machine.apply_claim(who, stage, word) {
        Err(fault) => Err(word_code(fault)),
        Ok(told) => {
            put_claim(reply, told);
            Ok(())
        }
    }
}

/// Does a finish, whose word this is.
#[inline(always)]
fn finish(
    machine: &mut Machine,
    who: u8,
    stage: u16,
    answer: Answer,
    word: u64,
    lane: u8,
    reply: &mut CfReply,
) -> Result<(), Code>
    requires read { event_of word ≡ Some (Finishes who stage answer) }
    requires named { word_of (Finishes who stage answer) ≡ word }
    ensures done { OnOk result (Answers word lane machine.old machine.new reply.new) }
    ensures refused { OnErr result (OnlyFinds machine.old machine.new) }
    ensures same { OnErr result (reply.new ≡ reply.old) }
    ensures why { IfErr result (λ code. IsDueAs word_code (IsNoWord word machine.old) code) }
{
    // Only the contract speaks of the lane, since nothing is attached.
    let _lane = lane;
    match machine.apply_finish(who, stage, answer, word) {
        Err(fault) => Err(word_code(fault)),
        Ok(told) => {
            put_finish(reply, told);
            Ok(())
        }
    }
}

/// Does a word of any kind. Most of these attach a stage.
#[inline(always)]
fn apply_other(machine: &mut Machine, word: u64, lane: u8, reply: &mut CfReply) -> Result<(), Code>
    requires { lane < machine.old.teller.lanes.count }
    ensures done { OnOk result (Answers word lane machine.old machine.new reply.new) }
    ensures refused { OnErr result (OnlyFinds machine.old machine.new) }
    ensures same { OnErr result (reply.new ≡ reply.old) }
    ensures why { IfErr result (λ code. IsDueAs word_code (IsNoWord word machine.old) code) }
{
    match machine.apply(word, lane) {
        Err(fault) => Err(word_code(fault)),
        Ok(told) => {
            put_attached(reply, told);
            Ok(())
        }
    }
}
