//! What a ledger behind a handle writes for C.
ghost use Rattle.std.specs.Prelude.{◌≡◌, ◌<◌, Some, length};
ghost use Rattle.cf_model.specs.declared.events.Event.TheVariants.{Claim as Claims, Finish as Finishes};
ghost use Rattle.cf_event.specs.Words.{word_of};
ghost use Rattle.cf_event.specs.Decoding.{event_of};
ghost use Rattle.cf_ledger.specs.Ledgers.{state_of};
ghost use Rattle.cf_c_handles.specs.Ledgers.{AreWritten, DoesRow, DoesWord, HaveNews, OfLedgerWriting, WritesNews, WritesWords, claimed_news, claimed_stages, news_in, stage_now};
ghost use Rattle.cf_c_handles.specs.Texts.{GivesText};
ghost use Rattle.cf_c_handles.specs.declared.handle.object.Object.TheVariants.{Ledger as HeldLedger};

use crate::code::Code;
use crate::handle::object::Object;
use crate::ledger::asking::of_ledger;
use crate::ledger::word_code;
use crate::values::stage::{CfNews, CfStage, as_stage, move_on, pending};
use crate::values::{CfReply, as_reply, put_claim};
use cf_event::{claim_of, giving_of};
use cf_forms::Answer;
use cf_ledger::{Ledger, Stage};
use cf_model::{Claimed, Reply};

/// Does the event of a word. The stages that it changed are written as far as the buffer reaches, and so is how many they are.
#[inline(always)]
pub fn apply(
    held: &mut Object,
    word: u64,
    reply: &mut CfReply,
    news: &mut [CfNews],
    n: &mut usize,
) -> Result<(), Code>
    ensures { DoesWord word held.old (reply.old, news.old, n.old) result held.new (reply.new, news.new, n.new) }
{
    let Object::Ledger(ledger) = held else {
        return Err(Code::WrongKind);
    };
    apply_to(ledger, word, reply, news, n)
}

/// The same to a ledger. A claim, and a finish that gives a value, are nearly all words. Each has code of its own, in which
/// the kind of its reply is known.
#[inline(always)]
fn apply_to(
    ledger: &mut Ledger,
    word: u64,
    reply: &mut CfReply,
    news: &mut [CfNews],
    n: &mut usize,
) -> Result<(), Code>
    ensures { DoesWord word (HeldLedger ledger.old) (reply.old, news.old, n.old)
        result (HeldLedger ledger.new) (reply.new, news.new, n.new) }
{
    if let Some((who, stage)) = claim_of(word) {
        return claim(ledger, who, stage, word, reply, news, n);
    }
    if let Some((who, stage, v)) = giving_of(word) {
        return finish(ledger, who, stage, Answer::Give(v), word, reply, news, n);
    }
    apply_other(ledger, word, reply, news, n)
}

/// Does a claim, whose word this is.
#[inline(always)]
fn claim(
    ledger: &mut Ledger,
    who: u8,
    stage: u16,
    word: u64,
    reply: &mut CfReply,
    news: &mut [CfNews],
    n: &mut usize,
) -> Result<(), Code>
    requires read { event_of word ≡ Some (Claims who stage) }
    requires named { word_of (Claims who stage) ≡ word }
    ensures { DoesWord word (HeldLedger ledger.old) (reply.old, news.old, n.old)
        result (HeldLedger ledger.new) (reply.new, news.new, n.new) }
{
    match ledger.claim(who, stage, word) {
        Err(fault) => Err(word_code(fault)),
        Ok(told) => {
            *n = give_claimed(told, who, stage, news);
            put_claim(reply, told);
            Ok(())
        }
    }
}

/// Writes the stage that a claim changed: its own, if it was granted. It tells how many that is. Nothing is looked up.
#[inline(always)]
#[tactic(auto, using(crate::proofs::Claims::first_written, crate::proofs::Claims::unreached, crate::proofs::Claims::unwritten))]
fn give_claimed(told: Claimed, who: u8, stage: u16, news: &mut [CfNews]) -> usize
    ensures given { AreWritten (claimed_news who) (claimed_stages told stage) news.old news.new }
    ensures count { result ≡ length (claimed_stages told stage) }
{
    match told {
        Claimed::Granted(_) => {
            if !news.is_empty() {
                put_claimed(&mut news[0], who, stage);
            }
            1
        }
        Claimed::Settled | Claimed::Taken | Claimed::NotReady => 0,
    }
}

/// Writes a stage that was claimed.
#[inline(always)]
fn put_claimed(news: &mut CfNews, who: u8, stage: u16)
    ensures { news.new ≡ claimed_news who stage }
{
    news.stage = stage;
    news.now = as_stage(Stage::Claimed, Some(who));
}

/// Does a finish, whose word this is.
#[inline(always)]
fn finish(
    ledger: &mut Ledger,
    who: u8,
    stage: u16,
    answer: Answer,
    word: u64,
    reply: &mut CfReply,
    news: &mut [CfNews],
    n: &mut usize,
) -> Result<(), Code>
    requires read { event_of word ≡ Some (Finishes who stage answer) }
    requires named { word_of (Finishes who stage answer) ≡ word }
    ensures { DoesWord word (HeldLedger ledger.old) (reply.old, news.old, n.old)
        result (HeldLedger ledger.new) (reply.new, news.new, n.new) }
{
    let place = ledger.len();
    match ledger.finish(who, stage, answer, word) {
        Err(fault) => Err(word_code(fault)),
        Ok(told) => {
            *reply = as_reply(Reply::Finish(told));
            *n = give_news(ledger, place, news);
            Ok(())
        }
    }
}

/// Does a word of any kind, in a call of its own.
#[inline(never)]
fn apply_other(
    ledger: &mut Ledger,
    word: u64,
    reply: &mut CfReply,
    news: &mut [CfNews],
    n: &mut usize,
) -> Result<(), Code>
    ensures { DoesWord word (HeldLedger ledger.old) (reply.old, news.old, n.old)
        result (HeldLedger ledger.new) (reply.new, news.new, n.new) }
{
    let place = ledger.len();
    match ledger.apply_other(word) {
        Err(fault) => Err(word_code(fault)),
        Ok(told) => {
            *reply = as_reply(told);
            *n = give_news(ledger, place, news);
            Ok(())
        }
    }
}

/// Does the events of a row of words, up to the first that can't be done, and tells how many were done.
pub fn apply_all(held: &mut Object, words: &[u64], done: &mut usize) -> Result<(), Code>
    ensures { DoesRow words.now held.old done.old result held.new done.new }
{
    let Object::Ledger(ledger) = held else {
        return Err(Code::WrongKind);
    };
    match ledger.apply_all(words) {
        Ok(()) => {
            *done = words.len();
            Ok(())
        }
        Err(misfit) => {
            *done = misfit.place;
            Err(word_code(misfit.why))
        }
    }
}

/// Writes the words of a ledger from a place on as far as the buffer reaches, and how many they are.
pub fn words(held: &mut Object, from: usize, words: &mut [u64], n: &mut usize) -> Result<(), Code>
    ensures { OfLedgerWriting (WritesWords from) held.old (words.old, n.old) result held.new (words.new, n.new) }
{
    of_ledger!(held, ledger => words_of(ledger, from, words, n))
}

fn words_of(ledger: &Ledger, from: usize, words: &mut [u64], n: &mut usize) -> Result<(), Code>
    ensures { WritesWords from ledger.now (words.old, n.old) result (words.new, n.new) }
{
    let all = ledger.words();
    let from = from.min(all.len());
    give_words(&all[from..], words, n);
    Ok(())
}

/// Writes the stages that the event at a place changed as far as the buffer reaches, and how many they are.
pub fn news(held: &mut Object, place: usize, stages: &mut [u16], n: &mut usize) -> Result<(), Code>
    ensures { OfLedgerWriting (WritesNews place) held.old (stages.old, n.old) result held.new (stages.new, n.new) }
{
    of_ledger!(held, ledger => news_of(ledger, place, stages, n))
}

fn news_of(ledger: &Ledger, place: usize, stages: &mut [u16], n: &mut usize) -> Result<(), Code>
    ensures { WritesNews place ledger.now (stages.old, n.old) result (stages.new, n.new) }
{
    if place >= ledger.len() {
        return Err(Code::Nothing);
    }
    give_stages(ledger.news(place), stages, n);
    Ok(())
}

/// The stages that the event at a place changed go out as far as the buffer reaches, each as it is now. It tells how many
/// they are.
#[inline(always)]
pub(crate) fn give_news(ledger: &Ledger, place: usize, news: &mut [CfNews]) -> usize
    requires { place < length ledger.now.events }
    ensures { HaveNews ledger.now place news.old news.new result }
{
    let stages = ledger.news(place);
    write_stages(ledger, stages, news);
    stages.len()
}

/// Writes what each of these stages is, as far as the buffer reaches.
#[inline(always)]
fn write_stages(ledger: &Ledger, stages: &[u16], news: &mut [CfNews])
    ensures { AreWritten (news_in (state_of ledger.now)) stages.now news.old news.new }
{
    let reach = stages.len().min(news.len());
    'each: for k in 0..reach {
        put_news(&mut news[k], ledger, stages[k]);
    }
}

/// Writes a stage, and what it is.
#[inline(always)]
fn put_news(news: &mut CfNews, ledger: &Ledger, stage: u16)
    ensures { news.new ≡ news_in (state_of ledger.now) stage }
{
    news.stage = stage;
    put_now(&mut news.now, ledger, stage);
}

/// Writes what a stage is; one that isn't there is pending.
#[inline(always)]
#[tactic(auto, using(crate::proofs::News::none_there))]
fn put_now(now: &mut CfStage, ledger: &Ledger, stage: u16)
    ensures { now.new ≡ stage_now (state_of ledger.now) stage }
{
    if stage >= ledger.stages() {
        *now = pending(None);
    } else {
        // The state is asked for last, where it is told apart.
        let claimant = ledger.claimant(stage);
        *now = pending(claimant);
        move_on(now, ledger.stage(stage), claimant);
    }
}

fn give_words(words: &[u64], buffer: &mut [u64], n: &mut usize)
    ensures { GivesText words.now buffer.old buffer.new n.new }
{
    let count = words.len().min(buffer.len());
    buffer[..count].copy_from_slice(&words[..count]);
    *n = words.len();
}

fn give_stages(stages: &[u16], buffer: &mut [u16], n: &mut usize)
    ensures { GivesText stages.now buffer.old buffer.new n.new }
{
    let count = stages.len().min(buffer.len());
    buffer[..count].copy_from_slice(&stages[..count]);
    *n = stages.len();
}
