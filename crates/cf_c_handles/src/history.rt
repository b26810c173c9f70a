//! What happened to a request, told for people and for the programs.
ghost use Rattle.std.specs.Prelude.{◌≡◌, [], ◌∷◌, ◌++◌, IfOk, OnOk};
ghost use Rattle.cf_c_handles.specs.Histories.{HistoryOf, IsNewHistory, IsSaid, IsUnspoken, ReadsText, ReadsTexts, Says, SaysIn, SetsTimes, SetsTimesIn, TellsIn, is_too_many, kind_numbered, said_numbered};
ghost use Rattle.cf_c_handles.specs.declared.history.Said.TheVariants.{Name};

use crate::code::Code;
use crate::handle::object::{History, Object};
use crate::ledger::word_code;
use crate::texts::give_text;
use cf_telling::{Kind, People, Tale, tale_of, tell};
use std::alloc::{AllocError, Global};
use std::mem;

/// What texts may be said of.
#[derive(Clone, Copy)]
pub enum Said {
    /// The whole: one text at most.
    Name,
    Stages,
    Callers,
    Values,
    Errors,
}

/// The history of a plan with so much room, and of these words.
pub fn history_of(alloc: Global, held: &Object, room: u16, words: &[u64]) -> Result<Object, Code>
    ensures { HistoryOf room words.now held.now result }
{
    let Object::Plan(plan) = held else {
        return Err(Code::WrongKind);
    };
    if !plan.has_place(room) {
        return Err(Code::Room);
    }
    let tale = tale_of(alloc, plan, room, words)?;
    if let Some(why) = tale.stop {
        return Err(word_code(why));
    }
    Ok(Object::History(history_with(alloc, tale)?))
}

/// A history of which nothing is said yet.
fn history_with(alloc: Global, tale: Tale) -> Result<Box<History>, AllocError>
    ensures { IfOk result (λ made. IsNewHistory tale made.value) }
{
    let people = nothing_said(alloc);
    Ok(Box::new(alloc, History { tale, people })?)
}

/// Of a program that says nothing.
fn nothing_said(alloc: Global) -> People
    ensures { IsUnspoken result }
{
    People {
        name: String::new(alloc),
        verdict: String::new(alloc),
        fits: true,
        names: Vec::new(alloc),
        times: Vec::new(alloc),
        lanes: Vec::new(alloc),
        values: Vec::new(alloc),
        errors: Vec::new(alloc),
        relays: Vec::new(alloc),
        replies: Vec::new(alloc),
    }
}

/// Says when each event was done.
pub fn set_times(alloc: Global, held: &mut Object, times: &[u64]) -> Result<(), Code>
    ensures { SetsTimesIn times.now held.old result held.new }
{
    let Object::History(history) = held else {
        return Err(Code::WrongKind);
    };
    set_times_of(alloc, history, times)
}

fn set_times_of(alloc: Global, history: &mut History, times: &[u64]) -> Result<(), Code>
    ensures { SetsTimes times.now history.old result history.new }
{
    if times.len() > history.tale.entries.len() {
        return Err(Code::TooMany);
    }
    let times = Vec::from_slice(alloc, times)?;
    drop(mem::replace(&mut history.people.times, times));
    Ok(())
}

/// Says what things are called, for people: texts that stand one behind the other, each up to its end.
pub fn say(
    alloc: Global,
    held: &mut Object,
    what: u32,
    text: &[u8],
    ends: &[usize],
) -> Result<(), Code>
    ensures { SaysIn what text.now ends.now held.old result held.new }
{
    let Object::History(history) = held else {
        return Err(Code::WrongKind);
    };
    say_of(alloc, history, what, text, ends)
}

fn say_of(
    alloc: Global,
    history: &mut History,
    what: u32,
    text: &[u8],
    ends: &[usize],
) -> Result<(), Code>
    ensures { Says (said_numbered what) text.now ends.now history.old result history.new }
{
    let Some(what) = said_numbered(what) else {
        return Err(Code::NoSuchNumber);
    };
    if is_too_many(what, ends.len()) {
        return Err(Code::TooMany);
    }
    let texts = texts_of(alloc, text, ends)?;
    put(&mut history.people, what, texts);
    Ok(())
}

/// What texts of a number are said of.
fn said_numbered(number: u32) -> Option<Said>
    ensures { result ≡ said_numbered number }
{
    match number {
        0 => Some(Said::Name),
        1 => Some(Said::Stages),
        2 => Some(Said::Callers),
        3 => Some(Said::Values),
        4 => Some(Said::Errors),
        _ => None,
    }
}

/// Whether there can't be so many.
fn is_too_many(what: Said, count: usize) -> bool
    ensures { result ≡ is_too_many what count }
{
    match what {
        Said::Name => count > 1,
        Said::Stages => count > 4_096,
        Said::Callers => count > 64,
        Said::Values | Said::Errors => false,
    }
}

/// The texts that stand one behind the other, each up to its end.
fn texts_of(alloc: Global, text: &[u8], ends: &[usize]) -> Result<Vec<String>, Code>
    ensures { ReadsTexts text.now ends.now result }
{
    let mut texts = Vec::new(alloc);
    let mut from = 0;
    'each: for k in 0..ends.len() {
        match text_at(alloc, text, from, ends[k]) {
            Ok(own) => push(&mut texts, own)?,
            Err(code) => return Err(code),
        }
        from = ends[k];
    }
    Ok(texts)
}

fn push(texts: &mut Vec<String>, text: String) -> Result<(), AllocError>
    ensures { OnOk result (texts.new.items ≡ texts.old.items ++ text ∷ []) }
{
    texts.push(text)?;
    Ok(())
}

/// The text from a place up to its end.
fn text_at(alloc: Global, text: &[u8], from: usize, end: usize) -> Result<String, Code>
    ensures { ReadsText text.now from end result }
{
    if from > end || end > text.len() {
        return Err(Code::BadText);
    }
    match str::from_utf8(&text[from..end]) {
        Ok(own) => Ok(String::from_str(alloc, own)?),
        Err(_) => Err(Code::BadText),
    }
}

/// Puts texts where what they are said of is.
fn put(people: &mut People, what: Said, texts: Vec<String>)
    ensures { IsSaid what texts.items people.old people.new }
{
    match what {
        Said::Name => put_name(people, texts),
        Said::Stages => drop(mem::replace(&mut people.names, texts)),
        Said::Callers => drop(mem::replace(&mut people.lanes, texts)),
        Said::Values => drop(mem::replace(&mut people.values, texts)),
        Said::Errors => drop(mem::replace(&mut people.errors, texts)),
    }
}

/// Puts the last of these texts as the name of the whole.
fn put_name(people: &mut People, texts: Vec<String>)
    ensures { IsSaid Name texts.items people.old people.new }
{
    let mut texts = texts;
    match texts.pop() {
        Some(last) => drop(mem::replace(&mut people.name, last)),
        None => people.name.clear(),
    }
}

/// Tells a history as a text of a kind: as far as the buffer reaches, with the length of the whole.
pub fn text(
    alloc: Global,
    held: &mut Object,
    kind: u32,
    buffer: &mut [u8],
    length: &mut usize,
) -> Result<(), Code>
    ensures { TellsIn kind held.old (buffer.old, length.old) result held.new (buffer.new, length.new) }
{
    let Object::History(history) = held else {
        return Err(Code::WrongKind);
    };
    let Some(kind) = kind_numbered(kind) else {
        return Err(Code::NoSuchNumber);
    };
    let text = tell(alloc, &history.tale, &history.people, kind)?;
    give_text(text.as_bytes(), buffer, length);
    Ok(())
}

/// The kind of text of a number.
fn kind_numbered(number: u32) -> Option<Kind>
    ensures { result ≡ kind_numbered number }
{
    match number {
        0 => Some(Kind::Lines),
        1 => Some(Kind::Line),
        2 => Some(Kind::Account),
        3 => Some(Kind::Script),
        4 => Some(Kind::Report),
        _ => None,
    }
}
