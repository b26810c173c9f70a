//! An order, done again on a graph, and told as an account or as a script.
use crate::ends::Grouped;
use crate::question::Question;
use cf_core::Graph;
use cf_event::{encode, is_event};
use cf_explore::{Found, Move, Situation, Step, Witness};
use cf_forms::Answer;
use cf_model::{Ask, Event, Reply, Told};
use cf_outcome::{Outcome, Value};
use cf_text::{write_did, write_saw, write_settled};
use std::alloc::{AllocError, Global};

/// In which form an order is told.
#[derive(Clone, Copy)]
pub enum OrderShape {
    /// What `cf_look check`, `page` and `trace` take.
    Account,
    /// What `cf run` does again.
    Script,
}

/// The orders that are told, by their numbers: those of the ends, and then those that decide what must hold.
pub fn witnesses(
    alloc: Global,
    found: &Found,
    groups: &[Grouped],
) -> Result<Vec<Witness>, AllocError> {
    let mut all = Vec::new(alloc);
    for group in groups {
        all.push(group.witness)?;
    }
    for witness in found.decisions.iter().flatten() {
        all.push(*witness)?;
    }
    Ok(all)
}

/// What is told of an order that is done again.
#[derive(Drop)]
struct Retold {
    graph: Graph,
    /// How many events there were.
    place: usize,
    words: String,
    /// Each caller's records.
    records: Vec<String>,
    steps: String,
}

/// An order as an account or as a script, in one line.
pub fn witness_of(
    alloc: Global,
    question: &Question,
    found: &Found,
    witness: Witness,
    shape: OrderShape,
) -> Result<String, AllocError> {
    let order = found.order(alloc, witness)?;
    let mut told = begin(alloc, question)?;
    told.retell(alloc, question, &order, shape)
}

/// Nothing is done yet.
fn begin(alloc: Global, question: &Question) -> Result<Retold, AllocError> {
    let mut records = Vec::new(alloc);
    for _ in 0..question.hands.saturating_add(1) {
        records.push(String::new(alloc))?;
    }
    Ok(Retold {
        graph: Graph::growing_of(alloc, &question.plan, question.room)?,
        place: 0,
        words: String::new(alloc),
        records,
        steps: String::new(alloc),
    })
}

impl Retold {
    /// An order's moves, and all of it as an account or as a script.
    fn retell(
        &mut self,
        alloc: Global,
        question: &Question,
        order: &[Move],
        shape: OrderShape,
    ) -> Result<String, AllocError> {
        self.go_through(alloc, question, order)?;
        match shape {
            OrderShape::Account => self.account(alloc, question),
            OrderShape::Script => self.script(alloc, question),
        }
    }

    /// An order's moves, from the start on.
    fn go_through(
        &mut self,
        alloc: Global,
        question: &Question,
        order: &[Move],
    ) -> Result<(), AllocError> {
        let mut s = question.program.start(alloc)?;
        for by in order {
            self.go_on(question, &s, *by)?;
            s = question.program.moved(alloc, &question.functions, &s, *by)?;
        }
        Ok(())
    }

    /// One move more.
    fn go_on(&mut self, question: &Question, s: &Situation, by: Move) -> Result<(), AllocError> {
        match question.program.event(s, by) {
            Some(event) => self.act(question, s, by, event),
            None => self.look(question, s, by),
        }
    }

    /// A move that is an event.
    fn act(
        &mut self,
        question: &Question,
        s: &Situation,
        by: Move,
        event: Event,
    ) -> Result<(), AllocError> {
        if !self.graph.takes(&event) || !is_event(&event) {
            return Ok(());
        }
        let word = encode(&event);
        let reply = self.graph.answer(&event);
        self.place = self.place.saturating_add(1);
        let comma = if self.place > 1 { "," } else { "" };
        write!(self.words, "{comma}\"{word}\"")?;
        self.record(usize::from(event.who()), word, reply)?;
        self.step(question, s, by, event)
    }

    /// The record of an event's caller.
    fn record(&mut self, who: usize, word: u64, reply: Reply) -> Result<(), AllocError> {
        match self.records.get_mut(who) {
            None => Ok(()),
            Some(text) => {
                comma(text)?;
                write_did(text, self.place, word, reply)
            }
        }
    }

    /// An event as a step of a script: a caller's as it was written.
    fn step(
        &mut self,
        question: &Question,
        s: &Situation,
        by: Move,
        event: Event,
    ) -> Result<(), AllocError> {
        comma(&mut self.steps)?;
        match (by, event) {
            (Move::Step(c), _) => self.own_step(question, s, c),
            (_, Event::Claim { who, stage }) => write!(self.steps, "[\"claim\",{who},{stage}]"),
            (_, Event::Finish { who, stage, answer }) => {
                write!(self.steps, "[\"finish\",{who},{stage},")?;
                write_answer(&mut self.steps, answer)?;
                self.steps.push(']')
            }
            (_, Event::Tick { moment, .. }) => write!(self.steps, "[\"tick\",{moment}]"),
            _ => self.steps.push_str("null"),
        }
    }

    /// A caller's next step as it was written.
    fn own_step(&mut self, question: &Question, s: &Situation, c: u8) -> Result<(), AllocError> {
        self.steps
            .push_str(written(question, c, usize::from(s.place(c).at)))
    }

    /// A move that is no event: a question, or nothing that a graph is told of.
    fn look(&mut self, question: &Question, s: &Situation, by: Move) -> Result<(), AllocError> {
        let Move::Step(c) = by else {
            return Ok(());
        };
        let ask = match question.program.step(s, c) {
            Some(Step::Look(ask)) => ask,
            Some(Step::Join(stage, _)) => Ask::Outcome(stage),
            _ => return Ok(()),
        };
        let Some(told) = told(&mut self.graph, ask) else {
            return Ok(());
        };
        comma(&mut self.steps)?;
        self.own_step(question, s, c)?;
        self.saw(usize::from(c), ask, told)
    }

    /// The record of a question.
    fn saw(&mut self, c: usize, ask: Ask, told: Told) -> Result<(), AllocError> {
        match self.records.get_mut(c) {
            None => Ok(()),
            Some(text) => {
                comma(text)?;
                write_saw(text, self.place, ask, told)
            }
        }
    }

    /// All of it as an account.
    fn account(&mut self, alloc: Global, question: &Question) -> Result<String, AllocError> {
        let mut text = String::new(alloc);
        self.write_account(&mut text, question)?;
        Ok(text)
    }

    fn write_account(&mut self, text: &mut String, question: &Question) -> Result<(), AllocError> {
        write!(
            text,
            "{{\"plan\":{{{}}},\"functions\":{},\"events\":[{}],\"callers\":[",
            question.head,
            question.functions.len(),
            self.words
        )?;
        self.write_records(text)?;
        text.push_str("],\"outcomes\":[")?;
        self.write_outcomes(text)?;
        text.push_str("]}")
    }

    fn write_records(&self, text: &mut String) -> Result<(), AllocError> {
        let mut comma = "";
        for records in self.records.iter() {
            write!(text, "{comma}[{records}]")?;
            comma = ",";
        }
        Ok(())
    }

    fn write_outcomes(&mut self, text: &mut String) -> Result<(), AllocError> {
        for i in 0..self.graph.stages() {
            text.push_str(if i > 0 { ",\"" } else { "\"" })?;
            write_settled(text, outcome(&mut self.graph, i))?;
            text.push('"')?;
        }
        Ok(())
    }

    /// All of it as a script.
    fn script(&mut self, alloc: Global, question: &Question) -> Result<String, AllocError> {
        format!(in alloc; "{{{},\"steps\":[{}]}}", question.head, self.steps)
    }
}

/// A step of a caller as it was written.
fn written(question: &Question, c: u8, at: usize) -> &str {
    let Some(own) = question.steps.get(usize::from(c)) else {
        return "null";
    };
    match own.get(at) {
        Some(step) => step.text.as_str(),
        None => "null",
    }
}

/// The outcome of a stage that is there.
fn outcome(graph: &mut Graph, i: u16) -> Option<Outcome> {
    if graph.has(i) { graph.outcome(i) } else { None }
}

/// What a question about a stage that is there is told.
fn told(graph: &mut Graph, ask: Ask) -> Option<Told> {
    match ask {
        Ask::Now(i, absent) if graph.has(i) => Some(Told::Now(graph.now(i, absent))),
        Ask::Outcome(i) if graph.has(i) => Some(Told::Outcome(graph.outcome(i))),
        _ => None,
    }
}

/// Adds a comma, but to nothing.
pub(crate) fn comma(text: &mut String) -> Result<(), AllocError> {
    if text.is_empty() {
        Ok(())
    } else {
        text.push(',')
    }
}

fn write_answer(text: &mut String, answer: Answer) -> Result<(), AllocError> {
    match answer {
        Answer::Give(Value::Nil) => text.push_str("{\"give\":null}"),
        Answer::Give(Value::Int(v)) => write!(text, "{{\"give\":{v}}}"),
        Answer::Throw(code) => write!(text, "{{\"throw\":{code}}}"),
        Answer::Link(j) => write!(text, "{{\"link\":{j}}}"),
    }
}
