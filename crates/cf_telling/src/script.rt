//! A tale as the script that `cf run` does again, and as what that prints.
use crate::tale::Tale;
use crate::text::{Text, Within};
use cf_forms::{Answer, Form, Limit, Of};
use cf_model::Event;
use cf_outcome::Value;
use cf_plan::Plan;
use std::alloc::{AllocError, Global};

/// One line of JSON: the plan, and each event as a step. It fails only where there is no memory.
///
/// Functions stand there as constants with their numbers. No step calls them, since each finish says what its function answered.
pub(crate) fn script_of(alloc: Global, tale: &Tale) -> Result<String, AllocError> {
    let mut out = Text::new(alloc, Within::Json);
    out.add_with("{\"cf\":", version_of(tale));
    out.add(",");
    write_plan(&mut out, tale);
    out.add(",\"steps\":[");
    for (k, entry) in tale.entries.iter().enumerate() {
        out.add_comma(k);
        write_step(&mut out, entry.event);
    }
    out.add("]}\n");
    out.whole()
}

/// What `cf run` prints of that script: a line for each reply, and for each stage what it holds. It fails only where there is no
/// memory.
pub(crate) fn report_of(alloc: Global, tale: &Tale) -> Result<String, AllocError> {
    let mut out = Text::new(alloc, Within::Lines);
    for entry in tale.entries.iter() {
        out.add_reply(entry.reply);
        out.add("\n");
    }
    for (i, seen) in tale.notes.stages.iter().enumerate() {
        out.add_with("stage ", i);
        out.add(" ");
        match seen.settled {
            Some((outcome, _)) => out.add_settled(Some(outcome)),
            None => out.add_settled(None),
        }
        out.add("\n");
    }
    out.whole()
}

/// The least version of scripts, from 2 on, that has all these steps.
fn version_of(tale: &Tale) -> u8 {
    let mut version = 2;
    for entry in tale.entries.iter() {
        if matches!(entry.event, Event::FailAs { .. }) {
            version = 3;
        }
    }
    version
}

/// Adds the members of a plan: room, stages and limits.
pub(crate) fn write_plan(out: &mut Text, tale: &Tale) {
    out.add_with("\"room\":", tale.room);
    out.add(",\"stages\":[");
    write_stages(out, &tale.plan);
    out.add("]");
    if !tale.plan.limits().is_empty() {
        out.add(",\"limits\":[");
        write_limits(out, tale.plan.limits());
        out.add("]");
    }
}

fn write_stages(out: &mut Text, plan: &Plan) {
    for i in 0..plan.stages() {
        out.add_comma(usize::from(i));
        write_form(out, plan.form(i));
        write_sources(out, plan.sources(i));
        write_function(out, plan.function(i));
    }
}

fn write_form(out: &mut Text, form: Form) {
    out.add("{\"form\":\"");
    out.add(form.name());
    out.add("\"");
}

fn write_sources(out: &mut Text, of: &[u16]) {
    if of.is_empty() {
        return;
    }
    out.add(",\"of\":[");
    for (k, j) in of.iter().enumerate() {
        out.add_comma(k);
        out.add_value(*j);
    }
    out.add("]");
}

/// Adds a stage's function, and ends the stage.
fn write_function(out: &mut Text, function: Option<u16>) {
    match function {
        Some(number) => {
            out.add_with(",\"fn\":{\"const\":", number);
            out.add("}}");
        },
        None => out.add("}"),
    }
}

fn write_limits(out: &mut Text, limits: &[Limit]) {
    for (k, limit) in limits.iter().enumerate() {
        out.add_comma(k);
        out.add_limit(*limit);
    }
}

fn write_value(out: &mut Text, value: Value) {
    match value {
        Value::Nil => out.add("null"),
        Value::Int(number) => out.add_value(number),
    }
}

/// Adds an event as a step.
fn write_step(out: &mut Text, event: Event) {
    match event {
        Event::Complete { stage, value, .. } => {
            out.add_with("[\"complete\",", stage);
            out.add(",");
            write_value(out, value)
        }
        Event::Fail { stage, code, .. } => {
            out.add_with("[\"fail\",", stage);
            out.add_with(",", code)
        }
        Event::FailAs { stage, failure, .. } => out.add_failing(stage, failure),
        Event::Cancel { stage, .. } => out.add_with("[\"cancel\",", stage),
        Event::Claim { who, stage } => {
            out.add_with("[\"claim\",", who);
            out.add_with(",", stage)
        }
        Event::Finish { who, stage, answer } => {
            out.add_with("[\"finish\",", who);
            out.add_with(",", stage);
            write_answer(out, answer)
        }
        Event::Tick { moment, .. } => out.add_with("[\"tick\",", moment),
        Event::Attach {
            form,
            of,
            function,
            ..
        } => {
            out.add("[\"attach\",");
            write_form(out, form);
            write_attached(out, of);
            write_function(out, function)
        }
    }
    out.add("]")
}

fn write_answer(out: &mut Text, answer: Answer) {
    match answer {
        Answer::Give(value) => {
            out.add(",{\"give\":");
            write_value(out, value)
        }
        Answer::Throw(code) => out.add_with(",{\"throw\":", code),
        Answer::Link(stage) => out.add_with(",{\"link\":", stage),
    }
    out.add("}")
}

fn write_attached(out: &mut Text, of: Of) {
    match of {
        Of::None => {}
        Of::One(a) => write_sources(out, &[a]),
        Of::Two(a, b) => write_sources(out, &[a, b]),
    }
}
