//! What was done and what came of it, in the words of docs/FORMATS.md, "Histories in words".
use crate::noting::Notes;
use crate::people::People;
use crate::text::Text;
use cf_forms::{Answer, Args, Form};
use cf_model::{Attached, Claimed, Event, Failure, Finished, Reply, Ticked};
use cf_outcome::{Cause, Outcome, Value};

/// Adds who does what, and what comes of it.
pub fn write_event(out: &mut Text, notes: &Notes, people: &People, event: Event, reply: Reply) {
    write_caller(out, people, event.who());
    match event {
        Event::Complete { stage, value, .. } => {
            write_call(out, notes, people, "completes", stage);
            write_completed(out, people, value, reply)
        }
        Event::Fail { stage, code, .. } => {
            write_call(out, notes, people, "fails", stage);
            write_failed(out, people, code, reply)
        }
        Event::FailAs { stage, failure, .. } => {
            write_failing(out, notes, people, failure, stage);
            write_flag(out, reply)
        }
        Event::Cancel { stage, .. } => {
            write_call(out, notes, people, "cancels", stage);
            write_flag(out, reply)
        }
        Event::Claim { stage, .. } => {
            write_call(out, notes, people, "claims", stage);
            write_claimed(out, people, reply)
        }
        Event::Finish { stage, answer, .. } => {
            write_call(out, notes, people, "finishes", stage);
            write_answered(out, notes, people, answer, reply)
        }
        Event::Tick { moment, .. } => write_tick(out, moment, reply),
        Event::Attach { .. } => write_attach(out, notes, people, reply),
    }
}

fn write_completed(out: &mut Text, people: &People, value: Value, reply: Reply) {
    out.add(" with ");
    write_value(out, people, value);
    write_flag(out, reply)
}

fn write_failed(out: &mut Text, people: &People, code: u32, reply: Reply) {
    out.add(" with ");
    write_error(out, people, code);
    write_flag(out, reply)
}

fn write_answered(out: &mut Text, notes: &Notes, people: &People, answer: Answer, reply: Reply) {
    write_answer(out, notes, people, answer);
    write_finished(out, reply)
}

/// Adds who does what, of an event of which nothing more is told than the call.
pub fn write_event_alone(out: &mut Text, notes: &Notes, people: &People, event: Event) {
    write_caller(out, people, event.who());
    match event {
        Event::Complete { stage, .. } => write_call(out, notes, people, "completes", stage),
        Event::Fail { stage, .. } => write_call(out, notes, people, "fails", stage),
        Event::FailAs { stage, failure, .. } => {
            write_failing(out, notes, people, failure, stage)
        }
        Event::Cancel { stage, .. } => write_call(out, notes, people, "cancels", stage),
        Event::Claim { stage, .. } => write_call(out, notes, people, "claims", stage),
        Event::Finish { stage, .. } => write_call(out, notes, people, "finishes", stage),
        Event::Tick { moment, .. } => out.add_with(" lets it be ", moment),
        Event::Attach { .. } => out.add(" attaches a stage"),
    }
}

/// Adds that a caller fails a stage so.
fn write_failing(out: &mut Text, notes: &Notes, people: &People, failure: Failure, stage: u16) {
    match failure {
        Failure::TimedOut(code) => {
            write_call(out, notes, people, "times out", stage);
            write_code(out, people, code)
        }
        Failure::BadAnswer(code) => {
            write_call(out, notes, people, "fails", stage);
            out.add(" with a bad answer");
            write_code(out, people, code)
        }
    }
}

fn write_call(out: &mut Text, notes: &Notes, people: &People, what: &str, stage: u16) {
    out.add(" ");
    out.add(what);
    out.add(" ");
    write_name(out, notes, people, stage)
}

fn write_flag(out: &mut Text, reply: Reply) {
    match reply {
        Reply::Flag(true) => {}
        _ => out.add(": too late"),
    }
}

fn write_claimed(out: &mut Text, people: &People, reply: Reply) {
    match reply {
        Reply::Claim(Claimed::Granted(args)) => {
            out.add(" and calls it");
            write_args(out, people, args)
        }
        Reply::Claim(Claimed::Settled) => out.add(": too late, it is settled"),
        Reply::Claim(Claimed::Taken) => out.add(": too late, another has it"),
        _ => out.add(": too early"),
    }
}

fn write_args(out: &mut Text, people: &People, args: Args) {
    match args {
        Args::None => {}
        Args::One(v) => {
            out.add(" with ");
            write_value(out, people, v)
        }
        Args::Two(v, w) => {
            out.add(" with ");
            write_value(out, people, v);
            out.add(" and ");
            write_value(out, people, w)
        }
        Args::Got(o) => {
            out.add(" with ");
            write_outcome(out, people, o)
        }
    }
}

fn write_answer(out: &mut Text, notes: &Notes, people: &People, answer: Answer) {
    match answer {
        Answer::Give(v) => {
            out.add(", which gave ");
            write_value(out, people, v)
        }
        Answer::Throw(code) => {
            out.add(", which failed with ");
            write_error(out, people, code)
        }
        Answer::Link(j) => {
            out.add(", which takes the outcome of ");
            write_name(out, notes, people, j)
        }
    }
}

fn write_finished(out: &mut Text, reply: Reply) {
    match reply {
        Reply::Finish(Finished::Won) => {}
        Reply::Finish(Finished::Late) => out.add(": too late"),
        _ => out.add(": it isn't this caller's"),
    }
}

fn write_tick(out: &mut Text, moment: u32, reply: Reply) {
    match reply {
        Reply::Tick(Ticked::Fired(1)) => {
            out.add_with(" lets it be ", moment);
            out.add(": 1 limit fires");
        },
        Reply::Tick(Ticked::Fired(n)) => {
            out.add_with(" lets it be ", moment);
            out.add_with(": ", n);
            out.add(" limits fire");
        },
        _ => {
            out.add_with(" lets it be ", moment);
            out.add(", which is past");
        },
    }
}

fn write_attach(out: &mut Text, notes: &Notes, people: &People, reply: Reply) {
    let Reply::Attach(Attached::At(i)) = reply else {
        return out.add(" attaches a stage: there is no room");
    };
    out.add(" attaches ");
    write_name(out, notes, people, i);
    match notes.stages.get(i as usize) {
        Some(seen) => {
            write_form(out, people, i, seen.form);
            write_behind(out, notes, people, &seen.of)
        },
        None => {}
    }
}

/// Adds the form of a stage that has a name. One without has that of its form.
fn write_form(out: &mut Text, people: &People, stage: u16, form: Form) {
    if people.name_of(stage).is_some() {
        out.add(", ");
        out.add(form.name());
    }
}

fn write_behind(out: &mut Text, notes: &Notes, people: &People, of: &[u16]) {
    for (k, j) in of.iter().enumerate() {
        let word = if k == 0 { " behind " } else { " and " };
        out.add(word);
        write_name(out, notes, people, *j);
    }
}

/// Adds a stage's number, and its name or that of its form.
pub fn write_name(out: &mut Text, notes: &Notes, people: &People, stage: u16) {
    out.add_value(stage);
    out.add(" ");
    write_bare_name(out, notes, people, stage)
}

/// Adds a stage's name, or that of its form.
pub fn write_bare_name(out: &mut Text, notes: &Notes, people: &People, stage: u16) {
    match people.name_of(stage) {
        Some(name) => out.add_inside(name),
        None => match notes.stages.get(stage as usize) {
            Some(seen) => out.add(seen.form.name()),
            None => out.add("stage"),
        },
    }
}

/// Adds a caller's name.
pub fn write_caller(out: &mut Text, people: &People, who: u8) {
    match people.lanes.get(who as usize) {
        Some(name) if !name.is_empty() => out.add_inside(name),
        _ => out.add_with("caller ", who),
    }
}

fn write_value(out: &mut Text, people: &People, v: Value) {
    let Value::Int(n) = v else {
        return out.add("nil");
    };
    match usize::try_from(n) {
        Ok(k) => match people.values.get(k) {
            Some(said) => out.add_inside(said),
            None => out.add_value(n),
        },
        Err(_) => out.add_value(n),
    }
}

fn write_error(out: &mut Text, people: &People, code: u32) {
    match people.errors.get(code as usize) {
        Some(said) => out.add_inside(said),
        None => out.add_with("thrown ", code),
    }
}

/// Adds what the code of a time-out or of a bad answer stands for. 0 stands for nothing.
fn write_code(out: &mut Text, people: &People, code: u32) {
    if code == 0 {
        return;
    }
    out.add(", ");
    match people.errors.get(code as usize) {
        Some(said) => out.add_inside(said),
        None => out.add_with("code ", code),
    }
}

/// Adds what a stage settled with.
pub fn write_outcome(out: &mut Text, people: &People, outcome: Outcome) {
    match outcome {
        Outcome::Value(v) => write_value(out, people, v),
        Outcome::Fault { cause, .. } => match cause {
            Cause::Thrown(code) => write_error(out, people, code),
            Cause::Cancelled => out.add("cancelled"),
            Cause::TimedOut(code) => {
                out.add("timed out");
                write_code(out, people, code)
            }
            Cause::BadAnswer(code) => {
                out.add("a bad answer");
                write_code(out, people, code)
            }
        },
    }
}

/// Adds that a fault was passed on: neither a call nor the stage's own function gave it.
pub fn write_passed(out: &mut Text, notes: &Notes, stage: u16, outcome: Outcome) {
    let is_passed = match notes.stages.get(stage as usize) {
        Some(seen) => !seen.is_own,
        None => false,
    };
    if is_passed && matches!(outcome, Outcome::Fault { .. }) {
        out.add(", passed on");
    }
}
