//! A scene as OpenTelemetry's spans, in the JSON of its protocol.
use crate::scene::Scene;
use cf_outcome::Outcome;
use cf_telling::{People, Run, Seen, Text, Within, write_bare_name, write_caller, write_outcome};
use std::alloc::{AllocError, Global};

/// The spans of a scene: one for the request, and within it one for each call of a function. A span has a link to that of each
/// source that has one. Where events have no times, each takes a microsecond. It fails only where there is no memory.
///
/// `words` are those of the scene. The number of the trace is made of them, so a request always has the same one.
pub fn spans_of(
    alloc: Global,
    scene: &Scene,
    people: &People,
    words: &[u64],
) -> Result<String, AllocError> {
    let trace = number_of(words);
    let mut out = Text::new(alloc, Within::Json);
    write_head(&mut out, people);
    write_whole(&mut out, scene, people, trace);
    for run in scene.tale.notes.runs.iter() {
        write_span(&mut out, scene, people, trace, *run);
    }
    out.add("\n]}]}]}\n");
    out.whole()
}

/// Adds whose spans these are.
fn write_head(out: &mut Text, people: &People) {
    out.add(
        "{\"resourceSpans\":[{\"resource\":{\"attributes\":[{\"key\":\"service.name\",\"value\":{\"stringValue\":",
    );
    out.add_string(&people.name);
    out.add("}}]},\"scopeSpans\":[{\"scope\":{\"name\":\"cf_look\"},\"spans\":[\n");
}

/// A number that the words make, other than 0.
fn number_of(words: &[u64]) -> u64 {
    let mut number = 14_695_981_039_346_656_037u64;
    for word in words {
        number = (number ^ *word).wrapping_mul(1_099_511_628_211);
    }
    number.max(1)
}

/// When the event at a place was done, in nanoseconds.
fn moment_of(scene: &Scene, people: &People, place: usize) -> u64 {
    let k = place.saturating_sub(1);
    match people.times.get(k) {
        Some(at) if people.times.len() >= scene.count() => *at,
        _ => (k as u64).saturating_mul(1_000),
    }
}

/// Adds the span of the request.
fn write_whole(out: &mut Text, scene: &Scene, people: &People, trace: u64) {
    out.add("{\"traceId\":\"");
    out.add_hex(trace);
    out.add_hex(trace);
    out.add("\",\"spanId\":\"ffffffffffffffff\",\"name\":");
    out.add_string(&people.name);
    out.add(",\"kind\":1,");
    let start = moment_of(scene, people, 1);
    write_times(out, start, moment_of(scene, people, scene.count()));
    out.add("{\"key\":\"cf.verdict\",\"value\":{\"stringValue\":");
    out.add_string(&people.verdict);
    out.add("}}]}");
}

/// Adds when a span begins and ends, and the head of what else is said of it.
fn write_times(out: &mut Text, start: u64, end: u64) {
    out.add_with("\"startTimeUnixNano\":\"", start);
    out.add_with("\",\"endTimeUnixNano\":\"", end);
    out.add("\",\"attributes\":[");
}

/// Adds the span of a call of a function.
fn write_span(out: &mut Text, scene: &Scene, people: &People, trace: u64, run: Run) {
    let own = span_of(run.stage);
    out.add(",\n{\"traceId\":\"");
    out.add_hex(trace);
    out.add_hex(trace);
    out.add("\",\"spanId\":\"");
    out.add_hex(own);
    out.add("\",\"parentSpanId\":\"ffffffffffffffff\",");
    write_name_and_times(out, scene, people, run);
    write_who(out, people, run);
    match scene.tale.notes.stages.get(run.stage as usize) {
        Some(seen) => write_rest(out, scene, people, trace, seen),
        None => out.add("]}"),
    }
}

fn write_name_and_times(out: &mut Text, scene: &Scene, people: &People, run: Run) {
    let start = moment_of(scene, people, run.claimed);
    let end = moment_of(scene, people, run.finished.unwrap_or(scene.count()));
    out.add("\"name\":\"");
    write_bare_name(out, &scene.tale.notes, people, run.stage);
    out.add("\",\"kind\":1,");
    write_times(out, start, end);
}

/// Adds which stage's function was called, and by whom.
fn write_who(out: &mut Text, people: &People, run: Run) {
    out.add_with(
        "{\"key\":\"cf.stage\",\"value\":{\"intValue\":\"",
        run.stage,
    );
    out.add("\"}},{\"key\":\"cf.caller\",\"value\":{\"stringValue\":\"");
    write_caller(out, people, run.who);
    out.add("\"}}");
}

/// The number of the span of a stage's call.
fn span_of(stage: u16) -> u64 {
    u64::from(stage) + 1
}

/// Adds the form, the links to sources, and how the stage ended.
fn write_rest(out: &mut Text, scene: &Scene, people: &People, trace: u64, seen: &Seen) {
    out.add_with(
        ",{\"key\":\"cf.form\",\"value\":{\"stringValue\":\"",
        seen.form.name(),
    );
    out.add("\"}}],\"links\":[");
    write_links(out, scene, trace, &seen.of);
    match seen.settled {
        Some((Outcome::Value(_), _)) => out.add("],\"status\":{\"code\":1}}"),
        Some((fault, _)) => write_fault(out, people, fault),
        None => out.add("],\"status\":{\"code\":0}}"),
    }
}

/// Adds the status of a stage that ended in a fault.
fn write_fault(out: &mut Text, people: &People, fault: Outcome) {
    out.add("],\"status\":{\"code\":2,\"message\":\"");
    write_outcome(out, people, fault);
    out.add("\"}}");
}

/// Adds a link to the span of each source that has one.
fn write_links(out: &mut Text, scene: &Scene, trace: u64, of: &[u16]) {
    let mut count = 0;
    for j in of {
        if has_span(scene, *j) {
            out.add_comma(count);
            let span = span_of(*j);
            out.add("{\"traceId\":\"");
            out.add_hex(trace);
            out.add_hex(trace);
            out.add("\",\"spanId\":\"");
            out.add_hex(span);
            out.add("\"}");
            count = 1;
        }
    }
}

fn has_span(scene: &Scene, stage: u16) -> bool {
    match scene.tale.notes.stages.get(stage as usize) {
        Some(seen) => seen.run.is_some(),
        None => false,
    }
}
