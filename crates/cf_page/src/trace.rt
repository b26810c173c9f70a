//! A scene as a trace of events, the JSON that Chrome's viewer and Perfetto open.
use crate::scene::Scene;
use cf_model::Event;
use cf_telling::{
    People, Run, Seen, Text, Within, write_bare_name, write_caller, write_event_alone,
    write_outcome,
};
use std::alloc::{AllocError, Global};

/// The trace of a scene. Each caller has a row, and more of them where its calls of functions overlap. A call of a function is a
/// bar, any other call a mark, and an arrow leads to a bar from that of each source. Where events have no times, each takes a
/// microsecond. It fails only where there is no memory.
pub fn trace_of(alloc: Global, scene: &Scene, people: &People) -> Result<String, AllocError> {
    let rows = rows_of(alloc, scene)?;
    let mut out = Text::new(alloc, Within::Json);
    write_head(&mut out, people);
    write_rows(&mut out, scene, people, &rows);
    write_bars(&mut out, scene, people, &rows);
    write_marks(&mut out, scene, people);
    out.add("\n]}\n");
    out.whole()
}

/// Adds the verdict and the name.
fn write_head(out: &mut Text, people: &People) {
    out.add("{\"displayTimeUnit\":\"ms\",\"otherData\":{\"verdict\":");
    out.add_string(&people.verdict);
    out.add(
        "},\"traceEvents\":[\n{\"ph\":\"M\",\"name\":\"process_name\",\"pid\":1,\"args\":{\"name\":",
    );
    out.add_string(&people.name);
    out.add("}}");
}

/// Adds a bar for each call of a function, with the arrows to it.
fn write_bars(out: &mut Text, scene: &Scene, people: &People, rows: &Rows) {
    for (k, run) in scene.tale.notes.runs.iter().enumerate() {
        write_bar(out, scene, people, *run, rows.of(k));
        write_arrows(out, scene, people, rows, k, *run);
    }
}

/// Adds the marks of events.
fn write_marks(out: &mut Text, scene: &Scene, people: &People) {
    for (k, entry) in scene.tale.entries.iter().enumerate() {
        write_mark(out, scene, people, k + 1, entry.event);
    }
}

/// A row of bars: whose, how many of that caller's rows stand above it, and the place by which its last bar ends.
#[derive(Clone, Copy)]
struct Row {
    who: u8,
    depth: u32,
    end: usize,
}

/// The rows of bars, and for each call of a function the row that its bar is in.
#[derive(Drop)]
struct Rows {
    rows: Vec<Row>,
    of: Vec<u32>,
}

impl Rows {
    /// The number of the row that the bar of a call is in.
    fn of(&self, run: usize) -> u32 {
        self.of.get(run).copied().unwrap_or(0)
    }
}

/// The number of a row: the caller's, and 64 more for each of its rows above.
fn number_of(who: u8, depth: u32) -> u32 {
    depth.saturating_mul(64).saturating_add(u32::from(who))
}

/// Rows in which no two bars overlap.
fn rows_of(alloc: Global, scene: &Scene) -> Result<Rows, AllocError> {
    let mut rows = Vec::new(alloc);
    let mut of = Vec::new(alloc);
    for run in scene.tale.notes.runs.iter() {
        of.push(put(&mut rows, run.who, run.claimed, end_of(scene, *run))?)?;
    }
    Ok(Rows { rows, of })
}

/// Puts a bar of a caller into the first of its rows that is free by then, or into a new one: the row's number.
fn put(rows: &mut Vec<Row>, who: u8, from: usize, end: usize) -> Result<u32, AllocError> {
    let mut depth = 0u32;
    for row in rows.iter_mut() {
        if row.who == who {
            if row.end <= from {
                row.end = end;
                return Ok(number_of(who, row.depth));
            }
            depth = depth.saturating_add(1);
        }
    }
    rows.push(Row { who, depth, end })?;
    Ok(number_of(who, depth))
}

/// Adds the names of rows: one for each caller, and those below it.
fn write_rows(out: &mut Text, scene: &Scene, people: &People, rows: &Rows) {
    for who in 0..64 {
        if scene
            .tale
            .entries
            .iter()
            .any(|entry| entry.event.who() == who)
        {
            write_row(out, people, who, 0);
        }
    }
    for row in rows.rows.iter() {
        if row.depth > 0 {
            write_row(out, people, row.who, row.depth);
        }
    }
}

/// Adds the name of a row.
fn write_row(out: &mut Text, people: &People, who: u8, depth: u32) {
    out.add_with(
        ",\n{\"ph\":\"M\",\"name\":\"thread_name\",\"pid\":1,\"tid\":",
        number_of(who, depth),
    );
    out.add(",");
    out.add("\"args\":{\"name\":\"");
    write_caller(out, people, who);
    if depth > 0 {
        out.add_with(", ", depth.saturating_add(1));
    }
    out.add("\"}}");
}

/// When the event at a place was done, in nanoseconds since the first.
fn moment_of(scene: &Scene, people: &People, place: usize) -> u64 {
    let k = place.saturating_sub(1);
    match people.since(people.times.len(), k) {
        Some(at) if people.times.len() >= scene.count() => at,
        _ => (k as u64).saturating_mul(1_000),
    }
}

/// Where a call of a function ended; the last event of all, where it didn't.
fn end_of(scene: &Scene, run: Run) -> usize {
    run.finished.unwrap_or(scene.count())
}

/// Adds the bar of a call of a function.
fn write_bar(out: &mut Text, scene: &Scene, people: &People, run: Run, row: u32) {
    out.add_with(",\n{\"ph\":\"X\",\"cat\":\"stage\",\"pid\":1,\"tid\":", row);
    out.add(",\"name\":\"");
    write_bare_name(out, &scene.tale.notes, people, run.stage);
    write_times(out, scene, people, run);
    write_places(out, run);
    if let Some(seen) = scene.tale.notes.stages.get(run.stage as usize) {
        write_end(out, people, seen);
    }
    out.add("}}");
}

/// Adds when a bar begins, and how long it is.
fn write_times(out: &mut Text, scene: &Scene, people: &People, run: Run) {
    let from = moment_of(scene, people, run.claimed);
    let to = moment_of(scene, people, end_of(scene, run));
    out.add("\",\"ts\":");
    out.add_thousandths(from);
    out.add(",\"dur\":");
    out.add_thousandths(to.saturating_sub(from))
}

/// Adds the places of a call's claim and finish.
fn write_places(out: &mut Text, run: Run) {
    out.add_with(",\"args\":{\"stage\":", run.stage);
    out.add_with(",\"claimed\":", run.claimed);
    if let Some(place) = run.finished {
        out.add_with(",\"finished\":", place);
        out.add_with(",\"late\":", run.is_late);
    }
}

/// Adds a stage's form and what it settled with.
fn write_end(out: &mut Text, people: &People, seen: &Seen) {
    out.add_with(",\"form\":\"", seen.form.name());
    out.add("\",\"outcome\":\"");
    match seen.settled {
        Some((outcome, _)) => write_outcome(out, people, outcome),
        None => out.add("pending"),
    }
    out.add("\"");
}

/// Adds an arrow to call `k` from each source whose function was called.
fn write_arrows(out: &mut Text, scene: &Scene, people: &People, rows: &Rows, k: usize, run: Run) {
    let Some(seen) = scene.tale.notes.stages.get(run.stage as usize) else {
        return;
    };
    for (at, j) in seen.of.iter().enumerate() {
        let is_first = !seen.of.iter().take(at).any(|other| *other == *j);
        if let (true, Some(number)) = (is_first, run_of(scene, *j)) {
            if let Some(source) = scene.tale.notes.runs.get(number) {
                let from = starts_at(scene, people, *source, rows.of(number));
                let to = ArrowEnd {
                    row: rows.of(k),
                    at: moment_of(scene, people, run.claimed),
                };
                write_arrow(out, (source.stage, run.stage), from, to);
            }
        }
    }
}

/// The number of the call of a stage's function, if it was finished.
fn run_of(scene: &Scene, stage: u16) -> Option<usize> {
    let number = scene.tale.notes.stages.get(stage as usize)?.run?;
    let run = *scene.tale.notes.runs.get(number)?;
    if run.finished.is_some() {
        Some(number)
    } else {
        None
    }
}

/// An end of an arrow: its row, and its moment in nanoseconds.
#[derive(Clone, Copy)]
struct ArrowEnd {
    row: u32,
    at: u64,
}

/// Where an arrow from a call starts: within its bar, just before that ends, since tools bind it to the bar round it.
fn starts_at(scene: &Scene, people: &People, source: Run, row: u32) -> ArrowEnd {
    let begin = moment_of(scene, people, source.claimed);
    let end = moment_of(scene, people, end_of(scene, source));
    ArrowEnd {
        row,
        at: end.saturating_sub(1).max(begin),
    }
}

/// Adds an arrow between the bars of two stages; none back in time.
fn write_arrow(out: &mut Text, stages: (u16, u16), from: ArrowEnd, to: ArrowEnd) {
    if from.at > to.at {
        return;
    }
    let (source, stage) = stages;
    let id = u32::from(source)
        .saturating_mul(4_096)
        .saturating_add(u32::from(stage));
    out.add(",\n{\"ph\":\"s\"");
    write_arrow_end(out, id, from);
    out.add(",\n{\"ph\":\"f\",\"bp\":\"e\"");
    write_arrow_end(out, id, to)
}

/// Adds an end of an arrow.
fn write_arrow_end(out: &mut Text, id: u32, end: ArrowEnd) {
    out.add_with(",\"cat\":\"source\",\"name\":\"source\",\"id\":", id);
    out.add_with(",\"pid\":1,\"tid\":", end.row);
    out.add(",\"ts\":");
    out.add_thousandths(end.at);
    out.add("}");
}

/// Adds the mark of an event that is neither a claim nor a finish.
fn write_mark(out: &mut Text, scene: &Scene, people: &People, place: usize, event: Event) {
    if matches!(event, Event::Claim { .. } | Event::Finish { .. }) {
        return;
    }
    out.add_with(
        ",\n{\"ph\":\"i\",\"s\":\"t\",\"cat\":\"call\",\"pid\":1,\"tid\":",
        event.who(),
    );
    out.add(",");
    out.add("\"name\":\"");
    write_event_alone(out, &scene.tale.notes, people, event);
    out.add("\",\"ts\":");
    out.add_thousandths(moment_of(scene, people, place));
    out.add_with(",\"args\":{\"place\":", place);
    out.add("}}");
}
