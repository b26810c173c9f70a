//! A scene as a page.
use crate::layout::BOX;
use crate::scene::Scene;
use crate::template::{HEAD, TAIL};
use cf_forms::{Limit, LimitKind};
use cf_telling::{Link, People, Run, Seen, Text, Within, write_bare_name};
use std::alloc::{AllocError, Global};

/// The page of a scene: one file of HTML that loads nothing. It fails only where there is no memory.
pub fn page_of(alloc: Global, scene: &Scene, people: &People) -> Result<String, AllocError> {
    let mut out = Text::new(alloc, Within::Json);
    out.add(HEAD);
    write_data(&mut out, scene, people);
    out.add(TAIL);
    out.whole()
}

/// Adds all that the page knows, as JSON.
fn write_data(out: &mut Text, scene: &Scene, people: &People) {
    write_top(out, people, is_timed(scene, people));
    write_size(out, scene);
    write_plan(out, scene, people);
    write_told(out, scene);
    write_callers(out, scene, people)
}

/// Adds the name, the verdict, and whether events have times.
fn write_top(out: &mut Text, people: &People, is_timed: bool) {
    out.add("{\"name\":");
    out.add_string(&people.name);
    out.add_with(",\"fits\":", people.fits);
    out.add(",\"verdict\":");
    out.add_string(&people.verdict);
    out.add_with(",\"timed\":", is_timed);
}

/// Adds how large the picture is, and a box in it.
fn write_size(out: &mut Text, scene: &Scene) {
    out.add_with(",\"size\":[", scene.size.width);
    out.add_with(",", scene.size.height);
    out.add_with(",", BOX.width);
    out.add_with(",", BOX.height);
    out.add("]");
}

/// Adds the stages and the edges between them.
fn write_plan(out: &mut Text, scene: &Scene, people: &People) {
    out.add(",\n\"stages\":[");
    write_stages(out, scene, people);
    out.add("],\n\"edges\":[");
    write_edges(out, scene)
}

fn write_stages(out: &mut Text, scene: &Scene, people: &People) {
    for (i, seen) in scene.tale.notes.stages.iter().enumerate() {
        out.add_comma(i);
        write_stage(
            out,
            scene,
            people,
            u16::try_from(i).unwrap_or(u16::MAX),
            seen,
        );
    }
}

/// Adds what was told before the first event, and then of each.
fn write_told(out: &mut Text, scene: &Scene) {
    out.add("],\n\"start\":[");
    out.add_text(&scene.start);
    out.add("],\n\"events\":[");
    out.add_text(&scene.events);
}

/// Adds the callers and their calls of functions.
fn write_callers(out: &mut Text, scene: &Scene, people: &People) {
    out.add("],\n\"lanes\":[");
    write_lanes(out, people);
    out.add("],\n\"runs\":[");
    write_runs(out, &scene.tale.notes.runs);
    out.add("]}");
}

fn write_runs(out: &mut Text, runs: &[Run]) {
    for (k, run) in runs.iter().enumerate() {
        out.add_comma(k);
        write_run(out, *run);
    }
}

/// Whether each event has a time.
fn is_timed(scene: &Scene, people: &People) -> bool {
    !people.times.is_empty() && people.times.len() >= scene.count()
}

/// Adds a stage: name, form, sources, place in the picture, the place by which it is there, the stage from which its outcome
/// came, its limits, the place by which it settled.
fn write_stage(out: &mut Text, scene: &Scene, people: &People, i: u16, seen: &Seen) {
    out.add("[\"");
    write_bare_name(out, &scene.tale.notes, people, i);
    write_form(out, seen);
    write_origin(out, seen);
    write_limits(out, scene.tale.plan.limits(), i);
    match seen.settled {
        Some((_, place)) => {
            out.add_with("],", place);
            out.add("]");
        },
        None => out.add("],null]"),
    }
}

/// Adds a stage's form, sources and place in the picture.
fn write_form(out: &mut Text, seen: &Seen) {
    out.add_with("\",\"", seen.form.name());
    out.add("\",[");
    for (k, j) in seen.of.iter().enumerate() {
        out.add_comma(k);
        out.add_value(*j);
    }
    out.add_with("],", seen.x);
    out.add_with(",", seen.y);
    out.add(",");
}

/// Adds the place by which a stage is there, and the stage from which its outcome came.
fn write_origin(out: &mut Text, seen: &Seen) {
    out.add_value(seen.born);
    match seen.from {
        Some(j) => out.add_with(",", j),
        None => out.add(",null"),
    }
    out.add(",[");
}

/// Adds the limits of a stage, in words.
fn write_limits(out: &mut Text, limits: &[Limit], i: u16) {
    let mut count = 0;
    for limit in limits {
        if limit.stage == i {
            out.add_comma(count);
            write_limit(out, *limit);
            count = 1;
        }
    }
}

fn write_limit(out: &mut Text, limit: Limit) {
    match limit.kind {
        LimitKind::Timeout(code) => {
            out.add_with("\"times out at ", limit.at);
            write_code(out, code);
            out.add("\"");
        },
        LimitKind::Give(v) => {
            out.add_with("\"is completed with value ", v);
            out.add_with(" at ", limit.at);
            out.add("\"");
        },
    }
}

/// Adds the code of a limit, unless it is 0.
fn write_code(out: &mut Text, code: u32) {
    if code != 0 {
        out.add_with(", code ", code);
    }
}

/// Adds an edge from each source, and one for each link with the place by which it is there.
fn write_edges(out: &mut Text, scene: &Scene) {
    let mut count = 0;
    for (i, seen) in scene.tale.notes.stages.iter().enumerate() {
        for j in seen.of.iter() {
            out.add_comma(count);
            out.add_with("[", *j);
            out.add_with(",", i);
            out.add(",0]");
            count = 1;
        }
    }
    for link in scene.tale.notes.links.iter() {
        out.add_comma(count);
        write_link(out, *link);
        count = 1;
    }
}

fn write_link(out: &mut Text, link: Link) {
    out.add_with("[", link.to);
    out.add_with(",", link.stage);
    out.add_with(",", link.place);
    out.add("]");
}

/// Adds the names of callers.
fn write_lanes(out: &mut Text, people: &People) {
    for (k, name) in people.lanes.iter().enumerate() {
        out.add_comma(k);
        out.add_string(name);
    }
}

/// Adds a call of a function: who, of which stage, from and to which place, whether it was too late.
fn write_run(out: &mut Text, run: Run) {
    out.add_with("[", run.who);
    out.add_with(",", run.stage);
    out.add_with(",", run.claimed);
    out.add(",");
    match run.finished {
        Some(place) => {
            out.add_value(place);
            out.add_with(",", u8::from(run.is_late));
            out.add("]");
        },
        None => out.add("null,0]"),
    }
}
