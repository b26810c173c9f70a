//! Events that attach stages: the words of all of them, and what they do to a graph with room.
ghost use Rattle.std.specs.Prelude.{◌≡◌, ◌<◌, length};

use crate::checks::{holds, must};
use crate::event::words::is_word;
use cf_core::Graph;
use cf_event::{Event, decode, encode, is_event, replay};
use cf_forms::{Form, Of, fits_form};
use cf_outcome::{Outcome, Value};
use cf_plan::PlanBuilder;
use std::alloc::Global;
use std::process::Abort;

/// Each form by its number, how many sources it takes at least and at most, and whether it has a function.
static FORMS: [(Form, u16, u16, bool); 19] = [
    (Form::Source, 0, 0, false),
    (Form::Supply, 0, 0, true),
    (Form::RunAsync, 0, 0, true),
    (Form::Apply, 1, 1, true),
    (Form::Accept, 1, 1, true),
    (Form::ThenRun, 1, 1, true),
    (Form::Combine, 2, 2, true),
    (Form::AcceptBoth, 2, 2, true),
    (Form::RunBoth, 2, 2, true),
    (Form::ApplyEither, 2, 2, true),
    (Form::AcceptEither, 2, 2, true),
    (Form::RunEither, 2, 2, true),
    (Form::Compose, 1, 1, true),
    (Form::Handle, 1, 1, true),
    (Form::WhenComplete, 1, 1, true),
    (Form::Exceptionally, 1, 1, true),
    (Form::AllOf, 0, 2, false),
    (Form::AnyOf, 0, 2, false),
    (Form::ExceptionallyCompose, 1, 1, true),
];

static SOURCES: [Of; 7] = [
    Of::None,
    Of::One(0),
    Of::One(5),
    Of::Two(0, 0),
    Of::Two(0, 7),
    Of::Two(5, 0),
    Of::Two(5, 7),
];

static FUNCTIONS: [Option<u16>; 3] = [None, Some(0), Some(9)];

/// How many of those stages fit their form: one of Source, two for each form without a source and with a function, four for
/// each with one source, eight for each with two, seven for each that takes any.
const FITTING: u32 = 1 + 2 * 2 + 8 * 4 + 6 * 8 + 2 * 7;

/// Whether the word of an event that attaches has the form's number.
fn is_numbered(event: &Event, number: u64) -> bool {
    if !is_event(event) {
        return false;
    }
    let word = encode(event);
    word / (1 << 24) % 256 == number && decode(word) == Some(*event)
}

/// Whether a stage fits its form as wanted. If it does, its attaching has a word with the number of the form, and else it
/// has none.
fn fits_so(number: u64, form: Form, of: Of, function: Option<u16>, wanted: bool) -> bool {
    let event = Event::Attach {
        who: 3,
        form,
        of,
        function,
    };
    let fits = fits_form(form, of.count(), function.is_some());
    (fits == wanted) & (is_event(&event) == wanted) & (is_numbered(&event, number) == wanted)
}

/// How many of those sources and functions fit the form of this number.
fn count_fitting(rt: &impl Abort, number: usize, row: (Form, u16, u16, bool)) -> u32 {
    let (form, least, most, called) = row;
    let mut found: u32 = 0;
    for of in &SOURCES {
        let counts = least <= of.count() && of.count() <= most;
        for function in &FUNCTIONS {
            let wanted = counts && called == function.is_some();
            let is_right = fits_so(number as u64, form, *of, *function, wanted);
            holds(rt, is_right, (form, of, function));
            found = found.wrapping_add(wanted as u32);
        }
    }
    found
}

#[test]
fn stages_that_fit_their_form_have_words(rt: HostRuntime) {
    let mut found: u32 = 0;
    for (number, row) in FORMS.iter().enumerate() {
        found = found.wrapping_add(count_fitting(&rt, number, *row));
    }
    holds(&rt, found == FITTING, found);
}

/// Those are all words with these sources and functions: each form's number up to 255, with each number of sources up to 15.
#[test]
fn no_other_word_attaches(rt: HostRuntime) {
    let mut found: u32 = 0;
    for form in 0..256u64 {
        for count in 0..16u64 {
            found = found.wrapping_add(count_words(&rt, form, count));
        }
    }
    holds(&rt, found == FITTING, found);
}

/// The sources and the functions of those events, as the bits of their words.
static BITS: [u64; 8] = [
    0,
    9,
    7 << 12,
    7 << 12 | 9,
    5 << 36,
    5 << 36 | 9,
    5 << 36 | 7 << 12,
    5 << 36 | 7 << 12 | 9,
];

/// How many words attach a stage of the form of this number with so many sources.
fn count_words(rt: &impl Abort, form: u64, count: u64) -> u32 {
    let mut found: u32 = 0;
    for bits in &BITS {
        let word = 0x0703000000000000 | count << 32 | form << 24 | *bits;
        found = found.wrapping_add(is_word(rt, word) as u32);
    }
    found
}

/// The graph of one source, with room for two stages.
fn growing(rt: &impl Abort, alloc: Global) -> Graph
    ensures room { result.state.plan.room ≡ 2 }
    ensures stages { 0 < length result.state.plan.stages }
{
    let mut builder = PlanBuilder::new(alloc);
    must(rt, builder.stage(Form::Source, &[], None));
    let plan = must(rt, builder.build());
    let has_place = plan.stages() > 0 && plan.stages() <= 4094 && plan.edges() <= 16380;
    holds(rt, has_place, "place");
    must(rt, Graph::new_growing(alloc, plan, 2))
}

/// Whether a stage is there, and has this outcome.
fn is_settled(graph: &mut Graph, i: u16, outcome: Outcome) -> bool {
    graph.has(i) && graph.outcome(i) == Some(outcome)
}

/// The second names the stage that the first attaches.
static EVENTS: [Event; 2] = [
    Event::Attach {
        who: 0,
        form: Form::AllOf,
        of: Of::One(0),
        function: None,
    },
    Event::Complete {
        who: 1,
        stage: 1,
        value: Value::Int(4),
    },
];

#[test]
fn replayed_events_name_stages_attached_before(rt: HostRuntime) {
    let mut graph = growing(&rt, rt.alloc());
    replay(&mut graph, &EVENTS, &[1]);
    let four = Outcome::Value(Value::Int(4));
    holds(&rt, is_settled(&mut graph, 1, four), four);
    drop(graph);
}
