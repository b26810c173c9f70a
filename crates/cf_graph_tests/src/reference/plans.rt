//! Plans that are made by rule, small ones of each choice of forms and sources, and larger ones by random numbers.
use crate::checks::must;
use cf_forms::{Form, LimitKind, Of};
use cf_outcome::Value;
use cf_plan::{Plan, PlanBuilder, PlanFault};
use rand_core::{Rng, SeedableRng};
use rand_pcg::Pcg32;
use std::alloc::Global;
use std::process::Abort;

/// How many sources a form takes.
#[derive(Clone, Copy)]
pub(crate) enum Takes {
    None,
    One,
    Two,
    Any,
}

/// Each form, how many sources it takes, and whether it has a function.
static FORMS: [(Form, Takes, bool); 19] = [
    (Form::Source, Takes::None, false),
    (Form::Supply, Takes::None, true),
    (Form::RunAsync, Takes::None, true),
    (Form::Apply, Takes::One, true),
    (Form::Accept, Takes::One, true),
    (Form::ThenRun, Takes::One, true),
    (Form::Combine, Takes::Two, true),
    (Form::AcceptBoth, Takes::Two, true),
    (Form::RunBoth, Takes::Two, true),
    (Form::ApplyEither, Takes::Two, true),
    (Form::AcceptEither, Takes::Two, true),
    (Form::RunEither, Takes::Two, true),
    (Form::Compose, Takes::One, true),
    (Form::Handle, Takes::One, true),
    (Form::WhenComplete, Takes::One, true),
    (Form::Exceptionally, Takes::One, true),
    (Form::AllOf, Takes::Any, false),
    (Form::AnyOf, Takes::Any, false),
    (Form::ExceptionallyCompose, Takes::One, true),
];

/// The sources that are the choice with this number among `k` lower stages, if there is such a choice.
pub(crate) fn choice_of(takes: Takes, k: u16, choice: u16) -> Option<Of> {
    if k == 0 || k > 8 || choice > 256 {
        return None;
    }
    match takes {
        Takes::None if choice == 0 => Some(Of::None),
        Takes::One | Takes::Any if choice < k => Some(Of::One(choice)),
        Takes::Two if choice < k * k => Some(Of::Two(choice / k, choice % k)),
        Takes::Any if choice == k => Some(Of::None),
        Takes::Any if choice > k && choice - k <= k * k => {
            let place = choice - k - 1;
            Some(Of::Two(place / k, place % k))
        }
        _ => None,
    }
}

/// A stage that is added to a plan, or attached to a graph.
#[derive(Clone, Copy)]
pub(crate) struct New {
    pub(crate) form: Form,
    pub(crate) of: Of,
    pub(crate) function: Option<u16>,
}

/// The function of a stage, if its form has one.
fn function_of(called: bool) -> Option<u16> {
    if called { Some(0) } else { None }
}

/// The stage of a form whose sources are the choice with this number among `k` stages, if there is such a choice.
pub(crate) fn new_choice(form: usize, k: u16, choice: u16) -> Option<New> {
    if form >= 19 {
        return None;
    }
    let (form, takes, called) = FORMS[form];
    let of = choice_of(takes, k, choice)?;
    let function = function_of(called);
    Some(New { form, of, function })
}

/// How many pairs of stages have a number.
pub(crate) const PAIRS: usize = 19 * 7 * 19 * 13;

/// The pair of stages over two sources with this number, if there is one, each by the place of its form and its choice. The
/// second may name the first.
pub(crate) fn pair_of(number: usize) -> Option<[New; 2]> {
    let (first, second) = (number / (19 * 13), number % (19 * 13));
    let one = new_choice(first / 7, 2, (first % 7) as u16)?;
    let other = new_choice(second / 13, 3, (second % 13) as u16)?;
    Some([one, other])
}

/// As many of two sources as a form takes, or so many where it takes any.
fn of_takes(takes: Takes, a: u16, b: u16, many: u32) -> Of {
    match takes {
        Takes::None => Of::None,
        Takes::One => Of::One(a),
        Takes::Two => Of::Two(a, b),
        Takes::Any => match many {
            0 => Of::None,
            1 => Of::One(a),
            _ => Of::Two(a, b),
        },
    }
}

/// The stage of a number over lower ones, and the place of its form.
pub(crate) fn new_of(x: u32, stages: u16) -> (u32, New) {
    let place = (x >> 3) % 19;
    let (form, takes, called) = FORMS[place as usize];
    let below = if stages == 0 { 1 } else { stages };
    let a = (x >> 20) as u16 % below;
    let b = (x >> 12 & 255) as u16 % below;
    let of = of_takes(takes, a, b, x >> 10 & 3);
    let function = function_of(called);
    (place, New { form, of, function })
}

/// Two sources, to which stages are added.
fn builder_of(rt: &impl Abort, alloc: Global) -> PlanBuilder {
    let mut builder = PlanBuilder::new(alloc);
    for _ in 0..2 {
        must(rt, builder.stage(Form::Source, &[], None));
    }
    builder
}

/// The plan that was begun so, with these limits.
fn limited(rt: &impl Abort, mut builder: PlanBuilder, limits: &[(u16, u32, LimitKind)]) -> Plan {
    for (stage, at, kind) in limits {
        must(rt, builder.limit(*stage, *at, *kind));
    }
    must(rt, builder.build())
}

/// Adds a stage.
fn add(builder: &mut PlanBuilder, new: New) -> Result<u16, PlanFault> {
    let New { form, of, function } = new;
    match of {
        Of::None => builder.stage(form, &[], function),
        Of::One(a) => builder.stage(form, &[a], function),
        Of::Two(a, b) => builder.stage(form, &[a, b], function),
    }
}

const GIVE: LimitKind = LimitKind::Give(Value::Int(9));

static TWO_LIMITS: [(u16, u32, LimitKind); 2] = [(0, 1, GIVE), (1, 2, LimitKind::Timeout(1))];

/// Two sources with a limit each.
pub(crate) fn two_sources(rt: &impl Abort, alloc: Global) -> Plan {
    limited(rt, builder_of(rt, alloc), &TWO_LIMITS)
}

static THREE_LIMITS: [(u16, u32, LimitKind); 3] = [
    (2, 2, LimitKind::Timeout(0)),
    (0, 1, GIVE),
    (1, 2, LimitKind::Timeout(7)),
];

/// Two sources, these stages, and three limits.
pub(crate) fn plan_of(rt: &impl Abort, alloc: Global, news: &[New]) -> Plan {
    let mut builder = builder_of(rt, alloc);
    for new in news {
        must(rt, add(&mut builder, *new));
    }
    limited(rt, builder, &THREE_LIMITS)
}

/// The stream of random numbers of a list of calls or of a plan, the same each time.
pub(crate) fn numbers_of(seed: u32) -> Pcg32 {
    Pcg32::seed_from_u64(u64::from(seed))
}

/// Adds the stage of a number behind `k` lower ones, with up to three sources.
fn add_by(builder: &mut PlanBuilder, k: u16, x: u32) -> Result<u16, PlanFault> {
    let (form, takes, called) = FORMS[(x >> 8) as usize % 19];
    let below = if k == 0 { 1 } else { k };
    let of = [
        (x >> 20) as u16 % below,
        (x >> 24) as u16 % below,
        (x >> 28) as u16 % below,
    ];
    let count = match takes {
        Takes::None => 0,
        Takes::One => 1,
        Takes::Two => 2,
        Takes::Any => 3,
    };
    builder.stage(form, &of[..count], function_of(called))
}

static LARGER_LIMITS: [(u16, u32, LimitKind); 3] = [
    (2, 2, LimitKind::Timeout(0)),
    (0, 1, GIVE),
    (4, 2, LimitKind::Timeout(4294967295)),
];

/// The larger plan of a number: two sources, 6 to 14 stages of all forms over lower ones, and three limits.
pub(crate) fn larger_plan(rt: &impl Abort, alloc: Global, number: u32) -> Plan {
    let mut builder = builder_of(rt, alloc);
    let mut numbers = numbers_of(number);
    for k in 2..8 + (number % 9) as u16 {
        must(rt, add_by(&mut builder, k, numbers.next_u32()));
    }
    limited(rt, builder, &LARGER_LIMITS)
}
