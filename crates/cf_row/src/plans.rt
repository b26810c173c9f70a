//! The plan of a row's graph, as it grows.
ghost use Rattle.std.specs.Prelude.{◌≡◌, IfOk, map, true};
ghost use Rattle.cf_forms.specs.Plans.{has_place, with_room};
ghost use Rattle.cf_model.specs.States.{start};
ghost use Rattle.cf_model.specs.Events.{state_after};
ghost use Rattle.cf_event.specs.Words.{word_of};
ghost use Rattle.cf_event.specs.Decoding.{decoded};
ghost use Rattle.cf_ledger.specs.Ledgers.{AreTaken};
ghost use Rattle.cf_row.specs.Plans.{HasPlaceFor, plan_with};

use cf_event::decode;
use cf_model::Event;
use cf_plan::{GrowingPlan, Plan};
use std::alloc::{AllocError, Global};

/// The plan with room for so many stages, as these words leave it. It fails only where there is no memory.
pub(crate) fn grown(
    alloc: Global,
    opening: &Plan,
    room: u16,
    words: &[u64],
) -> Result<GrowingPlan, AllocError>
    requires place { has_place opening.now.stages room ≡ true }
    requires named { words.now ≡ map word_of (decoded words.now) }
    requires taken { AreTaken (start (with_room opening.now room)) (decoded words.now) }
    ensures { IfOk result (λ plan. plan ≡ (state_after (start (with_room opening.now room)) (decoded words.now)).plan) }
{
    let mut plan = GrowingPlan::new(alloc, opening.share()?, room)?;
    for word in words {
        let Some(event) = decode(*word) else {
            unreachable!();
        };
        follow(&mut plan, &event);
    }
    Ok(plan)
}

/// Attaches the stage that an event attaches, if it is such an event.
pub(crate) fn follow(plan: &mut GrowingPlan, event: &Event)
    requires { HasPlaceFor plan.old event.now }
    ensures { plan.new ≡ plan_with plan.old event.now }
{
    if let Event::Attach {
        form,
        of,
        function,
        ..
    } = *event
    {
        plan.attach(form, of, function);
    }
}
