//! What a host of a request may rely on over any row of calls, and what it concludes from one or two of them. Each clause
//! follows from the contracts of the machine's calls, and from laws.
ghost use Rattle.std.specs.Prelude.{◌≡◌, IfErr, IfNone, IfOk, IfSome, map, true};
ghost use Rattle.cf_model.specs.States.{outcome_in};
ghost use Rattle.cf_request.specs.Deadlines.{NoneOpen};
ghost use Rattle.cf_request.specs.Gathering.{gathered};
ghost use Rattle.cf_request.specs.Machines.{state_in};
ghost use Rattle.cf_request.specs.Telling.{is_settled_in};
ghost use Rattle.cf_example.specs.Keeping.{DeadlinesAreMet, MomentsGoOn, RelaysStay};

use cf_model::laws::settled_stages_keep_their_outcomes;
use cf_request::laws::{calls_add_behind, roots_have_it_at_once};
use cf_request::{Gathering, LedgerFault, Machine, MachineFault};

/// A deadline that was set is met by each `pass` to its moment or a later one, whatever calls came between.
pub fn deadlines_are_met()
    ensures { DeadlinesAreMet }
{
    settled_stages_keep_their_outcomes();
    calls_add_behind();
}

/// A stage that follows another goes on following it, whatever calls come behind.
pub fn relays_stay()
    ensures { RelaysStay }
{}

/// Time doesn't go back.
pub fn moments_go_on()
    ensures { MomentsGoOn }
{}

/// What a clock does when it wakes: it lets time pass up to the next deadline, if there is one, and its stage is settled
/// then. It is refused for want of memory alone, also where the deadline was set for a moment that has passed.
pub fn settle_next(machine: &mut Machine) -> Result<Option<u16>, MachineFault>
    ensures settled { IfOk result (λ due. IfSome due (λ stage.
        is_settled_in (state_in machine.new).stages stage ≡ true)) }
    ensures none { IfOk result (λ due. IfNone due
        (NoneOpen machine.old.deadlines (state_in machine.old).stages)) }
    ensures why { IfErr result (λ fault. fault ≡ MachineFault.NoMemory) }
{
    let Some(next) = machine.next_deadline() else {
        return Ok(None);
    };
    match machine.pass(next.moment) {
        Ok(()) => Ok(Some(next.stage)),
        Err(fault) => Err(fault),
    }
}

/// Attaches a stage that gathers others: it has at once what one stage over all of them would have.
pub fn gather_at_once(
    machine: &mut Machine,
    who: u8,
    how: Gathering,
    sources: &[u16],
) -> Result<u16, LedgerFault>
    ensures { IfOk result (λ root. outcome_in (state_in machine.new).stages root
        ≡ gathered how (map (outcome_in (state_in machine.old).stages) sources.now)) }
{
    roots_have_it_at_once();
    machine.gather(who, how, sources)
}
