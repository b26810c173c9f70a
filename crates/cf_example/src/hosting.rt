//! What a service writes that runs a request over a machine: a thread of a lane, and what is told to those that wait.
//! Each clause follows from the contracts of the machine's calls, and from its laws.
ghost use Rattle.std.specs.Prelude.{◌≡◌, ◌<◌, ℕ, None, IfErr, IfNone, IfOk, IfSome, OnErr, OnOk};
ghost use Rattle.cf_request.specs.Lanes.{NothingIsReady};
ghost use Rattle.cf_request.specs.Machines.{AppliesWord, IsNoNext, IsNoPass, IsNoWord, OnlyFinds, Passes, state_in};
ghost use Rattle.cf_request.specs.Rows.{unclaimed};
ghost use Rattle.cf_example.specs.Hosting.{AppliesThen, AreWoken, HandsOut, IsHandedOut, PassesThen, RunsOut, RunsUntil, Turns};

use cf_forms::Functions;
use cf_request::laws::{calls_add_behind, each_stage_is_run_once};
use cf_request::{Held, LedgerFault, Machine, MachineFault, Reply, StepFault};

/// Those that wait for stages of a request, as one thing with one memory.
pub trait Waiters {
    // From the first memory, being told that a stage is settled leaves the second memory.
    ghost wakes: { Self → ℕ → Self → Type 0 };

    /// Is told that a stage is settled.
    fn wake(&mut self, stage: u16)
        ensures { wakes self.old stage self.new };
}

/// Why a thread has stopped, and what it holds. It goes on by running its lane again with that.
#[derive(Clone, Copy, Debug, PartialEq, Eq)]
pub struct Stopped {
    pub fault: StepFault,
    pub held: Option<Held>,
}

/// Runs a lane until none of its stages is ready: finishes what it holds, claims the lowest ready stage, calls the
/// stage's function once with the arguments of the claim, and holds the stage with the answer; and so on. After each
/// step it tells those that wait which stages are settled.
pub fn run_lane<F: Functions, W: Waiters>(
    machine: &mut Machine,
    who: u8,
    lane: u8,
    held: Option<Held>,
    functions: &mut F,
    waiters: &mut W,
) -> Result<(), Stopped>
    requires { lane < machine.old.teller.lanes.count }
    ensures runs { OnOk result (RunsOut F.calls W.wakes who lane
        (record { machine = machine.old; functions = functions.old; waiters = waiters.old; held = held })
        (record { machine = machine.new; functions = functions.new; waiters = waiters.new; held = None })) }
    ensures stopped { IfErr result (λ s. RunsUntil F.calls W.wakes who lane
        (record { machine = machine.old; functions = functions.old; waiters = waiters.old; held = held }) s.fault
        (record { machine = machine.new; functions = functions.new; waiters = waiters.new; held = s.held })) }
{
    each_stage_is_run_once();
    calls_add_behind();
    let mut holds = held;
    'turns: loop {
        match turn(machine, who, lane, holds, functions, waiters) {
            Ok(Some(next)) => holds = Some(next),
            Ok(None) => return Ok(()),
            Err(fault) => return Err(Stopped { fault, held: holds }),
        }
    }
}

/// One turn: the machine says what is to be done next, those that wait are told, and the function is called. The
/// answer is what is held then.
fn turn<F: Functions, W: Waiters>(
    machine: &mut Machine,
    who: u8,
    lane: u8,
    held: Option<Held>,
    functions: &mut F,
    waiters: &mut W,
) -> Result<Option<Held>, StepFault>
    requires { lane < machine.old.teller.lanes.count }
    ensures turns { IfOk result (λ holds. Turns F.calls W.wakes who lane
        (record { machine = machine.old; functions = functions.old; waiters = waiters.old; held = held })
        (record { machine = machine.new; functions = functions.new; waiters = waiters.new; held = holds }) holds) }
    ensures handed_out { OnOk result (IsHandedOut machine.new) }
    ensures none { IfOk result (λ holds. IfNone holds (NothingIsReady machine.new.teller lane)) }
    ensures fewer { IfOk result (λ holds. IfSome holds (λ h.
        unclaimed (state_in machine.new) < unclaimed (state_in machine.old))) }
    ensures refused { OnErr result (OnlyFinds machine.old machine.new) }
    ensures functions { OnErr result (functions.new ≡ functions.old) }
    ensures waiters { OnErr result (waiters.new ≡ waiters.old) }
    ensures why { IfErr result (λ fault. IsNoNext who lane held machine.old fault) }
{
    let next = machine.next(who, lane, held)?;
    hand_out(machine, waiters);
    match next.taken {
        None => Ok(None),
        Some(taken) => {
            let answer = functions.call(taken.function.unwrap_or(0), &taken.args);
            Ok(Some(Held {
                stage: taken.stage,
                answer,
            }))
        }
    }
}

/// Does a word, and tells those that wait.
pub fn do_word<W: Waiters>(
    machine: &mut Machine,
    word: u64,
    lane: u8,
    waiters: &mut W,
) -> Result<Reply, LedgerFault>
    requires { lane < machine.old.teller.lanes.count }
    ensures done { IfOk result (λ reply.
        AppliesThen W.wakes word lane machine.old waiters.old reply machine.new waiters.new) }
    ensures handed_out { OnOk result (IsHandedOut machine.new) }
    ensures refused { OnErr result (OnlyFinds machine.old machine.new) }
    ensures waiters { OnErr result (waiters.new ≡ waiters.old) }
    ensures why { IfErr result (λ fault. IsNoWord word machine.old fault) }
{
    let reply = machine.apply(word, lane)?;
    hand_out(machine, waiters);
    Ok(reply)
}

/// The moment has come until which the clock slept. It lets time pass, tells those that wait, and answers until when
/// to sleep next, which is later, or none where no deadline is left.
pub fn wake_up<W: Waiters>(
    machine: &mut Machine,
    moment: u64,
    waiters: &mut W,
) -> Result<Option<u64>, MachineFault>
    ensures passes { OnOk result (PassesThen W.wakes moment machine.old waiters.old machine.new waiters.new) }
    ensures handed_out { OnOk result (IsHandedOut machine.new) }
    ensures later { IfOk result (λ next. IfSome next (λ until. moment < until)) }
    ensures refused { OnErr result (OnlyFinds machine.old machine.new) }
    ensures waiters { OnErr result (waiters.new ≡ waiters.old) }
    ensures why { IfErr result (λ fault. IsNoPass moment machine.old fault) }
{
    machine.pass(moment)?;
    hand_out(machine, waiters);
    match machine.next_deadline() {
        None => Ok(None),
        Some(deadline) => Ok(Some(deadline.moment)),
    }
}

/// Tells those that wait which stages were settled, and takes these.
fn hand_out<W: Waiters>(machine: &mut Machine, waiters: &mut W)
    ensures hands_out { HandsOut W.wakes machine.old waiters.old machine.new waiters.new }
    ensures handed_out { IsHandedOut machine.new }
{
    let told = machine.told();
    let count = told.len();
    wake_all(told, waiters);
    machine.took(count);
}

/// Tells those that wait of these stages, one after another.
fn wake_all<W: Waiters>(stages: &[u16], waiters: &mut W)
    ensures { AreWoken W.wakes waiters.old stages.now waiters.new }
{
    for stage in stages {
        waiters.wake(*stage);
    }
}
