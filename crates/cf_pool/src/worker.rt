//! What one worker does with its pass.
ghost use Rattle.std.specs.Prelude.{◌≡◌, ◌<◌, IfErr, IfOk, IfSome, None, OnOk, Some, length, unwrap_or};
ghost use Rattle.cf_model.specs.States.{lowest_ready_of};
ghost use Rattle.cf_model.specs.declared.calls.Call.TheVariants.{Claim, Finish};
ghost use Rattle.cf_model.specs.Calls.{event_by};
ghost use Rattle.cf_desk.specs.Faults.{HasRoom, IsOnStage};
ghost use Rattle.cf_desk.specs.Results.{Refuses};
ghost use Rattle.cf_desk.specs.Views.{Acts, Follows, IsOf, IsSamePass, state_of};
ghost use Rattle.cf_pool.specs.Calling.{HasCalled, HasCalledOnce, RunsStageOf};
ghost use Rattle.cf_pool.specs.Counting.{EndedWith, late_by, won_by};
ghost use Rattle.cf_pool.specs.Jobs.{AddsWork, DoesJob, StopsJob, granted_by};
ghost use Rattle.cf_pool.specs.Answering.{MayAnswer};
ghost use Rattle.cf_forms.specs.Plans.{function_at};
ghost use Rattle.cf_pool.specs.Stops.{MeetsFault, Stops};
ghost use Rattle.cf_pool.specs.Waits.{Idles, Waits};
ghost use Rattle.cf_pool.specs.Works.{Owed, Works};

use crate::workers::Worker;
use cf_desk::{Call, Desk, DeskFault, Pass};
use cf_forms::{Answer, Args};
use cf_model::{Claimed, Finished, Reply};

/// What a worker counted.
#[derive(Clone, Copy, Debug, Drop, PartialEq, Eq)]
pub struct Done {
    /// Its claims that were granted. It ran a function after each.
    pub run: u32,
    /// Its finishes that won.
    pub won: u32,
    /// Its finishes that came late: another caller had settled the stage.
    pub late: u32,
}

/// Claims the lowest ready stage, lets the gate know, calls the stage's function and finishes the stage with its answer,
/// again and again. A stage may be one that another caller attached after the worker had started. It ends once `patience`
/// looks in a row, at least one, have found nothing ready. The pass is one of this desk's.
///
/// For each claim that it is granted it tells the gate once and then calls the function once, with the claim's arguments.
/// It calls nothing else, so no stage's function is called twice.
///
/// If its claim or its finish is refused, it stops with that fault. The last claim that it was granted may then stay open;
/// its function was called.
pub fn work<W: Worker>(
    desk: &Desk,
    pass: &mut Pass,
    worker: &mut W,
    patience: u32,
) -> Result<Done, DeskFault>
    requires pass { IsOf desk.now pass.old }
    requires patience { 0 < patience }
    ensures same { IsSamePass pass.old pass.new }
    ensures works { Works (W.answers worker.old) pass.old pass.new }
    ensures done { IfOk result (λ done. EndedWith (W.answers worker.old) pass.old pass.new done) }
    ensures nothing_ready { OnOk result (lowest_ready_of (state_of pass.new.known) ≡ None) }
    ensures waits { OnOk result (Waits desk.now patience pass.old pass.new) }
    ensures stops { IfErr result (Stops (W.answers worker.old) desk.now pass.old pass.new) }
    ensures called { HasCalledOnce W.tells W.calls pass.old pass.new worker.old worker.new }
    ensures keeps { W.answers worker.new ≡ W.answers worker.old }
{
    let room = pass.left();
    let mut done = Done {
        run: 0,
        won: 0,
        late: 0,
    };
    'jobs: while let Some(stage) = next_ready(desk, pass, patience) {
        let job = take_job(desk, pass, worker, stage)?;
        done.run += job.run;
        done.won += job.won;
        done.late += job.late;
    }
    Ok(done)
}

/// The lowest ready stage, found by at most so many looks.
fn next_ready(desk: &Desk, pass: &mut Pass, patience: u32) -> Option<u16>
    requires table { pass.old.table ≡ desk.now.table }
    requires patience { 0 < patience }
    ensures seen { Follows pass.old pass.new }
    ensures told { result ≡ lowest_ready_of (state_of pass.new.known) }
    ensures there { IfSome result (λ stage. IsOnStage pass.new (event_by pass.new.known.caller (Claim stage))) }
    ensures idles { result ≡ None → Idles desk.now patience (length pass.old.known.seen) pass.old.known.looks pass.new }
{
    'looks: for _ in 0..patience {
        let ready = desk.ready(pass);
        if ready.is_some() {
            return ready;
        }
    }
    None
}

/// Claims a ready stage, and runs and finishes it where the claim is granted.
fn take_job<W: Worker>(
    desk: &Desk,
    pass: &mut Pass,
    worker: &mut W,
    stage: u16,
) -> Result<Done, DeskFault>
    requires pass { IsOf desk.now pass.old }
    requires ready { lowest_ready_of (state_of pass.old.known) ≡ Some stage }
    requires there { IsOnStage pass.old (event_by pass.old.known.caller (Claim stage)) }
    ensures adds { (owes : Owed) × AddsWork (W.answers worker.old) None pass.old pass.new owes }
    ensures done { IfOk result (λ done. DoesJob (W.answers worker.old) pass.old pass.new done) }
    ensures more { OnOk result (length pass.old.records < length pass.new.records) }
    ensures looks { OnOk result (pass.new.known.looks ≡ pass.old.known.looks) }
    ensures stops { IfErr result (StopsJob (W.answers worker.old) desk.now pass.old pass.new) }
    ensures called { HasCalled W.tells W.calls pass.old pass.new worker.old worker.new }
    ensures keeps { W.answers worker.new ≡ W.answers worker.old }
{
    let reply = desk.act(pass, Call::Claim(stage))?;
    match granted(reply) {
        None => Ok(Done {
            run: 0,
            won: 0,
            late: 0,
        }),
        Some(args) => {
            let answer = answer_of(pass, worker, stage, &args);
            let finished = finish(desk, pass, stage, answer)?;
            Ok(count(finished))
        }
    }
}

/// The arguments that a reply grants.
fn granted(reply: Reply) -> Option<Args>
    ensures { result ≡ granted_by reply }
{
    match reply {
        Reply::Claim(Claimed::Granted(args)) => Some(args),
        _ => None,
    }
}

/// Finishes a stage with its function's answer.
fn finish(desk: &Desk, pass: &mut Pass, stage: u16, answer: Answer) -> Result<Reply, DeskFault>
    requires pass { IsOf desk.now pass.old }
    requires stage { stage < length (state_of pass.old.known).plan.stages }
    ensures done { IfOk result (λ reply. Acts pass.old (Finish stage answer) reply pass.new) }
    ensures room { OnOk result (HasRoom pass.old) }
    ensures refused { IfErr result (Refuses desk.now pass.old (Finish stage answer) pass.new) }
    ensures looks { pass.new.known.looks ≡ pass.old.known.looks }
{
    desk.act(pass, Call::Finish(stage, answer))
}

/// One run, and whether its finish won or came late.
fn count(finished: Reply) -> Done
    ensures run { result.run ≡ 1 }
    ensures won { result.won ≡ won_by finished }
    ensures late { result.late ≡ late_by finished }
{
    let (won, late) = match finished {
        Reply::Finish(Finished::Won) => (1, 0),
        Reply::Finish(Finished::Late) => (0, 1),
        _ => (0, 0),
    };
    Done { run: 1, won, late }
}

/// What the function of a stage answers to these arguments, by one call of it, of which the gate is told before.
fn answer_of<W: Worker>(pass: &Pass, worker: &mut W, stage: u16, args: &Args) -> Answer
    requires { stage < length (state_of pass.now.known).plan.stages }
    ensures called { RunsStageOf W.tells W.calls pass.now stage args.now result worker.old worker.new }
    ensures answers { MayAnswer (W.answers worker.old) (state_of pass.now.known).plan.stages stage args.now result }
    ensures keeps { W.answers worker.new ≡ W.answers worker.old }
{
    worker.before(stage, pass.caller());
    worker.call(pass.function(stage).unwrap_or(0), args)
}
