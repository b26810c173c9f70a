//! What a service relies on that leaves the work of a plan to workers. Each clause follows from the contract of `run` and the law
//! that stands beside it.
ghost use Rattle.std.specs.Prelude.{◌≡◌, ◌<◌, ◌≤◌, All, IfOk, vec_len};
ghost use Rattle.cf_desk.specs.Views.{IsOf};
ghost use Rattle.cf_forms.specs.Meanings.{Meanings};
ghost use Rattle.cf_pool.specs.Answering.{as_meant};
ghost use Rattle.cf_pool.specs.Calling.{AnswerAlike, first_answers};
ghost use Rattle.cf_pool.specs.PlainRuns.{LeavesPlainly, MadePlainSteps};

use cf_desk::{Desk, Pass};
use cf_pool::{Left, PoolFault, Worker, run, runs_end_plainly};
use std::sync::Wait;
use std::thread::Threads;

/// Lets workers do all the work that there is, where their passes have made plain steps alone.
pub fn run_plainly<R: Threads + Wait + Sync, W: Worker + Send + Drop>(
    rt: &R,
    desk: Desk,
    passes: Vec<Pass>,
    workers: Vec<W>,
) -> Result<Left<W>, PoolFault<W>>
    ghost meanings: { Meanings }
    requires workers { (1 < vec_len workers) × (vec_len workers ≤ 33) × (desk.setting.callers ≡ vec_len workers) }
    requires alike { AnswerAlike W.answers workers.items }
    requires means { first_answers W.answers workers.items ≡ as_meant meanings }
    requires passes { All (IsOf desk) passes.items × (vec_len passes ≡ vec_len workers) }
    requires steps { All (MadePlainSteps meanings desk.setting.plan) passes.items }
    ensures plainly { IfOk result (LeavesPlainly meanings desk.setting.plan passes.items) }
{
    runs_end_plainly();
    run(rt, desk, passes, workers)
}
