//! What a worker works with: functions and a gate, with one memory.
ghost use Rattle.std.specs.Prelude.{◌≡◌, ◌<◌, ℕ, IfOk, vec_len};
ghost use Rattle.std.proofs.Common.{ap};
ghost use Rattle.cf_forms.specs.declared.forms.Answer.{Answer};
ghost use Rattle.cf_forms.specs.declared.forms.Args.{Args};
ghost use Rattle.cf_forms.specs.Meanings.{meanings_of};
ghost use Rattle.cf_pool.specs.Answering.{Answers, IsAnswer, as_meant};
ghost use Rattle.cf_pool.specs.Calling.{AnswerAlike};
ghost use Rattle.cf_pool.specs.Sharing.{AnswerByList, shared_answers};

use crate::gate::Gate;
use cf_forms::{Answer, Args, Each, Functions, StageFn};
use std::alloc::{AllocError, Global};

/// The functions of stages and a gate, with one memory, which a call and the gate may change. So a worker may count and
/// keep what it is called with, and its functions may answer anything, for instance what they read from a file. If a
/// function's number and its arguments determine the answer, they always determine the same one, and contracts tell it.
pub trait Worker: Functions {
    // What the functions answer to their arguments, where these determine it.
    ghost answers: { Self → Answers };

    // From the first memory, being told that a caller runs a stage next leaves the second memory.
    ghost tells: { Self → ℕ → ℕ → Self → Type 0 };

    /// Is told which stage's function a caller runs next.
    fn before(&mut self, stage: u16, caller: u8)
        ensures told { tells self.old stage caller self.new }
        ensures keeps { answers self.new ≡ answers self.old };

    ghost means: { (m n : Self) (number : ℕ) (args : Args) (answer : Answer) →
        Self.calls m number args answer n → IsAnswer (answers m number args) answer × (answers n ≡ answers m) };
}

/// A list of functions and a gate that workers share. It remembers nothing. A number without a function is answered by
/// nil.
#[derive(Drop)]
pub struct Shared<'a, F, G> {
    /// The functions, each at its number.
    pub functions: &'a [F],
    /// The gate.
    pub gate: &'a G,
}

impl<F: StageFn, G: Gate> Functions for Shared<'_, F, G> {
    ghost calls = { λ m number args answer n. (answer ≡ meanings_of F.meaning m.functions.now number args) × (n ≡ m) };

    fn call(&mut self, number: u16, args: &Args) -> Answer {
        Each {
            functions: self.functions,
        }
        .call(number, args)
    }
}

impl<F: StageFn, G: Gate> Worker for Shared<'_, F, G> {
    ghost answers = { λ m. as_meant (meanings_of F.meaning m.functions.now) };

    ghost tells = { λ m stage caller n. n ≡ m };

    fn before(&mut self, stage: u16, caller: u8) {
        self.gate.before(stage, caller);
    }

    ghost means = { λ m n number args answer h. (h.0, ap (λ w. as_meant (meanings_of F.meaning w.functions.now)) h.1) };
}

/// So many workers that share a list of functions and a gate.
pub fn share<'a, F: StageFn, G: Gate>(
    alloc: Global,
    functions: &'a [F],
    gate: &'a G,
    count: u8,
) -> Result<Vec<Shared<'a, F, G>>, AllocError>
    ensures count { IfOk result (λ v. vec_len v ≡ count) }
    ensures alike { IfOk result (λ v. AnswerAlike (shared_answers F.meaning) v.items) }
    ensures means { IfOk result (λ v. 0 < count → AnswerByList F.meaning functions.now v.items) }
{
    let mut workers = Vec::with_capacity(alloc, count as usize)?;
    'workers: for _ in 0..count {
        workers.push(Shared { functions, gate })?;
    }
    Ok(workers)
}
