//! What a stage's function is.
ghost use Rattle.std.specs.Prelude.{◌≡◌, ℕ};
ghost use Rattle.cf_forms.specs.Meanings.{meanings_of};
ghost use Rattle.cf_forms.specs.declared.forms.Args.{Args};
ghost use Rattle.cf_forms.specs.declared.forms.Answer.{Answer};

use crate::forms::{Answer, Args};
use cf_outcome::Value;

/// The function of a stage. What it answers depends on the object and on the arguments alone: its `meaning`. So a
/// function may be called on any thread, and a second call would answer the same.
pub trait StageFn {
    ghost meaning: { Self → Args → Answer };

    /// Calls it with these arguments, and answers its meaning of them.
    fn call(&self, args: &Args) -> Answer
        ensures { result ≡ meaning self.now args.now };
}

/// The functions of stages by their numbers, as one thing with one memory, which a call may change.
pub trait Functions {
    // From the first memory, the function of this number answers so to these arguments, and leaves the second memory.
    ghost calls: { Self → ℕ → Args → Answer → Self → Type 0 };

    /// Calls the function of this number.
    fn call(&mut self, number: u16, args: &Args) -> Answer
        ensures { calls self.old number args.now result self.new };
}

/// A list of functions, called by their places in it. They remember nothing. A number without a function is answered
/// with nil.
#[derive(Drop)]
pub struct Each<'a, F> {
    /// The list.
    pub functions: &'a [F],
}

impl<F: StageFn> Functions for Each<'_, F> {
    ghost calls = { λ m number args answer n. (answer ≡ meanings_of F.meaning m.functions.now number args) × (n ≡ m) };

    fn call(&mut self, number: u16, args: &Args) -> Answer {
        match self.functions.get(number as usize) {
            None => Answer::Give(Value::Nil),
            Some(function) => function.call(args),
        }
    }
}

/// A boxed closure that is called with a function's number and its arguments.
type BoxedFn = Box<dyn FnMut(u16, Args) -> Answer>;

/// One closure as the functions of all stages, by their numbers. It may change what it holds, as a closure that counts
/// its calls does.
#[derive(Drop)]
pub struct Closure {
    call: BoxedFn,
    ghost callable: { IsAlwaysCallable call },
}

impl Closure {
    /// The functions of a closure that takes any number and any arguments.
    pub fn new(call: BoxedFn) -> Closure
        requires { IsAlwaysCallable call }
        ensures { result.call ≡ call }
    {
        Closure { call }
    }
}

impl Functions for Closure {
    ghost calls = { λ m number args answer n. step m.call number args answer n.call };

    fn call(&mut self, number: u16, args: &Args) -> Answer {
        (self.call)(number, *args)
    }
}
