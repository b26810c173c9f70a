//! A function that stages call.
use cf_forms::{Answer, Args, StageFn};

/// Always answers so, whatever it is called with.
#[derive(Clone, Copy, Drop)]
pub(crate) struct Always {
    pub(crate) answer: Answer,
}

impl StageFn for Always {
    ghost meaning = { λ f args. f.answer };

    fn call(&self, _args: &Args) -> Answer {
        self.answer
    }
}
