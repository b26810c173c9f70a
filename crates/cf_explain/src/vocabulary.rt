//! The words that may stand in a script, in one table for each place, and the nearest known one to a word.
use crate::steps::STEPS;
use crate::wanted::Wanted;
use cf_forms::Form;
use std::alloc::{AllocError, Global};
use std::fmt;
use strsim::levenshtein;

/// Words of which one may stand in some place.
#[derive(Clone, Copy)]
pub enum Words {
    /// The forms of stages.
    Forms,
    /// The functions that are one word.
    PlainFunctions,
    /// The functions that are an object of one member.
    Functions,
    /// The words of steps.
    Steps,
    /// The answers that a finish hands in.
    Answers,
    /// The causes that a failAs names.
    Failures,
    /// The kinds of limits.
    Kinds,
    /// The members of a script.
    ScriptMembers,
    /// The members of a stage.
    StageMembers,
    /// The members of a limit.
    LimitMembers,
}

/// The functions that are an object of one member, with what stands in it.
const FUNCTIONS: [(&str, Wanted); 8] = [
    ("add", Wanted::Int),
    ("mul", Wanted::Int),
    ("div", Wanted::Int),
    ("const", Wanted::Value),
    ("throw", Wanted::UpTo(u32::MAX)),
    ("goto", Wanted::UpTo(65_535)),
    ("select", Wanted::Pair),
    ("rescue", Wanted::Value),
];

/// The answers, with what stands in them.
const ANSWERS: [(&str, Wanted); 3] = [
    ("give", Wanted::Value),
    ("throw", Wanted::UpTo(u32::MAX)),
    ("link", Wanted::UpTo(65_535)),
];

const PLAIN_FUNCTIONS: [&str; 2] = ["neg", "sum"];

const FAILURES: [&str; 2] = ["timeout", "badanswer"];

const KINDS: [&str; 2] = ["timeout", "value"];

const SCRIPT_MEMBERS: [&str; 8] = [
    "cf", "room", "stages", "limits", "steps", "note", "name", "names",
];

const STAGE_MEMBERS: [&str; 5] = ["form", "of", "fn", "note", "name"];

const LIMIT_MEMBERS: [&str; 6] = ["stage", "at", "kind", "code", "value", "note"];

/// The methods of Java's `CompletionStage` and `CompletableFuture` whose forms have other names.
const METHODS: [(&str, &str); 9] = [
    ("supplyAsync", "supply"),
    ("thenApply", "apply"),
    ("thenAccept", "accept"),
    ("thenCombine", "combine"),
    ("thenAcceptBoth", "acceptBoth"),
    ("runAfterBoth", "runBoth"),
    ("applyToEither", "applyEither"),
    ("runAfterEither", "runEither"),
    ("thenCompose", "compose"),
];

/// No table has more words.
const MOST: usize = 19;

impl Words {
    /// The word at this position, if there are so many.
    fn at(self, i: usize) -> Option<&'static str> {
        match self {
            Words::Forms => Some(Form::numbered(u32::try_from(i).ok()?)?.name()),
            Words::PlainFunctions => PLAIN_FUNCTIONS.get(i).copied(),
            Words::Functions => name_at(&FUNCTIONS, i),
            Words::Steps => Some(STEPS.get(i)?.word),
            Words::Answers => name_at(&ANSWERS, i),
            Words::Failures => FAILURES.get(i).copied(),
            Words::Kinds => KINDS.get(i).copied(),
            Words::ScriptMembers => SCRIPT_MEMBERS.get(i).copied(),
            Words::StageMembers => STAGE_MEMBERS.get(i).copied(),
            Words::LimitMembers => LIMIT_MEMBERS.get(i).copied(),
        }
    }

    /// The word of the table that this one is.
    pub(crate) fn known(self, word: &str) -> Option<&'static str> {
        for i in 0..MOST {
            if let Some(known) = self.at(i) {
                if known == word {
                    return Some(known);
                }
            }
        }
        None
    }

    /// The word of the table that this one is, and what stands in a member of that name, where that is one thing.
    pub(crate) fn held(self, word: &str) -> Option<(&'static str, Wanted)> {
        match self {
            Words::Functions => row_of(&FUNCTIONS, word),
            Words::Answers => row_of(&ANSWERS, word),
            _ => None,
        }
    }

    /// The form of the method that the word names, or the word of the table that the fewest edits lead to, if they are few
    /// for its length.
    pub(crate) fn nearest(
        self,
        alloc: Global,
        word: &str,
    ) -> Result<Option<&'static str>, AllocError> {
        let mut best = match self {
            Words::Forms => form_of_method(word),
            _ => None,
        };
        if best.is_some() || word.len() > 40 {
            return Ok(best);
        }
        let mut least = 2 + word.len() / 3;
        for i in 0..MOST {
            if let Some(known) = self.at(i) {
                let edits = levenshtein(alloc, word, known)?;
                if edits < least {
                    least = edits;
                    best = Some(known);
                }
            }
        }
        Ok(best)
    }

    /// What one of them is called.
    pub(crate) fn thing(self) -> &'static str {
        match self {
            Words::Forms => "form",
            Words::PlainFunctions | Words::Functions => "function",
            Words::Steps => "step",
            Words::Answers => "answer",
            Words::Failures => "failure",
            Words::Kinds => "kind of limit",
            Words::ScriptMembers | Words::StageMembers | Words::LimitMembers => "member",
        }
    }
}

/// All of them, as in `one of neg, sum`.
impl fmt::Display for Words {
    fn fmt<W: fmt::Write>(&self, f: &mut fmt::Formatter<W>) -> fmt::Result {
        for i in 0..MOST {
            if let Some(word) = self.at(i) {
                let gap = if i == 0 { "one of " } else { ", " };
                write!(f, "{gap}{word}")?;
            }
        }
        Ok(())
    }
}

/// The name of the row at this position, if there are so many.
fn name_at<T>(table: &[(&'static str, T)], i: usize) -> Option<&'static str> {
    Some(table.get(i)?.0)
}

/// The row of this word.
fn row_of<T: Copy>(table: &[(&'static str, T)], word: &str) -> Option<(&'static str, T)> {
    for (name, held) in table {
        if *name == word {
            return Some((*name, *held));
        }
    }
    None
}

/// The name of the form of this method.
fn form_of_method(word: &str) -> Option<&'static str> {
    Some(row_of(&METHODS, word)?.1)
}
