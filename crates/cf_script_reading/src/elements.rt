//! Which element of a step is what, by the step's word. Whoever reads a step beside the reading of scripts asks this table: to say
//! what is wrong with a step, which stage it is about, or how a question's caller has it.
ghost use Rattle.std.specs.Prelude.{◌≡◌};
ghost use Rattle.cf_script_reading.specs.Elements.{elements_of, other_elements, stage_place};

/// What stands in an element of a step.
#[derive(Clone, Copy, Debug, PartialEq, Eq)]
pub enum Element {
    /// The number of a stage that is there.
    Stage,
    /// A value.
    Value,
    /// A whole number of 32 bits: a code, a moment, or how many turns.
    Number,
    /// A caller.
    Caller,
    /// The answer that a finish hands in.
    Answer,
    /// The cause that a failAs names.
    Failure,
    /// A stage that is attached.
    NewStage,
}

/// The elements that stand behind a step's word, in order. The last one of `now` and of `failAs` may be left out. There are none
/// behind `work`, and none where no step has the word.
#[tactic(auto, unfolding(crate::specs::Elements::elements_of))]
pub fn elements_of(word: &str) -> &'static [Element]
    ensures { result.now ≡ elements_of word.now }
{
    match word {
        "complete" => &[Element::Stage, Element::Value],
        "fail" => &[Element::Stage, Element::Number],
        "failAs" => &[Element::Stage, Element::Failure, Element::Number],
        "cancel" => &[Element::Stage],
        "tick" => &[Element::Number],
        _ => other_elements(word),
    }
}

/// The same for the steps that name their caller, ask, attach a stage or take turns.
#[tactic(auto, unfolding(crate::specs::Elements::other_elements))]
fn other_elements(word: &str) -> &'static [Element]
    ensures { result.now ≡ other_elements word.now }
{
    match word {
        "claim" => &[Element::Caller, Element::Stage],
        "finish" => &[Element::Caller, Element::Stage, Element::Answer],
        "now" => &[Element::Stage, Element::Value],
        "outcome" => &[Element::Stage],
        "attach" => &[Element::NewStage],
        "nudge" => &[Element::Number],
        _ => &[],
    }
}

/// The place of the stage in a step with this word, which itself has place 0, if the step names a stage that is there.
pub fn stage_place(word: &str) -> Option<usize>
    ensures { result ≡ stage_place (elements_of word.now) }
{
    match elements_of(word) {
        [Element::Stage, ..] => Some(1),
        [Element::Caller, Element::Stage, ..] => Some(2),
        _ => None,
    }
}
