//! What events do to a graph.
use cf_core::Graph;
use cf_event::{Event, Reply, apply, decode, replay};

/// Whether an event fits a graph, and is answered so.
pub(crate) fn is_answered(graph: &mut Graph, event: Event, answer: Reply) -> bool {
    graph.takes(&event) && apply(graph, &event) == answer
}

/// What the event of a word is answered, if it is one's that fits.
fn answer(graph: &mut Graph, word: u64) -> Option<Reply> {
    let event = decode(word)?;
    if graph.takes(&event) {
        Some(apply(graph, &event))
    } else {
        None
    }
}

/// Whether the event of a word is answered so. Nothing answers a word of no event, or of one that doesn't fit.
pub(crate) fn is_answered_by_word(graph: &mut Graph, word: u64, wanted: Option<Reply>) -> bool {
    answer(graph, word) == wanted
}

/// Whether an event fits a graph, which does it and then ticks, with these turns before each.
pub(crate) fn replays(graph: &mut Graph, event: Event, nudges: &[u32]) -> bool {
    if !graph.takes(&event) {
        return false;
    }
    replay(graph, &[event, Event::Tick { who: 0, moment: 5 }], nudges);
    true
}
