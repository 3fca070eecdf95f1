//! What the operator says in a line.

ghost use Rattle.std.specs.Prelude.{◌≡◌};
ghost use Rattle.trdp_text.specs.PortLines.{question_of};

use trdp_model::Event;

/// What the operator can ask (profile). A question is no event, and its answer changes nothing.
#[derive(Clone, Copy, Debug, PartialEq, Eq)]
pub enum Question {
    /// What the daemon has counted since it was made.
    Totals,
    /// What each slot holds and may hold, and how long ago its latest line came.
    Slots,
}

/// What a line of the operator says that isn't skipped (profile).
#[derive(Clone, Copy, Debug)]
pub enum OperatorLine<'b> {
    /// An event, for the node to take.
    Event(Event<'b>),
    /// A question, to be answered.
    Question(Question),
}

/// The question that a word asks; None where it asks none.
#[tactic(auto, unfolding(crate::specs::PortLines::question_of))]
pub(crate) fn question_of(word: &[u8]) -> Option<Question>
    ensures { result ≡ question_of word.now }
{
    if word == b"totals".as_slice() {
        Some(Question::Totals)
    } else if word == b"slots".as_slice() {
        Some(Question::Slots)
    } else {
        None
    }
}
