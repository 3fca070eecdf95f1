//! The answers to one request, each from a [`Place`] of its own.

ghost use Rattle.std.specs.Prelude.{◌≡◌, ◌<◌, ◌≤◌, List, [], ◌∷◌, ◌++◌, length, take};
ghost use Rattle.std.specs.List.{list_any};
ghost use Rattle.trdp_md.specs.Answers.{is_place, has_answered, awaits, awaits_any, confirmed};
ghost use Rattle.trdp_md.specs.Answers.{confirmed_if};

use std::marker::Model;
use trdp_base::{Ip, Place};
use trdp_head::MdKind;

/// From how many places a request may have answers (profile).
pub const PLACES_MAX: usize = 8;

/// The entry where no answer is.
const NO_ANSWER: RequestAnswer = RequestAnswer {
    place: Place { ip: Ip(0), port: 0 },
    kind: MdKind::Reply,
    confirm_owed: false,
};

/// An answer to a request.
#[derive(Clone, Copy, Debug, PartialEq, Eq)]
pub struct RequestAnswer {
    /// The address and port that it came from.
    pub place: Place,
    /// Its message type: a reply, a query or an error.
    pub kind: MdKind,
    /// Whether it still awaits a confirmation, as a query does until it is confirmed.
    pub confirm_owed: bool,
}

/// At most [`PLACES_MAX`] answers, in the order in which they came.
#[derive(Drop)]
pub struct Answers {
    /// The answers, and after them entries without meaning.
    room: [RequestAnswer; PLACES_MAX],
    /// How many answers there are, 0 to [`PLACES_MAX`].
    count: usize,
}

impl Model for Answers {
    ghost use Rattle.std.specs.Prelude.{◌≤◌, List, take};
    ghost use Rattle.trdp_md.specs.declared.answers.RequestAnswer.{RequestAnswer};

    ghost Value = { List RequestAnswer };

    ghost view = { λ a. take a.count a.room };

    ghost invariant = { λ a. a.count ≤ 8 };
}

/// Whether an answer came from the place.
#[tactic(auto, unfolding(crate::specs::Answers::has_answered))]
pub fn has_answered(answers: &[RequestAnswer], place: Place) -> bool
    ensures { result ≡ has_answered answers.now place }
{
    answers.iter().any(|answer| answer.place == place)
}

/// Whether an answer from the place awaits a confirmation.
#[tactic(auto, unfolding(crate::specs::Answers::awaits))]
pub fn awaits(answers: &[RequestAnswer], place: Place) -> bool
    ensures { result ≡ awaits answers.now place }
{
    answers
        .iter()
        .any(|answer| answer.place == place && answer.confirm_owed)
}

/// Whether any answer awaits a confirmation.
#[tactic(auto, unfolding(crate::specs::Answers::awaits_any))]
pub fn awaits_any(answers: &[RequestAnswer]) -> bool
    ensures { result ≡ awaits_any answers.now }
{
    answers.iter().any(|answer| answer.confirm_owed)
}

/// The answer once the place is confirmed.
fn confirmed_if(answer: RequestAnswer, place: Place) -> RequestAnswer
    ensures { result ≡ confirmed_if place answer }
{
    if answer.place == place {
        RequestAnswer {
            confirm_owed: false,
            ..answer
        }
    } else {
        answer
    }
}

/// Marks the answers from the place as confirmed.
#[tactic(auto, unfolding(crate::specs::Answers::confirmed))]
fn end_awaiting(answers: &mut [RequestAnswer], place: Place)
    ensures { answers.new ≡ confirmed answers.old place }
{
    for answer in answers.iter_mut() {
        *answer = confirmed_if(*answer, place);
    }
}

impl Answers {
    /// No answers.
    pub fn none() -> Self
        ensures { result ≡ [] }
    {
        Answers {
            room: [NO_ANSWER; PLACES_MAX],
            count: 0,
        }
    }

    /// The answers.
    pub fn as_slice(&self) -> &[RequestAnswer]
        ensures value { result.now ≡ self.now }
        ensures within { length result.now ≤ 8 }
    {
        &self.room[..self.count]
    }

    /// Adds an answer after the others.
    pub fn add(&mut self, answer: RequestAnswer)
        requires { length self.old < 8 }
        ensures { self.new ≡ self.old ++ answer ∷ [] }
    {
        self.room[self.count] = answer;
        self.count += 1;
    }

    /// Marks the answers from the place as confirmed.
    #[tactic(auto, unfolding(crate::specs::Answers::confirmed))]
    pub fn confirm(&mut self, place: Place)
        ensures { self.new ≡ confirmed self.old place }
    {
        end_awaiting(&mut self.room, place);
    }
}
