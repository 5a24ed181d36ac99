// What a line is, and what a step of it does.
ghost use Rattle.std.specs.Prelude.{◌≡◌, Some, None};

use messages::assignments::Assignment;
use messages::kinds::Up;
use messages::requests::Answer;

// A waiting request that stores a new assignment whatever is there.
#[derive(Clone, Copy, PartialEq, Eq, Debug)]
pub enum Write {
    Put(Assignment),
    GetIfAnyAndPut(Assignment),
}

// A waiting request that leaves nothing there.
#[derive(Clone, Copy, PartialEq, Eq, Debug)]
pub enum Purge {
    GetIfAny,
    Remove,
}

// The state of a line. A waiting state has its request, and what is left of the copy that it was sent with.
#[derive(Clone, Copy, PartialEq, Eq, Debug)]
pub enum State {
    // I: no copy
    Invalid,
    // E: the only copy
    Exclusive(Assignment),
    // SO: others may have copies, and this zone supplies them
    SharedOwned(Assignment),
    // SU: a copy that another zone owns
    SharedUnowned(Assignment),
    // WE, WEI, WP: sent with a copy, kept until told to invalidate
    WaitingExclusion(Write, Option<Assignment>),
    WaitingExclusionIfAny(Assignment, Option<Assignment>),
    WaitingPurge(Purge, Option<Assignment>),
    // WSD, WED, WEID, WPD: sent without a copy
    WaitingSharedData,
    WaitingExclusiveData(Write),
    WaitingExclusiveDataIfAny(Assignment),
    WaitingPurgeData(Purge),
}

// What a step does besides changing the line: the message that it sends up, and the answer that it gives. By default it does neither.
#[derive(Clone, Copy, Default, PartialEq, Eq, Debug)]
pub struct Effect {
    pub sent: Option<Up>,
    pub answer: Option<Answer>,
}

impl Effect {
    // A message is sent up, and nothing is answered.
    pub(crate) fn sends(up: Up) -> Effect
        ensures sends { result.sent ≡ Some up }
        ensures answers { result.answer ≡ None }
    {
        Effect {
            sent: Some(up),
            ..Effect::default()
        }
    }

    // The request is answered, and nothing is sent.
    pub(crate) fn answers(answer: Answer) -> Effect
        ensures sends { result.sent ≡ None }
        ensures answers { result.answer ≡ Some answer }
    {
        Effect {
            answer: Some(answer),
            ..Effect::default()
        }
    }
}
