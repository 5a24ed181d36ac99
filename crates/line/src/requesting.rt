// A user's request at a line.
ghost use Rattle.std.specs.Prelude.{◌≡◌};
ghost use Rattle.line.specs.Outcomes.{outcome_of, moved_to, demands, answers, reports};
ghost use Rattle.line.specs.Requested.{requested, in_invalid, in_shared, in_exclusive};

use crate::lines::Line;
use crate::states::{Effect, Purge, State, Write};
use messages::assignments::Assignment;
use messages::kinds::{Demand, Up};
use messages::refusals::Refusal;
use messages::requests::{Answer, Request};

impl Line {
    // What a user's request does.
    pub fn request(&mut self, request: Request) -> Result<Effect, Refusal>
        ensures { outcome_of result self.new.state ≡ requested self.old.state request }
    {
        let (effect, next) = match self.state {
            State::Invalid => in_invalid(request),
            State::SharedOwned(copy) | State::SharedUnowned(copy) => in_shared(
                self.state, copy, request,
            ),
            State::Exclusive(copy) => in_exclusive(copy, request),
            _ => return Err(Refusal::LineWaiting),
        };
        self.state = next;
        Ok(effect)
    }
}

// In I. The columns of I and of SO and SU stand each in a function: they differ in what is demanded and in the state that waits for it.
fn in_invalid(request: Request) -> (Effect, State)
    ensures { moved_to result ≡ in_invalid request }
{
    match request {
        Request::CarbonCopy => demands(Demand::GetSharedData, State::WaitingSharedData),
        Request::Put(new) => demands(
            Demand::PurgeAndExclude,
            State::WaitingExclusiveData(Write::Put(new)),
        ),
        Request::GetIfAnyAndPut(new) => demands(
            Demand::GetExclusiveData,
            State::WaitingExclusiveData(Write::GetIfAnyAndPut(new)),
        ),
        Request::GetAndPutIfAny(new) => demands(
            Demand::GetExclusiveDataIfAny,
            State::WaitingExclusiveDataIfAny(new),
        ),
        Request::GetIfAny => demands(
            Demand::GetRemovedData,
            State::WaitingPurgeData(Purge::GetIfAny),
        ),
        Request::Remove => demands(Demand::PurgeAll, State::WaitingPurgeData(Purge::Remove)),
    }
}

// In SO and SU, which `state` is and which hold `copy`.
fn in_shared(state: State, copy: Assignment, request: Request) -> (Effect, State)
    ensures { moved_to result ≡ in_shared state copy request }
{
    let held = Some(copy);
    match request {
        Request::CarbonCopy => answers(Answer::Old(copy), state),
        Request::Put(new) => demands(
            Demand::PurgeAndExclude,
            State::WaitingExclusion(Write::Put(new), held),
        ),
        Request::GetIfAnyAndPut(new) => demands(
            Demand::Exclude,
            State::WaitingExclusion(Write::GetIfAnyAndPut(new), held),
        ),
        Request::GetAndPutIfAny(new) => demands(
            Demand::ExcludeIfAny,
            State::WaitingExclusionIfAny(new, held),
        ),
        Request::GetIfAny => demands(
            Demand::PurgeOthers,
            State::WaitingPurge(Purge::GetIfAny, held),
        ),
        Request::Remove => demands(Demand::PurgeAll, State::WaitingPurge(Purge::Remove, held)),
    }
}

// In E, which holds `copy`.
fn in_exclusive(copy: Assignment, request: Request) -> (Effect, State)
    ensures { moved_to result ≡ in_exclusive copy request }
{
    match request {
        Request::CarbonCopy => answers(Answer::Old(copy), State::Exclusive(copy)),
        Request::Put(new) => answers(Answer::Stored, State::Exclusive(new)),
        Request::GetIfAnyAndPut(new) | Request::GetAndPutIfAny(new) => answers(
            Answer::Old(copy),
            State::Exclusive(new),
        ),
        Request::GetIfAny => reports(Answer::Old(copy), State::Invalid),
        Request::Remove => reports(Answer::Removed, State::Invalid),
    }
}

// The directory is asked, and the line waits.
fn demands(demand: Demand, next: State) -> (Effect, State)
    ensures { moved_to result ≡ demands demand next }
{
    (Effect::sends(Up::Demand(demand)), next)
}

// The line answers by itself.
fn answers(answer: Answer, next: State) -> (Effect, State)
    ensures { moved_to result ≡ answers answer next }
{
    (Effect::answers(answer), next)
}

// The line answers by itself, and reports that it dropped its copy.
fn reports(answer: Answer, next: State) -> (Effect, State)
    ensures { moved_to result ≡ reports answer next }
{
    (
        Effect {
            sent: Some(Up::Report),
            answer: Some(answer),
        },
        next,
    )
}
