ghost use Rattle.std.specs.Prelude.{◌≡◌};
ghost use Rattle.line.specs.declared.states.State.TheVariants.{Invalid, Exclusive};
ghost use Rattle.line.specs.Questions.{readable, holds_exclusively};

use crate::states::State;
use messages::assignments::Assignment;

// A zone's line for one key. It arises fresh, by loading, or by steps.
#[derive(Clone, Copy, PartialEq, Eq, Debug)]
pub struct Line {
    pub(crate) state: State,
}

impl Line {
    // I: no copy.
    pub fn fresh() -> Line
        ensures { result.state ≡ Invalid }
    {
        Line {
            state: State::Invalid,
        }
    }

    // E: the only copy.
    pub fn loaded(assignment: Assignment) -> Line
        ensures { result.state ≡ Exclusive assignment }
    {
        Line {
            state: State::Exclusive(assignment),
        }
    }

    pub fn state(&self) -> State
        ensures { result ≡ self.now.state }
    {
        self.state
    }

    // What the zone can read: what the line would itself answer to carbon_copy.
    pub fn readable(&self) -> Option<Assignment>
        ensures { result ≡ readable self.now.state }
    {
        match self.state {
            State::Exclusive(copy) | State::SharedOwned(copy) | State::SharedUnowned(copy) => Some(
                copy,
            ),
            _ => None,
        }
    }

    // Whether the zone holds the key exclusively: the line would itself answer put.
    pub fn holds_exclusively(&self) -> bool
        ensures { result ≡ holds_exclusively self.now.state }
    {
        matches!(self.state, State::Exclusive(_))
    }
}
