// A zone drops a copy that it shares and does not own.
ghost use Rattle.std.specs.Prelude.{◌≡◌};
ghost use Rattle.line.specs.Outcomes.{outcome_of};
ghost use Rattle.line.specs.LetGo.{let_go};

use crate::lines::Line;
use crate::states::{Effect, State};
use messages::kinds::Up;
use messages::refusals::Refusal;

impl Line {
    // Drops an SU line with a report; any other line refuses.
    pub fn let_go(&mut self) -> Result<Effect, Refusal>
        ensures { outcome_of result self.new.state ≡ let_go self.old.state }
    {
        let State::SharedUnowned(_) = self.state else {
            return Err(Refusal::NotSharedUnowned);
        };
        self.state = State::Invalid;
        Ok(Effect::sends(Up::Report))
    }
}
