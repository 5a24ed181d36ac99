// The steps of a line by one name: a request, a message received, a let-go.
ghost use Rattle.std.specs.Prelude.{◌≡◌};
ghost use Rattle.line.specs.declared.states.State.{State};
ghost use Rattle.line.specs.LetGo.{let_go};
ghost use Rattle.line.specs.Outcomes.{Outcome, outcome_of};
ghost use Rattle.line.specs.Received.{received};
ghost use Rattle.line.specs.Requested.{requested};

use line::lines::Line;
use line::states::Effect;
use messages::kinds::Kind;
use messages::refusals::Refusal;
use messages::requests::Request;

// A step that a line is lent to. A trait and no closure, since a decision is a value that holds its step, and its outcome is known before.
pub trait LineStep {
    // What the step comes to at a line.
    ghost outcome: { Self → State → Outcome };

    fn step(self, line: &mut Line) -> Result<Effect, Refusal>
        ensures { outcome_of result line.new.state ≡ outcome self line.old.state };
}

impl LineStep for Request {
    ghost outcome = { λ request state. requested state request };

    fn step(self, line: &mut Line) -> Result<Effect, Refusal> {
        line.request(self)
    }
}

impl LineStep for Kind {
    ghost outcome = { λ kind state. received state kind };

    fn step(self, line: &mut Line) -> Result<Effect, Refusal> {
        line.receive(self)
    }
}

// The copy is dropped.
#[derive(Clone, Copy)]
pub struct LettingGo;

impl LineStep for LettingGo {
    ghost outcome = { λ _ state. let_go state };

    fn step(self, line: &mut Line) -> Result<Effect, Refusal> {
        line.let_go()
    }
}
