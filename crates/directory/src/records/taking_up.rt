// The take-up of the first waiting request.
ghost use Rattle.std.specs.Prelude.{◌≡◌};
ghost use Rattle.directory.specs.Directory.{view_of, outcome_of};
ghost use Rattle.directory.specs.TakeUp.{taken_up};

use crate::records::Record;
use crate::rows::starting::wants_data;
use crate::rows::{Effect, Row, Served};
use messages::refusals::Refusal;

impl Record {
    // Serves the first waiting request.
    pub fn take_up(&mut self) -> Result<Effect, Refusal>
        ensures { outcome_of result (view_of self.new.row) ≡ taken_up (view_of self.old.row) }
    {
        if self.row.served.is_some() {
            return Err(Refusal::PlaceServed);
        }
        let list = self.row.list;
        let first = self.row.waiting.first().ok_or(Refusal::NothingWaits)?;
        if list.contains(first.zone) && wants_data(first.demand) {
            return Err(Refusal::Misplaced);
        }
        let served = Served::begin(first, list);
        self.row = Row {
            list,
            waiting: self.row.waiting.rest(),
            served: Some(served),
        };
        Ok(self.go_on(served.asks(list)))
    }
}
