// Take-up: the directory serves the first request that waits for a key.
ghost use Rattle.std.specs.Prelude.{◌≡◌, IfOk, OnErr};
ghost use Rattle.directory.specs.TakeUp.{taken_up};
ghost use Rattle.keys.specs.Places.{place_of};
ghost use Rattle.keys.specs.Registers.{in_use};
ghost use Rattle.calls.specs.Directories.{take_up_by, take_up_call};
ghost use Rattle.calls.specs.Faults.{seen};
ghost use Rattle.calls.specs.Model.{row_at};
ghost use Rattle.calls.specs.Outcomes.{done};
ghost use Rattle.pool.specs.Pools.{model_of};
ghost use Rattle.pool.specs.Changes.{row_done, RowReady};

use crate::naming::place_named;
use crate::opened::Opened;
use crate::row_changes::RowChange;
use calls::faults::Fault;
use calls::reports::Report;
use keys::key::Key;
use keys::register::Register;
use messages::refusals::Refusal;
use rules::plan::places::Place;
use transport::faults::Subject;
use transport::interface::Transport;

impl<T: Transport> Opened<T> {
    // Refusals 15, 16, 17 and 11, or the change.
    fn take_up_at(&self, place: Place) -> Result<RowChange, Fault>
        ensures outcome { row_done (model_of T.Transport self.now) result ≡ take_up_by T.room (model_of T.Transport self.now) place (taken_up (row_at (model_of T.Transport self.now) place)) }
        ensures ready { IfOk result (λ ch. RowReady T.room (T.waiting self.now.transport) ch) }
    {
        let mut record = self.tables.record(place);
        let effect = record
            .take_up()
            .map_err(|refusal| Fault::at_place(refusal, place.number()))?;
        self.row_change(Subject::Place(place.number()), place, record, effect, None)
    }

    // Refusal 13 comes before.
    fn decide_take_up(&self, place: Option<usize>) -> Result<RowChange, Fault>
        ensures outcome { row_done (model_of T.Transport self.now) result ≡ take_up_call T.room (model_of T.Transport self.now) place }
        ensures ready { IfOk result (λ ch. RowReady T.room (T.waiting self.now.transport) ch) }
    {
        let place = place_named(self.plan, place).ok_or(Fault::of_nothing(Refusal::UnknownKey))?;
        self.take_up_at(place)
    }

    // Serves the first request that waits for a key.
    pub fn take_up<K: Key + Drop>(
        &mut self,
        register: &Register<'_, K>,
        key: K,
    ) -> Result<Report, Fault>
        ensures outcome { (seen result, model_of T.Transport self.new, in_use register.now) ≡ done (model_of T.Transport self.old) (in_use register.now) (in_use register.now) (take_up_call T.room (model_of T.Transport self.old) (place_of K.meaning (in_use register.now) key)) }
        ensures refusal_changes_nothing { OnErr result (model_of T.Transport self.new ≡ model_of T.Transport self.old) }
    {
        let change = self.decide_take_up(register.find(&key))?;
        Ok(self.change_row(change))
    }
}
