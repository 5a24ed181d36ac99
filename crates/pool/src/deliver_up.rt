// Delivery of the oldest message of a zone's up lane to the directory.
ghost use Rattle.std.specs.Prelude.{◌≡◌, IfOk, OnErr};
ghost use Rattle.directory.specs.Arrivals.{delivered};
ghost use Rattle.calls.specs.Directories.{up_by, up_call};
ghost use Rattle.calls.specs.Faults.{seen};
ghost use Rattle.calls.specs.Model.{row_at};
ghost use Rattle.pool.specs.Pools.{model_of, done_keyless};
ghost use Rattle.pool.specs.Changes.{row_done, RowReady};

use crate::naming::{due, zone_named};
use crate::opened::Opened;
use crate::row_changes::RowChange;
use calls::faults::Fault;
use calls::reports::Report;
use messages::kinds::Kind;
use rules::plan::places::Place;
use rules::plan::zones::Zone;
use transport::faults::Subject;
use transport::interface::Transport;
use transport::lanes::Lane;

impl<T: Transport> Opened<T> {
    // Refusals 17 and 11, or the change.
    fn up_at(&self, zone: Zone, place: Place, kind: Kind) -> Result<RowChange, Fault>
        ensures outcome { row_done (model_of T.Transport self.now) result ≡ up_by T.room (model_of T.Transport self.now) zone place (delivered kind zone (row_at (model_of T.Transport self.now) place)) }
        ensures ready { IfOk result (λ ch. RowReady T.room (T.waiting self.now.transport) ch) }
    {
        let zone = zone.number();
        let mut record = self.tables.record(place);
        let effect = record
            .deliver(zone, kind)
            .map_err(|refusal| Fault::at_zone(refusal, zone))?;
        self.row_change(
            Subject::Zone(zone),
            place,
            record,
            effect,
            Some(Lane::Up(zone)),
        )
    }

    // Refusals 6 and 14 come before.
    fn decide_up(&self, zone: u8) -> Result<RowChange, Fault>
        ensures outcome { row_done (model_of T.Transport self.now) result ≡ up_call T.room (model_of T.Transport self.now) zone }
        ensures ready { IfOk result (λ ch. RowReady T.room (T.waiting self.now.transport) ch) }
    {
        let zone = zone_named(self.plan, zone)?;
        let (place, kind) = due(&self.transport, zone, Lane::Up(zone.number()))?;
        self.up_at(zone, place, kind)
    }

    // Delivers the oldest message of a zone's up lane.
    pub fn deliver_up(&mut self, zone: u8) -> Result<Report, Fault>
        ensures outcome { (seen result, model_of T.Transport self.new) ≡ done_keyless (model_of T.Transport self.old) (up_call T.room (model_of T.Transport self.old) zone) }
        ensures refusal_changes_nothing { OnErr result (model_of T.Transport self.new ≡ model_of T.Transport self.old) }
    {
        let change = self.decide_up(zone)?;
        Ok(self.change_row(change))
    }
}
