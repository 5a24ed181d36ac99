// Delivery of the oldest message of a zone's down lane to the zone's line.
ghost use Rattle.std.specs.Prelude.{◌≡◌, IfOk, OnErr};
ghost use Rattle.line.specs.Received.{received};
ghost use Rattle.calls.specs.Faults.{seen};
ghost use Rattle.calls.specs.Model.{state_at};
ghost use Rattle.calls.specs.Zones.{down_by, down_call};
ghost use Rattle.pool.specs.Pools.{model_of, done_keyless};
ghost use Rattle.pool.specs.Changes.{line_done, LineReady};

use crate::line_changes::LineChange;
use crate::line_steps::LineStep;
use crate::naming::{due, zone_named};
use crate::opened::Opened;
use crate::reports::down_report;
use calls::faults::Fault;
use calls::reports::Report;
use messages::kinds::Kind;
use rules::plan::places::Place;
use rules::plan::zones::Zone;
use transport::interface::Transport;
use transport::lanes::Lane;

impl<T: Transport> Opened<T> {
    // Refusals 17 and 11, or the change.
    fn down_at(&self, zone: Zone, place: Place, kind: Kind) -> Result<LineChange<Kind>, Fault>
        ensures outcome { line_done ⟦<Kind as LineStep>⟧.outcome (model_of T.Transport self.now) result ≡ down_by T.room (model_of T.Transport self.now) zone place (received (state_at (model_of T.Transport self.now) zone place) kind) }
        ensures ready { IfOk result (λ ch. LineReady T.room (T.waiting self.now.transport) ch) }
    {
        let effect = self.foresee(zone, place, kind)?;
        self.admits_up(zone, effect.sent)?;
        let number = self.tables.slot(zone, place).number;
        Ok(LineChange {
            zone,
            place,
            step: kind,
            number,
            delivered: Some(Lane::Down(zone.number())),
            sent: effect.sent,
            next: self.next,
            counts: None,
            report: down_report(number, effect.answer),
        })
    }

    // Refusals 6 and 14 come before.
    fn decide_down(&self, zone: u8) -> Result<LineChange<Kind>, Fault>
        ensures outcome { line_done ⟦<Kind as LineStep>⟧.outcome (model_of T.Transport self.now) result ≡ down_call T.room (model_of T.Transport self.now) zone }
        ensures ready { IfOk result (λ ch. LineReady T.room (T.waiting self.now.transport) ch) }
    {
        let zone = zone_named(self.plan, zone)?;
        let (place, kind) = due(&self.transport, zone, Lane::Down(zone.number()))?;
        self.down_at(zone, place, kind)
    }

    // Delivers the oldest message of a zone's down lane.
    pub fn deliver_down(&mut self, zone: u8) -> Result<Report, Fault>
        ensures outcome { (seen result, model_of T.Transport self.new) ≡ done_keyless (model_of T.Transport self.old) (down_call T.room (model_of T.Transport self.old) zone) }
        ensures refusal_changes_nothing { OnErr result (model_of T.Transport self.new ≡ model_of T.Transport self.old) }
    {
        let change = self.decide_down(zone)?;
        Ok(self.change_line(change))
    }
}
