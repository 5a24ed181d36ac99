// Let-go: a zone drops a copy that it shares and does not own.
ghost use Rattle.std.specs.Prelude.{◌≡◌, IfOk, OnErr};
ghost use Rattle.keys.specs.Places.{place_of};
ghost use Rattle.keys.specs.Registers.{in_use};
ghost use Rattle.line.specs.LetGo.{let_go};
ghost use Rattle.calls.specs.Faults.{seen};
ghost use Rattle.calls.specs.Model.{state_at};
ghost use Rattle.calls.specs.Outcomes.{done};
ghost use Rattle.calls.specs.Zones.{let_go_by, let_go_call};
ghost use Rattle.pool.specs.Pools.{model_of};
ghost use Rattle.pool.specs.Changes.{line_done, LineReady};

use crate::line_changes::LineChange;
use crate::line_steps::{LettingGo, LineStep};
use crate::naming::{place_named, zone_named};
use crate::opened::Opened;
use calls::faults::Fault;
use calls::reports::Report;
use keys::key::Key;
use keys::register::Register;
use messages::refusals::Refusal;
use rules::plan::places::Place;
use rules::plan::zones::Zone;
use transport::interface::Transport;

impl<T: Transport> Opened<T> {
    // Refusals 12 and 11, or the change.
    fn let_go_at(&self, zone: Zone, place: Place) -> Result<LineChange<LettingGo>, Fault>
        ensures outcome { line_done ⟦<LettingGo as LineStep>⟧.outcome (model_of T.Transport self.now) result ≡ let_go_by T.room (model_of T.Transport self.now) zone place (let_go (state_at (model_of T.Transport self.now) zone place)) }
        ensures ready { IfOk result (λ ch. LineReady T.room (T.waiting self.now.transport) ch) }
    {
        let effect = self.foresee(zone, place, LettingGo)?;
        self.admits_up(zone, effect.sent)?;
        Ok(LineChange {
            zone,
            place,
            step: LettingGo,
            number: self.tables.slot(zone, place).number,
            delivered: None,
            sent: effect.sent,
            next: self.next,
            counts: None,
            report: Report::default(),
        })
    }

    // Refusals 6 and 13 come before.
    fn decide_let_go(&self, place: Option<usize>, zone: u8) -> Result<LineChange<LettingGo>, Fault>
        ensures outcome { line_done ⟦<LettingGo as LineStep>⟧.outcome (model_of T.Transport self.now) result ≡ let_go_call T.room (model_of T.Transport self.now) place zone }
        ensures ready { IfOk result (λ ch. LineReady T.room (T.waiting self.now.transport) ch) }
    {
        let known = zone_named(self.plan, zone)?;
        let place = place_named(self.plan, place).ok_or(Fault::at_zone(Refusal::UnknownKey, zone))?;
        self.let_go_at(known, place)
    }

    // Drops a copy that the zone shares and does not own.
    pub fn let_go<K: Key + Drop>(
        &mut self,
        register: &Register<'_, K>,
        zone: u8,
        key: K,
    ) -> Result<Report, Fault>
        ensures outcome { (seen result, model_of T.Transport self.new, in_use register.now) ≡ done (model_of T.Transport self.old) (in_use register.now) (in_use register.now) (let_go_call T.room (model_of T.Transport self.old) (place_of K.meaning (in_use register.now) key) zone) }
        ensures refusal_changes_nothing { OnErr result (model_of T.Transport self.new ≡ model_of T.Transport self.old) }
    {
        let change = self.decide_let_go(register.find(&key), zone)?;
        Ok(self.change_line(change))
    }
}
