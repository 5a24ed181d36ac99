// Start: a request at a zone.
ghost use Rattle.std.specs.Prelude.{◌≡◌, ◌≤◌, length, IfOk, OnErr};
ghost use Rattle.keys.specs.Places.{place_given, keys_after};
ghost use Rattle.keys.specs.Registers.{in_use, row_of, RowKept};
ghost use Rattle.line.specs.Requested.{requested};
ghost use Rattle.calls.specs.Faults.{seen};
ghost use Rattle.calls.specs.Model.{state_at};
ghost use Rattle.calls.specs.Outcomes.{done};
ghost use Rattle.calls.specs.Zones.{start_by, start_in, start_call};
ghost use Rattle.pool.specs.Pools.{model_of};
ghost use Rattle.pool.specs.Changes.{line_done, LineReady};

use crate::line_changes::LineChange;
use crate::line_steps::LineStep;
use crate::naming::{place_named, zone_named};
use crate::opened::Opened;
use crate::reports::start_report;
use calls::faults::Fault;
use calls::reports::Report;
use keys::key::Key;
use keys::register::Register;
use messages::refusals::Refusal;
use messages::requests::Request;
use rules::board::PauseBoard;
use rules::plan::places::Place;
use rules::plan::zones::Zone;
use transport::interface::Transport;

impl<T: Transport> Opened<T> {
    // Refusals 9, 10 and 11, or the change.
    fn start_at(
        &self,
        zone: Zone,
        place: Place,
        request: Request,
    ) -> Result<LineChange<Request>, Fault>
        ensures outcome { line_done ⟦<Request as LineStep>⟧.outcome (model_of T.Transport self.now) result ≡ start_by T.room (model_of T.Transport self.now) zone place (requested (state_at (model_of T.Transport self.now) zone place) request) }
        ensures ready { IfOk result (λ ch. LineReady T.room (T.waiting self.now.transport) ch) }
    {
        let effect = self.foresee(zone, place, request)?;
        let number = u32::try_from(self.next).map_err(|_| Fault::at_zone(
            Refusal::NumbersUsedUp,
            zone.number(),
        ))?;
        self.admits_up(zone, effect.sent)?;
        Ok(LineChange {
            zone,
            place,
            step: request,
            number,
            delivered: None,
            sent: effect.sent,
            next: u64::from(number) + 1,
            counts: Some(self.tables.counts(zone).with_start(effect.answer)),
            report: start_report(number, effect.answer),
        })
    }

    // Refusals 6, 7 and 8 come before.
    fn decide_start(
        &self,
        place: Option<usize>,
        board: &PauseBoard,
        zone: u8,
        request: Request,
    ) -> Result<LineChange<Request>, Fault>
        ensures outcome { line_done ⟦<Request as LineStep>⟧.outcome (model_of T.Transport self.now) result ≡ start_call T.room (model_of T.Transport self.now) place board.now zone request }
        ensures ready { IfOk result (λ ch. LineReady T.room (T.waiting self.now.transport) ch) }
    {
        let known = zone_named(self.plan, zone)?;
        if board.is_paused(zone) {
            return Err(Fault::at_zone(Refusal::ZonePaused, zone));
        }
        let place = place_named(self.plan, place).ok_or(Fault::at_zone(Refusal::NoPlace, zone))?;
        self.start_at(known, place, request)
    }

    // Does a request at a zone. A new key enters the register only with an accepted start.
    pub fn start<K: Key + Drop>(
        &mut self,
        register: &mut Register<'_, K>,
        board: &PauseBoard,
        zone: u8,
        key: K,
        request: Request,
    ) -> Result<Report, Fault>
        ensures outcome { (seen result, model_of T.Transport self.new, in_use register.new) ≡ done (model_of T.Transport self.old) (in_use register.old) (keys_after K.meaning (in_use register.old) (length (row_of register.old)) key) (start_call T.room (model_of T.Transport self.old) (place_given K.meaning (in_use register.old) (length (row_of register.old)) key) board.now zone request) }
        ensures row { length (row_of register.new) ≡ length (row_of register.old) }
        ensures kept { RowKept register.old register.new }
        ensures refusal_changes_nothing { OnErr result ((model_of T.Transport self.new ≡ model_of T.Transport self.old) × (in_use register.new ≡ in_use register.old)) }
    {
        let change = self.decide_start(register.place(&key), board, zone, request)?;
        let _ = register.add(key);
        Ok(self.change_line(change))
    }
}
