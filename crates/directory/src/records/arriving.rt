// A message from a zone.
ghost use Rattle.std.specs.Prelude.{◌≡◌, ◌<◌};
ghost use Rattle.directory.specs.Arrivals.{demand_arrives, data_arrives, purged_arrives, report_arrives, delivered};
ghost use Rattle.directory.specs.Directory.{view_of, outcome_of, busy};
ghost use Rattle.directory.specs.Lists.{items_of, listed};

use crate::records::Record;
use crate::rows::{Effect, Waiting};
use messages::assignments::Assignment;
use messages::kinds::{Ask, Demand, Kind, Outgoing, Up};
use messages::refusals::Refusal;

impl Record {
    // Whether a request of the zone waits or is served.
    fn is_busy(self, zone: u8) -> bool
        ensures { result ≡ listed (busy (view_of self.row)) zone }
    {
        self.row.served.is_some_and(|served| served.zone == zone)
            || self.row.waiting.has_request_of(zone)
    }

    fn demand_arrives(&mut self, zone: u8, demand: Demand) -> Result<Effect, Refusal>
        requires { zone < 8 }
        ensures { outcome_of result (view_of self.new.row) ≡ demand_arrives demand zone (view_of self.old.row) }
    {
        if self.is_busy(zone) {
            return Err(Refusal::Misplaced);
        }
        self.row.waiting = self.row.waiting.push_back(Waiting { zone, demand });
        Ok(Effect {
            outgoing: Outgoing::nothing(),
            settled: None,
        })
    }

    fn data_arrives(&mut self, zone: u8, data: Assignment) -> Result<Effect, Refusal>
        ensures { outcome_of result (view_of self.new.row) ≡ data_arrives self.old.row.served «data» zone (items_of self.old.row.list) (items_of self.old.row.waiting) }
    {
        let served = self.row.served.ok_or(Refusal::Misplaced)?;
        match served.awaited_for(self.row.list, zone) {
            Some(Ask::SendData) => {}
            Some(Ask::SendDataAndInvalidate) => self.strike(zone),
            _ => return Err(Refusal::Misplaced),
        }
        self.row.served = Some(served.with_data(data));
        Ok(self.go_on(Outgoing::nothing()))
    }

    fn purged_arrives(&mut self, zone: u8) -> Result<Effect, Refusal>
        ensures { outcome_of result (view_of self.new.row) ≡ purged_arrives self.old.row.served zone (items_of self.old.row.list) (items_of self.old.row.waiting) }
    {
        let served = self.row.served.ok_or(Refusal::Misplaced)?;
        let Some(Ask::Invalidate) = served.awaited_for(self.row.list, zone) else {
            return Err(Refusal::Misplaced);
        };
        self.strike(zone);
        self.row.served = Some(served.with_purged(zone));
        Ok(self.go_on(Outgoing::nothing()))
    }

    fn report_arrives(&mut self, zone: u8) -> Result<Effect, Refusal>
        ensures { outcome_of result (view_of self.new.row) ≡ report_arrives zone (view_of self.old.row) }
    {
        if !self.row.list.contains(zone) {
            return Err(Refusal::Misplaced);
        }
        self.strike(zone);
        Ok(self.go_on(Outgoing::nothing()))
    }

    // A message from a zone.
    pub fn deliver(&mut self, zone: u8, kind: Kind) -> Result<Effect, Refusal>
        ensures { outcome_of result (view_of self.new.row) ≡ delivered kind zone (view_of self.old.row) }
    {
        if zone >= 8 {
            return Err(Refusal::Misplaced);
        }
        match kind {
            Kind::Up(Up::Demand(demand)) => self.demand_arrives(zone, demand),
            Kind::Up(Up::Data(data)) => self.data_arrives(zone, data),
            Kind::Up(Up::Purged) => self.purged_arrives(zone),
            Kind::Up(Up::Report) => self.report_arrives(zone),
            Kind::Down(_) => Err(Refusal::Misplaced),
        }
    }
}
