// Questions to an opened pool. None of them changes anything.
ghost use Rattle.std.specs.Prelude.{◌≡◌};
ghost use Rattle.keys.specs.Places.{place_of};
ghost use Rattle.keys.specs.Registers.{in_use};
ghost use Rattle.transport.specs.Lanes.{oldest, waiting_count, waiting_at};
ghost use Rattle.calls.specs.Questions.{place_in, reads, holds, lanes_empty, quiet};
ghost use Rattle.pool.specs.Pools.{model_of};
ghost use Rattle.pool.specs.Questions.{line_at, lane_of, lane_is_empty, zone_counts, zone_share};

use crate::naming::place_named;
use crate::opened::Opened;
use calls::slots::Counts;
use keys::key::Key;
use keys::register::Register;
use line::lines::Line;
use messages::assignments::Assignment;
use messages::kinds::Message;
use transport::interface::Transport;
use transport::lanes::Lane;

// The lane of a number below 16: the up lanes by zone, then the down lanes.
fn lane_of(number: u8) -> Lane
    ensures { result ≡ lane_of number }
{
    if number < 8 {
        Lane::Up(number)
    } else {
        Lane::Down(number - 8)
    }
}

impl<T: Transport> Opened<T> {
    // A zone's line for a key, where the pool has both.
    fn line_at(&self, zone: u8, place: Option<usize>) -> Option<Line>
        ensures { result ≡ line_at (model_of T.Transport self.now) zone (place_in (model_of T.Transport self.now) place) }
    {
        let place = place_named(self.plan, place)?;
        let zone = self.plan.zone(zone)?;
        Some(self.tables.slot(zone, place).line)
    }

    // What a zone can read of a key.
    pub fn readable<K: Key + Drop>(
        &self,
        register: &Register<'_, K>,
        zone: u8,
        key: K,
    ) -> Option<Assignment>
        ensures { result ≡ reads K.meaning (model_of T.Transport self.now) (in_use register.now) zone key }
    {
        self.line_at(zone, register.find(&key))
            .and_then(|line| line.readable())
    }

    // Whether a zone holds a key exclusively.
    pub fn holds_exclusively<K: Key + Drop>(
        &self,
        register: &Register<'_, K>,
        zone: u8,
        key: K,
    ) -> bool
        ensures { result ≡ holds K.meaning (model_of T.Transport self.now) (in_use register.now) zone key }
    {
        self.line_at(zone, register.find(&key))
            .is_some_and(|line| line.holds_exclusively())
    }

    // Whether no message waits in the lane of a number.
    fn lane_is_empty(&self, number: u8) -> bool
        ensures { result ≡ lane_is_empty (T.waiting self.now.transport) number }
    {
        self.transport.look(lane_of(number)).is_none()
    }

    fn lanes_are_empty(&self) -> bool
        ensures { result ≡ lanes_empty (T.waiting self.now.transport) }
    {
        (0..16u8).all(|number| self.lane_is_empty(number))
    }

    // Whether all lanes are empty and no request waits at the directory.
    #[tactic(auto, unfolding(calls::specs::Questions::quiet))]
    pub fn is_quiet(&self) -> bool
        ensures { result ≡ quiet (model_of T.Transport self.now) }
    {
        self.lanes_are_empty() && self.tables.rows_are_calm()
    }

    // A zone's accepted starts and hits; none where the pool has no such zone.
    pub fn counts(&self, zone: u8) -> Option<Counts>
        ensures { result ≡ zone_counts (model_of T.Transport self.now) zone }
    {
        self.plan.zone(zone).map(|zone| self.tables.counts(zone))
    }

    // A zone's hit share in percent; none before its first start, and where the pool has no such zone.
    pub fn hit_share(&self, zone: u8) -> Option<u64>
        ensures { result ≡ zone_share (model_of T.Transport self.now) zone }
    {
        self.counts(zone).and_then(Counts::hit_share)
    }

    // The oldest message that waits in a lane.
    pub fn oldest_waiting(&self, lane: Lane) -> Option<Message>
        ensures { result ≡ oldest (T.waiting self.now.transport) lane }
    {
        self.transport.look(lane)
    }

    // How many messages wait in a lane.
    pub fn waiting_count(&self, lane: Lane) -> usize
        ensures { result ≡ waiting_count (T.waiting self.now.transport) lane }
    {
        self.transport.count(lane)
    }

    // The message that has `ahead` older ones before it in its lane.
    pub fn waiting_at(&self, lane: Lane, ahead: usize) -> Option<Message>
        ensures { result ≡ waiting_at (T.waiting self.now.transport) lane ahead }
    {
        self.transport.look_at(lane, ahead)
    }
}
