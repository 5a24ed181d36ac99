// What the rings do as a transport, at every depth.
ghost use Rattle.std.specs.Prelude.{◌≡◌, ◌<◌};
ghost use Rattle.transport.specs.Lanes.{all_empty};
ghost use Rattle.transport.specs.Ring.{bank_lists};
ghost use Rattle.transport.specs.Room.{EmptyAdmits, made_depth, rings_room, ring_depth};
ghost use Rattle.transport.specs.RingRoom.{bank_lanes, part_admitted, rest_admitted, take_admits, empty_admits, made_deep};

use super::{RING_DEPTH, RingBank, Rings};
use crate::faults::{Subject, TransportFault};
use crate::interface::Transport;
use crate::lanes::{Lane, LaneSet};
use crate::ring::Ring;
use messages::kinds::Message;

impl RingBank<RING_DEPTH> {
    // All lanes empty.
    #[tactic(auto, using(crate::specs::RingRoom::empty_admits, crate::specs::RingRoom::ring_deep))]
    pub fn new() -> Rings
        ensures empty { bank_lists result ≡ all_empty }
        ensures rule { ⟦<Rings as Transport>⟧.room ≡ rings_room ring_depth }
        ensures admits { EmptyAdmits (rings_room ring_depth) }
    {
        RingBank::empty()
    }
}

impl<const DEPTH: usize> RingBank<DEPTH> {
    fn empty() -> RingBank<DEPTH>
        requires { 0 < DEPTH }
        ensures { bank_lists result ≡ all_empty }
    {
        RingBank {
            rings: [Ring::empty(); 16],
        }
    }
}

impl<const DEPTH: usize> Transport for RingBank<DEPTH> {
    ghost waiting = { bank_lists };

    // Of rings that are made; of no depth none are, and the rule with its laws is that of depth 1.
    ghost room = { rings_room (made_depth DEPTH) };

    ghost lanes = { bank_lanes };

    ghost part = { part_admitted (made_depth DEPTH) };

    ghost rest = { rest_admitted (made_depth DEPTH) };

    ghost fewer = { take_admits (made_depth DEPTH) };

    ghost empty = { empty_admits (made_depth DEPTH) (made_deep DEPTH) };

    fn put(&mut self, lane: Lane, message: Message) -> Result<(), TransportFault> {
        let i = lane
            .number()
            .ok_or(TransportFault::no_such_zone(lane.zone()))?;
        let ring = &mut self.rings[i];
        if ring.is_full() {
            return Err(TransportFault::no_room(Subject::Zone(lane.zone())));
        }
        ring.push(message);
        Ok(())
    }

    #[tactic(auto, using(crate::specs::RingRoom::lane_popped))]
    fn take(&mut self, lane: Lane) -> Option<Message> {
        let i = lane.number()?;
        self.rings[i].pop()
    }

    fn look(&self, lane: Lane) -> Option<Message> {
        let i = lane.number()?;
        self.rings[i].get(0)
    }

    #[tactic(auto, using(crate::specs::RingRoom::lane_read))]
    fn count(&self, lane: Lane) -> usize {
        // No `map_or`: it was tried, and a closure over rings of any depth would need clauses of its own.
        match lane.number() {
            Some(i) => self.rings[i].count(),
            None => 0,
        }
    }

    fn look_at(&self, lane: Lane, ahead: usize) -> Option<Message> {
        let i = lane.number()?;
        self.rings[i].get(ahead)
    }

    fn has_room(&self, set: LaneSet) -> bool {
        let full = self.rings.iter().map(Ring::is_full);
        !set.marks
            .iter()
            .zip(full)
            .any(|(marked, full)| *marked && full)
    }

    fn clear(&mut self) {
        *self = Self::empty();
    }
}
