// What the belt does as a transport, against the lists that its entries show.
ghost use Rattle.std.specs.Prelude.{◌≡◌, ◌<◌, [], ◌∷◌, ◌++◌, length, drop, filter, position};
ghost use Rattle.std.specs.List.{remove};
ghost use Rattle.transport.specs.Lanes.{all_empty, oldest_of};
ghost use Rattle.transport.specs.Belt.{held, of_lane, lane_of, belt_lists, entry_of};
ghost use Rattle.transport.specs.Room.{EmptyAdmits, belt_size, belt_room};
ghost use Rattle.transport.specs.BeltLanes.{lanes_sixteen};
ghost use Rattle.transport.specs.BeltRoom.{part_admitted, rest_admitted, take_admits, empty_admits};

use super::{BELT_SIZE, Belt};
use crate::entry::Entry;
use crate::faults::{Subject, TransportFault};
use crate::interface::Transport;
use crate::lanes::{Lane, LaneSet};
use crate::ring::moves::BLANK;
use messages::kinds::Message;

impl Belt {
    // All lanes empty.
    #[tactic(auto, unfolding(crate::specs::Belt::lanes_of), using(crate::specs::BeltRoom::empty_admits))]
    pub fn new() -> Belt
        ensures empty { belt_lists result ≡ all_empty }
        ensures admits { EmptyAdmits belt_room }
    {
        Belt {
            entries: [Entry {
                lane: 0,
                message: BLANK,
            }; BELT_SIZE],
            len: 0,
        }
    }

    // The places that hold a message.
    fn held(&self) -> &[Entry]
        ensures { result.now ≡ held self.now }
    {
        &self.entries[..self.len]
    }

    // The place of the first message of a lane.
    fn find(&self, lane: usize) -> Option<usize>
        ensures { result ≡ position (of_lane lane) (held self.now) }
    {
        self.held().iter().position(|entry| entry.lane == lane)
    }

    // How many messages of a lane there are.
    fn count_of(&self, lane: usize) -> usize
        ensures { result ≡ length (filter (of_lane lane) (held self.now)) }
    {
        let mut count = 0;
        for entry in self.held() {
            if entry.lane == lane {
                count += 1;
            }
        }
        count
    }

    // The message of a lane that has `ahead` older ones before it.
    fn behind(&self, lane: usize, ahead: usize) -> Option<Message>
        ensures { result ≡ oldest_of (drop ahead (lane_of (held self.now) lane)) }
    {
        let mut older = ahead;
        for entry in self.held() {
            if entry.lane == lane {
                if older == 0 {
                    return Some(entry.message);
                }
                older -= 1;
            }
        }
        None
    }

    // One message more, on the lane of that number.
    fn push(&mut self, lane: usize, message: Message)
        requires { (length (held self.old) < belt_size) × (lane < 16) }
        ensures { held self.new ≡ held self.old ++ entry_of lane message ∷ [] }
    {
        self.entries[self.len] = Entry { lane, message };
        self.len += 1;
    }

    // Later messages move up by one.
    #[tactic(auto, using(crate::proofs::BeltLists::one_less, crate::proofs::BeltLists::length_held))]
    fn remove(&mut self, at: usize)
        requires { at < length (held self.old) }
        ensures { held self.new ≡ remove (held self.old) at }
    {
        self.entries[at..self.len].rotate_left(1);
        self.len -= 1;
    }
}

impl Transport for Belt {
    ghost waiting = { belt_lists };

    ghost room = { belt_room };

    ghost lanes = { λ t. lanes_sixteen (held t) };

    ghost part = { part_admitted };

    ghost rest = { rest_admitted };

    ghost fewer = { take_admits };

    ghost empty = { empty_admits };

    fn put(&mut self, lane: Lane, message: Message) -> Result<(), TransportFault> {
        let i = lane
            .number()
            .ok_or(TransportFault::no_such_zone(lane.zone()))?;
        if self.len >= BELT_SIZE {
            return Err(TransportFault::no_room(Subject::Zone(lane.zone())));
        }
        self.push(i, message);
        Ok(())
    }

    fn take(&mut self, lane: Lane) -> Option<Message> {
        let i = lane.number()?;
        let at = self.find(i)?;
        let message = self.entries[at].message;
        self.remove(at);
        Some(message)
    }

    // By its first message alone: the lane is not gone through to its end.
    fn look(&self, lane: Lane) -> Option<Message> {
        let i = lane.number()?;
        let first = self.find(i)?;
        Some(self.entries[first].message)
    }

    #[tactic(auto, using(crate::proofs::BeltLists::count_is))]
    fn count(&self, lane: Lane) -> usize {
        lane.number().map_or(0, |i| self.count_of(i))
    }

    #[tactic(auto, using(crate::proofs::BeltLists::lane_is))]
    fn look_at(&self, lane: Lane, ahead: usize) -> Option<Message> {
        let i = lane.number()?;
        self.behind(i, ahead)
    }

    #[tactic(auto, using(crate::proofs::BeltLists::waiting_held), unfolding(crate::specs::Room::belt_room))]
    fn has_room(&self, set: LaneSet) -> bool {
        self.len + set.size() <= BELT_SIZE
    }

    #[tactic(auto, unfolding(crate::specs::Belt::lanes_of))]
    fn clear(&mut self) {
        self.len = 0;
    }
}
