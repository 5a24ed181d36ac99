// What a ring does, against the list that it shows.
ghost use Rattle.std.specs.Prelude.{◌≡◌, ◌+◌, ◌<◌, ◌≤◌, [], ◌∷◌, ◌++◌, length, drop, nat_le};
ghost use Rattle.transport.specs.Lanes.{oldest_of};
ghost use Rattle.transport.specs.Ring.{around, ring_items};

use super::Ring;
use messages::kinds::{Demand, Kind, Message, Up};

// What a slot holds before its first message.
pub(crate) const BLANK: Message = Message {
    kind: Kind::Up(Up::Demand(Demand::GetSharedData)),
    place: 0,
};

impl<const DEPTH: usize> Ring<DEPTH> {
    #[tactic(auto, using(crate::proofs::RingLists::ring_none))]
    pub(crate) fn empty() -> Ring<DEPTH>
        requires { 0 < DEPTH }
        ensures { ring_items result ≡ [] }
    {
        Ring {
            slots: [BLANK; DEPTH],
            head: 0,
            len: 0,
        }
    }

    #[tactic(auto, using(crate::proofs::RingLists::length_ring))]
    pub(crate) fn is_full(&self) -> bool
        ensures { result ≡ nat_le DEPTH (length (ring_items self.now)) }
    {
        self.len >= DEPTH
    }

    // The slot `k` places after the head, going around.
    #[tactic(auto, using(crate::proofs::RingLists::around_is))]
    fn slot(&self, k: usize) -> usize
        requires { k ≤ DEPTH }
        ensures value { result ≡ around DEPTH (self.now.head + k) }
        ensures within { result < DEPTH }
    {
        (self.head + k) % DEPTH
    }

    #[tactic(auto, using(crate::proofs::RingLists::length_ring, crate::proofs::RingLists::ring_pushed))]
    pub(crate) fn push(&mut self, message: Message)
        requires { length (ring_items self.old) < DEPTH }
        ensures { ring_items self.new ≡ ring_items self.old ++ message ∷ [] }
    {
        self.slots[self.slot(self.len)] = message;
        self.len += 1;
    }

    #[tactic(auto, using(crate::proofs::RingLists::length_ring))]
    pub(crate) fn count(&self) -> usize
        ensures { result ≡ length (ring_items self.now) }
    {
        self.len
    }

    // The message that has `ahead` older ones before it.
    #[tactic(auto, using(crate::proofs::RingLists::ring_at, crate::proofs::RingLists::ring_past))]
    pub(crate) fn get(&self, ahead: usize) -> Option<Message>
        ensures { result ≡ oldest_of (drop ahead (ring_items self.now)) }
    {
        // No `then`: it was tried, and its closure would need clauses of its own, for the bound of `slot`.
        if ahead < self.len {
            Some(self.slots[self.slot(ahead)])
        } else {
            None
        }
    }

    #[tactic(auto, using(crate::proofs::RingLists::none_oldest, crate::proofs::RingLists::ring_waits, crate::proofs::RingLists::ring_popped))]
    pub(crate) fn pop(&mut self) -> Option<Message>
        ensures answer { result ≡ oldest_of (ring_items self.old) }
        ensures rest { ring_items self.new ≡ drop 1 (ring_items self.old) }
    {
        let message = self.get(0)?;
        self.head = self.slot(1);
        self.len -= 1;
        Some(message)
    }
}
