// The central pool beside the zones: one table for the key, which sees requests, settlements and answers.
ghost use Rattle.std.specs.Prelude.{◌≡◌, replicate, Some};
ghost use Rattle.sorter.specs.Beside.{untouched, accepted, settled, kept_for};

use crate::zones::ZONES;
use messages::assignments::Assignment;
use messages::central::{answer, key_after};
use messages::requests::{Answer, Request};

// Zones are written by index after a test, since `get_mut` was tried and a proof knows nothing of an element written through it.
#[derive(Clone, Copy)]
pub(crate) struct Central {
    held: Option<Assignment>,
    zones: [Served; ZONES],
}

// What the table has of a zone: the request under way, and the answer to the one that was settled last.
#[derive(Clone, Copy)]
pub(crate) struct Served {
    under_way: Option<Request>,
    kept: Option<Answer>,
}

impl Central {
    pub(crate) fn holding(assignment: Assignment) -> Central
        ensures held { result.held ≡ Some assignment }
        ensures zones { result.zones ≡ replicate 3 untouched }
    {
        let untouched = Served {
            under_way: None,
            kept: None,
        };
        Central {
            held: Some(assignment),
            zones: [untouched; ZONES],
        }
    }

    // A request was accepted at a zone. The answer kept there stays.
    pub(crate) fn accept(&mut self, zone: u8, request: Request)
        ensures { self.new ≡ accepted self.old zone request }
    {
        let at = zone as usize;
        if at < ZONES {
            self.zones[at].under_way = Some(request);
        }
    }

    // The zone's request is settled: the table serves it at this moment, and its answer is kept.
    pub(crate) fn settle(&mut self, zone: u8)
        ensures { self.new ≡ settled self.old zone }
    {
        let at = zone as usize;
        if at >= ZONES {
            return;
        }
        if let Some(request) = self.zones[at].under_way {
            self.zones[at] = Served {
                under_way: None,
                kept: Some(answer(request, self.held)),
            };
            self.held = key_after(request, self.held);
        }
    }

    // The answer kept for the zone's request.
    pub(crate) fn kept(&self, zone: u8) -> Option<Answer>
        ensures { result ≡ kept_for self.now zone }
    {
        self.zones.get(zone as usize)?.kept
    }
}
