// Lanes and sets of lanes.
ghost use Rattle.std.specs.Prelude.{◌≡◌, ◌<◌, ◌≤◌, IfSome};
ghost use Rattle.transport.specs.Lanes.{lane_number, zone_of, no_lane, also_marked};
ghost use Rattle.transport.specs.Room.{set_size};
ghost use Rattle.transport.specs.Sending.{down_marks};

use messages::kinds::Outgoing;

// A zone's lane to the directory, or from it.
#[derive(Clone, Copy, PartialEq, Eq, Debug)]
pub enum Lane {
    Up(u8),
    Down(u8),
}

impl Lane {
    // The lane's number: 0 to 7 the up lanes by zone, 8 to 15 the down lanes. None where the zone is above 7.
    pub(crate) fn number(self) -> Option<usize>
        ensures number { result ≡ lane_number self }
        ensures within { IfSome result (λ i. i < 16) }
    {
        match self {
            Lane::Up(zone) => (zone < 8).then_some(zone as usize),
            Lane::Down(zone) => (zone < 8).then_some(8 + zone as usize),
        }
    }

    pub(crate) fn zone(self) -> u8
        ensures { result ≡ zone_of self }
    {
        match self {
            Lane::Up(zone) | Lane::Down(zone) => zone,
        }
    }
}

// A set of lanes: a mark for each lane's number.
#[derive(Clone, Copy, PartialEq, Eq, Debug)]
pub struct LaneSet {
    pub marks: [bool; 16],
}

impl LaneSet {
    pub(crate) fn none() -> LaneSet
        ensures { result.marks ≡ no_lane }
    {
        LaneSet { marks: [false; 16] }
    }

    // The set of one lane; empty where the zone is above 7.
    pub fn one(lane: Lane) -> LaneSet
        ensures { result.marks ≡ also_marked no_lane lane }
    {
        LaneSet::none().with(lane)
    }

    // The set with one lane more; as it was where the zone is above 7.
    pub fn with(mut self, lane: Lane) -> LaneSet
        ensures { result.marks ≡ also_marked self.marks lane }
    {
        if let Some(i) = lane.number() {
            self.marks[i] = true;
        }
        self
    }

    // The down lanes of the zones that get a message.
    pub fn down_to(outgoing: Outgoing) -> LaneSet
        ensures { result.marks ≡ down_marks outgoing.to }
    {
        LaneSet {
            marks: down_marks(outgoing),
        }
    }

    // How many lanes the set has.
    pub(crate) fn size(self) -> usize
        ensures { (result ≡ set_size self.marks) × (result ≤ 16) }
    {
        let mut size = 0;
        for marked in &self.marks {
            if *marked {
                size += 1;
            }
        }
        size
    }
}

// The marks of the down lanes of the zones that get a message.
fn down_marks(outgoing: Outgoing) -> [bool; 16]
    ensures { result ≡ down_marks outgoing.to }
{
    let mut marks = [false; 16];
    marks[8..].copy_from_slice(&outgoing.to.map(|next| next.is_some()));
    marks
}
