ghost use Rattle.std.specs.Prelude.{◌≡◌};
ghost use Rattle.messages.specs.Refusals.{refusal_number};

// The layer that refused.
#[derive(Clone, Copy, PartialEq, Eq, Debug)]
pub enum Layer {
    Pool,
    Transport,
}

// Why something was refused. Each refusal has a number.
#[derive(Clone, Copy, PartialEq, Eq, Debug)]
pub enum Refusal {
    // whoever sets up
    ZonesOutOfRange = 1,
    PlacesOutOfRange = 2,
    FirstNumberZero = 3,
    AlreadyLoaded = 4,
    ChuteTooLarge = 5,
    // the zone controller
    NoSuchZone = 6,
    ZonePaused = 7,
    NoPlace = 8,
    LineWaiting = 9,
    NumbersUsedUp = 10,
    // a full transport
    NoRoom = 11,
    // whoever moves messages
    NotSharedUnowned = 12,
    UnknownKey = 13,
    LaneEmpty = 14,
    PlaceServed = 15,
    NothingWaits = 16,
    // a user of a step alone: the step has no place in the protocol
    Misplaced = 17,
}

impl Refusal {
    pub fn number(self) -> u8
        ensures { result ≡ refusal_number self }
    {
        self as u8
    }
}
