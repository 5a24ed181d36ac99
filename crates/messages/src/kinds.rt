ghost use Rattle.std.specs.Prelude.{◌≡◌, replicate, Some, None, slice_set};
ghost use Rattle.messages.specs.Kinds.{carried, goes_up};

use crate::assignments::Assignment;

// What a zone requests of the directory.
#[derive(Clone, Copy, PartialEq, Eq, Debug)]
pub enum Demand {
    GetSharedData,
    GetExclusiveData,
    GetExclusiveDataIfAny,
    GetRemovedData,
    Exclude,
    ExcludeIfAny,
    PurgeOthers,
    PurgeAndExclude,
    PurgeAll,
}

// What a zone sends up to the directory.
#[derive(Clone, Copy, PartialEq, Eq, Debug)]
pub enum Up {
    Demand(Demand),
    Data(Assignment),
    Purged,
    // unasked: the zone dropped its copy
    Report,
}

// What the directory asks of a zone that is on the cache list.
#[derive(Clone, Copy, PartialEq, Eq, Debug)]
pub enum Ask {
    SendData,
    SendDataAndInvalidate,
    Invalidate,
}

// How the directory ends a zone's own demand.
#[derive(Clone, Copy, PartialEq, Eq, Debug)]
pub enum Reply {
    DataFound(Assignment),
    ExclusionMade,
    NoDataFound,
}

// What the directory sends down to a zone.
#[derive(Clone, Copy, PartialEq, Eq, Debug)]
pub enum Down {
    Ask(Ask),
    Reply(Reply),
}

// The kind of a message, by the way that it travels.
#[derive(Clone, Copy, PartialEq, Eq, Debug)]
pub enum Kind {
    Up(Up),
    Down(Down),
}

// A message of a lane: its kind, and the place of the key that it is about.
#[derive(Clone, Copy, PartialEq, Eq, Debug)]
pub struct Message {
    pub kind: Kind,
    pub place: u8,
}

impl Kind {
    // Whether it travels up, from a zone to the directory; else it travels down.
    pub fn goes_up(self) -> bool
        ensures { result ≡ goes_up self }
    {
        matches!(self, Kind::Up(_))
    }

    // The assignment that it carries: only data and data_found do.
    pub fn assignment(self) -> Option<Assignment>
        ensures { result ≡ carried self }
    {
        match self {
            Kind::Up(Up::Data(assignment))
            | Kind::Down(Down::Reply(Reply::DataFound(assignment))) => Some(assignment),
            _ => None,
        }
    }
}

// What the directory sends down in one step: at most one message to each of the eight zones.
#[derive(Clone, Copy)]
pub struct Outgoing {
    pub to: [Option<Down>; 8],
}

impl Outgoing {
    // No message to any zone.
    pub fn nothing() -> Outgoing
        ensures { result.to ≡ replicate 8 None }
    {
        Outgoing { to: [None; 8] }
    }

    // One message to one zone; nothing where the zone is above 7.
    pub fn one(zone: u8, down: Down) -> Outgoing
        ensures { result.to ≡ slice_set (replicate 8 None) zone (Some down) }
    {
        let mut outgoing = Outgoing::nothing();
        if zone < 8 {
            outgoing.to[zone as usize] = Some(down);
        }
        outgoing
    }
}
