use crate::lists::{CacheList, ShortList};
use messages::assignments::Assignment;
use messages::kinds::{Demand, Outgoing};

mod checking;
mod serving;
pub(crate) mod starting;

// How a request is served. Sharing: the owner is asked for its data. Fetching: the owner is asked for its data and the
// others to invalidate. Clearing: all but the requester are asked to invalidate.
#[derive(Clone, Copy)]
pub enum Rule {
    Sharing,
    Fetching,
    Clearing,
}

// A zone's request that the directory has not taken up.
#[derive(Clone, Copy)]
pub struct Waiting {
    pub(crate) zone: u8,
    pub(crate) demand: Demand,
}

// The request being served. Which zones are still awaited, and for what, is read off the cache list.
#[derive(Clone, Copy)]
pub struct Served {
    pub(crate) zone: u8,
    demand: Demand,
    // at the take-up: whether the zone was listed, and who was the owner: 0 where nobody is listed, which is never read, since it is only
    // compared with listed zones. An Option would bring a third case into every rule that speaks of the owner, and no listed zone meets it
    was_listed: bool,
    owner: u8,
    // what has come: data, and the owner's purged message
    found: Option<Assignment>,
    owner_purged: bool,
}

// What the directory keeps for one place, as it lies in a table.
#[derive(Clone, Copy)]
pub struct Row {
    pub(crate) list: CacheList,
    pub(crate) waiting: ShortList<Waiting>,
    pub(crate) served: Option<Served>,
}

// What a step does besides changing the row: the messages that it sends down, and the zone whose request it settles.
#[derive(Clone, Copy)]
pub struct Effect {
    pub outgoing: Outgoing,
    pub settled: Option<u8>,
}
