// A request as its serving begins.
ghost use Rattle.std.specs.Prelude.{◌≡◌};
ghost use Rattle.directory.specs.Lists.{items_of};
ghost use Rattle.directory.specs.TakeUp.{wants_data, begun, asks};

use crate::lists::CacheList;
use crate::rows::{Served, Waiting};
use messages::kinds::{Demand, Down, Outgoing};
use std::array;

// Whether only a zone without a copy sends it.
pub(crate) fn wants_data(demand: Demand) -> bool
    ensures { result ≡ wants_data demand }
{
    matches!(
        demand,
        Demand::GetSharedData
            | Demand::GetExclusiveData
            | Demand::GetExclusiveDataIfAny
            | Demand::GetRemovedData
    )
}

impl Served {
    pub(crate) fn begin(first: Waiting, list: CacheList) -> Served
        ensures { result ≡ begun first (items_of list) }
    {
        Served {
            zone: first.zone,
            demand: first.demand,
            was_listed: list.contains(first.zone),
            owner: list.first().unwrap_or(0),
            found: None,
            owner_purged: false,
        }
    }

    // What each of the eight zones is asked.
    pub(crate) fn asks(self, list: CacheList) -> Outgoing
        ensures { result.to ≡ asks self (items_of list) }
    {
        Outgoing {
            to: array::from_fn(|zone| self.awaited_for(list, zone as u8).map(Down::Ask)),
        }
    }
}
