ghost use Rattle.std.specs.Prelude.{◌≡◌};
ghost use Rattle.directory.specs.Directory.{requesters};
ghost use Rattle.directory.specs.Lists.{items_of, listed, without};

use crate::lists::{CacheList, ShortList};
use crate::rows::Waiting;

// Whether a zone is one of these.
pub(crate) fn is_listed(zones: &[u8], zone: u8) -> bool
    ensures { result ≡ listed zones.now zone }
{
    zones.contains(&zone)
}

impl ShortList<u8> {
    pub fn contains(self, zone: u8) -> bool
        ensures { result ≡ listed (items_of self) zone }
    {
        is_listed(self.as_slice(), zone)
    }

    // The list with a zone struck off.
    pub(crate) fn strike(self, zone: u8) -> CacheList
        ensures { items_of result ≡ without zone (items_of self) }
    {
        let mut left = ShortList::empty(0);
        for listed in self.as_slice() {
            if *listed != zone {
                left = left.push_back(*listed);
            }
        }
        left
    }
}

impl ShortList<Waiting> {
    // Whether a request of the zone waits.
    pub(crate) fn has_request_of(self, zone: u8) -> bool
        ensures { result ≡ listed (requesters (items_of self)) zone }
    {
        self.as_slice().iter().any(|waiting| waiting.zone == zone)
    }

    // The zones of the waiting requests.
    pub(crate) fn zones(self) -> ShortList<u8>
        ensures { items_of result ≡ requesters (items_of self) }
    {
        ShortList {
            items: self.items.map(|waiting| waiting.zone),
            used: self.used,
        }
    }
}
