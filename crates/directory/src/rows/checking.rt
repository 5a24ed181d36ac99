// Whether a row is sound.
ghost use Rattle.std.specs.Prelude.{◌≡◌};
ghost use Rattle.directory.specs.Directory.{view_of};
ghost use Rattle.directory.specs.Sound.{sound, proper};

use crate::lists::zones::is_listed;
use crate::rows::Row;
use messages::kinds::Demand;

// Whether the zones are distinct and each below eight.
fn is_proper(zones: &[u8]) -> bool
    ensures { result ≡ proper zones.now }
{
    match zones.split_first() {
        Some((zone, rest)) => *zone < 8 && !is_listed(rest, *zone) && is_proper(rest),
        None => true,
    }
}

impl Row {
    // Whether the listed zones and the requesters are each proper, and a reader that is served is not listed.
    pub(crate) fn is_sound(self) -> bool
        ensures { result ≡ sound (view_of self) }
    {
        is_proper(self.list.as_slice())
            && is_proper(self.waiting.zones().as_slice())
            && self.served.is_none_or(|served| {
                let is_reader = matches!(served.demand, Demand::GetSharedData);
                served.zone < 8
                    && !self.waiting.has_request_of(served.zone)
                    && !(is_reader && self.list.contains(served.zone))
            })
    }
}
