// A zone that a plan can have. To a contract it is its number.
ghost use Rattle.std.specs.Prelude.{◌≡◌, ◌<◌};
ghost use Rattle.rules.specs.Plans.{zone_in};

use crate::plan::Plan;
use std::marker::Model;

// One of eight zones.
#[derive(Clone, Copy)]
pub struct Zone {
    number: u8,
}

impl Model for Zone {
    ghost use Rattle.std.specs.Prelude.{ℕ, ◌<◌};

    ghost Value = { ℕ };

    ghost view = { λ zone. zone.number };

    ghost invariant = { λ zone. zone.number < 8 };

    ghost inverse = { λ number. record { number = number } };
}

impl Zone {
    pub fn number(self) -> u8
        ensures value { result ≡ self }
        ensures below { result < 8 }
    {
        self.number
    }
}

impl Plan {
    // The zone of a number, where the plan has it.
    pub fn zone(self, number: u8) -> Option<Zone>
        ensures { result ≡ zone_in self number }
    {
        if number < self.zones() {
            Some(Zone { number })
        } else {
            None
        }
    }
}
