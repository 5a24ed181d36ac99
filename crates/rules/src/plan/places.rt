// A place that a plan can have. To a contract it is its number.
ghost use Rattle.std.specs.Prelude.{◌≡◌, ◌<◌};
ghost use Rattle.rules.specs.Plans.{place_in, any_place};

use crate::plan::Plan;
use std::marker::Model;

// One of 32 places.
#[derive(Clone, Copy)]
pub struct Place {
    number: u8,
}

impl Model for Place {
    ghost use Rattle.std.specs.Prelude.{ℕ, ◌<◌};

    ghost Value = { ℕ };

    ghost view = { λ place. place.number };

    ghost invariant = { λ place. place.number < 32 };

    ghost inverse = { λ number. record { number = number } };
}

impl Place {
    // The place of a number below 32.
    pub fn new(number: u8) -> Option<Place>
        ensures { result ≡ any_place number }
    {
        if number < 32 {
            Some(Place { number })
        } else {
            None
        }
    }

    pub fn number(self) -> u8
        ensures value { result ≡ self }
        ensures below { result < 32 }
    {
        self.number
    }
}

impl Plan {
    // The place of a number, where the plan has it.
    pub fn place(self, number: usize) -> Option<Place>
        ensures { result ≡ place_in self number }
    {
        let number = u8::try_from(number).ok()?;
        if number < self.places() {
            Some(Place { number })
        } else {
            None
        }
    }
}
