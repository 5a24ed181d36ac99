ghost use Rattle.std.specs.Prelude.{◌≡◌};

use messages::assignments::Assignment;

// An assignment to load: the zone that holds it, and its key.
#[derive(Clone, Copy)]
pub struct Stock<K> {
    pub zone: u8,
    pub key: K,
    pub assignment: Assignment,
}

impl<K> Stock<K> {
    // The assignment with its key mapped, and all else as it is.
    pub fn map_key<L, F: FnOnce(K) -> L>(self, f: F) -> Stock<L>
        requires { F.IsAlwaysCallable f }
        ensures zone { result.zone ≡ self.zone }
        ensures key { F.post f self.key result.key }
        ensures assignment { result.assignment ≡ self.assignment }
    {
        Stock {
            zone: self.zone,
            key: f(self.key),
            assignment: self.assignment,
        }
    }
}
