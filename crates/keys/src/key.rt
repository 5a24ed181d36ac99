ghost use Rattle.std.specs.Prelude.{◌≡◌, ℕ, List, Decides};

// A kind of key: what a key means, and the one question that a kind answers.
pub trait Key {
    ghost meaning: { Self → List ℕ };

    // Yes exactly when the two keys mean the same.
    fn same(&self, other: &Self) -> bool
        ensures { Decides result (meaning self.now ≡ meaning other.now) };
}
