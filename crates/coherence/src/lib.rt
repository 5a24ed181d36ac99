// One key in every run of the pool: the theorem, on the contract of a function that the program calls.
#![tactic(auto)]

ghost use Rattle.std.specs.Prelude.{◌≡◌, true};
ghost use Rattle.coherence.specs.Coherent.{Coherent};
ghost use Rattle.coherence.specs.Crossings.{CrossingsAreReached};

// Every run of one key is coherent, and there are runs with crossings. Assumes nothing.
pub fn every_run_is_coherent() -> bool
    ensures value { result ≡ true }
    ensures coherent { Coherent }
    ensures crossings { CrossingsAreReached }
{
    one_key_is_coherent();
    true
}

fn one_key_is_coherent()
    ensures coherent { Coherent }
    ensures crossings { CrossingsAreReached }
{}
