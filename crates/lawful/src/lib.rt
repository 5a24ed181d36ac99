// Every run of a pool obeys the law over runs: the theorem, on the contract of a function that the program calls.
#![tactic(auto)]

ghost use Rattle.std.specs.Prelude.{◌≡◌, true};
ghost use Rattle.lawful.specs.Theorem.{EveryRunIsLawful};

// Assumes nothing.
pub fn every_run_is_lawful() -> bool
    ensures value { result ≡ true }
    ensures lawful { EveryRunIsLawful }
{
    model_is_lawful();
    true
}

fn model_is_lawful()
    ensures { EveryRunIsLawful }
{}
