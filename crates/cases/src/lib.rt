// The worked cases at the limits of the rules, in one table.
#![tactic(auto)]

ghost use Rattle.std.specs.Prelude.{◌≡◌};
ghost use Rattle.cases.specs.Marked.{MarkedCases};

#[cfg(test)]
mod tests;

// The table has its one proof here.
fn show_cases()
    ensures { MarkedCases }
{}

// Each case of the table comes out as it says; answers how many there are.
pub fn marked_cases() -> u8
    ensures cases { MarkedCases }
    ensures count { result ≡ 8 }
{
    show_cases();
    8
}
