// Three zones and the directory run a small scenario over each backplane, and a shift report follows.
// Then the pool runs a morning of four zones.
#![tactic(auto)]

mod bench;
mod central;
mod faults;
mod morning;
mod scenes;
mod shares;
mod shift;
mod words;
mod zones;

use cases::marked_cases;
use coherence::every_run_is_coherent;
use faults::Fault;
use lawful::every_run_is_lawful;
use scenes::run;
use transport::belt::Belt;
use transport::rings::Rings;

fn main(rt: HostRuntime) -> Result<(), Fault> {
    work(&rt)
}

fn work(rt: &HostRuntime) -> Result<(), Fault> {
    println!(rt; "== over the rings")?;
    let over_rings = run(rt, Rings::new())?;
    println!(rt; "== over the belt")?;
    let over_belt = run(rt, Belt::new())?;
    if over_rings.answers != over_belt.answers {
        return Err(Fault::BackplanesDiffer);
    }
    println!(rt;
        "== both backplanes gave the same {} answers",
        over_rings.answers.len()
    )?;
    shift::report(rt, over_rings.zones)?;
    morning::report(rt)?;
    proved(rt)
}

// What is proved of every run, on the contracts of the functions called here.
fn proved(rt: &HostRuntime) -> Result<(), Fault> {
    println!(rt;
        "== proved: {} worked cases at the limits of the rules",
        marked_cases()
    )?;
    if every_run_is_coherent() {
        println!(rt;
            "== proved: in every run of one key a zone reads what the central pool holds, and beside an exclusive holder nobody reads"
        )?;
    }
    if every_run_is_lawful() {
        println!(rt;
            "== proved: in every run of a pool each answer is the central pool's, and once it is quiet every accepted start is answered"
        )?;
    }
    Ok(())
}
