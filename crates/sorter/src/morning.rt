// A morning of a four-zone sorter, run four times: over the rings and over the belt, with group numbers and with cage tags.
mod onlooker;
mod scenes;
mod script;
mod tags;
mod tally;
mod telling;

use crate::faults::Fault;
use crate::shares;
use keys::key::Key;
use keys::kinds::{CageTag, GroupNumber};
pub(crate) use onlooker::Objection;
use onlooker::{Seen, watch};
use pool::running::run;
use script::{Day, Outcome, PLACES, Script};
use std::alloc::Global;
use transport::belt::Belt;
use transport::interface::Transport;
use transport::rings::Rings;

// The results of a run, and what the onlooker saw.
#[derive(Drop)]
struct Watched {
    results: Vec<Outcome>,
    seen: Seen,
}

pub(crate) fn report(rt: &HostRuntime) -> Result<(), Fault> {
    let heap = rt.alloc();
    let script = script::morning(heap)?;
    let first = script
        .day
        .watched(Rings::new(), &mut [GroupNumber::new(0); PLACES], heap)?;
    tell_first(rt, &script, &first)?;
    again(rt, &script.day, &first)?;
    println!(rt; "== all four runs agreed")?;
    Ok(())
}

fn tell_first(rt: &HostRuntime, script: &Script, first: &Watched) -> Result<(), Fault> {
    println!(rt; "== a morning of four zones, over the rings, with group numbers")?;
    telling::tell_stock(rt, script)?;
    telling::tell_calls(rt, script, &first.results, &first.seen.answers)?;
    println!(rt;
        "-- {} starts were accepted, and each was answered as by the central pool",
        first.seen.accepted
    )?;
    shares::tell(
        rt,
        &tally::tallied(&script.day, &first.results),
        "were hits",
    )
}

// The same morning over the other backplane, and with the other kind of key.
fn again(rt: &HostRuntime, day: &Day<GroupNumber>, first: &Watched) -> Result<(), Fault> {
    let heap = rt.alloc();
    let tagged = tags::tagged(day, heap)?;
    println!(rt; "-- the same morning again")?;
    first.agrees(
        rt,
        "the belt, with group numbers",
        &day.watched(Belt::new(), &mut [GroupNumber::new(0); PLACES], heap)?,
    )?;
    first.agrees(
        rt,
        "the rings, with cage tags",
        &tagged.watched(Rings::new(), &mut [CageTag::new(0, 0, 0); PLACES], heap)?,
    )?;
    first.agrees(
        rt,
        "the belt, with cage tags",
        &tagged.watched(Belt::new(), &mut [CageTag::new(0, 0, 0); PLACES], heap)?,
    )
}

impl<K: Key + Copy> Day<K> {
    // A run over a backplane and a lent row, under an onlooker's eyes.
    fn watched<T: Transport + Drop>(
        &self,
        transport: T,
        row: &mut [K],
        heap: Global,
    ) -> Result<Watched, Fault> {
        let results = run(self.plan, transport, row, &self.stock, &self.calls, heap)?;
        let seen = watch(self, &results, heap)?;
        Ok(Watched { results, seen })
    }
}

impl Watched {
    fn agrees(&self, rt: &HostRuntime, how: &str, other: &Watched) -> Result<(), Fault> {
        if other.results != self.results {
            return Err(Fault::RunsDiffer);
        }
        println!(rt;
            "   over {how}: the same {} results, and {} answers as by the central pool",
            other.results.len(),
            other.seen.accepted
        )?;
        Ok(())
    }
}
