// The hit shares of zones, a line for each.
use crate::faults::Fault;
use calls::slots::Counts;

// `hits` says in words what a hit is: of how many starts so many were that.
pub(crate) fn tell(rt: &HostRuntime, zones: &[Counts], hits: &str) -> Result<(), Fault> {
    for (zone, counts) in zones.iter().enumerate() {
        match counts.hit_share() {
            Some(share) => println!(rt;
                "   zone {zone}: {} of {} starts {hits}, {share} percent",
                counts.hits, counts.starts
            )?,
            None => println!(rt; "   zone {zone}: no start yet")?,
        }
    }
    Ok(())
}
