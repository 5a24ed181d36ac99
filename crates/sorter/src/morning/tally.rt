// The zones' starts and hits, counted from the results: a start that its own report answers is a hit.
use super::script::{Day, Outcome, ZONES};
use calls::call::Call;
use calls::slots::Counts;

// Only an accepted start counts.
pub(crate) fn tallied<K>(day: &Day<K>, results: &[Outcome]) -> [Counts; ZONES] {
    let mut zones = [Counts::default(); ZONES];
    for (call, outcome) in day.calls.iter().zip(results.iter()) {
        if let (Call::Start { zone, .. }, Ok(report)) = (call, outcome)
            && let Some(counts) = zones.get_mut(*zone as usize)
        {
            *counts = counts.with_start(report.answered.map(|answered| answered.answer));
        }
    }
    zones
}
