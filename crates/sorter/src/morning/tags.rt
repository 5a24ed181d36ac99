// The same day with cage tags for group numbers.
use super::script::Day;
use crate::faults::Fault;
use keys::kinds::{CageTag, GroupNumber};
use std::alloc::Global;

// The last two digits of a group's number are its cage, the digits before them its carrier.
fn tag(group: GroupNumber, reprint: u8) -> CageTag {
    let number = group.number();
    CageTag::new(
        (number / 100 % 1_000) as u16,
        (number % 100) as u32,
        reprint,
    )
}

// Each call has its tag printed anew, with the next reprint number.
pub(crate) fn tagged(day: &Day<GroupNumber>, heap: Global) -> Result<Day<CageTag>, Fault> {
    Ok(Day {
        plan: day.plan,
        stock: day
            .stock
            .iter()
            .map(|item| item.map_key(|group| tag(group, 0)))
            .collect(heap)?,
        calls: (1..=u8::MAX)
            .cycle()
            .zip(day.calls.iter())
            .map(|(reprint, call)| call.map_key(|group| tag(group, reprint)))
            .collect(heap)?,
    })
}
