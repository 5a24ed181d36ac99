use crate::tables::Tables;
use rules::plan::Plan;

// A pool as it takes calls. A register comes with each call and is no part of it: a register may serve several pools, and a pool several registers.
#[derive(Drop)]
pub struct Opened<T> {
    pub(crate) plan: Plan,
    pub(crate) transport: T,
    pub(crate) tables: Tables,
    // the number of the next accepted start, one past the largest once they are used up: an Option would be taken apart at each start and say no more
    pub(crate) next: u64,
}
