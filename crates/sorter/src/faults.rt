// What can end the program early.
use crate::morning::Objection;
use calls::faults::Fault as PoolFault;
use messages::refusals::Refusal;
use pool::running::RunFault;
use std::alloc::{AllocError, AllocFailed};
use std::io;
use thiserror::Error;
use transport::faults::TransportFault;

#[derive(Debug, Drop, Error)]
pub(crate) enum Fault {
    #[error("a step was refused: {0}")]
    Step(#[from] Refusal),
    #[error("the transport refused: {}", .0.refusal())]
    Transport(#[from] TransportFault),
    #[error("nothing waits in a lane of zone {0}")]
    LaneEmpty(u8),
    #[error("zone {0} answered a request that was not settled")]
    NotSettled(u8),
    #[error("an answer of zone {0} is not the central table's")]
    AnswerDiffers(u8),
    #[error("the backplanes gave different answers")]
    BackplanesDiffer,
    #[error("the stock was refused: {}", .0.refusal())]
    Load(PoolFault),
    #[error("the onlooker objects: {0}")]
    Onlooker(#[from] Objection),
    #[error("the runs of the morning differ")]
    RunsDiffer,
    #[error("out of memory")]
    Memory,
    #[error("what is printed could not be written: {0}")]
    Output(#[from] io::Error),
}

// The three below are written out: the derive makes one variant of one type, and would keep the allocator's error in what is printed.
impl From<RunFault> for Fault {
    fn from(fault: RunFault) -> Fault {
        match fault {
            RunFault::Memory => Fault::Memory,
            RunFault::Pool(fault) => Fault::Load(fault),
        }
    }
}

impl From<AllocError> for Fault {
    fn from(_error: AllocError) -> Fault {
        Fault::Memory
    }
}

impl<T: Drop> From<AllocFailed<T>> for Fault {
    fn from(_failed: AllocFailed<T>) -> Fault {
        Fault::Memory
    }
}
