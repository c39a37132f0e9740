// Why a script ends before its last line.
use medium::Fault;
use model::Refusal;
use std::alloc::AllocError;
use thiserror::Error;

#[derive(Debug, Drop, Error)]
pub(crate) enum Stop {
    // The first line names no devices.
    #[error("bad line")]
    BadLine,
    // There are no such devices.
    #[error("{0}")]
    Unmade(#[from] Fault),
    // The allocator has no room for a buffer.
    #[error("{0}")]
    Unallocated(#[from] AllocError),
    // The devices cannot be formatted.
    #[error("{0}")]
    Unformatted(Refusal),
}
