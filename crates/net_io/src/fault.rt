//! Why a call on the outside gives no answer.
ghost use Rattle.std.specs.Prelude.{◌≡◌};
ghost use Rattle.net_io.specs.declared.fault.IoFault.TheVariants.{OutOfMemory as IoOutOfMemory};
ghost use Rattle.net_io.specs.declared.fault.WholeFault.TheVariants.{OutOfMemory as WholeOutOfMemory};
ghost use Rattle.net_io.specs.inside.Whole.{whole_fault};

use mls_label::OutOfMemory;
use std::alloc::AllocError;
use thiserror::Error;

/// Why a read, a write or the making of a file has failed.
#[derive(Clone, Copy, Debug, PartialEq, Eq, Error)]
pub enum IoFault {
    /// The outside refused the call, and counted it.
    #[error("the call failed")]
    Failed,
    /// No memory was left for what the call keeps. No fault is counted.
    #[error("out of memory")]
    OutOfMemory,
}

/// Why a file wasn't read whole.
#[derive(Clone, Copy, Debug, PartialEq, Eq)]
pub enum WholeFault {
    /// The file has more octets than the caller allows. No fault is counted.
    TooLong,
    /// A read has failed, and was counted.
    Failed,
    /// No memory was left for the file's octets. No fault is counted.
    OutOfMemory,
}

impl From<AllocError> for IoFault {
    ghost from_gives = { λ _ fault. fault ≡ IoOutOfMemory };

    fn from(_: AllocError) -> Self {
        IoFault::OutOfMemory
    }
}

impl From<OutOfMemory> for IoFault {
    ghost from_gives = { λ _ fault. fault ≡ IoOutOfMemory };

    fn from(_: OutOfMemory) -> Self {
        IoFault::OutOfMemory
    }
}

impl From<AllocError> for WholeFault {
    ghost from_gives = { λ _ fault. fault ≡ WholeOutOfMemory };

    fn from(_: AllocError) -> Self {
        WholeFault::OutOfMemory
    }
}

impl From<IoFault> for WholeFault {
    ghost from_gives = { λ cause fault. fault ≡ whole_fault cause };

    fn from(cause: IoFault) -> Self {
        match cause {
            IoFault::Failed => WholeFault::Failed,
            IoFault::OutOfMemory => WholeFault::OutOfMemory,
        }
    }
}
