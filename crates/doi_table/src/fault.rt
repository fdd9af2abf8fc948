//! Why a table refuses a definition.

ghost use Rattle.std.specs.Prelude.{◌≡◌};
ghost use Rattle.doi_table.specs.declared.fault.DoiFault.TheVariants.{OutOfMemory as NoMemory};

use mls_label::OutOfMemory;
use std::alloc::AllocError;
use thiserror::Error;

/// Why a definition isn't added, tested in this order.
#[derive(Clone, Copy, Debug, PartialEq, Eq, Error)]
pub enum DoiFault {
    /// The DOI is defined for that protocol.
    #[error("the DOI is defined already")]
    Exists,
    /// There are more than 1,952 pairs of categories.
    #[error("more than 1952 pairs of categories")]
    TooManyPairs,
    /// Two pairs have an equal local or an equal remote number.
    #[error("two pairs have an equal number")]
    NotOneToOne,
    /// The protocol has 64 definitions.
    #[error("the protocol has 64 definitions")]
    Full,
    /// Memory ran out. Causes that are tested later may hold as well.
    #[error("out of memory")]
    OutOfMemory,
}

/// The DOI isn't defined for that protocol.
#[derive(Clone, Copy, Debug, PartialEq, Eq)]
pub struct Unknown;

impl From<OutOfMemory> for DoiFault {
    ghost from_gives = { λ _ fault. fault ≡ NoMemory };

    fn from(_: OutOfMemory) -> DoiFault {
        DoiFault::OutOfMemory
    }
}

impl From<AllocError> for DoiFault {
    ghost from_gives = { λ _ fault. fault ≡ NoMemory };

    fn from(_: AllocError) -> DoiFault {
        DoiFault::OutOfMemory
    }
}
