//! Refusals.

use mls_label::OutOfMemory;
use thiserror::Error;

/// Why an entry isn't added to a map.
#[derive(Clone, Copy, Debug, Drop, Error, PartialEq, Eq)]
pub enum MapFault {
    /// The domain has a plain entry, or that address.
    #[error("the entry is there already")]
    Exists,
    /// The domain has a plain entry and takes no address.
    #[error("the domain has a plain entry")]
    Plain,
    /// The domain has addresses and takes no plain entry.
    #[error("the domain has addresses")]
    HasAddresses,
    /// There are 256 entries, or the domain has 256 addresses.
    #[error("the map is full")]
    Full,
    #[error("out of memory")]
    OutOfMemory,
}

/// Why a static entry isn't added.
#[derive(Clone, Copy, Debug, Drop, Error, PartialEq, Eq)]
pub enum StaticFault {
    /// The interface has an entry of that prefix.
    #[error("the entry is there already")]
    Exists,
    /// There are 256 entries.
    #[error("the table is full")]
    Full,
    #[error("out of memory")]
    OutOfMemory,
}

/// There is no such entry.
#[derive(Clone, Copy, Debug, PartialEq, Eq)]
pub struct Unknown;

impl From<OutOfMemory> for MapFault {
    ghost use Rattle.std.specs.Prelude.{◌≡◌};
    ghost use Rattle.domain_map.specs.declared.fault.MapFault.TheVariants as Fault;

    ghost from_gives = { λ e f. f ≡ Fault.OutOfMemory };

    fn from(_failed: OutOfMemory) -> MapFault {
        MapFault::OutOfMemory
    }
}

impl From<OutOfMemory> for StaticFault {
    ghost use Rattle.std.specs.Prelude.{◌≡◌};
    ghost use Rattle.domain_map.specs.declared.fault.StaticFault.TheVariants as Fault;

    ghost from_gives = { λ e f. f ≡ Fault.OutOfMemory };

    fn from(_failed: OutOfMemory) -> StaticFault {
        StaticFault::OutOfMemory
    }
}
