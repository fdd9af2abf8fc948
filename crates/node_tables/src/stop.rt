//! Why a table isn't changed.

use crate::reply::Refusal;
use mls_label::OutOfMemory;

/// A refusal, or want of memory; nothing has changed.
#[derive(Clone, Copy)]
pub enum Stop {
    Refused(Refusal),
    OutOfMemory,
}

impl From<OutOfMemory> for Stop {
    ghost use Rattle.std.specs.Prelude.{◌≡◌};
    ghost use Rattle.node_tables.specs.declared.stop.Stop.TheVariants as Stopped;

    ghost from_gives = { λ _ stop. stop ≡ Stopped.OutOfMemory };

    fn from(_failed: OutOfMemory) -> Stop {
        Stop::OutOfMemory
    }
}
