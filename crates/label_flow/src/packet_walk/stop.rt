//! Versions that are no walk's.

use mls_label::OutOfMemory;

/// Why versions that are named aren't those of a packet's walk.
#[derive(Clone, Copy, Debug, PartialEq, Eq)]
pub enum VersionsStop {
    /// A hop judges the packet for which no version is named.
    TooFew,
    /// The walk ends under the first of them, and more are named.
    TooMany,
    /// Memory ran out, and nothing is told of them.
    OutOfMemory,
}

impl From<OutOfMemory> for VersionsStop {
    ghost use Rattle.std.specs.Prelude.{◌≡◌};
    ghost use Rattle.label_flow.specs.declared.packet_walk.stop.VersionsStop.TheVariants as Stopped;

    ghost from_gives = { λ _ stop. stop ≡ Stopped.OutOfMemory };

    fn from(_failed: OutOfMemory) -> VersionsStop {
        VersionsStop::OutOfMemory
    }
}
