//! Why pairs are no reading.

use mls_label::OutOfMemory;

/// Why a reading isn't made, tested in this order.
#[derive(Clone, Copy, Debug, PartialEq, Eq)]
pub enum ReadingFault {
    /// The meanings of the 256 levels don't strictly increase. Of a level that is named twice the first naming counts here.
    NotIncreasing,
    /// Two of the 65,535 categories mean the same, or a level or a category is named twice.
    NotDistinct,
    /// Memory ran out. Causes that are tested later may hold as well.
    OutOfMemory,
}

impl From<OutOfMemory> for ReadingFault {
    ghost use Rattle.std.specs.Prelude.{◌≡◌};
    ghost use Rattle.label_commands.specs.declared.node_readings.fault.ReadingFault.TheVariants as Fault;

    ghost from_gives = { λ _ fault. fault ≡ Fault.OutOfMemory };

    fn from(_failed: OutOfMemory) -> ReadingFault {
        ReadingFault::OutOfMemory
    }
}
