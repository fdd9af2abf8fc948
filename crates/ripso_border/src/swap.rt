//! The option that a packet gets in place of the one that it had.

ghost use Rattle.std.specs.Prelude.{◌≡◌, []};
ghost use Rattle.ip_headers.specs.Swapped.{IsWholeOption, swapped_kind};
ghost use Rattle.packet_label.specs.declared.denial.Stop.TheVariants.{Denied};
ghost use Rattle.ripso_border.specs.inside.Steps.{Swaps};

use ip_headers::{Packet4, Rebuild, rebuild_swap4};
use packet_label::{Denial, Stop};

/// The type of the Basic Security Option.
pub(crate) const RIPSO: u8 = 130;

/// Writes the packet with this option in place of its label option and of its options of type 130. After a stop `out` is empty.
pub(crate) fn swap(view: &Packet4, option: &[u8], out: &mut Vec<u8>) -> Result<(), Stop>
    requires { IsWholeOption option.now }
    ensures { Swaps (swapped_kind 130 option.now view.now) result out.new.items }
{
    match rebuild_swap4(view, RIPSO, option, out) {
        Ok(()) => Ok(()),
        Err(Rebuild::NoRoom) => Err(Stop::Denied(Denial::NoRoom)),
        Err(Rebuild::TooLong) => Err(Stop::Denied(Denial::TooLong)),
        Err(Rebuild::OutOfMemory) => Err(Stop::OutOfMemory),
    }
}

/// Empties what was to be written.
pub(crate) fn denied(why: Denial, out: &mut Vec<u8>) -> Stop
    ensures stop { result ≡ Denied why }
    ensures empty { out.new.items ≡ [] }
{
    out.clear();
    Stop::Denied(why)
}
