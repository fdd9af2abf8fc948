//! Octets that are no packet.

ghost use Rattle.std.specs.Prelude.{◌≡◌};
ghost use Rattle.label_receive.specs.Judged.{fault_denial};

use packet_label::{CarryFault, Denial};

/// The denial of octets that are no packet, at their first fault.
pub fn fault_denial(fault: CarryFault) -> Denial
    ensures { result ≡ fault_denial fault }
{
    match fault {
        CarryFault::Header { octet } => Denial::BadHeader { octet },
        CarryFault::Option { octet } => Denial::BadOption { octet },
    }
}
