//! Why a packet can't be written as one of the other version.

ghost use Rattle.std.specs.Prelude.{◌≡◌};
ghost use Rattle.version_cross.specs.Cause.{first_cause, cross_cause};

use crate::segment::{is_transport, is_udp, segment_checksum, segment_minimum};
use ip_headers::{Cause, Packet4, Packet6};

/// The flag that more fragments follow, and the thirteen bits of the offset (RFC 791, section 3.1).
const FRAGMENT: u16 = 0x3FFF;

/// Why a packet of IPv4 can't cross; `None` where it can.
///
/// The first of these: it is neither TCP nor UDP; it is a fragment; it has an option that is neither padding nor a label
/// option; its payload is shorter than the header of a segment; its UDP checksum is 0.
pub fn crossable4(view: &Packet4) -> Option<Cause>
    ensures { result ≡ cross_cause view.now }
{
    let fragment = view.flags_offset() & FRAGMENT != 0;
    first_cause(view.protocol(), fragment, view.has_others(), view.payload())
}

/// Why a packet of IPv6 can't cross; `None` where it can. The same causes, but for fragments: those have another protocol.
pub fn crossable6(view: &Packet6) -> Option<Cause>
    ensures { result ≡ cross_cause view.now }
{
    first_cause(view.protocol(), false, view.has_others(), view.payload())
}

/// The first cause.
#[tactic(auto, unfolding(crate::specs::Cause::first_cause))]
fn first_cause(protocol: u8, fragment: bool, others: bool, payload: &[u8]) -> Option<Cause>
    ensures { result ≡ first_cause protocol fragment others payload.now }
{
    if !is_transport(protocol) {
        return Some(Cause::Protocol);
    }
    if fragment {
        return Some(Cause::Fragment);
    }
    if others {
        return Some(Cause::Options);
    }
    if payload.len() < segment_minimum(protocol) {
        return Some(Cause::Segment);
    }
    if is_udp(protocol) && segment_checksum(protocol, payload) == 0 {
        return Some(Cause::NoChecksum);
    }
    None
}
