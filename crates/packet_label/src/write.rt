//! Packets written again.

ghost use Rattle.std.specs.Prelude.{◌≡◌, ◌↔◌, ◌<◌, ◌≤◌, [], IfSome, OnOk, OnErr, Err};
ghost use Rattle.std.specs.Option.{option_copied, option_map};
ghost use Rattle.ip_headers.specs.Written.{IsLabelOption, packet_octets, rebuilt_length, rebuilt_room, rewritten, room_limit};
ghost use Rattle.packet_label.specs.Packet.{headers_of, version_of};
ghost use Rattle.packet_label.specs.Option.{Suits, written_octets, rebuilt};

use crate::{Packet, WireOption};
use ip_headers::{Rebuild, rebuild4, rebuild6};

/// Writes the packet with this label option, or none, and these hops: `out` becomes exactly that packet. The option stands
/// first, padding goes, each other option stays in its order.
///
/// NoRoom comes where the options pass 40 octets of a header of IPv4 or 2,048 of a Hop-by-Hop header of IPv6, else TooLong
/// where the length field would pass 65,535 (RFC 791, RFC 8200). After an error `out` is empty.
pub fn relabel(
    packet: &Packet,
    option: Option<&WireOption>,
    hops: u8,
    out: &mut Vec<u8>,
) -> Result<(), Rebuild>
    requires { IfSome option (λ o. Suits packet.now o.now) }
    ensures ok { OnOk result
        (out.new.items ≡ packet_octets (rebuilt packet.now (option_copied option.entry) hops)) }
    ensures no_room { (result ≡ Err Rebuild.NoRoom) ↔
        (room_limit (version_of packet.now) < rebuilt_room
        (rebuilt packet.now (option_copied option.entry) hops)) }
    ensures too_long { (result ≡ Err Rebuild.TooLong) ↔
        ((rebuilt_room (rebuilt packet.now (option_copied option.entry) hops) ≤ room_limit
        (version_of packet.now))
        × (65535 < rebuilt_length (rebuilt packet.now (option_copied option.entry) hops))) }
    ensures err { OnErr result (out.new.items ≡ []) }
{
    relabel_with(packet, octets_of(option), hops, out)
}

/// `relabel` with the octets of an option of the packet's version, which are lent.
pub fn relabel_with(
    packet: &Packet,
    option: Option<&[u8]>,
    hops: u8,
    out: &mut Vec<u8>,
) -> Result<(), Rebuild>
    requires { IfSome option (λ o. IsLabelOption (version_of packet.now) o.now) }
    ensures ok { OnOk result
        (out.new.items ≡ packet_octets
        (rewritten (headers_of packet.now) (option_copied option.entry) hops)) }
    ensures no_room { (result ≡ Err Rebuild.NoRoom) ↔
        (room_limit (version_of packet.now) < rebuilt_room
        (rewritten (headers_of packet.now) (option_copied option.entry) hops)) }
    ensures too_long { (result ≡ Err Rebuild.TooLong) ↔
        ((rebuilt_room
        (rewritten (headers_of packet.now) (option_copied option.entry) hops) ≤ room_limit
        (version_of packet.now))
        ×
        (65535 < rebuilt_length
        (rewritten (headers_of packet.now) (option_copied option.entry) hops))) }
    ensures err { OnErr result (out.new.items ≡ []) }
{
    match packet {
        Packet::V4(view) => rebuild4(view, option, hops, out),
        Packet::V6(view) => rebuild6(view, option, hops, out),
    }
}

// The octets of an option that is there.
fn octets_of(option: Option<&WireOption>) -> Option<&[u8]>
    ensures { option_copied result ≡ option_map written_octets (option_copied option.entry) }
{
    match option {
        Some(WireOption::Cipso(octets)) => Some(octets.as_slice()),
        Some(WireOption::Calipso(octets)) => Some(octets.as_slice()),
        None => None,
    }
}
