//! Packets sent by a node's programs.

ghost use Rattle.std.specs.Prelude.{◌≡◌, ◌<◌, IfOk, IsTrue};
ghost use Rattle.packet_label.specs.Packet.{IsOfItsVersion, headers_of, label_place, version_of};
ghost use Rattle.label_send.specs.Outgoing.{CanGoOut, outgoing, suits};
ghost use Rattle.label_send.specs.Send.{send_octets, send_protocol, sent_by};
ghost use Rattle.label_send.specs.Answer.{Answers};
ghost use Rattle.label_send.specs.Laws.{IsInRoom};
ghost use Rattle.label_send.specs.inside.Protocol.{sent_with};

use crate::protocol::{carrier_of, suits};
use crate::under::{denied, send_under};
use domain_map::{Name, Protocol};
use ip_headers::Version;
use label_receive::{destination_of, label_is_outside};
use mls_label::Label;
use node_tables::Tables;
use packet_label::{Carrier, Denial, Packet, Stop, label_at};

/// Labels a packet that a program of a domain sends at an interface, with a label of the node: `out` becomes exactly the packet with
/// that label, in the option of the protocol that the map names for the domain and the packet's destination, or in none. Hops stay.
///
/// The denials, of which the first that holds is answered: BadHeader where a header is wrong, AlreadyLabelled where a label option stands
/// in the packet, OutsideRange where the interface's range doesn't hold the label, NoMap where the map names no protocol, WrongVersion
/// where the protocol is of the other version, then those of `send_under`. After a stop `out` is empty.
pub fn send(
    tables: &Tables,
    domain: &Name,
    interface: &Name,
    label: &Label,
    packet: &[u8],
    out: &mut Vec<u8>,
) -> Result<Carrier, Stop>
    ensures value { Answers sent_by
        (send_octets tables.now domain.now interface.now label.now packet.now) result
        out.new.items }
    ensures in_room { IfOk (send_octets tables.now domain.now interface.now label.now packet.now)
        (λ sent. IsInRoom sent.packet) }
{
    let mut wire = Label::lowest();
    send_into(tables, domain, interface, label, packet, &mut wire, out)
}

/// `send` with a label that is lent for the numbers on the wire, and becomes any label.
pub fn send_into(
    tables: &Tables,
    domain: &Name,
    interface: &Name,
    label: &Label,
    packet: &[u8],
    wire: &mut Label,
    out: &mut Vec<u8>,
) -> Result<Carrier, Stop>
    ensures value { Answers sent_by
        (send_octets tables.now domain.now interface.now label.now packet.now) result
        out.new.items }
    ensures in_room { IfOk (send_octets tables.now domain.now interface.now label.now packet.now)
        (λ sent. IsInRoom sent.packet) }
{
    // Lent from where it was read: to move it out would copy it.
    let read = label_at(packet);
    let (packet, place) = match &read {
        Ok(found) => found,
        Err(fault) => {
            return Err(denied(Denial::BadHeader { octet: fault.octet }, out));
        }
    };
    match protocol_for(tables, domain, interface, label, packet, *place) {
        Ok(protocol) => send_front(tables, protocol, label, packet, wire, out),
        Err(why) => Err(denied(why, out)),
    }
}

// The protocol under which the domain sends the packet, whose first label option stands at this octet.
fn protocol_for(
    tables: &Tables,
    domain: &Name,
    interface: &Name,
    label: &Label,
    packet: &Packet,
    place: Option<usize>,
) -> Result<Protocol, Denial>
    requires version { IsOfItsVersion packet.now }
    requires place { place ≡ label_place packet.now }
    ensures { result ≡ send_protocol tables.now domain.now interface.now label.now
        (headers_of packet.now) }
{
    if let Some(octet) = place {
        return Err(Denial::AlreadyLabelled { octet });
    }
    if label_is_outside(tables, interface, label) {
        return Err(Denial::OutsideRange);
    }
    let Some(protocol) = tables.map().find(domain, &destination_of(packet)) else {
        return Err(Denial::NoMap);
    };
    if !suits(version(packet), protocol) {
        return Err(Denial::WrongVersion);
    }
    Ok(protocol)
}

// The packet under a protocol that suits it, with its own hops.
fn send_front(
    tables: &Tables,
    protocol: Protocol,
    label: &Label,
    packet: &Packet,
    wire: &mut Label,
    out: &mut Vec<u8>,
) -> Result<Carrier, Stop>
    requires version { IsOfItsVersion packet.now }
    requires suits { IsTrue (suits (version_of packet.now) protocol) }
    ensures value { Answers sent_by
        (sent_with tables.now label.now (headers_of packet.now) protocol) result
        out.new.items }
    ensures said { CanGoOut (version_of packet.now)
        (outgoing tables.now.definitions protocol label.now) }
    ensures octet { (headers_of packet.now).hops < 256 }
{
    match send_under(tables, protocol, label, packet, hops(packet), wire, out) {
        Ok(()) => Ok(carrier_of(protocol)),
        Err(stop) => Err(stop),
    }
}

fn version(packet: &Packet) -> Version
    ensures { result ≡ version_of packet.now }
{
    match packet {
        Packet::V4(_) => Version::V4,
        Packet::V6(_) => Version::V6,
    }
}

fn hops(packet: &Packet) -> u8
    ensures { result ≡ (headers_of packet.now).hops }
{
    match packet {
        Packet::V4(view) => view.hops(),
        Packet::V6(view) => view.hops(),
    }
}
