//! A packet that goes on under a protocol.

ghost use Rattle.std.specs.Prelude.{◌≡◌, [], OnOk};
ghost use Rattle.packet_label.specs.Packet.{IsOfItsVersion, headers_of};
ghost use Rattle.label_send.specs.Answer.{Answers, packet_alone};
ghost use Rattle.label_gateway.specs.Forward.{onward};
ghost use Rattle.label_gateway.specs.inside.Going.{CanGoOn};

use crate::cross::{cross_to_four, cross_to_six};
use domain_map::Protocol;
use label_send::send_under;
use mls_label::Label;
use node_tables::Tables;
use packet_label::{Packet, Stop};

/// How many hops a packet has left.
pub fn hops_of(packet: &Packet<'_>) -> u8
    ensures { result ≡ (headers_of packet.now).hops }
{
    match packet {
        Packet::V4(view) => view.hops(),
        Packet::V6(view) => view.hops(),
    }
}

/// Writes the packet with this label of the node under a protocol of its map and with one hop less, in the version that the
/// protocol is of. The label `wire` becomes any label.
pub fn go_on(
    tables: &Tables,
    protocol: Protocol,
    label: &Label,
    packet: &Packet<'_>,
    wire: &mut Label,
    out: &mut Vec<u8>,
) -> Result<(), Stop>
    requires version { IsOfItsVersion packet.now }
    requires empty { out.old.items ≡ [] }
    ensures value { Answers packet_alone
        (onward tables.now protocol label.now (headers_of packet.now)) result out.new.items }
    ensures goes { OnOk result (CanGoOn tables.now protocol label.now (headers_of packet.now)) }
{
    let hops = hops_of(packet).saturating_sub(1);
    match (packet, protocol) {
        (Packet::V4(view), Protocol::Calipso { doi }) => cross_to_six(
            tables, doi, label, view, hops, wire, out,
        ),
        (Packet::V6(view), Protocol::Cipso { doi }) => cross_to_four(
            tables, doi, label, view, hops, wire, out,
        ),
        _ => send_under(tables, protocol, label, packet, hops, wire, out),
    }
}
