//! One hop under given tables.

ghost use Rattle.std.specs.Prelude.{◌≡◌, ◌<◌, ℕ, List, length};
ghost use Rattle.label_commands.specs.flow_lines.Hop.{node_of};
ghost use Rattle.label_receive.specs.Judged.{judged_by};
ghost use Rattle.label_receive.specs.Receive.{receive_of};
ghost use Rattle.label_send.specs.Send.{send_octets};
ghost use Rattle.label_gateway.specs.Forward.{forward_of};
ghost use Rattle.label_flow.specs.packet_walk.Walk.{tables_of, verdict_of, goes_on, arrives, hop_verdict};
ghost use Rattle.label_flow.specs.packet_walk.inside.Hop.{Answered, AnsweredOf, stopped_as};

use domain_map::{Address, Name};
use label_commands::Hop;
use label_gateway::forward_into;
use label_receive::{Room, receive_into};
use label_send::send_into;
use mls_label::Label;
use node_tables::{Network, Tables};
use packet_label::{Carrier, Denial, Stop};

/// What a hop makes of a packet.
#[derive(Clone, Copy, Debug)]
pub enum Given {
    /// It wrote a packet that goes on, and this carries its label.
    Goes { carrier: Carrier },
    /// It delivers the packet to this address.
    Arrives { receiver: Address },
    /// It denies the packet.
    Denied { denial: Denial },
    /// Memory ran out.
    OutOfMemory,
}

/// One hop at its node. A packet that goes on is in `out`; the label of one that arrives is the local one of the room.
pub fn hop_into(
    network: &Network,
    hop: &Hop,
    packet: &[u8],
    room: &mut Room,
    out: &mut Vec<u8>,
) -> Given
    requires { node_of hop.now < length network.now }
    ensures { AnsweredOf packet.now (hop_verdict network.now hop.now packet.now)
        result room.new.local out.new.items }
{
    match hop {
        Hop::Send {
            node,
            domain,
            interface,
            label,
        } => {
            let tables = tables_of(network, *node);
            send_at(tables, domain, interface, label.label(), packet, room, out)
        }
        Hop::Forward {
            node,
            from,
            to,
            domain,
        } => forward_at(
            tables_of(network, *node),
            from,
            to,
            domain,
            packet,
            room,
            out,
        ),
        Hop::Receive { node, interface } => {
            receive_at(tables_of(network, *node), interface, packet, room)
        }
    }
}

fn tables_of(network: &Network, node: usize) -> &Tables
    requires { node < length network.now }
    ensures { result.now ≡ tables_of network.now node }
{
    network.node(node)
}

fn send_at(
    tables: &Tables,
    domain: &Name,
    interface: &Name,
    label: &Label,
    packet: &[u8],
    room: &mut Room,
    out: &mut Vec<u8>,
) -> Given
    ensures { Answered (verdict_of (λ sent. goes_on sent.carrier sent.packet)
        (send_octets tables.now domain.now interface.now label.now packet.now))
        result room.new.local out.new.items }
{
    match send_into(
        tables,
        domain,
        interface,
        label,
        packet,
        &mut room.wire,
        out,
    ) {
        Ok(carrier) => Given::Goes { carrier },
        Err(stop) => stopped(stop),
    }
}

fn forward_at(
    tables: &Tables,
    from: &Name,
    to: &Name,
    domain: &Name,
    packet: &[u8],
    room: &mut Room,
    out: &mut Vec<u8>,
) -> Given
    ensures { AnsweredOf packet.now
        (λ read. verdict_of (λ forwarded. goes_on forwarded.carrier forwarded.packet)
        (judged_by (forward_of tables.now from.now to.now domain.now) read))
        result room.new.local out.new.items }
{
    match forward_into(tables, from, to, domain, packet, room, out) {
        Ok(carrier) => Given::Goes { carrier },
        Err(stop) => stopped(stop),
    }
}

fn receive_at(tables: &Tables, interface: &Name, packet: &[u8], room: &mut Room) -> Given
    ensures { (out : List ℕ)
        → AnsweredOf packet.now
        (λ read. verdict_of arrives (judged_by (receive_of tables.now interface.now) read))
        result room.new.local out }
{
    match receive_into(tables, interface, packet, room) {
        Ok(receiver) => Given::Arrives { receiver },
        Err(denial) => Given::Denied { denial },
    }
}

fn stopped(stop: Stop) -> Given
    ensures { result ≡ stopped_as stop }
{
    match stop {
        Stop::Denied(denial) => Given::Denied { denial },
        Stop::OutOfMemory => Given::OutOfMemory,
    }
}
