//! Packets forwarded.

ghost use Rattle.std.specs.Prelude.{◌≡◌, ◌+◌, ◌^◌, ◌<◌, [], Some, IfSome, IfOk, OnOk};
ghost use Rattle.domain_map.specs.Domains.{find_of};
ghost use Rattle.packet_label.specs.Packet.{IsOfItsVersion, headers_of, labelled};
ghost use Rattle.packet_label.specs.Wire.{wire_with, wire_place};
ghost use Rattle.label_receive.specs.Incoming.{address_in};
ghost use Rattle.label_send.specs.Answer.{Answers};
ghost use Rattle.label_gateway.specs.Forward.{forward_of};
ghost use Rattle.label_gateway.specs.Answer.{AnswersOf, went_on, passed_on};
ghost use Rattle.label_gateway.specs.inside.Going.{CanGoOnFrom};
ghost use Rattle.label_gateway.specs.inside.Protocol.{forwarded_with};

use crate::onward::{go_on, hops_of};
use domain_map::{Name, Protocol};
use label_receive::{Room, arrival_is_outside, destination_of, fault_denial, labels_into};
use label_send::carrier_of;
use mls_label::Label;
use node_tables::Tables;
use packet_label::{Carrier, Denial, Marked, Stop, carried_into};

/// What carries the label of a packet that went on, and that label, in the node's own numbers: the high one, where a range is set.
#[derive(Drop)]
pub struct Passed {
    pub carrier: Carrier,
    pub label: Label,
}

/// Takes a packet that comes in at an interface on to another one: `out` becomes exactly the packet with its label under the
/// protocol that the domain's map gives towards the destination, and with one hop less. Where the protocol is of the other version
/// of IP, it becomes a packet of that version.
///
/// A denial is the first reason that holds: BadHeader or BadOption at the packet's first fault; Unlabelled, NoStatic, UnknownDoi,
/// TagNotAllowed, LevelUnmapped or CategoryUnmapped where the packet has no label here; OutsideRange where the incoming interface
/// has a range that doesn't hold both labels; Expired where no more than one hop is left; OutsideRange at the outgoing interface;
/// NoMap where the map gives no protocol; then Inexpressible, NoRoom and TooLong as in sending, or, where the packet has to cross,
/// NoPair where an address has no partner, NotCrossable with the first cause, Inexpressible and TooLong. After a stop `out` is empty.
pub fn forward(
    tables: &Tables,
    from: &Name,
    to: &Name,
    domain: &Name,
    packet: &[u8],
    out: &mut Vec<u8>,
) -> Result<Passed, Stop>
    ensures { AnswersOf passed_on packet.now
        (forward_of tables.now from.now to.now domain.now) result out.new.items }
{
    let mut room = Room::lowest();
    let carrier = forward_into(tables, from, to, domain, packet, &mut room, out)?;
    Ok(Passed {
        carrier,
        label: room.local,
    })
}

/// The same with the label in the room that is lent, as its `local`. Both labels of the room may be any after a stop.
pub fn forward_into(
    tables: &Tables,
    from: &Name,
    to: &Name,
    domain: &Name,
    packet: &[u8],
    room: &mut Room,
    out: &mut Vec<u8>,
) -> Result<Carrier, Stop>
    ensures { AnswersOf (went_on room.new.local) packet.now
        (forward_of tables.now from.now to.now domain.now) result out.new.items }
{
    out.clear();
    // Lent from where it was read: to move it out would copy it.
    let read = carried_into(packet, &mut room.wire);
    match &read {
        Ok(marked) => forward_marked(tables, from, to, domain, marked, room, out),
        Err(fault) => Err(Stop::Denied(fault_denial(*fault))),
    }
}

// The same of a packet that was read.
fn forward_marked(
    tables: &Tables,
    from: &Name,
    to: &Name,
    domain: &Name,
    marked: &Marked<'_>,
    room: &mut Room,
    out: &mut Vec<u8>,
) -> Result<Carrier, Stop>
    requires version { IsOfItsVersion marked.now.packet }
    requires place { IfSome (wire_with marked.now.mark room.old.wire)
        (λ w. wire_place w + 10 < 2 ^ 64) }
    requires empty { out.old.items ≡ [] }
    ensures value { Answers (went_on room.new.local)
        (forward_of tables.now from.now to.now domain.now
        (labelled (headers_of marked.now.packet) (wire_with marked.now.mark room.old.wire)))
        result out.new.items }
    ensures goes { OnOk result
        (CanGoOnFrom tables.now domain.now room.new.local (headers_of marked.now.packet)) }
{
    match protocol_for(
        tables,
        from,
        to,
        domain,
        marked,
        &room.wire,
        &mut room.local,
    ) {
        Ok(protocol) => {
            go_on(
                tables,
                protocol,
                &room.local,
                &marked.packet,
                &mut room.wire,
                out,
            )?;
            Ok(carrier_of(protocol))
        }
        Err(why) => Err(Stop::Denied(why)),
    }
}

// The protocol under which a packet goes on. Its high label becomes the one that is lent.
#[tactic(auto, unfolding(crate::specs::Forward::forward_of))]
fn protocol_for(
    tables: &Tables,
    from: &Name,
    to: &Name,
    domain: &Name,
    marked: &Marked<'_>,
    wire: &Label,
    high: &mut Label,
) -> Result<Protocol, Denial>
    requires version { IsOfItsVersion marked.now.packet }
    requires place { IfSome (wire_with marked.now.mark wire.now) (λ w. wire_place w + 10 < 2 ^ 64) }
    ensures value { forward_of tables.now from.now to.now domain.now
        (labelled (headers_of marked.now.packet) (wire_with marked.now.mark wire.now))
        ≡ forwarded_with tables.now high.new
        (labelled (headers_of marked.now.packet) (wire_with marked.now.mark wire.now)) result }
    ensures found { IfOk result (λ protocol. find_of tables.now.domains domain.now
        (address_in (headers_of marked.now.packet).version
        (headers_of marked.now.packet).destination) ≡ Some protocol) }
{
    let arrival = match labels_into(tables, from, marked, wire, high) {
        Ok(arrival) => arrival,
        Err(why) => return Err(why),
    };
    if arrival_is_outside(tables, from, &arrival, high) {
        return Err(Denial::OutsideRange);
    }
    if hops_of(&marked.packet) <= 1 {
        return Err(Denial::Expired);
    }
    if arrival_is_outside(tables, to, &arrival, high) {
        return Err(Denial::OutsideRange);
    }
    let destination = destination_of(&marked.packet);
    match tables.map().find(domain, &destination) {
        Some(protocol) => Ok(protocol),
        None => Err(Denial::NoMap),
    }
}
