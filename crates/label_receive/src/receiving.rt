//! Who receives a packet.

ghost use Rattle.std.specs.Prelude.{◌≡◌, ◌+◌, ◌^◌, ◌<◌, IfSome};
ghost use Rattle.packet_label.specs.Packet.{IsOfItsVersion, headers_of, labelled};
ghost use Rattle.packet_label.specs.Wire.{wire_with, wire_place};
ghost use Rattle.label_receive.specs.Receive.{is_carried, map_refuses, refusal_of, receive_of, left_in};
ghost use Rattle.label_receive.specs.Judged.{IsJudged};

use crate::incoming::{destination_of, labels_into, low_label, source_of};
use crate::judged::fault_denial;
use crate::range::{arrival_is_outside, dominates};
use crate::room::Room;
use domain_map::{Address, DomainMap, Name, Protocol};
use mls_label::Label;
use node_tables::{Receiver, Tables};
use packet_label::{Carrier, Denial, Marked, carried_into};

/// The label of a packet in the node's own numbers, and who receives it. The label is the high one, where a range is set.
#[derive(Drop)]
pub struct Delivered {
    pub label: Label,
    pub receiver: Address,
}

/// What a node does with a packet that comes in at an interface for somebody there.
///
/// A denial is the first reason that holds: BadHeader or BadOption at the packet's first fault; Unlabelled, NoStatic, UnknownDoi,
/// TagNotAllowed, LevelUnmapped or CategoryUnmapped where the packet has no label here; OutsideRange where the interface has a
/// range that doesn't hold both labels; NoReceiver at the destination; MapRefuses where the receiver's domain has another
/// protocol or DOI towards the source; NotDominated where the receiver's level doesn't dominate the high label; BelowRange where
/// the low label doesn't dominate the receiver's low end.
pub fn receive(tables: &Tables, interface: &Name, packet: &[u8]) -> Result<Delivered, Denial>
    ensures { IsJudged packet.now (receive_of tables.now interface.now) result }
{
    let mut room = Room::lowest();
    let receiver = receive_into(tables, interface, packet, &mut room)?;
    Ok(Delivered {
        label: room.local,
        receiver,
    })
}

/// The same with the label in the room that is lent, as its `local`. Both labels of the room may be any after a denial.
pub fn receive_into(
    tables: &Tables,
    interface: &Name,
    packet: &[u8],
    room: &mut Room,
) -> Result<Address, Denial>
    ensures { IsJudged packet.now (receive_of tables.now interface.now)
        (left_in room.new.local result) }
{
    // Lent from where it was read: to move it out would copy it.
    let read = carried_into(packet, &mut room.wire);
    match &read {
        Ok(marked) => receive_marked(tables, interface, marked, &room.wire, &mut room.local),
        Err(fault) => Err(fault_denial(*fault)),
    }
}

/// The same of a packet that was read, whose label on the wire is lent. The label in the node's own numbers is left in the other one.
#[tactic(auto, unfolding(crate::specs::Receive::receive_of))]
#[inline(always)]
pub fn receive_marked(
    tables: &Tables,
    interface: &Name,
    marked: &Marked<'_>,
    wire: &Label,
    high: &mut Label,
) -> Result<Address, Denial>
    requires version { IsOfItsVersion marked.now.packet }
    requires place { IfSome (wire_with marked.now.mark wire.now) (λ w. wire_place w + 10 < 2 ^ 64) }
    ensures { receive_of tables.now interface.now
        (labelled (headers_of marked.now.packet)
        (wire_with marked.now.mark wire.now)) ≡ left_in high.new result }
{
    let arrival = match labels_into(tables, interface, marked, wire, high) {
        Ok(arrival) => arrival,
        Err(why) => return Err(why),
    };
    if arrival_is_outside(tables, interface, &arrival, high) {
        return Err(Denial::OutsideRange);
    }
    let destination = destination_of(&marked.packet);
    let Some(receiver) = tables.find_receiver(&destination) else {
        return Err(Denial::NoReceiver);
    };
    let source = source_of(&marked.packet);
    let low = low_label(&arrival, high);
    match refusal_of(tables.map(), receiver, &source, arrival.carrier, low, high) {
        Some(why) => Err(why),
        None => Ok(destination),
    }
}

// Why a receiver doesn't get what has these labels.
#[inline(always)]
fn refusal_of(
    domains: &DomainMap,
    receiver: &Receiver,
    source: &Address,
    carrier: Carrier,
    low: &Label,
    high: &Label,
) -> Option<Denial>
    ensures { result ≡ refusal_of domains.now receiver.now source.now
        (record { carrier = carrier; low = low.now; high = high.now }) }
{
    if map_refuses(domains, &receiver.domain, source, carrier) {
        return Some(Denial::MapRefuses);
    }
    if !dominates(&receiver.level, high) {
        return Some(Denial::NotDominated);
    }
    if !dominates(low, &receiver.low) {
        return Some(Denial::BelowRange);
    }
    None
}

fn map_refuses(domains: &DomainMap, domain: &Name, source: &Address, carrier: Carrier) -> bool
    ensures { result ≡ map_refuses domains.now domain.now source.now carrier }
{
    match domains.find(domain, source) {
        Some(protocol) => !is_carried(protocol, carrier),
        None => true,
    }
}

// Whether what carried a label is what a map says.
fn is_carried(protocol: Protocol, carrier: Carrier) -> bool
    ensures { result ≡ is_carried protocol carrier }
{
    match (protocol, carrier) {
        (Protocol::Unlbl, Carrier::Unlabelled) => true,
        (Protocol::Cipso { doi }, Carrier::Cipso { doi: found }) => doi == found,
        (Protocol::Calipso { doi }, Carrier::Calipso { doi: found }) => doi == found,
        _ => false,
    }
}
