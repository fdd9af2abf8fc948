//! What is decided of one packet: a node is set up for it, which receives it.

ghost use Rattle.std.specs.Prelude.{◌≡◌, [], ◌∷◌, Some, length, map, IfOk, OnOk};
ghost use Rattle.domain_map.specs.address_text.Name.{name_of_text};
ghost use Rattle.packet_label.specs.Packet.{IsOfItsVersion, headers_of};
ghost use Rattle.script_lines.specs.command_values.Ranges.{range_below};
ghost use Rattle.node_tables.specs.Effect.{applied};
ghost use Rattle.netlabel_run.specs.Judge.{protocol_in, judge_node, IsVerdict};
ghost use Rattle.call_report.specs.Lines.Denial.{with_label};

use domain_map::{Name, read_name};
use label_receive::{Room, destination_of, fault_denial, receive_marked};
use mls_label::{Label, OutOfMemory, Tag};
use mls_range::{KeptRange, Range};
use node_tables::Network;
use packet_label::{Denial, Packet, carried_into};
use script_lines::{Command, Doi, MapProtocol, Step, Tags};
use std::alloc::Global;

/// Judges the packet at the front of the octets for a receiver of this level, by a node that is set up for it. Of the room that is
/// lent, `local` takes the label that the receiver may have.
pub(crate) fn judge_packet(
    alloc: Global,
    doi: Doi,
    level: &Label,
    octets: &[u8],
    room: &mut Room,
) -> Result<Result<(), Denial>, OutOfMemory>
    ensures { IfOk result (λ verdict. IsVerdict doi level.now octets.now
        (with_label verdict room.new.local)) }
{
    let marked = match carried_into(octets, &mut room.wire) {
        Ok(marked) => marked,
        Err(fault) => return Ok(Err(fault_denial(fault))),
    };
    let network = node_for(alloc, doi, level, &marked.packet)?;
    let interface = fixed_name(b"interface");
    let received = receive_marked(
        network.node(0),
        &interface,
        &marked,
        &room.wire,
        &mut room.local,
    );
    match received {
        Ok(_receiver) => Ok(Ok(())),
        Err(denial) => Ok(Err(denial)),
    }
}

/// The node that is set up for a packet, as the one of a network.
#[tactic(auto, unfolding(crate::specs::Judge::judge_node))]
fn node_for(
    alloc: Global,
    doi: Doi,
    level: &Label,
    packet: &Packet<'_>,
) -> Result<Network, OutOfMemory>
    requires { IsOfItsVersion packet.now }
    ensures { IfOk result (λ network. network ≡ judge_node doi level.now
        (headers_of packet.now).version (headers_of packet.now).destination ∷ []) }
{
    let tags = Tags::of(alloc, &[Tag::One, Tag::Two, Tag::Five])?;
    let range = range_below(alloc, level)?;
    let mut network = Network::fresh(alloc, 1)?;
    obey(&mut network, Command::CipsoAddPass { doi, tags })?;
    obey(&mut network, Command::CalipsoAddPass { doi })?;
    obey(
        &mut network,
        Command::MapAdd {
            domain: None,
            prefix: None,
            protocol: protocol_in(packet, doi),
        },
    )?;
    obey(
        &mut network,
        Command::ReceiverAdd {
            address: destination_of(packet),
            domain: fixed_name(b"receiver"),
            range,
        },
    )?;
    Ok(network)
}

/// Has the one node carry out a command.
fn obey(network: &mut Network, command: Command) -> Result<(), OutOfMemory>
    requires { length network.old ≡ 1 }
    ensures one { length network.new ≡ 1 }
    ensures ok { OnOk result (network.new ≡ map (λ t. applied t command) network.old) }
{
    let _reply = network.apply(&Step { node: 0, command })?;
    Ok(())
}

/// The protocol whose option a packet of its version has.
fn protocol_in(packet: &Packet<'_>, doi: Doi) -> MapProtocol
    requires { IsOfItsVersion packet.now }
    ensures { result ≡ protocol_in (headers_of packet.now).version doi }
{
    match packet {
        Packet::V4(_) => MapProtocol::cipso(doi),
        Packet::V6(_) => MapProtocol::calipso(doi),
    }
}

/// All labels that a label dominates.
fn range_below(alloc: Global, level: &Label) -> Result<KeptRange, OutOfMemory>
    ensures { IfOk result (λ range. range ≡ range_below level.now) }
{
    let mut range = Range::lowest();
    range.assign_ends(&Label::lowest(), level);
    KeptRange::of(alloc, &range)
}

/// A text that is a name.
fn fixed_name(text: &[u8]) -> Name
    requires { name_of_text text.now ≡ Some text.now }
    ensures { result ≡ text.now }
{
    match read_name(text) {
        Some(name) => name,
        None => unreachable!(),
    }
}
