//! One hop under one look.

ghost use Rattle.std.specs.Prelude.{◌≡◌, ◌<◌, length, IfOk, OnErr};
ghost use Rattle.label_commands.specs.flow_lines.Hop.{node_of};
ghost use Rattle.label_flow.specs.packet_walk.Walk.{hop_verdict};
ghost use Rattle.label_flow.specs.packet_walk.inside.Hop.{AnsweredOf, HasJudged};

use crate::packet_walk::hop::hop_into;
use crate::packet_walk::room::Lent;
use label_commands::Hop;
use mls_label::OutOfMemory;
use shared_tables::Viewer;

/// One hop of a packet under one look, at the version that the viewer has seen then: what is lent brings back what the hop gives, its
/// label and its octets. The look takes it along, since nothing would be known of what it wrote into something of its caller's.
pub fn judge_at(
    viewer: &mut Viewer,
    hop: &Hop,
    packet: &[u8],
    lent: Box<Lent>,
) -> Result<Box<Lent>, OutOfMemory>
    requires { node_of hop.now < viewer.old.plan.nodes }
    ensures ok { IfOk result (λ back.
        HasJudged viewer.old.plan viewer.old.seen viewer.new.seen hop.now packet.now
        back.value.given back.value.labels.local back.value.octets.items) }
    ensures kept { (viewer.new.board ≡ viewer.old.board) × (viewer.new.plan ≡ viewer.old.plan) }
    ensures err { OnErr result (viewer.new ≡ viewer.old) }
{
    viewer.look(
        move |_version, network| -> Box<Lent>
            requires { node_of hop.now < length network.now }
            ensures { AnsweredOf packet.entry.now
                (hop_verdict network.now hop.entry.now packet.entry.now)
                result.value.given result.value.labels.local result.value.octets.items }
        {
            let mut lent = lent;
            let room: &mut Lent = &mut lent;
            room.given = hop_into(network, hop, packet, &mut room.labels, &mut room.octets);
            lent
        },
    )
}
