//! Walks.

ghost use Rattle.std.specs.Prelude.{◌≡◌, ◌<◌, ◌≤◌, [], length, All, IfOk, OnOk, OnErr};
ghost use Rattle.label_commands.specs.flow_lines.Hop.{node_of};
ghost use Rattle.packet_label.specs.declared.denial.Carrier.TheVariants.{Unlabelled};
ghost use Rattle.label_flow.specs.packet_walk.Walk.{IsWalked};
ghost use Rattle.label_flow.specs.packet_walk.inside.Way.{HasWalked, octets_behind};

use crate::packet_walk::gate::Gate;
use crate::packet_walk::hop::Given;
use crate::packet_walk::look::judge_at;
use crate::packet_walk::room::WalkRoom;
use crate::packet_walk::slot::WalkedSlot;
use crate::packet_walk::walked::Walked;
use crate::packet_walk::worker::Worker;
use captures::PacketIn;
use label_commands::FlowLine;
use mls_label::OutOfMemory;
use packet_label::{Carrier, Denial};
use shared_tables::Viewer;
use std::alloc::Global;
use std::mem;

/// Walks a packet over the hops of a flow, each judged under one look: `before_look` of the gate is called directly before it, with
/// the worker and the packet's number as they are given, and the hop counted from 1.
///
/// Where the packet isn't denied, `out` holds it as it left the last hop that writes, or as it came in where none does; else, and
/// where memory runs out, `out` is empty.
pub fn walk<G: Gate>(
    alloc: Global,
    viewer: &mut Viewer,
    flow: &FlowLine,
    worker: u32,
    number: u64,
    packet: &PacketIn,
    out: &mut Vec<u8>,
    gate: &G,
) -> Result<Walked, OutOfMemory>
    requires nodes { All (λ hop. node_of hop < viewer.old.plan.nodes) flow.now.hops }
    ensures ok { IfOk result (λ walked.
        IsWalked viewer.old.plan flow.now.hops viewer.old.seen viewer.new.seen
        packet.now walked out.new.items) }
    ensures kept { (viewer.new.board ≡ viewer.old.board) × (viewer.new.plan ≡ viewer.old.plan) }
    ensures seen { viewer.old.seen ≤ viewer.new.seen }
    ensures err { OnErr result (out.new.items ≡ []) }
{
    out.clear();
    let room = WalkRoom::new(alloc)?;
    let worker = Worker {
        flow,
        number: worker,
        gate,
    };
    let mut walked = WalkedSlot::new(alloc);
    walk_into(&worker, viewer, number, packet, room, &mut walked, out)?;
    Ok(walked.into_walked())
}

/// The same in a place, with labels and octets that are handed on. The place has any walk after an error.
pub fn walk_into<G: Gate>(
    worker: &Worker<'_, '_, G>,
    viewer: &mut Viewer,
    number: u64,
    packet: &PacketIn,
    room: WalkRoom,
    walked: &mut WalkedSlot,
    out: &mut Vec<u8>,
) -> Result<WalkRoom, OutOfMemory>
    requires nodes { All (λ hop. node_of hop < viewer.old.plan.nodes) worker.now.flow.now.hops }
    ensures ok { OnOk result
        (IsWalked viewer.old.plan worker.now.flow.now.hops viewer.old.seen viewer.new.seen
        packet.now walked.new out.new.items) }
    ensures kept { (viewer.new.board ≡ viewer.old.board) × (viewer.new.plan ≡ viewer.old.plan) }
    ensures seen { viewer.old.seen ≤ viewer.new.seen }
    ensures err { OnErr result (out.new.items ≡ []) }
{
    if !packet.is_ip {
        walked.begin();
        walked.deny(0, Denial::NotIp);
        out.clear();
        return Ok(room);
    }
    let octets = packet.bytes.as_slice();
    let ended = walk_hops(worker, viewer, number, octets, room, walked, out);
    if ended.is_err() {
        out.clear();
    }
    ended
}

// The hops one after the other. The first one reads the packet as it comes in, each further one what the hop in front left in `out`.
// Until the first look `walked` and `out` are left alone, with what the packet before left there: the atomic addition of a look would wait
// for their cache lines.
fn walk_hops<G: Gate>(
    worker: &Worker<'_, '_, G>,
    viewer: &mut Viewer,
    number: u64,
    packet: &[u8],
    room: WalkRoom,
    walked: &mut WalkedSlot,
    out: &mut Vec<u8>,
) -> Result<WalkRoom, OutOfMemory>
    requires nodes { All (λ hop. node_of hop < viewer.old.plan.nodes) worker.now.flow.now.hops }
    ensures ok { OnOk result
        (HasWalked viewer.old.plan 1 worker.now.flow.now.hops Unlabelled packet.now
        viewer.old.seen viewer.new.seen [] walked.new.versions walked.new.end out.new.items) }
    ensures kept { (viewer.new.board ≡ viewer.old.board) × (viewer.new.plan ≡ viewer.old.plan) }
    ensures seen { viewer.old.seen ≤ viewer.new.seen }
{
    let hops = worker.hops();
    let mut lent = room.lent;
    let mut carrier = Carrier::Unlabelled;
    let mut at = 0;
    while at < hops.len() {
        let k = at as u32 + 1;
        worker.gate.before_look(worker.number, number, k);
        lent = judge_at(viewer, &hops[at], coming(at, packet, out), lent)?;
        walked.judged_under(at, viewer.seen());
        match lent.given {
            Given::Goes { carrier: next } => carrier = next,
            Given::Arrives { receiver } => {
                walked.deliver(&lent.labels.local, receiver)?;
                leave(at, packet, out)?;
                return Ok(WalkRoom { lent });
            }
            Given::Denied { denial } => {
                walked.deny(k, denial);
                out.clear();
                return Ok(WalkRoom { lent });
            }
            Given::OutOfMemory => return Err(OutOfMemory),
        }
        mem::swap(out, &mut lent.octets);
        at += 1;
    }
    walked.judged_by(at);
    walked.send(carrier);
    leave(at, packet, out)?;
    Ok(WalkRoom { lent })
}

// The packet as it comes behind so many hops.
pub(crate) fn coming<'a>(hops: usize, packet: &'a [u8], out: &'a Vec<u8>) -> &'a [u8]
    ensures { result.now ≡ octets_behind hops packet.now out.now.items }
{
    if hops == 0 { packet } else { out.as_slice() }
}

// Leaves in `out` the packet as it comes behind so many hops.
pub(crate) fn leave(hops: usize, packet: &[u8], out: &mut Vec<u8>) -> Result<(), OutOfMemory>
    ensures { OnOk result (out.new.items ≡ octets_behind hops packet.now out.old.items) }
{
    if hops == 0 {
        out.clear();
        if out.extend_from_slice(packet).is_err() {
            return Err(OutOfMemory);
        }
    }
    Ok(())
}
