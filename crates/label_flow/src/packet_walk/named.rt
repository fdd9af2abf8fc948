//! Walks under versions that are named.

ghost use Rattle.std.specs.Prelude.{◌≡◌, ◌↔◌, ◌<◌, ◌≤◌, [], ℕ, List, length, take, All, Err, IsTrue, OnOk, OnErr};
ghost use Rattle.label_commands.specs.flow_lines.Hop.{node_of};
ghost use Rattle.label_flow.specs.declared.packet_walk.stop.VersionsStop.TheVariants.{TooFew, TooMany};
ghost use Rattle.label_flow.specs.declared.packet_walk.walked.End.{End};
ghost use Rattle.label_flow.specs.packet_walk.Walk.{IsWalked, IsWalkOf, Rises};
ghost use Rattle.label_flow.specs.packet_walk.inside.Named.{IsToldOf, told_of};

use crate::packet_walk::hop::Given;
use crate::packet_walk::room::WalkRoom;
use crate::packet_walk::slot::WalkedSlot;
use crate::packet_walk::step_tables::StepTables;
use crate::packet_walk::stop::VersionsStop;
use crate::packet_walk::walking::{coming, leave};
use captures::PacketIn;
use label_commands::{FlowLine, Hop};
use packet_label::{Carrier, Denial};
use std::mem;

/// Whether none of the versions falls, from one bound to another.
pub fn rise(low: u32, high: u32, versions: &[u32]) -> bool
    ensures { IsTrue result ↔ Rises low high versions.now }
{
    let mut last = low;
    let mut rest = versions;
    while let [version, behind @ ..] = rest {
        if *version < last {
            return false;
        }
        last = *version;
        rest = behind;
    }
    last <= high
}

/// Walks a packet over the hops of a flow, each under the version that is named for it, and answers whether these are the versions of its
/// walk, as many as hops judge it. Then the place has what became of it, and `out` holds the packet as it left, or nothing where it was
/// denied. After an error the place has any walk, and `out` is empty.
///
/// The tables go forward from version to version, and no further. That they can is what `rise` tests.
pub fn walk_named(
    tables: &mut StepTables<'_>,
    flow: &FlowLine,
    versions: &[u32],
    packet: &PacketIn,
    room: &mut WalkRoom,
    walked: &mut WalkedSlot,
    out: &mut Vec<u8>,
) -> Result<(), VersionsStop>
    requires nodes { All (λ hop. node_of hop < tables.old.plan.nodes) flow.now.hops }
    requires rises { Rises tables.old.version (length tables.old.plan.steps) versions.now }
    ensures ok { OnOk result
        (IsWalked tables.old.plan flow.now.hops tables.old.version tables.new.version
        packet.now walked.new out.new.items) }
    ensures named { OnOk result (walked.new.versions ≡ versions.now) }
    ensures few { result ≡ Err TooFew → (count : ℕ) (end : End) (left : List ℕ)
        → IsWalkOf tables.old.plan flow.now.hops packet.now (take count versions.now) end left
        → ⊥ }
    ensures many { result ≡ Err TooMany → (count : ℕ) × (end : End) × (left : List ℕ)
        × (count < length versions.now)
        × IsWalkOf tables.old.plan flow.now.hops packet.now (take count versions.now) end left }
    ensures err { OnErr result (out.new.items ≡ []) }
    ensures plan { tables.new.plan ≡ tables.old.plan }
    ensures later { tables.old.version ≤ tables.new.version }
    ensures no_later { (high : ℕ) → Rises tables.old.version high versions.now
        → tables.new.version ≤ high }
{
    if !packet.is_ip {
        walked.begin();
        walked.deny(0, Denial::NotIp);
        out.clear();
        return told(0, versions);
    }
    let hops = flow.hops.hops();
    let octets = packet.bytes.as_slice();
    let ended = walk_hops_named(tables, hops, versions, octets, room, walked, out);
    if ended.is_err() {
        out.clear();
    }
    ended
}

// The hops one after the other. The first one reads the packet as it comes in, each further one what the hop in front left in `out`.
fn walk_hops_named(
    tables: &mut StepTables<'_>,
    hops: &[Hop],
    versions: &[u32],
    packet: &[u8],
    room: &mut WalkRoom,
    walked: &mut WalkedSlot,
    out: &mut Vec<u8>,
) -> Result<(), VersionsStop>
    requires nodes { All (λ hop. node_of hop < tables.old.plan.nodes) hops.now }
    requires few { length hops.now ≤ 16 }
    requires rises { Rises tables.old.version (length tables.old.plan.steps) versions.now }
    ensures told { IsToldOf tables.old.plan hops.now packet.now
        tables.old.version tables.new.version versions.now
        walked.new.versions walked.new.end out.new.items result }
    ensures plan { tables.new.plan ≡ tables.old.plan }
    ensures later { tables.old.version ≤ tables.new.version }
    ensures no_later { (high : ℕ) → Rises tables.old.version high versions.now
        → tables.new.version ≤ high }
{
    let lent = &mut room.lent;
    let mut carrier = Carrier::Unlabelled;
    let mut at = 0;
    while at < hops.len() {
        let Some(version) = versions.get(at) else {
            return Err(VersionsStop::TooFew);
        };
        tables.judge_under(*version, &hops[at], coming(at, packet, out), lent)?;
        walked.judged_under(at, *version);
        match lent.given {
            Given::Goes { carrier: next } => carrier = next,
            Given::Arrives { receiver } => {
                walked.deliver(&lent.labels.local, receiver)?;
                leave(at, packet, out)?;
                return told(at + 1, versions);
            }
            Given::Denied { denial } => {
                walked.deny(at as u32 + 1, denial);
                out.clear();
                return told(at + 1, versions);
            }
            Given::OutOfMemory => return Err(VersionsStop::OutOfMemory),
        }
        mem::swap(out, &mut lent.octets);
        at += 1;
    }
    walked.judged_by(at);
    walked.send(carrier);
    leave(at, packet, out)?;
    told(at, versions)
}

// What is told of the versions where so many hops judged the packet.
fn told(hops: usize, versions: &[u32]) -> Result<(), VersionsStop>
    ensures { result ≡ told_of hops (length versions.now) }
{
    if hops < versions.len() {
        return Err(VersionsStop::TooMany);
    }
    Ok(())
}
