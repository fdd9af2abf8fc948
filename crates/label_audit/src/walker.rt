//! A packet's walk under the versions that its line names.

ghost use Rattle.std.specs.Prelude.{◌≡◌, ◌<◌, ◌≤◌, ◌^◌, ℕ, List, All, IsTrue, IfOk, OnOk, length};
ghost use Rattle.domain_map.specs.address_text.Name.{IsNameText};
ghost use Rattle.label_commands.specs.flow_lines.Hop.{node_of};
ghost use Rattle.call_report.specs.report_file.File.{KeepsPart};
ghost use Rattle.label_audit.specs.inside.Reading.{HasRead, StandsIn, file_of};
ghost use Rattle.script_run.specs.flow_run.Run.{is_denied as is_denied_end};
ghost use Rattle.label_audit.specs.inside.Packet.{line_at, IsWritten, IsPacketRead};

use crate::place::{Place, behind};
use call_report::{Met, ReportFile, WalkLines};
use domain_map::Name;
use label_commands::FlowLine;
use label_flow::{
    End, PacketIn, ShownWalks, StepTables, VersionsStop, WalkRoom, Walked, WalkedSlot, rise,
    walk_named,
};
use mls_label::OutOfMemory;
use net_io::{Depot, IoFault};
use std::alloc::Global;

/// A packet of a flow, both counted from 1, and the versions between which its own lie.
#[derive(Clone, Copy)]
pub struct PacketPlace<'a> {
    pub names: &'a [Name],
    pub flow: &'a FlowLine,
    pub flow_number: u32,
    pub number: u64,
    pub low: u32,
    pub high: u32,
}

/// What packets are walked with.
#[derive(Drop)]
pub struct Walker {
    pub room: WalkRoom,
    pub walked: WalkedSlot,
    pub shown: ShownWalks,
    pub out: Vec<u8>,
    pub lines: WalkLines,
    pub line: Vec<u8>,
    /// The versions that a line names.
    pub versions: Vec<u32>,
    pub is_denied: bool,
}

impl Walker {
    /// Before the first packet.
    pub(crate) fn new(alloc: Global) -> Result<Walker, OutOfMemory> {
        Ok(Walker {
            room: WalkRoom::new(alloc)?,
            walked: WalkedSlot::new(alloc),
            shown: ShownWalks::new(),
            out: Vec::new(alloc),
            lines: WalkLines::new(alloc),
            line: Vec::new(alloc),
            versions: Vec::new(alloc),
            is_denied: false,
        })
    }
}

/// Whether a walk was denied.
fn is_denied(walked: &Walked) -> bool
    ensures { result ≡ is_denied_end walked.now.end }
{
    match &walked.end {
        End::Denied { .. } => true,
        End::Delivered { .. } | End::Sent { .. } => false,
    }
}

/// Writes the line of a walk.
fn write_line(place: &PacketPlace<'_>, walker: &mut Walker) -> Result<(), OutOfMemory>
    ensures line { OnOk result (walker.new.line.items ≡ line_at place.now walker.old.walked) }
    ensures denied { OnOk result (walker.new.is_denied ≡ is_denied_end walker.old.walked.end) }
    ensures versions { walker.new.versions.items ≡ walker.old.versions.items }
{
    let flow = u64::from(place.flow_number);
    let hops = place.flow.hops.hops();
    let walked = walker.shown.show(&walker.walked);
    walker.is_denied = is_denied(walked);
    walker.line.clear();
    walker.lines.write(
        flow,
        place.number,
        place.names,
        hops,
        walked,
        &mut walker.line,
    )
}

/// Walks a packet under the versions that were read, and writes its line; or tells that they are not those of a walk that may be here.
fn write_walk(
    place: &PacketPlace<'_>,
    tables: &mut StepTables<'_>,
    packet: &PacketIn,
    walker: &mut Walker,
) -> Result<bool, OutOfMemory>
    requires nodes { All (λ hop. node_of hop < tables.old.plan.nodes) place.now.flow.now.hops }
    requires low { tables.old.version ≤ place.now.low }
    requires high { place.now.high ≤ length tables.old.plan.steps }
    ensures written { IfOk result (λ is. IsWritten tables.old.plan place.now packet.now
        walker.old.versions.items walker.new.line.items tables.old.version tables.new.version
        walker.new.is_denied is) }
    ensures plan { tables.new.plan ≡ tables.old.plan }
    ensures most { tables.old.version ≤ place.now.high → tables.new.version ≤ place.now.high }
{
    if !rise(place.low, place.high, &walker.versions) {
        return Ok(false);
    }
    let walked = walk_named(
        tables,
        place.flow,
        &walker.versions,
        packet,
        &mut walker.room,
        &mut walker.walked,
        &mut walker.out,
    );
    match walked {
        Ok(()) => {
            write_line(place, walker)?;
            Ok(true)
        }
        Err(VersionsStop::TooFew) => Ok(false),
        Err(VersionsStop::TooMany) => Ok(false),
        Err(VersionsStop::OutOfMemory) => Err(OutOfMemory),
    }
}

/// Whether the line at the place is one of this packet, which goes behind it then.
pub(crate) fn judge_packet<D: Depot>(
    depot: &mut D,
    report: &mut ReportFile,
    at: &mut Place,
    place: &PacketPlace<'_>,
    tables: &mut StepTables<'_>,
    packet: &PacketIn,
    walker: &mut Walker,
) -> Result<bool, IoFault>
    requires nodes { All (λ hop. node_of hop < tables.old.plan.nodes) place.now.flow.now.hops }
    requires low { tables.old.version ≤ place.now.low }
    requires high { place.now.high ≤ length tables.old.plan.steps }
    requires steps { length tables.old.plan.steps < 2 ^ 32 }
    requires hops { length place.now.flow.now.hops ≤ 16 }
    requires names { All IsNameText place.now.names.now }
    requires keeps { KeepsPart (D.state depot.old) report.old }
    requires stands { IsTrue (D.state depot.old).tells
        → StandsIn (file_of (D.state depot.old) report.old) at.old }
    ensures read { (names : List (List ℕ)) → HasRead names result report.old report.new
        (D.state depot.old) (D.state depot.new) }
    ensures judged { IfOk result (λ is. IsTrue (D.state depot.old).tells
        → IsPacketRead tables.old.plan place.now packet.now
        (file_of (D.state depot.old) report.old) at.old at.new
        tables.old.version tables.new.version walker.new.is_denied is) }
    ensures plan { tables.new.plan ≡ tables.old.plan }
    ensures most { tables.old.version ≤ place.now.high → tables.new.version ≤ place.now.high }
{
    if !report.versions_at(depot, at.at, &mut walker.versions)? {
        return Ok(false);
    }
    if !write_walk(place, tables, packet, walker)? {
        return Ok(false);
    }
    match report.meets(depot, at.at, &walker.line)? {
        Met::Stands => {
            *at = behind(*at, &walker.line);
            Ok(true)
        }
        Met::Differs { .. } => Ok(false),
    }
}
