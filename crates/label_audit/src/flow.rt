//! The lines of a flow.

ghost use Rattle.std.specs.Prelude.{◌≡◌, ◌+◌, ◌<◌, ◌≤◌, ◌^◌, ℕ, List, [], ◌∷◌, All, Contains, IsTrue, IfOk, IfSome, None, Some, OnOk, length, map, max, replicate, slice_get, ◌%◌, if◌then◌else◌};
ghost use Rattle.domain_map.specs.address_text.Name.{IsNameText};
ghost use Rattle.net_io.specs.Depot.{SameHeld, OnlyReads};
ghost use Rattle.label_commands.specs.Script.{before};
ghost use Rattle.label_commands.specs.Sound.{IsSoundScript};
ghost use Rattle.node_tables.specs.Steps.{tables_after};
ghost use Rattle.captures.specs.declared.packet_in.PacketIn.{PacketIn as PacketValue};
ghost use Rattle.captures.specs.Frame.{packet_in};
ghost use Rattle.captures.specs.Reader.{file_name_of, IsReadable, begun_file};
ghost use Rattle.captures.specs.CaptureFile.{capture_file};
ghost use Rattle.label_commands.specs.declared.flow_lines.flow.FlowLine.{FlowLine as LineValue};
ghost use Rattle.call_report.specs.Report.{Folder};
ghost use Rattle.call_report.specs.Event.{packets_limit};
ghost use Rattle.call_report.specs.report_file.File.{KeepsPart};
ghost use Rattle.label_flow.specs.flow_access.Valid.{plan_of};
ghost use Rattle.script_run.specs.Runs.{FlowsStatus};
ghost use Rattle.label_audit.specs.inside.Grammar.{FlowsFrom, nothing_counted, end_text_of};
ghost use Rattle.call_report.specs.Lines.Flow.{flow_line};
ghost use Rattle.label_audit.specs.inside.Reading.{HasRead, StandsIn, IsExpected, IsJudgedTo, file_of};
ghost use Rattle.label_audit.specs.inside.Flow.{Ready, packets_to_come, none_to_come, IsFlowJudgedTo, done_awaited, left_by, IsReadOn, HasBegunReading, IsFew, inputs_of, HasWholeCapture, capture_packets, flows_behind};

use crate::place::{Place, differ, expect};
use crate::replies::{Replies, expect_replies};
use crate::walker::{PacketPlace, Walker, judge_packet};
use call_report::{PACKETS_LIMIT, ReportFile, write_flow, write_flow_end};
use captures::{CaptureReader, ReadStop};
use domain_map::Name;
use label_commands::{FileName, FlowLine, Script};
use label_flow::{Octets, PacketIn, StepTables};
use mls_label::OutOfMemory;
use net_io::{Depot, IoFault};
use std::alloc::Global;

/// How many packets of a flow were judged.
#[derive(Clone, Copy, Debug, PartialEq, Eq)]
pub struct Counted {
    pub packets: u64,
    pub passed: u64,
    pub denied: u64,
}

/// What the flows of a script are judged with: the tables that each worker has met, which only go forward.
#[derive(Drop)]
pub struct Judge<'s> {
    pub alloc: Global,
    pub tables: Vec<StepTables<'s>>,
    pub walker: Walker,
    pub packet: PacketIn,
    pub counts: Counted,
}

/// What a reader gives.
#[derive(Clone, Copy, Debug, PartialEq, Eq)]
pub enum Read {
    Packet,
    End,
    /// The file is no capture.
    Broken,
}

/// Names of nodes are in their form.
pub(crate) fn know_names(names: &[Name])
    ensures { All IsNameText names.now }
{
    let mut known = 0;
    while known < names.len() {
        let _text = names[known].text();
        known += 1;
    }
}

/// How many flows there are.
fn flows_in(script: &Script) -> usize
    ensures { result ≡ length script.now.flows }
{
    script.flows.as_slice().len()
}

/// How many steps stand above the flow behind this one, counted from 0: no table of its packets is of a later step.
fn steps_behind(script: &Script, flow: usize) -> u32
    requires steps { length script.now.steps < 2 ^ 32 }
    requires flow { flow < 2 ^ 32 }
    ensures { result ≡ before script.now (flow + 1) }
{
    script.steps_above(flow + 1)
}

/// The least version of the next packet of a worker: the flow begins with no older one, and the worker doesn't go back.
fn least_version(line: &FlowLine, met: u32) -> u32
    ensures { result ≡ max line.now.before met }
{
    line.before.max(met)
}

/// The worker of the packet behind so many of its flow: each takes its turn.
fn worker_of(packets: u64, workers: usize) -> usize
    requires { 0 < workers }
    ensures turn { result ≡ packets % workers }
    ensures within { result < workers }
{
    packets as usize % workers
}

impl<'s> Judge<'s> {
    /// So many workers, who have met nothing.
    pub(crate) fn new(
        alloc: Global,
        script: &'s Script,
        workers: usize,
    ) -> Result<Judge<'s>, OutOfMemory>
        requires workers { workers ≤ 16 }
        requires sound { (own : List ℕ) × IsSoundScript own script.now }
        ensures { IfOk result (λ judge. Ready script.now workers 0 judge.tables.items) }
    {
        let nodes = script.nodes.len();
        let steps = script.steps.as_slice();
        let mut tables = Vec::with_capacity(alloc, workers)?;
        for _worker in 0..workers {
            tables.push(StepTables::fresh(alloc, nodes, steps)?)?;
        }
        Ok(Judge {
            alloc,
            tables,
            walker: Walker::new(alloc)?,
            packet: PacketIn {
                bytes: Octets::of(Vec::new(alloc)),
                is_ip: false,
            },
            counts: Counted {
                packets: 0,
                passed: 0,
                denied: 0,
            },
        })
    }
}

/// Reads the next packet.
fn next_packet<D: Depot>(
    depot: &mut D,
    reader: &mut CaptureReader,
    packet: &mut PacketIn,
) -> Result<Read, IoFault>
    requires ready { IsReadable (D.state depot.old) reader.old }
    ensures answer { IfOk result (λ read. IsTrue (D.state depot.old).tells → IsReadOn
        (left_by (D.state depot.old) reader.old) packet.new
        (left_by (D.state depot.new) reader.new) read) }
    ensures name { file_name_of reader.new ≡ file_name_of reader.old }
    ensures ready { IsReadable (D.state depot.new) reader.new }
    ensures frame { OnlyReads IoFault.Failed result (file_name_of reader.old)
        (D.state depot.old) (D.state depot.new) }
{
    match reader.next(depot, packet) {
        Ok(Some(_)) => Ok(Read::Packet),
        Ok(None) => Ok(Read::End),
        Err(ReadStop::Capture(_) | ReadStop::Ng(_)) => Ok(Read::Broken),
        Err(ReadStop::ReadFault) => Err(IoFault::Failed),
        Err(ReadStop::OutOfMemory) => Err(IoFault::OutOfMemory),
    }
}

/// Begins to read a capture; `None` where the file is none.
fn begin_capture<D: Depot>(
    alloc: Global,
    depot: &mut D,
    name: &FileName,
) -> Result<Option<CaptureReader>, IoFault>
    ensures begun { IfOk result (λ begun. IsTrue (D.state depot.old).tells
        → HasBegunReading ((D.state depot.old).held name.now) begun) }
    ensures name { IfOk result (λ begun. IfSome begun
        (λ reader. file_name_of reader ≡ name.now)) }
    ensures ready { IfOk result (λ begun. IfSome begun
        (λ reader. IsReadable (D.state depot.new) reader)) }
    ensures frame { OnlyReads IoFault.Failed result name.now
        (D.state depot.old) (D.state depot.new) }
{
    match CaptureReader::begin(alloc, depot, name.text()) {
        Ok(reader) => Ok(Some(reader)),
        Err(ReadStop::Capture(_) | ReadStop::Ng(_)) => Ok(None),
        Err(ReadStop::ReadFault) => Err(IoFault::Failed),
        Err(ReadStop::OutOfMemory) => Err(IoFault::OutOfMemory),
    }
}

/// Counted one more packet.
fn count(counts: &mut Counted, is_denied: bool)
    requires few { (counts.old.packets < 2 ^ 63) × (counts.old.passed ≤ counts.old.packets)
        × (counts.old.denied ≤ counts.old.packets) }
    ensures packets { counts.new.packets ≡ counts.old.packets + 1 }
    ensures passed { counts.new.passed ≡ counts.old.passed + (if is_denied then 0 else 1) }
    ensures denied { counts.new.denied ≡ counts.old.denied + (if is_denied then 1 else 0) }
{
    counts.packets += 1;
    if is_denied {
        counts.denied += 1;
    } else {
        counts.passed += 1;
    }
}

/// Whether the line at the place is one of the packet that was read.
fn judge_next<D: Depot>(
    depot: &mut D,
    report: &mut ReportFile,
    at: &mut Place,
    script: &Script,
    flow: usize,
    judge: &mut Judge<'_>,
) -> Result<bool, IoFault>
    requires sound { (own : List ℕ) × IsSoundScript own script.now }
    requires names { All IsNameText script.now.nodes }
    requires flow { flow < length script.now.flows }
    requires tables { (0 < length judge.old.tables.items) × Ready script.now
        (length judge.old.tables.items) (before script.now (flow + 1)) judge.old.tables.items }
    requires counts { IsFew judge.old.counts }
    requires few { judge.old.counts.packets ≤ 1048576 }
    requires keeps { KeepsPart (D.state depot.old) report.old }
    requires stands { IsTrue (D.state depot.old).tells
        → StandsIn (file_of (D.state depot.old) report.old) at.old }
    ensures read { (names : List (List ℕ)) → HasRead names result report.old report.new
        (D.state depot.old) (D.state depot.new) }
    ensures judged { IfOk result (λ met. IsTrue (D.state depot.old).tells
        → (packets : List PacketValue) → IsFlowJudgedTo script.now flow
        (packets_to_come script.now (length judge.old.tables.items) flow judge.old.counts
        judge.old.tables.items (judge.old.packet ∷ packets))
        (packets_to_come script.now (length judge.old.tables.items) flow judge.new.counts
        judge.new.tables.items packets)
        (file_of (D.state depot.old) report.old) at.old at.new met) }
    ensures counts { (judge.new.counts.passed ≤ judge.new.counts.packets)
        × (judge.new.counts.denied ≤ judge.new.counts.packets) }
    ensures more { IfOk result (λ met. IsTrue met
        → judge.new.counts.packets ≡ judge.old.counts.packets + 1) }
    ensures tables { Ready script.now (length judge.old.tables.items)
        (before script.now (flow + 1)) judge.new.tables.items }
{
    let line = &script.flows.as_slice()[flow];
    let worker = worker_of(judge.counts.packets, judge.tables.len());
    let tables = &mut judge.tables[worker];
    let place = PacketPlace {
        names: script.nodes.as_slice(),
        flow: line,
        flow_number: flow as u32 + 1,
        number: judge.counts.packets + 1,
        low: least_version(line, tables.version()),
        high: steps_behind(script, flow),
    };
    if !judge_packet(
        depot,
        report,
        at,
        &place,
        tables,
        &judge.packet,
        &mut judge.walker,
    )? {
        differ(at, 0);
        return Ok(false);
    }
    count(&mut judge.counts, judge.walker.is_denied);
    Ok(true)
}

/// Whether the lines of a flow's packets stand at the place, which goes behind them then.
fn judge_packets<D: Depot>(
    depot: &mut D,
    report: &mut ReportFile,
    at: &mut Place,
    script: &Script,
    flow: usize,
    judge: &mut Judge<'_>,
    reader: &mut CaptureReader,
) -> Result<bool, IoFault>
    requires sound { (own : List ℕ) × IsSoundScript own script.now }
    requires names { All IsNameText script.now.nodes }
    requires flow { flow < length script.now.flows }
    requires tables { (0 < length judge.old.tables.items) × Ready script.now
        (length judge.old.tables.items) (before script.now (flow + 1)) judge.old.tables.items }
    requires counts { IsFew judge.old.counts }
    requires ready { IsReadable (D.state depot.old) reader.old }
    requires whole { IsTrue (D.state depot.old).tells
        → ((left_by (D.state depot.old) reader.old).fault ≡ None) × (judge.old.counts.packets
        + length (left_by (D.state depot.old) reader.old).frames ≤ 1048576) }
    requires keeps { KeepsPart (D.state depot.old) report.old }
    requires stands { IsTrue (D.state depot.old).tells
        → StandsIn (file_of (D.state depot.old) report.old) at.old }
    ensures read { (names : List (List ℕ)) → Contains names (file_name_of reader.old)
        → HasRead names result report.old report.new (D.state depot.old) (D.state depot.new) }
    ensures judged { IfOk result (λ met. IsTrue (D.state depot.old).tells
        → IsFlowJudgedTo script.now flow
        (packets_to_come script.now (length judge.old.tables.items) flow judge.old.counts
        judge.old.tables.items (map packet_in (left_by (D.state depot.old) reader.old).frames))
        (none_to_come script.now (length judge.old.tables.items) flow judge.new.counts)
        (file_of (D.state depot.old) report.old) at.old at.new met) }
    ensures counts { IfOk result (λ met. IsTrue met → IsTrue (D.state depot.old).tells
        → judge.new.counts.packets ≡ judge.old.counts.packets
        + length (left_by (D.state depot.old) reader.old).frames) }
    ensures tables { Ready script.now (length judge.old.tables.items)
        (before script.now (flow + 1)) judge.new.tables.items }
{
    while judge.counts.packets <= PACKETS_LIMIT {
        match next_packet(depot, reader, &mut judge.packet)? {
            Read::Packet => {}
            Read::End => return Ok(true),
            Read::Broken => break,
        }
        if !judge_next(depot, report, at, script, flow, judge)? {
            return Ok(false);
        }
    }
    differ(at, 0);
    Ok(false)
}

/// Whether a flow's first line stands at the place, which goes behind it then.
fn expect_flow<D: Depot>(
    depot: &mut D,
    report: &mut ReportFile,
    at: &mut Place,
    script: &Script,
    flow: usize,
    text: &mut Vec<u8>,
) -> Result<bool, IoFault>
    requires flow { (flow < length script.now.flows) × (length script.now.flows ≤ 256) }
    requires keeps { KeepsPart (D.state depot.old) report.old }
    requires stands { IsTrue (D.state depot.old).tells
        → StandsIn (file_of (D.state depot.old) report.old) at.old }
    ensures read { (names : List (List ℕ)) → HasRead names result report.old report.new
        (D.state depot.old) (D.state depot.new) }
    ensures expected { IfOk result (λ met. IsTrue (D.state depot.old).tells
        → (line : LineValue) → slice_get script.now.flows flow ≡ Some line
        → IsExpected (file_of (D.state depot.old) report.old) (flow_line (flow + 1) line.input)
        at.old at.new met) }
{
    text.clear();
    write_flow(flow as u64 + 1, &script.flows.as_slice()[flow].input, text)?;
    expect(depot, report, at, text)
}

/// Whether a flow's last line stands at the place, which goes behind it then.
fn expect_end<D: Depot>(
    depot: &mut D,
    report: &mut ReportFile,
    at: &mut Place,
    flow: usize,
    counts: Counted,
    text: &mut Vec<u8>,
) -> Result<bool, IoFault>
    requires flow { flow < 256 }
    requires keeps { KeepsPart (D.state depot.old) report.old }
    requires stands { IsTrue (D.state depot.old).tells
        → StandsIn (file_of (D.state depot.old) report.old) at.old }
    ensures read { (names : List (List ℕ)) → HasRead names result report.old report.new
        (D.state depot.old) (D.state depot.new) }
    ensures expected { IfOk result (λ met. IsTrue (D.state depot.old).tells
        → IsExpected (file_of (D.state depot.old) report.old) (end_text_of (flow + 1) counts)
        at.old at.new met) }
{
    text.clear();
    write_flow_end(
        flow as u64 + 1,
        counts.packets,
        counts.passed,
        counts.denied,
        text,
    )?;
    expect(depot, report, at, text)
}

/// Whether the lines of all packets of a flow's capture stand at the place, which goes behind them then.
fn judge_capture<D: Depot>(
    depot: &mut D,
    report: &mut ReportFile,
    at: &mut Place,
    script: &Script,
    flow: usize,
    judge: &mut Judge<'_>,
) -> Result<bool, IoFault>
    requires sound { (own : List ℕ) × IsSoundScript own script.now }
    requires names { All IsNameText script.now.nodes }
    requires flow { flow < length script.now.flows }
    requires tables { (0 < length judge.old.tables.items) × Ready script.now
        (length judge.old.tables.items) (before script.now flow) judge.old.tables.items }
    requires whole { IsTrue (D.state depot.old).tells
        → HasWholeCapture script.now flow (D.state depot.old).held }
    requires keeps { KeepsPart (D.state depot.old) report.old }
    requires stands { IsTrue (D.state depot.old).tells
        → StandsIn (file_of (D.state depot.old) report.old) at.old }
    ensures read { HasRead (inputs_of script.now) result report.old report.new
        (D.state depot.old) (D.state depot.new) }
    ensures judged { IfOk result (λ met. IsTrue (D.state depot.old).tells
        → IsFlowJudgedTo script.now flow
        (λ held most line flows. packets_to_come script.now (length judge.old.tables.items) flow
        nothing_counted judge.old.tables.items (capture_packets (D.state depot.old).held line)
        held most line flows)
        (none_to_come script.now (length judge.old.tables.items) flow judge.new.counts)
        (file_of (D.state depot.old) report.old) at.old at.new met) }
    ensures counts { IfOk result (λ met. IsTrue met → IsTrue (D.state depot.old).tells
        → (line : LineValue) → slice_get script.now.flows flow ≡ Some line
        → judge.new.counts.packets ≡ length (capture_packets (D.state depot.old).held line)) }
    ensures tables { Ready script.now (length judge.old.tables.items)
        (before script.now (flow + 1)) judge.new.tables.items }
{
    let line = &script.flows.as_slice()[flow];
    match begin_capture(judge.alloc, depot, &line.input)? {
        None => {
            differ(at, 0);
            Ok(false)
        }
        Some(reader) => {
            judge.counts = Counted {
                packets: 0,
                passed: 0,
                denied: 0,
            };
            let mut reader = reader;
            judge_packets(depot, report, at, script, flow, judge, &mut reader)
        }
    }
}

/// Whether the lines of a flow stand at the place, with the replies behind it, which goes behind them then.
fn judge_flow<D: Depot>(
    depot: &mut D,
    report: &mut ReportFile,
    at: &mut Place,
    script: &Script,
    flow: usize,
    replies: &mut Replies,
    judge: &mut Judge<'_>,
) -> Result<bool, IoFault>
    requires sound { (own : List ℕ) × IsSoundScript own script.now }
    requires names { All IsNameText script.now.nodes }
    requires flow { flow < length script.now.flows }
    requires tables { (0 < length judge.old.tables.items) × Ready script.now
        (length judge.old.tables.items) (before script.now flow) judge.old.tables.items }
    requires done { replies.old.done ≡ before script.now flow }
    requires network { replies.old.network
        ≡ tables_after (length script.now.nodes) script.now.steps (before script.now flow) }
    requires whole { IsTrue (D.state depot.old).tells
        → HasWholeCapture script.now flow (D.state depot.old).held }
    requires keeps { KeepsPart (D.state depot.old) report.old }
    requires stands { IsTrue (D.state depot.old).tells
        → StandsIn (file_of (D.state depot.old) report.old) at.old }
    ensures read { HasRead (inputs_of script.now) result report.old report.new
        (D.state depot.old) (D.state depot.new) }
    ensures judged { IfOk result (λ met. IsTrue (D.state depot.old).tells
        → (held : Folder) (most : ℕ) (line : LineValue) (flows : List LineValue)
        → SameHeld held (D.state depot.old).held → slice_get script.now.flows flow ≡ Some line
        → FlowsStatus held (flow + 1) most (line ∷ flows) 0
        → IsJudgedTo
        (FlowsFrom script.now (length judge.old.tables.items) held (flow + 1) most (line ∷ flows))
        (flows_behind script.now (length judge.old.tables.items) held flow most line flows)
        (file_of (D.state depot.old) report.old) at.old at.new met) }
    ensures done { IfOk result (λ met. IsTrue met
        → replies.new.done ≡ before script.now (flow + 1)) }
    ensures network { IfOk result (λ met. IsTrue met → replies.new.network
        ≡ tables_after (length script.now.nodes) script.now.steps (before script.now (flow + 1))) }
    ensures tables { IfOk result (λ met. IsTrue met → Ready script.now
        (length judge.old.tables.items) (before script.now (flow + 1)) judge.new.tables.items) }
{
    if !expect_flow(depot, report, at, script, flow, &mut replies.line)? {
        return Ok(false);
    }
    if !judge_capture(depot, report, at, script, flow, judge)? {
        return Ok(false);
    }
    if !expect_end(depot, report, at, flow, judge.counts, &mut replies.line)? {
        return Ok(false);
    }
    let upto = steps_behind(script, flow);
    expect_replies(depot, report, at, script, upto, replies)
}

/// Whether the lines of all flows stand at the place, each with the replies behind it, which goes behind them then.
pub(crate) fn judge_flows<D: Depot>(
    depot: &mut D,
    report: &mut ReportFile,
    at: &mut Place,
    script: &Script,
    replies: &mut Replies,
    judge: &mut Judge<'_>,
) -> Result<bool, IoFault>
    requires sound { (own : List ℕ) × IsSoundScript own script.now }
    requires names { All IsNameText script.now.nodes }
    requires tables { (0 < length judge.old.tables.items) × Ready script.now
        (length judge.old.tables.items) 0 judge.old.tables.items }
    requires done { replies.old.done ≡ before script.now 0 }
    requires network { replies.old.network
        ≡ tables_after (length script.now.nodes) script.now.steps (before script.now 0) }
    requires keeps { KeepsPart (D.state depot.old) report.old }
    requires stands { IsTrue (D.state depot.old).tells
        → StandsIn (file_of (D.state depot.old) report.old) at.old }
    requires whole { IsTrue (D.state depot.old).tells
        → FlowsStatus (D.state depot.old).held 1 packets_limit script.now.flows 0 }
    ensures read { HasRead (inputs_of script.now) result report.old report.new
        (D.state depot.old) (D.state depot.new) }
    ensures judged { IfOk result (λ met. IsTrue (D.state depot.old).tells → IsJudgedTo
        (FlowsFrom script.now (length judge.old.tables.items) (D.state depot.old).held
        1 packets_limit script.now.flows)
        done_awaited (file_of (D.state depot.old) report.old) at.old at.new met) }
{
    let mut flow = 0;
    while flow < flows_in(script) {
        if !judge_flow(depot, report, at, script, flow, replies, judge)? {
            return Ok(false);
        }
        flow += 1;
    }
    Ok(true)
}
