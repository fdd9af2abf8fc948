//! The flows of a script.

ghost use Rattle.std.specs.Prelude.{◌≡◌, ◌+◌, ◌<◌, ◌≤◌, ◌^◌, ◌++◌, ℕ, List, [], length, slice_get, Some};
ghost use Rattle.net_io.specs.Sink.{SinkState};
ghost use Rattle.node_tables.specs.Steps.{tables_after};
ghost use Rattle.label_commands.specs.Script.{before};
ghost use Rattle.label_commands.specs.Sound.{IsSoundScript};
ghost use Rattle.call_report.specs.Lines.Fixed.{done_line};
ghost use Rattle.call_report.specs.declared.status.Status.TheVariants.{Done};
ghost use Rattle.call_report.specs.Outside.{Outside};
ghost use Rattle.call_report.specs.Printing.{IsUnderWay, Printed};
ghost use Rattle.script_run.specs.Report.{first_replies};
ghost use Rattle.script_run.specs.Ends.{ScriptEnds};
ghost use Rattle.script_run.specs.inside.Turn.{HasFirst};

use crate::flow_run::{FlowPlace, Runner, run_flow};
use crate::replies::answer_steps;
use crate::turn::{Next, end_turn};
use call_report::{OutOfMemory, PACKETS_LIMIT, Report, Seen, Status, done};
use label_commands::Script;
use label_flow::Gate;
use net_io::{Depot, Sink};
use node_tables::Network;
use shared_tables::SharedSteps;
use std::alloc::Global;
use std::sync::Wait;
use std::thread::Threads;

/// Runs the flows of a script, each beside the steps that stand between it and the next one, with so many workers. It prints the replies
/// to the steps above the first flow, each flow with the replies behind it, and `done`; or, in place of what would come next, the line of
/// the event of a capture that ends the call. It answers the versions of the tables under which packets were judged, as they were
/// printed, and the status.
///
/// A read of an input, or the making of an output, that fails is `ReadFault`; an append to an output, or a write to the stream,
/// `WriteFault`. All that stands in front of a call of the folder that fails is printed. Without memory the output ends somewhere: no write
/// and no append has failed then, and nothing else, unless a read or a making failed. An append that failed before keeps its status.
pub fn run_script<D: Depot + Send, S: Sink + Send, G: Gate + Sync, R: Threads + Wait + Sync>(
    rt: &R,
    alloc: Global,
    script: &Script,
    workers: usize,
    depot: &mut D,
    out: &mut S,
    gate: &G,
) -> (Seen, Status)
    requires workers { (0 < workers) × (workers ≤ 16) }
    requires sound { (own : List ℕ) × IsSoundScript own script.now }
    ensures { ScriptEnds script.now workers
        (record { folder = D.state depot.old; stream = S.state out.old })
        (record { folder = D.state depot.new; stream = S.state out.new }) result.0 result.1 }
{
    let runner = Runner { rt, alloc, gate };
    let Ok(steps) = SharedSteps::copy_of(alloc, script.steps.as_slice()) else {
        return (Seen::none(alloc), Status::OutOfMemory);
    };
    match begin(alloc, script, out) {
        Ok(next) => run_flows(&runner, script, &steps, workers, next, depot, out),
        Err(status) => (Seen::none(alloc), status),
    }
}

/// Carries out the steps above the first flow, and hands on their replies.
fn begin<S: Sink>(alloc: Global, script: &Script, out: &mut S) -> Result<Next, Status>
    requires sound { (own : List ℕ) × IsSoundScript own script.now }
    ensures { HasFirst script.now (S.state out.old) (S.state out.new) result }
{
    let names = script.nodes.as_slice();
    let steps = script.steps.as_slice();
    let upto = script.steps_above(0) as usize;
    let mut report = Report::new(alloc);
    let Ok(mut network) = Network::fresh(alloc, names.len()) else {
        return Err(Status::OutOfMemory);
    };
    match answer_steps(names, steps, 0, upto, &mut network, &mut report, out) {
        Ok(()) => Ok(Next { network, report }),
        Err(fault) => Err(Status::after_write(fault)),
    }
}

/// Runs the flows, one after the other.
fn run_flows<D: Depot + Send, S: Sink + Send, G: Gate + Sync, R: Threads + Wait + Sync>(
    runner: &Runner<'_, '_, R, G>,
    script: &Script,
    steps: &SharedSteps,
    workers: usize,
    next: Next,
    depot: &mut D,
    out: &mut S,
) -> (Seen, Status)
    requires workers { (0 < workers) × (workers ≤ 16) }
    requires sound { (own : List ℕ) × IsSoundScript own script.now }
    requires steps { steps.now ≡ script.now.steps }
    requires network { next.network
        ≡ tables_after (length script.now.nodes) script.now.steps (before script.now 0) }
    ensures { (start : SinkState)
        → IsUnderWay (first_replies script.now) next.report.waiting.items start (S.state out.old)
        → ScriptEnds script.now workers (record { folder = D.state depot.old; stream = start })
        (record { folder = D.state depot.new; stream = S.state out.new }) result.0 result.1 }
{
    let alloc = runner.alloc;
    let flows = script.flows.as_slice();
    let mut next = next;
    let mut left = PACKETS_LIMIT;
    let mut seen = Vec::new(alloc);
    let mut done = 0;
    while done < flows.len() {
        if seen.reserve(1).is_err() {
            return (Seen::of(seen), Status::OutOfMemory);
        }
        let place = place_of(script, steps, workers, done, left);
        let Next {
            network,
            mut report,
        } = next;
        let (lists, end) = run_flow(runner, &place, &network, &mut report, depot, out);
        left = left.saturating_sub(lists.len() as u64);
        seen.push_reserved(lists);
        match end_turn(alloc, &place, end, Next { network, report }, out) {
            Ok(after) => next = after,
            Err(status) => return (Seen::of(seen), status),
        }
        done += 1;
    }
    (Seen::of(seen), end_done(next.report, out))
}

/// Where a flow stands, counted from 0, where so many packets may still be read.
fn place_of<'s>(
    script: &'s Script,
    steps: &'s SharedSteps,
    workers: usize,
    flow: usize,
    most: u64,
) -> FlowPlace<'s>
    requires steps { length script.now.steps < 2 ^ 32 }
    requires few { length script.now.flows < 2 ^ 32 }
    requires shared { steps.now ≡ script.now.steps }
    requires flow { flow < length script.now.flows }
    ensures flow { slice_get script.now.flows flow ≡ Some result.flow.now }
    ensures number { result.number ≡ flow + 1 }
    ensures most { result.most ≡ most }
    ensures upto { result.upto ≡ before script.now (flow + 1) }
    ensures workers { result.workers ≡ workers }
    ensures names { result.names.now ≡ script.now.nodes }
    ensures steps { result.steps.now ≡ script.now.steps }
{
    let flows = script.flows.as_slice();
    FlowPlace {
        flow: &flows[flow],
        number: flow as u32 + 1,
        most,
        upto: script.steps_above(flow + 1),
        workers,
        names: script.nodes.as_slice(),
        steps,
    }
}

/// Ends the report behind the last flow.
fn end_done<S: Sink>(report: Report, out: &mut S) -> Status
    ensures { Printed (report.waiting.items ++ done_line) [] Done
        result (S.state out.old) (S.state out.new) }
{
    let mut report = report;
    match report.waiting.extend_from_slice(done()) {
        Ok(()) => report.end(out, b"", Status::Done),
        Err(_) => Status::OutOfMemory,
    }
}
