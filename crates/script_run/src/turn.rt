//! What comes behind a flow's packets.

ghost use Rattle.std.specs.Prelude.{◌≡◌, ◌≤◌, ◌<◌, [], All, length, Err};
ghost use Rattle.script_lines.specs.declared.command.Step.{Step as StepValue};
ghost use Rattle.call_report.specs.Lines.Capture.{capture_line};
ghost use Rattle.call_report.specs.declared.status.Status.TheVariants.{WrongCapture};
ghost use Rattle.call_report.specs.Printing.{Printed};
ghost use Rattle.script_run.specs.declared.flow_run.end.FlowEnd.TheVariants.{Stopped};
ghost use Rattle.script_run.specs.flow_run.Place.{tables_at};
ghost use Rattle.script_run.specs.inside.Turn.{HasAnswered, IsTurnEnd, IsTurnEndAt};

use crate::flow_run::{FlowEnd, FlowPlace, FlowStop};
use crate::replies::answer_steps;
use call_report::{OutOfMemory, Report, Status, packets_limit, write_capture};
use captures::FileFault;
use net_io::Sink;
use node_tables::Network;
use std::alloc::Global;

/// What a flow begins with.
#[derive(Drop)]
pub(crate) struct Next {
    /// The tables of the nodes after the steps above it.
    pub network: Network,
    /// What waits to be printed.
    pub report: Report,
}

/// Prints what comes behind a flow's packets: the replies to the steps between it and the next one, or the line of the event that ends
/// the call. Where the flow was stopped, only what waits. The network is that of the flow's beginning.
pub(crate) fn end_turn<S: Sink>(
    alloc: Global,
    place: &FlowPlace<'_>,
    end: FlowEnd,
    next: Next,
    out: &mut S,
) -> Result<Next, Status>
    requires nodes { All (λ (step : StepValue). step.node < length place.now.names.now)
        place.now.steps.now }
    requires beside { (place.now.flow.now.before ≤ place.now.upto)
        × (place.now.upto ≤ length place.now.steps.now) }
    requires network { next.network ≡ tables_at place.now }
    ensures { IsTurnEndAt place.now end
        next.report.waiting.items (S.state out.old) (S.state out.new) result }
{
    match end {
        FlowEnd::GoesOn => answer_beside(place, next, out),
        FlowEnd::Broken(fault) => Err(end_broken(alloc, place.number, fault, next.report, out)),
        FlowEnd::TooMany => Err(next.report.end(out, packets_limit(), Status::Limit)),
        FlowEnd::Stopped(why) => Err(end_stopped(why, next.report, out)),
    }
}

/// Carries out the steps beside a flow on the network of its beginning, and hands on their replies. The board of the flow has carried them
/// out as well, without replies: so only one of them is there at a time.
fn answer_beside<S: Sink>(place: &FlowPlace<'_>, next: Next, out: &mut S) -> Result<Next, Status>
    requires nodes { All (λ (step : StepValue). step.node < length place.now.names.now)
        place.now.steps.now }
    requires beside { (place.now.flow.now.before ≤ place.now.upto)
        × (place.now.upto ≤ length place.now.steps.now) }
    requires network { next.network ≡ tables_at place.now }
    ensures { HasAnswered place.now.names.now place.now.steps.now
        place.now.flow.now.before place.now.upto
        next.report.waiting.items (S.state out.old) (S.state out.new) result }
{
    let Next {
        mut network,
        mut report,
    } = next;
    let steps = place.steps.as_slice();
    let from = place.flow.before as usize;
    let upto = place.upto as usize;
    match answer_steps(
        place.names,
        steps,
        from,
        upto,
        &mut network,
        &mut report,
        out,
    ) {
        Ok(()) => Ok(Next { network, report }),
        Err(fault) => Err(Status::after_write(fault)),
    }
}

/// Ends the report at a capture that is broken, by the capture's number.
fn end_broken<S: Sink>(
    alloc: Global,
    number: u32,
    fault: FileFault,
    report: Report,
    out: &mut S,
) -> Status
    ensures { Printed report.waiting.items (capture_line number fault) WrongCapture
        result (S.state out.old) (S.state out.new) }
{
    let mut line = Vec::new(alloc);
    match write_capture(u64::from(number), fault, &mut line) {
        Ok(()) => report.end(out, &line, Status::WrongCapture),
        Err(OutOfMemory) => Status::OutOfMemory,
    }
}

/// Ends the report at a flow that was stopped: what waits is printed where a call of the folder has failed.
fn end_stopped<S: Sink>(why: FlowStop, report: Report, out: &mut S) -> Status
    ensures { IsTurnEnd [] [] 0 0 0 (Stopped why)
        report.waiting.items (S.state out.old) (S.state out.new) (Err result) }
{
    match why {
        FlowStop::Read => report.end(out, b"", Status::ReadFault),
        FlowStop::Create => report.end(out, b"", Status::ReadFault),
        FlowStop::Append => {
            // The append came first.
            let _ending = report.end(out, b"", Status::WriteFault);
            Status::WriteFault
        }
        FlowStop::Print => Status::WriteFault,
        FlowStop::OutOfMemory => Status::OutOfMemory,
    }
}
