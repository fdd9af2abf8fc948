//! What tells the caller what was found.

ghost use Rattle.std.specs.Prelude.{◌≡◌, []};
ghost use Rattle.call_report.specs.Lines.Capture.{capture_line};
ghost use Rattle.call_report.specs.Printing.{Printed};
ghost use Rattle.netlabel_audit.specs.inside.Finding.{IsTold, IsToldVerdict, IsToldStop, number_as, verdict_line};

use crate::lines::{report_limit, write_verdict};
use crate::stop::AuditStop;
use call_report::{Report, Status, packets_limit, write_capture};
use captures::FileFault;
use label_audit::Audited;
use mls_label::OutOfMemory;
use net_io::Sink;
use std::alloc::Global;

/// The status where some line of a report isn't good.
const NOT_GOOD: u8 = 8;

/// Prints what was found, and answers the status with which the call ends.
pub(crate) fn tell<S: Sink>(alloc: Global, found: Result<Audited, AuditStop>, out: &mut S) -> u8
    ensures { IsTold found (S.state out.old) (S.state out.new) result }
{
    match found {
        Ok(verdict) => tell_verdict(alloc, verdict, out),
        Err(stop) => tell_stop(alloc, stop, out).number(),
    }
}

/// Prints what the report's lines come to.
fn tell_verdict<S: Sink>(alloc: Global, verdict: Audited, out: &mut S) -> u8
    ensures { IsToldVerdict verdict (S.state out.old) (S.state out.new) result }
{
    let done = match verdict {
        Audited::Yes => 0,
        Audited::NoLine { line: _ } => NOT_GOOD,
    };
    number_as(done, print_verdict(alloc, verdict, out))
}

/// The same, with the status of a call that answers its question.
fn print_verdict<S: Sink>(alloc: Global, verdict: Audited, out: &mut S) -> Status
    ensures { Printed (verdict_line verdict) [] Status.Done result
        (S.state out.old) (S.state out.new) }
{
    let mut report = Report::new(alloc);
    match write_verdict(verdict, &mut report.waiting) {
        Ok(()) => report.end(out, b"", Status::Done),
        Err(OutOfMemory) => Status::OutOfMemory,
    }
}

/// The number of a status, and a number of its own for a call that answers its question.
fn number_as(done: u8, status: Status) -> u8
    ensures { result ≡ number_as done status }
{
    match status {
        Status::Done => done,
        other => other.number(),
    }
}

/// Prints why a report wasn't judged, where the files show it.
fn tell_stop<S: Sink>(alloc: Global, stop: AuditStop, out: &mut S) -> Status
    ensures { IsToldStop stop (S.state out.old) (S.state out.new) result }
{
    match stop {
        AuditStop::LongReport => Report::new(alloc).end(out, report_limit(), Status::Limit),
        AuditStop::Broken { flow, fault } => tell_broken(alloc, flow, fault, out),
        AuditStop::TooMany => Report::new(alloc).end(out, packets_limit(), Status::Limit),
        AuditStop::Unread => Status::ReadFault,
        AuditStop::OutOfMemory => Status::OutOfMemory,
    }
}

/// Prints the first fault of the capture of the flow of this number.
fn tell_broken<S: Sink>(alloc: Global, flow: u64, fault: FileFault, out: &mut S) -> Status
    ensures { Printed [] (capture_line flow fault) Status.WrongCapture result
        (S.state out.old) (S.state out.new) }
{
    let mut line = Vec::new(alloc);
    match write_capture(flow, fault, &mut line) {
        Ok(()) => Report::new(alloc).end(out, &line, Status::WrongCapture),
        Err(OutOfMemory) => Status::OutOfMemory,
    }
}
