//! A capture whose packets cross a border, one by one.

ghost use Rattle.std.specs.Prelude.{◌≡◌, ◌<◌, [], Some, false};
ghost use Rattle.captures.specs.declared.fault.FileFault.TheVariants.{Pcap};
ghost use Rattle.call_report.specs.CallEnds.{CallEnds};
ghost use Rattle.call_report.specs.Lines.Capture.{capture_line};
ghost use Rattle.call_report.specs.Outside.{Outside};
ghost use Rattle.call_report.specs.Printing.{Printed};
ghost use Rattle.call_report.specs.Status.{status_number};
ghost use Rattle.ripso_border_run.specs.Outcome.{is_named_twice};
ghost use Rattle.ripso_border_run.specs.Says.{border_says};
ghost use Rattle.ripso_border_run.specs.inside.Course.{IsPlanned, IsStanding, IsCrossing, IsUnmoved, none_counted};

use crate::crossing::{Crossing, INPUT};
use crate::task::Task;
use call_report::{Report, Status, write_capture};
use captures::{CaptureFormat, FileFault, create_capture};
use mls_label::OutOfMemory;
use net_io::{Depot, IoFault, Sink};
use pcap_frames::{CaptureFault, FrameStop, Frames};
use ripso_border::Border;
use std::alloc::Global;

/// Writes what becomes of each packet of the input to the output, and prints it.
pub(crate) fn cross_capture<D: Depot, S: Sink>(
    alloc: Global,
    border: &Border<'_>,
    task: &Task<'_>,
    depot: &mut D,
    out: &mut S,
) -> Status
    requires apart { is_named_twice task.now ≡ false }
    requires way { border.now.way ≡ task.now.way }
    requires doi { border.now.doi ≡ task.now.doi }
    requires some { 0 < border.now.doi }
    ensures { (before : Outside) → IsPlanned task.now border.now.definition.now before
        → IsUnmoved before.folder (D.state depot.old) → S.state out.old ≡ before.stream
        → CallEnds border_says (Some task.now) before
        (record { folder = D.state depot.new; stream = S.state out.new })
        (status_number result) [] }
{
    let frames = match Frames::begin(alloc, depot, task.input.as_str()) {
        Ok(frames) => frames,
        Err(FrameStop::Capture(fault)) => return end_refused(alloc, fault, out),
        Err(FrameStop::ReadFault) => return Status::ReadFault,
        Err(FrameStop::OutOfMemory) => return Status::OutOfMemory,
    };
    let format = CaptureFormat::Pcap {
        nanos: frames.nanos(),
    };
    match create_capture(alloc, depot, task.output.as_str(), format) {
        Ok(waits) => cross_frames(alloc, border, task, frames, waits, depot, out),
        Err(IoFault::Failed) => Status::ReadFault,
        Err(IoFault::OutOfMemory) => Status::OutOfMemory,
    }
}

/// The same from frame to frame, where the output was made.
fn cross_frames<D: Depot, S: Sink>(
    alloc: Global,
    border: &Border<'_>,
    task: &Task<'_>,
    first: Frames,
    begun: Vec<u8>,
    depot: &mut D,
    out: &mut S,
) -> Status
    requires way { border.now.way ≡ task.now.way }
    requires doi { border.now.doi ≡ task.now.doi }
    requires some { 0 < border.now.doi }
    requires standing { IsStanding task.now (D.state depot.old) first none_counted }
    ensures { (before : Outside)
        → IsCrossing task.now border.now.definition.now before
        (record { folder = D.state depot.old; stream = S.state out.old })
        first [] begun.items [] none_counted
        → CallEnds border_says (Some task.now) before
        (record { folder = D.state depot.new; stream = S.state out.new })
        (status_number result) [] }
{
    let mut crossing = Crossing::new(alloc, first, begun);
    loop {
        match crossing.step(border, task, depot, out) {
            Ok(()) => {}
            Err(end) => return crossing.finish(alloc, task.output.as_str(), end, depot, out),
        }
    }
}

/// Ends the report of a capture whose beginning is broken, where nothing was made.
fn end_refused<S: Sink>(alloc: Global, fault: CaptureFault, out: &mut S) -> Status
    ensures { Printed [] (capture_line 1 (Pcap fault)) Status.WrongCapture result
        (S.state out.old) (S.state out.new) }
{
    let mut line = Vec::new(alloc);
    match write_capture(INPUT, FileFault::Pcap(fault), &mut line) {
        Ok(()) => Report::new(alloc).end(out, &line, Status::WrongCapture),
        Err(OutOfMemory) => Status::OutOfMemory,
    }
}
