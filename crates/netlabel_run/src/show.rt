//! `show`: what each packet of a capture carries, a line for each.

ghost use Rattle.std.specs.Prelude.{◌≡◌, ◌++◌, ◌≤◌, ◌^◌, List, ℕ, [], Some, IfOk};
ghost use Rattle.netlabel_run.specs.declared.command.Command.TheVariants.{Show};
ghost use Rattle.call_report.specs.Lines.Packet.{shown_line, shown_end_line, IsShown};
ghost use Rattle.call_report.specs.Lines.Capture.{capture_line};
ghost use Rattle.call_report.specs.Outside.{Outside};
ghost use Rattle.call_report.specs.CallEnds.{CallEnds};
ghost use Rattle.netlabel_run.specs.Commands.{netlabel_says};
ghost use Rattle.call_report.specs.Status.{status_number};
ghost use Rattle.call_report.specs.Printing.{HandsOn, Printed};
ghost use Rattle.netlabel_run.specs.inside.Stopping.{stop_line, stop_status};

use call_report::{
    PACKETS_LIMIT, Report, Status, packets_limit, write_capture, write_packet, write_packets_end,
};
use captures::{CaptureReader, FileFault, ReadStop};
use label_flow::{Octets, PacketIn};
use mls_label::{Label, OutOfMemory};
use net_io::{Depot, IoFault, Sink};
use std::alloc::Global;

/// Prints what each packet of a capture carries. One packet is held at a time, in memory that is kept from packet to packet.
pub(crate) fn show<D: Depot, S: Sink>(
    alloc: Global,
    file: &str,
    depot: &mut D,
    out: &mut S,
) -> Status
    ensures { CallEnds netlabel_says (Some (Show file.now))
        (record { folder = D.state depot.old; stream = S.state out.old })
        (record { folder = D.state depot.new; stream = S.state out.new })
        (status_number result) [] }
{
    let mut report = Report::new(alloc);
    let mut reader = match CaptureReader::begin(alloc, depot, file) {
        Ok(reader) => reader,
        Err(stop) => return end_stopped(alloc, report, stop, out),
    };
    let mut packet = PacketIn {
        bytes: Octets::of(Vec::new(alloc)),
        is_ip: false,
    };
    let mut label = Label::lowest();
    let mut shown: u64 = 0;
    loop {
        match reader.next(depot, &mut packet) {
            Ok(Some(_head)) => {}
            Ok(None) => return end_whole(report, shown, out),
            Err(stop) => return end_stopped(alloc, report, stop, out),
        }
        if shown == PACKETS_LIMIT {
            return report.end(out, packets_limit(), Status::Limit);
        }
        shown += 1;
        let waits = depot.may_wait(file) && !reader.is_ahead();
        match add_packet(&mut report, shown, &packet, &mut label, waits, out) {
            Ok(()) => {}
            Err(fault) => return Status::after_write(fault),
        }
    }
}

/// Adds the line of a packet, and hands on what waits where that is a piece, or the next packet may have to be waited for.
fn add_packet<S: Sink>(
    report: &mut Report,
    number: u64,
    packet: &PacketIn,
    label: &mut Label,
    waits: bool,
    out: &mut S,
) -> Result<(), IoFault>
    ensures { (text : List ℕ) × IsShown packet.now text
        × HandsOn (shown_line number text) report.old.waiting.items report.new.waiting.items
        result (S.state out.old) (S.state out.new) }
{
    match write_packet(number, packet, label, &mut report.waiting) {
        Ok(()) if waits => report.flush(out),
        Ok(()) => report.pass(out),
        Err(OutOfMemory) => Err(IoFault::OutOfMemory),
    }
}

/// Ends the report of a capture that was read to its end, with the number of its packets.
fn end_whole<S: Sink>(report: Report, count: u64, out: &mut S) -> Status
    ensures { Printed (report.waiting.items ++ shown_end_line count) [] Status.Done result
        (S.state out.old) (S.state out.new) }
{
    let mut report = report;
    match write_packets_end(count, &mut report.waiting) {
        Ok(()) => report.end(out, b"", Status::Done),
        Err(OutOfMemory) => Status::OutOfMemory,
    }
}

/// Ends the report of a capture whose reader has stopped.
fn end_stopped<S: Sink>(alloc: Global, report: Report, stop: ReadStop, out: &mut S) -> Status
    ensures { Printed report.waiting.items (stop_line stop) (stop_status stop) result
        (S.state out.old) (S.state out.new) }
{
    match stop {
        ReadStop::Capture(fault) => end_broken(alloc, report, FileFault::Pcap(fault), out),
        ReadStop::Ng(fault) => end_broken(alloc, report, FileFault::Pcapng(fault), out),
        ReadStop::ReadFault => report.end(out, b"", Status::ReadFault),
        ReadStop::OutOfMemory => report.end(out, b"", Status::OutOfMemory),
    }
}

/// Ends the report of a capture that is broken, with its fault.
fn end_broken<S: Sink>(alloc: Global, report: Report, fault: FileFault, out: &mut S) -> Status
    ensures { Printed report.waiting.items (capture_line 1 fault) Status.WrongCapture result
        (S.state out.old) (S.state out.new) }
{
    let mut line = Vec::new(alloc);
    match write_capture(1, fault, &mut line) {
        Ok(()) => report.end(out, &line, Status::WrongCapture),
        Err(OutOfMemory) => Status::OutOfMemory,
    }
}
