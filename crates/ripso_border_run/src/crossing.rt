//! A capture on its way over a border: what is held from frame to frame, and how it ends.

ghost use Rattle.std.specs.Prelude.{◌≡◌, ◌≢◌, ◌<◌, ◌+◌, ◌++◌, [], IsTrue, IsSome, OnOk};
ghost use Rattle.net_io.specs.Sink.{SinkState};
ghost use Rattle.pcap_frames.specs.Reader.{IsReady};
ghost use Rattle.captures.specs.declared.fault.FileFault.TheVariants.{Pcap};
ghost use Rattle.doi_table.specs.declared.plan.DoiPlan.{DoiPlan};
ghost use Rattle.call_report.specs.Lines.Capture.{capture_line};
ghost use Rattle.call_report.specs.Outside.{Outside};
ghost use Rattle.ripso_border_run.specs.Lines.{crossed_end_line};
ghost use Rattle.ripso_border_run.specs.declared.task.Task.{Task as TaskValue};
ghost use Rattle.ripso_border_run.specs.inside.Course.{none_counted, in_hand, IsStanding, IsCrossing, Proceeds, IsEnded, IsEndedBy};

use crate::course::{add_kept, add_line, counted, verdict_of};
use crate::lines::{Counts, write_end};
use crate::task::Task;
use call_report::{PACKETS_LIMIT, Report, Status, packets_limit, write_capture};
use captures::{FileFault, finish_capture};
use label_receive::Room;
use mls_label::OutOfMemory;
use net_io::{Depot, IoFault, Sink};
use pcap_frames::{CaptureFault, FrameHead, FrameStop, Frames};
use ripso_border::Border;
use std::alloc::Global;

/// The number of the input among the captures of a call.
pub(crate) const INPUT: u64 = 1;

/// What a call holds from frame to frame: one frame at a time, in memory that is kept.
#[derive(Drop)]
pub(crate) struct Crossing {
    frames: Frames,
    frame: Vec<u8>,
    room: Room,
    packet: Vec<u8>,
    /// What waits for the output.
    waits: Vec<u8>,
    report: Report,
    counts: Counts,
}

/// Why no further packet is dealt with.
#[derive(Clone, Copy, Debug)]
pub(crate) enum End {
    /// The input was read to its end.
    Whole,
    /// It is broken behind its beginning.
    Broken(CaptureFault),
    /// It has more packets than one call reads.
    Full,
    /// It couldn't be read.
    Unread,
    /// Nothing more can be printed or appended, or memory ran out.
    Stopped(Status),
}

impl Crossing {
    /// In front of the first frame, where this waits for the output.
    pub(crate) fn new(alloc: Global, frames: Frames, waits: Vec<u8>) -> Crossing
        ensures frames { result.frames ≡ frames }
        ensures waits { result.waits.items ≡ waits.items }
        ensures waiting { result.report.waiting.items ≡ [] }
        ensures counts { result.counts ≡ none_counted }
    {
        Crossing {
            frames,
            frame: Vec::new(alloc),
            room: Room::lowest(),
            packet: Vec::new(alloc),
            waits,
            report: Report::new(alloc),
            counts: Counts {
                packets: 0,
                passed: 0,
                denied: 0,
            },
        }
    }

    /// Writes what becomes of the next packet to the output, and prints it.
    pub(crate) fn step<D: Depot, S: Sink>(
        &mut self,
        border: &Border<'_>,
        task: &Task<'_>,
        depot: &mut D,
        out: &mut S,
    ) -> Result<(), End>
        requires way { border.now.way ≡ task.now.way }
        requires doi { border.now.doi ≡ task.now.doi }
        requires some { 0 < border.now.doi }
        requires standing { IsStanding task.now (D.state depot.old) self.old.frames
            self.old.counts }
        ensures counted { OnOk result
            (self.new.counts.packets ≡ self.old.counts.packets + 1) }
        ensures standing { OnOk result
            (IsStanding task.now (D.state depot.new) self.new.frames self.new.counts) }
        ensures there { IsTrue (D.state depot.new).tells
            → IsSome ((D.state depot.new).held task.now.output) }
        ensures crossing { (before : Outside)
            → IsCrossing task.now border.now.definition.now before
            (record { folder = D.state depot.old; stream = S.state out.old })
            self.old.frames [] self.old.waits.items self.old.report.waiting.items self.old.counts
            → Proceeds task.now border.now.definition.now before
            (record { folder = D.state depot.new; stream = S.state out.new })
            self.new.frames (λ done. []) self.new.waits.items self.new.report.waiting.items
            self.new.counts result }
    {
        match self.next_head(depot) {
            Ok(head) => self.deal(border, task, head, depot, out),
            Err(end) => Err(end),
        }
    }

    /// Takes the next frame in hand.
    fn next_head<D: Depot>(&mut self, depot: &mut D) -> Result<FrameHead, End>
        requires { IsReady (D.state depot.old) self.old.frames }
        ensures below { OnOk result (self.new.counts.packets ≢ 1048576) }
        ensures counts { self.new.counts ≡ self.old.counts }
        ensures standing { (task : TaskValue)
            → IsStanding task (D.state depot.old) self.old.frames self.old.counts
            → IsStanding task (D.state depot.new) self.new.frames self.new.counts }
        ensures crossing { (task : TaskValue) (plan : DoiPlan) (before : Outside)
            (stream : SinkState)
            → IsStanding task (D.state depot.old) self.old.frames self.old.counts
            → IsCrossing task plan before
            (record { folder = D.state depot.old; stream = stream })
            self.old.frames [] self.old.waits.items self.old.report.waiting.items self.old.counts
            → Proceeds task plan before
            (record { folder = D.state depot.new; stream = stream })
            self.new.frames (λ head. in_hand self.new.frames head self.new.frame.items)
            self.new.waits.items self.new.report.waiting.items self.new.counts result }
    {
        let head = match self.frames.next(depot, &mut self.frame) {
            Ok(Some(head)) => head,
            Ok(None) => return Err(End::Whole),
            Err(FrameStop::Capture(fault)) => return Err(End::Broken(fault)),
            Err(FrameStop::ReadFault) => return Err(End::Unread),
            Err(FrameStop::OutOfMemory) => return Err(End::Stopped(Status::OutOfMemory)),
        };
        if self.counts.packets == PACKETS_LIMIT {
            return Err(End::Full);
        }
        Ok(head)
    }

    /// Deals with the frame in hand.
    fn deal<D: Depot, S: Sink>(
        &mut self,
        border: &Border<'_>,
        task: &Task<'_>,
        head: FrameHead,
        depot: &mut D,
        out: &mut S,
    ) -> Result<(), End>
        requires way { border.now.way ≡ task.now.way }
        requires doi { border.now.doi ≡ task.now.doi }
        requires some { 0 < border.now.doi }
        requires below { self.old.counts.packets ≢ 1048576 }
        requires standing { IsStanding task.now (D.state depot.old) self.old.frames
            self.old.counts }
        ensures counted { OnOk result
            (self.new.counts.packets ≡ self.old.counts.packets + 1) }
        ensures standing { OnOk result
            (IsStanding task.now (D.state depot.new) self.new.frames self.new.counts) }
        ensures there { IsTrue (D.state depot.new).tells
            → IsSome ((D.state depot.new).held task.now.output) }
        ensures crossing { (before : Outside)
            → IsCrossing task.now border.now.definition.now before
            (record { folder = D.state depot.old; stream = S.state out.old })
            self.old.frames (in_hand self.old.frames head self.old.frame.items)
            self.old.waits.items self.old.report.waiting.items self.old.counts
            → Proceeds task.now border.now.definition.now before
            (record { folder = D.state depot.new; stream = S.state out.new })
            self.new.frames (λ done. []) self.new.waits.items self.new.report.waiting.items
            self.new.counts result }
    {
        let link = self.frames.link();
        let room = &mut self.room;
        let Ok(verdict) = verdict_of(border, link, &self.frame, room, &mut self.packet) else {
            return Err(End::Stopped(Status::OutOfMemory));
        };
        self.counts = counted(self.counts, &verdict);
        let number = self.counts.packets;
        match add_line(&mut self.report, number, &verdict, &self.room.wire, out) {
            Ok(()) => {}
            Err(fault) => return Err(End::Stopped(Status::after_write(fault))),
        }
        let output = task.output.as_str();
        match add_kept(depot, output, head, &verdict, &self.packet, &mut self.waits) {
            Ok(()) => Ok(()),
            Err(fault) => Err(End::Stopped(Status::after_write(fault))),
        }
    }

    /// Appends what waits for the output, and ends the report, as the end wants it.
    pub(crate) fn finish<D: Depot, S: Sink>(
        self,
        alloc: Global,
        output: &str,
        end: End,
        depot: &mut D,
        out: &mut S,
    ) -> Status
        requires { IsTrue (D.state depot.old).tells
            → IsSome ((D.state depot.old).held output.now) }
        ensures { IsEndedBy output.now end self.waits.items self.report.waiting.items
            self.counts (record { folder = D.state depot.old; stream = S.state out.old })
            (record { folder = D.state depot.new; stream = S.state out.new }) result }
    {
        let Crossing {
            mut waits,
            report,
            counts,
            ..
        } = self;
        match end {
            End::Whole => end_whole(counts, depot, output, &mut waits, report, out),
            End::Broken(fault) => end_broken(alloc, fault, depot, output, &mut waits, report, out),
            End::Full => end_crossed(
                depot,
                output,
                &mut waits,
                report,
                packets_limit(),
                Status::Limit,
                out,
            ),
            End::Unread => report.end(out, b"", Status::ReadFault),
            End::Stopped(status) => status,
        }
    }
}

/// Appends what waits for the output and ends it, and then ends the report.
fn end_crossed<D: Depot, S: Sink>(
    depot: &mut D,
    output: &str,
    waits: &mut Vec<u8>,
    report: Report,
    last: &[u8],
    due: Status,
    out: &mut S,
) -> Status
    requires { IsTrue (D.state depot.old).tells
        → IsSome ((D.state depot.old).held output.now) }
    ensures { IsEnded output.now waits.old.items report.waiting.items last.now due
        (record { folder = D.state depot.old; stream = S.state out.old })
        (record { folder = D.state depot.new; stream = S.state out.new }) result }
{
    match finish_capture(depot, output, waits) {
        Ok(()) => report.end(out, last, due),
        Err(fault) => Status::after_write(fault),
    }
}

/// Ends a capture that was read to its end.
fn end_whole<D: Depot, S: Sink>(
    counts: Counts,
    depot: &mut D,
    output: &str,
    waits: &mut Vec<u8>,
    report: Report,
    out: &mut S,
) -> Status
    requires { IsTrue (D.state depot.old).tells
        → IsSome ((D.state depot.old).held output.now) }
    ensures { IsEnded output.now waits.old.items (report.waiting.items
        ++ crossed_end_line counts.packets counts.passed counts.denied) [] Status.Done
        (record { folder = D.state depot.old; stream = S.state out.old })
        (record { folder = D.state depot.new; stream = S.state out.new }) result }
{
    let mut report = report;
    match write_end(counts, &mut report.waiting) {
        Ok(()) => end_crossed(depot, output, waits, report, b"", Status::Done, out),
        Err(OutOfMemory) => Status::OutOfMemory,
    }
}

/// Ends a capture that is broken behind its beginning.
fn end_broken<D: Depot, S: Sink>(
    alloc: Global,
    fault: CaptureFault,
    depot: &mut D,
    output: &str,
    waits: &mut Vec<u8>,
    report: Report,
    out: &mut S,
) -> Status
    requires { IsTrue (D.state depot.old).tells
        → IsSome ((D.state depot.old).held output.now) }
    ensures { IsEnded output.now waits.old.items report.waiting.items
        (capture_line 1 (Pcap fault)) Status.WrongCapture
        (record { folder = D.state depot.old; stream = S.state out.old })
        (record { folder = D.state depot.new; stream = S.state out.new }) result }
{
    let mut line = Vec::new(alloc);
    match write_capture(INPUT, FileFault::Pcap(fault), &mut line) {
        Ok(()) => end_crossed(
            depot,
            output,
            waits,
            report,
            &line,
            Status::WrongCapture,
            out,
        ),
        Err(OutOfMemory) => Status::OutOfMemory,
    }
}
