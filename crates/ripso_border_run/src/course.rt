//! What becomes of a frame: its line, and its packet in the capture that is made.

ghost use Rattle.std.specs.Prelude.{◌≡◌, ◌≤◌, ◌<◌, ◌^◌, length, IsTrue, IsSome, IfOk, OnOk};
ghost use Rattle.call_report.specs.Printing.{HandsOn};
ghost use Rattle.captures.specs.Output.{HasAppended};
ghost use Rattle.ripso_border_run.specs.Frames.{IsMadeOf};
ghost use Rattle.ripso_border_run.specs.inside.Course.{made_of, shown_of, kept_of, after_counting};

use crate::lines::{Counts, write_made};
use call_report::Report;
use captures::{CaptureFormat, add_frame};
use label_receive::Room;
use mls_label::{Label, OutOfMemory};
use net_io::{Depot, IoFault, Sink};
use packet_label::{Denial, Stop};
use pcap_frames::{FrameHead, ip_part};
use ripso_border::{Border, cross};

/// The output's frames: they are the same whatever its fractions of a second are.
const FRAMES: CaptureFormat = CaptureFormat::Pcap { nanos: false };

/// What becomes of the packet in a frame of this link type; `packet` becomes what is written.
pub(crate) fn verdict_of(
    border: &Border<'_>,
    link: u32,
    frame: &[u8],
    room: &mut Room,
    packet: &mut Vec<u8>,
) -> Result<Result<(), Denial>, OutOfMemory>
    requires { 0 < border.now.doi }
    ensures made { IfOk result (λ verdict.
        IsMadeOf border.now.way border.now.definition.now border.now.doi link frame.now
        (made_of verdict packet.new.items)) }
    ensures short { OnOk result (length packet.new.items ≤ 262144) }
{
    match cross(border, ip_part(link, frame), room, packet) {
        Ok(()) => Ok(Ok(())),
        Err(Stop::Denied(why)) => Ok(Err(why)),
        Err(Stop::OutOfMemory) => Err(OutOfMemory),
    }
}

/// Adds the line of a packet, and hands on what waits where that is a piece.
pub(crate) fn add_line<S: Sink>(
    report: &mut Report,
    number: u64,
    verdict: &Result<(), Denial>,
    label: &Label,
    out: &mut S,
) -> Result<(), IoFault>
    ensures { HandsOn (shown_of number verdict.now) report.old.waiting.items
        report.new.waiting.items result (S.state out.old) (S.state out.new) }
{
    match write_made(number, verdict, label, &mut report.waiting) {
        Ok(()) => report.pass(out),
        Err(OutOfMemory) => Err(IoFault::OutOfMemory),
    }
}

/// Adds the frame of a packet that was written.
pub(crate) fn add_kept<D: Depot>(
    depot: &mut D,
    output: &str,
    head: FrameHead,
    verdict: &Result<(), Denial>,
    packet: &[u8],
    waits: &mut Vec<u8>,
) -> Result<(), IoFault>
    requires there { IsTrue (D.state depot.old).tells
        → IsSome ((D.state depot.old).held output.now) }
    requires short { length packet.now ≤ 262144 }
    ensures { HasAppended result output.now (kept_of head verdict.now packet.now)
        waits.old.items waits.new.items (D.state depot.old) (D.state depot.new) }
{
    match verdict {
        Ok(()) => add_frame(depot, output, FRAMES, head, packet, waits),
        Err(_) => Ok(()),
    }
}

/// Counts a packet.
pub(crate) fn counted(counts: Counts, verdict: &Result<(), Denial>) -> Counts
    requires { (counts.packets < 2 ^ 32) × (counts.passed < 2 ^ 32) × (counts.denied < 2 ^ 32) }
    ensures { result ≡ after_counting counts verdict.now }
{
    let packets = counts.packets + 1;
    match verdict {
        Ok(()) => Counts {
            packets,
            passed: counts.passed + 1,
            denied: counts.denied,
        },
        Err(_) => Counts {
            packets,
            passed: counts.passed,
            denied: counts.denied + 1,
        },
    }
}
