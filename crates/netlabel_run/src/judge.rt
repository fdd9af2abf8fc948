//! `judge`: one raw packet from a file, received by a receiver of a level whose node knows one DOI alone.

ghost use Rattle.std.specs.Prelude.{◌≡◌, ◌≤◌, ◌^◌, [], Some, IfOk};
ghost use Rattle.netlabel_run.specs.declared.command.Command.TheVariants.{Judge};
ghost use Rattle.netlabel_run.specs.Judge.{IsVerdict};
ghost use Rattle.call_report.specs.Lines.Denial.{Verdict, verdict_line};
ghost use Rattle.call_report.specs.Outside.{Outside};
ghost use Rattle.call_report.specs.CallEnds.{CallEnds};
ghost use Rattle.netlabel_run.specs.Commands.{netlabel_says};
ghost use Rattle.call_report.specs.Status.{status_number};

use crate::verdict::judge_packet;
use call_report::{Report, Status, packet_limit, write_verdict};
use label_receive::Room;
use mls_label::{Label, OutOfMemory};
use net_io::{Depot, Sink, WholeFault, read_whole};
use script_lines::Doi;
use std::alloc::Global;

/// The most octets of a file that is judged: no packet is longer.
const PACKET_LIMIT: usize = 65575;

/// Judges the packet in a file and prints the verdict.
pub(crate) fn judge<D: Depot, S: Sink>(
    alloc: Global,
    doi: Doi,
    level: &Label,
    file: &str,
    depot: &mut D,
    out: &mut S,
) -> Status
    ensures { CallEnds netlabel_says (Some (Judge doi level.now file.now))
        (record { folder = D.state depot.old; stream = S.state out.old })
        (record { folder = D.state depot.new; stream = S.state out.new })
        (status_number result) [] }
{
    let octets = match read_whole(alloc, depot, file, PACKET_LIMIT) {
        Ok(octets) => octets,
        Err(WholeFault::TooLong) => return Report::new(alloc).end(
            out,
            packet_limit(),
            Status::Limit,
        ),
        Err(WholeFault::Failed) => return Status::ReadFault,
        Err(WholeFault::OutOfMemory) => return Status::OutOfMemory,
    };
    match verdict_report(alloc, doi, level, &octets) {
        Ok(report) => report.end(out, b"", Status::Done),
        Err(OutOfMemory) => Status::OutOfMemory,
    }
}

/// The report that says whether a receiver of this level may have the packet, and why not.
fn verdict_report(
    alloc: Global,
    doi: Doi,
    level: &Label,
    octets: &[u8],
) -> Result<Report, OutOfMemory>
    ensures { IfOk result (λ report. (verdict : Verdict)
        × IsVerdict doi level.now octets.now verdict
        × (report.waiting.items ≡ verdict_line verdict)) }
{
    let mut room = Room::lowest();
    let verdict = judge_packet(alloc, doi, level, octets, &mut room)?;
    let mut report = Report::new(alloc);
    write_verdict(&verdict, &room.local, &mut report.waiting)?;
    Ok(report)
}
