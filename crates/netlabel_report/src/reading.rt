//! One report, from its first line to its end.

ghost use Rattle.std.specs.Prelude.{◌≡◌, ◌+◌, ◌<◌, ◌^◌, IsTrue, length};
ghost use Rattle.net_io.specs.Depot.{OnlyReads};
ghost use Rattle.netlabel_report.specs.Course.{report_course};
ghost use Rattle.netlabel_report.specs.inside.Telling.{Tells, read_stop};

use crate::desk::{Desk, TellStop, take_end, take_line};
use crate::lines::{NextLine, next_line};
use crate::report_telling::Manner;
use call_report::Report;
use net_io::{Depot, IoFault, Sink};

/// Tells a report, line by line.
pub(crate) fn tell_report<D: Depot, S: Sink>(
    manner: &Manner,
    name: &str,
    desk: &mut Desk,
    report: &mut Report,
    depot: &mut D,
    out: &mut S,
) -> Result<(), TellStop>
    ensures told { Tells (D.state depot.old).tells
        (report_course manner.now ((D.state depot.old).held name.now)
        (record { progress = desk.old.progress; tallies = desk.old.tallies }))
        (record { progress = desk.new.progress; tallies = desk.new.tallies })
        report.old.waiting.items report.new.waiting.items result (S.state out.old)
        (S.state out.new) }
    ensures frame { OnlyReads TellStop.ReadFault result name.now (D.state depot.old)
        (D.state depot.new) }
{
    let mut place: u64 = 0;
    match desk.window.fill(depot, name, place) {
        Ok(()) => {}
        Err(fault) => return Err(read_stop(fault)),
    }
    loop {
        match next_line(depot, name, &mut place, &mut desk.window, &mut desk.line) {
            Ok(NextLine::Line) => take_line(manner, desk, report, out)?,
            Ok(NextLine::End) => return take_end(manner, desk, report, out),
            Ok(NextLine::Broken { octet }) => return Err(TellStop::NoReport { octet }),
            Err(fault) => return Err(read_stop(fault)),
        }
    }
}

/// Why a read gave nothing.
fn read_stop(fault: IoFault) -> TellStop
    ensures { result ≡ read_stop fault }
{
    match fault {
        IoFault::Failed => TellStop::ReadFault,
        IoFault::OutOfMemory => TellStop::OutOfMemory,
    }
}
