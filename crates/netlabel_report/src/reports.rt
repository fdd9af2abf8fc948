//! Report for report.

ghost use Rattle.std.specs.Prelude.{◌≡◌};
ghost use Rattle.label_commands.specs.command_words.Words.{texts_of};
ghost use Rattle.netlabel_report.specs.Names.{reports_named};
ghost use Rattle.netlabel_report.specs.Course.{reports_course};
ghost use Rattle.netlabel_report.specs.inside.Telling.{Tells, AreRead};

use crate::desk::{Desk, TellStop};
use crate::reading::tell_report;
use crate::report_telling::Manner;
use call_report::Report;
use net_io::{Depot, Sink};

/// The name that the system gives the standard input.
const STANDARD_INPUT: &str = "/dev/stdin";

/// Tells the reports of these names, or the one that comes through the standard input where there is no name.
pub(crate) fn tell_reports<D: Depot, S: Sink>(
    manner: &Manner,
    names: &[String],
    desk: &mut Desk,
    report: &mut Report,
    depot: &mut D,
    out: &mut S,
) -> Result<(), TellStop>
    ensures told { Tells (D.state depot.old).tells
        (reports_course manner.now (D.state depot.old).held (reports_named (texts_of names.now))
        (record { progress = desk.old.progress; tallies = desk.old.tallies }))
        (record { progress = desk.new.progress; tallies = desk.new.tallies })
        report.old.waiting.items report.new.waiting.items result (S.state out.old)
        (S.state out.new) }
    ensures frame { AreRead (reports_named (texts_of names.now)) result (D.state depot.old)
        (D.state depot.new) }
{
    if names.is_empty() {
        return tell_report(manner, STANDARD_INPUT, desk, report, depot, out);
    }
    tell_each(manner, names, desk, report, depot, out)
}

/// The same of names.
fn tell_each<D: Depot, S: Sink>(
    manner: &Manner,
    names: &[String],
    desk: &mut Desk,
    report: &mut Report,
    depot: &mut D,
    out: &mut S,
) -> Result<(), TellStop>
    ensures told { Tells (D.state depot.old).tells
        (reports_course manner.now (D.state depot.old).held (texts_of names.now)
        (record { progress = desk.old.progress; tallies = desk.old.tallies }))
        (record { progress = desk.new.progress; tallies = desk.new.tallies })
        report.old.waiting.items report.new.waiting.items result (S.state out.old)
        (S.state out.new) }
    ensures frame { AreRead (texts_of names.now) result (D.state depot.old)
        (D.state depot.new) }
{
    let mut rest = names;
    while let [name, others @ ..] = rest {
        tell_report(manner, name, desk, report, depot, out)?;
        rest = others;
    }
    Ok(())
}
