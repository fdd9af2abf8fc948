//! The one call that the program makes.

ghost use Rattle.std.specs.Prelude.{◌≡◌, ◌++◌, [], Some, OnOk};
ghost use Rattle.label_commands.specs.command_words.Words.{texts_of};
ghost use Rattle.call_report.specs.CallEnds.{CallEnds};
ghost use Rattle.call_report.specs.Outside.{Outside};
ghost use Rattle.call_report.specs.Printing.{Printed};
ghost use Rattle.call_report.specs.Status.{status_number};
ghost use Rattle.netlabel_report.specs.report_telling.Taking.{no_report_text};
ghost use Rattle.netlabel_report.specs.Names.{reports_named};
ghost use Rattle.netlabel_report.specs.Asked.{question_asked, report_usage_line};
ghost use Rattle.netlabel_report.specs.Says.{opening_text, closing_text, told_course, start_standing, is_amiss, report_says};
ghost use Rattle.netlabel_report.specs.inside.Telling.{HasCommands, Tells, AreRead, IsAnswerEnd, answer_number};

use crate::desk::{Desk, TellStop};
use crate::question::{ReportQuestion, read_question, report_usage};
use crate::report_telling::{
    Commands, Manner, Progress, Tallies, Way, heading, write_fault, write_summary,
};
use crate::reports::tell_reports;
use crate::script::commands_of;
use call_report::{Report, Status};
use mls_label::OutOfMemory;
use net_io::{Depot, Sink};
use std::alloc::Global;

/// The status where memory ran out before anything was read.
const OUT_OF_MEMORY: u8 = 6;

/// The status where it is to be told that something is amiss, and something is.
const AMISS: u8 = 8;

/// Reads the reports that the words name, each line by line, and tells them: added up, the denied packets alone, or as records of JSON or CSV. Where the
/// words name a script it is read first, and each command is told with its line there.
///
/// The words are those of the command line without the program's name. The status is 0 where all reports were read to their ends, 1 where the
/// words are no form, 2 where the script is wrong or a text is no report, 3 where a read failed, 4 where a write failed, 6 where memory ran out, 7 where the
/// script passes a limit, and 8, with the word `-e`, where a command was refused, a packet denied, or a report has no good end. The clause says what
/// each of them means, what is printed and what is left as it was.
pub fn report<D: Depot, S: Sink>(alloc: Global, words: &[String], depot: &mut D, out: &mut S) -> u8
    ensures { CallEnds report_says (question_asked (texts_of words.now))
        (record { folder = D.state depot.old; stream = S.state out.old })
        (record { folder = D.state depot.new; stream = S.state out.new }) result [] }
{
    match read_question(words) {
        Some(asked) => answer(alloc, &asked, depot, out),
        None => print_usage(alloc, out).number(),
    }
}

/// Prints the forms of the command line.
fn print_usage<S: Sink>(alloc: Global, out: &mut S) -> Status
    ensures { Printed [] report_usage_line Status.NoForm result (S.state out.old)
        (S.state out.new) }
{
    Report::new(alloc).end(out, report_usage(), Status::NoForm)
}

/// Tells the reports that are asked for, by their script where one is named.
fn answer<D: Depot, S: Sink>(
    alloc: Global,
    asked: &ReportQuestion<'_>,
    depot: &mut D,
    out: &mut S,
) -> u8
    ensures { CallEnds report_says (Some asked.now)
        (record { folder = D.state depot.old; stream = S.state out.old })
        (record { folder = D.state depot.new; stream = S.state out.new }) result [] }
{
    match &asked.script {
        None => answer_by(alloc, asked, Commands::unknown(), depot, out),
        Some(script) => answer_scripted(alloc, asked, script.as_str(), depot, out),
    }
}

/// Reads this script, and then tells them.
fn answer_scripted<D: Depot, S: Sink>(
    alloc: Global,
    asked: &ReportQuestion<'_>,
    script: &str,
    depot: &mut D,
    out: &mut S,
) -> u8
    requires { asked.now.script ≡ Some script.now }
    ensures { CallEnds report_says (Some asked.now)
        (record { folder = D.state depot.old; stream = S.state out.old })
        (record { folder = D.state depot.new; stream = S.state out.new }) result [] }
{
    match commands_of(alloc, script, depot, out) {
        Ok(commands) => answer_by(alloc, asked, commands, depot, out),
        Err(status) => status.number(),
    }
}

/// Tells them by these commands, which were read.
fn answer_by<D: Depot, S: Sink>(
    alloc: Global,
    asked: &ReportQuestion<'_>,
    commands: Commands,
    depot: &mut D,
    out: &mut S,
) -> u8
    ensures { (before : Outside) → HasCommands asked.now.script before
        (record { folder = D.state depot.old; stream = S.state out.old }) commands
        → CallEnds report_says (Some asked.now) before
        (record { folder = D.state depot.new; stream = S.state out.new }) result [] }
{
    let Ok(mut desk) = Desk::new(alloc) else {
        return OUT_OF_MEMORY;
    };
    let manner = Manner {
        way: asked.way,
        commands,
    };
    let mut report = Report::new(alloc);
    let told = tell_all(
        &manner,
        asked.names.words,
        &mut desk,
        &mut report,
        depot,
        out,
    );
    end_answer(alloc, asked, told, &desk, report, out)
}

/// Tells all reports, and in front of them the names of the columns.
fn tell_all<D: Depot, S: Sink>(
    manner: &Manner,
    names: &[String],
    desk: &mut Desk,
    report: &mut Report,
    depot: &mut D,
    out: &mut S,
) -> Result<(), TellStop>
    requires progress { record { progress = desk.old.progress; tallies = desk.old.tallies }
        ≡ start_standing }
    ensures told { Tells (D.state depot.old).tells
        (told_course manner.now (D.state depot.old).held (reports_named (texts_of names.now)))
        (record { progress = desk.new.progress; tallies = desk.new.tallies })
        report.old.waiting.items report.new.waiting.items result (S.state out.old)
        (S.state out.new) }
    ensures frame { AreRead (reports_named (texts_of names.now)) result (D.state depot.old)
        (D.state depot.new) }
{
    write_opening(manner.way, &mut report.waiting)?;
    tell_reports(manner, names, desk, report, depot, out)
}

/// Appends what stands in front of all reports.
fn write_opening(way: Way, out: &mut Vec<u8>) -> Result<(), OutOfMemory>
    ensures { OnOk result (out.new.items ≡ out.old.items ++ opening_text way) }
{
    match way {
        Way::Csv => {
            out.extend_from_slice(heading())?;
            Ok(())
        }
        Way::Summary | Way::Denied | Way::Json => Ok(()),
    }
}

/// Ends the report of reports that were told so, and tells how the call ends.
fn end_answer<S: Sink>(
    alloc: Global,
    asked: &ReportQuestion<'_>,
    told: Result<(), TellStop>,
    desk: &Desk,
    report: Report,
    out: &mut S,
) -> u8
    ensures { IsAnswerEnd asked.now told
        (record { progress = desk.now.progress; tallies = desk.now.tallies })
        report.waiting.items result (S.state out.old) (S.state out.new) }
{
    match told {
        Ok(()) => {
            let status = end_whole(asked.way, &desk.progress, &desk.tallies, report, out);
            answer_number(asked.tells && is_amiss(&desk.progress), status)
        }
        Err(TellStop::NoReport { octet }) => {
            end_refused(alloc, &desk.progress, octet, report, out).number()
        }
        Err(TellStop::ReadFault) => report.end(out, b"", Status::ReadFault).number(),
        Err(TellStop::Unwritten { fault }) => Status::after_write(fault).number(),
        Err(TellStop::OutOfMemory) => Status::OutOfMemory.number(),
    }
}

/// Ends the report of reports that were read to their ends, with what was added up.
fn end_whole<S: Sink>(
    way: Way,
    progress: &Progress,
    tallies: &Tallies,
    report: Report,
    out: &mut S,
) -> Status
    ensures { Printed (report.waiting.items
        ++ closing_text way (record { progress = progress.now; tallies = tallies.now })) []
        Status.Done result (S.state out.old) (S.state out.new) }
{
    let mut report = report;
    match write_closing(way, progress, tallies, &mut report.waiting) {
        Ok(()) => report.end(out, b"", Status::Done),
        Err(OutOfMemory) => Status::OutOfMemory,
    }
}

/// Appends what stands behind all reports.
fn write_closing(
    way: Way,
    progress: &Progress,
    tallies: &Tallies,
    out: &mut Vec<u8>,
) -> Result<(), OutOfMemory>
    ensures { OnOk result (out.new.items ≡ out.old.items
        ++ closing_text way (record { progress = progress.now; tallies = tallies.now })) }
{
    match way {
        Way::Summary => write_summary(progress, tallies, out),
        Way::Denied | Way::Json | Way::Csv => Ok(()),
    }
}

/// Whether a command was refused, a packet denied, or a report has no good end.
fn is_amiss(progress: &Progress) -> bool
    ensures { result ≡ is_amiss progress.now }
{
    !(progress.refused == 0
        && progress.denied == 0
        && progress.stopped == 0
        && progress.unfinished == 0)
}

/// The number of a status, but another where something is amiss and that is to be told.
fn answer_number(tells: bool, status: Status) -> u8
    ensures { result ≡ answer_number tells status }
{
    match status {
        Status::Done => { if tells { AMISS } else { status.number() } }
        _ => status.number(),
    }
}

/// Ends the report of a text that is none, with the line that tells where.
fn end_refused<S: Sink>(
    alloc: Global,
    progress: &Progress,
    octet: usize,
    report: Report,
    out: &mut S,
) -> Status
    ensures { Printed report.waiting.items (no_report_text progress.now octet) Status.WrongScript
        result (S.state out.old) (S.state out.new) }
{
    let mut line = Vec::new(alloc);
    match write_fault(progress, octet, &mut line) {
        Ok(()) => report.end(out, &line, Status::WrongScript),
        Err(OutOfMemory) => Status::OutOfMemory,
    }
}
