//! The one call that the program makes.

ghost use Rattle.std.specs.Prelude.{◌≡◌, ◌<◌, ◌≤◌, ℕ, List, [], Some, IfSome};
ghost use Rattle.label_commands.specs.command_words.Words.{texts_of};
ghost use Rattle.label_commands.specs.Sound.{IsSoundScript};
ghost use Rattle.call_report.specs.Outside.{Outside};
ghost use Rattle.call_report.specs.CallEnds.{CallEnds};
ghost use Rattle.call_report.specs.Printing.{Printed};
ghost use Rattle.call_report.specs.Status.{status_number};
ghost use Rattle.call_report.specs.script_input.Ends.{HasScript};
ghost use Rattle.netlabel_audit.specs.Lines.{audit_usage_line};
ghost use Rattle.netlabel_audit.specs.Says.{audit_says};
ghost use Rattle.netlabel_audit.specs.Words.{audit_asked};

use crate::asked::{Audit, read_audit};
use crate::find::find_verdict;
use crate::lines::audit_usage;
use crate::tell::tell;
use call_report::{Report, Status, script_of};
use label_commands::Script;
use net_io::{Depot, Sink};
use std::alloc::Global;

/// Reads the script and the report that the words name, and the capture of each flow of the script, and tells whether a run of the script by
/// so many workers may have printed the report, or which line is the first that none prints there. Nothing of the folder changes, and the
/// outputs of the run aren't looked at.
///
/// The words are those of the command line without the program's name. The status is 0 where the report is one that a run may print, 8 where
/// it isn't, 1 where the words are no form, 2 where the script is wrong, 3 where a read failed, 4 where a write failed, 5 where a capture is
/// wrong, 6 where memory ran out and 7 where the script, the report or the number of packets passes a limit. The clause says what each of them
/// means, what is printed and what is left as it was.
pub fn audit<D: Depot, S: Sink>(alloc: Global, words: &[String], depot: &mut D, out: &mut S) -> u8
    ensures { CallEnds audit_says (audit_asked (texts_of words.now))
        (record { folder = D.state depot.old; stream = S.state out.old })
        (record { folder = D.state depot.new; stream = S.state out.new }) result [] }
{
    carry_out(alloc, read_audit(words), depot, out)
}

/// Judges the report, or prints the usage line.
fn carry_out<D: Depot, S: Sink>(
    alloc: Global,
    asked: Option<Audit<'_>>,
    depot: &mut D,
    out: &mut S,
) -> u8
    requires { IfSome asked (λ a. (0 < a.workers) × (a.workers ≤ 16)) }
    ensures { CallEnds audit_says asked.entry
        (record { folder = D.state depot.old; stream = S.state out.old })
        (record { folder = D.state depot.new; stream = S.state out.new }) result [] }
{
    match asked {
        Some(asked) => read_and_judge(alloc, &asked, depot, out),
        None => print_usage(alloc, out).number(),
    }
}

/// Prints the form of the command line.
fn print_usage<S: Sink>(alloc: Global, out: &mut S) -> Status
    ensures { Printed [] audit_usage_line Status.NoForm result (S.state out.old) (S.state out.new) }
{
    Report::new(alloc).end(out, audit_usage(), Status::NoForm)
}

/// Reads the script, and then judges the report by it.
fn read_and_judge<D: Depot, S: Sink>(
    alloc: Global,
    asked: &Audit<'_>,
    depot: &mut D,
    out: &mut S,
) -> u8
    requires { (0 < asked.now.workers) × (asked.now.workers ≤ 16) }
    ensures { CallEnds audit_says (Some asked.now)
        (record { folder = D.state depot.old; stream = S.state out.old })
        (record { folder = D.state depot.new; stream = S.state out.new }) result [] }
{
    match script_of(alloc, asked.script.as_str(), depot, out) {
        Ok(script) => judge_by(alloc, asked, &script, depot, out),
        Err(status) => status.number(),
    }
}

/// Judges the report by a script that was read.
fn judge_by<D: Depot, S: Sink>(
    alloc: Global,
    asked: &Audit<'_>,
    script: &Script,
    depot: &mut D,
    out: &mut S,
) -> u8
    requires workers { (0 < asked.now.workers) × (asked.now.workers ≤ 16) }
    requires sound { (own : List ℕ) × IsSoundScript own script.now }
    ensures { (before : Outside) → HasScript asked.now.script before
        (record { folder = D.state depot.old; stream = S.state out.old }) script.now
        → CallEnds audit_says (Some asked.now) before
        (record { folder = D.state depot.new; stream = S.state out.new }) result [] }
{
    let found = find_verdict(alloc, asked, script, depot);
    tell(alloc, found, out)
}
