//! The judging of a report's lines.

ghost use Rattle.std.specs.Prelude.{◌≡◌, ◌<◌, ◌≤◌, ℕ, List, [], ◌∷◌, IsTrue, IfOk, length, map};
ghost use Rattle.net_io.specs.Depot.{octets_of};
ghost use Rattle.label_commands.specs.Sound.{IsSoundScript};
ghost use Rattle.call_report.specs.Event.{packets_limit};
ghost use Rattle.call_report.specs.Lines.Fixed.{done_line};
ghost use Rattle.call_report.specs.report_file.File.{KeepsPart};
ghost use Rattle.script_run.specs.Runs.{FlowsStatus};
ghost use Rattle.label_audit.specs.Audited.{IsAudited};
ghost use Rattle.label_audit.specs.Reads.{OnlyReadsAmong};
ghost use Rattle.label_audit.specs.inside.Grammar.{ScriptFrom};
ghost use Rattle.label_audit.specs.inside.Reading.{HasRead, StandsIn, IsExpected, IsJudgedTo, file_of};
ghost use Rattle.label_audit.specs.inside.Flow.{ended_awaited, inputs_of};

use crate::audited::Audited;
use crate::flow::{Judge, judge_flows, know_names};
use crate::place::{Place, differ, expect};
use crate::replies::{Replies, expect_replies};
use call_report::{ReportFile, done};
use label_commands::Script;
use net_io::{Depot, IoFault};
use std::alloc::Global;

/// Whether a run's last line stands at the place, which goes behind it then.
fn expect_done<D: Depot>(
    depot: &mut D,
    report: &mut ReportFile,
    at: &mut Place,
) -> Result<bool, IoFault>
    requires keeps { KeepsPart (D.state depot.old) report.old }
    requires stands { IsTrue (D.state depot.old).tells
        → StandsIn (file_of (D.state depot.old) report.old) at.old }
    ensures read { (names : List (List ℕ)) → HasRead names result report.old report.new
        (D.state depot.old) (D.state depot.new) }
    ensures expected { IfOk result (λ met. IsTrue (D.state depot.old).tells
        → IsExpected (file_of (D.state depot.old) report.old) done_line at.old at.new met) }
{
    expect(depot, report, at, done())
}

/// Whether all lines of a report stand at the place, which goes behind them then.
fn judge_lines<D: Depot>(
    alloc: Global,
    script: &Script,
    workers: usize,
    depot: &mut D,
    report: &mut ReportFile,
    at: &mut Place,
) -> Result<bool, IoFault>
    requires workers { (0 < workers) × (workers ≤ 16) }
    requires sound { (own : List ℕ) × IsSoundScript own script.now }
    requires keeps { KeepsPart (D.state depot.old) report.old }
    requires stands { IsTrue (D.state depot.old).tells
        → StandsIn (file_of (D.state depot.old) report.old) at.old }
    requires whole { IsTrue (D.state depot.old).tells
        → FlowsStatus (D.state depot.old).held 1 packets_limit script.now.flows 0 }
    ensures read { HasRead (inputs_of script.now) result report.old report.new
        (D.state depot.old) (D.state depot.new) }
    ensures judged { IfOk result (λ met. IsTrue (D.state depot.old).tells → IsJudgedTo
        (ScriptFrom script.now workers (D.state depot.old).held) ended_awaited
        (file_of (D.state depot.old) report.old) at.old at.new met) }
{
    know_names(script.nodes.as_slice());
    let mut replies = Replies::none(alloc, script)?;
    let upto = script.steps_above(0);
    if !expect_replies(depot, report, at, script, upto, &mut replies)? {
        return Ok(false);
    }
    let mut judge = Judge::new(alloc, script, workers)?;
    if !judge_flows(depot, report, at, script, &mut replies, &mut judge)? {
        return Ok(false);
    }
    expect_done(depot, report, at)
}

/// Whether a report is a whole one of a run of this script with so many workers, or the first of its lines that isn't good. All captures that
/// the script reads are whole. Nothing changes; `Failed` comes only where the count of failed reads of the report or of a capture rose.
pub fn judge_report<D: Depot>(
    alloc: Global,
    script: &Script,
    workers: usize,
    depot: &mut D,
    report: &mut ReportFile,
) -> Result<Audited, IoFault>
    requires workers { (0 < workers) × (workers ≤ 16) }
    requires sound { (own : List ℕ) × IsSoundScript own script.now }
    requires report { KeepsPart (D.state depot.old) report.old }
    requires short { IsTrue (D.state depot.old).tells
        → length (octets_of ((D.state depot.old).held report.old.name)) ≤ 268435456 }
    requires whole { IsTrue (D.state depot.old).tells
        → FlowsStatus (D.state depot.old).held 1 packets_limit script.now.flows 0 }
    ensures audited { IfOk result (λ audited. IsTrue (D.state depot.old).tells
        → IsAudited script.now workers (D.state depot.old).held
        (octets_of ((D.state depot.old).held report.old.name)) audited) }
    ensures frame { OnlyReadsAmong IoFault.Failed result
        (report.old.name ∷ map (λ flow. flow.input) script.now.flows)
        (D.state depot.old) (D.state depot.new) }
{
    let mut at = Place::front();
    if !judge_lines(alloc, script, workers, depot, report, &mut at)? {
        return Ok(Audited::NoLine { line: at.lines });
    }
    if report.is_longer(depot, at.at)? {
        differ(&mut at, 0);
        return Ok(Audited::NoLine { line: at.lines });
    }
    Ok(Audited::Yes)
}
