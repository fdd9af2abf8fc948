//! What is found of a report: the tests that come in front of its lines, and what its lines come to.

ghost use Rattle.std.specs.Prelude.{◌≡◌, ◌<◌, ◌≤◌, ℕ, List, IsTrue, Some, Ok, IfErr};
ghost use Rattle.label_commands.specs.Sound.{IsSoundScript};
ghost use Rattle.call_report.specs.Event.{Event};
ghost use Rattle.label_audit.specs.Reads.{OnlyReadsAmong};
ghost use Rattle.netlabel_audit.specs.Says.{AuditMay, audit_files};
ghost use Rattle.netlabel_audit.specs.inside.Finding.{IsFound, event_of};

use crate::asked::Audit;
use crate::inputs::read_inputs;
use crate::stop::AuditStop;
use call_report::ReportFile;
use label_audit::{Audited, judge_report};
use label_commands::Script;
use net_io::Depot;
use std::alloc::Global;

/// The most octets of a report.
const REPORT_LIMIT: u64 = 268_435_456;

/// Tests the report's length and then each capture of a script to its end, and judges the report's lines.
pub(crate) fn find_verdict<D: Depot>(
    alloc: Global,
    asked: &Audit<'_>,
    script: &Script,
    depot: &mut D,
) -> Result<Audited, AuditStop>
    requires workers { (0 < asked.now.workers) × (asked.now.workers ≤ 16) }
    requires sound { (own : List ℕ) × IsSoundScript own script.now }
    ensures found { IsTrue (D.state depot.old).tells
        → IsFound asked.now script.now (D.state depot.old).held result }
    ensures may { IfErr result (λ why. (event : Event) → event_of why ≡ Some event
        → AuditMay (Ok script.now) event.status) }
    ensures frame { OnlyReadsAmong AuditStop.Unread result (audit_files asked.now script.now)
        (D.state depot.old) (D.state depot.new) }
{
    let mut report = ReportFile::new(alloc, asked.report.as_str())?;
    if report.is_longer(depot, REPORT_LIMIT)? {
        return Err(AuditStop::LongReport);
    }
    read_inputs(alloc, script.flows.as_slice(), depot)?;
    let verdict = judge_report(alloc, script, asked.workers, depot, &mut report)?;
    Ok(verdict)
}
