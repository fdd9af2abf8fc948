//! Printed lines.

ghost use Rattle.std.specs.Prelude.{◌≡◌, ◌++◌, OnOk};
ghost use Rattle.netlabel_audit.specs.Lines.{yes_line, no_line, report_limit_line, audit_usage_line};
ghost use Rattle.netlabel_audit.specs.inside.Finding.{verdict_line};

use label_audit::Audited;
use mls_label::{OutOfMemory, write_decimal};

/// Appends what a report comes to; some of it where memory runs out.
pub(crate) fn write_verdict(verdict: Audited, line: &mut Vec<u8>) -> Result<(), OutOfMemory>
    ensures { OnOk result (line.new.items ≡ line.old.items ++ verdict_line verdict) }
{
    match verdict {
        Audited::Yes => Ok(line.extend_from_slice(yes())?),
        Audited::NoLine { line: number } => append_no(number, line),
    }
}

/// The report is one that a run may print.
#[tactic(auto, unfolding(crate::specs::Lines::yes_line))]
fn yes() -> &'static [u8]
    ensures { result.now ≡ yes_line }
{
    b"yes\n"
}

/// Appends which line is the first that no run prints there.
#[tactic(auto, unfolding(crate::specs::Lines::no_line))]
fn append_no(number: u64, line: &mut Vec<u8>) -> Result<(), OutOfMemory>
    ensures { OnOk result (line.new.items ≡ line.old.items ++ no_line number) }
{
    line.extend_from_slice(b"no line ")?;
    write_decimal(number, line)?;
    line.push(b'\n')?;
    Ok(())
}

/// The report is longer than an audit reads.
#[tactic(auto, unfolding(crate::specs::Lines::report_limit_line))]
pub(crate) fn report_limit() -> &'static [u8]
    ensures { result.now ≡ report_limit_line }
{
    b"limit report 268435456\n"
}

/// The form of the command line.
#[tactic(auto, unfolding(crate::specs::Lines::audit_usage_line))]
pub(crate) fn audit_usage() -> &'static [u8]
    ensures { result.now ≡ audit_usage_line }
{
    b"usage: netlabel_audit <script> <report> <n>\n"
}
