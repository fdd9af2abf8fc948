//! `check`: what the commands of a script answer, each at its node, and how much the script has.

ghost use Rattle.std.specs.Prelude.{◌++◌, ◌<◌, [], Some, All, length};
ghost use Rattle.script_lines.specs.declared.command.Step.{Step as StepValue};
ghost use Rattle.netlabel_run.specs.declared.command.Command.TheVariants.{Check};
ghost use Rattle.call_report.specs.Lines.Script.{ok_line};
ghost use Rattle.netlabel_run.specs.Check.{check_text};
ghost use Rattle.call_report.specs.Outside.{Outside};
ghost use Rattle.call_report.specs.CallEnds.{CallEnds};
ghost use Rattle.netlabel_run.specs.Commands.{netlabel_says};
ghost use Rattle.call_report.specs.Status.{status_number};
ghost use Rattle.call_report.specs.Printing.{Printed};

use call_report::{Report, Status, script_of, write_ok};
use label_commands::Script;
use mls_label::OutOfMemory;
use net_io::{Depot, Sink};
use node_tables::Network;
use script_run::answer_steps;
use std::alloc::Global;

/// Reads a script whole, carries out all its commands and prints what they answer. Nothing is printed before the script is known
/// to be right.
pub(crate) fn check<D: Depot, S: Sink>(
    alloc: Global,
    file: &str,
    depot: &mut D,
    out: &mut S,
) -> Status
    ensures { CallEnds netlabel_says (Some (Check file.now))
        (record { folder = D.state depot.old; stream = S.state out.old })
        (record { folder = D.state depot.new; stream = S.state out.new })
        (status_number result) [] }
{
    match script_of(alloc, file, depot, out) {
        Ok(script) => print_script(alloc, &script, out),
        Err(status) => status,
    }
}

/// Prints what the commands of a script answer, and how much it has.
fn print_script<S: Sink>(alloc: Global, script: &Script, out: &mut S) -> Status
    requires { All (λ (step : StepValue). step.node < length script.now.nodes) script.now.steps }
    ensures { Printed (check_text script.now) [] Status.Done result
        (S.state out.old) (S.state out.new) }
{
    let names = script.nodes.as_slice();
    let mut network = match Network::fresh(alloc, names.len()) {
        Ok(network) => network,
        Err(OutOfMemory) => return Status::OutOfMemory,
    };
    let mut report = Report::new(alloc);
    let steps = script.steps.as_slice();
    match answer_steps(names, steps, 0, steps.len(), &mut network, &mut report, out) {
        Ok(()) => end_checked(script, report, out),
        Err(fault) => Status::after_write(fault),
    }
}

/// Ends the report of a script whose commands were all carried out, with how much it has.
fn end_checked<S: Sink>(script: &Script, report: Report, out: &mut S) -> Status
    ensures { Printed (report.waiting.items ++ ok_line
        (length script.now.nodes) (length script.now.steps) (length script.now.flows))
        [] Status.Done result (S.state out.old) (S.state out.new) }
{
    let mut report = report;
    let nodes = script.nodes.len();
    let steps = script.steps.as_slice().len();
    let flows = script.flows.as_slice().len();
    match write_ok(nodes, steps, flows, &mut report.waiting) {
        Ok(()) => report.end(out, b"", Status::Done),
        Err(OutOfMemory) => Status::OutOfMemory,
    }
}
