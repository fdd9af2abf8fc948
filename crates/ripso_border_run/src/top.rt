//! The one call that the program makes.

ghost use Rattle.std.specs.Prelude.{◌≡◌, ◌<◌, ℕ, List, [], Some, Ok, All, length, IsTrue};
ghost use Rattle.label_commands.specs.command_words.Words.{texts_of};
ghost use Rattle.call_report.specs.Outside.{Outside};
ghost use Rattle.call_report.specs.CallEnds.{CallEnds};
ghost use Rattle.call_report.specs.Printing.{Printed};
ghost use Rattle.call_report.specs.Status.{status_number};
ghost use Rattle.ripso_border_run.specs.Lines.{border_usage_line};
ghost use Rattle.ripso_border_run.specs.Outcome.{is_named_twice};
ghost use Rattle.ripso_border_run.specs.Says.{border_says};
ghost use Rattle.ripso_border_run.specs.Words.{border_asked};
ghost use Rattle.ripso_border_run.specs.inside.Course.{IsUnmoved};
ghost use Rattle.call_report.specs.script_input.ScriptFile.{script_read};
ghost use Rattle.script_lines.specs.declared.command.Step.{Step as StepValue};

use crate::definition::{first_definition, last_tables};
use crate::lines::{border_usage, name_twice, no_doi};
use crate::run::cross_capture;
use crate::task::{Task, read_task};
use call_report::{Report, Status, script_of};
use label_commands::Script;
use mls_label::OutOfMemory;
use net_io::{Depot, Sink};
use ripso_border::Border;
use std::alloc::Global;

/// Reads the capture that the words name, and makes another one of what becomes of its packets at a border: packets with option 130 become
/// packets with a CIPSO option, or the other way round, by the definition of a DOI that a script leaves at its first node. A line is printed
/// for each packet.
///
/// The words are those of the command line without the program's name. The status is 0 where the input was read to its end, 1 where the
/// words are no form, 2 where the script is wrong, names the output twice, or doesn't define the DOI, 3 where a read or the making of the
/// output failed, 4 where a write or an append failed, 5 where the input is no capture of libpcap's file format, 6 where memory ran out and
/// 7 where the script or the number of packets passes a limit. The clause says what each of them means, what is printed, what the output
/// holds and what is left as it was.
pub fn border<D: Depot, S: Sink>(alloc: Global, words: &[String], depot: &mut D, out: &mut S) -> u8
    ensures { CallEnds border_says (border_asked (texts_of words.now))
        (record { folder = D.state depot.old; stream = S.state out.old })
        (record { folder = D.state depot.new; stream = S.state out.new }) result [] }
{
    carry_out(alloc, read_task(words), depot, out).number()
}

/// Carries the task out, or prints the usage line.
fn carry_out<D: Depot, S: Sink>(
    alloc: Global,
    asked: Option<Task<'_>>,
    depot: &mut D,
    out: &mut S,
) -> Status
    ensures { CallEnds border_says asked.entry
        (record { folder = D.state depot.old; stream = S.state out.old })
        (record { folder = D.state depot.new; stream = S.state out.new })
        (status_number result) [] }
{
    match asked {
        Some(task) => read_and_cross(alloc, &task, depot, out),
        None => print_usage(alloc, out),
    }
}

/// Prints the forms of the command line.
fn print_usage<S: Sink>(alloc: Global, out: &mut S) -> Status
    ensures { Printed [] border_usage_line Status.NoForm result
        (S.state out.old) (S.state out.new) }
{
    Report::new(alloc).end(out, border_usage(), Status::NoForm)
}

/// Reads the script, and then the capture by what it defines.
fn read_and_cross<D: Depot, S: Sink>(
    alloc: Global,
    task: &Task<'_>,
    depot: &mut D,
    out: &mut S,
) -> Status
    ensures { CallEnds border_says (Some task.now)
        (record { folder = D.state depot.old; stream = S.state out.old })
        (record { folder = D.state depot.new; stream = S.state out.new })
        (status_number result) [] }
{
    match script_of(alloc, task.script.as_str(), depot, out) {
        Ok(script) => cross_by(alloc, task, &script, depot, out),
        Err(status) => status,
    }
}

/// Reads the capture by what a script defines.
fn cross_by<D: Depot, S: Sink>(
    alloc: Global,
    task: &Task<'_>,
    script: &Script,
    depot: &mut D,
    out: &mut S,
) -> Status
    requires { All (λ (step : StepValue). step.node < length script.now.nodes) script.now.steps }
    ensures { (before : Outside) (text : List ℕ)
        → (IsTrue before.folder.tells → before.folder.held task.now.script ≡ Some text)
        → script_read task.now.script text ≡ Ok script.now
        → IsUnmoved before.folder (D.state depot.old) → S.state out.old ≡ before.stream
        → CallEnds border_says (Some task.now) before
        (record { folder = D.state depot.new; stream = S.state out.new })
        (status_number result) [] }
{
    let twice = is_named_twice(task);
    if twice {
        return Report::new(alloc).end(out, name_twice(), Status::WrongScript);
    }
    let network = match last_tables(alloc, script) {
        Ok(network) => network,
        Err(OutOfMemory) => return Status::OutOfMemory,
    };
    let doi = task.doi.doi().get();
    let definition = match first_definition(&network, doi) {
        Some(definition) => definition,
        None => return Report::new(alloc).end(out, no_doi(), Status::WrongScript),
    };
    let border = Border {
        way: task.way,
        doi,
        definition,
    };
    match protect_read(task, depot) {
        Ok(()) => cross_capture(alloc, &border, task, depot, out),
        Err(OutOfMemory) => Status::OutOfMemory,
    }
}

/// Protects what a call reads: the output can't be the script or the input by another name.
fn protect_read<D: Depot>(task: &Task<'_>, depot: &mut D) -> Result<(), OutOfMemory>
    ensures { D.state depot.new ≡ D.state depot.old }
{
    depot.protect(task.script.as_str())?;
    depot.protect(task.input.as_str())
}

/// Whether the output is the script or the input.
fn is_named_twice(task: &Task<'_>) -> bool
    ensures { result ≡ is_named_twice task.now }
{
    let output = task.output.as_str();
    output == task.script.as_str() || output == task.input.as_str()
}
