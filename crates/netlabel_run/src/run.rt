//! `run`: the flows of a script, each packet judged under tables that were published, while later commands change them.

ghost use Rattle.std.specs.Prelude.{◌≡◌, ◌<◌, ◌≤◌, ℕ, List, Some};
ghost use Rattle.call_report.specs.Outside.{Outside};
ghost use Rattle.label_commands.specs.declared.flow_lines.flow.FlowLine.{FlowLine};
ghost use Rattle.label_commands.specs.Sound.{IsSoundScript};
ghost use Rattle.script_run.specs.Ends.{ScriptEnds};
ghost use Rattle.call_report.specs.Status.{status_number};
ghost use Rattle.call_report.specs.declared.status.Status.{Status as Ending};
ghost use Rattle.netlabel_run.specs.declared.command.Command.TheVariants.{Run};
ghost use Rattle.call_report.specs.CallEnds.{CallEnds};
ghost use Rattle.netlabel_run.specs.Commands.{netlabel_says};

use crate::outcome::Outcome;
use call_report::{Status, script_of};
use label_commands::Script;
use label_flow::Gate;
use net_io::{Depot, OutOfMemory, Sink};
use script_run::run_script;
use std::alloc::Global;
use std::sync::Wait;
use std::thread::Threads;

/// Reads a script whole, and carries out its commands and flows in their order. Nothing is printed before the script is known to be
/// right. No flow makes the script's own file, nor an input of any flow, under another name of it.
pub(crate) fn run<D: Depot + Send, S: Sink + Send, G: Gate + Sync, R: Threads + Wait + Sync>(
    rt: &R,
    alloc: Global,
    file: &str,
    workers: usize,
    depot: &mut D,
    out: &mut S,
    gate: &G,
) -> Outcome
    requires { (0 < workers) × (workers ≤ 16) }
    ensures { CallEnds netlabel_says (Some (Run file.now workers))
        (record { folder = D.state depot.old; stream = S.state out.old })
        (record { folder = D.state depot.new; stream = S.state out.new })
        result.status result.seen }
{
    match script_of(alloc, file, depot, out) {
        Ok(script) => match protect_read(file, &script, depot) {
            Ok(()) => run_flows(rt, alloc, &script, workers, depot, out, gate),
            Err(OutOfMemory) => Outcome::without_flows(alloc, Status::OutOfMemory),
        },
        Err(status) => Outcome::without_flows(alloc, status),
    }
}

/// Protects what a script's call reads: its own file, and the input of each flow.
fn protect_read<D: Depot>(file: &str, script: &Script, depot: &mut D) -> Result<(), OutOfMemory>
    ensures { D.state depot.new ≡ D.state depot.old }
{
    depot.protect(file)?;
    for flow in script.flows.as_slice() {
        depot.protect(flow.input.text())?;
    }
    Ok(())
}

/// Carries out the commands and flows of a script.
fn run_flows<D: Depot + Send, S: Sink + Send, G: Gate + Sync, R: Threads + Wait + Sync>(
    rt: &R,
    alloc: Global,
    script: &Script,
    workers: usize,
    depot: &mut D,
    out: &mut S,
    gate: &G,
) -> Outcome
    requires workers { (0 < workers) × (workers ≤ 16) }
    requires sound { (own : List ℕ) × IsSoundScript own script.now }
    ensures { (status : Ending) × (result.status ≡ status_number status)
        × ScriptEnds script.now workers
        (record { folder = D.state depot.old; stream = S.state out.old })
        (record { folder = D.state depot.new; stream = S.state out.new }) result.seen status }
{
    let (seen, status) = run_script(rt, alloc, script, workers, depot, out, gate);
    Outcome {
        status: status.number(),
        seen,
    }
}
