//! `make`: a capture that is made from a number, judged while it is made.

ghost use Rattle.std.specs.Prelude.{◌≡◌, ◌≤◌, [], Some, IfOk};
ghost use Rattle.call_report.specs.CallEnds.{CallEnds};
ghost use Rattle.call_report.specs.Lines.Made.{made_line};
ghost use Rattle.call_report.specs.Outside.{Outside};
ghost use Rattle.call_report.specs.Status.{status_number};
ghost use Rattle.netlabel_run.specs.Commands.{netlabel_says};
ghost use Rattle.netlabel_run.specs.declared.command.Command.TheVariants.{Make};

use call_report::{Report, Status, write_made};
use label_flow::Gate;
use made_run::{MadeStop, Verdicts, make_capture};
use mls_label::OutOfMemory;
use net_io::{Depot, Sink};
use std::alloc::Global;
use std::sync::Wait;
use std::thread::Threads;

/// The capture of so many packets that is made from a number, and the name of its file.
#[derive(Clone, Copy, Debug)]
pub(crate) struct MadeFile<'a> {
    pub seed: u64,
    pub count: u32,
    pub name: &'a str,
}

/// Makes a capture and prints how many of its packets were delivered and denied.
pub(crate) fn make<D: Depot + Send, S: Sink, G: Gate + Sync, R: Threads + Wait + Sync>(
    rt: &R,
    alloc: Global,
    file: &MadeFile<'_>,
    depot: &mut D,
    out: &mut S,
    gate: &G,
) -> Status
    ensures { CallEnds netlabel_says (Some (Make file.now.seed file.now.count file.now.name.now))
        (record { folder = D.state depot.old; stream = S.state out.old })
        (record { folder = D.state depot.new; stream = S.state out.new })
        (status_number result) [] }
{
    match make_capture(rt, alloc, gate, file.seed, file.count, file.name, depot) {
        Ok(verdicts) => match verdicts_report(alloc, file.count, verdicts) {
            Ok(report) => report.end(out, b"", Status::Done),
            Err(OutOfMemory) => Status::OutOfMemory,
        },
        Err(MadeStop::Create) => Status::ReadFault,
        Err(MadeStop::Append) => Status::WriteFault,
        Err(MadeStop::OutOfMemory) => Status::OutOfMemory,
    }
}

/// The report that says what became of so many packets.
fn verdicts_report(alloc: Global, count: u32, verdicts: Verdicts) -> Result<Report, OutOfMemory>
    ensures { IfOk result (λ report. report.waiting.items
        ≡ made_line count verdicts.delivered verdicts.denied) }
{
    let mut report = Report::new(alloc);
    let Verdicts { delivered, denied } = verdicts;
    write_made(
        u64::from(count),
        u64::from(delivered),
        u64::from(denied),
        &mut report.waiting,
    )?;
    Ok(report)
}
