//! The one call that the program makes.

ghost use Rattle.std.specs.Prelude.{◌≡◌, ℕ, [], List, Option};
ghost use Rattle.netlabel_run.specs.declared.command.Command.{Command as Asked};
ghost use Rattle.label_commands.specs.command_words.Words.{texts_of};
ghost use Rattle.netlabel_run.specs.Words.{IsAsked};
ghost use Rattle.call_report.specs.Outside.{Outside};
ghost use Rattle.call_report.specs.Lines.Fixed.{usage_line};
ghost use Rattle.call_report.specs.CallEnds.{CallEnds};
ghost use Rattle.netlabel_run.specs.Commands.{netlabel_says};
ghost use Rattle.call_report.specs.Printing.{Printed};

use crate::agree::agree;
use crate::check::check;
use crate::command::Command;
use crate::judge::judge;
use crate::make::{MadeFile, make};
use crate::outcome::Outcome;
use crate::run::run;
use crate::show::show;
use crate::words::read_words;
use call_report::{Report, Status, usage};
use label_flow::Gate;
use mls_label::Label;
use net_io::{Depot, Sink};
use std::alloc::Global;
use std::sync::Wait;
use std::thread::Threads;

/// Carries out what the words ask for, over a folder of named files, and prints to a stream out.
///
/// The words are those of the command line without the program's name. The status is 0 where the command was carried
/// out, 1 where the words are none of its forms, 2 where a script is wrong, or hasn't the flow
/// or the versions that the words name, 3 where a read or the making of a file
/// failed, 4 where a write or an append failed, 5 where a capture is wrong, 6 where memory ran out and 7 where a limit
/// is passed; the first of these events decides, but that memory may run out while what stands in front of a failed read
/// or making is printed. The clause says what each of them means, what is printed and what is left as it was. The gate is
/// called before each look of a worker and round each step of the publisher; it has no say on results.
pub fn netlabel<D: Depot + Send, S: Sink + Send, G: Gate + Sync, R: Threads + Wait + Sync>(
    rt: &R,
    alloc: Global,
    words: &[String],
    depot: &mut D,
    out: &mut S,
    gate: &G,
) -> Outcome
    ensures { (asked : Option Asked) × IsAsked (texts_of words.now) asked
        × CallEnds netlabel_says asked
        (record { folder = D.state depot.old; stream = S.state out.old })
        (record { folder = D.state depot.new; stream = S.state out.new })
        result.status result.seen }
{
    let mut label = Label::lowest();
    carry_out(rt, alloc, read_words(words, &mut label), depot, out, gate)
}

/// Carries out what was asked for: a command, or the usage line.
fn carry_out<D: Depot + Send, S: Sink + Send, G: Gate + Sync, R: Threads + Wait + Sync>(
    rt: &R,
    alloc: Global,
    asked: Option<Command<'_>>,
    depot: &mut D,
    out: &mut S,
    gate: &G,
) -> Outcome
    ensures { CallEnds netlabel_says asked.entry
        (record { folder = D.state depot.old; stream = S.state out.old })
        (record { folder = D.state depot.new; stream = S.state out.new })
        result.status result.seen }
{
    match asked {
        Some(Command::Judge { doi, level, file }) => Outcome::without_flows(
            alloc,
            judge(alloc, doi.doi(), level.label(), file.as_str(), depot, out),
        ),
        Some(Command::Check { file }) => {
            Outcome::without_flows(alloc, check(alloc, file.as_str(), depot, out))
        }
        Some(Command::Show { file }) => {
            Outcome::without_flows(alloc, show(alloc, file.as_str(), depot, out))
        }
        Some(
            Command::Agree {
                file,
                flow,
                versions,
            },
        ) => Outcome::without_flows(
            alloc,
            agree(alloc, file.as_str(), flow, &versions, depot, out),
        ),
        Some(Command::Make { seed, count, file }) => {
            let file = MadeFile {
                seed,
                count,
                name: file.as_str(),
            };
            Outcome::without_flows(alloc, make(rt, alloc, &file, depot, out, gate))
        }
        Some(Command::Run { file, workers }) => {
            run(rt, alloc, file.as_str(), workers.number(), depot, out, gate)
        }
        None => Outcome::without_flows(alloc, print_usage(alloc, out)),
    }
}

/// Prints the forms of the command line.
fn print_usage<S: Sink>(alloc: Global, out: &mut S) -> Status
    ensures { Printed [] usage_line Status.NoForm result (S.state out.old) (S.state out.new) }
{
    Report::new(alloc).end(out, usage(), Status::NoForm)
}
