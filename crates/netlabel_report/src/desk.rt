//! What is kept from line to line, and what becomes of one.

ghost use Rattle.std.specs.Prelude.{◌≡◌, ◌++◌, [], IfOk};
ghost use Rattle.call_report.specs.Printing.{HandsOn};
ghost use Rattle.netlabel_report.specs.report_telling.Counts.{risen, start_progress};
ghost use Rattle.netlabel_report.specs.report_telling.Taking.{Standing, unfinished_text, after_end};
ghost use Rattle.netlabel_report.specs.declared.desk.TellStop.TheVariants.{OutOfMemory as StopOutOfMemory};
ghost use Rattle.netlabel_report.specs.inside.Telling.{IsTaken, IsEndTaken, IsPassed};

use crate::report_telling::{
    Manner, Progress, Tallies, count_end, count_line, line_kind, risen, start, tell_end, tell_line,
};
use call_report::Report;
use mls_label::{Label, OutOfMemory};
use net_io::{IoFault, Sink, Window};
use std::alloc::{AllocError, Global};

/// Why reports aren't told to their end.
#[derive(Clone, Copy, Debug, PartialEq, Eq)]
pub(crate) enum TellStop {
    /// The line in hand is none, from this octet on.
    NoReport { octet: usize },
    ReadFault,
    /// What was told couldn't be written.
    Unwritten { fault: IoFault },
    OutOfMemory,
}

impl From<OutOfMemory> for TellStop {
    ghost from_gives = { λ _ stop. stop ≡ StopOutOfMemory };

    fn from(_: OutOfMemory) -> Self {
        TellStop::OutOfMemory
    }
}

/// The line in hand, the window behind it, and what was counted.
#[derive(Drop)]
pub(crate) struct Desk {
    pub(crate) window: Window,
    pub(crate) line: Vec<u8>,
    pub(crate) label: Label,
    pub(crate) progress: Progress,
    pub(crate) tallies: Tallies,
}

impl Desk {
    pub fn new(alloc: Global) -> Result<Desk, AllocError>
        ensures progress { IfOk result (λ desk. desk.progress ≡ start_progress) }
        ensures tallies { IfOk result (λ desk. desk.tallies ≡ []) }
    {
        let window = Window::new(alloc)?;
        Ok(Desk {
            window,
            line: Vec::new(alloc),
            label: Label::lowest(),
            progress: start(),
            tallies: Tallies::new(alloc),
        })
    }
}

/// Tells and counts the line in hand.
pub(crate) fn take_line<S: Sink>(
    manner: &Manner,
    desk: &mut Desk,
    report: &mut Report,
    out: &mut S,
) -> Result<(), TellStop>
    ensures taken { IsTaken manner.now desk.old.line.items
        (record { progress = desk.old.progress; tallies = desk.old.tallies })
        (record { progress = desk.new.progress; tallies = desk.new.tallies })
        report.old.waiting.items report.new.waiting.items result (S.state out.old)
        (S.state out.new) }
    ensures window { desk.new.window ≡ desk.old.window }
{
    let kind = match line_kind(
        &manner.commands,
        &desk.progress,
        &desk.line,
        &mut desk.label,
    ) {
        Ok(kind) => kind,
        Err(octet) => return Err(TellStop::NoReport { octet }),
    };
    let number = risen(desk.progress.reports);
    tell_line(manner, number, kind, &desk.line, &mut report.waiting)?;
    count_line(kind, &desk.line, &mut desk.progress, &mut desk.tallies)?;
    pass(report, out)
}

/// Tells and counts the end of a report.
pub(crate) fn take_end<S: Sink>(
    manner: &Manner,
    desk: &mut Desk,
    report: &mut Report,
    out: &mut S,
) -> Result<(), TellStop>
    ensures { IsEndTaken manner.now
        (record { progress = desk.old.progress; tallies = desk.old.tallies })
        (record { progress = desk.new.progress; tallies = desk.new.tallies })
        report.old.waiting.items report.new.waiting.items result (S.state out.old)
        (S.state out.new) }
{
    let number = risen(desk.progress.reports);
    tell_end(
        manner.way,
        number,
        desk.progress.finished,
        &mut report.waiting,
    )?;
    count_end(&mut desk.progress);
    pass(report, out)
}

/// Hands what waits on where it has grown to a piece.
fn pass<S: Sink>(report: &mut Report, out: &mut S) -> Result<(), TellStop>
    ensures { IsPassed report.old.waiting.items report.new.waiting.items result (S.state out.old)
        (S.state out.new) }
{
    match report.pass(out) {
        Ok(()) => Ok(()),
        Err(fault) => Err(TellStop::Unwritten { fault }),
    }
}
