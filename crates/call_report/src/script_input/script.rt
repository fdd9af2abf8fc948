//! The script in the file that the words name.

ghost use Rattle.std.specs.Prelude.{◌≡◌, [], IfOk, IfErr};
ghost use Rattle.call_report.specs.Lines.Script.{script_stop_line};
ghost use Rattle.call_report.specs.Outside.{Outside};
ghost use Rattle.call_report.specs.Printing.{Printed};
ghost use Rattle.call_report.specs.script_input.Ends.{HasScript, HasText, IsScriptEnd, script_due};

use crate::{Report, Status, write_script_stop};
use label_commands::{LimitName, SCRIPT_LIMIT, Script, ScriptStop, read_script};
use mls_label::OutOfMemory;
use net_io::{Depot, Sink, WholeFault, read_whole};
use std::alloc::Global;

/// The passed limit of a longer one.
const TOO_LONG: ScriptStop = ScriptStop::Limit {
    what: LimitName::Octets,
    number: SCRIPT_LIMIT as u32,
};

/// Reads a script whole. Where there is none it tells why, and answers how the call ends: with the script's first fault, or its first
/// limit that is passed, or that the file couldn't be read, or that there was no memory. Nothing else is printed.
pub fn script_of<D: Depot, S: Sink>(
    alloc: Global,
    file: &str,
    depot: &mut D,
    out: &mut S,
) -> Result<Script, Status>
    ensures ok { IfOk result (HasScript file.now
        (record { folder = D.state depot.old; stream = S.state out.old })
        (record { folder = D.state depot.new; stream = S.state out.new })) }
    ensures err { IfErr result (IsScriptEnd file.now
        (record { folder = D.state depot.old; stream = S.state out.old })
        (record { folder = D.state depot.new; stream = S.state out.new })) }
{
    match script_with_text(alloc, file, depot, out) {
        Ok((script, _)) => Ok(script),
        Err(status) => Err(status),
    }
}

/// The same with the script's text.
pub fn script_with_text<D: Depot, S: Sink>(
    alloc: Global,
    file: &str,
    depot: &mut D,
    out: &mut S,
) -> Result<(Script, Vec<u8>), Status>
    ensures ok { IfOk result (λ read. HasText file.now
        (record { folder = D.state depot.old; stream = S.state out.old })
        (record { folder = D.state depot.new; stream = S.state out.new }) read.0 read.1.items) }
    ensures err { IfErr result (IsScriptEnd file.now
        (record { folder = D.state depot.old; stream = S.state out.old })
        (record { folder = D.state depot.new; stream = S.state out.new })) }
{
    let text = match read_whole(alloc, depot, file, SCRIPT_LIMIT) {
        Ok(text) => text,
        Err(WholeFault::TooLong) => return Err(end_refused(alloc, TOO_LONG, out)),
        Err(WholeFault::Failed) => return Err(Status::ReadFault),
        Err(WholeFault::OutOfMemory) => return Err(Status::OutOfMemory),
    };
    match read_script(alloc, &text, file) {
        Ok(script) => Ok((script, text)),
        Err(stop) => Err(end_refused(alloc, stop, out)),
    }
}

/// Tells why a text is no script.
fn end_refused<S: Sink>(alloc: Global, stop: ScriptStop, out: &mut S) -> Status
    ensures { Printed [] (script_stop_line stop) (script_due stop) result
        (S.state out.old) (S.state out.new) }
{
    let mut line = Vec::new(alloc);
    match write_script_stop(stop, &mut line) {
        Ok(()) => Report::new(alloc).end(out, &line, status_of(stop)),
        Err(OutOfMemory) => Status::OutOfMemory,
    }
}

/// How a call ends whose text is no script.
fn status_of(stop: ScriptStop) -> Status
    ensures { result ≡ script_due stop }
{
    match stop {
        ScriptStop::Fault(_fault) => Status::WrongScript,
        ScriptStop::Limit { what: _, number: _ } => Status::Limit,
        ScriptStop::OutOfMemory => Status::OutOfMemory,
    }
}
