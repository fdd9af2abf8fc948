//! The auditor: a report of a run is judged against its script and its captures, by whoever has these files and didn't run it. All that the
//! program does is the one call `audit`, over the real folder and the real stream out: it tests the words, the script, the report's length and
//! each capture to its end, in this order, and then asks `label_audit` for the first line that no run of the script prints there. Another thing
//! that may be wrong with a report's files is a variant in `stop.rt` with its event in `specs/inside/Finding.antt`, a case of
//! `specs/Outcome.antt`, and its line in `specs/Lines.antt` and `src/lines.rt`.
#![tactic(auto)]

mod asked;
mod find;
mod inputs;
pub mod laws;
mod lines;
mod stop;
mod tell;
#[cfg(test)]
mod tests;
mod top;

ghost use Rattle.std.specs.Prelude.{◌≡◌, ◌⊎◌, IfOk};
ghost use Rattle.std.specs.Process.{exit_status};
ghost use Rattle.call_report.specs.CallEnds.{MayEnd};
ghost use Rattle.netlabel_audit.specs.Says.{audit_says};

pub use crate::top::audit;
use label_commands::words_of;
use net_io::{RealDepot, RealSink};
use std::alloc::AllocError;
use std::io;
use std::process::ExitCode;

/// The status where memory ran out before the call.
const OUT_OF_MEMORY: u8 = 6;

/// Makes the real folder and the real stream out, makes the call, and ends with its status.
fn main(rt: HostRuntime) -> ExitCode {
    end(rt.clone())
}

/// The same, with what it ends with.
fn end(own: Result<HostRuntime, AllocError>) -> ExitCode
    ensures { MayEnd audit_says (exit_status result) ⊎ (exit_status result ≡ 6) }
{
    match call(own) {
        Ok(status) => ExitCode::from(status),
        Err(_) => ExitCode::from(OUT_OF_MEMORY),
    }
}

/// Calls the program with the words of the command line.
fn call(own: Result<HostRuntime, AllocError>) -> io::Result<u8>
    ensures { IfOk result (λ status. MayEnd audit_says status ⊎ (status ≡ 6)) }
{
    let rt = own?;
    let alloc = rt.alloc();
    let words = words_of(&rt)?;
    let Ok(mut depot) = RealDepot::new(rt.clone()?, alloc) else {
        return Ok(OUT_OF_MEMORY);
    };
    let mut sink = RealSink::new(rt);
    Ok(audit(alloc, &words, &mut depot, &mut sink))
}
