//! The program: tells the reports of runs, read line by line: added up, packet by packet that was denied, or as records of JSON or CSV. All that it does is
//! the one call `report`, over the real folder and the real stream out. A report is read through a window, in its order, so that it may come through a pipe,
//! and of it no more than a line is held. What its lines are is the business of `report_lines`, and how they are told that of `report_telling`.
#![tactic(auto)]

mod desk;
pub mod laws;
mod lines;
mod names;
mod question;
mod reading;
mod report_telling;
mod reports;
mod script;
#[cfg(test)]
mod tests;
mod top;

ghost use Rattle.std.specs.Prelude.{◌≡◌, ◌⊎◌, IfOk};
ghost use Rattle.std.specs.Process.{exit_status};
ghost use Rattle.call_report.specs.CallEnds.{MayEnd};
ghost use Rattle.netlabel_report.specs.Says.{report_says};

use label_commands::words_of;
use net_io::{RealDepot, RealSink};
use std::alloc::AllocError;
use std::io;
use std::process::ExitCode;
pub use top::report;

/// The status where memory ran out before the call.
const OUT_OF_MEMORY: u8 = 6;

/// Makes the real folder and the real stream out, makes the call, and ends with its status.
fn main(rt: HostRuntime) -> ExitCode {
    end(rt.clone())
}

/// The same, with what it ends with.
fn end(own: Result<HostRuntime, AllocError>) -> ExitCode
    ensures { MayEnd report_says (exit_status result) ⊎ (exit_status result ≡ 6) }
{
    match call(own) {
        Ok(status) => ExitCode::from(status),
        Err(_) => ExitCode::from(OUT_OF_MEMORY),
    }
}

/// Calls the program with the words of the command line.
fn call(own: Result<HostRuntime, AllocError>) -> io::Result<u8>
    ensures { IfOk result (λ status. MayEnd report_says status ⊎ (status ≡ 6)) }
{
    let rt = own?;
    let alloc = rt.alloc();
    let words = words_of(&rt)?;
    let Ok(mut depot) = RealDepot::new(rt.clone()?, alloc) else {
        return Ok(OUT_OF_MEMORY);
    };
    let mut sink = RealSink::new(rt);
    Ok(report(alloc, &words, &mut depot, &mut sink))
}
