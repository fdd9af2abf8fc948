//! The program: reads labelled packets and judges them. All that it does is the one call `netlabel`: words of a command line, a folder of named files and a
//! stream out go in; a status and a report come out. The call's contract says what; `main` makes it over the real folder and the real stream out, with a gate that
//! holds nobody.
#![tactic(auto)]

ghost use Rattle.std.specs.Prelude.{◌≡◌, ◌⊎◌, IfOk};
ghost use Rattle.std.specs.Process.{exit_status};
ghost use Rattle.call_report.specs.CallEnds.{MayEnd};
ghost use Rattle.netlabel_run.specs.Commands.{netlabel_says};

use label_commands::words_of;
use label_flow::OpenGate;
use net_io::{RealDepot, RealSink};
use std::alloc::AllocError;
use std::io;
use std::process::ExitCode;
use std::sync::Wait;
use std::thread::Threads;

mod agree;
mod check;
mod command;
mod judge;
pub mod laws;
mod make;
mod outcome;
mod run;
mod show;
#[cfg(test)]
mod tests;
mod top;
mod verdict;
mod words;

pub use call_report::{FlowSeen, Seen};
pub use outcome::Outcome;
pub use top::netlabel;

/// The status where memory ran out before the call.
const OUT_OF_MEMORY: u8 = 6;

/// Makes the real folder and the real stream out, makes the call, and ends with its status.
fn main(rt: HostRuntime) -> ExitCode {
    let own: Result<HostRuntime, AllocError> = rt.clone();
    end(&rt, own)
}

/// The same, with what it ends with. Threads come with the process's own handle; the folder and the stream have a copy of it.
fn end<R: Threads + Wait + Sync>(threads: &R, own: Result<HostRuntime, AllocError>) -> ExitCode
    ensures { MayEnd netlabel_says (exit_status result) ⊎ (exit_status result ≡ 6) }
{
    match call(threads, own) {
        Ok(status) => ExitCode::from(status),
        Err(_) => ExitCode::from(OUT_OF_MEMORY),
    }
}

/// Calls the program with the words of the command line.
fn call<R: Threads + Wait + Sync>(
    threads: &R,
    own: Result<HostRuntime, AllocError>,
) -> io::Result<u8>
    ensures { IfOk result (λ status. MayEnd netlabel_says status ⊎ (status ≡ 6)) }
{
    let rt = own?;
    let alloc = rt.alloc();
    let words = words_of(&rt)?;
    let Ok(mut depot) = RealDepot::new(rt.clone()?, alloc) else {
        return Ok(OUT_OF_MEMORY);
    };
    let mut sink = RealSink::new(rt);
    Ok(netlabel(threads, alloc, &words, &mut depot, &mut sink, &OpenGate).status)
}
