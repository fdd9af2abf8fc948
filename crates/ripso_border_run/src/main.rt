//! The program that takes a capture over a border between networks that label by the Basic Security Option (option 130) and networks that label by
//! CIPSO: it reads one, and makes another one of what becomes of its packets. All that it does is the one call `border`, over the real folder and the
//! real stream out.
#![tactic(auto)]

ghost use Rattle.std.specs.Prelude.{◌≡◌, ◌⊎◌, IfOk};
ghost use Rattle.std.specs.Process.{exit_status};
ghost use Rattle.ripso_border_run.specs.Says.{border_says};
ghost use Rattle.call_report.specs.CallEnds.{MayEnd};

mod course;
mod crossing;
mod definition;
pub mod laws;
mod lines;
mod run;
mod task;
mod top;

use label_commands::words_of;
use net_io::{RealDepot, RealSink};
use std::alloc::AllocError;
use std::io;
use std::process::ExitCode;
pub use top::border;

/// The status where memory ran out before the call.
const OUT_OF_MEMORY: u8 = 6;

/// Makes the real folder and the real stream out, makes the call, and ends with its status.
fn main(rt: HostRuntime) -> ExitCode {
    end(rt.clone())
}

/// The same, with what it ends with.
fn end(own: Result<HostRuntime, AllocError>) -> ExitCode
    ensures { MayEnd border_says (exit_status result) ⊎ (exit_status result ≡ 6) }
{
    match call(own) {
        Ok(status) => ExitCode::from(status),
        Err(_) => ExitCode::from(OUT_OF_MEMORY),
    }
}

/// Calls the program with the words of the command line.
fn call(own: Result<HostRuntime, AllocError>) -> io::Result<u8>
    ensures { IfOk result (λ status. MayEnd border_says status ⊎ (status ≡ 6)) }
{
    let rt = own?;
    let alloc = rt.alloc();
    let words = words_of(&rt)?;
    let Ok(mut depot) = RealDepot::new(rt.clone()?, alloc) else {
        return Ok(OUT_OF_MEMORY);
    };
    let mut sink = RealSink::new(rt);
    Ok(border(alloc, &words, &mut depot, &mut sink))
}

#[cfg(test)]
mod tests;
