//! The program: tells whether each hop of a flow covers the next one. All that it does is the one call `cover`, over the real folder
//! and the real stream out.
#![tactic(auto)]

ghost use Rattle.std.specs.Prelude.{◌≡◌, ◌⊎◌, IfOk};
ghost use Rattle.std.specs.Process.{exit_status};
ghost use Rattle.call_report.specs.CallEnds.{MayEnd};
ghost use Rattle.static_law.specs.Cover.{cover_says};

use label_commands::words_of;
use net_io::{RealDepot, RealSink};
use static_law::cover;
use std::alloc::AllocError;
use std::io;
use std::process::ExitCode;

/// The status where memory ran out before the call.
const OUT_OF_MEMORY: u8 = 6;

/// Makes the real folder and the real stream out, makes the call, and ends with its status.
fn main(rt: HostRuntime) -> ExitCode {
    end(rt.clone())
}

/// The same, with what it ends with.
fn end(own: Result<HostRuntime, AllocError>) -> ExitCode
    ensures { MayEnd cover_says (exit_status result) ⊎ (exit_status result ≡ 6) }
{
    match call(own) {
        Ok(status) => ExitCode::from(status),
        Err(_) => ExitCode::from(OUT_OF_MEMORY),
    }
}

/// Calls the program with the words of the command line.
fn call(own: Result<HostRuntime, AllocError>) -> io::Result<u8>
    ensures { IfOk result (λ status. MayEnd cover_says status ⊎ (status ≡ 6)) }
{
    let rt = own?;
    let alloc = rt.alloc();
    let words = words_of(&rt)?;
    let Ok(mut depot) = RealDepot::new(rt.clone()?, alloc) else {
        return Ok(OUT_OF_MEMORY);
    };
    let mut sink = RealSink::new(rt);
    Ok(cover(alloc, &words, &mut depot, &mut sink))
}
