//! Standard output. No clause tells what reaches it: this is the trusted edge.
ghost use Rattle.std.specs.Prelude.{◌≡◌};

use crate::retry::{Printer, write_once};
use crate::{IoFault, Sink};
use std::io::Print;

/// Standard output, by one system call for each write and with no buffer: what was answered Ok has left the
/// program. What was written isn't told.
#[derive(Drop)]
pub struct RealSink<R: Print> {
    out: R,
    faults: u64,
}

impl<R: Print> RealSink<R> {
    ghost use Rattle.net_io.specs.Real.{real_sink_state};

    /// The standard output of this runtime, with no faults so far.
    pub fn new(out: R) -> RealSink<R>
        ensures { (real_sink_state result).faults ≡ 0 }
    {
        RealSink { out, faults: 0 }
    }
}

impl<R: Print> Sink for RealSink<R> {
    ghost use Rattle.net_io.specs.Real.{real_sink_state};

    ghost state = { real_sink_state };

    // A stream that takes nothing of some octets has failed.
    fn write(&mut self, bytes: &[u8]) -> Result<usize, IoFault> {
        match write_once(&mut Printer(&self.out), bytes) {
            Ok(n) if n > 0 || bytes.is_empty() => Ok(n),
            _ => {
                self.faults = self.faults.saturating_add(1);
                Err(IoFault::Failed)
            }
        }
    }
}
