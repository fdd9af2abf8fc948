//! A stream in memory none of whose writes fails.
ghost use Rattle.std.specs.Prelude.{◌≡◌, ◌++◌, IsTrue, [], take, OnErr, IfOk, IsErrOf};
ghost use Rattle.net_io.specs.Depot.{IsPart};
ghost use Rattle.net_io.specs.Faults.{Counts};
ghost use Rattle.net_io.specs.Memory.{safe_sink_state};

use crate::{IoFault, Sink};
use std::alloc::Global;

/// A stream in memory, which tells what was written. No write fails.
#[derive(Debug, Drop)]
pub struct SafeSink {
    written: Vec<u8>,
}

impl SafeSink {
    /// An empty stream.
    pub fn new(alloc: Global) -> SafeSink
        ensures { (safe_sink_state result).written ≡ [] }
    {
        SafeSink {
            written: Vec::new(alloc),
        }
    }

    /// All that was written.
    pub fn bytes(&self) -> &[u8]
        ensures { result.now ≡ (safe_sink_state self.now).written }
    {
        &self.written
    }
}

impl Sink for SafeSink {
    ghost use Rattle.net_io.specs.Memory.{safe_sink_state};

    ghost state = { safe_sink_state };

    fn write(&mut self, bytes: &[u8]) -> Result<usize, IoFault>
        ensures ok { IfOk result
            (λ n. IsTrue (safe_sink_state self.old).tells
            → (safe_sink_state self.new).written ≡ (safe_sink_state self.old).written
            ++ take n bytes.now) }
        ensures part { IfOk result (λ n. IsPart n bytes.now) }
        ensures err { OnErr result
            (IsTrue (safe_sink_state self.old).tells
            → (safe_sink_state self.new).written ≡ (safe_sink_state self.old).written) }
        ensures told { (safe_sink_state self.new).tells ≡ (safe_sink_state self.old).tells }
        ensures counts { Counts IoFault.Failed result (safe_sink_state self.old).faults
            (safe_sink_state self.new).faults }
        ensures safe { IsErrOf result IoFault.Failed → ⊥ }
    {
        self.written.extend_from_slice(bytes)?;
        Ok(bytes.len())
    }
}
