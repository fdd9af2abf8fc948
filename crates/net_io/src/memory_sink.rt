//! A stream in memory, some of whose writes fail by plan.
ghost use Rattle.std.specs.Prelude.{◌≡◌, ◌<◌, ◌≤◌, ◌++◌, true, IsTrue, [], take, OnErr, IfOk};
ghost use Rattle.net_io.specs.Depot.{IsPart};
ghost use Rattle.net_io.specs.Faults.{Counts};
ghost use Rattle.net_io.specs.Memory.{memory_sink_state, memory_sink_plan, FollowsPlan};

use crate::plan::FaultPlan;
use crate::{IoFault, OutOfMemory, Sink};
use std::alloc::Global;

/// A stream in memory, which tells what was written. Chosen writes fail, and one takes a bounded number of octets.
#[derive(Debug, Drop)]
pub struct MemorySink {
    written: Vec<u8>,
    faults: u64,
    plan: FaultPlan,
}

impl MemorySink {
    /// An empty stream. The writes whose numbers, from 1, stand in `fail` fail; a write takes at most
    /// `piece` octets.
    pub fn new(alloc: Global, fail: &[u32], piece: usize) -> Result<MemorySink, OutOfMemory>
        requires { 0 < piece }
        ensures empty { IfOk result
            (λ sink. memory_sink_state sink ≡ record { tells = true; written = []; faults = 0 }) }
        ensures plan { IfOk result
            (λ sink. memory_sink_plan sink ≡ record { fail = fail.now; piece = piece; calls = 0 }) }
    {
        Ok(MemorySink {
            written: Vec::new(alloc),
            faults: 0,
            plan: FaultPlan::new(alloc, fail, piece)?,
        })
    }

    /// All that was written.
    pub fn bytes(&self) -> &[u8]
        ensures { result.now ≡ (memory_sink_state self.now).written }
    {
        &self.written
    }
}

impl Sink for MemorySink {
    ghost use Rattle.net_io.specs.Memory.{memory_sink_state};

    ghost state = { memory_sink_state };

    fn write(&mut self, bytes: &[u8]) -> Result<usize, IoFault>
        ensures ok { IfOk result
            (λ n. IsTrue (memory_sink_state self.old).tells
            → (memory_sink_state self.new).written ≡ (memory_sink_state self.old).written
            ++ take n bytes.now) }
        ensures part { IfOk result (λ n. IsPart n bytes.now) }
        ensures err { OnErr result
            (IsTrue (memory_sink_state self.old).tells
            → (memory_sink_state self.new).written ≡ (memory_sink_state self.old).written) }
        ensures told { (memory_sink_state self.new).tells ≡ (memory_sink_state self.old).tells }
        ensures counts { Counts IoFault.Failed result (memory_sink_state self.old).faults
            (memory_sink_state self.new).faults }
        ensures plan { FollowsPlan ⊥ result (memory_sink_plan self.old)
            (memory_sink_plan self.new) }
        ensures piece { IfOk result (λ n. n ≤ (memory_sink_plan self.old).piece) }
    {
        if self.plan.fails_next() {
            self.faults = self.faults.saturating_add(1);
            return Err(IoFault::Failed);
        }
        let n = bytes.len().min(self.plan.piece);
        self.written.extend_from_slice(&bytes[..n])?;
        Ok(n)
    }
}
