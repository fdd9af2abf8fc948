//! Which calls on an object in memory fail, and how much a call moves.
ghost use Rattle.std.specs.Prelude.{◌≡◌, ◌<◌, ◌↔◌, ◌+◌, min, ◌-◌, ◌^◌, IsTrue, Contains, IfOk};

use crate::OutOfMemory;
use std::alloc::Global;

/// The numbers of the calls that fail, all calls counted together from 1, and the most octets that a call moves.
#[derive(Debug, Drop)]
pub struct FaultPlan {
    fail: Vec<u32>,
    pub piece: usize,
    calls: u64,
    ghost moves: { 0 < piece },
}

impl FaultPlan {
    pub fn new(alloc: Global, fail: &[u32], piece: usize) -> Result<FaultPlan, OutOfMemory>
        requires { 0 < piece }
        ensures fail { IfOk result (λ plan. plan.fail.items ≡ fail.now) }
        ensures piece { IfOk result (λ plan. plan.piece ≡ piece) }
        ensures calls { IfOk result (λ plan. plan.calls ≡ 0) }
    {
        let fail = Vec::from_slice(alloc, fail)?;
        Ok(FaultPlan {
            fail,
            piece,
            calls: 0,
        })
    }

    /// Counts a call, and tells whether it fails. The count stays at its type's end.
    pub fn fails_next(&mut self) -> bool
        ensures fails { IsTrue result ↔ Contains self.old.fail.items self.new.calls }
        ensures counted { self.new.calls ≡ min (self.old.calls + 1) (2 ^ 64 - 1) }
        ensures fail { self.new.fail.items ≡ self.old.fail.items }
        ensures piece { self.new.piece ≡ self.old.piece }
    {
        self.calls = self.calls.saturating_add(1);
        let call = self.calls;
        self.fail.iter().any(|number| u64::from(*number) == call)
    }
}
