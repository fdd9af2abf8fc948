//! A folder in memory, some of whose calls fail by plan.
ghost use Rattle.std.specs.Prelude.{◌≡◌, ◌<◌, ◌≤◌, ◌++◌, IsTrue, IsSome, [], None, take, OnOk, OnErr, IsOk, IfOk, option_copied};
ghost use Rattle.net_io.specs.Depot.{octets_of, NowHolds, SameHeld, ReadsAt, IsPart, OnlyReads, OnlyCreates, OnlyAppends};
ghost use Rattle.net_io.specs.Memory.{memory_state, memory_failed, memory_plan, IsFresh, SameFaults, FollowsPlan};

use crate::failed::{DepotCall, fault_of};
use crate::plan::FaultPlan;
use crate::{Depot, IoFault, OutOfMemory, SafeDepot};
use std::alloc::Global;

/// A folder in memory, whose content is told. Chosen calls fail, and reads of absent names; a call moves a bounded number
/// of octets. It lists its failed calls: the number of faults of a kind on a name is how many of the list are of them.
#[derive(Debug, Drop)]
pub struct MemoryDepot {
    kept: SafeDepot,
    plan: FaultPlan,
}

impl MemoryDepot {
    /// An empty folder. The calls of `Depot` whose numbers stand in `fail` fail, where all but `protect` are counted
    /// together from 1; a call moves at most `piece` octets.
    pub fn new(alloc: Global, fail: &[u32], piece: usize) -> Result<MemoryDepot, OutOfMemory>
        requires { 0 < piece }
        ensures empty { IfOk result (λ depot. IsFresh (memory_state depot)) }
        ensures plan { IfOk result
            (λ depot. memory_plan depot ≡ record { fail = fail.now; piece = piece; calls = 0 }) }
    {
        Ok(MemoryDepot {
            kept: SafeDepot::new(alloc),
            plan: FaultPlan::new(alloc, fail, piece)?,
        })
    }

    /// Makes the name hold exactly these octets. It is no call of `Depot`, and isn't counted as one.
    pub fn put(&mut self, name: &str, bytes: &[u8]) -> Result<(), OutOfMemory>
        ensures ok { OnOk result
            (NowHolds name.now bytes.now (memory_state self.old).held
            (memory_state self.new).held) }
        ensures err { OnErr result
            (SameHeld (memory_state self.old).held (memory_state self.new).held) }
        ensures faults { SameFaults (memory_state self.old) (memory_state self.new) }
        ensures plan { memory_plan self.new ≡ memory_plan self.old }
    {
        self.kept.put(name, bytes)
    }

    /// What the name holds; None exactly where it is absent.
    pub fn get(&self, name: &str) -> Option<&[u8]>
        ensures { option_copied result ≡ (memory_state self.now).held name.now }
    {
        self.kept.get(name)
    }

    /// The kind of the first call that has failed; None exactly where none has.
    pub fn failed(&self) -> Option<DepotCall>
        ensures { result ≡ memory_failed self.now }
    {
        self.kept.failed()
    }
}

impl Depot for MemoryDepot {
    ghost use Rattle.net_io.specs.Memory.{memory_state};

    ghost state = { memory_state };

    fn read_at(&mut self, name: &str, at: u64, buf: &mut [u8]) -> Result<usize, IoFault>
        ensures ok { IfOk result
            (λ n. ReadsAt (memory_state self.old).tells
            ((memory_state self.old).held name.now) at n buf.old buf.new) }
        ensures err { OnErr result (buf.new ≡ buf.old) }
        ensures frame { OnlyReads IoFault.Failed result name.now (memory_state self.old)
            (memory_state self.new) }
        ensures plan { FollowsPlan ((memory_state self.old).held name.now ≡ None) result
            (memory_plan self.old) (memory_plan self.new) }
        ensures piece { IfOk result (λ n. n ≤ (memory_plan self.old).piece) }
    {
        if self.plan.fails_next() {
            return Err(fault_of(&mut self.kept.failed, DepotCall::Read, name));
        }
        self.kept.read_piece(name, at, self.plan.piece, buf)
    }

    // Each name is a file of its own: there is nothing to note, and the plan doesn't count it.
    fn protect(&mut self, _name: &str) -> Result<(), OutOfMemory>
        ensures kept { memory_state self.new ≡ memory_state self.old }
        ensures plan { memory_plan self.new ≡ memory_plan self.old }
        ensures safe { IsOk result }
    {
        Ok(())
    }

    fn create(&mut self, name: &str) -> Result<(), IoFault>
        ensures ok { OnOk result
            (IsTrue (memory_state self.old).tells
            → NowHolds name.now [] (memory_state self.old).held (memory_state self.new).held) }
        ensures err { OnErr result
            (IsTrue (memory_state self.old).tells
            → SameHeld (memory_state self.old).held (memory_state self.new).held) }
        ensures frame { OnlyCreates IoFault.Failed result name.now (memory_state self.old)
            (memory_state self.new) }
        ensures plan { FollowsPlan ⊥ result (memory_plan self.old) (memory_plan self.new) }
    {
        if self.plan.fails_next() {
            return Err(fault_of(&mut self.kept.failed, DepotCall::Create, name));
        }
        self.kept.create(name)
    }

    fn append(&mut self, name: &str, bytes: &[u8]) -> Result<usize, IoFault>
        requires { IsTrue (memory_state self.old).tells
            → IsSome ((memory_state self.old).held name.now) }
        ensures ok { IfOk result (λ n. IsTrue (memory_state self.old).tells
            → NowHolds name.now
            (octets_of ((memory_state self.old).held name.now) ++ take n bytes.now)
            (memory_state self.old).held (memory_state self.new).held) }
        ensures part { IfOk result (λ n. IsPart n bytes.now) }
        ensures err { OnErr result
            (IsTrue (memory_state self.old).tells
            → SameHeld (memory_state self.old).held (memory_state self.new).held) }
        ensures frame { OnlyAppends IoFault.Failed result name.now (memory_state self.old)
            (memory_state self.new) }
        ensures plan { FollowsPlan ⊥ result (memory_plan self.old) (memory_plan self.new) }
        ensures piece { IfOk result (λ n. n ≤ (memory_plan self.old).piece) }
    {
        if self.plan.fails_next() {
            return Err(fault_of(&mut self.kept.failed, DepotCall::Append, name));
        }
        let n = bytes.len().min(self.plan.piece);
        self.kept.append(name, &bytes[..n])
    }

    fn finish(&mut self, name: &str) -> Result<(), IoFault>
        requires { IsTrue (memory_state self.old).tells
            → IsSome ((memory_state self.old).held name.now) }
        ensures kept { IsTrue (memory_state self.old).tells
            → SameHeld (memory_state self.old).held (memory_state self.new).held }
        ensures frame { OnlyAppends IoFault.Failed result name.now (memory_state self.old)
            (memory_state self.new) }
        ensures plan { FollowsPlan ⊥ result (memory_plan self.old) (memory_plan self.new) }
    {
        if self.plan.fails_next() {
            return Err(fault_of(&mut self.kept.failed, DepotCall::Append, name));
        }
        self.kept.finish(name)
    }
}
