//! A folder in memory none of whose calls fails but reads of absent names.
ghost use Rattle.std.specs.Prelude.{◌≡◌, ◌<◌, ◌≤◌, ◌++◌, IsTrue, IsSome, [], None, take, OnOk, OnErr, IsOk, IfOk, IsErrOf, option_copied};
ghost use Rattle.net_io.specs.Depot.{octets_of, NowHolds, SameHeld, ReadsAt, IsPart, OnlyReads, OnlyCreates, OnlyAppends};
ghost use Rattle.net_io.specs.Memory.{safe_state, safe_failed, IsFresh, SameFaults};

use crate::failed::{DepotCall, FailedCall, fault_of};
use crate::folder::{NamedFile, copy_from, extend_file, place_of, put_file};
use crate::{Depot, IoFault, OutOfMemory};
use std::alloc::Global;

/// A folder in memory, whose content is told. Reads fail exactly on absent names, and nothing else fails. It lists its
/// failed calls: the number of faults of a kind on a name is how many of the list are of them.
#[derive(Debug, Drop)]
pub struct SafeDepot {
    files: Vec<NamedFile>,
    pub(crate) failed: Vec<FailedCall>,
}

impl SafeDepot {
    /// An empty folder.
    pub fn new(alloc: Global) -> SafeDepot
        ensures { IsFresh (safe_state result) }
    {
        SafeDepot {
            files: Vec::new(alloc),
            failed: Vec::new(alloc),
        }
    }

    /// Makes the name hold exactly these octets. It is no call of `Depot`.
    pub fn put(&mut self, name: &str, bytes: &[u8]) -> Result<(), OutOfMemory>
        ensures ok { OnOk result
            (NowHolds name.now bytes.now (safe_state self.old).held (safe_state self.new).held) }
        ensures err { OnErr result
            (SameHeld (safe_state self.old).held (safe_state self.new).held) }
        ensures faults { SameFaults (safe_state self.old) (safe_state self.new) }
    {
        let octets = Vec::from_slice(*self.files.allocator(), bytes)?;
        put_file(&mut self.files, name, octets)
    }

    /// What the name holds; None exactly where it is absent.
    pub fn get(&self, name: &str) -> Option<&[u8]>
        ensures { option_copied result ≡ (safe_state self.now).held name.now }
    {
        match place_of(&self.files, name) {
            Some(place) => Some(&self.files[place].octets),
            None => None,
        }
    }

    /// The kind of the first call that has failed; None exactly where none has.
    pub fn failed(&self) -> Option<DepotCall>
        ensures { result ≡ safe_failed self.now }
    {
        match self.failed.as_slice() {
            [first, ..] => Some(first.call),
            [] => None,
        }
    }

    /// A read of at most `piece` octets.
    pub(crate) fn read_piece(
        &mut self,
        name: &str,
        at: u64,
        piece: usize,
        buf: &mut [u8],
    ) -> Result<usize, IoFault>
        requires { 0 < piece }
        ensures ok { IfOk result
            (λ n. ReadsAt (safe_state self.old).tells
            ((safe_state self.old).held name.now) at n buf.old buf.new) }
        ensures err { OnErr result (buf.new ≡ buf.old) }
        ensures frame { OnlyReads IoFault.Failed result name.now (safe_state self.old)
            (safe_state self.new) }
        ensures absent { IsErrOf result IoFault.Failed
            → (safe_state self.old).held name.now ≡ None }
        ensures piece { IfOk result (λ n. n ≤ piece) }
    {
        match place_of(&self.files, name) {
            Some(place) => Ok(copy_from(&self.files[place].octets, at, piece, buf)),
            None => Err(fault_of(&mut self.failed, DepotCall::Read, name)),
        }
    }
}

impl Depot for SafeDepot {
    ghost use Rattle.net_io.specs.Memory.{safe_state};

    ghost state = { safe_state };

    fn read_at(&mut self, name: &str, at: u64, buf: &mut [u8]) -> Result<usize, IoFault>
        ensures ok { IfOk result
            (λ n. ReadsAt (safe_state self.old).tells
            ((safe_state self.old).held name.now) at n buf.old buf.new) }
        ensures err { OnErr result (buf.new ≡ buf.old) }
        ensures frame { OnlyReads IoFault.Failed result name.now (safe_state self.old)
            (safe_state self.new) }
        ensures absent { IsErrOf result IoFault.Failed
            → (safe_state self.old).held name.now ≡ None }
    {
        self.read_piece(name, at, usize::MAX, buf)
    }

    // Each name is a file of its own: there is nothing to note.
    fn protect(&mut self, _name: &str) -> Result<(), OutOfMemory>
        ensures kept { safe_state self.new ≡ safe_state self.old }
        ensures safe { IsOk result }
    {
        Ok(())
    }

    fn create(&mut self, name: &str) -> Result<(), IoFault>
        ensures ok { OnOk result
            (IsTrue (safe_state self.old).tells
            → NowHolds name.now [] (safe_state self.old).held (safe_state self.new).held) }
        ensures err { OnErr result
            (IsTrue (safe_state self.old).tells
            → SameHeld (safe_state self.old).held (safe_state self.new).held) }
        ensures frame { OnlyCreates IoFault.Failed result name.now (safe_state self.old)
            (safe_state self.new) }
        ensures safe { IsErrOf result IoFault.Failed → ⊥ }
    {
        let octets = Vec::new(*self.files.allocator());
        put_file(&mut self.files, name, octets)?;
        Ok(())
    }

    fn append(&mut self, name: &str, bytes: &[u8]) -> Result<usize, IoFault>
        requires { IsTrue (safe_state self.old).tells
            → IsSome ((safe_state self.old).held name.now) }
        ensures ok { IfOk result (λ n. IsTrue (safe_state self.old).tells
            → NowHolds name.now
            (octets_of ((safe_state self.old).held name.now) ++ take n bytes.now)
            (safe_state self.old).held (safe_state self.new).held) }
        ensures part { IfOk result (λ n. IsPart n bytes.now) }
        ensures err { OnErr result
            (IsTrue (safe_state self.old).tells
            → SameHeld (safe_state self.old).held (safe_state self.new).held) }
        ensures frame { OnlyAppends IoFault.Failed result name.now (safe_state self.old)
            (safe_state self.new) }
        ensures safe { IsErrOf result IoFault.Failed → ⊥ }
    {
        extend_file(&mut self.files, name, bytes)?;
        Ok(bytes.len())
    }

    fn finish(&mut self, _name: &str) -> Result<(), IoFault>
        requires { IsTrue (safe_state self.old).tells
            → IsSome ((safe_state self.old).held _name.now) }
        ensures kept { IsTrue (safe_state self.old).tells
            → SameHeld (safe_state self.old).held (safe_state self.new).held }
        ensures frame { OnlyAppends IoFault.Failed result _name.now (safe_state self.old)
            (safe_state self.new) }
        ensures safe { IsOk result }
    {
        Ok(())
    }
}
