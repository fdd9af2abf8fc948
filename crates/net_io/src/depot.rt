//! A folder of named files.
ghost use Rattle.std.specs.Prelude.{◌≡◌, ◌++◌, IsTrue, IsSome, [], take, OnOk, OnErr, IfOk};
ghost use Rattle.net_io.specs.Depot.{DepotState, octets_of, ReadsAt, IsPart, SameHeld, NowHolds, OnlyReads, OnlyCreates, OnlyAppends};

use crate::{IoFault, OutOfMemory};

/// A folder of named files. Its content may be told, as in memory, or not, as on a disk; the clauses on
/// content hold where it is told, and all others always.
pub trait Depot {
    /// What contracts see of it.
    ghost state: { Self → DepotState };

    /// Reads octets of a file, from the octet `at` on, into the front of `buf`, and answers how many: 0 at
    /// the file's end and past it. An absent name is a fault. Nothing held changes.
    fn read_at(&mut self, name: &str, at: u64, buf: &mut [u8]) -> Result<usize, IoFault>
        ensures ok { IfOk result
            (λ n. ReadsAt (state self.old).tells
            ((state self.old).held name.now) at n buf.old buf.new) }
        ensures err { OnErr result (buf.new ≡ buf.old) }
        ensures frame { OnlyReads IoFault.Failed result name.now (state self.old) (state self.new) };

    /// Reads as `read_at` does, but over what `buf` held: only the octets that were read are told of it, and nothing after an Err.
    /// So nothing has to be kept of it, and no copy is made.
    fn read_over(&mut self, name: &str, at: u64, buf: &mut [u8]) -> Result<usize, IoFault>
        ensures ok { IfOk result
            (λ n. ReadsAt (state self.old).tells
            ((state self.old).held name.now) at n buf.new buf.new) }
        ensures frame { OnlyReads IoFault.Failed result name.now (state self.old) (state self.new) }
    {
        self.read_at(name, at, buf)
    }

    /// Whether a read of this name may wait for somebody who writes, as far as is known: lines that are to be seen in time are passed on before.
    fn may_wait(&self, name: &str) -> bool {
        false
    }

    /// Protects the file that this name is a name of, there now or later: where a folder's files have several names, a later `create`
    /// by any of them is refused: by another spelling, a symlink or a hard link. Nothing held changes, and no fault is counted.
    /// `RealDepot` says how it tells files apart, and what it doesn't see.
    fn protect(&mut self, name: &str) -> Result<(), OutOfMemory>
        ensures { state self.new ≡ state self.old };

    /// Makes the name hold no octets, whether or not it was there. After an Err nothing held has changed. In memory each name is a file
    /// of its own; where files have several names, one of a file that was protected, or that a `create` has made, is refused.
    fn create(&mut self, name: &str) -> Result<(), IoFault>
        ensures ok { OnOk result
            (IsTrue (state self.old).tells
            → NowHolds name.now [] (state self.old).held (state self.new).held) }
        ensures err { OnErr result
            (IsTrue (state self.old).tells → SameHeld (state self.old).held (state self.new).held) }
        ensures frame { OnlyCreates IoFault.Failed result name.now (state self.old)
            (state self.new) };

    /// Appends octets from the front of `bytes` to a file, and answers how many: at least one, unless
    /// there are none. After an Err nothing held has changed.
    fn append(&mut self, name: &str, bytes: &[u8]) -> Result<usize, IoFault>
        requires { IsTrue (state self.old).tells → IsSome ((state self.old).held name.now) }
        ensures ok { IfOk result (λ n. IsTrue (state self.old).tells
            → NowHolds name.now (octets_of ((state self.old).held name.now) ++ take n bytes.now)
            (state self.old).held (state self.new).held) }
        ensures part { IfOk result (λ n. IsPart n bytes.now) }
        ensures err { OnErr result
            (IsTrue (state self.old).tells → SameHeld (state self.old).held (state self.new).held) }
        ensures frame { OnlyAppends IoFault.Failed result name.now (state self.old)
            (state self.new) };

    /// Ends a file that was appended to: answers errors that come late, as those of a network's file system, of a quota or of a disk.
    /// One that fails is a failed append. Nothing held changes.
    fn finish(&mut self, name: &str) -> Result<(), IoFault>
        requires { IsTrue (state self.old).tells → IsSome ((state self.old).held name.now) }
        ensures kept { IsTrue (state self.old).tells
            → SameHeld (state self.old).held (state self.new).held }
        ensures frame { OnlyAppends IoFault.Failed result name.now (state self.old)
            (state self.new) };
}
