//! A stream out.
ghost use Rattle.std.specs.Prelude.{◌≡◌, ◌++◌, IsTrue, take, OnErr, IfOk};
ghost use Rattle.net_io.specs.Depot.{IsPart};
ghost use Rattle.net_io.specs.Faults.{Counts};
ghost use Rattle.net_io.specs.Sink.{SinkState};

use crate::IoFault;

/// A stream out. What was written may be told, as in memory, or not, as on standard output.
pub trait Sink {
    /// What contracts see of it.
    ghost state: { Self → SinkState };

    /// Writes octets from the front of `bytes`, and answers how many: at least one, unless there are none.
    /// After an Err nothing was written.
    fn write(&mut self, bytes: &[u8]) -> Result<usize, IoFault>
        ensures ok { IfOk result
            (λ n. IsTrue (state self.old).tells
            → (state self.new).written ≡ (state self.old).written ++ take n bytes.now) }
        ensures part { IfOk result (λ n. IsPart n bytes.now) }
        ensures err { OnErr result
            (IsTrue (state self.old).tells → (state self.new).written ≡ (state self.old).written) }
        ensures told { (state self.new).tells ≡ (state self.old).tells }
        ensures counts { Counts IoFault.Failed result (state self.old).faults
            (state self.new).faults };
}
