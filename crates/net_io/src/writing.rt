//! Writes that go on until all octets are taken.
ghost use Rattle.std.specs.Prelude.{◌≡◌, ◌<◌, ◌++◌, IsTrue, IsSome, length, OnOk, OnErr};
ghost use Rattle.net_io.specs.Depot.{octets_of, NowHolds, AppendsPrefix, OnlyAppends};
ghost use Rattle.net_io.specs.Sink.{WritesLess};
ghost use Rattle.net_io.specs.Faults.{Counts};

use crate::{Depot, IoFault, Sink};

/// Writes all of `bytes`. After an Err some first octets of them may be written, and no others: not all of them.
pub fn write_all_to<S: Sink>(sink: &mut S, bytes: &[u8]) -> Result<(), IoFault>
    ensures ok { OnOk result
        (IsTrue (S.state sink.old).tells → (S.state sink.new).written ≡ (S.state sink.old).written
        ++ bytes.now) }
    ensures err { OnErr result
        (IsTrue (S.state sink.old).tells
        → WritesLess bytes.now (S.state sink.old).written (S.state sink.new).written) }
    ensures some { OnErr result (0 < length bytes.now) }
    ensures told { (S.state sink.new).tells ≡ (S.state sink.old).tells }
    ensures counts { Counts IoFault.Failed result (S.state sink.old).faults
        (S.state sink.new).faults }
{
    let mut done = 0;
    while done < bytes.len() {
        done += sink.write(&bytes[done..])?;
    }
    Ok(())
}

/// Appends all of `bytes` to a file. After an Err some first octets of them may stand there, and no others.
pub fn append_all<D: Depot>(depot: &mut D, name: &str, bytes: &[u8]) -> Result<(), IoFault>
    requires { IsTrue (D.state depot.old).tells → IsSome ((D.state depot.old).held name.now) }
    ensures ok { OnOk result (IsTrue (D.state depot.old).tells
        → NowHolds name.now (octets_of ((D.state depot.old).held name.now) ++ bytes.now)
        (D.state depot.old).held (D.state depot.new).held) }
    ensures err { OnErr result (IsTrue (D.state depot.old).tells
        → AppendsPrefix name.now bytes.now (D.state depot.old).held (D.state depot.new).held) }
    ensures frame { OnlyAppends IoFault.Failed result name.now (D.state depot.old)
        (D.state depot.new) }
{
    let mut done = 0;
    while done < bytes.len() {
        done += depot.append(name, &bytes[done..])?;
    }
    Ok(())
}
