//! The list of failed calls of a folder in memory.
ghost use Rattle.std.specs.Prelude.{◌≡◌, OnOk, OnErr};
ghost use Rattle.net_io.specs.inside.Listed.{Lists};
ghost use Rattle.net_io.specs.declared.fault.IoFault.TheVariants.{Failed, OutOfMemory};

use crate::{IoFault, OutOfMemory};

/// A kind of call on a folder.
#[derive(Clone, Copy, Debug, PartialEq, Eq)]
pub enum DepotCall {
    Read,
    Create,
    Append,
}

/// A call that has failed.
#[derive(Debug, Drop)]
pub struct FailedCall {
    pub call: DepotCall,
    pub name: String,
}

/// Lists a call that fails.
fn list_call(failed: &mut Vec<FailedCall>, call: DepotCall, name: &str) -> Result<(), OutOfMemory>
    ensures ok { OnOk result (Lists call name.now failed.old.items failed.new.items) }
    ensures err { OnErr result (failed.new.items ≡ failed.old.items) }
{
    let name = String::from_str(*failed.allocator(), name)?;
    failed.push(FailedCall { call, name })?;
    Ok(())
}

/// Lists a call that fails, and gives its answer: Failed, or OutOfMemory where the list can't grow.
pub fn fault_of(failed: &mut Vec<FailedCall>, call: DepotCall, name: &str) -> IoFault
    ensures failed { result ≡ IoFault.Failed
        → Lists call name.now failed.old.items failed.new.items }
    ensures out_of_memory { result ≡ IoFault.OutOfMemory → failed.new.items ≡ failed.old.items }
{
    match list_call(failed, call, name) {
        Ok(()) => IoFault::Failed,
        Err(OutOfMemory) => IoFault::OutOfMemory,
    }
}
