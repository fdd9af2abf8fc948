//! The flow of a script, and the versions of its tables, that words name.

ghost use Rattle.std.specs.Prelude.{◌≡◌, ◌<◌, ◌^◌, Some, None, length, IfOk, MatchBool, MatchOption};
ghost use Rattle.label_commands.specs.Script.{before};
ghost use Rattle.label_flow.specs.packet_walk.Walk.{Rises};
ghost use Rattle.call_report.specs.script_input.Flow.{flow_numbered, versions_for, AreVersionsOf};

use label_commands::{FlowLine, NamedVersions, Script};
use mls_label::OutOfMemory;
use std::alloc::Global;

/// The flow of this number, counted from 1.
pub(crate) fn flow_numbered(script: &Script, number: u32) -> Option<&FlowLine>
    ensures { MatchOption result (flow_numbered script.now number ≡ None)
        (λ flow. flow_numbered script.now number ≡ Some flow.now) }
{
    let place = (number as usize).checked_sub(1)?;
    script.flows.as_slice().get(place)
}

/// The versions that the words name; else each hop has that of the commands above the flow.
pub(crate) fn versions_for(
    alloc: Global,
    flow: &FlowLine,
    named: &Option<NamedVersions<'_>>,
) -> Result<Vec<u32>, OutOfMemory>
    ensures { IfOk result (λ versions. versions.items ≡ versions_for flow.now named.now) }
{
    match named {
        Some(versions) => versions.read(alloc),
        None => Ok(vec![in alloc; flow.before; flow.hops.hops().len()]?),
    }
}

/// Whether a packet of the flow of this number can have these versions.
pub(crate) fn are_versions_of(
    script: &Script,
    number: u32,
    flow: &FlowLine,
    versions: &[u32],
) -> bool
    requires { length script.now.steps < 2 ^ 32 }
    ensures { MatchBool result (AreVersionsOf script.now number flow.now versions.now)
        (AreVersionsOf script.now number flow.now versions.now → ⊥) }
{
    versions.len() == flow.hops.hops().len()
        && rise(flow.before, script.steps_above(number as usize), versions)
}

/// Whether none of the versions falls, from one bound to another.
fn rise(low: u32, high: u32, versions: &[u32]) -> bool
    ensures { MatchBool result (Rises low high versions.now) (Rises low high versions.now → ⊥) }
{
    let mut last = low;
    let mut rest = versions;
    while let [version, behind @ ..] = rest {
        if *version < last {
            return false;
        }
        last = *version;
        rest = behind;
    }
    last <= high
}
