//! What waits for the output of a flow.

ghost use Rattle.std.specs.Prelude.{◌≡◌, ◌≤◌, [], length, Some, OnOk, IfOk};
ghost use Rattle.captures.specs.Written.{file_frame, IsTime};
ghost use Rattle.script_run.specs.flow_run.Run.{is_denied};
ghost use Rattle.script_run.specs.flow_run.inside.Output.{HasAppended, IsThere, AreSent, HasHead};
ghost use Rattle.script_run.specs.flow_run.inside.Judged.{judged_frame};
ghost use Rattle.script_run.specs.flow_run.inside.Taken.{stop_in};
ghost use Rattle.script_run.specs.flow_run.inside.Flown.{HasCreated};

use crate::flow_run::end::FlowStop;
use crate::flow_run::judged::Judged;
use captures::{CaptureFormat, create_capture};
use label_commands::FileName;
use label_flow::{End, Walked};
use net_io::{Depot, IoFault};
use std::alloc::Global;

/// Appends all that waits, and ends the file.
pub(crate) fn append_waiting<D: Depot>(
    depot: &mut D,
    name: &FileName,
    octets: &mut Vec<u8>,
) -> Result<(), FlowStop>
    requires { IsThere (Some name.now) (D.state depot.old) }
    ensures appended { HasAppended (stop_in result) (Some name.now) []
        octets.old.items octets.new.items (D.state depot.old) (D.state depot.new) }
    ensures empty { OnOk result (octets.new.items ≡ []) }
{
    match captures::finish_capture(depot, name.text(), octets) {
        Ok(()) => Ok(()),
        Err(IoFault::Failed) => Err(FlowStop::Append),
        Err(IoFault::OutOfMemory) => Err(FlowStop::OutOfMemory),
    }
}

/// Whether a walk was denied.
pub(crate) fn is_denied(walked: &Walked) -> bool
    ensures { result ≡ is_denied walked.now.end }
{
    match &walked.end {
        End::Denied { .. } => true,
        End::Delivered { .. } | End::Sent { .. } => false,
    }
}

// The frame of a packet waits, and what waits is appended where that is a piece.
fn add_kept<D: Depot>(
    depot: &mut D,
    name: &FileName,
    octets: &mut Vec<u8>,
    judged: &Judged<'_>,
) -> Result<(), FlowStop>
    requires there { IsThere (Some name.now) (D.state depot.old) }
    requires short { length judged.now.packet.now ≤ 262144 }
    requires time { IsTime judged.now.format judged.now.head }
    ensures { HasAppended (stop_in result) (Some name.now)
        (file_frame judged.now.format judged.now.head judged.now.packet.now)
        octets.old.items octets.new.items (D.state depot.old) (D.state depot.new) }
{
    let name = name.text();
    match captures::add_frame(
        depot,
        name,
        judged.format,
        judged.head,
        judged.packet,
        octets,
    ) {
        Ok(()) => Ok(()),
        Err(IoFault::Failed) => Err(FlowStop::Append),
        Err(IoFault::OutOfMemory) => Err(FlowStop::OutOfMemory),
    }
}

/// The frame of a packet that wasn't denied waits for the output, if there is one; what waits is appended where that is a piece.
pub(crate) fn add_frame<D: Depot>(
    depot: &mut D,
    output: &Option<FileName>,
    octets: &mut Vec<u8>,
    judged: &Judged<'_>,
) -> Result<(), FlowStop>
    requires there { IsThere output.now (D.state depot.old) }
    requires short { length judged.now.packet.now ≤ 262144 }
    requires time { IsTime judged.now.format judged.now.head }
    ensures { HasAppended (stop_in result) output.now (judged_frame judged.now)
        octets.old.items octets.new.items (D.state depot.old) (D.state depot.new) }
{
    if is_denied(judged.walked) {
        return Ok(());
    }
    match output {
        Some(name) => add_kept(depot, name, octets, judged),
        None => Ok(()),
    }
}

/// Makes the output of a flow, if it has one, and gives the beginning of a capture that is to be appended to it.
pub(crate) fn create_output<D: Depot>(
    alloc: Global,
    depot: &mut D,
    output: &Option<FileName>,
    format: CaptureFormat,
) -> Result<Vec<u8>, FlowStop>
    ensures created { HasCreated (stop_in result) output.now
        (D.state depot.old) (D.state depot.new) }
    ensures head { IfOk result (λ octets. HasHead output.now format octets.items) }
{
    let Some(name) = output else {
        return Ok(Vec::new(alloc));
    };
    match create_capture(alloc, depot, name.text(), format) {
        Ok(octets) => Ok(octets),
        Err(IoFault::Failed) => Err(FlowStop::Create),
        Err(IoFault::OutOfMemory) => Err(FlowStop::OutOfMemory),
    }
}

/// Appends what waits for the output, if there is one, and ends it.
pub(crate) fn append_rest<D: Depot>(
    depot: &mut D,
    output: &Option<FileName>,
    octets: &mut Vec<u8>,
) -> Result<(), FlowStop>
    requires { IsThere output.now (D.state depot.old) }
    ensures appended { HasAppended (stop_in result) output.now []
        octets.old.items octets.new.items (D.state depot.old) (D.state depot.new) }
    ensures sent { OnOk result (AreSent output.now octets.new.items) }
{
    match output {
        Some(name) => append_waiting(depot, name, octets),
        None => Ok(()),
    }
}
