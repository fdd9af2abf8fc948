//! The file of a capture that is being made.

ghost use Rattle.std.specs.Prelude.{◌≡◌, IsTrue, IsSome, IfOk, false};
ghost use Rattle.pcap_frames.specs.Written.{capture_head_octets};
ghost use Rattle.made_run.specs.Ends.{stop_of};
ghost use Rattle.made_run.specs.inside.File.{HasBegun, HasSent};

use crate::stop::MadeStop;
use captures::{CaptureFormat, append_rest, create_capture, finish_capture};
use net_io::{Depot, IoFault};
use std::alloc::Global;

/// Makes the file, and gives the head of the capture, which is to be appended to it.
pub(crate) fn begin_file<D: Depot>(
    alloc: Global,
    depot: &mut D,
    name: &str,
) -> Result<Vec<u8>, MadeStop>
    ensures begun { HasBegun name.now (stop_of result) (D.state depot.old) (D.state depot.new) }
    ensures head { IfOk result (λ octets. octets.items ≡ capture_head_octets false) }
{
    match create_capture(alloc, depot, name, CaptureFormat::Pcap { nanos: false }) {
        Ok(octets) => Ok(octets),
        Err(IoFault::Failed) => Err(MadeStop::Create),
        Err(IoFault::OutOfMemory) => Err(MadeStop::OutOfMemory),
    }
}

/// Appends all that waits for the file.
pub(crate) fn append_waiting<D: Depot>(
    depot: &mut D,
    name: &str,
    waiting: &mut Vec<u8>,
) -> Result<(), MadeStop>
    requires { IsTrue (D.state depot.old).tells → IsSome ((D.state depot.old).held name.now) }
    ensures { HasSent name.now (stop_of result) waiting.old.items waiting.new.items
        (D.state depot.old) (D.state depot.new) }
{
    match append_rest(depot, name, waiting) {
        Ok(()) => Ok(()),
        Err(IoFault::Failed) => Err(MadeStop::Append),
        Err(IoFault::OutOfMemory) => Err(MadeStop::OutOfMemory),
    }
}

/// Appends all that waits for the file, and ends it: an error that comes late stops the making as a failed append does.
pub(crate) fn finish_file<D: Depot>(
    depot: &mut D,
    name: &str,
    waiting: &mut Vec<u8>,
) -> Result<(), MadeStop>
    requires { IsTrue (D.state depot.old).tells → IsSome ((D.state depot.old).held name.now) }
    ensures { HasSent name.now (stop_of result) waiting.old.items waiting.new.items
        (D.state depot.old) (D.state depot.new) }
{
    match finish_capture(depot, name, waiting) {
        Ok(()) => Ok(()),
        Err(IoFault::Failed) => Err(MadeStop::Append),
        Err(IoFault::OutOfMemory) => Err(MadeStop::OutOfMemory),
    }
}
