//! What waits for the file of a capture.

ghost use Rattle.std.specs.Prelude.{◌≡◌, ◌≤◌, [], length, IsTrue, IsSome, OnOk, OnErr, IfOk};
ghost use Rattle.net_io.specs.Depot.{SameHeld, NowHolds, OnlyCreates};
ghost use Rattle.captures.specs.Output.{HasAppended};
ghost use Rattle.captures.specs.Written.{file_head, file_frame, IsTime};

use crate::format::CaptureFormat;
use net_io::{Depot, IoFault, append_all};
use pcap_frames::FrameHead;
use std::alloc::Global;

/// How many octets are gathered before they are appended.
const PIECE: usize = 16384;

/// Makes the file of a capture, and gives what waits for it: its head.
pub fn create_capture<D: Depot>(
    alloc: Global,
    depot: &mut D,
    name: &str,
    format: CaptureFormat,
) -> Result<Vec<u8>, IoFault>
    ensures head { IfOk result (λ waits. waits.items ≡ file_head format) }
    ensures made { OnOk result
        (IsTrue (D.state depot.old).tells
        → NowHolds name.now [] (D.state depot.old).held (D.state depot.new).held) }
    ensures kept { OnErr result
        (IsTrue (D.state depot.old).tells
        → SameHeld (D.state depot.old).held (D.state depot.new).held) }
    ensures frame { OnlyCreates IoFault.Failed result name.now (D.state depot.old)
        (D.state depot.new) }
{
    let mut waits = Vec::new(alloc);
    let Ok(()) = format.write_head(&mut waits) else {
        return Err(IoFault::OutOfMemory);
    };
    depot.create(name)?;
    Ok(waits)
}

/// A frame of raw IP with at most 262,144 octets waits for the file, and what waits is appended where that is a piece. In pcapng the fraction
/// of its time is nanoseconds, below a second.
pub fn add_frame<D: Depot>(
    depot: &mut D,
    name: &str,
    format: CaptureFormat,
    head: FrameHead,
    packet: &[u8],
    waits: &mut Vec<u8>,
) -> Result<(), IoFault>
    requires there { IsTrue (D.state depot.old).tells → IsSome ((D.state depot.old).held name.now) }
    requires short { length packet.now ≤ 262144 }
    requires time { IsTime format head }
    ensures { HasAppended result name.now (file_frame format head packet.now)
        waits.old.items waits.new.items (D.state depot.old) (D.state depot.new) }
{
    let Ok(()) = format.write_frame(head, packet, waits) else {
        return Err(IoFault::OutOfMemory);
    };
    if waits.len() < PIECE {
        return Ok(());
    }
    append_rest(depot, name, waits)
}

/// Appends all that waits.
pub fn append_rest<D: Depot>(depot: &mut D, name: &str, waits: &mut Vec<u8>) -> Result<(), IoFault>
    requires { IsTrue (D.state depot.old).tells → IsSome ((D.state depot.old).held name.now) }
    ensures appended { HasAppended result name.now [] waits.old.items waits.new.items
        (D.state depot.old) (D.state depot.new) }
    ensures empty { OnOk result (waits.new.items ≡ []) }
{
    match append_all(depot, name, waits.as_slice()) {
        Ok(()) => {
            waits.clear();
            Ok(())
        }
        Err(fault) => Err(fault),
    }
}

/// Appends all that waits, and ends the file. An Err may be an error that comes late, after all of it was appended.
pub fn finish_capture<D: Depot>(
    depot: &mut D,
    name: &str,
    waits: &mut Vec<u8>,
) -> Result<(), IoFault>
    requires { IsTrue (D.state depot.old).tells → IsSome ((D.state depot.old).held name.now) }
    ensures appended { HasAppended result name.now [] waits.old.items waits.new.items
        (D.state depot.old) (D.state depot.new) }
    ensures empty { OnOk result (waits.new.items ≡ []) }
{
    match append_rest(depot, name, waits) {
        Ok(()) => depot.finish(name),
        Err(fault) => Err(fault),
    }
}
