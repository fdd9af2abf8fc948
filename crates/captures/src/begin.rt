//! The beginning of a capture, whose first four octets tell the format.
ghost use Rattle.std.specs.Prelude.{◌≡◌, IsTrue, IfOk};
ghost use Rattle.net_io.specs.Depot.{octets_of, OnlyReads};
ghost use Rattle.pcapng_frames.specs.Capture.{is_pcapng};
ghost use Rattle.captures.specs.Reader.{file_name_of, IsReadable, IsFileBegun};

use crate::ReadStop;
use crate::reader::AnyFrames;
use net_io::{Depot, IoFault, read_full};
use pcap_frames::Frames;
use pcapng_frames::NgFrames;
use std::alloc::Global;

/// The type of a section header, with which a pcapng file begins.
const SECTION: [u8; 4] = [0x0A, 0x0D, 0x0D, 0x0A];

/// Whether a file is pcapng.
fn begins_as_pcapng<D: Depot>(depot: &mut D, name: &str) -> Result<bool, IoFault>
    ensures answer { IfOk result (λ is. IsTrue (D.state depot.old).tells
        → is_pcapng (octets_of ((D.state depot.old).held name.now)) ≡ is) }
    ensures frame { OnlyReads IoFault.Failed result name.now (D.state depot.old)
        (D.state depot.new) }
{
    let mut front = [0u8; 4];
    let count = read_full(depot, name, 0, &mut front)?;
    Ok(count == 4 && front == SECTION)
}

/// Begins to read a file in the format that its first four octets tell.
pub(crate) fn begin_frames<D: Depot>(
    alloc: Global,
    depot: &mut D,
    name: &str,
) -> Result<AnyFrames, ReadStop>
    ensures answer { IsTrue (D.state depot.old).tells
        → IsFileBegun result ((D.state depot.old).held name.now) }
    ensures name { IfOk result (λ reader. file_name_of reader ≡ name.now) }
    ensures ready { IfOk result (λ reader. IsReadable (D.state depot.new) reader) }
    ensures frame { OnlyReads ReadStop.ReadFault result name.now (D.state depot.old)
        (D.state depot.new) }
{
    if begins_as_pcapng(depot, name)? {
        let packets = NgFrames::begin(alloc, depot, name)?;
        return Ok(AnyFrames::Pcapng(packets));
    }
    let records = Frames::begin(alloc, depot, name)?;
    Ok(AnyFrames::Pcap(records))
}
