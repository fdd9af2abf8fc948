//! The captures of a script's flows, read to their ends.

ghost use Rattle.std.specs.Prelude.{◌≡◌, ◌<◌, ◌≤◌, ℕ, IsTrue, Some, IfOk, IfErr, OnErr, length, map};
ghost use Rattle.net_io.specs.Depot.{OnlyReads};
ghost use Rattle.call_report.specs.Event.{Event, packets_limit};
ghost use Rattle.label_audit.specs.Reads.{OnlyReadsAmong};
ghost use Rattle.netlabel_audit.specs.Inputs.{inputs_end, all_whole, ended_by};
ghost use Rattle.netlabel_audit.specs.inside.Finding.{IsReadTo, event_of};

use crate::stop::AuditStop;
use call_report::PACKETS_LIMIT;
use captures::CaptureReader;
use label_commands::FlowLine;
use label_flow::{Octets, PacketIn};
use net_io::Depot;
use std::alloc::Global;

/// Reads the capture of each flow to its end. Fails with the first that isn't whole, or in which there are more packets than may be read
/// of all.
pub(crate) fn read_inputs<D: Depot>(
    alloc: Global,
    flows: &[FlowLine],
    depot: &mut D,
) -> Result<(), AuditStop>
    requires { length flows.now ≤ 256 }
    ensures ok { IfOk result (λ done. IsTrue (D.state depot.old).tells
        → inputs_end (D.state depot.old).held 1 packets_limit flows.now ≡ all_whole) }
    ensures err { IfErr result (λ why. IsTrue (D.state depot.old).tells
        → (event : Event) → event_of why ≡ Some event
        → inputs_end (D.state depot.old).held 1 packets_limit flows.now ≡ ended_by event) }
    ensures some { OnErr result (0 < length flows.now) }
    ensures frame { OnlyReadsAmong AuditStop.Unread result
        (map (λ flow. flow.input) flows.now) (D.state depot.old) (D.state depot.new) }
{
    let mut left = PACKETS_LIMIT;
    let mut number = 1;
    let mut rest = flows;
    while let [flow, behind @ ..] = rest {
        left = read_input(alloc, depot, flow.input.text(), number, left)?;
        number += 1;
        rest = behind;
    }
    Ok(())
}

/// Reads the capture of the flow of this number to its end, of which so many packets may be read, and tells how many may be read behind it.
/// One packet is held at a time, in memory that is kept from packet to packet.
fn read_input<D: Depot>(
    alloc: Global,
    depot: &mut D,
    name: &str,
    number: u64,
    most: u64,
) -> Result<u64, AuditStop>
    ensures to { IsTrue (D.state depot.old).tells
        → IsReadTo number most ((D.state depot.old).held name.now) result }
    ensures frame { OnlyReads AuditStop.Unread result name.now
        (D.state depot.old) (D.state depot.new) }
{
    let mut reader = match CaptureReader::begin(alloc, depot, name) {
        Ok(reader) => reader,
        Err(stop) => return Err(AuditStop::at(number, stop)),
    };
    let mut packet = PacketIn {
        bytes: Octets::of(Vec::new(alloc)),
        is_ip: false,
    };
    let mut left = most;
    loop {
        match reader.next(depot, &mut packet) {
            Ok(Some(_head)) => {}
            Ok(None) => return Ok(left),
            Err(stop) => return Err(AuditStop::at(number, stop)),
        }
        if left == 0 {
            return Err(AuditStop::TooMany);
        }
        left -= 1;
    }
}
