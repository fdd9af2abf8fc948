//! Packets.

ghost use Rattle.std.specs.Prelude.{◌≡◌, ◌≤◌, List};
ghost use Rattle.packet_label.specs.Wire.{wire_with};
ghost use Rattle.netlabel_codec.specs.Status.{IsCodeOf};
ghost use Rattle.netlabel_codec.specs.Read.{TellsAnswer, TellsPacket};
ghost use Rattle.netlabel_codec.specs.Told.{TellsWire};

use crate::told::tell_option;
use crate::{NetlabelLabel, NetlabelRun, Status};
use mls_label::{Label, MOST_RUNS};
use packet_label::{CarryFault, Mark, carried_into};

/// Tells what the label option of the packet at the front of the octets says, or the first fault: `netlabel_read_packet`.
#[unsafe(no_mangle)]
pub extern "C" fn netlabel_read_packet(
    octets: &[u8],
    runs: &mut [NetlabelRun],
    label: &mut NetlabelLabel,
) -> u32
    ensures tells { IsCodeOf (TellsPacket octets.now runs.old runs.new label.new) result }
    ensures few { label.new.runs ≤ MOST_RUNS }
{
    read_packet(octets, runs, label).code()
}

fn read_packet(octets: &[u8], runs: &mut [NetlabelRun], label: &mut NetlabelLabel) -> Status
    ensures tells { TellsPacket octets.now runs.old runs.new label.new result }
    ensures few { label.new.runs ≤ MOST_RUNS }
{
    let mut read = Label::lowest();
    match carried_into(octets, &mut read) {
        Ok(marked) => tell_mark(marked.mark, &read, runs, label),
        Err(fault) => tell_fault(fault, label),
    }
}

// What a packet carries.
fn tell_mark(
    mark: Option<Mark>,
    read: &Label,
    runs: &mut [NetlabelRun],
    label: &mut NetlabelLabel,
) -> Status
    ensures tells { TellsWire 0 (wire_with mark read.now) runs.old runs.new label.new result }
    ensures few { label.new.runs ≤ MOST_RUNS }
{
    match mark {
        Some(mark) => tell_option(mark, 0, read, runs, label),
        None => {
            *label = NetlabelLabel::nothing_at(0);
            Status::Done
        }
    }
}

// Why octets are no packet; the runs stay as they are.
fn tell_fault(fault: CarryFault, label: &mut NetlabelLabel) -> Status
    ensures tells { (runs : List NetlabelRun) → TellsAnswer (Err fault) runs runs label.new result }
    ensures none { label.new.runs ≡ 0 }
{
    let (status, octet) = match fault {
        CarryFault::Header { octet } => (Status::BadHeader, octet),
        CarryFault::Option { octet } => (Status::BadOption, octet),
    };
    *label = NetlabelLabel::nothing_at(octet);
    status
}
