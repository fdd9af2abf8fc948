//! Label options by themselves.

ghost use Rattle.std.specs.Prelude.{◌≡◌, ◌≤◌, List, ℕ};
ghost use Rattle.calipso_option.specs.Fault.{IsFaulty};
ghost use Rattle.ip_headers.specs.declared.version.Version.TheVariants.{V4, V6};
ghost use Rattle.packet_label.specs.Wire.{IsWireFault};
ghost use Rattle.netlabel_codec.specs.Status.{IsCodeOf};
ghost use Rattle.netlabel_codec.specs.Read.{TellsOption};
ghost use Rattle.netlabel_codec.specs.Told.{TellsFault};

use crate::told::tell_option;
use crate::{NetlabelLabel, NetlabelRun, Status};
use calipso_option::{CalipsoFault, read_calipso_into};
use cipso_option::read_cipso_into;
use mls_label::{Label, MOST_RUNS};
use packet_label::Mark;

/// Where the checksum of a CALIPSO option stands (RFC 5570, section 5.1).
const CHECKSUM: usize = 8;

/// Tells what the CIPSO option at the front of the octets says, or the first fault: `netlabel_read_cipso`.
#[unsafe(no_mangle)]
pub extern "C" fn netlabel_read_cipso(
    octets: &[u8],
    runs: &mut [NetlabelRun],
    label: &mut NetlabelLabel,
) -> u32
    ensures tells { IsCodeOf (TellsOption V4 octets.now runs.old runs.new label.new) result }
    ensures few { label.new.runs ≤ MOST_RUNS }
{
    read_cipso(octets, runs, label).code()
}

/// Tells what the CALIPSO option at the front of the octets says, or the first fault: `netlabel_read_calipso`. A wrong checksum is a fault at its first
/// octet, and comes last.
#[unsafe(no_mangle)]
pub extern "C" fn netlabel_read_calipso(
    octets: &[u8],
    runs: &mut [NetlabelRun],
    label: &mut NetlabelLabel,
) -> u32
    ensures tells { IsCodeOf (TellsOption V6 octets.now runs.old runs.new label.new) result }
    ensures few { label.new.runs ≤ MOST_RUNS }
{
    read_calipso(octets, runs, label).code()
}

fn read_cipso(octets: &[u8], runs: &mut [NetlabelRun], label: &mut NetlabelLabel) -> Status
    ensures tells { TellsOption V4 octets.now runs.old runs.new label.new result }
    ensures few { label.new.runs ≤ MOST_RUNS }
{
    let mut read = Label::lowest();
    match read_cipso_into(octets, &mut read) {
        Ok(head) => {
            let mark = Mark::Cipso {
                at: 0,
                doi: head.doi,
                tag: head.tag,
            };
            tell_option(mark, head.length, &read, runs, label)
        }
        Err(fault) => tell_fault(fault.octet, label),
    }
}

fn read_calipso(octets: &[u8], runs: &mut [NetlabelRun], label: &mut NetlabelLabel) -> Status
    ensures tells { TellsOption V6 octets.now runs.old runs.new label.new result }
    ensures few { label.new.runs ≤ MOST_RUNS }
{
    let mut read = Label::lowest();
    match read_calipso_into(octets, &mut read) {
        Ok(head) => {
            let mark = Mark::Calipso {
                at: 0,
                doi: head.doi,
            };
            tell_option(mark, head.length, &read, runs, label)
        }
        Err(fault) => tell_fault(octet_of(fault), label),
    }
}

// Where a fault of a CALIPSO option is told.
fn octet_of(fault: CalipsoFault) -> usize
    ensures { (octets : List ℕ) → IsFaulty octets fault → IsWireFault V6 octets result }
{
    match fault {
        CalipsoFault::Wire(fault) => fault.octet,
        CalipsoFault::BadChecksum { .. } => CHECKSUM,
    }
}

// The first fault of an option; the runs stay as they are.
fn tell_fault(octet: usize, label: &mut NetlabelLabel) -> Status
    ensures tells { (runs : List NetlabelRun)
        → TellsFault Status.BadOption octet runs runs label.new result }
    ensures none { label.new.runs ≡ 0 }
{
    *label = NetlabelLabel::nothing_at(octet);
    Status::BadOption
}
