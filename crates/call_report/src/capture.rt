//! Lines of captures that are broken.

ghost use Rattle.std.specs.Prelude.{◌≡◌, ◌++◌, codes, OnOk, OnErr};
ghost use Rattle.call_report.specs.Lines.Parts.{octet_detail};
ghost use Rattle.call_report.specs.Lines.Capture.{kind_name, ng_kind_name, fault_text, capture_line};
ghost use Rattle.call_report.specs.inside.Extends.{Extends};

use crate::parts::append_octet;
use crate::whole::all_or_nothing;
use captures::FileFault;
use mls_label::{OutOfMemory, write_decimal};
use pcap_frames::CaptureKind;
use pcapng_frames::NgKind;

/// Appends the line of a capture that is broken, by the capture's number. After an error `line` is as it was.
pub fn write_capture(number: u64, fault: FileFault, line: &mut Vec<u8>) -> Result<(), OutOfMemory>
    ensures ok { OnOk result (line.new.items ≡ line.old.items ++ capture_line number fault) }
    ensures err { OnErr result (line.new.items ≡ line.old.items) }
{
    let before = line.len();
    let written = append_capture(number, fault, line);
    all_or_nothing(written, before, line)
}

/// Appends it, or a part of it where memory runs out.
#[tactic(auto, unfolding(crate::specs::Lines::Capture::capture_line))]
fn append_capture(number: u64, fault: FileFault, line: &mut Vec<u8>) -> Result<(), OutOfMemory>
    ensures ok { OnOk result (line.new.items ≡ line.old.items ++ capture_line number fault) }
    ensures err { OnErr result (Extends line.old.items line.new.items) }
{
    line.extend_from_slice(b"capture ")?;
    write_decimal(number, line)?;
    append_fault(fault, line)?;
    line.push(b'\n')?;
    Ok(())
}

/// Appends a fault's octet and its name.
fn append_fault(fault: FileFault, line: &mut Vec<u8>) -> Result<(), OutOfMemory>
    ensures ok { OnOk result (line.new.items ≡ line.old.items ++ fault_text fault) }
    ensures err { OnErr result (Extends line.old.items line.new.items) }
{
    match fault {
        FileFault::Pcap(fault) => append_place(fault.octet, kind_name(fault.kind), line),
        FileFault::Pcapng(fault) => append_place(fault.octet, ng_kind_name(fault.kind), line),
    }
}

/// Appends the octet of a fault and the name of what is wrong there.
fn append_place(octet: u64, name: &str, line: &mut Vec<u8>) -> Result<(), OutOfMemory>
    ensures ok { OnOk result
        (line.new.items ≡ line.old.items ++ (octet_detail octet ++ codes " " ++ name.now)) }
    ensures err { OnErr result (Extends line.old.items line.new.items) }
{
    append_octet(octet, line)?;
    line.extend_from_slice(b" ")?;
    line.extend_from_slice(name.as_bytes())?;
    Ok(())
}

/// The name under which a libpcap file's fault is reported, that of its variant.
fn kind_name(kind: CaptureKind) -> &'static str
    ensures { result.now ≡ kind_name kind }
{
    match kind {
        CaptureKind::Magic => "Magic",
        CaptureKind::Version => "Version",
        CaptureKind::LinkType => "LinkType",
        CaptureKind::Captured => "Captured",
        CaptureKind::SnapCut => "SnapCut",
        CaptureKind::Short => "Short",
    }
}

/// The name under which a pcapng file's fault is reported, that of its variant.
fn ng_kind_name(kind: NgKind) -> &'static str
    ensures { result.now ≡ ng_kind_name kind }
{
    match kind {
        NgKind::Short => "Short",
        NgKind::Long => "Long",
        NgKind::Magic => "Magic",
        NgKind::BlockLength => "BlockLength",
        NgKind::Trailer => "Trailer",
        NgKind::Version => "Version",
        NgKind::Block => "Block",
        NgKind::Options => "Options",
        NgKind::Interface => "Interface",
        NgKind::LinkType => "LinkType",
        NgKind::Resolution => "Resolution",
        NgKind::Captured => "Captured",
        NgKind::SnapCut => "SnapCut",
        NgKind::Time => "Time",
    }
}
