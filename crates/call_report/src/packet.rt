//! Lines of the packets of a capture that is shown.

ghost use Rattle.std.specs.Prelude.{◌≡◌, [], ◌∷◌, ◌++◌, List, ℕ, Some, OnOk, OnErr};
ghost use Rattle.std.specs.Fmt.{decimal};
ghost use Rattle.mls_range.specs.LabelText.{label_text};
ghost use Rattle.cipso_tags.specs.Tag.{tag_type};
ghost use Rattle.packet_label.specs.declared.packet.Wire.TheVariants as wire;
ghost use Rattle.packet_label.specs.Wire.{wire_with};
ghost use Rattle.call_report.specs.Lines.Parts.{octet_detail};
ghost use Rattle.call_report.specs.Lines.Packet.{option_text, IsShown, shown_line, shown_end_line};
ghost use Rattle.call_report.specs.inside.Extends.{Extends};

use crate::parts::append_octet;
use crate::whole::all_or_nothing;
use label_flow::PacketIn;
use mls_label::{Label, OutOfMemory, Tag, write_decimal};
use mls_range::write_label;
use packet_label::{CarryFault, Mark, carried_into};

/// Appends the line of a packet by its number: what it carries, or that it is a frame without a packet of IP. The label is lent.
/// After an error `line` is as it was.
pub fn write_packet(
    number: u64,
    packet: &PacketIn,
    label: &mut Label,
    line: &mut Vec<u8>,
) -> Result<(), OutOfMemory>
    ensures ok { OnOk result
        ((text : List ℕ) × IsShown packet.now text
        × (line.new.items ≡ line.old.items ++ shown_line number text)) }
    ensures err { OnErr result (line.new.items ≡ line.old.items) }
{
    let before = line.len();
    let written = append_packet(number, packet, label, line);
    all_or_nothing(written, before, line)
}

/// Appends it, or a part of it where memory runs out.
#[tactic(auto, unfolding(crate::specs::Lines::Packet::shown_line))]
fn append_packet(
    number: u64,
    packet: &PacketIn,
    label: &mut Label,
    line: &mut Vec<u8>,
) -> Result<(), OutOfMemory>
    ensures ok { OnOk result
        ((text : List ℕ) × IsShown packet.now text
        × (line.new.items ≡ line.old.items ++ shown_line number text)) }
    ensures err { OnErr result (Extends line.old.items line.new.items) }
{
    line.extend_from_slice(b"packet ")?;
    write_decimal(number, line)?;
    line.extend_from_slice(b" ")?;
    append_text(packet, label, line)?;
    line.push(b'\n')?;
    Ok(())
}

/// Appends what a packet carries, or that it is none of IP.
fn append_text(packet: &PacketIn, label: &mut Label, line: &mut Vec<u8>) -> Result<(), OutOfMemory>
    ensures ok { OnOk result
        ((text : List ℕ) × IsShown packet.now text
        × (line.new.items ≡ line.old.items ++ text)) }
    ensures err { OnErr result (Extends line.old.items line.new.items) }
{
    if !packet.is_ip {
        line.extend_from_slice(b"NotIp")?;
        return Ok(());
    }
    match carried_into(packet.bytes.as_slice(), label) {
        Ok(marked) => append_option(marked.mark, label, line),
        Err(CarryFault::Header { octet }) => append_fault(b"BadHeader", octet, line),
        Err(CarryFault::Option { octet }) => append_fault(b"BadOption", octet, line),
    }
}

/// Appends a fault of a packet by its name and its octet.
fn append_fault(name: &[u8], octet: usize, line: &mut Vec<u8>) -> Result<(), OutOfMemory>
    ensures ok { OnOk result (line.new.items ≡ line.old.items ++ (name.now ++ octet_detail octet)) }
    ensures err { OnErr result (Extends line.old.items line.new.items) }
{
    line.extend_from_slice(name)?;
    append_octet(octet as u64, line)?;
    Ok(())
}

/// Appends what a label option says, where there is one; its label is lent.
fn append_option(mark: Option<Mark>, label: &Label, line: &mut Vec<u8>) -> Result<(), OutOfMemory>
    ensures ok { OnOk result
        (line.new.items ≡ line.old.items ++ option_text (wire_with mark label.now)) }
    ensures err { OnErr result (Extends line.old.items line.new.items) }
{
    match mark {
        None => {
            line.extend_from_slice(b"unlbl")?;
            Ok(())
        }
        Some(Mark::Cipso { at, doi, tag }) => append_cipso(at, doi, tag, label, line),
        Some(Mark::Calipso { at, doi }) => append_calipso(at, doi, label, line),
    }
}

/// Appends what a CIPSO option at this octet says.
fn append_cipso(
    at: usize,
    doi: u32,
    tag: Tag,
    label: &Label,
    line: &mut Vec<u8>,
) -> Result<(), OutOfMemory>
    ensures ok { OnOk result
        (line.new.items ≡ line.old.items ++ option_text (Some (wire.Cipso at doi tag label.now))) }
    ensures err { OnErr result (Extends line.old.items line.new.items) }
{
    line.extend_from_slice(b"cipsov4 doi ")?;
    write_decimal(u64::from(doi), line)?;
    line.extend_from_slice(&[b' ', b't', b'a', b'g', b' ', type_digit(tag), b' '])?;
    append_said(label, at, line)
}

/// Appends what a CALIPSO option at this octet says.
fn append_calipso(at: usize, doi: u32, label: &Label, line: &mut Vec<u8>) -> Result<(), OutOfMemory>
    ensures ok { OnOk result
        (line.new.items ≡ line.old.items ++ option_text (Some (wire.Calipso at doi label.now))) }
    ensures err { OnErr result (Extends line.old.items line.new.items) }
{
    line.extend_from_slice(b"calipso doi ")?;
    write_decimal(u64::from(doi), line)?;
    line.extend_from_slice(b" ")?;
    append_said(label, at, line)
}

/// The type of a tag, which has one digit.
#[tactic(auto, using(std::proofs::lemmas::Fmt::decimal_digit))]
fn type_digit(tag: Tag) -> u8
    ensures { decimal (tag_type tag) ≡ result ∷ [] }
{
    match tag {
        Tag::One => b'1',
        Tag::Two => b'2',
        Tag::Five => b'5',
    }
}

/// Appends a label, and the octet of its option.
fn append_said(label: &Label, at: usize, line: &mut Vec<u8>) -> Result<(), OutOfMemory>
    ensures ok { OnOk result
        (line.new.items ≡ line.old.items ++ (label_text label.now ++ octet_detail at)) }
    ensures err { OnErr result (Extends line.old.items line.new.items) }
{
    write_label(label, line)?;
    append_octet(at as u64, line)?;
    Ok(())
}

/// Appends the line behind all packets of a capture: how many there are. After an error `line` is as it was.
pub fn write_packets_end(count: u64, line: &mut Vec<u8>) -> Result<(), OutOfMemory>
    ensures ok { OnOk result (line.new.items ≡ line.old.items ++ shown_end_line count) }
    ensures err { OnErr result (line.new.items ≡ line.old.items) }
{
    let before = line.len();
    let written = append_packets_end(count, line);
    all_or_nothing(written, before, line)
}

/// Appends it, or a part of it where memory runs out.
#[tactic(auto, unfolding(crate::specs::Lines::Packet::shown_end_line))]
fn append_packets_end(count: u64, line: &mut Vec<u8>) -> Result<(), OutOfMemory>
    ensures ok { OnOk result (line.new.items ≡ line.old.items ++ shown_end_line count) }
    ensures err { OnErr result (Extends line.old.items line.new.items) }
{
    line.extend_from_slice(b"end packets ")?;
    write_decimal(count, line)?;
    line.push(b'\n')?;
    Ok(())
}
