//! Packets read.

ghost use Rattle.std.specs.Prelude.{◌≡◌, ◌+◌, ◌^◌, ◌<◌, length, Ok, Err, IfOk, IfErr};
ghost use Rattle.std.specs.Option.{option_map};
ghost use Rattle.ip_headers.specs.declared.version.Version.TheVariants.{V4, V6};
ghost use Rattle.ip_headers.specs.Options.{IsOption};
ghost use Rattle.packet_label.specs.Packet.{IsOfItsVersion, IsPacket, headers_of, label_place, labelled};
ghost use Rattle.packet_label.specs.Choice.{chosen, front_in, headers_in};
ghost use Rattle.packet_label.specs.Wire.{HasTenOctets, IsWire, marked_wire, wire_with};
ghost use Rattle.packet_label.specs.Fault.{IsPacketFault, told};
ghost use Rattle.packet_label.specs.inside.Read.{BreaksWire};

use crate::{Carried, CarryFault, Mark, Marked, Packet, Wire};
use calipso_option::{CalipsoFault, read_calipso_into};
use cipso_option::read_cipso_into;
use ip_headers::{HeadFault, HeadKind, Version, front4, front6, read4, read6};
use mls_label::Label;

/// Where the checksum of a CALIPSO option stands (RFC 5570, section 5.1).
const CHECKSUM: usize = 8;

/// The fault of octets that name no version.
const NO_VERSION: HeadFault = HeadFault {
    octet: 0,
    kind: HeadKind::Version,
};

/// The packet at the front of the octets, with what its label option says. What follows its own length is ignored.
///
/// An error is the first fault: of the header, where the upper half of the first octet chooses between the versions, or else
/// of the label option, counted from the packet's first octet. A second label option is a fault of the option, where it
/// stands (FIPS 188, RFC 5570).
pub fn carried(bytes: &[u8]) -> Result<Carried<'_>, CarryFault>
    ensures ok { IfOk result
        (λ carried. IsPacket bytes.now (labelled (headers_of carried.packet) carried.wire)) }
    ensures version { IfOk result (λ carried. IsOfItsVersion carried.packet) }
    ensures within { IfOk result (λ carried. HasTenOctets bytes.now carried.wire) }
    ensures err { IfErr result (λ fault. IsPacketFault bytes.now fault) }
{
    let mut label = Label::lowest();
    let Marked { packet, mark } = carried_into(bytes, &mut label)?;
    Ok(Carried {
        packet,
        wire: wire_of(mark, label),
    })
}

// What a label option says, with its label.
fn wire_of(mark: Option<Mark>, label: Label) -> Option<Wire>
    ensures { result ≡ wire_with mark label }
{
    match mark {
        Some(Mark::Cipso { at, doi, tag }) => Some(Wire::Cipso {
            at,
            doi,
            tag,
            label,
        }),
        Some(Mark::Calipso { at, doi }) => Some(Wire::Calipso { at, doi, label }),
        None => None,
    }
}

/// The same with the label in place of the one that is lent, which is any label where there is none or after a fault.
pub fn carried_into<'a>(bytes: &'a [u8], label: &mut Label) -> Result<Marked<'a>, CarryFault>
    ensures ok { IfOk result
        (λ marked. IsPacket bytes.now
        (labelled (headers_of marked.packet) (wire_with marked.mark label.new))) }
    ensures version { IfOk result (λ marked. IsOfItsVersion marked.packet) }
    ensures within { IfOk result
        (λ marked. HasTenOctets bytes.now (wire_with marked.mark label.new)) }
    ensures err { IfErr result (λ fault. IsPacketFault bytes.now fault) }
{
    let packet = match headers(bytes) {
        Ok(packet) => packet,
        Err(fault) => return Err(told(fault)),
    };
    let mark = match packet.label_option() {
        Some((at, option)) => Some(read_option(packet.version(), at, option, label)?),
        None => None,
    };
    Ok(Marked { packet, mark })
}

/// The packet at the front of the octets, and the octet of its first label option, whose content isn't read. A second label
/// option is no fault here. Octets that name no version have the fault Version at octet 0.
pub fn label_at(bytes: &[u8]) -> Result<(Packet<'_>, Option<usize>), HeadFault>
    ensures ok { IfOk result (λ found. front_in bytes.now ≡ Ok (headers_of found.0)) }
    ensures version { IfOk result (λ found. IsOfItsVersion found.0) }
    ensures place { IfOk result (λ found. found.1 ≡ label_place found.0) }
    ensures err { IfErr result (λ fault. front_in bytes.now ≡ Err fault) }
{
    let packet = front(bytes)?;
    let place = packet.label_option().map(|(at, _)| at);
    Ok((packet, place))
}

// The version that the first octet names.
fn version(bytes: &[u8]) -> Option<Version>
    ensures { result ≡ chosen bytes.now }
{
    if bytes.is_empty() {
        return None;
    }
    match bytes[0] / 16 {
        4 => Some(Version::V4),
        6 => Some(Version::V6),
        _ => None,
    }
}

// The packet at the front of the octets, whose label option isn't read. It is always inlined, so that a packet is made where it stays.
#[inline(always)]
fn headers(bytes: &[u8]) -> Result<Packet<'_>, HeadFault>
    ensures ok { IfOk result (λ packet. headers_in bytes.now ≡ Ok (headers_of packet)) }
    ensures version { IfOk result (λ packet. IsOfItsVersion packet) }
    ensures err { IfErr result (λ fault. headers_in bytes.now ≡ Err fault) }
{
    match version(bytes) {
        Some(Version::V4) => Ok(Packet::V4(read4(bytes)?)),
        Some(Version::V6) => Ok(Packet::V6(read6(bytes)?)),
        None => Err(NO_VERSION),
    }
}

// The same without the test for a second label option.
#[inline(always)]
fn front(bytes: &[u8]) -> Result<Packet<'_>, HeadFault>
    ensures ok { IfOk result (λ packet. front_in bytes.now ≡ Ok (headers_of packet)) }
    ensures version { IfOk result (λ packet. IsOfItsVersion packet) }
    ensures err { IfErr result (λ fault. front_in bytes.now ≡ Err fault) }
{
    match version(bytes) {
        Some(Version::V4) => Ok(Packet::V4(front4(bytes)?)),
        Some(Version::V6) => Ok(Packet::V6(front6(bytes)?)),
        None => Err(NO_VERSION),
    }
}

// How a header's fault is told: a second label option is a fault of the option.
fn told(fault: HeadFault) -> CarryFault
    ensures { result ≡ told fault.octet fault.kind }
{
    match fault.kind {
        HeadKind::SecondLabel => CarryFault::Option { octet: fault.octet },
        _ => CarryFault::Header { octet: fault.octet },
    }
}

// The label option of a packet of this version, at this octet.
fn read_option(
    version: Version,
    at: usize,
    option: &[u8],
    label: &mut Label,
) -> Result<Mark, CarryFault>
    requires whole { IsOption version option.now }
    requires fits { at + length option.now < 2 ^ 64 }
    ensures ok { IfOk result
        (λ mark. IsWire version (record { place = at; octets = option.now })
        (marked_wire mark label.new)) }
    ensures err { IfErr result
        (λ fault. BreaksWire version (record { place = at; octets = option.now }) fault) }
{
    match version {
        Version::V4 => read_cipso_at(at, option, label),
        Version::V6 => read_calipso_at(at, option, label),
    }
}

// The CIPSO option at this octet of its packet.
fn read_cipso_at(at: usize, option: &[u8], label: &mut Label) -> Result<Mark, CarryFault>
    requires whole { IsOption V4 option.now }
    requires fits { at + length option.now < 2 ^ 64 }
    ensures ok { IfOk result
        (λ mark. IsWire V4 (record { place = at; octets = option.now })
        (marked_wire mark label.new)) }
    ensures err { IfErr result
        (λ fault. BreaksWire V4 (record { place = at; octets = option.now }) fault) }
{
    match read_cipso_into(option, label) {
        Ok(head) => Ok(Mark::Cipso {
            at,
            doi: head.doi,
            tag: head.tag,
        }),
        Err(fault) => Err(fault_in(at, fault.octet)),
    }
}

// The CALIPSO option at this octet of its packet.
fn read_calipso_at(at: usize, option: &[u8], label: &mut Label) -> Result<Mark, CarryFault>
    requires whole { IsOption V6 option.now }
    requires fits { at + length option.now < 2 ^ 64 }
    ensures ok { IfOk result
        (λ mark. IsWire V6 (record { place = at; octets = option.now })
        (marked_wire mark label.new)) }
    ensures err { IfErr result
        (λ fault. BreaksWire V6 (record { place = at; octets = option.now }) fault) }
{
    match read_calipso_into(option, label) {
        Ok(head) => Ok(Mark::Calipso { at, doi: head.doi }),
        Err(CalipsoFault::Wire(fault)) => Err(fault_in(at, fault.octet)),
        Err(CalipsoFault::BadChecksum { .. }) => Err(fault_in(at, CHECKSUM)),
    }
}

// The fault at this octet of the option that begins there.
fn fault_in(at: usize, octet: usize) -> CarryFault
    requires { at + octet < 2 ^ 64 }
    ensures { result ≡ CarryFault.Option (at + octet) }
{
    CarryFault::Option { octet: at + octet }
}
