//! The head of an enhanced packet block.
ghost use Rattle.std.specs.Prelude.{◌≡◌, ◌+◌, ◌*◌, ◌<◌, ◌≤◌, ◌^◌, length, Some, IfOk};
ghost use Rattle.pcap_frames.specs.Header.{is_link};
ghost use Rattle.pcapng_frames.specs.Numbers.{padded};
ghost use Rattle.pcapng_frames.specs.Section.{Section};
ghost use Rattle.pcapng_frames.specs.Packet.{units_of, units_in_second, nanos_in_unit, ng_head_of, packet_by, packet_at};

use crate::options::padded_length;
use crate::section::SectionTable;
use crate::{Interface, NgFault, NgKind};
use net_io::OctetOrder;

/// How many octets stand in front of a packet's octets.
pub const PACKET_HEAD: usize = 28;

/// The most octets of a packet that are read and written.
pub const MOST_CAPTURED: u32 = 262_144;

/// When a frame was captured, and what it is.
#[derive(Clone, Copy, Debug, PartialEq, Eq)]
pub struct NgHead {
    /// Seconds since the beginning of 1970, UTC.
    pub seconds: u32,
    /// Nanoseconds of that second.
    pub nanos: u32,
    /// 1 (Ethernet), 101 (raw IP), 228 (IPv4) or 229 (IPv6).
    pub link: u32,
}

/// The head of a packet that passes all tests.
#[derive(Clone, Copy, Debug, PartialEq, Eq)]
pub struct PacketHead {
    pub head: NgHead,
    pub captured: u32,
}

/// Whether frames of this link type can be read.
fn is_known_link(link: u16) -> bool
    ensures { result ≡ is_link link }
{
    link == 1 || link == 101 || link == 228 || link == 229
}

/// The packet's time as a count of units.
fn read_units(order: OctetOrder, octets: &[u8]) -> u64
    requires { 28 ≤ length octets.now }
    ensures { result ≡ units_of order octets.now }
{
    let high = order.u32_at(octets, 12);
    let low = order.u32_at(octets, 16);
    u64::from(high) * 0x1_0000_0000 + u64::from(low)
}

/// How many units a second has.
fn second_of(resolution: u8) -> u64
    ensures value { result ≡ units_in_second resolution }
    ensures some { 0 < result }
{
    if resolution == 9 {
        1_000_000_000
    } else {
        1_000_000
    }
}

/// The nanoseconds of so many units, less than a second.
fn nanos_of(resolution: u8, units: u64) -> u32
    requires { units < units_in_second resolution }
    ensures value { result ≡ units * nanos_in_unit resolution }
    ensures fits { result < 1000000000 }
{
    if resolution == 9 {
        units as u32
    } else {
        units as u32 * 1000
    }
}

fn fault(octet: u64, kind: NgKind) -> NgFault
    ensures { result ≡ record { octet = octet; kind = kind } }
{
    NgFault { octet, kind }
}

/// Reads the head of a packet of this interface, in the block of `total` octets at the octet `at`.
fn read_packet_of(
    interface: Interface,
    order: OctetOrder,
    at: u64,
    total: u32,
    octets: &[u8],
) -> Result<PacketHead, NgFault>
    requires head { 28 ≤ length octets.now }
    requires place { at < 2 ^ 40 }
    ensures value { result ≡ packet_by order total at octets.now (Some interface) }
    ensures fits { IfOk result (λ packet. 32 + packet.captured ≤ total) }
    ensures captured { IfOk result (λ packet. packet.captured ≤ 262144) }
    ensures nanos { IfOk result (λ packet. packet.head.nanos < 1000000000) }
{
    if !is_known_link(interface.link) {
        return Err(fault(at + 8, NgKind::LinkType));
    }
    if interface.resolution != 6 && interface.resolution != 9 {
        return Err(fault(at + 8, NgKind::Resolution));
    }
    let captured = order.u32_at(octets, 20);
    if captured > MOST_CAPTURED {
        return Err(fault(at + 20, NgKind::Captured));
    }
    if captured < order.u32_at(octets, 24) {
        return Err(fault(at + 20, NgKind::SnapCut));
    }
    if total < 32 + padded_length(captured) {
        return Err(fault(at + 4, NgKind::BlockLength));
    }
    let units = read_units(order, octets);
    let second = second_of(interface.resolution);
    let seconds = units / second;
    if seconds >= 0x1_0000_0000 {
        return Err(fault(at + 12, NgKind::Time));
    }
    let head = NgHead {
        seconds: seconds as u32,
        nanos: nanos_of(interface.resolution, units % second),
        link: u32::from(interface.link),
    };
    Ok(PacketHead { head, captured })
}

/// Reads the head of the packet whose block of `total` octets begins at the octet `at`, from the octets there.
#[tactic(auto, unfolding(crate::specs::Packet::packet_at))]
pub fn read_packet_head(
    section: &SectionTable,
    order: OctetOrder,
    at: u64,
    total: u32,
    octets: &[u8],
) -> Result<PacketHead, NgFault>
    requires head { 28 ≤ length octets.now }
    requires place { at < 2 ^ 40 }
    ensures value { result ≡ packet_at section.now.section order total at octets.now }
    ensures fits { IfOk result (λ packet. 32 + packet.captured ≤ total) }
    ensures captured { IfOk result (λ packet. packet.captured ≤ 262144) }
    ensures nanos { IfOk result (λ packet. packet.head.nanos < 1000000000) }
{
    let Some(interface) = section.interface(order.u32_at(octets, 8)) else {
        return Err(fault(at + 8, NgKind::Interface));
    };
    read_packet_of(interface, order, at, total, octets)
}
