//! The header of a capture:
//!
//! | Octets | Field |
//! |---|---|
//! | 0 to 3 | magic: 0xA1B2C3D4 (microseconds) or 0xA1B23C4D (nanoseconds), whose order is that of all fields |
//! | 4 to 7 | version: two u16, 2 and 4 |
//! | 8 to 19 | time zone, accuracy, snap length; not read |
//! | 20 to 23 | link type, u32 |
ghost use Rattle.std.specs.Prelude.{◌≡◌, ◌≤◌, length, OnOk};
ghost use Rattle.pcap_frames.specs.Header.{nanos_in, magic_of, is_link, capture_header};

use crate::{CaptureFault, CaptureKind, OctetOrder};

/// How many octets the header has.
pub const CAPTURE_HEAD: usize = 24;

/// The magic of a capture whose fractions are microseconds.
pub const MICROSECONDS: u32 = 0xA1B2_C3D4;

/// The magic of a capture whose fractions are nanoseconds.
pub const NANOSECONDS: u32 = 0xA1B2_3C4D;

/// What the header of a capture says.
#[derive(Clone, Copy, Debug, PartialEq, Eq)]
pub struct CaptureHeader {
    /// The order of octets in all numbers.
    pub order: OctetOrder,
    /// Whether fractions of a second are nanoseconds, and not microseconds.
    pub nanos: bool,
    /// 1 (Ethernet), 101 (raw IP), 228 (IPv4) or 229 (IPv6).
    pub link: u32,
}

/// Whether the magic, read in this order, says nanoseconds.
fn read_nanos(order: OctetOrder, octets: &[u8]) -> Option<bool>
    requires { 4 ≤ length octets.now }
    ensures { result ≡ nanos_in order octets.now }
{
    match order.u32_at(octets, 0) {
        MICROSECONDS => Some(false),
        NANOSECONDS => Some(true),
        _ => None,
    }
}

/// The order and the resolution that the magic names.
#[tactic(auto, unfolding(crate::specs::Header::magic_of))]
fn read_magic(octets: &[u8]) -> Option<(OctetOrder, bool)>
    requires { 4 ≤ length octets.now }
    ensures { result ≡ magic_of octets.now }
{
    if let Some(nanos) = read_nanos(OctetOrder::Little, octets) {
        return Some((OctetOrder::Little, nanos));
    }
    match read_nanos(OctetOrder::Big, octets) {
        Some(nanos) => Some((OctetOrder::Big, nanos)),
        None => None,
    }
}

/// Whether frames of this link type can be read.
fn is_known_link(link: u32) -> bool
    ensures { result ≡ is_link link }
{
    link == 1 || link == 101 || link == 228 || link == 229
}

/// Reads the header of a capture from the file's first octets, of which there are at least 24 or all that the file has.
#[tactic(auto, unfolding(crate::specs::Header::capture_header))]
pub fn read_header(octets: &[u8]) -> Result<CaptureHeader, CaptureFault>
    ensures value { result ≡ capture_header octets.now }
    ensures long { OnOk result (24 ≤ length octets.now) }
{
    if octets.len() < CAPTURE_HEAD {
        return Err(CaptureFault {
            octet: octets.len() as u64,
            kind: CaptureKind::Short,
        });
    }
    let Some((order, nanos)) = read_magic(octets) else {
        return Err(CaptureFault {
            octet: 0,
            kind: CaptureKind::Magic,
        });
    };
    let version = (order.u16_at(octets, 4), order.u16_at(octets, 6));
    if version.0 != 2 || version.1 != 4 {
        return Err(CaptureFault {
            octet: 4,
            kind: CaptureKind::Version,
        });
    }
    let link = order.u32_at(octets, 20);
    if !is_known_link(link) {
        return Err(CaptureFault {
            octet: 20,
            kind: CaptureKind::LinkType,
        });
    }
    Ok(CaptureHeader { order, nanos, link })
}
