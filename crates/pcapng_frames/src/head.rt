//! The head of a block: a type and a total length, which stands again in its last four octets.
ghost use Rattle.std.specs.Prelude.{◌≡◌, ◌+◌, ◌<◌, ◌≤◌, ◌^◌, length, IfOk, IfSome};
ghost use Rattle.pcapng_frames.specs.Head.{is_section_header, section_order, block_order, least_total, is_total, block_head_at};

use crate::{NgFault, NgKind};
use net_io::OctetOrder;

/// How many octets a block has at least: type, total length, and total length again.
pub const LEAST_BLOCK: usize = 12;

/// The octet of a file at which no block begins any more, nor behind it.
pub const MOST_PLACE: u64 = 0x100_0000_0000;

/// The type of a section header block; in both orders it is the same.
pub const SECTION_HEADER: u32 = 0x0A0D_0D0A;

/// The type of an interface description block.
pub const INTERFACE: u32 = 1;

/// The type of an obsolete packet block.
pub const OBSOLETE: u32 = 2;

/// The type of a simple packet block.
pub const SIMPLE: u32 = 3;

/// The type of an enhanced packet block.
pub const PACKET: u32 = 6;

/// The magic of a section header.
const SECTION_MAGIC: u32 = 0x1A2B_3C4D;

/// Type and total length of a block, and the order of octets in it.
#[derive(Clone, Copy, Debug, PartialEq, Eq)]
pub struct BlockHead {
    pub order: OctetOrder,
    pub kind: u32,
    pub total: u32,
}

/// The order that the magic of a section header names.
#[tactic(auto, unfolding(crate::specs::Head::section_order))]
fn read_section_order(octets: &[u8]) -> Option<OctetOrder>
    requires { 12 ≤ length octets.now }
    ensures { result ≡ section_order octets.now }
{
    if OctetOrder::Little.u32_at(octets, 8) == SECTION_MAGIC {
        Some(OctetOrder::Little)
    } else if OctetOrder::Big.u32_at(octets, 8) == SECTION_MAGIC {
        Some(OctetOrder::Big)
    } else {
        None
    }
}

/// The order of a block's numbers, in a section of this order.
fn read_block_order(order: OctetOrder, octets: &[u8]) -> Option<OctetOrder>
    requires { 12 ≤ length octets.now }
    ensures { result ≡ block_order order octets.now }
{
    if OctetOrder::Little.u32_at(octets, 0) == SECTION_HEADER {
        read_section_order(octets)
    } else {
        Some(order)
    }
}

/// The least total length of a block of this type.
fn least_of(kind: u32) -> u32
    ensures { result ≡ least_total kind }
{
    match kind {
        SECTION_HEADER => 28,
        INTERFACE => 20,
        PACKET => 32,
        _ => 12,
    }
}

/// Whether a block of this type may have this total length.
fn is_total_length(kind: u32, total: u32) -> bool
    ensures { result ≡ is_total kind total }
{
    total % 4 == 0 && least_of(kind) <= total
}

/// Reads the head of the block at the octet `at` of a file, from the octets there: at least 12, or all that are left.
#[tactic(auto, unfolding(crate::specs::Head::block_head_at))]
pub fn read_block_head(
    order: OctetOrder,
    at: u64,
    octets: &[u8],
) -> Result<Option<BlockHead>, NgFault>
    requires { at + length octets.now < 2 ^ 64 }
    ensures value { result ≡ block_head_at order at octets.now }
    ensures head { IfOk result (λ read. IfSome read (λ head. 12 ≤ length octets.now)) }
    ensures place { IfOk result (λ read. IfSome read (λ head. at < 2 ^ 40)) }
    ensures least { IfOk result (λ read. IfSome read (λ head. least_total head.kind ≤ head.total)) }
{
    if octets.is_empty() {
        return Ok(None);
    }
    if octets.len() < LEAST_BLOCK {
        return Err(NgFault {
            octet: at + octets.len() as u64,
            kind: NgKind::Short,
        });
    }
    if at >= MOST_PLACE {
        return Err(NgFault {
            octet: at,
            kind: NgKind::Long,
        });
    }
    let Some(order) = read_block_order(order, octets) else {
        return Err(NgFault {
            octet: at + 8,
            kind: NgKind::Magic,
        });
    };
    let kind = order.u32_at(octets, 0);
    let total = order.u32_at(octets, 4);
    if !is_total_length(kind, total) {
        return Err(NgFault {
            octet: at + 4,
            kind: NgKind::BlockLength,
        });
    }
    Ok(Some(BlockHead { order, kind, total }))
}
