//! Whether a packet stands in what was read.
ghost use Rattle.std.specs.Prelude.{◌+◌, ◌<◌, ◌^◌, length};

use crate::head::{PACKET, read_block_head};
use net_io::OctetOrder;

/// Whether these octets, of which the first is the octet `place` of a file, hold the whole block of a packet, and all blocks before it.
pub fn has_packet(order: OctetOrder, place: u64, octets: &[u8]) -> bool
    requires { place + length octets.now < 2 ^ 64 }
{
    let mut order = order;
    let mut rest = octets;
    while let Ok(Some(head)) = read_block_head(order, place, rest) {
        let total = head.total as usize;
        if total > rest.len() {
            return false;
        }
        if head.kind == PACKET {
            return true;
        }
        order = head.order;
        rest = &rest[total..];
    }
    false
}
