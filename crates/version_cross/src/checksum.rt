// The checksum of a segment whose addresses change (RFC 1624): the words that go and those that come are all that is summed.

ghost use Rattle.std.specs.Prelude.{◌≡◌, ℕ, ◌+◌, ◌%◌, ◌<◌, ◌≤◌, ◌++◌, List, length, take, drop};
ghost use Rattle.std.specs.Int.{w16, to_be_bytes};
ghost use Rattle.version_cross.specs.Segment.{segment_minimum};
ghost use Rattle.version_cross.specs.Checksum.{address_sum, updated_checksum, written_checksum, crossed_segment};

use crate::segment::{checksum_place, is_udp, segment_checksum};
use ip_headers::{ones_add, ones_sum};

/// The one's complement sum of the words of two addresses.
pub fn address_sum(source: &[u8], destination: &[u8]) -> u16
    ensures { result % 65535 ≡ address_sum source.now destination.now % 65535 }
{
    ones_add(ones_sum(source), ones_sum(destination))
}

/// The checksum with new words in the place of old ones (RFC 1624, section 3, equation 3).
pub fn updated_checksum(checksum: u16, old: u16, new: u16) -> u16
    ensures { result ≡ updated_checksum checksum old new }
{
    let sum = (65535 - u32::from(checksum)) + u32::from(new) + (65535 - u32::from(old));
    // From 1 to 65535, so that all ones never come out.
    let complement = 1 + (sum + 65534) % 65535;
    (65535 - complement) as u16
}

/// The same as it is written: UDP has all ones for 0 (RFC 768).
fn written_checksum(protocol: u8, checksum: u16) -> u16
    ensures { result ≡ written_checksum protocol checksum }
{
    if is_udp(protocol) && checksum == 0 {
        return 65535;
    }
    checksum
}

/// Puts a number of 16 bits at this place, in network order.
fn put_u16(number: u16, place: usize, octets: &mut Vec<u8>)
    requires { place + 1 < length octets.old.items }
    ensures { octets.new.items ≡ take place octets.old.items ++ to_be_bytes w16 number
        ++ drop (place + 2) octets.old.items }
{
    let bytes = number.to_be_bytes();
    octets[place] = bytes[0];
    octets[place + 1] = bytes[1];
}

/// Updates the checksum of the segment at the end of a packet.
pub fn update_segment(protocol: u8, segment: &[u8], old: u16, new: u16, packet: &mut Vec<u8>)
    requires whole { segment_minimum protocol ≤ length segment.now }
    requires within { length segment.now ≤ length packet.old.items }
    ensures { (head : List ℕ) → packet.old.items ≡ head ++ segment.now → packet.new.items ≡ head
        ++ crossed_segment protocol old new segment.now }
{
    let checksum = updated_checksum(segment_checksum(protocol, segment), old, new);
    let place = packet.len() - segment.len() + checksum_place(protocol);
    put_u16(written_checksum(protocol, checksum), place, packet);
}
