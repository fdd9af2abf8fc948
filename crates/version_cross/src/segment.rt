// Segments of TCP (RFC 793, section 3.1) and of UDP (RFC 768).

ghost use Rattle.std.specs.Prelude.{◌≡◌, ◌≤◌, length};
ghost use Rattle.version_cross.specs.Segment.{is_udp, is_transport, segment_minimum, checksum_place, segment_checksum};

use mls_label::u16_at;

/// The protocol number of TCP.
const TCP: u8 = 6;

/// The protocol number of UDP.
const UDP: u8 = 17;

/// Whether it is UDP.
pub fn is_udp(protocol: u8) -> bool
    ensures { result ≡ is_udp protocol }
{
    protocol == UDP
}

/// Whether it is TCP or UDP.
pub fn is_transport(protocol: u8) -> bool
    ensures { result ≡ is_transport protocol }
{
    protocol == TCP || is_udp(protocol)
}

/// How long a segment is at least.
pub fn segment_minimum(protocol: u8) -> usize
    ensures { result ≡ segment_minimum protocol }
{
    if is_udp(protocol) { 8 } else { 20 }
}

/// The octet at which its checksum stands.
pub fn checksum_place(protocol: u8) -> usize
    ensures { result ≡ checksum_place protocol }
{
    if is_udp(protocol) { 6 } else { 16 }
}

/// Its checksum.
pub fn segment_checksum(protocol: u8, segment: &[u8]) -> u16
    requires { segment_minimum protocol ≤ length segment.now }
    ensures { result ≡ segment_checksum protocol segment.now }
{
    u16_at(segment, checksum_place(protocol))
}
