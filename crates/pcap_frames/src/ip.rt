//! The IP packet of a frame.
ghost use Rattle.std.specs.Prelude.{◌≡◌, ◌≤◌, length, option_copied};
ghost use Rattle.pcap_frames.specs.Ip.{has_vlan_tag, typed_part, ethernet_part, ip_part_of};

use crate::OctetOrder;

/// The EtherType of a tag of IEEE 802.1Q.
const VLAN: u16 = 0x8100;

/// The octets behind an EtherType of IPv4 or IPv6, which stands first.
fn behind_type(octets: &[u8]) -> Option<&[u8]>
    requires { 2 ≤ length octets.now }
    ensures { option_copied result ≡ typed_part octets.now }
{
    match OctetOrder::Big.u16_at(octets, 0) {
        0x0800 | 0x86DD => Some(&octets[2..]),
        _ => None,
    }
}

/// Whether a VLAN tag stands where the EtherType is looked for, and an EtherType behind it.
fn is_vlan_tagged(octets: &[u8]) -> bool
    requires { 14 ≤ length octets.now }
    ensures { result ≡ has_vlan_tag octets.now }
{
    OctetOrder::Big.u16_at(octets, 12) == VLAN && octets.len() >= 18
}

/// The IP packet of an Ethernet frame.
fn behind_ethernet(octets: &[u8]) -> Option<&[u8]>
    ensures { option_copied result ≡ ethernet_part octets.now }
{
    if octets.len() < 14 {
        return None;
    }
    if is_vlan_tagged(octets) {
        return behind_type(&octets[16..]);
    }
    behind_type(&octets[12..])
}

/// The IP packet of a frame of this link type; None where the frame isn't IP: an Ethernet frame (link type 1) with another
/// EtherType than 0x0800 and 0x86DD behind at most one VLAN tag, or another link type than 1, 101, 228 and 229.
#[tactic(auto, unfolding(crate::specs::Ip::ip_part_of))]
pub fn ip_part(link: u32, bytes: &[u8]) -> Option<&[u8]>
    ensures { option_copied result ≡ ip_part_of link bytes.now }
{
    match link {
        1 => behind_ethernet(bytes),
        101 | 228 | 229 => Some(bytes),
        _ => None,
    }
}
