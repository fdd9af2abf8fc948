//! The packet of IP in a frame.
ghost use Rattle.std.specs.Prelude.{◌≡◌, ◌≤◌, length, drop, IfSome, option_map, false};
ghost use Rattle.pcap_frames.specs.Ip.{ip_part_of};
ghost use Rattle.captures.specs.Frame.{packet_in};

use crate::packet_in::{Octets, PacketIn};
use pcap_frames::{FrameHead, ip_part};
use std::alloc::Global;
use std::mem;

/// Takes the memory of a packet, and leaves one of no octets.
pub(crate) fn taken(alloc: Global, packet: &mut PacketIn) -> Vec<u8> {
    let bytes = mem::replace(&mut packet.bytes, Octets::of(Vec::new(alloc)));
    bytes.into_room()
}

/// How many octets stand in front of the packet in a frame of this link type.
fn front_of(link: u32, octets: &[u8]) -> Option<usize>
    ensures within { IfSome result (λ front. front ≤ length octets.now) }
    ensures part { option_map (λ front. drop front octets.now) result ≡ ip_part_of link octets.now }
{
    let part = ip_part(link, octets)?;
    Some(octets.len() - part.len())
}

/// The packet in a frame of this link type, in the frame's memory.
pub(crate) fn packet_of(link: u32, octets: Vec<u8>) -> PacketIn
    ensures packet { (head : FrameHead) → result
        ≡ packet_in (record { head = head; link = link; octets = octets.items }) }
    ensures short { length result.bytes ≤ length octets.items }
{
    let Some(front) = front_of(link, &octets) else {
        return no_packet(octets);
    };
    let bytes = Octets::behind(octets, front);
    PacketIn { bytes, is_ip: true }
}

/// These octets, which are no packet of IP.
pub(crate) fn no_packet(octets: Vec<u8>) -> PacketIn
    ensures { result ≡ record { bytes = octets.items; is_ip = false } }
{
    let bytes = Octets::of(octets);
    PacketIn {
        bytes,
        is_ip: false,
    }
}
