//! Packets and their octets.
ghost use Rattle.std.specs.Prelude.{◌≡◌, ◌+◌, ◌-◌, ◌<◌, ◌≤◌, ◌++◌, ◌^◌, IsTrue, [], Ok, length, take, drop, min, vec_len, vec_capacity, OnOk, IfOk};
ghost use Rattle.net_io.specs.Depot.{octets_of, OnlyReads};
ghost use Rattle.net_io.specs.file_window.Window.{IsFrom};
ghost use Rattle.pcapng_frames.specs.Packet.{packet_at};
ghost use Rattle.pcapng_frames.specs.Block.{packet_block};
ghost use Rattle.pcapng_frames.specs.Reader.{IsNgAnswer};
ghost use Rattle.pcapng_frames.specs.inside.Parts.{rest_at, IsAhead, frame_block};

use crate::head::BlockHead;
use crate::look::stop_at;
use crate::packet::{NgHead, PACKET_HEAD, read_packet_head};
use crate::section::SectionTable;
use crate::{NgKind, NgStop};
use net_io::{Depot, Window, take_behind};

/// Takes the octets of a packet.
fn take_octets<D: Depot>(
    depot: &mut D,
    name: &str,
    captured: u32,
    place: u64,
    window: &Window,
    into: &mut Vec<u8>,
) -> Result<(), NgStop>
    requires held { 28 ≤ length window.now }
    requires captured { captured ≤ 262144 }
    requires empty { into.old.items ≡ [] }
    requires ahead { IsAhead (D.state depot.old) name.now place window.now }
    requires place { place + length window.now < 2 ^ 64 }
    requires whole { IsTrue (D.state depot.old).tells
        → 28 + captured ≤ length (rest_at (D.state depot.old) name.now place) }
    ensures answer { IsTrue (D.state depot.old).tells
        → IsNgAnswer (λ _. into.new.items) result
        (Ok (take captured (drop 28 (rest_at (D.state depot.old) name.now place)))) }
    ensures len { OnOk result (vec_len into.new ≡ captured) }
    ensures memory { vec_capacity into.old ≤ vec_capacity into.new }
    ensures frame { OnlyReads NgStop.ReadFault result name.now (D.state depot.old)
        (D.state depot.new) }
{
    let count = captured as usize;
    let n = take_behind(depot, name, place, window, PACKET_HEAD, count, into)?;
    if n < count {
        return Err(stop_at(place + (PACKET_HEAD + n) as u64, NgKind::Short));
    }
    Ok(())
}

/// Takes a packet, and goes behind its block.
pub fn take_packet<D: Depot>(
    depot: &mut D,
    name: &str,
    head: BlockHead,
    place: u64,
    window: &mut Window,
    section: &SectionTable,
    into: &mut Vec<u8>,
) -> Result<NgHead, NgStop>
    requires least { 32 ≤ head.total }
    requires held { min head.total 65536 ≤ length window.old }
    requires near { place < 2 ^ 40 }
    requires empty { into.old.items ≡ [] }
    requires ahead { IsAhead (D.state depot.old) name.now place window.old }
    requires place { place + length window.old < 2 ^ 64 }
    requires whole { IsTrue (D.state depot.old).tells
        → head.total ≤ length (rest_at (D.state depot.old) name.now place) }
    ensures answer { IsTrue (D.state depot.old).tells
        → IsNgAnswer (λ given. frame_block section.now.section head.total given into.new.items)
        result (packet_block section.now.section (rest_at (D.state depot.old) name.now place) head
        (packet_at section.now.section head.order head.total place
        (rest_at (D.state depot.old) name.now place))) }
    ensures nanos { IfOk result (λ given. given.nanos < 1000000000) }
    ensures captured { OnOk result (vec_len into.new ≤ 262144) }
    ensures memory { vec_capacity into.old ≤ vec_capacity into.new }
    ensures ahead { OnOk result
        (IsAhead (D.state depot.old) name.now (place + head.total) window.new) }
    ensures place { OnOk result (place + head.total + length window.new < 2 ^ 64) }
    ensures frame { OnlyReads NgStop.ReadFault result name.now (D.state depot.old)
        (D.state depot.new) }
{
    let packet = read_packet_head(section, head.order, place, head.total, window.ahead())?;
    take_octets(depot, name, packet.captured, place, window, into)?;
    window.skip(head.total as usize);
    Ok(packet.head)
}
