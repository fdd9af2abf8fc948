//! Reading the head of a block and its trailer through a window of its file.
ghost use Rattle.std.specs.Prelude.{◌≡◌, ◌+◌, ◌-◌, ◌<◌, ◌≤◌, ◌==◌, ◌^◌, IsTrue, if◌then◌else◌, length, drop, min, Ok, Err, OnOk, IfOk, IfSome};
ghost use Rattle.net_io.specs.Depot.{octets_of, OnlyReads};
ghost use Rattle.net_io.specs.file_window.Window.{IsFrom};
ghost use Rattle.pcapng_frames.specs.Head.{least_total, block_head_at, whole_at};
ghost use Rattle.pcapng_frames.specs.Reader.{IsNgAnswer};
ghost use Rattle.pcapng_frames.specs.inside.Parts.{rest_at, IsAhead, trailer_at};

use crate::head::{BlockHead, LEAST_BLOCK, read_block_head};
use crate::look::{find_end, have, stop_at};
use crate::{NgHead, NgKind, NgStop};
use net_io::{Depot, OctetOrder, WINDOW, Window, read_full};

/// Reads the head of the block at `place`; None at the file's end.
pub fn read_head<D: Depot>(
    depot: &mut D,
    name: &str,
    order: OctetOrder,
    place: u64,
    window: &mut Window,
) -> Result<Option<BlockHead>, NgStop>
    requires ahead { IsAhead (D.state depot.old) name.now place window.old }
    requires place { place + length window.old < 2 ^ 64 }
    ensures answer { IsTrue (D.state depot.old).tells
        → IsNgAnswer (λ read. read) result
        (block_head_at order place (rest_at (D.state depot.old) name.now place)) }
    ensures least { IfOk result (λ read. IfSome read (λ head. least_total head.kind ≤ head.total)) }
    ensures near { IfOk result (λ read. IfSome read (λ head. place < 2 ^ 40)) }
    ensures ahead { IsAhead (D.state depot.old) name.now place window.new }
    ensures place { place + length window.new < 2 ^ 64 }
    ensures frame { OnlyReads NgStop.ReadFault result name.now (D.state depot.old)
        (D.state depot.new) }
{
    window.reach(depot, name, place, LEAST_BLOCK)?;
    Ok(read_block_head(order, place, window.ahead())?)
}

/// Compares the total length at a block's end with that in front.
fn check_trailer(head: BlockHead, place: u64, last: u32) -> Result<(), NgStop>
    requires least { 12 ≤ head.total }
    requires place { place < 2 ^ 40 }
    ensures { result ≡ (if last == head.total then Ok tt else Err
        (NgStop.Capture (record { octet = place + (head.total - 4); kind = NgKind.Trailer }))) }
{
    if last != head.total {
        return Err(stop_at(place + u64::from(head.total - 4), NgKind::Trailer));
    }
    Ok(())
}

/// The trailer of a block that is longer than a window, or where the file ends in front of it or in it.
fn read_far_trailer<D: Depot>(
    depot: &mut D,
    name: &str,
    head: BlockHead,
    place: u64,
) -> Result<u32, NgStop>
    requires far { 65536 < head.total }
    requires near { place < 2 ^ 40 }
    requires held { IsTrue (D.state depot.old).tells
        → 65536 ≤ length (rest_at (D.state depot.old) name.now place) }
    ensures answer { IsTrue (D.state depot.old).tells
        → IsNgAnswer (λ last. last) result
        (trailer_at place (rest_at (D.state depot.old) name.now place) head) }
    ensures frame { OnlyReads NgStop.ReadFault result name.now (D.state depot.old)
        (D.state depot.new) }
{
    let at = place + u64::from(head.total - 4);
    let mut last = [0u8; 4];
    let count = read_full(depot, name, at, &mut last)?;
    if count < 4 {
        let end = find_end(depot, name, place + 65_536, at + 4)?;
        return Err(stop_at(end, NgKind::Short));
    }
    Ok(head.order.u32_at(&last, 0))
}

/// The four octets of a trailer: from the window, which has the block or as much of it as has room, or by a read of their own.
fn read_trailer<D: Depot>(
    depot: &mut D,
    name: &str,
    head: BlockHead,
    place: u64,
    window: &Window,
) -> Result<u32, NgStop>
    requires least { 12 ≤ head.total }
    requires near { place < 2 ^ 40 }
    requires ahead { IsAhead (D.state depot.old) name.now place window.now }
    requires held { min head.total 65536 ≤ length window.now }
    ensures answer { IsTrue (D.state depot.old).tells
        → IsNgAnswer (λ last. last) result
        (trailer_at place (rest_at (D.state depot.old) name.now place) head) }
    ensures frame { OnlyReads NgStop.ReadFault result name.now (D.state depot.old)
        (D.state depot.new) }
{
    let total = head.total as usize;
    if total > WINDOW {
        return read_far_trailer(depot, name, head, place);
    }
    Ok(head.order.u32_at(window.ahead(), total - 4))
}

/// Checks that the file has the whole block, and that its trailer repeats its total length.
pub fn check_whole<D: Depot>(
    depot: &mut D,
    name: &str,
    head: BlockHead,
    place: u64,
    window: &mut Window,
) -> Result<(), NgStop>
    requires least { 12 ≤ head.total }
    requires near { place < 2 ^ 40 }
    requires ahead { IsAhead (D.state depot.old) name.now place window.old }
    requires place { place + length window.old < 2 ^ 64 }
    ensures answer { IsTrue (D.state depot.old).tells
        → IsNgAnswer (λ _. head) result
        (whole_at place (rest_at (D.state depot.old) name.now place) head) }
    ensures held { OnOk result (min head.total 65536 ≤ length window.new) }
    ensures ahead { IsAhead (D.state depot.old) name.now place window.new }
    ensures place { place + length window.new < 2 ^ 64 }
    ensures frame { OnlyReads NgStop.ReadFault result name.now (D.state depot.old)
        (D.state depot.new) }
{
    let held = (head.total as usize).min(WINDOW);
    have(depot, name, place, window, held)?;
    let last = read_trailer(depot, name, head, place, window)?;
    check_trailer(head, place, last)
}
