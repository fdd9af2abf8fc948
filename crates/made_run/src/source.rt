//! The packets of a capture, made in batches.

ghost use Rattle.std.specs.Prelude.{◌≡◌, ◌+◌, ◌<◌, ◌^◌, ◌++◌, ◌∷◌, [], length, IsTrue, OnOk, OnErr, vec_len, vec_capacity};
ghost use Rattle.pcap_frames.specs.Written.{frame_octets};
ghost use Rattle.made_run.specs.made_capture.Capture.{frame_made};
ghost use Rattle.made_run.specs.Ends.{stop_of};
ghost use Rattle.made_run.specs.inside.File.{HasAppended};
ghost use Rattle.made_run.specs.inside.Source.{packet_in, packets_made, IsSentUpTo, IsBegunUpTo};

use crate::file::append_waiting;
use crate::made_capture::Maker;
use crate::stop::MadeStop;
use label_flow::{Octets, PacketIn};
use mls_label::OutOfMemory;
use net_io::Depot;
use pcap_frames::write_frame;
use std::alloc::Global;

/// How many octets are gathered before they are appended.
const PIECE: usize = 16384;

/// Makes the packets of a capture. Packets that were given back lend their room.
#[derive(Drop)]
pub struct Source {
    pub maker: Maker,
    pub spare: Vec<PacketIn>,
}

// A buffer, one that was given back if there is one.
fn buffer(alloc: Global, spare: &mut Vec<PacketIn>) -> Vec<u8> {
    match spare.pop() {
        Some(PacketIn { bytes, is_ip: _ }) => bytes.into_vec(),
        None => Vec::new(alloc),
    }
}

// Whether there is room for a packet.
fn has_room(batch: &mut Vec<PacketIn>) -> bool
    ensures batch { batch.new.items ≡ batch.old.items }
    ensures free { IsTrue result → vec_len batch.new < vec_capacity batch.new }
{
    batch.reserve(1).is_ok()
}

// The next packet goes to the batch, and its frame waits for the file.
fn make_one(
    alloc: Global,
    source: &mut Source,
    waiting: &mut Vec<u8>,
    batch: &mut Vec<PacketIn>,
) -> Result<(), OutOfMemory>
    requires { source.old.maker.made + 1 < 2 ^ 32 }
    ensures maker { OnOk result (source.new.maker
        ≡ record { seed = source.old.maker.seed; made = source.old.maker.made + 1 }) }
    ensures packet { OnOk result (batch.new.items ≡ batch.old.items
        ++ packet_in source.old.maker.seed (source.old.maker.made + 1) ∷ []) }
    ensures frame { OnOk result
        (let frame = frame_made source.old.maker.seed (source.old.maker.made + 1) in
        waiting.new.items ≡ waiting.old.items ++ frame_octets frame.head frame.octets) }
    ensures seed { source.new.maker.seed ≡ source.old.maker.seed }
{
    if !has_room(batch) {
        return Err(OutOfMemory);
    }
    let mut octets = buffer(alloc, &mut source.spare);
    let head = source.maker.next(&mut octets)?;
    write_frame(head, &octets, waiting).map_err(|_| OutOfMemory)?;
    let bytes = Octets::of(octets);
    batch.push_reserved(PacketIn { bytes, is_ip: true });
    Ok(())
}

// The same, and what waits is appended where it is a piece.
fn make_next<D: Depot>(
    alloc: Global,
    depot: &mut D,
    name: &str,
    source: &mut Source,
    waiting: &mut Vec<u8>,
    batch: &mut Vec<PacketIn>,
) -> Result<(), MadeStop>
    requires low { source.old.maker.made + 1 < 2 ^ 32 }
    requires sent { IsSentUpTo source.old.maker waiting.old.items name.now (D.state depot.old) }
    ensures maker { OnOk result (source.new.maker
        ≡ record { seed = source.old.maker.seed; made = source.old.maker.made + 1 }) }
    ensures packet { OnOk result (batch.new.items ≡ batch.old.items
        ++ packet_in source.old.maker.seed (source.old.maker.made + 1) ∷ []) }
    ensures sent { OnOk result
        (IsSentUpTo source.new.maker waiting.new.items name.now (D.state depot.new)) }
    ensures begun { IsBegunUpTo source.old.maker.seed (source.old.maker.made + 1) name.now
        (D.state depot.new) }
    ensures seed { source.new.maker.seed ≡ source.old.maker.seed }
    ensures appended { HasAppended name.now (stop_of result)
        (D.state depot.old) (D.state depot.new) }
{
    let Ok(()) = make_one(alloc, source, waiting, batch) else {
        return Err(MadeStop::OutOfMemory);
    };
    if waiting.len() < PIECE {
        return Ok(());
    }
    append_waiting(depot, name, waiting)
}

/// Makes so many packets into the batch, and appends their frames piece by piece.
pub(crate) fn fill<D: Depot>(
    alloc: Global,
    depot: &mut D,
    name: &str,
    source: &mut Source,
    waiting: &mut Vec<u8>,
    count: u32,
    batch: &mut Vec<PacketIn>,
) -> Result<(), MadeStop>
    requires low { source.old.maker.made + count < 2 ^ 32 }
    requires sent { IsSentUpTo source.old.maker waiting.old.items name.now (D.state depot.old) }
    requires empty { batch.old.items ≡ [] }
    ensures maker { OnOk result (source.new.maker
        ≡ record { seed = source.old.maker.seed; made = source.old.maker.made + count }) }
    ensures packets { OnOk result (batch.new.items
        ≡ packets_made source.old.maker.seed source.old.maker.made count) }
    ensures sent { OnOk result
        (IsSentUpTo source.new.maker waiting.new.items name.now (D.state depot.new)) }
    ensures begun { IsBegunUpTo source.old.maker.seed (source.old.maker.made + count) name.now
        (D.state depot.new) }
    ensures seed { source.new.maker.seed ≡ source.old.maker.seed }
    ensures appended { HasAppended name.now (stop_of result)
        (D.state depot.old) (D.state depot.new) }
{
    for _ in 0..count {
        match make_next(alloc, depot, name, source, waiting, batch) {
            Ok(()) => {}
            Err(stop) => return Err(stop),
        }
    }
    Ok(())
}
