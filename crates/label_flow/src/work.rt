//! What one worker makes of a part of a batch.

ghost use Rattle.std.specs.Prelude.{◌≡◌, ℕ, ◌+◌, ◌*◌, ◌%◌, ◌<◌, ◌≤◌, ◌^◌, length, OnOk};
ghost use Rattle.label_flow.specs.Round.{pick, IsWork, IsLater};
ghost use Rattle.label_flow.specs.inside.Work.{HasNodes, part_at};

use crate::bench::Bench;
use crate::packet_walk::{Gate, PacketIn, WalkRoom, Worker};
use mls_label::OutOfMemory;
use shared_tables::Viewer;
use std::alloc::Global;

/// Packets that so many workers share: the first has the number `base`, counted from 0, and each worker takes those whose number leaves
/// its own by `workers`. They are ordered, judged and handed over in parts.
#[derive(Drop)]
pub struct Batch {
    pub workers: u32,
    pub base: u64,
    pub packets: Vec<PacketIn>,
}

/// How many packets a part has; the last one of a batch may have fewer.
pub const PART: usize = 128;

/// How many parts a batch has at most.
pub const PARTS: usize = 8;

/// Which packets a part has: its place in the batch, counted from 0, how many workers share it, the number of its first packet, and how
/// many there are.
#[derive(Clone, Copy, Debug, PartialEq, Eq)]
pub struct Part {
    pub place: usize,
    pub workers: u32,
    pub base: u64,
    pub count: usize,
}

impl Batch {
    /// The packets of the part at this place.
    pub fn packets_at(&self, place: usize) -> &[PacketIn]
        requires place { place < 8 }
        requires inside { place * 128 < length self.now.packets.items }
        ensures { result.now ≡ part_at place self.now.packets.items }
    {
        let first = place * PART;
        let end = self.packets.len().min(first + PART);
        &self.packets[first..end]
    }

    /// Which packets these are.
    pub fn part(&self, place: usize) -> Part
        requires place { place < 8 }
        requires inside { place * 128 < length self.now.packets.items }
        requires numbers { self.now.base + length self.now.packets.items < 2 ^ 63 }
        ensures place { result.place ≡ place }
        ensures workers { result.workers ≡ self.now.workers }
        ensures base { result.base ≡ self.now.base + place * 128 }
        ensures count { result.count ≡ length (part_at place self.now.packets.items) }
    {
        Part {
            place,
            workers: self.workers,
            base: self.base + (place * PART) as u64,
            count: self.packets_at(place).len(),
        }
    }
}

/// The worker whose turn comes after this one's.
pub fn next_turn(worker: u32, workers: u32) -> u32
    requires { worker < workers }
    ensures { (number : ℕ) → worker ≡ number % workers → result ≡ (number + 1) % workers }
{
    // No division for each packet: it would cost more than handing one over.
    if worker + 1 == workers { 0 } else { worker + 1 }
}

// Room for walks: what was kept, or one that takes memory.
fn lend(alloc: Global, room: &mut Option<WalkRoom>) -> Result<WalkRoom, OutOfMemory> {
    match room.take() {
        Some(room) => Ok(room),
        None => WalkRoom::new(alloc),
    }
}

/// One worker's packets among these, in their order, of which the first has the number `base`.
pub fn work<G: Gate>(
    worker: &Worker<'_, '_, G>,
    part: Part,
    packets: &[PacketIn],
    viewer: &mut Viewer,
    bench: &mut Bench,
    room: &mut Option<WalkRoom>,
) -> Result<(), OutOfMemory>
    requires nodes { HasNodes worker.now.flow.now.hops viewer.old }
    requires workers { worker.now.number < part.workers }
    requires numbers { part.base + length packets.now < 2 ^ 63 }
    ensures later { IsLater viewer.old viewer.new }
    ensures ok { OnOk result
        (IsWork viewer.old.plan worker.now.flow.now.hops viewer.old.seen
        (pick worker.now.number part.workers part.base packets.now)
        bench.new viewer.new.seen) }
{
    bench.clear();
    let mut walks = lend(bench.allocator(), room)?;
    let mut at = 0;
    let mut turn = (part.base % u64::from(part.workers)) as u32;
    while at < packets.len() {
        if turn == worker.number {
            let number = part.base + at as u64 + 1;
            walks = bench.walk(worker, viewer, number, &packets[at], walks)?;
        }
        turn = next_turn(turn, part.workers);
        at += 1;
    }
    *room = Some(walks);
    Ok(())
}
