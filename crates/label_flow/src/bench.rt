//! What a worker made.

ghost use Rattle.std.specs.Prelude.{◌≡◌, ◌+◌, ◌<◌, ◌≤◌, [], length, take, slice_get, Some, OnOk};
ghost use Rattle.label_flow.specs.Round.{IsLater};
ghost use Rattle.label_flow.specs.inside.Work.{HasNodes, IsOneMore};

use crate::packet_walk::{Gate, PacketIn, WalkRoom, Worker};
use crate::pair::PairSlot;
use crossbeam_utils::CachePadded;
use mls_label::OutOfMemory;
use shared_tables::Viewer;
use std::alloc::Global;
use std::marker::Model;

/// What a worker made of its packets of a part: the places are filled again for a part of the next batch. Contracts see it as the list
/// of what it made.
#[derive(Drop)]
pub struct Bench {
    places: Vec<PairSlot>,
    filled: usize,
    // Each packet writes here: so no other worker's bench stands on the same line of a cache.
    _apart: CachePadded<()>,
}

impl Model for Bench {
    ghost use Rattle.std.specs.Prelude.{List, ◌≤◌, length, take};
    ghost use Rattle.label_flow.specs.Pair.{PairState};

    ghost Value = { List PairState };

    ghost view = { λ bench. take bench.filled bench.places.items };

    ghost invariant = { λ bench. bench.filled ≤ length bench.places.items };
}

impl Bench {
    /// Takes no memory.
    pub fn new(alloc: Global) -> Bench
        ensures { result ≡ [] }
    {
        Bench {
            places: Vec::new(alloc),
            filled: 0,
            _apart: CachePadded::new(()),
        }
    }

    /// Where its memory comes from.
    pub fn allocator(&self) -> Global {
        *self.places.allocator()
    }

    /// Forgets what was made.
    pub fn clear(&mut self)
        ensures { self.new ≡ [] }
    {
        self.filled = 0;
    }

    /// What was made of a packet.
    pub fn get(&self, i: usize) -> &PairSlot
        requires { i < length self.now }
        ensures { slice_get self.now i ≡ Some result.now }
    {
        &self.places[i]
    }

    /// Walks a packet, and keeps what became of it behind the others.
    pub fn walk<G: Gate>(
        &mut self,
        worker: &Worker<'_, '_, G>,
        viewer: &mut Viewer,
        number: u64,
        packet: &PacketIn,
        room: WalkRoom,
    ) -> Result<WalkRoom, OutOfMemory>
        requires nodes { HasNodes worker.now.flow.now.hops viewer.old }
        ensures later { IsLater viewer.old viewer.new }
        ensures ok { OnOk result (IsOneMore worker.now.flow.now.hops
            viewer.old viewer.new packet.now self.old self.new) }
    {
        let filled = self.filled;
        let places = &mut self.places;
        let room = walk_into_place(places, filled, worker, viewer, number, packet, room)?;
        self.filled = filled + 1;
        Ok(room)
    }
}

// A packet in the place behind those that are filled, which is made where there is none.
fn walk_into_place<G: Gate>(
    places: &mut Vec<PairSlot>,
    filled: usize,
    worker: &Worker<'_, '_, G>,
    viewer: &mut Viewer,
    number: u64,
    packet: &PacketIn,
    room: WalkRoom,
) -> Result<WalkRoom, OutOfMemory>
    requires filled { filled ≤ length places.old.items }
    requires nodes { HasNodes worker.now.flow.now.hops viewer.old }
    ensures later { IsLater viewer.old viewer.new }
    ensures long { length places.old.items ≤ length places.new.items }
    ensures more { OnOk result (filled < length places.new.items) }
    ensures ok { OnOk result (IsOneMore worker.now.flow.now.hops viewer.old viewer.new packet.now
        (take filled places.old.items) (take (filled + 1) places.new.items)) }
{
    make_place(places, filled)?;
    places[filled].walk(worker, viewer, number, packet, room)
}

fn make_place(places: &mut Vec<PairSlot>, filled: usize) -> Result<(), OutOfMemory>
    requires { filled ≤ length places.old.items }
    ensures long { length places.old.items ≤ length places.new.items }
    ensures ok { OnOk result (filled < length places.new.items) }
    ensures same { take filled places.new.items ≡ take filled places.old.items }
{
    if filled < places.len() {
        return Ok(());
    }
    let alloc = *places.allocator();
    places.push(PairSlot::new(alloc)).map_err(|_| OutOfMemory)
}
