//! What became of a packet, with its octets, in a place that is filled for one packet after another.

ghost use Rattle.std.specs.Prelude.{◌≡◌, OnOk};
ghost use Rattle.label_flow.specs.Round.{IsLater};
ghost use Rattle.label_flow.specs.inside.Work.{HasNodes, IsWalkedBy};

use crate::packet_walk::{Gate, PacketIn, WalkRoom, WalkedSlot, Worker, walk_into};
use mls_label::OutOfMemory;
use shared_tables::Viewer;
use std::alloc::Global;
use std::marker::Model;

/// What became of a packet, and the octets that its walk left.
#[derive(Drop)]
pub struct PairSlot {
    walked: WalkedSlot,
    octets: Vec<u8>,
}

impl Model for PairSlot {
    ghost use Rattle.label_flow.specs.Pair.{PairState};

    ghost Value = { PairState };

    ghost view = { λ slot. record { walked = slot.walked; octets = slot.octets.items } };
}

impl PairSlot {
    /// Takes no memory.
    pub fn new(alloc: Global) -> PairSlot {
        PairSlot {
            walked: WalkedSlot::new(alloc),
            octets: Vec::new(alloc),
        }
    }

    /// Walks a packet into this place.
    pub fn walk<G: Gate>(
        &mut self,
        worker: &Worker<'_, '_, G>,
        viewer: &mut Viewer,
        number: u64,
        packet: &PacketIn,
        room: WalkRoom,
    ) -> Result<WalkRoom, OutOfMemory>
        requires nodes { HasNodes worker.now.flow.now.hops viewer.old }
        ensures later { IsLater viewer.old viewer.new }
        ensures ok { OnOk result
            (IsWalkedBy worker.now.flow.now.hops viewer.old viewer.new packet.now self.new) }
    {
        walk_into(
            worker,
            viewer,
            number,
            packet,
            room,
            &mut self.walked,
            &mut self.octets,
        )
    }

    /// The octets that the walk left.
    pub fn octets(&self) -> &[u8]
        ensures { result.now ≡ self.now.octets }
    {
        self.octets.as_slice()
    }

    /// What became of the packet.
    pub fn walked(&self) -> &WalkedSlot
        ensures { result.now ≡ self.now.walked }
    {
        &self.walked
    }
}
