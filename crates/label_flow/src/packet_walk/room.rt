//! What a worker keeps for its walks.

use crate::packet_walk::hop::Given;
use label_receive::Room;
use mls_label::OutOfMemory;
use std::alloc::Global;

/// Labels and octets that a worker owns once, and hands on from one walk to the next: what is moved is a pointer.
#[derive(Drop)]
pub struct WalkRoom {
    pub(crate) lent: Box<Lent>,
}

/// What a look takes along: the labels of a packet, a place for the octets that a hop writes, and one for what it gives.
#[derive(Drop)]
pub struct Lent {
    pub labels: Room,
    pub octets: Vec<u8>,
    pub given: Given,
}

impl WalkRoom {
    /// Room for walks.
    pub fn new(alloc: Global) -> Result<WalkRoom, OutOfMemory> {
        let lent = Lent {
            labels: Room::lowest(),
            octets: Vec::new(alloc),
            given: Given::OutOfMemory,
        };
        Ok(WalkRoom {
            lent: Box::new(alloc, lent)?,
        })
    }
}
