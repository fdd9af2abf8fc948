//! A round of packets of a flow beside the steps of a plan. One side of a join publishes the steps; the other judges the packets that a
//! feed gives, with a worker for each viewer. Packet n, counted from 1, goes to worker (n - 1) mod workers, which takes its packets one
//! after the other. What became of them goes back to the feed in their order. The next cause of a stop is a variant of `RoundStop` in
//! `rounds.rt`, with a case of `IsStop` in `specs/Stops.antt`.
#![tactic(auto)]

mod agreed;
mod bench;
mod crew;
mod feed;
pub mod flow_access;
pub mod laws;
pub mod node_agreement;
mod order;
pub mod packet_walk;
mod pair;
mod rounds;
mod staff;
mod trays;
mod work;

pub use crate::node_agreement::{Disagree, Proto, agrees};
pub use crate::packet_walk::{
    End, Gate, Octets, OpenGate, PacketIn, ShownWalks, StepTables, Versions, VersionsStop,
    WalkRoom, Walked, WalkedSlot, Worker, rise, walk, walk_into, walk_named,
};
pub use feed::Feed;
pub use rounds::{RoundStop, round};
