//! A packet's way over the hops of a flow. Each hop is judged under one look at the published tables, so under one version of
//! them; what a hop writes is read by the next one. A walk ends at the first denial, or behind the last hop: the packet was
//! delivered, or sent on. A worker owns the labels and octets that a walk needs, and lends them for each packet. `walk_named` walks a packet
//! again, under versions that are named. The next kind of hop is a case of `hop_verdict` in `specs/Walk.antt` and of `HopHasNoOption` in
//! `specs/NoOption.antt`, and an arm of `hop_into` in `hop.rt`.

mod gate;
mod hop;
pub mod laws;
mod look;
mod named;
mod room;
mod slot;
mod step_tables;
mod stop;
mod walked;
mod walking;
mod worker;

pub use captures::{Octets, PacketIn};
pub use gate::{Gate, OpenGate};
pub use named::{rise, walk_named};
pub use room::WalkRoom;
pub use slot::{ShownWalks, WalkedSlot};
pub use step_tables::StepTables;
pub use stop::VersionsStop;
pub use walked::{End, Versions, Walked};
pub use walking::{walk, walk_into};
pub use worker::Worker;
