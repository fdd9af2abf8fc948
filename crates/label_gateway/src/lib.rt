//! A gateway: a packet that comes in at one interface of a node goes out at another, if the node's tables let it. Its label is
//! read under the tables, tested, and written again as the outgoing protocol can express it, in the packet's own version of IP or,
//! where the protocol is of the other version, in that one. The first reason that holds denies it.
#![tactic(auto)]

mod cross;
mod forwarding;
pub mod laws;
mod onward;

pub use forwarding::{Passed, forward, forward_into};
pub use label_receive::Room;
