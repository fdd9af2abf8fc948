//! What a node does with a packet that comes in (netlabelctl(8)): which labels it has under the node's tables, from its label option
//! or as set for its source, and who receives it. The first reason that holds denies it. Nothing here takes memory: the labels
//! of a packet are in a room that its caller owns and lends for each packet.
#![tactic(auto)]

mod incoming;
mod judged;
pub mod laws;
mod range;
mod receiving;
mod room;

pub use incoming::{Arrival, destination_of, labels_into, low_label, source_of};
pub use judged::fault_denial;
pub use range::{arrival_is_outside, is_outside, label_is_outside};
pub use receiving::{Delivered, receive, receive_into, receive_marked};
pub use room::Room;
