//! The tables of nodes, and what commands do to them (netlabelctl(8)): DOI definitions, the map of domains, labels of unlabelled
//! packets, receivers, ranges of interfaces and pairs of addresses. `Network::apply` takes one step of a script and gives its reply.
//! Contracts see a node's tables as lists in order of insertion, and a network as the list of its nodes.
#![tactic(auto)]

mod definitions;
mod domains;
mod key;
mod labels;
pub mod laws;
mod list_text;
mod network;
mod pairs;
mod ranges;
mod receiver;
mod receivers;
mod reply;
mod stop;
mod tables;

pub use list_text::ListText;
pub use network::Network;
pub use receiver::Receiver;
pub use reply::{Refusal, Reply};
pub use tables::Tables;
