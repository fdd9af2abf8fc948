//! What a node does with its traffic (netlabelctl(8)): `DomainMap` says which protocol a domain uses towards an address,
//! `StaticMap` which labels unlabelled traffic of an interface has. Both take the longest prefix that holds the address.
//! Contracts see a map as the list of its entries in order of insertion.
#![tactic(auto)]

mod address_list;
pub mod address_text;
mod fault;
pub mod laws;
mod map;
mod named;
mod order;
mod protocol;
mod rule;
mod static_map;

pub use crate::address_text::{
    Address, Name, Prefix, read_address, read_name, read_prefix, write_address, write_prefix,
};
pub use fault::{MapFault, StaticFault, Unknown};
pub use map::DomainMap;
pub use named::{value_of, value_or_default};
pub use protocol::Protocol;
pub use static_map::StaticMap;
