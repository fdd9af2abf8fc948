//! A border between networks that label by the Basic Security Option (option 130) and networks that label by CIPSO: what it
//! makes of a packet, each way, by the definition of one DOI (`cross`).
#![tactic(auto)]

mod border;
mod crossing;
mod entering;
pub mod laws;
mod leaving;
mod swap;

pub use border::{Border, Way};
pub use crossing::cross;
