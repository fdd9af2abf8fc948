//! A capture that is made from a number, and judged while it is made: its packets go to one node in one round of four workers, beside which
//! no command comes, by a feed that makes and appends each packet and reads no file.
#![tactic(auto)]

mod feed;
mod file;
pub mod laws;
pub mod made_capture;
mod node;
mod run;
mod source;
mod stop;

pub use crate::made_capture::Maker;
pub use run::{Verdicts, make_capture};
pub use stop::MadeStop;
