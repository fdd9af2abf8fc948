//! The outside of the program, by names and octets: a folder of named files and a stream out, each as a
//! trait whose contract says what every call reads, changes and counts. Four implementations stand in memory, two
//! of them with failing calls and short moves; two are the real edge, the file system and standard output.
#![tactic(auto)]

mod depot;
mod failed;
mod fault;
pub mod file_window;
mod folder;
mod guard;
mod input;
pub mod laws;
mod lock;
mod making;
mod memory_depot;
mod memory_sink;
mod open_file;
mod output;
mod piece;
mod plan;
mod reading;
mod real_depot;
mod real_sink;
mod retry;
mod safe_depot;
mod safe_sink;
mod sink;
mod writing;

pub use crate::file_window::{OctetOrder, WINDOW, Window, take_behind};
pub use depot::Depot;
pub use failed::DepotCall;
pub use fault::{IoFault, WholeFault};
pub use lock::Lock;
pub use memory_depot::MemoryDepot;
pub use memory_sink::MemorySink;
pub use mls_label::OutOfMemory;
pub use reading::{read_full, read_full_over, read_whole};
pub use real_depot::RealDepot;
pub use real_sink::RealSink;
pub use safe_depot::SafeDepot;
pub use safe_sink::SafeSink;
pub use sink::Sink;
pub use writing::{append_all, write_all_to};
