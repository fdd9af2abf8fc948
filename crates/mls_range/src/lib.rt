//! Texts of labels and of ranges of labels, in the form of SELinux MLS: `s2:c0.c5` and `s0-s2:c1,c3`.
#![tactic(auto)]

mod fault;
mod kept_range;
mod label;
pub mod laws;
mod number;
mod octet;
mod range;
mod terms;

pub use fault::{TextFault, TextKind};
pub use kept_range::KeptRange;
pub use label::{read_label, read_label_into, write_label};
pub use range::{Range, read_range, read_range_into, write_range};
