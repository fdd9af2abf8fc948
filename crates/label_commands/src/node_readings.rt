//! What a node's numbers mean to its operators. A reading names the meaning of some levels and categories, and a number that it
//! doesn't name means itself; so two nodes with different numbers can be compared. Levels keep their order, and no two categories
//! mean the same. Contracts see a reading as its two lists of named pairs.

mod compare;
mod fault;
pub mod laws;
mod namings;
mod reading;

pub use compare::meaning_dominates;
pub use fault::ReadingFault;
pub use mls_label::OutOfMemory;
pub use reading::Reading;
