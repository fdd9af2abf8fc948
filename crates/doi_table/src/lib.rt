//! DOI definitions: which numbers of a node stand for which numbers on the wire (netlabelctl(8), `cipsov4 add` and `calipso add`).
//! A `DoiDef` is a plan that was found one-to-one; `to_wire` and `to_local` translate a label by it, and undo each other.
//! A `DoiTable` keeps a node's definitions in order of insertion.
#![tactic(auto)]

mod definition;
mod fault;
pub mod laws;
mod listed;
mod numbers;
mod plan;
mod sorted;
mod table;
mod translate;
mod unmapped;

pub use definition::DoiDef;
pub use fault::{DoiFault, Unknown};
pub use listed::Listed;
pub use mls_label::{OutOfMemory, Proto};
pub use plan::DoiPlan;
pub use table::{DoiTable, MOST_DOIS, MOST_PAIRS};
pub use translate::{to_local, to_local_into, to_wire, to_wire_into};
pub use unmapped::Unmapped;
