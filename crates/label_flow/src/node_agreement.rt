//! Whether two nodes give every DOI that both define one meaning: what a level or a category on the wire means by a node's definition
//! and its reading is the same at both, for all numbers that the protocol can carry. Else the first difference is told. A label that
//! crosses between nodes that agree keeps its meaning, which is a law here. It takes no memory.

mod categories;
mod compare;
mod difference;
mod disagree;
mod dois;
mod ends;
pub mod laws;
mod levels;

pub use compare::agrees;
pub use disagree::Disagree;
pub use mls_label::Proto;
