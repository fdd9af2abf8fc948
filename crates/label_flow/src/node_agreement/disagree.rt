//! A number on the wire that means two things.

use mls_label::Proto;

/// A number on the wire that two nodes give different meanings.
#[derive(Clone, Copy, Debug, PartialEq, Eq)]
pub struct Disagree {
    pub proto: Proto,
    pub doi: u32,
    /// Whether the number is a level; else it is a category.
    pub level: bool,
    /// The number on the wire.
    pub wire: u16,
    /// What the left node's reading says of that node's own number for it.
    pub left: u32,
    /// What the right node's reading says of that node's own number for it.
    pub right: u32,
}
