//! Why one hop doesn't cover the next.

use label_flow::Disagree;

/// Why what goes over a link without a label might get one that means less there, or what has one might get another meaning.
#[derive(Clone, Copy, Debug, PartialEq, Eq)]
pub enum Uncovered {
    /// The nodes give a number on the wire two meanings.
    Differ(Disagree),
    /// The interface out has no range, not even by default.
    NoRange,
    /// A static entry doesn't mean as much as the range's high end: its place among all entries of the node, from 0.
    Entry { index: usize },
}
