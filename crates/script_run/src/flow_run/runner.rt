//! What runs a flow.

use std::alloc::Global;

/// What runs the packets of a flow and the steps beside them.
#[derive(Drop)]
pub struct Runner<'r, 'g, R, G> {
    /// Its threads.
    pub rt: &'r R,
    /// Where its memory comes from.
    pub alloc: Global,
    /// What each look at the tables, and each step, passes.
    pub gate: &'g G,
}
