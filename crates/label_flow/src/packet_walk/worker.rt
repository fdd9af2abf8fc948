//! Workers.

ghost use Rattle.std.specs.Prelude.{◌≡◌, ◌≤◌, length};

use label_commands::{FlowLine, Hop};

/// Who walks packets of a flow.
#[derive(Drop)]
pub struct Worker<'f, 'g, G> {
    /// The flow, over whose hops packets are walked.
    pub flow: &'f FlowLine,
    /// Which worker this is, counted from 0.
    pub number: u32,
    /// Who is called before each look.
    pub gate: &'g G,
}

impl<'f, 'g, G> Worker<'f, 'g, G> {
    // The flow's hops.
    pub(crate) fn hops(&self) -> &[Hop]
        ensures hops { result.now ≡ self.now.flow.now.hops }
        ensures few { length result.now ≤ 16 }
    {
        self.flow.hops.hops()
    }
}
