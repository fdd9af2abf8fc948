//! What a script says.

ghost use Rattle.std.specs.Prelude.{◌≡◌, ◌<◌, ◌^◌, length};
ghost use Rattle.label_commands.specs.Script.{before};

use crate::flow_lines::{Flows, NodeNames};
use crate::node_readings::Reading;
use doi_table::Listed;
use script_lines::Step;

/// A script: its nodes in the order in which they come first, its commands and flows in the order of their lines, and for each node
/// what its numbers mean.
#[derive(Drop)]
pub struct Script {
    pub nodes: NodeNames,
    pub steps: Listed<Step>,
    pub flows: Flows,
    pub readings: Listed<Reading>,
}

impl Script {
    /// How many steps stand above the flow at this place, counted from 0; above what follows the last flow, all.
    pub fn steps_above(&self, flow: usize) -> u32
        requires { length self.now.steps < 2 ^ 32 }
        ensures { result ≡ before self.now flow }
    {
        match self.flows.as_slice().get(flow) {
            Some(line) => line.before,
            None => self.steps.as_slice().len() as u32,
        }
    }
}
