//! What is published.

ghost use Rattle.std.specs.Prelude.{◌≡◌, ◌+◌, ◌<◌, ◌≤◌, length, OnOk, OnErr};
ghost use Rattle.std.specs.Arc.{arc_value};
ghost use Rattle.shared_tables.specs.Plan.{network_after};

use crate::plan::Plan;
use left_right::Absorb;
use mls_label::OutOfMemory;
use node_tables::Network;
use std::alloc::AllocError;
use std::sync::Arc;

/// A plan, a version, and the tables of all nodes after so many of its steps: the type keeps that.
#[derive(Drop)]
pub struct State {
    pub plan: Arc<Plan>,
    pub version: u32,
    pub network: Network,
    pub ghost within: { version ≤ length (arc_value plan).steps },
    pub ghost is_after: { network ≡ network_after (arc_value plan) version },
}

/// What both copies of a state have in common. No value of it is made.
pub struct Point {
    pub plan: Plan,
    pub version: u64,
}

/// The next step of the plan.
#[derive(Clone, Copy)]
pub struct Advance;

impl State {
    /// Takes the next step in place. After an error nothing has changed.
    pub fn advance(&mut self) -> Result<(), OutOfMemory>
        requires { self.old.version < length (arc_value self.old.plan).steps }
        ensures plan { arc_value self.new.plan ≡ arc_value self.old.plan }
        ensures ok { OnOk result (self.new.version ≡ self.old.version + 1) }
        ensures err { OnErr result (self.new.version ≡ self.old.version) }
    {
        let State {
            plan,
            version,
            network,
        } = self;
        network.advance(plan.step(*version))?;
        *version += 1;
        Ok(())
    }
}

impl Absorb<Advance> for State {
    type State = Point;

    ghost state = { λ state. record { plan = arc_value state.plan; version = state.version } };

    ghost applied = { λ point _. record { plan = point.plan; version = point.version + 1 } };

    // Behind the plan's last step there is none; nobody asks for it.
    fn absorb_first(&mut self, _operation: &Advance, _other: &State) -> Result<(), AllocError> {
        if self.version >= self.plan.len() {
            return Err(AllocError);
        }
        match self.advance() {
            Ok(()) => Ok(()),
            Err(_) => Err(AllocError),
        }
    }
}
