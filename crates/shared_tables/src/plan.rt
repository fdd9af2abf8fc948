//! Plans: the steps of a script, or its first ones.

ghost use Rattle.std.specs.Prelude.{◌≡◌, ◌^◌, ◌<◌, ◌≤◌, length, take, slice_get, IfOk, All, Some};
ghost use Rattle.std.specs.Arc.{arc_value};

use crate::shared_steps::SharedSteps;
use mls_label::OutOfMemory;
use script_lines::Step;
use std::alloc::Global;
use std::marker::Model;
use std::sync::Arc;

/// A number of nodes, and the steps that are given to them one after another: the first of some that plans share. Each step's node is
/// one of them: the type keeps that.
#[derive(Drop)]
pub struct Plan {
    nodes: usize,
    steps: SharedSteps,
    upto: u32,
}

impl Model for Plan {
    ghost use Rattle.std.specs.Prelude.{◌<◌, ◌≤◌, ◌^◌, All, length, take};
    ghost use Rattle.shared_tables.specs.Plan.{PlanState};

    ghost Value = { PlanState };

    ghost view = { λ plan. record { nodes = plan.nodes; steps = take plan.upto plan.steps } };

    ghost invariant = { λ plan. (plan.upto < 2 ^ 32)
        × (plan.upto ≤ length plan.steps)
        × All (λ step. step.node < plan.nodes) plan.steps };
}

impl Plan {
    /// The plan of these steps on so many nodes. Where memory runs out the steps are dropped.
    pub fn from_steps(
        alloc: Global,
        steps: Vec<Step>,
        nodes: usize,
    ) -> Result<Arc<Plan>, OutOfMemory>
        requires nodes { nodes ≤ 32 }
        requires inside { All (λ step. step.node < nodes) steps.items }
        requires few { length steps.items < 2 ^ 32 }
        ensures { IfOk result
            (λ plan. arc_value plan ≡ record { nodes = nodes; steps = steps.items }) }
    {
        let upto = steps.len() as u32;
        let shared = SharedSteps::of(alloc, steps)?;
        Plan::of_first(alloc, &shared, upto, nodes)
    }

    /// The plan of the first of these steps, which it shares, on so many nodes.
    pub fn of_first(
        alloc: Global,
        steps: &SharedSteps,
        upto: u32,
        nodes: usize,
    ) -> Result<Arc<Plan>, OutOfMemory>
        requires nodes { nodes ≤ 32 }
        requires inside { All (λ step. step.node < nodes) steps.now }
        requires upto { upto ≤ length steps.now }
        ensures { IfOk result
            (λ plan. arc_value plan ≡ record { nodes = nodes; steps = take upto steps.now }) }
    {
        let steps = steps.again()?;
        let plan = Plan { nodes, steps, upto };
        Arc::new(alloc, plan).map_err(|_| OutOfMemory)
    }

    /// How many steps there are.
    pub(crate) fn len(&self) -> u32
        ensures { result ≡ length self.now.steps }
    {
        self.upto
    }

    /// A step, counted from 0.
    pub(crate) fn step(&self, i: u32) -> &Step
        requires { i < length self.now.steps }
        ensures step { slice_get self.now.steps i ≡ Some result.now }
        ensures inside { result.now.node < self.now.nodes }
        ensures few { length self.now.steps < 2 ^ 32 }
    {
        &self.steps.as_slice()[i as usize]
    }
}
