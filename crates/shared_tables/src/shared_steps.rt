//! The steps of a script, which the plans of its flows share.

ghost use Rattle.std.specs.Prelude.{◌≡◌, IfOk};

use mls_label::OutOfMemory;
use script_lines::Step;
use std::alloc::Global;
use std::marker::Model;
use std::sync::Arc;

/// The steps of a script in one place, for all plans of its flows: a share of them is no copy. Contracts see the list of them.
#[derive(Drop)]
pub struct SharedSteps {
    steps: Arc<Vec<Step>>,
}

impl Model for SharedSteps {
    ghost use Rattle.std.specs.Prelude.{List};
    ghost use Rattle.std.specs.Arc.{arc_value};
    ghost use Rattle.script_lines.specs.declared.command.Step.{Step as StepValue};

    ghost Value = { List StepValue };

    ghost view = { λ shared. (arc_value shared.steps).items };
}

impl SharedSteps {
    /// These steps. Where memory runs out they are dropped.
    pub fn of(alloc: Global, steps: Vec<Step>) -> Result<SharedSteps, OutOfMemory>
        ensures { IfOk result (λ shared. shared ≡ steps.items) }
    {
        let steps = Arc::new(alloc, steps).map_err(|_| OutOfMemory)?;
        Ok(SharedSteps { steps })
    }

    /// Copies of these steps.
    pub fn copy_of(alloc: Global, steps: &[Step]) -> Result<SharedSteps, OutOfMemory>
        ensures { IfOk result (λ shared. shared ≡ steps.now) }
    {
        let mut copies = Vec::with_capacity(alloc, steps.len())?;
        for step in steps {
            let step = step.copy(alloc)?;
            copies.push(step).map_err(|_| OutOfMemory)?;
        }
        SharedSteps::of(alloc, copies)
    }

    /// A share of the same steps.
    pub fn again(&self) -> Result<SharedSteps, OutOfMemory>
        ensures { IfOk result (λ again. again ≡ self.now) }
    {
        let steps = Arc::try_clone(&self.steps).map_err(|_| OutOfMemory)?;
        Ok(SharedSteps { steps })
    }

    /// The steps.
    pub fn as_slice(&self) -> &[Step]
        ensures { result.now ≡ self.now }
    {
        self.steps.as_slice()
    }
}
