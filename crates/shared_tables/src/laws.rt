//! What the definitions are worth, whatever the code does.

ghost use Rattle.std.specs.Prelude.{◌≡◌, ℕ, ◌≤◌, take};
ghost use Rattle.shared_tables.specs.Plan.{PlanState, network_after};

/// A beginning of a plan has that plan's tables. So a board on a longer beginning goes on where one on a shorter ended.
pub fn beginnings_agree()
    ensures { (plan : PlanState) (m k : ℕ) → k ≤ m
        → network_after (record plan { steps = take m plan.steps }) k ≡ network_after plan k }
{}
