//! The rule of what is shared, over the plan and numbers alone, and what each step tells the one who takes it.

ghost use Rattle.shared_tables.specs.inside.Rule.{AllFit, Finds, unknown};

use crate::plan::Plan;
use crate::state::State;
use atomic_table::{Join, Split};
use crossbeam_utils::rule::{Outcome, Protocol};

/// What one who looks or publishes knows: the plan, and a version that was reached. No value of it is made.
pub struct View {
    pub knows: bool,
    pub plan: Plan,
    pub seen: u64,
}

/// What everyone knows is true of the published state.
pub struct Rule;

impl Protocol<State, View> for Rule {
    ghost holds = { AllFit };

    ghost first = { unknown };
}

/// What was found becomes what is known.
pub struct Sees;

impl Outcome<State, View> for Sees {
    ghost then = { Finds };
}

/// The writer tells all that it knows, and keeps it.
pub struct Tells;

impl Split<View> for Tells {
    ghost left = { λ view. view };

    ghost right = { λ view. view };
}

/// A new reader takes in what it is told.
pub struct Learns;

impl Join<View> for Learns {
    ghost both = { λ _ told. told };

    ghost spent = { unknown };
}
