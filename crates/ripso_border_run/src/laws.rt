//! Laws over the definitions of a border and of flows behind it.

ghost use Rattle.std.specs.Prelude.{◌≡◌, ◌<◌, ◌^◌, ℕ, List, Some, Ok};
ghost use Rattle.mls_label.specs.octet_grammar.Octets.{IsOctets};
ghost use Rattle.mls_label.specs.declared.label.Label.{Label};
ghost use Rattle.doi_table.specs.declared.plan.DoiPlan.{DoiPlan};
ghost use Rattle.doi_table.specs.Definition.{IsDefinition};
ghost use Rattle.label_commands.specs.declared.flow_lines.hop.Hop.{Hop};
ghost use Rattle.shared_tables.specs.Plan.{PlanState};
ghost use Rattle.label_flow.specs.flow_access.Sound.{IsOrigin};
ghost use Rattle.ripso_border.specs.In.{border_in};
ghost use Rattle.ripso_border.specs.Written.{border_octets};
ghost use Rattle.ripso_border_run.specs.Laws.{BeginsBehind, SaysOrigin};

/// Where a flow's first hop takes packets in, at a node that passes all numbers of the DOI with the tags of the border's definition, the
/// origin of a packet that came in over the border is the local label of what its option 130 said. So what is promised of a flow's
/// origin, that who receives a packet may have what it meant, is promised of option 130.
pub fn origin_is_what_option_130_said()
    ensures { (plan : DoiPlan) (doi : ℕ) (before behind : List ℕ) (tables : PlanState)
        (hops : List Hop) (versions : List ℕ) (origin : Label)
        → IsDefinition plan → 0 < doi → doi < 2 ^ 32 → IsOctets before
        → border_octets (border_in plan doi (Some before)) ≡ Ok behind
        → BeginsBehind plan doi tables hops versions
        → IsOrigin tables hops behind versions origin → SaysOrigin plan before origin }
{}
