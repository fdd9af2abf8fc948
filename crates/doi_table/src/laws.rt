//! What the definitions are worth, whatever the code does.

ghost use Rattle.std.specs.Prelude.{◌≡◌, ℕ, ◌<◌, List, Option, Some, None, Ok, IsTrue, if◌then◌else◌};
ghost use Rattle.std.specs.List.{IsDistinct};
ghost use Rattle.std.specs.Map.{keys_of};
ghost use Rattle.mls_label.specs.declared.label.Label.{Label};
ghost use Rattle.mls_label.specs.declared.label.Proto.{Proto};
ghost use Rattle.mls_label.specs.Cats.{IsCats};
ghost use Rattle.doi_table.specs.declared.plan.DoiPlan.{DoiPlan};
ghost use Rattle.doi_table.specs.Pairs.{number_by, flipped, is_one_to_one};
ghost use Rattle.doi_table.specs.Definition.{IsDefinition, number_in};
ghost use Rattle.doi_table.specs.Translation.{wire_label, local_label};
ghost use Rattle.doi_table.specs.GoesBy.{GoesBy};
ghost use Rattle.doi_table.specs.Table.{Entries, same_doi, definition_of, with_definition, without_definition};

/// What a local label became on the wire is that label again at home.
pub fn local_undoes_wire()
    ensures { (plan : DoiPlan) (x y : Label) → IsDefinition plan → IsCats x.cats
        → wire_label plan x ≡ Ok y → local_label plan y ≡ Ok x }
{}

/// What a label on the wire became at home is that label again on the wire.
pub fn wire_undoes_local()
    ensures { (plan : DoiPlan) (x y : Label) → IsDefinition plan → IsCats x.cats
        → local_label plan x ≡ Ok y → wire_label plan y ≡ Ok x }
{}

/// Pairs that are one-to-one lead back.
pub fn pairs_lead_back()
    ensures { (pairs : List (ℕ × ℕ)) (n m : ℕ) → IsTrue (is_one_to_one pairs)
        → number_by pairs n ≡ Some m → number_by (flipped pairs) m ≡ Some n }
{}

/// A label goes on the wire by the numbers that its own numbers have.
pub fn wire_labels_go_by_numbers()
    ensures { (plan : DoiPlan) (x y : Label) → IsDefinition plan → wire_label plan x ≡ Ok y
        → GoesBy (number_in plan.trans plan.levels) (number_in plan.trans plan.cats) x y }
{}

/// A label comes home by the numbers that its own numbers have.
pub fn local_labels_go_by_numbers()
    ensures { (plan : DoiPlan) (x y : Label) → IsDefinition plan → local_label plan x ≡ Ok y
        → GoesBy (number_in plan.trans (flipped plan.levels))
        (number_in plan.trans (flipped plan.cats)) x y }
{}

/// A label on the wire is a label: its level is below 256, and its categories are a set.
pub fn wire_labels_are_labels()
    ensures { (plan : DoiPlan) (x y : Label) → IsDefinition plan → x.level < 256 → IsCats x.cats
        → wire_label plan x ≡ Ok y → (y.level < 256) × IsCats y.cats }
{}

/// A label that came home is a label: its level is below 256, and its categories are a set.
pub fn local_labels_are_labels()
    ensures { (plan : DoiPlan) (x y : Label) → IsDefinition plan → x.level < 256 → IsCats x.cats
        → local_label plan x ≡ Ok y → (y.level < 256) × IsCats y.cats }
{}

/// A DOI that is added is defined by its plan, and every other DOI as before.
pub fn added_definitions_are_found()
    ensures { (table : Entries) (name other : Proto × ℕ) (plan : DoiPlan)
        → definition_of table name.0 name.1 ≡ None
        → definition_of (with_definition table name.0 name.1 plan) other.0 other.1
        ≡ (if same_doi other name then Some plan else definition_of table other.0 other.1) }
{}

/// A DOI that is taken out isn't defined, and every other DOI is as before.
pub fn deleted_definitions_are_gone()
    ensures { (table : Entries) (name other : Proto × ℕ)
        → IsDistinct same_doi (keys_of table)
        → definition_of (without_definition table name.0 name.1) other.0 other.1
        ≡ (if same_doi name other then None else definition_of table other.0 other.1) }
{}
