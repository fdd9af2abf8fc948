//! What the definitions are worth, whatever the code does.

ghost use Rattle.std.specs.Prelude.{◌≡◌, ◌↔◌, ℕ, ◌<◌, ◌≤◌, Bool, false, List, length, All, Some, Ok, IsTrue};
ghost use Rattle.mls_label.specs.declared.label.Label.{Label};
ghost use Rattle.mls_label.specs.declared.label.Proto.{Proto};
ghost use Rattle.mls_label.specs.declared.label.Proto.TheVariants.{Calipso};
ghost use Rattle.mls_label.specs.Cats.{has, IsCats};
ghost use Rattle.doi_table.specs.declared.plan.DoiPlan.{DoiPlan};
ghost use Rattle.doi_table.specs.Definition.{IsDefinition};
ghost use Rattle.doi_table.specs.Translation.{wire_label, local_label};
ghost use Rattle.doi_table.specs.Table.{definition_of};
ghost use Rattle.script_lines.specs.Form.{Edition, with_ranges, with_translations};
ghost use Rattle.label_commands.specs.node_readings.Reading.{NamedMeanings};
ghost use Rattle.label_commands.specs.node_readings.Meaning.{meaning_of};
ghost use Rattle.node_tables.specs.Tables.{TableState};
ghost use Rattle.node_tables.specs.Steps.{tables_after, reply_at};
ghost use Rattle.node_tables.specs.Valid.{AreValid};
ghost use Rattle.label_commands.specs.declared.script.Script.{Script};
ghost use Rattle.label_commands.specs.Script.{IsScript};
ghost use Rattle.label_flow.specs.declared.node_agreement.disagree.Disagree.{Disagree};
ghost use Rattle.label_flow.specs.node_agreement.Meanings.{carried_in};
ghost use Rattle.label_flow.specs.node_agreement.Agreement.{AgreeBelow, Agree};
ghost use Rattle.label_flow.specs.node_agreement.First.{is_before, IsDifference, IsFirstBelow, IsFirst};

/// A label that goes from a node to one that agrees with it keeps its meaning, where it can go: the left node has a label for the wire,
/// in CALIPSO one without a category above 1951, and the right node has a label for that.
pub fn agreement_keeps_meaning()
    ensures { (left right : TableState) (left_named right_named : NamedMeanings) (proto : Proto)
        (doi : ℕ)
        (a b : DoiPlan) (x w y : Label) → Agree left right left_named right_named
        → definition_of left.definitions proto doi ≡ Some a
        → definition_of right.definitions proto doi ≡ Some b
        → IsDefinition a → IsDefinition b → x.level < 256 → IsCats x.cats → wire_label a x ≡ Ok w
        → (proto ≡ Calipso → (c : ℕ) → IsTrue (has w.cats c) → c < 1952)
        → local_label b w ≡ Ok y → meaning_of right_named y ≡ meaning_of left_named x }
{}

/// Whether two nodes agree doesn't depend on which is the left one.
pub fn agreement_is_mutual()
    ensures { (left right : TableState) (left_named right_named : NamedMeanings)
        → Agree left right left_named right_named → Agree right left right_named left_named }
{}

/// Two nodes agree exactly where there is no difference.
pub fn nodes_agree_without_a_difference()
    ensures { (left right : TableState) (left_named right_named : NamedMeanings)
        → (Agree left right left_named right_named
        ↔ ((d : Disagree) → IsDifference left right left_named right_named d → ⊥)) }
{}

/// There is one first difference at most.
pub fn one_difference_is_first()
    ensures { (left right : TableState) (left_named right_named : NamedMeanings) (d e : Disagree)
        → IsFirst left right left_named right_named d → IsFirst left right left_named right_named e
        → d ≡ e }
{}

/// Nodes that agree agree on fewer numbers too.
pub fn fewer_numbers_agree_more()
    ensures { (below wide : Proto → Bool → ℕ) (left right : TableState)
        (left_named right_named : NamedMeanings)
        → ((proto : Proto) (level : Bool) → below proto level ≤ wide proto level)
        → AgreeBelow wide left right left_named right_named
        → AgreeBelow below left right left_named right_named }
{}

/// Where fewer numbers count, the first difference stays if its number still counts, and else what is then the first comes no earlier.
pub fn fewer_numbers_differ_later()
    ensures { (below wide : Proto → Bool → ℕ) (left right : TableState)
        (left_named right_named : NamedMeanings)
        (d : Disagree) → ((proto : Proto) (level : Bool) → below proto level ≤ wide proto level)
        → IsFirstBelow wide left right left_named right_named d
        → (d.wire < below d.proto d.level → IsFirstBelow below left right left_named right_named d)
        ×
        ((e : Disagree) → IsFirstBelow below left right left_named right_named e
        → is_before e d ≡ false) }
{}

/// Under the last edition nodes that agreed before agree. A first difference stays the first, unless it is a CALIPSO category above 1951,
/// and what is then the first comes no earlier.
pub fn last_edition_agrees_more()
    ensures agree { (left right : TableState) (left_named right_named : NamedMeanings)
        → AgreeBelow (carried_in with_ranges) left right left_named right_named
        → Agree left right left_named right_named }
    ensures stays { (left right : TableState) (left_named right_named : NamedMeanings)
        (d : Disagree)
        → IsFirstBelow (carried_in with_ranges) left right left_named right_named d
        → (d.proto ≡ Calipso → d.level ≡ false → d.wire < 1952)
        → IsFirst left right left_named right_named d }
    ensures later { (left right : TableState) (left_named right_named : NamedMeanings)
        (d e : Disagree)
        → IsFirstBelow (carried_in with_ranges) left right left_named right_named d
        → IsFirst left right left_named right_named e → is_before e d ≡ false }
{}

/// A script of the edition before the last leaves the same tables after each of its steps under the last one, and each step has the same
/// reply. None of these steps is a command that only the last edition has (`commands_are_of_their_edition` in `label_commands`).
pub fn last_edition_keeps_tables()
    ensures tables { (own text : List ℕ) (old new : Script) (k : ℕ)
        → IsScript with_ranges own text old → IsScript with_translations own text new
        → tables_after (length old.nodes) old.steps k ≡ tables_after
        (length new.nodes) new.steps k }
    ensures replies { (own text : List ℕ) (old new : Script) (k : ℕ)
        → IsScript with_ranges own text old → IsScript with_translations own text new
        → reply_at (length old.nodes) old.steps k ≡ reply_at (length new.nodes) new.steps k }
{}

/// The tables of every script that is read are valid after any of its steps: each DOI is defined once and by a definition, the map names
/// only DOIs that are defined, each range is one of labels with its ends in order, and no key has two entries, nor an address two pairs.
pub fn tables_of_scripts_are_valid()
    ensures { (edition : Edition) (own text : List ℕ) (script : Script) (k : ℕ)
        → IsScript edition own text script
        → All AreValid (tables_after (length script.nodes) script.steps k) }
{}
