//! What the definitions are worth, whatever the code does.

ghost use Rattle.std.specs.Prelude.{◌≡◌, ℕ, ◌+◌, List, All, Some, length, slice_get, replicate, IsTrue, IsSome};
ghost use Rattle.mls_label.specs.declared.label.Proto.{Proto};
ghost use Rattle.mls_label.specs.Label.{IsLabel};
ghost use Rattle.mls_range.specs.Range.{LabelRange};
ghost use Rattle.doi_table.specs.declared.plan.DoiPlan.{DoiPlan};
ghost use Rattle.doi_table.specs.Table.{Entries, definition_of};
ghost use Rattle.domain_map.specs.declared.address_text.address.Address.{Address};
ghost use Rattle.domain_map.specs.declared.protocol.Protocol.{Protocol};
ghost use Rattle.domain_map.specs.Protocol.{has_doi};
ghost use Rattle.domain_map.specs.Domains.{Domains, find_of};
ghost use Rattle.script_lines.specs.command_values.Ranges.{IsMlsRange};
ghost use Rattle.script_lines.specs.declared.command.Command.{Command};
ghost use Rattle.script_lines.specs.declared.command.Step.{Step};
ghost use Rattle.script_lines.specs.Bounded.{IsBounded};
ghost use Rattle.node_tables.specs.declared.reply.Reply.TheVariants.{Done};
ghost use Rattle.node_tables.specs.Tables.{TableState, fresh};
ghost use Rattle.node_tables.specs.Coherence.{NamesDefined};
ghost use Rattle.node_tables.specs.Effect.{applied, reply_of};
ghost use Rattle.node_tables.specs.Steps.{step_applied, step_reply, tables_after, reply_at};
ghost use Rattle.node_tables.specs.Valid.{IsDefined, AreValid};

/// Before the first step all nodes are fresh.
pub fn nodes_begin_fresh()
    ensures { (nodes : ℕ) (steps : List Step) → tables_after nodes steps 0 ≡ replicate nodes fresh }
{}

/// Steps are applied one by one, and each is answered by the tables that those before it left.
pub fn steps_apply_one_by_one()
    ensures { (nodes : ℕ) (steps : List Step) (k : ℕ) (step : Step) → slice_get steps k ≡ Some step
        → (tables_after nodes steps (k + 1) ≡ step_applied (tables_after nodes steps k) step)
        × (reply_at nodes steps k ≡ step_reply (tables_after nodes steps k) step) }
{}

/// No step changes how many nodes there are.
pub fn nodes_keep_their_number()
    ensures { (nodes : ℕ) (steps : List Step) (k : ℕ)
        → length (tables_after nodes steps k) ≡ nodes }
{}

/// A command that isn't answered by `Done` changes no table.
pub fn only_done_changes_tables()
    ensures { (t : TableState) (command : Command) → (reply_of t command ≡ Done → ⊥)
        → applied t command ≡ t }
{}

/// After any steps, each DOI that an entry of a node's map names is defined there.
pub fn maps_name_defined_dois()
    ensures { (nodes : ℕ) (steps : List Step) (k : ℕ)
        → All (λ (t : TableState). NamesDefined t.definitions t.domains)
        (tables_after nodes steps k) }
{}

/// The DOI of a protocol that is found for a domain is defined.
pub fn found_protocols_are_defined()
    ensures { (definitions : Entries) (domains : Domains) (domain : List ℕ) (address : Address)
        (protocol : Protocol) (proto : Proto) (doi : ℕ) → NamesDefined definitions domains
        → find_of domains domain address ≡ Some protocol → IsTrue (has_doi proto doi protocol)
        → IsSome (definition_of definitions proto doi) }
{}

/// A command whose numbers and labels are within their bounds keeps tables valid.
pub fn bounded_commands_keep_tables_valid()
    ensures { (t : TableState) (command : Command) → IsBounded command → AreValid t
        → AreValid (applied t command) }
{}

/// So do any steps, from fresh nodes on.
pub fn tables_are_valid_after_steps()
    ensures { (nodes : ℕ) (steps : List Step) (k : ℕ)
        → All (λ (step : Step). IsBounded step.command) steps
        → All AreValid (tables_after nodes steps k) }
{}

/// What valid tables define a DOI as is one of their valid definitions.
pub fn found_definitions_are_valid()
    ensures { (t : TableState) (proto : Proto) (doi : ℕ) (plan : DoiPlan) → AreValid t
        → definition_of t.definitions proto doi ≡ Some plan → IsDefined ((proto, doi), plan) }
{}

/// Both ends of a range that tables may have are labels.
pub fn range_ends_are_labels()
    ensures { (range : LabelRange) → IsMlsRange range → IsLabel range.low × IsLabel range.high }
{}
