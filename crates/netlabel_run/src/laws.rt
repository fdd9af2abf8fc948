//! Laws: what is true of the definitions alone. Each is a function with nothing to do, whose clause is the law.

ghost use Rattle.std.specs.Prelude.{◌≡◌, ◌<◌, ℕ, List, Option, ◌↔◌, Ok, IsTrue, is_none};
ghost use Rattle.std.specs.List.{list_all};
ghost use Rattle.mls_label.specs.declared.label.Label.{Label};
ghost use Rattle.label_commands.specs.declared.flow_lines.hop.Hop.{Hop};
ghost use Rattle.label_commands.specs.node_readings.Reading.{NamedMeanings};
ghost use Rattle.label_flow.specs.declared.node_agreement.disagree.Disagree.{Disagree};
ghost use Rattle.shared_tables.specs.Plan.{PlanState};
ghost use Rattle.label_flow.specs.flow_access.Kept.{NeighboursAgree};
ghost use Rattle.call_report.specs.Report.{Folder, Versions, Report};
ghost use Rattle.call_report.specs.Output.{Output};
ghost use Rattle.netlabel_run.specs.declared.command.Command.{Command};
ghost use Rattle.netlabel_run.specs.Words.{IsAsked};
ghost use Rattle.netlabel_run.specs.Commands.{netlabel_says};
ghost use Rattle.netlabel_run.specs.Run.{run_says};
ghost use Rattle.netlabel_run.specs.Laws.{IsOne, IsDetermined, IsAnswer};
ghost use Rattle.netlabel_run.specs.Laws.{HasNoCommandBeside, HoldTheSame};
ghost use Rattle.netlabel_run.specs.Judge.{IsVerdict, IsGranted};
ghost use Rattle.netlabel_run.specs.Agree.{AreFound};

/// Words ask for one thing: a command with what it names, or none.
pub fn words_ask_for_one_thing()
    ensures { (words : List (List ℕ)) → IsOne (IsAsked words) }
{}

/// A command over a folder has one report at most, one status and one list of stages.
pub fn commands_have_one_report()
    ensures { (request : Option Command) (held : Folder) (seen : Versions)
        → IsDetermined (netlabel_says request) held seen }
{}

/// Where no command of a script stands beside a flow, one list of versions is lawful and leaves nothing out, for any number of workers.
pub fn versions_without_commands_beside_are_forced()
    ensures { (file : List ℕ) (workers workers' : ℕ) (held : Folder) (seen seen' : Versions)
        → HasNoCommandBeside file held → 0 < workers → 0 < workers'
        → (run_says file workers).lawful held seen → (run_says file workers).whole held seen
        → (run_says file workers').lawful held seen' → (run_says file workers').whole held seen'
        → seen ≡ seen' }
{}

/// So the report and the outputs are a function of the script and the captures, whatever else the folders hold, for any number of workers.
pub fn scripts_without_commands_beside_have_one_answer()
    ensures { (file : List ℕ) (held other : Folder)
        (report report' : Report) (outputs outputs' : List Output)
        → HasNoCommandBeside file other → HoldTheSame file held other
        → IsAnswer file held report outputs → IsAnswer file other report' outputs'
        → (report ≡ report') × (outputs ≡ outputs') }
{}

/// `judge` delivers a label exactly where the octets begin with a packet whose headers are right, whose one label option is a CIPSO or a
/// CALIPSO option of the DOI with this label, and the receiver's level dominates it.
pub fn labels_are_delivered_exactly_where_granted()
    ensures { (doi : ℕ) (level : Label) (octets : List ℕ) (label : Label)
        → (IsVerdict doi level octets (Ok label) ↔ IsGranted doi level octets label) }
{}

/// `agree` is the last line exactly where every two neighbouring hops agree, each with the tables of its version: what access asks of neighbours.
pub fn agreement_is_told_where_neighbours_agree()
    ensures { (plan : PlanState) (readings : List NamedMeanings) (hops : List Hop)
        (versions : List ℕ) (found : List (Option Disagree))
        → AreFound plan readings hops versions found
        → (IsTrue (list_all is_none found) ↔ NeighboursAgree plan readings hops versions) }
{}
