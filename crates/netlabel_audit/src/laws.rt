//! What the definitions are worth, whatever the code does.

ghost use Rattle.std.specs.Prelude.{◌≡◌, ◌↔◌, ℕ, List, Some};
ghost use Rattle.label_commands.specs.declared.flow_lines.flow.FlowLine.{FlowLine as Flow};
ghost use Rattle.label_commands.specs.declared.script.Script.{Script};
ghost use Rattle.call_report.specs.CallEnds.{CallEnds};
ghost use Rattle.call_report.specs.Event.{Event};
ghost use Rattle.call_report.specs.Outside.{Outside};
ghost use Rattle.call_report.specs.Report.{Folder, Versions};
ghost use Rattle.script_run.specs.Runs.{FlowsStatus};
ghost use Rattle.netlabel_audit.specs.declared.asked.Audit.{Audit};
ghost use Rattle.netlabel_audit.specs.Inputs.{inputs_end, ended_by, all_whole};
ghost use Rattle.netlabel_audit.specs.OfRun.{HasEndedWith0, IsAuditOf, IsAnsweredYes};
ghost use Rattle.netlabel_audit.specs.Says.{audit_says};

/// An audit finds captures whole exactly where status 0 is due of a run over them.
pub fn whole_captures_end_no_run()
    ensures { (held : Folder) (number most : ℕ) (flows : List Flow)
        → (inputs_end held number most flows ≡ all_whole ↔ FlowsStatus held number most flows 0) }
{}

/// Where an event ends an audit's reading of captures, a run over them is due to end with its status.
pub fn events_of_captures_are_those_of_a_run()
    ensures { (held : Folder) (number most : ℕ) (flows : List Flow) (event : Event)
        → inputs_end held number most flows ≡ ended_by event
        → FlowsStatus held number most flows event.status }
{}

/// What a run has printed that ended with status 0, an audit with its script, its captures and its number of workers answers with `yes`,
/// unless it ends with 3, 4 or 6, for what was refused, or with 7, where the text is longer than an audit reads.
pub fn reports_of_runs_are_answered_yes()
    ensures { (asked : Audit) (script : Script) (ran : Folder) (text : List ℕ)
        (before after : Outside) (status : ℕ) (seen : Versions)
        → HasEndedWith0 script asked.workers ran text
        → IsAuditOf asked script ran text before.folder
        → CallEnds audit_says (Some asked) before after status seen
        → IsAnsweredYes text before after status }
{}
