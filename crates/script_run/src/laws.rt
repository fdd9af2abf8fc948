//! What the definitions are worth, whatever the code does.

ghost use Rattle.std.specs.Prelude.{◌≡◌, ◌<◌, ℕ, List, All, Some, IsTrue};
ghost use Rattle.label_commands.specs.declared.flow_lines.flow.FlowLine.{FlowLine};
ghost use Rattle.label_commands.specs.declared.script.Script.{Script as ScriptValue};
ghost use Rattle.shared_tables.specs.Plan.{PlanState};
ghost use Rattle.call_report.specs.Report.{Folder, Versions};
ghost use Rattle.call_report.specs.Event.{Event, packets_limit};
ghost use Rattle.script_run.specs.flow_run.Run.{FlowRun};
ghost use Rattle.label_flow.specs.flow_access.Valid.{plan_of};
ghost use Rattle.script_run.specs.Runs.{AreRuns, AreWholeRuns, IsLawfulRun, HasNoneBeside, is_done, last_event, FlowsStatus};

/// Under given versions flows run in one way, and so print one report and make the same files.
pub fn runs_are_determined()
    ensures { (plan : PlanState) (held : Folder) (number most : ℕ) (flows : List FlowLine)
        (seen : Versions) (runs runs' : List FlowRun)
        → AreRuns plan held number most flows seen runs
        → AreRuns plan held number most flows seen runs' → runs ≡ runs' }
{}

/// Flows know no more of a folder than the files that they read.
pub fn runs_know_their_inputs_alone()
    ensures { (plan : PlanState) (held other : Folder) (number most : ℕ) (flows : List FlowLine)
        (seen : Versions) (runs : List FlowRun)
        → All (λ (flow : FlowLine). held flow.input ≡ other flow.input) flows
        → AreRuns plan held number most flows seen runs
        → AreRuns plan other number most flows seen runs }
{}

/// Where no step stands beside a flow, there is one list of versions that is lawful and leaves nothing out, for any number of workers.
pub fn runs_without_steps_are_forced()
    ensures { (script : ScriptValue) (held : Folder) (w w' : ℕ)
        (seen seen' : Versions) (runs runs' : List FlowRun)
        → HasNoneBeside script → 0 < w → 0 < w'
        → AreRuns (plan_of script) held 1 packets_limit script.flows seen runs
        → AreWholeRuns script runs → All (IsLawfulRun script w) runs
        → AreRuns (plan_of script) held 1 packets_limit script.flows seen' runs'
        → AreWholeRuns script runs' → All (IsLawfulRun script w') runs'
        → seen ≡ seen' }
{}

/// Where all flows have run to their ends, the status that the captures give is 0, whichever versions there were.
pub fn done_flows_have_status_0()
    ensures { (script : ScriptValue) (held : Folder) (seen : Versions) (runs : List FlowRun)
        → AreRuns (plan_of script) held 1 packets_limit script.flows seen runs
        → IsTrue (is_done script runs)
        → FlowsStatus held 1 packets_limit script.flows 0 }
{}

/// Where an event ends the last flow that has run, the status that the captures give is the event's.
pub fn events_have_their_status()
    ensures { (script : ScriptValue) (held : Folder) (seen : Versions) (runs : List FlowRun)
        (event : Event) → AreRuns (plan_of script) held 1 packets_limit script.flows seen runs
        → last_event runs ≡ Some event
        → FlowsStatus held 1 packets_limit script.flows event.status }
{}
