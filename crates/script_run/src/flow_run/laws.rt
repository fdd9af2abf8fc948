//! What the definitions are worth, whatever the code does.

ghost use Rattle.std.specs.Prelude.{◌≡◌, ℕ, List, slice_get, true, Some, All};
ghost use Rattle.shared_tables.specs.Plan.{PlanState};
ghost use Rattle.label_flow.specs.Pair.{PairState};
ghost use Rattle.script_run.specs.flow_run.Run.{FlowRun, IsRun, is_denied, kept_frames, output_capture};
ghost use Rattle.script_run.specs.flow_run.Laws.{IsOfPassed, run_without};
ghost use Rattle.script_run.specs.flow_run.Withheld.{WithholdsUnsaid};

/// An output capture is made of frames of packets that weren't denied.
pub fn outputs_are_of_packets_that_passed()
    ensures { (run : FlowRun)
        → All (IsOfPassed run.input.frames run.pairs) (kept_frames run.input.frames run.pairs) }
{}

/// It is what it would be if a packet that was denied hadn't come.
pub fn denied_packets_leave_no_frame()
    ensures { (run : FlowRun) (n : ℕ) (pair : PairState)
        → slice_get run.pairs n ≡ Some pair → is_denied pair.walked.end ≡ true
        → output_capture run ≡ output_capture (run_without n run) }
{}

/// A packet that comes to a hop which has no option for its label ends denied there, as Inexpressible where no earlier case holds, and no
/// frame of the output stems from it; Inexpressible is told of no other packet.
pub fn runs_withhold_what_no_option_says()
    ensures { (plan : PlanState) (run : FlowRun) (seen : List (List ℕ))
        → IsRun plan run seen → WithholdsUnsaid plan run }
{}
