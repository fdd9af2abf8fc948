//! What the definitions are worth, whatever the code does.

ghost use Rattle.std.specs.Prelude.{◌≡◌, ◌↔◌, ℕ, List, [], All, Option, Some, IsTrue, codes, slice_get};
ghost use Rattle.script_lines.specs.Form.{Edition};
ghost use Rattle.label_commands.specs.declared.flow_lines.hop.Hop.{Hop};
ghost use Rattle.label_commands.specs.declared.flow_lines.flow.FlowLine.{FlowLine};
ghost use Rattle.label_commands.specs.node_readings.Reading.{NamedMeanings};
ghost use Rattle.node_tables.specs.Tables.{TableState};
ghost use Rattle.label_commands.specs.declared.script.Script.{Script};
ghost use Rattle.label_commands.specs.Script.{IsScript};
ghost use Rattle.shared_tables.specs.Plan.{PlanState};
ghost use Rattle.captures.specs.declared.packet_in.PacketIn.{PacketIn};
ghost use Rattle.label_flow.specs.declared.packet_walk.walked.End.{End};
ghost use Rattle.label_flow.specs.packet_walk.Walk.{IsWalkOf};
ghost use Rattle.label_flow.specs.Pair.{PairState};
ghost use Rattle.label_flow.specs.Walked.{AreWalked};
ghost use Rattle.label_flow.specs.flow_access.Valid.{plan_of, IsValidFlow};
ghost use Rattle.call_report.specs.CallEnds.{CallEnds};
ghost use Rattle.call_report.specs.Outside.{Outside};
ghost use Rattle.call_report.specs.Report.{Report};
ghost use Rattle.call_report.specs.script_input.Answer.{HopsAnswer};
ghost use Rattle.call_report.specs.script_input.Flow.{versions_for};
ghost use Rattle.static_law.specs.declared.uncovered.Uncovered.{Uncovered};
ghost use Rattle.static_law.specs.Covered.{Covered, NeighboursCovered};
ghost use Rattle.static_law.specs.Uncovered.{IsUncovered};
ghost use Rattle.static_law.specs.Climbs.{Climbs};
ghost use Rattle.static_law.specs.Climbed.{HaveClimbed};
ghost use Rattle.static_law.specs.declared.question.CoverQuestion.{CoverQuestion};
ghost use Rattle.static_law.specs.Cover.{IsLinkFound, cover_text, cover_says};
ghost use Rattle.static_law.specs.Told.{TellsCoverage};
ghost use Rattle.static_law.specs.CoveredFlow.{IsCoveredFlow, IsLastLine};

/// A walk over hops of which each covers the next climbs, whatever octets came in, over any number of hops: where it delivers, the label means at
/// least what it meant at its origin, and the receiver's level at least as much as both, but for packets of version 6 with protocol 0 behind
/// Hop-by-Hop.
pub fn covered_walks_climb()
    ensures { (plan : PlanState) (readings : List NamedMeanings) (hops : List Hop)
        (packet : PacketIn) (versions : List ℕ) (end : End) (out : List ℕ)
        → IsValidFlow plan readings hops → IsWalkOf plan hops packet versions end out
        → NeighboursCovered plan readings hops versions
        → Climbs plan readings hops packet.bytes versions end }
{}

/// So does each packet of a flow of a script that is read, under any order of publications and looks, where every two neighbouring hops were
/// covered under the versions that it was judged by.
pub fn packets_of_scripts_climb()
    ensures { (edition : Edition) (own text : List ℕ) (script : Script) (packets : List PacketIn)
        (pairs : List PairState)
        → IsScript edition own text script
        → All (λ (flow : FlowLine). AreWalked (plan_of script) flow.hops packets pairs
        → HaveClimbed (plan_of script) script.readings flow.hops packets pairs) script.flows }
{}

/// A link for which there is a reason isn't covered.
pub fn reasons_uncover()
    ensures { (left right : TableState) (out into : List ℕ) (left_named right_named : NamedMeanings)
        (why : Uncovered)
        → IsUncovered left out right into left_named right_named why
        → Covered left out right into left_named right_named → ⊥ }
{}

/// A link has one first reason.
pub fn one_reason_is_first()
    ensures { (left right : TableState) (out into : List ℕ) (left_named right_named : NamedMeanings)
        (a b : Uncovered)
        → IsUncovered left out right into left_named right_named a
        → IsUncovered left out right into left_named right_named b → a ≡ b }
{}

/// The last line of what is told of a script's flow is `covered` exactly where the script has the flow, a packet of it can have the versions, and
/// every two neighbouring hops are covered under them.
pub fn covered_is_told_exactly_where_each_link_is()
    ensures { (script : Script) (number : ℕ) (named : Option (List ℕ)) (status : ℕ)
        (report : Report)
        → HopsAnswer IsLinkFound cover_text number named script status report
        → (IsLastLine (codes "covered") report.body ↔ IsCoveredFlow script number named) }
{}

/// So a call that ends with status 0 has told it of the flow of the script that its file holds, where the folder and the stream tell what they hold.
pub fn calls_tell_whether_each_link_is_covered()
    ensures { (asked : CoverQuestion) (before after : Outside)
        → CallEnds cover_says (Some asked) before after 0 []
        → IsTrue before.folder.tells → IsTrue before.stream.tells
        → TellsCoverage asked before after }
{}

/// Each packet of a covered flow that was judged under these versions climbs, under any order of publications and looks.
pub fn packets_of_covered_flows_climb()
    ensures { (edition : Edition) (own text : List ℕ) (script : Script) (number : ℕ)
        (named : Option (List ℕ)) (packets : List PacketIn) (pairs : List PairState)
        (k : ℕ) (packet : PacketIn) (pair : PairState)
        → IsScript edition own text script → (covered : IsCoveredFlow script number named)
        → AreWalked (plan_of script) covered.flow.hops packets pairs
        → slice_get packets k ≡ Some packet → slice_get pairs k ≡ Some pair
        → pair.walked.versions ≡ versions_for covered.flow named
        → Climbs (plan_of script) script.readings covered.flow.hops packet.bytes
        pair.walked.versions pair.walked.end }
{}
