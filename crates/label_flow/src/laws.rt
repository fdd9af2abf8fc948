//! What the definitions are worth, whatever the code does.

ghost use Rattle.std.specs.Prelude.{◌≡◌, ℕ, ◌+◌, ◌<◌, ◌≤◌, List, All, length, take};
ghost use Rattle.label_commands.specs.declared.flow_lines.hop.Hop.{Hop};
ghost use Rattle.shared_tables.specs.Plan.{PlanState};
ghost use Rattle.shared_tables.specs.Board.{ViewerState};
ghost use Rattle.captures.specs.declared.packet_in.PacketIn.{PacketIn};
ghost use Rattle.label_flow.specs.Pair.{PairState};
ghost use Rattle.label_flow.specs.Round.{IsRound};
ghost use Rattle.label_flow.specs.Walked.{AreWalked};
ghost use Rattle.label_flow.specs.Schedule.{FlowEvent, AreLawful, IsPlay, by_version, rows_by, versions_in};

/// What a complete schedule gives is lawful: each packet of the flow has a list, with as many versions as its walk judges hops, and versions
/// don't fall along a worker's packets.
pub fn plays_are_lawful()
    ensures { (plan : PlanState) (hops : List Hop) (w before after : ℕ) (packets : List PacketIn)
        (events : List FlowEvent) (seen : List (List ℕ))
        → IsPlay plan hops w before after packets events seen
        → AreLawful plan hops w before after packets seen }
{}

/// Where there is a worker, lawful versions are what the complete schedule gives that orders its looks by version.
pub fn lawful_versions_are_played()
    ensures { (plan : PlanState) (hops : List Hop) (w before steps : ℕ) (packets : List PacketIn)
        (seen : List (List ℕ)) → 0 < w → AreLawful plan hops w before (before + steps) packets seen
        → IsPlay plan hops w before (before + steps) packets
        (by_version (rows_by w seen) w before steps) seen }
{}

/// Where no step comes beside a flow, its packets have one lawful list of versions, for any number of workers.
pub fn versions_without_steps_are_forced()
    ensures { (plan : PlanState) (hops : List Hop) (w w' version : ℕ) (packets : List PacketIn)
        (seen seen' : List (List ℕ)) → 0 < w → 0 < w'
        → AreLawful plan hops w version version packets seen
        → AreLawful plan hops w' version version packets seen' → seen ≡ seen' }
{}

/// The versions of a round are lawful, from the one that all viewers had seen before it to the plan's last.
pub fn rounds_are_lawful()
    ensures { (plan : PlanState) (hops : List Hop) (before : ℕ) (packets : List PacketIn)
        (pairs : List PairState) (olds news : List ViewerState)
        → before ≤ length plan.steps
        → All (λ (v : ViewerState). (v.plan ≡ plan) × (v.seen ≡ before)) olds
        → IsRound hops 0 packets pairs olds news
        → AreLawful plan hops (length olds) before (length plan.steps) packets (versions_in pairs) }
{}

/// In a round each packet is walked, under versions of the plan.
pub fn rounds_walk_each_packet()
    ensures { (plan : PlanState) (hops : List Hop) (packets : List PacketIn)
        (pairs : List PairState) (olds news : List ViewerState)
        → 0 < length olds → All (λ (v : ViewerState). v.plan ≡ plan) olds
        → IsRound hops 0 packets pairs olds news
        → AreWalked plan hops packets pairs
        × All (λ (pair : PairState). All (λ v. v ≤ length plan.steps) pair.walked.versions) pairs }
{}

/// What is walked, and what is lawful, under the first m steps of a plan is so under the plan.
pub fn flows_agree_on_a_beginning()
    ensures walked { (plan : PlanState) (hops : List Hop) (m : ℕ) (packets : List PacketIn)
        (pairs : List PairState)
        → All (λ (pair : PairState). All (λ v. v ≤ m) pair.walked.versions) pairs
        → AreWalked (record plan { steps = take m plan.steps }) hops packets pairs
        → AreWalked plan hops packets pairs }
    ensures lawful { (plan : PlanState) (hops : List Hop) (w before after m : ℕ)
        (packets : List PacketIn) (seen : List (List ℕ)) → after ≤ m
        → AreLawful (record plan { steps = take m plan.steps }) hops w before after packets seen
        → AreLawful plan hops w before after packets seen }
{}

/// Under the same versions the same becomes of packets.
pub fn walked_packets_are_determined()
    ensures { (plan : PlanState) (hops : List Hop) (packets : List PacketIn)
        (pairs pairs' : List PairState)
        → AreWalked plan hops packets pairs → AreWalked plan hops packets pairs'
        → versions_in pairs ≡ versions_in pairs' → pairs ≡ pairs' }
{}

/// A schedule gives one list of versions.
pub fn schedules_give_one_play()
    ensures { (plan : PlanState) (hops : List Hop) (w before after : ℕ) (packets : List PacketIn)
        (events : List FlowEvent) (seen seen' : List (List ℕ))
        → IsPlay plan hops w before after packets events seen
        → IsPlay plan hops w before after packets events seen' → seen ≡ seen' }
{}
