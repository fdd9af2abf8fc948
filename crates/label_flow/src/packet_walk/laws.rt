//! What the definitions are worth, whatever the code does.

ghost use Rattle.std.specs.Prelude.{◌≡◌, ℕ, ◌≤◌, ◌++◌, List, [], take, All, Result};
ghost use Rattle.ip_headers.specs.Packet.{ParsedPacket};
ghost use Rattle.packet_label.specs.declared.denial.Denial.{Denial};
ghost use Rattle.packet_label.specs.declared.denial.Denial.TheVariants.{Inexpressible};
ghost use Rattle.packet_label.specs.declared.fault.CarryFault.{CarryFault};
ghost use Rattle.packet_label.specs.declared.packet.Wire.{Wire};
ghost use Rattle.label_commands.specs.declared.flow_lines.hop.Hop.{Hop};
ghost use Rattle.node_tables.specs.Tables.{TableState};
ghost use Rattle.shared_tables.specs.Plan.{PlanState, network_after};
ghost use Rattle.captures.specs.declared.packet_in.PacketIn.{PacketIn};
ghost use Rattle.label_flow.specs.declared.packet_walk.walked.End.{End};
ghost use Rattle.label_flow.specs.declared.packet_walk.walked.End.TheVariants as the_end;
ghost use Rattle.label_flow.specs.packet_walk.Walk.{Coming, IsReadFrom, IsWalkOf, Rises, denied, hop_verdict};
ghost use Rattle.label_flow.specs.packet_walk.NoOption.{HopHasNoOption, MeetsNoOption};

/// Under given versions a packet's walk ends in one way, and leaves the same octets.
pub fn walks_end_in_one_way()
    ensures { (plan : PlanState) (hops : List Hop) (packet : PacketIn)
        (versions : List ℕ) (end end' : End) (out out' : List ℕ)
        → IsWalkOf plan hops packet versions end out
        → IsWalkOf plan hops packet versions end' out'
        → (end ≡ end') × (out ≡ out') }
{}

/// A walk under no later version than m knows no more of a plan than its first m steps.
pub fn walks_agree_on_a_beginning()
    ensures { (plan : PlanState) (hops : List Hop) (packet : PacketIn)
        (versions : List ℕ) (end : End) (out : List ℕ) (m : ℕ)
        → All (λ v. v ≤ m) versions
        → IsWalkOf (record plan { steps = take m plan.steps }) hops packet versions end out
        → IsWalkOf plan hops packet versions end out }
{}

/// A hop reads what comes to it in one way.
pub fn hops_read_in_one_way()
    ensures { (coming : Coming) (a b : Result (ParsedPacket Wire) CarryFault)
        → IsReadFrom coming a → IsReadFrom coming b → a ≡ b }
{}

/// A hop that has no option for a packet's label denies it, as Inexpressible where no earlier case of sending or forwarding holds.
pub fn hops_without_an_option_deny()
    ensures { (network : List TableState) (hop : Hop) (octets : List ℕ)
        (read : Result (ParsedPacket Wire) CarryFault) (why : Denial)
        → HopHasNoOption network hop octets read why
        → hop_verdict network hop octets read ≡ denied why }
{}

/// There the packet's walk ends, and no octet is left of it.
pub fn walks_without_an_option_end_denied()
    ensures { (plan : PlanState) (hops : List Hop) (packet : PacketIn)
        (versions : List ℕ) (end : End) (out : List ℕ) (at : ℕ) (why : Denial)
        → IsWalkOf plan hops packet versions end out
        → MeetsNoOption plan hops packet versions at why
        → (end ≡ the_end.Denied at why) × (out ≡ []) }
{}

/// Inexpressible is told of no other packet: after any steps of a plan, a hop that denies a packet so has no option for its label.
pub fn hops_that_tell_inexpressible_have_no_option()
    ensures { (plan : PlanState) (version : ℕ) (hop : Hop) (octets : List ℕ)
        (read : Result (ParsedPacket Wire) CarryFault)
        → hop_verdict (network_after plan version) hop octets read ≡ denied Inexpressible
        → HopHasNoOption (network_after plan version) hop octets read Inexpressible }
{}

/// So a packet whose walk ends so comes to such a hop, which is the one that its end names.
pub fn walks_that_tell_inexpressible_meet_no_option()
    ensures { (plan : PlanState) (hops : List Hop) (packet : PacketIn)
        (versions : List ℕ) (out : List ℕ) (at : ℕ)
        → IsWalkOf plan hops packet versions (the_end.Denied at Inexpressible) out
        → MeetsNoOption plan hops packet versions at Inexpressible }
{}

/// A walk's versions don't begin those of another walk of the packet.
pub fn walks_are_cut_in_one_way()
    ensures { (plan : PlanState) (hops : List Hop) (packet : PacketIn) (a b r s : List ℕ)
        (end end' : End) (out out' : List ℕ) → a ++ r ≡ b ++ s
        → IsWalkOf plan hops packet a end out → IsWalkOf plan hops packet b end' out' → a ≡ b }
{}

/// Versions that don't fall from one bound to another don't fall between wider bounds.
pub fn versions_rise_between_wider_bounds()
    ensures { (low high lower higher : ℕ) (versions : List ℕ) → lower ≤ low → high ≤ higher
        → Rises low high versions → Rises lower higher versions }
{}
