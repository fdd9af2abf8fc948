//! What the definitions are worth, whatever the code does.

ghost use Rattle.std.specs.Prelude.{◌≡◌, ℕ, false, List, All, Result, Ok, IsSome};
ghost use Rattle.mls_label.specs.declared.label.Label.{Label};
ghost use Rattle.mls_label.specs.Label.{IsLabel};
ghost use Rattle.ip_headers.specs.Packet.{ParsedPacket};
ghost use Rattle.packet_label.specs.declared.denial.Carrier.{Carrier};
ghost use Rattle.packet_label.specs.declared.fault.CarryFault.{CarryFault};
ghost use Rattle.packet_label.specs.declared.packet.Wire.{Wire};
ghost use Rattle.packet_label.specs.Written.{IsNext};
ghost use Rattle.domain_map.specs.declared.protocol.Protocol.{Protocol};
ghost use Rattle.script_lines.specs.Form.{Edition};
ghost use Rattle.label_commands.specs.declared.flow_lines.hop.Hop.{Hop};
ghost use Rattle.label_commands.specs.declared.flow_lines.flow.FlowLine.{FlowLine};
ghost use Rattle.label_commands.specs.flow_lines.Hop.{is_send, node_of};
ghost use Rattle.label_commands.specs.node_readings.Reading.{NamedMeanings};
ghost use Rattle.label_commands.specs.node_readings.Meaning.{meaning_of};
ghost use Rattle.node_tables.specs.Tables.{TableState};
ghost use Rattle.node_tables.specs.Valid.{AreValid};
ghost use Rattle.label_flow.specs.node_agreement.Agreement.{Agree};
ghost use Rattle.label_send.specs.Outgoing.{outgoing};
ghost use Rattle.label_commands.specs.declared.script.Script.{Script};
ghost use Rattle.label_commands.specs.Script.{IsScript};
ghost use Rattle.shared_tables.specs.Plan.{PlanState};
ghost use Rattle.captures.specs.declared.packet_in.PacketIn.{PacketIn};
ghost use Rattle.label_flow.specs.declared.packet_walk.walked.End.{End};
ghost use Rattle.label_flow.specs.packet_walk.Walk.{goes_on, tables_of, hop_verdict, IsWalkOf};
ghost use Rattle.label_flow.specs.Pair.{PairState};
ghost use Rattle.label_flow.specs.Walked.{AreWalked};
ghost use Rattle.label_flow.specs.flow_access.Access.{HaveAccess};
ghost use Rattle.label_flow.specs.flow_access.Kept.{LabelIsKept};
ghost use Rattle.label_flow.specs.flow_access.Labels.{hop_label};
ghost use Rattle.label_flow.specs.flow_access.Sound.{IsSound};
ghost use Rattle.label_flow.specs.flow_access.Valid.{plan_of, IsValidFlow};

/// What a hop lets go on has the option by which some protocol says the label under which the hop judged it, or none, as under `unlbl`.
pub fn hops_say_their_label()
    ensures { (network : List TableState) (hop : Hop) (octets : List ℕ)
        (read : Result (ParsedPacket Wire) CarryFault)
        (carrier : Carrier) (packet : ParsedPacket Wire) (x : Label)
        → hop_verdict network hop octets read ≡ goes_on carrier packet
        → hop_label (tables_of network (node_of hop)) hop read ≡ Ok x
        → (protocol : Protocol)
        × (outgoing (tables_of network (node_of hop)).definitions protocol x ≡ Ok packet.label) }
{}

/// A label that goes out in an option means the same to the next hop, where both nodes agree.
pub fn options_keep_meanings()
    ensures { (a b : TableState) (a_named b_named : NamedMeanings) (protocol : Protocol)
        (packet : ParsedPacket Wire)
        (next : Hop) (later : Result (ParsedPacket Wire) CarryFault) (x y : Label)
        → AreValid a → AreValid b → Agree a b a_named b_named
        → IsLabel x → outgoing a.definitions protocol x ≡ Ok packet.label → IsSome packet.label
        → is_send next ≡ false → IsNext packet later → hop_label b next later ≡ Ok y
        → (meaning_of b_named y ≡ meaning_of a_named x) × IsLabel y }
{}

/// A walk along which the label is kept is sound, over any number of hops.
pub fn kept_is_sound()
    ensures { (plan : PlanState) (readings : List NamedMeanings) (hops : List Hop)
        (packet : PacketIn) (versions : List ℕ) (end : End) (out : List ℕ)
        → IsValidFlow plan readings hops → IsWalkOf plan hops packet versions end out
        → LabelIsKept plan readings hops packet.bytes versions
        → IsSound plan readings hops packet.bytes versions end }
{}

/// So it is for each packet of a flow, under any order of publications and looks.
pub fn walked_packets_have_access()
    ensures { (plan : PlanState) (readings : List NamedMeanings) (hops : List Hop)
        (packets : List PacketIn) (pairs : List PairState)
        → IsValidFlow plan readings hops → AreWalked plan hops packets pairs
        → HaveAccess plan readings hops packets pairs }
{}

/// Each flow of a script that is read is valid.
pub fn flows_of_scripts_are_valid()
    ensures { (edition : Edition) (own text : List ℕ) (script : Script)
        → IsScript edition own text script
        → All (λ (flow : FlowLine). IsValidFlow
        (plan_of script)
        script.readings flow.hops) script.flows }
{}

/// So the packets of its flows have access, under any order of publications and looks.
pub fn packets_of_scripts_have_access()
    ensures { (edition : Edition) (own text : List ℕ) (script : Script) (packets : List PacketIn)
        (pairs : List PairState)
        → IsScript edition own text script
        → All (λ (flow : FlowLine). AreWalked
        (plan_of script) flow.hops packets pairs
        → HaveAccess
        (plan_of script)
        script.readings flow.hops packets pairs) script.flows }
{}
