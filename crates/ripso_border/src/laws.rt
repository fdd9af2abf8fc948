//! Laws over the definitions of the border.

ghost use Rattle.std.specs.Prelude.{ℕ, ◌≡◌, ◌≢◌, ◌<◌, ◌≤◌, ◌^◌, List, length, false, Option, None, Some, Err, Ok};
ghost use Rattle.mls_label.specs.octet_grammar.Octets.{IsOctets};
ghost use Rattle.ip_headers.specs.Packet.{ParsedPacket};
ghost use Rattle.ip_headers.specs.Written.{packet_octets};
ghost use Rattle.packet_label.specs.declared.packet.Wire.{Wire};
ghost use Rattle.packet_label.specs.declared.denial.Denial.TheVariants.{NotIp, AlreadyLabelled, NoRoom, TooLong};
ghost use Rattle.packet_label.specs.Written.{written};
ghost use Rattle.doi_table.specs.declared.plan.DoiPlan.{DoiPlan};
ghost use Rattle.doi_table.specs.Definition.{IsDefinition};
ghost use Rattle.doi_table.specs.Table.{definition_of};
ghost use Rattle.node_tables.specs.Tables.{TableState};
ghost use Rattle.label_receive.specs.Incoming.{label_of};
ghost use Rattle.mls_label.specs.declared.label.Proto.TheVariants.{Cipso};
ghost use Rattle.packet_label.specs.Packet.{IsPacket};
ghost use Rattle.ripso_border.specs.declared.border.Way.{Way};
ghost use Rattle.ripso_border.specs.Crossing.{Crossed, Crosses};
ghost use Rattle.ripso_border.specs.In.{border_in};
ghost use Rattle.ripso_border.specs.Out.{Out};
ghost use Rattle.ripso_border.specs.Written.{border_octets};
ghost use Rattle.ripso_border.specs.Laws.{ComesBack, HasLocalLabel};
ghost use Rattle.ripso_border.specs.Worked.{worked_plan, worked_before, worked_behind};

/// A frame without a packet is denied so.
pub fn no_packet_goes_in()
    ensures { (plan : DoiPlan) (doi : ℕ) → border_in plan doi None ≡ Err NotIp }
{}

/// What becomes of a packet worked by hand.
pub fn a_worked_packet_goes_in()
    ensures { border_octets (border_in worked_plan 16 (Some worked_before)) ≡ Ok worked_behind }
{}

/// What has a CIPSO option already doesn't go in.
pub fn no_labelled_packet_goes_in()
    ensures { border_in worked_plan 16 (Some worked_behind) ≡ Err (AlreadyLabelled 20) }
{}

/// And comes out as it was.
pub fn a_worked_packet_comes_out()
    ensures { (verdict : Crossed) → Out worked_plan 16 (Some worked_behind) verdict
        → border_octets verdict ≡ Ok worked_before }
{}

/// What goes in and comes out again says by option 130 the label that it said.
pub fn label_comes_back()
    ensures { (plan : DoiPlan) (doi : ℕ) (octets : List ℕ) (p q : ParsedPacket Wire)
        → IsDefinition plan → 0 < doi → doi < 2 ^ 32 → IsOctets octets
        → border_in plan doi (Some octets) ≡ Ok p
        → Out plan doi (Some (packet_octets (written p))) (Ok q)
        → ComesBack octets q }
{}

/// Where the first node behind the border passes all numbers of the DOI with the border's tags, a packet that went in has there the
/// local label of what its option 130 said.
pub fn first_hop_has_the_local_label()
    ensures { (plan here : DoiPlan) (doi : ℕ) (octets interface : List ℕ) (t : TableState)
        (p r : ParsedPacket Wire)
        → IsDefinition plan → 0 < doi → doi < 2 ^ 32 → IsOctets octets
        → border_in plan doi (Some octets) ≡ Ok p
        → definition_of t.definitions Cipso doi ≡ Some here → here.trans ≡ false
        → here.tags ≡ plan.tags
        → IsPacket (packet_octets (written p)) r
        → HasLocalLabel plan doi octets (label_of t interface r) }
{}

/// What becomes of a packet is one thing.
pub fn packets_have_one_verdict()
    ensures { (way : Way) (plan : DoiPlan) (doi : ℕ) (part : Option (List ℕ)) (a b : Crossed)
        → Crosses way plan doi part a → Crosses way plan doi part b → a ≡ b }
{}

/// A packet that is written has at most 65,535 octets.
pub fn written_packets_are_short()
    ensures { (way : Way) (plan : DoiPlan) (doi : ℕ) (part : Option (List ℕ))
        (p : ParsedPacket Wire)
        → Crosses way plan doi part (Ok p) → length (packet_octets (written p)) ≤ 65535 }
{}

/// What goes out lacks neither room nor length.
pub fn what_goes_out_has_room()
    ensures { (plan : DoiPlan) (doi : ℕ) (octets : List ℕ) (verdict : Crossed)
        → IsDefinition plan → IsOctets octets → Out plan doi (Some octets) verdict
        → (verdict ≢ Err NoRoom) × (verdict ≢ Err TooLong) }
{}
