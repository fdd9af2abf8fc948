//! Laws: what is true of the definitions alone. Each is a function with nothing to do, whose clause is the law.

ghost use Rattle.std.specs.Prelude.{◌≡◌, ℕ, ◌<◌, ◌≤◌, List, Option, Ok, None, Some, length, IfSome, IfErr};
ghost use Rattle.mls_label.specs.octet_grammar.Octets.{IsOctets};
ghost use Rattle.mls_label.specs.Label.{IsLabel};
ghost use Rattle.ip_headers.specs.declared.version.Version.{Version};
ghost use Rattle.ip_headers.specs.Packet.{ParsedPacket, Headers, relabelled};
ghost use Rattle.ip_headers.specs.Written.{IsLabelOption};
ghost use Rattle.packet_label.specs.declared.packet.Wire.{Wire};
ghost use Rattle.packet_label.specs.declared.fault.CarryFault.{CarryFault};
ghost use Rattle.packet_label.specs.Choice.{front_in, headers_in};
ghost use Rattle.packet_label.specs.Packet.{IsPacket, labelled};
ghost use Rattle.packet_label.specs.Fault.{IsPacketFault};
ghost use Rattle.packet_label.specs.Wire.{label_said};
ghost use Rattle.packet_label.specs.Written.{CanSay, IsWritable, wire_text};
ghost use Rattle.packet_label.specs.Laws.{HasOneAnswer, ReadsNext, StandsWithin};

/// Octets are one packet or have one first fault, and not both.
pub fn octets_are_a_packet_or_have_one_fault()
    ensures { (octets : List ℕ) → HasOneAnswer octets }
{}

/// A first fault stands in the octets or at their end.
pub fn faults_stand_within()
    ensures packets { (octets : List ℕ) (fault : CarryFault) → IsPacketFault octets fault
        → StandsWithin (length octets) fault }
    ensures fronts { (octets : List ℕ)
        → IfErr (front_in octets) (λ fault. fault.octet ≤ length octets) }
{}

/// What is read without the test for a second label option is a packet without a label where it has no label option.
pub fn fronts_without_a_label_are_packets()
    ensures { (octets : List ℕ) (headers : Headers) → front_in octets ≡ Ok headers
        → headers.label ≡ None → IsPacket octets (labelled headers None) }
{}

/// What is read as the label of a packet's option is a label: its level is below 256, its categories are a set.
pub fn labels_read_are_labels()
    ensures { (octets : List ℕ) (p : ParsedPacket Wire) (said : Wire) → IsPacket octets p
        → p.label ≡ Some said → IsLabel (label_said said) }
{}

/// What an option of a version can say has a written form that suits this version, and is octets.
pub fn written_options_suit_their_version()
    ensures { (version : Version) (wire : Wire) → CanSay version wire
        → IsLabelOption version (wire_text wire) × IsOctets (wire_text wire) }
{}

/// A packet that was read, as a whole or without its label, may be written with other hops and another label option or none:
/// its values fit their fields.
pub fn read_packets_may_be_written()
    ensures packets { (octets : List ℕ) (p : ParsedPacket Wire) (wire : Option Wire) (hops : ℕ)
        → IsOctets octets
        → IsPacket octets p
        → hops < 256
        → IfSome wire (CanSay p.version)
        → IsWritable (relabelled p wire hops) }
    ensures fronts { (octets : List ℕ) (headers : Headers) (wire : Option Wire) (hops : ℕ)
        → IsOctets octets
        → front_in octets ≡ Ok headers
        → hops < 256
        → IfSome wire (CanSay headers.version)
        → IsWritable (relabelled headers wire hops) }
{}

/// What is written within its room and length is read as the packet that it then is: that which was written, with its options
/// where they are written, the label option first; or what is read where version 6 hides its payload.
pub fn written_packet_reads_back()
    ensures { (p : ParsedPacket Wire) → ReadsNext p }
{}
