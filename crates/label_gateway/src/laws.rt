//! What the definitions are worth, whatever the code does.

ghost use Rattle.std.specs.Prelude.{◌≡◌, ◌⊎◌, ℕ, ◌+◌, List, None, Ok, Err, unwrap_or, Option};
ghost use Rattle.mls_label.specs.octet_grammar.Octets.{IsOctets};
ghost use Rattle.mls_label.specs.declared.label.Label.{Label};
ghost use Rattle.mls_label.specs.Label.{IsLabel};
ghost use Rattle.domain_map.specs.declared.protocol.Protocol.{Protocol};
ghost use Rattle.ip_headers.specs.Packet.{ParsedPacket, relabelled};
ghost use Rattle.packet_label.specs.declared.packet.Wire.{Wire};
ghost use Rattle.packet_label.specs.declared.denial.Denial.TheVariants.{Inexpressible, WrongVersion};
ghost use Rattle.packet_label.specs.Packet.{IsPacket};
ghost use Rattle.version_cross.specs.Cause.{cross_cause};
ghost use Rattle.version_cross.specs.Checksum.{checksum_sum};
ghost use Rattle.version_cross.specs.Cross.{crossed};
ghost use Rattle.version_cross.specs.Laws.{CanCross};
ghost use Rattle.node_tables.specs.Coherence.{NamesDefined};
ghost use Rattle.node_tables.specs.Tables.{TableState};
ghost use Rattle.label_send.specs.Outgoing.{outgoing};
ghost use Rattle.label_send.specs.Laws.{AreDefinitions, IsInRoom};
ghost use Rattle.label_gateway.specs.Forward.{Forwarded, forward_of, onward};
ghost use Rattle.label_gateway.specs.Laws.{ArePairs, GoesOn};
ghost use Rattle.label_gateway.specs.NoOption.{HasNoWayOn, before_forwarding};

/// A packet that is forwarded has labels that both interfaces take, more than one hop left, and a protocol under which it can go
/// out.
pub fn forwarded_packets_may_go_on()
    ensures { (t : TableState) (from to domain : List ℕ) (p : ParsedPacket Wire) (f : Forwarded)
        → forward_of t from to domain p ≡ Ok f → GoesOn t from to domain p f }
{}

/// A packet for which this holds is forwarded.
pub fn packets_that_may_go_on_are_forwarded()
    ensures { (t : TableState) (from to domain : List ℕ) (p : ParsedPacket Wire) (f : Forwarded)
        → GoesOn t from to domain p f → forward_of t from to domain p ≡ Ok f }
{}

/// What goes on says the label as its protocol does, in its own version as in the other.
pub fn packets_that_go_on_say_the_label()
    ensures { (t : TableState) (protocol : Protocol) (label : Label) (p new : ParsedPacket Wire)
        → onward t protocol label p ≡ Ok new
        → outgoing t.definitions protocol label ≡ Ok new.label }
{}

/// What goes on has the protocol of the packet that came in, and its version too, unless that one can cross.
pub fn packets_that_go_on_keep_their_protocol()
    ensures { (t : TableState) (protocol : Protocol) (label : Label) (p new : ParsedPacket Wire)
        → onward t protocol label p ≡ Ok new
        → (new.protocol ≡ p.protocol) × ((new.version ≡ p.version) ⊎ (cross_cause p ≡ None)) }
{}

/// A packet whose label no option says where it would go isn't forwarded: it is denied by the first that holds of OutsideRange where
/// it comes in, Expired, OutsideRange where it would go out and, where it would cross, NoPair and NotCrossable, and where none does, as
/// Inexpressible.
pub fn packets_without_an_option_are_not_forwarded()
    ensures { (t : TableState) (from to domain : List ℕ) (p : ParsedPacket Wire)
        (lacks : HasNoWayOn t from domain p)
        → forward_of t from to domain p
        ≡ Err
        (unwrap_or
        (before_forwarding t from to lacks.incoming lacks.none.protocol p) Inexpressible) }
{}

/// Inexpressible is told of no other packet, where the map names defined DOIs alone: one that forwarding denies so, in its own version or
/// where it would cross, has no option for its label where it would go, and no earlier case holds.
pub fn inexpressible_packets_have_no_way_on()
    ensures { (t : TableState) (from to domain : List ℕ) (p : ParsedPacket Wire)
        → NamesDefined t.definitions t.domains
        → forward_of t from to domain p ≡ Err Inexpressible
        → (lacks : HasNoWayOn t from domain p)
        × (before_forwarding t from to lacks.incoming lacks.none.protocol p ≡ None) }
{}

/// A packet that is forwarded has one hop less.
pub fn forwarding_takes_a_hop()
    ensures { (t : TableState) (from to domain : List ℕ) (p : ParsedPacket Wire) (f : Forwarded)
        → forward_of t from to domain p ≡ Ok f → f.packet.hops + 1 ≡ p.hops }
{}

/// A packet that was read and is forwarded may be written, within its room and its length. `written_packet_reads_back` in `packet_label`
/// says which packets are then read as themselves.
pub fn forwarded_packets_may_be_written()
    ensures { (t : TableState) (from to domain octets : List ℕ) (p : ParsedPacket Wire)
        (f : Forwarded)
        → AreDefinitions t.definitions → ArePairs t.pairs → IsLabel f.label
        → IsOctets octets → IsPacket octets p
        → forward_of t from to domain p ≡ Ok f → IsInRoom f.packet }
{}

/// A packet that crosses, whatever says its label then and however many hops are left, keeps the sum of pseudo-header and segment,
/// modulo 65535.
pub fn labelled_crossings_keep_the_sum()
    ensures { (p : ParsedPacket Wire) (source destination : List ℕ) (said : Option Wire) (hops : ℕ)
        → CanCross (relabelled p None p.hops) source destination
        → checksum_sum (crossed p source destination said hops) ≡ checksum_sum p }
{}

/// So does a packet that was read and is forwarded, in its own version or in the other: a segment that verifies does so afterwards, and
/// a damaged one stays damaged.
pub fn forwarded_packets_keep_the_sum()
    ensures { (t : TableState) (from to domain octets : List ℕ) (p : ParsedPacket Wire)
        (f : Forwarded)
        → ArePairs t.pairs → IsOctets octets → IsPacket octets p
        → forward_of t from to domain p ≡ Ok f → checksum_sum f.packet ≡ checksum_sum p }
{}

/// No packet is denied for its version: where the protocol is of the other version, it crosses or is denied for what keeps it from that.
pub fn forwarding_denies_no_version()
    ensures { (t : TableState) (from to domain : List ℕ) (p : ParsedPacket Wire)
        → forward_of t from to domain p ≡ Err WrongVersion → ⊥ }
{}
