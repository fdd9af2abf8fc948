//! What the definitions are worth, whatever the code does.

ghost use Rattle.std.specs.Prelude.{◌≡◌, ℕ, ◌<◌, List, None, Some, Ok, Err, IsTrue, unwrap_or};
ghost use Rattle.mls_label.specs.declared.label.Label.{Label};
ghost use Rattle.mls_label.specs.Label.{IsLabel};
ghost use Rattle.doi_table.specs.Table.{Entries};
ghost use Rattle.domain_map.specs.declared.address_text.address.Address.{Address};
ghost use Rattle.domain_map.specs.declared.protocol.Protocol.{Protocol};
ghost use Rattle.domain_map.specs.Domains.{Domains, find_of};
ghost use Rattle.ip_headers.specs.declared.version.Version.{Version};
ghost use Rattle.ip_headers.specs.Packet.{Headers, ParsedPacket};
ghost use Rattle.ip_headers.specs.Written.{IsParsed, rewritten};
ghost use Rattle.packet_label.specs.declared.packet.Wire.{Wire};
ghost use Rattle.packet_label.specs.declared.denial.Denial.{Denial};
ghost use Rattle.packet_label.specs.declared.denial.Denial.TheVariants.{Inexpressible};
ghost use Rattle.packet_label.specs.Choice.{front_in};
ghost use Rattle.node_tables.specs.Coherence.{NamesDefined};
ghost use Rattle.node_tables.specs.Tables.{TableState};
ghost use Rattle.label_send.specs.Outgoing.{CanGoOut, outgoing, suits};
ghost use Rattle.label_send.specs.Room.{sent_under};
ghost use Rattle.label_send.specs.Send.{Sent, send_of, send_octets};
ghost use Rattle.label_send.specs.Laws.{AreDefinitions, IsInRoom, IsInexpressible, IsSent};
ghost use Rattle.label_send.specs.NoOption.{HasNoOption, before_sending};

/// A packet that is sent has right headers without a label option, a label that the interface takes, and a protocol of its version under
/// which it goes out; version, protocol, addresses and hops stay.
pub fn sent_packets_may_go_out()
    ensures { (t : TableState) (domain interface : List ℕ) (label : Label) (octets : List ℕ)
        (sent : Sent)
        → send_octets t domain interface label octets ≡ Ok sent
        → IsSent t domain interface label octets sent }
{}

/// Under a protocol that a node's map gives, a label that doesn't go out is one that no option of the DOI's definition can say; that the
/// DOI isn't defined never comes.
pub fn labels_that_stay_are_inexpressible()
    ensures { (definitions : Entries) (domains : Domains) (domain : List ℕ) (address : Address)
        (protocol : Protocol)
        (label : Label) (why : Denial) → NamesDefined definitions domains
        → find_of domains domain address ≡ Some protocol
        → outgoing definitions protocol label ≡ Err why → (why ≡ Inexpressible)
        × IsInexpressible definitions protocol label }
{}

/// A label that no option of the DOI's definition can say doesn't go out.
pub fn inexpressible_labels_stay()
    ensures { (definitions : Entries) (protocol : Protocol) (label : Label)
        → IsInexpressible definitions protocol label
        → outgoing definitions protocol label ≡ Err Inexpressible }
{}

/// A packet with such a label isn't sent: it is denied by the first of AlreadyLabelled, OutsideRange and WrongVersion that holds, and
/// where none does, as Inexpressible.
pub fn packets_without_an_option_are_not_sent()
    ensures { (t : TableState) (domain interface : List ℕ) (label : Label) (h : Headers)
        (lacks : HasNoOption t domain label h)
        → send_of t domain interface label h
        ≡ Err (unwrap_or (before_sending t interface lacks.protocol label h) Inexpressible) }
{}

/// Inexpressible is told of no other packet, where the map names defined DOIs alone: one that sending denies so has no option for its
/// label, and no earlier case holds.
pub fn inexpressible_packets_have_no_option()
    ensures { (t : TableState) (domain interface : List ℕ) (label : Label) (octets : List ℕ)
        → NamesDefined t.definitions t.domains
        → send_octets t domain interface label octets ≡ Err Inexpressible
        → (h : Headers) × (front_in octets ≡ Ok h)
        × ((lacks : HasNoOption t domain label h)
        × (before_sending t interface lacks.protocol label h ≡ None)) }
{}

/// What goes out under a protocol that suits a version can be said in an option of this version.
pub fn outgoing_labels_can_be_said()
    ensures { (definitions : Entries) (protocol : Protocol) (label : Label) (version : Version)
        → AreDefinitions definitions
        → IsLabel label → IsTrue (suits version protocol)
        → CanGoOut version (outgoing definitions protocol label) }
{}

/// A packet that is sent may be written, within its room and its length, where its old values fit their fields and an option can say what
/// goes out. `written_packet_reads_back` in `packet_label` says which packets are then read as themselves.
pub fn sent_packets_may_be_written()
    ensures packets { (definitions : Entries) (protocol : Protocol) (label : Label)
        (p new : ParsedPacket Wire) (hops : ℕ)
        → IsParsed (rewritten p None hops)
        → CanGoOut p.version (outgoing definitions protocol label)
        → sent_under definitions protocol label p hops ≡ Ok new → IsInRoom new }
    ensures fronts { (definitions : Entries) (protocol : Protocol) (label : Label) (h : Headers)
        (new : ParsedPacket Wire) (hops : ℕ)
        → IsParsed (rewritten h None hops)
        → CanGoOut h.version (outgoing definitions protocol label)
        → sent_under definitions protocol label h hops ≡ Ok new → IsInRoom new }
{}
