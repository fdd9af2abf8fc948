//! What the definitions are worth, whatever the code does.

ghost use Rattle.std.specs.Prelude.{◌≡◌, ℕ, List, Result, Ok, Err, IsTrue};
ghost use Rattle.ip_headers.specs.Packet.{ParsedPacket};
ghost use Rattle.packet_label.specs.declared.packet.Wire.{Wire};
ghost use Rattle.packet_label.specs.declared.denial.Denial.{Denial};
ghost use Rattle.packet_label.specs.declared.denial.Denial.TheVariants.{BelowRange, Inexpressible};
ghost use Rattle.node_tables.specs.Tables.{TableState};
ghost use Rattle.label_receive.specs.declared.receiving.Delivered.{Delivered};
ghost use Rattle.label_receive.specs.Incoming.{label_of};
ghost use Rattle.label_receive.specs.Receive.{receive_of};
ghost use Rattle.label_receive.specs.Judged.{IsJudged};
ghost use Rattle.label_receive.specs.Laws.{HaveLowestEnds, IsDelivered, is_of_labels};

/// A rule gives one verdict on octets.
pub fn verdicts_are_determined<X>()
    ensures { (octets : List ℕ) (rule : ParsedPacket Wire → Result X Denial) (a b : Result X Denial)
        → IsJudged octets rule a → IsJudged octets rule b → a ≡ b }
{}

/// A rule gives a verdict on any octets.
pub fn octets_have_a_verdict<X>()
    ensures { (octets : List ℕ) (rule : ParsedPacket Wire → Result X Denial)
        → (verdict : Result X Denial) × IsJudged octets rule verdict }
{}

/// Where the low end of each receiver is level 0 without a category, no packet is below a receiver's range.
pub fn lowest_ends_deny_nothing()
    ensures { (t : TableState) (interface : List ℕ) (p : ParsedPacket Wire)
        → HaveLowestEnds t.receivers
        → receive_of t interface p ≡ Err BelowRange → ⊥ }
{}

/// A packet that is delivered has labels that the interface takes and that its receiver may have, and the receiver's map agrees
/// with what carried them.
pub fn delivered_packets_are_due()
    ensures { (t : TableState) (interface : List ℕ) (p : ParsedPacket Wire) (delivered : Delivered)
        → receive_of t interface p ≡ Ok delivered → IsDelivered t interface p delivered }
{}

/// A packet for which this holds is delivered.
pub fn due_packets_are_delivered()
    ensures { (t : TableState) (interface : List ℕ) (p : ParsedPacket Wire) (delivered : Delivered)
        → IsDelivered t interface p delivered → receive_of t interface p ≡ Ok delivered }
{}

/// Where a packet has no labels at an interface, the reason is one of six: Unlabelled, NoStatic, UnknownDoi, TagNotAllowed, LevelUnmapped
/// or CategoryUnmapped.
pub fn missing_labels_have_six_reasons()
    ensures { (t : TableState) (interface : List ℕ) (p : ParsedPacket Wire) (why : Denial)
        → label_of t interface p ≡ Err why → IsTrue (is_of_labels why) }
{}

/// No packet is denied as Inexpressible for its labels, nor where it is received.
pub fn receiving_never_tells_inexpressible()
    ensures labels { (t : TableState) (interface : List ℕ) (p : ParsedPacket Wire)
        → label_of t interface p ≡ Err Inexpressible → ⊥ }
    ensures received { (t : TableState) (interface : List ℕ) (p : ParsedPacket Wire)
        → receive_of t interface p ≡ Err Inexpressible → ⊥ }
{}
