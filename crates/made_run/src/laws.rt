//! Laws: what is true of made packets. Each is a function with nothing to do, whose clause is the law.

ghost use Rattle.std.specs.Prelude.{◌≡◌, ◌↔◌, ℕ, ◌+◌, IsOk};
ghost use Rattle.mls_label.specs.Label.{Dominates};
ghost use Rattle.made_run.specs.made_capture.Packet.{label_made};
ghost use Rattle.made_run.specs.Network.{receiver_level};
ghost use Rattle.made_run.specs.Verdict.{made_verdict, delivered_made, denied_made};

/// A made packet is delivered exactly where the receiver's level dominates its label.
pub fn made_packets_are_delivered_where_dominated()
    ensures { (x : ℕ) → IsOk (made_verdict x) ↔ Dominates receiver_level (label_made x) }
{}

/// Each made packet is delivered or denied.
pub fn made_packets_are_delivered_or_denied()
    ensures { (seed count : ℕ) → delivered_made seed count + denied_made seed count ≡ count }
{}
