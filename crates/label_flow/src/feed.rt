//! Feeds.

use crate::packet_walk::{PacketIn, Walked};

/// Where packets come from, and where what became of them goes.
pub trait Feed {
    type Stop: Send + Drop;

    ghost use Rattle.std.specs.Prelude.{◌≡◌, ◌⊎◌, ℕ, ◌+◌, ◌<◌, ◌≤◌, Bool, true, false, List, [], ◌∷◌, ◌++◌, Option, Some, length, IfOk, IfErr, OnOk, OnErr};
    ghost use Rattle.captures.specs.declared.packet_in.PacketIn.{PacketIn};
    ghost use Rattle.label_flow.specs.Pair.{PairState, pair};
    ghost use Rattle.label_flow.specs.Feed.{HasFetched, MayAccept};

    /// The packets still to come. It may be untold.
    ghost left: { Self → Option (List PacketIn) };

    /// The input was read to its end.
    ghost ended: { Self → Bool };

    /// So many packets were fetched and not yet accepted.
    ghost due: { Self → ℕ };

    /// None, or the last stop that was answered.
    ghost stop: { Self → Option Self.Stop };

    /// How many hops the flow has. No call changes it.
    ghost hops: { Self → ℕ };

    /// What each call needs, and leaves.
    ghost ready: { Self → Type 0 };

    /// From an earlier state of it on, these pairs were accepted, and the later state stands for that.
    ghost took: { Self → Self → List PairState → Type 0 };

    /// Moves 1 to 1,024 packets from the front of what is left into the batch, in place of what it held, and answers true; or answers
    /// false, where none is left, and the batch is then empty. A packet has at most 262,144 octets.
    fn fetch(&mut self, batch: &mut Vec<PacketIn>) -> Result<bool, Self::Stop>
        requires due { due self.old ≡ 0 }
        requires ready { ready self.old }
        ensures ok { IfOk result (λ more.
            HasFetched (left self.old) more batch.new.items (left self.new) (due self.new)) }
        ensures ended { IfOk result (λ more. more ≡ false → ended self.new ≡ true) }
        ensures err { IfErr result (λ e. (left self.new ≡ left self.old)
            × (due self.new ≡ 0)
            × (stop self.new ≡ Some e)) }
        ensures stop { OnOk result (stop self.new ≡ stop self.old) }
        ensures ready { ready self.new }
        ensures hops { hops self.new ≡ hops self.old }
        ensures took { (was : Self) (h : List PairState)
            → took was self.old h → took was self.new h };

    /// May read packets that come later, while those that were fetched are judged, so that `fetch` finds them read. It may come to the
    /// input's end; what is left, due or taken stays as it was, and a fault that it meets is for `fetch` to answer.
    fn read_ahead(&mut self)
        requires ready { ready self.old }
        ensures left { left self.new ≡ left self.old }
        ensures due { due self.new ≡ due self.old }
        ensures stop { stop self.new ≡ stop self.old }
        ensures ready { ready self.new }
        ensures hops { hops self.new ≡ hops self.old }
        ensures took { (was : Self) (h : List PairState)
            → took was self.old h → took was self.new h }
    {}

    /// Takes what became of the next packet, and the octets that its walk left. After a stop it may have been taken or not.
    fn accept(&mut self, walked: &Walked, packet: &[u8]) -> Result<(), Self::Stop>
        requires due { 0 < due self.old }
        requires ready { ready self.old }
        requires fits { MayAccept (hops self.old) walked.now.end packet.now }
        ensures due { OnOk result (due self.new + 1 ≡ due self.old) }
        ensures took { (was : Self) (h : List PairState)
            → took was self.old h
            → OnOk result (took was self.new (h ++ pair walked.now packet.now ∷ [])) }
        ensures cut { (was : Self) (h : List PairState)
            → took was self.old h
            → OnErr result
            (took was self.new h ⊎ took was self.new (h ++ pair walked.now packet.now ∷ [])) }
        ensures left { left self.new ≡ left self.old }
        ensures ready { ready self.new }
        ensures hops { hops self.new ≡ hops self.old }
        ensures stop { OnOk result (stop self.new ≡ stop self.old) }
        ensures err { IfErr result (λ e. stop self.new ≡ Some e) };
}
