//! The labels that a caller lends.

ghost use Rattle.std.specs.Prelude.{◌≡◌, []};

use mls_label::Label;

/// Two labels that a caller owns once and lends for each packet: of 8 kB each, they aren't moved on a packet's way.
#[derive(Drop)]
pub struct Room {
    /// The label that the packet's option says, in the numbers of its DOI.
    pub wire: Label,
    /// The packet's high label, in the node's own numbers.
    pub local: Label,
}

impl Room {
    /// A room with the lowest labels.
    pub fn lowest() -> Room
        ensures { result
            ≡ record {
              wire = record { level = 0; cats = [] };
              local = record { level = 0; cats = [] };
            } }
    {
        Room {
            wire: Label::lowest(),
            local: Label::lowest(),
        }
    }
}
