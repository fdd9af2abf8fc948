//! What became of a packet.

ghost use Rattle.std.specs.Prelude.{◌≡◌, ◌<◌, ◌≤◌, [], ◌∷◌, ◌++◌, length, take};

use domain_map::Address;
use mls_label::Label;
use packet_label::{Carrier, Denial};
use std::marker::Model;

/// How a walk ended.
#[derive(Debug, Drop)]
pub enum End {
    /// With this label, in the last node's own numbers, it was delivered to this address.
    Delivered { label: Label, receiver: Address },
    /// The last hop sent it on, and this carries its label.
    Sent { carrier: Carrier },
    /// This hop, counted from 1, denied it; hop 0 where it isn't a packet of IP.
    Denied { hop: u32, denial: Denial },
}

/// The versions of the hops that judged a packet, at most 16. Contracts see them as a list.
#[derive(Debug, Drop)]
pub struct Versions {
    places: [u32; 16],
    count: usize,
}

impl Model for Versions {
    ghost use Rattle.std.specs.Prelude.{List, ℕ, ◌≤◌, take};

    ghost Value = { List ℕ };

    ghost view = { λ v. take v.count v.places };

    ghost invariant = { λ v. v.count ≤ 16 };
}

/// What became of a packet: how its walk ended, and under which versions its hops judged it, in their order.
#[derive(Debug, Drop)]
pub struct Walked {
    pub end: End,
    pub versions: Versions,
}

impl Versions {
    /// No version.
    pub fn empty() -> Versions
        ensures { result ≡ [] }
    {
        Versions {
            places: [0; 16],
            count: 0,
        }
    }

    /// The versions, from the first hop's to the last one's: at most 16.
    pub fn as_slice(&self) -> &[u32]
        ensures versions { result.now ≡ self.now }
        ensures few { length result.now ≤ 16 }
    {
        &self.places[..self.count]
    }

    /// Becomes the other versions.
    pub fn assign(&mut self, from: &Versions)
        ensures { self.new ≡ from.now }
    {
        self.places = from.places;
        self.count = from.count;
    }

    // The first ones stay.
    pub(crate) fn keep(&mut self, count: usize)
        requires { count ≤ length self.old }
        ensures { self.new ≡ take count self.old }
    {
        self.count = count;
    }

    // The ones in front of this place stay.
    pub(crate) fn put(&mut self, place: usize, version: u32)
        requires { (place < 16) × (place ≤ length self.old) }
        ensures { self.new ≡ take place self.old ++ version ∷ [] }
    {
        self.places[place] = version;
        self.count = place + 1;
    }
}
