//! Packets as they come in.

ghost use Rattle.std.specs.Prelude.{◌≡◌, ◌≤◌, [], length, drop};

use std::marker::Model;

/// Octets, which contracts see as a list. Some may stand in front of them, so that the packet of a frame isn't moved to the front of its room.
#[derive(Drop)]
pub struct Octets {
    octets: Vec<u8>,
    front: usize,
}

impl Model for Octets {
    ghost use Rattle.std.specs.Prelude.{List, ℕ, ◌≤◌, drop, vec_len};

    ghost Value = { List ℕ };

    ghost view = { λ o. drop o.front o.octets.items };

    ghost invariant = { λ o. o.front ≤ vec_len o.octets };
}

impl Octets {
    /// These octets.
    pub fn of(octets: Vec<u8>) -> Octets
        ensures { result ≡ octets.items }
    {
        Octets { octets, front: 0 }
    }

    /// These octets but for the first ones.
    pub fn behind(octets: Vec<u8>, front: usize) -> Octets
        requires { front ≤ length octets.items }
        ensures { result ≡ drop front octets.items }
    {
        Octets { octets, front }
    }

    /// The octets, in the same room.
    pub fn into_vec(self) -> Vec<u8>
        ensures { result.items ≡ self }
    {
        let Octets { mut octets, front } = self;
        if front > 0 {
            let left = octets.len() - front;
            octets.copy_within(front.., 0);
            octets.truncate(left);
        }
        octets
    }

    /// Their room, for other octets.
    pub fn into_room(self) -> Vec<u8>
        ensures { result.items ≡ [] }
    {
        let Octets {
            mut octets,
            front: _,
        } = self;
        octets.clear();
        octets
    }

    /// The octets.
    pub fn as_slice(&self) -> &[u8]
        ensures { result.now ≡ self.now }
    {
        &self.octets[self.front..]
    }
}

/// A packet as it comes in, or a frame that has none.
#[derive(Drop)]
pub struct PacketIn {
    /// The packet from its first octet on, or the frame where it has no packet of IP.
    pub bytes: Octets,
    /// Whether it is a packet of IP.
    pub is_ip: bool,
}
