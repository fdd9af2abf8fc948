//! Addresses of both families.

ghost use Rattle.std.specs.Prelude.{◌≡◌, ◌*◌, ◌≤◌, length, MatchOption};
ghost use Rattle.domain_map.specs.declared.address_text.address.Address.{Address};
ghost use Rattle.domain_map.specs.address_text.Address.{IsAddress, IsOctetsOf, IsAddressText, address_of_text, same_address, width_of};

use std::net::{Ipv4Addr, Ipv6Addr};

/// An IPv4 or an IPv6 address, as its octets in network order.
#[derive(Clone, Copy, Debug, PartialEq, Eq, Hash)]
pub enum Address {
    V4([u8; 4]),
    V6([u8; 16]),
}

impl Address {
    /// How many bits an address of this family has.
    pub fn width(&self) -> u8
        ensures bits { result ≡ width_of self.now }
        ensures address { IsAddress self.now }
    {
        match self {
            Address::V4(octets) => width_of_octets(octets),
            Address::V6(octets) => width_of_octets(octets),
        }
    }

    /// Whether this is the same address.
    pub fn same(&self, other: &Address) -> bool
        ensures { result ≡ same_address self.now other.now }
    {
        match (self, other) {
            (Address::V4(a), Address::V4(b)) => a == b,
            (Address::V6(a), Address::V6(b)) => a == b,
            _ => false,
        }
    }
}

fn width_of_octets(octets: &[u8]) -> u8
    requires { length octets.now ≤ 16 }
    ensures width { result ≡ 8 * length octets.now }
    ensures octets { IsOctetsOf (length octets.now) octets.now }
{
    8 * octets.len() as u8
}

/// Reads a whole text as an address: four decimal numbers with dots between (RFC 791), or groups of hexadecimal digits with
/// colons between, of which one `::` may stand for zero groups (RFC 4291 section 2.2, without its dotted form).
pub fn read_address(text: &[u8]) -> Option<Address>
    ensures read { MatchOption result ((a : Address) → IsAddressText text.now a → ⊥)
        (IsAddressText text.now) }
    ensures value { result ≡ address_of_text text.now }
{
    if let Ok(four) = Ipv4Addr::parse_ascii(text) {
        return Some(Address::V4(four.octets()));
    }
    if text.contains(&b'.') {
        return None;
    }
    match Ipv6Addr::parse_ascii(text) {
        Ok(six) => Some(Address::V6(six.octets())),
        Err(_) => None,
    }
}
