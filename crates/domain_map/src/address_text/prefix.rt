//! Address prefixes.

ghost use Rattle.std.specs.Prelude.{◌≡◌, ◌≤◌, MatchOption};
ghost use Rattle.domain_map.specs.address_text.Address.{width_of};
ghost use Rattle.domain_map.specs.address_text.Prefix.{block_of, block_of_text, holds, same_block, masked, IsBlock};

use crate::address_text::address::{Address, read_address};
use crate::address_text::octets::{begin_with, clear_behind, read_number, split_once};
use std::marker::Model;

/// An address prefix: an address of which the first bits count, and the others are clear (RFC 4291 section 2.3).
#[derive(Clone, Copy, Debug, PartialEq, Eq, Hash)]
pub struct Prefix {
    address: Address,
    bits: u8,
}

impl Model for Prefix {
    ghost use Rattle.domain_map.specs.address_text.Prefix.{AddressBlock, IsBlock};

    ghost Value = { AddressBlock };

    ghost view = { λ p. record { address = p.address; bits = p.bits } };

    ghost invariant = { λ p. IsBlock (record { address = p.address; bits = p.bits }) };

    ghost inverse = { λ n. record { address = n.address; bits = n.bits } };
}

impl Prefix {
    /// The prefix of the address by its first `bits` bits.
    pub fn of(address: Address, bits: u8) -> Prefix
        requires { bits ≤ width_of address }
        ensures { result ≡ block_of address bits }
    {
        let address = masked(address, bits);
        prove!(bits <= address.width());
        Prefix { address, bits }
    }

    /// The address; its bits past the mask are zero.
    pub fn address(&self) -> &Address
        ensures address { result.now ≡ self.now.address }
        ensures block { IsBlock self.now }
    {
        &self.address
    }

    /// How many bits of the address count.
    pub fn bits(&self) -> u8
        ensures bits { result ≡ self.now.bits }
        ensures block { IsBlock self.now }
    {
        self.bits
    }

    /// Whether this is the same prefix.
    pub fn same(&self, other: &Prefix) -> bool
        ensures { result ≡ same_block self.now other.now }
    {
        self.address.same(&other.address) && self.bits == other.bits
    }

    /// Whether the address is of the prefix's family and begins with its bits.
    pub fn holds(&self, address: &Address) -> bool
        ensures { result ≡ holds self.now address.now }
    {
        match (&self.address, address) {
            (Address::V4(wanted), Address::V4(octets)) => begin_with(octets, self.bits, wanted),
            (Address::V6(wanted), Address::V6(octets)) => begin_with(octets, self.bits, wanted),
            _ => false,
        }
    }
}

/// The address with its bits past the first `bits` cleared.
fn masked(address: Address, bits: u8) -> Address
    ensures { result ≡ masked bits address }
{
    match address {
        Address::V4(mut octets) => {
            clear_behind(&mut octets, bits);
            Address::V4(octets)
        }
        Address::V6(mut octets) => {
            clear_behind(&mut octets, bits);
            Address::V6(octets)
        }
    }
}

/// Reads a whole text as a prefix: an address, and mostly a slash and a number of bits, which is all of them where it is left
/// out. Bits of the address past that number are cleared.
pub fn read_prefix(text: &[u8]) -> Option<Prefix>
    ensures { result ≡ block_of_text text.now }
{
    let Some((address, bits)) = split_once(text, b'/') else {
        let address = read_address(text)?;
        return Some(Prefix::of(address, address.width()));
    };
    let address = read_address(address)?;
    let bits = read_number(bits, address.width())?;
    Some(Prefix::of(address, bits))
}
