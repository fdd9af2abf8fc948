//! Addresses of one family.

ghost use Rattle.std.specs.Prelude.{◌≡◌};
ghost use Rattle.script_lines.specs.command_values.Addresses.{four_of_text, sixteen_of_text};

use domain_map::{Address, read_address};

/// Reads a whole text as the octets of an IPv4 address.
pub fn read_four(text: &[u8]) -> Option<[u8; 4]>
    ensures { result ≡ four_of_text text.now }
{
    match read_address(text)? {
        Address::V4(octets) => Some(octets),
        Address::V6(_) => None,
    }
}

/// Reads a whole text as the octets of an IPv6 address.
pub fn read_six(text: &[u8]) -> Option<[u8; 16]>
    ensures { result ≡ sixteen_of_text text.now }
{
    match read_address(text)? {
        Address::V4(_) => None,
        Address::V6(octets) => Some(octets),
    }
}
