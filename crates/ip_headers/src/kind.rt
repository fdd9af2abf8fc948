// How the two versions tell options apart: RFC 791, section 3.1, and RFC 8200, section 4.2.

ghost use Rattle.std.specs.Prelude.{◌≡◌};
ghost use Rattle.ip_headers.specs.Options.{is_single, is_end, uncounted, is_label_type, is_jumbo_type, is_other_type};

use crate::version::Version;

/// The type of a CIPSO option in IPv4 (FIPS 188).
const CIPSO: u8 = 134;

/// The type of a CALIPSO option in IPv6 (RFC 5570).
const CALIPSO: u8 = 7;

/// The type of a Jumbo Payload option in IPv6 (RFC 2675).
const JUMBO: u8 = 194;

/// Whether an option of this type is one octet long.
pub fn is_single(version: Version, kind: u8) -> bool
    ensures { result ≡ is_single version kind }
{
    match version {
        Version::V4 => kind == 1,
        Version::V6 => kind == 0,
    }
}

/// Whether this type ends the list.
pub fn is_end(version: Version, kind: u8) -> bool
    ensures { result ≡ is_end version kind }
{
    match version {
        Version::V4 => kind == 0,
        Version::V6 => false,
    }
}

/// How many octets of an option its length octet leaves out.
pub fn uncounted(version: Version) -> usize
    ensures { result ≡ uncounted version }
{
    match version {
        Version::V4 => 0,
        Version::V6 => 2,
    }
}

/// Whether an option of this type is a label option.
pub fn is_label(version: Version, kind: u8) -> bool
    ensures { result ≡ is_label_type version kind }
{
    match version {
        Version::V4 => kind == CIPSO,
        Version::V6 => kind == CALIPSO,
    }
}

/// Whether an option of this type is a Jumbo Payload option.
pub fn is_jumbo(version: Version, kind: u8) -> bool
    ensures { result ≡ is_jumbo_type version kind }
{
    match version {
        Version::V4 => false,
        Version::V6 => kind == JUMBO,
    }
}

/// Whether an option of this type is kept as it is: neither padding nor a label.
pub fn is_other(version: Version, kind: u8) -> bool
    ensures { result ≡ is_other_type version kind }
{
    !(kind == 0 || kind == 1 || is_label(version, kind))
}
