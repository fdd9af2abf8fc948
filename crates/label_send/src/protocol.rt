//! What a protocol of a map means for a packet.

ghost use Rattle.std.specs.Prelude.{◌≡◌};
ghost use Rattle.label_send.specs.Outgoing.{carrier_of, suits};

use domain_map::Protocol;
use ip_headers::Version;
use packet_label::Carrier;

/// Whether packets of this version can be labelled under the protocol: CIPSO is an option of IPv4 (FIPS 188), CALIPSO one of IPv6
/// (RFC 5570).
pub fn suits(version: Version, protocol: Protocol) -> bool
    ensures { result ≡ suits version protocol }
{
    match (version, protocol) {
        (_, Protocol::Unlbl) => true,
        (Version::V4, Protocol::Cipso { .. }) => true,
        (Version::V6, Protocol::Calipso { .. }) => true,
        _ => false,
    }
}

/// What carries a label under the protocol.
pub fn carrier_of(protocol: Protocol) -> Carrier
    ensures { result ≡ carrier_of protocol }
{
    match protocol {
        Protocol::Unlbl => Carrier::Unlabelled,
        Protocol::Cipso { doi } => Carrier::Cipso { doi },
        Protocol::Calipso { doi } => Carrier::Calipso { doi },
    }
}
