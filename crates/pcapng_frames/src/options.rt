//! One option of an interface description block.
ghost use Rattle.std.specs.Prelude.{◌≡◌, ◌+◌, ◌<◌, ◌≤◌, ◌^◌, length, IfOk, IfSome};
ghost use Rattle.pcapng_frames.specs.Numbers.{padded};
ghost use Rattle.pcapng_frames.specs.Options.{option_at};

use crate::{NgFault, NgKind};
use net_io::OctetOrder;

/// The code that ends a list of options.
const END_OF_OPTIONS: u16 = 0;

/// The code of the resolution of an interface's times.
const RESOLUTION: u16 = 9;

/// What one option says: how many octets it has, padding included, and the resolution where it is that.
#[derive(Clone, Copy, Debug, PartialEq, Eq)]
pub struct BlockOption {
    pub size: u32,
    pub resolution: Option<u8>,
}

/// The least multiple of 4 that isn't below `n`.
pub fn padded_length(n: u32) -> u32
    requires { n ≤ 262144 }
    ensures { result ≡ padded n }
{
    (n + 3) / 4 * 4
}

/// Reads the option at the octet `at`, in front of which `left` octets stand up to the trailer; None at the list's end.
#[tactic(auto, unfolding(crate::specs::Options::option_at))]
pub fn read_option(
    order: OctetOrder,
    at: u64,
    left: u32,
    octets: &[u8],
) -> Result<Option<BlockOption>, NgFault>
    requires { 5 ≤ length octets.now }
    ensures value { result ≡ option_at order at left octets.now }
    ensures size { IfOk result (λ read. IfSome read (λ option. 4 ≤ option.size)) }
    ensures fits { IfOk result (λ read. IfSome read (λ option. option.size ≤ left)) }
{
    let code = order.u16_at(octets, 0);
    if left < 4 || code == END_OF_OPTIONS {
        return Ok(None);
    }
    let length = order.u16_at(octets, 2);
    let size = 4 + padded_length(u32::from(length));
    if left < size || (code == RESOLUTION && length != 1) {
        return Err(NgFault {
            octet: at,
            kind: NgKind::Options,
        });
    }
    let resolution = if code == RESOLUTION {
        Some(octets[4])
    } else {
        None
    };
    Ok(Some(BlockOption { size, resolution }))
}
