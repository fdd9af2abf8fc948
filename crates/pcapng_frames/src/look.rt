//! Octets of a file that a reader needs: through its window, or by a read of their own.
ghost use Rattle.std.specs.Prelude.{◌≡◌, ◌+◌, ◌<◌, ◌≤◌, ◌^◌, IsTrue, length, drop, nat_lt, OnOk, IfOk};
ghost use Rattle.net_io.specs.Depot.{octets_of, OnlyReads};
ghost use Rattle.net_io.specs.file_window.Window.{IsFrom};
ghost use Rattle.pcapng_frames.specs.Reader.{IsNgAnswer};
ghost use Rattle.pcapng_frames.specs.inside.Parts.{rest_at, IsAhead, enough_at};

use crate::{NgFault, NgKind, NgStop};
use net_io::{Depot, IoFault, Window, read_full};

/// The file is no pcapng capture, at this octet.
pub fn stop_at(octet: u64, kind: NgKind) -> NgStop
    ensures { result ≡ NgStop.Capture (record { octet = octet; kind = kind }) }
{
    NgStop::Capture(NgFault { octet, kind })
}

/// Has `need` octets in the window, or tells where the file ends.
pub fn have<D: Depot>(
    depot: &mut D,
    name: &str,
    place: u64,
    window: &mut Window,
    need: usize,
) -> Result<(), NgStop>
    requires need { need ≤ 65536 }
    requires ahead { IsAhead (D.state depot.old) name.now place window.old }
    requires place { place + length window.old < 2 ^ 64 }
    ensures answer { IsTrue (D.state depot.old).tells
        → IsNgAnswer (λ had. had) result
        (enough_at need place (rest_at (D.state depot.old) name.now place)) }
    ensures enough { OnOk result (need ≤ length window.new) }
    ensures ahead { IsAhead (D.state depot.old) name.now place window.new }
    ensures place { place + length window.new < 2 ^ 64 }
    ensures frame { OnlyReads NgStop.ReadFault result name.now (D.state depot.old)
        (D.state depot.new) }
{
    window.reach(depot, name, place, need)?;
    let count = window.ahead().len();
    if count < need {
        return Err(stop_at(place + count as u64, NgKind::Short));
    }
    Ok(())
}

/// Whether the file has the octet `at`.
fn has_octet<D: Depot>(depot: &mut D, name: &str, at: u64) -> Result<bool, IoFault>
    ensures has { IfOk result
        (λ has. IsTrue (D.state depot.old).tells
        → has ≡ nat_lt at (length (octets_of ((D.state depot.old).held name.now)))) }
    ensures frame { OnlyReads IoFault.Failed result name.now (D.state depot.old)
        (D.state depot.new) }
{
    let mut octet = [0u8; 1];
    let n = read_full(depot, name, at, &mut octet)?;
    Ok(n > 0)
}

/// The file's length, which is known to lie from `least` to `most`: by halving.
pub fn find_end<D: Depot>(depot: &mut D, name: &str, least: u64, most: u64) -> Result<u64, IoFault>
    requires order { least ≤ most }
    requires least { IsTrue (D.state depot.old).tells
        → least ≤ length (octets_of ((D.state depot.old).held name.now)) }
    requires most { IsTrue (D.state depot.old).tells
        → length (octets_of ((D.state depot.old).held name.now)) ≤ most }
    ensures end { IfOk result
        (λ end. IsTrue (D.state depot.old).tells
        → end ≡ length (octets_of ((D.state depot.old).held name.now))) }
    ensures most { IfOk result (λ end. end ≤ most) }
    ensures frame { OnlyReads IoFault.Failed result name.now (D.state depot.old)
        (D.state depot.new) }
{
    let mut low = least;
    let mut high = most;
    while low < high {
        let middle = low + (high - low) / 2;
        if has_octet(depot, name, middle)? {
            low = middle + 1;
        } else {
            high = middle;
        }
    }
    Ok(low)
}
