//! Octets of a file, from a window and behind it.
ghost use Rattle.std.specs.Prelude.{◌≡◌, ◌+◌, ◌-◌, ◌<◌, ◌≤◌, ◌^◌, IsTrue, [], length, drop, take, min, ◌++◌, vec_len, vec_capacity, OnOk, IfOk};
ghost use Rattle.net_io.specs.Depot.{octets_of, OnlyReads};
ghost use Rattle.net_io.specs.file_window.Window.{IsFrom};

use crate::file_window::Window;
use crate::{Depot, IoFault, read_full};

/// Reads octets of the file from `from` on straight behind those of `into`, up to `whole` of them in all, and answers how many.
fn read_behind<D: Depot>(
    depot: &mut D,
    name: &str,
    from: u64,
    whole: usize,
    into: &mut Vec<u8>,
) -> Result<usize, IoFault>
    requires { vec_len into.old ≤ whole }
    ensures len { OnOk result (vec_len into.new ≡ whole) }
    ensures count { IfOk result (λ n. n ≤ whole - vec_len into.old) }
    ensures end { IfOk result (λ n. IsTrue (D.state depot.old).tells
        → n ≡ min (whole - vec_len into.old)
        (length (octets_of ((D.state depot.old).held name.now)) - from)) }
    ensures octets { IfOk result (λ n. IsTrue (D.state depot.old).tells
        → take (vec_len into.old + n) into.new.items ≡ into.old.items
        ++ take n (drop from (octets_of ((D.state depot.old).held name.now)))) }
    ensures memory { vec_capacity into.old ≤ vec_capacity into.new }
    ensures place { IfOk result (λ n. from + n < 2 ^ 64) }
    ensures frame { OnlyReads IoFault.Failed result name.now
        (D.state depot.old)
        (D.state depot.new) }
{
    let have = into.len();
    into.resize(whole, 0)?;
    let n = read_full(depot, name, from, &mut into[have..])?;
    Ok(n)
}

/// Takes `count` octets of the file behind the first `front` of the window, which stands at `place`: those of the window, and
/// what it lacks by one read of its own. Answers how many there are; `into` has `count` octets, of which these come first.
pub fn take_behind<D: Depot>(
    depot: &mut D,
    name: &str,
    place: u64,
    window: &Window,
    front: usize,
    count: usize,
    into: &mut Vec<u8>,
) -> Result<usize, IoFault>
    requires front { front ≤ length window.now }
    requires empty { into.old.items ≡ [] }
    requires ahead { IsTrue (D.state depot.old).tells
        → IsFrom (octets_of ((D.state depot.old).held name.now)) place window.now }
    requires place { place + length window.now < 2 ^ 64 }
    ensures len { OnOk result (vec_len into.new ≡ count) }
    ensures count { IfOk result (λ n. n ≤ count) }
    ensures end { IfOk result (λ n. IsTrue (D.state depot.old).tells
        → n ≡ min count
        (length (drop place (octets_of ((D.state depot.old).held name.now))) - front)) }
    ensures octets { IfOk result (λ n. IsTrue (D.state depot.old).tells
        → take n into.new.items
        ≡ take n (drop front (drop place (octets_of ((D.state depot.old).held name.now))))) }
    ensures memory { vec_capacity into.old ≤ vec_capacity into.new }
    ensures place { IfOk result (λ n. place + (front + n) < 2 ^ 64) }
    ensures frame { OnlyReads IoFault.Failed result name.now
        (D.state depot.old)
        (D.state depot.new) }
{
    let ahead = &window.ahead()[front..];
    if count <= ahead.len() {
        into.extend_from_slice(&ahead[..count])?;
        return Ok(count);
    }
    let have = ahead.len();
    into.extend_from_slice(ahead)?;
    let from = place + (front + have) as u64;
    let n = read_behind(depot, name, from, count, into)?;
    Ok(have + n)
}
