//! Whether a text stands in a file.
ghost use Rattle.std.specs.Prelude.{◌≡◌, ◌≢◌, ◌+◌, ◌<◌, ◌≤◌, ◌^◌, IsTrue, length, take, drop, slice_get, IfOk};
ghost use Rattle.net_io.specs.Depot.{octets_of, OnlyReads};
ghost use Rattle.net_io.specs.file_window.Window.{IsFrom};
ghost use Rattle.call_report.specs.report_file.Meeting.{lines_in, IsMet};

use crate::report_file::window::move_to;
use net_io::{Depot, IoFault, WINDOW, Window};

/// How a text compares with what a file has.
#[derive(Clone, Copy, Debug, PartialEq, Eq)]
pub enum Met {
    /// The text stands there.
    Stands,
    /// It differs at an octet behind so many ends of lines, or the file ends there.
    Differs { lines: u64 },
}

/// Compares a text with what the file has from the octet `at` on. The window stands at `place`, wherever that is.
pub(crate) fn meet<D: Depot>(
    depot: &mut D,
    name: &str,
    at: u64,
    place: &mut u64,
    window: &mut Window,
    text: &[u8],
) -> Result<Met, IoFault>
    requires ahead { IsTrue (D.state depot.old).tells
        → IsFrom (octets_of ((D.state depot.old).held name.now)) place.old window.old }
    requires place { place.old + length window.old < 2 ^ 64 }
    ensures met { IfOk result (λ met. IsTrue (D.state depot.old).tells
        → IsMet met (drop at (octets_of ((D.state depot.old).held name.now))) text.now) }
    ensures ahead { IsTrue (D.state depot.old).tells
        → IsFrom (octets_of ((D.state depot.old).held name.now)) place.new window.new }
    ensures place { place.new + length window.new < 2 ^ 64 }
    ensures frame { OnlyReads IoFault.Failed result name.now (D.state depot.old)
        (D.state depot.new) }
{
    let mut next = at;
    let mut rest = text;
    while !rest.is_empty() {
        let count = same_at(depot, name, next, place, window, rest)?;
        if count == 0 {
            let met = &text[..text.len() - rest.len()];
            return Ok(Met::Differs {
                lines: ends_of_lines(met),
            });
        }
        next += count as u64;
        rest = &rest[count..];
    }
    Ok(Met::Stands)
}

/// How many octets of a text the file has from the octet `at` on, as far as one window reaches: none only where it has another octet there,
/// or ends.
fn same_at<D: Depot>(
    depot: &mut D,
    name: &str,
    at: u64,
    place: &mut u64,
    window: &mut Window,
    text: &[u8],
) -> Result<usize, IoFault>
    requires some { 0 < length text.now }
    requires ahead { IsTrue (D.state depot.old).tells
        → IsFrom (octets_of ((D.state depot.old).held name.now)) place.old window.old }
    requires place { place.old + length window.old < 2 ^ 64 }
    ensures within { IfOk result (λ count. count ≤ length text.now) }
    ensures same { IfOk result (λ count. IsTrue (D.state depot.old).tells
        → take count (drop at (octets_of ((D.state depot.old).held name.now)))
        ≡ take count text.now) }
    ensures other { IfOk result (λ count. IsTrue (D.state depot.old).tells → count ≡ 0
        → slice_get (drop at (octets_of ((D.state depot.old).held name.now))) 0
        ≢ slice_get text.now 0) }
    ensures ahead { IsTrue (D.state depot.old).tells
        → IsFrom (octets_of ((D.state depot.old).held name.now)) place.new window.new }
    ensures place { place.new + length window.new < 2 ^ 64 }
    ensures behind { IfOk result (λ count. at + count < 2 ^ 64) }
    ensures frame { OnlyReads IoFault.Failed result name.now (D.state depot.old)
        (D.state depot.new) }
{
    move_to(at, place, window);
    window.reach(depot, name, at, text.len().min(WINDOW))?;
    Ok(same_front(window.ahead(), text))
}

/// How many octets two lists begin with alike.
fn same_front(one: &[u8], other: &[u8]) -> usize
    ensures within { result ≤ length one.now }
    ensures within_other { result ≤ length other.now }
    ensures same { take result one.now ≡ take result other.now }
    ensures ends { result < length one.now → result < length other.now
        → slice_get one.now result ≢ slice_get other.now result }
{
    let count = one.len().min(other.len());
    if one[..count] == other[..count] {
        return count;
    }
    let mut same = 0;
    while same < count && one[same] == other[same] {
        same += 1;
    }
    same
}

/// How many lines end in octets.
pub fn ends_of_lines(octets: &[u8]) -> u64
    ensures { result ≡ lines_in octets.now }
{
    octets.iter().filter(|octet| **octet == b'\n').count() as u64
}
