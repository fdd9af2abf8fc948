//! The lines of a report, one after the other, through a window.

ghost use Rattle.std.specs.Prelude.{◌≡◌, ◌+◌, ◌++◌, ◌==◌, ◌<◌, ◌≤◌, ◌^◌, IsTrue, false, [], length, drop, IfOk, OnOk};
ghost use Rattle.std.specs.List.{All};
ghost use Rattle.net_io.specs.Depot.{octets_of, OnlyReads};
ghost use Rattle.net_io.specs.file_window.Window.{IsFrom};
ghost use Rattle.netlabel_report.specs.inside.Telling.{IsNextLine, IsReadOn, MovesOn, IsGathered, last_part, part_read};

use mls_label::OutOfMemory;
use net_io::{Depot, IoFault, Window};

/// The most octets of a line.
const MOST_LINE: usize = 1_048_576;

/// What stands in front of a place where lines begin: a line, the text's end, or what is no line from an octet on, counted from its first.
#[derive(Clone, Copy, Debug, PartialEq, Eq)]
pub(crate) enum NextLine {
    Line,
    End,
    Broken { octet: usize },
}

/// Reads the line that stands at `place`, without its end, and goes behind it. The window stands at `place`. It reads on from where the last
/// read has ended, so a pipe serves.
pub(crate) fn next_line<D: Depot>(
    depot: &mut D,
    name: &str,
    place: &mut u64,
    window: &mut Window,
    line: &mut Vec<u8>,
) -> Result<NextLine, IoFault>
    requires ahead { IsTrue (D.state depot.old).tells
        → IsFrom (octets_of ((D.state depot.old).held name.now)) place.old window.old }
    requires place { place.old + length window.old < 2 ^ 64 }
    ensures next { IfOk result (λ next. IsTrue (D.state depot.old).tells → IsNextLine next
        (drop place.old (octets_of ((D.state depot.old).held name.now))) line.new.items
        (drop place.new (octets_of ((D.state depot.old).held name.now)))) }
    ensures on { IfOk result (λ next. next ≡ NextLine.Line → place.old < place.new) }
    ensures ahead { OnOk result (IsTrue (D.state depot.old).tells
        → IsFrom (octets_of ((D.state depot.old).held name.now)) place.new window.new) }
    ensures place { OnOk result (place.new + length window.new < 2 ^ 64) }
    ensures frame { OnlyReads IoFault.Failed result name.now (D.state depot.old)
        (D.state depot.new) }
{
    line.clear();
    loop {
        if let Some(next) = read_on(depot, name, place, window, line)? {
            return Ok(next);
        }
    }
}

/// Reads on in a line that has begun, up to its end or the window's. Tells what stood there where that is known.
fn read_on<D: Depot>(
    depot: &mut D,
    name: &str,
    place: &mut u64,
    window: &mut Window,
    line: &mut Vec<u8>,
) -> Result<Option<NextLine>, IoFault>
    requires none { All (λ c. (c == 10) ≡ false) line.old.items }
    requires within { length line.old.items ≤ 1048576 }
    requires ahead { IsTrue (D.state depot.old).tells
        → IsFrom (octets_of ((D.state depot.old).held name.now)) place.old window.old }
    requires place { place.old + length window.old < 2 ^ 64 }
    ensures next { IfOk result (λ next. IsTrue (D.state depot.old).tells → IsReadOn next
        (line.old.items ++ drop place.old (octets_of ((D.state depot.old).held name.now)))
        line.new.items (drop place.new (octets_of ((D.state depot.old).held name.now)))) }
    ensures on { IfOk result (λ next. MovesOn next place.old place.new line.old.items
        line.new.items) }
    ensures ahead { OnOk result (IsTrue (D.state depot.old).tells
        → IsFrom (octets_of ((D.state depot.old).held name.now)) place.new window.new) }
    ensures place { OnOk result (place.new + length window.new < 2 ^ 64) }
    ensures frame { OnlyReads IoFault.Failed result name.now (D.state depot.old)
        (D.state depot.new) }
{
    if !has_more(depot, name, *place, window)? {
        return Ok(Some(last_part(line)));
    }
    let ended = gather(place, window, line)?;
    Ok(part_read(ended, line))
}

/// Reads a window where it is empty, and tells whether it has octets then.
fn has_more<D: Depot>(
    depot: &mut D,
    name: &str,
    place: u64,
    window: &mut Window,
) -> Result<bool, IoFault>
    requires ahead { IsTrue (D.state depot.old).tells
        → IsFrom (octets_of ((D.state depot.old).held name.now)) place window.old }
    requires place { place + length window.old < 2 ^ 64 }
    ensures some { IfOk result (λ more. IsTrue more → 0 < length window.new) }
    ensures none { IfOk result (λ more. more ≡ false → IsTrue (D.state depot.old).tells
        → drop place (octets_of ((D.state depot.old).held name.now)) ≡ []) }
    ensures ahead { OnOk result (IsTrue (D.state depot.old).tells
        → IsFrom (octets_of ((D.state depot.old).held name.now)) place window.new) }
    ensures place { OnOk result (place + length window.new < 2 ^ 64) }
    ensures frame { OnlyReads IoFault.Failed result name.now (D.state depot.old)
        (D.state depot.new) }
{
    if window.ahead().is_empty() {
        window.fill(depot, name, place)?;
    }
    Ok(!window.ahead().is_empty())
}

/// What stands in front of a place, by whether the line ended there, and by its octets so far; nothing where it goes on.
fn part_read(ended: bool, line: &[u8]) -> Option<NextLine>
    ensures { result ≡ part_read ended (length line.now) }
{
    if line.len() > MOST_LINE {
        return Some(NextLine::Broken { octet: MOST_LINE });
    }
    if ended { Some(NextLine::Line) } else { None }
}

/// What stands behind the last end of a line.
fn last_part(line: &[u8]) -> NextLine
    ensures { result ≡ last_part line.now }
{
    if line.is_empty() {
        NextLine::End
    } else {
        NextLine::Broken { octet: line.len() }
    }
}

/// Moves octets from the window to a line, up to the line's end, and goes behind it, or up to the window's end. Tells whether the line has ended.
fn gather(place: &mut u64, window: &mut Window, line: &mut Vec<u8>) -> Result<bool, OutOfMemory>
    requires place { place.old + length window.old < 2 ^ 64 }
    ensures { IfOk result (λ ended. IsGathered ended place.old place.new window.old window.new
        line.old.items line.new.items) }
{
    let ahead = window.ahead();
    match ahead.iter().position(|octet| *octet == b'\n') {
        Some(count) => {
            line.extend_from_slice(&ahead[..count])?;
            window.pass(count + 1);
            *place += count as u64 + 1;
            Ok(true)
        }
        None => {
            let count = ahead.len();
            line.extend_from_slice(ahead)?;
            window.pass(count);
            *place += count as u64;
            Ok(false)
        }
    }
}
