//! Where the reading of a report stands.

ghost use Rattle.std.specs.Prelude.{◌≡◌, ◌+◌, ◌<◌, ◌^◌, ℕ, List, IsTrue, IfOk, length};
ghost use Rattle.net_io.specs.Depot.{octets_of};
ghost use Rattle.call_report.specs.report_file.File.{KeepsPart};
ghost use Rattle.call_report.specs.report_file.Meeting.{lines_in};
ghost use Rattle.label_audit.specs.inside.Reading.{HasRead, StandsIn, IsExpected, file_of, front_place};

use call_report::{Met, ReportFile, ends_of_lines};
use net_io::{Depot, IoFault};

/// A place in a report: an octet, counted from 0, and how many lines end in front of it. Where the report isn't what it should be, the
/// number of the line that isn't.
#[derive(Clone, Copy, Debug, PartialEq, Eq)]
pub struct Place {
    pub at: u64,
    pub lines: u64,
}

impl Place {
    /// In front of a report's first octet.
    pub(crate) fn front() -> Place
        ensures { result ≡ front_place }
    {
        Place { at: 0, lines: 0 }
    }
}

/// The place behind a text.
pub(crate) fn behind(place: Place, text: &[u8]) -> Place
    ensures at { place.at + length text.now < 2 ^ 64 → result.at ≡ place.at + length text.now }
    ensures lines { place.lines + lines_in text.now < 2 ^ 64
        → result.lines ≡ place.lines + lines_in text.now }
{
    Place {
        at: place.at.saturating_add(text.len() as u64),
        lines: place.lines.saturating_add(ends_of_lines(text)),
    }
}

/// The line behind so many of those in front of a place is the one that differs.
pub(crate) fn differ(place: &mut Place, lines: u64)
    ensures { place.old.lines + lines + 1 < 2 ^ 64
        → place.new.lines ≡ place.old.lines + lines + 1 }
{
    place.lines = place.lines.saturating_add(lines).saturating_add(1);
}

/// Whether a text stands at the place, which goes behind it then.
pub(crate) fn expect<D: Depot>(
    depot: &mut D,
    report: &mut ReportFile,
    place: &mut Place,
    text: &[u8],
) -> Result<bool, IoFault>
    requires keeps { KeepsPart (D.state depot.old) report.old }
    requires stands { IsTrue (D.state depot.old).tells
        → StandsIn (file_of (D.state depot.old) report.old) place.old }
    ensures read { (names : List (List ℕ)) → HasRead names result report.old report.new
        (D.state depot.old) (D.state depot.new) }
    ensures expected { IfOk result (λ met. IsTrue (D.state depot.old).tells
        → IsExpected (file_of (D.state depot.old) report.old) text.now place.old place.new met) }
{
    match report.meets(depot, place.at, text)? {
        Met::Stands => {
            *place = behind(*place, text);
            Ok(true)
        }
        Met::Differs { lines } => {
            differ(place, lines);
            Ok(false)
        }
    }
}
