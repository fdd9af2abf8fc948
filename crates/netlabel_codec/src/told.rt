//! What C is told.

ghost use Rattle.std.specs.Prelude.{◌≡◌, ◌≤◌};
ghost use Rattle.packet_label.specs.Wire.{marked_wire};
ghost use Rattle.netlabel_codec.specs.Told.{nothing_at, option_told, TellsWire};

use crate::Status;
use crate::put::put_runs;
use cipso_tags::type_octet;
use mls_label::{Label, MOST_RUNS};
use packet_label::Mark;

/// All categories from `first` to `last`, both included: `struct netlabel_run`.
#[repr(C)]
#[derive(Clone, Copy, Debug, PartialEq, Eq)]
pub struct NetlabelRun {
    pub first: u16,
    pub last: u16,
}

/// No label option was read.
pub const NONE: u8 = 0;

/// A CIPSO option of IPv4 (FIPS 188; CIPSO draft 2.2).
pub const CIPSO: u8 = 1;

/// A CALIPSO option of IPv6 (RFC 5570).
pub const CALIPSO: u8 = 2;

/// What an option says but its categories, or where the first fault is: `struct netlabel_label`.
#[repr(C)]
#[derive(Clone, Copy, Debug, PartialEq, Eq)]
pub struct NetlabelLabel {
    /// The octet of the option's type, or the one at fault, counted from the first that was passed.
    pub octet: usize,
    /// The octets of an option that was read by itself; 0 of a packet.
    pub length: usize,
    /// How many maximal runs of categories the label has.
    pub runs: usize,
    /// The domain of interpretation.
    pub doi: u32,
    /// `NONE`, `CIPSO` or `CALIPSO`.
    pub kind: u8,
    /// The type of a CIPSO tag: 1, 2 or 5.
    pub tag: u8,
    /// The level, in the numbers of the domain of interpretation.
    pub level: u8,
}

impl NetlabelLabel {
    /// No option, and where it is looked for or at fault.
    pub(crate) fn nothing_at(octet: usize) -> NetlabelLabel
        ensures { result ≡ nothing_at octet }
    {
        NetlabelLabel {
            octet,
            length: 0,
            runs: 0,
            doi: 0,
            kind: NONE,
            tag: 0,
            level: 0,
        }
    }

    /// What an option of so many octets says but its categories.
    pub(crate) fn of_option(mark: Mark, length: usize, label: &Label) -> NetlabelLabel
        ensures says { result ≡ option_told length (marked_wire mark label.now) }
        ensures few { result.runs ≤ MOST_RUNS }
    {
        let runs = label.cats.runs();
        let level = label.level;
        match mark {
            Mark::Cipso { at, doi, tag } => NetlabelLabel {
                octet: at,
                length,
                runs,
                doi,
                kind: CIPSO,
                tag: type_octet(tag),
                level,
            },
            Mark::Calipso { at, doi } => NetlabelLabel {
                octet: at,
                length,
                runs,
                doi,
                kind: CALIPSO,
                tag: 0,
                level,
            },
        }
    }
}

/// Tells what an option of so many octets says.
pub(crate) fn tell_option(
    mark: Mark,
    length: usize,
    label: &Label,
    runs: &mut [NetlabelRun],
    said: &mut NetlabelLabel,
) -> Status
    ensures tells { TellsWire length (Some (marked_wire mark label.now)) runs.old runs.new said.new
        result }
    ensures few { said.new.runs ≤ MOST_RUNS }
{
    *said = NetlabelLabel::of_option(mark, length, label);
    put_runs(&label.cats, runs)
}
