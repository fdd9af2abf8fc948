//! Why a line is refused.

ghost use Rattle.std.specs.Prelude.{◌≡◌};
ghost use Rattle.script_lines.specs.Stop.{fault};

use mls_label::OutOfMemory;
use thiserror::Error;

/// What is wrong at a place of a line.
#[derive(Clone, Copy, Debug, PartialEq, Eq)]
pub enum ScriptKind {
    /// The octet is neither printable ASCII nor a tab.
    Octet,
    /// There is no such word here, or the parameter came already.
    Word,
    /// A command or a reading stands before any node.
    NoNode,
    /// The value isn't in its form.
    Value,
    /// No line above names the hop's node.
    UnknownNode,
    /// A `send` that isn't the first hop, or a `receive` with a word behind it.
    HopOrder,
    /// An input that is an output of a flow above, or an output that is a name of a flow already, or the script's own.
    NameTwice,
    /// A word behind a whole line without parameters.
    Extra,
    /// At the line's length: a word that must be there isn't.
    Missing,
    /// The node has a reading line already.
    ReadingTwice,
    /// The level numbers don't increase.
    NotIncreasing,
    /// Two category numbers are equal, or a local number is named twice.
    NotDistinct,
}

/// A number of a script that has a limit.
#[derive(Clone, Copy, Debug, PartialEq, Eq)]
pub enum LimitName {
    /// The script's octets.
    Octets,
    /// The script's lines.
    Lines,
    /// The nodes that the script names.
    Nodes,
    /// The script's flows.
    Flows,
    /// The hops of a flow.
    Hops,
}

/// The first fault of a line.
#[derive(Clone, Copy, Debug, PartialEq, Eq)]
pub struct LineFault {
    /// The place, counted in octets from 0.
    pub octet: usize,
    pub kind: ScriptKind,
}

/// Why a line is refused.
#[derive(Clone, Copy, Debug, Drop, Error, PartialEq, Eq)]
pub enum LineStop {
    #[error("a fault of the line")]
    Fault(LineFault),
    /// The script passes this limit here.
    #[error("a limit is passed")]
    Limit(LimitName),
    #[error("out of memory")]
    OutOfMemory,
}

impl LineStop {
    /// A fault of this kind at a place of the line.
    pub fn at(octet: usize, kind: ScriptKind) -> LineStop
        ensures { result ≡ fault octet kind }
    {
        LineStop::Fault(LineFault { octet, kind })
    }
}

impl From<OutOfMemory> for LineStop {
    ghost use Rattle.script_lines.specs.declared.stop.LineStop.TheVariants as Stop;

    ghost from_gives = { λ e stop. stop ≡ Stop.OutOfMemory };

    fn from(_failed: OutOfMemory) -> LineStop {
        LineStop::OutOfMemory
    }
}
