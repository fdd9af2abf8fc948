//! Why a text is no script.

ghost use Rattle.std.specs.Prelude.{◌≡◌};
ghost use Rattle.label_commands.specs.Script.{passed, stop_at};

use crate::limit::number_of;
use mls_label::OutOfMemory;
use script_lines::{LimitName, LineStop, ScriptKind};

/// The first fault of a text.
#[derive(Clone, Copy, Debug, PartialEq, Eq)]
pub struct ScriptFault {
    /// The line, counted from 1.
    pub line: u32,
    /// The place in the line, counted in octets from 0.
    pub octet: usize,
    pub kind: ScriptKind,
}

/// Why a text isn't read as a script.
#[derive(Clone, Copy, Debug, PartialEq, Eq)]
pub enum ScriptStop {
    /// The text isn't in the grammar.
    Fault(ScriptFault),
    /// The text passes a limit, which is this number.
    Limit { what: LimitName, number: u32 },
    /// Memory ran out. Faults and limits that come later in the text may hold as well.
    OutOfMemory,
}

/// A passed limit.
pub(crate) fn passed(what: LimitName) -> ScriptStop
    ensures { result ≡ passed what }
{
    ScriptStop::Limit {
        what,
        number: number_of(what),
    }
}

/// Why a line stops the script; lines are counted from 1.
pub(crate) fn stop_at(line: u32, stop: LineStop) -> ScriptStop
    ensures { result ≡ stop_at line stop }
{
    match stop {
        LineStop::Fault(found) => ScriptStop::Fault(ScriptFault {
            line,
            octet: found.octet,
            kind: found.kind,
        }),
        LineStop::Limit(what) => passed(what),
        LineStop::OutOfMemory => ScriptStop::OutOfMemory,
    }
}

impl From<OutOfMemory> for ScriptStop {
    ghost use Rattle.std.specs.Prelude.{◌≡◌};
    ghost use Rattle.label_commands.specs.declared.stop.ScriptStop.TheVariants as Stop;

    ghost from_gives = { λ _ stop. stop ≡ Stop.OutOfMemory };

    fn from(_failed: OutOfMemory) -> ScriptStop {
        ScriptStop::OutOfMemory
    }
}
