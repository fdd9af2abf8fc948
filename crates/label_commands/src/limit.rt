//! The numbers of a script that have a limit.

ghost use Rattle.std.specs.Prelude.{◌≡◌};
ghost use Rattle.label_commands.specs.Line.{limit_of};

use script_lines::LimitName;

/// The most octets of a script.
pub const SCRIPT_LIMIT: usize = 1_048_576;

/// The most lines of a script.
pub(crate) const MOST_LINES: u32 = 16_384;

/// The most nodes that a script names.
pub(crate) const MOST_NODES: usize = 32;

/// The most flows of a script.
pub(crate) const MOST_FLOWS: usize = 256;

/// The most hops of a flow.
const MOST_HOPS: u32 = 16;

/// A limit's number.
pub(crate) fn number_of(what: LimitName) -> u32
    ensures { result ≡ limit_of what }
{
    match what {
        LimitName::Octets => SCRIPT_LIMIT as u32,
        LimitName::Lines => MOST_LINES,
        LimitName::Nodes => MOST_NODES as u32,
        LimitName::Flows => MOST_FLOWS as u32,
        LimitName::Hops => MOST_HOPS,
    }
}
