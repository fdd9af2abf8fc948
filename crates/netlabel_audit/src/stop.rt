//! Why a report isn't judged.

ghost use Rattle.std.specs.Prelude.{◌≡◌};
ghost use Rattle.netlabel_audit.specs.inside.Finding.{stop_of_read, stop_of_fault};
ghost use Rattle.netlabel_audit.specs.declared.stop.AuditStop.TheVariants as why;

use captures::{FileFault, ReadStop};
use net_io::{IoFault, OutOfMemory};

/// The first thing that is wrong with a report's files, or what was refused.
#[derive(Clone, Copy, Debug, PartialEq, Eq)]
pub(crate) enum AuditStop {
    /// The report has more octets than an audit reads.
    LongReport,
    /// The capture of the flow of this number isn't in its grammar.
    Broken { flow: u64, fault: FileFault },
    /// The captures have more packets than a run reads.
    TooMany,
    /// A read of the report or of a capture has failed, and was counted.
    Unread,
    OutOfMemory,
}

impl AuditStop {
    /// Why the capture of the flow of this number wasn't read on.
    pub(crate) fn at(flow: u64, stop: ReadStop) -> AuditStop
        ensures { result ≡ stop_of_read flow stop }
    {
        match stop {
            ReadStop::Capture(fault) => AuditStop::Broken {
                flow,
                fault: FileFault::Pcap(fault),
            },
            ReadStop::Ng(fault) => AuditStop::Broken {
                flow,
                fault: FileFault::Pcapng(fault),
            },
            ReadStop::ReadFault => AuditStop::Unread,
            ReadStop::OutOfMemory => AuditStop::OutOfMemory,
        }
    }
}

impl From<IoFault> for AuditStop {
    ghost from_gives = { λ fault stop. stop ≡ stop_of_fault fault };

    fn from(fault: IoFault) -> Self {
        match fault {
            IoFault::Failed => AuditStop::Unread,
            IoFault::OutOfMemory => AuditStop::OutOfMemory,
        }
    }
}

impl From<OutOfMemory> for AuditStop {
    ghost from_gives = { λ none stop. stop ≡ why.OutOfMemory };

    fn from(_none: OutOfMemory) -> Self {
        AuditStop::OutOfMemory
    }
}
