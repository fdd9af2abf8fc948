//! What a call of the program leaves beside the report.

ghost use Rattle.std.specs.Prelude.{◌≡◌, []};
ghost use Rattle.call_report.specs.Status.{status_number};

use call_report::{Seen, Status};
use std::alloc::Global;

/// How a call ended.
#[derive(Debug, Drop)]
pub struct Outcome {
    /// The status that the program ends with.
    pub status: u8,
    /// The versions of the tables under which packets were judged, as printed. Only `run` has flows.
    pub seen: Seen,
}

impl Outcome {
    /// How a call has ended that has no flows.
    pub(crate) fn without_flows(alloc: Global, status: Status) -> Outcome
        ensures status { result.status ≡ status_number status }
        ensures seen { result.seen ≡ [] }
    {
        Outcome {
            status: status.number(),
            seen: Seen::none(alloc),
        }
    }
}
