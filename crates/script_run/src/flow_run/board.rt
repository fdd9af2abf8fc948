//! The board of a flow: the tables in front of it, and the steps that are made beside it.

ghost use Rattle.std.specs.Prelude.{◌≡◌, IfOk};
ghost use Rattle.script_run.specs.flow_run.Place.{StandsAt, tables_at};
ghost use Rattle.script_run.specs.flow_run.inside.Board.{IsOpenFor};

use crate::flow_run::end::FlowPlace;
use crate::flow_run::runner::Runner;
use mls_label::OutOfMemory;
use node_tables::Network;
use shared_tables::{Board, Plan, Publisher, Viewer};
use std::sync::Wait;

/// Opens a board at the version in front of a flow, with the steps up to the next one, and a viewer for each worker.
pub(crate) fn open_board<R: Wait, G>(
    runner: &Runner<'_, '_, R, G>,
    place: &FlowPlace<'_>,
    network: &Network,
) -> Result<(Publisher, Vec<Viewer>), OutOfMemory>
    requires stands { StandsAt place.now }
    requires network { network.now ≡ tables_at place.now }
    ensures { IfOk result (λ begun. IsOpenFor place.now begun.0 begun.1.items) }
{
    let alloc = runner.alloc;
    let plan = Plan::of_first(alloc, place.steps, place.upto, place.names.len())?;
    let before = place.flow.before;
    Board::begin(runner.rt, alloc, network, plan, before, place.workers)
}
