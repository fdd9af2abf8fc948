//! The hops of a flow, in order.

ghost use Rattle.std.specs.Prelude.{◌≡◌};
ghost use Rattle.label_commands.specs.flow_lines.Hop.{IsRoute};

use crate::flow_lines::hop::Hop;
use std::marker::Model;

/// The hops of a flow: 1 to 16, of which only the first may send and only the last receive. Contracts see them as a list.
#[derive(Debug, Drop)]
pub struct Route {
    hops: Vec<Hop>,
}

impl Model for Route {
    ghost use Rattle.std.specs.Prelude.{List};
    ghost use Rattle.label_commands.specs.declared.flow_lines.hop.Hop.{Hop};

    ghost Value = { List Hop };

    ghost use Rattle.label_commands.specs.flow_lines.Hop.{IsRoute};

    ghost view = { λ r. r.hops.items };

    ghost invariant = { λ r. IsRoute r.hops.items };
}

impl Route {
    /// The route of these hops.
    pub fn of(hops: Vec<Hop>) -> Route
        requires { IsRoute hops.items }
        ensures { result ≡ hops.items }
    {
        Route { hops }
    }

    /// The hops, from the first to the last.
    pub fn hops(&self) -> &[Hop]
        ensures hops { result.now ≡ self.now }
        ensures route { IsRoute self.now }
    {
        &self.hops
    }
}
