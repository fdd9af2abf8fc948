//! Hops.

use domain_map::Name;
use mls_label::KeptLabel;

/// What one node on the way of a packet does with it. Nodes go by their number, in the order in which a script names them.
#[derive(Debug, Drop)]
pub enum Hop {
    /// Labels a packet of a domain and sends it out over an interface.
    Send {
        node: usize,
        domain: Name,
        interface: Name,
        label: KeptLabel,
    },
    /// Takes it in over one interface and passes it on over another one.
    Forward {
        node: usize,
        from: Name,
        to: Name,
        domain: Name,
    },
    /// Takes it in over an interface.
    Receive {
        node: usize,
        interface: Name,
    },
}
