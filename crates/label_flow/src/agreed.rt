//! What all parts of a round agree on, and what its viewers have seen.

ghost use Rattle.std.specs.Prelude.{◌≡◌, ℕ, List, Option, [], None, max, true};
ghost use Rattle.shared_tables.specs.Plan.{PlanState};
ghost use Rattle.label_commands.specs.declared.flow_lines.hop.Hop.{Hop};
ghost use Rattle.captures.specs.declared.packet_in.PacketIn.{PacketIn};

use crate::trays::Trays;
use label_commands::FlowLine;
use shared_tables::{Note, Viewer};
use std::alloc::Global;
use std::marker::{Brand, Model, PhantomData};

/// What all parts of a round agree on, in proofs alone: so the type of what goes from thread to thread says what it is worth.
pub trait Agreed {
    /// The board and the plan of its viewers.
    ghost board: { ℕ };

    ghost plan: { PlanState };

    /// The hops of its flow.
    ghost hops: { List Hop };

    /// The packets that were still to come when it began. It may be untold.
    ghost left: { Option (List PacketIn) };
}

impl Agreed for Brand {
    ghost use Rattle.std.specs.Prelude.{[], None};

    ghost board = { 0 };

    ghost plan = { record { nodes = 0; steps = [] } };

    ghost hops = { [] };

    ghost left = { None };
}

/// What all parts of a round share: the outside, the flow, the gate, and the trays.
#[derive(Drop)]
pub struct Shift<'r, 'f, 'g, 't, A: Agreed, R, G> {
    pub rt: &'r R,
    pub alloc: Global,
    pub flow: &'f FlowLine,
    pub gate: &'g G,
    pub trays: &'t Trays<A>,
}

/// What a worker's viewer has seen at some moment. Contracts see it as the viewer that it was then.
#[derive(Drop)]
pub struct Seen<A: Agreed> {
    note: Note,
    of: PhantomData<A>,
}

impl<A: Agreed> Model for Seen<A> {
    ghost use Rattle.std.specs.Prelude.{◌≡◌};
    ghost use Rattle.shared_tables.specs.Board.{ViewerState};

    ghost Value = { ViewerState };

    ghost view = { λ s. record { board = A.board; plan = A.plan; seen = s.note.version } };

    ghost invariant = { λ s. s.note.board ≡ A.board };
}

impl<A: Agreed> Seen<A> {
    /// What this viewer has seen now.
    pub fn of(viewer: &Viewer) -> Seen<A>
        requires { (viewer.now.board ≡ A.board) × (viewer.now.plan ≡ A.plan) }
        ensures { result ≡ viewer.now }
    {
        Seen {
            note: viewer.tell(),
            of: PhantomData,
        }
    }

    /// The same once more.
    pub fn again(&self) -> Seen<A>
        ensures { result ≡ self.now }
    {
        Seen {
            note: self.note.again(),
            of: PhantomData,
        }
    }

    /// Whether both are one.
    pub fn is(&self, other: &Seen<A>) -> bool
        ensures { result ≡ true → self.now ≡ other.now }
    {
        self.note.version() == other.note.version()
    }

    /// From now on this viewer looks at nothing below what was seen.
    pub fn teach(&self, viewer: &mut Viewer)
        requires { viewer.old.board ≡ A.board }
        ensures viewer { viewer.new
            ≡ record viewer.old { seen = max viewer.old.seen self.now.seen } }
        ensures mine { (self.now.board ≡ A.board) × (self.now.plan ≡ A.plan) }
    {
        viewer.learn(self.note.again());
    }
}
