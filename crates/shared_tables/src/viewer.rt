//! Viewers.

ghost use Rattle.std.specs.Prelude.{◌≡◌, max, IfOk, OnErr, true};
ghost use Rattle.left_right.specs.Sides.{view};
ghost use Rattle.shared_tables.specs.Board.{MayLook, HasLooked};
ghost use Rattle.shared_tables.specs.inside.Name.{board_name};

use crate::note::Note;
use crate::rule::{Rule, Sees, View};
use crate::state::State;
use core::mem;
use crossbeam_utils::CachePadded;
use left_right::reader::Reader;
use mls_label::OutOfMemory;
use node_tables::Network;
use std::marker::Model;

/// One who looks at the published tables. It is for one thread at a time, and may be sent to another.
#[derive(Drop)]
pub struct Viewer {
    reader: Reader<State, View, Rule>,
    seen: u32,
    // Each look writes here: so no other viewer of a list stands on the same line of a cache.
    _apart: CachePadded<()>,
}

impl Model for Viewer {
    ghost use Rattle.std.specs.Prelude.{◌≡◌, true};
    ghost use Rattle.left_right.specs.Sides as sides;
    ghost use Rattle.shared_tables.specs.Board.{ViewerState};
    ghost use Rattle.shared_tables.specs.inside.Name.{board_name};

    ghost Value = { ViewerState };

    ghost view = { λ viewer. record { board = board_name; plan = (sides.view viewer.reader.place).plan; seen = viewer.seen } };

    ghost invariant = { λ viewer. (sides.view viewer.reader.place).knows ≡ true };
}

impl Viewer {
    pub(crate) fn of(reader: Reader<State, View, Rule>, seen: u32) -> Viewer
        requires { (view reader.place).knows ≡ true }
        ensures { result ≡ record {
          board = board_name;
          plan =
              (view reader.place).plan;
          seen = seen;
        } }
    {
        Viewer {
            reader,
            seen,
            _apart: CachePadded::new(()),
        }
    }

    /// Calls `f` once on one published version, which isn't below any that was seen or learned, and gives what `f` gave. It waits for
    /// nobody. Where a look is refused, `f` isn't called.
    pub fn look<R, F: FnOnce(u32, &Network) -> R>(&mut self, f: F) -> Result<R, OutOfMemory>
        requires { MayLook F.FnOnce f self.old.plan self.old.seen }
        ensures ok { IfOk result
            (λ given. HasLooked F.FnOnce f self.old.plan self.old.seen self.new.seen given) }
        ensures kept { (self.new.board ≡ self.old.board) × (self.new.plan ≡ self.old.plan) }
        ensures err { OnErr result (self.new ≡ self.old) }
    {
        let with = (f, self.seen);
        let looked = mem::replace_with(
            &mut self.reader,
            with,
            |reader, with| look_in(reader, with),
        );
        match looked {
            Ok((version, given)) => {
                self.seen = version;
                Ok(given)
            }
            Err(refused) => Err(refused),
        }
    }

    /// The version below which no look goes: the last one that was looked at, or a later one that was learned.
    pub fn seen(&self) -> u32
        ensures { result ≡ self.now.seen }
    {
        self.seen
    }

    /// A note of that version, for another viewer of its board to learn.
    pub fn tell(&self) -> Note
        ensures { result ≡ record { board = self.now.board; version = self.now.seen } }
    {
        Note::of(self.seen)
    }

    /// Takes in a note of its own board: from now on no look goes below the note's version.
    pub fn learn(&mut self, note: Note)
        requires { self.old.board ≡ note.board }
        ensures { self.new ≡ record self.old { seen = max self.old.seen note.version } }
    {
        self.seen = self.seen.max(note.version());
    }
}

// Looks once. A version below the floor is left at once: a reader doesn't tell of which table it is, so a note can't be joined to it.
fn look_in<R, F: FnOnce(u32, &Network) -> R>(
    reader: Reader<State, View, Rule>,
    with: (F, u32),
) -> (Reader<State, View, Rule>, Result<(u32, R), OutOfMemory>)
    requires knows { (view reader.place).knows ≡ true }
    requires may { MayLook F.FnOnce with.0 (view reader.place).plan with.1 }
    ensures knows { ((view result.0.place).knows ≡ true)
        × ((view result.0.place).plan ≡ (view reader.place).plan) }
    ensures ok { IfOk result.1
        (λ seen. HasLooked F.FnOnce with.0 (view reader.place).plan with.1 seen.0 seen.1) }
{
    let (f, floor) = with;
    match reader.enter_as::<Sees>() {
        Ok(reading) => {
            let state = reading.get();
            let version = state.version;
            if version < floor {
                return (reading.leave(), Err(OutOfMemory));
            }
            let given = f(version, &state.network);
            (reading.leave(), Ok((version, given)))
        }
        Err(reader) => (reader, Err(OutOfMemory)),
    }
}
