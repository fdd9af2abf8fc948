//! Notes.

ghost use Rattle.std.specs.Prelude.{◌≡◌};
ghost use Rattle.shared_tables.specs.inside.Name.{board_name};

use std::marker::Model;

/// That a board reached a version. It is for a viewer to learn.
#[derive(Drop)]
pub struct Note {
    version: u32,
}

impl Model for Note {
    ghost use Rattle.shared_tables.specs.Board.{NoteState};
    ghost use Rattle.shared_tables.specs.inside.Name.{board_name};

    ghost Value = { NoteState };

    ghost view = { λ note. record { board = board_name; version = note.version } };
}

impl Note {
    pub(crate) fn of(version: u32) -> Note
        ensures { result ≡ record { board = board_name; version = version } }
    {
        Note { version }
    }

    /// The version that was reached.
    pub fn version(&self) -> u32
        ensures { result ≡ self.now.version }
    {
        self.version
    }

    /// The same note once more.
    pub fn again(&self) -> Note
        ensures { result ≡ self.now }
    {
        Note {
            version: self.version,
        }
    }
}
