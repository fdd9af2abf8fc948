//! Files that are held while they are made, so that no other call makes them meanwhile.
ghost use Rattle.std.specs.Prelude.{◌↔◌, IsTrue, IsOk, OnErr, IfOk};

use std::fs::{File, TryLockError};
use std::io;

/// A file that one who has it open may hold.
pub trait Lock {
    /// Holds the file for as long as it stays open. False: another one holds it.
    fn try_hold(&self) -> io::Result<bool>;
}

/// The system's advisory lock on a whole file (flock(2)).
impl Lock for File {
    fn try_hold(&self) -> io::Result<bool> {
        match self.try_lock() {
            Ok(()) => Ok(true),
            Err(TryLockError::WouldBlock) => Ok(false),
            Err(TryLockError::Error(fault)) => Err(fault),
        }
    }
}

/// Whether a file may be made, by whether it is held now: what another one holds is refused. A file system without locks refuses nothing.
fn unless_taken(answer: io::Result<bool>) -> io::Result<()>
    ensures answered { IfOk answer (λ held. IsOk result ↔ IsTrue held) }
    ensures no_locks { OnErr answer (IsOk result) }
{
    match answer {
        Ok(false) => Err(io::Error::from(io::ErrorKind::WouldBlock)),
        Ok(true) | Err(_) => Ok(()),
    }
}

/// Holds a file that is made, for as long as it stays open. One that another one holds is refused.
pub fn hold<F: Lock>(file: &F) -> io::Result<()> {
    unless_taken(file.try_hold())
}
