//! Files of a real folder that are guarded: those that a call reads, and those that it makes.
ghost use Rattle.std.specs.Prelude.{◌≡◌, IsTrue, Contains, OnOk, OnErr, IfOk, IsErr};
ghost use Rattle.std.specs.Fs.{file_type, IsFile};
ghost use Rattle.net_io.specs.Guarded.{Guards};
ghost use Rattle.net_io.specs.inside.Kept.{KeepsAnother};

use crate::OutOfMemory;
use crate::guard::{Guard, Identity};
use crate::lock::{Lock, hold};
use std::fs::{Metadata, OpenFile, OpenOptions};
use std::io;
use std::rt::Files;

/// Guards the file that this name is a name of. Where nothing is there yet that can be asked for, the name is awaited.
pub fn guard_name<R: Files>(files: &R, guard: &mut Guard, name: &str) -> Result<(), OutOfMemory>
    ensures { OnOk result (Guards name.now guard.old guard.new) }
{
    match files.metadata(name) {
        Ok(found) => guard.protect(Identity::of(&found))?,
        Err(fault) if fault.kind() == io::ErrorKind::OutOfMemory => return Err(OutOfMemory),
        Err(_) => guard.await_name(name)?,
    }
    Ok(())
}

/// Whether one of these names is now a name of a file.
fn is_named<R: Files>(files: &R, names: &[String], identity: Identity) -> io::Result<bool> {
    for name in names {
        match files.metadata(name) {
            Ok(found) if Identity::of(&found) == identity => return Ok(true),
            Err(fault) if fault.kind() == io::ErrorKind::OutOfMemory => return Err(fault),
            _ => {}
        }
    }
    Ok(false)
}

/// The identity of a file that may be written: a regular one that isn't guarded.
fn free_identity<R: Files>(files: &R, guard: &Guard, found: &Metadata) -> io::Result<Identity>
    ensures regular { OnOk result (IsFile (file_type found.now)) }
    ensures free { IfOk result (λ identity. Contains guard.now.kept.items identity → ⊥) }
{
    let identity = Identity::of(found);
    if !found.is_file() || guard.has(identity) || is_named(files, guard.awaited(), identity)? {
        return Err(io::Error::from(io::ErrorKind::PermissionDenied));
    }
    Ok(identity)
}

/// A file that was made and is open for appending.
#[derive(Drop)]
struct Made<F> {
    identity: Identity,
    file: F,
}

/// The identity of a file that is open, and may be written.
fn open_identity<R: Files>(files: &R, guard: &Guard, file: &R::File) -> io::Result<Identity>
    ensures { IfOk result (λ identity. Contains guard.now.kept.items identity → ⊥) }
{
    free_identity(files, guard, &file.metadata()?)
}

/// Cuts a file that is there to no octets. It is asked for anew once it is open: the name may be another file's by then. One that another
/// call holds stays as it is.
fn empty_file<R: Files>(files: &R, guard: &Guard, name: &str) -> io::Result<Made<R::File>>
where
    R::File: Lock,
    ensures { IfOk result (λ made. Contains guard.now.kept.items made.identity → ⊥) }
{
    let file = OpenOptions::new().append(true).open(files, name)?;
    let identity = open_identity(files, guard, &file)?;
    hold(&file)?;
    file.set_len(0)?;
    Ok(Made { identity, file })
}

/// Makes a file of a name that isn't there. Where it turns out to be a protected one, it is removed again, unless another call holds
/// it by then.
fn new_file<R: Files>(files: &R, guard: &Guard, name: &str) -> io::Result<Made<R::File>>
where
    R::File: Lock,
    ensures { IfOk result (λ made. Contains guard.now.kept.items made.identity → ⊥) }
{
    let file = OpenOptions::new()
        .append(true)
        .create_new(true)
        .open(files, name)?;
    hold(&file)?;
    match open_identity(files, guard, &file) {
        Ok(identity) => Ok(Made { identity, file }),
        Err(fault) => {
            files.remove_file(name)?;
            Err(fault)
        }
    }
}

/// Makes the name hold no octets, whether or not it was there, unless it is a name of a guarded file, of one that another call holds, or of
/// something that is no regular file. What was made is guarded, held, and open for appending. After an Err each file that was there holds
/// what it held.
pub fn make_file<R: Files>(files: &R, guard: &mut Guard, name: &str) -> io::Result<R::File>
where
    R::File: Lock,
    ensures ok { OnOk result (KeepsAnother guard.old.kept.items guard.new.kept.items) }
    ensures err { OnErr result (guard.new.kept.items ≡ guard.old.kept.items) }
    ensures awaited { guard.new.awaited ≡ guard.old.awaited }
    ensures shut { IsTrue guard.old.shut → IsErr result }
{
    if guard.is_shut() {
        return Err(io::Error::from(io::ErrorKind::PermissionDenied));
    }
    guard.make_room()?;
    let made = match files.metadata(name) {
        Ok(found) => {
            free_identity(files, guard, &found)?;
            empty_file(files, guard, name)?
        }
        Err(fault) if fault.kind() == io::ErrorKind::NotFound => new_file(files, guard, name)?,
        Err(fault) => return Err(fault),
    };
    guard.keep(made.identity);
    Ok(made.file)
}
