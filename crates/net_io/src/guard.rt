//! The files that no making may touch.
ghost use Rattle.std.specs.Prelude.{◌≡◌, ◌<◌, ◌↔◌, ◌++◌, ◌∷◌, [], true, false, IsTrue, Contains, vec_len, vec_capacity, OnOk, OnErr};
ghost use Rattle.net_io.specs.Guarded.{Awaits};

use std::alloc::{AllocError, Global};
use std::fs::Metadata;
use std::os::unix::fs::MetadataExt;

/// What a file is the same by under each of its names: the device that it stands on, and its number there.
#[derive(Clone, Copy, Debug, PartialEq, Eq)]
pub struct Identity {
    device: u64,
    inode: u64,
}

impl Identity {
    /// The identity of the file that this was told of.
    pub fn of(file: &Metadata) -> Identity {
        Identity {
            device: file.dev(),
            inode: file.ino(),
        }
    }
}

/// The files that were protected or made, and the protected names that weren't there. A guard that is shut guards every file.
#[derive(Debug, Drop)]
pub struct Guard {
    kept: Vec<Identity>,
    awaited: Vec<String>,
    shut: bool,
}

impl Guard {
    /// A guard of no file.
    pub fn new(alloc: Global) -> Guard
        ensures kept { result.kept.items ≡ [] }
        ensures awaited { result.awaited.items ≡ [] }
        ensures shut { result.shut ≡ false }
    {
        Guard {
            kept: Vec::new(alloc),
            awaited: Vec::new(alloc),
            shut: false,
        }
    }

    /// Guards every file from now on.
    pub fn shut(&mut self)
        ensures shut { self.new.shut ≡ true }
        ensures kept { self.new.kept ≡ self.old.kept }
        ensures awaited { self.new.awaited ≡ self.old.awaited }
    {
        self.shut = true;
    }

    /// Whether every file is guarded.
    pub fn is_shut(&self) -> bool
        ensures { result ≡ self.now.shut }
    {
        self.shut
    }

    /// Whether a file is kept.
    pub fn has(&self, identity: Identity) -> bool
        ensures { IsTrue result ↔ Contains self.now.kept.items identity }
    {
        self.kept.iter().any(|kept| *kept == identity)
    }

    /// The protected names that weren't there.
    pub fn awaited(&self) -> &[String]
        ensures { result.now ≡ self.now.awaited.items }
    {
        &self.awaited
    }

    /// Makes room for one file more.
    pub fn make_room(&mut self) -> Result<(), AllocError>
        ensures room { OnOk result (vec_len self.new.kept < vec_capacity self.new.kept) }
        ensures kept { self.new.kept.items ≡ self.old.kept.items }
        ensures awaited { self.new.awaited ≡ self.old.awaited }
        ensures shut { self.new.shut ≡ self.old.shut }
    {
        self.kept.reserve(1)
    }

    /// Keeps a file, for which there is room.
    pub fn keep(&mut self, identity: Identity)
        requires { vec_len self.old.kept < vec_capacity self.old.kept }
        ensures kept { self.new.kept.items ≡ self.old.kept.items ++ identity ∷ [] }
        ensures awaited { self.new.awaited ≡ self.old.awaited }
        ensures shut { self.new.shut ≡ self.old.shut }
    {
        self.kept.push_reserved(identity);
    }

    /// Keeps a file.
    pub fn protect(&mut self, identity: Identity) -> Result<(), AllocError>
        ensures ok { OnOk result (self.new.kept.items ≡ self.old.kept.items ++ identity ∷ []) }
        ensures err { OnErr result (self.new.kept.items ≡ self.old.kept.items) }
        ensures awaited { self.new.awaited ≡ self.old.awaited }
        ensures shut { self.new.shut ≡ self.old.shut }
    {
        self.make_room()?;
        self.keep(identity);
        Ok(())
    }

    /// Keeps a name that isn't there.
    pub fn await_name(&mut self, name: &str) -> Result<(), AllocError>
        ensures ok { OnOk result (Awaits name.now self.old.awaited.items self.new.awaited.items) }
        ensures err { OnErr result (self.new.awaited.items ≡ self.old.awaited.items) }
        ensures kept { self.new.kept ≡ self.old.kept }
        ensures shut { self.new.shut ≡ self.old.shut }
    {
        let name = String::from_str(*self.awaited.allocator(), name)?;
        self.awaited.push(name)?;
        Ok(())
    }
}
