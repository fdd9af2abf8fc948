//! The system's files where little goes well: a signal interrupts the first read or write of each, none can be held, and each ends with an
//! error that comes late.
use net_io::Lock;
use std::alloc::Allocator;
use std::fs::{File, Files, Metadata, OpenFile, OpenOptions};
use std::io;
use std::io::{ErrorKind, Read, Seek, SeekFrom, Write};

#[derive(Drop)]
pub struct WornFile {
    file: File,
    is_used: bool,
}

impl WornFile {
    /// An interruption, the first time.
    fn use_it(&mut self) -> io::Result<()> {
        if self.is_used {
            return Ok(());
        }
        self.is_used = true;
        Err(io::Error::from(ErrorKind::Interrupted))
    }
}

impl Read for WornFile {
    fn read(&mut self, buf: &mut [u8]) -> io::Result<usize> {
        self.use_it()?;
        self.file.read(buf)
    }
}

impl Write for WornFile {
    fn write(&mut self, buf: &[u8]) -> io::Result<usize> {
        self.use_it()?;
        self.file.write(buf)
    }

    fn flush(&mut self) -> io::Result<()> {
        self.file.flush()
    }
}

impl Seek for WornFile {
    fn seek(&mut self, to: SeekFrom) -> io::Result<u64> {
        self.file.seek(to)
    }
}

impl OpenFile for WornFile {
    fn metadata(&self) -> io::Result<Metadata> {
        self.file.metadata()
    }

    fn set_len(&self, size: u64) -> io::Result<()> {
        self.file.set_len(size)
    }

    fn sync_all(&self) -> io::Result<()> {
        Err(io::Error::from(ErrorKind::StorageFull))
    }

    fn sync_data(&self) -> io::Result<()> {
        Err(io::Error::from(ErrorKind::StorageFull))
    }
}

impl Lock for WornFile {
    fn try_hold(&self) -> io::Result<bool> {
        Err(io::Error::from(ErrorKind::Unsupported))
    }
}

/// The files of a runtime, worn.
#[derive(Drop)]
pub struct Worn<'a>(pub &'a HostRuntime);

impl Files for Worn<'_> {
    type File = WornFile;

    type Dir = <HostRuntime as Files>::Dir;

    fn open_file(&self, how: &OpenOptions, path: &str) -> io::Result<WornFile> {
        let file = self.0.open_file(how, path)?;
        Ok(WornFile {
            file,
            is_used: false,
        })
    }

    fn open_dir(&self, path: &str) -> io::Result<Self::Dir> {
        self.0.open_dir(path)
    }

    fn metadata(&self, path: &str) -> io::Result<Metadata> {
        self.0.metadata(path)
    }

    fn symlink_metadata(&self, path: &str) -> io::Result<Metadata> {
        self.0.symlink_metadata(path)
    }

    fn copy(&self, from: &str, to: &str) -> io::Result<u64> {
        self.0.copy(from, to)
    }

    fn rename(&self, from: &str, to: &str) -> io::Result<()> {
        self.0.rename(from, to)
    }

    fn remove_file(&self, path: &str) -> io::Result<()> {
        self.0.remove_file(path)
    }

    fn create_dir(&self, path: &str) -> io::Result<()> {
        self.0.create_dir(path)
    }

    fn remove_dir(&self, path: &str) -> io::Result<()> {
        self.0.remove_dir(path)
    }

    fn remove_dir_all<B: Allocator>(&self, alloc: B, path: &str) -> io::Result<()> {
        self.0.remove_dir_all(alloc, path)
    }
}
