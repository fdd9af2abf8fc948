//! The file that was read last, which stays open, and the streams that were begun.
ghost use Rattle.std.specs.Prelude.{◌≤◌, length, IfOk};

use crate::guard::Identity;
use crate::open_file::OpenFile;
use std::alloc::Global;
use std::fs::{File, Metadata, OpenFile as Open};
use std::io;
use std::os::unix::fs::FileTypeExt;
use std::rt::Files;

/// What reads of a folder have opened.
#[derive(Drop)]
pub struct Input<R: Files> {
    open: Option<OpenFile<R::File>>,
    streams: Vec<Identity>,
}

/// Whether this is read in its order alone, and a read may wait for somebody who writes.
fn is_stream(found: &Metadata) -> bool {
    let kind = found.file_type();
    kind.is_fifo() || kind.is_socket()
}

/// Notes that a stream is begun, which it may be once.
fn begin_stream(streams: &mut Vec<Identity>, identity: Identity) -> io::Result<()> {
    if streams.iter().any(|stream| *stream == identity) {
        return Err(io::Error::from(io::ErrorKind::NotSeekable));
    }
    streams.push(identity)?;
    Ok(())
}

/// Opens a file. It is asked for first: to open a stream that was read would wait for somebody who writes.
fn open_file<R: Files>(
    alloc: Global,
    files: &R,
    streams: &mut Vec<Identity>,
    name: &str,
) -> io::Result<OpenFile<R::File>> {
    let found = files.metadata(name)?;
    let is_stream = is_stream(&found);
    if is_stream {
        begin_stream(streams, Identity::of(&found))?;
    }
    let file = File::open(files, name)?;
    Ok(OpenFile::new(alloc, name, file, is_stream)?)
}

impl<R: Files + Drop> Input<R> {
    /// Nothing is open yet.
    pub fn new(alloc: Global) -> Input<R> {
        Input {
            open: None,
            streams: Vec::new(alloc),
        }
    }

    /// Whether a read of this name may wait for somebody who writes, as far as is known: its file is open, and is a stream.
    pub fn may_wait(&self, name: &str) -> bool {
        match &self.open {
            Some(file) => file.is_stream() && file.has_name(name),
            None => false,
        }
    }

    /// One read of a file from the octet `at` on, into the front of a buffer. The file stays open, in place of the one that was.
    pub fn read(&mut self, files: &R, name: &str, at: u64, piece: &mut [u8]) -> io::Result<usize>
        ensures { IfOk result (λ n. n ≤ length piece.old) }
    {
        if let Some(file) = &mut self.open
            && file.has_name(name)
        {
            return file.read(at, piece);
        }
        let alloc = *self.streams.allocator();
        let file = open_file(alloc, files, &mut self.streams, name)?;
        self.open = None;
        self.open.insert(file).read(at, piece)
    }
}
