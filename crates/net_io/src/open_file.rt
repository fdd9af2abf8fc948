//! A file that stays open for further reads.
ghost use Rattle.std.specs.Prelude.{◌≡◌, ◌<◌, ◌≤◌, ◌+◌, ◌-◌, ◌^◌, min, length, IfOk};

use crate::retry::read_once;
use std::alloc::{AllocError, Global};
use std::io;
use std::io::{Read, Seek, SeekFrom};

/// Where a file stands after a failed read.
const NOWHERE: u64 = u64::MAX;

/// How many first octets of a stream may be read again from its beginning: those that tell a capture's format.
const FRONT: u64 = 4;

/// How many octets of a stream are kept at least, once it has given as many: more than a block of pcapng with a packet has.
const KEPT: usize = 1 << 19;

/// Keeps octets that a stream has given, behind those before them.
fn keep(kept: &mut Vec<u8>, octets: &[u8]) -> Result<(), AllocError> {
    if kept.len() > 2 * KEPT {
        let from = kept.len() - KEPT;
        kept.copy_within(from.., 0);
        kept.truncate(KEPT);
    }
    kept.extend_from_slice(octets)
}

/// Gives as many of these octets as fit, and answers how many.
fn give(octets: &[u8], piece: &mut [u8]) -> usize
    ensures { result ≤ length piece.old }
{
    let n = octets.len().min(piece.len());
    piece[..n].copy_from_slice(&octets[..n]);
    n
}

/// A file that is open for reading, its name, and the octet that its next read begins at. A stream, as a pipe, has no seek: the last octets
/// that it gave are kept.
#[derive(Drop)]
pub struct OpenFile<F> {
    name: String,
    file: F,
    place: u64,
    kept: Option<Vec<u8>>,
}

impl<F: Read + Seek + Drop> OpenFile<F> {
    /// A file, or a stream from its beginning.
    pub fn new(
        alloc: Global,
        name: &str,
        file: F,
        is_stream: bool,
    ) -> Result<OpenFile<F>, AllocError> {
        Ok(OpenFile {
            name: String::from_str(alloc, name)?,
            file,
            place: 0,
            kept: is_stream.then(|| Vec::new(alloc)),
        })
    }

    pub fn has_name(&self, name: &str) -> bool {
        self.name.as_str() == name
    }

    /// Whether a read may wait for somebody who writes.
    pub fn is_stream(&self) -> bool {
        self.kept.is_some()
    }

    /// One read from where the file stands.
    fn read_on(&mut self, piece: &mut [u8]) -> io::Result<usize>
        ensures fits { IfOk result (λ n. n ≤ length piece.old) }
        ensures moved { IfOk result
            (λ n. self.new.place ≡ min (self.old.place + n) (2 ^ 64 - 1)) }
    {
        let from = self.place;
        self.place = NOWHERE;
        let n = read_once(&mut self.file, piece)?;
        if let Some(kept) = &mut self.kept {
            keep(kept, &piece[..n])?;
        }
        self.place = from.saturating_add(n as u64);
        Ok(n)
    }

    /// Reads over a stream up to the octet `at`, or to its end.
    fn pass_to(&mut self, at: u64, piece: &mut [u8]) -> io::Result<()> {
        while self.place < at {
            let most = piece.len().min((at - self.place) as usize);
            if self.read_on(&mut piece[..most])? == 0 {
                break;
            }
        }
        Ok(())
    }

    /// What a stream has kept from the octet `at` on: from the first one on only while nothing follows the first four.
    fn kept_from(&self, at: u64) -> Option<&[u8]> {
        if at == 0 && self.place > FRONT {
            return None;
        }
        let kept = self.kept.as_ref()?;
        let back = self.place.checked_sub(at)?;
        let from = (kept.len() as u64).checked_sub(back)?;
        kept.get(from as usize..)
    }

    /// One read of a stream from the octet `at` on. It goes back no further than what is kept.
    fn read_stream(&mut self, at: u64, piece: &mut [u8]) -> io::Result<usize>
        ensures { IfOk result (λ n. n ≤ length piece.old) }
    {
        if at < self.place {
            let Some(kept) = self.kept_from(at) else {
                return Err(io::Error::from(io::ErrorKind::NotSeekable));
            };
            return Ok(give(kept, piece));
        }
        self.pass_to(at, piece)?;
        self.read_on(piece)
    }

    /// One read from the octet `at` on, into the front of a buffer. A read where the last one ended needs no seek.
    pub fn read(&mut self, at: u64, piece: &mut [u8]) -> io::Result<usize>
        ensures { IfOk result (λ n. n ≤ length piece.old) }
    {
        if self.is_stream() {
            return self.read_stream(at, piece);
        }
        if self.place != at {
            self.file.seek(SeekFrom::Start(at))?;
            self.place = at;
        }
        self.read_on(piece)
    }
}
