//! Reads and writes that a signal has interrupted, and that are made again.
ghost use Rattle.std.specs.Prelude.{◌≤◌, length, IfOk};

use std::io;
use std::io::{Print, Read, Write};

/// How often a call is made at most.
const TURNS: u32 = u32::MAX;

/// One read, which is made again where a signal interrupts it.
pub fn read_once<F: Read>(file: &mut F, piece: &mut [u8]) -> io::Result<usize>
    ensures { IfOk result (λ n. n ≤ length piece.old) }
{
    for _ in 0..TURNS {
        match file.read(piece) {
            Ok(n) => return Ok(n),
            Err(fault) if fault.kind() == io::ErrorKind::Interrupted => {}
            Err(fault) => return Err(fault),
        }
    }
    Err(io::Error::from(io::ErrorKind::Interrupted))
}

/// One write, which is made again where a signal interrupts it.
pub fn write_once<F: Write>(file: &mut F, bytes: &[u8]) -> io::Result<usize>
    ensures { IfOk result (λ n. n ≤ length bytes.now) }
{
    for _ in 0..TURNS {
        match file.write(bytes) {
            Ok(n) => return Ok(n),
            Err(fault) if fault.kind() == io::ErrorKind::Interrupted => {}
            Err(fault) => return Err(fault),
        }
    }
    Err(io::Error::from(io::ErrorKind::Interrupted))
}

/// What prints, as a writer.
#[derive(Drop)]
pub struct Printer<'a, R>(pub &'a R);

impl<R: Print> Write for Printer<'_, R> {
    fn write(&mut self, bytes: &[u8]) -> io::Result<usize> {
        self.0.write_some(bytes)
    }

    fn flush(&mut self) -> io::Result<()> {
        Ok(())
    }
}
