//! The files of the folder that the program runs in. No clause tells what a disk holds: this is the trusted edge.
ghost use Rattle.std.specs.Prelude.{◌≡◌, ◌≤◌, [], IsTrue, IfOk, OnOk, OnErr, IsErr};
ghost use Rattle.net_io.specs.Faults.{Rose};
ghost use Rattle.net_io.specs.Depot.{NowHolds, SameHeld, OnlyCreates};
ghost use Rattle.net_io.specs.Memory.{IsFresh};
ghost use Rattle.net_io.specs.Guarded.{Guards};
ghost use Rattle.net_io.specs.inside.Kept.{GuardsOneOrAll};
ghost use Rattle.net_io.specs.declared.fault.IoFault.TheVariants.{Failed, OutOfMemory as IoOutOfMemory};

use crate::guard::{Guard, Identity};
use crate::input::Input;
use crate::lock::Lock;
use crate::making::guard_name;
use crate::output::{Output, append_to, finish_output, make_output};
use crate::piece::new_piece;
use crate::{Depot, IoFault, OutOfMemory};
use std::alloc::Global;
use std::io;
use std::rt::Files;

/// No file reaches this octet: the system counts octets by signed numbers of 64 bits.
const NO_PLACE: u64 = 1 << 63;

/// The name of the file that standard output is.
const STANDARD_OUTPUT: &str = "/dev/stdout";

/// The files of the program's folder. Their content isn't told. Each kind of call has one number of faults,
/// which is that number for every name; it stays at its type's end. The file that was read last stays open, and so does the one that was made
/// last, until it is finished: what is appended goes there, whatever has its name meanwhile. It is held as long (`Lock`).
///
/// A FIFO or a socket is read once, from its beginning to its end. A read may go back over the last 524,288 octets that were read, and to the
/// first one only while nothing that follows the first four was; another one that goes back fails, and so does one after another file was read.
///
/// `create` is refused for each name of a file that was protected, that a `create` has made, or that is standard output, and for every
/// name where it can't be told which file that is; for a file that another process holds; for what is no
/// regular file, as a folder, a device, a terminal or a pipe, which isn't opened; and for a symlink that leads nowhere. Files
/// are told apart by their device and their number there, so another spelling, a symlink and a hard link are seen. What another
/// process exchanges between two calls isn't, nor is a file in a file system whose numbers of files don't last.
#[derive(Drop)]
pub struct RealDepot<R: Files> {
    files: R,
    guard: Guard,
    piece: Vec<u8>,
    input: Input<R>,
    output: Option<Output<R::File>>,
    read_faults: u64,
    create_faults: u64,
    append_faults: u64,
}

impl<R: Files + Drop> RealDepot<R> {
    ghost use Rattle.net_io.specs.Real.{real_state};

    /// The files that this runtime reaches, with no faults so far. The file that standard output is, is protected; where `/dev/stdout` doesn't
    /// lead to it, as where standard output is closed, every `create` is refused.
    pub fn new(files: R, alloc: Global) -> Result<RealDepot<R>, OutOfMemory>
        ensures { IfOk result (λ depot. IsFresh (real_state depot)) }
    {
        let guard = first_guard(alloc, &files)?;
        Ok(RealDepot {
            files,
            guard,
            piece: new_piece(alloc)?,
            input: Input::new(alloc),
            output: None,
            read_faults: 0,
            create_faults: 0,
            append_faults: 0,
        })
    }
}

/// A guard of the file that standard output is. Where that can't be told, each file may be that one, and all are guarded.
fn first_guard<R: Files>(alloc: Global, files: &R) -> Result<Guard, OutOfMemory>
    ensures { IfOk result (λ guard. GuardsOneOrAll guard) }
{
    let mut guard = Guard::new(alloc);
    match files.metadata(STANDARD_OUTPUT) {
        Ok(found) => guard.protect(Identity::of(&found))?,
        Err(fault) if fault.kind() == io::ErrorKind::OutOfMemory => return Err(OutOfMemory),
        Err(_) => guard.shut(),
    }
    Ok(guard)
}

/// The fault that a call on a file gives: want of memory, or one that is counted. The number stays at its type's end.
fn counted(fault: io::Error, faults: &mut u64) -> IoFault
    ensures no_less { faults.old ≤ faults.new }
    ensures failed { result ≡ Failed → Rose faults.old faults.new }
    ensures out_of_memory { result ≡ IoOutOfMemory → faults.new ≡ faults.old }
{
    if fault.kind() == io::ErrorKind::OutOfMemory {
        return IoFault::OutOfMemory;
    }
    *faults = faults.saturating_add(1);
    IoFault::Failed
}

impl<R: Files + Drop> Depot for RealDepot<R>
where
    R::File: Lock,
{
    ghost use Rattle.net_io.specs.Real.{real_state, real_guard};

    ghost state = { real_state };

    // It reads into a buffer of its own: what a read leaves in a buffer behind its octets, or where it fails, isn't known.
    fn read_at(&mut self, name: &str, at: u64, buf: &mut [u8]) -> Result<usize, IoFault> {
        if at >= NO_PLACE {
            return Ok(0);
        }
        let most = buf.len().min(self.piece.len());
        let piece = &mut self.piece[..most];
        match self.input.read(&self.files, name, at, piece) {
            Ok(n) => {
                buf[..n].copy_from_slice(&piece[..n]);
                Ok(n)
            }
            Err(fault) => Err(counted(fault, &mut self.read_faults)),
        }
    }

    fn read_over(&mut self, name: &str, at: u64, buf: &mut [u8]) -> Result<usize, IoFault> {
        if at >= NO_PLACE {
            return Ok(0);
        }
        let most = buf.len().min(self.piece.len());
        let piece = &mut buf[..most];
        match self.input.read(&self.files, name, at, piece) {
            Ok(n) => Ok(n),
            Err(fault) => Err(counted(fault, &mut self.read_faults)),
        }
    }

    fn protect(&mut self, name: &str) -> Result<(), OutOfMemory>
        ensures kept { real_state self.new ≡ real_state self.old }
        ensures guarded { OnOk result
            (Guards name.now (real_guard self.old) (real_guard self.new)) }
    {
        guard_name(&self.files, &mut self.guard, name)
    }

    fn may_wait(&self, name: &str) -> bool {
        self.input.may_wait(name)
    }

    fn create(&mut self, name: &str) -> Result<(), IoFault>
        ensures ok { OnOk result (IsTrue (real_state self.old).tells
            → NowHolds name.now [] (real_state self.old).held (real_state self.new).held) }
        ensures err { OnErr result (IsTrue (real_state self.old).tells
            → SameHeld (real_state self.old).held (real_state self.new).held) }
        ensures frame { OnlyCreates IoFault.Failed result name.now (real_state self.old)
            (real_state self.new) }
        ensures shut { IsTrue (real_guard self.old).shut → IsErr result }
    {
        let alloc = *self.piece.allocator();
        match make_output(alloc, &self.files, &mut self.guard, &mut self.output, name) {
            Ok(()) => Ok(()),
            Err(fault) => Err(counted(fault, &mut self.create_faults)),
        }
    }

    fn append(&mut self, name: &str, bytes: &[u8]) -> Result<usize, IoFault> {
        match append_to(&self.files, &mut self.output, name, bytes) {
            Ok(n) => Ok(n),
            Err(fault) => Err(counted(fault, &mut self.append_faults)),
        }
    }

    fn finish(&mut self, name: &str) -> Result<(), IoFault> {
        match finish_output(&mut self.output, name) {
            Ok(()) => Ok(()),
            Err(fault) => Err(counted(fault, &mut self.append_faults)),
        }
    }
}
