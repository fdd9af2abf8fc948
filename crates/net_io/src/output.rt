//! The file that was made last, which stays open until it is finished.
ghost use Rattle.std.specs.Prelude.{◌≡◌, IsTrue, OnOk, OnErr, IfOk, IsErr};
ghost use Rattle.net_io.specs.Depot.{IsPart};
ghost use Rattle.net_io.specs.inside.Kept.{KeepsAnother};

use crate::guard::Guard;
use crate::lock::Lock;
use crate::making::make_file;
use crate::retry::write_once;
use std::alloc::Global;
use std::fs::{OpenFile, OpenOptions};
use std::io;
use std::io::Write;
use std::rt::Files;

/// A file that was made, and its name then: what is appended goes there, whatever has its name meanwhile.
#[derive(Drop)]
pub struct Output<F> {
    name: String,
    file: F,
}

/// Makes a file, which stays open and held in place of the one that was.
pub fn make_output<R: Files>(
    alloc: Global,
    files: &R,
    guard: &mut Guard,
    output: &mut Option<Output<R::File>>,
    name: &str,
) -> io::Result<()>
where
    R::File: Lock,
    ensures ok { OnOk result (KeepsAnother guard.old.kept.items guard.new.kept.items) }
    ensures err { OnErr result (guard.new.kept.items ≡ guard.old.kept.items) }
    ensures shut { IsTrue guard.old.shut → IsErr result }
{
    let own_name = String::from_str(alloc, name)?;
    *output = None;
    let file = make_file(files, guard, name)?;
    *output = Some(Output {
        name: own_name,
        file,
    });
    Ok(())
}

/// One write at the end of an open file. A disk that takes nothing of some octets has failed.
fn append_piece<F: Write>(file: &mut F, bytes: &[u8]) -> io::Result<usize>
    ensures { IfOk result (λ n. IsPart n bytes.now) }
{
    let n = write_once(file, bytes)?;
    if n == 0 && !bytes.is_empty() {
        return Err(io::Error::from(io::ErrorKind::WriteZero));
    }
    Ok(n)
}

/// One write at the end of a file: of the one that was made last, where it had this name, else of the one that has it.
pub fn append_to<R: Files>(
    files: &R,
    output: &mut Option<Output<R::File>>,
    name: &str,
    bytes: &[u8],
) -> io::Result<usize>
    ensures { IfOk result (λ n. IsPart n bytes.now) }
{
    if let Some(made) = output
        && made.name.as_str() == name
    {
        return append_piece(&mut made.file, bytes);
    }
    let mut file = OpenOptions::new().append(true).open(files, name)?;
    append_piece(&mut file, bytes)
}

/// Ends the file that was made last, where it had this name: its octets are passed on to the disk, which answers errors that come
/// late, and it is closed.
pub fn finish_output<F: OpenFile + Drop>(
    output: &mut Option<Output<F>>,
    name: &str,
) -> io::Result<()> {
    let Some(made) = output else {
        return Ok(());
    };
    if made.name.as_str() != name {
        return Ok(());
    }
    let passed_on = made.file.sync_data();
    *output = None;
    passed_on
}
