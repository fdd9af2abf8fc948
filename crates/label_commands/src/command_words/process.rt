//! The words of the process that runs.

ghost use Rattle.std.specs.Prelude.{◌≡◌, [], ◌∷◌, IfOk};
ghost use Rattle.label_commands.specs.command_words.Words.{texts_of};

use std::alloc::{AllocError, Global};
use std::{env, io};

/// The words of the command line without the program's name. A word that isn't UTF-8 is none of any form, and neither is an empty one:
/// where there is such a word, one empty word stands for all.
pub fn words_of(rt: &HostRuntime) -> io::Result<Vec<String>> {
    match told_words(rt) {
        Err(fault) if fault.kind() == io::ErrorKind::InvalidData => Ok(no_form(rt.alloc())?),
        words => words,
    }
}

/// The same; a word that isn't UTF-8 is invalid data.
fn told_words(rt: &HostRuntime) -> io::Result<Vec<String>> {
    let mut words = Vec::new(rt.alloc());
    for word in env::args(rt)?.skip(1) {
        words.push(word)?;
    }
    Ok(words)
}

/// One empty word, which is no form of any program.
fn no_form(alloc: Global) -> Result<Vec<String>, AllocError>
    ensures { IfOk result (λ words. texts_of words.items ≡ [] ∷ []) }
{
    let mut words = Vec::new(alloc);
    words.push(String::new(alloc))?;
    Ok(words)
}
