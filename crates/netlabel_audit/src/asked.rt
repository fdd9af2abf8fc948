//! What the words of the command line ask for.

ghost use Rattle.std.specs.Prelude.{◌≡◌, ◌<◌, ◌≤◌, IfSome};
ghost use Rattle.label_commands.specs.command_words.Words.{texts_of};
ghost use Rattle.netlabel_audit.specs.Words.{workers_named, audit_asked};

use label_commands::{NamedFile, read_number};

/// The report of a run that is to be judged, the script that was run, and the number of workers.
#[derive(Debug, Drop)]
pub(crate) struct Audit<'a> {
    pub(crate) script: NamedFile<'a>,
    pub(crate) report: NamedFile<'a>,
    pub(crate) workers: usize,
}

/// Reads the words, without the program's name.
pub(crate) fn read_audit<'a>(words: &'a [String]) -> Option<Audit<'a>>
    ensures asked { result ≡ audit_asked (texts_of words.now) }
    ensures workers { IfSome result (λ asked. (0 < asked.workers) × (asked.workers ≤ 16)) }
{
    match words {
        [script, report, workers] => {
            let script = NamedFile::named(script)?;
            let report = NamedFile::named(report)?;
            let workers = read_workers(workers)?;
            Some(Audit {
                script,
                report,
                workers,
            })
        }
        _ => None,
    }
}

/// Reads a number of workers, from 1 to 16.
fn read_workers(word: &str) -> Option<usize>
    ensures named { result ≡ workers_named word.now }
    ensures some { IfSome result (λ n. (0 < n) × (n ≤ 16)) }
{
    let number = read_number(word)?;
    if 0 < number && number <= 16 {
        return Some(number as usize);
    }
    None
}
