//! What the words of the command line ask for.

ghost use Rattle.std.specs.Prelude.{◌≡◌};
ghost use Rattle.label_commands.specs.command_words.Words.{texts_of};
ghost use Rattle.ripso_border_run.specs.Words.{way_named, border_asked};

use label_commands::{NamedDoi, NamedFile};
use ripso_border::Way;

/// A capture whose packets are to cross a border, by what a script defines a DOI as, and the capture that is to be made.
#[derive(Debug, Drop)]
pub(crate) struct Task<'a> {
    pub(crate) way: Way,
    pub(crate) script: NamedFile<'a>,
    pub(crate) doi: NamedDoi,
    pub(crate) input: NamedFile<'a>,
    pub(crate) output: NamedFile<'a>,
}

/// Reads the words, without the program's name.
pub(crate) fn read_task<'a>(words: &'a [String]) -> Option<Task<'a>>
    ensures { result ≡ border_asked (texts_of words.now) }
{
    match words {
        [way, script, doi, input, output] => {
            let way = read_way(way)?;
            let script = NamedFile::named(script)?;
            let doi = NamedDoi::named(doi)?;
            let input = NamedFile::named(input)?;
            let output = NamedFile::named(output)?;
            Some(Task {
                way,
                script,
                doi,
                input,
                output,
            })
        }
        _ => None,
    }
}

/// Which way packets are to go.
fn read_way(word: &str) -> Option<Way>
    ensures { result ≡ way_named word.now }
{
    if word == "in" {
        return Some(Way::In);
    }
    if word == "out" {
        return Some(Way::Out);
    }
    None
}
