//! What the words of the command line ask for.

ghost use Rattle.std.specs.Prelude.{◌≡◌};
ghost use Rattle.label_commands.specs.command_words.Words.{texts_of};
ghost use Rattle.static_law.specs.Cover.{cover_asked};

use label_commands::{NamedFile, NamedVersions, read_number};

/// Whether each hop covers the next one of a script's flow, counted from 1, under these versions of the tables.
#[derive(Debug, Drop)]
pub(crate) struct CoverQuestion<'a> {
    pub(crate) file: NamedFile<'a>,
    pub(crate) flow: u32,
    pub(crate) versions: Option<NamedVersions<'a>>,
}

/// Reads the words, without the program's name.
pub(crate) fn read_question<'a>(words: &'a [String]) -> Option<CoverQuestion<'a>>
    ensures { result ≡ cover_asked (texts_of words.now) }
{
    match words {
        [script, flow] => {
            let file = NamedFile::named(script)?;
            let flow = read_number(flow)?;
            Some(CoverQuestion {
                file,
                flow,
                versions: None,
            })
        }
        [script, flow, versions] => {
            let file = NamedFile::named(script)?;
            let flow = read_number(flow)?;
            let versions = NamedVersions::named(versions)?;
            Some(CoverQuestion {
                file,
                flow,
                versions: Some(versions),
            })
        }
        _ => None,
    }
}
