//! What the words of the command line ask for.

ghost use Rattle.std.specs.Prelude.{◌≡◌, None};
ghost use Rattle.std.specs.List.{list_all};
ghost use Rattle.label_commands.specs.flow_lines.FileName.{is_file_name};
ghost use Rattle.label_commands.specs.command_words.Words.{texts_of};
ghost use Rattle.netlabel_report.specs.Asked.{way_of_word, question_by, question_scripted, question_behind, question_asked, report_usage_line};

use crate::names::ReportNames;
use crate::report_telling::Way;
use label_commands::{NamedFile, is_file_name};

/// Reports that are to be told, the script whose commands they answer, and whether the status is to tell that something is amiss in them.
#[derive(Debug, Drop)]
pub(crate) struct ReportQuestion<'a> {
    pub(crate) tells: bool,
    pub(crate) script: Option<NamedFile<'a>>,
    pub(crate) way: Way,
    pub(crate) names: ReportNames<'a>,
}

/// Reads the words, without the program's name.
pub(crate) fn read_question<'a>(words: &'a [String]) -> Option<ReportQuestion<'a>>
    ensures { result ≡ question_asked (texts_of words.now) }
{
    match words {
        [] => None,
        [first, behind @ ..] => {
            if first.as_str() == "-e" {
                question_behind(true, behind)
            } else {
                question_behind(false, words)
            }
        }
    }
}

/// The same of the words behind `-e`.
fn question_behind<'a>(tells: bool, words: &'a [String]) -> Option<ReportQuestion<'a>>
    ensures { result ≡ question_behind tells (texts_of words.now) }
{
    match words {
        [] => None,
        [first, behind @ ..] => {
            if first.as_str() == "-s" {
                question_scripted(tells, behind)
            } else {
                question_by(tells, None, words)
            }
        }
    }
}

/// The same of the words behind `-s`.
fn question_scripted<'a>(tells: bool, words: &'a [String]) -> Option<ReportQuestion<'a>>
    ensures { result ≡ question_scripted tells (texts_of words.now) }
{
    match words {
        [] => None,
        [script, behind @ ..] => {
            let script = NamedFile::named(script)?;
            question_by(tells, Some(script), behind)
        }
    }
}

/// The same of the way, and names behind it.
fn question_by<'a>(
    tells: bool,
    script: Option<NamedFile<'a>>,
    words: &'a [String],
) -> Option<ReportQuestion<'a>>
    ensures { result ≡ question_by tells script.entry (texts_of words.now) }
{
    match words {
        [] => None,
        [word, names @ ..] => {
            let way = way_of_word(word)?;
            if !are_names(names) {
                return None;
            }
            Some(ReportQuestion {
                tells,
                script,
                way,
                names: ReportNames { words: names },
            })
        }
    }
}

fn are_names(words: &[String]) -> bool
    ensures { result ≡ list_all is_file_name (texts_of words.now) }
{
    let mut rest = words;
    while let [word, others @ ..] = rest {
        if !is_file_name(word.as_bytes()) {
            return false;
        }
        rest = others;
    }
    true
}

/// How reports are to be told.
fn way_of_word(word: &str) -> Option<Way>
    ensures { result ≡ way_of_word word.now }
{
    if word == "summary" {
        return Some(Way::Summary);
    }
    if word == "denied" {
        return Some(Way::Denied);
    }
    if word == "json" {
        return Some(Way::Json);
    }
    if word == "csv" {
        return Some(Way::Csv);
    }
    None
}

/// The forms of the command line.
#[tactic(auto, unfolding(crate::specs::Asked::report_usage_line))]
pub(crate) fn report_usage() -> &'static [u8]
    ensures { result.now ≡ report_usage_line }
{
    b"usage: netlabel_report [-e] [-s <script>] summary|denied|json|csv [<report>..]\n"
}
