//! The words of the command line.

ghost use Rattle.std.specs.Prelude.{◌≡◌, ◌≤◌, ℕ, [], ◌∷◌, codes, IsTrue, IfSome, IfNone};
ghost use Rattle.std.specs.Fmt.{decimal};
ghost use Rattle.mls_label.specs.declared.label.Label.{Label as LabelValue};
ghost use Rattle.label_commands.specs.command_words.Words.{texts_of};
ghost use Rattle.netlabel_run.specs.Words.{IsAsked, IsLevel};

use crate::command::{Command, Level};
use call_report::PACKETS_LIMIT;
use label_commands::{NamedDoi, NamedFile, NamedVersions, Workers, read_number};
use mls_label::{Label, read_decimal};
use mls_range::read_label_into;

/// Reads the words, without the program's name. The label that is lent takes the level, where they have one.
pub(crate) fn read_words<'a>(words: &'a [String], label: &'a mut Label) -> Option<Command<'a>>
    ensures { IsAsked (texts_of words.now) result }
{
    match words {
        [command, file] => read_two(command, file),
        [command, file, flow] => read_three(command, file, flow),
        [command, doi, level, file] => read_four(command, doi, level, file, label),
        _ => None,
    }
}

/// Reads two words.
fn read_two<'a>(command: &str, file: &'a str) -> Option<Command<'a>>
    ensures { IsAsked (command.now ∷ file.now ∷ []) result }
{
    let file = NamedFile::named(file)?;
    if command == "show" {
        return Some(Command::Show { file });
    }
    if command == "check" {
        return Some(Command::Check { file });
    }
    if command == "run" {
        return Some(Command::Run {
            file,
            workers: Workers::usual(),
        });
    }
    None
}

/// Reads three words.
fn read_three<'a>(command: &str, file: &'a str, flow: &str) -> Option<Command<'a>>
    ensures { IsAsked (command.now ∷ file.now ∷ flow.now ∷ []) result }
{
    if command != "agree" {
        return None;
    }
    let flow = read_number(flow)?;
    let file = NamedFile::named(file)?;
    Some(Command::Agree {
        file,
        flow,
        versions: None,
    })
}

/// Reads four words.
fn read_four<'a>(
    command: &str,
    second: &'a str,
    third: &str,
    fourth: &'a str,
    label: &'a mut Label,
) -> Option<Command<'a>>
    ensures { IsAsked (command.now ∷ second.now ∷ third.now ∷ fourth.now ∷ []) result }
{
    if command == "run" {
        return read_run(second, third, fourth);
    }
    if command == "agree" {
        return read_agree(second, third, fourth);
    }
    if command == "make" {
        return read_make(second, third, fourth);
    }
    if command != "judge" {
        return None;
    }
    read_judge(second, third, fourth, label)
}

/// Reads the words behind `run`, where there are three.
fn read_run<'a>(file: &'a str, flag: &str, number: &str) -> Option<Command<'a>>
    ensures { IsAsked (codes "run" ∷ file.now ∷ flag.now ∷ number.now ∷ []) result }
{
    if flag != "-w" {
        return None;
    }
    let file = NamedFile::named(file)?;
    let workers = Workers::named(number)?;
    Some(Command::Run { file, workers })
}

/// Reads the words behind `agree`, where there are three.
fn read_agree<'a>(file: &'a str, flow: &str, versions: &'a str) -> Option<Command<'a>>
    ensures { IsAsked (codes "agree" ∷ file.now ∷ flow.now ∷ versions.now ∷ []) result }
{
    let flow = read_number(flow)?;
    let versions = NamedVersions::named(versions)?;
    let file = NamedFile::named(file)?;
    Some(Command::Agree {
        file,
        flow,
        versions: Some(versions),
    })
}

/// Reads the words behind `make`.
fn read_make<'a>(number: &str, count: &str, file: &'a str) -> Option<Command<'a>>
    ensures { IsAsked (codes "make" ∷ number.now ∷ count.now ∷ file.now ∷ []) result }
{
    let seed = read_decimal(number.as_bytes())?;
    let count = read_count(count)?;
    let file = NamedFile::named(file)?;
    Some(Command::Make { seed, count, file })
}

/// Reads how many packets are to be made.
fn read_count(word: &str) -> Option<u32>
    ensures some { IfSome result (λ count. (word.now ≡ decimal count) × (count ≤ 1048576)) }
    ensures none { IfNone result
        ((count : ℕ) → count ≤ 1048576 → word.now ≡ decimal count → ⊥) }
{
    let count = read_decimal(word.as_bytes())?;
    if count > PACKETS_LIMIT {
        return None;
    }
    Some(count as u32)
}

/// Reads the words behind `judge`.
fn read_judge<'a>(
    doi: &str,
    level: &str,
    file: &'a str,
    label: &'a mut Label,
) -> Option<Command<'a>>
    ensures { IsAsked (codes "judge" ∷ doi.now ∷ level.now ∷ file.now ∷ []) result }
{
    let doi = NamedDoi::named(doi)?;
    let file = NamedFile::named(file)?;
    if !read_level(level, label) {
        return None;
    }
    Some(Command::Judge {
        doi,
        level: Level::new(label),
        file,
    })
}

/// Reads a level into the label that is lent, which is any label where the text is none.
fn read_level(text: &str, label: &mut Label) -> bool
    ensures yes { IsTrue result → IsLevel text.now label.new }
    ensures no { (level : LabelValue) → IsLevel text.now level → IsTrue result }
{
    match read_label_into(text.as_bytes(), label) {
        Ok(()) => true,
        Err(_fault) => false,
    }
}
