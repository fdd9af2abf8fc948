//! What the words of a line say, whatever stands above it.

ghost use Rattle.std.specs.Prelude.{◌≡◌, ◌<◌, All, IfOk, IfErr, Ok, ok_or, option_copied};
ghost use Rattle.script_lines.specs.declared.stop.ScriptKind.TheVariants.{Missing};
ghost use Rattle.script_lines.specs.Stop.{fault, IsStopOf};
ghost use Rattle.script_lines.specs.Form.{with_translations};
ghost use Rattle.script_lines.specs.Command.{command_of};
ghost use Rattle.label_commands.specs.Line.{read_only_name, named_by, reading_stop, read_meanings, is_reading, behind_tool, read_led, starts_table, is_flow_line};

use crate::node_readings::{Reading, ReadingFault};
use domain_map::{Name, read_name};
use script_lines::{
    Command, Fields, LineStop, Row, Said, ScriptKind, Word, begins_line, command_of, is_word,
    read_said,
};
use std::alloc::Global;

/// The one name that the words are; `end` is the line's length.
pub(crate) fn read_only_name(end: usize, words: &[Word]) -> Result<Name, LineStop>
    ensures { result ≡ read_only_name end words.now }
{
    let [word, behind @ ..] = words else {
        return Err(LineStop::at(end, ScriptKind::Missing));
    };
    let Some(name) = read_name(word.text()) else {
        return Err(LineStop::at(word.at(), ScriptKind::Value));
    };
    match behind {
        [next, ..] => Err(LineStop::at(next.at(), ScriptKind::Extra)),
        [] => Ok(name),
    }
}

/// The reading that a line's parameters name; the line begins at `place`.
pub(crate) fn read_meanings(
    alloc: Global,
    place: usize,
    fields: &Fields,
) -> Result<Reading, LineStop>
    ensures ok { IfOk result (λ reading. read_meanings place (named_by fields.now) ≡ Ok reading) }
    ensures stop { IfErr result (IsStopOf (read_meanings place (named_by fields.now))) }
{
    match Reading::of(alloc, levels_of(fields), categories_of(fields)) {
        Ok(reading) => Ok(reading),
        Err(fault) => Err(reading_stop(place, fault)),
    }
}

fn levels_of(fields: &Fields) -> &[(u8, u32)]
    ensures { result.now ≡ (named_by fields.now).levels }
{
    match &fields.reading_levels {
        Some(pairs) => pairs.as_slice(),
        None => &[],
    }
}

fn categories_of(fields: &Fields) -> &[(u16, u32)]
    ensures pairs { result.now ≡ (named_by fields.now).cats }
    ensures categories { All (λ p. p.0 < 65535) result.now }
{
    match &fields.reading_categories {
        Some(pairs) => pairs.as_slice(),
        None => &[],
    }
}

fn reading_stop(place: usize, fault: ReadingFault) -> LineStop
    ensures { result ≡ reading_stop place fault }
{
    match fault {
        ReadingFault::NotIncreasing => LineStop::at(place, ScriptKind::NotIncreasing),
        ReadingFault::NotDistinct => LineStop::at(place, ScriptKind::NotDistinct),
        ReadingFault::OutOfMemory => LineStop::OutOfMemory,
    }
}

/// Reads the words of a command, or of a reading that `netlabelctl` doesn't lead.
#[tactic(auto, unfolding(crate::specs::Line::read_led))]
pub(crate) fn read_led(alloc: Global, end: usize, words: &[Word]) -> Result<Said, LineStop>
    ensures ok { IfOk result (λ said. read_led with_translations end words.now ≡ Ok said) }
    ensures stop { IfErr result (IsStopOf (read_led with_translations end words.now)) }
{
    match behind_tool(words) {
        Some(rest) => read_said(alloc, true, rest, end),
        None => read_said(alloc, false, words, end),
    }
}

/// What stands behind a leading `netlabelctl`.
fn behind_tool<'a, 'b>(words: &'b [Word<'a>]) -> Option<&'b [Word<'a>]>
    ensures { option_copied result ≡ behind_tool words.now }
{
    match words {
        [first, behind @ ..] => is_word(first.text(), "netlabelctl").then_some(behind),
        [] => None,
    }
}

/// Whether the word begins a command or a reading.
#[tactic(auto, unfolding(crate::specs::Line::starts_table))]
pub(crate) fn starts_table(word: &Word) -> bool
    ensures { result ≡ starts_table with_translations word.now }
{
    is_word(word.text(), "netlabelctl") || begins_line(word.text())
}

pub(crate) fn is_reading(row: Row) -> bool
    ensures { result ≡ is_reading row }
{
    matches!(row, Row::Reading)
}

pub(crate) fn is_flow_line(words: &[Word]) -> bool
    ensures { result ≡ is_flow_line words.now }
{
    match words {
        [first, ..] => is_word(first.text(), "flow"),
        [] => false,
    }
}

/// The command of a row's parameters.
pub(crate) fn read_command(end: usize, said: Said) -> Result<Command, LineStop>
    ensures { result ≡ ok_or (command_of said.row said.fields) (fault end Missing) }
{
    match command_of(said.row, said.fields) {
        Some(command) => Ok(command),
        None => Err(LineStop::at(end, ScriptKind::Missing)),
    }
}
