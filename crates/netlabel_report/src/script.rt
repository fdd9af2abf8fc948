//! The commands of the script that reports are told by.

ghost use Rattle.std.specs.Prelude.{◌≡◌, ◌++◌, IfOk, IfErr, OnOk};
ghost use Rattle.call_report.specs.script_input.Ends.{IsScriptEnd};
ghost use Rattle.netlabel_report.specs.Places.{is_no_command, is_command, node_behind, place_under, place_in, places_of};
ghost use Rattle.netlabel_report.specs.inside.Telling.{HasCommands};

use crate::report_telling::{CommandPlace, Commands};
use call_report::{Status, script_with_text};
use domain_map::{Name, read_name};
use mls_label::OutOfMemory;
use net_io::{Depot, Sink};
use script_lines::{Word, next_line, words_into};
use std::alloc::Global;

/// Reads a script, and takes where its commands stand. Where there is none it tells why, and answers how the call ends.
pub(crate) fn commands_of<D: Depot, S: Sink>(
    alloc: Global,
    file: &str,
    depot: &mut D,
    out: &mut S,
) -> Result<Commands, Status>
    ensures ok { IfOk result (HasCommands (Some file.now)
        (record { folder = D.state depot.old; stream = S.state out.old })
        (record { folder = D.state depot.new; stream = S.state out.new })) }
    ensures err { IfErr result (IsScriptEnd file.now
        (record { folder = D.state depot.old; stream = S.state out.old })
        (record { folder = D.state depot.new; stream = S.state out.new })) }
{
    let text = match script_with_text(alloc, file, depot, out) {
        Ok((_, text)) => text,
        Err(status) => return Err(status),
    };
    match places_of(alloc, &text) {
        Ok(places) => Ok(Commands::at(places)),
        Err(OutOfMemory) => Err(Status::OutOfMemory),
    }
}

/// Where the commands of a script's text stand.
fn places_of(alloc: Global, text: &[u8]) -> Result<Vec<CommandPlace>, OutOfMemory>
    ensures { IfOk result (λ places. places.items ≡ places_of text.now) }
{
    let mut places = Vec::new(alloc);
    let mut words = Vec::new(alloc);
    let mut node = None;
    let mut number: u64 = 1;
    let mut rest = text;
    while let Some((line, behind)) = next_line(rest) {
        words_into(line, &mut words)?;
        add_place(&node, number, &words, &mut places)?;
        node = node_behind(node, &words);
        number += 1;
        rest = behind;
    }
    Ok(places)
}

/// Adds the place of a line of these words, where it is a command.
fn add_place(
    node: &Option<Name>,
    line: u64,
    words: &[Word<'_>],
    places: &mut Vec<CommandPlace>,
) -> Result<(), OutOfMemory>
    ensures { OnOk result (places.new.items
        ≡ places.old.items ++ place_in node.now line words.now) }
{
    if !is_command(words) {
        return Ok(());
    }
    add_under(node, line, places)
}

fn add_under(
    node: &Option<Name>,
    line: u64,
    places: &mut Vec<CommandPlace>,
) -> Result<(), OutOfMemory>
    ensures { OnOk result (places.new.items ≡ places.old.items ++ place_under node.now line) }
{
    if let Some(name) = node {
        places.push(CommandPlace {
            line,
            node: name.copy(),
        })?;
    }
    Ok(())
}

/// Whether a line of these words is a command.
fn is_command(words: &[Word<'_>]) -> bool
    ensures { result ≡ is_command words.now }
{
    match words {
        [] => false,
        [first, ..] => !is_no_command(first.text()),
    }
}

/// Whether the first word of a line says that it is no command.
fn is_no_command(word: &[u8]) -> bool
    ensures { result ≡ is_no_command word.now }
{
    word == b"node".as_slice() || word == b"reading".as_slice() || word == b"flow".as_slice()
}

/// The node that is the current one behind a line of these words.
fn node_behind(node: Option<Name>, words: &[Word<'_>]) -> Option<Name>
    ensures { result ≡ node_behind node words.now }
{
    let [first, name, ..] = words else {
        return node;
    };
    if first.text() == b"node".as_slice() {
        return read_name(name.text());
    }
    node
}
