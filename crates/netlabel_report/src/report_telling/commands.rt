//! The commands of a script, by which reports are told.

ghost use Rattle.std.specs.Prelude.{◌≡◌, Some, None, MatchOption};
ghost use Rattle.netlabel_report.specs.report_telling.Fields.{told_in, number_told};
ghost use Rattle.netlabel_report.specs.report_telling.Commands.{is_answer, command_numbered, answered_at, stranger_by, stranger_at};

use call_report::{Field, Form, told_word, whole_number};
use domain_map::Name;
use std::marker::Model;

/// Where a command stands in a script: the number of its line, counted from 1, and the name of its node.
#[derive(Drop)]
pub struct CommandPlace {
    pub line: u64,
    pub node: Name,
}

/// The commands of the script that reports are told by, where there is one. Contracts see their places.
#[derive(Drop)]
pub struct Commands {
    places: Option<Vec<CommandPlace>>,
}

impl Model for Commands {
    ghost use Rattle.std.specs.Prelude.{List, Option, option_map};
    ghost use Rattle.netlabel_report.specs.declared.report_telling.commands.CommandPlace.{CommandPlace};

    ghost Value = { Option (List CommandPlace) };

    ghost view = { λ c. option_map (λ places. places.items) c.places };
}

impl Commands {
    ghost use Rattle.std.specs.Prelude.{◌≡◌, Some, None};
    ghost use Rattle.netlabel_report.specs.report_telling.Commands.{answered_at, stranger_at};

    /// There is no script.
    pub fn unknown() -> Commands
        ensures { result ≡ None }
    {
        Commands { places: None }
    }

    /// The commands that stand at these places.
    pub fn at(places: Vec<CommandPlace>) -> Commands
        ensures { result ≡ Some places.items }
    {
        Commands {
            places: Some(places),
        }
    }

    /// The line in the script of the command that a line answers.
    pub(crate) fn answered_at(&self, form: Form, line: &[u8]) -> Option<u64>
        ensures { result ≡ answered_at self.now form line.now }
    {
        match &self.places {
            Some(places) => line_answered(places, form, line),
            None => None,
        }
    }

    /// The octet at which a line answers a command that isn't the script's.
    pub(crate) fn stranger_at(&self, form: Form, line: &[u8]) -> Option<usize>
        ensures { result ≡ stranger_at self.now form line.now }
    {
        match &self.places {
            Some(places) => stranger_among(places, form, line),
            None => None,
        }
    }
}

/// The line in the script of the command, of those at these places, that a line answers.
fn line_answered(places: &[CommandPlace], form: Form, line: &[u8]) -> Option<u64>
    ensures { result ≡ answered_at (Some places.now) form line.now }
{
    if !is_answer(form) {
        return None;
    }
    match command_numbered(places, number_told(Field::Step, form, line)) {
        Some(place) => Some(place.line),
        None => None,
    }
}

/// The octet at which a line answers another command than those at these places.
fn stranger_among(places: &[CommandPlace], form: Form, line: &[u8]) -> Option<usize>
    ensures { result ≡ stranger_at (Some places.now) form line.now }
{
    if !is_answer(form) {
        return None;
    }
    match command_numbered(places, number_told(Field::Step, form, line)) {
        Some(place) => stranger_to(place, form, line),
        None => Some(8),
    }
}

/// The same of a line that has the number of the command at this place: it may be of another node.
fn stranger_to(place: &CommandPlace, form: Form, line: &[u8]) -> Option<usize>
    ensures { result ≡ stranger_by (Some place.now) (told_in Field.Step form line.now)
        (told_in Field.Node form line.now) }
{
    if place.node.text() == told_word(Field::Node, form.slots(), line) {
        return None;
    }
    Some(told_word(Field::Step, form.slots(), line).len() + 9)
}

/// The command of this number, counted from 1.
fn command_numbered(places: &[CommandPlace], number: u64) -> Option<&CommandPlace>
    ensures { MatchOption result (command_numbered places.now number ≡ None)
        (λ place. command_numbered places.now number ≡ Some place.now) }
{
    let place = (number as usize).checked_sub(1)?;
    places.get(place)
}

/// Whether a line of a form answers a command.
fn is_answer(form: Form) -> bool
    ensures { result ≡ is_answer form }
{
    matches!(form, Form::Done | Form::Refused | Form::Listed)
}

/// The number that a line tells under a field.
pub(crate) fn number_told(field: Field, form: Form, line: &[u8]) -> u64
    ensures { result ≡ number_told field form line.now }
{
    match whole_number(told_word(field, form.slots(), line)) {
        Some(number) => number,
        None => 0,
    }
}
