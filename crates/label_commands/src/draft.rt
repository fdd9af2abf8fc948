//! A script in the making.

ghost use Rattle.std.specs.Prelude.{◌≡◌, ◌<◌, ◌^◌, length, map, unwrap_or, IfOk, IfErr, OnOk, Ok};
ghost use Rattle.script_lines.specs.Stop.{IsStopOf};
ghost use Rattle.script_lines.specs.Form.{with_translations};
ghost use Rattle.label_commands.specs.Above.{nothing_above, at_node, with_step, has_reading, with_reading};
ghost use Rattle.label_commands.specs.Line.{read_node, read_reading, with_said, read_table, read_flow_line, read_words, names_new_node, limit_passed, read_line};
ghost use Rattle.label_commands.specs.Script.{no_meanings, script_of};

use crate::flow_lines::{Flows, NodeNames, read_flow};
use crate::limit::{MOST_FLOWS, MOST_LINES, MOST_NODES};
use crate::line::{
    is_flow_line, is_reading, read_command, read_led, read_meanings, read_only_name, starts_table,
};
use crate::node_readings::Reading;
use crate::script::Script;
use doi_table::Listed;
use domain_map::{Name, read_name};
use mls_label::OutOfMemory;
use script_lines::{
    Command, Fields, LimitName, LineStop, Said, ScriptKind, Step, Word, first_unfit, is_word,
    words_into,
};
use std::alloc::Global;
use std::marker::Model;

/// A script in the making. Contracts see what its lines say so far.
#[derive(Drop)]
pub(crate) struct Draft {
    alloc: Global,
    nodes: NodeNames,
    current: Option<usize>,
    steps: Vec<Step>,
    /// At least one for each node.
    readings: Vec<Option<Reading>>,
    flows: Flows,
}

impl Model for Draft {
    ghost use Rattle.label_commands.specs.Above.{Above};

    ghost Value = { Above };

    ghost use Rattle.label_commands.specs.inside.Rooms.{HasRooms};

    ghost view = { λ d. record { nodes = d.nodes; current = d.current; steps = d.steps.items; readings = d.readings.items; flows = d.flows } };

    ghost invariant = { λ d. HasRooms d.nodes d.current d.readings.items };
}

impl Draft {
    /// Nothing is said.
    pub fn empty(alloc: Global) -> Draft
        ensures { result ≡ nothing_above }
    {
        Draft {
            alloc,
            nodes: NodeNames::empty(alloc),
            current: None,
            steps: Vec::new(alloc),
            readings: Vec::new(alloc),
            flows: Flows::empty(alloc),
        }
    }

    /// Adds what a line says, in the room for its words. `own` is the script's own name; lines are counted from 1.
    #[tactic(auto, unfolding(crate::specs::Line::read_line))]
    pub fn read_line<'a>(
        &mut self,
        own: &str,
        number: u32,
        line: &'a [u8],
        words: &mut Vec<Word<'a>>,
    ) -> Result<(), LineStop>
        requires { length self.old.steps < 2 ^ 32 }
        ensures ok { OnOk result
            (read_line with_translations own.now self.old number line.now ≡ Ok self.new) }
        ensures stop { IfErr result
            (IsStopOf (read_line with_translations own.now self.old number line.now)) }
    {
        if let Some(place) = first_unfit(line) {
            return Err(LineStop::at(place, ScriptKind::Octet));
        }
        words_into(line, words)?;
        if let Some(what) = self.limit_passed(number, words) {
            return Err(LineStop::Limit(what));
        }
        self.read_words(own, line.len(), words)
    }

    /// The first limit that a line of these words passes.
    #[tactic(auto, unfolding(crate::specs::Line::limit_passed))]
    fn limit_passed(&self, number: u32, words: &[Word]) -> Option<LimitName>
        ensures { result ≡ limit_passed self.now number words.now }
    {
        if number > MOST_LINES {
            return Some(LimitName::Lines);
        }
        if self.names_new_node(words) && self.nodes.len() >= MOST_NODES {
            return Some(LimitName::Nodes);
        }
        if is_flow_line(words) && self.flows.as_slice().len() >= MOST_FLOWS {
            return Some(LimitName::Flows);
        }
        None
    }

    fn names_new_node(&self, words: &[Word]) -> bool
        ensures { result ≡ names_new_node self.now words.now }
    {
        let [first, word, ..] = words else {
            return false;
        };
        if !is_word(first.text(), "node") {
            return false;
        }
        match read_name(word.text()) {
            Some(name) => self.nodes.number_of(&name).is_none(),
            None => false,
        }
    }

    #[tactic(auto, unfolding(crate::specs::Line::read_words))]
    fn read_words(&mut self, own: &str, end: usize, words: &[Word]) -> Result<(), LineStop>
        requires { length self.old.steps < 2 ^ 32 }
        ensures ok { OnOk result
            (read_words with_translations own.now self.old end words.now ≡ Ok self.new) }
        ensures stop { IfErr result
            (IsStopOf (read_words with_translations own.now self.old end words.now)) }
    {
        let [first, behind @ ..] = words else {
            return Ok(());
        };
        if is_word(first.text(), "node") {
            return self.read_node(end, behind);
        }
        if is_word(first.text(), "flow") {
            return self.read_flow_line(own, end, behind);
        }
        self.read_table(end, first, words)
    }

    fn read_node(&mut self, end: usize, words: &[Word]) -> Result<(), LineStop>
        ensures ok { OnOk result (read_node self.old end words.now ≡ Ok self.new) }
        ensures stop { IfErr result (IsStopOf (read_node self.old end words.now)) }
    {
        let name = read_only_name(end, words)?;
        self.go_to(name)?;
        Ok(())
    }

    /// The node of this name becomes the current one, new or not.
    fn go_to(&mut self, name: Name) -> Result<(), OutOfMemory>
        ensures { OnOk result (self.new ≡ at_node self.old name) }
    {
        if let Some(node) = self.nodes.number_of(&name) {
            self.current = Some(node);
            return Ok(());
        }
        self.readings.push(None)?;
        let node = self.nodes.add(name)?;
        self.current = Some(node);
        Ok(())
    }

    fn read_flow_line(&mut self, own: &str, end: usize, words: &[Word]) -> Result<(), LineStop>
        requires { length self.old.steps < 2 ^ 32 }
        ensures ok { OnOk result (read_flow_line own.now self.old end words.now ≡ Ok self.new) }
        ensures stop { IfErr result (IsStopOf (read_flow_line own.now self.old end words.now)) }
    {
        let before = self.steps.len() as u32;
        let flow = read_flow(own, &self.nodes, &self.flows, before, end, words)?;
        self.flows.push(flow)?;
        Ok(())
    }

    fn read_table(&mut self, end: usize, first: &Word, words: &[Word]) -> Result<(), LineStop>
        ensures ok { OnOk result
            (read_table with_translations self.old end first.now words.now ≡ Ok self.new) }
        ensures stop { IfErr result
            (IsStopOf (read_table with_translations self.old end first.now words.now)) }
    {
        let Some(node) = self.current else {
            let kind = if starts_table(first) {
                ScriptKind::NoNode
            } else {
                ScriptKind::Word
            };
            return Err(LineStop::at(first.at(), kind));
        };
        let said = read_led(self.alloc, end, words)?;
        self.add_said(node, first.at(), end, said)
    }

    /// Adds what a row's line says of a node; the line begins at `place`.
    fn add_said(
        &mut self,
        node: usize,
        place: usize,
        end: usize,
        said: Said,
    ) -> Result<(), LineStop>
        requires { node < length self.old.readings }
        ensures ok { OnOk result (with_said self.old node place end said ≡ Ok self.new) }
        ensures stop { IfErr result (IsStopOf (with_said self.old node place end said)) }
    {
        if is_reading(said.row) {
            return self.read_reading(node, place, &said.fields);
        }
        let command = read_command(end, said)?;
        self.add_step(node, command)?;
        Ok(())
    }

    fn add_step(&mut self, node: usize, command: Command) -> Result<(), OutOfMemory>
        ensures { OnOk result (self.new ≡ with_step self.old node command) }
    {
        self.steps.push(Step { node, command })?;
        Ok(())
    }

    fn read_reading(&mut self, node: usize, place: usize, fields: &Fields) -> Result<(), LineStop>
        requires { node < length self.old.readings }
        ensures ok { OnOk result (read_reading self.old node place fields.now ≡ Ok self.new) }
        ensures stop { IfErr result (IsStopOf (read_reading self.old node place fields.now)) }
    {
        if self.readings[node].is_some() {
            return Err(LineStop::at(place, ScriptKind::ReadingTwice));
        }
        let reading = read_meanings(self.alloc, place, fields)?;
        self.add_reading(node, reading);
        Ok(())
    }

    fn add_reading(&mut self, node: usize, reading: Reading)
        requires { node < length self.old.readings }
        ensures { self.new ≡ with_reading self.old node reading }
    {
        self.readings[node] = Some(reading);
    }

    /// The script of all lines.
    pub fn finish(self) -> Result<Script, OutOfMemory>
        ensures { IfOk result (λ script. script ≡ script_of self) }
    {
        let Draft {
            alloc,
            nodes,
            current: _,
            steps,
            readings,
            flows,
        } = self;
        let readings = all_readings(alloc, readings)?;
        Ok(Script {
            nodes,
            steps: Listed::from_vec(steps),
            flows,
            readings: Listed::from_vec(readings),
        })
    }
}

/// The readings of all nodes: the empty one where no line gives one.
fn all_readings(alloc: Global, given: Vec<Option<Reading>>) -> Result<Vec<Reading>, OutOfMemory>
    ensures { IfOk result
        (λ all. all.items ≡ map (λ named. unwrap_or named no_meanings) given.items) }
{
    let mut all = Vec::with_capacity(alloc, given.len())?;
    for reading in given {
        let reading = match reading {
            Some(reading) => reading,
            None => Reading::identity(alloc)?,
        };
        all.push(reading)?;
    }
    Ok(all)
}
