//! The flows of the lines above, with a quick look-up of their names.

ghost use Rattle.std.specs.Prelude.{◌≡◌, ◌<◌, [], ◌∷◌, ◌++◌, length, IfOk, OnErr, OnOk};
ghost use Rattle.std.specs.Str.{bytes_eq};
ghost use Rattle.indexmap.specs.IndexSet.{insert_key, spare};
ghost use Rattle.label_commands.specs.flow_lines.Flow.{inputs_of, outputs_of, is_among};

use crate::flow_lines::file_name::FileName;
use crate::flow_lines::flow::FlowLine;
use indexmap::IndexSet;
use mls_label::OutOfMemory;
use std::alloc::Global;
use std::marker::Model;

/// Flows in the order of their lines. Their names are found by a hash. Contracts see them as a list.
#[derive(Drop)]
pub struct Flows {
    lines: Vec<FlowLine>,
    inputs: IndexSet<FileName>,
    outputs: IndexSet<FileName>,
}

impl Model for Flows {
    ghost use Rattle.std.specs.Prelude.{List};
    ghost use Rattle.label_commands.specs.declared.flow_lines.flow.FlowLine.{FlowLine};

    ghost Value = { List FlowLine };

    ghost use Rattle.label_commands.specs.flow_lines.inside.Used.{HaveNames};

    ghost view = { λ f. f.lines.items };

    ghost invariant = { λ f. HaveNames f.lines.items f.inputs.keys f.outputs.keys };
}

impl Flows {
    /// No flow.
    pub fn empty(alloc: Global) -> Flows
        ensures { result ≡ [] }
    {
        Flows {
            lines: Vec::new(alloc),
            inputs: IndexSet::new(alloc),
            outputs: IndexSet::new(alloc),
        }
    }

    /// The flows, from the first to the last.
    pub fn as_slice(&self) -> &[FlowLine]
        ensures { result.now ≡ self.now }
    {
        &self.lines
    }

    /// Whether a flow reads the file of this name.
    pub(crate) fn is_input(&self, name: &FileName) -> bool
        ensures { result ≡ is_among (inputs_of self.now) name.now }
    {
        self.inputs.contains(name)
    }

    /// Whether a flow writes the file of this name.
    pub(crate) fn is_output(&self, name: &FileName) -> bool
        ensures { result ≡ is_among (outputs_of self.now) name.now }
    {
        self.outputs.contains(name)
    }

    pub(crate) fn allocator(&self) -> Global {
        *self.lines.allocator()
    }

    /// Adds a flow behind the others. After an error nothing has changed.
    pub fn push(&mut self, flow: FlowLine) -> Result<(), OutOfMemory>
        ensures ok { OnOk result (self.new ≡ self.old ++ flow ∷ []) }
        ensures err { OnErr result (self.new ≡ self.old) }
    {
        let alloc = *self.lines.allocator();
        let input = flow.input.copy(alloc)?;
        let output = copy_of(&flow.output, alloc)?;
        self.inputs.reserve(1)?;
        self.outputs.reserve(1)?;
        self.lines.push(flow)?;
        note(&mut self.inputs, input);
        if let Some(name) = output {
            note(&mut self.outputs, name);
        }
        Ok(())
    }
}

fn copy_of(name: &Option<FileName>, alloc: Global) -> Result<Option<FileName>, OutOfMemory>
    ensures { IfOk result (λ copy. copy ≡ name.now) }
{
    match name {
        Some(name) => Ok(Some(name.copy(alloc)?)),
        None => Ok(None),
    }
}

/// Puts a name into a set that has room for it.
fn note(names: &mut IndexSet<FileName>, name: FileName)
    requires { 0 < spare names.old }
    ensures { names.new.keys ≡ insert_key bytes_eq names.old.keys name }
{
    match names.insert(name) {
        Ok(_) => {}
        Err(_) => unreachable!(),
    }
}
