//! The publisher.

ghost use Rattle.std.specs.Prelude.{◌≡◌, ◌+◌, ◌<◌, ◌≤◌, length, drop, OnOk, OnErr};
ghost use Rattle.std.specs.Arc.{arc_value};
ghost use Rattle.left_right.specs.Sides.{view};
ghost use Rattle.shared_tables.specs.inside.Name.{board_name};
ghost use Rattle.shared_tables.specs.inside.Rule.{known};
ghost use Rattle.shared_tables.specs.inside.Ready.{HasPublished};

use crate::note::Note;
use crate::rule::{Rule, Sees, View};
use crate::state::{Advance, State};
use core::mem;
use left_right::writer::Writer;
use mls_label::OutOfMemory;
use std::alloc::AllocError;
use std::marker::Model;
use std::sync::Wait;

/// The one who makes the steps. It can't be dropped: it ends by `close`.
pub struct Publisher {
    writer: Writer<State, Advance, View, Rule>,
}

impl Model for Publisher {
    ghost use Rattle.std.specs.Arc.{arc_value};
    ghost use Rattle.std.specs.Prelude.{length, drop};
    ghost use Rattle.left_right.specs.Sides as sides;
    ghost use Rattle.shared_tables.specs.Board.{PublisherState};
    ghost use Rattle.shared_tables.specs.inside.Name.{board_name};
    ghost use Rattle.shared_tables.specs.inside.Ready.{IsReady};

    ghost Value = { PublisherState };

    ghost view = { λ p. record { board = board_name; plan = arc_value p.writer.desk.shown.value.plan; version = p.writer.desk.shown.value.version } };

    ghost invariant = { λ p. IsReady p.writer.desk.shown.value (sides.view p.writer.desk.place)
        (length (drop p.writer.behind p.writer.log.items)) };
}

impl Publisher {
    pub(crate) fn of(writer: Writer<State, Advance, View, Rule>) -> Publisher
        requires knows { view writer.desk.place ≡ known
            (arc_value writer.desk.shown.value.plan) writer.desk.shown.value.version }
        requires none { length (drop writer.behind writer.log.items) ≡ 0 }
        ensures { result
            ≡ record {
              board = board_name;
              plan = arc_value writer.desk.shown.value.plan;
              version = writer.desk.shown.value.version;
            } }
    {
        Publisher { writer }
    }

    /// Publishes the next step in one moment; a listing and a refusal are versions as well. It waits for viewers that still look at the
    /// version before the last. After an error the published version is the same, and the next call publishes that step, once.
    pub fn step<R: Wait>(&mut self, rt: &R) -> Result<(), OutOfMemory>
        requires { self.old.version < length self.old.plan.steps }
        ensures ok { OnOk result (self.new ≡ record self.old { version = self.old.version + 1 }) }
        ensures err { OnErr result (self.new ≡ self.old) }
    {
        let Publisher { writer } = self;
        append(writer)?;
        match mem::replace_with(writer, rt, |writer, rt| publish(writer, rt)) {
            Ok(()) => Ok(()),
            Err(_) => Err(OutOfMemory),
        }
    }

    /// How many steps are published.
    pub fn version(&self) -> u32
        ensures value { result ≡ self.now.version }
        ensures within { result ≤ length self.now.plan.steps }
    {
        self.writer.published().version
    }

    /// A note of the published version, for a viewer to learn.
    pub fn tell(&mut self) -> Note
        ensures note { result ≡ record { board = self.old.board; version = self.old.version } }
        ensures same { self.new ≡ self.old }
    {
        Note::of(self.writer.published().version)
    }

    /// Waits for viewers to leave, and drops the tables.
    pub fn close<R: Wait>(self, rt: &R) {
        let Publisher { writer } = self;
        drop(writer.take(rt));
    }
}

// Appends the step, unless it is appended already.
fn append(writer: &mut Writer<State, Advance, View, Rule>) -> Result<(), OutOfMemory>
    requires { length (drop writer.old.behind writer.old.log.items) ≤ 1 }
    ensures desk { writer.new.desk ≡ writer.old.desk }
    ensures ok { OnOk result (length (drop writer.new.behind writer.new.log.items) ≡ 1) }
    ensures err { OnErr result
        (length (drop writer.new.behind writer.new.log.items) ≡ length
        (drop writer.old.behind writer.old.log.items)) }
{
    if writer.has_pending_operations() {
        return Ok(());
    }
    writer.append(Advance).map_err(|_| OutOfMemory)
}

// Publishes what is pending.
pub(crate) fn publish<R: Wait>(
    writer: Writer<State, Advance, View, Rule>,
    rt: &R,
) -> (Writer<State, Advance, View, Rule>, Result<(), AllocError>)
    ensures ok { OnOk result.1
        (HasPublished writer.desk.shown.value
        (length (drop writer.behind writer.log.items)) result.0.desk.shown.value
        (length (drop result.0.behind result.0.log.items)) (view result.0.desk.place)) }
    ensures err { OnErr result.1
        ((result.0.desk.shown.value ≡ writer.desk.shown.value)
        × (drop result.0.behind result.0.log.items ≡ drop writer.behind writer.log.items)
        × (view result.0.desk.place ≡ view writer.desk.place)) }
{
    writer.publish_as::<Sees, R>(rt)
}
