//! Worked lines: their words in `lines`, faults and readings in `forms`, commands copied and written in `commands`.

mod commands;
mod forms;
mod lines;

use script_lines::{LineStop, Said, read_said, words_into};
use std::alloc::Global;
use std::process::Abort;

/// What a line says that doesn't stand behind `netlabelctl`.
fn said_by(rt: &impl Abort, alloc: Global, line: &str) -> Result<Said, LineStop> {
    let mut words = Vec::new(alloc);
    words_into(line.as_bytes(), &mut words).expect(rt, "memory");
    read_said(alloc, false, &words, line.len())
}
