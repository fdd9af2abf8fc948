//! What the definitions say of each other, for all texts.

ghost use Rattle.std.specs.Prelude.{◌≡◌, ◌≤◌, ℕ, ◌+◌, List, [], ◌∷◌, ◌++◌, length, fold, All, Some, Ok, Err, IsTrue};
ghost use Rattle.std.specs.List.{flat_map};
ghost use Rattle.std.specs.Str.Lines.{lines};
ghost use Rattle.script_lines.specs.declared.stop.LimitName.TheVariants.{Lines};
ghost use Rattle.script_lines.specs.Octet.{is_blank};
ghost use Rattle.script_lines.specs.declared.command.Command.{Command as NodeCommand};
ghost use Rattle.script_lines.specs.declared.command.Step.{Step as StepValue};
ghost use Rattle.script_lines.specs.Form.{Edition, with_labels, with_ranges, with_translations};
ghost use Rattle.script_lines.specs.Command.{command_text, IsCommand};
ghost use Rattle.label_commands.specs.node_readings.Reading.{IsReading};
ghost use Rattle.label_commands.specs.declared.script.Script.{Script};
ghost use Rattle.label_commands.specs.declared.stop.ScriptFault.{ScriptFault};
ghost use Rattle.label_commands.specs.declared.stop.ScriptStop.TheVariants as Stop;
ghost use Rattle.label_commands.specs.Above.{Above, with_step};
ghost use Rattle.label_commands.specs.Line.{limit_of, read_line};
ghost use Rattle.label_commands.specs.Script.{read_lines, no_meanings, read_text, IsScript};
ghost use Rattle.label_commands.specs.Sound.{IsSoundScript, StandsInText};
ghost use Rattle.label_commands.specs.Bounded.{IsBoundedScript};
ghost use Rattle.label_commands.specs.Editions.{has_command};

/// A script keeps within its limits, has a reading of each node, and its steps and hops are of its nodes. Hops are in order, names of
/// captures apart, and the steps above flows don't get fewer.
pub fn scripts_are_sound()
    ensures { (edition : Edition) (own text : List ℕ) (script : Script)
        → IsScript edition own text script
        → IsSoundScript own script }
{}

/// A fault stands in a line of the text, or at its end.
pub fn faults_stand_in_the_text()
    ensures { (edition : Edition) (own text : List ℕ) (fault : ScriptFault)
        → read_text edition own text ≡ Err (Stop.Fault fault) → StandsInText (lines text) fault }
{}

/// A command's written form, with blanks in front of it or none and LF behind it, is one line of a script.
pub fn written_command_is_a_line()
    ensures { (blanks text : List ℕ) (command : NodeCommand)
        → All (λ octet. IsTrue (is_blank octet)) blanks → IsCommand command
        → lines ((blanks ++ command_text command) ++ (10 ∷ text)) ≡
        (blanks ++ command_text command) ∷ lines text }
{}

/// That line is the command as a step of the node that it stands under.
pub fn written_command_is_a_step()
    ensures { (own blanks : List ℕ) (above : Above) (node number : ℕ) (command : NodeCommand)
        → All (λ octet. IsTrue (is_blank octet)) blanks → IsCommand command
        → above.current ≡ Some node → number ≤ limit_of Lines
        → read_line with_translations own above number (blanks ++ command_text command) ≡ Ok
        (with_step above node command) }
{}

/// So a listing of commands, each on a line behind the same blanks, reads back as these steps of the node, whatever stands behind it in
/// the script.
pub fn written_listing_reads_back()
    ensures { (own blanks : List ℕ) (above : Above) (node number : ℕ)
        (commands : List NodeCommand) (text : List ℕ)
        → All (λ octet. IsTrue (is_blank octet)) blanks → All IsCommand commands
        → above.current ≡ Some node → number + length commands ≤ limit_of Lines + 1
        → read_lines with_translations own above number
        (lines
        (flat_map (λ command. (blanks ++ command_text command) ++ (10 ∷ [])) commands ++ text))
        ≡ read_lines with_translations own
        (fold (λ before command. with_step before node command) above commands)
        (number + length commands) (lines text) }
{}

/// A script of the first edition is one of the edition with ranges, with the same nodes, steps, flows and readings: a static entry's
/// label is both its ends, and a receiver's label is the level of a range from the lowest label.
pub fn scripts_with_labels_are_kept()
    ensures { (own text : List ℕ) (script : Script)
        → IsScript with_labels own text script → IsScript with_ranges own text script }
{}

/// A script of the edition with ranges is one of the last edition, with the same nodes, steps, flows and readings.
pub fn scripts_with_ranges_are_kept()
    ensures { (own text : List ℕ) (script : Script)
        → IsScript with_ranges own text script → IsScript with_translations own text script }
{}

/// The numbers and labels of a script's commands and the labels of its flows are within their bounds, and each node's reading is one.
pub fn numbers_of_scripts_are_bounded()
    ensures { (edition : Edition) (own text : List ℕ) (script : Script)
        → IsScript edition own text script
        → IsBoundedScript script }
{}

/// Numbers that nothing names have a reading too: each means itself.
pub fn no_meanings_are_a_reading()
    ensures { IsReading no_meanings }
{}

/// A script's commands are those of its edition: before the last edition none defines a translated CALIPSO DOI, and none takes away one
/// address of a domain.
pub fn commands_are_of_their_edition()
    ensures { (edition : Edition) (own text : List ℕ) (script : Script)
        → IsScript edition own text script
        → All (λ (step : StepValue). IsTrue (has_command edition step.command)) script.steps }
{}
