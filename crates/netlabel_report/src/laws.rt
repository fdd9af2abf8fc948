//! What the definitions are worth, whatever the code does.

ghost use Rattle.std.specs.Prelude.{◌≡◌, ℕ, List, map, Ok, Some};
ghost use Rattle.std.specs.List.{slice_get};
ghost use Rattle.label_commands.specs.declared.script.Script.{Script};
ghost use Rattle.call_report.specs.script_input.ScriptFile.{script_read};
ghost use Rattle.netlabel_report.specs.Places.{places_of};

/// The commands that are taken of a right script are its steps: as many, in the same order, each of its node. So an answer of a run is told with the line of
/// the command that it answers.
pub fn commands_of_scripts_are_their_steps()
    ensures { (file text : List ℕ) (script : Script) → script_read file text ≡ Ok script
        → map (λ place. Some place.node) (places_of text)
        ≡ map (λ step. slice_get script.nodes step.node) script.steps }
{}
