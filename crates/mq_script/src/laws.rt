// What holds of printed scripts.
ghost use Rattle.std.specs.Prelude.{◌≡◌, ◌≤◌, length, Ok};
ghost use Rattle.mq_script.specs.Grammar.{IsScript};
ghost use Rattle.mq_script.specs.Printing.{script_text};
ghost use Rattle.mq_script.specs.Reading.{script_in};
ghost use Rattle.mq_script.specs.Scripts.{Script};

/// Reading the text of a printed script gives the script, if the text is not too long.
pub fn printed_scripts_are_read()
    ensures { (script : Script)
        → IsScript script
        → length (script_text script) ≤ 16777216
        → script_in (script_text script) ≡ Ok script }
{}
