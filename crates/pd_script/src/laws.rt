//! Laws over reading.
ghost use Rattle.std.specs.Prelude.{◌≡◌, ℕ, ℤ, List, Some};
ghost use Rattle.pd_atom.specs.Names.{Names, Extends};
ghost use Rattle.pd_script.specs.declared.commands.Script.{Script};
ghost use Rattle.pd_script.specs.Scripts.{command_of};
ghost use Rattle.pd_script.specs.Origins.{ScriptFrom};

/// A record that is read leaves a table of names that goes on, and a message that it sends is what some of its tokens read as.
pub fn tables_go_on()
    ensures { (names after : Names) (tokens : List (List ℕ)) (ms : ℤ) (s : Script) → command_of names tokens ≡ Some (ms, s, after) →
        Extends names after × ScriptFrom names after s }
{}
