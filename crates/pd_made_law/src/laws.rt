//! A law of the script of a made patch.

ghost use Rattle.std.specs.Prelude.{◌≡◌, ◌≤◌, ℕ, pos, Some};
ghost use Rattle.pd_atom.specs.Names.{Names};
ghost use Rattle.pd_feed.specs.Script.{script_of};
ghost use Rattle.pd_feed.specs.declared.feed.Fed.TheVariants as fed;
ghost use Rattle.pd_script.specs.Tokens.{tokens_of};
ghost use Rattle.pd_script.specs.Scripts.{command_of};
ghost use Rattle.pd_script.specs.declared.commands.Script.TheVariants as script;
ghost use Rattle.pd_made.specs.Scripts.{made_script};
ghost use Rattle.pd_made_law.specs.Records.{cut_record, join_record, end_record, made_records, cut_edit, join_edit};

/// The script of a made patch is its records, and each reads as its edit, in whatever table of names, and brings no names.
pub fn made_scripts_are_commands()
    ensures records { (n : ℕ) → n ≤ 1000 → script_of 0 0 (made_script n) ≡ record { records = made_records n; end = fed.End } }
    ensures cuts { (names : Names) (voice : ℕ) → voice ≤ 1000 → command_of names (tokens_of (cut_record voice)) ≡ Some (pos 1000000, cut_edit voice, names) }
    ensures joins { (names : Names) (voice : ℕ) → voice ≤ 1000 → command_of names (tokens_of (join_record voice)) ≡ Some (pos 0, join_edit voice, names) }
    ensures ends { (names : Names) → command_of names (tokens_of end_record) ≡ Some (pos 0, script.End, names) }
{}
