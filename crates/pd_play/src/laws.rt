//! A law of runs.

ghost use Rattle.std.specs.Prelude.{◌≡◌, ℕ, List};
ghost use Rattle.pd_atom.specs.Names.{Names};
ghost use Rattle.pd_feed.specs.Script.{Script as Text};
ghost use Rattle.pd_patch.specs.declared.patch.Patch.{Patch};
ghost use Rattle.pd_made.specs.Tallies.{nothing, tallied};
ghost use Rattle.pd_stage.specs.Items.{samples_of};
ghost use Rattle.pd_stage.specs.Choices.{Base, Choice};
ghost use Rattle.pd_stage.specs.Sums.{AddsUp};
ghost use Rattle.pd_engine.specs.Opening.{opened};
ghost use Rattle.pd_play.specs.Runs.{Point, Run, Ending, behind, run_of};
ghost use Rattle.pd_play.specs.Patches.{start};

/// The run of a script adds up all its samples. So does a whole run, from where a patch opens: where it ends stands what all its samples add up to.
pub fn runs_add_up()
    ensures scripts { (ending : Ending) (text : Text) (p : Point) → AddsUp p.stage (run_of ending text p).passage }
    ensures wholes { (file : List ℕ) (patch : Patch) (names : Names) (base : Base) (edits : List Choice) (rate : ℕ) (ending : Ending)
        (text : Text) →
        let part = opened file patch names base edits in
        let passage = (behind part (run_of ending text (start part.stage rate))).passage in
        passage.stage.tally ≡ tallied nothing (samples_of passage.items) }
{}
