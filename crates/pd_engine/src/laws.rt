//! Laws over runs.

ghost use Rattle.std.specs.Prelude.{◌≡◌, ◌≤◌, ◌-◌, ℕ, List, Option};
ghost use Rattle.pd_io.specs.declared.files.FileRow.{FileRow};
ghost use Rattle.pd_atom.specs.Names.{Names};
ghost use Rattle.pd_canvas.specs.Pages.{Page};
ghost use Rattle.pd_clock.specs.declared.times.Rate.{Rate};
ghost use Rattle.pd_patch.specs.declared.patch.Patch.{Patch};
ghost use Rattle.pd_script.specs.declared.commands.Command.{Command};
ghost use Rattle.pd_block.specs.Blocks.{block_within};
ghost use Rattle.pd_stage.specs.Choices.{Base, Choice};
ghost use Rattle.pd_stage.specs.Lawful.{AreLawful};
ghost use Rattle.pd_stage.specs.Stages.{Stage};
ghost use Rattle.pd_stage.specs.Trees.{HasTree};
ghost use Rattle.pd_stage.specs.Times as times;
ghost use Rattle.pd_engine.specs.Commands.{commanded};
ghost use Rattle.pd_engine.specs.Opening.{Grows, opened};

/// Where a patch opens a tree stands, and in a run in which each edit is lawful one goes on to stand: all of the patch stays but its clocks,
/// what its boxes keep, the blocks of their outlets, its wires with their links and orders, which stay sound, the boxes that edits put, delete,
/// move or make others, and the ports that come with them. So each block is the same as one in which more canvases might lie in one another: no
/// box is ever silent because it lies too deep.
pub fn blocks_are_whole()
    ensures opened { (holds : Option (List FileRow)) (name : List ℕ) (rate : Rate) (d : Page) (names table : Names) (p : Patch) (base : Base)
        (ahead : List Choice) → Grows holds name rate d names p table base → AreLawful (opened name p table base ahead).edits →
        HasTree (opened name p table base ahead).stage }
    ensures commanded { (c : Command) (s : Stage) → HasTree s → AreLawful (commanded c s).edits → HasTree (commanded c s).stage }
    ensures fired { (limit : ℕ) (s : Stage) → HasTree s → AreLawful (times.clocks_fire limit s).edits → HasTree (times.clocks_fire limit s).stage }
    ensures sounded { (s : Stage) → HasTree s → HasTree (times.block_sounds s).stage }
    ensures advanced { (to : ℕ) (s : Stage) → HasTree s → AreLawful (times.advanced to s).edits → HasTree (times.advanced to s).stage }
    ensures finished { (s : Stage) → HasTree s → AreLawful (times.finished s).edits → HasTree (times.finished s).stage }
    ensures blocks { (s : Stage) (levels : ℕ) → HasTree s → 256 ≤ levels →
        block_within levels (times.block_net s) (times.sound_at s) (s.block_end - times.block_units) ≡ times.played_at s }
{
    pd_block::levels_are_enough();
}
